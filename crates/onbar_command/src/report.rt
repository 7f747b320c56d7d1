// What a command tells of what its form did.
ghost use Rattle.std.specs.Prelude.{◌≡◌, ◌++◌, IfOk, string_bytes};
ghost use Rattle.std.specs.List.{flat_map};
ghost use Rattle.site_headers.specs.Views.{spaces_of};
ghost use Rattle.site_model.specs.Texts.{space_text, status_text};
ghost use Rattle.site_forms.specs.Reports.{status_of_end, status_told, text_told};

use crate::text::{counts_line, push_space_line};
use command_texts::status_line;
use site_forms::Report;
use site_headers::SpaceHead;
use site_model::Status;
use site_scripts::ScriptEnd;
use std::alloc::{AllocError, Global};

/// A line for each space of a site that was formatted.
fn space_lines(alloc: Global, spaces: &[SpaceHead]) -> Result<String, AllocError>
    ensures { IfOk result (λ text. string_bytes text ≡ flat_map space_text (spaces_of spaces.now)) }
{
    let mut text = String::new(alloc);
    for space in spaces {
        push_space_line(alloc, &mut text, space)?;
    }
    Ok(text)
}

fn end_status(ending: ScriptEnd) -> Status
    ensures { result ≡ status_of_end ending }
{
    match ending {
        ScriptEnd::Done => Status::Ok,
        ScriptEnd::Fault { line, why } => Status::ScriptFault { line, why },
        ScriptEnd::Full(full) => Status::LogFull(full),
    }
}

// The lines before the last one, and the status.
fn front_told(alloc: Global, done: Result<Report, Status>) -> Result<(String, Status), AllocError>
    ensures text { IfOk result (λ told. text_told done ≡ string_bytes told.0 ++ status_text told.1) }
    ensures status { IfOk result (λ told. told.1 ≡ status_told done) }
{
    match done {
        Ok(Report::Extended(told)) => {
            let text = counts_line(alloc, told.lines, told.commits, told.end)?;
            Ok((text, end_status(told.ending)))
        }
        Ok(Report::Formatted { spaces }) => Ok((space_lines(alloc, &spaces)?, Status::Ok)),
        Ok(Report::Shown { text }) => Ok((text, Status::Ok)),
        Err(status) => Ok((String::new(alloc), status)),
    }
}

/// All that a command prints, and its status.
pub fn told(alloc: Global, done: Result<Report, Status>) -> Result<(String, Status), AllocError>
    ensures text { IfOk result (λ told. string_bytes told.0 ≡ text_told done) }
    ensures status { IfOk result (λ told. told.1 ≡ status_told done) }
{
    let (mut text, status) = front_told(alloc, done)?;
    let last = status_line(alloc, &status)?;
    text.push_str(&last)?;
    Ok((text, status))
}
