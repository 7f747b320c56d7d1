// What commands print.
ghost use Rattle.std.specs.Prelude.{◌≡◌, ◌++◌, IfOk, OnOk, string_bytes};
ghost use Rattle.site_headers.specs.Views.{space_of};
ghost use Rattle.site_model.specs.Texts.{counts_text, space_text};

use site_headers::SpaceHead;
use std::alloc::{AllocError, Global};

/// Of records that stand: how many, how many of them Commits, and the end of the log.
pub fn counts_line(alloc: Global, lines: u64, commits: u64, end: u64) -> Result<String, AllocError>
    ensures { IfOk result (λ text. string_bytes text ≡ counts_text lines commits end) }
{
    format!(in alloc; "lines {lines} commits {commits} end {end}\n")
}

/// Appends the line of a space that was made.
pub fn push_space_line(
    alloc: Global,
    text: &mut String,
    space: &SpaceHead,
) -> Result<(), AllocError>
    ensures { OnOk result (string_bytes text.new ≡ string_bytes text.old ++ space_text (space_of space.now)) }
{
    let name = space.name.as_str();
    let pages = space.pages;
    let line = format!(in alloc; "space {name} pages {pages}\n")?;
    text.push_str(&line)
}
