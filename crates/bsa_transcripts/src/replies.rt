//! What calls answer, as it is printed.
ghost use Rattle.std.specs.Prelude.{◌≡◌, ◌++◌, IfOk, OnOk, string_bytes};
ghost use Rattle.std.specs.List.{flat_map};
ghost use Rattle.bsa_transcripts.specs.Texts.{copies_text, ended_text, match_text, match_lines, reply_text};

use crate::words::{code_name, copy_type_name, object_type_name, status_name};
use arrayvec::ArrayVec;
use bsa_descriptor::Descriptor;
use session_machine::BsaRc;
use std::alloc::{AllocError, Global};

/// What a line of a script is answered.
#[derive(Debug, Drop)]
pub enum Reply {
    /// No call was made.
    Nothing,
    /// The code alone.
    Code(BsaRc),
    /// An object that was sent is ended.
    Sent {
        size: u64,
        digest: [u8; 32],
    },
    /// A match of a query, with its status.
    Found {
        copy: u64,
        size: u64,
        descriptor: Descriptor,
    },
    /// An object is fetched from its begin on.
    Opened {
        size: u64,
    },
    /// The next bytes of it.
    Given {
        bytes: ArrayVec<u8, 4096>,
    },
    /// A transaction is ended, and its new objects have these copy ids.
    Ended {
        copies: Vec<u64>,
    },
}

fn match_line(
    alloc: Global,
    copy: u64,
    size: u64,
    descriptor: &Descriptor,
) -> Result<String, AllocError>
    ensures { IfOk result (λ text. string_bytes text ≡ match_text copy size descriptor.now) }
{
    let copy_type = copy_type_name(descriptor.copy_type);
    let object_type = object_type_name(descriptor.object_type);
    let status = status_name(descriptor.status);
    format!(in alloc; "Success copy {copy} {copy_type} {object_type} {status} size {size}\n")
}

// A match, in three lines.
fn match_of(
    alloc: Global,
    copy: u64,
    size: u64,
    descriptor: &Descriptor,
) -> Result<String, AllocError>
    ensures { IfOk result (λ text. string_bytes text ≡ match_lines copy size descriptor.now) }
{
    let mut text = match_line(alloc, copy, size, descriptor)?;
    let space = descriptor.space.as_str();
    let path = descriptor.path.as_str();
    let names = format!(in alloc; " space {space}\n path {path}\n")?;
    text.push_str(&names)?;
    Ok(text)
}

fn push_copy(alloc: Global, text: &mut String, copy: u64) -> Result<(), AllocError>
    ensures { OnOk result (string_bytes text.new ≡ string_bytes text.old ++ copies_text copy) }
{
    let id = format!(in alloc; " copy {copy}")?;
    text.push_str(&id)
}

fn push_copies(alloc: Global, text: &mut String, copies: &[u64]) -> Result<(), AllocError>
    ensures { OnOk result (string_bytes text.new ≡ string_bytes text.old ++ flat_map copies_text copies.now) }
{
    for copy in copies {
        push_copy(alloc, text, *copy)?;
    }
    Ok(())
}

// The end of a transaction.
fn ended_line(alloc: Global, copies: &[u64]) -> Result<String, AllocError>
    ensures { IfOk result (λ text. string_bytes text ≡ ended_text copies.now) }
{
    let mut text = String::from_str(alloc, "Success")?;
    push_copies(alloc, &mut text, copies)?;
    text.push_str("\n")?;
    Ok(text)
}

/// The text of an answer.
pub fn reply_text(alloc: Global, reply: &Reply) -> Result<String, AllocError>
    ensures { IfOk result (λ text. string_bytes text ≡ reply_text reply.now) }
{
    match reply {
        Reply::Nothing => Ok(String::new(alloc)),
        Reply::Code(code) => {
            let name = code_name(*code);
            format!(in alloc; "{name}\n")
        }
        Reply::Sent { size, digest } => {
            let digits = hex::encode(alloc, digest)?;
            format!(in alloc; "Success size {size} digest {digits}\n")
        }
        Reply::Found {
            copy,
            size,
            descriptor,
        } => match_of(alloc, *copy, *size, descriptor),
        Reply::Opened { size } => format!(in alloc; "Success size {size}\n"),
        Reply::Given { bytes } => {
            let digits = hex::encode(alloc, bytes.as_slice())?;
            format!(in alloc; "Success {digits}\n")
        }
        Reply::Ended { copies } => ended_line(alloc, copies),
    }
}
