//! What a line of a script of XBSA calls says.
ghost use Rattle.std.specs.Prelude.{◌≡◌, ◌≤◌, IfOk, IfSome};
ghost use Rattle.std.specs.Option.{option_map};
ghost use Rattle.bsa_lines.specs.Lines.{bare_line, operand_line, keyword_line, bsa_line_of, IsLine};
ghost use Rattle.bsa_lines.specs.BsaLine.{line_of_bsa, read_of};

use crate::TextField;
use crate::numbers::copy_id_in;
use crate::operands::bytes_in;
use crate::settings::read_set;
use arrayvec::ArrayVec;
use bsa_descriptor::{CopyType, ObjectStatus, ObjectType};
use onbar_grammar::{Why, number_within, parts_at};

/// What one line says.
#[derive(Clone, Debug, PartialEq, Eq, Drop)]
pub enum BsaLine {
    /// `set FIELD VALUE`, for a field that takes a text; so the next five, for the others.
    SetText {
        field: TextField,
        /// At most as many bytes as the field has.
        value: ArrayVec<u8, 1024>,
    },
    SetOrder {
        value: u64,
    },
    SetSize {
        value: u64,
    },
    SetCopyType {
        value: CopyType,
    },
    SetObjectType {
        value: ObjectType,
    },
    SetStatus {
        value: ObjectStatus,
    },
    /// `clear`
    Clear,
    /// `init V`
    Init {
        volume: u16,
    },
    /// `begin`
    Begin,
    /// `create`
    Create,
    /// `send HEX`
    Send {
        bytes: ArrayVec<u8, 4096>,
    },
    /// `enddata`
    EndData,
    /// `query`
    Query,
    /// `next`
    Next,
    /// `get ID`
    Get {
        copy: u64,
    },
    /// `data N`
    Data {
        count: u16,
    },
    /// `delete ID`
    Delete {
        copy: u64,
    },
    /// `end N`
    End {
        vote: u8,
    },
    /// `terminate`
    Terminate,
}

/// What one line says, `None` where it is empty; `Words` exactly where it isn't in the table.
pub fn read_bsa_line(bytes: &[u8]) -> Result<Option<BsaLine>, Why>
    ensures exact { read_of result ≡ bsa_line_of bytes.now }
    ensures fits { IfOk result (λ line. IfSome line (λ line. IsLine (line_of_bsa line))) }
{
    if bytes.is_empty() {
        return Ok(None);
    }
    match read_line(bytes) {
        Some(line) => Ok(Some(line)),
        None => Err(Why::Words),
    }
}

fn read_line(bytes: &[u8]) -> Option<BsaLine>
    ensures { option_map line_of_bsa result ≡ keyword_line bytes.now }
{
    match parts_at(b' ', bytes) {
        Some((keyword, rest)) => read_with_operand(keyword, rest),
        None => read_bare(bytes),
    }
}

/// A line of a keyword alone.
fn read_bare(keyword: &[u8]) -> Option<BsaLine>
    ensures { option_map line_of_bsa result ≡ bare_line keyword.now }
{
    if keyword == b"clear".as_slice() {
        Some(BsaLine::Clear)
    } else if keyword == b"begin".as_slice() {
        Some(BsaLine::Begin)
    } else if keyword == b"create".as_slice() {
        Some(BsaLine::Create)
    } else if keyword == b"enddata".as_slice() {
        Some(BsaLine::EndData)
    } else if keyword == b"query".as_slice() {
        Some(BsaLine::Query)
    } else if keyword == b"next".as_slice() {
        Some(BsaLine::Next)
    } else if keyword == b"terminate".as_slice() {
        Some(BsaLine::Terminate)
    } else {
        None
    }
}

/// A line of a keyword and what follows it behind one space.
fn read_with_operand(keyword: &[u8], rest: &[u8]) -> Option<BsaLine>
    ensures { option_map line_of_bsa result ≡ operand_line keyword.now rest.now }
{
    if keyword == b"set".as_slice() {
        read_set(rest)
    } else if keyword == b"init".as_slice() {
        let volume = number_within(0, 16, rest)?;
        Some(BsaLine::Init {
            volume: volume as u16,
        })
    } else if keyword == b"send".as_slice() {
        let bytes = bytes_in(rest)?;
        Some(BsaLine::Send { bytes })
    } else if keyword == b"get".as_slice() {
        let copy = copy_id_in(rest)?;
        Some(BsaLine::Get { copy })
    } else if keyword == b"data".as_slice() {
        let count = number_within(1, 4_096, rest)?;
        Some(BsaLine::Data {
            count: count as u16,
        })
    } else if keyword == b"delete".as_slice() {
        let copy = copy_id_in(rest)?;
        Some(BsaLine::Delete { copy })
    } else if keyword == b"end".as_slice() {
        let vote = number_within(0, 255, rest)?;
        Some(BsaLine::End { vote: vote as u8 })
    } else {
        None
    }
}
