//! The fields that a script sets.
ghost use Rattle.std.specs.Prelude.{◌≡◌};
ghost use Rattle.std.specs.Option.{option_map};
ghost use Rattle.bsa_lines.specs.Lines.{width_of, text_field, text_setting, setting, set_line_of};
ghost use Rattle.bsa_lines.specs.BsaLine.{line_of_bsa};

use crate::BsaLine;
use crate::numbers::wide_number_in;
use crate::operands::{copy_type_in, object_type_in, status_in};
use arrayvec::ArrayVec;
use onbar_grammar::parts_at;

/// A field that takes a text.
#[derive(Clone, Copy, Debug, PartialEq, Eq)]
pub enum TextField {
    BsaOwner,
    AppOwner,
    Space,
    Path,
    Resource,
    Description,
    Info,
}

impl TextField {
    /// How many bytes the field has.
    pub fn width(self) -> usize
        ensures { result ≡ width_of self }
    {
        match self {
            TextField::BsaOwner | TextField::AppOwner => 64,
            TextField::Space | TextField::Path => 1024,
            TextField::Resource => 31,
            TextField::Description => 100,
            TextField::Info => 256,
        }
    }

    fn from_word(word: &[u8]) -> Option<TextField>
        ensures { result ≡ text_field word.now }
    {
        if word == b"bsaowner".as_slice() {
            Some(TextField::BsaOwner)
        } else if word == b"appowner".as_slice() {
            Some(TextField::AppOwner)
        } else if word == b"space".as_slice() {
            Some(TextField::Space)
        } else if word == b"path".as_slice() {
            Some(TextField::Path)
        } else if word == b"resource".as_slice() {
            Some(TextField::Resource)
        } else if word == b"description".as_slice() {
            Some(TextField::Description)
        } else if word == b"info".as_slice() {
            Some(TextField::Info)
        } else {
            None
        }
    }
}

/// What follows `set`: a field and, behind one space, its value.
pub(crate) fn read_set(rest: &[u8]) -> Option<BsaLine>
    ensures { option_map line_of_bsa result ≡ set_line_of rest.now }
{
    let (name, value) = parts_at(b' ', rest)?;
    match TextField::from_word(name) {
        Some(field) => read_text(field, value),
        None => read_setting(name, value),
    }
}

/// A text that is at most as wide as its field.
fn read_text(field: TextField, value: &[u8]) -> Option<BsaLine>
    ensures { option_map line_of_bsa result ≡ text_setting field value.now }
{
    if value.len() > field.width() {
        return None;
    }
    let value = ArrayVec::try_from(value).ok()?;
    Some(BsaLine::SetText { field, value })
}

fn read_setting(name: &[u8], word: &[u8]) -> Option<BsaLine>
    ensures { option_map line_of_bsa result ≡ setting name.now word.now }
{
    if name == b"order".as_slice() {
        let value = wide_number_in(word)?;
        Some(BsaLine::SetOrder { value })
    } else if name == b"size".as_slice() {
        let value = wide_number_in(word)?;
        Some(BsaLine::SetSize { value })
    } else if name == b"copytype".as_slice() {
        let value = copy_type_in(word)?;
        Some(BsaLine::SetCopyType { value })
    } else if name == b"objecttype".as_slice() {
        let value = object_type_in(word)?;
        Some(BsaLine::SetObjectType { value })
    } else if name == b"status".as_slice() {
        let value = status_in(word)?;
        Some(BsaLine::SetStatus { value })
    } else {
        None
    }
}
