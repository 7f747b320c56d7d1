//! The operands of calls: bytes, and the words for an object's kinds.
ghost use Rattle.std.specs.Prelude.{◌≡◌};
ghost use Rattle.std.specs.Option.{option_map};
ghost use Rattle.bsa_lines.specs.Operands.{sent_bytes, copy_type_word, object_type_word, status_word};

use arrayvec::ArrayVec;
use bsa_descriptor::{CopyType, ObjectStatus, ObjectType};

const PIECE_LIMIT: usize = 4_096;

/// The 1 to 4,096 bytes that a word spells in hexadecimal digits.
pub(crate) fn bytes_in(word: &[u8]) -> Option<ArrayVec<u8, 4096>>
    ensures { option_map (λ bytes. bytes.items) result ≡ sent_bytes word.now }
{
    let len = word.len() / 2;
    if len > PIECE_LIMIT {
        return None;
    }
    let mut bytes = [0; 4096];
    hex::decode_to_slice(word, &mut bytes[..len]).ok()?;
    if len == 0 {
        return None;
    }
    ArrayVec::try_from(&bytes[..len]).ok()
}

/// The copy type of a word.
pub(crate) fn copy_type_in(word: &[u8]) -> Option<CopyType>
    ensures { result ≡ copy_type_word word.now }
{
    if word == b"any".as_slice() {
        Some(CopyType::Any)
    } else if word == b"archive".as_slice() {
        Some(CopyType::Archive)
    } else if word == b"backup".as_slice() {
        Some(CopyType::Backup)
    } else {
        None
    }
}

/// The object type of a word.
pub(crate) fn object_type_in(word: &[u8]) -> Option<ObjectType>
    ensures { result ≡ object_type_word word.now }
{
    if word == b"any".as_slice() {
        Some(ObjectType::Any)
    } else if word == b"database".as_slice() {
        Some(ObjectType::Database)
    } else if word == b"log".as_slice() {
        Some(ObjectType::Log)
    } else {
        None
    }
}

/// The status of a word.
pub(crate) fn status_in(word: &[u8]) -> Option<ObjectStatus>
    ensures { result ≡ status_word word.now }
{
    if word == b"any".as_slice() {
        Some(ObjectStatus::Any)
    } else if word == b"mostrecent".as_slice() {
        Some(ObjectStatus::MostRecent)
    } else if word == b"notmostrecent".as_slice() {
        Some(ObjectStatus::NotMostRecent)
    } else {
        None
    }
}
