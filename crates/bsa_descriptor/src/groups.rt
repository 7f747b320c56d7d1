//! The fields of a record in four groups, each read from its place.
ghost use Rattle.std.specs.Prelude.{◌≡◌, ◌+◌, ◌≤◌, length, Some, IfSome};
ghost use Rattle.bsa_descriptor.specs.declared.groups.Names.{Names};
ghost use Rattle.bsa_descriptor.specs.declared.groups.Numbers.{Numbers};
ghost use Rattle.bsa_descriptor.specs.declared.groups.Kinds.{Kinds};
ghost use Rattle.bsa_descriptor.specs.declared.groups.Notes.{Notes};
ghost use Rattle.bsa_descriptor.specs.Groups.{NamesAt, NumbersAt, KindsAt, NotesAt};

use crate::fields::text_at;
use crate::{CopyType, ObjectStatus, ObjectType, Text};
use byte_fields::{byte_at, u64_at};

#[derive(Drop)]
pub(crate) struct Names {
    pub(crate) bsa_owner: Text<64>,
    pub(crate) app_owner: Text<64>,
    pub(crate) space: Text<1024>,
    pub(crate) path: Text<1024>,
}

#[derive(Clone, Copy)]
pub(crate) struct Numbers {
    pub(crate) create_time: u64,
    pub(crate) copy: u64,
    pub(crate) restore_order: u64,
    pub(crate) estimated_size: u64,
}

#[derive(Clone, Copy)]
pub(crate) struct Kinds {
    pub(crate) copy_type: CopyType,
    pub(crate) object_type: ObjectType,
    pub(crate) status: ObjectStatus,
}

#[derive(Drop)]
pub(crate) struct Notes {
    pub(crate) resource: Text<31>,
    pub(crate) description: Text<100>,
    pub(crate) info: Text<256>,
}

pub(crate) fn names_of(bytes: &[u8]) -> Option<Names>
    requires { 2176 ≤ length bytes.now }
    ensures found { IfSome result (NamesAt bytes.now) }
    ensures only { (names : Names) → NamesAt bytes.now names → result ≡ Some names }
{
    Some(Names {
        bsa_owner: text_at(bytes, 0)?,
        app_owner: text_at(bytes, 64)?,
        space: text_at(bytes, 128)?,
        path: text_at(bytes, 1152)?,
    })
}

pub(crate) fn numbers_of(bytes: &[u8]) -> Numbers
    requires { 2208 ≤ length bytes.now }
    ensures found { NumbersAt bytes.now result }
    ensures only { (numbers : Numbers) → NumbersAt bytes.now numbers → result ≡ numbers }
{
    Numbers {
        create_time: u64_at(bytes, 2176),
        copy: u64_at(bytes, 2184),
        restore_order: u64_at(bytes, 2192),
        estimated_size: u64_at(bytes, 2200),
    }
}

pub(crate) fn kinds_of(bytes: &[u8]) -> Option<Kinds>
    requires { 2211 ≤ length bytes.now }
    ensures found { IfSome result (KindsAt bytes.now) }
    ensures only { (kinds : Kinds) → KindsAt bytes.now kinds → result ≡ Some kinds }
{
    Some(Kinds {
        copy_type: CopyType::from_code(byte_at(bytes, 2208))?,
        object_type: ObjectType::from_code(byte_at(bytes, 2209))?,
        status: ObjectStatus::from_code(byte_at(bytes, 2210))?,
    })
}

pub(crate) fn notes_of(bytes: &[u8]) -> Option<Notes>
    requires { 2598 ≤ length bytes.now }
    ensures found { IfSome result (NotesAt bytes.now) }
    ensures only { (notes : Notes) → NotesAt bytes.now notes → result ≡ Some notes }
{
    Some(Notes {
        resource: text_at(bytes, 2211)?,
        description: text_at(bytes, 2242)?,
        info: text_at(bytes, 2342)?,
    })
}
