//! The words of answers.
ghost use Rattle.std.specs.Prelude.{◌≡◌};
ghost use Rattle.bsa_transcripts.specs.Texts.{code_text, copy_type_text, object_type_text, status_text};

use bsa_descriptor::{CopyType, ObjectStatus, ObjectType};
use session_machine::BsaRc;

/// The name of a code, without what it carries.
pub(crate) fn code_name(code: BsaRc) -> &'static str
    ensures { result.now ≡ code_text code }
{
    match code {
        BsaRc::Success => "Success",
        BsaRc::InvalidCallSequence => "InvalidCallSequence",
        BsaRc::InvalidObjectDescriptor => "InvalidObjectDescriptor",
        BsaRc::NoMatch => "NoMatch",
        BsaRc::NoMoreData => "NoMoreData",
        BsaRc::ObjectNotFound => "ObjectNotFound",
        BsaRc::InvalidVote => "InvalidVote",
        BsaRc::NoResources(_) => "NoResources",
        BsaRc::AccessFailure(_) => "AccessFailure",
        BsaRc::Damaged { kept: _, found: _ } => "Damaged",
        BsaRc::OutOfMemory => "OutOfMemory",
    }
}

pub(crate) fn copy_type_name(kind: CopyType) -> &'static str
    ensures { result.now ≡ copy_type_text kind }
{
    match kind {
        CopyType::Any => "any",
        CopyType::Archive => "archive",
        CopyType::Backup => "backup",
    }
}

pub(crate) fn object_type_name(kind: ObjectType) -> &'static str
    ensures { result.now ≡ object_type_text kind }
{
    match kind {
        ObjectType::Any => "any",
        ObjectType::Database => "database",
        ObjectType::Log => "log",
    }
}

pub(crate) fn status_name(status: ObjectStatus) -> &'static str
    ensures { result.now ≡ status_text status }
{
    match status {
        ObjectStatus::Any => "any",
        ObjectStatus::MostRecent => "mostrecent",
        ObjectStatus::NotMostRecent => "notmostrecent",
    }
}
