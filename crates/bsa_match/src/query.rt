//! Queries and names.
ghost use Rattle.std.specs.Prelude.{◌≡◌, ◌↔◌, IsTrue};
ghost use Rattle.bsa_match.specs.Match.{is_copy_type_match, is_match, is_object_type_match, is_same_name, is_status_match, is_text_match, SameName};

use crate::wild;
use bsa_descriptor::{CopyType, Descriptor, ObjectStatus, ObjectType};

fn text_matches(asked: &[u8], text: &[u8]) -> bool
    ensures { result ≡ is_text_match asked.now text.now }
{
    asked.is_empty() || asked == text
}

fn copy_type_matches(asked: CopyType, kind: CopyType) -> bool
    ensures { result ≡ is_copy_type_match asked kind }
{
    asked == CopyType::Any || asked == kind
}

fn object_type_matches(asked: ObjectType, kind: ObjectType) -> bool
    ensures { result ≡ is_object_type_match asked kind }
{
    asked == ObjectType::Any || asked == kind
}

fn status_matches(asked: ObjectStatus, status: ObjectStatus) -> bool
    ensures { result ≡ is_status_match asked status }
{
    asked == ObjectStatus::Any || asked == status
}

/// Whether the query finds the object.
///
/// The object space and the path are matched by `wild`, so an empty pattern there finds the empty text
/// alone. Of the other five texts an empty one finds anything, and so does `Any` of a kind; another is
/// compared. The four numbers are not. Whether the object is the newest of its name is what its status says.
pub fn matches(query: &Descriptor, object: &Descriptor) -> bool
    ensures { result ≡ is_match query.now object.now }
{
    copy_type_matches(query.copy_type, object.copy_type)
        && object_type_matches(query.object_type, object.object_type)
        && status_matches(query.status, object.status)
        && text_matches(query.bsa_owner.as_bytes(), object.bsa_owner.as_bytes())
        && text_matches(query.app_owner.as_bytes(), object.app_owner.as_bytes())
        && text_matches(query.resource.as_bytes(), object.resource.as_bytes())
        && text_matches(query.description.as_bytes(), object.description.as_bytes())
        && text_matches(query.info.as_bytes(), object.info.as_bytes())
        && wild(query.space.as_bytes(), object.space.as_bytes())
        && wild(query.path.as_bytes(), object.path.as_bytes())
}

/// Whether both have one name: the same owners, object space, path and copy type.
pub fn same_name(a: &Descriptor, b: &Descriptor) -> bool
    ensures name { result ≡ is_same_name a.now b.now }
    ensures equal { IsTrue result ↔ SameName a.now b.now }
{
    a.bsa_owner == b.bsa_owner
        && a.app_owner == b.app_owner
        && a.space == b.space
        && a.path == b.path
        && a.copy_type == b.copy_type
}
