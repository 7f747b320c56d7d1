//! Queries over the live objects.
ghost use Rattle.std.specs.Prelude.{◌≡◌, map, Some, IfOk};
ghost use Rattle.std.specs.List.{list_any};
ghost use Rattle.bsa_descriptor.specs.declared.kinds.ObjectStatus.TheVariants as status;
ghost use Rattle.bsa_match.specs.Match.{is_match, is_same_name};
ghost use Rattle.catalogue_slots.specs.Views.{object_of};
ghost use Rattle.object_queries.specs.Queries.{is_superseded, with_status, found_by, description_of};

use bsa_descriptor::{Descriptor, ObjectStatus};
use bsa_match::{matches, same_name};
use catalogue_slots::ObjectEntry;
use std::alloc::{AllocError, Global};

// Whether one of the entries has the name of this descriptor.
fn has_name(descriptor: &Descriptor, entries: &[ObjectEntry]) -> bool
    ensures { result ≡ list_any (λ other. is_same_name descriptor.now other.descriptor) entries.now }
{
    entries
        .iter()
        .any(|other| same_name(descriptor, &other.descriptor))
}

// Whether one of the later objects has the name of this descriptor.
fn has_a_later(descriptor: &Descriptor, later: &[ObjectEntry]) -> bool
    ensures { result ≡ is_superseded descriptor.now (map object_of later.now) }
{
    has_name(descriptor, later)
}

// Whether the query finds an object, with those behind it at hand. The plain query is the same without a status, so
// that names are compared only for an object that matches otherwise.
fn finds(
    query: &Descriptor,
    plain: &Descriptor,
    object: &ObjectEntry,
    later: &[ObjectEntry],
) -> bool
    requires { plain.now ≡ record query.now { status = status.Any } }
    ensures { result ≡ is_match query.now (with_status (object_of object.now) (map object_of later.now)) }
{
    matches(plain, &object.descriptor)
        && match query.status {
            ObjectStatus::Any => true,
            ObjectStatus::MostRecent => !has_a_later(&object.descriptor, later),
            ObjectStatus::NotMostRecent => has_a_later(&object.descriptor, later),
        }
}

/// The copy ids of the objects that the query finds, in their order.
pub fn found(
    alloc: Global,
    query: &Descriptor,
    objects: &[ObjectEntry],
) -> Result<Vec<u64>, AllocError>
    ensures { IfOk result (λ copies. copies.items ≡ found_by query.now (map object_of objects.now)) }
{
    let mut plain = query.clone()?;
    plain.status = ObjectStatus::Any;
    let mut copies = Vec::new(alloc);
    for (i, object) in objects.iter().enumerate() {
        if finds(query, &plain, object, &objects[i + 1..]) {
            copies.push(object.copy)?;
        }
    }
    Ok(copies)
}

// How an object is described, with those behind it at hand.
fn description(object: &ObjectEntry, later: &[ObjectEntry]) -> Option<Descriptor>
    ensures { result ≡ Some (with_status (object_of object.now) (map object_of later.now)) }
{
    let mut descriptor = object.descriptor.clone().ok()?;
    descriptor.status = if has_a_later(&object.descriptor, later) {
        ObjectStatus::NotMostRecent
    } else {
        ObjectStatus::MostRecent
    };
    Some(descriptor)
}

/// The descriptor of the object with this copy id, with its status; none where there is no such object.
pub fn described(objects: &[ObjectEntry], copy: u64) -> Option<Descriptor>
    ensures { result ≡ description_of copy (map object_of objects.now) }
{
    for (i, object) in objects.iter().enumerate() {
        if object.copy == copy {
            return description(object, &objects[i + 1..]);
        }
    }
    None
}
