//! What a transaction adds and deletes.
ghost use Rattle.std.specs.Prelude.{◌≡◌, ◌+◌, ◌<◌, ◌^◌, length, map, IfOk};
ghost use Rattle.std.specs.List.{AllByRecursion};
ghost use Rattle.bsa_descriptor.specs.Descriptor.{IsDescriptor};
ghost use Rattle.catalogue_slots.specs.Views.{object_of};
ghost use Rattle.catalogue_journal.specs.Batches.{IsEntry};
ghost use Rattle.catalogue_journal.specs.Transactions.{object_with, objects_from};
ghost use Rattle.catalogue_journal.specs.Views.{addition_of};

use block_chain::Run;
use bsa_descriptor::{Descriptor, ObjectStatus};
use catalogue_slots::ObjectEntry;
use std::alloc::{AllocError, Global};

/// An object that is added.
#[derive(Debug, Drop)]
pub struct NewObject {
    /// The volume that has its blocks, at most 16.
    pub volume: u16,
    /// Its size in bytes.
    pub size: u64,
    /// The SHA-256 of its bytes.
    pub digest: [u8; 32],
    /// Its blocks of 4,096 bytes, in order, as many as its bytes take.
    pub runs: Vec<Run>,
    /// What is known of it. Its copy id and its status are set by the commit.
    pub descriptor: Descriptor,
}

/// What a transaction adds, and the copy ids of what it deletes.
#[derive(Debug, Drop)]
pub struct Staged {
    pub add: Vec<NewObject>,
    pub delete: Vec<u64>,
}

// A descriptor of a program has a record.
fn has_record(descriptor: &Descriptor)
    ensures { IsDescriptor descriptor.now }
{
    descriptor.encode_into(&mut [0; 2624]);
}

// The object with its copy id.
fn new_entry(alloc: Global, object: &NewObject, copy: u64) -> Result<ObjectEntry, AllocError>
    ensures object { IfOk result (λ entry. object_of entry ≡ object_with copy (addition_of object.now)) }
    ensures fits { IfOk result IsEntry }
{
    let size = object.size;
    let digest = object.digest;
    let mut descriptor = object.descriptor.clone()?;
    descriptor.copy = copy;
    descriptor.status = ObjectStatus::Any;
    has_record(&descriptor);
    Ok(ObjectEntry {
        copy,
        volume: object.volume,
        size,
        digest,
        runs: Vec::from_slice(alloc, &object.runs)?,
        descriptor,
    })
}

/// The objects with the copy ids from one on.
pub(crate) fn new_entries(
    alloc: Global,
    objects: &[NewObject],
    first: u64,
) -> Result<Vec<ObjectEntry>, AllocError>
    requires { first + length objects.now < 2 ^ 64 }
    ensures objects { IfOk result (λ entries. map object_of entries.items ≡ objects_from first (map addition_of objects.now)) }
    ensures fit { IfOk result (λ entries. AllByRecursion IsEntry entries.items) }
{
    let mut entries = Vec::with_capacity(alloc, objects.len())?;
    for (i, object) in objects.iter().enumerate() {
        entries.push(new_entry(alloc, object, first + i as u64)?)?;
    }
    Ok(entries)
}
