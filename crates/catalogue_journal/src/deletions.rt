//! Entries that are deleted.
ghost use Rattle.std.specs.Prelude.{◌≡◌, ◌≤◌, nat_eq, map, vec_len, vec_capacity, IfOk};
ghost use Rattle.std.specs.List.{filter, list_any};
ghost use Rattle.std.specs.List.Sorted.{IsNonDecreasing, IsPermutation};
ghost use Rattle.catalogue_slots.specs.Views.{object_of};
ghost use Rattle.catalogue_replay.specs.Contents.{AreRising};
ghost use Rattle.catalogue_journal.specs.Deletions.{is_other};
ghost use Rattle.catalogue_journal.specs.Transactions.{without_all};

use catalogue_slots::ObjectEntry;
use std::alloc::{AllocError, Global};

/// The same copy ids, in ascending order.
pub(crate) fn in_order(alloc: Global, copies: &[u64]) -> Result<Vec<u64>, AllocError>
    ensures same { IfOk result (λ sorted. IsPermutation copies.now sorted.items) }
    ensures order { IfOk result (λ sorted. IsNonDecreasing sorted.items) }
{
    let mut sorted = Vec::from_slice(alloc, copies)?;
    sorted.sort_unstable();
    Ok(sorted)
}

// Whether a copy id is among some in ascending order, by a binary search.
fn is_among(copies: &[u64], copy: u64) -> bool
    ensures { IsNonDecreasing copies.now → result ≡ list_any (λ c. nat_eq c copy) copies.now }
{
    copies.binary_search(&copy).is_ok()
}

// Leaves out the entries with these copy ids, in one pass.
fn leave_out(objects: &mut Vec<ObjectEntry>, copies: &[u64])
    requires order { IsNonDecreasing copies.now }
    ensures left { objects.new.items ≡ filter (is_other copies.now) objects.old.items }
    ensures fewer { vec_len objects.new ≤ vec_len objects.old }
    ensures capacity { vec_capacity objects.new ≡ vec_capacity objects.old }
{
    objects.retain(|entry| !is_among(copies, entry.copy));
}

/// Takes the objects with these copy ids out, which are in ascending order.
pub(crate) fn take_out_all(objects: &mut Vec<ObjectEntry>, copies: &[u64])
    requires rising { AreRising 0 (map object_of objects.old.items) }
    requires order { IsNonDecreasing copies.now }
    ensures left { map object_of objects.new.items ≡ without_all copies.now (map object_of objects.old.items) }
    ensures fewer { vec_len objects.new ≤ vec_len objects.old }
    ensures capacity { vec_capacity objects.new ≡ vec_capacity objects.old }
{
    leave_out(objects, copies);
}
