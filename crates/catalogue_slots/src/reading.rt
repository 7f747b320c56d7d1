//! The records in slots, kind by kind: what stands behind the first 16 bytes.
ghost use Rattle.std.specs.Prelude.{◌≡◌, ◌+◌, ◌≤◌, ◌↔◌, length, Some, IsTrue, IsSomeAnd, IfSome, IfOk};
ghost use Rattle.bsa_descriptor.specs.declared.descriptor.Descriptor.{Descriptor as DescriptorView};
ghost use Rattle.byte_fields.specs.Fields.{field};
ghost use Rattle.catalogue_slots.specs.Records.{Record, IsCopy};
ghost use Rattle.catalogue_slots.specs.Fronts.{front_in};
ghost use Rattle.catalogue_slots.specs.Parts.{Holds, HasCopyAlone, HoldsDescriptor};
ghost use Rattle.catalogue_slots.specs.Views.{record_of};

use crate::front::Front;
use crate::runs::runs_in;
use crate::{ObjectEntry, Slot};
use bsa_descriptor::{Descriptor, ObjectStatus};
use byte_fields::{is_zero_from, u64_at};
use std::alloc::{AllocError, Global};

fn is_copy(copy: u64) -> bool
    ensures { IsTrue result ↔ IsCopy copy }
{
    copy <= 1 << 48
}

// Whether a slot has nothing but a kind and a copy id.
fn has_copy_alone(front: Front, own: &[u8]) -> bool
    requires { length own.now ≡ 4080 }
    ensures { IsTrue result ↔ HasCopyAlone (front_in front) own.now }
{
    if front.word != 0 || front.double != 0 || !is_copy(front.copy) {
        return false;
    }
    is_zero_from(own, 0)
}

pub(crate) fn del_of(front: Front, own: &[u8]) -> Option<Slot>
    requires kind { front.kind ≡ 3 }
    requires own { length own.now ≡ 4080 }
    ensures found { IfSome result (λ slot. Holds (front_in front) own.now (record_of slot)) }
    ensures only { (entry : Record) → Holds (front_in front) own.now entry → IsSomeAnd result (λ slot. record_of slot ≡ entry) }
{
    if has_copy_alone(front, own) {
        Some(Slot::Del { copy: front.copy })
    } else {
        None
    }
}

pub(crate) fn base_of(front: Front, own: &[u8]) -> Option<Slot>
    requires kind { front.kind ≡ 4 }
    requires own { length own.now ≡ 4080 }
    ensures found { IfSome result (λ slot. Holds (front_in front) own.now (record_of slot)) }
    ensures only { (entry : Record) → Holds (front_in front) own.now entry → IsSomeAnd result (λ slot. record_of slot ≡ entry) }
{
    if has_copy_alone(front, own) {
        Some(Slot::Base { last: front.copy })
    } else {
        None
    }
}

pub(crate) fn more_of(alloc: Global, front: Front, own: &[u8]) -> Result<Option<Slot>, AllocError>
    requires kind { front.kind ≡ 2 }
    requires own { length own.now ≡ 4080 }
    ensures found { IfOk result (λ read. IfSome read (λ slot. Holds (front_in front) own.now (record_of slot))) }
    ensures only { (entry : Record) → Holds (front_in front) own.now entry
        → IfOk result (λ read. IsSomeAnd read (λ slot. record_of slot ≡ entry)) }
{
    let count = usize::from(front.word);
    if front.double != 0 || !is_copy(front.copy) || count == 0 || count > 510 {
        return Ok(None);
    }
    let Some(runs) = runs_in(alloc, own, count)? else {
        return Ok(None);
    };
    Ok(Some(Slot::More {
        copy: front.copy,
        runs,
    }))
}

// The descriptor of an object with this copy id that the bytes spell, or `None` where they spell none.
fn descriptor_in(copy: u64, bytes: &[u8; 2624]) -> Option<Descriptor>
    ensures found { IfSome result (HoldsDescriptor copy bytes.now) }
    ensures only { (d : DescriptorView) → HoldsDescriptor copy bytes.now d → result ≡ Some d }
{
    let descriptor = Descriptor::decode(bytes)?;
    if descriptor.copy == copy && descriptor.status == ObjectStatus::Any {
        Some(descriptor)
    } else {
        None
    }
}

// The same at this offset.
fn descriptor_at(copy: u64, bytes: &[u8], at: usize) -> Option<Descriptor>
    requires { at + 2624 ≤ length bytes.now }
    ensures found { IfSome result (HoldsDescriptor copy (field at 2624 bytes.now)) }
    ensures only { (d : DescriptorView) → HoldsDescriptor copy (field at 2624 bytes.now) d → result ≡ Some d }
{
    descriptor_in(copy, bytes[at..].first_chunk()?)
}

pub(crate) fn add_of(alloc: Global, front: Front, own: &[u8]) -> Result<Option<Slot>, AllocError>
    requires kind { front.kind ≡ 1 }
    requires own { length own.now ≡ 4080 }
    ensures found { IfOk result (λ read. IfSome read (λ slot. Holds (front_in front) own.now (record_of slot))) }
    ensures only { (entry : Record) → Holds (front_in front) own.now entry
        → IfOk result (λ read. IsSomeAnd read (λ slot. record_of slot ≡ entry)) }
{
    if front.word > 16 || !is_copy(front.copy) {
        return Ok(None);
    }
    let Some(descriptor) = descriptor_at(front.copy, own, 40) else {
        return Ok(None);
    };
    let here = (front.double as usize).min(177);
    let Some(runs) = runs_in(alloc, &own[2664..], here)? else {
        return Ok(None);
    };
    let mut digest = [0; 32];
    digest.copy_from_slice(&own[8..40]);
    let entry = ObjectEntry {
        copy: front.copy,
        volume: front.word,
        size: u64_at(own, 0),
        digest,
        runs,
        descriptor,
    };
    Ok(Some(Slot::Add {
        count: front.double,
        entry,
    }))
}
