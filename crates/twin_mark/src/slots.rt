// The two slots of a region: which is current, and how one is replaced while the other stands.
ghost use Rattle.std.specs.Prelude.{◌≡◌, ◌+◌, ◌*◌, ◌^◌, ◌<◌, ◌≤◌, ◌∷◌, length, replicate, IsTrue, IsSome, IfSome, IfOk, OnOk, OnErr, Some, None};
ghost use Rattle.site_disk.specs.Bytes.{extent, written, filled, Torn, Same};
ghost use Rattle.site_disk.specs.Causes.{HasCause};
ghost use Rattle.site_disk.specs.Gates.{GateIsSynced};
ghost use Rattle.site_disk.specs.Images.{Leaves, OnlyAfter, Unchanged};
ghost use Rattle.site_disk.specs.Ledger.{MayUse, Uses};
ghost use Rattle.site_disk.specs.Seen.{seen};
ghost use Rattle.twin_mark.specs.Marks.{sequence_by, current, record_of, record_at, formatted};
ghost use Rattle.twin_mark.specs.Replacing.{replaced, MayReplace};

use site_disk::{Disk, Era, Failed, close_gate, extend_to, write_and_sync};

const BODY_LEN: usize = 256;

const REGION_LEN: usize = 1024;

const TURNS: u8 = 3;

/// A slot that holds the record, and its sequence.
#[derive(Clone, Copy)]
pub struct Current {
    pub slot: u64,
    pub sequence: u8,
}

// A range of some bytes, fewer where they end.
fn piece(bytes: &[u8], at: usize, n: usize) -> &[u8]
    requires { at + n < 2 ^ 64 }
    ensures range { result.now ≡ extent at n bytes.now }
    ensures whole { length result.now ≡ n → 0 < n → at + n ≤ length bytes.now }
{
    let at = at.min(bytes.len());
    let end = (at + n).min(bytes.len());
    &bytes[at..end]
}

// The sequence of a slot, none where it isn't valid.
fn sequence_of(gate: &[u8], body: &[u8]) -> Option<u8>
    ensures sequence { result ≡ sequence_by gate.now body.now }
    ensures whole { IsSome result → length body.now ≡ 256 }
    ensures range { IfSome result (λ sequence. sequence ≤ 2) }
{
    if gate.is_empty() || gate[0] == 0 {
        return None;
    }
    match body {
        [sequence, content @ ..] if content.len() == 255 && *sequence < TURNS => Some(*sequence),
        _ => None,
    }
}

// The current slot of a region.
fn find_current(region: &[u8]) -> Option<Current>
    ensures current { result ≡ current region.now }
    ensures whole { IfSome result (λ at. 256 * at.slot + 512 ≤ length region.now) }
    ensures slot { IfSome result (λ at. at.slot ≤ 1) }
    ensures sequence { IfSome result (λ at. at.sequence ≤ 2) }
{
    let first = sequence_of(piece(region, 0, 1), piece(region, 256, 256));
    let second = sequence_of(piece(region, 1, 1), piece(region, 512, 256));
    match (first, second) {
        (Some(first), Some(second)) if second == (first + 1) % TURNS => Some(Current {
            slot: 1,
            sequence: second,
        }),
        (Some(first), _) => Some(Current {
            slot: 0,
            sequence: first,
        }),
        (None, Some(second)) => Some(Current {
            slot: 1,
            sequence: second,
        }),
        (None, None) => None,
    }
}

// The record that stands in a region, and where.
fn take_record(region: &[u8], content: &mut [u8]) -> Option<Current>
    requires { length content.old ≡ 255 }
    ensures current { result ≡ current region.now }
    ensures slot { IfSome result (λ at. at.slot ≤ 1) }
    ensures sequence { IfSome result (λ at. at.sequence ≤ 2) }
    ensures content { IsSome result → record_of region.now ≡ Some content.new }
    ensures none { result ≡ None → content.new ≡ content.old }
{
    let at = find_current(region)?;
    let place = BODY_LEN * (at.slot as usize + 1) + 1;
    content.copy_from_slice(&region[place..place + 255]);
    Some(at)
}

/// Reads the record that stands in a region, and which slot holds it.
pub(crate) fn read_record<D: Disk>(
    disk: &mut D,
    era: &Era,
    base: u64,
    buffer: &mut [u8],
    content: &mut [u8],
) -> Result<Option<Current>, Failed>
    requires era { MayUse era.now (D.ledger disk.old) }
    requires buffer { length buffer.old ≡ 768 }
    requires content { length content.old ≡ 255 }
    ensures current { IsTrue D.is_modelled → IfOk result (λ at. at ≡ current (extent base 1024 (D.bytes disk.old))) }
    ensures slot { IfOk result (λ at. IfSome at (λ at. at.slot ≤ 1)) }
    ensures sequence { IfOk result (λ at. IfSome at (λ at. at.sequence ≤ 2)) }
    ensures content { IsTrue D.is_modelled
        → IfOk result (λ at. IsSome at → record_at base (D.bytes disk.old) ≡ Some content.new) }
    ensures none { IfOk result (λ at. at ≡ None → content.new ≡ content.old) }
    ensures failed { OnErr result (content.new ≡ content.old) }
    ensures bytes { OnOk result (D.bytes disk.new ≡ D.bytes disk.old) }
    ensures images { OnOk result (Unchanged (D.image disk.old) (D.image disk.new)) }
    ensures crash { Leaves era.now.number Same (D.image disk.old) (D.image disk.new) }
    ensures ledger { Uses era.now 768 0 (D.ledger disk.old) (D.ledger disk.new) }
    ensures cause { HasCause (D.ledger disk.old).faults (D.ledger disk.new).faults result }
{
    let found = disk.read_at(era, base, buffer)?;
    Ok(take_record(&buffer[..found], content))
}

// A slot's body, written and synced.
fn write_body<D: Disk>(
    disk: &mut D,
    era: &Era,
    place: u64,
    sequence: u8,
    content: &[u8],
) -> Result<(), Failed>
    requires era { MayUse era.now (D.ledger disk.old) }
    requires within { IsTrue D.is_modelled → place ≤ length (D.bytes disk.old) }
    requires content { length content.now ≡ 255 }
    ensures bytes { IsTrue D.is_modelled
        → OnOk result (D.bytes disk.new ≡ written place (sequence ∷ content.now) (D.bytes disk.old)) }
    ensures durable { IsTrue D.is_modelled
        → OnOk result (OnlyAfter era.now.number (D.bytes disk.new) (D.image disk.new)) }
    ensures crash { Leaves era.now.number (Torn place (length (sequence ∷ content.now))) (D.image disk.old) (D.image disk.new) }
    ensures ledger { Uses era.now 0 256 (D.ledger disk.old) (D.ledger disk.new) }
    ensures cause { HasCause (D.ledger disk.old).faults (D.ledger disk.new).faults result }
{
    let mut body = [0; BODY_LEN];
    body[0] = sequence;
    body[1..].copy_from_slice(content);
    write_and_sync(disk, era, place, &body)
}

// Replaces a slot's body behind its gate, which is closed meanwhile.
fn replace<D: Disk>(
    disk: &mut D,
    era: &Era,
    gate: u64,
    place: u64,
    sequence: u8,
    content: &[u8],
) -> Result<(), Failed>
    requires era { MayUse era.now (D.ledger disk.old) }
    requires within { IsTrue D.is_modelled → place ≤ length (D.bytes disk.old) }
    requires gate { gate ≤ place }
    requires content { length content.now ≡ 255 }
    ensures bytes { IsTrue D.is_modelled
        → OnOk result (D.bytes disk.new ≡ replaced gate place (sequence ∷ content.now) (D.bytes disk.old)) }
    ensures durable { IsTrue D.is_modelled
        → OnOk result (OnlyAfter era.now.number (D.bytes disk.new) (D.image disk.new)) }
    ensures crash { IsTrue D.is_modelled
        → GateIsSynced gate (seen D.Disk disk.old)
        → Leaves era.now.number (MayReplace gate place (sequence ∷ content.now)) (D.image disk.old) (D.image disk.new) }
    ensures ledger { Uses era.now 1 258 (D.ledger disk.old) (D.ledger disk.new) }
    ensures cause { HasCause (D.ledger disk.old).faults (D.ledger disk.new).faults result }
{
    close_gate(disk, era, gate)?;
    write_body(disk, era, place, sequence, content)?;
    write_and_sync(disk, era, gate, &[1])
}

/// Puts a record with its sequence in a slot of a region, after zero bytes up to the slot's body where the disk doesn't
/// reach it.
pub(crate) fn put_record<D: Disk>(
    disk: &mut D,
    era: &Era,
    gate: u64,
    place: u64,
    sequence: u8,
    content: &[u8],
) -> Result<(), Failed>
    requires era { MayUse era.now (D.ledger disk.old) }
    requires gate { gate ≤ place }
    requires content { length content.now ≡ 255 }
    ensures bytes { IsTrue D.is_modelled
        → OnOk result (D.bytes disk.new ≡ replaced gate place (sequence ∷ content.now) (filled place (D.bytes disk.old))) }
    ensures durable { IsTrue D.is_modelled
        → OnOk result (OnlyAfter era.now.number (D.bytes disk.new) (D.image disk.new)) }
    ensures crash { IsTrue D.is_modelled → place ≤ length (D.bytes disk.old)
        → GateIsSynced gate (seen D.Disk disk.old)
        → Leaves era.now.number (MayReplace gate place (sequence ∷ content.now)) (D.image disk.old) (D.image disk.new) }
    ensures ledger { Uses era.now 1 (place + 258) (D.ledger disk.old) (D.ledger disk.new) }
    ensures bound { IsTrue D.is_modelled → place ≤ length (D.bytes disk.old)
        → (D.ledger disk.new).written ≤ (D.ledger disk.old).written + 258 }
    ensures cause { HasCause (D.ledger disk.old).faults (D.ledger disk.new).faults result }
{
    extend_to(disk, era, place)?;
    replace(disk, era, gate, place, sequence, content)
}

// Lays a record in slot 0 of a region of zero bytes, with sequence 0, and closes slot 1.
fn lay_region(region: &mut [u8], content: &[u8])
    requires region { region.old ≡ replicate 1024 0 }
    requires content { length content.now ≡ 255 }
    ensures { region.new ≡ formatted content.now }
{
    region[0] = 1;
    region[257..512].copy_from_slice(content);
}

/// Writes a region with a record in slot 0, sequence 0, and slot 1 closed, after zero bytes up to it where the disk doesn't
/// reach it.
pub(crate) fn write_region<D: Disk>(
    disk: &mut D,
    era: &Era,
    base: u64,
    content: &[u8],
) -> Result<(), Failed>
    requires era { MayUse era.now (D.ledger disk.old) }
    requires content { length content.now ≡ 255 }
    ensures bytes { IsTrue D.is_modelled
        → OnOk result (D.bytes disk.new ≡ written base (formatted content.now) (filled base (D.bytes disk.old))) }
    ensures durable { IsTrue D.is_modelled
        → OnOk result (OnlyAfter era.now.number (D.bytes disk.new) (D.image disk.new)) }
    ensures crash { IsTrue D.is_modelled → base ≤ length (D.bytes disk.old)
        → Leaves era.now.number (Torn base 1024) (D.image disk.old) (D.image disk.new) }
    ensures ledger { Uses era.now 0 (base + 1024) (D.ledger disk.old) (D.ledger disk.new) }
    ensures bound { IsTrue D.is_modelled → base ≤ length (D.bytes disk.old)
        → (D.ledger disk.new).written ≤ (D.ledger disk.old).written + 1024 }
    ensures cause { HasCause (D.ledger disk.old).faults (D.ledger disk.new).faults result }
{
    let mut region = [0; REGION_LEN];
    lay_region(&mut region, content);
    extend_to(disk, era, base)?;
    write_and_sync(disk, era, base, &region)
}
