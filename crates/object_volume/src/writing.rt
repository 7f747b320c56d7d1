//! Writes of whole blocks.
ghost use Rattle.std.specs.Prelude.{◌≡◌, ◌+◌, ◌-◌, ◌*◌, ◌/◌, ◌%◌, ◌<◌, ◌≤◌, ◌^◌, ◌++◌, [], ◌∷◌, length, min, IsTrue, OnOk};
ghost use Rattle.site_disk.specs.Bytes.{filled, written, Torn};
ghost use Rattle.site_disk.specs.Causes.{HasCause};
ghost use Rattle.site_disk.specs.Images.{Leaves};
ghost use Rattle.site_disk.specs.Ledger.{MayUse, Uses};
ghost use Rattle.block_chain.specs.Table.{IsListOf};
ghost use Rattle.object_volume.specs.Objects.{place_of, Outside, Spares};
ghost use Rattle.object_volume.specs.Taking.{Takes, PutsBlocks};

use crate::reading::{BLOCK_LEN, place_of};
use block_chain::{BlockList, Chains};
use site_disk::{Disk, Era, Failed, extend_to};

// Fills with zero bytes up to a place. The disk is asked for its length only where it isn't known to reach the place.
fn reach_from<D: Disk>(disk: &mut D, era: &Era, reached: u64, place: u64) -> Result<(), Failed>
    requires era { MayUse era.now (D.ledger disk.old) }
    requires reached { IsTrue D.is_modelled → reached ≤ length (D.bytes disk.old) }
    ensures filled { IsTrue D.is_modelled → OnOk result (D.bytes disk.new ≡ filled place (D.bytes disk.old)) }
    ensures reaches { IsTrue D.is_modelled → OnOk result (place ≤ length (D.bytes disk.new)) }
    ensures crash { IsTrue D.is_modelled → let first = min place (length (D.bytes disk.old)) in
        Leaves era.now.number (Torn first (place - first)) (D.image disk.old) (D.image disk.new) }
    ensures spent { IsTrue D.is_modelled
        → Uses era.now 0 (place - length (D.bytes disk.old)) (D.ledger disk.old) (D.ledger disk.new) }
    ensures ledger { Uses era.now 0 place (D.ledger disk.old) (D.ledger disk.new) }
    ensures cause { HasCause (D.ledger disk.old).faults (D.ledger disk.new).faults result }
{
    if place <= reached {
        return Ok(());
    }
    extend_to(disk, era, place)
}

/// Writes a piece at a place, after zero bytes up to it where the volume ends before it. `reached` is a place that the
/// volume is known to reach.
pub(crate) fn write_run<D: Disk>(
    disk: &mut D,
    era: &Era,
    place: u64,
    piece: &[u8],
    reached: &mut u64,
) -> Result<(), Failed>
    requires era { MayUse era.now (D.ledger disk.old) }
    requires reached { IsTrue D.is_modelled → reached.old ≤ length (D.bytes disk.old) }
    ensures reached { IsTrue D.is_modelled → OnOk result (reached.new ≤ length (D.bytes disk.new)) }
    ensures bytes { IsTrue D.is_modelled
        → OnOk result (D.bytes disk.new ≡ written place piece.now (filled place (D.bytes disk.old))) }
    ensures crash { IsTrue D.is_modelled → Leaves era.now.number
        (Outside place (length piece.now) (length (D.bytes disk.old))) (D.image disk.old) (D.image disk.new) }
    ensures ledger { Uses era.now 0 (place + length piece.now) (D.ledger disk.old) (D.ledger disk.new) }
    ensures spent { IsTrue D.is_modelled → (D.ledger disk.new).written
        ≤ (D.ledger disk.old).written + ((place - length (D.bytes disk.old)) + length piece.now) }
    ensures cause { HasCause (D.ledger disk.old).faults (D.ledger disk.new).faults result }
{
    reach_from(disk, era, *reached, place)?;
    *reached = (*reached).max(place.saturating_add(piece.len() as u64));
    disk.write_at(era, place, piece)
}

/// Takes the first free block to the end of the list.
pub(crate) fn take_block(chains: &mut Chains, list: &mut BlockList) -> u32
    requires own { IsListOf chains.old list.old }
    requires some { 0 < length chains.old.free }
    ensures takes { Takes chains.old chains.new list.old list.new (result ∷ []) }
{
    match chains.take_first(list) {
        Some(block) => block,
        None => unreachable!(),
    }
}

/// Takes blocks for a piece of whole blocks and writes it, neighbouring blocks in one write.
pub(crate) fn write_blocks<D: Disk>(
    disk: &mut D,
    era: &Era,
    chains: &mut Chains,
    list: &mut BlockList,
    piece: &[u8],
    reached: &mut u64,
) -> Result<(), Failed>
    requires era { MayUse era.now (D.ledger disk.old) }
    requires reached { IsTrue D.is_modelled → reached.old ≤ length (D.bytes disk.old) }
    requires own { IsListOf chains.old list.old }
    requires whole { length piece.now % 4096 ≡ 0 }
    requires room { length piece.now ≤ 4096 * length chains.old.free }
    ensures reached { IsTrue D.is_modelled → OnOk result (reached.new ≤ length (D.bytes disk.new)) }
    ensures put { OnOk result (PutsBlocks D.is_modelled (D.bytes disk.old) (D.bytes disk.new)
        chains.old chains.new list.old list.new piece.now) }
    ensures crash { IsTrue D.is_modelled → Leaves era.now.number
        (Spares chains.old.free (length (D.bytes disk.old))) (D.image disk.old) (D.image disk.new) }
    ensures ledger { Uses era.now 0 (length piece.now / 4096 * place_of chains.old.blocks) (D.ledger disk.old) (D.ledger disk.new) }
    ensures grown { IsTrue D.is_modelled → OnOk result ((D.ledger disk.new).written ≤ (D.ledger disk.old).written
        + length piece.now + (length (D.bytes disk.new) - length (D.bytes disk.old))) }
    ensures bound { IsTrue D.is_modelled → (D.ledger disk.new).written ≤ (D.ledger disk.old).written
        + length piece.now + (place_of chains.old.blocks - length (D.bytes disk.old)) }
    ensures cause { HasCause (D.ledger disk.old).faults (D.ledger disk.new).faults result }
{
    if piece.is_empty() {
        return Ok(());
    }
    let mut start = place_of(take_block(chains, list));
    let mut from = 0;
    let mut at = BLOCK_LEN;
    while at < piece.len() {
        let place = place_of(take_block(chains, list));
        if place != start + (at - from) as u64 {
            write_run(disk, era, start, &piece[from..at], reached)?;
            start = place;
            from = at;
        }
        at += BLOCK_LEN;
    }
    write_run(disk, era, start, &piece[from..], reached)
}
