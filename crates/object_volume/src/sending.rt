//! An object that is being sent.
ghost use Rattle.std.specs.Prelude.{◌≡◌, ◌+◌, ◌-◌, ◌*◌, ◌/◌, ◌%◌, ◌<◌, ◌≤◌, ◌^◌, ◌⊎◌, ◌↔◌, ℕ, Bool, List, [], ◌∷◌, ◌++◌, length, take, max, IsTrue, IfOk, OnOk, IsErrOf};
ghost use Rattle.site_disk.specs.Causes.{Rose, HasCause};
ghost use Rattle.site_disk.specs.Images.{Leaves, OnlyAfter};
ghost use Rattle.site_disk.specs.Ledger.{MayUse, Uses};
ghost use Rattle.block_chain.specs.Table.{Table, blocks_of, IsListOf};
ghost use Rattle.block_chain.specs.declared.lists.BlockList.{BlockList as List-of-blocks};
ghost use Rattle.block_chain.specs.Blocks.{blocks_for};
ghost use Rattle.object_volume.specs.Objects.{place_of, Spares};
ghost use Rattle.object_volume.specs.Taking.{Takes, TakesFor};
ghost use Rattle.object_volume.specs.Sending.{part_block, Stored, IsSent, Finished, part_end};

use crate::faults::SendFault;
use crate::reading::{BLOCK_LEN, place_of};
use crate::writing::{take_block, write_blocks, write_run};
use block_chain::{BlockList, Chains};
use sha2::{Digest, Sha256};
use site_disk::{Disk, Era, Failed};

/// The blocks of an object that is being sent, the last of them, its bytes so far and their digest, and a place that the
/// volume is known to reach.
#[derive(Drop)]
pub(crate) struct Sending {
    pub(crate) list: BlockList,
    pub(crate) last: u32,
    pub(crate) size: u64,
    pub(crate) hasher: Sha256,
    pub(crate) reached: u64,
}

impl Sending {
    /// An object without bytes.
    pub(crate) fn begin(chains: &Chains) -> Sending
        ensures sent { (tells : Bool) (file part : List ℕ) → IsSent tells file chains.now result part [] }
        ensures list { blocks_of chains.now result.list ≡ [] }
    {
        Sending {
            list: chains.empty_list(),
            last: 0,
            size: 0,
            hasher: Sha256::new(),
            reached: 0,
        }
    }
}

// Adds bytes to a part that isn't full, and writes it once it is. Answers how many bytes it took.
fn fill_part<D: Disk>(
    disk: &mut D,
    era: &Era,
    last: u32,
    part: &mut [u8],
    filled: usize,
    bytes: &[u8],
    reached: &mut u64,
) -> Result<usize, Failed>
    requires era { MayUse era.now (D.ledger disk.old) }
    requires reached { IsTrue D.is_modelled → reached.old ≤ length (D.bytes disk.old) }
    requires part { length part.old ≡ 4096 }
    requires filled { filled < 4096 }
    ensures reached { IsTrue D.is_modelled → OnOk result (reached.new ≤ length (D.bytes disk.new)) }
    ensures taken { IfOk result (λ n. n ≤ length bytes.now) }
    ensures within { IfOk result (λ n. filled + n ≤ 4096) }
    ensures none { filled ≡ 0 → IfOk result (λ n. n ≡ 0) }
    ensures even { IfOk result (λ n. (n ≡ length bytes.now) ⊎ ((filled + n) % 4096 ≡ 0)) }
    ensures stored { (table : Table) (list : List-of-blocks) (message : List ℕ) → filled ≡ length message % 4096
        → Stored D.is_modelled (D.bytes disk.old) table list last part.old message → IfOk result (λ n.
        Stored D.is_modelled (D.bytes disk.new) table list last part.new (message ++ take n bytes.now)) }
    ensures spared { IsTrue D.is_modelled → OnOk result
        (Spares (last ∷ []) (length (D.bytes disk.old)) (D.bytes disk.old) (D.bytes disk.new)) }
    ensures crash { IsTrue D.is_modelled → Leaves era.now.number
        (Spares (last ∷ []) (length (D.bytes disk.old))) (D.image disk.old) (D.image disk.new) }
    ensures unused { filled ≡ 0 → disk.new ≡ disk.old }
    ensures ledger { Uses era.now 0 (place_of last + 4096) (D.ledger disk.old) (D.ledger disk.new) }
    ensures grown { IsTrue D.is_modelled → IfOk result (λ n. (D.ledger disk.new).written ≤ (D.ledger disk.old).written
        + 4096 * ((filled + n) / 4096) + (length (D.bytes disk.new) - length (D.bytes disk.old))) }
    ensures reaches { IsTrue D.is_modelled
        → OnOk result (length (D.bytes disk.new) ≤ max (length (D.bytes disk.old)) (place_of last + 4096)) }
    ensures bound { IsTrue D.is_modelled → (D.ledger disk.new).written ≤ (D.ledger disk.old).written
        + 4096 * ((filled + length bytes.now) / 4096) + (place_of last - length (D.bytes disk.old)) }
    ensures cause { HasCause (D.ledger disk.old).faults (D.ledger disk.new).faults result }
{
    if filled == 0 {
        return Ok(0);
    }
    let n = (BLOCK_LEN - filled).min(bytes.len());
    part[filled..filled + n].copy_from_slice(&bytes[..n]);
    if filled + n == BLOCK_LEN {
        write_run(disk, era, place_of(last), part, reached)?;
    }
    Ok(n)
}

// Takes a block for the bytes behind the whole blocks, where there are any, and keeps them.
fn keep_part(
    chains: &mut Chains,
    list: &mut BlockList,
    last: &mut u32,
    part: &mut [u8],
    rest: &[u8],
)
    requires own { IsListOf chains.old list.old }
    requires part { length part.old ≡ 4096 }
    requires few { length rest.now < 4096 }
    requires room { 0 < length rest.now → 0 < length chains.old.free }
    ensures takes { Takes chains.old chains.new list.old list.new (part_block rest.now last.new) }
    ensures kept { take (length rest.now) part.new ≡ rest.now }
    ensures unused { length rest.now ≡ 0 → (last.new ≡ last.old) × (part.new ≡ part.old) }
{
    if rest.is_empty() {
        return;
    }
    *last = take_block(chains, list);
    part[..rest.len()].copy_from_slice(rest);
}

// Puts the bytes that come behind whole blocks of an object: whole blocks of them on the volume, the others in the
// buffer.
fn put_rest<D: Disk>(
    disk: &mut D,
    era: &Era,
    chains: &mut Chains,
    object: &mut Sending,
    part: &mut [u8],
    bytes: &[u8],
) -> Result<(), Failed>
    requires era { MayUse era.now (D.ledger disk.old) }
    requires own { IsListOf chains.old object.old.list }
    requires part { length part.old ≡ 4096 }
    requires room { length bytes.now ≤ 4096 * length chains.old.free }
    requires reached { IsTrue D.is_modelled → object.old.reached ≤ length (D.bytes disk.old) }
    ensures reached { IsTrue D.is_modelled → OnOk result (object.new.reached ≤ length (D.bytes disk.new)) }
    ensures same { OnOk result ((object.new.size ≡ object.old.size) × (object.new.hasher ≡ object.old.hasher)) }
    ensures taken { OnOk result (TakesFor chains.old chains.new object.old.list object.new.list (blocks_for (length bytes.now))) }
    ensures stored { (message : List ℕ) → (length message % 4096 ≡ 0) ⊎ (length bytes.now ≡ 0)
        → Stored D.is_modelled (D.bytes disk.old) chains.old object.old.list object.old.last part.old message
        → OnOk result (Stored D.is_modelled (D.bytes disk.new) chains.new object.new.list object.new.last part.new (message ++ bytes.now)) }
    ensures spared { IsTrue D.is_modelled → OnOk result
        (Spares chains.old.free (length (D.bytes disk.old)) (D.bytes disk.old) (D.bytes disk.new)) }
    ensures crash { IsTrue D.is_modelled → Leaves era.now.number
        (Spares chains.old.free (length (D.bytes disk.old))) (D.image disk.old) (D.image disk.new) }
    ensures ledger { Uses era.now 0 (length bytes.now / 4096 * place_of chains.old.blocks) (D.ledger disk.old) (D.ledger disk.new) }
    ensures grown { IsTrue D.is_modelled → OnOk result ((D.ledger disk.new).written ≤ (D.ledger disk.old).written
        + 4096 * (length bytes.now / 4096) + (length (D.bytes disk.new) - length (D.bytes disk.old))) }
    ensures bound { IsTrue D.is_modelled → (D.ledger disk.new).written ≤ (D.ledger disk.old).written
        + 4096 * (length bytes.now / 4096) + (place_of chains.old.blocks - length (D.bytes disk.old)) }
    ensures cause { HasCause (D.ledger disk.old).faults (D.ledger disk.new).faults result }
{
    let whole = bytes.len() - bytes.len() % BLOCK_LEN;
    write_blocks(
        disk,
        era,
        chains,
        &mut object.list,
        &bytes[..whole],
        &mut object.reached,
    )?;
    keep_part(
        chains,
        &mut object.list,
        &mut object.last,
        part,
        &bytes[whole..],
    );
    Ok(())
}

/// Sends a piece of an object: its whole blocks go to the volume, and the bytes behind them stay in the buffer.
/// Nothing is taken of it where a free block is lacking.
pub(crate) fn send_piece<D: Disk>(
    disk: &mut D,
    era: &Era,
    chains: &mut Chains,
    object: &mut Sending,
    part: &mut [u8],
    bytes: &[u8],
) -> Result<(), SendFault>
    requires era { MayUse era.now (D.ledger disk.old) }
    requires part { length part.old ≡ 4096 }
    requires small { chains.old.blocks ≤ 1048576 }
    requires begun { (message : List ℕ) × IsSent D.is_modelled (D.bytes disk.old) chains.old object.old part.old message }
    ensures sent { (message : List ℕ) → IsSent D.is_modelled (D.bytes disk.old) chains.old object.old part.old message
        → OnOk result (IsSent D.is_modelled (D.bytes disk.new) chains.new object.new part.new (message ++ bytes.now)) }
    ensures taken { OnOk result (TakesFor chains.old chains.new object.old.list object.new.list
        (blocks_for (object.old.size + length bytes.now) - blocks_for object.old.size)) }
    ensures store_full { IsErrOf result SendFault.StoreFull
        ↔ (length chains.old.free < blocks_for (object.old.size + length bytes.now) - blocks_for object.old.size) }
    ensures refused { IsErrOf result SendFault.StoreFull → (disk.new ≡ disk.old) × (chains.new ≡ chains.old)
        × (object.new ≡ object.old) × (part.new ≡ part.old) }
    ensures failed { IsErrOf result SendFault.Failed → Rose (D.ledger disk.old).faults (D.ledger disk.new).faults }
    ensures spared { IsTrue D.is_modelled → OnOk result
        (Spares (blocks_of chains.old object.old.list ++ chains.old.free) (length (D.bytes disk.old)) (D.bytes disk.old) (D.bytes disk.new)) }
    ensures crash { IsTrue D.is_modelled → Leaves era.now.number
        (Spares (blocks_of chains.old object.old.list ++ chains.old.free) (length (D.bytes disk.old))) (D.image disk.old) (D.image disk.new) }
    ensures ledger { Uses era.now 0 ((1 + length bytes.now / 4096) * place_of chains.old.blocks) (D.ledger disk.old) (D.ledger disk.new) }
    ensures grown { IsTrue D.is_modelled → OnOk result ((D.ledger disk.new).written ≤ (D.ledger disk.old).written
        + 4096 * ((object.old.size % 4096 + length bytes.now) / 4096)
        + (length (D.bytes disk.new) - length (D.bytes disk.old))) }
    ensures bound { IsTrue D.is_modelled → (D.ledger disk.new).written ≤ (D.ledger disk.old).written
        + 4096 * ((object.old.size % 4096 + length bytes.now) / 4096)
        + (place_of chains.old.blocks - length (D.bytes disk.old)) }
{
    let blocks = (object.size + bytes.len() as u64).div_ceil(4096) - object.size.div_ceil(4096);
    if blocks > u64::from(chains.free()) {
        return Err(SendFault::StoreFull);
    }
    let filled = (object.size % 4096) as usize;
    let n = fill_part(
        disk,
        era,
        object.last,
        part,
        filled,
        bytes,
        &mut object.reached,
    )?;
    put_rest(disk, era, chains, object, part, &bytes[n..])?;
    object.hasher.update(bytes);
    object.size += bytes.len() as u64;
    Ok(())
}

// Writes the last bytes of an object, where there are any behind its whole blocks.
fn write_part<D: Disk>(disk: &mut D, era: &Era, last: u32, piece: &[u8]) -> Result<(), Failed>
    requires era { MayUse era.now (D.ledger disk.old) }
    requires few { length piece.now < 4096 }
    ensures finished { IsTrue D.is_modelled → OnOk result (Finished last piece.now (D.bytes disk.old) (D.bytes disk.new)) }
    ensures crash { IsTrue D.is_modelled → Leaves era.now.number
        (Spares (part_block piece.now last) (length (D.bytes disk.old))) (D.image disk.old) (D.image disk.new) }
    ensures ledger { Uses era.now 0 (part_end piece.now last) (D.ledger disk.old) (D.ledger disk.new) }
    ensures bound { IsTrue D.is_modelled → (D.ledger disk.new).written ≤ (D.ledger disk.old).written
        + length piece.now + (part_end piece.now last - length (D.bytes disk.old)) }
    ensures cause { HasCause (D.ledger disk.old).faults (D.ledger disk.new).faults result }
{
    if piece.is_empty() {
        return Ok(());
    }
    write_run(disk, era, place_of(last), piece, &mut 0)
}

/// Writes the last bytes of an object and syncs.
pub(crate) fn finish<D: Disk>(
    disk: &mut D,
    era: &Era,
    last: u32,
    piece: &[u8],
) -> Result<(), Failed>
    requires era { MayUse era.now (D.ledger disk.old) }
    requires few { length piece.now < 4096 }
    ensures finished { IsTrue D.is_modelled → OnOk result (Finished last piece.now (D.bytes disk.old) (D.bytes disk.new)) }
    ensures durable { IsTrue D.is_modelled → OnOk result (OnlyAfter era.now.number (D.bytes disk.new) (D.image disk.new)) }
    ensures crash { IsTrue D.is_modelled → Leaves era.now.number
        (Spares (part_block piece.now last) (length (D.bytes disk.old))) (D.image disk.old) (D.image disk.new) }
    ensures ledger { Uses era.now 0 (part_end piece.now last) (D.ledger disk.old) (D.ledger disk.new) }
    ensures bound { IsTrue D.is_modelled → (D.ledger disk.new).written ≤ (D.ledger disk.old).written
        + length piece.now + (part_end piece.now last - length (D.bytes disk.old)) }
    ensures cause { HasCause (D.ledger disk.old).faults (D.ledger disk.new).faults result }
{
    write_part(disk, era, last, piece)?;
    disk.sync(era)
}
