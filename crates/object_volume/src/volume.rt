//! A volume of objects.
ghost use Rattle.std.specs.Prelude.{◌≡◌, ◌≢◌, ◌+◌, ◌-◌, ◌*◌, ◌/◌, ◌%◌, ◌<◌, ◌≤◌, ◌↔◌, ◌==◌, ◌⊎◌, ℕ, List, [], ◌∷◌, ◌++◌, length, take, drop, filter, min, All, IsTrue, Some, IfSome, IfOk, IfErr, OnOk, OnErr, IsErrOf};
ghost use Rattle.site_disk.specs.Bytes.{written, Same};
ghost use Rattle.site_disk.specs.Causes.{Rose, HasCause};
ghost use Rattle.site_disk.specs.Images.{Leaves, OnlyAfter, Unchanged};
ghost use Rattle.site_disk.specs.Ledger.{MayUse, Uses};
ghost use Rattle.site_headers.specs.Headers.{volume_tail, IsVolumeSize};
ghost use Rattle.block_chain.specs.Blocks.{times, ascending, blocks_of_runs, blocks_of_lists, AreApart, ArePartition, RefusesFirst, blocks_for};
ghost use Rattle.sha2.specs.Sha256.{sha256};
ghost use Rattle.object_volume.specs.Objects.{place_of, object, object_part, Spares};
ghost use Rattle.object_volume.specs.Answers.{Judges, IsDamaged, Describes, IsEndFault};
ghost use Rattle.object_volume.specs.Cursors.{offset_of, StandsIn};
ghost use Rattle.object_volume.specs.Headers.{HasVolume, HasNoVolume, MayFormat, Overlaps};

use crate::checking::check_object;
use crate::faults::{SendFault, Sent, Soundness, VolumeFault};
use crate::reading::{BLOCK_LEN, Cursor, read_object};
use crate::sending::{Sending, finish, send_piece};
use block_chain::{ChainFault, Chains, Run};
use gated_slots::{header_close, header_open, header_read};
use sha2::{Digest, Sha256};
use site_disk::{Disk, Era, Failed};
use site_headers::{read_volume_header, write_volume_header};
use std::alloc::Global;

// Objects are checked so many bytes at a time.
const BUFFER_LEN: usize = 65_536;

// The blocks that the header of the site's volume with this number names, after a sync; none where it has no valid
// header.
fn blocks_named<D: Disk>(
    disk: &mut D,
    era: &Era,
    number: u16,
    site: u64,
) -> Result<Option<u32>, Failed>
    requires { MayUse era.now (D.ledger disk.old) }
    ensures found { IsTrue D.is_modelled → IfOk result (λ named. IfSome named (λ blocks. HasVolume number site blocks (D.bytes disk.old))) }
    ensures small { IfOk result (λ named. IfSome named (λ blocks. blocks ≤ 1048576)) }
    ensures only { IsTrue D.is_modelled → (blocks : ℕ) → HasVolume number site blocks (D.bytes disk.old)
        → IfOk result (λ named. named ≡ Some blocks) }
    ensures bytes { OnOk result (D.bytes disk.new ≡ D.bytes disk.old) }
    ensures durable { IsTrue D.is_modelled → OnOk result (OnlyAfter era.now.number (D.bytes disk.new) (D.image disk.new)) }
    ensures crash { Leaves era.now.number Same (D.image disk.old) (D.image disk.new) }
    ensures ledger { Uses era.now 4096 0 (D.ledger disk.old) (D.ledger disk.new) }
    ensures cause { HasCause (D.ledger disk.old).faults (D.ledger disk.new).faults result }
{
    disk.sync(era)?;
    let mut page = [0; BLOCK_LEN];
    if header_read(disk, era, &mut page)? {
        Ok(read_volume_header(&page, number, site))
    } else {
        Ok(None)
    }
}

/// Objects in blocks of 4,096 bytes on a disk, behind its header page.
///
/// An object is sent piece by piece and is live from its end on, until its runs are released. Sending one writes no
/// block of a live object.
#[derive(Drop)]
pub struct Volume<D> {
    pub(crate) disk: D,
    pub(crate) number: u16,
    pub(crate) alloc: Global,
    // The blocks, once the volume is open.
    pub(crate) chains: Option<Chains>,
    pub(crate) object: Option<Sending>,
    // The bytes of the object that is being sent behind its whole blocks.
    pub(crate) part: [u8; BLOCK_LEN],
}

impl<D: Disk> Volume<D> {
    ghost use Rattle.object_volume.specs.Volumes.{disk_of, with_disk, number_of, blocks_in, free_of, blocks_sent, open_blocks, IsOpen, IsIdle, Sends, IsSending, IsLive, Grows};

    /// The volume with this number, over its disk. It is closed.
    pub fn new(alloc: Global, disk: D, number: u16) -> Volume<D>
        ensures disk { disk_of result ≡ disk }
        ensures number { number_of result ≡ number }
        ensures idle { IsIdle result }
    {
        Volume {
            disk,
            number,
            alloc,
            chains: None,
            object: None,
            part: [0; BLOCK_LEN],
        }
    }

    /// The disk of the volume.
    pub fn into_disk(self) -> D
        ensures { result ≡ disk_of self }
    {
        self.disk
    }

    /// Writes the header page of a volume of so many blocks, for the site with this id. Nothing else is written.
    ///
    /// Wherever the call stops, the header is the one that was there, none, or this one whole. A sync comes first: whether
    /// the gate is to be closed goes by what a read gives, so crash images have to be that.
    pub fn format(&mut self, era: &Era, site: u64, blocks: u32) -> Result<(), Failed>
        requires era { MayUse era.now (D.ledger (disk_of self.old)) }
        requires size { IsVolumeSize blocks }

        ensures written { IsTrue D.is_modelled → OnOk result (D.bytes (disk_of self.new)
            ≡ written 0 (1 ∷ volume_tail (number_of self.old) site blocks) (D.bytes (disk_of self.old))) }
        ensures header { IsTrue D.is_modelled
            → OnOk result (HasVolume (number_of self.old) site blocks (D.bytes (disk_of self.new))) }
        ensures durable { IsTrue D.is_modelled
            → OnOk result (OnlyAfter era.now.number (D.bytes (disk_of self.new)) (D.image (disk_of self.new))) }
        ensures volume { self.new ≡ with_disk self.old (disk_of self.new) }

        ensures crash { IsTrue D.is_modelled → Leaves era.now.number (MayFormat (volume_tail (number_of self.old) site blocks))
            (D.image (disk_of self.old)) (D.image (disk_of self.new)) }
        // Where a crash at entry left a blank volume, one in the call leaves a blank or the whole one.
        ensures blank_or_whole { IsTrue D.is_modelled → ((bytes : List ℕ)
            → D.image (disk_of self.old) era.now.number bytes → HasNoVolume (number_of self.old) site bytes)
            → (f : ℕ) (bytes : List ℕ) → era.now.number ≤ f → D.image (disk_of self.new) f bytes
            → HasNoVolume (number_of self.old) site bytes ⊎ HasVolume (number_of self.old) site blocks bytes }

        ensures ledger { Uses era.now 1 4098 (D.ledger (disk_of self.old)) (D.ledger (disk_of self.new)) }
        ensures cause { HasCause (D.ledger (disk_of self.old)).faults (D.ledger (disk_of self.new)).faults result }
    {
        let mut page = [0; BLOCK_LEN];
        write_volume_header(self.number, site, blocks, &mut page);
        self.disk.sync(era)?;
        header_close(&mut self.disk, era)?;
        header_open(&mut self.disk, era, &page)
    }

    /// Syncs the disk, so that crash images of later eras are what a read gives: a command begins with it.
    pub fn sync(&mut self, era: &Era) -> Result<(), Failed>
        requires { MayUse era.now (D.ledger (disk_of self.old)) }

        ensures volume { self.new ≡ with_disk self.old (disk_of self.new) }
        ensures bytes { OnOk result (D.bytes (disk_of self.new) ≡ D.bytes (disk_of self.old)) }
        ensures durable { IsTrue D.is_modelled
            → OnOk result (OnlyAfter era.now.number (D.bytes (disk_of self.new)) (D.image (disk_of self.new))) }
        ensures crash { Leaves era.now.number Same (D.image (disk_of self.old)) (D.image (disk_of self.new)) }
        ensures synced { OnOk result ((D.ledger (disk_of self.new)).synced ≡ era.now.number) }
        ensures ledger { Uses era.now 0 0 (D.ledger (disk_of self.old)) (D.ledger (disk_of self.new)) }
        ensures cause { HasCause (D.ledger (disk_of self.old)).faults (D.ledger (disk_of self.new)).faults result }
    {
        self.disk.sync(era)
    }

    /// Opens the volume of the site with this id, after a sync. The blocks of the live objects are taken, and all
    /// others are free, in ascending order. A volume that isn't opened stays as it was.
    pub fn open(&mut self, era: &Era, site: u64, live: &[Vec<Run>]) -> Result<(), VolumeFault>
        requires { MayUse era.now (D.ledger (disk_of self.old)) }

        ensures opened { OnOk result (IsOpen self.new) }
        ensures idle { OnOk result (IsIdle self.new) }
        ensures number { number_of self.new ≡ number_of self.old }
        ensures header { IsTrue D.is_modelled → OnOk result
            (HasVolume (number_of self.old) site (blocks_in self.new) (D.bytes (disk_of self.old))) }
        ensures free { OnOk result (free_of self.new
            ≡ filter (λ block. times block (blocks_of_lists live.now) == 0) (ascending 0 (blocks_in self.new))) }
        ensures live { OnOk result (All (λ runs. IsLive self.new runs.items) live.now) }
        ensures parted { OnOk result (ArePartition (blocks_in self.new) (free_of self.new ++ blocks_of_lists live.now)) }

        // The header is read first. The block that is named is the first, in the order of the lists.
        ensures no_header { IsTrue D.is_modelled → IsErrOf result VolumeFault.NoHeader → (blocks : ℕ)
            → HasVolume (number_of self.old) site blocks (D.bytes (disk_of self.old)) → ⊥ }
        ensures overlap { (block : ℕ) → IsErrOf result (VolumeFault.Overlap block)
            → Overlaps D.is_modelled (number_of self.old) site (D.bytes (disk_of self.old)) (blocks_of_lists live.now) block }
        ensures failed { IsErrOf result VolumeFault.Failed
            → Rose (D.ledger (disk_of self.old)).faults (D.ledger (disk_of self.new)).faults }

        // Want of memory comes only where the header was found.
        ensures memory { IsTrue D.is_modelled → IsErrOf result VolumeFault.OutOfMemory → (blocks : ℕ)
            × HasVolume (number_of self.old) site blocks (D.bytes (disk_of self.old)) }

        ensures refused { OnErr result (self.new ≡ with_disk self.old (disk_of self.new)) }
        ensures no_header_bytes { IsErrOf result VolumeFault.NoHeader → D.bytes (disk_of self.new) ≡ D.bytes (disk_of self.old) }
        ensures overlap_bytes { (block : ℕ) → IsErrOf result (VolumeFault.Overlap block)
            → D.bytes (disk_of self.new) ≡ D.bytes (disk_of self.old) }
        ensures memory_bytes { IsErrOf result VolumeFault.OutOfMemory → D.bytes (disk_of self.new) ≡ D.bytes (disk_of self.old) }

        ensures bytes { OnOk result (D.bytes (disk_of self.new) ≡ D.bytes (disk_of self.old)) }
        ensures durable { IsTrue D.is_modelled
            → OnOk result (OnlyAfter era.now.number (D.bytes (disk_of self.new)) (D.image (disk_of self.new))) }
        ensures crash { Leaves era.now.number Same (D.image (disk_of self.old)) (D.image (disk_of self.new)) }
        ensures ledger { Uses era.now 4096 0 (D.ledger (disk_of self.old)) (D.ledger (disk_of self.new)) }
    {
        let Some(blocks) = blocks_named(&mut self.disk, era, self.number, site)? else {
            return Err(VolumeFault::NoHeader);
        };
        match Chains::new(self.alloc, blocks, live) {
            Ok(chains) => {
                self.chains = Some(chains);
                self.object = None;
                Ok(())
            }
            Err(ChainFault::Overlap { block }) => Err(VolumeFault::Overlap { block }),
            Err(ChainFault::OutOfMemory) => Err(VolumeFault::OutOfMemory),
        }
    }

    /// Begins an object.
    pub fn begin(&mut self)
        requires opened { IsOpen self.old }
        requires idle { IsIdle self.old }

        ensures sends { Sends D.is_modelled D.bytes self.new [] }
        ensures begun { IsSending D.is_modelled D.bytes self.new }
        ensures opened { IsOpen self.new }
        ensures disk { disk_of self.new ≡ disk_of self.old }
        ensures number { number_of self.new ≡ number_of self.old }
        ensures free { free_of self.new ≡ free_of self.old }
        ensures blocks { blocks_in self.new ≡ blocks_in self.old }
        ensures sent { blocks_sent self.new ≡ [] }
        ensures live { (runs : List Run) → IsLive self.old runs → IsLive self.new runs }
    {
        let Some(chains) = &self.chains else {
            unreachable!()
        };
        self.object = Some(Sending::begin(chains));
    }

    /// Sends a piece of the object. Nothing is taken of it where a free block is lacking for it.
    ///
    /// Whole blocks are written as they fill, neighbouring ones of one piece in one write, after zero bytes up to the
    /// first of them where the volume ends before it. After `Failed` the volume has to be opened again.
    pub fn send(&mut self, era: &Era, bytes: &[u8]) -> Result<(), SendFault>
        requires era { MayUse era.now (D.ledger (disk_of self.old)) }
        requires opened { IsOpen self.old }
        requires begun { IsSending D.is_modelled D.bytes self.old }

        ensures sends { (message : List ℕ) → Sends D.is_modelled D.bytes self.old message
            → OnOk result (Sends D.is_modelled D.bytes self.new (message ++ bytes.now)) }
        ensures begun { OnOk result (IsSending D.is_modelled D.bytes self.new) }
        ensures opened { OnOk result (IsOpen self.new) }
        ensures number { number_of self.new ≡ number_of self.old }

        // The piece takes the first free blocks.
        ensures taken { (message : List ℕ) → Sends D.is_modelled D.bytes self.old message → OnOk result (Grows self.old self.new
            (blocks_for (length message + length bytes.now) - blocks_for (length message))) }
        ensures live { (runs : List Run) → IsLive self.old runs → OnOk result (IsLive self.new runs) }

        ensures store_full { (message : List ℕ) → Sends D.is_modelled D.bytes self.old message
            → IsErrOf result SendFault.StoreFull
            ↔ (length (free_of self.old) < blocks_for (length message + length bytes.now) - blocks_for (length message)) }
        ensures refused { IsErrOf result SendFault.StoreFull → self.new ≡ self.old }
        ensures failed { IsErrOf result SendFault.Failed
            → Rose (D.ledger (disk_of self.old)).faults (D.ledger (disk_of self.new)).faults }

        ensures spared { IsTrue D.is_modelled → OnOk result (Spares (open_blocks self.old) (length (D.bytes (disk_of self.old)))
            (D.bytes (disk_of self.old)) (D.bytes (disk_of self.new))) }
        ensures crash { IsTrue D.is_modelled → Leaves era.now.number
            (Spares (open_blocks self.old) (length (D.bytes (disk_of self.old))))
            (D.image (disk_of self.old)) (D.image (disk_of self.new)) }

        ensures ledger { Uses era.now 0 ((1 + length bytes.now / 4096) * place_of (blocks_in self.old))
            (D.ledger (disk_of self.old)) (D.ledger (disk_of self.new)) }
        // The blocks that fill are written, and at most as many zero bytes as the volume grows by.
        ensures grown { IsTrue D.is_modelled → (message : List ℕ) → Sends D.is_modelled D.bytes self.old message
            → OnOk result ((D.ledger (disk_of self.new)).written ≤ (D.ledger (disk_of self.old)).written
            + 4096 * ((length message % 4096 + length bytes.now) / 4096)
            + (length (D.bytes (disk_of self.new)) - length (D.bytes (disk_of self.old)))) }
        // However it ends these are at most as many as the volume lacks of its whole length.
        ensures bound { IsTrue D.is_modelled → (message : List ℕ) → Sends D.is_modelled D.bytes self.old message
            → (D.ledger (disk_of self.new)).written ≤ (D.ledger (disk_of self.old)).written
            + 4096 * ((length message % 4096 + length bytes.now) / 4096)
            + (place_of (blocks_in self.old) - length (D.bytes (disk_of self.old))) }
    {
        let Some(chains) = &mut self.chains else {
            unreachable!()
        };
        let Some(object) = &mut self.object else {
            unreachable!()
        };
        send_piece(&mut self.disk, era, chains, object, &mut self.part, bytes)
    }

    /// Ends the object: writes its last bytes, syncs, and answers its runs, its size and its SHA-256. From then on it is
    /// live, and each image of later eras has it whole.
    ///
    /// After a fault the volume has to be opened again.
    pub fn end(&mut self, era: &Era) -> Result<Sent, VolumeFault>
        requires era { MayUse era.now (D.ledger (disk_of self.old)) }
        requires opened { IsOpen self.old }
        requires begun { IsSending D.is_modelled D.bytes self.old }

        ensures sent { (message : List ℕ) → Sends D.is_modelled D.bytes self.old message → IfOk result (Describes message) }
        ensures stands { IsTrue D.is_modelled → (message : List ℕ) → Sends D.is_modelled D.bytes self.old message
            → IfOk result (λ sent. object sent.runs.items sent.size (D.bytes (disk_of self.new)) ≡ message) }
        ensures durable { IsTrue D.is_modelled
            → OnOk result (OnlyAfter era.now.number (D.bytes (disk_of self.new)) (D.image (disk_of self.new))) }

        ensures opened { OnOk result (IsOpen self.new) }
        ensures idle { OnOk result (IsIdle self.new) }
        ensures number { number_of self.new ≡ number_of self.old }
        ensures listed { IfOk result (λ sent. blocks_of_runs sent.runs.items ≡ blocks_sent self.old) }
        ensures live { IfOk result (λ sent. IsLive self.new sent.runs.items) }
        ensures others { (runs : List Run) → IsLive self.old runs → OnOk result (IsLive self.new runs) }
        ensures free { OnOk result (free_of self.new ≡ free_of self.old) }
        ensures blocks { OnOk result (blocks_in self.new ≡ blocks_in self.old) }

        ensures failed { IsErrOf result VolumeFault.Failed
            → Rose (D.ledger (disk_of self.old)).faults (D.ledger (disk_of self.new)).faults }
        ensures only { IfErr result IsEndFault }
        // Want of memory is met before the disk is touched.
        ensures starved { IsErrOf result VolumeFault.OutOfMemory → disk_of self.new ≡ disk_of self.old }

        ensures spared { IsTrue D.is_modelled → OnOk result (Spares (open_blocks self.old) (length (D.bytes (disk_of self.old)))
            (D.bytes (disk_of self.old)) (D.bytes (disk_of self.new))) }
        ensures crash { IsTrue D.is_modelled → Leaves era.now.number
            (Spares (open_blocks self.old) (length (D.bytes (disk_of self.old))))
            (D.image (disk_of self.old)) (D.image (disk_of self.new)) }
        ensures ledger { Uses era.now 0 (place_of (blocks_in self.old)) (D.ledger (disk_of self.old)) (D.ledger (disk_of self.new)) }
        ensures bound { IsTrue D.is_modelled → (message : List ℕ) → Sends D.is_modelled D.bytes self.old message
            → (D.ledger (disk_of self.new)).written ≤ (D.ledger (disk_of self.old)).written + length message % 4096
            + (place_of (blocks_in self.old) - length (D.bytes (disk_of self.old))) }
    {
        let Some(chains) = &self.chains else {
            unreachable!()
        };
        let Some(object) = self.object.take() else {
            unreachable!()
        };
        let runs = chains.runs(&object.list)?;
        let rest = (object.size % 4096) as usize;
        finish(&mut self.disk, era, object.last, &self.part[..rest])?;
        Ok(Sent {
            runs,
            size: object.size,
            digest: object.hasher.finalize(),
        })
    }

    /// Gives the blocks of the object back, behind the free ones. Nothing is written.
    pub fn cancel(&mut self)
        requires opened { IsOpen self.old }
        requires begun { IsSending D.is_modelled D.bytes self.old }

        ensures opened { IsOpen self.new }
        ensures idle { IsIdle self.new }
        ensures disk { disk_of self.new ≡ disk_of self.old }
        ensures number { number_of self.new ≡ number_of self.old }
        ensures free { free_of self.new ≡ free_of self.old ++ blocks_sent self.old }
        ensures blocks { blocks_in self.new ≡ blocks_in self.old }
        ensures live { (runs : List Run) → IsLive self.old runs → IsLive self.new runs }
        ensures parted { (others : List ℕ)
            → ArePartition (blocks_in self.old) (free_of self.old ++ (blocks_sent self.old ++ others))
            → ArePartition (blocks_in self.new) (free_of self.new ++ others) }
    {
        let Some(chains) = &mut self.chains else {
            unreachable!()
        };
        if let Some(object) = self.object.take() {
            chains.give_back(object.list);
        }
    }

    /// Gives the blocks of a live object back, behind the free ones. Nothing is written.
    pub fn release(&mut self, runs: &[Run])
        requires opened { IsOpen self.old }
        requires live { IsLive self.old runs.now }

        ensures opened { IsOpen self.new }
        ensures disk { disk_of self.new ≡ disk_of self.old }
        ensures number { number_of self.new ≡ number_of self.old }
        ensures sends { (message : List ℕ) → Sends D.is_modelled D.bytes self.old message → Sends D.is_modelled D.bytes self.new message }
        ensures idle { IsIdle self.old → IsIdle self.new }
        ensures free { free_of self.new ≡ free_of self.old ++ blocks_of_runs runs.now }
        ensures blocks { blocks_in self.new ≡ blocks_in self.old }
        ensures sent { blocks_sent self.new ≡ blocks_sent self.old }
        ensures live { (others : List Run) → IsLive self.old others
            → AreApart (blocks_of_runs runs.now) (blocks_of_runs others) → IsLive self.new others }
        ensures parted { (others : List ℕ)
            → ArePartition (blocks_in self.old) (free_of self.old ++ (blocks_of_runs runs.now ++ others))
            → ArePartition (blocks_in self.new) (free_of self.new ++ others) }
    {
        let Some(chains) = &mut self.chains else {
            unreachable!()
        };
        let list = chains.list_of(runs);
        chains.give_back(list);
    }

    /// Copies bytes of the object in these runs, from one of its bytes on, and answers how many: fewer than the buffer
    /// takes where the object or the volume ends. Each run is read by one read.
    pub fn get(
        &mut self,
        era: &Era,
        runs: &[Run],
        size: u64,
        at: u64,
        into: &mut [u8],
    ) -> Result<usize, Failed>
        requires { MayUse era.now (D.ledger (disk_of self.old)) }

        ensures bound { IfOk result (λ n. n ≤ min (length into.old) (size - at)) }
        ensures count { IsTrue D.is_modelled → IfOk result (λ n.
            n ≡ length (object_part runs.now size at (length into.old) (D.bytes (disk_of self.old)))) }
        ensures found { IsTrue D.is_modelled → IfOk result (λ n.
            take n into.new ≡ object_part runs.now size at (length into.old) (D.bytes (disk_of self.old))) }
        ensures rest { IfOk result (λ n. drop n into.new ≡ drop n into.old) }

        ensures volume { self.new ≡ with_disk self.old (disk_of self.new) }
        ensures bytes { OnOk result (D.bytes (disk_of self.new) ≡ D.bytes (disk_of self.old)) }
        ensures images { OnOk result (Unchanged (D.image (disk_of self.old)) (D.image (disk_of self.new))) }
        ensures crash { Leaves era.now.number Same (D.image (disk_of self.old)) (D.image (disk_of self.new)) }

        ensures ledger { Uses era.now (length into.old) 0 (D.ledger (disk_of self.old)) (D.ledger (disk_of self.new)) }
        ensures cause { HasCause (D.ledger (disk_of self.old)).faults (D.ledger (disk_of self.new)).faults result }
    {
        let mut cursor = Cursor::at(at);
        read_object(&mut self.disk, era, runs, size, &mut cursor, into)
    }

    /// Copies the next bytes of the object in these runs, from the cursor on, as `get` does, and moves the cursor behind
    /// them. Runs before the cursor aren't looked at, so an object that is read from its begin on costs what it has.
    pub fn get_next(
        &mut self,
        era: &Era,
        runs: &[Run],
        size: u64,
        cursor: &mut Cursor,
        into: &mut [u8],
    ) -> Result<usize, Failed>
        requires era { MayUse era.now (D.ledger (disk_of self.old)) }
        requires stands { StandsIn runs.now cursor.old }

        ensures bound { IfOk result (λ n. n ≤ min (length into.old) (size - offset_of cursor.old)) }
        ensures count { IsTrue D.is_modelled → IfOk result (λ n.
            n ≡ length (object_part runs.now size (offset_of cursor.old) (length into.old) (D.bytes (disk_of self.old)))) }
        ensures found { IsTrue D.is_modelled → IfOk result (λ n.
            take n into.new ≡ object_part runs.now size (offset_of cursor.old) (length into.old) (D.bytes (disk_of self.old))) }
        ensures rest { IfOk result (λ n. drop n into.new ≡ drop n into.old) }

        // It can be read on from the cursor in these runs, after a failure too.
        ensures moved { IfOk result (λ n. offset_of cursor.new ≡ offset_of cursor.old + n) }
        ensures stands { StandsIn runs.now cursor.new }
        ensures stays { OnErr result (cursor.new ≡ cursor.old) }

        ensures volume { self.new ≡ with_disk self.old (disk_of self.new) }
        ensures bytes { OnOk result (D.bytes (disk_of self.new) ≡ D.bytes (disk_of self.old)) }
        ensures images { OnOk result (Unchanged (D.image (disk_of self.old)) (D.image (disk_of self.new))) }
        ensures crash { Leaves era.now.number Same (D.image (disk_of self.old)) (D.image (disk_of self.new)) }

        ensures ledger { Uses era.now (length into.old) 0 (D.ledger (disk_of self.old)) (D.ledger (disk_of self.new)) }
        ensures cause { HasCause (D.ledger (disk_of self.old)).faults (D.ledger (disk_of self.new)).faults result }
    {
        read_object(&mut self.disk, era, runs, size, cursor, into)
    }

    /// Compares the SHA-256 of the object in these runs with the one that is kept. `Short` exactly where the volume, or
    /// the runs, end within the object, `Damaged` exactly where its bytes have another digest.
    pub fn check(
        &mut self,
        era: &Era,
        runs: &[Run],
        size: u64,
        digest: &[u8; 32],
    ) -> Result<Soundness, Failed>
        requires { MayUse era.now (D.ledger (disk_of self.old)) }

        ensures judged { IsTrue D.is_modelled
            → IfOk result (Judges (object runs.now size (D.bytes (disk_of self.old))) size digest.now) }
        ensures damaged { IfOk result (IsDamaged digest.now) }

        ensures volume { self.new ≡ with_disk self.old (disk_of self.new) }
        ensures bytes { OnOk result (D.bytes (disk_of self.new) ≡ D.bytes (disk_of self.old)) }
        ensures images { OnOk result (Unchanged (D.image (disk_of self.old)) (D.image (disk_of self.new))) }
        ensures crash { Leaves era.now.number Same (D.image (disk_of self.old)) (D.image (disk_of self.new)) }

        ensures ledger { Uses era.now size 0 (D.ledger (disk_of self.old)) (D.ledger (disk_of self.new)) }
        ensures cause { HasCause (D.ledger (disk_of self.old)).faults (D.ledger (disk_of self.new)).faults result }
    {
        let mut buffer = [0; BUFFER_LEN];
        check_object(&mut self.disk, era, runs, size, digest, &mut buffer)
    }
}
