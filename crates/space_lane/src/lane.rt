//! The lane of a space over its chunk.
ghost use Rattle.std.specs.Prelude.{◌≡◌, ◌+◌, ◌*◌, ◌^◌, ◌<◌, ◌≤◌, [], ◌∷◌, ℕ, length, IsTrue, OnOk, IfErr, IsErrOf};
ghost use Rattle.site_disk.specs.Bytes.{Same, Torn, written};
ghost use Rattle.site_disk.specs.Causes.{HasCause};
ghost use Rattle.site_disk.specs.Images.{Leaves, OnlyAfter, IsSynced, Unchanged};
ghost use Rattle.site_disk.specs.Ledger.{MayUse, Uses};
ghost use Rattle.site_disk.specs.Seen.{seen};
ghost use Rattle.gated_slots.specs.Header.{StandsClosed};
ghost use Rattle.before_images.specs.Saved.{place_of};
ghost use Rattle.site_headers.specs.Headers.{HasHeader};
ghost use Rattle.space_pages.specs.Pages.{empty_pages};
ghost use Rattle.backup_lines.specs.declared.lanes.LaneState.{LaneState as StateView};
ghost use Rattle.lane_ways.specs.Pictures.{Stand, pages_at};
ghost use Rattle.lane_mark.specs.Layout.{FitsState};
ghost use Rattle.space_lane.specs.Answers.{FailsOn, IsOpening, IsReading, IsRefusal};
ghost use Rattle.space_lane.specs.Chunks.{HasMark, IsCount, IsPage, IsSettled, SamePages, chunk_tail, page_at, settled};
ghost use Rattle.space_lane.specs.Stops.{MayFormat, MayLose, MayRestore, MayReopen, MaySet, StaysClosed};

use crate::emptying::{empty_chunk, lose_chunk};
use crate::faults::LaneFault;
use crate::header::has_header;
use crate::opening::{load_state, settle};
use crate::pages::{put_page, read_page};
use crate::places::{IMAGES_AT, MARK_AT};
use crate::reopening::write_state;
use crate::states::store_state;
use backup_lines::LaneState;
use before_images::Images;
use site_disk::{Disk, Era, Failed};
use twin_mark::Mark;

/// The lane of a space over its chunk.
#[derive(Drop)]
pub struct Lane<D> {
    pub(crate) disk: D,
    pub(crate) space: u16,
    pub(crate) pages: u32,
    pub(crate) state: LaneState,
    pub(crate) mark: Mark,
    pub(crate) images: Images,
}

impl<D: Disk> Lane<D> {
    ghost use Rattle.space_lane.specs.Lanes.{disk_of, space_of, count_of, state_of, with_disk, IsMade, TellsOf, IsOpen, Agrees, Stands, IsEmptied};

    /// The lane of a space over its chunk. It is closed.
    pub fn new(disk: D, space: u16) -> Lane<D>
        ensures disk { disk_of result ≡ disk }
        ensures space { space_of result ≡ space }
        ensures made { IsMade result }
    {
        Lane {
            disk,
            space,
            pages: 0,
            state: LaneState::At { upto: 0, part: 0 },
            mark: Mark::new(MARK_AT),
            images: Images::new(IMAGES_AT),
        }
    }

    /// Its disk.
    pub fn into_disk(self) -> D
        ensures { result ≡ disk_of self }
    {
        self.disk
    }

    /// Syncs the disk. The value and what a read gives stay.
    pub fn sync(&mut self, era: &Era) -> Result<(), Failed>
        requires { MayUse era.now (D.ledger (disk_of self.old)) }
        ensures value { self.new ≡ with_disk self.old (disk_of self.new) }
        ensures bytes { OnOk result (D.bytes (disk_of self.new) ≡ D.bytes (disk_of self.old)) }
        ensures stands { IsTrue D.is_modelled → (site count : ℕ) (state : StateView)
            → Agrees site count state (D.bytes (disk_of self.old)) self.old → IsSettled state count (D.bytes (disk_of self.old))
            → OnOk result (Stands site count state (seen D.Disk (disk_of self.new)) self.new) }
        ensures synced { OnOk result ((D.ledger (disk_of self.new)).synced ≡ era.now.number) }
        ensures durable { IsTrue D.is_modelled
            → OnOk result (OnlyAfter era.now.number (D.bytes (disk_of self.new)) (D.image (disk_of self.new))) }
        ensures crash { Leaves era.now.number Same (D.image (disk_of self.old)) (D.image (disk_of self.new)) }
        ensures ledger { Uses era.now 0 0 (D.ledger (disk_of self.old)) (D.ledger (disk_of self.new)) }
        ensures cause { HasCause (D.ledger (disk_of self.old)).faults (D.ledger (disk_of self.new)).faults result }
    {
        self.disk.sync(era)
    }

    /// Writes the chunk of a site anew: so many empty pages, and this state.
    ///
    /// The header is closed first, then each page is written once, nothing is kept, the mark is written, and the header is
    /// opened last.
    pub fn format(
        &mut self,
        era: &Era,
        site: u64,
        pages: u32,
        state: &LaneState,
    ) -> Result<(), Failed>
        requires era { MayUse era.now (D.ledger (disk_of self.old)) }
        requires made { IsMade self.old }
        requires pages { IsCount pages }
        requires fits { FitsState state.now }

        ensures made { IsMade self.new }
        ensures space { space_of self.new ≡ space_of self.old }
        ensures opened { OnOk result (IsOpen self.new) }
        ensures told { OnOk result (TellsOf pages state.now self.new) }
        ensures stands { IsTrue D.is_modelled → OnOk result (Stands site pages state.now (seen D.Disk (disk_of self.new)) self.new) }
        ensures pages { IsTrue D.is_modelled
            → OnOk result (Stand (space_of self.old) 0 (empty_pages pages) (D.bytes (disk_of self.new))) }
        ensures durable { IsTrue D.is_modelled
            → OnOk result (OnlyAfter era.now.number (D.bytes (disk_of self.new)) (D.image (disk_of self.new))) }
        // No header, the chunk from before, or the new one whole.
        ensures crash { IsTrue D.is_modelled → Leaves era.now.number (MayFormat site (space_of self.old) pages state.now)
            (D.image (disk_of self.old)) (D.image (disk_of self.new)) }
        ensures ledger { Uses era.now 2 (87043 + 4096 * pages) (D.ledger (disk_of self.old)) (D.ledger (disk_of self.new)) }
        ensures cause { HasCause (D.ledger (disk_of self.old)).faults (D.ledger (disk_of self.new)).faults result }
    {
        lose_chunk(&mut self.disk, era)?;
        empty_chunk(&mut self.disk, era, self.space, pages)?;
        self.reopen(era, site, pages, state)
    }

    /// Opens the chunk of a site with so many pages: reads its state, and puts back what is kept for the place of it.
    ///
    /// It begins with a sync. What is kept stays where it is, since it may be put back again.
    pub fn open(&mut self, era: &Era, site: u64, pages: u32) -> Result<(), LaneFault>
        requires era { MayUse era.now (D.ledger (disk_of self.old)) }
        requires made { IsMade self.old }

        ensures made { IsMade self.new }
        ensures space { space_of self.new ≡ space_of self.old }
        ensures opened { OnOk result (IsOpen self.new) }
        ensures told { OnOk result (TellsOf pages (state_of self.new) self.new) }
        ensures header { IsTrue D.is_modelled
            → OnOk result (HasHeader (chunk_tail site (space_of self.old) pages) (D.bytes (disk_of self.old))) }
        ensures found { IsTrue D.is_modelled
            → OnOk result (HasMark (state_of self.new) (D.bytes (disk_of self.old))) }
        ensures lost { IsTrue D.is_modelled → IsErrOf result LaneFault.ChunkLost
            → HasHeader (chunk_tail site (space_of self.old) pages) (D.bytes (disk_of self.old)) → ⊥ }
        ensures marked { IsTrue D.is_modelled → IsErrOf result LaneFault.BadMark
            → HasHeader (chunk_tail site (space_of self.old) pages) (D.bytes (disk_of self.old)) }
        ensures bad_mark { IsTrue D.is_modelled → IsErrOf result LaneFault.BadMark
            → (state : StateView) → HasMark state (D.bytes (disk_of self.old)) → ⊥ }
        ensures only { IfErr result IsOpening }
        ensures failed { IfErr result (FailsOn (D.ledger (disk_of self.old)).faults (D.ledger (disk_of self.new)).faults) }

        // Where the chunk is as long as its pages take.
        ensures stands { IsTrue D.is_modelled → place_of pages_at pages ≤ length (D.bytes (disk_of self.old))
            → OnOk result (Stands site pages (state_of self.new) (seen D.Disk (disk_of self.new)) self.new) }
        ensures bytes { IsTrue D.is_modelled → place_of pages_at pages ≤ length (D.bytes (disk_of self.old))
            → OnOk result (D.bytes (disk_of self.new) ≡ settled (state_of self.new) pages (D.bytes (disk_of self.old))) }
        ensures durable { IsTrue D.is_modelled
            → OnOk result (OnlyAfter era.now.number (D.bytes (disk_of self.new)) (D.image (disk_of self.new))) }
        ensures crash { IsTrue D.is_modelled → place_of pages_at pages ≤ length (D.bytes (disk_of self.old))
            → Leaves era.now.number (MayRestore pages) (D.image (disk_of self.old)) (D.image (disk_of self.new)) }
        ensures refused { IfErr result (λ fault. IsRefusal fault → D.bytes (disk_of self.new) ≡ D.bytes (disk_of self.old)) }
        ensures untouched { IfErr result (λ fault. IsRefusal fault
            → Leaves era.now.number Same (D.image (disk_of self.old)) (D.image (disk_of self.new))) }
        // Without a header nothing is written, also where the disk fails.
        ensures unheaded { IsTrue D.is_modelled
            → (HasHeader (chunk_tail site (space_of self.old) pages) (D.bytes (disk_of self.old)) → ⊥)
            → Leaves era.now.number Same (D.image (disk_of self.old)) (D.image (disk_of self.new)) }
        ensures ledger { Uses era.now 74496 (143360 + 4096 * 2 ^ 32) (D.ledger (disk_of self.old)) (D.ledger (disk_of self.new)) }
        ensures bound { IsTrue D.is_modelled → place_of pages_at pages ≤ length (D.bytes (disk_of self.old))
            → (D.ledger (disk_of self.new)).written ≤ (D.ledger (disk_of self.old)).written + 65536 }
    {
        if !has_header(&mut self.disk, era, site, self.space, pages)? {
            return Err(LaneFault::ChunkLost);
        }
        self.load(era, pages)
    }

    // Reads the state behind a header that is there, and puts back what is kept for it, after a sync.
    fn load(&mut self, era: &Era, pages: u32) -> Result<(), LaneFault>
        requires era { MayUse era.now (D.ledger (disk_of self.old)) }
        requires made { IsMade self.old }
        ensures made { IsMade self.new }
        ensures space { space_of self.new ≡ space_of self.old }
        ensures told { OnOk result (TellsOf pages (state_of self.new) self.new) }
        ensures found { IsTrue D.is_modelled
            → OnOk result (HasMark (state_of self.new) (D.bytes (disk_of self.old))) }
        ensures not_lost { IsErrOf result LaneFault.ChunkLost → ⊥ }
        ensures bad_mark { IsTrue D.is_modelled → IsErrOf result LaneFault.BadMark
            → (state : StateView) → HasMark state (D.bytes (disk_of self.old)) → ⊥ }
        ensures only { IfErr result IsOpening }
        ensures failed { IfErr result (FailsOn (D.ledger (disk_of self.old)).faults (D.ledger (disk_of self.new)).faults) }
        ensures stands { IsTrue D.is_modelled → IsSynced (seen D.Disk (disk_of self.old)) → (site : ℕ)
            → HasHeader (chunk_tail site (space_of self.old) pages) (D.bytes (disk_of self.old))
            → place_of pages_at pages ≤ length (D.bytes (disk_of self.old))
            → OnOk result (Stands site pages (state_of self.new) (seen D.Disk (disk_of self.new)) self.new) }
        ensures bytes { IsTrue D.is_modelled → place_of pages_at pages ≤ length (D.bytes (disk_of self.old))
            → OnOk result (D.bytes (disk_of self.new) ≡ settled (state_of self.new) pages (D.bytes (disk_of self.old))) }
        ensures durable { IsTrue D.is_modelled → OnlyAfter era.now.number (D.bytes (disk_of self.old)) (D.image (disk_of self.old))
            → OnOk result (OnlyAfter era.now.number (D.bytes (disk_of self.new)) (D.image (disk_of self.new))) }
        ensures crash { IsTrue D.is_modelled → place_of pages_at pages ≤ length (D.bytes (disk_of self.old))
            → IsSynced (seen D.Disk (disk_of self.old))
            → Leaves era.now.number (MayRestore pages) (D.image (disk_of self.old)) (D.image (disk_of self.new)) }
        ensures refused { IfErr result (λ fault. IsRefusal fault → D.bytes (disk_of self.new) ≡ D.bytes (disk_of self.old)) }
        ensures untouched { IfErr result (λ fault. IsRefusal fault
            → Leaves era.now.number Same (D.image (disk_of self.old)) (D.image (disk_of self.new))) }
        ensures ledger { Uses era.now 70400 (143360 + 4096 * 2 ^ 32) (D.ledger (disk_of self.old)) (D.ledger (disk_of self.new)) }
        ensures bound { IsTrue D.is_modelled → place_of pages_at pages ≤ length (D.bytes (disk_of self.old))
            → (D.ledger (disk_of self.new)).written ≤ (D.ledger (disk_of self.old)).written + 65536 }
    {
        let state = load_state(&mut self.disk, era, &mut self.mark)?;
        settle(&mut self.disk, era, &mut self.images, pages, &state)?;
        self.pages = pages;
        self.state = state;
        Ok(())
    }

    /// The state that it tells of.
    pub fn state(&self) -> &LaneState
        requires { IsOpen self.now }
        ensures { result.now ≡ state_of self.now }
    {
        &self.state
    }

    /// Syncs the pages, drops what is kept, and stores this state in the mark. Each image has the state from before or this one.
    pub fn set_state(&mut self, era: &Era, state: &LaneState) -> Result<(), Failed>
        requires era { MayUse era.now (D.ledger (disk_of self.old)) }
        requires opened { IsOpen self.old }
        requires fits { FitsState state.now }

        ensures made { IsMade self.new }
        ensures space { space_of self.new ≡ space_of self.old }
        ensures opened { OnOk result (IsOpen self.new) }
        ensures told { OnOk result (TellsOf (count_of self.old) state.now self.new) }
        ensures stands { IsTrue D.is_modelled → (site count : ℕ) (before : StateView)
            → Agrees site count before (D.bytes (disk_of self.old)) self.old
            → OnOk result (Stands site count state.now (seen D.Disk (disk_of self.new)) self.new) }
        ensures pages { IsTrue D.is_modelled → (site count : ℕ) (before : StateView)
            → Agrees site count before (D.bytes (disk_of self.old)) self.old
            → OnOk result (SamePages (D.bytes (disk_of self.old)) (D.bytes (disk_of self.new))) }
        ensures durable { IsTrue D.is_modelled
            → OnOk result (OnlyAfter era.now.number (D.bytes (disk_of self.new)) (D.image (disk_of self.new))) }
        ensures crash { IsTrue D.is_modelled → (site count : ℕ) (before : StateView)
            → Agrees site count before (D.bytes (disk_of self.old)) self.old
            → Leaves era.now.number (MaySet state.now (D.bytes (disk_of self.old))) (D.image (disk_of self.old)) (D.image (disk_of self.new)) }
        ensures ledger { Uses era.now 2 13059 (D.ledger (disk_of self.old)) (D.ledger (disk_of self.new)) }
        ensures bound { IsTrue D.is_modelled → (site count : ℕ) (before : StateView)
            → Agrees site count before (D.bytes (disk_of self.old)) self.old
            → (D.ledger (disk_of self.new)).written ≤ (D.ledger (disk_of self.old)).written + 259 }
        ensures cause { HasCause (D.ledger (disk_of self.old)).faults (D.ledger (disk_of self.new)).faults result }
    {
        store_state(&mut self.disk, era, &mut self.images, &mut self.mark, state)?;
        self.state = *state;
        Ok(())
    }

    /// Reads a page. `BadPage` exactly where its space, its zeros or its number aren't as the layout says.
    ///
    /// It may also be called on a lane that was emptied.
    pub fn read_page(
        &mut self,
        era: &Era,
        page: u32,
        into: &mut [u8; 4096],
    ) -> Result<(), LaneFault>
        requires era { MayUse era.now (D.ledger (disk_of self.old)) }
        requires page { page < count_of self.old }

        ensures value { self.new ≡ with_disk self.old (disk_of self.new) }
        ensures found { IsTrue D.is_modelled → OnOk result (into.new ≡ page_at page (D.bytes (disk_of self.old))) }
        ensures page { OnOk result (IsPage (space_of self.old) page into.new) }
        ensures bad { IsTrue D.is_modelled → IsErrOf result (LaneFault.BadPage page)
            → IsPage (space_of self.old) page (page_at page (D.bytes (disk_of self.old))) → ⊥ }
        ensures only { IfErr result (IsReading page) }
        ensures failed { IfErr result (FailsOn (D.ledger (disk_of self.old)).faults (D.ledger (disk_of self.new)).faults) }
        ensures bytes { OnOk result (D.bytes (disk_of self.new) ≡ D.bytes (disk_of self.old)) }
        ensures images { OnOk result (Unchanged (D.image (disk_of self.old)) (D.image (disk_of self.new))) }
        ensures refused_bytes { IsErrOf result (LaneFault.BadPage page) → D.bytes (disk_of self.new) ≡ D.bytes (disk_of self.old) }
        ensures refused_images { IsErrOf result (LaneFault.BadPage page)
            → Unchanged (D.image (disk_of self.old)) (D.image (disk_of self.new)) }
        ensures stands { IsTrue D.is_modelled → (site count : ℕ) (state : StateView)
            → Stands site count state (seen D.Disk (disk_of self.old)) self.old
            → OnOk result (Stands site count state (seen D.Disk (disk_of self.new)) self.new) }
        ensures crash { Leaves era.now.number Same (D.image (disk_of self.old)) (D.image (disk_of self.new)) }
        ensures ledger { Uses era.now 4096 0 (D.ledger (disk_of self.old)) (D.ledger (disk_of self.new)) }
    {
        read_page(&mut self.disk, era, self.space, page, into)
    }

    /// Writes a page. It stands once `set_state` or `reopen` has synced it.
    ///
    /// It may also be called on a lane that was emptied. Where the disk ends before the page, zero bytes are written up to it
    /// first, and nothing is said of what a stop leaves.
    pub fn put_page(&mut self, era: &Era, page: u32, bytes: &[u8; 4096]) -> Result<(), Failed>
        requires era { MayUse era.now (D.ledger (disk_of self.old)) }
        requires page { page < count_of self.old }
        requires bytes { IsPage (space_of self.old) page bytes.now }

        ensures value { self.new ≡ with_disk self.old (disk_of self.new) }
        ensures bytes { IsTrue D.is_modelled → place_of pages_at page ≤ length (D.bytes (disk_of self.old))
            → OnOk result (D.bytes (disk_of self.new) ≡ written (place_of pages_at page) bytes.now (D.bytes (disk_of self.old))) }
        ensures agrees { IsTrue D.is_modelled → (site count : ℕ) (state : StateView)
            → Agrees site count state (D.bytes (disk_of self.old)) self.old
            → OnOk result (Agrees site count state (D.bytes (disk_of self.new)) self.new) }
        ensures emptied { IsTrue D.is_modelled → (count : ℕ) → page < count
            → IsEmptied count (seen D.Disk (disk_of self.old)) → OnOk result (IsEmptied count (seen D.Disk (disk_of self.new))) }
        ensures crash { IsTrue D.is_modelled → place_of pages_at page ≤ length (D.bytes (disk_of self.old))
            → Leaves era.now.number (Torn (place_of pages_at page) 4096) (D.image (disk_of self.old)) (D.image (disk_of self.new)) }
        ensures ledger { Uses era.now 0 (place_of pages_at page + 4096) (D.ledger (disk_of self.old)) (D.ledger (disk_of self.new)) }
        ensures bound { IsTrue D.is_modelled → place_of pages_at page ≤ length (D.bytes (disk_of self.old))
            → (D.ledger (disk_of self.new)).written ≤ (D.ledger (disk_of self.old)).written + 4096 }
        ensures cause { HasCause (D.ledger (disk_of self.old)).faults (D.ledger (disk_of self.new)).faults result }
    {
        put_page(&mut self.disk, era, page, bytes)
    }

    /// Syncs, and closes the header: the lane is lost.
    pub fn lose(&mut self, era: &Era) -> Result<(), Failed>
        requires { MayUse era.now (D.ledger (disk_of self.old)) }
        ensures value { self.new ≡ with_disk self.old (disk_of self.new) }
        ensures bytes { IsTrue D.is_modelled
            → OnOk result (D.bytes (disk_of self.new) ≡ written 0 (0 ∷ []) (D.bytes (disk_of self.old))) }
        ensures closed { IsTrue D.is_modelled → OnOk result (StandsClosed (seen D.Disk (disk_of self.new))) }
        ensures durable { IsTrue D.is_modelled
            → OnOk result (OnlyAfter era.now.number (D.bytes (disk_of self.new)) (D.image (disk_of self.new))) }
        // No header, or the one from before with nothing changed behind its gate.
        ensures crash { IsTrue D.is_modelled
            → Leaves era.now.number MayLose (D.image (disk_of self.old)) (D.image (disk_of self.new)) }
        ensures ledger { Uses era.now 1 1 (D.ledger (disk_of self.old)) (D.ledger (disk_of self.new)) }
        ensures cause { HasCause (D.ledger (disk_of self.old)).faults (D.ledger (disk_of self.new)).faults result }
    {
        lose_chunk(&mut self.disk, era)
    }

    /// Writes so many pages empty, each once, and drops what is kept. The lane was lost before.
    pub fn empty(&mut self, era: &Era, pages: u32) -> Result<(), Failed>
        requires era { MayUse era.now (D.ledger (disk_of self.old)) }
        requires made { IsMade self.old }
        requires pages { IsCount pages }

        ensures made { IsMade self.new }
        ensures space { space_of self.new ≡ space_of self.old }
        ensures count { OnOk result (count_of self.new ≡ pages) }
        ensures emptied { IsTrue D.is_modelled → StandsClosed (seen D.Disk (disk_of self.old))
            → OnOk result (IsEmptied pages (seen D.Disk (disk_of self.new))) }
        ensures pages { IsTrue D.is_modelled
            → OnOk result (Stand (space_of self.old) 0 (empty_pages pages) (D.bytes (disk_of self.new))) }
        ensures crash { IsTrue D.is_modelled → StandsClosed (seen D.Disk (disk_of self.old))
            → Leaves era.now.number StaysClosed (D.image (disk_of self.old)) (D.image (disk_of self.new)) }
        ensures ledger { Uses era.now 1 (77825 + 4096 * pages) (D.ledger (disk_of self.old)) (D.ledger (disk_of self.new)) }
        ensures cause { HasCause (D.ledger (disk_of self.old)).faults (D.ledger (disk_of self.new)).faults result }
    {
        empty_chunk(&mut self.disk, era, self.space, pages)?;
        self.pages = pages;
        Ok(())
    }

    /// Syncs the pages, writes the mark anew with this state, and opens the header over it. The lane was emptied before.
    pub fn reopen(
        &mut self,
        era: &Era,
        site: u64,
        pages: u32,
        state: &LaneState,
    ) -> Result<(), Failed>
        requires era { MayUse era.now (D.ledger (disk_of self.old)) }
        requires made { IsMade self.old }
        requires pages { IsCount pages }
        requires fits { FitsState state.now }

        ensures made { IsMade self.new }
        ensures space { space_of self.new ≡ space_of self.old }
        ensures opened { OnOk result (IsOpen self.new) }
        ensures told { OnOk result (TellsOf pages state.now self.new) }
        ensures stands { IsTrue D.is_modelled → IsEmptied pages (seen D.Disk (disk_of self.old))
            → OnOk result (Stands site pages state.now (seen D.Disk (disk_of self.new)) self.new) }
        ensures pages { IsTrue D.is_modelled → IsEmptied pages (seen D.Disk (disk_of self.old))
            → OnOk result (SamePages (D.bytes (disk_of self.old)) (D.bytes (disk_of self.new))) }
        ensures durable { IsTrue D.is_modelled
            → OnOk result (OnlyAfter era.now.number (D.bytes (disk_of self.new)) (D.image (disk_of self.new))) }
        // No header, or the state over these pages.
        ensures crash { IsTrue D.is_modelled → IsEmptied pages (seen D.Disk (disk_of self.old))
            → Leaves era.now.number (MayReopen site (space_of self.old) pages state.now (D.bytes (disk_of self.old)))
            (D.image (disk_of self.old)) (D.image (disk_of self.new)) }
        ensures ledger { Uses era.now 0 9217 (D.ledger (disk_of self.old)) (D.ledger (disk_of self.new)) }
        ensures cause { HasCause (D.ledger (disk_of self.old)).faults (D.ledger (disk_of self.new)).faults result }
    {
        write_state(
            &mut self.disk,
            era,
            &mut self.mark,
            site,
            self.space,
            pages,
            state,
        )?;
        self.pages = pages;
        self.state = *state;
        Ok(())
    }
}
