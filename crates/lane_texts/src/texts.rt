//! The texts of a space and of a page, from the chunk.
ghost use Rattle.std.specs.Prelude.{◌≡◌, ◌*◌, ◌<◌, ℕ, List, string_bytes, slice_get, Some, IsTrue, IfOk, OnOk, IfErr};
ghost use Rattle.site_disk.specs.Bytes.{Same};
ghost use Rattle.site_disk.specs.Images.{Leaves};
ghost use Rattle.site_disk.specs.Ledger.{MayUse, Uses};
ghost use Rattle.site_disk.specs.Seen.{seen};
ghost use Rattle.log_history.specs.Effects.{Page as PageView};
ghost use Rattle.backup_lines.specs.declared.lanes.LaneState.{LaneState as StateView};
ghost use Rattle.page_texts.specs.Texts.{page_text, pages_text};
ghost use Rattle.space_lane.specs.Chunks.{IsPage, page_at};
ghost use Rattle.space_lane.specs.Lanes.{disk_of, space_of, count_of, with_disk, Stands};
ghost use Rattle.lane_texts.specs.Listings.{ArePages, FailsOn, HoldsPages, IsNoFailure, IsNoRefusal, OnlyReads, RefusesFirst, RefusesPage};

use crate::decoding::decode_page;
use crate::faults::ListFault;
use crate::listing::Listing;
use crate::reading::read_page;
use site_disk::{Disk, Era};
use space_lane::Lane;
use std::alloc::Global;

/// The text of a space, which has so many pages: each is read once, in order.
pub fn space_text<D: Disk>(
    alloc: Global,
    lane: &mut Lane<D>,
    era: &Era,
    name: &str,
    count: u32,
) -> Result<String, ListFault>
    requires era { MayUse era.now (D.ledger (disk_of lane.old)) }
    requires count { count ≡ count_of lane.old }

    ensures text { IsTrue D.is_modelled → (pages : List PageView)
        → HoldsPages (space_of lane.old) count pages (D.bytes (disk_of lane.old))
        → IfOk result (λ text. string_bytes text ≡ pages_text (space_of lane.old) name.now pages) }
    ensures no_refusal { IsTrue D.is_modelled → (pages : List PageView)
        → HoldsPages (space_of lane.old) count pages (D.bytes (disk_of lane.old)) → IfErr result IsNoRefusal }
    ensures whole { IsTrue D.is_modelled → OnOk result (ArePages (space_of lane.old) count (D.bytes (disk_of lane.old))) }
    ensures bad { IsTrue D.is_modelled → IfErr result (RefusesFirst (space_of lane.old) count (D.bytes (disk_of lane.old))) }
    ensures failed { IfErr result (FailsOn (D.ledger (disk_of lane.old)).faults (D.ledger (disk_of lane.new)).faults) }

    // Nothing is written.
    ensures value { lane.new ≡ with_disk lane.old (disk_of lane.new) }
    ensures reads { OnOk result (OnlyReads D.Disk (disk_of lane.old) (disk_of lane.new)) }
    ensures refused { IfErr result (λ fault. IsNoFailure fault → OnlyReads D.Disk (disk_of lane.old) (disk_of lane.new)) }
    ensures stands { IsTrue D.is_modelled → (site pages : ℕ) (state : StateView)
        → Stands site pages state (seen D.Disk (disk_of lane.old)) lane.old
        → OnOk result (Stands site pages state (seen D.Disk (disk_of lane.new)) lane.new) }
    ensures crash { Leaves era.now.number Same (D.image (disk_of lane.old)) (D.image (disk_of lane.new)) }
    ensures ledger { Uses era.now (4096 * count) 0 (D.ledger (disk_of lane.old)) (D.ledger (disk_of lane.new)) }
{
    let mut listing = Listing::new(alloc);
    for number in 0..count {
        let mut bytes = [0; 4096];
        read_page(lane, era, number, &mut bytes)?;
        listing.add(alloc, name, number, &bytes)?;
    }
    Ok(listing.finish(alloc, name, count)?)
}

/// The text of one page of a space, by its number.
pub fn page_text<D: Disk>(
    alloc: Global,
    lane: &mut Lane<D>,
    era: &Era,
    name: &str,
    number: u32,
) -> Result<String, ListFault>
    requires era { MayUse era.now (D.ledger (disk_of lane.old)) }
    requires number { number < count_of lane.old }

    ensures text { IsTrue D.is_modelled → (pages : List PageView) (page : PageView)
        → HoldsPages (space_of lane.old) (count_of lane.old) pages (D.bytes (disk_of lane.old)) → slice_get pages number ≡ Some page
        → IfOk result (λ text. string_bytes text ≡ page_text name.now number page) }
    ensures no_refusal { IsTrue D.is_modelled → (pages : List PageView)
        → HoldsPages (space_of lane.old) (count_of lane.old) pages (D.bytes (disk_of lane.old)) → IfErr result IsNoRefusal }
    ensures page { IsTrue D.is_modelled → OnOk result (IsPage (space_of lane.old) number (page_at number (D.bytes (disk_of lane.old)))) }
    ensures bad { IsTrue D.is_modelled → IfErr result (RefusesPage (space_of lane.old) number (D.bytes (disk_of lane.old))) }
    ensures failed { IfErr result (FailsOn (D.ledger (disk_of lane.old)).faults (D.ledger (disk_of lane.new)).faults) }

    // Nothing is written.
    ensures value { lane.new ≡ with_disk lane.old (disk_of lane.new) }
    ensures reads { OnOk result (OnlyReads D.Disk (disk_of lane.old) (disk_of lane.new)) }
    ensures refused { IfErr result (λ fault. IsNoFailure fault → OnlyReads D.Disk (disk_of lane.old) (disk_of lane.new)) }
    ensures stands { IsTrue D.is_modelled → (site pages : ℕ) (state : StateView)
        → Stands site pages state (seen D.Disk (disk_of lane.old)) lane.old
        → OnOk result (Stands site pages state (seen D.Disk (disk_of lane.new)) lane.new) }
    ensures crash { Leaves era.now.number Same (D.image (disk_of lane.old)) (D.image (disk_of lane.new)) }
    ensures ledger { Uses era.now 4096 0 (D.ledger (disk_of lane.old)) (D.ledger (disk_of lane.new)) }
{
    let mut bytes = [0; 4096];
    read_page(lane, era, number, &mut bytes)?;
    Ok(page_texts::page_text(alloc, name, number, &decode_page(&bytes))?)
}
