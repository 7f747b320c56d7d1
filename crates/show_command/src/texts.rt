//! The text of a space that is shown, or of one of its pages, from the chunk.
ghost use Rattle.std.specs.Prelude.{◌≡◌, ◌*◌, ◌<◌, ℕ, List, string_bytes, IsTrue, Some, IfOk, IfErr};
ghost use Rattle.site_disk.specs.Bytes.{Same};
ghost use Rattle.site_disk.specs.Images.{Leaves};
ghost use Rattle.site_disk.specs.Ledger.{MayUse, Uses};
ghost use Rattle.log_history.specs.Effects.{Page};
ghost use Rattle.space_lane.specs.Lanes.{disk_of, space_of, count_of, with_disk};
ghost use Rattle.lane_texts.specs.Listings.{FailsOn, HoldsPages, IsNoRefusal};
ghost use Rattle.show_command.specs.Showing.{listed};

use lane_texts::{ListFault, page_text, space_text};
use site_disk::{Disk, Era};
use space_lane::Lane;
use std::alloc::Global;

/// The text of the space of a lane, which has so many pages, or of one page of it.
pub fn lane_text<D: Disk>(
    alloc: Global,
    lane: &mut Lane<D>,
    era: &Era,
    name: &str,
    pages: u32,
    page: Option<u32>,
) -> Result<String, ListFault>
    requires era { MayUse era.now (D.ledger (disk_of lane.old)) }
    requires count { pages ≡ count_of lane.old }
    requires within { (n : ℕ) → page ≡ Some n → n < pages }

    ensures text { IsTrue D.is_modelled → (list : List Page) → HoldsPages (space_of lane.old) pages list (D.bytes (disk_of lane.old))
        → IfOk result (λ text. listed (space_of lane.old) name.now page list (string_bytes text)) }
    ensures no_refusal { IsTrue D.is_modelled → (list : List Page) → HoldsPages (space_of lane.old) pages list (D.bytes (disk_of lane.old)) → IfErr result IsNoRefusal }
    ensures failed { IfErr result (FailsOn (D.ledger (disk_of lane.old)).faults (D.ledger (disk_of lane.new)).faults) }

    // Nothing is written.
    ensures value { lane.new ≡ with_disk lane.old (disk_of lane.new) }
    ensures crash { Leaves era.now.number Same (D.image (disk_of lane.old)) (D.image (disk_of lane.new)) }
    ensures ledger { Uses era.now (4096 * pages) 0 (D.ledger (disk_of lane.old)) (D.ledger (disk_of lane.new)) }
{
    match page {
        None => space_text(alloc, lane, era, name, pages),
        Some(number) => page_text(alloc, lane, era, name, number),
    }
}
