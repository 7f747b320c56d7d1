//! What the words of the contracts come to together.
ghost use Rattle.std.specs.Prelude.{◌≡◌, ℕ, ◌+◌, ◌<◌, List, length, get_or, nat_lt, if◌then◌else◌};
ghost use Rattle.log_history.specs.Effects.{Page};
ghost use Rattle.space_pages.specs.Pages.{empty_pages};
ghost use Rattle.backup_lines.specs.declared.lanes.Chain.{Chain as ChainView};
ghost use Rattle.backup_lines.specs.declared.lanes.LaneState.TheVariants.{Blank, Replay};
ghost use Rattle.lane_ways.specs.Pictures.{Stand};
ghost use Rattle.level_archive.specs.Image.{Entry, entries_from};
ghost use Rattle.space_lane.specs.Chunks.{HoldsState};
ghost use Rattle.lane_restore.specs.declared.job.ImageJob.{ImageJob as ImageView};
ghost use Rattle.lane_restore.specs.Images.{HasImage, IsTaken};
ghost use Rattle.lane_restore.specs.Merging.{HoldsMerged, page_amid, with_entries};

/// Where a volume has the bytes of an image, all blocks of each step are taken: it is never unsound.
pub fn an_image_is_taken()
    ensures { (pages entries : ℕ) (image : ImageView) (own : List Entry) (bytes : List ℕ) → HasImage pages image own bytes → IsTaken image pages entries bytes }
{}

/// An emptied chunk shows no image, and the other way round.
pub fn an_emptied_chunk_has_no_image()
    ensures shows { (site space count restore : ℕ) (images : List (List Entry)) (bytes : List ℕ) → HoldsState site space count (Blank restore) bytes
        → Stand space 0 (empty_pages count) bytes → HoldsMerged site space count images (Blank restore) bytes }
    ensures stands { (site space count restore : ℕ) (images : List (List Entry)) (bytes : List ℕ) → HoldsMerged site space count images (Blank restore) bytes
        → Stand space 0 (empty_pages count) bytes }
{}

/// Behind the last image all pages stand, each as the images make it.
pub fn merged_pages_stand()
    ensures { (site space count restore upto part : ℕ) (chain : ChainView) (images : List (List Entry)) (default : Page) (pages : List Page) (bytes : List ℕ)
        → length pages ≡ count → ((number : ℕ) → number < count → get_or pages number default ≡ page_amid images chain.len 0 number)
        → HoldsMerged site space count images (Replay restore chain upto part) bytes → Stand space 0 pages bytes }
{}

/// The entries of an archive of these pages give each page with a stamp above the base, and leave any other.
pub fn an_archive_gives_its_pages()
    ensures { (base number : ℕ) (pages : List Page) (page default : Page) → number < length pages → with_entries number (entries_from base 0 pages) page
        ≡ (if nat_lt base (get_or pages number default).stamp then get_or pages number default else page) }
{}
