//! The laws, each as the contract of a function.
ghost use Rattle.std.specs.Prelude.{List, Some, length, ℕ, ◌<◌, ◌^◌, ◌≡◌, ◌≤◌};
ghost use Rattle.block_chain.specs.Blocks.{blocks_of_runs};
ghost use Rattle.block_chain.specs.declared.runs.Run.{Run};
ghost use Rattle.site_headers.specs.Heads.{IsHead};
ghost use Rattle.site_worlds.specs.Objects.{IsKept, blocks_on};
ghost use Rattle.site_worlds.specs.Worlds.{Site};
ghost use Rattle.site_courses.specs.NewObjects.{Label, new_kept, new_runs};
ghost use Rattle.placing_laws.specs.ObjectLaws.{IsLabel};
ghost use Rattle.placing_laws.specs.PlacingLaws.{CanStand};

/// The runs that a new object is given are of blocks within the volume, each once, that no live object has.
pub fn a_new_object_stands_in_free_blocks()
    ensures { (site : Site) (volume size : ℕ) (runs : List Run) → new_runs site volume size ≡ Some runs
        → CanStand site.head.blocks (blocks_on volume site.store.kept) (blocks_of_runs runs) }
{}

/// In such runs an object of a backup may be added: it has a descriptor, a digest, and as many blocks as its bytes take.
pub fn a_new_object_may_be_added()
    ensures { (site : Site) (moment copy volume : ℕ) (label : Label) (bytes : List ℕ) (runs : List Run) → IsHead site.head → moment < 2 ^ 64 → copy ≤ 2 ^ 48
        → volume ≤ 16 → IsLabel label → new_runs site volume (length bytes) ≡ Some runs → IsKept (new_kept site moment copy volume label bytes runs) }
{}
