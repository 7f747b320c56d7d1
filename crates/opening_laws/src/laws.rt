//! The laws, each as the contract of a function.
ghost use Rattle.std.specs.Prelude.{◌≡◌, ℕ, List, Some, slice_get};
ghost use Rattle.block_chain.specs.Blocks.{AreSound};
ghost use Rattle.site_headers.specs.Heads.{Head};
ghost use Rattle.site_worlds.specs.Fitness.{FitStore};
ghost use Rattle.site_worlds.specs.Objects.{blocks_on};
ghost use Rattle.site_worlds.specs.Worlds.{Store};
ghost use Rattle.site_layouts.specs.Stores.{Held, HoldsCatalogue, HoldsSpare, HoldsVolume, contents_of};
ghost use Rattle.store_opening.specs.Opening.{ShowsStore};

/// Disks that show the store of a site whose objects' blocks lie apart, as those of a fit site do, are opened as that store.
pub fn a_shown_store_is_opened()
    ensures shows { (head : Head) (store : Store) (held : Held) (cat spare : List ℕ) (files : List (List ℕ))
        → ((volume : ℕ) → AreSound head.blocks (blocks_on volume store.kept))
        → HoldsCatalogue head store held cat → HoldsSpare head spare
        → ((volume : ℕ) (file : List ℕ) → slice_get files volume ≡ Some file → HoldsVolume head store volume file)
        → ShowsStore head (contents_of store) store.used cat spare files }
    ensures fit { (head : Head) (store : Store) → FitStore head.blocks store → (volume : ℕ) → AreSound head.blocks (blocks_on volume store.kept) }
{}
