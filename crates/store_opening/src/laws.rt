//! Laws of open stores, each as the contract of a function that does nothing.
ghost use Rattle.std.specs.Prelude.{◌≤◌, ℕ, List, []};
ghost use Rattle.block_chain.specs.declared.runs.Run.{Run as Run-of-blocks};
ghost use Rattle.site_headers.specs.Heads.{Head};
ghost use Rattle.catalogue_replay.specs.Contents.{Contents};
ghost use Rattle.catalogue_journal.specs.Catalogues.{objects_of};
ghost use Rattle.object_store.specs.Endings.{places, HoldAll, HoldWith};
ghost use Rattle.object_store.specs.declared.store.Store.{Store};
ghost use Rattle.store_opening.specs.Standing.{Agrees};

use site_disk::Disk;

/// A store that agrees with its disks from an era on does so from every later one on.
pub fn a_store_agrees_later<D: Disk>()
    ensures { (from to : ℕ) (store : Store D) (contents : Contents) (taken : ℕ) (head : Head) → from ≤ to
        → Agrees D.Disk from store contents taken head → Agrees D.Disk to store contents taken head }
{}

/// Its volumes hold the committed objects and no others, as sessions need it.
pub fn an_open_store_holds_its_objects<D: Disk>()
    ensures alone { (from : ℕ) (store : Store D) (contents : Contents) (taken : ℕ) (head : Head)
        → Agrees D.Disk from store contents taken head → HoldWith (places (objects_of store.cat) []) (λ place. []) store.volumes.items }
    ensures all { (from : ℕ) (store : Store D) (contents : Contents) (taken : ℕ) (head : Head)
        → Agrees D.Disk from store contents taken head → HoldAll (places (objects_of store.cat) []) store.volumes.items }
{}
