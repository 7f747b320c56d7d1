//! Transactions that are ended over the catalogue and the volumes.
ghost use Rattle.std.specs.Prelude.{◌≡◌, ◌+◌, ◌*◌, ◌<◌, ◌≤◌, ◌^◌, ℕ, Bool, List, [], length, map, false, IsTrue, IfOk, IfErr, OnOk, OnErr, IsErrOf};
ghost use Rattle.std.specs.List.{AllByRecursion};
ghost use Rattle.block_chain.specs.declared.runs.Run.{Run as Run-of-blocks};
ghost use Rattle.site_disk.specs.Ledger.{MayUse, Spends};
ghost use Rattle.site_disk.specs.Seen.{seen};
ghost use Rattle.catalogue_replay.specs.Answers.{IsRefusal, FailsOn};
ghost use Rattle.catalogue_journal.specs.Catalogues.{additions_of, ids_from, ended_by, wanted_by, cat_of, spare_of, capacity_of, used_of, objects_of, contents_in, IsMade, IsAsItWas, Stands};
ghost use Rattle.catalogue_journal.specs.Commits.{Ends};
ghost use Rattle.catalogue_journal.specs.Refusals.{HasRoom};
ghost use Rattle.catalogue_journal.specs.Transactions.{IsAddition, AreLive};
ghost use Rattle.object_store.specs.Returns.{place_of_object, place_of_addition, objects_with, AllGiveBack, CanCancel, Cancels};
ghost use Rattle.object_store.specs.Stores.{OfEach};
ghost use Rattle.object_store.specs.Reading.{ChangesOne};
ghost use Rattle.object_store.specs.Endings.{places, HoldAll, HoldWith, IsCommitFault, PassesEras};

use crate::Store;
use crate::releasing::{blocks_of_objects, cancel_one, release_additions, release_blocks};
use catalogue_journal::{CatFault, Staged};
use site_disk::{Disk, Era};
use std::alloc::Global;

impl<D: Disk> Store<D> {
    ghost use Rattle.object_store.specs.Stores.{IsOpenStore};

    /// Commits a transaction in a later era, and answers the copy ids of what it adds. In the era behind that the blocks of
    /// what it deletes go back, in order.
    ///
    /// No image of an era up to the one of the call has the transaction, and each of a later one has all of it or nothing,
    /// and all of it from the last era on. Want of memory shows before anything is written.
    pub fn commit(
        &mut self,
        alloc: Global,
        era: &mut Era,
        staged: &Staged,
    ) -> Result<Vec<u64>, CatFault>
        requires era { MayUse era.old (D.ledger (cat_of self.old.cat)) }
        requires number { era.old.number < 2 ^ 63 + 2 ^ 62 }
        requires opened { IsOpenStore self.old }
        requires deletions { AreLive staged.now.delete.items (objects_of self.old.cat) }
        requires additions { AllByRecursion IsAddition (additions_of staged.now) }
        requires holds { HoldAll (places (objects_of self.old.cat) (additions_of staged.now)) self.old.volumes.items }

        ensures ids { IfOk result (λ ids. ids.items ≡ ids_from ((contents_in self.old.cat).last + 1) (additions_of staged.now)) }
        ensures ended { OnOk result (contents_in self.new.cat ≡ ended_by staged.now (contents_in self.old.cat)) }
        ensures opened { OnOk result (IsOpenStore self.new) }
        ensures made { IsMade self.new.cat }
        ensures capacity { capacity_of self.new.cat ≡ capacity_of self.old.cat }
        ensures used { OnOk result (used_of self.new.cat ≡ used_of self.old.cat + wanted_by staged.now) }
        ensures stands { IsTrue D.is_modelled → Stands (seen D.Disk (cat_of self.old.cat)) self.old.cat
            → OnOk result (Stands (seen D.Disk (cat_of self.new.cat)) self.new.cat) }
        ensures durable { IsTrue D.is_modelled → 0 < wanted_by staged.now → OnOk result ((f : ℕ) (c : List ℕ)
            → era.new.number ≤ f → D.image (cat_of self.new.cat) f c → c ≡ D.bytes (cat_of self.new.cat)) }
        ensures returned { OnOk result (AllGiveBack D.is_modelled D.bytes
            (map place_of_object (objects_with staged.now.delete.items (objects_of self.old.cat))) self.old.volumes.items self.new.volumes.items) }
        // What was staged is committed, and all committed objects are still different live ones.
        ensures holds { OnOk result ((others : ℕ → List (List Run-of-blocks))
            → HoldWith (places (objects_of self.old.cat) (additions_of staged.now)) others self.old.volumes.items
            → HoldWith (places (objects_of self.new.cat) []) others self.new.volumes.items) }

        ensures fault { IfErr result (IsCommitFault (capacity_of self.old.cat) (used_of self.old.cat)
            staged.now.delete.items (additions_of staged.now) (contents_in self.old.cat)) }
        // What was written, whole or in part, had the room.
        ensures room { OnOk result (HasRoom (capacity_of self.old.cat) (used_of self.old.cat)
            staged.now.delete.items (additions_of staged.now) (contents_in self.old.cat)) }
        ensures failed_room { (spare : Bool) → IsErrOf result (CatFault.Failed spare) → HasRoom (capacity_of self.old.cat) (used_of self.old.cat)
            staged.now.delete.items (additions_of staged.now) (contents_in self.old.cat) }
        ensures refused { IfErr result (λ fault. IsRefusal fault → self.new ≡ self.old) }
        ensures starved { IsErrOf result CatFault.OutOfMemory → IsAsItWas self.old.cat self.new.cat }
        ensures failed { IfErr result (FailsOn false (D.ledger (cat_of self.old.cat)).faults (D.ledger (cat_of self.new.cat)).faults) }
        ensures volumes { OnErr result (self.new.volumes ≡ self.old.volumes) }
        ensures spare { spare_of self.new.cat ≡ spare_of self.old.cat }

        ensures era { PassesEras era.old era.new }
        ensures ends { IsTrue D.is_modelled → Stands (seen D.Disk (cat_of self.old.cat)) self.old.cat
            → Ends (era.old.number + 1) (capacity_of self.old.cat) (wanted_by staged.now) (contents_in self.old.cat) (ended_by staged.now (contents_in self.old.cat))
            (D.image (cat_of self.old.cat)) (D.image (spare_of self.old.cat)) (D.image (cat_of self.new.cat)) (D.image (spare_of self.new.cat)) }
        ensures ledger { Spends era.old era.new 0 (73729 + 4096 * (used_of self.old.cat + wanted_by staged.now))
            (D.ledger (cat_of self.old.cat)) (D.ledger (cat_of self.new.cat)) }
    {
        let Ok(blocks) = blocks_of_objects(alloc, &self.cat, &staged.delete) else {
            return Err(CatFault::OutOfMemory);
        };
        era.next(); // The bytes that were sent stand before their entry does.
        let copies = self.cat.commit(era, staged)?;
        era.next(); // No image names what is deleted.
        release_blocks(&mut self.volumes, &blocks);
        Ok(copies)
    }

    /// Gives the blocks of what a transaction was to add back, in order. Nothing is written, and the catalogue stays.
    pub fn abort(&mut self, staged: &Staged)
        requires opened { IsOpenStore self.old }
        requires additions { AllByRecursion IsAddition (additions_of staged.now) }
        requires holds { HoldAll (places (objects_of self.old.cat) (additions_of staged.now)) self.old.volumes.items }

        ensures cat { self.new.cat ≡ self.old.cat }
        ensures opened { IsOpenStore self.new }
        ensures returned { AllGiveBack D.is_modelled D.bytes (map place_of_addition (additions_of staged.now)) self.old.volumes.items self.new.volumes.items }
        ensures holds { (others : ℕ → List (List Run-of-blocks))
            → HoldWith (places (objects_of self.old.cat) (additions_of staged.now)) others self.old.volumes.items
            → HoldWith (places (objects_of self.new.cat) []) others self.new.volumes.items }
    {
        release_additions(&mut self.volumes, &staged.add);
    }

    /// Gives the blocks of the object that is being sent on this volume back, behind the free ones. Nothing is written.
    pub fn cancel(&mut self, number: u16)
        requires within { number < length self.old.volumes.items }
        requires sends { OfEach (λ place volume. place ≡ number → CanCancel D.is_modelled D.bytes volume) self.old.volumes.items }
        ensures cat { self.new.cat ≡ self.old.cat }
        ensures one { ChangesOne Cancels number self.old.volumes.items self.new.volumes.items }
    {
        cancel_one(&mut self.volumes, number);
    }
}
