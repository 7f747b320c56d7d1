//! Transactions and sessions that are ended.
ghost use Rattle.std.specs.Prelude.{◌≡◌, ◌≢◌, ◌+◌, ◌*◌, ◌<◌, ◌≤◌, ◌^◌, ℕ, List, [], length, false, true, IsTrue, IfErr, OnOk, OnErr, IsErrOf};
ghost use Rattle.block_chain.specs.declared.runs.Run.{Run as Run-of-blocks};
ghost use Rattle.site_disk.specs.Causes.{Rose};
ghost use Rattle.site_disk.specs.Ledger.{MayUse, Spends};
ghost use Rattle.site_disk.specs.Seen.{seen};
ghost use Rattle.catalogue_journal.specs.Catalogues.{additions_of, ids_from, cat_of, spare_of, capacity_of, used_of, objects_of, contents_in, IsMade, IsAsItWas, Stands};
ghost use Rattle.catalogue_journal.specs.Commits.{Ends};
ghost use Rattle.catalogue_journal.specs.Refusals.{HasRoom};
ghost use Rattle.catalogue_journal.specs.Transactions.{ended, slots_wanted};
ghost use Rattle.object_store.specs.Returns.{AllGiveBack};
ghost use Rattle.object_store.specs.Stores.{OfEach, IsOpenStore};
ghost use Rattle.object_store.specs.Endings.{places, HoldAll, HoldWith, PassesEras};
ghost use Rattle.session_machine.specs.Calls.{EndsTxn, Terminates};
ghost use Rattle.session_machine.specs.Conditions.{is_broken, IsSound, IsSoundDraft, Refers};
ghost use Rattle.session_machine.specs.States.{is_waiting, has_draft};
ghost use Rattle.bsa_session.specs.Sessions.{Suits};
ghost use Rattle.bsa_session.specs.Views.{draft_of, with_work};
ghost use Rattle.bsa_session.specs.Voting.{added_in, deleted_in, returned_by, ChangesNothing, IsOn, Drops};

use crate::Session;
use crate::state::{State, Transaction, Work};
use catalogue_journal::CatFault;
use object_store::Store;
use session_machine::{Access, BsaRc, Lack};
use site_disk::{Disk, Era};
use std::mem;

// The votes on a transaction.
const COMMIT: u8 = 1;

const ABORT: u8 = 2;

impl Session {
    ghost use Rattle.bsa_session.specs.Sessions.{state_of};

    /// Ends a transaction by a vote: 1 commits it, and answers the copy ids of what it adds, 2 aborts it.
    ///
    /// A commit begins an era before the catalogue is written, and one behind it; then the blocks of what was deleted go
    /// back. At an abort those of what was added go back, and nothing was deleted. A fault and want of memory in a commit
    /// break the session.
    pub fn end_txn<D: Disk>(
        &mut self,
        store: &mut Store<D>,
        era: &mut Era,
        vote: u8,
    ) -> Result<Vec<u64>, BsaRc>
        requires era { MayUse era.old (D.ledger (cat_of store.old.cat)) }
        requires number { era.old.number < 2 ^ 63 + 2 ^ 62 }
        requires sound { IsSound (state_of self.old) }
        requires store { is_broken (state_of self.old) ≡ false → IsOpenStore store.old }
        requires refers { Refers (state_of self.old) (objects_of store.old.cat) }
        requires holds { is_waiting (state_of self.old) ≡ true
            → HoldAll (places (objects_of store.old.cat) (added_in (state_of self.old))) store.old.volumes.items }

        ensures table { EndsTxn vote (capacity_of store.old.cat) (used_of store.old.cat) (contents_in store.old.cat)
            (λ draft. ids_from ((contents_in store.old.cat).last + 1) draft.added) (state_of self.old) (state_of self.new) result }
        ensures refused { IfErr result (λ answer. ChangesNothing answer → self.new ≡ self.old) }
        ensures refused_store { IfErr result (λ answer. ChangesNothing answer → store.new ≡ store.old) }
        ensures sound { IsSound (state_of self.new) }
        ensures refers { Refers (state_of self.new) (objects_of store.new.cat) }
        ensures opened { is_broken (state_of self.new) ≡ false → IsOpenStore store.new }

        ensures committed { vote ≡ 1 → OnOk result (contents_in store.new.cat
            ≡ ended (deleted_in (state_of self.old)) (added_in (state_of self.old)) (contents_in store.old.cat)) }
        ensures used { vote ≡ 1 → OnOk result (used_of store.new.cat
            ≡ used_of store.old.cat + slots_wanted (deleted_in (state_of self.old)) (added_in (state_of self.old))) }
        ensures made { IsMade store.old.cat → IsMade store.new.cat }
        ensures capacity { capacity_of store.new.cat ≡ capacity_of store.old.cat }
        ensures aborted { vote ≢ 1 → store.new.cat ≡ store.old.cat }
        ensures stands { IsTrue D.is_modelled → Stands (seen D.Disk (cat_of store.old.cat)) store.old.cat
            → OnOk result (Stands (seen D.Disk (cat_of store.new.cat)) store.new.cat) }
        ensures returned { OnOk result (AllGiveBack D.is_modelled D.bytes
            (returned_by vote (objects_of store.old.cat) (state_of self.old)) store.old.volumes.items store.new.volumes.items) }
        ensures volumes { OnErr result (store.new.volumes ≡ store.old.volumes) }
        ensures holds { OnOk result ((others : ℕ → List (List Run-of-blocks))
            → HoldWith (places (objects_of store.old.cat) (added_in (state_of self.old))) others store.old.volumes.items
            → HoldWith (places (objects_of store.new.cat) []) others store.new.volumes.items) }

        // What was written, whole or in part, had the room; want of memory leaves the catalogue as it was.
        ensures room { vote ≡ 1 → OnOk result (HasRoom (capacity_of store.old.cat) (used_of store.old.cat)
            (deleted_in (state_of self.old)) (added_in (state_of self.old)) (contents_in store.old.cat)) }
        ensures failed_room { IsErrOf result (BsaRc.AccessFailure Access.Cat) → HasRoom (capacity_of store.old.cat) (used_of store.old.cat)
            (deleted_in (state_of self.old)) (added_in (state_of self.old)) (contents_in store.old.cat) }
        ensures no_spare { IsErrOf result (BsaRc.AccessFailure Access.Spare) → ⊥ }
        ensures starved { IsErrOf result BsaRc.OutOfMemory → IsAsItWas store.old.cat store.new.cat }

        ensures failed { IsErrOf result (BsaRc.AccessFailure Access.Cat)
            → Rose (D.ledger (cat_of store.old.cat)).faults (D.ledger (cat_of store.new.cat)).faults }
        ensures spare_failed { IsErrOf result (BsaRc.AccessFailure Access.Spare)
            → Rose (D.ledger (spare_of store.old.cat)).faults (D.ledger (spare_of store.new.cat)).faults }
        ensures spare { spare_of store.new.cat ≡ spare_of store.old.cat }

        // No image of an era up to the call's gains the transaction, and each of a later one has all of it or nothing.
        ensures ends { vote ≡ 1 → IsTrue D.is_modelled → Stands (seen D.Disk (cat_of store.old.cat)) store.old.cat
            → Ends (era.old.number + 1) (capacity_of store.old.cat)
            (slots_wanted (deleted_in (state_of self.old)) (added_in (state_of self.old))) (contents_in store.old.cat)
            (ended (deleted_in (state_of self.old)) (added_in (state_of self.old)) (contents_in store.old.cat))
            (D.image (cat_of store.old.cat)) (D.image (spare_of store.old.cat)) (D.image (cat_of store.new.cat)) (D.image (spare_of store.new.cat)) }
        ensures durable { vote ≡ 1 → IsTrue D.is_modelled → 0 < slots_wanted (deleted_in (state_of self.old)) (added_in (state_of self.old))
            → OnOk result ((f : ℕ) (c : List ℕ) → era.new.number ≤ f → D.image (cat_of store.new.cat) f c → c ≡ D.bytes (cat_of store.new.cat)) }
        ensures era { PassesEras era.old era.new }
        ensures ledger { Spends era.old era.new 0
            (73729 + 4096 * (used_of store.old.cat + slots_wanted (deleted_in (state_of self.old)) (added_in (state_of self.old))))
            (D.ledger (cat_of store.old.cat)) (D.ledger (cat_of store.new.cat)) }
    {
        if !self.is_waiting() {
            return Err(BsaRc::InvalidCallSequence);
        }
        if vote == COMMIT {
            return self.commit(store, era);
        }
        if vote != ABORT {
            return Err(BsaRc::InvalidVote);
        }
        let transaction = self.take_transaction();
        store.abort(&transaction.staged);
        self.state = State::Idle(transaction.place);
        Ok(Vec::new(self.alloc))
    }

    // Commits the transaction.
    fn commit<D: Disk>(&mut self, store: &mut Store<D>, era: &mut Era) -> Result<Vec<u64>, BsaRc>
        requires waiting { is_waiting (state_of self.old) ≡ true }
        requires era { MayUse era.old (D.ledger (cat_of store.old.cat)) }
        requires number { era.old.number < 2 ^ 63 + 2 ^ 62 }
        requires sound { IsSound (state_of self.old) }
        requires store { IsOpenStore store.old }
        requires refers { Refers (state_of self.old) (objects_of store.old.cat) }
        requires holds { HoldAll (places (objects_of store.old.cat) (added_in (state_of self.old))) store.old.volumes.items }

        ensures table { EndsTxn 1 (capacity_of store.old.cat) (used_of store.old.cat) (contents_in store.old.cat)
            (λ draft. ids_from ((contents_in store.old.cat).last + 1) draft.added) (state_of self.old) (state_of self.new) result }
        ensures refused { IfErr result (λ answer. ChangesNothing answer → self.new ≡ self.old) }
        ensures refused_store { IfErr result (λ answer. ChangesNothing answer → store.new ≡ store.old) }
        ensures sound { IsSound (state_of self.new) }
        ensures refers { Refers (state_of self.new) (objects_of store.new.cat) }
        ensures opened { is_broken (state_of self.new) ≡ false → IsOpenStore store.new }

        ensures committed { OnOk result (contents_in store.new.cat
            ≡ ended (deleted_in (state_of self.old)) (added_in (state_of self.old)) (contents_in store.old.cat)) }
        ensures used { OnOk result (used_of store.new.cat
            ≡ used_of store.old.cat + slots_wanted (deleted_in (state_of self.old)) (added_in (state_of self.old))) }
        ensures made { IsMade store.new.cat }
        ensures capacity { capacity_of store.new.cat ≡ capacity_of store.old.cat }
        ensures stands { IsTrue D.is_modelled → Stands (seen D.Disk (cat_of store.old.cat)) store.old.cat
            → OnOk result (Stands (seen D.Disk (cat_of store.new.cat)) store.new.cat) }
        ensures returned { OnOk result (AllGiveBack D.is_modelled D.bytes
            (returned_by 1 (objects_of store.old.cat) (state_of self.old)) store.old.volumes.items store.new.volumes.items) }
        ensures volumes { OnErr result (store.new.volumes ≡ store.old.volumes) }
        ensures holds { OnOk result ((others : ℕ → List (List Run-of-blocks))
            → HoldWith (places (objects_of store.old.cat) (added_in (state_of self.old))) others store.old.volumes.items
            → HoldWith (places (objects_of store.new.cat) []) others store.new.volumes.items) }

        // What was written, whole or in part, had the room; want of memory leaves the catalogue as it was.
        ensures room { OnOk result (HasRoom (capacity_of store.old.cat) (used_of store.old.cat)
            (deleted_in (state_of self.old)) (added_in (state_of self.old)) (contents_in store.old.cat)) }
        ensures failed_room { IsErrOf result (BsaRc.AccessFailure Access.Cat) → HasRoom (capacity_of store.old.cat) (used_of store.old.cat)
            (deleted_in (state_of self.old)) (added_in (state_of self.old)) (contents_in store.old.cat) }
        ensures no_spare { IsErrOf result (BsaRc.AccessFailure Access.Spare) → ⊥ }
        ensures starved { IsErrOf result BsaRc.OutOfMemory → IsAsItWas store.old.cat store.new.cat }

        ensures failed { IsErrOf result (BsaRc.AccessFailure Access.Cat)
            → Rose (D.ledger (cat_of store.old.cat)).faults (D.ledger (cat_of store.new.cat)).faults }
        ensures spare_failed { IsErrOf result (BsaRc.AccessFailure Access.Spare)
            → Rose (D.ledger (spare_of store.old.cat)).faults (D.ledger (spare_of store.new.cat)).faults }
        ensures spare { spare_of store.new.cat ≡ spare_of store.old.cat }

        ensures ends { IsTrue D.is_modelled → Stands (seen D.Disk (cat_of store.old.cat)) store.old.cat
            → Ends (era.old.number + 1) (capacity_of store.old.cat)
            (slots_wanted (deleted_in (state_of self.old)) (added_in (state_of self.old))) (contents_in store.old.cat)
            (ended (deleted_in (state_of self.old)) (added_in (state_of self.old)) (contents_in store.old.cat))
            (D.image (cat_of store.old.cat)) (D.image (spare_of store.old.cat)) (D.image (cat_of store.new.cat)) (D.image (spare_of store.new.cat)) }
        ensures durable { IsTrue D.is_modelled → 0 < slots_wanted (deleted_in (state_of self.old)) (added_in (state_of self.old))
            → OnOk result ((f : ℕ) (c : List ℕ) → era.new.number ≤ f → D.image (cat_of store.new.cat) f c → c ≡ D.bytes (cat_of store.new.cat)) }
        ensures era { PassesEras era.old era.new }
        ensures ledger { Spends era.old era.new 0
            (73729 + 4096 * (used_of store.old.cat + slots_wanted (deleted_in (state_of self.old)) (added_in (state_of self.old))))
            (D.ledger (cat_of store.old.cat)) (D.ledger (cat_of store.new.cat)) }
    {
        let transaction = self.take_transaction();
        match store.commit(self.alloc, era, &transaction.staged) {
            Ok(copies) => {
                self.state = State::Idle(transaction.place);
                Ok(copies)
            }
            Err(CatFault::TooManyObjects { .. }) => {
                self.state = State::Open(transaction);
                Err(BsaRc::NoResources(Lack::Objects))
            }
            Err(CatFault::CatalogueFull { .. }) => {
                self.state = State::Open(transaction);
                Err(BsaRc::NoResources(Lack::Slots))
            }
            Err(CatFault::Failed { spare: false }) => Err(BsaRc::AccessFailure(Access::Cat)),
            Err(CatFault::OutOfMemory) => Err(BsaRc::OutOfMemory),
            Err(
                CatFault::NotFormatted
                | CatFault::BadRecord { .. }
                | CatFault::Failed { spare: true },
            ) => unreachable!(),
        }
    }

    /// Ends the session, from a transaction too, which is aborted: the blocks of what was added and of an object that is
    /// being sent go back. A broken session gives nothing back, since its store has to be opened again.
    pub fn terminate<D: Disk>(&mut self, store: &mut Store<D>) -> BsaRc
        requires sound { IsSound (state_of self.old) }
        requires store { is_broken (state_of self.old) ≡ false → IsOpenStore store.old }
        requires volume { OfEach (λ place volume. IsOn place (state_of self.old) → Suits D.is_modelled D.bytes (state_of self.old) volume) store.old.volumes.items }
        requires holds { has_draft (state_of self.old) ≡ true
            → HoldAll (places (objects_of store.old.cat) (added_in (state_of self.old))) store.old.volumes.items }
        ensures table { Terminates (state_of self.old) (state_of self.new) result }
        ensures refused { result ≡ BsaRc.InvalidCallSequence → self.new ≡ self.old }
        ensures cat { store.new.cat ≡ store.old.cat }
        ensures untouched { has_draft (state_of self.old) ≡ false → store.new ≡ store.old }
        ensures opened { is_broken (state_of self.old) ≡ false → IsOpenStore store.new }
        ensures holds { has_draft (state_of self.old) ≡ true → (others : ℕ → List (List Run-of-blocks))
            → HoldWith (places (objects_of store.old.cat) (added_in (state_of self.old))) others store.old.volumes.items
            → HoldWith (places (objects_of store.new.cat) []) others store.new.volumes.items }
        ensures returned { Drops D.is_modelled D.bytes (state_of self.old) store.old.volumes.items store.new.volumes.items }
    {
        match mem::replace(&mut self.state, State::None) {
            State::None => BsaRc::InvalidCallSequence,
            State::Idle(_) | State::Broken => BsaRc::Success,
            State::Open(transaction) => {
                drop_transaction(store, &transaction);
                BsaRc::Success
            }
        }
    }
}

// Gives back what a transaction has taken of the volumes.
fn drop_transaction<D: Disk>(store: &mut Store<D>, transaction: &Transaction)
    requires store { IsOpenStore store.old }
    requires sound { IsSoundDraft (draft_of transaction.now) }
    requires volume { OfEach (λ place volume. place ≡ transaction.now.place.volume
        → Suits D.is_modelled D.bytes (with_work (draft_of transaction.now) transaction.now.work) volume) store.old.volumes.items }
    requires holds { HoldAll (places (objects_of store.old.cat) (additions_of transaction.now.staged)) store.old.volumes.items }
    ensures cat { store.new.cat ≡ store.old.cat }
    ensures opened { IsOpenStore store.new }
    ensures holds { (others : ℕ → List (List Run-of-blocks))
        → HoldWith (places (objects_of store.old.cat) (additions_of transaction.now.staged)) others store.old.volumes.items
        → HoldWith (places (objects_of store.new.cat) []) others store.new.volumes.items }
    ensures returned { Drops D.is_modelled D.bytes (with_work (draft_of transaction.now) transaction.now.work) store.old.volumes.items store.new.volumes.items }
{
    store.abort(&transaction.staged);
    if let Work::Sending(_) = &transaction.work {
        store.cancel(transaction.place.volume);
    }
}
