//! Sessions, from their begin on.
ghost use Rattle.std.specs.Prelude.{◌≡◌, ◌≤◌, true, false};
ghost use Rattle.catalogue_journal.specs.Catalogues.{objects_of, IsOpen};
ghost use Rattle.object_queries.specs.Queries.{description_of};
ghost use Rattle.session_machine.specs.Calls.{Inits, Begins, Deletes};
ghost use Rattle.session_machine.specs.Conditions.{is_broken, IsSound, Refers};
ghost use Rattle.session_machine.specs.States.{none, is_waiting, has_draft, is_usable};

use crate::state::{Place, State, Transaction, Work};
use bsa_descriptor::Descriptor;
use catalogue_journal::{Catalogue, Staged};
use object_queries::described;
use session_machine::BsaRc;
use site_disk::Disk;
use std::alloc::Global;
use std::mem;

/// A session of the service, and the transaction that it is in.
///
/// The store and the volume that its calls are handed are those that it was begun over.
#[derive(Drop)]
pub struct Session {
    pub(crate) alloc: Global,
    pub(crate) state: State,
}

impl Session {
    ghost use Rattle.bsa_session.specs.Sessions.{state_of};

    /// No session yet.
    pub fn new(alloc: Global) -> Session
        ensures { state_of result ≡ none }
    {
        Session {
            alloc,
            state: State::None,
        }
    }

    /// Begins a session on a volume, at a moment, which is the create time of the objects that it makes.
    pub fn init(&mut self, volume: u16, moment: u64) -> BsaRc
        requires volume { volume ≤ 16 }
        requires sound { IsSound (state_of self.old) }
        ensures table { Inits volume moment (state_of self.old) (state_of self.new) result }
        ensures refused { result ≡ BsaRc.InvalidCallSequence → self.new ≡ self.old }
        ensures sound { IsSound (state_of self.new) }
    {
        let State::None = self.state else {
            return BsaRc::InvalidCallSequence;
        };
        self.state = State::Idle(Place { volume, moment });
        BsaRc::Success
    }

    /// Begins a transaction.
    pub fn begin_txn(&mut self) -> BsaRc
        requires { IsSound (state_of self.old) }
        ensures table { Begins (state_of self.old) (state_of self.new) result }
        ensures refused { result ≡ BsaRc.InvalidCallSequence → self.new ≡ self.old }
        ensures sound { IsSound (state_of self.new) }
    {
        let State::Idle(place) = self.state else {
            return BsaRc::InvalidCallSequence;
        };
        let staged = Staged {
            add: Vec::new(self.alloc),
            delete: Vec::new(self.alloc),
        };
        self.state = State::Open(Transaction {
            place,
            staged,
            work: Work::Waiting,
        });
        BsaRc::Success
    }

    /// The descriptor of the committed object with this copy id, with its status.
    pub fn described<D: Disk>(&self, cat: &Catalogue<D>, copy: u64) -> Option<Descriptor>
        ensures { result ≡ description_of copy (objects_of cat.now) }
    {
        described(cat.objects(), copy)
    }

    /// Stages the deletion of a committed object, which happens when the transaction is committed. Want of memory changes
    /// nothing.
    pub fn delete_object<D: Disk>(&mut self, cat: &Catalogue<D>, copy: u64) -> BsaRc
        requires sound { IsSound (state_of self.old) }
        requires opened { is_broken (state_of self.old) ≡ false → IsOpen cat.now }
        requires refers { Refers (state_of self.old) (objects_of cat.now) }
        ensures table { Deletes copy (objects_of cat.now) (state_of self.old) (state_of self.new) result }
        ensures refused { result ≡ BsaRc.InvalidCallSequence → self.new ≡ self.old }
        ensures missing { result ≡ BsaRc.ObjectNotFound → self.new ≡ self.old }
        ensures sound { IsSound (state_of self.new) }
        ensures refers { Refers (state_of self.new) (objects_of cat.now) }
    {
        if !self.is_waiting() {
            return BsaRc::InvalidCallSequence;
        }
        if !self.may_use(cat, copy) {
            return BsaRc::ObjectNotFound;
        }
        let mut transaction = self.take_transaction();
        let staged = transaction.staged.delete.push(copy);
        self.state = State::Open(transaction);
        match staged {
            Ok(()) => BsaRc::Success,
            Err(_) => BsaRc::OutOfMemory,
        }
    }

    // Whether a committed object has this copy id, and the transaction hasn't deleted it.
    pub(crate) fn may_use<D: Disk>(&self, cat: &Catalogue<D>, copy: u64) -> bool
        requires waiting { is_waiting (state_of self.now) ≡ true }
        requires opened { IsOpen cat.now }
        ensures { result ≡ is_usable copy (objects_of cat.now) (state_of self.now) }
    {
        let State::Open(transaction) = &self.state else {
            return false;
        };
        match cat.find(copy) {
            Some(_) => !transaction.staged.delete.contains(&copy),
            None => false,
        }
    }

    // Whether a transaction is open in which nothing goes on.
    pub(crate) fn is_waiting(&self) -> bool
        ensures { result ≡ is_waiting (state_of self.now) }
    {
        match &self.state {
            State::Open(transaction) => matches!(transaction.work, Work::Waiting),
            _ => false,
        }
    }

    // Takes the transaction out, to be put back changed. Until then the session is broken.
    pub(crate) fn take_transaction(&mut self) -> Transaction
        requires { has_draft (state_of self.old) ≡ true }
        ensures taken { self.old.state ≡ State.Open result }
        ensures broken { self.new ≡ record self.old { state = State.Broken } }
    {
        let State::Open(transaction) = mem::replace(&mut self.state, State::Broken) else {
            unreachable!()
        };
        transaction
    }
}
