//! Objects that are fetched.
ghost use Rattle.std.specs.Prelude.{◌≡◌, ◌<◌, ◌≤◌, ℕ, length, drop, false, true, Some, Err, IfOk, IfErr};
ghost use Rattle.catalogue_slots.specs.Records.{Object as Object-of};
ghost use Rattle.catalogue_journal.specs.Catalogues.{objects_of};
ghost use Rattle.object_store.specs.Reading.{reads_on, part_on, ChangesOne, IsRead};
ghost use Rattle.object_store.specs.Stores.{MayUseEach, IsOpenStore};
ghost use Rattle.session_machine.specs.Answers.{IsNoFailure};
ghost use Rattle.session_machine.specs.Calls.{GetsObject, GetsData, object_with};
ghost use Rattle.session_machine.specs.Conditions.{is_broken, IsSound, Refers};
ghost use Rattle.session_machine.specs.States.{Draft as Draft-of, getting, is_usable};

use crate::Session;
use crate::state::{Reading, State, Work};
use object_store::{Store, check_object, find_object, read_object};
use object_volume::{Cursor, Soundness};
use session_machine::{Access, BsaRc};
use site_disk::{Disk, Era};

impl Session {
    ghost use Rattle.bsa_session.specs.Reading.{is_failure, CanReadOn, IsReading};
    ghost use Rattle.bsa_session.specs.Sessions.{state_of};

    /// Begins to fetch a committed object, on whichever volume it stands, once its digest is found to be the one that is
    /// kept, and answers its size. The object is read whole for it, and nothing is written.
    pub fn get_object<D: Disk>(
        &mut self,
        store: &mut Store<D>,
        era: &Era,
        copy: u64,
    ) -> Result<u64, BsaRc>
        requires era { MayUseEach D.ledger era.now store.old.volumes.items }
        requires sound { IsSound (state_of self.old) }
        requires store { is_broken (state_of self.old) ≡ false → IsOpenStore store.old }
        requires refers { Refers (state_of self.old) (objects_of store.old.cat) }
        ensures table { GetsObject D.is_modelled (reads_on D.bytes store.old.volumes.items) copy (objects_of store.old.cat)
            (state_of self.old) (state_of self.new) result }
        ensures refused { IfErr result (λ answer. IsNoFailure answer → self.new ≡ self.old) }
        ensures sound { IsSound (state_of self.new) }
        ensures refers { Refers (state_of self.new) (objects_of store.new.cat) }
        ensures reads_on { is_usable copy (objects_of store.old.cat) (state_of self.old) ≡ true → CanReadOn self.new (objects_of store.new.cat) }

        ensures cat { store.new.cat ≡ store.old.cat }
        ensures untouched { is_usable copy (objects_of store.old.cat) (state_of self.old) ≡ false → store.new ≡ store.old }
        // The object's volume alone is read, and its disk's count rose where its failure is answered.
        ensures reads { is_usable copy (objects_of store.old.cat) (state_of self.old) ≡ true
            → (object : Object-of) → object_with copy (objects_of store.old.cat) ≡ Some object
            → ChangesOne (IsRead D.Disk era.now object.size (is_failure result)) object.volume store.old.volumes.items store.new.volumes.items }
    {
        if !self.is_waiting() {
            return Err(BsaRc::InvalidCallSequence);
        }
        if !self.may_use(&store.cat, copy) {
            return Err(BsaRc::ObjectNotFound);
        }
        let Some(entry) = find_object(&store.cat, copy) else {
            unreachable!()
        };
        let size = entry.size;
        let kept = entry.digest;
        let place = entry.volume;
        match check_object(&mut store.volumes, era, entry) {
            Ok(Soundness::Sound) => {
                let mut transaction = self.take_transaction();
                let cursor = Cursor::at(0);
                transaction.work = Work::Getting(Reading {
                    copy,
                    at: 0,
                    cursor,
                });
                self.state = State::Open(transaction);
                Ok(size)
            }
            Ok(Soundness::Damaged { found }) => Err(BsaRc::Damaged { kept, found }),
            Ok(Soundness::Short) => Err(BsaRc::AccessFailure(Access::Ends)),
            Err(_) => {
                self.state = State::Broken;
                Err(BsaRc::AccessFailure(Access::Volume(place)))
            }
        }
    }

    /// Copies the next bytes of the object that is fetched into the buffer, which isn't empty, and answers how many: at
    /// least one, until all were given.
    pub fn get_data<D: Disk>(
        &mut self,
        store: &mut Store<D>,
        era: &Era,
        into: &mut [u8],
    ) -> Result<usize, BsaRc>
        requires some { 0 < length into.old }
        requires era { MayUseEach D.ledger era.now store.old.volumes.items }
        requires sound { IsSound (state_of self.old) }
        requires store { is_broken (state_of self.old) ≡ false → IsOpenStore store.old }
        requires refers { Refers (state_of self.old) (objects_of store.old.cat) }
        requires reads_on { CanReadOn self.old (objects_of store.old.cat) }
        ensures table { GetsData D.is_modelled (part_on D.bytes store.old.volumes.items (length into.old)) (objects_of store.old.cat)
            (state_of self.old) (state_of self.new) into.new result }
        ensures bound { IfOk result (λ n. n ≤ length into.old) }
        ensures rest { IfOk result (λ n. drop n into.new ≡ drop n into.old) }
        ensures refused { IfErr result (λ answer. IsNoFailure answer → self.new ≡ self.old) }
        ensures sound { IsSound (state_of self.new) }
        ensures refers { Refers (state_of self.new) (objects_of store.new.cat) }
        ensures reads_on { CanReadOn self.new (objects_of store.new.cat) }

        ensures cat { store.new.cat ≡ store.old.cat }
        ensures untouched { result ≡ Err BsaRc.InvalidCallSequence → store.new ≡ store.old }
        ensures given { result ≡ Err BsaRc.NoMoreData → store.new ≡ store.old }
        ensures reads { (draft : Draft-of) (copy at : ℕ) (object : Object-of) → state_of self.old ≡ getting draft copy at
            → object_with copy (objects_of store.old.cat) ≡ Some object → at < object.size
            → ChangesOne (IsRead D.Disk era.now (length into.old) (is_failure result)) object.volume store.old.volumes.items store.new.volumes.items }
    {
        let Some(reading) = self.reading() else {
            return Err(BsaRc::InvalidCallSequence);
        };
        let Some(entry) = find_object(&store.cat, reading.copy) else {
            unreachable!()
        };
        if entry.size <= reading.at {
            return Err(BsaRc::NoMoreData);
        }
        let place = entry.volume;
        let mut cursor = reading.cursor;
        match read_object(&mut store.volumes, era, entry, &mut cursor, into) {
            Ok(0) => Err(BsaRc::AccessFailure(Access::Ends)),
            Ok(count) => {
                let mut transaction = self.take_transaction();
                transaction.work = Work::Getting(Reading {
                    copy: reading.copy,
                    at: reading.at + count as u64,
                    cursor,
                });
                self.state = State::Open(transaction);
                Ok(count)
            }
            Err(_) => {
                self.state = State::Broken;
                Err(BsaRc::AccessFailure(Access::Volume(place)))
            }
        }
    }

    // What is read of the object that is fetched, if one is.
    fn reading(&self) -> Option<Reading>
        ensures { IsReading self.now.state result }
    {
        match &self.state {
            State::Open(transaction) => match &transaction.work {
                Work::Getting(reading) => Some(*reading),
                _ => None,
            },
            _ => None,
        }
    }
}
