//! Queries over the committed objects.
ghost use Rattle.std.specs.Prelude.{◌≡◌, Err, OnErr, drop};
ghost use Rattle.catalogue_journal.specs.Catalogues.{objects_of};
ghost use Rattle.session_machine.specs.Calls.{Queries, GetsNext};
ghost use Rattle.session_machine.specs.Conditions.{IsSound, Refers};
ghost use Rattle.session_machine.specs.States.{is_querying};
ghost use Rattle.bsa_session.specs.Matching.{IsNextOf};

use crate::Session;
use crate::state::{Matches, State, Transaction, Work};
use bsa_descriptor::Descriptor;
use catalogue_journal::Catalogue;
use object_queries::found;
use session_machine::BsaRc;
use site_disk::Disk;

// The next match, if any is left, and what goes on then.
fn next_of(matches: Matches) -> (Option<u64>, Work)
    ensures { IsNextOf (drop matches.given matches.copies.items) result.0 result.1 }
{
    let Matches { copies, given } = matches;
    if given < copies.len() {
        let copy = copies[given];
        let given = given + 1;
        (Some(copy), Work::Querying(Matches { copies, given }))
    } else {
        (None, Work::Waiting)
    }
}

impl Session {
    ghost use Rattle.bsa_session.specs.Sessions.{state_of};

    /// Looks for the committed objects that match a descriptor's record, in order of copy id, and answers the first.
    /// Want of memory changes nothing.
    pub fn query_object<D: Disk>(
        &mut self,
        cat: &Catalogue<D>,
        bytes: &[u8; 2624],
    ) -> Result<u64, BsaRc>
        requires { IsSound (state_of self.old) }
        ensures table { Queries (objects_of cat.now) bytes.now (state_of self.old) (state_of self.new) result }
        ensures refused { OnErr result (self.new ≡ self.old) }
        ensures sound { IsSound (state_of self.new) }
        ensures refers { Refers (state_of self.old) (objects_of cat.now) → Refers (state_of self.new) (objects_of cat.now) }
    {
        if !self.is_waiting() {
            return Err(BsaRc::InvalidCallSequence);
        }
        let Some(query) = Descriptor::decode(bytes) else {
            return Err(BsaRc::InvalidObjectDescriptor);
        };
        let Ok(copies) = found(self.alloc, &query, cat.objects()) else {
            return Err(BsaRc::OutOfMemory);
        };
        if copies.is_empty() {
            return Err(BsaRc::NoMatch);
        }
        let first = copies[0];
        let mut transaction = self.take_transaction();
        transaction.work = Work::Querying(Matches { copies, given: 1 });
        self.state = State::Open(transaction);
        Ok(first)
    }

    /// The next match of the query. Behind the last one the query is ended.
    pub fn get_next_query_object(&mut self) -> Result<u64, BsaRc>
        requires { IsSound (state_of self.old) }
        ensures table { GetsNext (state_of self.old) (state_of self.new) result }
        ensures refused { result ≡ Err BsaRc.InvalidCallSequence → self.new ≡ self.old }
        ensures sound { IsSound (state_of self.new) }
    {
        if !self.is_querying() {
            return Err(BsaRc::InvalidCallSequence);
        }
        let Transaction {
            place,
            staged,
            work,
        } = self.take_transaction();
        let Work::Querying(matches) = work else {
            unreachable!()
        };
        let (next, work) = next_of(matches);
        self.state = State::Open(Transaction {
            place,
            staged,
            work,
        });
        match next {
            Some(copy) => Ok(copy),
            None => Err(BsaRc::NoMoreData),
        }
    }

    // Whether matches of a query are given.
    fn is_querying(&self) -> bool
        ensures { result ≡ is_querying (state_of self.now) }
    {
        match &self.state {
            State::Open(transaction) => matches!(transaction.work, Work::Querying(_)),
            _ => false,
        }
    }
}
