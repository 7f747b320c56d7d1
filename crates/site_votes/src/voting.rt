//! The vote on one object.
ghost use Rattle.std.specs.Prelude.{◌≡◌, ◌+◌, ◌<◌, ◌≤◌, ◌^◌, ℕ, suc, true, IsTrue, IfOk, OnOk};
ghost use Rattle.site_disk.specs.Ledger.{MayUse};
ghost use Rattle.catalogue_journal.specs.Catalogues.{cat_of, contents_in, objects_of};
ghost use Rattle.object_store.specs.Endings.{places, HoldAll};
ghost use Rattle.object_store.specs.Reading.{ChangesOne};
ghost use Rattle.object_store.specs.Stores.{OfEach, IsOpenStore};
ghost use Rattle.session_machine.specs.Conditions.{IsSound};
ghost use Rattle.session_machine.specs.Records.{may_create};
ghost use Rattle.bsa_session.specs.Sessions.{state_of, Suits};
ghost use Rattle.bsa_session.specs.Voting.{added_in};
ghost use Rattle.store_opening.specs.Standing.{FreeInOrder, IsSettled};
ghost use Rattle.site_votes.specs.Objects.{begun, IsSentIn};
ghost use Rattle.site_votes.specs.Voted.{VoteEnds};
ghost use Rattle.site_votes.specs.Sent.{SendEnds};
ghost use Rattle.site_votes.specs.Stores.{MayUseStore, Votes};

use crate::faults::{lacks, session_fault};
use crate::sending::{begin_session, send_object};
use bsa_descriptor::Descriptor;
use bsa_session::Session;
use object_store::Store;
use site_core::{Site, SiteFault};
use site_disk::{Disk, Era};
use std::alloc::Global;

const COMMIT: u8 = 1;

// Sends an object to its volume of a store, and answers whether that has the room.
fn send_to_store<D: Disk>(
    session: &mut Session,
    store: &mut Store<D>,
    era: &Era,
    number: u16,
    descriptor: &Descriptor,
    bytes: &[u8],
) -> Result<bool, SiteFault>
    requires era { MayUseStore D.Disk era.now store.old }
    requires number { number ≤ 16 }
    requires state { state_of session.old ≡ begun number descriptor.now }
    requires settled { IsSettled store.old }
    requires may { may_create descriptor.now ≡ true }
    ensures cat { store.new.cat ≡ store.old.cat }
    ensures ends { ChangesOne (λ was is. SendEnds D.Disk era.now number descriptor.now bytes.now (state_of session.new) was is result)
        number store.old.volumes.items store.new.volumes.items }
{
    let volume = &mut store.volumes[usize::from(number)];
    send_object(session, volume, era, number, descriptor, bytes)
}

// Commits a transaction of one object that was sent, and answers its copy id. Where the vote is refused the session ends.
fn commit_object<D: Disk>(
    session: &mut Session,
    store: &mut Store<D>,
    era: &mut Era,
    number: u16,
) -> Result<u64, SiteFault>
    requires era { MayUse era.old (D.ledger (cat_of store.old.cat)) }
    requires left { era.old.number < 2 ^ 63 + 2 ^ 62 }
    requires one { IsSentIn number (state_of session.old) }
    requires sound { IsSound (state_of session.old) }
    requires opened { IsOpenStore store.old }
    requires idle { OfEach (λ place volume. place ≡ number → Suits D.is_modelled D.bytes (state_of session.old) volume) store.old.volumes.items }
    requires holds { HoldAll (places (objects_of store.old.cat) (added_in (state_of session.old))) store.old.volumes.items }
    ensures ends { VoteEnds D.Disk era.old era.new (added_in (state_of session.old)) store.old store.new result }
    ensures few { era.new.number ≤ era.old.number + 9 }
    ensures no_earlier { era.old.number ≤ era.new.number }
    ensures key { era.new.key ≡ era.old.key }
{
    match session.end_txn(store, era, COMMIT) {
        Ok(copies) => {
            era.next();
            Ok(copies[0])
        }
        Err(answer) => {
            if lacks(answer) {
                session.terminate(store);
                era.next();
                return Err(session_fault(answer, number));
            }
            Err(session_fault(answer, number))
        }
    }
}

/// Sends an object to a volume of the site, and commits it: it answers the object's copy id.
///
/// A refusal makes no move. The object's create time is that of its descriptor, and its copy id is the next one.
pub fn vote_on_object<D: Disk>(
    alloc: Global,
    site: &mut Site<D>,
    era: &mut Era,
    number: u16,
    descriptor: &Descriptor,
    bytes: &[u8],
) -> Result<u64, SiteFault>
    requires era { MayUseStore D.Disk era.old site.old.store }
    requires left { era.old.number < 2 ^ 63 + 2 ^ 62 }
    requires number { number ≤ 16 }
    requires may { may_create descriptor.now ≡ true }
    requires settled { IsSettled site.old.store }

    // From each fit site for which the values stand, and from which the vote may be made, the vote is the one move.
    ensures votes { IsTrue D.is_modelled → FreeInOrder site.old.store
        → Votes D.Disk number descriptor.now bytes.now era.old.number era.new.number site.old site.new result }
    ensures copy { IfOk result (λ copy. copy ≡ suc (contents_in site.old.store.cat).last) }
    ensures settled { OnOk result (IsSettled site.new.store) }
    ensures order { IsTrue D.is_modelled → FreeInOrder site.old.store → OnOk result (FreeInOrder site.new.store) }
    ensures usable { OnOk result (MayUseStore D.Disk era.new site.new.store) }
    ensures others { site.new ≡ record site.old { store = site.new.store } }
    ensures eras { era.new.number ≤ era.old.number + 9 }
{
    let mut session = begin_session(alloc, number, descriptor);
    match send_to_store(
        &mut session,
        &mut site.store,
        era,
        number,
        descriptor,
        bytes,
    ) {
        Ok(true) => commit_object(&mut session, &mut site.store, era, number),
        Ok(false) => {
            session.terminate(&mut site.store);
            Err(SiteFault::StoreFull(number))
        }
        Err(fault) => Err(fault),
    }
}
