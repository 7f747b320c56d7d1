//! One object, sent to its volume.
ghost use Rattle.std.specs.Prelude.{◌≡◌, ◌≤◌, ℕ, List, [], true};
ghost use Rattle.site_disk.specs.Ledger.{MayUse};
ghost use Rattle.object_volume.specs.Volumes.{disk_of, free_of, blocks_sent, Sends};
ghost use Rattle.block_chain.specs.declared.runs.Run.{Run as Run-of-blocks};
ghost use Rattle.object_store.specs.Holdings.{Holds};
ghost use Rattle.session_machine.specs.Conditions.{IsSound};
ghost use Rattle.session_machine.specs.Records.{may_create};
ghost use Rattle.bsa_session.specs.Sessions.{state_of, Suits, LeavesOpen};
ghost use Rattle.site_votes.specs.Objects.{begun, under_way, IsBegunFor};
ghost use Rattle.site_votes.specs.Sent.{SendEnds};

use crate::faults::{lacks, session_fault};
use bsa_descriptor::Descriptor;
use bsa_session::{BsaRc, Session};
use object_volume::Volume;
use site_core::SiteFault;
use site_disk::{Disk, Era};
use std::alloc::Global;

/// A session for an object of this volume with this descriptor, whose transaction is begun.
pub(crate) fn begin_session(alloc: Global, number: u16, descriptor: &Descriptor) -> Session
    requires { number ≤ 16 }
    ensures { state_of result ≡ begun number descriptor.now }
{
    let mut session = Session::new(alloc);
    session.init(number, descriptor.create_time);
    session.begin_txn();
    session
}

// Begins the object with this descriptor, in a session whose transaction was begun for it.
fn begin_object<D: Disk>(session: &mut Session, volume: &mut Volume<D>, descriptor: &Descriptor)
    requires state { IsBegunFor descriptor.now (state_of session.old) }
    requires volume { Suits D.is_modelled D.bytes (state_of session.old) volume.old }
    requires may { may_create descriptor.now ≡ true }
    ensures state { (number : ℕ) → state_of session.old ≡ begun number descriptor.now → state_of session.new ≡ under_way number descriptor.now }
    ensures sound { IsSound (state_of session.new) }
    ensures volume { Suits D.is_modelled D.bytes (state_of session.new) volume.new }
    ensures begun { Sends D.is_modelled D.bytes volume.new [] }
    ensures none_taken { blocks_sent volume.new ≡ [] }
    ensures disk { disk_of volume.new ≡ disk_of volume.old }
    ensures free { free_of volume.new ≡ free_of volume.old }
    ensures leaves { LeavesOpen D.bytes volume.old volume.new }
    ensures holds { (objects : List (List Run-of-blocks)) → Holds volume.old objects → Holds volume.new objects }
{
    let mut record = [0; 2624];
    descriptor.encode_into(&mut record);
    session.create_object(volume, &record);
}

/// Sends the bytes of an object to its volume, in a session whose transaction was begun for it, and answers whether the volume
/// has the room. Where it hasn't nothing is taken.
pub(crate) fn send_object<D: Disk>(
    session: &mut Session,
    volume: &mut Volume<D>,
    era: &Era,
    number: u16,
    descriptor: &Descriptor,
    bytes: &[u8],
) -> Result<bool, SiteFault>
    requires era { MayUse era.now (D.ledger (disk_of volume.old)) }
    requires number { number ≤ 16 }
    requires state { state_of session.old ≡ begun number descriptor.now }
    requires volume { Suits D.is_modelled D.bytes (state_of session.old) volume.old }
    requires may { may_create descriptor.now ≡ true }
    ensures { SendEnds D.Disk era.now number descriptor.now bytes.now (state_of session.new) volume.old volume.new result }
{
    begin_object(session, volume, descriptor);
    match session.send_data(volume, era, bytes) {
        BsaRc::Success => {}
        answer => {
            if lacks(answer) {
                return Ok(false);
            }
            return Err(session_fault(answer, number));
        }
    }
    match session.end_data(volume, era) {
        Ok(_) => Ok(true),
        Err(answer) => Err(session_fault(answer, number)),
    }
}
