//! Objects that are sent.
ghost use Rattle.std.specs.Prelude.{◌≡◌, ◌≢◌, ◌+◌, ◌-◌, ◌*◌, ◌/◌, ◌<◌, ◌↔◌, ℕ, List, [], ◌∷◌, ◌++◌, length, true, false, IsTrue, IsNone, IfSome, Some, Ok, Err, IfOk, IfErr, OnOk, IsErrOf};
ghost use Rattle.site_disk.specs.Causes.{Rose};
ghost use Rattle.site_disk.specs.Images.{Leaves, OnlyAfter};
ghost use Rattle.site_disk.specs.Ledger.{MayUse, Uses};
ghost use Rattle.block_chain.specs.Blocks.{blocks_for, blocks_of_runs};
ghost use Rattle.block_chain.specs.declared.runs.Run.{Run as Run-of-blocks};
ghost use Rattle.object_volume.specs.Objects.{place_of, Spares};
ghost use Rattle.object_volume.specs.Volumes.{disk_of, free_of, blocks_in, blocks_sent, number_of, open_blocks, Grows, IsOpen, IsIdle, IsSending, Sends};
ghost use Rattle.session_machine.specs.Answers.{IsNoFailure};
ghost use Rattle.session_machine.specs.Calls.{Creates, SendsPiece, EndsData};
ghost use Rattle.session_machine.specs.Conditions.{IsSound};
ghost use Rattle.session_machine.specs.Records.{Spells, may_create};
ghost use Rattle.session_machine.specs.States.{is_sending, is_under_way};
ghost use Rattle.object_store.specs.Holdings.{Holds};
ghost use Rattle.catalogue_journal.specs.Catalogues.{additions_of};
ghost use Rattle.bsa_session.specs.Ended.{last_runs, runs_of_last, IsSentAs};
ghost use Rattle.bsa_session.specs.Staging.{AddsLast, IsEndAnswer};
ghost use Rattle.bsa_session.specs.Making.{IsMadeBy};
ghost use Rattle.bsa_session.specs.Sessions.{LeavesOpen};
ghost use Rattle.bsa_descriptor.specs.declared.descriptor.Descriptor.{Descriptor as Descriptor-of};

use crate::Session;
use crate::state::{State, Transaction, Work};
use bsa_descriptor::{CopyType, Descriptor, ObjectType};
use catalogue_journal::NewObject;
use object_volume::{SendFault, Sent, Volume, VolumeFault};
use session_machine::{Access, BsaRc, Lack};
use site_disk::{Disk, Era};
use std::mem;

// Whether an object may be made of it.
fn may_be_made(descriptor: &Descriptor) -> bool
    ensures { result ≡ may_create descriptor.now }
{
    !descriptor.space.as_bytes().is_empty()
        && !descriptor.path.as_bytes().is_empty()
        && descriptor.copy_type != CopyType::Any
        && descriptor.object_type != ObjectType::Any
}

// The descriptor of the object that this record makes at a moment, if any.
fn new_object(bytes: &[u8; 2624], moment: u64) -> Option<Descriptor>
    ensures made { IfSome result (IsMadeBy bytes.now moment) }
    ensures none { IsNone result → (descriptor : Descriptor-of) → Spells descriptor bytes.now → may_create descriptor ≡ false }
{
    let mut descriptor = Descriptor::decode(bytes)?;
    if !may_be_made(&descriptor) {
        return None;
    }
    descriptor.create_time = moment;
    Some(descriptor)
}

// Ends the object with this descriptor that is being sent, and stages it.
fn end_object<D: Disk>(
    volume: &mut Volume<D>,
    era: &Era,
    transaction: &mut Transaction,
    descriptor: Descriptor,
) -> Result<(u64, [u8; 32]), BsaRc>
    requires era { MayUse era.now (D.ledger (disk_of volume.old)) }
    requires opened { IsOpen volume.old }
    requires begun { IsSending D.is_modelled D.bytes volume.old }
    ensures added { IfOk result (λ sent. AddsLast transaction.old transaction.new descriptor sent.0 sent.1) }
    ensures fault { IfErr result (IsEndAnswer transaction.old.place.volume) }
    ensures opened { OnOk result (IsOpen volume.new) }
    ensures idle { OnOk result (IsIdle volume.new) }
    ensures number { number_of volume.new ≡ number_of volume.old }

    ensures sent { IfOk result (λ sent. (message : List ℕ) → Sends D.is_modelled D.bytes volume.old message
        → IsSentAs D.is_modelled (D.bytes (disk_of volume.new)) message (runs_of_last (additions_of transaction.new.staged)) sent.0 sent.1) }
    ensures listed { OnOk result (blocks_of_runs (runs_of_last (additions_of transaction.new.staged)) ≡ blocks_sent volume.old) }
    ensures durable { IsTrue D.is_modelled
        → OnOk result (OnlyAfter era.now.number (D.bytes (disk_of volume.new)) (D.image (disk_of volume.new))) }
    ensures holds { OnOk result ((objects : List (List Run-of-blocks))
        → Holds volume.old objects → Holds volume.new (runs_of_last (additions_of transaction.new.staged) ∷ objects)) }
    ensures free { OnOk result (free_of volume.new ≡ free_of volume.old) }
    ensures leaves { IsTrue D.is_modelled → OnOk result (LeavesOpen D.bytes volume.old volume.new) }
    ensures failed { (volume_ : ℕ) → IsErrOf result (BsaRc.AccessFailure (Access.Volume volume_))
        → Rose (D.ledger (disk_of volume.old)).faults (D.ledger (disk_of volume.new)).faults }

    ensures crash { IsTrue D.is_modelled → Leaves era.now.number
        (Spares (open_blocks volume.old) (length (D.bytes (disk_of volume.old))))
        (D.image (disk_of volume.old)) (D.image (disk_of volume.new)) }
    ensures ledger { Uses era.now 0 (place_of (blocks_in volume.old)) (D.ledger (disk_of volume.old)) (D.ledger (disk_of volume.new)) }
{
    let number = transaction.place.volume;
    let Sent { runs, size, digest } = match volume.end(era) {
        Ok(sent) => sent,
        Err(VolumeFault::Failed) => return Err(BsaRc::AccessFailure(Access::Volume(number))),
        Err(VolumeFault::OutOfMemory) => return Err(BsaRc::OutOfMemory),
        Err(VolumeFault::NoHeader | VolumeFault::Overlap { .. }) => unreachable!(),
    };
    let object = NewObject {
        volume: number,
        size,
        digest,
        runs,
        descriptor,
    };
    match transaction.staged.add.push(object) {
        Ok(()) => Ok((size, digest)),
        Err(_) => Err(BsaRc::OutOfMemory),
    }
}

impl Session {
    ghost use Rattle.bsa_session.specs.Sessions.{state_of, Suits};

    /// Begins an object on the session's volume, with this record as its descriptor. Its create time is the session's.
    pub fn create_object<D: Disk>(&mut self, volume: &mut Volume<D>, bytes: &[u8; 2624]) -> BsaRc
        requires sound { IsSound (state_of self.old) }
        requires volume { Suits D.is_modelled D.bytes (state_of self.old) volume.old }
        ensures table { Creates bytes.now (state_of self.old) (state_of self.new) result }
        ensures refused { result ≢ BsaRc.Success → self.new ≡ self.old }
        ensures refused_volume { result ≢ BsaRc.Success → volume.new ≡ volume.old }
        ensures sound { IsSound (state_of self.new) }
        ensures volume { Suits D.is_modelled D.bytes (state_of self.new) volume.new }
        ensures number { number_of volume.new ≡ number_of volume.old }

        ensures begun { result ≡ BsaRc.Success → Sends D.is_modelled D.bytes volume.new [] }
        ensures none_taken { result ≡ BsaRc.Success → blocks_sent volume.new ≡ [] }
        ensures disk { disk_of volume.new ≡ disk_of volume.old }
        ensures free { free_of volume.new ≡ free_of volume.old }
        ensures leaves { result ≡ BsaRc.Success → LeavesOpen D.bytes volume.old volume.new }
        ensures holds { (objects : List (List Run-of-blocks)) → Holds volume.old objects → Holds volume.new objects }
    {
        let State::Open(transaction) = &mut self.state else {
            return BsaRc::InvalidCallSequence;
        };
        let Work::Waiting = transaction.work else {
            return BsaRc::InvalidCallSequence;
        };
        let Some(descriptor) = new_object(bytes, transaction.place.moment) else {
            return BsaRc::InvalidObjectDescriptor;
        };
        volume.begin();
        transaction.work = Work::Sending(descriptor);
        BsaRc::Success
    }

    /// Sends a piece of the object. Nothing is taken of it where free blocks are lacking for it.
    pub fn send_data<D: Disk>(&mut self, volume: &mut Volume<D>, era: &Era, bytes: &[u8]) -> BsaRc
        requires era { MayUse era.now (D.ledger (disk_of volume.old)) }
        requires sound { IsSound (state_of self.old) }
        requires volume { Suits D.is_modelled D.bytes (state_of self.old) volume.old }
        ensures table { SendsPiece (state_of self.old) (state_of self.new) result }
        ensures refused { IsNoFailure result → self.new ≡ self.old }
        ensures sound { IsSound (state_of self.new) }
        ensures volume { Suits D.is_modelled D.bytes (state_of self.new) volume.new }
        ensures number { number_of volume.new ≡ number_of volume.old }

        ensures sends { (message : List ℕ) → Sends D.is_modelled D.bytes volume.old message
            → result ≡ BsaRc.Success → Sends D.is_modelled D.bytes volume.new (message ++ bytes.now) }
        ensures store_full { is_sending (state_of self.old) ≡ true → (message : List ℕ) → Sends D.is_modelled D.bytes volume.old message
            → (result ≡ BsaRc.NoResources Lack.Blocks)
            ↔ (length (free_of volume.old) < blocks_for (length message + length bytes.now) - blocks_for (length message)) }
        ensures taken { (message : List ℕ) → Sends D.is_modelled D.bytes volume.old message
            → result ≡ BsaRc.Success → Grows volume.old volume.new (blocks_for (length message + length bytes.now) - blocks_for (length message)) }
        ensures untaken { result ≡ BsaRc.NoResources Lack.Blocks → volume.new ≡ volume.old }
        ensures invalid { result ≡ BsaRc.InvalidCallSequence → volume.new ≡ volume.old }
        ensures leaves { IsTrue D.is_modelled → result ≡ BsaRc.Success → LeavesOpen D.bytes volume.old volume.new }
        ensures holds { result ≡ BsaRc.Success
            → (objects : List (List Run-of-blocks)) → Holds volume.old objects → Holds volume.new objects }
        ensures failed { (volume_ : ℕ) → result ≡ BsaRc.AccessFailure (Access.Volume volume_)
            → Rose (D.ledger (disk_of volume.old)).faults (D.ledger (disk_of volume.new)).faults }

        ensures crash { IsTrue D.is_modelled → Leaves era.now.number
            (Spares (open_blocks volume.old) (length (D.bytes (disk_of volume.old))))
            (D.image (disk_of volume.old)) (D.image (disk_of volume.new)) }
        ensures ledger { Uses era.now 0 ((1 + length bytes.now / 4096) * place_of (blocks_in volume.old))
            (D.ledger (disk_of volume.old)) (D.ledger (disk_of volume.new)) }
    {
        if !self.is_sending() {
            return BsaRc::InvalidCallSequence;
        }
        match volume.send(era, bytes) {
            Ok(()) => BsaRc::Success,
            Err(SendFault::StoreFull) => BsaRc::NoResources(Lack::Blocks),
            Err(SendFault::Failed) => {
                let transaction = self.take_transaction();
                BsaRc::AccessFailure(Access::Volume(transaction.place.volume))
            }
        }
    }

    /// Ends an object that is being sent, and answers its size and its SHA-256; or ends a query or a fetch.
    ///
    /// From then on the transaction adds the object, and each image of later eras has it whole. A fault and want of memory
    /// break the session.
    pub fn end_data<D: Disk>(
        &mut self,
        volume: &mut Volume<D>,
        era: &Era,
    ) -> Result<Option<(u64, [u8; 32])>, BsaRc>
        requires era { MayUse era.now (D.ledger (disk_of volume.old)) }
        requires sound { IsSound (state_of self.old) }
        requires volume { Suits D.is_modelled D.bytes (state_of self.old) volume.old }
        ensures table { EndsData (state_of self.old) (state_of self.new) result }
        ensures refused { result ≡ Err BsaRc.InvalidCallSequence → self.new ≡ self.old }
        ensures sound { IsSound (state_of self.new) }
        ensures volume { Suits D.is_modelled D.bytes (state_of self.new) volume.new }
        ensures number { number_of volume.new ≡ number_of volume.old }
        ensures others { is_sending (state_of self.old) ≡ false → volume.new ≡ volume.old }

        ensures sent { IfOk result (λ ended. IfSome ended (λ sent. (message : List ℕ) → Sends D.is_modelled D.bytes volume.old message
            → IsSentAs D.is_modelled (D.bytes (disk_of volume.new)) message (last_runs (state_of self.new)) sent.0 sent.1)) }
        ensures listed { IfOk result (λ ended. IfSome ended (λ sent. blocks_of_runs (last_runs (state_of self.new)) ≡ blocks_sent volume.old)) }
        ensures durable { IsTrue D.is_modelled → IfOk result (λ ended. IfSome ended (λ sent.
            OnlyAfter era.now.number (D.bytes (disk_of volume.new)) (D.image (disk_of volume.new)))) }
        ensures holds { IfOk result (λ ended. IfSome ended (λ sent. (objects : List (List Run-of-blocks))
            → Holds volume.old objects → Holds volume.new (last_runs (state_of self.new) ∷ objects))) }
        ensures free { OnOk result (free_of volume.new ≡ free_of volume.old) }
        ensures leaves { IsTrue D.is_modelled → OnOk result (LeavesOpen D.bytes volume.old volume.new) }
        ensures failed { (volume_ : ℕ) → IsErrOf result (BsaRc.AccessFailure (Access.Volume volume_))
            → Rose (D.ledger (disk_of volume.old)).faults (D.ledger (disk_of volume.new)).faults }

        ensures crash { IsTrue D.is_modelled → Leaves era.now.number
            (Spares (open_blocks volume.old) (length (D.bytes (disk_of volume.old))))
            (D.image (disk_of volume.old)) (D.image (disk_of volume.new)) }
        ensures ledger { Uses era.now 0 (place_of (blocks_in volume.old)) (D.ledger (disk_of volume.old)) (D.ledger (disk_of volume.new)) }
    {
        if !self.is_under_way() {
            return Err(BsaRc::InvalidCallSequence);
        }
        let mut transaction = self.take_transaction();
        let work = mem::replace(&mut transaction.work, Work::Waiting);
        let Work::Sending(descriptor) = work else {
            self.state = State::Open(transaction);
            return Ok(None);
        };
        match end_object(volume, era, &mut transaction, descriptor) {
            Ok(sent) => {
                self.state = State::Open(transaction);
                Ok(Some(sent))
            }
            Err(answer) => Err(answer),
        }
    }

    // Whether an object is being sent.
    fn is_sending(&self) -> bool
        ensures { result ≡ is_sending (state_of self.now) }
    {
        match &self.state {
            State::Open(transaction) => matches!(transaction.work, Work::Sending(_)),
            _ => false,
        }
    }

    // Whether something goes on in a transaction.
    fn is_under_way(&self) -> bool
        ensures { result ≡ is_under_way (state_of self.now) }
    {
        match &self.state {
            State::Open(transaction) => !matches!(transaction.work, Work::Waiting),
            _ => false,
        }
    }
}
