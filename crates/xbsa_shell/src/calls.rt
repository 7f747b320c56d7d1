//! The calls of a script, each over the session and the store.
ghost use Rattle.std.specs.Prelude.{◌≡◌, ◌+◌, ◌≤◌, ◌<◌, ◌^◌, ℕ, List, length, take, None, Some, true, IfOk, IfErr, IsOk, OnOk, MatchResult};
ghost use Rattle.bsa_descriptor.specs.Descriptor.{empty_descriptor, spelling};
ghost use Rattle.bsa_session.specs.Reading.{CanReadOn};
ghost use Rattle.bsa_session.specs.Sessions.{state_of, Suits};
ghost use Rattle.bsa_transcripts.specs.Fields.{fields_of};
ghost use Rattle.bsa_lines.specs.BsaLine.{line_of_bsa};
ghost use Rattle.bsa_lines.specs.Lines.{IsLine};
ghost use Rattle.bsa_session.specs.Voting.{IsOn};
ghost use Rattle.bsa_transcripts.specs.Lines.{IsCode, Tells, TellsEnd, TellsMatch, Votes};
ghost use Rattle.catalogue_journal.specs.Catalogues.{cat_of, capacity_of, objects_of, IsOpen};
ghost use Rattle.catalogue_replay.specs.Contents.{has_copy};
ghost use Rattle.catalogue_slots.specs.Records.{Object};
ghost use Rattle.bsa_session.specs.Voting.{added_in};
ghost use Rattle.object_store.specs.Endings.{places, HoldAll, PassesEras};
ghost use Rattle.object_store.specs.Reading.{part_on, reads_on, ChangesOne};
ghost use Rattle.object_store.specs.Stores.{IsOpenStore, MayUseEach, OfEach};
ghost use Rattle.object_volume.specs.Volumes.{disk_of};
ghost use Rattle.session_machine.specs.Calls.{Begins, Creates, Deletes, EndsData, GetsNext, GetsObject, Inits, Queries, SendsPiece, Terminates};
ghost use Rattle.session_machine.specs.Conditions.{IsSound, Refers};
ghost use Rattle.site_disk.specs.Ledger.{EraView, MayUse};
ghost use Rattle.session_machine.specs.States.{none};
ghost use Rattle.xbsa_shell.specs.Serving.{AreThere, GivesFrom, IsPlace, IsServed, KeepsFields, RunsLine, ServesShell, Works, setting_of, stand_of};
ghost use Rattle.xbsa_shell.specs.Statuses.{status_of_answer, CutsCall};

use crate::statuses::status_of_answer;
use crate::volumes::{create_on, end_on, send_on};
use arrayvec::ArrayVec;
use bsa_lines::BsaLine;
use bsa_session::Session;
use bsa_transcripts::{Fields, Reply};
use object_store::{Store, find_object};
use session_machine::BsaRc;
use site_disk::{Disk, Era};
use site_model::Status;
use std::alloc::Global;

/// The session of a script, its volume, and the descriptor that the script sets.
#[derive(Drop)]
pub(crate) struct Shell {
    session: Session,
    volume: u16,
    fields: Fields,
}

// What is printed of a code, if it doesn't end the shell.
fn told(code: BsaRc) -> Result<Reply, Status>
    ensures told { MatchResult result (λ reply. (reply ≡ Reply.Code code) × (status_of_answer code ≡ None)) (λ status. status_of_answer code ≡ Some status) }
    ensures cut { IfErr result CutsCall }
{
    match status_of_answer(code) {
        Some(status) => Err(status),
        None => Ok(Reply::Code(code)),
    }
}

// The bytes that stand at the front of a buffer.
fn given_bytes(into: &[u8], given: usize) -> ArrayVec<u8, 4096>
    requires few { length into.now ≤ 4096 }
    requires within { given ≤ length into.now }
    ensures { result.items ≡ take given into.now }
{
    match ArrayVec::try_from(&into[..given]) {
        Ok(bytes) => bytes,
        Err(_) => unreachable!(),
    }
}

impl Shell {
    /// No session, and an empty descriptor.
    pub(crate) fn new(alloc: Global) -> Shell
        ensures session { state_of result.session ≡ none }
        ensures fields { fields_of result.fields ≡ empty_descriptor }
        ensures volume { result.volume ≤ 16 }
    {
        Shell {
            session: Session::new(alloc),
            volume: 0,
            fields: Fields::empty(),
        }
    }

    /// Does what a line says.
    pub(crate) fn run_line<D: Disk>(
        &mut self,
        store: &mut Store<D>,
        era: &mut Era,
        line: &BsaLine,
        moment: u64,
    ) -> Result<Reply, Status>
        requires line { IsLine (line_of_bsa line.now) }
        requires number { era.old.number < 2 ^ 63 + 2 ^ 62 }
        requires serves { ServesShell D.Disk era.old self.old store.old }
        ensures runs { IfOk result (RunsLine D.Disk moment (line_of_bsa line.now) era.new self.old self.new store.old store.new) }
        ensures era { PassesEras era.old era.new }
        ensures cut { IfErr result CutsCall }
    {
        self.fields.take(line);
        match line {
            BsaLine::Init { volume } => self.init(*volume, moment),
            BsaLine::Begin => self.begin(),
            BsaLine::Create => self.create(store),
            BsaLine::Send { bytes } => self.send(store, era, bytes.as_slice()),
            BsaLine::EndData => self.end_data(store, era),
            BsaLine::Query => self.query(store),
            BsaLine::Next => self.next(store),
            BsaLine::Get { copy } => self.get(store, era, *copy),
            BsaLine::Data { count } => self.data(store, era, *count),
            BsaLine::Delete { copy } => self.delete(store, *copy),
            BsaLine::End { vote } => self.end(store, era, *vote),
            BsaLine::Terminate => self.terminate(store),
            _ => Ok(Reply::Nothing),
        }
    }

    /// Ends a session that is open.
    pub(crate) fn finish<D: Disk>(&mut self, store: &mut Store<D>)
        requires served { IsServed D.Disk self.old store.old }
        ensures serves { (era : EraView) → ServesShell D.Disk era self.old store.old → ServesShell D.Disk era self.new store.new }
        ensures session { state_of self.new.session ≡ none }
        ensures cat { store.new.cat ≡ store.old.cat }
    {
        self.session.terminate(store);
    }

    fn begin(&mut self) -> Result<Reply, Status>
        requires { IsSound (state_of self.old.session) }
        ensures table { IfOk result (IsCode (Begins (state_of self.old.session) (state_of self.new.session))) }
        ensures sound { IsSound (state_of self.new.session) }
        ensures reads { (objects : List Object) → CanReadOn self.old.session objects → CanReadOn self.new.session objects }
        ensures kept { KeepsFields self.old self.new }
        ensures cut { IfErr result CutsCall }
    {
        told(self.session.begin_txn())
    }

    fn delete<D: Disk>(&mut self, store: &Store<D>, copy: u64) -> Result<Reply, Status>
        requires sound { IsSound (state_of self.old.session) }
        requires opened { IsOpen store.now.cat }
        requires refers { Refers (state_of self.old.session) (objects_of store.now.cat) }
        ensures table { IfOk result (IsCode (Deletes copy (objects_of store.now.cat) (state_of self.old.session) (state_of self.new.session))) }
        ensures serves { (era : EraView) → ServesShell D.Disk era self.old store.now → ServesShell D.Disk era self.new store.now }
        ensures kept { KeepsFields self.old self.new }
        ensures cut { IfErr result CutsCall }
    {
        told(self.session.delete_object(&store.cat, copy))
    }

    fn terminate<D: Disk>(&mut self, store: &mut Store<D>) -> Result<Reply, Status>
        requires served { IsServed D.Disk self.old store.old }
        ensures table { IfOk result (IsCode (Terminates (state_of self.old.session) (state_of self.new.session))) }
        ensures serves { (era : EraView) → ServesShell D.Disk era self.old store.old → ServesShell D.Disk era self.new store.new }
        ensures kept { KeepsFields self.old self.new }
        ensures cat { store.new.cat ≡ store.old.cat }
        ensures cut { IfErr result CutsCall }
    {
        told(self.session.terminate(store))
    }

    fn init(&mut self, volume: u16, moment: u64) -> Result<Reply, Status>
        requires volume { volume ≤ 16 }
        requires within { self.old.volume ≤ 16 }
        requires sound { IsSound (state_of self.old.session) }
        requires place { IsPlace self.old.volume (state_of self.old.session) }
        ensures table { IfOk result (IsCode (Inits volume moment (state_of self.old.session) (state_of self.new.session))) }
        ensures sound { IsSound (state_of self.new.session) }
        ensures place { IsPlace self.new.volume (state_of self.new.session) }
        ensures within { self.new.volume ≤ 16 }
        ensures reads { (objects : List Object) → CanReadOn self.old.session objects → CanReadOn self.new.session objects }
        ensures fields { self.new.fields ≡ self.old.fields }
        ensures cut { IfErr result CutsCall }
    {
        let code = self.session.init(volume, moment);
        if code == BsaRc::Success {
            self.volume = volume;
        }
        told(code)
    }

    fn create<D: Disk>(&mut self, store: &mut Store<D>) -> Result<Reply, Status>
        requires sound { IsSound (state_of self.old.session) }
        requires within { self.old.volume < length store.old.volumes.items }
        requires place { IsPlace self.old.volume (state_of self.old.session) }
        requires volume { OfEach (λ place volume. place ≡ self.old.volume → Suits D.is_modelled D.bytes (state_of self.old.session) volume) store.old.volumes.items }
        ensures table { IfOk result (IsCode (Creates (spelling (fields_of self.old.fields)) (state_of self.old.session) (state_of self.new.session))) }
        ensures sound { IsSound (state_of self.new.session) }
        ensures kept { KeepsFields self.old self.new }
        ensures cat { store.new.cat ≡ store.old.cat }
        ensures one { ChangesOne (λ was is. Suits D.is_modelled D.bytes (state_of self.new.session) is) self.old.volume store.old.volumes.items store.new.volumes.items }
        ensures works { (era : EraView) (objects : List Object) → ChangesOne (Works D.Disk era (state_of self.old.session) (state_of self.new.session) self.old.volume objects)
            self.old.volume store.old.volumes.items store.new.volumes.items }
        ensures serves { OnOk result ((era : EraView) → ServesShell D.Disk era self.old store.old → ServesShell D.Disk era self.new store.new) }
        ensures cut { IfErr result CutsCall }
    {
        let mut record = [0; 2624];
        self.fields.encode_into(&mut record);
        told(create_on(&mut self.session, &mut store.volumes, self.volume, &record))
    }

    fn send<D: Disk>(
        &mut self,
        store: &mut Store<D>,
        era: &Era,
        bytes: &[u8],
    ) -> Result<Reply, Status>
        requires sound { IsSound (state_of self.old.session) }
        requires within { self.old.volume < length store.old.volumes.items }
        requires place { IsPlace self.old.volume (state_of self.old.session) }
        requires era { OfEach (λ place volume. place ≡ self.old.volume → MayUse era.now (D.ledger (disk_of volume))) store.old.volumes.items }
        requires volume { OfEach (λ place volume. place ≡ self.old.volume → Suits D.is_modelled D.bytes (state_of self.old.session) volume) store.old.volumes.items }
        ensures table { IfOk result (IsCode (SendsPiece (state_of self.old.session) (state_of self.new.session))) }
        ensures sound { IsSound (state_of self.new.session) }
        ensures kept { KeepsFields self.old self.new }
        ensures cat { store.new.cat ≡ store.old.cat }
        ensures one { ChangesOne (λ was is. Suits D.is_modelled D.bytes (state_of self.new.session) is) self.old.volume store.old.volumes.items store.new.volumes.items }
        ensures works { OnOk result ((objects : List Object) → ChangesOne (Works D.Disk era.now (state_of self.old.session) (state_of self.new.session) self.old.volume objects)
            self.old.volume store.old.volumes.items store.new.volumes.items) }
        ensures serves { OnOk result (ServesShell D.Disk era.now self.old store.old → ServesShell D.Disk era.now self.new store.new) }
        ensures cut { IfErr result CutsCall }
    {
        told(send_on(
            &mut self.session,
            &mut store.volumes,
            self.volume,
            era,
            bytes,
        ))
    }

    fn end_data<D: Disk>(&mut self, store: &mut Store<D>, era: &Era) -> Result<Reply, Status>
        requires sound { IsSound (state_of self.old.session) }
        requires within { self.old.volume < length store.old.volumes.items }
        requires place { IsPlace self.old.volume (state_of self.old.session) }
        requires era { OfEach (λ place volume. place ≡ self.old.volume → MayUse era.now (D.ledger (disk_of volume))) store.old.volumes.items }
        requires volume { OfEach (λ place volume. place ≡ self.old.volume → Suits D.is_modelled D.bytes (state_of self.old.session) volume) store.old.volumes.items }
        ensures told { IfOk result (Tells (EndsData (state_of self.old.session) (state_of self.new.session)) TellsEnd) }
        ensures sound { IsSound (state_of self.new.session) }
        ensures kept { KeepsFields self.old self.new }
        ensures cat { store.new.cat ≡ store.old.cat }
        ensures one { ChangesOne (λ was is. Suits D.is_modelled D.bytes (state_of self.new.session) is) self.old.volume store.old.volumes.items store.new.volumes.items }
        ensures works { OnOk result ((objects : List Object) → ChangesOne (Works D.Disk era.now (state_of self.old.session) (state_of self.new.session) self.old.volume objects)
            self.old.volume store.old.volumes.items store.new.volumes.items) }
        ensures serves { OnOk result (ServesShell D.Disk era.now self.old store.old → ServesShell D.Disk era.now self.new store.new) }
        ensures cut { IfErr result CutsCall }
    {
        match end_on(&mut self.session, &mut store.volumes, self.volume, era) {
            Ok(Some(sent)) => {
                let size = sent.0;
                let digest = sent.1;
                Ok(Reply::Sent { size, digest })
            }
            Ok(None) => Ok(Reply::Code(BsaRc::Success)),
            Err(code) => told(code),
        }
    }

    fn query<D: Disk>(&mut self, store: &Store<D>) -> Result<Reply, Status>
        requires sound { IsSound (state_of self.old.session) }
        requires opened { IsOpen store.now.cat }
        ensures told { IfOk result (Tells (Queries (objects_of store.now.cat) (spelling (fields_of self.old.fields)) (state_of self.old.session) (state_of self.new.session))
            (TellsMatch (objects_of store.now.cat))) }
        ensures sound { IsSound (state_of self.new.session) }
        ensures refers { Refers (state_of self.old.session) (objects_of store.now.cat) → Refers (state_of self.new.session) (objects_of store.now.cat) }
        ensures there { OnOk result (AreThere (objects_of store.now.cat) (state_of self.old.session) → AreThere (objects_of store.now.cat) (state_of self.new.session)) }
        ensures kept { KeepsFields self.old self.new }
        ensures serves { OnOk result ((era : EraView) → ServesShell D.Disk era self.old store.now → ServesShell D.Disk era self.new store.now) }
        ensures cut { IfErr result CutsCall }
    {
        let mut record = [0; 2624];
        self.fields.encode_into(&mut record);
        match self.session.query_object(&store.cat, &record) {
            Ok(copy) => self.found(store, copy),
            Err(code) => told(code),
        }
    }

    fn next<D: Disk>(&mut self, store: &Store<D>) -> Result<Reply, Status>
        requires sound { IsSound (state_of self.old.session) }
        requires opened { IsOpen store.now.cat }
        requires there { AreThere (objects_of store.now.cat) (state_of self.old.session) }
        ensures told { IfOk result (Tells (GetsNext (state_of self.old.session) (state_of self.new.session)) (TellsMatch (objects_of store.now.cat))) }
        ensures sound { IsSound (state_of self.new.session) }
        ensures there { AreThere (objects_of store.now.cat) (state_of self.new.session) }
        ensures kept { KeepsFields self.old self.new }
        ensures serves { OnOk result ((era : EraView) → ServesShell D.Disk era self.old store.now → ServesShell D.Disk era self.new store.now) }
        ensures cut { IfErr result CutsCall }
    {
        match self.session.get_next_query_object() {
            Ok(copy) => self.found(store, copy),
            Err(code) => told(code),
        }
    }

    // A match of a query.
    fn found<D: Disk>(&self, store: &Store<D>, copy: u64) -> Result<Reply, Status>
        requires opened { IsOpen store.now.cat }
        requires there { has_copy copy (objects_of store.now.cat) ≡ true }
        ensures found { IfOk result (TellsMatch (objects_of store.now.cat) copy) }
        ensures ok { IsOk result }
    {
        let Some(descriptor) = self.session.described(&store.cat, copy) else {
            unreachable!()
        };
        let Some(entry) = find_object(&store.cat, copy) else {
            unreachable!()
        };
        Ok(Reply::Found {
            copy,
            size: entry.size,
            descriptor,
        })
    }

    fn get<D: Disk>(&mut self, store: &mut Store<D>, era: &Era, copy: u64) -> Result<Reply, Status>
        requires era { MayUseEach D.ledger era.now store.old.volumes.items }
        requires sound { IsSound (state_of self.old.session) }
        requires store { IsOpenStore store.old }
        requires refers { Refers (state_of self.old.session) (objects_of store.old.cat) }
        ensures told { IfOk result (Tells (GetsObject D.is_modelled (reads_on D.bytes store.old.volumes.items) copy (objects_of store.old.cat)
            (state_of self.old.session) (state_of self.new.session)) (λ size reply. reply ≡ Reply.Opened size)) }
        ensures sound { IsSound (state_of self.new.session) }
        ensures refers { Refers (state_of self.new.session) (objects_of store.new.cat) }
        ensures kept { KeepsFields self.old self.new }
        ensures cat { store.new.cat ≡ store.old.cat }
        ensures serves { OnOk result (ServesShell D.Disk era.now self.old store.old → ServesShell D.Disk era.now self.new store.new) }
        ensures cut { IfErr result CutsCall }
    {
        match self.session.get_object(store, era, copy) {
            Ok(size) => Ok(Reply::Opened { size }),
            Err(code) => told(code),
        }
    }

    fn data<D: Disk>(
        &mut self,
        store: &mut Store<D>,
        era: &Era,
        count: u16,
    ) -> Result<Reply, Status>
        requires count { (0 < count) × (count ≤ 4096) }
        requires era { MayUseEach D.ledger era.now store.old.volumes.items }
        requires sound { IsSound (state_of self.old.session) }
        requires store { IsOpenStore store.old }
        requires refers { Refers (state_of self.old.session) (objects_of store.old.cat) }
        requires reads_on { CanReadOn self.old.session (objects_of store.old.cat) }
        ensures told { IfOk result (GivesFrom D.is_modelled (part_on D.bytes store.old.volumes.items count) (objects_of store.old.cat)
            (state_of self.old.session) (state_of self.new.session)) }
        ensures sound { IsSound (state_of self.new.session) }
        ensures refers { Refers (state_of self.new.session) (objects_of store.new.cat) }
        ensures reads_on { CanReadOn self.new.session (objects_of store.new.cat) }
        ensures kept { KeepsFields self.old self.new }
        ensures cat { store.new.cat ≡ store.old.cat }
        ensures serves { OnOk result (ServesShell D.Disk era.now self.old store.old → ServesShell D.Disk era.now self.new store.new) }
        ensures cut { IfErr result CutsCall }
    {
        let mut buffer = [0; 4096];
        let into = &mut buffer[..usize::from(count)];
        self.data_into(store, era, into)
    }

    // The next bytes, by way of a buffer.
    fn data_into<D: Disk>(
        &mut self,
        store: &mut Store<D>,
        era: &Era,
        into: &mut [u8],
    ) -> Result<Reply, Status>
        requires some { 0 < length into.old }
        requires few { length into.old ≤ 4096 }
        requires era { MayUseEach D.ledger era.now store.old.volumes.items }
        requires sound { IsSound (state_of self.old.session) }
        requires store { IsOpenStore store.old }
        requires refers { Refers (state_of self.old.session) (objects_of store.old.cat) }
        requires reads_on { CanReadOn self.old.session (objects_of store.old.cat) }
        ensures told { IfOk result (GivesFrom D.is_modelled (part_on D.bytes store.old.volumes.items (length into.old)) (objects_of store.old.cat)
            (state_of self.old.session) (state_of self.new.session)) }
        ensures sound { IsSound (state_of self.new.session) }
        ensures refers { Refers (state_of self.new.session) (objects_of store.new.cat) }
        ensures reads_on { CanReadOn self.new.session (objects_of store.new.cat) }
        ensures kept { KeepsFields self.old self.new }
        ensures cat { store.new.cat ≡ store.old.cat }
        ensures serves { OnOk result (ServesShell D.Disk era.now self.old store.old → ServesShell D.Disk era.now self.new store.new) }
        ensures cut { IfErr result CutsCall }
    {
        match self.session.get_data(store, era, into) {
            Ok(given) => Ok(Reply::Given {
                bytes: given_bytes(into, given),
            }),
            Err(code) => told(code),
        }
    }

    fn end<D: Disk>(
        &mut self,
        store: &mut Store<D>,
        era: &mut Era,
        vote: u8,
    ) -> Result<Reply, Status>
        requires era { MayUse era.old (D.ledger (cat_of store.old.cat)) }
        requires number { era.old.number < 2 ^ 63 + 2 ^ 62 }
        requires sound { IsSound (state_of self.old.session) }
        requires store { IsOpenStore store.old }
        requires refers { Refers (state_of self.old.session) (objects_of store.old.cat) }
        requires holds { HoldAll (places (objects_of store.old.cat) (added_in (state_of self.old.session))) store.old.volumes.items }
        ensures votes { (moment : ℕ) → IfOk result (Votes (setting_of D.Disk moment store.old) vote (stand_of D.Disk self.old store.old) (stand_of D.Disk self.new store.new)) }
        ensures sound { IsSound (state_of self.new.session) }
        ensures refers { Refers (state_of self.new.session) (objects_of store.new.cat) }
        ensures capacity { capacity_of store.new.cat ≡ capacity_of store.old.cat }
        ensures era { PassesEras era.old era.new }
        ensures kept { KeepsFields self.old self.new }
        ensures serves { OnOk result (ServesShell D.Disk era.old self.old store.old → ServesShell D.Disk era.new self.new store.new) }
        ensures cut { IfErr result CutsCall }
    {
        match self.session.end_txn(store, era, vote) {
            Ok(copies) => Ok(Reply::Ended { copies }),
            Err(code) => told(code),
        }
    }
}
