//! The top call.
ghost use Rattle.std.specs.Prelude.{◌≡◌, ◌⊎◌, ◌+◌, ◌≤◌, ◌<◌, ◌^◌, ◌++◌, ℕ, [], length, IsTrue, IfErr, OnOk, MatchResult, Ok, Err};
ghost use Rattle.catalogue_replay.specs.Contents.{Contents};
ghost use Rattle.onbar_grammar.specs.Script.{raw_lines};
ghost use Rattle.script_lines.specs.Cutting.{TakesFront};
ghost use Rattle.session_machine.specs.States.{none};
ghost use Rattle.site_disk.specs.Causes.{Rose};
ghost use Rattle.site_headers.specs.Heads.{Head};
ghost use Rattle.site_model.specs.Texts.{status_text};
ghost use Rattle.store_opening.specs.Disks.{IsMadeStore, MayUseStore};
ghost use Rattle.store_opening.specs.Faults.{IsFailure, IsRefusal, NamesAsWell};
ghost use Rattle.xbsa_shell.specs.Opened.{opening_setting, opening_stand, HasOpened, IsRefusedAs, RefusedBy, SaysWhy, Shows};
ghost use Rattle.xbsa_shell.specs.Printing.{PrintsFront};
ghost use Rattle.xbsa_shell.specs.Running.{status_in, EndsShell, HasPrinted, Runs};
ghost use Rattle.xbsa_shell.specs.Serving.{Serves};
ghost use Rattle.xbsa_shell.specs.Statuses.{status_of_store, CutsShort, EndsEarly, IsOfDisks};

use crate::printing::print_last;
use crate::script::run_script;
use crate::statuses::status_of_store;
use object_store::Store;
use site_disk::{Disk, Era, Sink, Source};
use site_model::Status;
use std::alloc::Global;
use store_opening::{StoreFault, open_store, sync_store};

// Opens the store, after a sync of its disks in an earlier era.
fn enter<D: Disk>(alloc: Global, store: &mut Store<D>, era: &mut Era) -> Result<(), StoreFault>
    requires may { MayUseStore D.ledger era.old store.old }
    requires made { IsMadeStore store.old }
    requires number { era.old.number ≤ 2 ^ 63 }
    ensures serves { OnOk result (Serves D.Disk era.new none store.new) }
    ensures shown { IsTrue D.is_modelled → (head : Head) (contents : Contents) (taken : ℕ) → Shows D.Disk store.old head contents taken
        → MatchResult result (λ _. HasOpened D.Disk contents taken store.old store.new) IsFailure }
    ensures refused { IsTrue D.is_modelled → IfErr result (RefusedBy D.Disk store.old) }
    ensures refuses { IsTrue D.is_modelled → (fault : StoreFault) → IsRefusal fault → RefusedBy D.Disk store.old fault
        → MatchResult result (λ _. ⊥) (λ found. IsRefusal found → NamesAsWell found fault) }
    ensures key { era.new.key ≡ era.old.key }
    ensures era { era.new.number ≤ era.old.number + 1 }
    ensures era_later { era.old.number ≤ era.new.number }
{
    sync_store(store, era)?;
    era.next();
    open_store(alloc, store, era)?;
    Ok(())
}

// Runs a script over a store of which nothing is opened yet.
fn run<D: Disk, S: Source, K: Sink>(
    alloc: Global,
    words: &[String],
    store: &mut Store<D>,
    era: &mut Era,
    script: &mut S,
    out: &mut K,
    moment: u64,
) -> Result<(), Status>
    requires may { MayUseStore D.ledger era.old store.old }
    requires made { IsMadeStore store.old }
    requires number { era.old.number ≤ 2 ^ 63 }
    ensures runs { length words.now ≡ 0 → IsTrue D.is_modelled → IsTrue S.is_modelled → (head : Head) (contents : Contents) (taken : ℕ)
        → Shows D.Disk store.old head contents taken → HasPrinted K.is_modelled (Runs (opening_setting D.Disk store.old moment) (raw_lines (S.left script.old))
        (opening_stand D.Disk store.old contents taken) (status_in result)) (K.taken out.old) (K.taken out.new) }
    ensures refuses { length words.now ≡ 0 → IsTrue D.is_modelled → (fault : StoreFault) → IsRefusal fault → RefusedBy D.Disk store.old fault
        → MatchResult result (λ _. ⊥) (IsRefusedAs fault) × (script.new ≡ script.old) × (out.new ≡ out.old) }
    ensures cause { IsTrue D.is_modelled → IfErr result (λ status. IsOfDisks status → SaysWhy D.Disk store.old status) }
    ensures usage { 0 < length words.now → (result ≡ Err (Status.Usage 1)) × (store.new ≡ store.old) × (script.new ≡ script.old) × (out.new ≡ out.old) }
    ensures usage_only { (n : ℕ) → result ≡ Err (Status.Usage n) → (n ≡ 1) × (0 < length words.now) }
    ensures answers { IfErr result EndsEarly }
    ensures quiet { IfErr result (λ status. IsOfDisks status → out.new ≡ out.old) }
    ensures at_end { IsTrue S.is_modelled → OnOk result (S.left script.new ≡ []) }
    ensures taken { IsTrue S.is_modelled → TakesFront (S.left script.old) (S.left script.new) }
    ensures read_fault { result ≡ Err Status.ReadFault → Rose (S.faults script.old) (S.faults script.new) }
    ensures write_fault { result ≡ Err Status.WriteFault → Rose (K.faults out.old) (K.faults out.new) }
    ensures source_later { S.faults script.old ≤ S.faults script.new }
    ensures later { K.faults out.old ≤ K.faults out.new }
    ensures key { era.new.key ≡ era.old.key }
    ensures era { era.new.number ≤ era.old.number + 2 ^ 29 }
    ensures era_later { era.old.number ≤ era.new.number }
{
    if !words.is_empty() {
        return Err(Status::Usage(1));
    }
    match enter(alloc, store, era) {
        Ok(()) => run_script(alloc, store, era, script, out, moment),
        Err(fault) => Err(status_of_store(fault)),
    }
}

fn status_of(done: Result<(), Status>) -> Status
    ensures { result ≡ status_in done }
{
    match done {
        Ok(()) => Status::Ok,
        Err(status) => status,
    }
}

/// Runs a script of XBSA calls over a store of which nothing is opened yet, and prints each answer. No word may stand behind
/// the program's name.
pub fn xbsa_shell<D: Disk, S: Source, K: Sink>(
    alloc: Global,
    words: &[String],
    store: &mut Store<D>,
    era: &mut Era,
    script: &mut S,
    out: &mut K,
    moment: u64,
) -> Status
    requires may { MayUseStore D.ledger era.old store.old }
    requires made { IsMadeStore store.old }
    requires number { era.old.number ≤ 2 ^ 63 }

    // Over disks that show a store the script is run up to its end, or to its first line that is at fault: what is printed is its
    // transcript over that store, and the line of the status. Cut short, the shell has printed a front of that.
    ensures runs { length words.now ≡ 0 → IsTrue D.is_modelled → IsTrue S.is_modelled → (head : Head) (contents : Contents) (taken : ℕ)
        → Shows D.Disk store.old head contents taken → HasPrinted K.is_modelled (EndsShell (opening_setting D.Disk store.old moment) (raw_lines (S.left script.old))
        (opening_stand D.Disk store.old contents taken) result) (K.taken out.old) (K.taken out.new) }
    ensures at_end { IsTrue S.is_modelled → result ≡ Status.Ok → S.left script.new ≡ [] }
    ensures taken { IsTrue S.is_modelled → TakesFront (S.left script.old) (S.left script.new) }

    // Where the disks show none, it is said why, but for the slot of a disk that is too short, and the script is left alone.
    ensures refuses { length words.now ≡ 0 → IsTrue D.is_modelled → (fault : StoreFault) → IsRefusal fault → RefusedBy D.Disk store.old fault
        → (CutsShort result ⊎ IsRefusedAs fault result) × (script.new ≡ script.old) }
    ensures cause { IsTrue D.is_modelled → IsOfDisks result → SaysWhy D.Disk store.old result }
    ensures refusal_text { IsTrue K.is_modelled → IsOfDisks result → K.taken out.new ≡ K.taken out.old ++ status_text result }

    // A word is refused before a disk is used.
    ensures usage { 0 < length words.now → (store.new ≡ store.old) × (script.new ≡ script.old)
        × (IsTrue K.is_modelled → PrintsFront (status_text (Status.Usage 1)) (K.taken out.old) (K.taken out.new))
        × ((result ≡ Status.Usage 1) ⊎ ((result ≡ Status.OutOfMemory) ⊎ (result ≡ Status.WriteFault))) }
    ensures usage_only { (n : ℕ) → result ≡ Status.Usage n → (n ≡ 1) × (0 < length words.now) }

    // No other status comes.
    ensures answers { (result ≡ Status.Ok) ⊎ EndsEarly result }
    ensures read_fault { result ≡ Status.ReadFault → Rose (S.faults script.old) (S.faults script.new) }
    ensures write_fault { result ≡ Status.WriteFault → Rose (K.faults out.old) (K.faults out.new) }

    ensures key { era.new.key ≡ era.old.key }
    ensures era { era.new.number ≤ era.old.number + 2 ^ 40 }
    ensures era_later { era.old.number < era.new.number }
{
    let done = run(alloc, words, store, era, script, out, moment);
    era.next();
    let status = status_of(done);
    match print_last(alloc, out, &status) {
        Ok(()) => status,
        Err(cut) => cut,
    }
}
