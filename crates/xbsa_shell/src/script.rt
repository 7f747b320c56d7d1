//! A script of calls, line by line.
ghost use Rattle.std.specs.Prelude.{◌≡◌, ◌⊎◌, ◌+◌, ◌*◌, ◌≤◌, ◌<◌, ◌^◌, ◌++◌, ℕ, List, [], Ok, Err, Some, None, true, false, IsTrue, IfOk, IfErr, OnOk};
ghost use Rattle.bsa_lines.specs.Lines.{bsa_line_of};
ghost use Rattle.catalogue_journal.specs.Catalogues.{capacity_of};
ghost use Rattle.object_store.specs.Endings.{PassesEras};
ghost use Rattle.onbar_grammar.specs.Script.{raw_lines};
ghost use Rattle.script_lines.specs.Cutting.{TakesFront};
ghost use Rattle.session_machine.specs.States.{none};
ghost use Rattle.site_disk.specs.Causes.{Rose};
ghost use Rattle.xbsa_shell.specs.Running.{status_in, EndsText, HasPrinted, Runs, TakesLine};
ghost use Rattle.xbsa_shell.specs.Serving.{first_stand, setting_of, stand_of, RunsText, Serves, ServesShell};
ghost use Rattle.xbsa_shell.specs.Statuses.{IsOfRun};

use crate::calls::Shell;
use crate::printing::print_reply;
use crate::statuses::status_of_line;
use bsa_lines::read_bsa_line;
use bsa_transcripts::Reply;
use object_store::Store;
use script_lines::Lines;
use site_disk::{Disk, Era, Sink, Source};
use site_model::Status;
use std::alloc::Global;

// Does what a line of the script says, the one of this number.
fn run_text<D: Disk>(
    shell: &mut Shell,
    store: &mut Store<D>,
    era: &mut Era,
    text: &[u8],
    line: u64,
    moment: u64,
) -> Result<Reply, Status>
    requires number { era.old.number < 2 ^ 63 + 2 ^ 62 }
    requires serves { ServesShell D.Disk era.old shell.old store.old }
    ensures runs { IfOk result (RunsText D.Disk moment (bsa_line_of text.now) era.new shell.old shell.new store.old store.new) }
    ensures cut { IfErr result (EndsText line (bsa_line_of text.now)) }
    ensures era { PassesEras era.old era.new }
{
    match read_bsa_line(text) {
        Ok(None) => Ok(Reply::Nothing),
        Ok(Some(call)) => shell.run_line(store, era, &call, moment),
        Err(why) => Err(Status::ScriptFault { line, why }),
    }
}

// Takes the next line of a script, does it and prints its answer; false at the script's end.
fn take_line<D: Disk, S: Source, K: Sink>(
    alloc: Global,
    lines: &mut Lines,
    shell: &mut Shell,
    store: &mut Store<D>,
    era: &mut Era,
    source: &mut S,
    out: &mut K,
    line: u64,
    moment: u64,
) -> Result<bool, Status>
    requires number { era.old.number < 2 ^ 63 + 2 ^ 62 }
    requires serves { ServesShell D.Disk era.old shell.old store.old }
    ensures takes { IsTrue S.is_modelled → HasPrinted K.is_modelled (TakesLine (setting_of D.Disk moment store.old) line lines.old.begun lines.new.begun
        (raw_lines (lines.old.held ++ S.left source.old)) (raw_lines (lines.new.held ++ S.left source.new)) (stand_of D.Disk shell.old store.old)
        (stand_of D.Disk shell.new store.new) result) (K.taken out.old) (K.taken out.new) }
    ensures serves { OnOk result (ServesShell D.Disk era.new shell.new store.new) }
    ensures capacity { OnOk result (capacity_of store.new.cat ≡ capacity_of store.old.cat) }
    ensures advances { result ≡ Ok true → lines.old.begun < lines.new.begun }
    ensures script_limit { lines.new.begun ≤ 16777216 }
    ensures at_end { IsTrue S.is_modelled → result ≡ Ok false → S.left source.new ≡ [] }
    ensures taken { IsTrue S.is_modelled → TakesFront (S.left source.old) (S.left source.new) }
    ensures answers { IfErr result IsOfRun }
    ensures era { PassesEras era.old era.new }
    ensures read_fault { result ≡ Err Status.ReadFault → Rose (S.faults source.old) (S.faults source.new) }
    ensures write_fault { result ≡ Err Status.WriteFault → Rose (K.faults out.old) (K.faults out.new) }
    ensures source_later { S.faults source.old ≤ S.faults source.new }
    ensures later { K.faults out.old ≤ K.faults out.new }
{
    match lines.next(source) {
        Ok(true) => {}
        Ok(false) => return Ok(false),
        Err(fault) => return Err(status_of_line(line, fault)),
    }
    let reply = run_text(shell, store, era, lines.line(), line, moment)?;
    print_reply(alloc, out, &reply)?;
    Ok(true)
}

/// Runs a script over an open store to its end. Each answer is printed before the next line is read.
pub(crate) fn run_script<D: Disk, S: Source, K: Sink>(
    alloc: Global,
    store: &mut Store<D>,
    era: &mut Era,
    source: &mut S,
    out: &mut K,
    moment: u64,
) -> Result<(), Status>
    requires number { era.old.number ≤ 2 ^ 63 + 8 }
    requires serves { Serves D.Disk era.old none store.old }
    ensures runs { IsTrue S.is_modelled → HasPrinted K.is_modelled (Runs (setting_of D.Disk moment store.old) (raw_lines (S.left source.old))
        (first_stand D.Disk store.old) (status_in result)) (K.taken out.old) (K.taken out.new) }
    ensures at_end { IsTrue S.is_modelled → OnOk result (S.left source.new ≡ []) }
    ensures taken { IsTrue S.is_modelled → TakesFront (S.left source.old) (S.left source.new) }
    ensures answers { IfErr result IsOfRun }
    ensures key { era.new.key ≡ era.old.key }
    ensures era_later { era.old.number ≤ era.new.number }
    ensures era { era.new.number ≤ era.old.number + 2 ^ 28 }
    ensures read_fault { result ≡ Err Status.ReadFault → Rose (S.faults source.old) (S.faults source.new) }
    ensures write_fault { result ≡ Err Status.WriteFault → Rose (K.faults out.old) (K.faults out.new) }
    ensures source_later { S.faults source.old ≤ S.faults source.new }
    ensures later { K.faults out.old ≤ K.faults out.new }
{
    let mut lines = Lines::new(alloc);
    let mut shell = Shell::new(alloc);
    let mut line = 1;
    'script: loop {
        match take_line(
            alloc, &mut lines, &mut shell, store, era, source, out, line, moment,
        ) {
            Ok(true) => line += 1,
            Ok(false) => break,
            Err(status) => return Err(status),
        }
    }
    shell.finish(store);
    Ok(())
}
