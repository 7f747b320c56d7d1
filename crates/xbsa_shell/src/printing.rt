//! Texts printed to a sink that takes pieces.
ghost use Rattle.std.specs.Prelude.{◌≡◌, ◌⊎◌, ◌≤◌, ◌++◌, IsTrue, IfErr, OnOk, OnErr, IsErrOf};
ghost use Rattle.site_disk.specs.Causes.{Rose};
ghost use Rattle.site_model.specs.Texts.{status_text};
ghost use Rattle.bsa_transcripts.specs.Texts.{reply_text};
ghost use Rattle.xbsa_shell.specs.Printing.{PrintsFront};

use bsa_transcripts::{Reply, reply_text};
use command_texts::{print_all, status_line};
use site_disk::{Failed, Sink};
use site_model::Status;
use std::alloc::Global;

// Prints a text.
fn print_text<K: Sink>(out: &mut K, text: &[u8]) -> Result<(), Status>
    ensures whole { IsTrue K.is_modelled → OnOk result (K.taken out.new ≡ K.taken out.old ++ text.now) }
    ensures front { IsTrue K.is_modelled → OnErr result (PrintsFront text.now (K.taken out.old) (K.taken out.new)) }
    ensures cut { IfErr result (λ status. status ≡ Status.WriteFault) }
    ensures cause { OnErr result (Rose (K.faults out.old) (K.faults out.new)) }
    ensures later { K.faults out.old ≤ K.faults out.new }
{
    match print_all(out, text) {
        Ok(()) => Ok(()),
        Err(Failed) => Err(Status::WriteFault),
    }
}

/// Prints an answer.
pub(crate) fn print_reply<K: Sink>(alloc: Global, out: &mut K, reply: &Reply) -> Result<(), Status>
    ensures whole { IsTrue K.is_modelled → OnOk result (K.taken out.new ≡ K.taken out.old ++ reply_text reply.now) }
    ensures front { IsTrue K.is_modelled → OnErr result (PrintsFront (reply_text reply.now) (K.taken out.old) (K.taken out.new)) }
    ensures cut { IfErr result (λ status. (status ≡ Status.OutOfMemory) ⊎ (status ≡ Status.WriteFault)) }
    ensures cause { IsErrOf result Status.WriteFault → Rose (K.faults out.old) (K.faults out.new) }
    ensures later { K.faults out.old ≤ K.faults out.new }
{
    let Ok(text) = reply_text(alloc, reply) else {
        return Err(Status::OutOfMemory);
    };
    print_text(out, text.as_bytes())
}

/// Prints the last line of a shell.
pub(crate) fn print_last<K: Sink>(alloc: Global, out: &mut K, status: &Status) -> Result<(), Status>
    ensures whole { IsTrue K.is_modelled → OnOk result (K.taken out.new ≡ K.taken out.old ++ status_text status.now) }
    ensures front { IsTrue K.is_modelled → OnErr result (PrintsFront (status_text status.now) (K.taken out.old) (K.taken out.new)) }
    ensures cut { IfErr result (λ cut. (cut ≡ Status.OutOfMemory) ⊎ (cut ≡ Status.WriteFault)) }
    ensures cause { IsErrOf result Status.WriteFault → Rose (K.faults out.old) (K.faults out.new) }
    ensures later { K.faults out.old ≤ K.faults out.new }
{
    let Ok(text) = status_line(alloc, status) else {
        return Err(Status::OutOfMemory);
    };
    print_text(out, text.as_bytes())
}
