// What a command did is told.
ghost use Rattle.std.specs.Prelude.{◌≡◌, ◌⊎◌};
ghost use Rattle.site_disk.specs.Causes.{Rose};
ghost use Rattle.site_forms.specs.Reports.{status_told};
ghost use Rattle.onbar_command.specs.Told.{Tells};

use crate::report::told;
use command_texts::print_all;
use site_disk::{Failed, Sink};
use site_forms::Report;
use site_model::Status;
use std::alloc::{AllocError, Global};

/// Prints what a form did. The status is its own, or says what kept the text from being printed to its end.
pub fn tell<K: Sink>(alloc: Global, out: &mut K, done: Result<Report, Status>) -> Status
    ensures tells { Tells done K.is_modelled (K.taken out.old) (K.taken out.new) result }
    ensures cause { result ≡ Status.WriteFault → (status_told done ≡ Status.WriteFault) ⊎ Rose (K.faults out.old) (K.faults out.new) }
{
    let (text, status) = match told(alloc, done) {
        Ok(told) => told,
        Err(AllocError) => return Status::OutOfMemory,
    };
    match print_all(out, text.as_bytes()) {
        Ok(()) => status,
        Err(Failed) => Status::WriteFault,
    }
}
