// Printing a whole text to a sink that takes pieces.
ghost use Rattle.std.specs.Prelude.{◌≡◌, ℕ, ◌≤◌, ◌++◌, List, length, take, IsTrue, OnOk, OnErr};
ghost use Rattle.site_disk.specs.Causes.{HasCause};
ghost use Rattle.command_texts.specs.Printing.{TakesFront};

use site_disk::{Failed, Sink};

/// Writes a text to its end. `Failed` leaves a front of it taken, and not the whole.
pub fn print_all<K: Sink>(out: &mut K, text: &[u8]) -> Result<(), Failed>
    ensures whole { IsTrue K.is_modelled → OnOk result (K.taken out.new ≡ K.taken out.old ++ text.now) }
    ensures front { IsTrue K.is_modelled → OnErr result (TakesFront (K.taken out.old) (K.taken out.new) text.now) }
    ensures cause { HasCause (K.faults out.old) (K.faults out.new) result }
{
    let mut at = 0;
    while at < text.len() {
        at += out.write(&text[at..])?;
    }
    Ok(())
}
