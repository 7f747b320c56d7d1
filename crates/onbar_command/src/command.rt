// The command `onbar`.
ghost use Rattle.std.specs.Prelude.{◌≡◌, ◌⊎◌, ◌+◌, ◌-◌, ◌<◌, ◌≤◌, ◌^◌, ◌++◌, ℕ, Ok, Err, true, length, map, string_bytes, IsTrue};
ghost use Rattle.command_grammar.specs.Words.{Command, command_of};
ghost use Rattle.site_disk.specs.Causes.{Rose};
ghost use Rattle.site_model.specs.declared.disk_name.DiskName.{DiskName};
ghost use Rattle.site_model.specs.declared.status.Status.{Status as StatusView};
ghost use Rattle.site_model.specs.declared.status.Status.TheVariants.{Usage};
ghost use Rattle.site_model.specs.Texts.{status_text};
ghost use Rattle.site_layouts.specs.Layouts.{HeldWorld};
ghost use Rattle.site_core.specs.Disks.{contents_of, faults_on, images_of, MayUseAll};
ghost use Rattle.site_core.specs.Made.{IsMadeSite};
ghost use Rattle.site_core.specs.Quiet.{IsQuiet};
ghost use Rattle.site_commands.specs.Commands.{CutsShort, IsSound, PrintsFront, ReadsOf};
ghost use Rattle.site_commands.specs.Runs.{reads_script, run};
ghost use Rattle.site_openings.specs.Openings.{IsOfDisks, IsRefused, NamesAsWell, OpensFor};
ghost use Rattle.site_forms.specs.Starts.{IsKept, IsOfChunk, WritesWithin};
ghost use Rattle.onbar_command.specs.Answers.{IsMet, IsOfWork, IsUsage, PrintsRefusal, WordsMayMeet};
ghost use Rattle.onbar_command.specs.Commands.{Did, PassesFor, PrintedFor, PromisesFor, RestsFor, ShownFor};

use crate::form::run_words;
use crate::telling::tell;
use site_core::Site;
use site_disk::{Disk, Era, Sink, Source};
use site_model::Status;
use std::alloc::Global;
use std::thread::Threads;

/// Does what the words say at a moment, in seconds from 1970: `-init` formats a site, `-T` extends its log by the
/// transactions of a script, `-D` brings the lane of a space to the log's end and shows the space, or a page of it.
///
/// The text is printed once the work is done. Where the command is cut short it says nothing of what stands: the next one
/// finds it.
pub fn onbar<R: Threads + Sync, D: Disk + Send, S: Source, K: Sink>(
    _rt: &R,
    alloc: Global,
    words: &[String],
    site: &mut Site<D>,
    era: &mut Era,
    script: &mut S,
    out: &mut K,
    moment: u64,
) -> Status
    requires words { length words.now < 2 ^ 32 - 1 }
    requires may { MayUseAll D.Disk era.old site.old }
    requires made { IsMadeSite site.old }
    requires number { era.old.number ≤ 2 ^ 63 }
    requires moment { moment ≤ 253402300799 }

    // The disks may hold any bytes. Either a form is refused for them, with the one status that they give, but for the slot of a disk
    // that is too short, or they hold what it needs.
    ensures refused { IsTrue D.is_modelled → (status : StatusView) → IsRefused (map string_bytes words.now) (contents_of D.Disk site.old) status
        → CutsShort result ⊎ (NamesAsWell result status × (IsTrue K.is_modelled → K.taken out.new ≡ K.taken out.old ++ status_text result)) }
    // However a refused form ends, nothing is written, but where a chunk refuses it, its script is left alone, and nothing but a refusal is
    // printed. Before a chunk is refused, another one may have been put back in order.
    ensures harmless { IsTrue D.is_modelled → (status : StatusView) → IsRefused (map string_bytes words.now) (contents_of D.Disk site.old) status
        → (IsOfChunk status ⊎ IsQuiet D.Disk site.old site.new) × (script.new ≡ script.old)
        × (IsTrue K.is_modelled → PrintsRefusal (map string_bytes words.now) (contents_of D.Disk site.old) (K.taken out.old) (K.taken out.new)) }
    // Such a status comes only so, or where disks that show no fit site hold what the form asks for before its work, and in the midst of it
    // something else isn't in the grammar.
    ensures cause { IsTrue D.is_modelled → IsOfDisks result
        → IsRefused (map string_bytes words.now) (contents_of D.Disk site.old) result ⊎ IsMet (map string_bytes words.now) (contents_of D.Disk site.old) result }
    ensures untouched { IsOfDisks result → (IsOfChunk result ⊎ IsKept D.Disk site.old site.new) ⊎ WordsMayMeet (map string_bytes words.now) result }
    ensures opens { IsTrue D.is_modelled → CutsShort result
        ⊎ (IsUsage (map string_bytes words.now) result ⊎ (IsOfDisks result ⊎ OpensFor (map string_bytes words.now) (contents_of D.Disk site.old))) }

    // No other status comes: it is cut short, or refused at a word or for its disks, or its work is done.
    ensures answers { CutsShort result ⊎ (IsUsage (map string_bytes words.now) result ⊎ (IsOfDisks result ⊎ IsOfWork result)) }

    // For every fit world that the disks which the command uses show, whatever the others hold: wherever it is stopped, each choice of
    // crash images in which the others show that world too stands for a world of its run. Up to its second era no image is new.
    ensures stopped { let command = command_of (map string_bytes words.now) in IsTrue D.is_modelled → (reads_script command ≡ true → IsTrue S.is_modelled)
        → PassesFor D.Disk command era.old.number site.old site.new moment (S.left script.old) }
    // At any status but those that cut it short it did what its run says: status, text, disks, what a crash leaves, and how far
    // it read its script: at most 65,536 bytes beyond the line at which it ended.
    ensures whole { let command = command_of (map string_bytes words.now) in IsTrue D.is_modelled → (reads_script command ≡ true → IsTrue S.is_modelled)
        → (at : HeldWorld) → ShownFor D.Disk command site.old at → (CutsShort result → ⊥)
        → Did D.Disk command era.old.number site.old site.new moment (S.left script.old) at era.new.number result (S.left script.new) K.is_modelled (K.taken out.old) (K.taken out.new) }
    ensures cut { let command = command_of (map string_bytes words.now) in IsTrue D.is_modelled → (reads_script command ≡ true → IsTrue S.is_modelled) → IsTrue K.is_modelled
        → (at : HeldWorld) → ShownFor D.Disk command site.old at → CutsShort result
        → PrintedFor D.Disk command era.old.number site.old site.new moment (S.left script.old) at era.new.number (K.taken out.old) (K.taken out.new) }

    // Where each choice of crash images at entry stands for a fit world, each choice at exit does, in every era: so the next
    // command finds what this one needed.
    ensures sound { IsTrue D.is_modelled → (reads_script (command_of (map string_bytes words.now)) ≡ true → IsTrue S.is_modelled) → IsSound era.old.number (images_of D.Disk site.old)
        → (f : ℕ) → era.old.number ≤ f → IsSound f (images_of D.Disk site.new) }
    // And each stands for what was there at entry, or for a world that the command passes from one that its disks showed.
    ensures promised { let command = command_of (map string_bytes words.now) in IsTrue D.is_modelled → (reads_script command ≡ true → IsTrue S.is_modelled)
        → IsSound era.old.number (images_of D.Disk site.old) → PromisesFor D.Disk command era.old.number site.old site.new moment (S.left script.old) }

    // It leaves the disks alone that it doesn't use, and writes on no others than its form may.
    ensures rests { IsTrue D.is_modelled → RestsFor D.Disk (command_of (map string_bytes words.now)) era.old.number site.old site.new }
    ensures written { IsOfWork result → (command : Command) → command_of (map string_bytes words.now) ≡ Ok command → WritesWithin D.Disk command.form site.old site.new }
    ensures script { IsTrue S.is_modelled → ReadsOf (map string_bytes words.now) result (S.left script.old) (S.left script.new) }
    ensures usage { (n : ℕ) → command_of (map string_bytes words.now) ≡ Err n
        → (site.new ≡ site.old) × (script.new ≡ script.old)
        × (IsTrue K.is_modelled → PrintsFront (status_text (Usage n)) (K.taken out.old) (K.taken out.new))
        × ((result ≡ Status.Usage n) ⊎ ((result ≡ Status.OutOfMemory) ⊎ (result ≡ Status.WriteFault))) }
    ensures usage_text { IsTrue K.is_modelled → (n : ℕ) → result ≡ Status.Usage n → K.taken out.new ≡ K.taken out.old ++ status_text (Usage n) }

    // Where no device, source or sink failed, nothing but want of memory keeps it from what its run says.
    ensures complete { let command = command_of (map string_bytes words.now) in IsTrue D.is_modelled → (reads_script command ≡ true → IsTrue S.is_modelled)
        → (at : HeldWorld) → ShownFor D.Disk command site.old at
        → (Rose (S.faults script.old) (S.faults script.new) → ⊥) → (Rose (K.faults out.old) (K.faults out.new) → ⊥)
        → ((name : DiskName) → Rose (faults_on D.Disk site.old name) (faults_on D.Disk site.new name) → ⊥)
        → (result ≡ (run (map string_bytes words.now) moment (S.left script.old) at.world).status) ⊎ (result ≡ Status.OutOfMemory) }

    ensures read_fault { result ≡ Status.ReadFault → Rose (S.faults script.old) (S.faults script.new) }
    ensures write_fault { result ≡ Status.WriteFault → Rose (K.faults out.old) (K.faults out.new) }
    ensures disk_fault { (name : DiskName) → result ≡ Status.DiskFault name → Rose (faults_on D.Disk site.old name) (faults_on D.Disk site.new name) }

    ensures era { era.new.number ≤ era.old.number + 2 ^ 40 }
    ensures era_later { era.old.number < era.new.number }
    ensures key { era.new.key ≡ era.old.key }
    ensures may { MayUseAll D.Disk era.new site.new }
{
    let done = run_words(alloc, words, site, era, script, moment);
    era.next();
    tell(alloc, out, done)
}
