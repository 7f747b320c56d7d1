// The forms of a command over a site.
ghost use Rattle.std.specs.Prelude.{◌≡◌, ◌⊎◌, ◌+◌, ◌-◌, ◌<◌, ◌≤◌, ◌^◌, ℕ, [], true, false, Ok, Err, length, map, string_bytes, IsTrue, OnOk, IfOk, IfErr, IsErrOf};
ghost use Rattle.command_grammar.specs.Words.{Command, command_of};
ghost use Rattle.onbar_words.specs.Order.{form_in, FitsASite};
ghost use Rattle.script_lines.specs.Cutting.{TakesFront};
ghost use Rattle.site_disk.specs.Causes.{Rose};
ghost use Rattle.site_model.specs.declared.disk_name.DiskName.{DiskName};
ghost use Rattle.site_model.specs.declared.status.Status.{Status as StatusView};
ghost use Rattle.site_layouts.specs.Layouts.{HeldWorld};
ghost use Rattle.site_core.specs.Disks.{contents_of, faults_on, images_of, MayUseAll};
ghost use Rattle.site_core.specs.Made.{IsMadeSite};
ghost use Rattle.site_core.specs.Quiet.{IsQuiet};
ghost use Rattle.site_commands.specs.Commands.{CutsShort, IsSound};
ghost use Rattle.site_commands.specs.Runs.{reads_script};
ghost use Rattle.site_openings.specs.Openings.{IsOfDisks, IsRefused, OpensFor};
ghost use Rattle.site_forms.specs.Forms.{IsNoStop};
ghost use Rattle.site_forms.specs.Reports.{status_told};
ghost use Rattle.site_forms.specs.Starts.{IsKept, IsOfChunk, WritesWithin};
ghost use Rattle.onbar_command.specs.Answers.{IsMet, IsUsage, WordsMayMeet};
ghost use Rattle.onbar_command.specs.Commands.{ComesTo, PassesFor, PromisesFor, RestsFor, ShownFor};
ghost use Rattle.onbar_command.specs.Forms.{FormDoes};

use init_command::init_site;
use onbar_words::{Form, WordFault, read_words};
use show_command::show_space;
use site_core::Site;
use site_disk::{Disk, Era, Source};
use site_forms::Report;
use site_model::Status;
use std::alloc::Global;
use transactions_command::run_transactions;

/// Does what a form asks for.
fn run_form<D: Disk, S: Source>(
    alloc: Global,
    form: Form,
    site: &mut Site<D>,
    era: &mut Era,
    source: &mut S,
    moment: u64,
) -> Result<Report, Status>
    requires may { MayUseAll D.Disk era.old site.old }
    requires made { IsMadeSite site.old }
    requires number { era.old.number ≤ 2 ^ 63 }
    requires moment { moment ≤ 2 ^ 48 }
    requires fits { FitsASite form }

    ensures does { FormDoes D.Disk S.Source (form_in form) era.old era.new site.old site.new source.old source.new moment result }
{
    match form {
        Form::Init { blocks, spaces } => init_site(alloc, site, era, blocks, spaces, moment),
        Form::Transactions => run_transactions(alloc, site, era, source, moment),
        Form::Show { space, page } => show_space(alloc, site, era, space, page),
    }
}

/// Does what the words say. A refused word is a refusal before any work.
pub fn run_words<D: Disk, S: Source>(
    alloc: Global,
    words: &[String],
    site: &mut Site<D>,
    era: &mut Era,
    source: &mut S,
    moment: u64,
) -> Result<Report, Status>
    requires words { length words.now < 2 ^ 32 - 1 }
    requires may { MayUseAll D.Disk era.old site.old }
    requires made { IsMadeSite site.old }
    requires number { era.old.number ≤ 2 ^ 63 }
    requires moment { moment ≤ 2 ^ 48 }

    ensures usage { (n : ℕ) → command_of (map string_bytes words.now) ≡ Err n
        → ((IsErrOf result (Status.Usage n)) ⊎ (IsErrOf result Status.OutOfMemory)) × (site.new ≡ site.old) × (source.new ≡ source.old) }
    ensures refused { IsTrue D.is_modelled → IfErr result (λ status. CutsShort status
        ⊎ (IsUsage (map string_bytes words.now) status
        ⊎ (IsRefused (map string_bytes words.now) (contents_of D.Disk site.old) status ⊎ IsMet (map string_bytes words.now) (contents_of D.Disk site.old) status))) }
    ensures opens { IsTrue D.is_modelled → OnOk result (OpensFor (map string_bytes words.now) (contents_of D.Disk site.old)) }
    ensures kept { IfErr result (λ status. CutsShort status
        ⊎ ((IsOfChunk status ⊎ IsKept D.Disk site.old site.new) ⊎ WordsMayMeet (map string_bytes words.now) status)) }
    ensures harmless { IsTrue D.is_modelled → (status : StatusView) → IsRefused (map string_bytes words.now) (contents_of D.Disk site.old) status
        → (IsOfChunk status ⊎ IsQuiet D.Disk site.old site.new) × (source.new ≡ source.old) }

    ensures passes { IsTrue D.is_modelled → (reads_script (command_of (map string_bytes words.now)) ≡ true → IsTrue S.is_modelled)
        → PassesFor D.Disk (command_of (map string_bytes words.now)) era.old.number site.old site.new moment (S.left source.old) }
    ensures finishes { IsTrue D.is_modelled → (reads_script (command_of (map string_bytes words.now)) ≡ true → IsTrue S.is_modelled)
        → (at : HeldWorld) → ShownFor D.Disk (command_of (map string_bytes words.now)) site.old at
        → ComesTo D.Disk (command_of (map string_bytes words.now)) era.old.number site.old site.new moment (S.left source.old) at (era.new.number + 1) result (S.left source.new) }
    ensures rests { IsTrue D.is_modelled → RestsFor D.Disk (command_of (map string_bytes words.now)) era.old.number site.old site.new }
    ensures promised { IsTrue D.is_modelled → (reads_script (command_of (map string_bytes words.now)) ≡ true → IsTrue S.is_modelled) → IsSound era.old.number (images_of D.Disk site.old)
        → PromisesFor D.Disk (command_of (map string_bytes words.now)) era.old.number site.old site.new moment (S.left source.old) }
    ensures sound { IsTrue D.is_modelled → (reads_script (command_of (map string_bytes words.now)) ≡ true → IsTrue S.is_modelled) → IsSound era.old.number (images_of D.Disk site.old)
        → (f : ℕ) → era.old.number ≤ f → IsSound f (images_of D.Disk site.new) }

    ensures answered { IfErr result (λ status. CutsShort status ⊎ (IsUsage (map string_bytes words.now) status ⊎ IsOfDisks status)) }
    ensures no_stop { IfOk result IsNoStop }
    ensures read_fault { IsErrOf result Status.ReadFault → Rose (S.faults source.old) (S.faults source.new) }
    ensures no_write_fault { IsErrOf result Status.WriteFault → ⊥ }
    ensures disk_fault { (name : DiskName) → IsErrOf result (Status.DiskFault name) → Rose (faults_on D.Disk site.old name) (faults_on D.Disk site.new name) }

    ensures written { (command : Command) → command_of (map string_bytes words.now) ≡ Ok command → OnOk result (WritesWithin D.Disk command.form site.old site.new) }
    ensures unread { reads_script (command_of (map string_bytes words.now)) ≡ false → source.new ≡ source.old }
    ensures taken { IsTrue S.is_modelled → TakesFront (S.left source.old) (S.left source.new) }
    ensures to_end { IsTrue S.is_modelled → reads_script (command_of (map string_bytes words.now)) ≡ true
        → IfOk result (λ report. status_told (Ok report) ≡ Status.Ok → S.left source.new ≡ []) }
    ensures source_later { S.faults source.old ≤ S.faults source.new }
    ensures era { era.new.number ≤ era.old.number + 2 ^ 32 }
    ensures era_later { era.old.number ≤ era.new.number }
    ensures key { era.new.key ≡ era.old.key }
    ensures may { MayUseAll D.Disk era.new site.new }
{
    match read_words(alloc, words) {
        Ok(order) => run_form(alloc, order.form, site, era, source, moment),
        Err(WordFault::At(word)) => Err(Status::Usage(word)),
        Err(WordFault::OutOfMemory) => Err(Status::OutOfMemory),
    }
}
