//! One line of a script after another.
ghost use Rattle.std.specs.Prelude.{◌≡◌, ◌+◌, ◌<◌, ◌≤◌, ◌^◌, [], ◌++◌, List, length, IsTrue};
ghost use Rattle.std.specs.List.{AllByRecursion};
ghost use Rattle.script_lines.specs.Cutting.{TakesFront};
ghost use Rattle.site_headers.specs.Views.{spaces_of};
ghost use Rattle.site_disk.specs.Causes.{Rose};
ghost use Rattle.site_headers.specs.Heads.{IsSpace};
ghost use Rattle.script_steps.specs.Collecting.{IsBounded};
ghost use Rattle.script_steps.specs.Steps.{StepsTo, limit_behind, Advances};

use crate::collecting::{Collected, Taken};
use onbar_grammar::Why;
use script_lines::{LineFault, Lines};
use site_disk::Source;
use site_headers::SpaceHead;

/// How far a script has been taken.
#[derive(Drop)]
pub struct Progress {
    pub lines: Lines,
    /// The number of the present line, from 1; 0 before the first.
    pub line: u64,
    pub collected: Collected,
}

/// What the next line of a script comes to.
#[derive(Clone, Copy, Debug, PartialEq, Eq)]
pub enum Step {
    /// The batch goes on.
    More,
    /// The batch is whole.
    Whole,
    /// The script has ended.
    End,
    /// The line is refused.
    Fault { why: Why },
    ReadFault,
    OutOfMemory,
}

/// Takes the next line, behind a log of `end` records.
pub fn take_next_line<S: Source>(
    progress: &mut Progress,
    source: &mut S,
    spaces: &[SpaceHead],
    end: u64,
    moment: u64,
) -> Step
    requires few { length spaces.now ≤ 16 }
    requires spaces { AllByRecursion IsSpace (spaces_of spaces.now) }
    requires end { end ≤ 2 ^ 48 }
    requires moment { moment ≤ 2 ^ 48 }
    requires bounded { IsBounded 31 progress.old.collected }
    requires line { progress.old.line ≤ progress.old.lines.begun }

    ensures steps { IsTrue S.is_modelled
        → StepsTo (spaces_of spaces.now) moment end (progress.old.lines.held ++ S.left source.old) (progress.new.lines.held ++ S.left source.new)
        progress.old progress.new result }
    ensures at_end { IsTrue S.is_modelled → result ≡ Step.End → S.left source.new ≡ [] }
    ensures bounded { IsBounded (limit_behind result) progress.new.collected }
    ensures some { result ≡ Step.Whole → 0 < length progress.new.collected.batch.items }
    ensures advances { Advances progress.old progress.new result }
    ensures script_limit { progress.new.lines.begun ≤ 16777216 }
    ensures ahead { length progress.new.lines.held ≤ 65536 }
    ensures taken { IsTrue S.is_modelled → TakesFront (S.left source.old) (S.left source.new) }
    ensures failed { result ≡ Step.ReadFault → Rose (S.faults source.old) (S.faults source.new) }
    ensures later { S.faults source.old ≤ S.faults source.new }
{
    match progress.lines.next(source) {
        Ok(true) => progress.line += 1,
        Ok(false) => return Step::End,
        Err(LineFault::Failed) => return Step::ReadFault,
        Err(LineFault::OutOfMemory) => return Step::OutOfMemory,
        Err(LineFault::TooLong) => {
            progress.line += 1;
            return Step::Fault { why: Why::TooLong };
        }
        Err(LineFault::ScriptTooLong) => {
            progress.line += 1;
            return Step::Fault {
                why: Why::ScriptTooLong,
            };
        }
    }
    match progress
        .collected
        .take_line(progress.lines.line(), spaces, end, moment)
    {
        Ok(Taken::Nothing | Taken::Joined) => Step::More,
        Ok(Taken::Whole) => Step::Whole,
        Err(Why::OutOfMemory) => Step::OutOfMemory,
        Err(why) => Step::Fault { why },
    }
}
