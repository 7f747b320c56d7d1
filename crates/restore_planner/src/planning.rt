//! The plan of a restore to a position: of each space a chain, and the log files behind the chains.
ghost use Rattle.std.specs.Prelude.{◌≡◌, IfErr, IfOk, map};
ghost use Rattle.backup_lines.specs.Plans.{files_from, least_low, space_plans, spaces_without_level_0};
ghost use Rattle.backup_lines.specs.Views.{archive_of, line_of, span_view};
ghost use Rattle.backup_lines.specs.declared.objects.Lacking.TheVariants.{NoLevel0};
ghost use Rattle.restore_planner.specs.Planned.{Explains, IsPlan};
ghost use Rattle.restore_planner.specs.Views.{space_plan_of};

use crate::chains::{SpacePlan, has_level_0, plan_of_space};
use crate::gone::{gone_copies, live_archives};
use crate::live::{LivePositions, resets_of};
use crate::plans::{Plan, PlanFault};
use backup_lines::{Archive, FileSpan, Lacking, LackingList, Line};
use std::alloc::{AllocError, Global};

// The plans of the spaces that have a chain.
fn plan_spaces(
    alloc: Global,
    archives: &[Archive],
    live: &LivePositions,
    spaces: u16,
) -> Result<Vec<SpacePlan>, AllocError>
    ensures { IfOk result (λ plans. map space_plan_of plans.items
        ≡ space_plans (map archive_of archives.now) live.now.resets live.now.at spaces) }
{
    let mut plans = Vec::new(alloc);
    for space in 0..spaces {
        if let Some(plan) = plan_of_space(archives, live, space) {
            plans.push(plan)?;
        }
    }
    Ok(plans)
}

// What is lacking where spaces have no level 0.
fn lacking_spaces(
    alloc: Global,
    archives: &[Archive],
    live: &LivePositions,
    spaces: u16,
) -> Result<Vec<Lacking>, AllocError>
    ensures { IfOk result (λ lacking. lacking.items
        ≡ map NoLevel0 (spaces_without_level_0 (map archive_of archives.now) live.now.resets live.now.at spaces)) }
{
    let mut lacking = Vec::new(alloc);
    for space in 0..spaces {
        if !has_level_0(archives, live, space) {
            lacking.push(Lacking::NoLevel0 { space })?;
        }
    }
    Ok(lacking)
}

// The least low of the plans.
fn least_low(plans: &[SpacePlan]) -> Option<u64>
    ensures { result ≡ least_low (map space_plan_of plans.now) }
{
    let mut least = None;
    for plan in plans {
        least = Some(least.map_or(plan.low, |low: u64| low.min(plan.low)));
    }
    least
}

// The files with a position from `low` on that is live.
fn files_from(
    alloc: Global,
    live: &LivePositions,
    low: u64,
    spans: &[FileSpan],
) -> Result<Vec<FileSpan>, AllocError>
    ensures { IfOk result (λ files. map span_view files.items ≡ files_from live.now.resets live.now.at low (map span_view spans.now)) }
{
    let mut files = Vec::new(alloc);
    for span in spans {
        if live.has_of_file(span, low) {
            files.push(*span)?;
        }
    }
    Ok(files)
}

/// The plan of a restore of so many spaces to a position, by the boot file's lines and the spans of the log's files. It is refused
/// exactly where a space has no level 0 whose position is live there; each such space is named.
pub fn plan(
    alloc: Global,
    lines: &[Line],
    spans: &[FileSpan],
    spaces: u16,
    to: u64,
) -> Result<Plan, PlanFault>
    ensures plan { IfOk result (IsPlan (map line_of lines.now) (map span_view spans.now) spaces to) }
    ensures cause { IfErr result (Explains (map line_of lines.now) (map span_view spans.now) spaces to) }
{
    let gone = gone_copies(alloc, lines)?;
    let archives = live_archives(alloc, lines, &gone)?;
    let live = LivePositions::new(alloc, resets_of(alloc, spans)?, to)?;
    let lacking = lacking_spaces(alloc, &archives, &live, spaces)?;
    if !lacking.is_empty() {
        return Err(PlanFault::Lacking(LackingList::new(lacking)));
    }
    let plans = plan_spaces(alloc, &archives, &live, spaces)?;
    let logs = match least_low(&plans) {
        None => Vec::new(alloc),
        Some(low) => files_from(alloc, &live, low, spans)?,
    };
    Ok(Plan {
        to,
        spaces: plans,
        logs,
    })
}
