//! The objects that a restore needs.
ghost use Rattle.std.specs.Prelude.{◌≡◌, ◌++◌, ◌&&◌, ◌==◌, OnOk, IfOk, drop, map, nat_eq};
ghost use Rattle.std.specs.Cmp.Lexicographic.{pointwise};
ghost use Rattle.backup_lines.specs.Plans.{archives_needed, images_done, logs_needed, objects_needed, state_of};
ghost use Rattle.backup_lines.specs.Views.{copies_of, span_view};
ghost use Rattle.restore_planner.specs.Views.{space_plan_of};

use crate::plans::Plan;
use backup_lines::{Chain, FileSpan, LaneState, Need, What};
use std::alloc::{AllocError, Global};

// Whether a lane's mark is of this restore and this chain.
fn is_on(restore: u64, chain: &Chain, other: u64, marked: &Chain) -> bool
    ensures { result ≡ ((other == restore) && pointwise nat_eq (copies_of marked.now) (copies_of chain.now)) }
{
    other == restore && marked.as_slice() == chain.as_slice()
}

// How many images of a chain a lane marks done.
fn images_done(restore: u64, chain: &Chain, state: Option<LaneState>) -> usize
    ensures { result ≡ images_done restore (copies_of chain.now) state }
{
    match state {
        Some(
            LaneState::Image {
                restore: other,
                chain: marked,
                image,
                ..
            },
        ) if is_on(restore, chain, other, &marked) => { usize::from(image) }
        Some(
            LaneState::Replay {
                restore: other,
                chain: marked,
                ..
            },
        ) if is_on(restore, chain, other, &marked) => { chain.as_slice().len() }
        _ => 0,
    }
}

// Adds the archives of a chain behind those that are done.
fn push_archives(
    needs: &mut Vec<Need>,
    space: u16,
    chain: &Chain,
    done: usize,
) -> Result<(), AllocError>
    ensures { OnOk result (needs.new.items ≡ needs.old.items ++ archives_needed space done (drop done (copies_of chain.now))) }
{
    let copies = chain.as_slice();
    for level in done..copies.len() {
        needs.push(Need {
            what: What::Archive {
                space,
                level: level as u8,
            },
            copy: copies[level],
        })?;
    }
    Ok(())
}

// Adds the log files that have a copy.
fn push_logs(needs: &mut Vec<Need>, logs: &[FileSpan]) -> Result<(), AllocError>
    ensures { OnOk result (needs.new.items ≡ needs.old.items ++ logs_needed (map span_view logs.now)) }
{
    for span in logs {
        if span.copy != 0 {
            needs.push(Need {
                what: What::Log { file: span.file },
                copy: span.copy,
            })?;
        }
    }
    Ok(())
}

// The state of the lane of a space; past the end of the list it is lost.
fn state_of(states: &[Option<LaneState>], space: u16) -> Option<LaneState>
    ensures { result ≡ state_of states.now space }
{
    match states.get(usize::from(space)) {
        Some(Some(state)) => Some(*state),
        _ => None,
    }
}

/// The objects that a restore of this number needs: of each space the archives of its chain that its lane doesn't mark done under
/// this restore and this chain, in order of level, then the log files that have a copy. The state of a space's lane stands at the
/// space's place; it is `None` where the lane is lost.
pub fn needed(
    alloc: Global,
    plan: &Plan,
    restore: u64,
    states: &[Option<LaneState>],
) -> Result<Vec<Need>, AllocError>
    ensures { IfOk result (λ needs. needs.items
        ≡ objects_needed restore states.now (map space_plan_of plan.now.spaces.items) (map span_view plan.now.logs.items)) }
{
    let mut needs = Vec::new(alloc);
    for space in &plan.spaces {
        let done = images_done(restore, &space.chain, state_of(states, space.space));
        push_archives(&mut needs, space.space, &space.chain, done)?;
    }
    push_logs(&mut needs, &plan.logs)?;
    Ok(needs)
}
