//! A step of a lane: pages of a chunk brought further by changes, so that in every image the chunk shows a place on its way.
//!
//! What a step takes is chosen of the changes that are left. Its pages are saved for the place before it, written and synced, and
//! then the mark is stored: a chunk that rests at that place rests at the one behind the step at Ok, and a stop leaves one of
//! the two. Whatever it shows, nothing is written but the mark, what is kept, and pages that the space has.
#![tactic(auto)]

mod choosing;
mod laws;
mod laying;
mod placing;
mod stepping;
mod writing;

pub use choosing::{Chosen, STEP_PAGES, choose, is_own};
pub use laws::{
    a_chosen_step_leads_along_the_way, other_changes_change_nothing, within_the_space_all_are_own,
};
pub use placing::Run;
pub use stepping::{move_place, step};

#[cfg(test)]
mod tests;
