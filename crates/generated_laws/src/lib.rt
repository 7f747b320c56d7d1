//! Laws of the generated story: its moves may be made, one after another.
//!
//! Definitions and laws alone.
#![tactic(auto)]

mod laws;

pub use laws::the_generated_story_passes_fit_worlds;
