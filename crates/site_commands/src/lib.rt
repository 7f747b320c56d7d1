//! The commands of `onbar` over a whole site, as definitions: what each makes of a world, and what is promised of it wherever
//! it is stopped.
#![tactic(auto)]

mod laws;

pub use laws::commands_pass_fit_worlds;
