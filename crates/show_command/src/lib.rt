//! The form `-D` of a command over a whole site: a space, or a page of it, is shown as it is at the end of the log.
//!
//! What the disks hold decides first, and of the chunks that of the space alone. Its lane is brought to the end of the log, and then its
//! pages are read from it. Wherever the form is stopped it has passed worlds of its run alone, and at its end it has done that run, unless
//! it was cut short.
#![tactic(auto)]

mod advancing;
mod opening;
mod shows;
mod texts;

pub use shows::show_space;
