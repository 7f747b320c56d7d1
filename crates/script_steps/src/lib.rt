//! The lines of a script of transactions, one after another, collected into batches of 1 to 32 records.
//!
//! A line is taken behind a log of so many records: it is empty, or its record joins the batch, which it may end, or it is
//! refused. Where a line is refused nothing else of what is collected has changed.
#![tactic(auto)]

mod collecting;
mod script;

pub use collecting::{Collected, Taken};
pub use script::{Progress, Step, take_next_line};
