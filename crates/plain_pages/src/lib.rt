//! The pages of a history, computed the plain and slow way.
//!
//! The contract of `page_of_log` is the definition itself, so that any faster way can be compared with it. It takes no memory.
#![tactic(auto)]

mod live;
mod page;
mod replay;
#[cfg(test)]
mod tests;

pub use live::{is_live, is_open};
pub use page::Page;
pub use replay::page_of_log;
