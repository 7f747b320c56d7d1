//! The lines of a script of XBSA calls.
//!
//! `read_bsa_line` accepts exactly the table of lines, without memory.
#![tactic(auto)]

mod lines;
mod numbers;
mod operands;
mod settings;
#[cfg(test)]
mod tests;

pub use lines::{BsaLine, read_bsa_line};
pub use settings::TextField;
