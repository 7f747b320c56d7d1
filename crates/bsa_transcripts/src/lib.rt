//! What a script of XBSA calls does, line by line, and what it prints.
//!
//! The descriptor that a script sets is kept field by field, and its record spelled on demand. Each call's answer is printed
//! as one text. What a line does to the descriptor, the session and the catalogue is a relation over the session machine.
#![tactic(auto)]

mod fields;
mod replies;
#[cfg(test)]
mod tests;
mod words;

pub use fields::Fields;
pub use replies::{Reply, reply_text};
