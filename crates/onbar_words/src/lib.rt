//! The words of `onbar`.
//!
//! `read_words` accepts exactly the grammar, and answers the first refused word. It takes memory only for the spaces that
//! `-init` names.
#![tactic(auto)]

mod init_words;
mod show_words;
#[cfg(test)]
mod tests;
mod words;

pub use words::{Form, Order, WordFault, read_words};
