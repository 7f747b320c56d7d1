//! What a command prints of pages: a page with the bytes in it, and a space with its digest.
//!
//! Every line ends with a line feed. Numbers are decimal, hex is in lower case.
#![tactic(auto)]

mod page;
mod space;

pub use page::{page_line, page_text};
pub use space::pages_text;
