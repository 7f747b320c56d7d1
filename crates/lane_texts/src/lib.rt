//! What a command prints of a space, read page by page from its chunk.
//!
//! A text is that of the pages that stand on the chunk, and takes no memory for the pages. A page is refused only where its
//! bytes aren't as the layout says, and the first such page is told. Nothing is written.
#![tactic(auto)]

mod decoding;
mod faults;
mod laws;
mod listing;
mod reading;
#[cfg(test)]
mod tests;
mod texts;

pub use decoding::decode_page;
pub use faults::ListFault;
pub use laws::the_pages_of_a_history_are_held;
pub use texts::{page_text, space_text};
