//! The image of an archive: a head, and then each page of a space with a stamp above a base, ascending.
//!
//! The maker gives the blocks of an image one by one, and the reader takes them and gives the pages. The reader refuses a
//! block exactly where it isn't the head that it was told, or no page that may come next. No call takes memory.
#![tactic(auto)]

mod head;
mod laws;
mod maker;
mod pages;
mod reader;
#[cfg(test)]
mod tests;

pub use head::ImageHead;
pub use laws::{
    a_block_is_taken_in_one_way, a_maker_begins_with_all, a_maker_goes_on, a_reader_goes_on,
    blocks_stand_one_behind_another, the_entries_of_pages_are_read,
};
pub use maker::ImageMaker;
pub use reader::{ImageFault, ImageReader};
