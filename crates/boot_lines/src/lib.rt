//! The lines of the boot file and the record in its mark, and the bytes of each.
//!
//! Each line has one spelling of 128 bytes, and each record of the mark one of 255. What is read is spelled so, each byte of
//! it, and what is spelled so is read.
#![tactic(auto)]

mod laws;
mod lines;
mod mark;
#[cfg(test)]
mod tests;

pub use laws::{a_line_fills_its_slot, one_line, one_record};
pub use lines::{LINE_LEN, decode_line, encode_line, is_line};
pub use mark::BootMark;
