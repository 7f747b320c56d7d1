//! The fields of a record of bytes: numbers, texts and zeros at their offsets.
//!
//! A number stands big-endian, and a text has zero bytes behind it up to its field's width. What is read is what
//! stands in the field, and a write changes the bytes of its field alone. No call takes memory.
#![tactic(auto)]

mod reading;
#[cfg(test)]
mod tests;
mod writing;

pub use reading::{byte_at, has_bytes, is_zero_from, text_at, u16_at, u32_at, u64_at};
pub use writing::{
    write_bytes, write_text, write_u16, write_u32, write_u64, write_zeros, write_zeros_from,
};
