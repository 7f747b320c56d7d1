//! The descriptor of a backup object, and its record of 2,624 bytes.
//!
//! A text is made exactly of the printed characters that leave its field room for a zero byte. A
//! descriptor is written in its one spelling, and no other descriptor has that spelling. Bytes are read
//! exactly where a descriptor is spelled so, as that descriptor. No call takes memory.
#![tactic(auto)]

mod descriptor;
mod fields;
mod groups;
mod kinds;
#[cfg(test)]
mod tests;
mod text;

pub use descriptor::Descriptor;
pub use kinds::{CopyType, ObjectStatus, ObjectType};
pub use text::Text;
