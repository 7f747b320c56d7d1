//! Three disks that are moved in one era, and a second move behind that: the laws of phases and courses at their smallest.
//!
//! Each disk shows a number by its length. One move raises all three, in one era, each at its own pace; the other raises the
//! first alone, in the era behind it. So where the first has come past its goal, the others have come to theirs.
#![tactic(auto)]

mod growing;
mod moving;
#[cfg(test)]
mod tests;
mod trio;

pub use moving::{make_move, raise, raise_and_seal, seal};
pub use trio::{Move, Numbers, Trio};
