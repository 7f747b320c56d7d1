//! Chains of blocks: which blocks of a volume are free, and which belong to which list.
//!
//! One table has a link for each block. The free blocks are a chain, in the order in which they are
//! taken, and each list of blocks is a chain of its own. What the free chain and some lists part they part
//! again after a call on one of them. A call changes its own list and the free chain, and leaves every
//! other list as it was. Only the making of a table and of a list's runs can run out of memory.
#![tactic(auto)]

mod laws;
mod lists;
mod placing;
mod runs;
mod table;

pub use laws::{one_list_of_runs, runs_of_a_table_fit};
pub use lists::BlockList;
pub use runs::{Run, blocks_for};
pub use table::{ChainFault, Chains, OutOfMemory};

#[cfg(test)]
mod tests;
