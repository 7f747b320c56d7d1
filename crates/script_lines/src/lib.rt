//! The lines of scripts.
//!
//! `Lines` cuts a script into its lines however its bytes come in pieces, and answers a limit exactly where the next
//! line passes it. `read_txn_line` accepts exactly the grammar, and answers the first fault in its order. `Lines` takes
//! memory for one buffer, at the first call.
#![tactic(auto)]

mod cutting;
mod spaces;
#[cfg(test)]
mod tests;
mod tokens;
mod txn_lines;

pub use cutting::{LineFault, Lines};
pub use spaces::find_space;
pub use txn_lines::{TxnLine, read_txn_line};
