//! What the shells print: the line of a status, and a whole text to a sink that takes pieces.
#![tactic(auto)]

mod printing;
mod status;

pub use printing::print_all;
pub use status::status_line;
