//! Sessions of the service: transactions in which objects are made, looked for and deleted.
//!
//! Each call is a case of the table of states, and a call that has no entry there changes nothing. A query sees the
//! committed objects. A fault breaks a session.
#![tactic(auto)]

mod fetching;
mod querying;
mod sending;
mod session;
mod state;
#[cfg(test)]
mod tests;
mod voting;

pub use object_store::Store;
pub use session::Session;
pub use session_machine::{Access, BsaRc, Lack};
