//! The session machine: its states, and what each call answers and makes of them.
//!
//! A session is in one of seven states, and a call has an entry in the table of states or is refused and changes nothing.
//! Definitions and plain types alone; the code is `bsa_session`.
#![tactic(auto)]

mod answers;

pub use answers::{Access, BsaRc, Lack};
