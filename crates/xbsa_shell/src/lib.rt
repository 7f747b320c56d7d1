//! The service's shell: a script of XBSA calls over a store, and what it prints.
#![tactic(auto)]

mod calls;
mod printing;
mod script;
mod shell;
mod statuses;
mod volumes;

pub use shell::xbsa_shell;
