//! A site that isn't formatted yet is formatted by a command.
//!
//! Whether it is formatted goes by its catalogue's header alone. One that is stays as it was; else the command comes to the
//! new site, and wherever it is stopped there is no site, or the new one whole.
#![tactic(auto)]

mod entering;
mod init;

pub use init::init_site;

#[cfg(test)]
mod tests;
