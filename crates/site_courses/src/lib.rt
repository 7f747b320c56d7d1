//! What each command does to a site: its course of moves, from what the site is.
//!
//! Definitions alone.
#![tactic(auto)]
