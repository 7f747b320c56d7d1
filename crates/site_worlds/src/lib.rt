//! The worlds of a whole site: what its disks stand for, the moves that lead from world to world, and when a world is fit.
//!
//! Definitions and laws alone.
#![tactic(auto)]
