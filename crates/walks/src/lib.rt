//! How calls bring a group of disks from world to world: what a stop leaves, and how calls follow one another.
//!
//! A world is whatever a group of disks stands for, each disk by a part of it. Definitions and laws alone, over any names of
//! disks and any worlds.
#![tactic(auto)]
