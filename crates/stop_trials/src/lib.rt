//! Trials of the command `onbar` over disks that fail or stop, and scripts and sinks that break off.
#![tactic(auto)]

#[cfg(test)]
mod disks;
#[cfg(test)]
mod formatting;
#[cfg(test)]
mod lanes;
#[cfg(test)]
mod stories;
#[cfg(test)]
mod streams;
