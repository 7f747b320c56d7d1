//! Trials of lanes that are restored, over disks in memory: steps, stops, and blocks that changed.
#![tactic(auto)]

#[cfg(test)]
mod calls;
#[cfg(test)]
mod jobs;
#[cfg(test)]
mod steps;
#[cfg(test)]
mod stops;
