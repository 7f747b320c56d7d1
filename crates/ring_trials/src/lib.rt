//! Trials of the log's ring over disks in memory: stops, and bad places.
#![tactic(auto)]

#[cfg(test)]
mod calls;
#[cfg(test)]
mod places;
#[cfg(test)]
mod stops;
