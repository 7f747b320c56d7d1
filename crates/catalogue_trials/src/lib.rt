//! Trials of the catalogue over disks in memory: stops, bad places, and what no clause says.
#![tactic(auto)]

#[cfg(test)]
mod tests;
