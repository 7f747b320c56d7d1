//! Trials of the planner of restores: worked rows, and its answers against plain programs of the definitions.
#![tactic(auto)]

#[cfg(test)]
mod drawn;
#[cfg(test)]
mod plain;
#[cfg(test)]
mod random;
#[cfg(test)]
mod tests;
