//! Trials of the command `onbar` over disks that hold other bytes than a command leaves.
#![tactic(auto)]

#[cfg(test)]
mod chunks;
#[cfg(test)]
mod logs;
#[cfg(test)]
mod noise;
#[cfg(test)]
mod places;
