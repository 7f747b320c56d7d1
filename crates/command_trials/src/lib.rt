//! Trials of the command `onbar`: what no clause says of its texts, in worked examples.
#![tactic(auto)]

#[cfg(test)]
mod forms;
#[cfg(test)]
mod logs;
#[cfg(test)]
mod scripts;
#[cfg(test)]
mod shows;
