// Devices in memory, for tests and to show that the traits can be met.
mod crash;
mod disk;
mod moving;
mod plan;
mod recording;
mod streams;
#[cfg(test)]
mod tests;

pub use disk::{Choice, MemDisk};
pub use streams::{MemSink, MemSource};
