// Three disks, the numbers that they show, and their moves.
use site_disk::Disk;

/// A number for each of three disks: those that they show, or those to which they are raised.
#[derive(Clone, Copy, Debug, PartialEq, Eq)]
pub struct Numbers {
    pub first: u64,
    pub second: u64,
    pub third: u64,
}

/// What is made of three numbers. None is lowered.
#[derive(Clone, Copy, Debug, PartialEq, Eq)]
pub enum Move {
    /// Each is raised to its goal.
    Raise(Numbers),
    /// The first alone is raised.
    Seal(u64),
}

/// Which of the three.
#[derive(Clone, Copy, Debug, PartialEq, Eq)]
pub enum Name {
    First,
    Second,
    Third,
}

/// Three disks, each of which shows a number by its length.
#[derive(Drop)]
pub struct Trio<D: Disk> {
    pub first: D,
    pub second: D,
    pub third: D,
}
