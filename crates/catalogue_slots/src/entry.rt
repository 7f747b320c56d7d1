//! An object of the catalogue.
use block_chain::Run;
use bsa_descriptor::Descriptor;

/// An object that the catalogue has.
#[derive(Debug, Drop)]
pub struct ObjectEntry {
    /// Its number, which no other object has or had.
    pub copy: u64,
    /// The volume that has its blocks, at most 16.
    pub volume: u16,
    /// Its size in bytes.
    pub size: u64,
    /// The SHA-256 of its bytes.
    pub digest: [u8; 32],
    /// Its blocks of 4,096 bytes, in order.
    pub runs: Vec<Run>,
    /// What is known of it. The copy id is the object's, and the status is `Any`.
    pub descriptor: Descriptor,
}
