//! What is to be done for a lane.
use backup_lines::Chain;
use block_chain::Run;
use level_archive::ImageHead;
use object_volume::Volume;
use space_lane::Lane;
use txn_table::Change;

/// An image of the chain: its head, and the size, the digest and the runs of the object that it is.
#[derive(Drop)]
pub struct ImageJob {
    pub head: ImageHead,
    pub size: u64,
    pub digest: [u8; 32],
    pub runs: Vec<Run>,
}

/// The way of a lane through a restore.
#[derive(Drop)]
pub struct LaneJob<D> {
    pub lane: Lane<D>,
    /// The volume with the images.
    pub volume: Volume<D>,
    /// The restore's number.
    pub restore: u64,
    pub chain: Chain,
    pub images: Vec<ImageJob>,
    /// The Writes in effect behind the chain, in order.
    pub changes: Vec<Change>,
    /// The restore's position.
    pub to: u64,
    /// Nothing while the work goes on.
    pub ended: Option<LaneEnd>,
}

/// How the work on a lane ended.
#[derive(Clone, Copy, Debug, PartialEq, Eq)]
pub enum LaneEnd {
    /// The lane stands where it was to come to.
    Done,
    /// The lane's chunk failed.
    ChunkFailed,
    /// The volume failed.
    VolumeFailed,
    /// A block of this image of the chain, as it was read, is short or isn't one that may come next.
    Unsound { image: u8 },
}
