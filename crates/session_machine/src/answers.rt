//! What the calls of a session answer.

/// The answer of a call.
#[derive(Clone, Copy, Debug, PartialEq, Eq)]
pub enum BsaRc {
    Success,
    /// The table of states has no entry for the call.
    InvalidCallSequence,
    /// The record is no descriptor's, or no object may be made of it.
    InvalidObjectDescriptor,
    /// No committed object matches.
    NoMatch,
    /// All matches, or all bytes, were given.
    NoMoreData,
    /// No object has this copy id, or the transaction has deleted it.
    ObjectNotFound,
    /// The vote is neither 1, to commit, nor 2, to abort.
    InvalidVote,
    NoResources(Lack),
    AccessFailure(Access),
    /// The object's bytes have another digest than the one that is kept.
    Damaged { kept: [u8; 32], found: [u8; 32] },
    OutOfMemory,
}

/// What there isn't enough of.
#[derive(Clone, Copy, Debug, PartialEq, Eq)]
pub enum Lack {
    /// Free blocks of the volume.
    Blocks,
    /// Slots of the catalogue.
    Slots,
    /// Places for live objects, or copy ids.
    Objects,
}

/// What can't be reached.
#[derive(Clone, Copy, Debug, PartialEq, Eq)]
pub enum Access {
    /// The catalogue's disk failed.
    Cat,
    /// The spare disk failed.
    Spare,
    /// The disk of this volume failed.
    Volume(u16),
    /// The volume ends within the object.
    Ends,
}
