//! What a session is in.
use bsa_descriptor::Descriptor;
use catalogue_journal::Staged;
use object_volume::Cursor;

/// Where and when a session was begun.
#[derive(Clone, Copy, Debug, PartialEq, Eq)]
pub(crate) struct Place {
    pub(crate) volume: u16,
    pub(crate) moment: u64,
}

/// What goes on in a transaction.
#[derive(Drop)]
pub(crate) enum Work {
    Waiting,
    /// An object with this descriptor is being sent.
    Sending(Descriptor),
    Querying(Matches),
    Getting(Reading),
}

/// The object of a copy id that is read, how many of its bytes were given, and where the read goes on.
#[derive(Clone, Copy, Debug, PartialEq, Eq)]
pub(crate) struct Reading {
    pub(crate) copy: u64,
    pub(crate) at: u64,
    pub(crate) cursor: Cursor,
}

/// The copy ids that a query found, and how many of them were given.
#[derive(Drop)]
pub(crate) struct Matches {
    pub(crate) copies: Vec<u64>,
    pub(crate) given: usize,
}

/// A transaction that isn't ended.
#[derive(Drop)]
pub(crate) struct Transaction {
    pub(crate) place: Place,
    pub(crate) staged: Staged,
    pub(crate) work: Work,
}

#[derive(Drop)]
pub(crate) enum State {
    None,
    Idle(Place),
    Open(Transaction),
    Broken,
}
