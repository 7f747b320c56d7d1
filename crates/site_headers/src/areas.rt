//! Where the areas of the log and of the catalogue stand, as `specs/Areas` says for clauses.

/// Where the gates begin, one byte for each slot.
pub const GATES_AT: u64 = 8_192;

/// Where the slots begin.
pub const SLOTS_AT: u64 = 73_728;

/// The slots of an area, and so its gates.
pub const SLOTS: u32 = 65_536;

/// The bytes of a slot of the log.
pub const LOG_SLOT_LEN: u32 = 128;
