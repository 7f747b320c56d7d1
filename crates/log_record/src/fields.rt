//! The fields of a record's 128 bytes: what stands in them for each record, and where they lie.
ghost use Rattle.std.specs.Prelude.{◌≡◌, ◌+◌, ◌<◌, ◌≤◌, ◌↔◌, length, IsTrue, IsSome, IfSome, Some};
ghost use Rattle.log_history.specs.History.{write};
ghost use Rattle.log_record.specs.Layout.{IsTxn, IsPatch, IsBounded, IsRecord, fields_of, fields_at, entry_in, patch_in, front, laid};
ghost use Rattle.log_record.specs.Entry.{entry_of, fields_in};

use crate::{Record, Text64};
use byte_fields::{u16_at, u32_at, u64_at};

/// What stands in the fields. One that a record doesn't have is 0.
#[derive(Clone, Copy)]
pub(crate) struct Fields {
    kind: u8,
    len: u8,
    space: u16,
    txn: u32,
    page: u32,
    offset: u16,
    time: u64,
    target: u64,
    bytes: [u8; 64],
    restore: u64,
}

const BLANK: Fields = Fields {
    kind: 0,
    len: 0,
    space: 0,
    txn: 0,
    page: 0,
    offset: 0,
    time: 0,
    target: 0,
    bytes: [0; 64],
    restore: 0,
};

/// The fields of a record.
#[tactic(auto, unfolding(crate::specs::Layout::fields_of, crate::specs::Layout::blank))]
pub(crate) fn of_record(source: &Record) -> Fields
    ensures { fields_in result ≡ fields_of (entry_of source.now) }
{
    match source {
        Record::Begin { txn } => Fields {
            kind: 1,
            txn: *txn,
            ..BLANK
        },
        Record::Write {
            txn,
            space,
            page,
            offset,
            bytes,
        } => Fields {
            kind: 2,
            len: bytes.as_bytes().len() as u8,
            space: *space,
            txn: *txn,
            page: *page,
            offset: *offset,
            bytes: bytes.padded(),
            ..BLANK
        },
        Record::Commit { txn, time } => Fields {
            kind: 3,
            txn: *txn,
            time: *time,
            ..BLANK
        },
        Record::Abort { txn } => Fields {
            kind: 4,
            txn: *txn,
            ..BLANK
        },
        Record::Reset {
            restore,
            target,
            time,
        } => Fields {
            kind: 5,
            time: *time,
            target: *target,
            restore: *restore,
            ..BLANK
        },
    }
}

/// The first 32 bytes of the fields.
#[tactic(auto, unfolding(crate::specs::Layout::front))]
fn front_of(fields: &Fields) -> [u8; 32]
    ensures { result ≡ front (fields_in fields.now) }
{
    let mut front = [0; 32];
    front[0] = fields.kind;
    front[1] = fields.len;
    front[2..4].copy_from_slice(&fields.space.to_be_bytes());
    front[4..8].copy_from_slice(&fields.txn.to_be_bytes());
    front[8..12].copy_from_slice(&fields.page.to_be_bytes());
    front[12..14].copy_from_slice(&fields.offset.to_be_bytes());
    front[16..24].copy_from_slice(&fields.time.to_be_bytes());
    front[24..32].copy_from_slice(&fields.target.to_be_bytes());
    front
}

/// Lays the fields at their places.
#[tactic(auto, unfolding(crate::specs::Layout::laid))]
pub(crate) fn lay(fields: &Fields, slot: &mut [u8; 128])
    ensures { slot.new ≡ laid (fields_in fields.now) }
{
    *slot = [0; 128];
    slot[..32].copy_from_slice(&front_of(fields));
    slot[32..96].copy_from_slice(&fields.bytes);
    slot[96..104].copy_from_slice(&fields.restore.to_be_bytes());
}

/// The fields that stand in a slot.
#[tactic(auto, unfolding(crate::specs::Layout::fields_at))]
pub(crate) fn read(slot: &[u8; 128]) -> Fields
    ensures { fields_in result ≡ fields_at slot.now }
{
    let slot = &slot[..];
    let mut bytes = [0; 64];
    bytes.copy_from_slice(&slot[32..96]);
    Fields {
        kind: slot[0],
        len: slot[1],
        space: u16_at(slot, 2),
        txn: u32_at(slot, 4),
        page: u32_at(slot, 8),
        offset: u16_at(slot, 12),
        time: u64_at(slot, 16),
        target: u64_at(slot, 24),
        bytes,
        restore: u64_at(slot, 96),
    }
}

fn is_txn(txn: u32) -> bool
    ensures { IsTrue result ↔ IsTxn txn }
{
    txn > 0
}

fn is_bounded(number: u64) -> bool
    ensures { IsTrue result ↔ IsBounded number }
{
    number <= 1 << 48
}

/// The Write whose fields these are.
fn write_in(fields: &Fields) -> Option<Record>
    ensures found { IfSome result (λ r. (entry_of r ≡ write fields.now.txn (patch_in (fields_in fields.now)))
        × IsPatch (patch_in (fields_in fields.now))) }
    ensures only { IsPatch (patch_in (fields_in fields.now)) → IsSome result }
{
    let len = usize::from(fields.len).min(64);
    let bytes = Text64::from_bytes(&fields.bytes[..len])?;
    let fits = fields.space < 16 && fields.page < 65536 && usize::from(fields.offset) + len <= 4080;
    fits.then_some(Record::Write {
        txn: fields.txn,
        space: fields.space,
        page: fields.page,
        offset: fields.offset,
        bytes,
    })
}

/// The record whose fields these are, where there is one.
#[tactic(auto, unfolding(crate::specs::Layout::entry_in))]
pub(crate) fn record_in(fields: &Fields) -> Option<Record>
    ensures found { IfSome result (λ r. IsRecord (entry_of r) × (entry_in (fields_in fields.now) ≡ Some (entry_of r))) }
    ensures only { IfSome (entry_in (fields_in fields.now)) (λ entry. IsRecord entry → IsSome result) }
{
    let txn = fields.txn;
    match fields.kind {
        1 if is_txn(txn) => Some(Record::Begin { txn }),
        2 if is_txn(txn) => write_in(fields),
        3 if is_txn(txn) && is_bounded(fields.time) => Some(Record::Commit {
            txn,
            time: fields.time,
        }),
        4 if is_txn(txn) => Some(Record::Abort { txn }),
        5
            if fields.restore >= 1
                && is_bounded(fields.restore)
                && is_bounded(fields.target)
                && is_bounded(fields.time) => {
            Some(Record::Reset {
                restore: fields.restore,
                target: fields.target,
                time: fields.time,
            })
        }
        _ => None,
    }
}
