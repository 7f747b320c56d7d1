//! The fields of the record, laid and read.
ghost use Rattle.std.specs.Prelude.{◌≡◌, ◌≤◌, ◌+◌, length};
ghost use Rattle.lane_mark.specs.Layout.{chain_at, copies_bytes, fields_at, front, raw_of, state_with};

use backup_lines::{Chain, LaneState};
use byte_fields::{u32_at, u64_at};

/// The fields of all kinds. One that a kind doesn't have is 0.
#[derive(Clone, Copy)]
pub(crate) struct Fields {
    pub(crate) kind: u8,
    pub(crate) chain: Chain,
    pub(crate) image: u8,
    pub(crate) entries: u32,
    pub(crate) restore: u64,
    pub(crate) upto: u64,
    pub(crate) part: u32,
}

/// The byte of each kind.
const AT: u8 = 1;

const BLANK: u8 = 2;

const IMAGE: u8 = 3;

const REPLAY: u8 = 4;

/// No field.
const NONE: Fields = Fields {
    kind: 0,
    chain: Chain {
        len: 0,
        copies: [0; 3],
    },
    image: 0,
    entries: 0,
    restore: 0,
    upto: 0,
    part: 0,
};

impl Fields {
    /// Those of a state.
    pub(crate) fn of(state: &LaneState) -> Fields
        ensures { result ≡ raw_of state.now }
    {
        match *state {
            LaneState::At { upto, part } => Fields {
                kind: AT,
                upto,
                part,
                ..NONE
            },
            LaneState::Blank { restore } => Fields {
                kind: BLANK,
                restore,
                ..NONE
            },
            LaneState::Image {
                restore,
                chain,
                image,
                entries,
            } => Fields {
                kind: IMAGE,
                chain,
                image,
                entries,
                restore,
                ..NONE
            },
            LaneState::Replay {
                restore,
                chain,
                upto,
                part,
            } => Fields {
                kind: REPLAY,
                chain,
                restore,
                upto,
                part,
                ..NONE
            },
        }
    }

    /// The state of this kind with these fields. `None` where there is no such kind.
    pub(crate) fn state(self) -> Option<LaneState>
        ensures { result ≡ state_with self }
    {
        let Fields {
            kind,
            chain,
            image,
            entries,
            restore,
            upto,
            part,
        } = self;
        match kind {
            AT => Some(LaneState::At { upto, part }),
            BLANK => Some(LaneState::Blank { restore }),
            IMAGE => Some(LaneState::Image {
                restore,
                chain,
                image,
                entries,
            }),
            REPLAY => Some(LaneState::Replay {
                restore,
                chain,
                upto,
                part,
            }),
            _ => None,
        }
    }
}

/// The fields before the copy ids.
#[tactic(auto, unfolding(crate::specs::Layout::front))]
pub(crate) fn front_of(fields: &Fields) -> [u8; 32]
    ensures { result ≡ front fields.now }
{
    let mut front = [0; 32];
    front[0] = fields.kind;
    front[1] = fields.chain.len;
    front[2] = fields.image;
    front[4..8].copy_from_slice(&fields.entries.to_be_bytes());
    front[8..16].copy_from_slice(&fields.restore.to_be_bytes());
    front[16..24].copy_from_slice(&fields.upto.to_be_bytes());
    front[24..28].copy_from_slice(&fields.part.to_be_bytes());
    front
}

/// The copy ids, at three places.
#[tactic(auto, unfolding(crate::specs::Layout::copies_bytes))]
pub(crate) fn copies_of(copies: &[u64; 3]) -> [u8; 24]
    ensures { result ≡ copies_bytes copies.now }
{
    let mut bytes = [0; 24];
    bytes[0..8].copy_from_slice(&copies[0].to_be_bytes());
    bytes[8..16].copy_from_slice(&copies[1].to_be_bytes());
    bytes[16..24].copy_from_slice(&copies[2].to_be_bytes());
    bytes
}

fn chain_at(bytes: &[u8]) -> Chain
    requires { length bytes.now ≡ 255 }
    ensures { result ≡ chain_at bytes.now }
{
    Chain {
        len: bytes[1],
        copies: [u64_at(bytes, 32), u64_at(bytes, 40), u64_at(bytes, 48)],
    }
}

/// The fields that stand in a record.
#[tactic(auto, unfolding(crate::specs::Layout::fields_at))]
pub(crate) fn read(bytes: &[u8; 255]) -> Fields
    ensures { result ≡ fields_at bytes.now }
{
    let bytes = &bytes[..];
    Fields {
        kind: bytes[0],
        chain: chain_at(bytes),
        image: bytes[2],
        entries: u32_at(bytes, 4),
        restore: u64_at(bytes, 8),
        upto: u64_at(bytes, 16),
        part: u32_at(bytes, 24),
    }
}
