//! The states of a lane, spelled and read.
ghost use Rattle.std.specs.Prelude.{◌≡◌, ◌≤◌, ◌↔◌, ◌^◌, IsTrue, IfSome, Some, length};
ghost use Rattle.std.specs.List.{AllByRecursion};
ghost use Rattle.lane_mark.specs.Layout.{FitsState, FitsChain, FitsImage, FitsPlace, FitsRestore, spelling};
ghost use Rattle.backup_lines.specs.declared.lanes.LaneState.{LaneState as StateView};

use crate::fields::{Fields, copies_of, front_of, read};
use backup_lines::{Chain, LaneState};
use byte_fields::{write_bytes, write_zeros_from};

/// The greatest id and position.
const MAX: u64 = 1 << 48;

fn is_restore(restore: u64) -> bool
    ensures { IsTrue result ↔ FitsRestore restore }
{
    1 <= restore && restore <= MAX
}

fn is_place(upto: u64, part: u32) -> bool
    ensures { IsTrue result ↔ FitsPlace upto part }
{
    let _part = part;
    upto <= MAX
}

fn are_bounded(copies: &[u64]) -> bool
    ensures { IsTrue result ↔ AllByRecursion (λ copy. copy ≤ 2 ^ 48) copies.now }
{
    copies.iter().all(|copy| *copy <= MAX)
}

fn are_none(copies: &[u64]) -> bool
    ensures { IsTrue result ↔ AllByRecursion (λ copy. copy ≡ 0) copies.now }
{
    copies.iter().all(|copy| *copy == 0)
}

fn is_chain(chain: &Chain) -> bool
    ensures { IsTrue result ↔ FitsChain chain.now }
{
    let len = usize::from(chain.len);
    if len < 1 || 3 < len {
        return false;
    }
    let copies = &chain.copies[..];
    are_bounded(copies) && are_none(&copies[len..])
}

fn is_image(chain: &Chain, image: u8, entries: u32) -> bool
    ensures { IsTrue result ↔ FitsImage chain.now image entries }
{
    let _entries = entries;
    image < chain.len
}

/// Whether a mark may have this state: positions, restore numbers and copy ids are at most 2^48, a restore number is at
/// least 1, a chain has 1 to 3 copy ids with 0 past its length, and the image is below that length.
pub fn is_lane(state: &LaneState) -> bool
    ensures { IsTrue result ↔ FitsState state.now }
{
    match *state {
        LaneState::At { upto, part } => is_place(upto, part),
        LaneState::Blank { restore } => is_restore(restore),
        LaneState::Image {
            restore,
            chain,
            image,
            entries,
        } => is_restore(restore) && is_chain(&chain) && is_image(&chain, image, entries),
        LaneState::Replay {
            restore,
            chain,
            upto,
            part,
        } => is_restore(restore) && is_chain(&chain) && is_place(upto, part),
    }
}

/// Writes the record's 255 bytes.
pub fn encode_into(state: &LaneState, bytes: &mut [u8; 255])
    requires { FitsState state.now }
    ensures { bytes.new ≡ spelling state.now }
{
    let fields = Fields::of(state);
    write_bytes(bytes, 0, &front_of(&fields));
    write_bytes(bytes, 32, &copies_of(&fields.chain.copies));
    write_zeros_from(bytes, 56);
}

/// The state whose bytes these are. `None` where they are no state's.
pub fn decode(bytes: &[u8; 255]) -> Option<LaneState>
    ensures found { IfSome result (λ state. FitsState state × (bytes.now ≡ spelling state)) }
    ensures only { (state : StateView) → FitsState state → bytes.now ≡ spelling state → result ≡ Some state }
{
    let state = read(bytes).state()?;
    if !is_lane(&state) {
        return None;
    }
    let mut again = [0; 255];
    encode_into(&state, &mut again);
    (again == *bytes).then_some(state)
}
