//! The first 16 bytes of a slot.
ghost use Rattle.std.specs.Prelude.{◌≡◌, ◌+◌, ◌≤◌, ◌++◌, length, take, drop, IfSome, IsSomeAnd};
ghost use Rattle.catalogue_slots.specs.Layout.{Front as FrontView, FrontFits, front_bytes};
ghost use Rattle.catalogue_slots.specs.Fronts.{front_in};

use byte_fields::write_bytes;

/// The kind of record, two numbers, of which each kind has its own use, and a copy id.
#[derive(Clone, Copy)]
pub(crate) struct Front {
    pub(crate) kind: u8,
    pub(crate) word: u16,
    pub(crate) double: u32,
    pub(crate) copy: u64,
}

#[tactic(auto, unfolding(crate::specs::Layout::front_bytes))]
fn bytes_of(front: Front) -> [u8; 16]
    ensures { result ≡ front_bytes (front_in front) }
{
    let mut bytes = [0; 16];
    bytes[0] = front.kind;
    bytes[2..4].copy_from_slice(&front.word.to_be_bytes());
    bytes[4..8].copy_from_slice(&front.double.to_be_bytes());
    bytes[8..16].copy_from_slice(&front.copy.to_be_bytes());
    bytes
}

/// Writes the front at this offset, 16 bytes.
pub(crate) fn write_front(into: &mut [u8], at: usize, front: Front)
    requires { at + 16 ≤ length into.old }
    ensures written { take (at + 16) into.new ≡ take at into.old ++ front_bytes (front_in front) }
    ensures behind { drop (at + 16) into.new ≡ drop (at + 16) into.old }
{
    write_bytes(into, at, &bytes_of(front));
}

#[tactic(auto, unfolding(crate::specs::Layout::front_bytes))]
fn of_bytes(bytes: &[u8; 16]) -> Option<Front>
    ensures found { IfSome result (λ front. bytes.now ≡ front_bytes (front_in front)) }
    ensures only { (front : FrontView) → FrontFits front → bytes.now ≡ front_bytes front
        → IsSomeAnd result (λ found. front_in found ≡ front) }
{
    let [
        kind,
        zero,
        w0,
        w1,
        d0,
        d1,
        d2,
        d3,
        c0,
        c1,
        c2,
        c3,
        c4,
        c5,
        c6,
        c7,
    ] = *bytes;
    if zero != 0 {
        return None;
    }
    Some(Front {
        kind,
        word: u16::from_be_bytes([w0, w1]),
        double: u32::from_be_bytes([d0, d1, d2, d3]),
        copy: u64::from_be_bytes([c0, c1, c2, c3, c4, c5, c6, c7]),
    })
}

/// The front with which a slot begins, or `None` where the byte between its parts isn't zero.
pub(crate) fn front_of(slot: &[u8]) -> Option<Front>
    requires { 16 ≤ length slot.now }
    ensures found { IfSome result (λ front. take 16 slot.now ≡ front_bytes (front_in front)) }
    ensures only { (front : FrontView) → FrontFits front → take 16 slot.now ≡ front_bytes front
        → IsSomeAnd result (λ found. front_in found ≡ front) }
{
    of_bytes(slot.first_chunk()?)
}
