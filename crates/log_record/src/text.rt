//! The bytes that a Write carries.
ghost use Rattle.std.specs.Prelude.{◌≡◌, ◌<◌, ◌≤◌, ◌↔◌, length, IsSome, IfSome, OnSome, ⊤, nat_eq};
ghost use Rattle.std.specs.List.{AllByRecursion};
ghost use Rattle.std.specs.Cmp.{partial_equiv_from_equiv};
ghost use Rattle.std.specs.Cmp.Lexicographic.{pointwise, nat_list_eq_equiv};
ghost use Rattle.byte_fields.specs.Fields.{padded};

use arrayvec::ArrayVec;
use std::alloc::AllocError;
use std::fmt;
use std::marker::Model;

/// 1 to 64 bytes of any value.
#[derive(Drop)]
pub struct Text64 {
    bytes: ArrayVec<u8, 64>,
}

impl Model for Text64 {
    ghost use Rattle.std.specs.Prelude.{ℕ, ◌≤◌, List, length};

    ghost Value = { List ℕ };

    ghost view = { λ t. t.bytes.items };

    ghost invariant = { λ t. 1 ≤ length t.bytes.items };
}

impl Text64 {
    /// These bytes, where they are 1 to 64.
    pub fn from_bytes(bytes: &[u8]) -> Option<Text64>
        ensures fits { IsSome result ↔ ((1 ≤ length bytes.now) × (length bytes.now ≤ 64)) }
        ensures value { IfSome result (λ text. text ≡ bytes.now) }
        ensures each { OnSome result (AllByRecursion (λ b. b < 256) bytes.now) }
    {
        if bytes.is_empty() {
            return None;
        }
        let bytes = ArrayVec::try_from(bytes).ok()?;
        Some(Text64 { bytes })
    }

    /// The bytes.
    pub fn as_bytes(&self) -> &[u8]
        ensures value { result.now ≡ self.now }
        ensures some { 1 ≤ length result.now }
        ensures few { length result.now ≤ 64 }
    {
        self.bytes.as_slice()
    }

    /// The bytes, and zeros behind them.
    pub(crate) fn padded(&self) -> [u8; 64]
        ensures { result ≡ padded 64 self.now }
    {
        let mut all = [0; 64];
        let bytes = self.as_bytes();
        all[..bytes.len()].copy_from_slice(bytes);
        all
    }
}

impl Clone for Text64 {
    ghost is_clone = { λ t u. u ≡ t };

    ghost is_infallible = { λ _. ⊤ };

    fn clone(&self) -> Result<Text64, AllocError> {
        let bytes = self.bytes.clone()?;
        Ok(Text64 { bytes })
    }
}

impl PartialEq for Text64 {
    ghost eq = { pointwise nat_eq };

    ghost laws = { partial_equiv_from_equiv nat_list_eq_equiv };

    fn eq(&self, other: &Text64) -> bool {
        self.as_bytes() == other.as_bytes()
    }
}

impl Eq for Text64 {
    ghost laws = { nat_list_eq_equiv };
}

impl fmt::Debug for Text64 {
    fn fmt<W: fmt::Write>(&self, f: &mut fmt::Formatter<W>) -> fmt::Result {
        f.debug_list().entries(self.as_bytes()).finish()
    }
}
