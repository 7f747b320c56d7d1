//! Texts of bounded length.
ghost use Rattle.std.specs.Prelude.{⊤, ◌≡◌, ◌<◌, ◌↔◌, [], nat_eq, IsSome, IfSome};
ghost use Rattle.std.specs.Cmp.{partial_equiv_from_equiv};
ghost use Rattle.std.specs.Cmp.Lexicographic.{pointwise, nat_list_eq_equiv};
ghost use Rattle.bsa_descriptor.specs.Text.{IsText};

use arrayvec::ArrayVec;
use std::alloc::AllocError;
use std::marker::Model;

/// A text that a field of `W` bytes can hold: at most `W - 1` printed ASCII characters, each from 0x20 to 0x7E.
#[derive(Debug, Drop)]
pub struct Text<const W: usize> {
    bytes: ArrayVec<u8, W>,
}

impl<const W: usize> Model for Text<W> {
    ghost use Rattle.std.specs.Prelude.{List, ℕ};
    ghost use Rattle.bsa_descriptor.specs.Text.{IsText};

    ghost Value = { List ℕ };

    ghost view = { λ text. text.bytes.items };

    ghost invariant = { λ text. IsText W text.bytes.items };
}

impl<const W: usize> Text<W> {
    /// The text of these bytes, or `None` where they are `W` or more or one of them is no printed character.
    pub fn from_bytes(bytes: &[u8]) -> Option<Text<W>>
        ensures text { IsSome result ↔ IsText W bytes.now }
        ensures bytes { IfSome result (λ text. text ≡ bytes.now) }
    {
        if bytes.len() < W && bytes.iter().all(|byte| matches!(byte, 0x20..=0x7e)) {
            let bytes = ArrayVec::try_from(bytes).ok()?;
            Some(Text { bytes })
        } else {
            None
        }
    }

    pub(crate) fn empty() -> Text<W>
        requires { 0 < W }
        ensures { result ≡ [] }
    {
        Text {
            bytes: ArrayVec::new(),
        }
    }

    /// The bytes of the text, with no padding.
    pub fn as_bytes(&self) -> &[u8]
        ensures bytes { result.now ≡ self.now }
        ensures text { IsText W self.now }
    {
        self.bytes.as_slice()
    }

    /// The text as a string.
    pub fn as_str(&self) -> &str
        ensures { result.now ≡ self.now }
    {
        match str::from_utf8(self.as_bytes()) {
            Ok(text) => text,
            Err(_) => unreachable!(),
        }
    }
}

impl<const W: usize> PartialEq for Text<W> {
    ghost eq = { pointwise nat_eq };

    ghost laws = { partial_equiv_from_equiv nat_list_eq_equiv };

    fn eq(&self, other: &Text<W>) -> bool {
        self.as_bytes() == other.as_bytes()
    }
}

impl<const W: usize> Eq for Text<W> {
    ghost laws = { nat_list_eq_equiv };
}

impl<const W: usize> Clone for Text<W> {
    ghost is_clone = { λ text copy. copy ≡ text };

    ghost is_infallible = { λ _. ⊤ };

    /// A copy, which takes no memory and is always `Ok`.
    fn clone(&self) -> Result<Text<W>, AllocError> {
        let bytes = self.bytes.clone()?;
        Ok(Text { bytes })
    }
}
