//! The texts and numbers of a record of bytes, at their offsets.
ghost use Rattle.std.specs.Prelude.{◌≡◌, ◌+◌, ◌^◌, ◌<◌, ◌≤◌, ◌++◌, ℕ, List, length, take, Some, IfSome};
ghost use Rattle.std.specs.Int.{to_be_bytes, w64};
ghost use Rattle.byte_fields.specs.Fields.{padded};
ghost use Rattle.bsa_descriptor.specs.Text.{IsText};
ghost use Rattle.bsa_descriptor.specs.Groups.{TextAt};

use crate::Text;

/// The text in the field of `W` bytes at this offset, or `None` where the field spells no text.
pub(crate) fn text_at<const W: usize>(bytes: &[u8], offset: usize) -> Option<Text<W>>
    requires { offset + W ≤ length bytes.now }
    ensures found { IfSome result (TextAt offset W bytes.now) }
    ensures only { (text : List ℕ) → TextAt offset W bytes.now text → result ≡ Some text }
{
    let text = byte_fields::text_at(bytes, offset, W)?;
    Text::from_bytes(text)
}

/// Writes the text at this offset, and zeros behind it up to its width.
pub(crate) fn write_text<const W: usize>(into: &mut [u8], offset: usize, text: &Text<W>)
    requires { offset + W ≤ length into.old }
    ensures written { take (offset + W) into.new ≡ take offset into.old ++ padded W text.now }
    ensures text { IsText W text.now }
{
    byte_fields::write_text(into, offset, W, text.as_bytes());
}

/// Writes the number at this offset, in eight bytes.
pub(crate) fn write_number(into: &mut [u8], offset: usize, number: u64)
    requires { offset + 8 ≤ length into.old }
    ensures written { take (offset + 8) into.new ≡ take offset into.old ++ to_be_bytes w64 number }
    ensures number { number < 2 ^ 64 }
{
    byte_fields::write_u64(into, offset, number);
}
