//! The names of spaces.
ghost use Rattle.std.specs.Prelude.{◌≡◌, ◌+◌, ◌≤◌, ℕ, List, length, Some, IfSome};
ghost use Rattle.site_headers.specs.Parts.{HasName};

use bsa_descriptor::Text;
use byte_fields::text_at;
use onbar_grammar::name_in;

/// The name in the 20 bytes at this offset, or `None` where they spell no name.
pub(crate) fn name_at(bytes: &[u8], at: usize) -> Option<Text<19>>
    requires { at + 20 ≤ length bytes.now }
    ensures found { IfSome result (HasName at bytes.now) }
    ensures only { (name : List ℕ) → HasName at bytes.now name → result ≡ Some name }
{
    let text = text_at(bytes, at, 20)?;
    name_in(text)
}
