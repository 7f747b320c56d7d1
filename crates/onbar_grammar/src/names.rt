//! The names of dbspaces.
ghost use Rattle.std.specs.Prelude.{◌≡◌, IsTrue, IfSome, Some};
ghost use Rattle.std.specs.List.{list_all};
ghost use Rattle.onbar_grammar.specs.Numbers.{is_letter, is_name_character, is_name};

use bsa_descriptor::Text;

fn is_letter(byte: u8) -> bool
    ensures { result ≡ is_letter byte }
{
    byte.is_ascii_alphabetic()
}

fn is_name_character(byte: u8) -> bool
    ensures { result ≡ is_name_character byte }
{
    byte.is_ascii_alphanumeric() || byte == b'_'
}

fn are_name_characters(bytes: &[u8]) -> bool
    ensures { result ≡ list_all is_name_character bytes.now }
{
    bytes.iter().all(|byte| is_name_character(*byte))
}

/// Whether the bytes are a name: a letter, then letters, digits or underscores, 1 to 18 in all.
pub fn is_name(bytes: &[u8]) -> bool
    ensures { result ≡ is_name bytes.now }
{
    match bytes {
        [first, others @ ..] if is_letter(*first) => are_name_characters(others)
            && others.len() <= 17,
        _ => false,
    }
}

/// The name that the bytes are, or `None` where they are none.
pub fn name_in(bytes: &[u8]) -> Option<Text<19>>
    ensures found { IfSome result (λ name. IsTrue (is_name name) × (name ≡ bytes.now)) }
    ensures only { IsTrue (is_name bytes.now) → result ≡ Some bytes.now }
{
    if is_name(bytes) {
        Text::from_bytes(bytes)
    } else {
        None
    }
}
