//! The tokens of a line: where one ends, and what it says.
ghost use Rattle.std.specs.Prelude.{◌≡◌, [], ◌∷◌, MatchResult};
ghost use Rattle.onbar_grammar.specs.declared.Why.TheVariants.{Words};
ghost use Rattle.onbar_grammar.specs.Numbers.{number_within, hex_bytes};
ghost use Rattle.onbar_grammar.specs.Script.{tokens_of};
ghost use Rattle.script_lines.specs.Tokens.{HasTwo};

use log_record::Text64;
use onbar_grammar::{Why, number_within, parts_at};

/// The first token and the bytes behind its space, or `Words` where no space ends it.
pub(crate) fn split_token(bytes: &[u8]) -> Result<(&[u8], &[u8]), Why>
    ensures { MatchResult result (λ parts. tokens_of bytes.now ≡ parts.0.now ∷ tokens_of parts.1.now)
        (λ why. (why ≡ Words) × (tokens_of bytes.now ≡ bytes.now ∷ [])) }
{
    parts_at(b' ', bytes).ok_or(Why::Words)
}

/// The last token, or `Words` where a space is left.
pub(crate) fn last_token(bytes: &[u8]) -> Result<&[u8], Why>
    ensures { MatchResult result (λ token. tokens_of bytes.now ≡ token.now ∷ [])
        (λ why. (why ≡ Words) × HasTwo (tokens_of bytes.now)) }
{
    match split_token(bytes) {
        Ok(_) => Err(Why::Words),
        Err(_) => Ok(bytes),
    }
}

/// The number of a transaction, which isn't 0.
pub(crate) fn txn_in(word: &[u8]) -> Option<u32>
    ensures { result ≡ number_within 1 4294967295 word.now }
{
    number_within(1, u32::MAX, word)
}

/// The 1 to 64 bytes that a word spells in hexadecimal digits.
pub(crate) fn bytes_in(word: &[u8]) -> Option<Text64>
    ensures { result ≡ hex_bytes word.now }
{
    let len = word.len() / 2;
    if len > 64 {
        return None;
    }
    let mut bytes = [0; 64];
    hex::decode_to_slice(word, &mut bytes[..len]).ok()?;
    Text64::from_bytes(&bytes[..len])
}
