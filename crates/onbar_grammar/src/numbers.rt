//! Numbers as words and script lines spell them.
ghost use Rattle.std.specs.Prelude.{◌≡◌};
ghost use Rattle.onbar_grammar.specs.Numbers.{digits_value, within_u32, number_within};

fn digits(word: &[u8]) -> Option<u32>
    ensures { result ≡ within_u32 (digits_value 0 word.now) }
{
    let mut value: u32 = 0;
    for &digit in word {
        if !digit.is_ascii_digit() {
            return None;
        }
        value = value.checked_mul(10)?.checked_add(u32::from(digit - b'0'))?;
    }
    Some(value)
}

/// The number that a word spells, of those that fit.
pub fn number_in(word: &[u8]) -> Option<u32>
    ensures { result ≡ number_within 0 4294967295 word.now }
{
    match word {
        [] | [b'0', _, ..] => None,
        _ => digits(word),
    }
}

/// The number from `low` to `high` that a word spells.
pub fn number_within(low: u32, high: u32, word: &[u8]) -> Option<u32>
    ensures { result ≡ number_within low high word.now }
{
    let number = number_in(word)?;
    if (low..=high).contains(&number) {
        Some(number)
    } else {
        None
    }
}
