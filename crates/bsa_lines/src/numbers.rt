//! Numbers that a word of 64 bits holds.
ghost use Rattle.std.specs.Prelude.{◌≡◌};
ghost use Rattle.onbar_grammar.specs.Numbers.{digits_value};
ghost use Rattle.bsa_lines.specs.Operands.{within_u64, wide_number, copy_id};

const LAST_COPY_ID: u64 = 281_474_976_710_656;

fn digits(word: &[u8]) -> Option<u64>
    ensures { result ≡ within_u64 (digits_value 0 word.now) }
{
    let mut value: u64 = 0;
    for &digit in word {
        if !digit.is_ascii_digit() {
            return None;
        }
        value = value.checked_mul(10)?.checked_add(u64::from(digit - b'0'))?;
    }
    Some(value)
}

/// The number that a word spells, of those that fit.
pub(crate) fn wide_number_in(word: &[u8]) -> Option<u64>
    ensures { result ≡ wide_number word.now }
{
    match word {
        [] | [b'0', _, ..] => None,
        _ => digits(word),
    }
}

/// The copy id that a word spells.
pub(crate) fn copy_id_in(word: &[u8]) -> Option<u64>
    ensures { result ≡ copy_id word.now }
{
    let copy = wide_number_in(word)?;
    if (1..=LAST_COPY_ID).contains(&copy) {
        Some(copy)
    } else {
        None
    }
}
