//! Patterns of `*` and `?`.
ghost use Rattle.std.specs.Prelude.{◌≡◌, ◌==◌};
ghost use Rattle.std.specs.List.{list_all};
ghost use Rattle.bsa_match.specs.Wild.{any_suffix, is_wild_match, stands_for};

/// Whether this character of a pattern, no `*`, stands for that character of a text.
fn stands_for(symbol: u8, character: u8) -> bool
    ensures { result ≡ stands_for symbol character }
{
    symbol == b'?' || symbol == character
}

/// Whether the pattern has nothing but `*`, and so matches the empty text.
fn is_all_stars(pattern: &[u8]) -> bool
    ensures { result ≡ list_all (λ symbol. symbol == 42) pattern.now }
{
    pattern.iter().all(|symbol| *symbol == b'*')
}

/// Whether the pattern matches some suffix of the text.
///
/// The part of the pattern behind its last `*` so far, from `star` on, is tried against the text from `from` on:
/// the first `matched` characters of both are read. No earlier `*` has to be tried again, since a later one
/// takes whatever it could.
fn matches_a_suffix(pattern: &[u8], text: &[u8]) -> bool
    ensures { result ≡ any_suffix (is_wild_match pattern.now) text.now }
{
    let mut star = 0;
    let mut from = 0;
    let mut matched = 0;
    while from + matched < text.len() {
        let at = star + matched;
        if at < pattern.len() && pattern[at] == b'*' {
            star = at + 1;
            from += matched;
            matched = 0;
        } else if at < pattern.len() && stands_for(pattern[at], text[from + matched]) {
            matched += 1;
        } else {
            from += 1;
            matched = 0;
        }
    }
    is_all_stars(&pattern[star + matched..])
}

/// Whether the pattern matches the whole text: `*` stands for any run of characters, `?` for one, and
/// another character for itself. There is no escape, and an empty pattern matches the empty text alone.
pub fn wild(pattern: &[u8], text: &[u8]) -> bool
    ensures { result ≡ is_wild_match pattern.now text.now }
{
    for (i, symbol) in pattern.iter().enumerate() {
        if *symbol == b'*' {
            return matches_a_suffix(&pattern[i + 1..], &text[i..]);
        }
        if i == text.len() || !stands_for(*symbol, text[i]) {
            return false;
        }
    }
    pattern.len() == text.len()
}
