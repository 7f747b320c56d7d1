//! The words of `-init`. A reader is told the place of its first word.
ghost use Rattle.std.specs.Prelude.{◌≡◌, ◌+◌, ◌<◌, ◌≤◌, ◌^◌, [], length, map, string_bytes, Ok, IfOk, IfErr};
ghost use Rattle.std.specs.Option.{option_map};
ghost use Rattle.command_grammar.specs.Words.{init_of_words, init_behind_k, spaces_of_words, space_of_word, space_of_parts, has_space};
ghost use Rattle.site_headers.specs.Views.{space_of, spaces_of};
ghost use Rattle.onbar_words.specs.Order.{form_in};
ghost use Rattle.onbar_words.specs.Readers.{Names, next_of};

use crate::words::{Form, WordFault};
use onbar_grammar::{name_in, number_within, parts_at};
use site_headers::SpaceHead;
use std::alloc::Global;

const MAX_SPACES: usize = 16;

const MAX_BLOCKS: u32 = 1_048_576;

const MAX_PAGES: u32 = 65_536;

/// `[-k BLOCKS] NAME:PAGES ..`
pub(crate) fn read_init(alloc: Global, at: u32, words: &[String]) -> Result<Form, WordFault>
    requires { at + length words.now < 2 ^ 32 }
    ensures form { IfOk result (λ form. init_of_words at (map string_bytes words.now) ≡ Ok (form_in form)) }
    ensures refused { IfErr result (Names (init_of_words at (map string_bytes words.now))) }
{
    match words {
        [option, rest @ ..] if option.as_str() == "-k" => read_behind_k(alloc, at + 1, rest),
        _ => {
            let spaces = read_spaces(alloc, at, words)?;
            Ok(Form::Init {
                blocks: MAX_BLOCKS,
                spaces,
            })
        }
    }
}

/// The number of blocks, and the spaces behind it.
fn read_behind_k(alloc: Global, at: u32, words: &[String]) -> Result<Form, WordFault>
    requires { at + length words.now < 2 ^ 32 }
    ensures form { IfOk result (λ form. init_behind_k at (map string_bytes words.now) ≡ Ok (form_in form)) }
    ensures refused { IfErr result (Names (init_behind_k at (map string_bytes words.now))) }
{
    let [count, rest @ ..] = words else {
        return Err(WordFault::At(at));
    };
    let blocks = number_within(1, MAX_BLOCKS, count.as_bytes()).ok_or(WordFault::At(at))?;
    let spaces = read_spaces(alloc, at + 1, rest)?;
    Ok(Form::Init { blocks, spaces })
}

/// `NAME:PAGES ..`, with room for the spaces from the first on.
fn read_spaces(alloc: Global, at: u32, words: &[String]) -> Result<Vec<SpaceHead>, WordFault>
    requires { at + length words.now < 2 ^ 32 }
    ensures spaces { IfOk result (λ spaces. spaces_of_words at [] (map string_bytes words.now) ≡ Ok (spaces_of spaces.items)) }
    ensures refused { IfErr result (Names (spaces_of_words at [] (map string_bytes words.now))) }
{
    let mut spaces = Vec::with_capacity(alloc, words.len().min(MAX_SPACES))?;
    for (i, word) in words.iter().enumerate() {
        let place = at + i as u32;
        let space = next_space(word.as_bytes(), &spaces).ok_or(WordFault::At(place))?;
        spaces.push(space)?;
    }
    if spaces.is_empty() {
        return Err(WordFault::At(at));
    }
    Ok(spaces)
}

/// The space that a word names, where it may stand behind those before it.
fn next_space(word: &[u8], before: &[SpaceHead]) -> Option<SpaceHead>
    ensures { option_map space_of result ≡ next_of (spaces_of before.now) (space_of_word word.now) }
{
    let space = space_in(word)?;
    if before.len() == MAX_SPACES || has_name(space.name.as_bytes(), before) {
        return None;
    }
    Some(space)
}

/// Whether one of the spaces has this name.
fn has_name(name: &[u8], spaces: &[SpaceHead]) -> bool
    ensures { result ≡ has_space name.now (spaces_of spaces.now) }
{
    spaces.iter().any(|space| space.name.as_bytes() == name)
}

/// `NAME:PAGES`
fn space_in(word: &[u8]) -> Option<SpaceHead>
    ensures { option_map space_of result ≡ space_of_word word.now }
{
    let (name, pages) = parts_at(b':', word)?;
    space_from(name, pages)
}

fn space_from(name: &[u8], pages: &[u8]) -> Option<SpaceHead>
    ensures { option_map space_of result ≡ space_of_parts name.now pages.now }
{
    let name = name_in(name)?;
    let pages = number_within(1, MAX_PAGES, pages)?;
    Some(SpaceHead { name, pages })
}
