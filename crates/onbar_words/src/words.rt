//! The words of a command.
ghost use Rattle.std.specs.Prelude.{◌≡◌, ◌+◌, ◌-◌, ◌<◌, ◌≤◌, ◌^◌, length, map, codes, slice_get, string_bytes, Ok, Some, IfOk, IfErr, IsErrOf};
ghost use Rattle.command_grammar.specs.Words.{command_of, command_behind_j, form_of_words};
ghost use Rattle.onbar_words.specs.Order.{command_in, form_in, Refuses, FitsASite};
ghost use Rattle.onbar_words.specs.Readers.{Names};
ghost use Rattle.onbar_words.specs.declared.words.WordFault.TheVariants.{OutOfMemory};

use crate::init_words::read_init;
use crate::show_words::{read_end, read_show};
use bsa_descriptor::Text;
use onbar_grammar::number_within;
use site_headers::SpaceHead;
use std::alloc::{AllocError, AllocFailed, Global};
use thiserror::Error;

/// What a command is to do, and in how many streams, 1 to 16.
#[derive(Debug, PartialEq, Eq, Drop)]
pub struct Order {
    pub workers: u16,
    pub form: Form,
}

/// The form of a command.
#[derive(Debug, PartialEq, Eq, Drop)]
pub enum Form {
    /// `-init` formats a site: its blocks of 4,096 bytes in each volume, and its spaces.
    Init { blocks: u32, spaces: Vec<SpaceHead> },
    /// `-T` runs a script of transactions.
    Transactions,
    /// `-D` shows a space, or one page of it.
    Show { space: Text<19>, page: Option<u32> },
}

/// Why the words of a command aren't read.
#[derive(Clone, Copy, Debug, PartialEq, Eq, Error)]
pub enum WordFault {
    /// The first refused word, counted from 1, or one past the last where words are wanting.
    #[error("word {0} is refused")]
    At(u32),
    #[error("out of memory")]
    OutOfMemory,
}

impl From<AllocError> for WordFault {
    ghost from_gives = { λ _ fault. fault ≡ OutOfMemory };

    fn from(_: AllocError) -> WordFault {
        WordFault::OutOfMemory
    }
}

impl<T: Drop> From<AllocFailed<T>> for WordFault {
    ghost from_gives = { λ _ fault. fault ≡ OutOfMemory };

    fn from(_: AllocFailed<T>) -> WordFault {
        WordFault::OutOfMemory
    }
}

/// Reads the words behind the program's name: `[-j N]` and `-init [-k BLOCKS] NAME:PAGES ..`, `-T` or `-D SPACE [PAGE]`.
/// The fault names the first refused word. Only the spaces of `-init` take memory.
pub fn read_words(alloc: Global, words: &[String]) -> Result<Order, WordFault>
    requires { length words.now < 2 ^ 32 - 1 }
    ensures order { IfOk result (λ order. command_of (map string_bytes words.now) ≡ Ok (command_in order)) }
    ensures refused { IfErr result (Refuses (map string_bytes words.now)) }
    ensures workers { IfOk result (λ order. (1 ≤ order.workers) × (order.workers ≤ 16)) }
    ensures fits { IfOk result (λ order. FitsASite order.form) }
{
    match words {
        [option, rest @ ..] if option.as_str() == "-j" => read_behind_j(alloc, rest),
        _ => {
            let form = read_form(alloc, 1, words)?;
            Ok(Order { workers: 1, form })
        }
    }
}

/// The number of streams, and the form behind it.
fn read_behind_j(alloc: Global, words: &[String]) -> Result<Order, WordFault>
    requires { length words.now < 2 ^ 32 - 2 }
    ensures order { IfOk result (λ order. command_behind_j (map string_bytes words.now) ≡ Ok (command_in order)) }
    ensures refused { IfErr result (Names (command_behind_j (map string_bytes words.now))) }
    ensures memory { IsErrOf result WordFault.OutOfMemory → slice_get (map string_bytes words.now) 1 ≡ Some (codes "-init") }
    ensures workers { IfOk result (λ order. (1 ≤ order.workers) × (order.workers ≤ 16)) }
{
    let [count, rest @ ..] = words else {
        return Err(WordFault::At(2));
    };
    let workers = number_within(1, 16, count.as_bytes()).ok_or(WordFault::At(2))?;
    let form = read_form(alloc, 3, rest)?;
    Ok(Order {
        workers: workers as u16,
        form,
    })
}

/// A form, whose own word is at this place.
fn read_form(alloc: Global, at: u32, words: &[String]) -> Result<Form, WordFault>
    requires { at + length words.now < 2 ^ 32 }
    ensures form { IfOk result (λ form. form_of_words at (map string_bytes words.now) ≡ Ok (form_in form)) }
    ensures refused { IfErr result (Names (form_of_words at (map string_bytes words.now))) }
    ensures memory { IsErrOf result WordFault.OutOfMemory → slice_get (map string_bytes words.now) 0 ≡ Some (codes "-init") }
{
    let [word, rest @ ..] = words else {
        return Err(WordFault::At(at));
    };
    let word = word.as_str();
    if word == "-init" {
        read_init(alloc, at + 1, rest)
    } else if word == "-T" {
        read_end(Form::Transactions, at + 1, rest).map_err(WordFault::At)
    } else if word == "-D" {
        read_show(at + 1, rest).map_err(WordFault::At)
    } else {
        Err(WordFault::At(at))
    }
}
