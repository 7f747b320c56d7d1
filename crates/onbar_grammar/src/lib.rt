//! The grammar of the words and scripts of `onbar`, as definitions that the readers and the model of the site cite, and
//! the readers of its smallest parts.
//!
//! Numbers, names and the parts around a byte are read exactly where the grammar has them, without memory.
#![tactic(auto)]

mod laws;
mod names;
mod numbers;
mod parts;

pub use laws::numbers_are_decimal;
pub use names::{is_name, name_in};
pub use numbers::{number_in, number_within};
pub use parts::parts_at;

/// Why a script line is refused. A line or a script that is too long is refused before the line is read; of the faults of
/// a line that is read, the first in this order is answered.
#[derive(Clone, Copy, Debug, PartialEq, Eq)]
pub enum Why {
    /// The line isn't in the grammar.
    Words,
    /// The site has no space of that name.
    NoSpace,
    /// The space has no such page.
    NoPage,
    /// The bytes pass the page's 4,080 bytes of payload.
    Range,
    /// A Begin of a transaction that is open.
    AlreadyOpen,
    /// A record of a transaction that isn't open.
    NotOpen,
    /// A Begin while 64 transactions are open.
    TooManyOpen,
    /// The line has more than 8,256 bytes.
    TooLong,
    /// The script has more than 16,777,216 bytes.
    ScriptTooLong,
    OutOfMemory,
}
