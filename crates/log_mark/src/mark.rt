//! The record in the log's mark.
ghost use Rattle.std.specs.Prelude.{◌≡◌, ◌↔◌, IsTrue, IfSome, Some};
ghost use Rattle.log_mark.specs.Layout.{IsMark, spelling};

use crate::fields;
use byte_fields::{write_bytes, write_zeros_from};

/// The files that a log's disk may hold.
pub const PLACES: usize = 8;

/// Which files the log's disk holds: those from the oldest one to the current one, each at the place that is its id modulo 8.
#[derive(Clone, Copy, Debug, PartialEq, Eq)]
pub struct LogMark {
    /// The id of the current file.
    pub current: u64,
    /// The id of the oldest file held.
    pub oldest: u64,
    /// The id of the last file that is backed up.
    pub backed_up_to: u64,
    /// The time of the last Commit or Reset before the oldest file.
    pub before: u64,
    /// Whether the current file is closed.
    pub is_closed: bool,
    /// The first positions of the files at the places, 0 where none is held.
    pub firsts: [u64; 8],
}

impl LogMark {
    ghost use Rattle.log_mark.specs.declared.mark.LogMark.{LogMark as MarkView};

    /// Writes the record's 255 bytes.
    pub fn encode_into(&self, bytes: &mut [u8; 255])
        ensures { bytes.new ≡ spelling self.now }
    {
        write_bytes(bytes, 0, &fields::front_of(self));
        write_bytes(bytes, 40, &fields::firsts_of(&self.firsts));
        write_zeros_from(bytes, 104);
    }

    /// The record whose bytes these are. `None` where they are no record's.
    pub fn decode(bytes: &[u8; 255]) -> Option<LogMark>
        ensures found { IfSome result (λ mark. IsMark mark × (bytes.now ≡ spelling mark)) }
        ensures only { (mark : MarkView) → IsMark mark → bytes.now ≡ spelling mark → result ≡ Some mark }
    {
        let mark = fields::read(bytes);
        if !fields::is_mark(&mark) {
            return None;
        }
        let mut again = [0; 255];
        mark.encode_into(&mut again);
        (again == *bytes).then_some(mark)
    }
}
