//! A record of the logical log, and its 128 bytes.
ghost use Rattle.std.specs.Prelude.{◌≡◌, IfSome, IsSomeAnd};
ghost use Rattle.log_history.specs.History.{LogEntry};
ghost use Rattle.log_record.specs.Layout.{IsRecord, spelling};
ghost use Rattle.log_record.specs.Entry.{entry_of};

use crate::{Text64, fields};

/// A record of the logical log.
#[derive(Clone, Debug, PartialEq, Eq, Drop)]
pub enum Record {
    /// A transaction begins.
    Begin {
        txn: u32,
    },
    /// A transaction writes bytes at an offset of the payload of a page of a space.
    Write {
        txn: u32,
        space: u16,
        page: u32,
        offset: u16,
        bytes: Text64,
    },
    /// A transaction ends, and its Writes count from here on.
    Commit {
        txn: u32,
        time: u64,
    },
    /// A transaction ends, and its Writes don't count.
    Abort {
        txn: u32,
    },
    /// A restore went back to the target position.
    Reset {
        restore: u64,
        target: u64,
        time: u64,
    },
}

impl Record {
    /// Writes the record's 128 bytes.
    #[tactic(auto, unfolding(crate::specs::Layout::spelling))]
    pub fn encode_into(&self, slot: &mut [u8; 128])
        requires { IsRecord (entry_of self.now) }
        ensures { slot.new ≡ spelling (entry_of self.now) }
    {
        fields::lay(&fields::of_record(self), slot);
    }

    /// The record whose bytes these are. `None` where they are no record's.
    pub fn decode(slot: &[u8; 128]) -> Option<Record>
        ensures found { IfSome result (λ r. IsRecord (entry_of r) × (slot.now ≡ spelling (entry_of r))) }
        ensures only { (entry : LogEntry) → IsRecord entry → slot.now ≡ spelling entry
            → IsSomeAnd result (λ r. entry_of r ≡ entry) }
    {
        let record = fields::record_in(&fields::read(slot))?;
        let mut again = [0; 128];
        record.encode_into(&mut again);
        (again == *slot).then_some(record)
    }
}
