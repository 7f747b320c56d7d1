//! What a slot holds.
ghost use Rattle.std.specs.Prelude.{◌≡◌, length, IsSomeAnd, IfSome, IfOk};

use crate::ObjectEntry;
use crate::front::front_of;
use crate::reading::{add_of, base_of, del_of, more_of};
use block_chain::Run;
use std::alloc::{AllocError, Global};

/// The bytes of a slot.
pub const SLOT_LEN: usize = 4096;

/// A record of the journal, which fills a slot.
#[derive(Debug, Drop)]
pub enum Slot {
    /// An object that is added, with the count of all its runs, and the first 177 of them in the entry.
    Add { count: u32, entry: ObjectEntry },
    /// More runs of the object that is being added, 1 to 510.
    More { copy: u64, runs: Vec<Run> },
    /// An object is deleted.
    Del { copy: u64 },
    /// The last copy id that was given before the area was written anew.
    Base { last: u64 },
}

impl Slot {
    ghost use Rattle.catalogue_slots.specs.Records.{Record, IsRecord};
    ghost use Rattle.catalogue_slots.specs.Layout.{spelling};
    ghost use Rattle.catalogue_slots.specs.Views.{record_of};

    /// What the 4,096 bytes of a slot spell, or `None` exactly where they spell no record. Takes memory for the runs
    /// alone.
    pub fn decode(alloc: Global, slot: &[u8]) -> Result<Option<Slot>, AllocError>
        requires { length slot.now ≡ 4096 }
        ensures found { IfOk result (λ read. IfSome read (λ found.
            IsRecord (record_of found) × (slot.now ≡ spelling (record_of found)))) }
        ensures only { (entry : Record) → IsRecord entry → slot.now ≡ spelling entry
            → IfOk result (λ read. IsSomeAnd read (λ found. record_of found ≡ entry)) }
    {
        let Some(front) = front_of(slot) else {
            return Ok(None);
        };
        let own = &slot[16..];
        match front.kind {
            1 => add_of(alloc, front, own),
            2 => more_of(alloc, front, own),
            3 => Ok(del_of(front, own)),
            4 => Ok(base_of(front, own)),
            _ => Ok(None),
        }
    }
}
