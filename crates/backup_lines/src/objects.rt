//! The objects that a restore needs, and those that it can't have.
ghost use Rattle.std.specs.Prelude.{◌≡◌};

use std::marker::Model;

/// An object that a restore needs: an archive of a space at a level, or a log file.
#[derive(Clone, Copy, Debug, PartialEq, Eq)]
pub enum What {
    Archive { space: u16, level: u8 },
    Log { file: u64 },
}

/// An object that a restore needs, and its copy id.
#[derive(Clone, Copy, Debug, PartialEq, Eq)]
pub struct Need {
    pub what: What,
    pub copy: u64,
}

/// A thing that a restore lacks.
#[derive(Clone, Copy, Debug, PartialEq, Eq)]
pub enum Lacking {
    /// The space has no level 0 that serves.
    NoLevel0 { space: u16 },
    /// The object isn't in the store.
    Missing { what: What, copy: u64 },
    /// The object's bytes aren't those that were sent.
    Damaged { what: What, copy: u64 },
}

/// All that a restore lacks, in the order in which it is printed.
#[derive(Debug, Drop)]
pub struct LackingList {
    items: Vec<Lacking>,
}

impl Model for LackingList {
    ghost use Rattle.std.specs.Prelude.{List};
    ghost use Rattle.backup_lines.specs.declared.objects.Lacking.{Lacking};

    ghost Value = { List Lacking };

    ghost view = { λ list. list.items.items };
}

impl LackingList {
    pub fn new(items: Vec<Lacking>) -> LackingList
        ensures { result ≡ items.items }
    {
        LackingList { items }
    }

    pub fn as_slice(&self) -> &[Lacking]
        ensures { result.now ≡ self.now }
    {
        &self.items
    }
}
