//! The live objects, by their copy ids.
ghost use Rattle.std.specs.Prelude.{◌≡◌, ◌∷◌, ◌++◌, [], map, IfOk, OnOk, OnErr};
ghost use Rattle.catalogue_slots.specs.Views.{object_of};
ghost use Rattle.catalogue_replay.specs.Contents.{has_copy, without};
ghost use Rattle.catalogue_replay.specs.Live.{AreBelow};

use catalogue_slots::ObjectEntry;
use std::alloc::{AllocError, Global};
use std::collections::BTreeMap;
use std::marker::Model;

/// The live objects, in order of copy id. Each is found in a time that is logarithmic in their number.
#[derive(Drop)]
pub(crate) struct LiveObjects {
    entries: BTreeMap<u64, ObjectEntry>,
}

impl Model for LiveObjects {
    ghost use Rattle.std.specs.Prelude.{List};
    ghost use Rattle.catalogue_slots.specs.Records.{Object};
    ghost use Rattle.catalogue_replay.specs.Live.{objects_in, IsUnderItsCopy};
    ghost use Rattle.std.specs.List.{AllByRecursion};

    ghost Value = { List Object };

    ghost view = { λ live. objects_in live.entries.entries };

    ghost invariant = { λ live. AllByRecursion IsUnderItsCopy live.entries.entries };
}

impl LiveObjects {
    pub(crate) fn new(alloc: Global) -> LiveObjects
        ensures { result ≡ [] }
    {
        LiveObjects {
            entries: BTreeMap::new(alloc),
        }
    }

    /// Adds an object behind all others.
    pub(crate) fn push(&mut self, entry: ObjectEntry) -> Result<(), AllocError>
        requires { AreBelow entry.copy self.old }
        ensures pushed { OnOk result (self.new ≡ self.old ++ object_of entry ∷ []) }
        ensures kept { OnErr result (self.new ≡ self.old) }
    {
        let _ = self.entries.insert(entry.copy, entry)?;
        Ok(())
    }

    /// Takes the object with this copy id out. Whether there was one.
    pub(crate) fn take_out(&mut self, copy: u64) -> bool
        ensures found { result ≡ has_copy copy self.old }
        ensures rest { self.new ≡ without copy self.old }
    {
        self.entries.remove(&copy).is_some()
    }

    /// The entries of the objects, in order.
    pub(crate) fn into_entries(self, alloc: Global) -> Result<Vec<ObjectEntry>, AllocError>
        ensures { IfOk result (λ entries. map object_of entries.items ≡ self) }
    {
        self.entries.into_values().collect(alloc)
    }
}
