// Eras, the only clock.
ghost use Rattle.std.specs.Prelude.{◌≡◌, ◌+◌, ◌-◌, ◌<◌, ◌^◌};

use std::marker::Model;

/// A numbered span of calls. A crash falls in one era, and leaves of each disk one image of that era.
///
/// A command begins a new era before it changes another disk. An era can't be copied: streams share it.
#[derive(Drop)]
pub struct Era {
    number: u64,
    key: u64,
}

impl Model for Era {
    ghost use Rattle.site_disk.specs.Ledger.{EraView};

    ghost Value = { EraView };

    ghost view = { λ era. record { number = era.number; key = era.key } };
}

impl Era {
    /// Era 0. Of its key nothing is said.
    pub fn first() -> Era
        ensures { result.number ≡ 0 }
    {
        Era { number: 0, key: 0 }
    }

    pub fn number(&self) -> u64
        ensures { result ≡ self.now.number }
    {
        self.number
    }

    /// The key, which ties disks to their eras: a device takes calls only in eras of its own key.
    pub fn key(&self) -> u64
        ensures { result ≡ self.now.key }
    {
        self.key
    }

    /// Begins the next era, of the same disks.
    pub fn next(&mut self)
        requires { self.old.number < 2 ^ 64 - 1 }
        ensures number { self.new.number ≡ self.old.number + 1 }
        ensures key { self.new.key ≡ self.old.key }
    {
        self.number += 1;
    }
}
