// What a move does to the disks within its era.
ghost use Rattle.std.specs.Prelude.{◌≡◌, IsTrue, OnOk, length, max};
ghost use Rattle.site_disk.specs.Ledger.{MayUse};
ghost use Rattle.walk_trials.specs.Trials.{Grows, EachGrows, HaveCome, EachMayUse, EachStays, AreSettled, ReadAsBefore};

use crate::{Numbers, Trio};
use site_disk::{Disk, Era, Failed, extend_to};

#[tactic(auto, using(crate::specs::GrowsLaws::grows_written))]
/// Lengthens a disk to a place, where it is shorter.
pub fn grow<D: Disk>(disk: &mut D, era: &Era, goal: u64) -> Result<(), Failed>
    requires era { MayUse era.now (D.ledger disk.old) }
    ensures come { IsTrue D.is_modelled → OnOk result (length (D.bytes disk.new) ≡ max (length (D.bytes disk.old)) goal) }
    ensures crash { IsTrue D.is_modelled
        → Grows era.now.number (length (D.bytes disk.old)) goal (D.image disk.old) (D.image disk.new) }
    ensures may_use { MayUse era.now (D.ledger disk.new) }
{
    extend_to(disk, era, goal)
}

#[tactic(auto, using(crate::specs::GrowsLaws::grows_still))]
/// Lengthens each disk to its goal.
pub fn grow_all<D: Disk>(trio: &mut Trio<D>, era: &Era, goals: Numbers) -> Result<(), Failed>
    requires era { EachMayUse D.Disk era.now trio.old }
    ensures come { IsTrue D.is_modelled → OnOk result (HaveCome D.Disk goals trio.old trio.new) }
    ensures crash { IsTrue D.is_modelled → EachGrows D.Disk era.now.number goals trio.old trio.new }
    ensures may_use { EachMayUse D.Disk era.now trio.new }
{
    grow(&mut trio.first, era, goals.first)?;
    grow(&mut trio.second, era, goals.second)?;
    grow(&mut trio.third, era, goals.third)
}

#[tactic(auto, using(crate::specs::GrowsLaws::stays_still))]
/// Syncs each disk.
pub fn sync_all<D: Disk>(trio: &mut Trio<D>, era: &Era) -> Result<(), Failed>
    requires era { EachMayUse D.Disk era.now trio.old }
    ensures settled { IsTrue D.is_modelled → OnOk result (AreSettled D.Disk era.now.number trio.new) }
    ensures bytes { OnOk result (ReadAsBefore D.Disk trio.old trio.new) }
    ensures crash { EachStays D.Disk era.now.number trio.old trio.new }
    ensures may_use { EachMayUse D.Disk era.now trio.new }
{
    trio.first.sync(era)?;
    trio.second.sync(era)?;
    trio.third.sync(era)
}
