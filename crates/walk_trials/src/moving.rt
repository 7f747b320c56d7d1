// The moves of three disks, and two moves one after another.
ghost use Rattle.std.specs.Prelude.{◌∷◌, [], ◌+◌, ◌-◌, ◌<◌, ◌^◌, ◌≤◌, IsTrue, OnOk};
ghost use Rattle.walks.specs.Courses.{Call, make};
ghost use Rattle.walk_trials.specs.Trials.{EachMayUse, fault_of, trio_stage};
ghost use Rattle.walk_trials.specs.declared.trio.Move.TheVariants.{Raise, Seal};

use crate::growing::{grow, grow_all, sync_all};
use crate::{Move, Numbers, Trio};
use site_disk::{Disk, Era, Failed};

/// Raises all three in one era, and begins the next. Wherever it stops, each disk is at a place of its own.
pub fn raise<D: Disk>(trio: &mut Trio<D>, era: &mut Era, goals: Numbers) -> Result<(), Failed>
    requires may_use { EachMayUse D.Disk era.old trio.old }
    requires eras { era.old.number < 2 ^ 64 - 1 }
    ensures call { IsTrue D.is_modelled → Call (trio_stage D.Disk) 0 era.old.number era.new.number trio.old trio.new
        (λ numbers. make (Raise goals ∷ [])) (fault_of result) }
    ensures may_use { EachMayUse D.Disk era.new trio.new }
    ensures eras { era.new.number ≤ era.old.number + 1 }
{
    grow_all(trio, era, goals)?;
    sync_all(trio, era)?;
    era.next();
    Ok(())
}

/// Raises the first alone, and begins the next era.
pub fn seal<D: Disk>(trio: &mut Trio<D>, era: &mut Era, mark: u64) -> Result<(), Failed>
    requires may_use { EachMayUse D.Disk era.old trio.old }
    requires eras { era.old.number < 2 ^ 64 - 1 }
    ensures call { IsTrue D.is_modelled → Call (trio_stage D.Disk) 0 era.old.number era.new.number trio.old trio.new
        (λ numbers. make (Seal mark ∷ [])) (fault_of result) }
    ensures may_use { EachMayUse D.Disk era.new trio.new }
    ensures eras { era.new.number ≤ era.old.number + 1 }
{
    grow(&mut trio.first, era, mark)?;
    trio.first.sync(era)?;
    era.next();
    Ok(())
}

/// Makes one move, and begins the next era.
pub fn make_move<D: Disk>(trio: &mut Trio<D>, era: &mut Era, change: Move) -> Result<(), Failed>
    requires may_use { EachMayUse D.Disk era.old trio.old }
    requires eras { era.old.number < 2 ^ 64 - 1 }
    ensures call { IsTrue D.is_modelled → Call (trio_stage D.Disk) 0 era.old.number era.new.number trio.old trio.new
        (λ numbers. make (change ∷ [])) (fault_of result) }
    ensures may_use { EachMayUse D.Disk era.new trio.new }
    ensures eras { era.new.number ≤ era.old.number + 1 }
{
    match change {
        Move::Raise(goals) => raise(trio, era, goals),
        Move::Seal(mark) => seal(trio, era, mark),
    }
}

/// Raises all three, and in the next era the first alone.
pub fn raise_and_seal<D: Disk>(
    trio: &mut Trio<D>,
    era: &mut Era,
    goals: Numbers,
    mark: u64,
) -> Result<(), Failed>
    requires may_use { EachMayUse D.Disk era.old trio.old }
    requires eras { era.old.number < 2 ^ 64 - 2 }
    ensures call { IsTrue D.is_modelled → Call (trio_stage D.Disk) 0 era.old.number era.new.number trio.old trio.new
        (λ numbers. make (Raise goals ∷ Seal mark ∷ [])) (fault_of result) }
    ensures may_use { EachMayUse D.Disk era.new trio.new }
{
    let [before, behind] = [Move::Raise(goals), Move::Seal(mark)];
    make_move(trio, era, before)?;
    make_move(trio, era, behind)
}
