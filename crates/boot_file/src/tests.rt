//! Boot files over disks in memory.
ghost use Rattle.std.specs.Prelude.{◌≡◌, ◌+◌, ◌≤◌, IfOk, OnOk};
ghost use Rattle.site_disk.specs.Ledger.{MayUse};
ghost use Rattle.site_disk.specs.MemDisk.{disk_ledger};
ghost use Rattle.boot_file.specs.Boots.{disk_of, IsOpen};

use crate::{Boot, BootFault, NO_SLOT};
use backup_lines::{Line, Point, Restore};
use site_disk::{Choice, Disk, Era, MemDisk};
use std::alloc::Global;
use std::test::Fail;

const SITE: u64 = 100;

/// A boot file with the lines of two batches.
fn with_three_lines(alloc: Global, era: &Era) -> Result<Boot<MemDisk>, Fail>
    ensures opened { IfOk result IsOpen }
    ensures may { IfOk result (λ boot. MayUse era.now (disk_ledger (disk_of boot))) }
{
    let disk = MemDisk::new(alloc, era, Vec::new(alloc));
    let mut boot = Boot::new(alloc, disk);
    boot.format(era, SITE)?;
    boot.append(era, &[Line::Gone { copy: 1 }])?;
    boot.append(era, &[Line::Gone { copy: 2 }, Line::Gone { copy: 3 }])?;
    Ok(boot)
}

/// The next restore, to a file.
fn begin(boot: &mut Boot<MemDisk>, era: &Era) -> Result<(), BootFault>
    requires opened { IsOpen boot.old }
    requires may { MayUse era.now (disk_ledger (disk_of boot.old)) }
    ensures opened { OnOk result (IsOpen boot.new) }
    ensures may { MayUse era.now (disk_ledger (disk_of boot.new)) }
{
    let number = boot.last_number().saturating_add(1);
    let restore = Restore {
        number,
        point: Point::File { file: 3 },
        to: 700,
        prepared: false,
    };
    boot.set_restore(era, Some(&restore))
}

#[test]
fn what_is_written_is_found_again(rt: HostRuntime) -> Result<(), Fail> {
    let alloc = rt.alloc();
    let era = Era::first();
    let mut boot = with_three_lines(alloc, &era)?;
    boot.sync(&era)?;
    begin(&mut boot, &era)?;
    let disk = boot.into_disk();
    assert_eq!(rt; disk.bytes().len(), 73_728 + 3 * 128);
    let mut again = Boot::new(alloc, disk);
    again.open(&era, SITE)?;
    assert_eq!(rt;
        again.lines(),
        [
            Line::Gone { copy: 1 },
            Line::Gone { copy: 2 },
            Line::Gone { copy: 3 }
        ]
        .as_slice()
    );
    let restore = Restore {
        number: 1,
        point: Point::File { file: 3 },
        to: 700,
        prepared: false,
    };
    assert_eq!(rt; again.restore(), Some(&restore));
    again.set_restore(&era, None)?;
    assert_eq!(rt; (again.restore(), again.last_number()), (None, 1));
    Ok(())
}

// Changes a byte, where the disk reaches it.
fn change(disk: &mut MemDisk, era: &Era, at: u64, byte: u8) -> Result<(), Fail>
    requires { MayUse era.now (disk_ledger disk.old) }
    ensures { MayUse era.now (disk_ledger disk.new) }
{
    if disk.len()? >= at {
        disk.write_at(era, at, &[byte])?;
    }
    Ok(())
}

/// Opens the boot file with three lines of which a byte was changed.
fn opened_with(alloc: Global, at: u64, byte: u8) -> Result<Result<usize, BootFault>, Fail> {
    let era = Era::first();
    let mut disk = with_three_lines(alloc, &era)?.into_disk();
    change(&mut disk, &era, at, byte)?;
    let mut boot = Boot::new(alloc, disk);
    match boot.open(&era, SITE) {
        Ok(()) => Ok(Ok(boot.lines().len())),
        Err(fault) => Ok(Err(fault)),
    }
}

/// A byte, its place, the slot that is named, and why.
static BAD_BYTES: [(u64, u8, u32, &str); 11] = [
    (0, 0, NO_SLOT, "a closed header"),
    (4, 4, NO_SLOT, "a disk of another kind"),
    (15, 101, NO_SLOT, "another site"),
    (4_095, 1, NO_SLOT, "a byte behind the header's fields"),
    (4_096, 0, NO_SLOT, "no valid mark"),
    (4_361, 1, NO_SLOT, "a restore whose number is 0"),
    (73_728, 4, 0, "a fourth kind"),
    (73_743, 0, 0, "copy id 0"),
    (73_857, 1, 1, "byte 1 of a line that has none"),
    (74_111, 1, 2, "the last byte of the last slot"),
    (8_197, 1, 3, "slots that the disk doesn't hold"),
];

#[test]
fn the_first_bad_slot_is_named(rt: HostRuntime) -> Result<(), Fail> {
    let alloc = rt.alloc();
    for (at, byte, slot, rule) in BAD_BYTES {
        let opened = opened_with(alloc, at, byte)?;
        assert_eq!(rt; opened, Err(BootFault::BadRecord { slot }), "{rule}");
    }
    assert_eq!(rt; opened_with(alloc, 8_195, 0)?, Ok(3));
    assert_eq!(rt; opened_with(alloc, 8_194, 0)?, Ok(1));
    Ok(())
}

#[test]
fn no_number_is_above_the_last_one(rt: HostRuntime) -> Result<(), Fail> {
    let alloc = rt.alloc();
    let era = Era::first();
    let mut disk = with_three_lines(alloc, &era)?.into_disk();
    change(&mut disk, &era, 4_354, 1)?;
    let mut boot = Boot::new(alloc, disk);
    boot.open(&era, SITE)?;
    let full = BootFault::BootFull {
        used: 3,
        wanted: 0,
        number: (1 << 48) + 1,
    };
    assert_eq!(rt; begin(&mut boot, &era), Err(full));
    assert_eq!(rt; boot.last_number(), 1 << 48);
    Ok(())
}

/// What is left of an append, or of a restore that begins, that a crash cuts short: whether it had answered, the lines, and the
/// last number.
fn left_after_stop(
    alloc: Global,
    begins: bool,
    call: u64,
    bytes: usize,
    seed: u64,
) -> Result<(bool, usize, u64), Fail> {
    let mut era = Era::first();
    let mut boot = with_three_lines(alloc, &era)?;
    era.next();
    boot.disk.stop_at(call, bytes);
    let ended = if begins {
        begin(&mut boot, &era).is_ok()
    } else {
        boot.append(&era, &[Line::Gone { copy: 4 }, Line::Gone { copy: 5 }])
            .is_ok()
    };
    let choice = Choice {
        calls: u64::MAX,
        seed,
    };
    let disk = boot.into_disk().crash(&era, &choice)?;
    let mut left = Boot::new(alloc, disk);
    left.open(&era, SITE)?;
    Ok((ended, left.lines().len(), left.last_number()))
}

#[test]
fn a_stop_leaves_what_stood_or_what_is_to_stand(rt: HostRuntime) -> Result<(), Fail> {
    let alloc = rt.alloc();
    for begins in [false, true] {
        let before = (3, 0);
        let after = if begins { (3, 1) } else { (5, 0) };
        let mut both = [false; 2];
        for call in 1..12 {
            for bytes in [0, 1, 128] {
                let (ended, lines, number) = left_after_stop(alloc, begins, call, bytes, call)?;
                let left = (lines, number);
                assert!(rt;
                    left == after || left == before && !ended,
                    "call {call}, byte {bytes}: {left:?}"
                );
                both = [both[0] || left == before, both[1] || left == after];
            }
        }
        assert_eq!(rt; both, [true, true]);
    }
    Ok(())
}

#[test]
fn a_failure_is_told(rt: HostRuntime) -> Result<(), Fail> {
    let alloc = rt.alloc();
    let era = Era::first();
    let mut boot = with_three_lines(alloc, &era)?;
    boot.disk.stop_at(1, 0);
    assert_eq!(rt; begin(&mut boot, &era), Err(BootFault::Failed));
    let mut again = Boot::new(alloc, boot.into_disk());
    assert_eq!(rt; again.open(&era, SITE), Err(BootFault::Failed));
    Ok(())
}
