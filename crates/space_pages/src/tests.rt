//! Pages never written, a byte at the payload's end, the Writes of two transactions; digests from another program.
ghost use Rattle.std.specs.Prelude.{◌+◌, ◌<◌, ◌≤◌, length, IfSome};
ghost use Rattle.txn_table.specs.Table.{patch_of};
ghost use Rattle.space_pages.specs.Pages.{LiesInPage};

use crate::Pages;
use log_record::Text64;
use std::test::Fail;
use txn_table::Change;

/// A change of a page by the Commit at a position.
fn change(commit: u64, space: u16, page: u32, offset: u16, bytes: &[u8]) -> Option<Change>
    requires space { space < 16 }
    requires page { page < 65536 }
    requires within { offset + length bytes.now ≤ 4080 }
    ensures { IfSome result (λ c. LiesInPage (patch_of c)) }
{
    let bytes = Text64::from_bytes(bytes)?;
    Some(Change {
        commit,
        space,
        page,
        offset,
        bytes,
    })
}

#[test]
fn four_pages_never_written(rt: HostRuntime) -> Result<(), Fail> {
    let pages = Pages::new(rt.alloc(), 3, 0, 4)?;
    let wanted = [
        0xe4, 0xea, 0xf3, 0xca, 0xae, 0xf0, 0xbb, 0x21, 0xf7, 0x38, 0xd3, 0xd7, 0x85, 0x1c, 0xcb,
        0x1d, 0x33, 0x08, 0xa1, 0xf7, 0xef, 0x23, 0x42, 0x50, 0xff, 0x4d, 0xd7, 0x3c, 0x14, 0xe4,
        0x94, 0x0d,
    ];
    assert_eq!(rt; pages.len(), 4);
    assert!(rt; !pages.is_empty());
    assert_eq!(rt; pages.page(3), None);
    assert_eq!(rt; pages.stamp(0), 0);
    assert_eq!(rt; pages.used(), 0);
    assert_eq!(rt; pages.digest(), wanted);
    Ok(())
}

#[test]
fn two_transactions(rt: HostRuntime) -> Result<(), Fail> {
    let mut pages = Pages::new(rt.alloc(), 3, 0, 2)?;
    let first = [
        change(7, 3, 0, 0, b"A").ok_or("A")?,
        change(7, 3, 1, 4079, b"Z").ok_or("Z")?,
    ];
    pages.apply(&first)?;
    let second = [
        change(8, 3, 0, 1, b"B").ok_or("B")?,
        change(8, 4, 1, 0, b"C").ok_or("C")?,
        change(8, 3, 2, 0, b"D").ok_or("D")?,
    ];
    pages.apply(&second)?;
    let wanted = [
        0xfd, 0x68, 0xeb, 0x42, 0xa0, 0x66, 0x01, 0x3c, 0x29, 0xd5, 0x65, 0x66, 0x38, 0x10, 0xd3,
        0x1e, 0x00, 0x51, 0x8c, 0x9e, 0xa9, 0xeb, 0x15, 0x82, 0x1d, 0xa4, 0x46, 0x4b, 0x7f, 0xd3,
        0x45, 0x34,
    ];
    assert_eq!(rt; pages.len(), 2);
    assert_eq!(rt; (pages.stamp(0), pages.stamp(1), pages.used()), (8, 7, 2));
    let last = pages.page(1).ok_or("a page")?;
    assert_eq!(rt; last.payload[4079], b'Z');
    assert_eq!(rt; pages.digest(), wanted);
    Ok(())
}

#[test]
fn one_page_alone(rt: HostRuntime) -> Result<(), Fail> {
    let mut pages = Pages::new(rt.alloc(), 3, 5, 1)?;
    let changes = [
        change(9, 3, 4, 0, b"A").ok_or("A")?,
        change(9, 3, 5, 0, b"B").ok_or("B")?,
        change(9, 3, 6, 0, b"C").ok_or("C")?,
    ];
    pages.apply(&changes)?;
    assert_eq!(rt; pages.len(), 1);
    assert_eq!(rt; pages.page(0).ok_or("a page")?.payload[0], b'B');
    Ok(())
}
