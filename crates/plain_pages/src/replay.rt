//! A page at a position: the Writes of each Commit in effect, in order.
ghost use Rattle.std.specs.Prelude.{◌≡◌, ◌+◌, ◌<◌, ◌≤◌, length, All, map, fold, reverse, take, drop, ◌++◌};
ghost use Rattle.log_history.specs.Effects.{page_at, with_change, change_by, writes_back, empty_page};
ghost use Rattle.log_record.specs.Layout.{IsRecord};
ghost use Rattle.log_record.specs.Entry.{entry_of, history_of};
ghost use Rattle.plain_pages.specs.Page.{page_of, changes_at, one_record_on};

use crate::{Page, is_live, is_open};
use log_record::Record;

/// The page of a space at position `n` of the history of these records.
pub fn page_of_log(records: &[Record], n: u64, space: u16, number: u32) -> Page
    requires { All (λ r. IsRecord (entry_of r)) records.now }
    ensures { page_of result ≡ page_at (history_of records.now) n space number }
{
    let mut page = Page::empty();
    for i in 0..records.len() {
        page = with_position(page, records, i, n, space, number);
    }
    page
}

/// The page with what the record at an index brings into effect.
fn with_position(page: Page, records: &[Record], i: usize, n: u64, space: u16, number: u32) -> Page
    requires index { i < length records.now }
    requires each { All (λ r. IsRecord (entry_of r)) records.now }
    ensures { page_of result ≡ fold (with_change space number) (page_of page) (changes_at (history_of records.now) n (i + 1)) }
{
    let Record::Commit { txn, .. } = &records[i] else {
        return page;
    };
    let commit = i as u64 + 1;
    if !is_live(records, n, commit) {
        return page;
    }
    if !is_open(&records[..i], *txn) {
        return page;
    }
    committed(&page, &records[..i], *txn, commit, space, number)
}

/// The page with the Writes of a transaction since its last Begin, brought by this Commit.
fn committed(
    base: &Page,
    records: &[Record],
    txn: u32,
    commit: u64,
    space: u16,
    number: u32,
) -> Page
    requires { All (λ r. IsRecord (entry_of r)) records.now }
    ensures { page_of result ≡ fold (with_change space number) (page_of base.now)
        (map (change_by commit) (writes_back txn (reverse (history_of records.now)))) }
{
    let mut page = *base;
    for record in records {
        page = with_record(base, page, record, txn, commit, space, number);
    }
    page
}

/// The page one record on: a Begin goes back to the base.
fn with_record(
    base: &Page,
    mut page: Page,
    entry: &Record,
    txn: u32,
    commit: u64,
    space: u16,
    number: u32,
) -> Page
    requires { IsRecord (entry_of entry.now) }
    ensures { page_of result ≡ one_record_on txn commit space number (page_of base.now) (entry_of entry.now) (page_of page) }
{
    match entry {
        Record::Begin { txn: other } if *other == txn => *base,
        Record::Write {
            txn: other,
            space: written,
            page: at,
            offset,
            bytes,
        } if *other == txn && *written == space && *at == number => {
            page.lay(commit, *offset, bytes.as_bytes());
            page
        }
        _ => page,
    }
}
