//! Which positions are live, and whether a transaction is open.
ghost use Rattle.std.specs.Prelude.{◌≡◌, reverse};
ghost use Rattle.log_history.specs.Live.{live};
ghost use Rattle.log_history.specs.Transactions.{open_back};
ghost use Rattle.log_record.specs.Entry.{history_of};

use log_record::Record;

/// Whether position `x` is live at position `n`.
pub fn is_live(records: &[Record], n: u64, x: u64) -> bool
    ensures { result ≡ live (history_of records.now) n x }
{
    let mut limit = n;
    for i in (0..records.len()).rev() {
        let at = i as u64 + 1;
        if let Record::Reset { target, .. } = &records[i] {
            if limit >= at {
                if at <= x {
                    return x <= limit;
                }
                if *target >= at {
                    return false;
                }
                limit = *target;
            }
        }
    }
    x <= limit
}

/// Whether a transaction is open behind these records.
pub fn is_open(records: &[Record], txn: u32) -> bool
    ensures { result ≡ open_back txn (reverse (history_of records.now)) }
{
    for i in (0..records.len()).rev() {
        match &records[i] {
            Record::Begin { txn: other } if *other == txn => return true,
            Record::Commit { txn: other, .. } if *other == txn => return false,
            Record::Abort { txn: other } if *other == txn => return false,
            Record::Reset { .. } => return false,
            _ => {}
        }
    }
    false
}
