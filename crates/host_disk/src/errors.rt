// The errors of a device.
ghost use Rattle.std.specs.Prelude.{◌≡◌, ◌≤◌, None, Some};
ghost use Rattle.site_disk.specs.Causes.{Rose};
ghost use Rattle.site_disk.specs.Ledger.{counted};

use site_disk::Failed;
use std::io;

/// How many errors a device has met, and the last of them.
#[derive(Clone, Copy, Debug)]
pub struct Errors {
    pub(crate) count: u64,
    pub(crate) last: Option<io::Error>,
}

impl Errors {
    pub fn none() -> Errors
        ensures count { result.count ≡ 0 }
        ensures last { result.last ≡ None }
    {
        Errors {
            count: 0,
            last: None,
        }
    }

    /// Counts an error of the system; the count stands still at the end of a u64.
    pub fn add(&mut self, error: io::Error) -> Failed
        ensures counted { self.new.count ≡ counted self.old.count 1 }
        ensures last { self.new.last ≡ Some error }
        ensures rose { Rose self.old.count self.new.count }
        ensures later { self.old.count ≤ self.new.count }
    {
        self.count = self.count.saturating_add(1);
        self.last = Some(error);
        Failed
    }
}
