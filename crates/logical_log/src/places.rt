//! Where a held file's records begin, and how many they are.
ghost use Rattle.std.specs.Prelude.{◌≡◌, ◌+◌, ◌≤◌, ℕ, [], length, IfSome, IfNone};
ghost use Rattle.log_files.specs.Files.{LogFiles, AreFiles, records_of};
ghost use Rattle.log_files.specs.Held.{IsHeld, Tells};
ghost use Rattle.logical_log.specs.Records.{IsFirstOf, IsPlaced};

use log_files::{HeldFiles, place_of};

// The position behind a held file's last record.
fn next_first(held: &HeldFiles, file: u64) -> u64
    requires held { IsHeld held.now }
    requires within { held.now.mark.oldest ≤ file }
    requires current { file ≤ held.now.mark.current }
    ensures { (files : LogFiles) → AreFiles files → Tells files held.now → (first : ℕ) → IsFirstOf files file first → result ≡ first + length (records_of files file) }
{
    if file == held.mark.current {
        return held.next;
    }
    held.mark.firsts[place_of(file + 1) as usize]
}

/// The position of a held file's first record, and the count of its records. `None` where no such file is held.
pub(crate) fn place_in(held: &HeldFiles, file: u64) -> Option<(u64, usize)>
    requires { IsHeld held.now }
    ensures placed { (files : LogFiles) → AreFiles files → Tells files held.now → IfSome result (λ found. IsPlaced files file found.0 found.1) }
    ensures none { (files : LogFiles) → AreFiles files → Tells files held.now → IfNone result (records_of files file ≡ []) }
    ensures few { IfSome result (λ found. found.1 ≤ 256) }
{
    if file < held.mark.oldest || held.mark.current < file {
        return None;
    }
    let first = held.mark.firsts[place_of(file) as usize];
    let count = next_first(held, file) - first;
    Some((first, count as usize))
}
