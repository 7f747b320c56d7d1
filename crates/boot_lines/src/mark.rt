//! The record in the boot file's mark.
ghost use Rattle.std.specs.Prelude.{◌≡◌, ◌↔◌, ◌≤◌, ◌++◌, ℕ, length, Option, IsTrue, IfSome, IsSomeAnd};
ghost use Rattle.std.specs.Int.{w64, to_be_bytes};
ghost use Rattle.backup_lines.specs.Views.{point_of};
ghost use Rattle.backup_lines.specs.Spans.{Active};
ghost use Rattle.boot_lines.specs.MarkLayout.{IsMark, IsGoal, active_of, active_in, point_code, point_number, state_code, active_bytes, spelling, point_at, active_at};

use backup_lines::{Point, Restore};
use byte_fields::{u64_at, write_bytes, write_zeros_from};

/// The greatest restore number, file id, position and time.
const MAX: u64 = 1 << 48;

/// The record: the number of the last restore, and the restore that is under way, where there is one. Such a one has the last number.
#[derive(Clone, Copy, Debug, PartialEq, Eq)]
pub struct BootMark {
    pub last_number: u64,
    pub restore: Option<Restore>,
}

fn code_of(point: &Point) -> u8
    ensures { result ≡ point_code (point_of point.now) }
{
    match point {
        Point::End => 1,
        Point::File { .. } => 2,
        Point::Time { .. } => 3,
    }
}

fn number_of(point: &Point) -> u64
    ensures { result ≡ point_number (point_of point.now) }
{
    match point {
        Point::End => 0,
        Point::File { file } => *file,
        Point::Time { time } => *time,
    }
}

/// Bytes 8 to 31.
#[tactic(auto, unfolding(crate::specs::MarkLayout::active_bytes))]
fn active_bytes(restore: &Option<Restore>) -> [u8; 24]
    ensures { result ≡ active_bytes (active_in restore.now) }
{
    let mut bytes = [0; 24];
    if let Some(restore) = restore {
        bytes[0] = if restore.prepared { 2 } else { 1 };
        bytes[1] = code_of(&restore.point);
        bytes[8..16].copy_from_slice(&number_of(&restore.point).to_be_bytes());
        bytes[16..24].copy_from_slice(&restore.to.to_be_bytes());
    }
    bytes
}

#[tactic(auto, unfolding(crate::specs::MarkLayout::point_at))]
fn point_at(bytes: &[u8]) -> Point
    requires { length bytes.now ≡ 255 }
    ensures { point_of result ≡ point_at bytes.now }
{
    match bytes[9] {
        2 => Point::File {
            file: u64_at(bytes, 16),
        },
        3 => Point::Time {
            time: u64_at(bytes, 16),
        },
        _ => Point::End,
    }
}

#[tactic(auto, unfolding(crate::specs::MarkLayout::active_at))]
fn restore_at(bytes: &[u8]) -> Option<Restore>
    requires { length bytes.now ≡ 255 }
    ensures { active_in result ≡ active_at bytes.now }
{
    if bytes[8] != 1 && bytes[8] != 2 {
        return None;
    }
    Some(Restore {
        number: u64_at(bytes, 0),
        point: point_at(bytes),
        to: u64_at(bytes, 24),
        prepared: bytes[8] == 2,
    })
}

/// Whether the restore goes to a place within bounds.
fn is_goal(restore: &Restore) -> bool
    ensures { IsTrue result ↔ IsGoal (active_of restore.now) }
{
    number_of(&restore.point) <= MAX && restore.to <= MAX
}

impl BootMark {
    /// Writes the record's 255 bytes.
    pub fn encode_into(&self, bytes: &mut [u8; 255])
        ensures { bytes.new ≡ spelling self.now.last_number (active_in self.now.restore) }
    {
        write_bytes(bytes, 0, &self.last_number.to_be_bytes());
        write_bytes(bytes, 8, &active_bytes(&self.restore));
        write_zeros_from(bytes, 32);
    }

    fn is_mark(&self) -> bool
        ensures { IsTrue result ↔ IsMark self.now.last_number (active_in self.now.restore) }
    {
        let follows = match &self.restore {
            Some(restore) => {
                restore.number == self.last_number && self.last_number >= 1 && is_goal(restore)
            }
            None => true,
        };
        self.last_number <= MAX && follows
    }

    /// The record whose 255 bytes these are. `None` where they are no record's.
    pub fn decode(bytes: &[u8; 255]) -> Option<BootMark>
        ensures found { IfSome result (λ mark. IsMark mark.last_number (active_in mark.restore) × (bytes.now ≡ spelling mark.last_number (active_in mark.restore))) }
        ensures only { (number : ℕ) (active : Option Active) → IsMark number active → bytes.now ≡ spelling number active
            → IsSomeAnd result (λ mark. (mark.last_number ≡ number) × (active_in mark.restore ≡ active)) }
    {
        let mark = BootMark {
            last_number: u64_at(bytes, 0),
            restore: restore_at(bytes),
        };
        if !mark.is_mark() {
            return None;
        }
        let mut again = [0; 255];
        mark.encode_into(&mut again);
        (again == *bytes).then_some(mark)
    }
}
