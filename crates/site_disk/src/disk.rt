// A disk, as all layers see it.
ghost use Rattle.std.specs.Prelude.{◌≡◌, ◌+◌, ◌<◌, ◌≤◌, List, ℕ, Bool, IsTrue, length, take, drop, IfOk, OnOk};
ghost use Rattle.site_disk.specs.Bytes.{extent, written, Torn, Same};
ghost use Rattle.site_disk.specs.Causes.{HasCause};
ghost use Rattle.site_disk.specs.Images.{Leaves, Stays, OnlyAfter, Unchanged};
ghost use Rattle.site_disk.specs.Ledger.{Ledger, MayUse, CountsRead, CountsWrite, CountsSync};

use crate::{Era, Failed};

/// Bytes from place 0 up to a length, which a crash may tear.
///
/// Until a sync that succeeds, each range written may hold any bytes after a crash, and past the old end the disk may
/// have any length up to the new end. Each call is made in an era, and eras don't go back. A call that fails leaves
/// what a crash in it may leave.
pub trait Disk: Drop {
    /// Whether clauses speak of what the disks hold; of a type where they do not, causes and counts alone are promised.
    ghost is_modelled: { Bool };

    /// What a read gives.
    ghost bytes: { Self → List ℕ };

    /// What a crash in an era may leave.
    ghost image: { Self → ℕ → List ℕ → Type 0 };

    /// Faults, bytes read and written, eras.
    ghost ledger: { Self → Ledger };

    /// The number of bytes.
    fn len(&mut self) -> Result<u64, Failed>
        ensures found { IsTrue is_modelled → IfOk result (λ n. n ≡ length (bytes self.old)) }
        ensures bytes { bytes self.new ≡ bytes self.old }
        ensures images { Unchanged (image self.old) (image self.new) }
        ensures ledger { ledger self.new ≡ record (ledger self.old) { faults = (ledger self.new).faults } }
        ensures cause { HasCause (ledger self.old).faults (ledger self.new).faults result };

    /// Reads from a place on: as many bytes as the buffer takes and the disk has, none from its end on.
    fn read_at(&mut self, era: &Era, at: u64, into: &mut [u8]) -> Result<usize, Failed>
        requires { MayUse era.now (ledger self.old) }
        ensures bound { IfOk result (λ n. n ≤ length into.old) }
        ensures count { IsTrue is_modelled → IfOk result (λ n. n ≡ length (extent at (length into.old) (bytes self.old))) }
        ensures found { IsTrue is_modelled → IfOk result (λ n. take n into.new ≡ extent at n (bytes self.old)) }
        ensures rest { IfOk result (λ n. drop n into.new ≡ drop n into.old) }
        ensures bytes { OnOk result (bytes self.new ≡ bytes self.old) }
        ensures images { OnOk result (Unchanged (image self.old) (image self.new)) }
        ensures crash { Leaves era.now.number Same (image self.old) (image self.new) }
        ensures stays { Stays era.now.number (image self.old) (image self.new) }
        ensures ledger { CountsRead era.now (ledger self.old) (ledger self.new) result }
        ensures cause { HasCause (ledger self.old).faults (ledger self.new).faults result };

    /// Writes at a place up to the end, over what is there and past it.
    fn write_at(&mut self, era: &Era, at: u64, piece: &[u8]) -> Result<(), Failed>
        requires era { MayUse era.now (ledger self.old) }
        requires within { IsTrue is_modelled → at ≤ length (bytes self.old) }
        ensures bytes { IsTrue is_modelled → OnOk result (bytes self.new ≡ written at piece.now (bytes self.old)) }
        ensures crash { Leaves era.now.number (Torn at (length piece.now)) (image self.old) (image self.new) }
        ensures stays { Stays era.now.number (image self.old) (image self.new) }
        ensures ledger { CountsWrite era.now (length piece.now) (ledger self.old) (ledger self.new) }
        ensures cause { HasCause (ledger self.old).faults (ledger self.new).faults result };

    /// At Ok, what was written stands: later eras are left what a read gives, until the next write.
    fn sync(&mut self, era: &Era) -> Result<(), Failed>
        requires { MayUse era.now (ledger self.old) }
        ensures bytes { OnOk result (bytes self.new ≡ bytes self.old) }
        ensures durable { IsTrue is_modelled → OnOk result (OnlyAfter era.now.number (bytes self.new) (image self.new)) }
        ensures crash { Leaves era.now.number Same (image self.old) (image self.new) }
        ensures stays { Stays era.now.number (image self.old) (image self.new) }
        ensures ledger { CountsSync era.now (ledger self.old) (ledger self.new) result }
        ensures cause { HasCause (ledger self.old).faults (ledger self.new).faults result };

    /// The eras after the last one used have the same images, and that era has them too.
    ghost now_counts: { (disk : Self) (f g : ℕ) (c : List ℕ) → (ledger disk).last ≤ f → (ledger disk).last < g → image disk g c → image disk f c };

    /// What a read gives is an image of the present era and of each later one.
    ghost reads_as: { (disk : Self) (f : ℕ) → IsTrue is_modelled → (ledger disk).last ≤ f → image disk f (bytes disk) };
}
