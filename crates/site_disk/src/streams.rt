// What a command reads its script from, and what it prints to.
ghost use Rattle.std.specs.Prelude.{◌≡◌, ◌+◌, ◌<◌, ◌≤◌, List, ℕ, Bool, IsTrue, length, take, drop, ◌++◌, IfOk, OnErr};
ghost use Rattle.site_disk.specs.Causes.{HasCause};
ghost use Rattle.site_disk.specs.Streams.{Takes};

use crate::Failed;

/// A stream of bytes to read.
pub trait Source {
    /// Whether clauses speak of what the sources have left.
    ghost is_modelled: { Bool };

    /// The bytes that are left.
    ghost left: { Self → List ℕ };

    ghost faults: { Self → ℕ };

    /// Reads some of the bytes left, at least one where any is left and the buffer isn't empty.
    /// `Ok(0)` into a buffer that isn't empty is the end. `Failed` takes nothing.
    fn read(&mut self, into: &mut [u8]) -> Result<usize, Failed>
        ensures bound { IfOk result (λ n. n ≤ length into.old) }
        ensures taken { IsTrue is_modelled → IfOk result (λ n. Takes (left self.old) (left self.new) into.old into.new n) }
        ensures kept { OnErr result (left self.new ≡ left self.old) }
        ensures cause { HasCause (faults self.old) (faults self.new) result };
}

/// A stream of bytes to write.
pub trait Sink {
    /// Whether clauses speak of what the sinks have taken.
    ghost is_modelled: { Bool };

    /// The bytes that it has taken.
    ghost taken: { Self → List ℕ };

    ghost faults: { Self → ℕ };

    /// Takes some bytes of the piece's front, at least one of a piece that isn't empty. `Failed` takes nothing.
    fn write(&mut self, piece: &[u8]) -> Result<usize, Failed>
        ensures bound { IfOk result (λ n. n ≤ length piece.now) }
        ensures some { IfOk result (λ n. 0 < length piece.now → 0 < n) }
        ensures taken { IsTrue is_modelled → IfOk result (λ n. taken self.new ≡ taken self.old ++ take n piece.now) }
        ensures kept { OnErr result (taken self.new ≡ taken self.old) }
        ensures cause { HasCause (faults self.old) (faults self.new) result };
}
