//! Sources of input.
ghost use Rattle.std.specs.Prelude.{◌≤◌, ◌<◌, Bool, IsTrue, List, ℕ, length, IfOk};
ghost use Rattle.disk_model.specs.Source.{HasGiven, HasReadCause};

use crate::Failed;

/// Bytes that are read once, in pieces of whatever size the source gives.
pub trait Source {
    /// Whether the bytes left are known, as they are over memory. Otherwise, as over a pipe, only the count means something.
    ghost readable: { Bool };

    /// The bytes that were not read yet.
    ghost left: { Self → List ℕ };

    /// How often a read has failed, at most 2^64 - 1.
    ghost faults: { Self → ℕ };

    /// Reads some of the bytes left to the beginning of the buffer, and returns how many: 0 is the end of input.
    ///
    /// After `Failed` the bytes left are as before.
    fn read(&mut self, buf: &mut [u8]) -> Result<usize, Failed>
        requires { 0 < length buf.old }
        ensures count { IfOk result (λ n. n ≤ length buf.new) }
        ensures told { IsTrue readable → HasGiven buf.new (left self.old) (left self.new) result }
        ensures cause { HasReadCause (faults self.old) (faults self.new) result };
}
