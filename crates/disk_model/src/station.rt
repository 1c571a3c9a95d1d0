//! A disk with a sink for output.
ghost use Rattle.std.specs.Prelude.{◌≡◌, ◌≤◌, ◌<◌, IsTrue, length, IfOk};
ghost use Rattle.disk_model.specs.World.{HasSaid, HasSinkCause};

use crate::{Disk, Failed};

/// A disk together with a sink. A `say` changes no area.
pub trait Station: Disk {
    /// Writes bytes from the beginning of a piece to the sink, and returns how many: at least one.
    ///
    /// The piece is not empty. A sink that takes nothing has failed. After `Failed`, a prefix of the piece may have been written.
    fn say(&mut self, bytes: &[u8]) -> Result<usize, Failed>
        requires { 0 < length bytes.now }
        ensures count { IfOk result (λ n. (0 < n) × (n ≤ length bytes.now)) }
        ensures told { IsTrue Self.readable → HasSaid bytes.now (Self.world self.old) (Self.world self.new) result }
        ensures cause { HasSinkCause (Self.world self.old) (Self.world self.new) result }
        ensures room { Self.room_of self.new ≡ Self.room_of self.old };
}
