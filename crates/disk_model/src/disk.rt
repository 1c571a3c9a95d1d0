//! What the calls of a disk do, and what a crash can leave.
ghost use Rattle.std.specs.Prelude.{◌≡◌, ◌≤◌, ◌<◌, ◌+◌, ◌^◌, Bool, IsTrue, List, ℕ, length};
ghost use Rattle.disk_model.specs.World.{World, Image, HasRead, HasWritten, HasSynced, HasDiskCause};

/// The two areas of a disk. Each is a list of bytes, followed by zeros without end.
#[derive(Clone, Copy, Debug, PartialEq, Eq)]
pub enum Area {
    /// The pages: page n is at byte 4,096 times n.
    Pages,
    /// The journal of the current commit.
    Journal,
}

/// A call to the outside failed. The count of faults of its kind rose, or was already at its greatest value.
#[derive(Clone, Copy, Debug, PartialEq, Eq)]
pub struct Failed;

/// A disk of two areas. A range that is read or written ends below byte 2^48.
///
/// After a crash, each range that was written since the area's last successful sync may hold any bytes, and all other bytes are
/// unchanged. After a sync that succeeded, a crash leaves what a read gives. No call writes to the sink.
pub trait Disk {
    /// Whether the world is known, as it is over memory. Otherwise, as over files, only the two counts mean something.
    ghost readable: { Bool };

    /// What is known of the disk now.
    ghost world: { Self → World };

    /// How many pages the area `Pages` may have.
    ghost room_of: { Self → ℕ };

    /// Returns how many pages the area `Pages` may have. It never changes.
    fn room(&self) -> u32
        ensures { result ≡ room_of self.now };

    /// Reads the area's bytes from offset `at` on. After `Failed` the buffer may hold any bytes.
    fn read(&mut self, area: Area, at: u64, buf: &mut [u8]) -> Result<(), Failed>
        requires { at + length buf.old < 2 ^ 48 }
        ensures told { IsTrue readable → HasRead area at buf.new (world self.old) (world self.new) result }
        ensures cause { HasDiskCause (world self.old) (world self.new) result }
        ensures room { room_of self.new ≡ room_of self.old };

    /// Writes the bytes from offset `at` on. After `Failed` the range may hold any bytes.
    fn write(&mut self, area: Area, at: u64, bytes: &[u8]) -> Result<(), Failed>
        requires { at + length bytes.now < 2 ^ 48 }
        ensures told { IsTrue readable → HasWritten area at bytes.now (world self.old) (world self.new) result }
        ensures cause { HasDiskCause (world self.old) (world self.new) result }
        ensures room { room_of self.new ≡ room_of self.old };

    /// Makes the area safe: after it a crash leaves the area as reads give it. After `Failed` nothing is known to have become safe.
    fn sync(&mut self, area: Area) -> Result<(), Failed>
        ensures told { IsTrue readable → HasSynced area (world self.old) (world self.new) result }
        ensures cause { HasDiskCause (world self.old) (world self.new) result }
        ensures room { room_of self.new ≡ room_of self.old };

    /// What reads give now is an image that a crash may leave.
    ghost leaves_seen: { (disk : Self) → IsTrue readable → (world disk).may_leave (world disk).seen };

    /// The present moment counts among those since any earlier moment.
    ghost counts_now: { (disk : Self) (t : ℕ) (image : Image) → IsTrue readable → t ≤ (world disk).moment
        → (world disk).may_leave image → (world disk).left_since t image (world disk).said };

    /// Since the present moment there is no other.
    ghost only_now: { (disk : Self) (image : Image) (said : List ℕ) → IsTrue readable
        → (world disk).left_since (world disk).moment image said → (world disk).may_leave image × (said ≡ (world disk).said) };
}
