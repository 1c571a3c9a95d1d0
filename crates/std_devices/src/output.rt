//! Writes bytes to an output.
ghost use Rattle.std.specs.Prelude.{◌≤◌, ◌<◌, length, take, IfSome, IfNone};
ghost use Rattle.std.specs.Io.KnownBytes.{Appends, Keeps};

use std::io::{ErrorKind, Write};

// Makes one write of at least one byte, and starts again if a signal interrupts it. Returns `None` if it fails or takes nothing.
pub(crate) fn write_some<W: Write>(output: &mut W, bytes: &[u8]) -> Option<usize>
    ensures count { IfSome result (λ n. (0 < n) × (n ≤ length bytes.now)) }
    ensures said { IfSome result (λ n. Appends (W.contents output.old) (W.contents output.new) (take n bytes.now)) }
    ensures kept { IfNone result (Keeps (W.contents output.old) (W.contents output.new)) }
{
    for _ in 0..u64::MAX {
        match output.write(bytes) {
            Ok(0) => return None,
            Ok(n) => return Some(n),
            Err(error) if error.kind() == ErrorKind::Interrupted => {}
            Err(_) => return None,
        }
    }
    None
}
