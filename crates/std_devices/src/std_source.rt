//! Standard input as a source.
ghost use Rattle.std.specs.Prelude.{◌≡◌, ◌≤◌, ◌<◌, false, [], length, take, IfOk, IfSome, IfNone};
ghost use Rattle.std.specs.Io.KnownBytes.{ReadConsumes, Consumes, IsAtEnd, Keeps};
ghost use Rattle.disk_model.specs.Source.{HasReadCause};

use disk_model::{Failed, Source};
use std::io::{ErrorKind, Read};
use std::rt::Stdin;

/// Standard input, or another reader, as a source. Contracts do not know its content. Each read that fails raises its count of faults.
#[derive(Drop)]
pub struct StdSource<R: Read + Drop = Stdin> {
    input: R,
    faults: u64,
}

impl<R: Read + Drop> StdSource<R> {
    /// Returns a source over this reader, with no faults counted.
    pub fn new(input: R) -> StdSource<R>
        ensures input { result.input ≡ input }
        ensures faults { result.faults ≡ 0 }
    {
        StdSource { input, faults: 0 }
    }
}

// Makes one read, and starts again if a signal interrupts it. Returns `None` if it fails.
fn read_some<R: Read>(input: &mut R, buf: &mut [u8]) -> Option<usize>
    ensures count { IfSome result (λ n. n ≤ length buf.new) }
    ensures given { IfSome result (λ n. Consumes (R.remaining input.old) (R.remaining input.new) (take n buf.new)) }
    ensures ends { IfSome result (λ n. n ≡ 0 → 0 < length buf.new → IsAtEnd (R.remaining input.new)) }
    ensures kept { IfNone result (Keeps (R.remaining input.old) (R.remaining input.new)) }
{
    for _ in 0..u64::MAX {
        match input.read(buf) {
            Ok(n) => return Some(n),
            Err(error) if error.kind() == ErrorKind::Interrupted => {}
            Err(_) => return None,
        }
    }
    None
}

impl<R: Read + Drop> Source for StdSource<R> {
    ghost readable = { false };

    ghost left = { λ source. [] };

    ghost faults = { λ source. source.faults };

    // It passes on exactly the bytes that the reader gives.
    fn read(&mut self, buf: &mut [u8]) -> Result<usize, Failed>
        requires { 0 < length buf.old }
        ensures count { IfOk result (λ n. n ≤ length buf.new) }
        ensures cause { HasReadCause self.old.faults self.new.faults result }
        ensures bytes { ReadConsumes (R.remaining self.old.input) (R.remaining self.new.input) result buf.new }
    {
        match read_some(&mut self.input, buf) {
            Some(n) => Ok(n),
            None => {
                self.faults = self.faults.saturating_add(1);
                Err(Failed)
            }
        }
    }
}
