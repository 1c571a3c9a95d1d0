//! That the replies to the lines of a script are printed before the next piece of it is read: one trace has the reads and what is printed.
ghost use Rattle.std.specs.Prelude.{◌≤◌, ◌<◌, IsTrue, false, [], length, IfOk};
ghost use Rattle.disk_model.specs.Source.{HasGiven, HasReadCause};

use crate::runs::{RUN, run_under};
use disk_model::{Failed, Source};
use irtree_top::Ended;
use split_policy::Quadratic;
use std::alloc::Global;
use std::cell::RefCell;
use std::io::{self, ErrorKind, Write};
use std::test::Fail;
use std_devices::ScratchStation;

// Scripts in pieces, and their traces: `<` for each read, the one that ends the input too, and the bytes printed between them.
static TRACES: [(&[&[u8]], &[u8]); 3] = [
    (
        &[b"add a 0 0\n", b"count\n", b"nearest 0 0 1\n"],
        b"<ok\n<count 1\n<= 1\n1 \"a\" 0.0000000\n<",
    ),
    (
        &[
            b"add a 0 0\nco",
            b"unt\nshow a\nadd b 3",
            b" 4\nremove a\nbox 0 0 9 9\ncount",
        ],
        b"<ok\n<count 1\nplace \"a\" 0.0000000 0.0000000 0 \"\"\n<ok\nok\n= 1\n1 \"b\"\n<count 1\n",
    ),
    (
        &[b"a", b"dd a 0 0", b"\n", b"# note\n\n", b"bad\n\n"],
        b"<<<ok\n<<bad command\n<",
    ),
];

// Adds bytes to a trace, and returns whether there was memory for them.
fn note(trace: &RefCell<Vec<u8>>, bytes: &[u8]) -> bool {
    match trace.try_borrow_mut() {
        Ok(mut trace) => trace.extend_from_slice(bytes).is_ok(),
        Err(_) => false,
    }
}

// A script that comes in pieces, and notes each read.
#[derive(Drop)]
struct Pieces<'t> {
    pieces: &'t [&'t [u8]],
    at: usize,
    trace: &'t RefCell<Vec<u8>>,
}

impl Source for Pieces<'_> {
    ghost readable = { false };

    ghost left = { λ source. [] };

    ghost faults = { λ source. 0 };

    fn read(&mut self, buf: &mut [u8]) -> Result<usize, Failed>
        requires { 0 < length buf.old }
        ensures count { IfOk result (λ n. n ≤ length buf.new) }
        ensures told { IsTrue false → HasGiven buf.new [] [] result }
        ensures cause { HasReadCause 0 0 result }
    {
        let _noted = note(self.trace, b"<");
        let Some(piece) = self.pieces.get(self.at) else {
            return Ok(0);
        };
        self.at = self.at.saturating_add(1);
        let n = buf.len().min(piece.len());
        buf[..n].copy_from_slice(&piece[..n]);
        Ok(n)
    }
}

// What is printed, as a part of the trace.
#[derive(Drop)]
struct Sayings<'t> {
    trace: &'t RefCell<Vec<u8>>,
}

impl Write for Sayings<'_> {
    fn write(&mut self, buf: &[u8]) -> io::Result<usize> {
        if note(self.trace, buf) {
            Ok(buf.len())
        } else {
            Err(ErrorKind::OutOfMemory.into())
        }
    }

    fn flush(&mut self) -> io::Result<()> {
        Ok(())
    }
}

// Runs a script, and notes its reads and what it prints in the trace.
fn follow(alloc: Global, pieces: &[&[u8]], trace: &RefCell<Vec<u8>>) -> Result<Ended, Fail> {
    let mut source = Pieces {
        pieces,
        at: 0,
        trace,
    };
    let mut station = ScratchStation::new(alloc, Sayings { trace });
    let policy = Box::new(alloc, Quadratic::new())?;
    run_under(alloc, &RUN, &mut source, &mut station, policy)
}

#[test]
fn replies_are_said_before_the_next_piece_is_read(rt: HostRuntime) -> Result<(), Fail> {
    for (pieces, wanted) in &TRACES {
        let trace = RefCell::new(Vec::new(rt.alloc()));
        assert!(rt; follow(rt.alloc(), pieces, &trace)? == Ended::Done);
        assert!(rt; trace.into_inner().as_slice() == *wanted);
    }
    Ok(())
}
