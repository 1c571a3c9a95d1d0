//! What scripts print.
ghost use Rattle.std.specs.Prelude.{◌≤◌, ◌<◌, false, [], length, IfOk};
ghost use Rattle.disk_model.specs.Source.{HasReadCause};

use crate::runs::{LOAD, RUN, ends_so, ends_under};
use disk_model::{Failed, Source};
use irtree_top::{Ended, INPUT_MAX, InputFault, LOAD_MAX};
use split_policy::Quadratic;
use std::test::Fail;

// A script, and what it prints.
static SCRIPTS: [(&[u8], &[u8]); 11] = [
    (
        b"add a 0 0\nadd b 3 4\nnearest 0 0 2\n",
        b"ok\nok\n= 2\n1 \"a\" 0.0000000\n2 \"b\" 5.0000000\n",
    ),
    (b"", b""),
    (b"# note\n\n  \n", b""),
    (
        b"add w -180 -90\nnearest 180 90 1\n",
        b"ok\n= 1\n1 \"w\" 180.0000000\n",
    ),
    (
        b"add a 0 0\nadd b 3 4\nadd c 3 -4\nnearest 0 0 2\n",
        b"ok\nok\nok\n= 2\n1 \"a\" 0.0000000\n2 \"b\" 5.0000000\n",
    ),
    (
        b"add a 1 1\r\nadd a 0 0\r\nnearest 0 0 9\r\n",
        b"ok\nok replaced\n= 1\n1 \"a\" 0.0000000\n",
    ),
    (b"add a 0 0\nnearest 0 0 1", b"ok\n= 1\n1 \"a\" 0.0000000\n"),
    (
        b"ad a 0 0\nadd a 0\nadd \xff 0 0\nadd a 0 0\n",
        b"bad command\nbad missing\nbad utf8\nok\n",
    ),
    (
        b"nearest 0 0 1000\nnearest 0 0 0\nnearest 0 0 1001\n\n\xff\ncount",
        b"= 0\nbad range\nbad range\nbad utf8\ncount 0\n",
    ),
    // Longitudes meet in each query by distance, and in no box.
    (
        b"add e 179.9 0 a\nadd f -179.8 0 b\nrange 180 0 0.1\ntop -179.9 0 1 1000 1 words a\ngroup 179.9 0 words a b\nbox 179 -1 -179 1\nadd e 180 0\nnearest 0 0 1\n",
        b"ok\nok\n= 1\n1 \"e\" 0.1000000\n= 1\n1 \"e\" 510000000000\n= 2 0.6000000\n1 \"a\" \"e\" 0.0000000\n2 \"b\" \"f\" 0.3000000\nbad range\nok replaced\n= 1\n1 \"f\" 179.8000000\n",
    ),
    // So a scale is in each of them.
    (
        b"add g 3 4 a\nrange 0 0 4 scale 0 where a\ntop 0 0 1 1000 1 scale 0 words a\ngroup 0 0 scale 500 words a\nrange 0 0 4 where a scale 0\ngroup 0 0 scale -1 words a\nadd g 180 0\nnearest 0 0 1\n",
        b"ok\n= 1\n1 \"g\" 4.0000000\n= 1\n1 \"g\" 10200000000000\n= 1 4.2720018\n1 \"a\" \"g\" 4.2720018\nbad extra\nbad number\nok replaced\n= 1\n1 \"g\" 180.0000000\n",
    ),
];

static PIECES: [usize; 4] = [1, 2, 7, 65_536];

// Words that are no command.
static REFUSED: [&[&str]; 10] = [
    &[],
    &["-"],
    &["-", "dance"],
    &["-", "verify", "--batch", "1"],
    &["run", "-"],
    &["-", "run", "--count", "5"],
    &["-", "run", "--batch", "1"],
    &["-", "load", "--batch", "0"],
    &["", "run"],
    &["--x", "run"],
];

#[test]
fn a_script_is_answered_in_whatever_pieces_it_comes(rt: HostRuntime) -> Result<(), Fail> {
    for (row, (input, replies)) in SCRIPTS.iter().enumerate() {
        for piece in &PIECES {
            assert!(rt;
                ends_so(rt.alloc(), &RUN, input, *piece, Ended::Done, replies)?,
                "row {row} in pieces of {piece}"
            );
        }
    }
    Ok(())
}

#[test]
fn a_line_has_65536_bytes_at_most(rt: HostRuntime) -> Result<(), Fail> {
    let mut line = vec![in rt.alloc(); b' '; 65_527]?;
    line.extend_from_slice(b"add a 0 0")?;
    assert!(rt; ends_so(rt.alloc(), &RUN, &line, 65_536, Ended::Done, b"ok\n")?);
    line.push(b' ')?;
    for piece in [1_000, 65_536] {
        assert!(rt; ends_so(rt.alloc(), &RUN, &line, piece, Ended::Done, b"bad length\n")?);
    }
    Ok(())
}

#[test]
fn words_that_are_no_command_say_nothing(rt: HostRuntime) -> Result<(), Fail> {
    for (row, given) in REFUSED.iter().enumerate() {
        assert!(rt;
            ends_so(rt.alloc(), given, b"add a 0 0\n", 9, Ended::Words, b"")?,
            "row {row}"
        );
    }
    Ok(())
}

// A source that makes its bytes: a first line, and spaces.
#[derive(Drop)]
struct Spaces {
    begun: bool,
    left: usize,
}

impl Source for Spaces {
    ghost readable = { false };

    ghost left = { λ source. [] };

    ghost faults = { λ source. 0 };

    fn read(&mut self, buf: &mut [u8]) -> Result<usize, Failed>
        requires { 0 < length buf.old }
        ensures count { IfOk result (λ n. n ≤ length buf.new) }
        ensures cause { HasReadCause 0 0 result }
    {
        if !self.begun && buf.len() >= 10 {
            self.begun = true;
            buf[..10].copy_from_slice(b"add a 0 0\n");
            return Ok(10);
        }
        let n = buf.len().min(self.left);
        buf[..n].fill(b' ');
        self.left -= n;
        Ok(n)
    }
}

// A script has 268,435,456 bytes at most, and the text of a load 67,108,864.
#[test]
fn an_input_that_is_too_long_is_refused(rt: HostRuntime) -> Result<(), Fail> {
    let long = Ended::Input(InputFault::Long);
    let blank = Ended::Input(InputFault::Syntax(LOAD_MAX as u64));
    // The words, whether the first line is left out, how many spaces come, how the run ends, and what it prints.
    for (given, begun, left, end, said) in [
        (
            &RUN,
            false,
            INPUT_MAX - 10,
            Ended::Done,
            b"ok\nbad length\n".as_slice(),
        ),
        (&RUN, false, INPUT_MAX - 9, long, b"ok\n".as_slice()),
        (&LOAD, true, LOAD_MAX, blank, b"".as_slice()),
        (&LOAD, true, LOAD_MAX + 1, long, b"".as_slice()),
    ] {
        let mut spaces = Spaces { begun, left };
        let policy = Box::new(rt.alloc(), Quadratic::new())?;
        assert!(rt;
            ends_under(rt.alloc(), given, &mut spaces, policy, end, said)?,
            "{left} spaces"
        );
    }
    Ok(())
}
