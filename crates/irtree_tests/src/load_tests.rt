//! What loads print.
use crate::runs::{LOAD, ends_so};
use irtree_top::{Ended, InputFault, LimitFault, StoreFault};
use page_face::{Damage, Rule};
use std::test::Fail;

// A collection of four features: a place with a key, a polygon, a place without a key, and a feature without a geometry.
pub(crate) const FOUR: &[u8] =
    b"{\"features\":[{\"type\":\"Feature\",\"id\":7,\"geometry\":{\"type\":\"Point\",\"coordinates\":[12.5683,55.6761,3.0]},\"properties\":{\"name\":\"Caf\xc3\xa9 Ny\",\"rank\":2}},{\"type\":\"Feature\",\"geometry\":{\"type\":\"Polygon\",\"coordinates\":[]},\"properties\":null},{\"type\":\"Feature\",\"geometry\":{\"type\":\"Point\",\"coordinates\":[12.57,55.68]},\"properties\":{\"name\":\"Bar\"}},{\"type\":\"Feature\",\"geometry\":null,\"properties\":{}}],\"type\":\"FeatureCollection\"}";

// The words of a load, a text, and what the load prints.
static LOADS: [(&[&str], &[u8], &[u8]); 8] = [
    // A batch is stored as soon as it is full.
    (
        &["-", "load", "--batch=1"],
        FOUR,
        b"stored 1\nskip 1 not-point\nstored 2\nskip 3 no-geometry\nloaded 2 skipped 2\n",
    ),
    (
        &["-", "load", "--batch=2"],
        FOUR,
        b"skip 1 not-point\nstored 2\nskip 3 no-geometry\nloaded 2 skipped 2\n",
    ),
    (
        &["-", "load"],
        FOUR,
        b"skip 1 not-point\nskip 3 no-geometry\nstored 2\nloaded 2 skipped 2\n",
    ),
    // Each item is stored or skipped.
    (
        &["-", "load"],
        b"{\"type\":\"FeatureCollection\",\"features\":[]}",
        b"loaded 0 skipped 0\n",
    ),
    (
        &["-", "load"],
        b"{\"type\":\"Feature\",\"geometry\":{\"type\":\"Point\",\"coordinates\":[1,2]}}",
        b"stored 1\nloaded 1 skipped 0\n",
    ),
    (
        &["-", "load"],
        b"{\"type\":\"Feature\",\"geometry\":{\"type\":\"Point\",\"coordinates\":[1]}}",
        b"skip 0 bad-position\nloaded 0 skipped 1\n",
    ),
    (
        &["-", "load"],
        b"{\"type\":\"Feature\",\"geometry\":{\"type\":\"Point\",\"coordinates\":[181,0]}}",
        b"skip 0 out-of-range\nloaded 0 skipped 1\n",
    ),
    (
        &["-", "load"],
        b"{\"type\":\"FeatureCollection\",\"features\":[7,{\"type\":\"Feature\",\"id\":[],\"geometry\":{\"type\":\"Point\",\"coordinates\":[1,2]}}]}",
        b"skip 0 not-feature\nskip 1 bad-id\nloaded 0 skipped 2\n",
    ),
];

// A text that is refused, and how the run ends.
static REFUSED: [(&[u8], Ended); 4] = [
    (b"{\"type\":\"Fea", Ended::Input(InputFault::Syntax(12))),
    (
        b"[[[[[[[[[[[[[[[[[[[[[[[[[[[[[[[[[[[[[[[[[[[[[[[[[[[[[[[[[[[[[[[[[",
        Ended::Input(InputFault::TooDeep(64)),
    ),
    (b"{\"a\":\"\xff\"}", Ended::Input(InputFault::NotUtf8(6))),
    (b"[]", Ended::Input(InputFault::NotFeatures)),
];

// An end, the process's status, and the line on standard error.
static ENDS: [(Ended, u8, &[u8]); 16] = [
    (Ended::Done, 0, b""),
    (Ended::Disk, 3, b"irtree: disk\n"),
    (Ended::Source, 4, b"irtree: source\n"),
    (Ended::Sink, 5, b"irtree: sink\n"),
    (
        Ended::Input(InputFault::Syntax(12)),
        6,
        b"irtree: input syntax 12\n",
    ),
    (
        Ended::Input(InputFault::TooDeep(64)),
        6,
        b"irtree: input too-deep 64\n",
    ),
    (
        Ended::Input(InputFault::NotUtf8(6)),
        6,
        b"irtree: input not-utf8 6\n",
    ),
    (
        Ended::Input(InputFault::NotFeatures),
        6,
        b"irtree: input not-features\n",
    ),
    (Ended::Input(InputFault::Long), 6, b"irtree: input long\n"),
    (
        Ended::Store(StoreFault::NotAStore),
        7,
        b"irtree: not a store\n",
    ),
    (
        Ended::Store(StoreFault::Version1),
        7,
        b"irtree: version 1\n",
    ),
    (
        Ended::Store(StoreFault::BadJournal(4105)),
        7,
        b"irtree: journal 4105\n",
    ),
    (
        Ended::Store(StoreFault::Damaged(Damage {
            page: 12,
            rule: Rule::Counts,
        })),
        7,
        b"irtree: damaged 12 14\n",
    ),
    (
        Ended::Limit(LimitFault::NoRoom),
        8,
        b"irtree: limit no-room\n",
    ),
    (Ended::Limit(LimitFault::Full), 8, b"irtree: limit full\n"),
    (Ended::Limit(LimitFault::Worn), 8, b"irtree: limit worn\n"),
];

#[test]
fn a_load_says_the_same_in_whatever_pieces_it_comes(rt: HostRuntime) -> Result<(), Fail> {
    for (row, (given, text, said)) in LOADS.iter().enumerate() {
        for piece in [1, 7, 65_536] {
            assert!(rt;
                ends_so(rt.alloc(), given, text, piece, Ended::Done, said)?,
                "row {row} in pieces of {piece}"
            );
        }
    }
    Ok(())
}

#[test]
fn a_text_without_features_is_refused(rt: HostRuntime) -> Result<(), Fail> {
    for (text, end) in &REFUSED {
        assert!(rt; ends_so(rt.alloc(), &LOAD, text, 5, *end, b"")?, "{end:?}");
    }
    Ok(())
}

#[test]
fn each_end_has_its_status_and_its_line(rt: HostRuntime) -> Result<(), Fail> {
    for (end, status, line) in &ENDS {
        let mut text = Vec::new(rt.alloc());
        end.write_text(&mut text)?;
        assert!(rt;
            end.status() == *status && text.as_slice() == *line,
            "{end:?}"
        );
    }
    Ok(())
}
