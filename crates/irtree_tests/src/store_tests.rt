//! What a store keeps from one run to the next.
use crate::load_tests::FOUR;
use crate::runs::{
    LOAD, ROOM, RUN, all_pages, number_at, numbered, reads_with, run_on, run_under, stored_by,
};
use disk_model::{CallKind, Fail as Planned, MemorySource, MemoryStation, Tear};
use irtree_top::{Ended, LimitFault, StoreFault};
use split_policy::Quadratic;
use std::alloc::{AllocError, Global};
use std::fmt::Write;
use std::test::Fail;
use std_devices::ScratchStation;

// A place with two properties.
const BOTH: &[u8] =
    b"{\"type\":\"Feature\",\"id\":\"k\",\"geometry\":{\"type\":\"Point\",\"coordinates\":[1,2]},\"properties\":{\"name\":\"Bar\",\"kind\":\"pub\"}}";

// The words of a run and its input, a script over the store that it made, and what the script prints.
static FOUND: [(&[&str], &[u8], &[u8], &[u8]); 6] = [
    // A load reads all properties or the one that is named.
    (
        &["-", "load"],
        BOTH,
        b"show k\n",
        b"place \"k\" 1.0000000 2.0000000 2 \"Bar\"\n\"bar\" 128\n\"pub\" 128\n",
    ),
    (
        &["-", "load", "--text", "name"],
        BOTH,
        b"show k\n",
        b"place \"k\" 1.0000000 2.0000000 1 \"Bar\"\n\"bar\" 255\n",
    ),
    (
        &["-", "load", "--text=kind"],
        BOTH,
        b"show k\n",
        b"place \"k\" 1.0000000 2.0000000 1 \"pub\"\n\"pub\" 255\n",
    ),
    (
        &["-", "load", "--text="],
        BOTH,
        b"show k\n",
        b"place \"k\" 1.0000000 2.0000000 0 \"\"\n",
    ),
    (
        &["-", "load"],
        FOUR,
        b"show 7\nshow #1\ntop 12.5683 55.6761 10 700 0.05 words caf\xc3\xa9*2 bar\n",
        b"place \"7\" 12.5683000 55.6761000 2 \"Caf\xc3\xa9 Ny\"\n\"caf\xc3\xa9\" 128\n\"ny\" 128\nplace #1 12.5700000 55.6800000 1 \"Bar\"\n\"bar\" 255\n= 2\n1 \"7\" 76350000000\n2 #1 99282312000\n",
    ),
    (
        &["-", "make", "--count=2"],
        b"",
        b"show m1\ncount\n",
        b"place \"m1\" -37.0815098 -35.0181713 4 \"place a40 b99 c90\"\n\"a40\" 64\n\"b99\" 64\n\"c90\" 64\n\"place\" 64\ncount 2\n",
    ),
];

// Whether a script over a station ends so, and has printed this.
fn script_ends(
    alloc: Global,
    station: &mut MemoryStation,
    script: &[u8],
    end: Ended,
    said: &[u8],
) -> Result<bool, Fail> {
    let ended = run_on(alloc, &RUN, script, 100, station)?;
    Ok(ended == end && station.said() == said)
}

#[test]
fn a_script_finds_what_a_load_or_a_make_stored(rt: HostRuntime) -> Result<(), Fail> {
    for (row, (given, input, script, said)) in FOUND.iter().enumerate() {
        let mut store = stored_by(rt.alloc(), given, input)?;
        assert!(rt;
            script_ends(rt.alloc(), &mut store, script, Ended::Done, said)?,
            "row {row}"
        );
    }
    Ok(())
}

// A run over an empty store, whose input comes ten bytes a read, and how it ends.
struct Ending {
    given: &'static [&'static str],
    input: &'static [u8],
    // The pages that the station has room for.
    room: u32,
    // The reads of the source that fail, and the calls of the station.
    reads: &'static [u64],
    calls: &'static [Planned],
    end: Ended,
    said: &'static [u8],
    // What `count` prints afterwards.
    counted: &'static [u8],
}

static ENDINGS: [Ending; 10] = [
    // The source fails.
    Ending {
        given: &["-", "run"],
        input: b"add a 0 0\ncount",
        room: ROOM,
        reads: &[2],
        calls: &[],
        end: Ended::Source,
        said: b"ok\n",
        counted: b"count 1\n",
    },
    Ending {
        given: &["-", "load"],
        input: FOUR,
        room: ROOM,
        reads: &[3],
        calls: &[],
        end: Ended::Source,
        said: b"",
        counted: b"count 0\n",
    },
    // The sink fails: what was to be printed is stored.
    Ending {
        given: &["-", "run"],
        input: b"add a 0 0\n",
        room: ROOM,
        reads: &[],
        calls: &[Planned {
            kind: CallKind::Say,
            nth: 1,
        }],
        end: Ended::Sink,
        said: b"",
        counted: b"count 1\n",
    },
    // The second write of this load to the sink is of a feature that is skipped.
    Ending {
        given: &["-", "load", "--batch=1"],
        input: FOUR,
        room: ROOM,
        reads: &[],
        calls: &[Planned {
            kind: CallKind::Say,
            nth: 2,
        }],
        end: Ended::Sink,
        said: b"stored 1\n",
        counted: b"count 1\n",
    },
    Ending {
        given: &["-", "make", "--from=7", "--count=5000"],
        input: b"",
        room: ROOM,
        reads: &[],
        calls: &[Planned {
            kind: CallKind::Say,
            nth: 2,
        }],
        end: Ended::Sink,
        said: b"stored 1000\n",
        counted: b"count 2000\n",
    },
    // A sync fails: nothing is stored.
    Ending {
        given: &["-", "run"],
        input: b"add a 0 0\n",
        room: ROOM,
        reads: &[],
        calls: &[Planned {
            kind: CallKind::Sync,
            nth: 3,
        }],
        end: Ended::Disk,
        said: b"",
        counted: b"count 0\n",
    },
    // Opening makes two syncs, settling two, and an update two at most: the 45th isn't made.
    Ending {
        given: &["-", "run"],
        input: b"add a 1 1 x\nadd b 1 1 x\nadd c 1 1 x\nadd d 1 1 x\nadd e 1 1 x\nadd f 1 1 x\nadd g 1 1 x\nadd h 1 1 x\nadd i 1 1 x\nadd j 1 1 x\nadd k 1 1 x\nadd l 1 1 x\nadd m 1 1 x\nadd n 1 1 x\nadd o 1 1 x\nadd p 1 1 x\nadd q 1 1 x\nadd r 1 1 x\nadd s 1 1 x\nadd t 1 1 x\n",
        room: ROOM,
        reads: &[],
        calls: &[Planned {
            kind: CallKind::Sync,
            nth: 45,
        }],
        end: Ended::Done,
        said: b"ok\nok\nok\nok\nok\nok\nok\nok\nok\nok\nok\nok\nok\nok\nok\nok\nok\nok\nok\nok\n",
        counted: b"count 20\n",
    },
    // No page is left.
    Ending {
        given: &["-", "run"],
        input: b"count\nadd a 0 0\nadd b 1 1 x\ncount\n",
        room: 3,
        reads: &[],
        calls: &[],
        end: Ended::Limit(LimitFault::NoRoom),
        said: b"count 0\nok\n",
        counted: b"count 1\n",
    },
    // Page 0, a leaf of each of the four maps and one of the tree fill the room of six; pages that a removal gave back are taken again.
    Ending {
        given: &["-", "run"],
        input: b"add a 0 0 x\nremove a\nadd b 1 1 y\nremove b\nadd c 2 2 z\ncount\n",
        room: 5,
        reads: &[],
        calls: &[],
        end: Ended::Limit(LimitFault::NoRoom),
        said: b"",
        counted: b"count 0\n",
    },
    Ending {
        given: &["-", "run"],
        input: b"add a 0 0 x\nremove a\nadd b 1 1 y\nremove b\nadd c 2 2 z\ncount\n",
        room: 6,
        reads: &[],
        calls: &[],
        end: Ended::Done,
        said: b"ok\nok\nok\nok\nok\ncount 1\n",
        counted: b"count 1\n",
    },
];

// How the run ends over a station.
fn end_over(alloc: Global, ending: &Ending, station: &mut MemoryStation) -> Result<Ended, Fail> {
    let mut source = MemorySource::new(alloc, ending.input, 10, ending.reads)?;
    let policy = Box::new(alloc, Quadratic::new())?;
    run_under(alloc, ending.given, &mut source, station, policy)
}

// Whether the run ends so, and the store holds what it should.
fn ends_as_told(alloc: Global, ending: &Ending) -> Result<bool, Fail> {
    let mut station = MemoryStation::new(alloc, ending.room);
    station.fail_at(ending.calls)?;
    let ended = end_over(alloc, ending, &mut station)?;
    let mut left = station.crashed(Tear::Kept)?;
    let is_kept = script_ends(alloc, &mut left, b"count\n", Ended::Done, ending.counted)?;
    Ok(is_kept && ended == ending.end && station.said() == ending.said)
}

#[test]
fn a_run_that_ends_early_keeps_what_it_stored(rt: HostRuntime) -> Result<(), Fail> {
    for (row, ending) in ENDINGS.iter().enumerate() {
        assert!(rt; ends_as_told(rt.alloc(), ending)?, "row {row}");
    }
    Ok(())
}

// How often a store's station is read by a script that has a line so many times.
fn reads_of(
    alloc: Global,
    cache: &str,
    line: &str,
    times: u32,
    store: &MemoryStation,
) -> Result<u64, Fail> {
    let script = numbered(alloc, times, line)?;
    reads_with(alloc, cache, script.as_bytes(), store)
}

#[test]
fn a_cache_of_pages_spares_reads(rt: HostRuntime) -> Result<(), Fail> {
    let script = numbered(rt.alloc(), 20, "add p# 1 1 x\n")?;
    let store = stored_by(rt.alloc(), &RUN, script.as_bytes())?;
    let none = reads_of(rt.alloc(), "0", "show p00\n", 4, &store)?;
    let some = reads_of(rt.alloc(), "64", "show p00\n", 4, &store)?;
    assert!(rt; some < none, "{some} reads with a cache, {none} without");
    Ok(())
}

// A query of each kind.
static QUERIES: [&str; 5] = [
    "range 12 55 9 where bar\n",
    "box 0 0 90 90\n",
    "nearest 12 55 3\n",
    "top 12 55 3 500 1 words bar\n",
    "group 12 55 words bar ny\n",
];

#[test]
fn a_query_asked_again_reads_nothing_more(rt: HostRuntime) -> Result<(), Fail> {
    let store = stored_by(rt.alloc(), &LOAD, FOUR)?;
    for query in &QUERIES {
        let once = reads_of(rt.alloc(), "64", query, 1, &store)?;
        let twice = reads_of(rt.alloc(), "64", query, 2, &store)?;
        assert!(rt; once == twice, "{once} and {twice} reads by {query}");
    }
    Ok(())
}

#[test]
fn other_bytes_are_no_store(rt: HostRuntime) -> Result<(), Fail> {
    for given in [&RUN, &LOAD] {
        let mut station = MemoryStation::with_image(rt.alloc(), &[120; 4096], &[0, 7], ROOM)?;
        let ended = run_on(rt.alloc(), given, b"count\n", 100, &mut station)?;
        assert!(rt; ended == Ended::Store(StoreFault::NotAStore));
    }
    Ok(())
}

#[test]
fn a_store_of_version_1_is_refused_by_name(rt: HostRuntime) -> Result<(), Fail> {
    let mut page = b"IRTREE01\0\0\0\x01".to_vec(rt.alloc())?;
    page.resize(4096, 0)?;
    let end = Ended::Store(StoreFault::Version1);
    let mut station = MemoryStation::with_image(rt.alloc(), &page, b"", ROOM)?;
    assert!(rt; script_ends(rt.alloc(), &mut station, b"count\n", end, b"")?);
    let left = all_pages(rt.alloc(), &mut station)?;
    assert!(rt; left.as_slice() == page.as_slice());
    Ok(())
}

#[test]
fn an_update_number_that_is_worn_takes_no_change(rt: HostRuntime) -> Result<(), Fail> {
    let mut page =
        b"IRTREE02\0\0\0\x01\0\0\0\0\0\0\0\0\0\0\0\0\0\0\0\0\0\0\0\0\0\0\0\0\0\0\0\0\0\0\0\0\0\0\0\x01\0\0\x01\0\0\0\0\0\0\0\0\0\0\0\0\x01".to_vec(
            rt.alloc(),
        )?;
    page.resize(4096, 0)?;
    let mut station = MemoryStation::with_image(rt.alloc(), &page, b"", ROOM)?;
    let (script, said) = (b"add a 0 0\nremove a\ncount\n", b"worn\nabsent\ncount 0\n");
    assert!(rt; script_ends(rt.alloc(), &mut station, script, Ended::Done, said)?);
    Ok(())
}

// The place of a number among 10,000: in random, rising or falling order.
fn shuffled(order: u32, n: u32) -> u32 {
    match order {
        0 => (u64::from(n) * 7_919 % 10_000) as u32,
        1 => n,
        _ => 9_999 - n.min(9_999),
    }
}

// A GeoJSON text of 10,000 places with two words each, in such an order.
fn many(alloc: Global, order: u32) -> Result<String, AllocError> {
    let mut text = String::new(alloc);
    text.push_str("{\"type\":\"FeatureCollection\",\"features\":[")?;
    for n in 0..10_000 {
        let name = shuffled(order, n);
        let word = name % 97;
        text.push_str(if n == 0 { "" } else { "," })?;
        text.push_str("{\"type\":\"Feature\",\"id\":\"")?;
        write!(text, "p{name:05}")?;
        text.push_str(
            "\",\"geometry\":{\"type\":\"Point\",\"coordinates\":[1,2]},\"properties\":{\"t\":\"",
        )?;
        write!(text, "all w{word:05}")?;
        text.push_str("\"}}")?;
    }
    text.push_str("]}")?;
    Ok(text)
}

// A script that takes 10,000 places out in such an order.
fn all_out(alloc: Global, order: u32) -> Result<String, AllocError> {
    let mut script = String::new(alloc);
    for n in 0..10_000 {
        let name = shuffled(order, n);
        write!(script, "remove p{name:05}\n")?;
    }
    Ok(script)
}

// How many pages the free list has.
fn free_pages(pages: &[u8]) -> Result<u32, Fail> {
    let mut page = number_at(pages, 0, 12)?;
    for count in 0..100_000 {
        if page == 0 {
            return Ok(count);
        }
        page = number_at(pages, page, 4)?;
    }
    Err("the free list has no end".into())
}

// Whether each page but the first is free after a load of 10,000 places in such an order and a script that takes them out in another.
fn leaves_all_pages_free(alloc: Global, order: u32, other: u32) -> Result<bool, Fail> {
    let mut said = Vec::new(alloc);
    let mut station = ScratchStation::new(alloc, &mut said);
    let (text, script) = (many(alloc, order)?, all_out(alloc, other)?);
    let loaded = run_on(alloc, &LOAD, text.as_bytes(), 65_536, &mut station)?;
    let emptied = run_on(alloc, &RUN, script.as_bytes(), 65_536, &mut station)?;
    let pages = all_pages(alloc, &mut station)?;
    let counted = number_at(&pages, 0, 8)?;
    let is_free = free_pages(&pages)?.saturating_add(1) == counted;
    Ok(loaded == Ended::Done && emptied == Ended::Done && is_free)
}

#[test]
fn ten_thousand_places_come_and_go_and_leave_all_pages_free(rt: HostRuntime) -> Result<(), Fail> {
    for (order, other) in [(0, 1), (1, 2), (2, 0)] {
        assert!(rt;
            leaves_all_pages_free(rt.alloc(), order, other)?,
            "in order {order}"
        );
    }
    Ok(())
}
