//! Stores that are opened, committed, dropped, stopped and cut off.
use disk_model::{CallKind, Fail, MemoryStation, Tear};
use page_face::{Damage, Page, PageFault, Pages, Rule, free_page};
use page_store::{OpenFault, Store, recover_superblock};
use std::alloc::{AllocError, Global};
use std::test::Fail as Failure;

// What a store holds: the pages counted, the live places of its head, and the first byte of page 1, 0 if it isn't counted.
type Held = (u32, u32, u8);

// The bytes at the beginning of page 0, and what the store then holds or why it is refused.
struct Row {
    page: &'static [u8],
    held: Result<Held, OpenFault>,
}

const BROKEN: Result<Held, OpenFault> = Err(OpenFault::Damaged(Damage {
    page: 0,
    rule: Rule::Head,
}));

static ROWS: [Row; 10] = [
    Row {
        page: b"",
        held: Ok((1, 0, 0)),
    },
    Row {
        page: b"x",
        held: Err(OpenFault::NotAStore),
    },
    Row {
        page: b"IRTREE00\0\0\0\x01",
        held: Err(OpenFault::NotAStore),
    },
    Row {
        page: b"IRTREE03\0\0\0\x01",
        held: Err(OpenFault::NotAStore),
    },
    // of version 1, whatever follows
    Row {
        page: b"IRTREE01",
        held: Err(OpenFault::Version1),
    },
    Row {
        page: b"IRTREE01\0\0\0\x02\0\0\0\x01\0\0\0\0\0\0\0\0\0\0\0\0\0\0\0\0\0\0\0\0\0\0\0\0\0\0\0\0\0\0\0\x01\0\0\0\0\0\0\0\0\0\0\0\0\0\0\0\x01",
        held: Err(OpenFault::Version1),
    },
    // no page counted
    Row {
        page: b"IRTREE02",
        held: BROKEN,
    },
    // the first free page isn't counted
    Row {
        page: b"IRTREE02\0\0\0\x02\0\0\0\x02\0\0\0\0\0\0\0\0\0\0\0\0\0\0\0\0\0\0\0\0\0\0\0\0\0\0\0\0\0\0\0\x01\0\0\0\0\0\0\0\0\0\0\0\0\0\0\0\x01",
        held: BROKEN,
    },
    // a spare byte
    Row {
        page: b"IRTREE02\0\0\0\x02\0\0\0\x01\0\0\0\0\0\0\0\0\0\0\0\0\0\0\0\0\0\0\0\0\0\0\0\0\0\0\0\0\0\0\0\x01\0\0\0\0\0\0\0\0\0\0\0\0\0\0\0\x01\x01",
        held: BROKEN,
    },
    Row {
        page: b"IRTREE02\0\0\0\x02\0\0\0\x01\0\0\0\0\0\0\0\0\0\0\0\0\0\0\0\0\0\0\0\0\0\0\0\0\0\0\0\0\0\0\0\x01\0\0\0\0\0\0\0\0\0\0\0\0\0\0\0\x01",
        held: Ok((2, 0, 0)),
    },
];

// What a store holds.
fn held(alloc: Global, station: &mut MemoryStation) -> Result<Held, OpenFault> {
    let mut store = Store::open(alloc, station, 0)?;
    let first = match store.read(1) {
        Ok(page) => page[0],
        Err(_) => 0,
    };
    Ok((store.counted(), store.head().live, first))
}

#[test]
fn open_answers_by_page_0(rt: HostRuntime) -> Result<(), Failure> {
    for row in &ROWS {
        let mut station = MemoryStation::with_image(rt.alloc(), row.page, b"", 9)?;
        assert_eq!(rt; held(rt.alloc(), &mut station), row.held);
    }
    Ok(())
}

// Opens a store, and writes one page and one field of the head in a commit. Returns whether it succeeded.
fn write_one(alloc: Global, station: &mut MemoryStation, byte: u8) -> Result<bool, OpenFault> {
    let mut store = Store::open(alloc, station, 0)?;
    let is_written = match store.take() {
        Ok(page) => store.write(page, &[byte; 4096]).is_ok(),
        Err(_) => false,
    };
    let mut head = store.head();
    head.live = byte as u32;
    store.set_head(&head);
    Ok(is_written && store.commit_all().is_ok())
}

// What a store holds after a crash.
fn left(alloc: Global, station: &MemoryStation, tear: Tear) -> Result<Held, OpenFault> {
    match station.crashed(tear) {
        Ok(mut crashed) => held(alloc, &mut crashed),
        Err(_) => Err(OpenFault::Memory),
    }
}

static TEARS: [Tear; 5] = [
    Tear::Kept,
    Tear::Lost,
    Tear::Filled(0),
    Tear::Filled(1),
    Tear::Filled(255),
];

#[test]
fn a_commit_cut_off_leaves_the_store_before_or_after(rt: HostRuntime) {
    for calls in 0..20 {
        let mut station = MemoryStation::new(rt.alloc(), 9);
        station.stop_after(calls);
        let is_done = write_one(rt.alloc(), &mut station, 7) == Ok(true);
        for tear in &TEARS {
            let left = left(rt.alloc(), &station, *tear);
            assert!(rt;
                left == Ok((2, 7, 7)) || (left == Ok((1, 0, 0)) && !is_done),
                "after {calls} calls"
            );
        }
    }
}

// A call of a store.
#[derive(Clone, Copy)]
enum Call {
    Take,
    // a page that is filled with a byte
    Write(u32, u8),
    Read(u32),
    Look(u32),
    Commit,
    Settle,
    Abandon,
    // how many takes are allowed from now on
    Allow(u64),
    Counted,
    Say,
}

// The answer to a call.
#[derive(Clone, Copy, Debug, PartialEq, Eq)]
enum Answer {
    Done,
    Number(u32),
    // the first byte of a page that was read
    First(u8),
    // the first byte of a page that is lent
    Lent(u8),
    Refused(PageFault),
    NotSaid,
}

fn done(ended: Result<(), PageFault>) -> Answer {
    match ended {
        Ok(()) => Answer::Done,
        Err(fault) => Answer::Refused(fault),
    }
}

// Looks at a page.
fn looked_at(store: &mut Store<'_, MemoryStation>, page: u32) -> Answer {
    match store.look(page) {
        Ok(()) => Answer::Lent(store.looked()[0]),
        Err(fault) => Answer::Refused(fault),
    }
}

// Makes a call.
fn answer_of(store: &mut Store<'_, MemoryStation>, call: Call) -> Answer {
    match call {
        Call::Take => match store.take() {
            Ok(page) => Answer::Number(page),
            Err(fault) => Answer::Refused(fault),
        },
        Call::Write(page, byte) => done(store.write(page, &[byte; 4096])),
        Call::Read(page) => match store.read(page) {
            Ok(bytes) => Answer::First(bytes[0]),
            Err(fault) => Answer::Refused(fault),
        },
        Call::Look(page) => looked_at(store, page),
        Call::Commit => done(store.commit_all()),
        Call::Settle => done(store.settle()),
        Call::Abandon => {
            store.abandon();
            Answer::Done
        }
        Call::Counted => Answer::Number(store.counted()),
        Call::Allow(takes) => done(store.allow(takes)),
        Call::Say => match store.say(b"ok") {
            Ok(count) => Answer::Number(count as u32),
            Err(_) => Answer::NotSaid,
        },
    }
}

// What the disk holds before a run.
#[derive(Clone, Copy)]
enum Image {
    Empty,
    // the free list names 2, which names 1
    Circle,
    // pages 1 and 2, filled with their numbers
    Filled,
    // page 1, filled with 7, in a record of the journal, with room for one page more
    Committed,
}

// A store's calls with their answers, the log that they leave, how often they read the disk, and what the store holds after a crash then.
struct Run {
    name: &'static str,
    image: Image,
    cache: u32,
    // the sync that fails, or 0
    fail: u64,
    calls: &'static [(Call, Answer)],
    log: &'static [u32],
    reads: u64,
    holds: Held,
}

const LOOKS: &[(Call, Answer)] = &[
    (Call::Look(1), Answer::Lent(1)),
    (Call::Look(1), Answer::Lent(1)),
    (Call::Look(2), Answer::Lent(2)),
    (Call::Look(1), Answer::Lent(1)),
    (Call::Look(1), Answer::Lent(1)),
];

// Opening makes two syncs, a commit two and a checkpoint two.
static RUNS: [Run; 12] = [
    Run {
        name: "a free list that is a circle",
        image: Image::Circle,
        cache: 0,
        fail: 0,
        calls: &[
            (Call::Take, Answer::Number(1)),
            (Call::Take, Answer::Number(2)),
            (Call::Take, Answer::Number(1)),
            (Call::Counted, Answer::Number(3)),
        ],
        log: &[],
        reads: 3,
        holds: (3, 0, 4),
    },
    Run {
        name: "so many takes as are allowed",
        image: Image::Circle,
        cache: 0,
        fail: 0,
        calls: &[
            (Call::Allow(1), Answer::Done),
            (Call::Take, Answer::Number(1)),
            (Call::Take, Answer::Refused(PageFault::Memory)),
            (Call::Allow(2), Answer::Done),
            (Call::Take, Answer::Number(2)),
        ],
        log: &[],
        reads: 2,
        holds: (3, 0, 4),
    },
    Run {
        name: "where no page is left it is said so, whatever is allowed",
        image: Image::Committed,
        cache: 0,
        fail: 0,
        calls: &[
            (Call::Allow(0), Answer::Done),
            (Call::Take, Answer::Refused(PageFault::Memory)),
            (Call::Counted, Answer::Number(2)),
            (Call::Allow(1), Answer::Done),
            (Call::Take, Answer::Number(2)),
            (Call::Take, Answer::Refused(PageFault::NoRoom)),
        ],
        log: &[],
        reads: 0,
        holds: (2, 7, 7),
    },
    Run {
        name: "a commit that fails",
        image: Image::Empty,
        cache: 0,
        fail: 3,
        calls: &[
            (Call::Take, Answer::Number(1)),
            (Call::Commit, Answer::Refused(PageFault::Disk)),
            (Call::Write(1, 1), Answer::Refused(PageFault::Stopped)),
            (Call::Read(1), Answer::Refused(PageFault::Stopped)),
            (Call::Commit, Answer::Refused(PageFault::Stopped)),
        ],
        log: &[],
        reads: 0,
        holds: (1, 0, 0),
    },
    Run {
        name: "what is abandoned is as committed",
        image: Image::Committed,
        cache: 0,
        fail: 0,
        calls: &[
            (Call::Write(1, 9), Answer::Done),
            (Call::Read(1), Answer::First(9)),
            (Call::Take, Answer::Number(2)),
            (Call::Take, Answer::Refused(PageFault::NoRoom)),
            (Call::Abandon, Answer::Done),
            (Call::Read(1), Answer::First(7)),
            (Call::Counted, Answer::Number(2)),
            (Call::Say, Answer::Number(2)),
        ],
        log: &[1, 1],
        reads: 1,
        holds: (2, 7, 7),
    },
    Run {
        name: "a page from the overlay, the journal, and its place",
        image: Image::Empty,
        cache: 0,
        fail: 0,
        calls: &[
            (Call::Take, Answer::Number(1)),
            (Call::Write(1, 6), Answer::Done),
            (Call::Commit, Answer::Done),
            (Call::Read(1), Answer::First(6)),
            (Call::Write(1, 7), Answer::Done),
            (Call::Commit, Answer::Done),
            (Call::Read(1), Answer::First(7)),
            (Call::Settle, Answer::Done),
            (Call::Read(1), Answer::First(7)),
            (Call::Settle, Answer::Done),
            (Call::Write(1, 8), Answer::Done),
            (Call::Commit, Answer::Done),
        ],
        log: &[1, 1, 1],
        reads: 1,
        holds: (2, 0, 8),
    },
    Run {
        name: "a checkpoint of neighbours",
        image: Image::Empty,
        cache: 0,
        fail: 0,
        calls: &[
            (Call::Take, Answer::Number(1)),
            (Call::Take, Answer::Number(2)),
            (Call::Take, Answer::Number(3)),
            (Call::Take, Answer::Number(4)),
            (Call::Write(1, 5), Answer::Done),
            (Call::Write(4, 8), Answer::Done),
            (Call::Commit, Answer::Done),
            (Call::Write(2, 6), Answer::Done),
            (Call::Commit, Answer::Done),
            (Call::Settle, Answer::Done),
            (Call::Read(1), Answer::First(5)),
            (Call::Read(2), Answer::First(6)),
            (Call::Read(3), Answer::First(0)),
            (Call::Read(4), Answer::First(8)),
        ],
        log: &[1, 2, 3, 4],
        reads: 4,
        holds: (5, 0, 5),
    },
    Run {
        name: "a checkpoint that fails",
        image: Image::Empty,
        cache: 0,
        fail: 7,
        calls: &[
            (Call::Take, Answer::Number(1)),
            (Call::Write(1, 7), Answer::Done),
            (Call::Commit, Answer::Done),
            (Call::Commit, Answer::Done),
            (Call::Settle, Answer::Refused(PageFault::Disk)),
            (Call::Settle, Answer::Refused(PageFault::Stopped)),
            (Call::Commit, Answer::Refused(PageFault::Stopped)),
            (Call::Read(1), Answer::Refused(PageFault::Stopped)),
        ],
        log: &[],
        reads: 0,
        holds: (2, 0, 7),
    },
    Run {
        name: "a cache of no page",
        image: Image::Filled,
        cache: 0,
        fail: 0,
        calls: LOOKS,
        log: &[1, 1, 2, 1, 1],
        reads: 5,
        holds: (3, 0, 1),
    },
    Run {
        name: "a cache of one page",
        image: Image::Filled,
        cache: 1,
        fail: 0,
        calls: LOOKS,
        log: &[1, 1, 2, 1, 1],
        reads: 3,
        holds: (3, 0, 1),
    },
    Run {
        name: "a cache of two pages",
        image: Image::Filled,
        cache: 2,
        fail: 0,
        calls: LOOKS,
        log: &[1, 1, 2, 1, 1],
        reads: 2,
        holds: (3, 0, 1),
    },
    Run {
        name: "a look lends what was written or committed last",
        image: Image::Empty,
        cache: 1,
        fail: 0,
        calls: &[
            (Call::Take, Answer::Number(1)),
            (Call::Take, Answer::Number(2)),
            (Call::Write(2, 5), Answer::Done),
            (Call::Write(1, 6), Answer::Done),
            (Call::Look(1), Answer::Lent(6)),
            (Call::Commit, Answer::Done),
            (Call::Look(1), Answer::Lent(6)),
            (Call::Look(2), Answer::Lent(5)),
            (Call::Settle, Answer::Done),
            (Call::Look(2), Answer::Lent(5)),
            (Call::Look(1), Answer::Lent(6)),
            (Call::Write(1, 7), Answer::Done),
            (Call::Look(1), Answer::Lent(7)),
            (Call::Abandon, Answer::Done),
            (Call::Look(1), Answer::Lent(6)),
            (Call::Write(1, 8), Answer::Done),
            (Call::Commit, Answer::Done),
            (Call::Settle, Answer::Done),
            (Call::Look(1), Answer::Lent(8)),
        ],
        log: &[1, 1, 2, 2, 1, 1, 1, 1],
        reads: 1,
        holds: (3, 0, 8),
    },
];

// Three pages counted, and the first free one of them.
const CIRCLE: &[u8] =
    b"IRTREE02\0\0\0\x03\0\0\0\x01\0\0\0\0\0\0\0\0\0\0\0\0\0\0\0\0\0\0\0\0\0\0\0\0\0\0\0\0\0\0\0\x01\0\0\0\0\0\0\0\0\0\0\0\0\0\0\0\x01";

const FILLED: &[u8] =
    b"IRTREE02\0\0\0\x03\0\0\0\0\0\0\0\0\0\0\0\0\0\0\0\0\0\0\0\0\0\0\0\0\0\0\0\0\0\0\0\0\0\0\0\x01\0\0\0\0\0\0\0\0\0\0\0\0\0\0\0\x01";

// Adds a header, with zeros up to a page, and two pages.
fn push_pages(
    bytes: &mut Vec<u8>,
    header: &[u8],
    one: &Page,
    two: &Page,
) -> Result<(), AllocError> {
    bytes.extend_from_slice(header)?;
    bytes.resize(4096, 0)?;
    bytes.extend_from_slice(one)?;
    bytes.extend_from_slice(two)
}

// A station with a header and two pages.
fn station_of(
    alloc: Global,
    header: &[u8],
    one: &Page,
    two: &Page,
) -> Result<MemoryStation, Failure> {
    let mut bytes = Vec::new(alloc);
    push_pages(&mut bytes, header, one, two)?;
    Ok(MemoryStation::with_image(alloc, &bytes, b"", 9)?)
}

fn station(alloc: Global, image: Image) -> Result<MemoryStation, Failure> {
    match image {
        Image::Empty => Ok(MemoryStation::new(alloc, 9)),
        Image::Circle => station_of(alloc, CIRCLE, &free_page(2), &free_page(1)),
        Image::Filled => station_of(alloc, FILLED, &[1; 4096], &[2; 4096]),
        Image::Committed => {
            let mut station = MemoryStation::new(alloc, 3);
            let _written = write_one(alloc, &mut station, 7);
            Ok(station)
        }
    }
}

// How often opening a store reads the disk.
fn opening_reads(alloc: Global, image: Image) -> Result<u64, Failure> {
    let mut station = station(alloc, image)?;
    let _opened = recover_superblock(&mut station);
    Ok(station.reads())
}

// The station of a run, one of whose syncs is to fail.
fn failing_station(alloc: Global, run: &Run) -> Result<MemoryStation, Failure> {
    let mut station = station(alloc, run.image)?;
    station.fail_at(&[Fail {
        kind: CallKind::Sync,
        nth: run.fail,
    }])?;
    Ok(station)
}

// The first answer of a store that isn't the run's.
fn first_wrong(store: &mut Store<'_, MemoryStation>, run: &Run) -> Option<Answer> {
    for (call, expected) in run.calls {
        let answer = answer_of(store, *call);
        if answer != *expected {
            return Some(answer);
        }
    }
    None
}

// Makes the calls of a run. Returns the first answer that isn't the run's, and whether the log is the run's and is empty once cleared.
fn made(
    alloc: Global,
    station: &mut MemoryStation,
    run: &Run,
) -> Result<(Option<Answer>, bool), OpenFault> {
    let mut store = Store::open(alloc, station, run.cache)?;
    let wrong = first_wrong(&mut store, run);
    let is_logged = store.read_log() == run.log;
    store.clear_log();
    Ok((wrong, is_logged && store.read_log().is_empty()))
}

#[test]
fn calls_answer_as_the_pages_stand(rt: HostRuntime) -> Result<(), Failure> {
    for run in &RUNS {
        let opening = opening_reads(rt.alloc(), run.image)?;
        let mut station = failing_station(rt.alloc(), run)?;
        let made = made(rt.alloc(), &mut station, run);
        assert_eq!(rt; made, Ok((None, true)), "{}", run.name);
        assert_eq!(rt; station.faults(), (run.fail.min(1), 0), "{}", run.name);
        let reads = station.reads().saturating_sub(opening);
        assert_eq!(rt; reads, run.reads, "{}", run.name);
        let left = left(rt.alloc(), &station, Tear::Lost);
        assert_eq!(rt; left, Ok(run.holds), "{}", run.name);
    }
    Ok(())
}
