//! Journals as they are recovered, and appends and recoveries that are cut off.
ghost use Rattle.std.specs.Prelude.{◌<◌, ◌+◌, ◌^◌, ℕ, List, length, IfOk};
ghost use Rattle.page_journal.specs.Record.{IsRecordOf};

use disk_model::{Area, Disk, Failed, MemoryStation, Tear};
use page_face::Page;
use page_journal::{JournalFault, Record, append, recover};
use std::alloc::{AllocError, Global};
use std::collections::BTreeMap;
use std::test::Fail as Failure;

// A record: its gate, the number of pages that it claims, and the pages with the byte that each holds.
struct Written {
    gate: u8,
    count: u32,
    pages: &'static [(u32, u8)],
}

// What recovery returns, and then the first bytes of the journal and of the pages 1 and 3.
type Recovered = (Result<(), JournalFault>, [u8; 3]);

// A journal's records, the byte after them, and what its recovery leaves.
struct Row {
    records: &'static [Written],
    last: u8,
    recovered: Recovered,
}

static ROWS: [Row; 9] = [
    Row {
        records: &[],
        last: 0,
        recovered: (Ok(()), [0, 1, 1]),
    },
    Row {
        records: &[Written {
            gate: 0,
            count: 1,
            pages: &[(3, 9)],
        }],
        last: 0,
        recovered: (Ok(()), [0, 1, 1]),
    },
    Row {
        records: &[Written {
            gate: 1,
            count: 0,
            pages: &[],
        }],
        last: 0,
        recovered: (Err(JournalFault::BadJournal(1)), [1, 1, 1]),
    },
    Row {
        records: &[Written {
            gate: 1,
            count: 2,
            pages: &[(3, 7), (3, 8)],
        }],
        last: 0,
        recovered: (Err(JournalFault::BadJournal(4105)), [1, 1, 1]),
    },
    Row {
        records: &[Written {
            gate: 1,
            count: 1,
            pages: &[(3, 9)],
        }],
        last: 7,
        recovered: (Err(JournalFault::BadJournal(4106)), [1, 1, 1]),
    },
    Row {
        records: &[Written {
            gate: 1,
            count: 3,
            pages: &[(2, 7), (3, 8), (1, 6)],
        }],
        last: 0,
        recovered: (Err(JournalFault::BadJournal(8205)), [1, 1, 1]),
    },
    Row {
        records: &[Written {
            gate: 255,
            count: 1,
            pages: &[(3, 9)],
        }],
        last: 0,
        recovered: (Ok(()), [0, 1, 9]),
    },
    Row {
        records: &[
            Written {
                gate: 1,
                count: 1,
                pages: &[(1, 5)],
            },
            Written {
                gate: 1,
                count: 2,
                pages: &[(1, 6), (3, 7)],
            },
        ],
        last: 0,
        recovered: (Ok(()), [0, 6, 7]),
    },
    Row {
        records: &[
            Written {
                gate: 1,
                count: 1,
                pages: &[(1, 5)],
            },
            Written {
                gate: 1,
                count: 0,
                pages: &[(1, 6), (3, 7)],
            },
        ],
        last: 0,
        recovered: (Err(JournalFault::BadJournal(4106)), [1, 1, 1]),
    },
];

// Adds the bytes of a record.
fn push_record(bytes: &mut Vec<u8>, record: &Written) -> Result<(), AllocError> {
    bytes.push(record.gate)?;
    bytes.extend_from_slice(&record.count.to_be_bytes())?;
    for (number, byte) in record.pages {
        bytes.extend_from_slice(&number.to_be_bytes())?;
        bytes.extend_from_slice(&[*byte; 4096])?;
    }
    Ok(())
}

// A station of four pages of bytes 1, and the first `len` bytes of a row's journal.
fn station_of(alloc: Global, row: &Row, len: usize) -> Result<MemoryStation, Failure> {
    let mut journal = Vec::new(alloc);
    for record in row.records {
        push_record(&mut journal, record)?;
    }
    journal.push(row.last)?;
    journal.truncate(len);
    Ok(MemoryStation::with_image(alloc, &[1; 16384], &journal, 4)?)
}

// The byte of an area at a place.
fn byte_at(station: &mut MemoryStation, area: Area, at: u64) -> Result<u8, Failed>
    requires { at + 1 < 2 ^ 48 }
{
    let mut byte = [0; 1];
    station.read(area, at, &mut byte)?;
    Ok(byte[0])
}

// Recovers a station.
fn recovered(station: &mut MemoryStation) -> Result<Recovered, Failed> {
    let answer = recover(station);
    let gate = byte_at(station, Area::Journal, 0)?;
    let page_1 = byte_at(station, Area::Pages, 4096)?;
    let page_3 = byte_at(station, Area::Pages, 12288)?;
    Ok((answer, [gate, page_1, page_3]))
}

#[test]
fn recover_answers_each_journal_as_it_stands(rt: HostRuntime) -> Result<(), Failure> {
    for row in &ROWS {
        let mut station = station_of(rt.alloc(), row, usize::MAX)?;
        assert_eq!(rt; recovered(&mut station), Ok(row.recovered));
    }
    Ok(())
}

// What recovery leaves of a journal of two records that ends after `pieces` pieces of 512 bytes.
fn cut_answer(pieces: usize) -> Recovered {
    match pieces {
        0 => (Ok(()), [0, 1, 1]),
        1..9 => (Ok(()), [0, 5, 1]),
        9..17 => (Err(JournalFault::BadJournal(8210)), [1, 1, 1]),
        _ => (Ok(()), [0, 6, 7]),
    }
}

#[test]
fn a_journal_cut_anywhere_is_refused_or_holds_a_prefix(rt: HostRuntime) -> Result<(), Failure> {
    for pieces in 0..25 {
        let mut station = station_of(rt.alloc(), &ROWS[7], 512 * pieces)?;
        assert_eq!(rt; recovered(&mut station), Ok(cut_answer(pieces)));
    }
    Ok(())
}

static TEARS: [Tear; 4] = [Tear::Kept, Tear::Lost, Tear::Filled(0), Tear::Filled(255)];

// Adds pages with the byte that each holds.
fn fill(
    alloc: Global,
    pages: &mut BTreeMap<u32, Box<Page>>,
    filled: &[(u32, u8)],
) -> Result<(), AllocError> {
    for (number, byte) in filled {
        pages.insert(*number, Box::new(alloc, [*byte; 4096])?)?;
    }
    Ok(())
}

// The record of pages with the byte that each holds.
fn record_of(alloc: Global, filled: &[(u32, u8)]) -> Result<Record, AllocError>
    ensures is_record { IfOk result (λ gathered. (pages : List (ℕ × List ℕ)) × IsRecordOf pages gathered.bytes.items) }
    ensures size { IfOk result (λ gathered. length gathered.bytes.items < 2 ^ 46) }
{
    let mut pages = BTreeMap::new(alloc);
    fill(alloc, &mut pages, filled)?;
    if pages.len() == 0 || pages.len() > 9 {
        return Err(AllocError);
    }
    Record::gather(alloc, &pages)
}

// Recovers a station, and appends page 1 of bytes 5, and then pages 1 and 3 of bytes 6 and 7. Returns where each ends, 0 if it failed.
fn run(alloc: Global, station: &mut MemoryStation) -> Result<(u64, u64), AllocError> {
    let first = record_of(alloc, &[(1, 5)])?;
    let second = record_of(alloc, &[(1, 6), (3, 7)])?;
    let Ok(()) = recover(station) else {
        return Ok((0, 0));
    };
    let Ok(next) = append(station, 0, &first) else {
        return Ok((0, 0));
    };
    let Ok(end) = append(station, next, &second) else {
        return Ok((next, 0));
    };
    Ok((next, end))
}

// What recovery leaves after a crash.
fn left(station: &MemoryStation, tear: Tear) -> Result<Recovered, Failure> {
    let mut crashed = station.crashed(tear)?;
    Ok(recovered(&mut crashed)?)
}

// How many appends the pages hold; `None` if they hold something else.
fn appends_held(left: Recovered) -> Option<u64> {
    match left {
        (Ok(()), [0, 1, 1]) => Some(0),
        (Ok(()), [0, 5, 1]) => Some(1),
        (Ok(()), [0, 6, 7]) => Some(2),
        _ => None,
    }
}

// Whether the pages hold at least `appends` appends after each crash.
fn holds_at_least(appends: u64, station: &MemoryStation) -> Result<bool, Failure> {
    for tear in &TEARS {
        if appends_held(left(station, *tear)?) < Some(appends) {
            return Ok(false);
        }
    }
    Ok(true)
}

#[test]
fn appends_cut_off_leave_those_that_succeeded(rt: HostRuntime) -> Result<(), Failure> {
    for calls in 0..12 {
        let mut station = station_of(rt.alloc(), &ROWS[0], usize::MAX)?;
        station.stop_after(calls);
        let ends = run(rt.alloc(), &mut station)?;
        let done = match calls {
            0..7 => 0,
            7..11 => 1,
            _ => 2,
        };
        assert_eq!(rt; ends, [(0, 0), (4105, 0), (4105, 12310)][done]);
        assert!(rt;
            holds_at_least(done as u64, &station)?,
            "after {calls} calls"
        );
    }
    Ok(())
}

#[test]
fn a_recovery_cut_off_is_done_again(rt: HostRuntime) -> Result<(), Failure> {
    for calls in 0..25 {
        let mut station = station_of(rt.alloc(), &ROWS[7], usize::MAX)?;
        station.stop_after(calls);
        assert_eq!(rt; recover(&mut station).is_ok(), calls == 24);
        assert!(rt; holds_at_least(2, &station)?, "after {calls} calls");
    }
    Ok(())
}
