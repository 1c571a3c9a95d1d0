//! A station in memory that fails, stops and crashes, and a source in memory.
use crate::calls::gives;
use disk_model::{Area, CallKind, Disk, Fail, Failed, MemorySource, MemoryStation, Station, Tear};
use std::test::Fail as Failure;

// Whether the pages begin with these bytes after a crash.
fn leaves(station: &MemoryStation, tear: Tear, wanted: &[u8; 4]) -> bool {
    let mut bytes = [9; 4];
    match station.crashed(tear) {
        Ok(mut crashed) => { crashed.read(Area::Pages, 0, &mut bytes).is_ok() && bytes == *wanted }
        Err(_) => false,
    }
}

// Whether they begin with these with the pending ranges kept, lost, and filled with 7s.
fn leaves_each(station: &MemoryStation, wanted: &[[u8; 4]; 3]) -> bool {
    leaves(station, Tear::Kept, &wanted[0])
        && leaves(station, Tear::Lost, &wanted[1])
        && leaves(station, Tear::Filled(7), &wanted[2])
}

static UNSYNCED: [[u8; 4]; 3] = [*b"aXYZ", *b"abc\0", [b'a', 7, 7, 7]];

static SYNCED: [[u8; 4]; 3] = [*b"aXYZ", *b"aXYZ", *b"aXYZ"];

// Whether a write is at risk until its own area is synced.
fn is_at_risk_until_synced(station: &mut MemoryStation) -> bool {
    station.write(Area::Pages, 1, b"XYZ").is_ok()
        && leaves_each(station, &UNSYNCED)
        && station.sync(Area::Journal).is_ok()
        && leaves_each(station, &UNSYNCED)
        && station.sync(Area::Pages).is_ok()
        && leaves_each(station, &SYNCED)
}

#[test]
fn a_crash_keeps_loses_or_fills_what_is_not_synced(rt: HostRuntime) -> Result<(), Failure> {
    let mut station = MemoryStation::with_image(rt.alloc(), b"abc", b"", 3)?;
    assert!(rt; is_at_risk_until_synced(&mut station));
    Ok(())
}

static FAILS: [Fail; 2] = [
    Fail {
        kind: CallKind::Sync,
        nth: 1,
    },
    Fail {
        kind: CallKind::Say,
        nth: 2,
    },
];

// Whether the first sync and the second `say` fail, and no other call does.
fn fails_as_listed(station: &mut MemoryStation) -> bool {
    station.sync(Area::Pages) == Err(Failed)
        && station.sync(Area::Pages) == Ok(())
        && station.say(b"hi") == Ok(2)
        && station.say(b"ho") == Err(Failed)
}

// Whether the second of two reads fails.
fn stops(station: &mut MemoryStation) -> bool {
    let mut byte = [0];
    station.read(Area::Journal, 8, &mut byte) == Ok(())
        && station.read(Area::Journal, 8, &mut byte) == Err(Failed)
}

// Whether the calls above are counted, and so are those that failed, and only the first piece was written to the sink.
fn has_counted(station: &MemoryStation) -> bool {
    station.calls() == 6
        && station.reads() == 2
        && station.lacks() == 0
        && station.faults() == (2, 1)
        && station.said() == b"hi".as_slice()
}

#[test]
fn a_call_fails_where_it_is_listed_or_past_the_stop(rt: HostRuntime) -> Result<(), Failure> {
    let mut station = MemoryStation::new(rt.alloc(), 3);
    station.fail_at(&FAILS)?;
    assert!(rt; fails_as_listed(&mut station));
    station.stop_after(5);
    assert!(rt; stops(&mut station));
    assert!(rt; has_counted(&station));
    Ok(())
}

// What each read gives: how many bytes, or a failure, and the bytes.
static PIECES: [(Result<usize, Failed>, &[u8]); 5] = [
    (Ok(2), b"ab"),
    (Err(Failed), b""),
    (Ok(2), b"cd"),
    (Ok(1), b"e"),
    (Ok(0), b""),
];

#[test]
fn bytes_come_in_pieces_until_none_is_left(rt: HostRuntime) -> Result<(), Failure> {
    let mut source = MemorySource::new(rt.alloc(), b"abcde", 2, &[2])?;
    for &(read, piece) in &PIECES {
        assert!(rt; gives(&mut source, read, piece));
    }
    Ok(())
}
