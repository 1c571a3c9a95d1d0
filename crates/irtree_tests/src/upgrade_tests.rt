//! Upgrades of stores of version 1.
use crate::failing::{EACH_WAY, Failing, TEARS, is_faultless, is_named, set_to_fail};
use crate::load_tests::FOUR;
use crate::runs::{LOAD, ROOM, RUN, all_pages, number_at, run_on, stored_by};
use disk_model::{MemoryStation, Tear};
use irtree_top::{Ended, StoreFault};
use std::alloc::Global;
use std::test::Fail;

// The words of an upgrade.
static UPGRADE: [&str; 2] = ["-", "upgrade"];

// A script that looks at the places of FOUR and asks for them, and its replies if the places have no labels.
const LOOK: &[u8] = b"show 7\nshow #1\ntop 12.5683 55.6761 10 700 0.05 words caf\xc3\xa9*2 bar\n";

const LOOKED: &[u8] =
    b"place \"7\" 12.5683000 55.6761000 2 \"\"\n\"caf\xc3\xa9\" 128\n\"ny\" 128\nplace #1 12.5700000 55.6800000 1 \"\"\n\"bar\" 255\n= 2\n1 \"7\" 76350000000\n2 #1 99282312000\n";

// Appends a page of the place map, a leaf, as version 1 has it: map 1, rows of 651 bytes without labels.
fn append_leaf(pages: &mut Vec<u8>, leaf: &[u8]) -> Result<(), Fail> {
    let end = pages.len().saturating_add(4_096);
    pages.extend_from_slice(&[1, 1])?;
    pages.extend_from_slice(leaf.get(2..16).ok_or("a page without a header")?)?;
    for row in leaf
        .get(16..)
        .ok_or("a page without rows")?
        .chunks_exact(715)
    {
        pages.extend_from_slice(row.get(..651).ok_or("a row without a label")?)?;
    }
    pages.resize(end, 0)?;
    Ok(())
}

// The pages of a store whose place map is one leaf, as version 1 has them.
fn in_version_1(alloc: Global, pages: &[u8]) -> Result<Vec<u8>, Fail> {
    let root = number_at(pages, 0, 16)? as usize;
    let mut old = Vec::new(alloc);
    for (number, page) in pages.chunks(4_096).enumerate() {
        if number == 0 {
            old.extend_from_slice(b"IRTREE01")?;
            old.extend_from_slice(page.get(8..).ok_or("a short page 0")?)?;
        } else if number == root {
            append_leaf(&mut old, page)?;
        } else {
            old.extend_from_slice(page)?;
        }
    }
    Ok(old)
}

// A station with the store of version 1 that has the places of FOUR.
fn old_store(alloc: Global) -> Result<MemoryStation, Fail> {
    let mut store = stored_by(alloc, &LOAD, FOUR)?;
    let pages = all_pages(alloc, &mut store)?;
    let old = in_version_1(alloc, &pages)?;
    Ok(MemoryStation::with_image(alloc, &old, b"", ROOM)?)
}

// Whether an upgrade of a station ends so, and has printed this.
fn upgrades_to(
    alloc: Global,
    station: &mut MemoryStation,
    end: Ended,
    said: &[u8],
) -> Result<bool, Fail> {
    let ended = run_on(alloc, &UPGRADE, b"", 100, station)?;
    Ok(ended == end && station.said() == said)
}

// Whether an upgrade of what a crash leaves of a station says that it is of version 2, and a script finds its places without labels.
fn is_upgraded(alloc: Global, station: &MemoryStation) -> Result<bool, Fail> {
    let mut left = station.crashed(Tear::Lost)?;
    if !upgrades_to(alloc, &mut left, Ended::Done, b"version 2\n")? {
        return Ok(false);
    }
    let mut left = left.crashed(Tear::Lost)?;
    let ended = run_on(alloc, &RUN, LOOK, 100, &mut left)?;
    Ok(ended == Ended::Done && left.said() == LOOKED)
}

#[test]
fn an_upgrade_carries_each_place_over(rt: HostRuntime) -> Result<(), Fail> {
    let mut station = old_store(rt.alloc())?;
    assert!(rt; upgrades_to(rt.alloc(), &mut station, Ended::Done, b"upgraded 2\n")?);
    assert!(rt; is_upgraded(rt.alloc(), &station)?);
    Ok(())
}

#[test]
fn an_upgrade_of_a_store_of_version_2_changes_nothing(rt: HostRuntime) -> Result<(), Fail> {
    let mut store = stored_by(rt.alloc(), &LOAD, FOUR)?;
    let before = all_pages(rt.alloc(), &mut store)?;
    assert!(rt; upgrades_to(rt.alloc(), &mut store, Ended::Done, b"version 2\n")?);
    let after = all_pages(rt.alloc(), &mut store)?;
    assert!(rt; after.as_slice() == before.as_slice());
    let mut empty = MemoryStation::new(rt.alloc(), ROOM);
    assert!(rt; upgrades_to(rt.alloc(), &mut empty, Ended::Done, b"version 2\n")?);
    Ok(())
}

#[test]
fn an_upgrade_of_other_bytes_is_refused(rt: HostRuntime) -> Result<(), Fail> {
    let mut station = MemoryStation::with_image(rt.alloc(), &[120; 4096], b"", ROOM)?;
    let end = Ended::Store(StoreFault::NotAStore);
    assert!(rt; upgrades_to(rt.alloc(), &mut station, end, b"")?);
    Ok(())
}

const PRESENT: &[u8] = b"version 2\n";

const CARRIED: &[u8] = b"upgraded 2\n";

// Whether what a crash leaves of a station can be carried over or was, with each place, whatever the crash does to what was pending. Once
// something was printed, it was.
fn is_kept_always(alloc: Global, station: &MemoryStation) -> Result<bool, Fail> {
    let told = !station.said().is_empty();
    for tear in &TEARS {
        let mut left = station.crashed(*tear)?;
        let ended = run_on(alloc, &UPGRADE, b"", 100, &mut left)?;
        let is_line = left.said() == PRESENT || (!told && left.said() == CARRIED);
        if ended != Ended::Done || !is_line || !is_upgraded(alloc, &left)? {
            return Ok(false);
        }
    }
    Ok(true)
}

// The number of the first call of an upgrade whose failure is passed over, has another status, or loses a place.
fn first_wrong(alloc: Global, failing: Failing) -> Result<Option<u64>, Fail> {
    let made = old_store(alloc)?;
    for nth in 1..1_000 {
        let mut station = made.crashed(Tear::Kept)?;
        set_to_fail(&mut station, failing, nth)?;
        let ended = run_on(alloc, &UPGRADE, b"", 100, &mut station)?;
        let is_right = is_named(failing, ended, &station, CARRIED);
        if !is_right || !is_kept_always(alloc, &station)? {
            return Ok(Some(nth));
        }
        if is_faultless(&station) {
            return Ok(None);
        }
    }
    Err("no upgrade was without a failing call".into())
}

#[test]
fn any_call_that_fails_is_named_and_leaves_the_places_by_version_1_or_2(
    rt: HostRuntime,
) -> Result<(), Fail> {
    for failing in EACH_WAY {
        assert_eq!(rt; first_wrong(rt.alloc(), failing)?, None, "{failing:?}");
    }
    Ok(())
}
