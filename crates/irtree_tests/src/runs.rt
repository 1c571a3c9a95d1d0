//! Runs over stations in memory.
use disk_model::{Area, Disk, MemorySource, MemoryStation, Source, Station, Tear};
use irtree_top::{Ended, run};
use split_policy::{Halving, Quadratic, SplitPolicy};
use std::alloc::{AllocError, Global};
use std::fmt::Write;
use std::test::Fail;
use text_policy::WordAware;

/// The words of a script.
pub(crate) static RUN: [&str; 2] = ["-", "run"];

/// The words of a load.
pub(crate) static LOAD: [&str; 2] = ["-", "load"];

/// The pages that a station has room for.
pub(crate) const ROOM: u32 = 100_000;

// Words as the top call takes them.
fn words(alloc: Global, given: &[&str]) -> Result<Vec<String>, AllocError> {
    let mut words = Vec::new(alloc);
    for word in given {
        words.push(word.to_string(alloc)?)?;
    }
    Ok(words)
}

/// How a run on these words ends under a policy.
pub(crate) fn run_under<S: Source, T: Station>(
    alloc: Global,
    given: &[&str],
    source: &mut S,
    station: &mut T,
    policy: Box<dyn SplitPolicy>,
) -> Result<Ended, Fail> {
    Ok(run(alloc, &words(alloc, given)?, source, station, policy))
}

/// How a run on these words ends over a station, with an input that comes in such pieces.
pub(crate) fn run_on<T: Station>(
    alloc: Global,
    given: &[&str],
    input: &[u8],
    piece: usize,
    station: &mut T,
) -> Result<Ended, Fail> {
    let mut source = MemorySource::new(alloc, input, piece.max(1), &[])?;
    let policy = Box::new(alloc, Quadratic::new())?;
    run_under(alloc, given, &mut source, station, policy)
}

/// Whether a run on these words over an empty store ends so under a policy, and has printed this.
pub(crate) fn ends_under<S: Source>(
    alloc: Global,
    given: &[&str],
    source: &mut S,
    policy: Box<dyn SplitPolicy>,
    end: Ended,
    said: &[u8],
) -> Result<bool, Fail> {
    let mut station = MemoryStation::new(alloc, ROOM);
    let ended = run_under(alloc, given, source, &mut station, policy)?;
    Ok(ended == end && station.said() == said)
}

/// Whether a run on these words over an empty store ends so, with an input that comes in such pieces, and has printed this.
pub(crate) fn ends_so(
    alloc: Global,
    given: &[&str],
    input: &[u8],
    piece: usize,
    end: Ended,
    said: &[u8],
) -> Result<bool, Fail> {
    let mut source = MemorySource::new(alloc, input, piece.max(1), &[])?;
    let policy = Box::new(alloc, Quadratic::new())?;
    ends_under(alloc, given, &mut source, policy, end, said)
}

/// Whether a run on these words over an empty store ends well under each of the three policies, and has printed this.
pub(crate) fn ends_well_under_each(
    alloc: Global,
    given: &[&str],
    input: &[u8],
    said: &[u8],
) -> Result<bool, Fail> {
    if !ends_so(alloc, given, input, 65_536, Ended::Done, said)? {
        return Ok(false);
    }
    let mut source = MemorySource::new(alloc, input, 65_536, &[])?;
    let policy = Box::new(alloc, Halving::new())?;
    if !ends_under(alloc, given, &mut source, policy, Ended::Done, said)? {
        return Ok(false);
    }
    let mut source = MemorySource::new(alloc, input, 65_536, &[])?;
    let policy = Box::new(alloc, WordAware::new())?;
    ends_under(alloc, given, &mut source, policy, Ended::Done, said)
}

/// A station with the store that a run on these words makes.
pub(crate) fn stored_by(
    alloc: Global,
    given: &[&str],
    input: &[u8],
) -> Result<MemoryStation, Fail> {
    let mut station = MemoryStation::new(alloc, ROOM);
    match run_on(alloc, given, input, 100, &mut station)? {
        Ended::Done => Ok(station.crashed(Tear::Kept)?),
        _ => Err("the store was not made".into()),
    }
}

/// How often a store's station is read by a script that ends well, with so many pages kept in memory.
pub(crate) fn reads_with(
    alloc: Global,
    cache: &str,
    script: &[u8],
    store: &MemoryStation,
) -> Result<u64, Fail> {
    let mut station = store.crashed(Tear::Kept)?;
    let given = ["-", "run", "--cache", cache];
    match run_on(alloc, &given, script, 65_536, &mut station)? {
        Ended::Done => Ok(station.reads()),
        _ => Err("the script didn't end well".into()),
    }
}

/// The first bytes of an area.
pub(crate) fn bytes_of<D: Disk>(
    alloc: Global,
    disk: &mut D,
    area: Area,
    len: u32,
) -> Result<Vec<u8>, Fail> {
    let mut bytes = vec![in alloc; 0; len as usize]?;
    disk.read(area, 0, &mut bytes)?;
    Ok(bytes)
}

/// All pages of a store.
pub(crate) fn all_pages<D: Disk>(alloc: Global, disk: &mut D) -> Result<Vec<u8>, Fail> {
    let head = bytes_of(alloc, disk, Area::Pages, 4_096)?;
    let counted = number_at(&head, 0, 8)?;
    bytes_of(alloc, disk, Area::Pages, counted.saturating_mul(4_096))
}

/// The number of four bytes at an offset of a page, among the bytes of all pages.
pub(crate) fn number_at(pages: &[u8], page: u32, at: u32) -> Result<u32, Fail> {
    let start = page as usize * 4096 + at as usize;
    match pages.get(start..start.saturating_add(4)) {
        Some([a, b, c, d]) => Ok(u32::from_be_bytes([*a, *b, *c, *d])),
        _ => Err("no such page".into()),
    }
}

/// So many copies of a text one after the other, the copy's number in two digits in the place of each `#`.
pub(crate) fn numbered(alloc: Global, count: u32, text: &str) -> Result<String, AllocError> {
    let mut copies = String::new(alloc);
    for number in 0..count {
        for letter in text.chars() {
            if letter == '#' {
                write!(copies, "{number:02}")?;
            } else {
                copies.push(letter)?;
            }
        }
    }
    Ok(copies)
}
