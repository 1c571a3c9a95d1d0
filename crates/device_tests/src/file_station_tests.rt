//! Tests what a station keeps in files, and how it fails.
ghost use Rattle.std.specs.Prelude.{◌+◌, ◌<◌, ◌^◌};

use crate::calls::{fills, holds};
use crate::watched::{Notes, Plan, Watched};
use disk_model::{Area, Disk, Station};
use spatial_base::Memory;
use std::alloc::AllocError;
use std::fs::File;
use std::hash::{BuildHasher, RandomState};
use std::io::{self, Write};
use std::os::unix::fs::symlink;
use std::rt::Files;
use std::test::Fail;
use std::{env, fs};
use std_devices::{FileStation, StoreFile, journal_of};

// The path of a store that no other test has.
fn store_path(rt: &HostRuntime) -> io::Result<String> {
    let number = RandomState::new(rt)?.hash_one(&0u8);
    let folder = env::temp_dir(rt)?;
    Ok(format!(in rt.alloc(); "{}/irtree station \u{e9} {}", folder.as_str(), number)?)
}

// The path of a link to a store.
fn link_of(rt: &HostRuntime, store: &str) -> Result<String, AllocError> {
    format!(in rt.alloc(); "{store}.link")
}

// Removes the files of a store, and what is beside them.
fn clear(rt: &HostRuntime, store: &str) -> Result<(), AllocError> {
    for end in ["", ".journal", ".journal.journal", ".link", ".link.journal"] {
        let path = format!(in rt.alloc(); "{store}{end}")?;
        let _ = fs::remove_file(rt, path.as_str());
    }
    Ok(())
}

// Whether the station's line on its first failure contains `words`, or no call failed if `words` is empty.
fn says<R: Files<File = F>, W: Write + Drop, F: StoreFile>(
    rt: &HostRuntime,
    station: &FileStation<'_, R, W, F>,
    words: &str,
) -> bool {
    match station.trouble_line(rt.alloc()) {
        Ok(Some(line)) => !words.is_empty() && line.contains(words),
        Ok(None) => words.is_empty(),
        Err(_) => false,
    }
}

// Whether opening a store now fails with a line that contains these words, or succeeds if there are none.
fn opens_so(rt: &HostRuntime, store: &str, words: &str) -> bool {
    match FileStation::new(rt.alloc(), rt, store, Vec::new(rt.alloc())) {
        Ok(mut station) => station.sync(Area::Journal).is_ok() == words.is_empty()
            && says(rt, &station, words),
        Err(_) => false,
    }
}

// Whether a store can be filled.
fn is_filled(rt: &HostRuntime, store: &str) -> bool {
    match FileStation::new(rt.alloc(), rt, store, Vec::new(rt.alloc())) {
        Ok(mut station) => fills(&mut station),
        Err(_) => false,
    }
}

// Whether the pages of a store have these bytes at this offset.
fn has_pages(rt: &HostRuntime, store: &str, at: u64, bytes: &[u8; 6]) -> bool
    requires { at + 6 < 2 ^ 48 }
{
    match FileStation::new(rt.alloc(), rt, store, Vec::new(rt.alloc())) {
        Ok(mut station) => holds(&mut station, Area::Pages, at, bytes),
        Err(_) => false,
    }
}

const TAKEN: &str = ": another process has the store open; wait for it to end";

const JOURNAL_TAKEN: &str = ".journal: another process has the store open; wait for it to end";

// Whether a store can be filled, and no other station can open it meanwhile.
fn fills_alone(rt: &HostRuntime, store: &str, journal: &str) -> Result<bool, Memory> {
    let mut station = FileStation::new(rt.alloc(), rt, store, Vec::new(rt.alloc()))?;
    Ok(
        holds(&mut station, Area::Pages, 8192, &[0; 6])
            && fills(&mut station)
            && station.say(b"said") == Ok(4)
            && opens_so(rt, store, TAKEN)
            && opens_so(rt, journal, TAKEN),
    )
}

// Whether a store cannot be opened while its journal is open as a store of its own.
fn bars_its_store(rt: &HostRuntime, store: &str, journal: &str) -> Result<bool, Memory> {
    let mut station = FileStation::new(rt.alloc(), rt, journal, Vec::new(rt.alloc()))?;
    Ok(holds(&mut station, Area::Pages, 0, b"jk\0\0\0\0") && opens_so(rt, store, JOURNAL_TAKEN))
}

// Whether a store is filled while no other station has it, and is kept in a file of pages and a journal.
fn is_kept(rt: &HostRuntime, store: &str) -> Result<bool, Memory> {
    let journal = journal_of(rt.alloc(), store)?;
    let journal = journal.as_str();
    Ok(
        fills_alone(rt, store, journal)?
            && bars_its_store(rt, store, journal)?
            && has_pages(rt, store, 2, b"\0abcde"),
    )
}

#[test]
fn a_file_station_keeps_its_bytes_in_two_files(rt: HostRuntime) -> Result<(), Fail> {
    let store = store_path(&rt)?;
    let store = store.as_str();
    assert!(rt; is_kept(&rt, store)?);
    Ok(clear(&rt, store)?)
}

// Whether a file begins with the bytes of a journal that was filled.
fn is_journal(rt: &HostRuntime, path: &str) -> bool {
    match fs::read(rt, path) {
        Ok(bytes) => bytes.starts_with(b"jk"),
        Err(_) => false,
    }
}

// Whether a store that is filled through a link has its journal beside the store itself, and not beside the link.
fn fills_through(rt: &HostRuntime, store: &str, link: &str) -> Result<bool, Memory> {
    let journal = journal_of(rt.alloc(), store)?;
    let other = journal_of(rt.alloc(), link)?;
    Ok(
        symlink(rt, store, link).is_ok()
            && is_filled(rt, link)
            && is_journal(rt, &journal)
            && matches!(fs::exists(rt, other.as_str()), Ok(false)),
    )
}

const LINKED: &str = ".journal: it is a symbolic link; put the journal itself beside its store";

// Whether a store is refused if its journal was moved beside the link and a link was put in its place.
fn refuses_a_linked_journal(rt: &HostRuntime, store: &str, link: &str) -> Result<bool, Memory> {
    let journal = journal_of(rt.alloc(), store)?;
    let moved = journal_of(rt.alloc(), link)?;
    Ok(
        fs::rename(rt, journal.as_str(), moved.as_str()).is_ok()
            && symlink(rt, moved.as_str(), journal.as_str()).is_ok()
            && opens_so(rt, link, LINKED),
    )
}

#[test]
fn links_lead_to_one_store(rt: HostRuntime) -> Result<(), Fail> {
    let store = store_path(&rt)?;
    let link = link_of(&rt, &store)?;
    let (store, link) = (store.as_str(), link.as_str());
    assert!(rt; fills_through(&rt, store, link)?);
    assert!(rt; refuses_a_linked_journal(&rt, store, link)?);
    Ok(clear(&rt, store)?)
}

const NAMED: &str = ".link: it has more than one hard link; leave it one name, or copy it";

#[test]
fn a_store_with_two_names_is_refused(rt: HostRuntime) -> Result<(), Fail> {
    let store = store_path(&rt)?;
    let link = link_of(&rt, &store)?;
    let (store, link) = (store.as_str(), link.as_str());
    assert!(rt; opens_so(&rt, store, ""));
    assert!(rt; fs::hard_link(&rt, store, link).is_ok());
    assert!(rt; opens_so(&rt, link, NAMED));
    Ok(clear(&rt, store)?)
}

// Paths at which no store can be, and words of the line that reports it.
static NO_STORES: [(&str, &str); 3] = [
    (
        "/tmp",
        "/tmp: Is a directory (os error 21); name a file in a folder",
    ),
    (
        "/dev/null",
        "/dev/null: it is a device, a pipe or a folder; name a file",
    ),
    (
        "/no\nne/a",
        "/no?ne/a: No such file or directory (os error 2); make its folder, or name another store",
    ),
];

#[test]
fn what_is_no_file_is_refused(rt: HostRuntime) {
    for (path, words) in &NO_STORES {
        assert!(rt; opens_so(&rt, path, words), "{words}");
    }
}

// What happens to a store that is open.
#[derive(Clone, Copy)]
enum Loss {
    PagesAreCut,
    JournalIsCut,
    FilesAreRemoved,
}

// Cuts a file short.
fn cut(rt: &HostRuntime, path: &str, len: u64) -> io::Result<()> {
    File::options().write(true).open(rt, path)?.set_len(len)
}

// Makes this loss happen to a store that was filled.
fn lose(rt: &HostRuntime, store: &str, loss: Loss) -> Result<(), Fail> {
    match loss {
        Loss::PagesAreCut => Ok(cut(rt, store, 5)?),
        Loss::JournalIsCut => Ok(cut(rt, journal_of(rt.alloc(), store)?.as_str(), 1)?),
        Loss::FilesAreRemoved => Ok(clear(rt, store)?),
    }
}

// Whether a call that meets the loss succeeds.
fn goes_on<D: Disk>(disk: &mut D, loss: Loss) -> bool {
    let mut bytes = [9; 6];
    match loss {
        Loss::PagesAreCut => disk.read(Area::Pages, 2, &mut bytes).is_ok(),
        Loss::JournalIsCut => disk.write(Area::Journal, 0, b"jkl").is_ok(),
        Loss::FilesAreRemoved => disk.sync(Area::Pages).is_ok(),
    }
}

// Whether a call that meets the loss fails with a line that contains these words.
fn misses(rt: &HostRuntime, store: &str, loss: Loss, words: &str) -> Result<bool, Fail> {
    let mut station = FileStation::new(rt.alloc(), rt, store, Vec::new(rt.alloc()))?;
    if !fills(&mut station) {
        return Ok(false);
    }
    lose(rt, store, loss)?;
    Ok(!goes_on(&mut station, loss) && says(rt, &station, words))
}

const CUT: &str =
    ": it was cut short while it was open; take the store and its journal from a copy";

const MOVED: &str =
    ": it was removed, or another file took its name; put the store and its journal back, and run again";

#[test]
fn a_file_that_is_cut_or_removed_is_a_fault(rt: HostRuntime) -> Result<(), Fail> {
    let store = store_path(&rt)?;
    let store = store.as_str();
    assert!(rt; misses(&rt, store, Loss::PagesAreCut, CUT)?);
    assert!(rt; misses(&rt, store, Loss::JournalIsCut, CUT)?);
    assert!(rt; misses(&rt, store, Loss::FilesAreRemoved, MOVED)?);
    Ok(())
}

// Each line is a case: the call that fails and its number among such calls, and then the system's error, or 0 for a write that takes
// nothing. Then whether the store is new or old, and words of the line on the failure, or none if the failure is ignored.
static CASES: &str = "\
rp 1 4 new|
wp 2 4 new|
rp 1 5 new|: Input/output error (os error 5); look at its disk
wj 1 0 new|.journal: failed to write whole buffer; look at its disk
wj 1 28 new|.journal: No space left on device (os error 28); make room
wp 1 27 new|: File too large (os error 27); raise the limit
mp 2 5 new|: Input/output error (os error 5); look at its disk
mj 3 5 new|.journal: Input/output error (os error 5); look at its disk
sp 1 5 new|: Input/output error (os error 5); look at its disk
sj 1 5 new|.journal: Input/output error (os error 5); look at its disk
lp 1 95 new|
lj 1 38 new|
lp 1 37 new|: it can't be locked: No locks available (os error 37);
lj 1 5 new|.journal: it can't be locked: Input/output error (os error 5);
sd 1 22 new|: its folder can't be made safe: Invalid argument (os error 22);
od 1 13 new|: its folder can't be made safe: Permission denied (os error 13);
sd 1 22 old|
sd 1 95 old|
od 1 13 old|
sd 1 5 old|: its folder can't be made safe: Input/output error (os error 5);
op 1 26 new|: Text file busy (os error 26); it is a program that runs
oj 1 13 new|.journal: Permission denied (os error 13); make the file
";

#[derive(Clone, Copy)]
struct Case {
    plan: Plan,
    is_old: bool,
    says: &'static str,
}

fn read_case(line: &'static str) -> Option<Case> {
    let (given, says) = line.split_once('|')?;
    let mut words = given.split(' ');
    Some(Case {
        plan: Plan {
            call: words.next()?,
            nth: words.next()?.parse().ok()?,
            code: words.next()?.parse().ok()?,
        },
        is_old: words.next()? == "old",
        says,
    })
}

// If `words` is empty, whether a store can be filled. Otherwise, whether a call fails with a line that contains these words and no
// later one succeeds.
fn ends_so<R: Files<File = F>, W: Write + Drop, F: StoreFile>(
    rt: &HostRuntime,
    station: &mut FileStation<'_, R, W, F>,
    words: &str,
) -> bool {
    let passes = words.is_empty();
    fills(station) == passes
        && station.sync(Area::Pages).is_ok() == passes
        && says(rt, station, words)
}

// Whether a case has the stated result. After a failure no call reaches a file.
fn goes_so(rt: &HostRuntime, store: &str, case: &Case) -> Result<bool, Memory> {
    let notes = Notes::new(Vec::new(rt.alloc()), case.plan);
    let watched = Watched { rt, notes: &notes };
    let mut station = FileStation::new(rt.alloc(), &watched, store, Vec::new(rt.alloc()))?;
    let passes = case.says.is_empty();
    Ok(ends_so(rt, &mut station, case.says) && (passes || notes.end_in(case.plan.call)))
}

#[test]
fn each_call_that_fails_is_passed_over_or_named(rt: HostRuntime) -> Result<(), Fail> {
    let store = store_path(&rt)?;
    let store = store.as_str();
    for line in CASES.lines() {
        let case = read_case(line).ok_or("no case")?;
        assert!(rt; !case.is_old || is_filled(&rt, store));
        assert!(rt; goes_so(&rt, store, &case)?, "{line}");
        clear(&rt, store)?;
    }
    Ok(())
}

const NONE_FAILS: Plan = Plan {
    call: "",
    nth: 0,
    code: 0,
};

// Whether a store is filled with exactly these calls.
fn calls_so(rt: &HostRuntime, store: &str, calls: &str) -> Result<bool, Memory> {
    let notes = Notes::new(Vec::new(rt.alloc()), NONE_FAILS);
    let watched = Watched { rt, notes: &notes };
    let mut station = FileStation::new(rt.alloc(), &watched, store, Vec::new(rt.alloc()))?;
    Ok(fills(&mut station) && notes.are(calls))
}

#[test]
fn locks_and_the_folder_come_before_the_first_byte(rt: HostRuntime) -> Result<(), Fail> {
    let store = store_path(&rt)?;
    assert!(rt;
        calls_so(
            &rt,
            &store,
            "op lp mp oj lj mj od sd mp wp wp sp mp mj wj sj mj rp rp rp "
        )?
    );
    Ok(clear(&rt, &store)?)
}

// Whether each write and sync of this many writes and then a sync succeeds.
fn writes<D: Disk>(disk: &mut D, count: u64) -> bool
    requires { count < 16 }
{
    for n in 0..count {
        if disk.write(Area::Pages, 4096 * n, b"abc").is_err() {
            return false;
        }
    }
    disk.sync(Area::Pages).is_ok()
}

// Whether three writes and a sync, and then two writes and a sync, are exactly these calls.
fn writes_so(rt: &HostRuntime, store: &str, calls: &str) -> Result<bool, Memory> {
    let notes = Notes::new(Vec::new(rt.alloc()), NONE_FAILS);
    let watched = Watched { rt, notes: &notes };
    let mut station = FileStation::new(rt.alloc(), &watched, store, Vec::new(rt.alloc()))?;
    Ok(writes(&mut station, 3) && writes(&mut station, 2) && notes.are(calls))
}

#[test]
fn a_file_is_checked_before_the_first_write_and_after_each_sync(
    rt: HostRuntime,
) -> Result<(), Fail> {
    let store = store_path(&rt)?;
    assert!(rt;
        writes_so(
            &rt,
            &store,
            "op lp mp oj lj mj od sd mp wp wp wp sp mp mp wp wp sp mp "
        )?
    );
    Ok(clear(&rt, &store)?)
}
