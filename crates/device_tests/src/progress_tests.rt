//! Tests when a station says how many pages it has read, by a clock that the tests set.
use crate::calls::holds;
use disk_model::{Area, CallKind, Disk, Fail as Failing, MemoryStation, Station};
use std::alloc::Global;
use std::cell::{Cell, RefCell};
use std::io::{self, ErrorKind, Write};
use std::rt::Clock;
use std::test::Fail;
use std::time::Duration;
use std_devices::{Progress, ReportedStation};

// A clock in milliseconds. With `None` it can't be read.
#[derive(Drop)]
struct SetClock {
    at: Cell<Option<u64>>,
}

impl Clock for SetClock {
    fn monotonic(&self) -> io::Result<Duration> {
        match self.at.get() {
            Some(at) => Ok(Duration::from_millis(at)),
            None => Err(io::Error::from(ErrorKind::Unsupported)),
        }
    }

    fn since_1970(&self) -> io::Result<Duration> {
        Err(io::Error::from(ErrorKind::Unsupported))
    }
}

// An output that a test reads again. Without bytes each write fails.
#[derive(Drop)]
struct Paper<'a> {
    said: Option<&'a RefCell<Vec<u8>>>,
}

impl Write for Paper<'_> {
    fn write(&mut self, buf: &[u8]) -> io::Result<usize> {
        let Some(said) = self.said else {
            return Err(io::Error::from(ErrorKind::BrokenPipe));
        };
        match said.try_borrow_mut() {
            Ok(mut said) => {
                said.extend_from_slice(buf)?;
                Ok(buf.len())
            }
            Err(_) => Err(io::Error::from(ErrorKind::Other)),
        }
    }

    fn flush(&mut self) -> io::Result<()> {
        Ok(())
    }
}

// The seventh read fails.
static FAILS: [Failing; 1] = [Failing {
    kind: CallKind::Read,
    nth: 7,
}];

// Each line is a case: calls, each at its milliseconds, and then how many pages each line speaks of. `p` is a read of pages, `j` of the
// journal, `w` a write, `s` a sync, `y` a `say`. Without a number the clock can't be read.
static CASES: &str = "\
p0 p999|
p0 p1000|2
p7 p1006 p1007|3
p0 p1000 p1500 p1999 p2000 p9000|2 5 6
p0 p2500 p3499 p3500|2 4
p0 j5000 w6000 s7000 y8000|
p0 j1000 p1001|2
j0 p1000 p2000|2
p0 p p p900 p1000|5
p p5000 p5999 p6000|4
p5000 p100 p5999 p6000|4
p0 p0 p0 p0 p0 p0 p3000 p3001|7
";

// Whether a call that begins with this letter is no failed one, or is the read that fails.
fn calls<D: Station>(station: &mut D, letter: &str) -> bool {
    match letter {
        "p" => holds(station, Area::Pages, 4096, &[0; 6]),
        "j" => holds(station, Area::Journal, 0, &[0; 6]),
        "w" => station.write(Area::Pages, 0, b"w").is_ok(),
        "s" => station.sync(Area::Pages).is_ok(),
        "y" => station.say(b"y").is_ok(),
        _ => false,
    }
}

// Makes the calls of a case. Returns how many failed.
fn failed<D: Station>(station: &mut D, clock: &SetClock, words: &str) -> usize {
    let mut failed = 0usize;
    for word in words.split(' ') {
        let (letter, at) = word.split_at_checked(1).unwrap_or((word, ""));
        clock.at.set(at.parse().ok());
        if !calls(station, letter) {
            failed = failed.saturating_add(1);
        }
    }
    failed
}

// The lines that speak of these numbers of pages.
fn lines_of(alloc: Global, numbers: &str) -> Result<String, Fail> {
    let mut lines = String::new(alloc);
    for number in numbers.split_whitespace() {
        lines.push_str("a.store: ")?;
        lines.push_str(number)?;
        lines.push_str(" pages read so far; the file has 9\n")?;
    }
    Ok(lines)
}

// A station in memory whose seventh read fails, with a progress.
fn reported<'a>(
    alloc: Global,
    clock: &'a SetClock,
    said: Option<&'a RefCell<Vec<u8>>>,
) -> Result<ReportedStation<'a, MemoryStation, SetClock, Paper<'a>>, Fail> {
    let mut station = MemoryStation::new(alloc, 9);
    station.fail_at(&FAILS).map_err(|_| "no memory")?;
    let name = String::from_str(alloc, "a.store")?;
    let progress = Progress::new(alloc, clock, Paper { said }, name, 9);
    Ok(ReportedStation::new(station, Some(progress)))
}

// Whether what was said is this text.
fn is_said(said: &RefCell<Vec<u8>>, text: &str) -> bool {
    match said.try_borrow() {
        Ok(said) => said.as_slice() == text.as_bytes(),
        Err(_) => false,
    }
}

#[test]
fn a_line_comes_with_a_page_and_a_second_after_the_last(rt: HostRuntime) -> Result<(), Fail> {
    for line in CASES.lines() {
        let (words, numbers) = line.split_once('|').ok_or("no case")?;
        let clock = SetClock {
            at: Cell::new(None),
        };
        let said = RefCell::new(Vec::new(rt.alloc()));
        let mut station = reported(rt.alloc(), &clock, Some(&said))?;
        let reads = words.split(' ').count();
        assert!(rt; failed(&mut station, &clock, words) == reads / 8, "{line}");
        assert!(rt; is_said(&said, &lines_of(rt.alloc(), numbers)?), "{line}");
    }
    Ok(())
}

#[test]
fn a_line_that_cannot_be_written_is_passed_over(rt: HostRuntime) -> Result<(), Fail> {
    let clock = SetClock {
        at: Cell::new(None),
    };
    let mut station = reported(rt.alloc(), &clock, None)?;
    assert!(rt; failed(&mut station, &clock, "p0 p1000 w2000 p3000 y4000") == 0);
    assert!(rt; station.station().faults() == (0, 0));
    Ok(())
}
