//! What a store holds after a crash.
use crate::failing::{EACH_WAY, Failing, TEARS, is_faultless, is_named, set_to_fail};
use crate::runs::{ROOM, RUN, bytes_of, run_on, stored_by};
use disk_model::{Area, MemoryStation, Tear};
use irtree_top::Ended;
use std::alloc::Global;
use std::test::Fail;

// Five places.
const FIVE: &[u8] =
    b"{\"type\":\"FeatureCollection\",\"features\":[{\"type\":\"Feature\",\"geometry\":{\"type\":\"Point\",\"coordinates\":[1,2]},\"properties\":{\"t\":\"x\"}},{\"type\":\"Feature\",\"geometry\":{\"type\":\"Point\",\"coordinates\":[2,3]},\"properties\":{\"t\":\"x y\"}},{\"type\":\"Feature\",\"geometry\":{\"type\":\"Point\",\"coordinates\":[3,4]}},{\"type\":\"Feature\",\"id\":7,\"geometry\":{\"type\":\"Point\",\"coordinates\":[4,5]},\"properties\":{\"t\":\"y z\"}},{\"type\":\"Feature\",\"id\":\"e\",\"geometry\":{\"type\":\"Point\",\"coordinates\":[5,6]},\"properties\":{\"t\":\"z\"}}]}";

// A script that makes a store, the words and the input of a run over it, all that the run prints, and a question. Then the question's
// replies: before the run's first change, after the first, and so on.
struct Case {
    store: &'static [u8],
    given: &'static [&'static str],
    input: &'static [u8],
    said: &'static [u8],
    question: &'static [u8],
    answers: &'static [&'static [u8]],
}

static CASES: [Case; 7] = [
    Case {
        store: b"add a 0 0\n",
        given: &["-", "run"],
        input: b"add b 1 1\n",
        said: b"ok\n",
        question: b"count\n",
        answers: &[b"count 1\n", b"count 2\n"],
    },
    Case {
        store: b"add a 0 0 x y\nadd b 0 0 y z\n",
        given: &["-", "run"],
        input: b"remove a\n",
        said: b"ok\n",
        question: b"range 0 0 1 where y\n",
        answers: &[
            b"= 2\n1 \"a\" 0.0000000\n2 \"b\" 0.0000000\n",
            b"= 1\n1 \"b\" 0.0000000\n",
        ],
    },
    Case {
        store: b"add a 0 0 x y\n",
        given: &["-", "run"],
        input: b"add a 1 1 y z\n",
        said: b"ok replaced\n",
        question: b"show a\n",
        answers: &[
            b"place \"a\" 0.0000000 0.0000000 2 \"x y\"\n\"x\" 128\n\"y\" 128\n",
            b"place \"a\" 1.0000000 1.0000000 2 \"y z\"\n\"y\" 128\n\"z\" 128\n",
        ],
    },
    Case {
        store: b"",
        given: &["-", "run"],
        input: b"add a 0 0 x\nadd b 1 1 y\nremove a\nnearest 0 0 2\n",
        said: b"ok\nok\nok\n= 1\n1 \"b\" 1.4142135\n",
        question: b"count\n",
        answers: &[b"count 0\n", b"count 1\n", b"count 2\n", b"count 1\n"],
    },
    // Without a cache, pages are read again in the middle of each change.
    Case {
        store: b"",
        given: &["-", "run", "--cache=0"],
        input: b"add a 0 0 x\nadd b 1 1 y\nremove a\nnearest 0 0 2\n",
        said: b"ok\nok\nok\n= 1\n1 \"b\" 1.4142135\n",
        question: b"count\n",
        answers: &[b"count 0\n", b"count 1\n", b"count 2\n", b"count 1\n"],
    },
    // A load and a make leave whole batches.
    Case {
        store: b"",
        given: &["-", "load", "--batch=2"],
        input: FIVE,
        said: b"stored 2\nstored 4\nstored 5\nloaded 5 skipped 0\n",
        question: b"count\n",
        answers: &[b"count 0\n", b"count 2\n", b"count 4\n", b"count 5\n"],
    },
    Case {
        store: b"",
        given: &["-", "make", "--from=7", "--batch=1", "--count=3"],
        input: b"",
        said: b"stored 1\nstored 2\nstored 3\nmade 3 places 3 queries 9 hits sum 1842162097335000\n",
        question: b"count\n",
        answers: &[b"count 0\n", b"count 1\n", b"count 2\n", b"count 3\n"],
    },
];

// How many whole lines report that a change is stored.
fn acknowledged(said: &[u8]) -> usize {
    let mut count: usize = 0;
    let mut is_first = true;
    let mut is_ok = false;
    for (at, byte) in said.iter().enumerate() {
        if is_first {
            is_ok = said[at..].starts_with(b"ok") || said[at..].starts_with(b"stored");
        }
        is_first = *byte == b'\n';
        if is_first && is_ok {
            count = count.saturating_add(1);
        }
    }
    count
}

// Whether a reply is that after as many changes as were acknowledged, or after one more.
fn is_answer(case: &Case, acknowledged: usize, answer: &[u8]) -> bool {
    for (changes, wanted) in case.answers.iter().enumerate() {
        let is_due = changes == acknowledged || changes == acknowledged.saturating_add(1);
        if is_due && *wanted == answer {
            return true;
        }
    }
    false
}

// Whether a case's question gets such a reply over what a crash leaves of a station, and once more after another crash.
fn is_kept(
    alloc: Global,
    case: &Case,
    acknowledged: usize,
    station: &MemoryStation,
    tear: Tear,
) -> Result<bool, Fail> {
    let mut once = station.crashed(tear)?;
    let first = run_on(alloc, &RUN, case.question, 100, &mut once)?;
    let mut twice = once.crashed(Tear::Lost)?;
    let second = run_on(alloc, &RUN, case.question, 100, &mut twice)?;
    let are_done = first == Ended::Done && second == Ended::Done;
    Ok(are_done && is_answer(case, acknowledged, once.said()) && twice.said() == once.said())
}

// Whether a case's question gets such a reply whatever the crash does to what was pending.
fn is_kept_always(alloc: Global, case: &Case, station: &MemoryStation) -> Result<bool, Fail> {
    let acknowledged = acknowledged(station.said());
    for tear in &TEARS {
        if !is_kept(alloc, case, acknowledged, station, *tear)? {
            return Ok(false);
        }
    }
    Ok(true)
}

// The number of the first call whose failure is passed over, has another status, lets a wrong line through, or loses an update that was
// acknowledged.
fn first_wrong(alloc: Global, case: &Case, failing: Failing) -> Result<Option<u64>, Fail> {
    let made = stored_by(alloc, &RUN, case.store)?;
    for nth in 1..1_000 {
        let mut station = made.crashed(Tear::Kept)?;
        set_to_fail(&mut station, failing, nth)?;
        let ended = run_on(alloc, case.given, case.input, 100, &mut station)?;
        let is_right = is_named(failing, ended, &station, case.said);
        if !is_right || !is_kept_always(alloc, case, &station)? {
            return Ok(Some(nth));
        }
        if is_faultless(&station) {
            return Ok(None);
        }
    }
    Err("no run was without a failing call".into())
}

#[test]
fn any_call_that_fails_is_named_and_leaves_every_acknowledged_update(
    rt: HostRuntime,
) -> Result<(), Fail> {
    for (row, case) in CASES.iter().enumerate() {
        for failing in EACH_WAY {
            let wrong = first_wrong(rt.alloc(), case, failing)?;
            assert_eq!(rt; wrong, None, "row {row}, {failing:?}");
        }
    }
    Ok(())
}

// The pages and the journal that a crash leaves after so many calls of an update, or `None` if the gate isn't open then.
fn open_gate(alloc: Global, calls: u64) -> Result<Option<(Vec<u8>, Vec<u8>)>, Fail> {
    let mut station = stored_by(alloc, &RUN, b"add a 0 0 x\n")?;
    station.stop_after(calls);
    run_on(alloc, &RUN, b"add b 1 1 y\n", 100, &mut station)?;
    let mut crashed = station.crashed(Tear::Lost)?;
    let journal = bytes_of(alloc, &mut crashed, Area::Journal, 32_768)?;
    if journal.first() != Some(&1) {
        return Ok(None);
    }
    let pages = bytes_of(alloc, &mut crashed, Area::Pages, 65_536)?;
    Ok(Some((pages, journal)))
}

// Whether a store with such a journal has one place or two, or is refused.
fn is_applied_or_refused(alloc: Global, pages: &[u8], journal: &[u8]) -> Result<bool, Fail> {
    let mut station = MemoryStation::with_image(alloc, pages, journal, ROOM)?;
    let ended = run_on(alloc, &RUN, b"count\n", 100, &mut station)?;
    if ended == Ended::Done {
        Ok(station.said() == b"count 1\n".as_slice() || station.said() == b"count 2\n".as_slice())
    } else {
        Ok(ended.status() == 7)
    }
}

#[test]
fn a_journal_that_is_cut_off_is_applied_or_refused(rt: HostRuntime) -> Result<(), Fail> {
    // The gate is open for the first time when the journal's first byte is 1.
    for calls in 0..100 {
        let Some((pages, journal)) = open_gate(rt.alloc(), calls)? else {
            continue;
        };
        for cut in 0..64 {
            let len = (cut * 512).min(journal.len());
            assert!(rt;
                is_applied_or_refused(rt.alloc(), &pages, &journal[..len])?,
                "cut at {len}"
            );
        }
        return Ok(());
    }
    Err("the gate was never open".into())
}
