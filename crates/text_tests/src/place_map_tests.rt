//! Queries over small states, with answers worked out by hand.
ghost use Rattle.std.specs.Prelude.{IfOk};
ghost use Rattle.place_values.specs.Update.{NamesText};

use place_map::State;
use place_values::{Answer, Applied, Chosen, Expr, Hit, Query, Terms, Update, Weights, rarity};
use spatial_base::{Key, Point, Rect};
use std::alloc::{AllocError, Global};
use std::fmt::Write;
use std::test::Fail;
use term_impacts::{Label, Word, Words, impacts, one_word};

// A place: its key, its longitude and latitude in degrees times 10^7, and its text.
type Row = (&'static str, i32, i32, &'static str);

// The update that puts a place.
fn put(alloc: Global, row: &Row) -> Result<Update, Fail>
    ensures { IfOk result NamesText }
{
    let (key, x, y, text) = row;
    Ok(Update::Put {
        key: Some(Key::of_text(key)?),
        point: Point::new(*x, *y).ok_or("off the map")?,
        words: impacts(alloc, text)?,
        label: Label::of_text(text),
    })
}

// The state with these places.
fn state_of(alloc: Global, rows: &[Row]) -> Result<State, Fail> {
    let mut state = State::new(alloc);
    for row in rows {
        state.apply(put(alloc, row)?)?;
    }
    Ok(state)
}

// The one word of a text.
fn word(alloc: Global, text: &str) -> Result<Word, Fail> {
    Ok(one_word(alloc, text)?.ok_or("no word")?)
}

// Appends hits as text: the key, cost, distance and relevance of each.
fn tell_hits(out: &mut String, hits: &[Hit]) -> Result<(), AllocError> {
    for hit in hits {
        let key = hit.key.text().unwrap_or("");
        write!(out, "{key} {} {} {}, ", hit.cost, hit.dist, hit.text)?;
    }
    Ok(())
}

// Appends a choice as text: its cost, and the word, key and distance of each pick.
fn tell_choice(out: &mut String, chosen: &Chosen) -> Result<(), AllocError> {
    write!(out, "{}: ", chosen.cost)?;
    for pick in chosen.picks.as_slice() {
        let key = pick.key.text().unwrap_or("");
        write!(out, "{} {key} {}, ", pick.word.text(), pick.dist)?;
    }
    Ok(())
}

// An answer as a text.
fn told(alloc: Global, answer: &Answer) -> Result<String, AllocError> {
    let mut out = String::new(alloc);
    match answer {
        Answer::Hits(hits) => tell_hits(&mut out, hits.as_slice())?,
        Answer::Group(Some(chosen)) => tell_choice(&mut out, chosen)?,
        Answer::Group(None) => out.push_str("none")?,
    }
    Ok(out)
}

// The answer to a query, as a text.
fn answered(alloc: Global, state: &State, query: &Query) -> Result<String, Fail> {
    if !query.is_within_limits() {
        return Ok(String::from_str(alloc, "beyond the limits")?);
    }
    let answer = state.answer(query)?;
    Ok(told(alloc, &answer)?)
}

// Whether a query over these places has this answer.
fn is_answered(alloc: Global, rows: &[Row], query: Query, wanted: &str) -> Result<bool, Fail> {
    let state = state_of(alloc, rows)?;
    Ok(answered(alloc, &state, &query)?.as_str() == wanted)
}

// Places, the words of a group query at 0 0, and its answer.
static GROUPS: [(&[Row], &[&str], &str); 5] = [
    // The nearest place for each word would cost three degrees.
    (
        &[
            ("a1", 10_000_000, 0, "a"),
            ("b1", -10_000_000, 0, "b"),
            ("c1", 0, -10_000_000, "c"),
            ("b2", 12_000_000, 0, "b"),
            ("c2", 11_000_000, 0, "c"),
        ],
        &["a", "b", "c"],
        "14000000: a a1 10000000, b b2 12000000, c c2 11000000, ",
    ),
    // One place has both words.
    (
        &[("m", 0, 10_000_000, "a b")],
        &["a", "b"],
        "10000000: a m 10000000, b m 10000000, ",
    ),
    (&[("m", 0, 10_000_000, "a b")], &["a", "z"], "none"),
    // Two choices have the same cost, and the lesser key decides.
    (
        &[
            ("a2", -10_000_000, 0, "a"),
            ("a1", 10_000_000, 0, "a"),
            ("b1", 0, 0, "b"),
        ],
        &["a", "b"],
        "20000000: a a1 10000000, b b1 0, ",
    ),
    (
        &[("m", 0, 10_000_000, "a b")],
        &["a", "a"],
        "beyond the limits",
    ),
];

// A group query at 0 0.
fn group(alloc: Global, texts: &[&str]) -> Result<Query, Fail> {
    let mut words = Vec::new(alloc);
    for text in texts {
        words.push(word(alloc, text)?)?;
    }
    Ok(Query::Group {
        at: Point::new(0, 0).ok_or("off the map")?,
        scale: 1000,
        words: Terms::from_vec(words),
    })
}

#[test]
fn a_group_is_the_cheapest_choice(rt: HostRuntime) -> Result<(), Fail> {
    let alloc = rt.alloc();
    for &(rows, texts, wanted) in &GROUPS {
        let query = group(alloc, texts)?;
        assert!(rt; is_answered(alloc, rows, query, wanted)?, "{wanted}");
    }
    Ok(())
}

// Places, the words of a gather query at 0 0, and its answer.
static GATHERS: [(&[Row], &[&str], &str); 4] = [
    // The nearest place for each word would cost three degrees in sum.
    (
        &[
            ("m", 0, 20_000_000, "a b c"),
            ("a1", 10_000_000, 0, "a"),
            ("b1", 0, 10_000_000, "b"),
            ("c1", -10_000_000, 0, "c"),
        ],
        &["a", "b", "c"],
        "20000000: a m 20000000, b m 20000000, c m 20000000, ",
    ),
    // A place that serves two of the words counts once beside another place.
    (
        &[
            ("m", 0, 15_000_000, "a b"),
            ("a1", 10_000_000, 0, "a"),
            ("b1", 0, 10_000_000, "b"),
            ("c1", -10_000_000, 0, "c"),
        ],
        &["a", "c", "b"],
        "25000000: a m 15000000, c c1 10000000, b m 15000000, ",
    ),
    // Two choices have the same cost, and the lesser key decides.
    (
        &[
            ("a2", -10_000_000, 0, "a"),
            ("a1", 10_000_000, 0, "a"),
            ("b1", 0, 0, "b"),
        ],
        &["b", "a"],
        "10000000: b b1 0, a a1 10000000, ",
    ),
    (&[("m", 0, 10_000_000, "a b")], &["a", "z"], "none"),
];

// A gather query at 0 0.
fn gather(alloc: Global, texts: &[&str]) -> Result<Query, Fail> {
    let mut words = Vec::new(alloc);
    for text in texts {
        words.push(word(alloc, text)?)?;
    }
    Ok(Query::Gather {
        at: Point::new(0, 0).ok_or("off the map")?,
        scale: 1000,
        words: Terms::from_vec(words),
    })
}

#[test]
fn gathered_places_cost_the_least_sum(rt: HostRuntime) -> Result<(), Fail> {
    let alloc = rt.alloc();
    for &(rows, texts, wanted) in &GATHERS {
        let query = gather(alloc, texts)?;
        assert!(rt; is_answered(alloc, rows, query, wanted)?, "{wanted}");
    }
    Ok(())
}

// How many places are live, how many of them have a word, and the word's weight.
static RARITIES: [(u32, u32, u8); 12] = [
    (7, 0, 1),
    (0, 0, 1),
    (7, 7, 1),
    (7, 4, 1),
    (8, 4, 2),
    (7, 3, 2),
    (7, 1, 3),
    (8, 1, 4),
    (1_000_000, 2, 19),
    (1_000_000, 1, 20),
    (524_287, 1, 19),
    (u32::MAX, 1, 20),
];

#[test]
fn a_weight_counts_how_often_the_holders_can_double(rt: HostRuntime) -> Result<(), Fail> {
    for &(live, count, weight) in &RARITIES {
        if count > live {
            return Err(Fail::new("more holders than places"));
        }
        assert_eq!(rt; rarity(live, count), weight);
    }
    Ok(())
}

// Places, the most hits, the word and the weight of a top query at 0 0, and its answer.
static TOPS: [(&[Row], u16, &str, u8, &str); 4] = [
    (
        &[
            ("p", 0, 5_000_000, "cafe"),
            ("q", 0, 0, "cafe bar"),
            ("r", 0, 0, "bar"),
        ],
        2,
        "cafe",
        1,
        "q 635000000000 0 128, p 637500000000 5000000 255, ",
    ),
    (
        &[("p", 0, 5_000_000, "cafe"), ("q", 0, 0, "cafe bar")],
        1,
        "cafe",
        2,
        "q 1270000000000 0 256, ",
    ),
    // All have the same cost, and the first keys win.
    (
        &[
            ("k3", 10_000_000, 10_000_000, "x"),
            ("k0", 10_000_000, 10_000_000, "x"),
            ("k2", 10_000_000, 10_000_000, "x"),
            ("k1", 10_000_000, 10_000_000, "x"),
        ],
        2,
        "x",
        1,
        "k0 1803122212500 14142135 255, k1 1803122212500 14142135 255, ",
    ),
    (&[], 1, "cafe", 21, "beyond the limits"),
];

// A top query at 0 0 for one word.
fn top(alloc: Global, k: u16, text: &str, weight: u8) -> Result<Query, Fail> {
    let mut words = Vec::new(alloc);
    words.push((word(alloc, text)?, weight))?;
    Ok(Query::Top {
        at: Point::new(0, 0).ok_or("off the map")?,
        scale: 1000,
        k,
        alpha: 500,
        reach: 10_000_000,
        words: Weights::from_vec(words),
    })
}

#[test]
fn top_weighs_distance_against_words(rt: HostRuntime) -> Result<(), Fail> {
    let alloc = rt.alloc();
    for &(rows, k, text, weight, wanted) in &TOPS {
        let query = top(alloc, k, text, weight)?;
        assert!(rt; is_answered(alloc, rows, query, wanted)?, "{wanted}");
    }
    Ok(())
}

// The expression that needs this word.
fn has(alloc: Global, text: &str) -> Result<Box<Expr>, Fail> {
    Ok(Box::new(alloc, Expr::Has(word(alloc, text)?))?)
}

// `a and not (b or c)`.
fn a_alone(alloc: Global) -> Result<Expr, Fail> {
    let either = Box::new(alloc, Expr::Or(has(alloc, "b")?, has(alloc, "c")?))?;
    let neither = Box::new(alloc, Expr::Not(either))?;
    Ok(Expr::And(has(alloc, "a")?, neither))
}

static LADDER: [Row; 3] = [
    ("u", 0, 0, "a"),
    ("v", 0, 10_000_000, "a b"),
    ("w", 0, 20_000_000, "a and"),
];

#[derive(Clone, Copy)]
enum Asked {
    // The places within two degrees of 0 0 that have `a` and neither `b` nor `c`.
    Range,
    // The places within a degree of longitude and latitude of 0 0.
    Inside,
    // The nearest places to 0 0, this many at most, that do not have `and`.
    Nearest(u16),
}

// The queries over the ladder, and their answers.
static CLIMBED: [(Asked, &str); 4] = [
    (Asked::Range, "u 0 0 0, w 20000000 20000000 0, "),
    (Asked::Inside, "u 0 0 0, v 0 0 0, "),
    (Asked::Nearest(1), "u 0 0 0, "),
    (Asked::Nearest(0), "beyond the limits"),
];

fn query_of(alloc: Global, asked: Asked) -> Result<Query, Fail> {
    let at = Point::new(0, 0).ok_or("off the map")?;
    Ok(match asked {
        Asked::Range => Query::Range {
            at,
            scale: 1000,
            radius: 20_000_000,
            filter: Some(a_alone(alloc)?),
        },
        Asked::Inside => Query::Inside {
            rect: Rect::new(-10_000_000, -10_000_000, 10_000_000, 10_000_000).ok_or(
                "no rectangle",
            )?,
            filter: None,
        },
        Asked::Nearest(k) => Query::Nearest {
            at,
            scale: 1000,
            k,
            filter: Some(Expr::Not(has(alloc, "and")?)),
        },
    })
}

#[test]
fn places_pass_a_filter_in_a_range_a_box_or_nearby(rt: HostRuntime) -> Result<(), Fail> {
    for &(asked, wanted) in &CLIMBED {
        let query = query_of(rt.alloc(), asked)?;
        assert!(rt;
            is_answered(rt.alloc(), &LADDER, query, wanted)?,
            "{wanted}"
        );
    }
    Ok(())
}

static TWICE: [Row; 2] = [("a", 0, 0, "x"), ("a", 10_000_000, 10_000_000, "y")];

// The longitude of the place `a`, the impacts of two words there, and its label.
fn shown(state: &State, x: &Word, y: &Word) -> Option<(i32, u8, u8, Label)> {
    let key = Key::of_text("a").ok()?;
    match state.show(&key) {
        Some((point, words, label)) => Some((point.x(), words.impact(x), words.impact(y), label)),
        None => None,
    }
}

// Removes the place `a`.
fn remove(state: &mut State) -> Option<Applied> {
    let key = Key::of_text("a").ok()?;
    state.apply(Update::Remove { key }).ok()
}

#[test]
fn a_place_is_shown_replaced_and_removed(rt: HostRuntime) -> Result<(), Fail> {
    let (x, y) = (word(rt.alloc(), "x")?, word(rt.alloc(), "y")?);
    let mut state = state_of(rt.alloc(), &TWICE)?;
    assert!(rt; shown(&state, &x, &y) == Some((10_000_000, 0, 255, Label::of_text("y"))));
    assert!(rt; state.count() == 1 && state.number() == 2);
    assert!(rt; remove(&mut state) == Some(Applied::Gone));
    assert!(rt; remove(&mut state) == Some(Applied::Absent));
    assert!(rt; shown(&state, &x, &y).is_none());
    Ok(())
}

// The key of a row: the text of a text key, or the number of an automatic key.
type Given = Result<&'static str, u64>;

// Keys, the next serial, the update number, and how many places the state has, or `None` if no state has these.
static RESTORED: [(&[Given], u64, u64, Option<u32>); 10] = [
    (&[], 1, 0, Some(0)),
    (
        &[Ok("a"), Ok("ab"), Ok("b"), Err(3), Err(20)],
        21,
        40,
        Some(5),
    ),
    (&[Ok("a"), Ok("a")], 1, 2, None),
    (&[Ok("b"), Ok("a")], 1, 2, None),
    (&[Err(1), Ok("a")], 2, 2, None),
    (&[Ok("a")], 0, 1, None),
    (&[Ok("a")], 3, 1, None),
    (&[Err(1)], 1, 1, None),
    (&[], 1, 1 << 40, Some(0)),
    (&[], 1, (1 << 40) + 1, None),
];

// A row for a place with this key.
fn row_of(alloc: Global, given: &Given) -> Result<(Key, Point, Words, Label), Fail> {
    let key = match given {
        Ok(text) => Key::of_text(text)?,
        Err(serial) => Key::auto(*serial),
    };
    let at = Point::new(5, 7).ok_or("off the map")?;
    Ok((key, at, impacts(alloc, "x")?, Label::of_text("x")))
}

// How many places the state restored from these keys has, or `None` if no state has them.
fn restored(alloc: Global, given: &[Given], serial: u64, number: u64) -> Result<Option<u32>, Fail> {
    let mut rows = Vec::new(alloc);
    for one in given {
        rows.push(row_of(alloc, one)?)?;
    }
    if rows.len() > 5 {
        return Err(Fail::new("more than five places"));
    }
    Ok(match State::with_places(alloc, serial, number, rows)? {
        Some(state) => Some(state.count()),
        None => None,
    })
}

#[test]
fn only_what_a_state_can_hold_is_restored(rt: HostRuntime) -> Result<(), Fail> {
    for (given, serial, number, count) in &RESTORED {
        assert_eq!(rt; restored(rt.alloc(), given, *serial, *number)?, *count);
    }
    Ok(())
}
