//! Tests which nodes queries over random maps read, their answers, and the places at all keys.
//!
//! Each node that is read is one that the query needs, judged by what bounds the places below it. Each answer is that of a scan of all
//! places, and the point, words and label at each key are those of the map.
ghost use Rattle.std.specs.Prelude.{◌≡◌};

use crate::calls::is_due;
use crate::dice::Ground;
use crate::maps::{Map, PLACES, made};
use crate::tree_nodes::is_of_words;
use disk_model::MemoryStation;
use irtree_engine::Engine;
use place_values::{Answer, Hit, Query, Weights};
use query_lang::{Line, read_line};
use spatial_base::Key;
use split_policy::{Halving, Quadratic};
use std::alloc::Global;
use std::test::Fail;
use term_impacts::Word;

// How many queries are run. Of 17 in a row one is a group or gather query, and each other kind comes four times.
const MANY: u32 = 4_250;

const SOME: u32 = 425;

// Whether a log has the leaf of a place.
fn has_leaf(map: &Map, log: &[u32], key: &Key) -> bool {
    match map.tree.leaves.get(key) {
        Some(leaf) => log.contains(leaf),
        None => false,
    }
}

// Whether a log has the leaf of each place in an answer.
fn has_leaves(map: &Map, log: &[u32], answer: &Answer) -> bool {
    match answer {
        Answer::Hits(hits) => {
            for hit in hits.as_slice() {
                if !has_leaf(map, log, &hit.key) {
                    return false;
                }
            }
        }
        Answer::Group(Some(group)) => {
            for pick in group.picks.as_slice() {
                if !has_leaf(map, log, &pick.key) {
                    return false;
                }
            }
        }
        Answer::Group(None) => {}
    }
    true
}

// Checks each page in the log of a query, one by rarity by the top query that it is asked as.
fn check_log(
    map: &Map,
    query: &Query,
    by_rarity: bool,
    answer: &Answer,
    log: &[u32],
) -> Result<(), Fail> {
    let hits: &[Hit] = match answer {
        Answer::Hits(hits) => hits.as_slice(),
        Answer::Group(_) => &[],
    };
    for page in log {
        let is_right = match map.tree.nodes.get(page) {
            Some(node) => is_due(query, hits, log, node),
            None => is_of_words(&map.pages, *page, by_rarity)?,
        };
        if !is_right {
            return Err("a page was read that the query doesn't call for".into());
        }
    }
    if has_leaves(map, log, answer) {
        Ok(())
    } else {
        Err("the leaf of an answer isn't in the log".into())
    }
}

fn are_same(one: &Answer, other: &Answer) -> bool {
    match (one, other) {
        (Answer::Hits(one), Answer::Hits(other)) => one.as_slice() == other.as_slice(),
        (Answer::Group(Some(one)), Answer::Group(Some(other))) => {
            one.cost == other.cost && one.picks.as_slice() == other.picks.as_slice()
        }
        (Answer::Group(None), Answer::Group(None)) => true,
        _ => false,
    }
}

// How many places a map has, and how many of them have a word.
fn counts_of(alloc: Global, map: &Map, word: &Word) -> Result<(u32, u32), Fail> {
    let (mut live, mut holders) = (0_u32, 0_u32);
    for number in 0..PLACES {
        let name = format!(in alloc; "p{number:04}")?;
        if let Some((_, words, _)) = map.state.show(&Key::of_text(name.as_str())?) {
            live = live.saturating_add(1);
            holders = holders.saturating_add(u32::from(words.impact(word) > 0));
        }
    }
    Ok((live, holders))
}

// The weight of a word by its rarity.
fn weight_of((live, holders): (u32, u32)) -> u8 {
    let (mut weight, mut most) = (1_u8, holders);
    for _ in 0..19 {
        let doubled = most.saturating_mul(2);
        if holders > 0 && doubled <= live {
            (weight, most) = (weight.saturating_add(1), doubled);
        }
    }
    weight
}

// A query by rarity as the top query with the weights that a map's places give its words, and `None` for any other query.
fn as_top(alloc: Global, map: &Map, query: &Query) -> Result<Option<Query>, Fail> {
    let Query::Rare {
        at,
        scale,
        k,
        alpha,
        reach,
        words,
    } = query
    else {
        return Ok(None);
    };
    let mut weights = Vec::new(alloc);
    for word in words.as_slice() {
        weights.push((*word, weight_of(counts_of(alloc, map, word)?)))?;
    }
    Ok(Some(Query::Top {
        at: *at,
        scale: *scale,
        k: *k,
        alpha: *alpha,
        reach: *reach,
        words: Weights::from_vec(weights),
    }))
}

// Checks the answer to a query, which must be that of the scan, and its log.
fn look(
    alloc: Global,
    map: &Map,
    engine: &mut Engine<'_, MemoryStation>,
    line: &str,
) -> Result<(), Fail>
    ensures { engine.new.store.disk.ghost_name ≡ engine.old.store.disk.ghost_name }
{
    let Ok(Line::Ask { query, explain: _ }) = read_line(alloc, line.as_bytes()) else {
        return Err("no query".into());
    };
    if !query.is_within_limits() {
        return Err("not within the limits".into());
    }
    let answer = engine.answer(&query)?;
    let wanted = map.state.answer(&query)?;
    if !are_same(&answer, &wanted) {
        return Err("another answer".into());
    }
    match as_top(alloc, map, &query)? {
        Some(top) => check_log(map, &top, true, &answer, engine.read_log()),
        None => check_log(map, &query, false, &answer, engine.read_log()),
    }
}

// Checks all queries over an engine.
fn look_at_all(
    alloc: Global,
    map: &Map,
    engine: &mut Engine<'_, MemoryStation>,
    lines: &[String],
) -> Result<(), Fail>
    ensures { engine.new.store.disk.ghost_name ≡ engine.old.store.disk.ghost_name }
{
    for line in lines {
        look(alloc, map, engine, line.as_str())?;
    }
    Ok(())
}

// Checks the place at a key, which must be that of the state.
fn look_at_place(map: &Map, engine: &mut Engine<'_, MemoryStation>, key: &Key) -> Result<(), Fail>
    ensures { engine.new.store.disk.ghost_name ≡ engine.old.store.disk.ghost_name }
{
    let shown = engine.show(key)?;
    match (&shown, map.state.show(key)) {
        (None, None) => Ok(()),
        (Some(place), Some((point, words, label))) => {
            if place.point == point
                && place.words.pairs() == words.pairs()
                && place.label == label
            {
                Ok(())
            } else {
                Err("another place".into())
            }
        }
        _ => Err("a place more or less".into()),
    }
}

// Checks the places at the keys that the map was given, and whether one that was taken out is gone.
fn look_at_places(
    alloc: Global,
    map: &Map,
    engine: &mut Engine<'_, MemoryStation>,
) -> Result<(), Fail>
    ensures { engine.new.store.disk.ghost_name ≡ engine.old.store.disk.ghost_name }
{
    for number in 0..PLACES {
        let name = format!(in alloc; "p{number:04}")?;
        look_at_place(map, engine, &Key::of_text(name.as_str())?)?;
    }
    Ok(())
}

// Checks all queries and all places over an engine.
fn look_at_both(
    alloc: Global,
    map: &Map,
    engine: &mut Engine<'_, MemoryStation>,
    lines: &[String],
) -> Result<(), Fail>
    ensures { engine.new.store.disk.ghost_name ≡ engine.old.store.disk.ghost_name }
{
    look_at_all(alloc, map, engine, lines)?;
    look_at_places(alloc, map, engine)
}

// Checks all queries and all places over the store of a map.
fn look_over(
    alloc: Global,
    map: &Map,
    mut station: MemoryStation,
    lines: &[String],
) -> Result<(), Fail> {
    let policy = Box::new(alloc, Halving::new())?;
    let mut engine = Engine::open(alloc, &mut station, 4_096, policy)?;
    let outcome = look_at_both(alloc, map, &mut engine, lines);
    let _loan = engine.into_disk();
    outcome
}

#[test]
fn queries_read_only_nodes_that_they_call_for(rt: HostRuntime) -> Result<(), Fail> {
    let first = Box::new(rt.alloc(), Quadratic::new())?;
    let second = Box::new(rt.alloc(), Halving::new())?;
    let (map, station, lines) = made(rt.alloc(), Ground::Clusters, MANY, first, second)?;
    look_over(rt.alloc(), &map, station, &lines)
}

#[test]
fn so_they_do_on_a_line_at_a_point_and_between_two_ends(rt: HostRuntime) -> Result<(), Fail> {
    for ground in [Ground::Line, Ground::Point, Ground::Ends] {
        let first = Box::new(rt.alloc(), Halving::new())?;
        let second = Box::new(rt.alloc(), Quadratic::new())?;
        let (map, station, lines) = made(rt.alloc(), ground, SOME, first, second)?;
        look_over(rt.alloc(), &map, station, &lines)?;
    }
    Ok(())
}
