//! Maps of places on a ground, each in three forms.
use crate::dice::{Dice, Ground, query_line, write_filling, write_point, write_words};
use crate::making::{ROOM, all_pages, run_well};
use crate::tree_nodes::{Tree, tree_in};
use disk_model::{MemoryStation, Tear};
use place_map::State;
use query_lang::{Line, read_line};
use split_policy::SplitPolicy;
use std::alloc::{AllocError, Global};
use std::fmt::Write;
use std::test::Fail;

/// How many places a map has at first.
pub(crate) const PLACES: u32 = 3_000;

/// The same places as a state, as the pages of a store, and as the nodes of its tree.
#[derive(Drop)]
pub(crate) struct Map {
    /// The state that scans use.
    pub(crate) state: State,
    /// The bytes of all pages of the store.
    pub(crate) pages: Vec<u8>,
    /// The nodes in those pages.
    pub(crate) tree: Tree,
}

// Writes a place as the feature that a load reads.
fn write_feature(
    text: &mut String,
    number: u32,
    point: (u32, u32),
    words: &str,
) -> Result<(), AllocError> {
    text.push_str("{\"type\":\"Feature\",\"id\":\"")?;
    write!(text, "p{number:04}")?;
    text.push_str("\",\"geometry\":{\"type\":\"Point\",\"coordinates\":[")?;
    write_point(text, point, ",")?;
    text.push_str("]},\"properties\":{\"t\":\"")?;
    text.push_str(words.strip_prefix(" ").unwrap_or(words))?;
    text.push_str("\"}}")
}

// Writes a place as the line that adds it.
fn write_add(
    script: &mut String,
    number: u32,
    point: (u32, u32),
    words: &str,
) -> Result<(), AllocError> {
    write!(script, "add p{number:04}")?;
    write_point(script, point, "")?;
    script.push_str(words)?;
    script.push_str("\n")
}

// Writes the places of a ground in two forms: as a text that a load reads, and as a script.
fn write_places(
    alloc: Global,
    dice: &mut Dice,
    ground: Ground,
    text: &mut String,
    script: &mut String,
) -> Result<(), AllocError> {
    text.push_str("{\"type\":\"FeatureCollection\",\"features\":[")?;
    for number in 0..PLACES {
        let point = dice.point_on(ground);
        let mut words = String::new(alloc);
        write_words(&mut words, dice)?;
        words.push_str(" ")?;
        write_filling(&mut words, number)?;
        text.push_str(if number == 0 { "" } else { "," })?;
        write_feature(text, number, point, words.as_str())?;
        write_add(script, number, point, words.as_str())?;
    }
    text.push_str("]}")
}

// A script that removes each tenth place and moves the one after it.
fn changes(alloc: Global, dice: &mut Dice, ground: Ground) -> Result<String, AllocError> {
    let mut script = String::new(alloc);
    for tenth in 0..PLACES / 10 {
        let number = 10 * tenth;
        write!(script, "remove p{number:04}\n")?;
        let point = dice.point_on(ground);
        let mut words = String::new(alloc);
        write_words(&mut words, dice)?;
        words.push_str(" ")?;
        write_filling(&mut words, number / 10)?;
        write_add(&mut script, number + 1, point, words.as_str())?;
    }
    Ok(script)
}

// The state that a script makes.
fn state_of(alloc: Global, script: &str) -> Result<State, Fail> {
    let mut state = State::new(alloc);
    for line in script.lines() {
        let Ok(Line::Do(update)) = read_line(alloc, line.as_bytes()) else {
            return Err("no update".into());
        };
        state.apply(update)?;
    }
    Ok(state)
}

// A store with the places of a text, loaded under one policy and changed by a script under another.
fn stored(
    alloc: Global,
    text: &str,
    script: &str,
    first: Box<dyn SplitPolicy>,
    second: Box<dyn SplitPolicy>,
) -> Result<MemoryStation, Fail> {
    let mut station = MemoryStation::new(alloc, ROOM);
    run_well(alloc, "load", text, &mut station, first)?;
    run_well(alloc, "run", script, &mut station, second)?;
    Ok(station.crashed(Tear::Kept)?)
}

// The state that a script makes, together with its store, as a map.
fn map_of(alloc: Global, script: &str, station: &mut MemoryStation) -> Result<Map, Fail> {
    let state = state_of(alloc, script)?;
    let pages = all_pages(alloc, station)?;
    let tree = tree_in(alloc, &pages, &state)?;
    Ok(Map { state, pages, tree })
}

// The queries of a ground, as lines.
fn queries(
    alloc: Global,
    dice: &mut Dice,
    ground: Ground,
    count: u32,
) -> Result<Vec<String>, AllocError> {
    let mut lines = Vec::new(alloc);
    for turn in 0..count {
        lines.push(query_line(alloc, dice, turn, ground)?)?;
    }
    Ok(lines)
}

/// Returns the places of a ground, loaded under one policy and changed under another, as a map, with their store and this many queries.
pub(crate) fn made(
    alloc: Global,
    ground: Ground,
    count: u32,
    first: Box<dyn SplitPolicy>,
    second: Box<dyn SplitPolicy>,
) -> Result<(Map, MemoryStation, Vec<String>), Fail> {
    let mut dice = Dice { seed: 11 };
    let (mut text, mut script) = (String::new(alloc), String::new(alloc));
    write_places(alloc, &mut dice, ground, &mut text, &mut script)?;
    let changes = changes(alloc, &mut dice, ground)?;
    script.push_str(changes.as_str())?;
    let lines = queries(alloc, &mut dice, ground, count)?;
    let mut station = stored(alloc, text.as_str(), changes.as_str(), first, second)?;
    let map = map_of(alloc, script.as_str(), &mut station)?;
    Ok((map, station, lines))
}
