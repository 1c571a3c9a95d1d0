//! Compares what scripts reply to group and gather queries over small random maps with a scan of all choices.
ghost use Rattle.std.specs.Prelude.{IfOk};
ghost use Rattle.query_replies.specs.Reply.{HasReason};

use crate::dice::{Dice, SCALES};
use crate::making::{ROOM, run_well};
use disk_model::MemoryStation;
use place_map::State;
use query_lang::{Line, read_line};
use query_replies::{Reply, UpdateDone, reply_text};
use split_policy::Quadratic;
use std::alloc::{AllocError, Global};
use std::fmt::Write;
use std::test::Fail;

// How many maps are tried, the most places that a map has, the same for one map in ten, and how many of these queries each map gets.
const MAPS: u32 = 2_000;

const PLACES: u32 = 14;

const MORE_PLACES: u32 = 40;

const GROUPS: u32 = 5;

// Words, from the most common to the rarest.
static WORDS: [&str; 6] = [" a", " b", " c", " d", " e", " f"];

// The longitudes of places in two maps of which one is round the 180th meridian, and those that queries are asked from there.
static LONGITUDES: [[&str; 5]; 2] = [
    ["0", "1", "2", "3", "4"],
    ["179", "180", "-180", "-179", "-178"],
];

static ASKED: [[&str; 4]; 2] = [["0", "1.1", "2.2", "4"], ["179.2", "180", "-180", "-178.9"]];

// A place of a map: its point on a small grid, and its words as bits, bit n for the nth word.
#[derive(Clone, Copy)]
struct Spot {
    x: u32,
    y: u32,
    words: u32,
}

// Words, of which the nth is included with a chance of one in n + 2.
fn words_of(dice: &mut Dice) -> u32 {
    let mut words = 0;
    for n in 0..6 {
        if dice.below(n + 2) == 0 {
            words |= 1 << n;
        }
    }
    words
}

// The places of a map. The grid is so small that many of them are at one point.
fn spots(alloc: Global, dice: &mut Dice) -> Result<Vec<Spot>, AllocError> {
    let mut spots = Vec::new(alloc);
    let most = match dice.below(10) {
        0 => MORE_PLACES,
        _ => PLACES,
    };
    for _ in 0..dice.below(most).saturating_add(1) {
        let (x, y) = (dice.below(5), dice.below(4));
        let words = words_of(dice);
        spots.push(Spot { x, y, words })?;
    }
    Ok(spots)
}

// Whether some word is at only one place.
fn has_lone_word(spots: &[Spot]) -> bool {
    let (mut some, mut more) = (0, 0);
    for spot in spots {
        more |= some & spot.words;
        some |= spot.words;
    }
    some != more
}

// Whether two places at one point have the same word.
fn has_tie(spots: &[Spot]) -> bool {
    for (number, one) in spots.iter().enumerate() {
        for other in spots.iter().take(number) {
            if one.x == other.x && one.y == other.y && one.words & other.words != 0 {
                return true;
            }
        }
    }
    false
}

// Writes a line that puts a place on one of the two maps.
fn write_add(
    script: &mut String,
    dice: &mut Dice,
    side: usize,
    number: usize,
    spot: &Spot,
) -> Result<(), AllocError> {
    let (key, y) = (dice.below(90), spot.y);
    let x = LONGITUDES[side % 2][spot.x as usize % 5];
    write!(script, "add k{key}n{number} {x} {y}")?;
    let mut left = spot.words;
    for word in &WORDS {
        if left & 1 == 1 {
            script.push_str(*word)?;
        }
        left >>= 1;
    }
    script.push_str("\n")
}

// Writes a group or gather query for one to four words, from a point on the grid or between its points.
fn write_group(
    script: &mut String,
    dice: &mut Dice,
    side: usize,
    scale: &str,
) -> Result<(), AllocError> {
    let x = ASKED[side % 2][dice.below(4) as usize];
    let y = dice.below(4);
    let command = ["group", "gather"][dice.below(2) as usize];
    write!(script, "{command} {x} {y}{scale} words")?;
    let (first, count) = (dice.below(6), dice.below(4).saturating_add(1));
    for n in 0..count {
        script.push_str(WORDS[(first.saturating_add(n) % 6) as usize])?;
    }
    script.push_str("\n")
}

// A script over the map of this number, of which every other one is round the 180th meridian.
fn script_over(
    alloc: Global,
    dice: &mut Dice,
    map: u32,
    spots: &[Spot],
) -> Result<String, AllocError> {
    let mut script = String::new(alloc);
    let side = (map % 2) as usize;
    for (number, spot) in spots.iter().enumerate() {
        write_add(&mut script, dice, side, number, spot)?;
    }
    for turn in 0..GROUPS {
        let scale = SCALES[(map.wrapping_add(turn) % 6) as usize];
        write_group(&mut script, dice, side, scale)?;
    }
    Ok(script)
}

// The reply to a line by a scan of the state.
fn scanned(alloc: Global, state: &mut State, line: &[u8]) -> Result<Reply, Fail>
    ensures { IfOk result HasReason }
{
    match read_line(alloc, line)? {
        Line::Do(update) => {
            state.apply(update)?;
            Ok(Reply::Applied(UpdateDone::Ok))
        }
        Line::Ask { query, explain } => Ok(Reply::Found {
            answer: state.answer(&query)?,
            query,
            explain,
        }),
        _ => Err("another line".into()),
    }
}

// What a script replies by the scan.
fn replies_to(alloc: Global, script: &str) -> Result<Vec<u8>, Fail> {
    let mut state = State::new(alloc);
    let mut replies = Vec::new(alloc);
    for line in script.lines() {
        let reply = scanned(alloc, &mut state, line.as_bytes())?;
        reply_text(alloc, &reply, &mut replies)?;
    }
    Ok(replies)
}

// Whether a script over an empty store replies this.
fn is_told(alloc: Global, script: &str, wanted: &[u8]) -> Result<bool, Fail> {
    let mut station = MemoryStation::new(alloc, ROOM);
    let policy = Box::new(alloc, Quadratic::new())?;
    run_well(alloc, "run", script, &mut station, policy)?;
    Ok(station.said() == wanted)
}

#[test]
fn groups_are_those_of_the_scan(rt: HostRuntime) -> Result<(), Fail> {
    let mut dice = Dice { seed: 7 };
    let (mut lone, mut tied) = (0_u32, 0_u32);
    for map in 0..MAPS {
        let spots = spots(rt.alloc(), &mut dice)?;
        lone = lone.saturating_add(u32::from(has_lone_word(&spots)));
        tied = tied.saturating_add(u32::from(has_tie(&spots)));
        let script = script_over(rt.alloc(), &mut dice, map, &spots)?;
        let wanted = replies_to(rt.alloc(), script.as_str())?;
        assert!(rt; is_told(rt.alloc(), script.as_str(), &wanted)?, "{script}");
    }
    // More than a quarter of the maps are of each kind.
    assert!(rt; lone > MAPS / 4 && tied > MAPS / 4);
    Ok(())
}
