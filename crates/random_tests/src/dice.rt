//! Numbers from a seed, and the points, words and queries that are made from them.
ghost use Rattle.std.specs.Prelude.{◌<◌};

use std::alloc::{AllocError, Global};
use std::fmt::Write;

static RADII: [&str; 5] = [" 0", " 0.5", " 2", " 20", " 500"];

static COUNTS: [&str; 8] = [" 1", " 1", " 2", " 7", " 7", " 40", " 40", " 1000"];

static SHARES: [&str; 4] = [" 0", " 300", " 500", " 1000"];

static REACHES: [&str; 4] = [" 0.0000001", " 1", " 50", " 402.4922359"];

// Characters that are no words, of two, three and four bytes.
static FILLINGS: [&str; 3] = ["°", "€", "𝄞"];

/// The scales of queries, in turn.
pub(crate) static SCALES: [&str; 6] = [
    " scale 0",
    " scale 1",
    " scale 500",
    " scale 564",
    " scale 999",
    " scale 1000",
];

// Filters: the text before each of their words, and the text after the last.
static FILTERS: [(&[&str], &str); 6] = [
    (&[" where "], ""),
    (&[" where not "], ""),
    (&[" where ", " and "], ""),
    (&[" where ", " or "], ""),
    (&[" where ", " and not (", " or "], ")"),
    (&[" where not (", " and ", ") or "], ""),
];

/// Where places are: in clusters, on borders and anywhere; on a line from border to border; at one point; or in two clusters at
/// opposite corners.
#[derive(Clone, Copy)]
pub(crate) enum Ground {
    Clusters,
    Line,
    Point,
    Ends,
}

/// Numbers that follow from a seed by a linear congruential generator.
#[derive(Drop)]
pub(crate) struct Dice {
    pub(crate) seed: u64,
}

impl Dice {
    /// Returns the next number, below `most`.
    pub(crate) fn below(&mut self, most: u32) -> u32
        requires { 0 < most }
        ensures { result < most }
    {
        let seed = self.seed.wrapping_mul(6_364_136_223_846_793_005);
        self.seed = seed.wrapping_add(1_442_695_040_888_963_407);
        ((self.seed >> 33) as u32) % most
    }

    // A word's number below 40. Lesser numbers come more often.
    fn word(&mut self) -> u32
        ensures { result < 40 }
    {
        let first = self.below(40);
        first.min(self.below(40))
    }

    // A number at most a thousand from 0 or from `most`.
    fn end(&mut self, most: u32) -> u32 {
        let far = self.below(1_001);
        if self.below(2) == 0 {
            far
        } else {
            most.saturating_sub(far)
        }
    }

    // A point in thousandths of a degree from the map's south-west corner. Half of them are at most a degree from the 180th meridian or
    // from a pole: a corner, a point on a border, and points near one border or two. The others are one fixed point, any point, or in one
    // of twelve clusters.
    pub(crate) fn point(&mut self) -> (u32, u32) {
        match self.below(20) {
            0 => (360_000 * self.below(2), 180_000 * self.below(2)),
            1 => (360_000 * self.below(2), self.below(180_001)),
            2..=5 => (self.end(360_000), self.below(180_001)),
            6 | 7 => (self.below(360_001), self.end(180_000)),
            8 | 9 => (self.end(360_000), self.end(180_000)),
            10 | 11 => (185_000, 95_000),
            12 | 13 => (self.below(360_001), self.below(180_001)),
            _ => {
                let cluster = self.below(12);
                let (x, y) = (27_000 * cluster, 13_000 * (cluster * 7 % 12));
                (
                    20_000 + x + self.below(2_000),
                    10_000 + y + self.below(2_000),
                )
            }
        }
    }

    // A point on this ground, in the same units.
    pub(crate) fn point_on(&mut self, ground: Ground) -> (u32, u32) {
        match ground {
            Ground::Clusters => self.point(),
            Ground::Line => (self.below(360_001), 95_000),
            Ground::Point => (185_000, 95_000),
            Ground::Ends => {
                let (x, y) = (self.below(1_000), self.below(1_000));
                if self.below(2) == 0 {
                    (x, y)
                } else {
                    (360_000 - x, 180_000 - y)
                }
            }
        }
    }

    // A point for a query: one on the ground, or anywhere.
    fn asked(&mut self, ground: Ground) -> (u32, u32) {
        if self.below(2) == 0 {
            self.point_on(ground)
        } else {
            self.point()
        }
    }
}

// Writes degrees, given as thousandths counted from `below` degrees under 0.
fn write_degrees(line: &mut String, number: u32, below: u32) -> Result<(), AllocError> {
    let sign = if number < below { "-" } else { "" };
    let size = number.abs_diff(below);
    write!(line, " {sign}{}.{:03}", size / 1_000, size % 1_000)
}

/// Writes the degrees of a point, with a separator between them.
pub(crate) fn write_point(
    line: &mut String,
    point: (u32, u32),
    between: &str,
) -> Result<(), AllocError> {
    write_degrees(line, point.0, 180_000)?;
    line.push_str(between)?;
    write_degrees(line, point.1, 90_000)
}

// Writes `before` and the word with this number.
fn write_word(line: &mut String, before: &str, number: u32) -> Result<(), AllocError> {
    write!(line, "{before}w{number:02}")
}

/// Writes up to five words, each after a blank.
pub(crate) fn write_words(line: &mut String, dice: &mut Dice) -> Result<(), AllocError> {
    for _ in 0..dice.below(6) {
        write_word(line, " ", dice.word())?;
    }
    Ok(())
}

/// Writes a text that is no word and fills a label: characters of two, three or four bytes, which of them and how many goes by a
/// number. Of five numbers one gives none.
pub(crate) fn write_filling(line: &mut String, number: u32) -> Result<(), AllocError> {
    for _ in 0..number % 5 * 8 {
        line.push_str(FILLINGS[(number % 3) as usize])?;
    }
    Ok(())
}

// Writes a filter, or none.
fn write_filter(line: &mut String, dice: &mut Dice) -> Result<(), AllocError> {
    let Some((befores, behind)) = FILTERS.get(dice.below(8) as usize) else {
        return Ok(());
    };
    for before in *befores {
        write_word(line, before, dice.word())?;
    }
    line.push_str(behind)
}

// Writes two words for a query, with `between` after the first.
fn write_pair(line: &mut String, one: u32, between: &str, other: u32) -> Result<(), AllocError> {
    write_word(line, " words ", one)?;
    line.push_str(between)?;
    write_word(line, " ", other)
}

// Writes a box that has these two points at opposite corners.
fn write_box(line: &mut String, first: (u32, u32), second: (u32, u32)) -> Result<(), AllocError> {
    write_point(line, (first.0.min(second.0), first.1.min(second.1)), "")?;
    write_point(line, (first.0.max(second.0), first.1.max(second.1)), "")
}

// Writes what a top query has after its point, with its scale. Its words are an even and an odd one, and a store may have neither. Of three
// queries one has weights by rarity.
fn write_ranking(line: &mut String, dice: &mut Dice, scale: &str) -> Result<(), AllocError> {
    line.push_str(COUNTS[dice.below(8) as usize])?;
    line.push_str(SHARES[dice.below(4) as usize])?;
    line.push_str(REACHES[dice.below(4) as usize])?;
    line.push_str(scale)?;
    let (weight, by_rarity) = if dice.below(3) == 0 {
        ("", " idf")
    } else {
        ("*3", "")
    };
    line.push_str(by_rarity)?;
    write_pair(line, 2 * dice.below(22), weight, 2 * dice.below(22) + 1)
}

// Writes a query of each kind in turn, with a scale. Group and gather queries are rare, since the scan tries many choices. One box in four has all
// longitudes.
fn write_query(
    line: &mut String,
    dice: &mut Dice,
    turn: u32,
    at: (u32, u32),
    corner: (u32, u32),
    scale: &str,
) -> Result<(), AllocError> {
    match turn % 17 {
        0 => {
            line.push_str(["group", "gather"][dice.below(2) as usize])?;
            write_point(line, at, "")?;
            line.push_str(scale)?;
            write_pair(line, 2 * dice.below(20), "", 2 * dice.below(20) + 1)
        }
        1..=4 => {
            line.push_str("range")?;
            write_point(line, at, "")?;
            line.push_str(RADII[dice.below(5) as usize])?;
            line.push_str(scale)?;
            write_filter(line, dice)
        }
        5 => {
            line.push_str("box")?;
            write_box(line, (0, at.1), (360_000, corner.1))?;
            write_filter(line, dice)
        }
        6..=8 => {
            line.push_str("box")?;
            write_box(line, at, corner)?;
            write_filter(line, dice)
        }
        9..=12 => {
            line.push_str("nearest")?;
            write_point(line, at, "")?;
            line.push_str(COUNTS[dice.below(8) as usize])?;
            line.push_str(scale)?;
            write_filter(line, dice)
        }
        _ => {
            line.push_str("top")?;
            write_point(line, at, "")?;
            write_ranking(line, dice, scale)
        }
    }
}

/// Returns the query of a turn.
pub(crate) fn query_line(
    alloc: Global,
    dice: &mut Dice,
    turn: u32,
    ground: Ground,
) -> Result<String, AllocError> {
    let mut line = String::new(alloc);
    let (at, corner) = (dice.asked(ground), dice.asked(ground));
    let scale = SCALES[(turn % 6) as usize];
    write_query(&mut line, dice, turn, at, corner, scale)?;
    Ok(line)
}
