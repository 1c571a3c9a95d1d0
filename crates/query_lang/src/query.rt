//! Reads a query after its command.
ghost use Rattle.std.specs.Prelude.{◌≡◌, ◌≤◌, ◌≤ℤ◌, Ok, IfOk, IfErr, option_map, pos, neg_ℤ};
ghost use Rattle.place_values.specs.Query.{IsTerms, IsWeights, IsWithinLimits};
ghost use Rattle.query_lang.specs.Line as spec;
ghost use Rattle.query_lang.specs.Line.{range_query, box_query, nearest_query, top_query, group_query, gather_query, query_by};
ghost use Rattle.query_lang.specs.Plain.{plain_query};
ghost use Rattle.query_lang.specs.Reader.{Answers, part};

use crate::command::Asked;
use crate::expression::{behind_word, filter};
use crate::kind::is_word;
use crate::part::{degrees_part, next, whole_part};
use crate::word::{terms, words};
use place_values::{ALPHA_MAX, COUNT_MAX, Query, RADIUS_MAX, REACH_MAX, Terms, Weights};
use query_replies::LineFault;
use spatial_base::{LATITUDE_MAX, LONGITUDE_MAX, Point, Rect, SCALE_MAX};
use std::alloc::Global;
use term_impacts::Word;

// The greatest longitude, signed as the numbers that are read.
const EAST: i64 = LONGITUDE_MAX as i64;

// The greatest latitude, signed.
const NORTH: i64 = LATITUDE_MAX as i64;

// The point at a longitude and a latitude.
fn point_at(x: i64, y: i64) -> Result<Point, LineFault>
    requires west { neg_ℤ (pos 1800000000) ≤ℤ x }
    requires east { x ≤ℤ pos 1800000000 }
    requires south { neg_ℤ (pos 900000000) ≤ℤ y }
    requires north { y ≤ℤ pos 900000000 }
    ensures { result ≡ Ok record { x = x; y = y } }
{
    Point::new(x as i32, y as i32).ok_or(LineFault::Range)
}

/// Returns the point of LON LAT, and the text after them.
#[tactic(auto, unfolding(crate::specs::Line::point_part))]
pub(crate) fn point_part(alloc: Global, text: &str) -> Result<(Point, &str), LineFault>
    ensures { Answers (λ got. (got.0, got.1.now)) result (spec.point_part text.now) }
{
    let (x, text) = degrees_part(alloc, -EAST, EAST, text)?;
    let (y, text) = degrees_part(alloc, -NORTH, NORTH, text)?;
    let point = point_at(x, y)?;
    Ok((point, text))
}

// An optional `scale` and SCALE, and the text after them. Without them the scale is 1000. A quoted "scale" is left, as any other token.
fn scale_part(alloc: Global, text: &str) -> Result<(u16, &str), LineFault>
    ensures says { Answers (λ got. (got.0, got.1.now)) result (spec.scale_part text.now) }
    ensures within { IfOk result (λ got. got.0 ≤ 1000) }
{
    match behind_word(alloc, "scale", text)? {
        Some(rest) => whole_part(alloc, 0, SCALE_MAX, rest),
        None => Ok((SCALE_MAX, text)),
    }
}

// LON LAT R, an optional scale, and an optional filter.
#[tactic(auto, unfolding(crate::specs::Line::range_query))]
fn range(alloc: Global, text: &str) -> Result<Query, LineFault>
    ensures says { Answers plain_query result (range_query text.now) }
    ensures sound { IfOk result IsWithinLimits }
{
    let (at, text) = match point_part(alloc, text) {
        Ok(read) => read,
        Err(fault) => return Err(fault),
    };
    let (radius, text) = degrees_part(alloc, 0, RADIUS_MAX as i64, text)?;
    let (scale, text) = scale_part(alloc, text)?;
    let filter = filter(alloc, text)?;
    Ok(Query::Range {
        at,
        scale,
        radius: radius.unsigned_abs(),
        filter,
    })
}

// The rectangle between two opposite corners.
fn rect_between(corner: &Point, other: &Point) -> Result<Rect, LineFault>
    requires across { corner.now.x ≤ℤ other.now.x }
    requires up { corner.now.y ≤ℤ other.now.y }
    ensures { result
        ≡ Ok record { west = corner.now.x; south = corner.now.y; east = other.now.x; north = other.now.y } }
{
    Rect::new(corner.x(), corner.y(), other.x(), other.y()).ok_or(LineFault::Range)
}

// The rectangle between these longitudes and latitudes.
fn rect_at(west: i64, south: i64, east: i64, north: i64) -> Result<Rect, LineFault>
    requires west { neg_ℤ (pos 1800000000) ≤ℤ west }
    requires south { neg_ℤ (pos 900000000) ≤ℤ south }
    requires across { west ≤ℤ east }
    requires up { south ≤ℤ north }
    requires east { east ≤ℤ pos 1800000000 }
    requires north { north ≤ℤ pos 900000000 }
    ensures { result ≡ Ok record { west = west; south = south; east = east; north = north } }
{
    let corner = point_at(west, south)?;
    let other = point_at(east, north)?;
    rect_between(&corner, &other)
}

// The rectangle of W S E N, and the text after them.
#[tactic(auto, unfolding(crate::specs::Line::rect_part))]
fn rect_part(alloc: Global, text: &str) -> Result<(Rect, &str), LineFault>
    ensures { Answers (λ got. (got.0, got.1.now)) result (spec.rect_part text.now) }
{
    let (west, text) = degrees_part(alloc, -EAST, EAST, text)?;
    let (south, text) = degrees_part(alloc, -NORTH, NORTH, text)?;
    let (east, text) = degrees_part(alloc, west, EAST, text)?;
    let (north, text) = degrees_part(alloc, south, NORTH, text)?;
    let rect = rect_at(west, south, east, north)?;
    Ok((rect, text))
}

// W S E N, and an optional filter.
#[tactic(auto, unfolding(crate::specs::Line::box_query))]
fn inside(alloc: Global, text: &str) -> Result<Query, LineFault>
    ensures says { Answers plain_query result (box_query text.now) }
    ensures sound { IfOk result IsWithinLimits }
{
    let (rect, text) = match rect_part(alloc, text) {
        Ok(read) => read,
        Err(fault) => return Err(fault),
    };
    let filter = filter(alloc, text)?;
    Ok(Query::Inside { rect, filter })
}

// LON LAT K, an optional scale, and an optional filter.
#[tactic(auto, unfolding(crate::specs::Line::nearest_query))]
fn nearest(alloc: Global, text: &str) -> Result<Query, LineFault>
    ensures says { Answers plain_query result (nearest_query text.now) }
    ensures sound { IfOk result IsWithinLimits }
{
    let (at, text) = match point_part(alloc, text) {
        Ok(read) => read,
        Err(fault) => return Err(fault),
    };
    let (k, text) = whole_part(alloc, 1, COUNT_MAX, text)?;
    let (scale, text) = scale_part(alloc, text)?;
    let filter = filter(alloc, text)?;
    Ok(Query::Nearest {
        at,
        scale,
        k,
        filter,
    })
}

// The text after `words`.
fn behind_words(alloc: Global, text: &str) -> Result<&str, LineFault>
    ensures { Answers (λ rest. (tt {0}, rest.now)) result (part spec.words_sign text.now) }
{
    let (token, text) = next(alloc, text)?;
    if is_word(&token, "words") {
        Ok(text)
    } else {
        Err(LineFault::Extra)
    }
}

// `words`, and the words without weights.
#[tactic(auto, unfolding(crate::specs::Line::listed_words))]
fn listed_words(alloc: Global, text: &str) -> Result<Vec<Word>, LineFault>
    ensures says { Answers (λ words. words.items) result (spec.listed_words text.now) }
    ensures sound { IfOk result (λ words. IsTerms words.items) }
{
    let text = behind_words(alloc, text)?;
    words(alloc, text)
}

// `words`, and the words with their weights.
#[tactic(auto, unfolding(crate::specs::Line::listed_terms))]
fn listed_terms(alloc: Global, text: &str) -> Result<Vec<(Word, u8)>, LineFault>
    ensures says { Answers (λ terms. terms.items) result (spec.listed_terms text.now) }
    ensures sound { IfOk result (λ terms. IsWeights terms.items) }
{
    let text = behind_words(alloc, text)?;
    terms(alloc, text)
}

// The text after `idf`, if that is the next token and the query is not explained.
fn behind_idf(alloc: Global, explain: bool, text: &str) -> Result<Option<&str>, LineFault>
    ensures says { IfOk result (λ rest. option_map (λ r. r.now) rest ≡ spec.behind_idf explain text.now) }
    ensures memory { IfErr result (λ fault. fault ≡ LineFault.Memory) }
{
    if explain {
        Ok(None)
    } else {
        behind_word(alloc, "idf", text)
    }
}

// LON LAT K ALPHA REACH, an optional scale, `words`, and the words with their weights. With `idf` before `words` the words have none.
// A query whose answer is explained has no `idf`, since only the query's own weights could be shown.
#[tactic(auto, unfolding(crate::specs::Line::top_query))]
fn top(alloc: Global, explain: bool, text: &str) -> Result<Query, LineFault>
    ensures says { Answers plain_query result (top_query explain text.now) }
    ensures sound { IfOk result IsWithinLimits }
{
    let (at, text) = match point_part(alloc, text) {
        Ok(read) => read,
        Err(fault) => return Err(fault),
    };
    let (k, text) = whole_part(alloc, 1, COUNT_MAX, text)?;
    let (alpha, text) = whole_part(alloc, 0, ALPHA_MAX, text)?;
    let (reach, text) = degrees_part(alloc, 1, REACH_MAX as i64, text)?;
    let (scale, text) = scale_part(alloc, text)?;
    let reach = reach.unsigned_abs();
    if let Some(text) = behind_idf(alloc, explain, text)? {
        let words = Terms::from_vec(listed_words(alloc, text)?);
        return Ok(Query::Rare {
            at,
            scale,
            k,
            alpha,
            reach,
            words,
        });
    }
    let words = Weights::from_vec(listed_terms(alloc, text)?);
    Ok(Query::Top {
        at,
        scale,
        k,
        alpha,
        reach,
        words,
    })
}

// LON LAT, an optional scale, `words`, and the words, for a group query.
#[tactic(auto, unfolding(crate::specs::Line::group_query))]
fn group(alloc: Global, text: &str) -> Result<Query, LineFault>
    ensures says { Answers plain_query result (group_query text.now) }
    ensures sound { IfOk result IsWithinLimits }
{
    let (at, text) = match point_part(alloc, text) {
        Ok(read) => read,
        Err(fault) => return Err(fault),
    };
    let (scale, text) = scale_part(alloc, text)?;
    let words = listed_words(alloc, text)?;
    Ok(Query::Group {
        at,
        scale,
        words: Terms::from_vec(words),
    })
}

// LON LAT, an optional scale, `words`, and the words, for a gather query.
#[tactic(auto, unfolding(crate::specs::Line::gather_query))]
fn gather(alloc: Global, text: &str) -> Result<Query, LineFault>
    ensures says { Answers plain_query result (gather_query text.now) }
    ensures sound { IfOk result IsWithinLimits }
{
    let (at, text) = match point_part(alloc, text) {
        Ok(read) => read,
        Err(fault) => return Err(fault),
    };
    let (scale, text) = scale_part(alloc, text)?;
    let words = listed_words(alloc, text)?;
    Ok(Query::Gather {
        at,
        scale,
        words: Terms::from_vec(words),
    })
}

/// Returns the query after its command. `explain` says whether its answer is explained.
pub(crate) fn query(
    alloc: Global,
    explain: bool,
    asked: Asked,
    text: &str,
) -> Result<Query, LineFault>
    ensures says { Answers plain_query result (query_by explain asked text.now) }
    ensures sound { IfOk result IsWithinLimits }
{
    match asked {
        Asked::Range => range(alloc, text),
        Asked::Box => inside(alloc, text),
        Asked::Nearest => nearest(alloc, text),
        Asked::Top => top(alloc, explain, text),
        Asked::Group => group(alloc, text),
        Asked::Gather => gather(alloc, text),
    }
}
