//! Which nodes a query needs, judged by what bounds the places below each.
use crate::tree_nodes::{Node, Round};
use place_values::{Expr, Hit, Query};
use spatial_base::{Origin, Point, Rect};
use term_impacts::Word;

// Whether places with these bounds could pass a filter. A word that one of them has may be absent from another.
fn may_meet(round: &Round, filter: &Expr) -> bool {
    match filter {
        Expr::Has(word) => round.impact(word) > 0,
        Expr::Not(_) => true,
        Expr::And(one, other) => may_meet(round, one) && may_meet(round, other),
        Expr::Or(one, other) => may_meet(round, one) || may_meet(round, other),
    }
}

fn may_pass(round: &Round, filter: &Option<Expr>) -> bool {
    match filter {
        Some(filter) => may_meet(round, filter),
        None => true,
    }
}

// The distance to the point at a longitude and a latitude.
fn distance(from: &Origin, x: i32, y: i32) -> u64 {
    match Point::new(x, y) {
        Some(point) => from.dist(&point),
        None => u64::MAX,
    }
}

// The distance to the nearest point of a rectangle. Of the longitudes beside it the nearer edge counts, by either way round.
fn least_distance(rect: &Rect, at: &Point, scale: u16) -> u64 {
    let Some(from) = Origin::new(*at, scale) else {
        return u64::MAX;
    };
    let (x, y) = (at.x(), at.y().max(rect.south()).min(rect.north()));
    if rect.west() <= x && x <= rect.east() {
        return distance(&from, x, y);
    }
    distance(&from, rect.west(), y).min(distance(&from, rect.east(), y))
}

// Whether two rectangles have a point in common.
fn meet(one: &Rect, other: &Rect) -> bool {
    one.west() <= other.east()
        && other.west() <= one.east()
        && one.south() <= other.north()
        && other.south() <= one.north()
}

// The least cost, by a top query's numbers, of a place at this distance that has each of its words with the greatest impact. `None` if
// no place has one of them.
fn least_cost(
    round: &Round,
    words: &[(Word, u8)],
    alpha: u16,
    reach: u64,
    far: u64,
) -> Option<u64> {
    let (mut all, mut text) = (0_u64, 0_u64);
    for (word, weight) in words {
        let weight = u64::from(*weight);
        all = all.saturating_add(weight.saturating_mul(255));
        text = text.saturating_add(weight.saturating_mul(u64::from(round.impact(word))));
    }
    if text == 0 {
        return None;
    }
    let alpha = u64::from(alpha);
    let by_distance = alpha.saturating_mul(far).saturating_mul(all);
    let by_words = 1_000_u64
        .saturating_sub(alpha)
        .saturating_mul(reach)
        .saturating_mul(all.saturating_sub(text));
    Some(by_distance.saturating_add(by_words))
}

// Whether the last of the hits costs at least this much.
fn is_up_to_last(cost: u64, hits: &[Hit]) -> bool {
    match hits.last() {
        Some(hit) => cost <= hit.cost,
        None => false,
    }
}

// Whether at least one of the places has one of the words.
fn has_some(round: &Round, words: &[Word]) -> bool {
    for word in words {
        if round.impact(word) > 0 {
            return true;
        }
    }
    false
}

// Whether a query with these hits needs a node that is not the root.
fn calls_for(query: &Query, hits: &[Hit], round: &Round) -> bool {
    match query {
        Query::Range {
            at,
            scale,
            radius,
            filter,
        } => may_pass(round, filter) && least_distance(&round.rect, at, *scale) <= *radius,
        Query::Inside { rect, filter } => may_pass(round, filter) && meet(&round.rect, rect),
        Query::Nearest {
            at,
            scale,
            k,
            filter,
        } => {
            let few = filter.is_some() && hits.len() < usize::from(*k);
            let far = least_distance(&round.rect, at, *scale);
            may_pass(round, filter) && (few || is_up_to_last(far, hits))
        }
        Query::Top {
            at,
            scale,
            alpha,
            reach,
            words,
            ..
        } => {
            let far = least_distance(&round.rect, at, *scale);
            match least_cost(round, words.as_slice(), *alpha, *reach, far) {
                Some(cost) => is_up_to_last(cost, hits),
                None => false,
            }
        }
        // It is judged as the top query that it is asked as.
        Query::Rare { .. } => false,
        Query::Group { words, .. } | Query::Gather { words, .. } => {
            has_some(round, words.as_slice())
        }
    }
}

/// Whether a node of a log is one that the query needs, and its parent is in the log. Range, box, group and gather queries
/// open the root whatever is below it.
pub(crate) fn is_due(query: &Query, hits: &[Hit], log: &[u32], node: &Node) -> bool {
    if node.parent == 0 {
        match query {
            Query::Nearest { .. } | Query::Top { .. } => {}
            _ => return true,
        }
    }
    let is_called = match &node.round {
        Some(round) => calls_for(query, hits, round),
        None => false,
    };
    is_called && (node.parent == 0 || log.contains(&node.parent))
}
