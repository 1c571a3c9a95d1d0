// Finds the hits of a query by a scan of all places.
ghost use Rattle.std.specs.Prelude.{◌≡◌, IfOk};
ghost use Rattle.std.specs.List.{flat_map};
ghost use Rattle.place_values.specs.First.{ranked, first};
ghost use Rattle.place_values.specs.Hit.{comes_before, listed};
ghost use Rattle.place_values.specs.Query.{IsWithinLimits, IsBlend, IsWeights};
ghost use Rattle.place_values.specs.Answer.{near_hit, near_hits, range_hits, box_hits, top_hits, hits_of};

use place_values::{Expr, Hit, Place, Query, cost_of, keep, relevance_of, sum_of_weights};
use spatial_base::{Key, Origin, Rect};
use std::alloc::{AllocError, Global};
use std::collections::BTreeMap;
use term_impacts::Word;

// The hit of a place whose cost is its distance.
#[inline(always)]
fn hit_at(at: &Origin, key: &Key, place: &Place) -> Hit
    ensures { result ≡ near_hit at.now (key.now, place.now) }
{
    let dist = at.dist(&place.point);
    Hit {
        cost: dist,
        key: *key,
        dist,
        text: 0,
        point: place.point,
    }
}

// The hit of a place in a nearest query, if the place passes its filter.
#[inline(always)]
fn hit_near(at: &Origin, filter: &Option<Expr>, key: &Key, place: &Place) -> Option<Hit>
    ensures { listed result ≡ near_hits at.now filter.now (key.now, place.now) }
{
    if place.passes(filter) {
        Some(hit_at(at, key, place))
    } else {
        None
    }
}

// The same if the place is also within `radius` of the point.
#[inline(always)]
fn hit_in_range(
    at: &Origin,
    radius: u64,
    filter: &Option<Expr>,
    key: &Key,
    place: &Place,
) -> Option<Hit>
    ensures { listed result ≡ range_hits at.now radius filter.now (key.now, place.now) }
{
    if at.dist(&place.point) <= radius && place.passes(filter) {
        Some(hit_at(at, key, place))
    } else {
        None
    }
}

// The hit of a place that is in a rectangle and passes a filter.
#[inline(always)]
fn hit_in_box(rect: &Rect, filter: &Option<Expr>, key: &Key, place: &Place) -> Option<Hit>
    ensures { listed result ≡ box_hits rect.now filter.now (key.now, place.now) }
{
    if rect.holds(&place.point) && place.passes(filter) {
        Some(Hit {
            cost: 0,
            key: *key,
            dist: 0,
            text: 0,
            point: place.point,
        })
    } else {
        None
    }
}

// The hit of a place that has at least one of a top query's words.
#[inline(always)]
fn hit_of_top(
    at: &Origin,
    alpha: u16,
    reach: u64,
    words: &[(Word, u8)],
    key: &Key,
    place: &Place,
) -> Option<Hit>
    requires blend { IsBlend alpha reach }
    requires words { IsWeights words.now }
    ensures { listed result ≡ top_hits at.now alpha reach words.now (key.now, place.now) }
{
    let text = relevance_of(words, place);
    if text == 0 {
        return None;
    }
    let dist = at.dist(&place.point);
    Some(Hit {
        cost: cost_of(alpha, reach, sum_of_weights(words), dist, text),
        key: *key,
        dist,
        text,
        point: place.point,
    })
}

// The hit that a place gives to a query.
#[inline(always)]
fn hit_of(query: &Query, key: &Key, place: &Place) -> Option<Hit>
    requires { IsWithinLimits query.now }
    ensures { listed result ≡ hits_of query.now (key.now, place.now) }
{
    match query {
        Query::Range {
            at,
            scale,
            radius,
            filter,
        } => hit_in_range(&Origin::at(*at, *scale), *radius, filter, key, place),
        Query::Inside { rect, filter } => hit_in_box(rect, filter, key, place),
        Query::Nearest {
            at,
            scale,
            k: _,
            filter,
        } => hit_near(&Origin::at(*at, *scale), filter, key, place),
        Query::Top {
            at,
            scale,
            k: _,
            alpha,
            reach,
            words,
        } => hit_of_top(
            &Origin::at(*at, *scale),
            *alpha,
            *reach,
            words.as_slice(),
            key,
            place,
        ),
        Query::Rare { .. } | Query::Group { .. } | Query::Gather { .. } => None,
    }
}

/// Returns all hits of a query, in order.
pub(crate) fn all_hits(
    alloc: Global,
    places: &BTreeMap<Key, Place>,
    query: &Query,
) -> Result<Vec<Hit>, AllocError>
    requires { IsWithinLimits query.now }
    ensures { IfOk result (λ hits. hits.items ≡ ranked comes_before (flat_map (hits_of query.now) places.now.entries)) }
{
    let mut hits = Vec::new(alloc);
    for (key, place) in places {
        if let Some(hit) = hit_of(query, key, place) {
            hits.push(hit)?;
        }
    }
    hits.sort_unstable();
    Ok(hits)
}

/// Returns the first k hits of a query, in order. At most k are kept at any time.
pub(crate) fn first_hits(
    alloc: Global,
    places: &BTreeMap<Key, Place>,
    query: &Query,
    k: u16,
) -> Result<Vec<Hit>, AllocError>
    requires { IsWithinLimits query.now }
    ensures { IfOk result (λ hits. hits.items ≡ first comes_before k (flat_map (hits_of query.now) places.now.entries)) }
{
    let k = usize::from(k);
    let mut best = Vec::new(alloc);
    for (key, place) in places {
        if let Some(hit) = hit_of(query, key, place) {
            keep(&mut best, &hit, k)?;
        }
    }
    Ok(best)
}
