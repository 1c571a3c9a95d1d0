//! Three places in two leaves below a root, with the rows of two words: "a" and "b" hold café, "b" and "c" hold wifi. They lie 5, 10 and 20
//! away from the point 0 0.
use crate::small_tree::{Grown, Leaf, Place, Row, filter, planted, readable, word};
use best_first::{Ranking, first_k};
use node_inverted::Tree;
use page_face::{Damage, PageFault, Pages, Rule};
use place_values::{Expr, Query, Weights};
use rtree_nodes::new_node;
use spatial_base::{Point, SCALE_MAX};
use std::alloc::Global;
use std::test::Fail;
use topk_query::top;

static PLACES: [Place; 3] = [(1, 0, "a", 3, 4), (1, 5, "b", 6, 8), (2, 31, "c", 0, 20)];

static LEAVES: [Leaf; 2] = [(1, 1, [3, 4, 6, 8]), (31, 2, [0, 20, 0, 20])];

static ROWS: [Row; 5] = [
    (1, 0, &[(0, 20), (5, 30)]),
    (1, 1, &[(5, 100)]),
    (2, 1, &[(31, 250)]),
    (3, 0, &[(1, 30)]),
    (3, 1, &[(1, 100), (31, 250)]),
];

static WORDS: [(&str, u64); 2] = [("café", 0), ("wifi", 1)];

// Whether the places nearest to the point 0 0 that meet a filter are these.
fn are_nearest(
    alloc: Global,
    grown: &mut Grown,
    k: u16,
    filter: Option<&Expr>,
    wanted: &str,
) -> bool {
    let Some(at) = Point::new(0, 0) else {
        return false;
    };
    let mut ranking = Ranking::nearest(&grown.tree, &grown.ids, &at, SCALE_MAX, filter);
    let answer = first_k(alloc, &mut grown.pages, &mut ranking, k);
    readable(alloc, &answer, wanted)
}

// How many places are requested, the word that a filter requires, the one that is to lack, and the answer.
static FILTERS: [(u16, &str, &str, &str); 4] = [
    (1, "wifi", "", "b 10, "),
    (9, "wifi", "", "b 10, c 20, "),
    (9, "", "café", "c 20, "),
    (9, "tea", "", ""),
];

// Whether the nearest places that meet a filter are these.
fn are_those_with(
    alloc: Global,
    grown: &mut Grown,
    k: u16,
    has: &str,
    lacks: &str,
    wanted: &str,
) -> bool {
    match filter(alloc, has, lacks) {
        Some(filter) => are_nearest(alloc, grown, k, Some(&filter), wanted),
        None => false,
    }
}

#[test]
fn the_nearest_come_by_distance_and_meet_a_filter(rt: HostRuntime) -> Result<(), Fail> {
    let tree = planted(rt.alloc(), &LEAVES, &PLACES, &ROWS, &WORDS);
    let mut tree = tree.ok_or("no tree")?;
    assert!(rt; are_nearest(rt.alloc(), &mut tree, 2, None, "a 5, b 10, "));
    assert!(rt; are_nearest(rt.alloc(), &mut tree, 9, None, "a 5, b 10, c 20, "));
    for (k, has, lacks, wanted) in &FILTERS {
        assert!(rt; are_those_with(rt.alloc(), &mut tree, *k, has, lacks, wanted));
    }
    Ok(())
}

// The scale, how many hits are requested, alpha, words with their weights, and the answer.
type Top = (u16, u16, u16, &'static [(&'static str, u8)], &'static str);

static TOPS: [Top; 8] = [
    (
        1000,
        9,
        500,
        &[("café", 1), ("wifi", 2)],
        "b 9175000, a 9362500, c 10300000, ",
    ),
    (1000, 1, 500, &[("café", 1), ("wifi", 2)], "b 9175000, "),
    (
        1000,
        9,
        0,
        &[("café", 1), ("wifi", 2)],
        "c 5300000, b 10700000, a 14900000, ",
    ),
    (
        1000,
        2,
        1000,
        &[("café", 1), ("wifi", 2)],
        "a 3825000, b 7650000, ",
    ),
    (
        0,
        2,
        1000,
        &[("café", 1), ("wifi", 2)],
        "a 3060000, b 6120000, ",
    ),
    (1000, 9, 500, &[("café", 4)], "a 11950000, b 14100000, "),
    (
        1000,
        9,
        500,
        &[("tea", 1), ("café", 1)],
        "a 6175000, b 7350000, ",
    ),
    (1000, 9, 500, &[("tea", 1)], ""),
];

// The words of a query with their weights.
fn weights_of(alloc: Global, words: &[(&str, u8)]) -> Option<Weights> {
    let mut weights = Vec::new(alloc);
    for (text, weight) in words {
        weights.push((word(alloc, text)?, *weight)).ok()?;
    }
    Some(Weights::from_vec(weights))
}

// A top query from 0 0, in which the distance 20 weighs as much as the words.
fn query_of(alloc: Global, of: &Top) -> Option<Query> {
    let (scale, k, alpha, words, _) = of;
    Some(Query::Top {
        at: Point::new(0, 0)?,
        scale: *scale,
        k: *k,
        alpha: *alpha,
        reach: 20,
        words: weights_of(alloc, words)?,
    })
}

// Whether the hits of a top query are these.
fn are_first(alloc: Global, grown: &mut Grown, query: &Query, wanted: &str) -> bool {
    if !query.is_within_limits() {
        return false;
    }
    match query {
        Query::Top {
            at,
            scale,
            k,
            alpha,
            reach,
            words,
        } => {
            let answer = top(
                alloc,
                &mut grown.pages,
                &grown.tree,
                &grown.ids,
                at,
                *scale,
                *k,
                *alpha,
                *reach,
                words.as_slice(),
            );
            readable(alloc, &answer, wanted)
        }
        _ => false,
    }
}

// Whether the hits are those in the table.
fn are_ranked(alloc: Global, grown: &mut Grown, of: &Top) -> bool {
    match query_of(alloc, of) {
        Some(query) => are_first(alloc, grown, &query, of.4),
        None => false,
    }
}

#[test]
fn words_and_distance_rank_places(rt: HostRuntime) -> Result<(), Fail> {
    let tree = planted(rt.alloc(), &LEAVES, &PLACES, &ROWS, &WORDS);
    let mut tree = tree.ok_or("no tree")?;
    for of in &TOPS {
        assert!(rt; are_ranked(rt.alloc(), &mut tree, of));
    }
    Ok(())
}

// Whether the leaf in the north is named, when the nearest three places are requested.
fn is_named(alloc: Global, grown: &mut Grown, rule: Rule) -> bool {
    let Some(at) = Point::new(0, 0) else {
        return false;
    };
    let mut ranking = Ranking::nearest(&grown.tree, &grown.ids, &at, SCALE_MAX, None);
    let answer = first_k(alloc, &mut grown.pages, &mut ranking, 3);
    answer.err() == Some(PageFault::Damaged(Damage { page: 2, rule }))
}

// Writes the root in place of the leaf in the north.
fn put_root_below(grown: &mut Grown) -> Result<(), PageFault> {
    let root = grown.pages.read(grown.tree.root)?;
    grown.pages.write(2, &root)
}

#[test]
fn a_node_is_opened_only_where_needed(rt: HostRuntime) -> Result<(), Fail> {
    let tree = planted(rt.alloc(), &LEAVES, &PLACES, &ROWS, &WORDS);
    let mut tree = tree.ok_or("no tree")?;
    // The leaf in the north has no slot, and then it is as high as its parent.
    assert_eq!(rt; tree.pages.write(2, &new_node(0)), Ok(()));
    assert!(rt; are_nearest(rt.alloc(), &mut tree, 2, None, "a 5, b 10, "));
    assert!(rt; are_those_with(rt.alloc(), &mut tree, 9, "café", "", "a 5, b 10, "));
    assert!(rt; is_named(rt.alloc(), &mut tree, Rule::Fill));
    assert_eq!(rt; put_root_below(&mut tree), Ok(()));
    assert!(rt; is_named(rt.alloc(), &mut tree, Rule::Level));
    tree.tree = Tree { root: 0, rows: 0 };
    assert!(rt; are_nearest(rt.alloc(), &mut tree, 9, None, ""));
    Ok(())
}
