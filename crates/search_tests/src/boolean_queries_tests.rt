//! Two leaves below a root, with the rows of two words: "a" and "d" hold café, "c", "d" and "e" hold wifi, and "b" holds neither.
use crate::small_tree::{Grown, Leaf, Place, Row, filter, planted, readable};
use boolean_queries::{inside, range};
use node_inverted::Tree;
use page_face::{Damage, PageFault, Pages, Rule};
use place_values::Expr;
use rtree_nodes::new_node;
use spatial_base::{Point, Rect, SCALE_MAX};
use std::alloc::Global;
use std::test::Fail;

static PLACES: [Place; 5] = [
    (1, 0, "a", 5, 5),
    (1, 2, "c", 0, 0),
    (1, 31, "b", 9, 9),
    (2, 4, "d", 5, 5),
    (2, 6, "e", 20, 0),
];

static LEAVES: [Leaf; 2] = [(2, 1, [0, 0, 9, 9]), (31, 2, [5, 0, 20, 5])];

static ROWS: [Row; 6] = [
    (1, 0, &[(0, 9)]),
    (1, 1, &[(2, 4)]),
    (2, 0, &[(4, 3)]),
    (2, 1, &[(4, 7), (6, 2)]),
    (3, 0, &[(2, 9), (31, 3)]),
    (3, 1, &[(2, 4), (31, 7)]),
];

static WORDS: [(&str, u64); 2] = [("café", 0), ("wifi", 1)];

// Whether the places in range of the point 0 0 are these.
fn are_near(alloc: Global, grown: &mut Grown, scale: u16, radius: u64, wanted: &str) -> bool {
    let Some(at) = Point::new(0, 0) else {
        return false;
    };
    if scale > SCALE_MAX {
        return false;
    }
    let answer = range(
        alloc,
        &mut grown.pages,
        &grown.tree,
        &grown.ids,
        &at,
        scale,
        radius,
        None,
    );
    readable(alloc, &answer, wanted)
}

// A scale, a radius, and the answer.
static RANGES: [(u16, u64, &str); 5] = [
    (1000, 6, "c 0, "),
    (1000, 7, "c 0, a 7, d 7, "),
    (1000, 20, "c 0, a 7, d 7, b 12, e 20, "),
    (500, 10, "c 0, a 5, d 5, b 10, e 10, "),
    (0, 8, "c 0, e 0, a 5, d 5, "),
];

#[test]
fn places_in_range_come_by_distance_and_key(rt: HostRuntime) -> Result<(), Fail> {
    let tree = planted(rt.alloc(), &LEAVES, &PLACES, &ROWS, &WORDS);
    let mut tree = tree.ok_or("no tree")?;
    for (scale, radius, wanted) in &RANGES {
        assert!(rt; are_near(rt.alloc(), &mut tree, *scale, *radius, wanted));
    }
    Ok(())
}

// A box: its west, south, east and north.
type Sides = [i32; 4];

// Whether the places in a box that meet a filter are these.
fn are_within(
    alloc: Global,
    grown: &mut Grown,
    of: &Sides,
    filter: Option<&Expr>,
    wanted: &str,
) -> bool {
    let Some(rect) = Rect::new(of[0], of[1], of[2], of[3]) else {
        return false;
    };
    let answer = inside(
        alloc,
        &mut grown.pages,
        &grown.tree,
        &grown.ids,
        &rect,
        filter,
    );
    readable(alloc, &answer, wanted)
}

// Boxes, and their answers. A border belongs to its rectangle.
static BOXES: [(Sides, &str); 3] = [
    ([5, 5, 9, 9], "a 0, b 0, d 0, "),
    ([20, -5, 30, 0], "e 0, "),
    ([10, 6, 30, 9], ""),
];

// The word that a filter requires, the one that is to lack, and the answer.
static FILTERS: [(&str, &str, &str); 4] = [
    ("café", "", "a 0, d 0, "),
    ("", "café", "b 0, c 0, e 0, "),
    ("wifi", "café", "c 0, e 0, "),
    ("tea", "", ""),
];

// Whether the places of all that meet a filter are these.
fn are_those_with(alloc: Global, grown: &mut Grown, has: &str, lacks: &str, wanted: &str) -> bool {
    match filter(alloc, has, lacks) {
        Some(filter) => are_within(alloc, grown, &[0, 0, 20, 9], Some(&filter), wanted),
        None => false,
    }
}

#[test]
fn a_border_belongs_to_its_rectangle_and_a_filter_asks_for_words(
    rt: HostRuntime,
) -> Result<(), Fail> {
    let tree = planted(rt.alloc(), &LEAVES, &PLACES, &ROWS, &WORDS);
    let mut tree = tree.ok_or("no tree")?;
    for (sides, wanted) in &BOXES {
        assert!(rt; are_within(rt.alloc(), &mut tree, sides, None, wanted));
    }
    for (has, lacks, wanted) in &FILTERS {
        assert!(rt; are_those_with(rt.alloc(), &mut tree, has, lacks, wanted));
    }
    Ok(())
}

// Whether the leaf in the east is named, since it has no slot.
fn is_named(alloc: Global, grown: &mut Grown) -> bool {
    let Some(east) = Rect::new(10, 0, 20, 9) else {
        return false;
    };
    let damage = Damage {
        page: 2,
        rule: Rule::Fill,
    };
    let answer = inside(
        alloc,
        &mut grown.pages,
        &grown.tree,
        &grown.ids,
        &east,
        None,
    );
    answer.err() == Some(PageFault::Damaged(damage))
}

#[test]
fn a_broken_page_is_named_with_its_rule(rt: HostRuntime) -> Result<(), Fail> {
    let tree = planted(rt.alloc(), &LEAVES, &PLACES, &ROWS, &WORDS);
    let mut tree = tree.ok_or("no tree")?;
    assert_eq!(rt; tree.pages.write(2, &new_node(0)), Ok(()));
    assert!(rt; is_named(rt.alloc(), &mut tree));
    assert!(rt; are_within(rt.alloc(), &mut tree, &[0, 0, 4, 9], None, "c 0, "));
    tree.tree = Tree { root: 0, rows: 0 };
    assert!(rt; are_within(rt.alloc(), &mut tree, &[0, 0, 4, 9], None, ""));
    Ok(())
}
