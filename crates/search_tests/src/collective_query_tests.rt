//! Nineteen places in three leaves below a root, with the rows of nine words. The first letters of a key are the words that its place
//! holds.
use crate::small_tree::{Grown, Leaf, Place, Row, planted, word};
use collective_query::group;
use group_sum::group_sum;
use node_inverted::Tree;
use page_face::{Damage, PageFault, Pages, Rule};
use place_values::Chosen;
use rtree_nodes::new_node;
use spatial_base::{Point, SCALE_MAX};
use std::alloc::Global;
use std::fmt::Write;
use std::test::Fail;
use term_impacts::Word;

static PLACES: [Place; 19] = [
    (1, 0, "a1", 10, 0),
    (1, 5, "b2", 12, 0),
    (1, 7, "d1", 10, 0),
    (1, 9, "fg", 3, 4),
    (1, 31, "c2", 11, 0),
    (2, 0, "b1", -10, 0),
    (2, 3, "c1", 0, -10),
    (2, 4, "d2", -10, 0),
    (2, 31, "e1", 0, 0),
    (4, 0, "m0", 1, 1),
    (4, 1, "m1", 1, 2),
    (4, 2, "m2", 2, 1),
    (4, 3, "m3", 2, 2),
    (4, 4, "m4", 3, 1),
    (4, 5, "m5", -97, 50),
    (4, 6, "m8", 100, 47),
    (4, 7, "m9", 97, 50),
    (4, 8, "r1", 100, 50),
    (4, 9, "r2", -100, 50),
];

static LEAVES: [Leaf; 3] = [
    (1, 1, [3, 0, 12, 4]),
    (31, 2, [-10, -10, 0, 0]),
    (7, 4, [-100, 1, 100, 50]),
];

// The words that the store knows, each with its number. No place holds "h".
static WORDS: [(&str, u64); 10] = [
    ("a", 0),
    ("b", 1),
    ("c", 2),
    ("d", 3),
    ("e", 4),
    ("f", 5),
    ("g", 6),
    ("h", 7),
    ("m", 8),
    ("r", 9),
];

static ROWS: [Row; 21] = [
    (1, 0, &[(0, 1)]),
    (1, 1, &[(5, 1)]),
    (1, 2, &[(31, 1)]),
    (1, 3, &[(7, 1)]),
    (1, 5, &[(9, 1)]),
    (1, 6, &[(9, 1)]),
    (2, 1, &[(0, 1)]),
    (2, 2, &[(3, 1)]),
    (2, 3, &[(4, 1)]),
    (2, 4, &[(31, 1)]),
    (3, 0, &[(1, 1)]),
    (3, 1, &[(1, 1), (31, 1)]),
    (3, 2, &[(1, 1), (31, 1)]),
    (3, 3, &[(1, 1), (31, 1)]),
    (3, 4, &[(31, 1)]),
    (3, 5, &[(1, 1)]),
    (3, 6, &[(1, 1)]),
    (3, 8, &[(7, 1)]),
    (3, 9, &[(7, 1)]),
    (
        4,
        8,
        &[
            (0, 1),
            (1, 1),
            (2, 1),
            (3, 1),
            (4, 1),
            (5, 1),
            (6, 1),
            (7, 1),
        ],
    ),
    (4, 9, &[(8, 1), (9, 1)]),
];

// Writes the cost and the keys of a choice.
fn write_choice(out: &mut String, chosen: &Chosen) -> Option<()> {
    write!(out, "{}", chosen.cost).ok()?;
    for pick in chosen.picks.as_slice() {
        write!(out, " {}", pick.key.text().unwrap_or("")).ok()?;
    }
    Some(())
}

// Whether the cost and the keys of an answer are these; "" is no choice.
fn readable(alloc: Global, answer: &Result<Option<Chosen>, PageFault>, wanted: &str) -> bool {
    let mut out = String::new(alloc);
    match answer {
        Ok(Some(chosen)) => write_choice(&mut out, chosen).is_some() && out.as_str() == wanted,
        Ok(None) => wanted.is_empty(),
        Err(_) => false,
    }
}

// The words of a query.
fn words_of(alloc: Global, texts: &[&str]) -> Option<Vec<Word>> {
    let mut words = Vec::new(alloc);
    for text in texts {
        words.push(word(alloc, text)?).ok()?;
    }
    Some(words)
}

// What is least of a choice.
#[derive(Clone, Copy)]
enum Least {
    // The greatest distance from the point and between two places.
    Reach,
    // The sum of the distances from the point.
    Sum,
}

// The answer to a query for some words from 0 0.
fn choice_of(
    alloc: Global,
    grown: &mut Grown,
    least: Least,
    scale: u16,
    texts: &[&str],
) -> Option<Result<Option<Chosen>, PageFault>> {
    let at = Point::new(0, 0)?;
    let words = words_of(alloc, texts)?;
    if scale > SCALE_MAX || words.len() > 8 {
        return None;
    }
    let (pages, tree, ids) = (&mut grown.pages, &grown.tree, &grown.ids);
    Some(match least {
        Least::Reach => group(alloc, pages, tree, ids, &at, scale, &words),
        Least::Sum => group_sum(alloc, pages, tree, ids, &at, scale, &words),
    })
}

// Whether the choice for some words from 0 0 is this.
fn is_chosen(
    alloc: Global,
    grown: &mut Grown,
    least: Least,
    scale: u16,
    texts: &[&str],
    wanted: &str,
) -> bool {
    match choice_of(alloc, grown, least, scale, texts) {
        Some(answer) => readable(alloc, &answer, wanted),
        None => false,
    }
}

// The scale and the words of a query, and the answer: the cost and the keys. Five places of "m" are nearer than those of "r", and three
// pairs cost 114.
static GROUPS: [(u16, &[&str], &str); 14] = [
    (1000, &["b"], "10 b1"),
    (1000, &["e"], "0 e1"),
    (1000, &["f", "g"], "5 fg fg"),
    (1000, &["a", "b", "c"], "14 a1 b2 c2"),
    (1000, &["c", "a", "b"], "14 c2 a1 b2"),
    (1000, &["d", "e"], "20 d1 e1"),
    (1000, &["a", "h"], ""),
    (1000, &["tea", "a"], ""),
    (1000, &["m", "r"], "114 m5 r2"),
    (1000, &["r", "m"], "114 r1 m8"),
    (1000, &["m", "r", "m"], "114 m5 r2 m5"),
    (500, &["a", "b"], "7 a1 b2"),
    (0, &["a", "b", "c"], "0 a1 b1 c2"),
    (0, &["r", "m"], "50 r1 m5"),
];

#[test]
fn places_that_are_near_together_cost_least(rt: HostRuntime) -> Result<(), Fail> {
    let tree = planted(rt.alloc(), &LEAVES, &PLACES, &ROWS, &WORDS);
    let mut tree = tree.ok_or("no tree")?;
    for (scale, texts, wanted) in &GROUPS {
        assert!(rt; is_chosen(rt.alloc(), &mut tree, Least::Reach, *scale, texts, wanted));
    }
    tree.tree = Tree { root: 0, rows: 0 };
    assert!(rt; is_chosen(rt.alloc(), &mut tree, Least::Reach, SCALE_MAX, &["a"], ""));
    Ok(())
}

// The same for the least sum. Two places of "r" are equally far, and so are three of "m" if longitudes don't count.
static GATHERS: [(u16, &[&str], &str); 11] = [
    (1000, &["b"], "10 b1"),
    (1000, &["e"], "0 e1"),
    (1000, &["f", "g"], "5 fg fg"),
    (1000, &["a", "b", "c"], "30 a1 b1 c1"),
    (1000, &["f", "a", "g", "e"], "15 fg a1 fg e1"),
    (1000, &["d", "e"], "10 d1 e1"),
    (1000, &["a", "h"], ""),
    (1000, &["m", "r"], "112 m0 r1"),
    (1000, &["r", "m", "r"], "112 r1 m0 r1"),
    (500, &["a", "b"], "10 a1 b1"),
    (0, &["r", "m"], "51 r1 m0"),
];

#[test]
fn places_cost_least_in_sum(rt: HostRuntime) -> Result<(), Fail> {
    let tree = planted(rt.alloc(), &LEAVES, &PLACES, &ROWS, &WORDS);
    let mut tree = tree.ok_or("no tree")?;
    for (scale, texts, wanted) in &GATHERS {
        assert!(rt; is_chosen(rt.alloc(), &mut tree, Least::Sum, *scale, texts, wanted));
    }
    tree.tree = Tree { root: 0, rows: 0 };
    assert!(rt; is_chosen(rt.alloc(), &mut tree, Least::Sum, SCALE_MAX, &["a"], ""));
    Ok(())
}

// Whether the leaf in the west is named, since it has no slot.
fn is_named(alloc: Global, grown: &mut Grown, least: Least) -> bool {
    let damage = Damage {
        page: 2,
        rule: Rule::Fill,
    };
    match choice_of(alloc, grown, least, SCALE_MAX, &["a", "e"]) {
        Some(answer) => answer.err() == Some(PageFault::Damaged(damage)),
        None => false,
    }
}

#[test]
fn a_broken_page_is_named_with_its_rule(rt: HostRuntime) -> Result<(), Fail> {
    let tree = planted(rt.alloc(), &LEAVES, &PLACES, &ROWS, &WORDS);
    let mut tree = tree.ok_or("no tree")?;
    assert_eq!(rt; tree.pages.write(2, &new_node(0)), Ok(()));
    for least in [Least::Reach, Least::Sum] {
        assert!(rt;
            is_chosen(
                rt.alloc(),
                &mut tree,
                least,
                SCALE_MAX,
                &["f", "g"],
                "5 fg fg"
            )
        );
        assert!(rt; is_named(rt.alloc(), &mut tree, least));
    }
    Ok(())
}
