//! Places that are put, moved and taken, in a tree in memory.
use node_inverted::{Tree, row};
use page_face::{Damage, MemoryPages, PageFault, Pages, Rule};
use row_codec::{PAIRS_MAX, Stored};
use rtree_nodes::count;
use spatial_base::{Key, Point};
use split_condense::{put_entry, take_entry};
use split_policy::Halving;
use std::alloc::Global;
use std::test::Fail;
use term_impacts::Label;

static EMPTY: Tree = Tree { root: 0, rows: 0 };

// The spot of a place: how many tenths of a degree east, or -1 if there is no place, and the number of its word.
type Spot = (i32, u64);

const NOWHERE: Spot = (-1, 0);

// A change of one place: its number, its spot before and its spot now; then the number of entries, and how many of these have the words
// 1 and 2.
static CHANGES: [(u64, Spot, Spot, usize, usize, usize); 9] = [
    (1, NOWHERE, (5, 1), 1, 1, 0),
    (2, NOWHERE, (5, 1), 2, 2, 0),
    (1, (5, 1), (5, 1), 2, 2, 0),
    (1, (5, 1), (5, 2), 2, 1, 1),
    (1, (5, 2), (9, 2), 2, 1, 1),
    (3, NOWHERE, (9, 1), 3, 2, 1),
    (2, (5, 1), NOWHERE, 2, 1, 1),
    (1, (9, 2), NOWHERE, 1, 1, 0),
    (3, (9, 1), NOWHERE, 0, 0, 0),
];

// What the place table keeps of a place.
fn stored(spot: Spot) -> Option<Stored> {
    let (tenths, word) = spot;
    if tenths < 0 {
        return None;
    }
    let mut pairs = [(0, 0); PAIRS_MAX];
    pairs[0] = (word, 7);
    Some(Stored {
        point: Point::new(tenths.checked_mul(1_000_000)?, 0)?,
        count: 1,
        pairs,
        label: Label::of_text(""),
    })
}

// Moves the entry of a place from a spot to another, puts it, or takes it out.
fn change(
    alloc: Global,
    pages: &mut MemoryPages,
    tree: &mut Tree,
    number: u64,
    from: Spot,
    to: Spot,
) -> Result<(), PageFault> {
    let key = Key::auto(number);
    let mut policy = Halving::new();
    let old = stored(from);
    match (&old, &stored(to)) {
        (_, Some(new)) => put_entry(alloc, pages, tree, &mut policy, &key, old.as_ref(), new),
        (Some(old), None) => take_entry(alloc, pages, tree, &mut policy, &key, old),
        (None, None) => Ok(()),
    }
}

// How many slots of the root are used, 0 if there is no root.
fn used(pages: &mut MemoryPages, tree: &Tree) -> Result<usize, PageFault> {
    if tree.root == 0 {
        return Ok(0);
    }
    pages.look(tree.root)?;
    Ok(count(pages.looked()))
}

// In how many slots of the root a word has an impact.
fn having(pages: &mut MemoryPages, tree: &Tree, word: u64) -> Result<usize, PageFault> {
    let mut found: usize = 0;
    for byte in &row(pages, tree, tree.root, word)? {
        if *byte != 0 {
            found = found.saturating_add(1);
        }
    }
    Ok(found)
}

// Whether the tree is empty and no page is lost: the free list has every page counted except page 0.
fn is_empty(pages: &mut MemoryPages, tree: &Tree) -> Result<bool, PageFault> {
    let mut free: u32 = 0;
    for _ in 0..pages.counted() {
        if pages.first_free() != 0 {
            pages.take()?;
            free = free.saturating_add(1);
        }
    }
    Ok(*tree == EMPTY && free == pages.counted().saturating_sub(1))
}

// Makes the changes. Returns whether the entries are as they should be after each of them.
fn change_all(alloc: Global, pages: &mut MemoryPages, tree: &mut Tree) -> Result<bool, PageFault> {
    for (number, from, to, entries, first, second) in &CHANGES {
        change(alloc, pages, tree, *number, *from, *to)?;
        if used(pages, tree)? != *entries
            || having(pages, tree, 1)? != *first
            || having(pages, tree, 2)? != *second
        {
            return Ok(false);
        }
    }
    Ok(true)
}

#[test]
fn places_are_put_moved_and_taken(rt: HostRuntime) {
    let mut pages = MemoryPages::new(rt.alloc(), 8);
    let mut tree = EMPTY;
    assert_eq!(rt; change_all(rt.alloc(), &mut pages, &mut tree), Ok(true));
    assert_eq!(rt; is_empty(&mut pages, &tree), Ok(true));
}

// The spot of one of forty places after a turn; turn 0 is the beginning.
fn spot_of(number: u8, turn: u8) -> Spot {
    let tenths = i32::from(number);
    match turn {
        1 => (tenths, u64::from(number % 4)),
        2 => (tenths.saturating_add(700), u64::from(number % 4)),
        _ => NOWHERE,
    }
}

// Moves forty places from their spots before a turn to those after it, and returns how many slots of the root are used then.
fn turn_forty(
    alloc: Global,
    pages: &mut MemoryPages,
    tree: &mut Tree,
    turn: u8,
) -> Result<usize, PageFault> {
    for number in 0..40 {
        let from = spot_of(number, turn.saturating_sub(1));
        let to = spot_of(number, turn);
        change(alloc, pages, tree, u64::from(number), from, to)?;
    }
    used(pages, tree)
}

#[test]
fn forty_places_go_elsewhere_and_away(rt: HostRuntime) {
    let mut pages = MemoryPages::new(rt.alloc(), 64);
    let mut tree = EMPTY;
    for (turn, nodes) in [(1, 2), (2, 2), (3, 0)] {
        assert_eq!(rt;
            turn_forty(rt.alloc(), &mut pages, &mut tree, turn),
            Ok(nodes)
        );
    }
    assert_eq!(rt; is_empty(&mut pages, &tree), Ok(true));
}

// Changes of a place that isn't where it was before.
static REFUSED: [(u64, Spot, Spot); 3] = [
    (1, (6, 1), NOWHERE),
    (2, (5, 1), NOWHERE),
    (1, (6, 1), (5, 1)),
];

#[test]
fn a_place_that_is_elsewhere_is_a_damage(rt: HostRuntime) {
    let mut pages = MemoryPages::new(rt.alloc(), 8);
    let mut tree = EMPTY;
    assert_eq!(rt;
        change(rt.alloc(), &mut pages, &mut tree, 1, NOWHERE, (5, 1)),
        Ok(())
    );
    let before = tree;
    let none = PageFault::Damaged(Damage {
        page: 0,
        rule: Rule::Entry,
    });
    for (number, from, to) in &REFUSED {
        let changed = change(rt.alloc(), &mut pages, &mut tree, *number, *from, *to);
        assert_eq!(rt; changed, Err(none));
    }
    assert!(rt; tree == before && used(&mut pages, &tree) == Ok(1));
}

#[test]
fn a_new_label_leaves_the_tree_as_it_is(rt: HostRuntime) -> Result<(), Fail> {
    let mut pages = MemoryPages::new(rt.alloc(), 8);
    let mut tree = EMPTY;
    let mut policy = Halving::new();
    let old = stored((5, 1)).ok_or("off the map")?;
    let new = Stored {
        label: Label::of_text("Café Ny"),
        ..old
    };
    // The tree has no entry of the old place: taking it out would be a damage.
    let put = put_entry(
        rt.alloc(),
        &mut pages,
        &mut tree,
        &mut policy,
        &Key::auto(1),
        Some(&old),
        &new,
    );
    assert_eq!(rt; put, Ok(()));
    assert!(rt; old != new && tree == EMPTY);
    Ok(())
}
