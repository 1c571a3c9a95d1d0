//! A tree in memory that grows by single places, each with its words.
//!
//! `split_condense_tests` checks that the rows of each node hold the words below its slots.
use irtree_insert::insert_at;
use node_inverted::{Tree, row};
use page_face::{Damage, MemoryPages, PageFault, Pages};
use rtree_nodes::{Slot, count, header};
use spatial_base::{Key, Point};
use split_policy::{Quadratic, SplitPolicy};
use std::alloc::Global;

pub(crate) static EMPTY: Tree = Tree { root: 0, rows: 0 };

// The word that all places have.
pub(crate) const COMMON: u64 = 5;

// The word that only one place has.
pub(crate) fn own_word(number: u8) -> u64 {
    u64::from(number) + 1_000
}

// The words of a place: the one that all have, with one more than the place's number as its impact, and its own, with 7.
pub(crate) fn words_of(number: u8) -> [(u64, u8); 2] {
    [(COMMON, number.saturating_add(1)), (own_word(number), 7)]
}

// Puts places into a tree, each as many tenths of a degree east and north as its number, with its words.
pub(crate) fn put_places(
    alloc: Global,
    pages: &mut MemoryPages,
    tree: &mut Tree,
    policy: &mut Quadratic,
    places: u8,
) -> Result<(), PageFault> {
    for number in 0..places {
        let tenths = i32::from(number) * 1_000_000;
        if let Some(point) = Point::new(tenths, tenths) {
            let key = Key::auto(u64::from(number));
            let words = words_of(number);
            insert_at(
                alloc,
                pages,
                tree,
                policy,
                0,
                &Slot::Place { point, key },
                &words,
            )?;
        }
    }
    Ok(())
}

// A row with these bytes at its first two slots.
pub(crate) fn pair_row(left: u8, right: u8) -> [u8; 32] {
    let mut bytes = [0; 32];
    bytes[0] = left;
    bytes[1] = right;
    bytes
}

// Whether the leaf at page 1 has the words of the first place at its first slot, and no other word.
fn has_first_words(pages: &mut MemoryPages, tree: &Tree) -> bool {
    row(pages, tree, 1, COMMON) == Ok(pair_row(1, 0))
        && row(pages, tree, 1, own_word(0)) == Ok(pair_row(7, 0))
        && row(pages, tree, 1, own_word(1)) == Ok([0; 32])
}

#[test]
fn a_place_stands_with_its_words(rt: HostRuntime) {
    let mut pages = MemoryPages::new(rt.alloc(), 64);
    let mut policy = Quadratic::new();
    let mut tree = EMPTY;
    assert_eq!(rt;
        put_places(rt.alloc(), &mut pages, &mut tree, &mut policy, 1),
        Ok(())
    );
    assert_eq!(rt; tree, Tree { root: 1, rows: 2 });
    assert!(rt; has_first_words(&mut pages, &tree));
}

// The level of a node, and how many of its slots are used.
fn level_and_count(pages: &mut MemoryPages, page: u32) -> Result<(u8, usize), PageFault> {
    pages.look(page)?;
    match header(pages.looked()) {
        Ok(head) => Ok((head.level, count(pages.looked()))),
        Err(rule) => Err(PageFault::Damaged(Damage { page, rule })),
    }
}

// Whether the root is at page 4, above leaves at pages 1 and 3 that have forty places together.
fn are_forty(pages: &mut MemoryPages) -> Result<bool, PageFault> {
    let root = level_and_count(pages, 4)?;
    let left = level_and_count(pages, 1)?;
    let right = level_and_count(pages, 3)?;
    let places = left.1.saturating_add(right.1);
    Ok(root == (1, 2) && left.0 == 0 && right.0 == 0 && places == 40)
}

#[test]
fn forty_places_make_a_root_above_two_leaves(rt: HostRuntime) {
    let mut pages = MemoryPages::new(rt.alloc(), 64);
    let mut policy = Quadratic::new();
    let mut tree = EMPTY;
    assert_eq!(rt;
        put_places(rt.alloc(), &mut pages, &mut tree, &mut policy, 40),
        Ok(())
    );
    assert_eq!(rt; tree, Tree { root: 4, rows: 2 });
    assert!(rt; pages.counted() == 5 && policy.splits() == 1);
    assert_eq!(rt; are_forty(&mut pages), Ok(true));
}
