//! Trees in memory from which places are taken out, each with its words.
//!
//! `split_condense_tests` checks that the rows of each node hold the words that are left below its slots. It also checks that a dissolved
//! leaf leaves its places with their words and no row.
use crate::irtree_insert_tests::{COMMON, EMPTY, own_word, pair_row, put_places, words_of};
use crate::split_condense_tests::number_at;
use node_inverted::{Tree, row};
use page_face::{Damage, MemoryPages, Page, PageFault, Pages, Rule};
use rtree_nodes::clear_slot;
use split_condense::remove_at;
use split_policy::Quadratic;
use std::alloc::Global;

// Takes out a place of a tree that is a leaf: each is in the slot of its number.
fn take_out(
    alloc: Global,
    pages: &mut MemoryPages,
    tree: &mut Tree,
    number: u8,
) -> Result<(), PageFault> {
    let mut policy = Quadratic::new();
    let words = words_of(number);
    remove_at(alloc, pages, tree, &mut policy, &[number], &words)
}

// Whether the leaf at page 1 has only the common word of the second place.
fn has_second_words(pages: &mut MemoryPages, tree: &Tree) -> bool {
    row(pages, tree, 1, COMMON) == Ok(pair_row(0, 2))
        && row(pages, tree, 1, own_word(0)) == Ok([0; 32])
}

#[test]
fn the_last_entry_leaves_the_empty_tree(rt: HostRuntime) {
    let mut pages = MemoryPages::new(rt.alloc(), 64);
    let mut policy = Quadratic::new();
    let mut tree = EMPTY;
    assert_eq!(rt;
        put_places(rt.alloc(), &mut pages, &mut tree, &mut policy, 2),
        Ok(())
    );
    assert_eq!(rt; take_out(rt.alloc(), &mut pages, &mut tree, 0), Ok(()));
    assert_eq!(rt; tree, Tree { root: 1, rows: 2 });
    assert!(rt; has_second_words(&mut pages, &tree));
    assert_eq!(rt; take_out(rt.alloc(), &mut pages, &mut tree, 1), Ok(()));
    assert_eq!(rt; tree, EMPTY);
}

// The first slot of a leaf that is used, and the number of its place.
fn first_place(leaf: &Page) -> Option<(u8, u8)> {
    for at in 0..32 {
        if let Some(number) = number_at(leaf, at) {
            return Some((at as u8, u8::try_from(number).ok()?));
        }
    }
    None
}

// Clears the second slot of the root at page 4.
fn make_lone(pages: &mut MemoryPages) -> Result<(), PageFault> {
    let mut root = pages.read(4)?;
    clear_slot(&mut root, 1);
    pages.write(4, &root)
}

// Whether the removal of the first place of the leaf at page 1 is refused, since the root has no other child, and writes nothing there.
fn is_refused(alloc: Global, pages: &mut MemoryPages, tree: &mut Tree) -> Option<bool> {
    let before = pages.read(1).ok()?;
    let (at, number) = first_place(&before)?;
    let mut policy = Quadratic::new();
    let words = words_of(number);
    let removed = remove_at(alloc, pages, tree, &mut policy, &[at, 0], &words);
    let lone = Damage {
        page: 4,
        rule: Rule::Fill,
    };
    let is_named = removed == Err(PageFault::Damaged(lone));
    Some(is_named && pages.read(1) == Ok(before) && tree.root == 4)
}

#[test]
fn a_root_of_one_child_is_damaged_and_nothing_is_written(rt: HostRuntime) {
    let mut pages = MemoryPages::new(rt.alloc(), 64);
    let mut policy = Quadratic::new();
    let mut tree = EMPTY;
    assert_eq!(rt;
        put_places(rt.alloc(), &mut pages, &mut tree, &mut policy, 40),
        Ok(())
    );
    assert_eq!(rt; make_lone(&mut pages), Ok(()));
    assert_eq!(rt; is_refused(rt.alloc(), &mut pages, &mut tree), Some(true));
}
