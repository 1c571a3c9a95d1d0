//! Rows of two nodes. The words' numbers are chosen so that their order differs from that of their bytes read from the low end.
use node_inverted::{
    Tree, column, drop_node, like, move_slots, next_row, raise, refresh, renew, rising, row,
    rows_at, set_impact, set_row, shared_by, take_rows, words_of,
};
use page_face::{Damage, MemoryPages, PageFault, Pages, Rule};
use std::alloc::Global;

static EMPTY: Tree = Tree { root: 5, rows: 0 };

// A row: its node, its word's number, a slot and the byte there; all other bytes are 0.
type Single = (u32, u64, usize, u8);

static ROWS: [Single; 7] = [
    (7, 256, 31, 4),
    (9, 0, 0, 200),
    (7, 1, 0, 9),
    (9, 1, 3, 8),
    (7, 4_294_967_296, 1, 1),
    (7, 18_446_744_073_709_551_615, 2, 255),
    // a row of zeros, which isn't there
    (7, 2, 0, 0),
];

// Numbers from which on a node's rows are searched, and the word of the first one.
static FIRST: [(u32, u64, Option<u64>); 7] = [
    (7, 0, Some(1)),
    (7, 1, Some(1)),
    (7, 2, Some(256)),
    (7, 257, Some(4_294_967_296)),
    (7, 4_294_967_297, Some(18_446_744_073_709_551_615)),
    (9, 2, None),
    (8, 0, None),
];

// Rows after slot 2 of node 7 is raised by two words, and its slots 0 and 1 move to node 11.
static MOVED: [Single; 5] = [
    (7, 1, 2, 3),
    (7, 5, 2, 6),
    (11, 1, 0, 9),
    (11, 4_294_967_296, 1, 1),
    (11, 256, 0, 0),
];

// Rows after slot 4 of node 9 has the words of node 7, word 1 of it is set again and renewed, and node 7 is dropped.
static DROPPED: [Single; 5] = [
    (9, 5, 4, 6),
    (9, 256, 4, 4),
    (9, 0, 0, 200),
    (7, 5, 0, 0),
    (7, 256, 0, 0),
];

// The words of an entry, not in the order of their numbers.
static SHARED: [(u64, u8); 3] = [(1, 9), (0, 7), (256, 7)];

// A row of zeros except one byte.
fn single(slot: usize, byte: u8) -> [u8; 32] {
    let mut row = [0; 32];
    if slot < 32 {
        row[slot] = byte;
    }
    row
}

// Sets all the rows.
fn fill(pages: &mut MemoryPages, tree: &mut Tree) -> Result<(), PageFault> {
    for (node, number, slot, byte) in ROWS.iter() {
        set_row(pages, tree, *node, *number, &single(*slot, *byte))?;
    }
    Ok(())
}

// Whether these rows are stored.
fn are_there(pages: &mut MemoryPages, tree: &Tree, rows: &[Single]) -> Result<bool, PageFault> {
    for (node, number, slot, byte) in rows.iter() {
        if row(pages, tree, *node, *number)? != single(*slot, *byte) {
            return Ok(false);
        }
    }
    Ok(true)
}

// The word of the first row of a node from a number on.
fn first_word(
    pages: &mut MemoryPages,
    tree: &Tree,
    node: u32,
    from: u64,
) -> Result<Option<u64>, PageFault> {
    match next_row(pages, tree, node, from)? {
        Some(found) => Ok(Some(found.0)),
        None => Ok(None),
    }
}

// Whether the first rows are those of `FIRST`.
fn are_in_order(pages: &mut MemoryPages, tree: &Tree) -> Result<bool, PageFault> {
    for (node, from, number) in FIRST.iter() {
        if first_word(pages, tree, *node, *from)? != *number {
            return Ok(false);
        }
    }
    Ok(true)
}

// Sets a row of one byte, and then replaces it with one of zeros. Returns whether the row is then gone, and its page free.
fn set_and_clear(pages: &mut MemoryPages, tree: &mut Tree) -> Result<bool, PageFault> {
    set_row(pages, tree, 7, 1, &single(0, 9))?;
    set_row(pages, tree, 7, 1, &[0; 32])?;
    Ok(tree.rows == 0 && pages.first_free() == 1)
}

// Raises slot 2 of node 7 by two words, and moves its slots 0 and 1 to node 11. Returns whether the rows are then those of `MOVED`.
fn raise_and_move(
    alloc: Global,
    pages: &mut MemoryPages,
    tree: &mut Tree,
) -> Result<bool, PageFault> {
    raise(pages, tree, 7, 2, &[(1, 3), (5, 6)])?;
    move_slots(alloc, pages, tree, 7, 3, 11)?;
    are_there(pages, tree, &MOVED)
}

// Gives slot 4 of node 9 the words of node 7, sets and renews one of them, and drops node 7. Returns whether the rows are then `DROPPED`.
fn renew_and_drop(
    alloc: Global,
    pages: &mut MemoryPages,
    tree: &mut Tree,
) -> Result<bool, PageFault> {
    refresh(pages, tree, 9, 4, 7)?;
    set_impact(pages, tree, 9, 4, 5, 1)?;
    renew(alloc, pages, tree, 9, 4, 7, &[(5, 0)])?;
    drop_node(alloc, pages, tree, 7)?;
    are_there(pages, tree, &DROPPED)
}

#[test]
fn rows_are_found_in_order_and_move_and_are_dropped(rt: HostRuntime) {
    let mut pages = MemoryPages::new(rt.alloc(), 8);
    let mut tree = EMPTY;
    assert_eq!(rt; set_and_clear(&mut pages, &mut tree), Ok(true));
    assert_eq!(rt; fill(&mut pages, &mut tree), Ok(()));
    assert_eq!(rt; are_there(&mut pages, &tree, &ROWS), Ok(true));
    assert_eq!(rt; are_in_order(&mut pages, &tree), Ok(true));
    assert_eq!(rt; raise_and_move(rt.alloc(), &mut pages, &mut tree), Ok(true));
    assert_eq!(rt; renew_and_drop(rt.alloc(), &mut pages, &mut tree), Ok(true));
}

// Whether each of these calls names page 1 as one of another kind.
fn are_refused(pages: &mut MemoryPages, tree: &Tree) -> bool {
    let damage = PageFault::Damaged(Damage {
        page: 1,
        rule: Rule::Kind,
    });
    row(pages, tree, 7, 1) == Err(damage)
        && next_row(pages, tree, 7, 1) == Err(damage)
        && like(pages, tree, 7, &[]) == Err(damage)
}

#[test]
fn a_page_of_another_kind_is_damaged(rt: HostRuntime) {
    let mut pages = MemoryPages::new(rt.alloc(), 8);
    assert!(rt; pages.take() == Ok(1) && pages.write(1, &[3; 4096]) == Ok(()));
    assert!(rt; are_refused(&mut pages, &Tree { root: 5, rows: 1 }));
}

// Whether only slots 0 and 3 of node 9 share a word with the entry, each one word.
fn share_one(alloc: Global, pages: &mut MemoryPages, tree: &Tree) -> bool {
    let mut counts = [0; 32];
    counts[0] = 1;
    counts[3] = 1;
    match rows_at(alloc, pages, tree, 9, &SHARED) {
        Ok(rows) => shared_by(&rows) == counts,
        Err(_) => false,
    }
}

// How many of the words `SHARED` are above their byte at a slot of node 9, and the first of them.
fn count_rising(
    alloc: Global,
    pages: &mut MemoryPages,
    tree: &Tree,
    slot: usize,
) -> Result<(usize, Option<(u64, u8)>), PageFault> {
    let rows = rows_at(alloc, pages, tree, 9, &SHARED)?;
    let above = rising(alloc, slot % 32, &SHARED, &rows)?;
    Ok((above.len(), above.first().copied()))
}

// Whether as many of them are above their byte as should be at slots 3 and 0, the first word before the others.
fn are_rising(alloc: Global, pages: &mut MemoryPages, tree: &Tree) -> bool {
    count_rising(alloc, pages, tree, 3) == Ok((3, Some((1, 9))))
        && count_rising(alloc, pages, tree, 0) == Ok((2, Some((1, 9))))
}

// Whether each two slots of node 9 and an entry share as many words as they should.
fn are_alike(pages: &mut MemoryPages, tree: &Tree) -> bool {
    let mut table = [[0; 33]; 33];
    table[0][0] = 1;
    table[3][3] = 1;
    table[3][32] = 1;
    table[32][3] = 1;
    table[32][32] = 1;
    like(pages, tree, 9, &[(1, 7), (256, 7)]) == Ok(table)
}

// Whether slot 31 of node 7 has one word alone.
fn has_column(alloc: Global, pages: &mut MemoryPages, tree: &Tree) -> bool {
    match column(alloc, pages, tree, 7, 31) {
        Ok(words) => words.len() == 1 && words.first().copied() == Some((256, 4)),
        Err(_) => false,
    }
}

// Whether a node has `count` words, from a first one to a last one.
fn has_words(
    alloc: Global,
    pages: &mut MemoryPages,
    tree: &Tree,
    node: u32,
    count: usize,
    first: (u64, u8),
    last: (u64, u8),
) -> bool {
    match words_of(alloc, pages, tree, node) {
        Ok(words) => {
            words.len() == count
                && words.first().copied() == Some(first)
                && words.last().copied() == Some(last)
        }
        Err(_) => false,
    }
}

// Takes the rows of node 9. Returns whether they are two, the last one that of word 1, and none is left.
fn take_both(alloc: Global, pages: &mut MemoryPages, tree: &mut Tree) -> Result<bool, PageFault> {
    let rows = take_rows(alloc, pages, tree, 9)?;
    let is_last = match rows.last() {
        Some(row) => row.number == 1 && row.bytes == single(3, 8),
        None => false,
    };
    Ok(is_last && rows.len() == 2 && next_row(pages, tree, 9, 0) == Ok(None))
}

#[test]
fn words_and_rows_are_listed_in_order(rt: HostRuntime) {
    let mut pages = MemoryPages::new(rt.alloc(), 8);
    let mut tree = EMPTY;
    assert_eq!(rt; fill(&mut pages, &mut tree), Ok(()));
    assert!(rt; share_one(rt.alloc(), &mut pages, &tree) && are_alike(&mut pages, &tree));
    assert!(rt; are_rising(rt.alloc(), &mut pages, &tree));
    assert!(rt; has_column(rt.alloc(), &mut pages, &tree));
    assert!(rt; has_words(rt.alloc(), &mut pages, &tree, 9, 2, (0, 200), (1, 8)));
    assert_eq!(rt; take_both(rt.alloc(), &mut pages, &mut tree), Ok(true));
}

// Gives node 7 one byte at each of its first 200 words, at the slot of the word's number modulo 32: rows of more than two leaves. Then
// moves slots 0 to 15, which have 104 of the words, to node 11.
fn fill_and_move(alloc: Global, pages: &mut MemoryPages, tree: &mut Tree) -> Result<(), PageFault> {
    for number in 0..200u64 {
        set_row(pages, tree, 7, number, &single((number % 32) as usize, 1))?;
    }
    move_slots(alloc, pages, tree, 7, 0xFFFF, 11)
}

#[test]
fn rows_of_several_leaves_are_gone_through(rt: HostRuntime) {
    let mut pages = MemoryPages::new(rt.alloc(), 32);
    let mut tree = EMPTY;
    assert_eq!(rt; fill_and_move(rt.alloc(), &mut pages, &mut tree), Ok(()));
    assert!(rt; has_words(rt.alloc(), &mut pages, &tree, 7, 96, (16, 1), (191, 1)));
    assert!(rt; has_words(rt.alloc(), &mut pages, &tree, 11, 104, (0, 1), (199, 1)));
}
