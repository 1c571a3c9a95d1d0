//! Runs over stores that break a rule.
use crate::runs::{ROOM, RUN, bytes_of, number_at, run_on, stored_by};
use disk_model::{Area, MemoryStation};
use irtree_top::{Ended, StoreFault};
use page_face::{Damage, Rule};
use std::alloc::Global;
use std::test::Fail;

// A page of the store: page 0, the root of the places, which is an inner page, or its first leaf. Or it is the root of the words by number,
// of the words by text, of the rows of words or of the tree. The last is the page that the root names if the first byte of that leaf's
// number is 127.
#[derive(Clone, Copy)]
enum Spot {
    Head,
    Root,
    Leaf,
    Numbers,
    Texts,
    Rows,
    Tree,
    Uncounted,
}

// Eight places with two words each. `show` reads a place and its words. An update and a load put another word in their place at the first,
// in the tree too. The other queries read a word's number, the tree and the rows of words, and one by rarity
// how many places have the word.
static STORE: &[u8] =
    b"add p0 1 1 x y\nadd p1 1 1 x y\nadd p2 1 1 x y\nadd p3 1 1 x y\nadd p4 1 1 x y\nadd p5 1 1 x y\nadd p6 1 1 x y\nadd p7 1 1 x y\n";

static ACTIONS: [(&[&str; 2], &[u8]); 7] = [
    (&["-", "run"], b"show p0\n"),
    (&["-", "run"], b"add p0 2 2 z\n"),
    (
        &["-", "load"],
        b"{\"type\":\"Feature\",\"id\":\"p0\",\"geometry\":{\"type\":\"Point\",\"coordinates\":[1,2]},\"properties\":{\"t\":\"z\"}}",
    ),
    (&["-", "run"], b"top 0 0 3 500 1 words x\n"),
    (&["-", "run"], b"group 0 0 words x y\n"),
    (&["-", "run"], b"gather 0 0 words x y\n"),
    (&["-", "run"], b"top 0 0 3 500 1 idf words x\n"),
];

// Which of the actions meet a rule that is broken: those that read places, those that read the tree, those that change both, or none.
const PLACES: [bool; 7] = [true, true, true, false, false, false, false];

const TREE: [bool; 7] = [false, true, true, true, true, true, true];

const CHANGES: [bool; 7] = [false, true, true, false, false, false, false];

const NONE: [bool; 7] = [false; 7];

// The page of a byte, its offset and the byte that breaks a rule, the page and the rule that are named, and which actions meet it.
static BROKEN: [(Spot, u32, u8, Spot, Rule, [bool; 7]); 14] = [
    // The root names a page that isn't counted.
    (Spot::Root, 82, 127, Spot::Uncounted, Rule::Link, PLACES),
    // The leaf is of no kind.
    (Spot::Leaf, 0, 9, Spot::Leaf, Rule::Kind, PLACES),
    // The leaf has no row.
    (Spot::Leaf, 3, 0, Spot::Leaf, Rule::Fill, PLACES),
    // The leaf's first key is `p9`.
    (Spot::Leaf, 18, b'9', Spot::Leaf, Rule::Order, PLACES),
    // A spare byte isn't zero.
    (Spot::Leaf, 5, 1, Spot::Leaf, Rule::Spare, PLACES),
    // The leaf has level 1.
    (Spot::Leaf, 4, 1, Spot::Leaf, Rule::Level, PLACES),
    // The first place is beyond 180 degrees.
    (Spot::Leaf, 82, 127, Spot::Leaf, Rule::Value, PLACES),
    // No action sees this: the root names page 3, its first leaf, twice, and the second time the leaf's keys are below their separator.
    (Spot::Root, 155, 3, Spot::Leaf, Rule::Order, NONE),
    // The first word's number isn't that of its text.
    (Spot::Numbers, 23, 0, Spot::Head, Rule::Words, PLACES),
    // Nor this: nine places live.
    (Spot::Head, 39, 9, Spot::Head, Rule::Counts, NONE),
    // The root of the tree is of no kind.
    (Spot::Tree, 0, 9, Spot::Tree, Rule::Kind, TREE),
    // A spare byte of the root of the tree isn't zero: a node is checked whole before an entry is taken out of it.
    (Spot::Tree, 8, 1, Spot::Tree, Rule::Spare, CHANGES),
    // A spare byte of the rows of words isn't zero.
    (Spot::Rows, 5, 1, Spot::Rows, Rule::Spare, TREE),
    // The words by text have no row.
    (Spot::Texts, 3, 0, Spot::Texts, Rule::Fill, TREE),
];

// The page of a spot.
fn page_of(pages: &[u8], spot: Spot) -> Result<u32, Fail> {
    // The offset at which page 0 names a root: the field of the places' map, or of another one.
    let field = match spot {
        Spot::Head => return Ok(0),
        Spot::Root | Spot::Leaf | Spot::Uncounted => 16,
        Spot::Texts => 20,
        Spot::Numbers => 24,
        Spot::Rows => 28,
        Spot::Tree => 32,
    };
    let root = number_at(pages, 0, field)?;
    match spot {
        Spot::Leaf => number_at(pages, root, 82),
        Spot::Uncounted => Ok(number_at(pages, root, 82)? | 0x7f00_0000),
        _ => Ok(root),
    }
}

// The pages of a store with another byte at an offset of a page.
fn broken(alloc: Global, store: &[u8], page: u32, at: u32, byte: u8) -> Result<Vec<u8>, Fail> {
    let mut pages = store.to_vec(alloc)?;
    if let Some(old) = pages.get_mut(page as usize * 4096 + at as usize) {
        *old = byte;
    }
    Ok(pages)
}

// Whether an action over these pages ends so, and prints and writes nothing if it doesn't end well.
fn ends_so(
    alloc: Global,
    action: &(&[&str; 2], &[u8]),
    pages: &[u8],
    end: Ended,
) -> Result<bool, Fail> {
    let mut station = MemoryStation::with_image(alloc, pages, b"", ROOM)?;
    let (given, input) = (action.0, action.1);
    let ended = run_on(alloc, given, input, 100, &mut station)?;
    if end == Ended::Done {
        return Ok(ended == end);
    }
    let left = bytes_of(alloc, &mut station, Area::Pages, 65_536)?;
    let journal = bytes_of(alloc, &mut station, Area::Journal, 8192)?;
    let is_untouched = left.as_slice() == pages && journal.as_slice() == [0; 8192].as_slice();
    Ok(ended == end && station.said().is_empty() && is_untouched)
}

#[test]
fn a_broken_rule_is_named_and_nothing_is_written(rt: HostRuntime) -> Result<(), Fail> {
    let mut station = stored_by(rt.alloc(), &RUN, STORE)?;
    let store = bytes_of(rt.alloc(), &mut station, Area::Pages, 65_536)?;
    for (row, (spot, at, byte, named, rule, met)) in BROKEN.iter().enumerate() {
        let pages = broken(rt.alloc(), &store, page_of(&store, *spot)?, *at, *byte)?;
        let damage = Damage {
            page: page_of(&store, *named)?,
            rule: *rule,
        };
        for (action, is_met) in ACTIONS.iter().zip(met) {
            let end = if *is_met {
                Ended::Store(StoreFault::Damaged(damage))
            } else {
                Ended::Done
            };
            assert!(rt; ends_so(rt.alloc(), action, &pages, end)?, "row {row}");
        }
    }
    Ok(())
}
