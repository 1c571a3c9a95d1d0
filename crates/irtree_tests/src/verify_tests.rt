//! Checks of whole stores, and of stores that break a rule.
use crate::runs::{LOAD, ROOM, RUN, all_pages, bytes_of, number_at, numbered, run_on, stored_by};
use disk_model::{Area, Disk, MemoryStation};
use irtree_top::{Ended, StoreFault};
use page_face::{Damage, Rule};
use std::alloc::Global;
use std::fmt::Write;
use std::test::Fail;

static VERIFY: [&str; 2] = ["-", "verify"];

// A page of the store of 33 places: page 0, the root of the places, which is an inner page, its first leaf, the leaf of the words by
// number, that of the rows of words, and the root of the tree, which has two leaves. Or the page that the root of the places names if the
// first byte of that leaf's number is 127, the node of the first row of words, or the first page behind those counted.
#[derive(Clone, Copy)]
enum Spot {
    Head,
    Root,
    Leaf,
    Numbers,
    Rows,
    Tree,
    Uncounted,
    Node,
    Behind,
}

// The page of a byte, its offset, the bits of it that are turned over, and which page breaks which rule then.
static BROKEN: [(Spot, u32, u8, Spot, Rule); 18] = [
    // The root names a page that isn't counted.
    (Spot::Root, 82, 127, Spot::Uncounted, Rule::Link),
    // The leaf is of no kind; of another map.
    (Spot::Leaf, 0, 8, Spot::Leaf, Rule::Kind),
    (Spot::Leaf, 1, 1, Spot::Leaf, Rule::Kind),
    // The tree's root is of no kind.
    (Spot::Tree, 0, 8, Spot::Tree, Rule::Kind),
    // The leaf has 128 rows more; the tree's root has no slot.
    (Spot::Leaf, 3, 128, Spot::Leaf, Rule::Fill),
    (Spot::Tree, 7, 3, Spot::Tree, Rule::Fill),
    // The leaf's first key isn't below its second one.
    (Spot::Leaf, 17, 2, Spot::Leaf, Rule::Order),
    // A spare byte isn't zero.
    (Spot::Leaf, 5, 1, Spot::Leaf, Rule::Spare),
    (Spot::Tree, 8, 1, Spot::Tree, Rule::Spare),
    // The leaf has level 1.
    (Spot::Leaf, 4, 1, Spot::Leaf, Rule::Level),
    // The first place is beyond 180 degrees.
    (Spot::Leaf, 82, 127, Spot::Leaf, Rule::Value),
    // Page 0 counts one page more, which nothing uses.
    (Spot::Head, 11, 0, Spot::Behind, Rule::Shared),
    // The first rectangle of the tree's root reaches one unit too far or not far enough.
    (Spot::Tree, 27, 1, Spot::Tree, Rule::Rect),
    // The first row's first byte is one too high or too low.
    (Spot::Rows, 28, 1, Spot::Node, Rule::Row),
    // The first place is one unit beside its entry.
    (Spot::Leaf, 85, 1, Spot::Head, Rule::Entry),
    // One place more or less holds the word.
    (Spot::Numbers, 60, 1, Spot::Head, Rule::Words),
    // The next number of a word is that of the word.
    (Spot::Head, 63, 3, Spot::Head, Rule::Words),
    // Another number of places lives.
    (Spot::Head, 39, 2, Spot::Head, Rule::Counts),
];

// The page of a spot.
fn page_of(pages: &[u8], spot: Spot) -> Result<u32, Fail> {
    let root = number_at(pages, 0, 16)?;
    match spot {
        Spot::Head => Ok(0),
        Spot::Root => Ok(root),
        Spot::Leaf => number_at(pages, root, 82),
        Spot::Numbers => number_at(pages, 0, 24),
        Spot::Rows => number_at(pages, 0, 28),
        Spot::Tree => number_at(pages, 0, 32),
        Spot::Uncounted => Ok(number_at(pages, root, 82)? | 0x7f00_0000),
        Spot::Node => number_at(pages, number_at(pages, 0, 28)?, 16),
        Spot::Behind => number_at(pages, 0, 8),
    }
}

// The pages of the store of 33 places, one of them beyond the first leaf of the tree.
fn store_of_33(alloc: Global) -> Result<Vec<u8>, Fail> {
    let script = numbered(alloc, 33, "add t# 0.# 0 x\n")?;
    let mut station = stored_by(alloc, &RUN, script.as_bytes())?;
    all_pages(alloc, &mut station)
}

// Turns over bits of a byte of a page.
fn turn(pages: &mut [u8], page: u32, at: u32, bits: u8) {
    if let Some(byte) = pages.get_mut(page as usize * 4096 + at as usize) {
        *byte ^= bits;
    }
}

// Whether a check of these pages ends so, prints this, and leaves them as they were.
fn checks_so(alloc: Global, pages: &[u8], end: Ended, said: &[u8]) -> Result<bool, Fail> {
    let mut station = MemoryStation::with_image(alloc, pages, b"", ROOM)?;
    let ended = run_on(alloc, &VERIFY, b"", 1, &mut station)?;
    let is_so = ended == end && station.said() == said;
    let Ok(len) = u32::try_from(pages.len()) else {
        return Err("more bytes than a store here has".into());
    };
    let left = bytes_of(alloc, &mut station, Area::Pages, len)?;
    Ok(is_so && left.as_slice() == pages)
}

// Whether a check of these pages says that a page breaks a rule.
fn is_broken(alloc: Global, pages: &[u8], page: u32, rule: Rule) -> Result<bool, Fail> {
    let mut line = String::new(alloc);
    writeln!(line, "broken {} {}", page, rule as u8)?;
    let end = Ended::Store(StoreFault::Damaged(Damage { page, rule }));
    checks_so(alloc, pages, end, line.as_bytes())
}

fn is_whole<D: Disk>(alloc: Global, disk: &mut D) -> Result<bool, Fail> {
    let pages = all_pages(alloc, disk)?;
    checks_so(alloc, &pages, Ended::Done, b"whole\n")
}

#[test]
fn what_the_program_stores_is_whole(rt: HostRuntime) -> Result<(), Fail> {
    let alloc = rt.alloc();
    assert!(rt; checks_so(alloc, b"", Ended::Done, b"whole\n")?);
    assert!(rt; checks_so(alloc, &[0; 4096], Ended::Done, b"whole\n")?);
    let adds = numbered(
        alloc,
        60,
        "add k# 0.# 1 # word bar\nadd auto# -0.# 2 café #\n",
    )?;
    let mut station = stored_by(alloc, &RUN, adds.as_bytes())?;
    assert!(rt; is_whole(alloc, &mut station)?);
    let removes = numbered(alloc, 50, "remove k#\nadd auto# 1 1 other #\n")?;
    run_on(alloc, &RUN, removes.as_bytes(), 100, &mut station)?;
    assert!(rt; is_whole(alloc, &mut station)?);
    let load =
        br#"{"type":"Feature","geometry":{"type":"Point","coordinates":[1,2]},"properties":{"t":"z"}}"#;
    run_on(alloc, &LOAD, load, 100, &mut station)?;
    assert!(rt; is_whole(alloc, &mut station)?);
    Ok(())
}

#[test]
fn each_broken_rule_is_named_at_its_page(rt: HostRuntime) -> Result<(), Fail> {
    let alloc = rt.alloc();
    let mut pages = store_of_33(alloc)?;
    assert!(rt; checks_so(alloc, &pages, Ended::Done, b"whole\n")?);
    for (row, (spot, at, bits, named, rule)) in BROKEN.iter().enumerate() {
        let page = page_of(&pages, *spot)?;
        let broken = page_of(&pages, *named)?;
        // Page 0 is to count one page more.
        let bits = if *rule == Rule::Shared {
            let Ok(changed) = u8::try_from(broken ^ broken.wrapping_add(1)) else {
                return Err("more than one byte of the number changes".into());
            };
            changed
        } else {
            *bits
        };
        turn(&mut pages, page, *at, bits);
        assert!(rt; is_broken(alloc, &pages, broken, *rule)?, "row {row}");
        turn(&mut pages, page, *at, bits);
    }
    Ok(())
}

#[test]
fn a_page_that_is_used_twice_is_named(rt: HostRuntime) -> Result<(), Fail> {
    let alloc = rt.alloc();
    let mut pages = store_of_33(alloc)?;
    let root = page_of(&pages, Spot::Root)?;
    let first = page_of(&pages, Spot::Leaf)?;
    let second = number_at(&pages, root, 152)?;
    // The root of the places names its first leaf twice.
    for (at, bits) in (152..156).zip((first ^ second).to_be_bytes()) {
        turn(&mut pages, root, at, bits);
    }
    assert!(rt; is_broken(alloc, &pages, first, Rule::Shared)?);
    Ok(())
}

#[test]
fn a_number_of_pages_that_is_too_high_costs_nothing(rt: HostRuntime) -> Result<(), Fail> {
    let alloc = rt.alloc();
    let mut pages = store_of_33(alloc)?;
    let behind = page_of(&pages, Spot::Behind)?;
    // Page 0 counts 4,294,967,295 pages.
    for (at, bits) in (8..12).zip((!behind).to_be_bytes()) {
        turn(&mut pages, 0, at, bits);
    }
    assert!(rt; is_broken(alloc, &pages, behind, Rule::Shared)?);
    Ok(())
}

#[test]
fn a_file_that_is_no_store_is_refused_as_by_every_run(rt: HostRuntime) -> Result<(), Fail> {
    let alloc = rt.alloc();
    let mut pages = store_of_33(alloc)?;
    let not_a_store = Ended::Store(StoreFault::NotAStore);
    assert!(rt; checks_so(alloc, b"SQLite format 3\0", not_a_store, b"")?);
    assert!(rt; checks_so(alloc, b"{\"type\":\"FeatureCollection\"}", not_a_store, b"")?);
    // A cut store: page 0 counts pages that are gone.
    let tree = page_of(&pages, Spot::Tree)?;
    let head = pages.get(..4096).ok_or("no page 0")?;
    assert!(rt; is_broken(alloc, head, tree, Rule::Kind)?);
    // A spare byte of page 0 isn't zero.
    turn(&mut pages, 0, 64, 1);
    let damage = Damage {
        page: 0,
        rule: Rule::Head,
    };
    assert!(rt;
        checks_so(
            alloc,
            &pages,
            Ended::Store(StoreFault::Damaged(damage)),
            b""
        )?
    );
    Ok(())
}

// How many changes of a byte's lowest bit leave the store whole, by docs/FORMAT.md: `tools/store_check.py --lowest-bits` counts them.
const HARMLESS: u32 = 20;

#[test]
fn no_change_of_a_byte_is_passed_over(rt: HostRuntime) -> Result<(), Fail> {
    let alloc = rt.alloc();
    let script =
        b"add a 1 2 caf\xc3\xa9 bar\nadd b 3 4 bar\nadd c 5 6 pub bar\nadd d 7 8\nremove c\n";
    let mut station = stored_by(alloc, &RUN, script)?;
    let mut pages = all_pages(alloc, &mut station)?;
    let counted = number_at(&pages, 0, 8)?;
    let mut harmless = 0_u32;
    for page in 0..counted {
        for at in 0..4096 {
            turn(&mut pages, page, at, 1);
            let mut station = MemoryStation::with_image(alloc, &pages, b"", ROOM)?;
            if run_on(alloc, &VERIFY, b"", 1, &mut station)? == Ended::Done {
                harmless = harmless.saturating_add(1);
            }
            turn(&mut pages, page, at, 1);
        }
    }
    assert_eq!(rt; harmless, HARMLESS);
    Ok(())
}
