use btree_nodes::build;
use page_face::{Damage, MemoryPages, Page, PageFault, Pages, Rule, free_next};
use paged_map::{Layout, PagedMap};

// Rows of 1,020 bytes: a leaf has two to four of them.
pub(crate) struct Wide;

impl Layout for Wide {
    ghost use Rattle.std.specs.Prelude.{refl};
    ghost use Rattle.std.proofs.Common.{lit≤};

    ghost form = { record { key = 255; value = 765; map = 9; some = lit≤ tt; short = lit≤ tt; fits = lit≤ tt } };

    ghost KEY = { 255 };

    const KEY: usize = 255;

    ghost VALUE = { 765 };

    const VALUE: usize = 765;

    ghost MAP = { 9 };

    const MAP: u8 = 9;

    ghost key_is = { refl };

    ghost value_is = { refl };

    ghost map_is = { refl };
}

fn key(last: u8) -> [u8; 255] {
    let mut key = [0; 255];
    key[254] = last;
    key
}

// A leaf of two rows, whose values begin with their keys' last bytes.
fn leaf(first: u8, second: u8) -> Page {
    let mut cells = [0; 2040];
    cells[254] = first;
    cells[255] = first;
    cells[1274] = second;
    cells[1275] = second;
    build(9, 1, 0, 2, &cells)
}

// A root above the leaves 1 and 2.
fn root() -> Page {
    let mut cells = [0; 518];
    cells[258] = 1;
    cells[513] = 6;
    cells[517] = 2;
    build(9, 2, 1, 2, &cells)
}

// Writes a map at page 3 of four rows, in the leaves 1 and 2.
fn write_four(pages: &mut MemoryPages) -> Result<(), PageFault> {
    pages.write(1, &leaf(2, 4))?;
    pages.write(2, &leaf(6, 8))?;
    pages.write(3, &root())
}

// Takes three pages, and writes the map of four rows there.
pub(crate) fn take_four(pages: &mut MemoryPages) -> Result<(), PageFault> {
    for _ in 0..3 {
        pages.take()?;
    }
    write_four(pages)
}

// The leaf that has a key, and the first byte of its value.
fn look_up(pages: &mut MemoryPages, root: u32, last: u8) -> Result<Option<(u32, u8)>, PageFault> {
    let map: PagedMap<Wide> = PagedMap::at(root);
    let mut value = [0; 765];
    Ok(match map.get(pages, &key(last), &mut value)? {
        Some(leaf) => Some((leaf, value[0])),
        None => None,
    })
}

// The leaf, the last byte of the key and the first one of the value of the first row from a key on.
fn first_row(
    pages: &mut MemoryPages,
    root: u32,
    last: u8,
) -> Result<Option<(u32, u8, u8)>, PageFault> {
    let map: PagedMap<Wide> = PagedMap::at(root);
    let mut found = [0; 255];
    let mut value = [0; 765];
    Ok(
        match map.first_from(pages, &key(last), &mut found, &mut value)? {
            Some(leaf) => Some((leaf, found[254], value[0])),
            None => None,
        },
    )
}

// A root, the last byte of a key, what is found at the key, and the first row from the key on.
type LookUp = (u32, u8, Option<(u32, u8)>, Option<(u32, u8, u8)>);

static LOOK_UPS: [LookUp; 8] = [
    (3, 0, None, Some((1, 2, 2))),
    (3, 3, None, Some((1, 4, 4))),
    (3, 4, Some((1, 4)), Some((1, 4, 4))),
    (3, 5, None, Some((2, 6, 6))),
    (3, 6, Some((2, 6)), Some((2, 6, 6))),
    (3, 7, None, Some((2, 8, 8))),
    (3, 9, None, None),
    (0, 4, None, None),
];

#[test]
fn rows_are_found_by_key_and_in_order(rt: HostRuntime) {
    let mut pages = MemoryPages::new(rt.alloc(), 8);
    assert_eq!(rt; take_four(&mut pages), Ok(()));
    for (root, last, found, first) in &LOOK_UPS {
        assert_eq!(rt; look_up(&mut pages, *root, *last), Ok(*found));
        assert_eq!(rt; first_row(&mut pages, *root, *last), Ok(*first));
    }
}

// A byte that is changed: its page, its place there, and the new byte.
pub(crate) type Change = (u32, usize, u8);

// Bytes of the map of four rows that are changed, and the page and the rule that are then named.
struct Broken {
    changes: &'static [Change],
    page: u32,
    rule: Rule,
}

static BROKEN: [Broken; 7] = [
    // the root is of level 255, and the child of itself
    Broken {
        changes: &[(3, 4, 255), (3, 274, 3)],
        page: 3,
        rule: Rule::Level,
    },
    // the child is page 7
    Broken {
        changes: &[(3, 274, 7)],
        page: 7,
        rule: Rule::Link,
    },
    // the keys are 4 and 2
    Broken {
        changes: &[(1, 270, 4), (1, 1290, 2)],
        page: 1,
        rule: Rule::Order,
    },
    // the keys are 2 and 6, as is the first one of leaf 2
    Broken {
        changes: &[(1, 1290, 6)],
        page: 1,
        rule: Rule::Order,
    },
    // an inner page in the place of a leaf
    Broken {
        changes: &[(1, 0, 2)],
        page: 1,
        rule: Rule::Kind,
    },
    // one row
    Broken {
        changes: &[(1, 3, 1)],
        page: 1,
        rule: Rule::Fill,
    },
    // a byte after the rows
    Broken {
        changes: &[(1, 2056, 1)],
        page: 1,
        rule: Rule::Spare,
    },
];

// Writes the map of four rows with these bytes changed.
pub(crate) fn change_four(pages: &mut MemoryPages, changes: &[Change]) -> Result<(), PageFault> {
    write_four(pages)?;
    for (page, at, byte) in changes {
        let mut bytes = pages.read(*page)?;
        if let Some(changed) = bytes.get_mut(*at) {
            *changed = *byte;
        }
        pages.write(*page, &bytes)?;
    }
    Ok(())
}

// Looks up key 2 once these bytes of the map of four rows are changed.
fn look_up_changed(
    pages: &mut MemoryPages,
    changes: &[Change],
) -> Result<Option<(u32, u8)>, PageFault> {
    change_four(pages, changes)?;
    look_up(pages, 3, 2)
}

#[test]
fn a_broken_page_is_named_with_its_rule(rt: HostRuntime) {
    let mut pages = MemoryPages::new(rt.alloc(), 8);
    assert_eq!(rt; take_four(&mut pages), Ok(()));
    for Broken {
        changes,
        page,
        rule,
    } in &BROKEN {
        let damage = Damage {
            page: *page,
            rule: *rule,
        };
        assert_eq!(rt;
            look_up_changed(&mut pages, changes),
            Err(PageFault::Damaged(damage))
        );
    }
}

// What a map is to hold: the first byte of each key's value.
type Model = [Option<u8>; 256];

// Puts 200 rows. Returns whether the keys of all were new.
fn put_all(
    pages: &mut MemoryPages,
    map: &mut PagedMap<Wide>,
    model: &mut Model,
) -> Result<bool, PageFault> {
    let mut value = [0; 765];
    for step in 0..200u16 {
        let last = (step * 37 % 200) as u8;
        value[0] = step as u8;
        model[last as usize] = Some(step as u8);
        if map.put(pages, &key(last), &value)? {
            return Ok(false);
        }
    }
    Ok(true)
}

// Replaces the value of every fifth key below 200 with one that begins with 255. Returns whether all these keys were there.
fn replace_some(
    pages: &mut MemoryPages,
    map: &PagedMap<Wide>,
    model: &mut Model,
) -> Result<bool, PageFault> {
    let mut value = [0; 765];
    for fifth in 0..40u8 {
        let last = fifth * 5;
        let at = key(last);
        let Some(spot) = map.find(pages, &at, &mut value)? else {
            return Ok(false);
        };
        value[0] = 255;
        map.replace(pages, &spot, &at, &value)?;
        model[last as usize] = Some(255);
    }
    Ok(true)
}

// Whether a look-up of each key finds what the model has.
fn is_model(
    pages: &mut MemoryPages,
    map: &PagedMap<Wide>,
    model: &Model,
) -> Result<bool, PageFault> {
    let mut value = [0; 765];
    for last in 0..=255u8 {
        let found = match map.get(pages, &key(last), &mut value)? {
            Some(_) => Some(value[0]),
            None => None,
        };
        if found != model[last as usize] {
            return Ok(false);
        }
    }
    Ok(true)
}

// Takes the 200 rows out in another order. Returns whether each was there, and the map was as the model after each 25 of them.
fn remove_all(
    pages: &mut MemoryPages,
    map: &mut PagedMap<Wide>,
    model: &mut Model,
) -> Result<bool, PageFault> {
    for step in 0..200u16 {
        let last = (step * 71 % 200) as u8;
        model[last as usize] = None;
        if !map.remove(pages, &key(last))? {
            return Ok(false);
        }
        if step % 25 == 24 && !is_model(pages, map, model)? {
            return Ok(false);
        }
    }
    Ok(true)
}

// Whether the free list has every page but page 0.
fn all_are_free(pages: &mut MemoryPages) -> Result<bool, PageFault> {
    let mut next = pages.first_free();
    for _ in 1..pages.counted() {
        if next == 0 {
            return Ok(false);
        }
        let page = pages.read(next)?;
        next = match free_next(&page) {
            Ok(next) => next,
            Err(_) => return Ok(false),
        };
    }
    Ok(next == 0)
}

// The level of a page.
fn level(pages: &mut MemoryPages, page: u32) -> Result<u8, PageFault> {
    Ok(pages.read(page)?[4])
}

#[test]
fn rows_put_are_those_of_a_model(rt: HostRuntime) {
    let mut pages = MemoryPages::new(rt.alloc(), 200);
    let mut map: PagedMap<Wide> = PagedMap::at(0);
    let mut model = [None; 256];
    assert_eq!(rt; put_all(&mut pages, &mut map, &mut model), Ok(true));
    assert_eq!(rt; replace_some(&mut pages, &map, &mut model), Ok(true));
    assert_eq!(rt; is_model(&mut pages, &map, &model), Ok(true));
    assert_eq!(rt; level(&mut pages, map.root()), Ok(2));
}

#[test]
fn rows_removed_in_another_order_leave_a_model_and_at_last_no_page(rt: HostRuntime) {
    let mut pages = MemoryPages::new(rt.alloc(), 200);
    let mut map: PagedMap<Wide> = PagedMap::at(0);
    let mut model = [None; 256];
    assert_eq!(rt; put_all(&mut pages, &mut map, &mut model), Ok(true));
    assert_eq!(rt; remove_all(&mut pages, &mut map, &mut model), Ok(true));
    assert_eq!(rt; map.root(), 0);
    assert_eq!(rt; all_are_free(&mut pages), Ok(true));
    assert_eq!(rt; map.remove(&mut pages, &key(4)), Ok(false));
}

#[test]
fn a_split_without_room_leaves_the_root(rt: HostRuntime) {
    let mut pages = MemoryPages::new(rt.alloc(), 2);
    let mut map: PagedMap<Wide> = PagedMap::at(0);
    let mut model = [None; 256];
    assert_eq!(rt;
        put_all(&mut pages, &mut map, &mut model),
        Err(PageFault::NoRoom)
    );
    assert_eq!(rt; map.root(), 1);
}

// How many rows a leaf has.
fn count(pages: &mut MemoryPages, leaf: u32) -> Result<u8, PageFault> {
    Ok(pages.read(leaf)?[3])
}

// How many rows leaf 1 has, and how many pages are counted, if the root and leaf 2 are as they were written.
fn left_leaf(pages: &mut MemoryPages) -> Result<Option<(u8, u32)>, PageFault> {
    let rows = count(pages, 1)?;
    let same = pages.read(2)? == leaf(6, 8) && pages.read(3)? == root();
    Ok(if same {
        Some((rows, pages.counted()))
    } else {
        None
    })
}

// The key of a row that is put or removed, whether it was there, and the rows of leaf 1 and the pages counted then.
type Step = (u8, bool, Option<(u8, u32)>);

static PUTS: [Step; 5] = [
    (4, true, Some((2, 4))),
    (3, false, Some((3, 4))),
    (5, false, Some((4, 4))),
    (2, true, Some((4, 4))),
    (1, false, None),
];

#[test]
fn a_row_is_put_into_its_leaf_until_that_is_full(rt: HostRuntime) {
    let mut pages = MemoryPages::new(rt.alloc(), 8);
    assert_eq!(rt; take_four(&mut pages), Ok(()));
    let mut map: PagedMap<Wide> = PagedMap::at(3);
    for (last, had, left) in &PUTS {
        assert_eq!(rt; map.put(&mut pages, &key(*last), &[7; 765]), Ok(*had));
        assert_eq!(rt; look_up(&mut pages, 3, *last), Ok(Some((1, 7))));
        assert_eq!(rt; left_leaf(&mut pages), Ok(*left));
    }
    assert_eq!(rt; pages.counted(), 5);
}

static REMOVES: [Step; 3] = [
    (5, false, Some((3, 4))),
    (3, true, Some((2, 4))),
    (4, true, None),
];

#[test]
fn a_row_is_taken_out_of_its_leaf_down_to_the_least_count(rt: HostRuntime) {
    let mut pages = MemoryPages::new(rt.alloc(), 8);
    assert_eq!(rt; take_four(&mut pages), Ok(()));
    let mut map: PagedMap<Wide> = PagedMap::at(3);
    assert_eq!(rt; map.put(&mut pages, &key(3), &[7; 765]), Ok(false));
    for (last, had, left) in &REMOVES {
        assert_eq!(rt; map.remove(&mut pages, &key(*last)), Ok(*had));
        assert_eq!(rt; left_leaf(&mut pages), Ok(*left));
    }
    assert_eq!(rt; count(&mut pages, map.root()), Ok(3));
    assert!(rt; pages.first_free() > 0);
}
