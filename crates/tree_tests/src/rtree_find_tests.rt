ghost use Rattle.std.specs.Prelude.{◌<◌};

use page_face::{Damage, MemoryPages, Page, PageFault, Pages, Rule};
use rtree_nodes::{Slot, find, new_node, put_slot};
use spatial_base::{Key, Point, Rect};
use std::test::Fail;

// Puts a place with an automatic key into a leaf.
fn put_place(page: &mut Page, at: usize, x: i32, y: i32, serial: u64)
    requires { at < 32 }
{
    if let Some(point) = Point::new(x, y) {
        put_slot(
            page,
            at,
            &Slot::Place {
                point,
                key: Key::auto(serial),
            },
        );
    }
}

// Puts a child with a rectangle from 0 0 to a corner into an inner node.
fn put_child(page: &mut Page, at: usize, east: i32, north: i32, child: u32)
    requires { at < 32 }
{
    if let Some(rect) = Rect::new(0, 0, east, north) {
        put_slot(page, at, &Slot::Child { rect, page: child });
    }
}

// Takes the pages 1, 2 and 3.
fn take_three(pages: &mut MemoryPages) -> Result<(), PageFault> {
    for _ in 0..3 {
        pages.take()?;
    }
    Ok(())
}

// Searches for a place, and returns the root's level and the slots at level 1 and 0.
fn look_for(
    pages: &mut MemoryPages,
    root: u32,
    x: i32,
    y: i32,
    serial: u64,
) -> Result<Option<(u8, u8, u8)>, PageFault> {
    let mut path = [0; 10];
    let Some(point) = Point::new(x, y) else {
        return Ok(None);
    };
    match find(pages, root, &point, &Key::auto(serial), &mut path)? {
        Some(level) => Ok(Some((level, path[1], path[0]))),
        None => Ok(None),
    }
}

// A place of the tree: its leaf, its slot, its longitude and latitude, and its key.
static PLACES: [(u32, usize, i32, i32, u64); 4] = [
    (1, 0, 5, 5, 1),
    (1, 31, 9, 9, 2),
    (2, 4, 5, 5, 3),
    (2, 6, 8, 0, 4),
];

// Writes a leaf.
fn write_leaf(pages: &mut MemoryPages, number: u32) -> Result<(), PageFault> {
    let mut leaf = new_node(0);
    for (of, at, x, y, serial) in &PLACES {
        if *of == number && *at < 32 {
            put_place(&mut leaf, *at, *x, *y, *serial);
        }
    }
    pages.write(number, &leaf)
}

// Leaves at pages 1 and 2, whose rectangles overlap, below a root at page 3.
fn write_tree(pages: &mut MemoryPages) -> Result<(), PageFault> {
    take_three(pages)?;
    write_leaf(pages, 1)?;
    write_leaf(pages, 2)?;
    let mut root = new_node(1);
    put_child(&mut root, 2, 9, 9, 1);
    put_child(&mut root, 31, 8, 5, 2);
    pages.write(3, &root)
}

#[test]
fn an_entry_is_found_by_its_point_and_its_key(rt: HostRuntime) -> Result<(), Fail> {
    let mut pages = MemoryPages::new(rt.alloc(), 9);
    assert_eq!(rt; write_tree(&mut pages), Ok(()));
    for (root, x, y, serial, found) in [
        (3, 5, 5, 1, Some((1, 2, 0))),
        (3, 9, 9, 2, Some((1, 2, 31))),
        (3, 5, 5, 3, Some((1, 31, 4))),
        (3, 8, 0, 4, Some((1, 31, 6))),
        (3, 5, 5, 4, None),
        (3, 8, 1, 4, None),
        (3, -1, 5, 1, None),
        (2, 5, 5, 3, Some((0, 0, 4))),
        (0, 5, 5, 1, None),
    ] {
        assert_eq!(rt; look_for(&mut pages, root, x, y, serial), Ok(found));
    }
    Ok(())
}

// A page, bytes of it that are changed, and the page and the rule that are then named. The root at page 3 has one child: the leaf at
// page 1.
static BROKEN: [(u32, &[(usize, u8)], Option<(u32, Rule)>); 8] = [
    (1, &[], None),
    (3, &[(27, 255)], None),
    // a leaf of another kind, without a slot, and one that is no leaf
    (1, &[(0, 4)], Some((1, Rule::Kind))),
    (1, &[(7, 0)], Some((1, Rule::Fill))),
    (1, &[(1, 1)], Some((1, Rule::Level))),
    // a root above level 9, one whose slot has no rectangle, and one whose child isn't counted
    (3, &[(1, 10)], Some((3, Rule::Level))),
    (3, &[(27, 255), (24, 255)], Some((3, Rule::Value))),
    (3, &[(35, 4)], Some((4, Rule::Link))),
];

// Changes bytes of a page.
fn change(pages: &mut MemoryPages, number: u32, bytes: &[(usize, u8)]) -> Result<(), PageFault> {
    let mut page = pages.read(number)?;
    for &(at, byte) in bytes {
        if at < page.len() {
            page[at] = byte;
        }
    }
    pages.write(number, &page)
}

// Searches for a place in a root at page 3 with one child, at page 1, after bytes of one of them were changed.
fn look_in(
    pages: &mut MemoryPages,
    number: u32,
    bytes: &[(usize, u8)],
) -> Result<Option<(u8, u8, u8)>, PageFault> {
    let mut leaf = new_node(0);
    put_place(&mut leaf, 0, 5, 5, 1);
    let mut root = new_node(1);
    put_child(&mut root, 0, 9, 9, 1);
    pages.write(1, &leaf)?;
    pages.write(3, &root)?;
    change(pages, number, bytes)?;
    look_for(pages, 3, 5, 5, 1)
}

// The answer to that search.
fn answer_of(broken: &Option<(u32, Rule)>) -> Result<Option<(u8, u8, u8)>, PageFault> {
    match broken {
        Some((page, rule)) => Err(PageFault::Damaged(Damage {
            page: *page,
            rule: *rule,
        })),
        None => Ok(Some((1, 0, 0))),
    }
}

#[test]
fn a_broken_page_is_named_with_its_rule(rt: HostRuntime) {
    let mut pages = MemoryPages::new(rt.alloc(), 9);
    assert_eq!(rt; take_three(&mut pages), Ok(()));
    for (number, bytes, broken) in &BROKEN {
        assert_eq!(rt; look_in(&mut pages, *number, bytes), answer_of(broken));
    }
}
