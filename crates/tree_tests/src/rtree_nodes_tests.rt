//! Pages whose bytes were worked out by hand from the format.
use page_face::Page;
use rtree_nodes::{
    Node, Slot, bounds, child_at, clear_slot, count, free_slot, new_node, put_slot, slot_at,
    split_off,
};
use spatial_base::{Key, Point, Rect};

// The bytes that aren't 0 of a leaf with two places. Slot 0 has 1 degree west and 50 degrees north, and the key "ab". Slot 2 has the
// point 1 -1 in units of 10^-7 degrees, and the automatic key 258.
static LEAF: [(usize, u8); 21] = [
    (0, 3),
    (7, 5),
    (16, 0xff),
    (17, 0x67),
    (18, 0x69),
    (19, 0x80),
    (20, 0x1d),
    (21, 0xcd),
    (22, 0x65),
    (25, 0x61),
    (26, 0x62),
    (89, 2),
    (167, 1),
    (168, 0xff),
    (169, 0xff),
    (170, 0xff),
    (171, 0xff),
    (172, 1),
    (179, 1),
    (180, 2),
    (237, 8),
];

// The bytes that aren't 0 of a node of level 2 with two children. Slot 0 has the rectangle -1 -2 1 2 and page 258. Slot 31 has the
// rectangle 0x01020304 5 0x01020305 6 and page 0x0a0b0c0d.
static INNER: [(usize, u8); 30] = [
    (0, 3),
    (1, 2),
    (4, 0x80),
    (7, 1),
    (16, 0xff),
    (17, 0xff),
    (18, 0xff),
    (19, 0xff),
    (20, 0xff),
    (21, 0xff),
    (22, 0xff),
    (23, 0xfe),
    (27, 1),
    (31, 2),
    (34, 1),
    (35, 2),
    (636, 1),
    (637, 2),
    (638, 3),
    (639, 4),
    (643, 5),
    (644, 1),
    (645, 2),
    (646, 3),
    (647, 5),
    (651, 6),
    (652, 10),
    (653, 11),
    (654, 12),
    (655, 13),
];

// Two bytes of a page that are changed, and the number of the rule that is then broken: 3 Kind, 4 Fill, 6 Spare, 8 Value. If
// several are, it is the first in the order of the checks.
type Broken = (usize, u8, usize, u8, u8);

// Changes of the leaf.
static BROKEN_LEAF: [Broken; 8] = [
    // another kind, and no slot
    (0, 4, 7, 0, 3),
    // no slot, and a spare byte
    (7, 0, 2, 1, 4),
    // a spare byte, and a point off the map
    (3, 1, 16, 0x80, 6),
    // the last byte before the slots
    (15, 1, 15, 1, 6),
    // a byte of slot 1, which isn't used
    (90, 1, 90, 1, 6),
    // the first byte after slot 31
    (2384, 1, 2384, 1, 6),
    // a longitude of more than 180 degrees west
    (16, 0x80, 16, 0x80, 8),
    // a text of no byte
    (89, 0, 89, 0, 8),
];

// Changes of the inner node.
static BROKEN_INNER: [Broken; 4] = [
    // a byte of slot 30, which isn't used, and a rectangle that is none
    (616, 1, 647, 3, 6),
    // the first byte after slot 31
    (656, 1, 656, 1, 6),
    // the east of slot 31 is less than its west
    (647, 3, 647, 3, 8),
    // a latitude of more than 90 degrees
    (648, 0x7f, 648, 0x7f, 8),
];

fn page_of(bytes: &[(usize, u8)]) -> Page {
    changed([0; 4096], bytes)
}

fn changed(mut page: Page, bytes: &[(usize, u8)]) -> Page {
    for &(at, byte) in bytes {
        if at < page.len() {
            page[at] = byte;
        }
    }
    page
}

// Whether a leaf's first and third slot are read as these, and it is written with the same bytes again.
fn reads(page: &Page, first: &Slot, third: &Slot) -> bool {
    match Node::decode(page) {
        Ok(node) => {
            node.slots.slot(0) == *first
                && node.slots.slot(2) == *third
                && node.encode().as_slice() == page.as_slice()
        }
        Err(_) => false,
    }
}

// Whether two places make the leaf, and are read from it again.
fn makes_leaf() -> Option<bool> {
    let west = Slot::Place {
        point: Point::new(-10_000_000, 500_000_000)?,
        key: Key::of_text("ab").ok()?,
    };
    let near = Slot::Place {
        point: Point::new(1, -1)?,
        key: Key::auto(258),
    };
    let mut page = new_node(0);
    put_slot(&mut page, 2, &near);
    put_slot(&mut page, 0, &west);
    Some(
        page.as_slice() == page_of(&LEAF).as_slice()
            && reads(&page, &west, &near)
            && free_slot(&page) == Some(1)
            && count(&page) == 2,
    )
}

// Whether two children make the inner node, and are read from it again.
fn makes_inner() -> Option<bool> {
    let first = Slot::Child {
        rect: Rect::new(-1, -2, 1, 2)?,
        page: 258,
    };
    let last = Slot::Child {
        rect: Rect::new(0x0102_0304, 5, 0x0102_0305, 6)?,
        page: 0x0a0b_0c0d,
    };
    let all = Rect::new(-1, -2, 0x0102_0305, 6)?;
    let mut page = new_node(2);
    put_slot(&mut page, 31, &last);
    put_slot(&mut page, 0, &first);
    Some(
        page.as_slice() == page_of(&INNER).as_slice()
            && child_at(&page, 31) == 0x0a0b_0c0d
            && slot_at(&page, 0) == Ok(Some(first))
            && slot_at(&page, 1) == Ok(None)
            && bounds(&page) == Ok(all),
    )
}

#[test]
fn a_leaf_and_an_inner_node_are_these_bytes(rt: HostRuntime) {
    assert_eq!(rt; makes_leaf(), Some(true));
    assert_eq!(rt; makes_inner(), Some(true));
}

// The number of the rule for which a page is refused.
fn broken_rule(page: &Page) -> Option<u8> {
    match Node::decode(page) {
        Ok(_) => None,
        Err(rule) => Some(rule as u8),
    }
}

// Whether a page is refused as it should be for each two of its bytes that are changed.
fn are_refused(page: &Page, broken: &[Broken]) -> bool {
    for &(first, byte, second, other, number) in broken {
        let page = changed(*page, &[(first, byte), (second, other)]);
        if broken_rule(&page) != Some(number) {
            return false;
        }
    }
    true
}

#[test]
fn the_first_broken_rule_is_named(rt: HostRuntime) {
    assert!(rt; are_refused(&page_of(&LEAF), &BROKEN_LEAF));
    assert!(rt; are_refused(&page_of(&INNER), &BROKEN_INNER));
}

// A leaf whose places lie at two corners of the map in turn.
fn full_leaf() -> Option<Page> {
    let corners = [
        Point::new(-1_800_000_000, -900_000_000)?,
        Point::new(1_800_000_000, 900_000_000)?,
    ];
    let mut page = new_node(0);
    for i in 0..32 {
        let slot = Slot::Place {
            point: corners[i % 2],
            key: Key::auto(u64::MAX - i as u64),
        };
        put_slot(&mut page, i, &slot);
    }
    Some(page)
}

// Whether the places in the last 16 slots move out of a full leaf, and those in the first are cleared away.
fn is_parted(page: &mut Page) -> bool {
    let other = split_off(page, 0xffff_0000);
    let counts = (count(page), count(&other));
    for i in 0..16 {
        clear_slot(page, i);
    }
    counts == (16, 16) && page.as_slice() == new_node(0).as_slice()
}

// Whether a full leaf has no free slot, has the whole map as its rectangle, and is parted.
fn is_full_and_parted() -> Option<bool> {
    let mut page = full_leaf()?;
    let all = Rect::new(-1_800_000_000, -900_000_000, 1_800_000_000, 900_000_000)?;
    Some(
        Node::decode(&page).is_ok()
            && bounds(&page) == Ok(all)
            && free_slot(&page).is_none()
            && is_parted(&mut page),
    )
}

#[test]
fn a_full_leaf_at_the_ends_of_the_map_is_parted(rt: HostRuntime) {
    assert_eq!(rt; is_full_and_parted(), Some(true));
}
