use spatial_base::{Key, Origin, Point, Rect, dist, isqrt};
use std::test::Fail;

// Longitude and latitude of two points, the scale of longitudes, and the distance between the points.
static DISTANCES: [(i32, i32, i32, i32, u16, u64); 13] = [
    (0, 0, 30_000_000, 40_000_000, 1000, 50_000_000),
    (0, 0, 30_000_000, 40_000_000, 500, 42_720_018),
    (0, 0, 30_000_000, 40_000_000, 0, 40_000_000),
    (5, 5, 5, 5, 1000, 0),
    (0, 0, 1, 1, 1000, 1),
    (0, 0, -2, 2, 1000, 2),
    (0, 0, 3, 0, 500, 1),
    // The 180th meridian is one line, and the shorter way goes across it.
    (1_800_000_000, 0, -1_800_000_000, 0, 1000, 0),
    (1_799_000_000, 0, -1_799_000_000, 0, 1000, 2_000_000),
    (1_799_000_000, 0, -1_799_000_000, 0, 250, 500_000),
    (0, 0, 1_800_000_000, 0, 1000, 1_800_000_000),
    (-900_000_001, 0, 900_000_000, 0, 1000, 1_799_999_999),
    // The greatest distance.
    (
        0,
        -900_000_000,
        -1_800_000_000,
        900_000_000,
        1000,
        2_545_584_412,
    ),
];

// The distance between two points, or `None` if one is off the map or the scale is above 1000.
fn distance(west: i32, south: i32, east: i32, north: i32, scale: u16) -> Option<u64> {
    let from = Origin::new(Point::new(west, south)?, scale)?;
    let to = Point::new(east, north)?;
    Some(dist(&from.point(), &to, from.scale()))
}

#[test]
fn a_distance_goes_the_shorter_way_and_is_rounded_down(rt: HostRuntime) {
    for &(west, south, east, north, scale, wanted) in &DISTANCES {
        assert!(rt;
            distance(west, south, east, north, scale) == Some(wanted),
            "{wanted}"
        );
    }
    assert!(rt; distance(0, 0, 0, 0, 1001).is_none());
    assert!(rt; isqrt(u128::MAX) == u64::MAX);
}

// West, south, east and north; a point and a scale; whether the rectangle holds the point; and its distance to the nearest point of the
// rectangle.
static RECTANGLES: [(i32, i32, i32, i32, i32, i32, u16, bool, u64); 10] = [
    (-1, -1, 1, 1, 0, 0, 1000, true, 0),
    (-1, -1, 1, 1, 1, -1, 1000, true, 0),
    (-1, -1, 1, 1, 2, 0, 1000, false, 1),
    (0, 0, 10, 10, 13, 14, 1000, false, 5),
    (0, 0, 10, 10, -3, 5, 1000, false, 3),
    (7, 7, 7, 7, 4, 3, 1000, false, 5),
    (0, 0, 10, 10, 16, 14, 500, false, 5),
    (0, 0, 10, 10, 1_000_000_000, 14, 0, false, 4),
    // The west border is nearer across the 180th meridian, and so is the east border.
    (-1_799_999_990, 0, 0, 10, 1_799_999_995, 5, 1000, false, 15),
    (0, 0, 1_799_999_990, 10, -1_799_999_995, 5, 1000, false, 15),
];

// Whether a rectangle holds a point, and the distance to its nearest point with a scale.
fn seen_from(rect: Option<Rect>, x: i32, y: i32, scale: u16) -> Option<(bool, u64)> {
    let (rect, p) = (rect?, Point::new(x, y)?);
    Some((rect.holds(&p), Origin::new(p, scale)?.mindist(&rect)))
}

#[test]
fn a_border_is_held_and_the_nearest_point_counts(rt: HostRuntime) {
    for &(west, south, east, north, x, y, scale, held, least) in &RECTANGLES {
        let rect = Rect::new(west, south, east, north);
        assert!(rt;
            seen_from(rect, x, y, scale) == Some((held, least)),
            "{x} {y}"
        );
    }
    assert!(rt; Rect::new(1, 0, -1, 0).is_none());
}

// The rectangle around two corners of the map.
fn world() -> Option<Rect> {
    let west = Point::new(-1_800_000_000, 900_000_000)?;
    let east = Point::new(1_800_000_000, -900_000_000)?;
    Some(Rect::of(&west).join(&Rect::of(&east)))
}

#[test]
fn a_rectangle_has_its_sides_and_its_area(rt: HostRuntime) -> Result<(), Fail> {
    let world = world().ok_or("no rectangle")?;
    assert!(rt; world.west() == -1_800_000_000 && world.south() == -900_000_000);
    assert!(rt; world.east() == 1_800_000_000 && world.north() == 900_000_000);
    assert!(rt; world.area() == 6_480_000_000_000_000_000);
    Ok(())
}

// Texts, in the order of their keys.
static TEXTS: [&str; 5] = ["A", "a", "a\0", "ab", "é"];

// Whether the key of `text` comes before that of `other`, and the key of `other` before an automatic one.
fn is_before(text: &str, other: &str) -> bool {
    match (Key::of_text(text), Key::of_text(other)) {
        (Ok(key), Ok(other)) => key < other && other < Key::auto(2),
        _ => false,
    }
}

#[test]
fn keys_come_in_their_order(rt: HostRuntime) {
    for pair in TEXTS.windows(2) {
        assert!(rt; is_before(pair[0], pair[1]));
    }
    let key = Key::auto(2);
    assert!(rt; key < Key::auto(256));
    assert!(rt; Key::of_bytes(&key.bytes()) == Some(key) && key.serial() == Some(2));
}

#[test]
fn bytes_that_are_no_key_are_refused(rt: HostRuntime) -> Result<(), Fail> {
    let form = Key::of_text("ab")?.bytes();
    for (at, byte) in [(0, 2), (0, 1), (1, 255), (3, 7), (65, 0), (65, 65), (65, 1)] {
        let mut broken = form;
        broken[at] = byte;
        assert!(rt; Key::of_bytes(&broken).is_none());
    }
    Ok(())
}
