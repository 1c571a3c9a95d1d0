use spatial_base::Rect;
use split_policy::{Halving, Quadratic, SplitPolicy};
use text_policy::WordAware;

// This many degrees, in units of 10^-7 degrees.
fn degrees(count: i32) -> i32 {
    count.saturating_mul(10_000_000)
}

// The rectangle with these sides in degrees: west, south, east and north.
fn sides(of: &[i32; 4]) -> Option<Rect> {
    Rect::new(
        degrees(of[0]),
        degrees(of[1]),
        degrees(of[2]),
        degrees(of[3]),
    )
}

// Entries that are split, in groups of equal entries. The fields are the sides of the first group's entries, the number of entries in a
// group, and each group's degrees east and north of the one before. The last are the masks of the three policies.
type Split = ([i32; 4], usize, i32, i32, [u64; 3]);

static SPLITS: [Split; 6] = [
    // points in a line
    (
        [0, 0, 0, 0],
        1,
        1,
        0,
        [2_863_311_530, 8_589_803_520, 2_863_311_530],
    ),
    (
        [7, 7, 7, 7],
        1,
        0,
        0,
        [2_863_311_530, 8_589_803_520, 2_863_311_530],
    ),
    (
        [0, 0, 0, 0],
        1,
        0,
        -1,
        [2_863_311_530, 65_535, 2_863_311_530],
    ),
    (
        [-16, 16, -16, 16],
        1,
        1,
        -1,
        [8_589_803_520, 8_589_803_520, 4_194_302],
    ),
    // the whole map
    (
        [-180, -90, 180, 90],
        33,
        0,
        0,
        [2_863_311_530, 8_589_803_520, 2_863_311_530],
    ),
    // two corners of it
    (
        [-180, -90, -180, -90],
        17,
        360,
        180,
        [8_589_803_520, 8_589_803_520, 1_073_654_442],
    ),
];

// The rectangle of an entry.
fn rect_of(split: &Split, at: usize) -> Option<Rect> {
    let (first, alike, ..) = split;
    let steps = i32::try_from(at.checked_div(*alike)?).ok()?;
    let east = split.2.saturating_mul(steps);
    let north = split.3.saturating_mul(steps);
    sides(&[
        first[0].saturating_add(east),
        first[1].saturating_add(north),
        first[2].saturating_add(east),
        first[3].saturating_add(north),
    ])
}

// The rectangles of the entries.
fn rects_of(split: &Split) -> Option<[Rect; 33]> {
    let mut rects = [rect_of(split, 0)?; 33];
    for at in 0..33 {
        rects[at] = rect_of(split, at)?;
    }
    Some(rects)
}

// What a policy moves of rectangles whose entries share no word.
fn moved<P: SplitPolicy>(policy: &mut P, rects: &[Rect; 33]) -> u64 {
    policy.split(rects, &[[0; 33]; 33])
}

// Whether the policies move what they should.
fn are_split(quadratic: &mut Quadratic, halving: &mut Halving, words: &mut WordAware) -> bool {
    for split in &SPLITS {
        let Some(rects) = rects_of(split) else {
            return false;
        };
        let masks = [
            moved(quadratic, &rects),
            moved(halving, &rects),
            moved(words, &rects),
        ];
        if masks != split.4 {
            return false;
        }
    }
    true
}

#[test]
fn points_in_a_line_and_the_whole_map_are_split(rt: HostRuntime) {
    let mut quadratic = Quadratic::new();
    let mut halving = Halving::new();
    let mut words = WordAware::new();
    assert!(rt; are_split(&mut quadratic, &mut halving, &mut words));
    assert!(rt; quadratic.splits() == 6 && halving.splits() == 6 && words.splits() == 6);
}

// The used slots; the sides of slots 0 and 1 and of a new point; and the slot it goes into.
type Choice = (u32, [i32; 4], [i32; 4], [i32; 4], u8);

static CHOICES: [Choice; 5] = [
    (3, [0, 0, 10, 10], [20, 0, 20, 0], [12, 5, 12, 5], 0),
    (2, [0, 0, 10, 10], [20, 0, 20, 0], [12, 5, 12, 5], 1),
    (3, [0, 0, 10, 10], [2, 2, 8, 8], [5, 5, 5, 5], 1),
    (3, [2, 2, 8, 8], [2, 2, 8, 8], [5, 5, 5, 5], 0),
    (
        3,
        [-180, -90, 180, 90],
        [-180, -90, -180, -90],
        [180, 90, 180, 90],
        0,
    ),
];

// The slot that a policy chooses.
fn chosen<P: SplitPolicy>(policy: &mut P, choice: &Choice) -> Option<u8> {
    let (used, first, second, add, _) = choice;
    if *used == 0 {
        return None;
    }
    let mut rects = [sides(&[0; 4])?; 32];
    rects[0] = sides(first)?;
    rects[1] = sides(second)?;
    Some(policy.choose(*used, &rects, &sides(add)?, &[0; 32]))
}

#[test]
fn the_slot_that_grows_least_is_chosen(rt: HostRuntime) {
    let mut quadratic = Quadratic::new();
    let mut halving = Halving::new();
    let mut words = WordAware::new();
    for choice in &CHOICES {
        assert_eq!(rt; chosen(&mut quadratic, choice), Some(choice.4));
        assert_eq!(rt; chosen(&mut halving, choice), Some(choice.4));
        assert_eq!(rt; chosen(&mut words, choice), Some(choice.4));
    }
}
