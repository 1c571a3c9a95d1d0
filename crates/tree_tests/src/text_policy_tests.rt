use spatial_base::Rect;
use split_policy::SplitPolicy;
use text_policy::WordAware;

// This many degrees, in units of 10^-7 degrees.
fn degrees(count: i32) -> i32 {
    count.saturating_mul(10_000_000)
}

// The rectangle of the point so many degrees east and north.
fn point(count: i32) -> Option<Rect> {
    let at = degrees(count);
    Rect::new(at, at, at, at)
}

// Entries that are split: one number is shared within the entries below the first bound, one within those from there on, and one
// across. Each entry is so many degrees east and north of the one before. The last is the mask of those that move.
type Split = (usize, u32, u32, u32, i32, u64);

static SPLITS: [Split; 7] = [
    // no words, one point
    (33, 0, 0, 0, 0, 2_863_311_530),
    // two kinds of words
    (16, 1, 1, 0, 0, 8_589_869_056),
    (17, 1, 1, 0, 0, 8_589_803_520),
    // the kinds decide before the areas do
    (16, 1, 1, 0, 2, 8_589_869_056),
    // a kind of few entries is filled up by the last
    (5, 9, 9, 1, 0, 67_108_832),
    (30, 9, 9, 1, 0, 8_587_837_440),
    // as many words everywhere: the nearer group, until the other one needs the rest
    (33, 7, 0, 0, 1, 4_194_302),
];

// How many words two entries share.
fn shared_by(split: &Split, entry: usize, other: usize) -> u32 {
    match (entry < split.0, other < split.0) {
        (true, true) => split.1,
        (false, false) => split.2,
        _ => split.3,
    }
}

// What the policy moves, or `None` if the entries aren't on the map.
fn moved(policy: &mut WordAware, split: &Split) -> Option<u64> {
    let mut rects = [point(0)?; 33];
    let mut like = [[0; 33]; 33];
    for at in 0..33 {
        let steps = i32::try_from(at).ok()?;
        rects[at] = point(split.4.saturating_mul(steps))?;
        for other in 0..33 {
            like[at][other] = shared_by(split, at, other);
        }
    }
    Some(policy.split(&rects, &like))
}

#[test]
fn entries_with_the_same_words_stay_together(rt: HostRuntime) {
    let mut policy = WordAware::new();
    for (row, split) in SPLITS.iter().enumerate() {
        assert_eq!(rt; moved(&mut policy, split), Some(split.5), "row {row}");
    }
    assert!(rt; policy.splits() == 7);
}

// The used slots, the words that slots 0, 1 and 31 share with a point 12 degrees east and north, and the slot it goes into. Slot 0 is the
// point at 0 degrees, slot 1 that at 10, and slot 31 that at 20.
type Choice = (u32, [u32; 3], u8);

static CHOICES: [Choice; 8] = [
    (2_147_483_651, [0, 0, 0], 1),
    (2_147_483_651, [1, 0, 1], 31),
    (2_147_483_651, [1, 0, 0], 0),
    (2_147_483_651, [0, 1, 2], 31),
    (2_147_483_651, [4_294_967_295, 1, 2], 0),
    (2_147_483_650, [9, 1, 1], 1),
    (2_147_483_648, [9, 9, 0], 31),
    (1, [0, 9, 9], 0),
];

// The slot that the policy chooses, or `None` if no slot is used.
fn chosen(policy: &mut WordAware, choice: &Choice) -> Option<u8> {
    let (used, words, _) = choice;
    if *used == 0 {
        return None;
    }
    let mut rects = [point(0)?; 32];
    rects[1] = point(10)?;
    rects[31] = point(20)?;
    let mut shared = [0; 32];
    shared[0] = words[0];
    shared[1] = words[1];
    shared[31] = words[2];
    Some(policy.choose(*used, &rects, &point(12)?, &shared))
}

#[test]
fn an_entry_goes_where_the_most_of_its_words_are(rt: HostRuntime) {
    let mut policy = WordAware::new();
    for (row, choice) in CHOICES.iter().enumerate() {
        assert_eq!(rt; chosen(&mut policy, choice), Some(choice.2), "row {row}");
    }
}
