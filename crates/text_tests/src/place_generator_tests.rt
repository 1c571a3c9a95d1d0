//! The first places of some seeds, computed by another program from the generator's definition.
use place_generator::{Made, Maker};
use spatial_base::{Memory, Point};
use std::alloc::Global;
use std::test::Fail;

// A place: its seed, its number, its point in units of 10^-7 degrees, its key, its text and the number of its word of kind `a`.
struct Expected {
    seed: u64,
    number: u32,
    x: i32,
    y: i32,
    key: &'static str,
    text: &'static str,
    first: u8,
}

static EXPECTED: [Expected; 9] = [
    Expected {
        seed: 0,
        number: 0,
        x: 823_153_692,
        y: -73_521_254,
        key: "m0",
        text: "place a79 b44 c47",
        first: 79,
    },
    Expected {
        seed: 0,
        number: 1,
        x: -370_815_098,
        y: -350_181_713,
        key: "m1",
        text: "place a40 b99 c90",
        first: 40,
    },
    Expected {
        seed: 0,
        number: 11,
        x: 227_325_413,
        y: -334_921_519,
        key: "m11",
        text: "place a60 b6 c71",
        first: 60,
    },
    Expected {
        seed: 7,
        number: 0,
        x: -236_588_814,
        y: -518_844_619,
        key: "m0",
        text: "place a46 b3 c74",
        first: 46,
    },
    Expected {
        seed: 7,
        number: 1,
        x: -538_091_709,
        y: -34_410_200,
        key: "m1",
        text: "place a82 b85 c25",
        first: 82,
    },
    Expected {
        seed: 7,
        number: 11,
        x: -596_717_423,
        y: -1_480_392,
        key: "m11",
        text: "place a67 b54 c34",
        first: 67,
    },
    Expected {
        seed: 18_446_744_073_709_551_615,
        number: 0,
        x: 845_985_979,
        y: 443_022_873,
        key: "m0",
        text: "place a1 b42 c6",
        first: 1,
    },
    Expected {
        seed: 18_446_744_073_709_551_615,
        number: 1,
        x: 697_226_974,
        y: 475_253_566,
        key: "m1",
        text: "place a16 b40 c12",
        first: 16,
    },
    Expected {
        seed: 18_446_744_073_709_551_615,
        number: 11,
        x: -442_704_620,
        y: -95_129_243,
        key: "m11",
        text: "place a61 b47 c46",
        first: 61,
    },
];

// The place of a seed that has this number.
fn made(alloc: Global, seed: u64, number: u32) -> Result<Made, Memory> {
    let mut maker = Maker::new(seed);
    for _ in 0..number {
        maker.make(alloc)?;
    }
    maker.make(alloc)
}

// Whether a place is the expected one.
fn is_so(made: &Made, expected: &Expected) -> bool {
    made.key.text() == Some(expected.key)
        && Some(made.point) == Point::new(expected.x, expected.y)
        && made.text.as_str() == expected.text
        && made.first == expected.first
}

#[test]
fn a_seed_makes_these_places(rt: HostRuntime) -> Result<(), Fail> {
    for expected in &EXPECTED {
        let made = made(rt.alloc(), expected.seed, expected.number)?;
        assert!(rt; is_so(&made, expected), "{}", expected.text);
    }
    Ok(())
}
