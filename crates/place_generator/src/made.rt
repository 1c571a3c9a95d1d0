//! The places of a seed, one after another.
ghost use Rattle.std.specs.Prelude.{◌≡◌, ℕ, ◌+◌, ◌-◌, ◌^◌, ◌<◌, ◌++◌, codes, decimal, string_bytes, IfOk};
ghost use Rattle.spatial_base.specs.Key.{Text};
ghost use Rattle.place_generator.specs.Made.{place_of_seed, point_by, text_by};
ghost use Rattle.place_generator.specs.Makers.{IsAt, place_in};

use rand_core::{Rng, SeedableRng};
use rand_xoshiro::SplitMix64;
use spatial_base::{Key, Memory, Point};
use std::alloc::Global;

/// How many words of each of the three kinds there are.
const WORDS_OF_A_KIND: u64 = 100;

/// A place that was made.
#[derive(Debug, Drop)]
pub struct Made {
    /// The text key of `m` and the place's number.
    pub key: Key,
    /// A point within 107.3741824 degrees of longitude 0 and 53.6870912 degrees of latitude 0.
    pub point: Point,
    /// `place`, and one word of each of the kinds `a`, `b` and `c`.
    pub text: String,
    /// The number of the word of kind `a`, below 100.
    pub first: u8,
}

/// Makes the places of a seed, in their order.
#[derive(Debug, Drop)]
pub struct Maker {
    random: SplitMix64,
    next: u32,
}

impl Maker {
    /// Returns the maker that is before the first place of a seed.
    pub fn new(seed: u64) -> Maker
        ensures at { IsAt result seed 0 }
    {
        Maker {
            random: SplitMix64::from_seed(seed.to_le_bytes()),
            next: 0,
        }
    }

    /// Makes the next place and moves past it, even if it runs out of memory.
    ///
    /// A seed has no place after number 2^32 - 1.
    pub fn make(&mut self, alloc: Global) -> Result<Made, Memory>
        ensures place { (seed number : ℕ) → IsAt self.old seed number → IfOk result (λ made. place_in made ≡ place_of_seed seed number) }
        ensures at { (seed number : ℕ) → number < 2 ^ 32 - 1 → IsAt self.old seed number → IsAt self.new seed (number + 1) }
    {
        let number = self.next;
        let x = self.random.next_u64();
        let y = self.random.next_u64();
        let a = self.random.next_u64() % WORDS_OF_A_KIND;
        let b = self.random.next_u64() % WORDS_OF_A_KIND;
        let c = self.random.next_u64() % WORDS_OF_A_KIND;
        self.next = number.saturating_add(1);
        let key = key_of(alloc, number)?;
        let text = text_of(alloc, a, b, c)?;
        Ok(Made {
            key,
            point: point_of(x, y),
            text,
            first: a as u8,
        })
    }
}

/// The key of a place: `m` and the place's number.
fn key_of(alloc: Global, number: u32) -> Result<Key, Memory>
    ensures { IfOk result (λ key. key ≡ Text (codes "m" ++ decimal number)) }
{
    let text = match format!(in alloc; "m{number}") {
        Ok(text) => text,
        Err(_) => return Err(Memory),
    };
    match Key::of_text(text.as_str()) {
        Ok(key) => Ok(key),
        Err(_) => unreachable!(),
    }
}

/// The text of a place.
fn text_of(alloc: Global, a: u64, b: u64, c: u64) -> Result<String, Memory>
    ensures { IfOk result (λ text. string_bytes text ≡ text_by a b c) }
{
    match format!(in alloc; "place a{a} b{b} c{c}") {
        Ok(text) => Ok(text),
        Err(_) => Err(Memory),
    }
}

/// The point from two words: the first 31 bits of `x` and the first 30 bits of `y`, each centred on 0.
fn point_of(x: u64, y: u64) -> Point
    ensures { result ≡ point_by x y }
{
    let x = (x >> 33) as i32 - (1 << 30);
    let y = (y >> 34) as i32 - (1 << 29);
    match Point::new(x, y) {
        Some(point) => point,
        None => unreachable!(),
    }
}
