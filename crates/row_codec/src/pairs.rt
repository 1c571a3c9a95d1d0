//! The pairs of a place: a word's number and its impact each, in 9 bytes.
ghost use Rattle.std.specs.Prelude.{◌≡◌, ◌↔◌, ◌<◌, ◌≤◌, ◌+◌, ◌*◌, ◌++◌, length, take, drop, All, IsTrue};
ghost use Rattle.std.specs.List.{flat_map};
ghost use Rattle.std.specs.List.Sorted.{IsStrictlyIncreasing};
ghost use Rattle.std.specs.Map.{keys_of};
ghost use Rattle.row_codec.specs.Pairs.{IsPair, HasImpact, IsSpare, pair_bytes as bytes_of_pair};

use crate::PAIRS_MAX;
use crate::bytes::{u64_at, write_at};

/// The bytes of a pair.
pub(crate) const PAIR_BYTES: usize = 9;

// Whether each number is below the next.
pub(crate) fn is_ascending(pairs: &[(u64, u8)]) -> bool
    ensures { IsTrue result ↔ IsStrictlyIncreasing (keys_of pairs.now) }
{
    pairs.is_sorted_by(|pair, next| pair.0 < next.0)
}

// Whether no impact is 0.
pub(crate) fn has_impacts(pairs: &[(u64, u8)]) -> bool
    ensures { IsTrue result ↔ All HasImpact pairs.now }
{
    pairs.iter().all(|pair| pair.1 >= 1)
}

// Whether each pair is (0, 0).
pub(crate) fn are_spare(pairs: &[(u64, u8)]) -> bool
    ensures { IsTrue result ↔ All IsSpare pairs.now }
{
    pairs.iter().all(|pair| pair.0 == 0 && pair.1 == 0)
}

// The bytes of a pair.
#[tactic(auto, unfolding(crate::specs::Pairs::pair_bytes))]
fn pair_bytes(pair: (u64, u8)) -> [u8; 9]
    ensures bytes { result ≡ bytes_of_pair pair }
    ensures fits { IsPair pair }
{
    let [a, b, c, d, e, f, g, h] = pair.0.to_be_bytes();
    [a, b, c, d, e, f, g, h, pair.1]
}

// The pair at a place.
fn pair_at(bytes: &[u8], at: usize) -> (u64, u8)
    requires { at + 9 ≤ length bytes.now }
    ensures bytes { bytes_of_pair result ≡ take 9 (drop at bytes.now) }
    ensures fits { IsPair result }
{
    (u64_at(bytes, at), bytes[at + 8])
}

// Writes the pairs from a place on.
pub(crate) fn write_pairs(out: &mut [u8], at: usize, pairs: &[(u64, u8); 64])
    requires { at + 9 * 64 ≤ length out.old }
    ensures front { take (at + 9 * 64) out.new ≡ take at out.old ++ flat_map bytes_of_pair pairs.now }
    ensures fits { All IsPair pairs.now }
{
    for (i, pair) in pairs.iter().enumerate() {
        write_at(out, at + PAIR_BYTES * i, &pair_bytes(*pair));
    }
}

// The pairs in these bytes.
pub(crate) fn pairs_of_bytes(bytes: &[u8]) -> [(u64, u8); 64]
    requires { length bytes.now ≡ 9 * 64 }
    ensures bytes { flat_map bytes_of_pair result ≡ bytes.now }
    ensures fits { All IsPair result }
{
    let mut pairs = [(0, 0); 64];
    for i in 0..PAIRS_MAX {
        pairs[i] = pair_at(bytes, PAIR_BYTES * i);
    }
    pairs
}
