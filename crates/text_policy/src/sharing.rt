//! Finds the slots that share the most words with an entry.
ghost use Rattle.std.specs.Prelude.{◌≡◌, ◌≢◌, ℕ, ◌↔◌, ◌<◌, ◌==◌, ◌&&◌};
ghost use Rattle.std.specs.Int.{bit_at};
ghost use Rattle.split_policy.specs.Masks.{IsUsed};
ghost use Rattle.text_policy.specs.Choices.{IsMostShared, IsWordChoice};
ghost use Rattle.text_policy.specs.Words.{shared_at};

use spatial_base::Rect;
use split_policy::{bit, is_set, least_growth};

/// Returns the first used slot that shares the most words.
fn most_shared(used: u32, shared: &[u32; 32]) -> usize
    requires { used ≢ 0 }
    ensures { IsMostShared used shared.now result }
{
    let first = used.trailing_zeros() as usize;
    let mut best = first;
    let mut most = shared[first];
    for slot in first + 1..32 {
        if is_set(used.into(), slot) {
            let words = shared[slot];
            if most < words {
                best = slot;
                most = words;
            }
        }
    }
    best
}

/// Returns whether a slot is used and shares so many words.
fn is_sharing(used: u32, shared: &[u32; 32], words: u32, slot: usize) -> bool
    requires { slot < 32 }
    ensures { result ≡ ((bit_at used slot == 1) && (shared_at shared.now slot == words)) }
{
    is_set(used.into(), slot) && shared[slot] == words
}

/// Returns the mask of the used slots that share the most words.
fn sharing_most(used: u32, shared: &[u32; 32]) -> u32
    requires { used ≢ 0 }
    ensures some { result ≢ 0 }
    ensures each { (i : ℕ) → IsUsed result i ↔ IsMostShared used shared.now i }
{
    let most = shared[most_shared(used, shared)];
    let mut mask = 0;
    for slot in 0..32 {
        if is_sharing(used, shared, most, slot) {
            mask |= bit(slot);
        }
    }
    mask as u32
}

/// Returns the used slot that shares the most words. Among equals it is the one that grows least by joining `add`, then the smallest,
/// and then the first.
pub(crate) fn word_choice(used: u32, rects: &[Rect; 32], add: &Rect, shared: &[u32; 32]) -> u8
    requires { used ≢ 0 }
    ensures choice { IsWordChoice used rects.now add.now shared.now result }
    ensures only { (at : ℕ) → IsWordChoice used rects.now add.now shared.now at → result ≡ at }
{
    least_growth(sharing_most(used, shared), rects, add)
}
