//! How many slots a node uses, and which one is free.
ghost use Rattle.std.specs.Prelude.{◌≡◌, ◌<◌, ◌≤◌, ℕ, true, MatchOption};
ghost use Rattle.std.specs.Int.{bit_at};
ghost use Rattle.rtree_nodes.specs.Slots.{filled, IsFull, IsFree};
ghost use Rattle.rtree_nodes.specs.Masks.{marked};
ghost use Rattle.rtree_nodes.specs.Pages.{mask_of as mask_in, is_form, slots_in};

use crate::SLOTS;
use crate::layout::{is_set, mask_of};
use page_face::Page;

// 1 if bit `at` is set, and 0 if it isn't.
fn bit(mask: u32, at: usize) -> usize
    requires { at < 32 }
    ensures is { result ≡ bit_at mask at }
    ensures small { result ≤ 1 }
{
    if is_set(mask, at) { 1 } else { 0 }
}

// How many bits of a mask are set.
fn ones(mask: u32) -> usize
    ensures is { result ≡ marked 32 mask }
    ensures small { result ≤ 32 }
{
    let mut ones = 0;
    for i in 0..SLOTS {
        ones += bit(mask, i);
    }
    ones
}

/// Returns how many slots the page's mask names, at most 32. For a node's page that is how many hold an item.
pub fn count(page: &Page) -> usize
    ensures marked { result ≡ marked 32 (mask_in page.now) }
    ensures filled { is_form page.now ≡ true → result ≡ filled (slots_in page.now) }
    ensures small { result ≤ 32 }
{
    ones(mask_of(page))
}

// The lowest bit of a mask that isn't set.
fn lowest_free(mask: u32) -> Option<usize>
    ensures { MatchOption result ((i : ℕ) → i < 32 → bit_at mask i ≡ 1) (λ at. (at < 32) × (bit_at mask at ≡ 0) × ((i : ℕ) → i < at → bit_at mask i ≡ 1)) }
{
    if mask == u32::MAX {
        return None;
    }
    Some(mask.trailing_ones() as usize)
}

/// Returns the lowest slot that the page's mask doesn't name, or `None` if it names all. For a node's page that is the lowest free slot.
pub fn free_slot(page: &Page) -> Option<usize>
    ensures mask { MatchOption result ((i : ℕ) → i < 32 → bit_at (mask_in page.now) i ≡ 1) (λ at. (at < 32) × (bit_at (mask_in page.now) at ≡ 0) × ((i : ℕ) → i < at → bit_at (mask_in page.now) i ≡ 1)) }
    ensures free { is_form page.now ≡ true → MatchOption result (IsFull (slots_in page.now)) (λ at. IsFree (slots_in page.now) at) }
{
    lowest_free(mask_of(page))
}
