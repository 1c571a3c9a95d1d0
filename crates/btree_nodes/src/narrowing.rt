//! The bounds of the keys below a page, which get narrower on the way down.
ghost use Rattle.std.specs.Prelude.{◌≡◌, ℕ, ◌+◌, ◌*◌, ◌^◌, ◌<◌, ◌≤◌, length, take};
ghost use Rattle.page_face.specs.Number.{number};
ghost use Rattle.page_face.specs.Nodes.{count_of};
ghost use Rattle.btree_nodes.specs.Nodes.{entries_in};
ghost use Rattle.btree_nodes.specs.Tree.{IsPlaceFor};
ghost use Rattle.btree_nodes.specs.Bounds.{upper_of, low_at, high_at};

use crate::{Form, lower, upper};
use page_face::Page;

/// A lower bound, which is a key, and an upper one, which is a key or none. They lie in buffers of the longest key.
#[derive(Drop)]
pub struct Bounds {
    low: [u8; 255],
    high: [u8; 255],
    top: usize,
}

impl Bounds {
    /// The bounds of all keys.
    pub fn all() -> Bounds
        ensures top { result.top ≡ 0 }
        ensures low { (n : ℕ) → number (take n result.low) ≡ 0 }
        ensures high { (n : ℕ) → upper_of n (take result.top result.high) ≡ 256 ^ n }
    {
        Bounds {
            low: [0; 255],
            high: [0; 255],
            top: 0,
        }
    }

    /// The lower bound.
    pub fn low(&self, form: Form) -> &[u8]
        ensures is { result.now ≡ take form.key self.now.low }
        ensures length { length result.now ≡ form.key }
    {
        &self.low[..form.key]
    }

    /// The upper bound, or no bytes if there is none.
    pub fn high(&self, form: Form) -> &[u8]
        requires { 0 < self.now.top → self.now.top ≡ form.key }
        ensures is { result.now ≡ take self.now.top self.now.high }
        ensures length { length result.now ≡ self.now.top }
    {
        &self.high[..self.top]
    }

    fn set_low(&mut self, key: &[u8])
        requires { length key.now ≤ 255 }
        ensures low { take (length key.now) self.new.low ≡ key.now }
        ensures high { self.new.high ≡ self.old.high }
        ensures top { self.new.top ≡ self.old.top }
    {
        self.low[..key.len()].copy_from_slice(key);
    }

    fn set_high(&mut self, key: &[u8])
        requires { length key.now ≤ 255 }
        ensures high { take (length key.now) self.new.high ≡ key.now }
        ensures low { self.new.low ≡ self.old.low }
        ensures top { self.new.top ≡ length key.now }
    {
        self.high[..key.len()].copy_from_slice(key);
        self.top = key.len();
    }

    /// The bounds of the child at this place of an inner page with `count` entries. Copies both buffers, and a key into each.
    pub fn narrow(&mut self, page: &Page, form: Form, count: usize, at: usize)
        requires at { at < count }
        requires count { count ≡ count_of page.now }
        requires fits { 16 + (form.key + 4) * count ≤ 4096 }
        requires top { 0 < self.old.top → self.old.top ≡ form.key }
        ensures low { number (take form.key self.new.low) ≡ low_at form page.now (number (take form.key self.old.low)) at }
        ensures high { upper_of form.key (take self.new.top self.new.high) ≡ high_at form page.now (upper_of form.key (take self.old.top self.old.high)) at }
        ensures from { (key : ℕ) → IsPlaceFor (entries_in form page.now) key at → number (take form.key self.old.low) ≤ key → number (take form.key self.new.low) ≤ key }
        ensures to { (key : ℕ) → IsPlaceFor (entries_in form page.now) key at → key < upper_of form.key (take self.old.top self.old.high)
            → key < upper_of form.key (take self.new.top self.new.high) }
        ensures top { 0 < self.new.top → self.new.top ≡ form.key }
    {
        let low = self.low;
        let high = self.high;
        let top = self.top;
        self.set_low(lower(page, form, at, &low[..form.key]));
        self.set_high(upper(page, form, count, at, &high[..top]));
    }
}
