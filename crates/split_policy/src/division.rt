//! A quadratic split that is under way.
ghost use Rattle.std.specs.Prelude.{◌≡◌, ◌≢◌, ◌<◌, ◌+◌, ◌↔◌, IsTrue};
ghost use Rattle.split_policy.specs.Areas.{rect_area};
ghost use Rattle.split_policy.specs.Divided.{IsDivided};
ghost use Rattle.split_policy.specs.Masks.{IsAmong, IsMask};
ghost use Rattle.split_policy.specs.Quadratic.{begun, remaining, preference_of, IsNext, placed, IsOpen, EndsWith};

use crate::cost::{area, growth};
use crate::group::Group;
use crate::mask::{bit, is_set};
use spatial_base::Rect;

/// The fewest entries of a node that is not the root: three eighths of its 32 slots.
const FEWEST: u32 = 12;

/// A split that is under way: the mask of the entries left, the mask of those that move so far, and the two groups.
#[derive(Clone, Copy)]
pub struct Division {
    pub left: u64,
    pub moved: u64,
    pub staying: Group,
    pub moving: Group,
}

impl Division {
    /// Returns the split at its beginning: the first seed stays and the second moves.
    pub fn begin(rects: &[Rect; 33], first: usize, second: usize) -> Division
        requires order { first < second }
        requires within { second < 33 }
        ensures begun { result ≡ begun rects.now first second }
        ensures divided { IsDivided result }
    {
        Division {
            left: ((1 << 33) - 1) ^ bit(first) ^ bit(second),
            moved: bit(second),
            staying: Group::of(&rects[first]),
            moving: Group::of(&rects[second]),
        }
    }

    /// Returns how many entries are left.
    fn remaining(&self) -> u32
        requires { IsDivided self.now }
        ensures { result ≡ remaining self.now }
    {
        33 - self.staying.count - self.moving.count
    }

    /// Returns whether the next entry is to be placed: some are left, and neither group needs all of them to have 12.
    pub fn is_open(&self) -> bool
        requires { IsDivided self.now }
        ensures { IsTrue result ↔ IsOpen self.now }
    {
        let remaining = self.remaining();
        self.left != 0
            && FEWEST < self.staying.count + remaining
            && FEWEST < self.moving.count + remaining
    }

    /// Returns the difference between how much each group would grow by an entry. The areas of the groups are given.
    fn preference(&self, staying: u64, moving: u64, rect: &Rect) -> u64
        requires staying { staying ≡ rect_area self.now.staying.bounds }
        requires moving { moving ≡ rect_area self.now.moving.bounds }
        ensures { result ≡ preference_of self.now rect.now }
    {
        let if_staying = growth(&self.staying.bounds, staying, rect);
        let if_moving = growth(&self.moving.bounds, moving, rect);
        if_staying.abs_diff(if_moving)
    }

    /// Returns the entry left for which the growth of the two groups differs most, among equals the first.
    pub(crate) fn pick_next(&self, rects: &[Rect; 33]) -> usize
        requires some { self.now.left ≢ 0 }
        requires divided { IsDivided self.now }
        ensures { IsNext rects.now self.now result }
    {
        let staying = area(&self.staying.bounds);
        let moving = area(&self.moving.bounds);
        let first = self.left.trailing_zeros() as usize;
        let mut best = first;
        let mut greatest = self.preference(staying, moving, &rects[first]);
        for entry in first + 1..33 {
            if is_set(self.left, entry) {
                let preference = self.preference(staying, moving, &rects[entry]);
                if greatest < preference {
                    best = entry;
                    greatest = preference;
                }
            }
        }
        best
    }

    /// Returns the split after an entry has joined the group that is preferred.
    pub(crate) fn place(self, rects: &[Rect; 33], at: usize) -> Division
        requires divided { IsDivided self }
        requires open { IsOpen self }
        requires is_left { IsAmong self.left at }
        ensures placed { result ≡ placed rects.now at self }
        ensures divided { IsDivided result }
        ensures fewer { remaining result < remaining self }
    {
        let rect = &rects[at];
        if self.moving.is_preferred(rect, &self.staying) {
            Division {
                left: self.left ^ bit(at),
                moved: self.moved | bit(at),
                staying: self.staying,
                moving: self.moving.with(rect),
            }
        } else {
            Division {
                left: self.left ^ bit(at),
                moved: self.moved,
                staying: self.staying.with(rect),
                moving: self.moving,
            }
        }
    }

    /// Returns the mask of the entries that move, once none are left or a group needs all that are left.
    pub fn end(&self, rects: &[Rect; 33]) -> u64
        requires divided { IsDivided self.now }
        requires closed { IsOpen self.now → ⊥ }
        ensures ends { EndsWith rects.now self.now result }
        ensures mask { IsMask result }
    {
        if self.moving.count + self.remaining() <= FEWEST {
            self.moved | self.left
        } else {
            self.moved
        }
    }
}
