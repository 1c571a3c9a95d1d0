//! The two groups of a quadratic split.
ghost use Rattle.std.specs.Prelude.{◌≡◌, ◌<◌};
ghost use Rattle.split_policy.specs.Quadratic.{group_of, with_entry, is_preferred};

use crate::cost::Cost;
use spatial_base::Rect;

/// A group of entries: the least rectangle around them, and how many there are.
#[derive(Clone, Copy)]
pub struct Group {
    pub bounds: Rect,
    pub count: u32,
}

impl Group {
    /// Returns the group of one entry.
    pub(crate) fn of(rect: &Rect) -> Group
        ensures { result ≡ group_of rect.now }
    {
        Group {
            bounds: *rect,
            count: 1,
        }
    }

    /// Returns the group with one more entry.
    pub fn with(&self, rect: &Rect) -> Group
        requires { self.now.count < 33 }
        ensures { result ≡ with_entry rect.now self.now }
    {
        Group {
            bounds: self.bounds.join(rect),
            count: self.count + 1,
        }
    }

    /// Returns whether an entry joins this group rather than the other.
    ///
    /// It joins the group that grows less, among equals the smaller one, and among equals again the one with fewer entries.
    pub(crate) fn is_preferred(&self, rect: &Rect, other: &Group) -> bool
        ensures { result ≡ is_preferred rect.now self.now other.now }
    {
        let here = Cost::of(&self.bounds, rect);
        let there = Cost::of(&other.bounds, rect);
        here.is_less(&there) || here == there && self.count < other.count
    }
}
