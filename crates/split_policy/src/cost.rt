//! How much a rectangle grows by joining another.
ghost use Rattle.std.specs.Prelude.{◌≡◌, ◌||◌, ◌&&◌, ◌==◌, nat_lt};
ghost use Rattle.split_policy.specs.Areas.{growth_of, rect_area};

use spatial_base::Rect;

/// The area that a rectangle gains by joining another, and the area that it had before, in square units of 10^-7 degrees.
#[derive(Clone, Copy, PartialEq, Eq)]
pub struct Cost {
    pub gained: u64,
    pub had: u64,
}

impl Cost {
    /// Returns the cost of joining `add` to a rectangle.
    pub fn of(rect: &Rect, add: &Rect) -> Cost
        ensures gained { result.gained ≡ growth_of rect.now add.now }
        ensures had { result.had ≡ rect_area rect.now }
    {
        let had = area(rect);
        Cost {
            gained: growth(rect, had, add),
            had,
        }
    }

    /// Returns whether this cost is less: a rectangle gains less area, or gains the same and had less.
    pub(crate) fn is_less(&self, other: &Cost) -> bool
        ensures { result ≡ (nat_lt self.now.gained other.now.gained
            || ((self.now.gained == other.now.gained) && nat_lt self.now.had other.now.had)) }
    {
        self.gained < other.gained || self.gained == other.gained && self.had < other.had
    }
}

/// Returns the area of a rectangle, in square units of 10^-7 degrees.
pub(crate) fn area(rect: &Rect) -> u64
    ensures { result ≡ rect_area rect.now }
{
    rect.area()
}

/// Returns the area that a rectangle gains by joining `add`, if its own area is `had`, in square units of 10^-7 degrees.
pub(crate) fn growth(rect: &Rect, had: u64, add: &Rect) -> u64
    requires { had ≡ rect_area rect.now }
    ensures { result ≡ growth_of rect.now add.now }
{
    prove!(rect.west() <= rect.east());
    area(&rect.join(add)) - had
}
