//! The least rectangle round some of 32 rectangles.
ghost use Rattle.std.specs.Prelude.{◌≡◌, ◌==◌, ◌<◌, ℕ, if◌then◌else◌, Option, Some};
ghost use Rattle.std.specs.Int.{bit_at};
ghost use Rattle.rtree_nodes.specs.Slots.{Slots, filled, tops};
ghost use Rattle.rtree_nodes.specs.Reach.{reach_of, joined_both};
ghost use Rattle.irtree_insert.specs.Drafts.{AreOutlined};

use rtree_nodes::SLOTS;
use spatial_base::Rect;

/// Whether bit `at` is set.
pub(crate) fn is_set(mask: u64, at: usize) -> bool
    requires { at < 64 }
    ensures { result ≡ (bit_at mask at == 1) }
{
    (mask >> at) & 1 == 1
}

/// The rectangle of the point 0 0.
pub(crate) fn origin() -> Rect {
    match Rect::new(0, 0, 0, 0) {
        Some(rect) => rect,
        None => unreachable!(),
    }
}

// A rectangle that is widened to another one, if that one counts.
fn widened(bounds: Option<Rect>, counts: bool, rect: &Rect) -> Option<Rect>
    ensures { result ≡ (if counts then joined_both bounds (Some rect.now) else bounds) }
{
    if !counts {
        return bounds;
    }
    match bounds {
        Some(bounds) => Some(bounds.join(rect)),
        None => Some(*rect),
    }
}

/// Returns the least rectangle round those whose bits are set, or that of the point 0 0 if none is.
pub(crate) fn outline(used: u32, rects: &[Rect; 32]) -> Rect
    ensures { (s : Slots) → AreOutlined used rects.now s → 0 < filled s → (d : ℕ) → reach_of result d ≡ tops d s }
{
    let mut bounds = None;
    for i in 0..SLOTS {
        bounds = widened(bounds, is_set(u64::from(used), i), &rects[i]);
    }
    bounds.unwrap_or(origin())
}
