//! Where the other entries go.
ghost use Rattle.std.specs.Prelude.{◌≡◌, ◌≢◌, ◌<◌};
ghost use Rattle.split_policy.specs.Divided.{IsDivided};
ghost use Rattle.split_policy.specs.Masks.{IsAmong, IsMask};
ghost use Rattle.split_policy.specs.Quadratic.{IsOpen, begun, remaining};
ghost use Rattle.text_policy.specs.Splits.{EndsByWords, IsFirstLeft, is_drawn, joined};

use crate::beginners::shared_by;
use spatial_base::Rect;
use split_policy::{Cost, Division, bit};

/// Returns the entry left that has the least number.
fn first_left(division: &Division) -> usize
    requires some { division.now.left ≢ 0 }
    requires divided { IsDivided division.now }
    ensures { IsFirstLeft division.now.left result }
{
    division.left.trailing_zeros() as usize
}

/// Returns whether an entry joins the group that moves, given how many words it shares with the entry that each group began with.
///
/// It joins the group with whose first entry it shares more words, among equals the one that grows less, and among equals again the one
/// with fewer entries. It stays if nothing decides.
fn is_drawn(division: &Division, rect: &Rect, staying: u32, moving: u32) -> bool
    ensures { result ≡ is_drawn division.now rect.now staying moving }
{
    if staying != moving {
        return staying < moving;
    }
    let if_staying = Cost::of(&division.staying.bounds, rect).gained;
    let if_moving = Cost::of(&division.moving.bounds, rect).gained;
    if_moving < if_staying
        || if_moving == if_staying && division.moving.count < division.staying.count
}

/// Returns the split after an entry has joined its group. The groups began with the entries `first`, which stays, and `second`.
fn join(
    division: Division,
    rects: &[Rect; 33],
    like: &[[u32; 33]; 33],
    first: usize,
    second: usize,
    at: usize,
) -> Division
    requires first { first < 33 }
    requires second { second < 33 }
    requires divided { IsDivided division }
    requires open { IsOpen division }
    requires is_left { IsAmong division.left at }
    ensures joined { result ≡ joined rects.now like.now first second at division }
    ensures divided { IsDivided result }
    ensures fewer { remaining result < remaining division }
{
    let rect = &rects[at];
    let with_first = shared_by(like, first, at);
    let with_second = shared_by(like, second, at);
    if is_drawn(&division, rect, with_first, with_second) {
        Division {
            left: division.left ^ bit(at),
            moved: division.moved | bit(at),
            staying: division.staying,
            moving: division.moving.with(rect),
        }
    } else {
        Division {
            left: division.left ^ bit(at),
            moved: division.moved,
            staying: division.staying.with(rect),
            moving: division.moving,
        }
    }
}

/// Returns the mask of the entries that move, if the group that stays begins with `first` and the one that moves with `second`.
pub(crate) fn divide(rects: &[Rect; 33], like: &[[u32; 33]; 33], first: usize, second: usize) -> u64
    requires order { first < second }
    requires within { second < 33 }
    ensures ends { EndsByWords rects.now like.now first second (begun rects.now first second) result }
    ensures mask { IsMask result }
{
    let mut division = Division::begin(rects, first, second);
    while division.is_open() {
        let next = first_left(&division);
        division = join(division, rects, like, first, second, next);
    }
    division.end(rects)
}
