//! A place as the place table keeps it.
ghost use Rattle.std.specs.Prelude.{◌≡◌, ◌↔◌, ◌<◌, ℕ, List, length, IsTrue, Some, IfSome};
ghost use Rattle.spatial_base.specs.Point.{Position, IsOnMap};
ghost use Rattle.term_impacts.specs.Label.{IsLabelText, label_form};
ghost use Rattle.row_codec.specs.Stored.{point_bytes};

use crate::bytes::{u32_at, write_at};
use crate::pairs::{are_spare, has_impacts, is_ascending, pairs_of_bytes, write_pairs};
use spatial_base::Point;
use term_impacts::Label;

/// The most words of a place.
pub const PAIRS_MAX: usize = 64;

/// The bytes of a [`Stored`].
pub const STORED_BYTES: usize = 649;

/// A place: its point, the number and the impact of each of its words, and its label.
///
/// It is of its form if `count` is at most 64 and the pairs keep two rules. The first `count` ascend strictly by word number with impacts
/// of at least 1, and the others are (0, 0).
#[derive(Clone, Copy, Debug, PartialEq, Eq)]
pub struct Stored {
    /// Its point on the map.
    pub point: Point,
    /// How many words it has.
    pub count: u8,
    /// The word numbers, ascending, each with its impact; (0, 0) after them.
    pub pairs: [(u64, u8); 64],
    /// Its label.
    pub label: Label,
}

impl Stored {
    ghost use Rattle.row_codec.specs.Stored.{IsStored, IsValue, place_value};

    /// Whether it is of its form.
    pub fn is_of_form(&self) -> bool
        ensures { IsTrue result ↔ IsStored self.now }
    {
        if self.count as usize > PAIRS_MAX {
            return false;
        }
        let (held, spare) = self.pairs.split_at(self.count as usize);
        is_ascending(held) && has_impacts(held) && are_spare(spare)
    }

    /// The row's value: longitude, latitude, the count of words, 64 pairs of 9 bytes, and the label's form.
    pub fn encode(&self) -> [u8; 649]
        ensures bytes { result ≡ place_value self.now }
        ensures value { IsValue self.now }
    {
        let mut bytes = [0; 649];
        write_at(&mut bytes, 0, &self.point.x().to_be_bytes());
        write_at(&mut bytes, 4, &self.point.y().to_be_bytes());
        write_at(&mut bytes, 8, &[self.count]);
        write_pairs(&mut bytes, 9, &self.pairs);
        write_at(&mut bytes, 585, &self.label.bytes());
        bytes
    }

    /// Decodes a place from a row's value. Returns `None` exactly if it is no place's value: if the point is off the map, the last
    /// 64 bytes are no label's form, or the place isn't of its form.
    pub fn decode(bytes: &[u8; 649]) -> Option<Stored>
        ensures form { IfSome result (λ stored. IsValue stored × IsStored stored × (bytes.now ≡ place_value stored)) }
        ensures every { (stored : Stored) → IsValue stored → IsStored stored → bytes.now ≡ place_value stored → result ≡ Some stored }
    {
        let stored = Stored {
            point: point_of_bytes(&bytes[..8])?,
            count: bytes[8],
            pairs: pairs_of_bytes(&bytes[9..585]),
            label: label_of_bytes(&bytes[585..])?,
        };
        if stored.is_of_form() {
            Some(stored)
        } else {
            None
        }
    }
}

// The point in 8 bytes.
fn point_of_bytes(bytes: &[u8]) -> Option<Point>
    requires { length bytes.now ≡ 8 }
    ensures form { IfSome result (λ point. IsOnMap point.x point.y × (bytes.now ≡ point_bytes point)) }
    ensures every { (point : Position) → IsOnMap point.x point.y → bytes.now ≡ point_bytes point → result ≡ Some point }
{
    let x = u32_at(bytes, 0).cast_signed();
    let y = u32_at(bytes, 4).cast_signed();
    Point::new(x, y)
}

// The label of these 64 bytes.
fn label_of_bytes(bytes: &[u8]) -> Option<Label>
    requires { length bytes.now ≡ 64 }
    ensures form { IfSome result (λ label. IsLabelText label × (bytes.now ≡ label_form label)) }
    ensures every { (text : List ℕ) → IsLabelText text → bytes.now ≡ label_form text → result ≡ Some text }
{
    let mut form = [0; 64];
    form.copy_from_slice(bytes);
    Label::of_bytes(&form)
}
