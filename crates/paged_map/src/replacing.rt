//! A row that was found, and whose value is replaced in its leaf.
ghost use Rattle.std.specs.Prelude.{◌≡◌, ◌≢◌, ℕ, List, length, OnOk, OnErr};
ghost use Rattle.page_face.specs.Calls.{Changes, FailsReading};
ghost use Rattle.page_face.specs.Number.{number};
ghost use Rattle.btree_nodes.specs.Rows.{put};
ghost use Rattle.btree_nodes.specs.Supply.{view};
ghost use Rattle.btree_nodes.specs.Tree.{map_rows};
ghost use Rattle.btree_nodes.specs.Damages.{AreReadable};
ghost use Rattle.paged_map.specs.Maps.{HasBecome, IsKept};
ghost use Rattle.paged_map.specs.Spots.{IsInLeaf, IsRowAt};

use crate::editing::{Spot, cut_of, write_leaf};
use btree_nodes::Form;
use page_face::{Damage, PageFault, Pages};

/// The spot at which a row was found: its leaf, and its place there.
#[derive(Clone, Copy, Debug, PartialEq, Eq)]
pub struct RowSpot {
    /// The leaf's page.
    pub page: u32,
    /// How many rows the leaf has.
    pub count: usize,
    /// The row's place among them.
    pub at: usize,
}

/// Writes the leaf that is looked at with another value at the key of the row at a spot.
///
/// Copies the leaf's bytes once, into a new page, and writes that one page. Refuses `Stopped` and `Memory`.
pub fn replace_at<P: Pages>(
    pages: &mut P,
    form: Form,
    spot: &RowSpot,
    key: &[u8],
    value: &[u8],
) -> Result<(), PageFault>
    requires row { IsRowAt form (P.count pages.old) (P.looked pages.old) (number key.now) spot.now }
    requires key { length key.now ≡ form.key }
    requires value { length value.now ≡ form.value }
    ensures becomes { (root : ℕ) (free : List ℕ) → IsKept form (view (P.pages pages.old) (P.count pages.old) (P.first pages.old) free) root
        → IsInLeaf form (P.pages pages.old) root (P.looked pages.old) (number key.now) spot.now
        → OnOk result (HasBecome form (view (P.pages pages.old) (P.count pages.old) (P.first pages.old) free) (P.pages pages.new) (P.count pages.new) (P.first pages.new) root root (put (number key.now) value.now (map_rows form (P.pages pages.old) root))) }
    ensures alone { (n : ℕ) → n ≢ spot.now.page → P.pages pages.new n ≡ P.pages pages.old n }
    ensures kept { OnErr result (P.pages pages.new ≡ P.pages pages.old) }
    ensures told { AreReadable (P.pages pages.old) (P.count pages.old) → OnOk result (AreReadable (P.pages pages.new) (P.count pages.new)) }

    ensures no_false_damage { (damage : Damage) → result ≢ Err (PageFault.Damaged damage) }
    ensures asked { P.asked pages.new ≡ P.asked pages.old }
    ensures fails { FailsReading P.Pages pages.old pages.new result }
    ensures count { P.count pages.new ≡ P.count pages.old }
    ensures refused { P.refused pages.new ≡ P.refused pages.old }
    ensures frame { Changes P.Pages pages.old pages.new }
{
    let here = Spot {
        at: spot.at,
        gone: 1,
    };
    let cut = cut_of(form, spot.count, here);
    write_leaf(pages, form, spot.page, spot.count as u16, cut, key, value)
}
