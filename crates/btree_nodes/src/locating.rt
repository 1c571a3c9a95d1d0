//! The leaf that a key belongs to, by a loop down the levels.
ghost use Rattle.std.specs.Prelude.{◌≡◌, ℕ, ◌+◌, ◌^◌, ◌<◌, ◌≤◌, List, ◌∷◌, [], ◌++◌, length, IfOk, IsErrOf};
ghost use Rattle.page_face.specs.Calls.{Reads, FailsReading};
ghost use Rattle.page_face.specs.Causes.{IsUncounted};
ghost use Rattle.page_face.specs.Number.{number};
ghost use Rattle.btree_nodes.specs.Nodes.{least_of_root};
ghost use Rattle.btree_nodes.specs.Tree.{IsTree, IsMap, level_of, map_uses, uses};
ghost use Rattle.btree_nodes.specs.Damages.{IsDamaged, AreReadable, AskedSince, AsksOnly};
ghost use Rattle.btree_nodes.specs.Steps.{low_of, high_of};
ghost use Rattle.btree_nodes.specs.Below.{LiesBelow};
ghost use Rattle.btree_nodes.specs.Leaves.{IsLeafOf, IsShown};
ghost use Rattle.btree_nodes.specs.Ways.{IsWay, IsWayOf};

use crate::narrowing::Bounds;
use crate::sealed::{leaf_count, step_down};
use crate::{Form, damaged, least_at, level, root_least};
use page_face::{Damage, PageFault, Pages};

/// A leaf that was found, and the least number of rows that its place in the map allows.
#[derive(Clone, Copy, Debug, PartialEq, Eq)]
pub struct Leaf {
    /// Its page.
    pub page: u32,
    /// How many rows it has.
    pub count: usize,
    /// How many rows it has at least: 1 if it is the root, and otherwise half of what fits.
    pub least: usize,
}

/// Returns the leaf that a key belongs to below `page`, which is the page looked at last. The leaf is then looked at, and its bounds
/// are in `bounds`.
///
/// Looks at one page for each level below `page`. Writes none and copies none.
fn descend_to_leaf<P: Pages>(
    pages: &mut P,
    form: Form,
    least: usize,
    page: u32,
    level: u8,
    bounds: &mut Bounds,
    key: &[u8],
) -> Result<Leaf, PageFault>
    requires least { least_of_root level ≤ least }
    requires counted { ¬ IsUncounted (P.count pages.old) page }
    requires key { length key.now ≡ form.key }
    requires top { 0 < bounds.old.top → bounds.old.top ≡ form.key }
    requires from { low_of form bounds.old ≤ number key.now }
    requires to { number key.now < high_of form bounds.old }
    ensures shown { IfOk result (IsShown form (P.looked pages.new) (number key.now) (low_of form bounds.new) (high_of form bounds.new)) }
    ensures located { P.looked pages.old ≡ P.pages pages.old page
        → IsTree form least (P.pages pages.old) level page (low_of form bounds.old) (high_of form bounds.old)
        → IfOk result (λ leaf. (P.looked pages.new ≡ P.pages pages.old leaf.page)
        × LiesBelow form (P.pages pages.old) least level page (low_of form bounds.old) (high_of form bounds.old) leaf.least 0 leaf.page (low_of form bounds.new) (high_of form bounds.new)) }
    ensures counted { IfOk result (λ leaf. ¬ IsUncounted (P.count pages.old) leaf.page) }
    ensures top { IfOk result (λ leaf. 0 < bounds.new.top → bounds.new.top ≡ form.key) }
    ensures damaged { AreReadable (P.pages pages.old) (P.count pages.old) → P.looked pages.old ≡ P.pages pages.old page
        → (damage : Damage) → IsErrOf result (PageFault.Damaged damage)
        → IsDamaged form (P.pages pages.old) (P.count pages.old) damage least level page (low_of form bounds.old) (high_of form bounds.old) }
    ensures named { (before : List ℕ) → P.asked pages.old ≡ before ++ page ∷ []
        → (damage : Damage) → IsErrOf result (PageFault.Damaged damage) → AskedSince before (P.asked pages.new) damage.page }
    ensures read { (before : List ℕ) → P.asked pages.old ≡ before ++ page ∷ []
        → AreReadable (P.pages pages.old) (P.count pages.old) → P.looked pages.old ≡ P.pages pages.old page
        → IfOk result (λ leaf. AskedSince before (P.asked pages.new) leaf.page × (P.looked pages.new ≡ P.pages pages.old leaf.page)) }
    ensures way { AreReadable (P.pages pages.old) (P.count pages.old) → P.looked pages.old ≡ P.pages pages.old page
        → IfOk result (λ leaf. IsWay form (P.pages pages.old) (P.count pages.old) (number key.now) least level page (low_of form bounds.old) (high_of form bounds.old) leaf.page (low_of form bounds.new) (high_of form bounds.new)) }
    ensures own { (before : List ℕ) → P.asked pages.old ≡ before ++ page ∷ []
        → AreReadable (P.pages pages.old) (P.count pages.old) → P.looked pages.old ≡ P.pages pages.old page
        → AsksOnly (uses form (P.pages pages.old) level page) before (P.asked pages.new) }
    ensures fails { FailsReading P.Pages pages.old pages.new result }
    ensures frame { Reads P.Pages pages.old pages.new }
{
    let mut here = page;
    let mut height = level;
    let mut fill = least;
    'down: while height > 0 {
        let child = match step_down(pages, form, fill, height, bounds, key) {
            Ok(child) => child,
            Err(rule) => return Err(damaged(here, rule)),
        };
        match pages.look(child) {
            Ok(()) => {}
            Err(fault) => return Err(fault),
        }
        here = child;
        height -= 1;
        fill = least_at(form, height);
    }
    match leaf_count(pages, form, fill, bounds.low(form), bounds.high(form)) {
        Ok(count) => Ok(Leaf {
            page: here,
            count,
            least: fill,
        }),
        Err(rule) => Err(damaged(here, rule)),
    }
}

/// Returns the leaf that a key belongs to in the map below `root`. The leaf is then looked at, and its bounds are in `bounds`.
///
/// Refuses with `Damaged` and a rule that a page asked for in this call breaks in its place, with `Disk`, `Stopped` or `Memory`. After
/// a refusal `bounds` may hold anything. It ends on any bytes, since each step is one level down.
///
/// Looks at one page for each level, root and leaf included. Writes none, copies none, and holds two keys. A page is checked whole
/// only if it isn't sealed yet, and is sealed then. Of a sealed page only the count and two keys are checked.
pub fn locate<P: Pages>(
    pages: &mut P,
    form: Form,
    root: u32,
    key: &[u8],
    bounds: &mut Bounds,
) -> Result<Leaf, PageFault>
    requires root { 0 < root }
    requires key { length key.now ≡ form.key }
    ensures shown { IfOk result (IsShown form (P.looked pages.new) (number key.now) (low_of form bounds.new) (high_of form bounds.new)) }
    ensures located { IsMap form (P.pages pages.old) root
        → IfOk result (λ leaf. (P.looked pages.new ≡ P.pages pages.old leaf.page) × IsLeafOf form (P.pages pages.old) root leaf.least leaf.page (low_of form bounds.new) (high_of form bounds.new)) }
    ensures counted { IfOk result (λ leaf. ¬ IsUncounted (P.count pages.old) leaf.page) }
    ensures top { IfOk result (λ leaf. 0 < bounds.new.top → bounds.new.top ≡ form.key) }
    ensures damaged { AreReadable (P.pages pages.old) (P.count pages.old)
        → (damage : Damage) → IsErrOf result (PageFault.Damaged damage)
        → IsDamaged form (P.pages pages.old) (P.count pages.old) damage (least_of_root (level_of (P.pages pages.old root))) (level_of (P.pages pages.old root)) root 0 (256 ^ form.key) }
    ensures named { AreReadable (P.pages pages.old) (P.count pages.old)
        → (damage : Damage) → IsErrOf result (PageFault.Damaged damage) → AskedSince (P.asked pages.old) (P.asked pages.new) damage.page }
    ensures read { AreReadable (P.pages pages.old) (P.count pages.old)
        → IfOk result (λ leaf. AskedSince (P.asked pages.old) (P.asked pages.new) leaf.page × (P.looked pages.new ≡ P.pages pages.old leaf.page)) }

    // On any pages whose bytes are readable, each page on the way to the leaf keeps the rules in its place.
    ensures way { AreReadable (P.pages pages.old) (P.count pages.old)
        → IfOk result (λ leaf. IsWayOf form (P.pages pages.old) (P.count pages.old) root (number key.now) leaf.page (low_of form bounds.new) (high_of form bounds.new)) }
    ensures own { AreReadable (P.pages pages.old) (P.count pages.old)
        → AsksOnly (map_uses form (P.pages pages.old) root) (P.asked pages.old) (P.asked pages.new) }
    ensures fails { FailsReading P.Pages pages.old pages.new result }
    ensures frame { Reads P.Pages pages.old pages.new }
{
    *bounds = Bounds::all();
    match pages.look(root) {
        Ok(()) => {
            let level = level(pages.looked());
            let least = root_least(level);
            descend_to_leaf(pages, form, least, root, level, bounds, key)
        }
        Err(fault) => Err(fault),
    }
}
