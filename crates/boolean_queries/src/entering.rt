//! The root of a tree is looked at, and its level checked.
ghost use Rattle.std.specs.Prelude.{◌≡◌, ◌<◌, ◌≤◌, ◌^◌, length, IfOk, OnOk, IsErrOf};
ghost use Rattle.page_face.specs.Calls.{Reads, FailsReading};
ghost use Rattle.page_face.specs.declared.fault.Rule.TheVariants.{Level as WrongLevel};
ghost use Rattle.btree_nodes.specs.Damages.{AskedSince, AsksOnly};
ghost use Rattle.btree_nodes.specs.Supply.{one_at};
ghost use Rattle.rtree_nodes.specs.Pages.{level_in};
ghost use Rattle.rtree_nodes.specs.Harms.{BreaksPlace};

use btree_nodes::damaged;
use node_filter::enter;
use page_face::{Damage, PageFault, Pages, Rule};
use rtree_nodes::LEVEL_MAX;

/// Looks at a root, and returns its level, which is at most `LEVEL_MAX`.
///
/// Refuses as [`enter`], and `Damaged` with `Level` if the level is greater.
pub(crate) fn enter_root<P: Pages>(pages: &mut P, root: u32) -> Result<u8, PageFault>
    ensures low { IfOk result (λ level. level ≤ 9) }
    ensures level { IfOk result (λ level. level ≡ level_in (P.looked pages.new)) }
    ensures gives { OnOk result (0 < length (P.pages pages.old root) → P.looked pages.new ≡ P.pages pages.old root) }
    ensures asks { AsksOnly (one_at root) (P.asked pages.old) (P.asked pages.new) }
    ensures damaged { (damage : Damage) → IsErrOf result (PageFault.Damaged damage)
        → (damage.page ≡ root) × AskedSince (P.asked pages.old) (P.asked pages.new) root
        × BreaksPlace damage.rule (P.pages pages.old) (P.count pages.old) root (λ found. 9 < found) }
    ensures counted { (damage : Damage) → IsErrOf result (PageFault.Damaged damage) → damage.rule ≡ WrongLevel → P.count pages.old ≤ 2 ^ 32 }
    ensures fails { FailsReading P.Pages pages.old pages.new result }
    ensures frame { Reads P.Pages pages.old pages.new }
{
    match enter(pages, root) {
        Ok(level) => {
            if level <= LEVEL_MAX {
                return Ok(level);
            }
            // The pages counted are a u32, so that no well-formed tree is so high.
            let _counted = pages.counted();
            Err(damaged(root, Rule::Level))
        }
        Err(fault) => Err(fault),
    }
}
