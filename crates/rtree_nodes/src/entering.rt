//! Looking at a page of the tree, and checking its level.
ghost use Rattle.std.specs.Prelude.{◌≡◌, ◌≢◌, ◌<◌, ◌≤◌, ◌^◌, length, IfOk, OnOk, IsErrOf};
ghost use Rattle.page_face.specs.Calls.{Reads, FailsReading};
ghost use Rattle.page_face.specs.declared.fault.Rule.TheVariants.{Level as WrongLevel};
ghost use Rattle.btree_nodes.specs.Damages.{AreReadable, AskedSince, AsksOnly, KeepsAsked};
ghost use Rattle.rtree_nodes.specs.Pages.{level_in};
ghost use Rattle.rtree_nodes.specs.Harms.{BreaksAlone, BreaksPlace};

use crate::{LEVEL_MAX, header};
use btree_nodes::damaged;
use page_face::{Damage, PageFault, Pages, Rule};

/// Looks at a page, and returns the level in its header.
///
/// Refuses `Damaged` with `Link` if the page is 0 or isn't counted, with `Kind` if it isn't a node's and with `Fill` if it has no slot.
pub fn enter<P: Pages>(pages: &mut P, page: u32) -> Result<u8, PageFault>
    ensures level { IfOk result (λ level. level ≡ level_in (P.looked pages.new)) }
    ensures gives { OnOk result (0 < length (P.pages pages.old page) → P.looked pages.new ≡ P.pages pages.old page) }
    ensures bytes { AreReadable (P.pages pages.old) (P.count pages.old) → OnOk result (P.looked pages.new ≡ P.pages pages.old page) }
    ensures here { OnOk result (AskedSince (P.asked pages.old) (P.asked pages.new) page) }
    ensures keeps { KeepsAsked (P.asked pages.old) (P.asked pages.new) }
    ensures more { AsksOnly (λ _. 1) (P.asked pages.old) (P.asked pages.new) }
    ensures damaged { (damage : Damage) → IsErrOf result (PageFault.Damaged damage)
        → (damage.page ≡ page) × AskedSince (P.asked pages.old) (P.asked pages.new) page × BreaksAlone damage.rule (P.pages pages.old) (P.count pages.old) page }
    ensures fails { FailsReading P.Pages pages.old pages.new result }
    ensures frame { Reads P.Pages pages.old pages.new }
{
    match pages.look(page) {
        Ok(()) => match header(pages.looked()) {
            Ok(head) => Ok(head.level),
            Err(rule) => Err(damaged(page, rule)),
        },
        Err(fault) => Err(fault),
    }
}

/// Looks at a child, whose level has to be this one.
///
/// Refuses as `enter`, and `Damaged` with `Level` if the child has another level.
pub fn enter_child<P: Pages>(pages: &mut P, page: u32, level: u8) -> Result<(), PageFault>
    ensures level { OnOk result (level ≡ level_in (P.looked pages.new)) }
    ensures gives { OnOk result (0 < length (P.pages pages.old page) → P.looked pages.new ≡ P.pages pages.old page) }
    ensures bytes { AreReadable (P.pages pages.old) (P.count pages.old) → OnOk result (P.looked pages.new ≡ P.pages pages.old page) }
    ensures here { OnOk result (AskedSince (P.asked pages.old) (P.asked pages.new) page) }
    ensures keeps { KeepsAsked (P.asked pages.old) (P.asked pages.new) }
    ensures more { AsksOnly (λ _. 1) (P.asked pages.old) (P.asked pages.new) }
    ensures damaged { (damage : Damage) → IsErrOf result (PageFault.Damaged damage)
        → (damage.page ≡ page) × AskedSince (P.asked pages.old) (P.asked pages.new) page
        × BreaksPlace damage.rule (P.pages pages.old) (P.count pages.old) page (λ found. found ≢ level) }
    ensures fails { FailsReading P.Pages pages.old pages.new result }
    ensures frame { Reads P.Pages pages.old pages.new }
{
    match enter(pages, page) {
        Ok(found) => {
            if found == level {
                Ok(())
            } else {
                Err(damaged(page, Rule::Level))
            }
        }
        Err(fault) => Err(fault),
    }
}

/// Looks at a root, and returns its level, which is at most `LEVEL_MAX`.
///
/// Refuses as `enter`, and `Damaged` with `Level` if the level is greater.
pub fn enter_root<P: Pages>(pages: &mut P, root: u32) -> Result<u8, PageFault>
    ensures low { IfOk result (λ level. level ≤ 9) }
    ensures level { IfOk result (λ level. level ≡ level_in (P.looked pages.new)) }
    ensures gives { OnOk result (0 < length (P.pages pages.old root) → P.looked pages.new ≡ P.pages pages.old root) }
    ensures bytes { AreReadable (P.pages pages.old) (P.count pages.old) → OnOk result (P.looked pages.new ≡ P.pages pages.old root) }
    ensures here { OnOk result (AskedSince (P.asked pages.old) (P.asked pages.new) root) }
    ensures keeps { KeepsAsked (P.asked pages.old) (P.asked pages.new) }
    ensures more { AsksOnly (λ _. 1) (P.asked pages.old) (P.asked pages.new) }
    ensures damaged { (damage : Damage) → IsErrOf result (PageFault.Damaged damage)
        → (damage.page ≡ root) × AskedSince (P.asked pages.old) (P.asked pages.new) root
        × BreaksPlace damage.rule (P.pages pages.old) (P.count pages.old) root (λ found. 9 < found) }
    ensures counted { (damage : Damage) → IsErrOf result (PageFault.Damaged damage) → damage.rule ≡ WrongLevel → P.count pages.old ≤ 2 ^ 32 }
    ensures fails { FailsReading P.Pages pages.old pages.new result }
    ensures frame { Reads P.Pages pages.old pages.new }
{
    match enter(pages, root) {
        Ok(level) => {
            if level <= LEVEL_MAX {
                return Ok(level);
            }
            // The pages counted are a u32, so no well-formed tree is so high.
            let _counted = pages.counted();
            Err(damaged(root, Rule::Level))
        }
        Err(fault) => Err(fault),
    }
}
