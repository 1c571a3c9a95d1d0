//! Looking at a node's page and checking its header.
ghost use Rattle.std.specs.Prelude.{◌≡◌, ◌≢◌, ◌<◌, length, IfOk, OnOk, IsErrOf};
ghost use Rattle.page_face.specs.Calls.{Reads, FailsReading};
ghost use Rattle.page_face.specs.Causes.{IsUncounted};
ghost use Rattle.btree_nodes.specs.Damages.{AskedSince, AsksOnly};
ghost use Rattle.btree_nodes.specs.Supply.{one_at};
ghost use Rattle.rtree_nodes.specs.Pages.{level_in};
ghost use Rattle.rtree_nodes.specs.Harms.{BreaksAlone, BreaksPlace};

use btree_nodes::damaged;
use page_face::{Damage, PageFault, Pages, Rule};
use rtree_nodes::header;

/// Looks at a page, which `Pages::looked` then lends, and returns the level that it gives for itself.
///
/// Refuses `Damaged` with `Link` if the page is 0 or isn't counted, with `Kind` if it isn't a node's and with `Fill` if it has no slot.
/// Refuses `Disk`, `Stopped`, and `Memory` if it runs out of memory.
pub fn enter<P: Pages>(pages: &mut P, page: u32) -> Result<u8, PageFault>
    ensures level { IfOk result (λ level. level ≡ level_in (P.looked pages.new)) }
    ensures gives { OnOk result (0 < length (P.pages pages.old page) → P.looked pages.new ≡ P.pages pages.old page) }
    ensures counted { OnOk result (IsUncounted (P.count pages.old) page → ⊥) }
    ensures here { OnOk result (AskedSince (P.asked pages.old) (P.asked pages.new) page) }
    ensures asks { AsksOnly (one_at page) (P.asked pages.old) (P.asked pages.new) }
    ensures damaged { (damage : Damage) → IsErrOf result (PageFault.Damaged damage)
        → (damage.page ≡ page) × AskedSince (P.asked pages.old) (P.asked pages.new) page × BreaksAlone damage.rule (P.pages pages.old) (P.count pages.old) page }
    ensures fails { FailsReading P.Pages pages.old pages.new result }
    ensures frame { Reads P.Pages pages.old pages.new }
{
    match pages.look(page) {
        Ok(()) => match header(pages.looked()) {
            Ok(head) => Ok(head.level),
            Err(rule) => Err(damaged(page, rule)),
        },
        Err(fault) => Err(fault),
    }
}

/// Looks at a page whose level has to be this one.
///
/// Refuses as [`enter`], and `Damaged` with `Level` if the page has another level.
pub fn enter_at<P: Pages>(pages: &mut P, page: u32, level: u8) -> Result<(), PageFault>
    ensures level { OnOk result (level ≡ level_in (P.looked pages.new)) }
    ensures gives { OnOk result (0 < length (P.pages pages.old page) → P.looked pages.new ≡ P.pages pages.old page) }
    ensures counted { OnOk result (IsUncounted (P.count pages.old) page → ⊥) }
    ensures here { OnOk result (AskedSince (P.asked pages.old) (P.asked pages.new) page) }
    ensures asks { AsksOnly (one_at page) (P.asked pages.old) (P.asked pages.new) }
    ensures damaged { (damage : Damage) → IsErrOf result (PageFault.Damaged damage)
        → (damage.page ≡ page) × AskedSince (P.asked pages.old) (P.asked pages.new) page
        × BreaksPlace damage.rule (P.pages pages.old) (P.count pages.old) page (λ found. found ≢ level) }
    ensures fails { FailsReading P.Pages pages.old pages.new result }
    ensures frame { Reads P.Pages pages.old pages.new }
{
    match enter(pages, page) {
        Ok(found) => {
            if found == level {
                Ok(())
            } else {
                Err(damaged(page, Rule::Level))
            }
        }
        Err(fault) => Err(fault),
    }
}
