//! Nodes that are read and checked.
ghost use Rattle.std.specs.Prelude.{◌≡◌, ◌≢◌, ◌⊎◌, ◌<◌, true, length, OnOk, IfOk, IsErrOf};
ghost use Rattle.page_face.specs.Calls.{Looks};
ghost use Rattle.page_face.specs.Causes.{IsUncounted};
ghost use Rattle.page_face.specs.declared.fault.Rule.TheVariants.{Level as WrongLevel};
ghost use Rattle.btree_nodes.specs.Damages.{AskedSince, AsksOnly};
ghost use Rattle.rtree_nodes.specs.Slots.{filled};
ghost use Rattle.rtree_nodes.specs.Pages.{level_in, mask_of, is_form, slots_in};
ghost use Rattle.rtree_nodes.specs.Harms.{IfReadable};
ghost use Rattle.irtree_shape.specs.Damages.{IsBroken};
ghost use Rattle.irtree_insert.specs.Drafts.{IsDraft};

use crate::draft::Draft;
use page_face::{Damage, PageFault, Pages, Rule};

/// The fault of a page that breaks a rule.
pub(crate) fn damaged(page: u32, rule: Rule) -> PageFault
    ensures { result ≡ PageFault.Damaged (record { page = page; rule = rule }) }
{
    PageFault::Damaged(Damage { page, rule })
}

/// Loads a node's page, and returns its level. It reads one page.
///
/// Refuses as `look` does, and `Damaged` with `Kind`, `Fill` or `Value` at the page as `Draft::load` does.
pub(crate) fn fetch<P: Pages>(pages: &mut P, page: u32, draft: &mut Draft) -> Result<u8, PageFault>
    ensures bytes { OnOk result (0 < length (P.pages pages.old page) → draft.new.bytes ≡ P.pages pages.old page) }
    ensures draft { OnOk result (is_form draft.new.bytes ≡ true → IsDraft draft.new) }
    ensures used { OnOk result (draft.new.used ≡ mask_of draft.new.bytes) }
    ensures some { OnOk result (0 < draft.new.used) }
    ensures level { IfOk result (λ level. level ≡ level_in draft.new.bytes) }
    ensures counted { OnOk result (IsUncounted (P.count pages.old) page → ⊥) }

    ensures no_false_damage { (IsUncounted (P.count pages.old) page → ⊥) → 0 < filled (slots_in (P.pages pages.old page)) → (damage : Damage) → result ≢ Err (PageFault.Damaged damage) }
    ensures here { OnOk result (AskedSince (P.asked pages.old) (P.asked pages.new) page) }
    ensures more { AsksOnly (λ _. 1) (P.asked pages.old) (P.asked pages.new) }
    ensures damaged { (damage : Damage) → IsErrOf result (PageFault.Damaged damage)
        → (damage.page ≡ page) × AskedSince (P.asked pages.old) (P.asked pages.new) page × IsBroken damage.rule (P.pages pages.old) (P.count pages.old) page }
    ensures looks { Looks P.Pages pages.old pages.new result }
{
    if let Err(fault) = pages.look(page) {
        return Err(fault);
    }
    match draft.load(pages.looked()) {
        Ok(level) => Ok(level),
        Err(rule) => Err(damaged(page, rule)),
    }
}

/// Loads a node's page, which is to be of this level. It reads one page.
///
/// Refuses as `fetch` does, and then `Damaged` with `Level` at the page if it is of another level.
pub(crate) fn fetch_at<P: Pages>(
    pages: &mut P,
    page: u32,
    level: u8,
    draft: &mut Draft,
) -> Result<(), PageFault>
    ensures bytes { OnOk result (0 < length (P.pages pages.old page) → draft.new.bytes ≡ P.pages pages.old page) }
    ensures draft { OnOk result (is_form draft.new.bytes ≡ true → IsDraft draft.new) }
    ensures used { OnOk result (draft.new.used ≡ mask_of draft.new.bytes) }
    ensures some { OnOk result (0 < draft.new.used) }
    ensures level { OnOk result (level_in draft.new.bytes ≡ level) }
    ensures counted { OnOk result (IsUncounted (P.count pages.old) page → ⊥) }

    ensures no_false_damage { (IsUncounted (P.count pages.old) page → ⊥) → 0 < filled (slots_in (P.pages pages.old page)) → level_in (P.pages pages.old page) ≡ level → (damage : Damage) → result ≢ Err (PageFault.Damaged damage) }
    ensures here { OnOk result (AskedSince (P.asked pages.old) (P.asked pages.new) page) }
    ensures more { AsksOnly (λ _. 1) (P.asked pages.old) (P.asked pages.new) }
    ensures damaged { (damage : Damage) → IsErrOf result (PageFault.Damaged damage)
        → (damage.page ≡ page) × AskedSince (P.asked pages.old) (P.asked pages.new) page
        × (IsBroken damage.rule (P.pages pages.old) (P.count pages.old) page ⊎ ((damage.rule ≡ WrongLevel) × IfReadable (P.pages pages.old) page (λ bytes. level_in bytes ≢ level))) }
    ensures looks { Looks P.Pages pages.old pages.new result }
{
    match fetch(pages, page, draft) {
        Ok(found) => {
            if found == level {
                Ok(())
            } else {
                Err(damaged(page, Rule::Level))
            }
        }
        Err(fault) => Err(fault),
    }
}
