//! A page that a structure names.
ghost use Rattle.std.specs.Prelude.{◌≡◌, ℕ, ◌+◌, ◌++◌, ◌∷◌, [], OnOk, IsErrOf};
ghost use Rattle.page_face.specs.Calls.{FailsReading, Reads};
ghost use Rattle.page_face.specs.Causes.{IsUncounted};
ghost use Rattle.btree_nodes.specs.Damages.{AreReadable};
ghost use Rattle.btree_nodes.specs.Supply.{one_at};
ghost use Rattle.page_walks.specs.Met.{held, Meets};
ghost use Rattle.page_walks.specs.Misuse.{IsMisused};

use crate::met::meet;
use btree_nodes::damaged;
use page_face::{Damage, PageFault, Pages, Rule};
use std::collections::BTreeSet;

/// Meets a page that a structure names, and looks at it.
///
/// Returns `Damaged` at the page with `Link` if it is 0 or isn't counted, and otherwise with `Shared` if it was met before. It isn't asked
/// for then, and the pages met are as before. Returns `Disk`, `Stopped` or `Memory` as a look does; the page may then have been met.
///
/// Looks at this page and no other. Takes memory for one page number.
pub fn enter<P: Pages>(pages: &mut P, page: u32, met: &mut BTreeSet<u32>) -> Result<(), PageFault>
    ensures looked { AreReadable (P.pages pages.old) (P.count pages.old) → OnOk result (P.looked pages.new ≡ P.pages pages.old page) }
    ensures counted { OnOk result (¬ IsUncounted (P.count pages.old) page) }
    ensures met { OnOk result ((n : ℕ) → held met.new n ≡ held met.old n + one_at page n) }
    ensures asked { OnOk result (P.asked pages.new ≡ P.asked pages.old ++ page ∷ []) }
    ensures damaged { (damage : Damage) → IsErrOf result (PageFault.Damaged damage) → IsMisused (P.count pages.old) (held met.old) (one_at page) damage }
    ensures unmet { (damage : Damage) → IsErrOf result (PageFault.Damaged damage) → (n : ℕ) → held met.new n ≡ held met.old n }
    ensures unasked { (damage : Damage) → IsErrOf result (PageFault.Damaged damage) → P.asked pages.new ≡ P.asked pages.old }
    ensures meets { Meets (one_at page) (P.asked pages.old) (P.asked pages.new) (held met.old) (held met.new) }
    ensures fails { FailsReading P.Pages pages.old pages.new result }
    ensures frame { Reads P.Pages pages.old pages.new }
{
    if page == 0 {
        return Err(damaged(page, Rule::Link));
    }
    if pages.counted() <= page {
        return Err(damaged(page, Rule::Link));
    }
    match meet(met, page) {
        Ok(true) => {}
        Ok(false) => return Err(damaged(page, Rule::Shared)),
        Err(_) => return Err(PageFault::Memory),
    }
    match pages.look(page) {
        Ok(()) => Ok(()),
        Err(fault) => Err(fault),
    }
}
