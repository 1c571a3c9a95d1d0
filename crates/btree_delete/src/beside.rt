//! The neighbour of a child, read before anything is written.
ghost use Rattle.std.specs.Prelude.{◌≡◌, ◌+◌, ◌*◌, ◌<◌, ◌≤◌, ℕ, suc, length, IfOk, IsErrOf};
ghost use Rattle.page_face.specs.Calls.{FailsReading, Reads};
ghost use Rattle.page_face.specs.Causes.{IsUncounted};
ghost use Rattle.page_face.specs.Number.{number};
ghost use Rattle.page_face.specs.Nodes.{count_of};
ghost use Rattle.btree_nodes.specs.Nodes.{width_of, half_of};
ghost use Rattle.btree_nodes.specs.Tree.{IsTree, uses};
ghost use Rattle.btree_nodes.specs.Bounds.{upper_of, child_of};
ghost use Rattle.btree_nodes.specs.Damages.{IsDamaged, AreReadable, AskedSince, AsksOnly};
ghost use Rattle.btree_delete.specs.Mended.{IsBeside};
ghost use Rattle.btree_delete.specs.Looks.{HasLooked, ReadableBeside};

use crate::node::check_child;
use crate::settling::Beside;
use btree_nodes::{Form, Found, child_at, count, damaged, least_at, lower, upper};
use page_face::{Damage, Page, PageFault, Pages};

// The place next to this one: the next, or the one before it if this is the last.
fn next_to(found: Found) -> usize
    requires at { found.at < found.count }
    requires some { 2 ≤ found.count }
    ensures { IsBeside found.at found.count result }
{
    if found.at + 1 < found.count {
        found.at + 1
    } else {
        found.at - 1
    }
}

/// Reads the neighbour of the child at this place of an inner page, whose bytes were read.
///
/// Refuses as `read` does, and `Damaged` with the rule that the neighbour breaks in its place.
#[tactic(auto, using(crate::proofs::Settles::half_some))]
pub fn look_beside<P: Pages>(
    pages: &mut P,
    form: Form,
    bytes: &Page,
    below: u8,
    found: Found,
    low: &[u8],
    high: &[u8],
) -> Result<Beside, PageFault>
    requires at { found.at < found.count }
    requires some { 2 ≤ found.count }
    requires count { found.count ≡ count_of bytes.now }
    requires fits { 16 + (form.key + 4) * found.count ≤ 4096 }
    requires low { length low.now ≡ form.key }
    requires high { 0 < length high.now → length high.now ≡ form.key }
    ensures place { IfOk result (λ b. IsBeside found.at found.count b.at) }
    ensures gives { IfOk result (λ b. 0 < length (P.pages pages.old (child_of form bytes.now b.at)) → b.bytes ≡ P.pages pages.old (child_of form bytes.now b.at)) }
    ensures counted { IfOk result (λ b. ¬ IsUncounted (P.count pages.old) (child_of form bytes.now b.at)) }
    ensures count { IfOk result (λ b. (b.count ≡ count_of b.bytes) × (half_of form below ≤ b.count) × (16 + width_of form below * b.count ≤ 4096)) }

    ensures damaged { (page least : ℕ) → AreReadable (P.pages pages.old) (P.count pages.old) → bytes.now ≡ P.pages pages.old page
        → (damage : Damage) → IsErrOf result (PageFault.Damaged damage)
        → IsDamaged form (P.pages pages.old) (P.count pages.old) damage least (suc below) page (number low.now) (upper_of form.key high.now) }
    ensures in_tree { (page least : ℕ) → bytes.now ≡ P.pages pages.old page
        → IsTree form least (P.pages pages.old) (suc below) page (number low.now) (upper_of form.key high.now)
        → (damage : Damage) → IsErrOf result (PageFault.Damaged damage)
        → IsDamaged form (P.pages pages.old) (P.count pages.old) damage least (suc below) page (number low.now) (upper_of form.key high.now) }
    ensures named { (damage : Damage) → IsErrOf result (PageFault.Damaged damage) → AskedSince (P.asked pages.old) (P.asked pages.new) damage.page }
    ensures own { (page : ℕ) → bytes.now ≡ P.pages pages.old page → AsksOnly (uses form (P.pages pages.old) (suc below) page) (P.asked pages.old) (P.asked pages.new) }
    ensures more { AsksOnly (λ _. 1) (P.asked pages.old) (P.asked pages.new) }
    ensures fails { FailsReading P.Pages pages.old pages.new result }
    ensures frame { Reads P.Pages pages.old pages.new }
{
    let near = next_to(found);
    let child = child_at(bytes, form, near);
    let page = pages.read(child)?;
    match check_child(
        &page,
        form,
        least_at(form, below),
        below,
        lower(bytes, form, near, low),
        upper(bytes, form, found.count, near, high),
    ) {
        Ok(count) => Ok(Beside {
            at: near,
            count,
            bytes: page,
        }),
        Err(rule) => Err(damaged(child, rule)),
    }
}

/// Reads the neighbour of a child that would have too few cells if it lost one. Returns `None` if the child has enough.
///
/// `child` are the child's bytes. Refuses as [`look_beside`].
pub fn look_if_low<P: Pages>(
    pages: &mut P,
    form: Form,
    bytes: &Page,
    below: u8,
    found: Found,
    child: &Page,
    low: &[u8],
    high: &[u8],
) -> Result<Option<Beside>, PageFault>
    requires at { found.at < found.count }
    requires some { 2 ≤ found.count }
    requires count { found.count ≡ count_of bytes.now }
    requires fits { 16 + (form.key + 4) * found.count ≤ 4096 }
    requires low { length low.now ≡ form.key }
    requires high { 0 < length high.now → length high.now ≡ form.key }
    ensures looked { IfOk result (HasLooked form (P.count pages.old) below bytes.now found.at found.count (count_of child.now)) }
    ensures readable { IfOk result (ReadableBeside form (P.pages pages.old) bytes.now) }

    ensures damaged { (page least : ℕ) → AreReadable (P.pages pages.old) (P.count pages.old) → bytes.now ≡ P.pages pages.old page
        → (damage : Damage) → IsErrOf result (PageFault.Damaged damage)
        → IsDamaged form (P.pages pages.old) (P.count pages.old) damage least (suc below) page (number low.now) (upper_of form.key high.now) }
    ensures in_tree { (page least : ℕ) → bytes.now ≡ P.pages pages.old page
        → IsTree form least (P.pages pages.old) (suc below) page (number low.now) (upper_of form.key high.now)
        → (damage : Damage) → IsErrOf result (PageFault.Damaged damage)
        → IsDamaged form (P.pages pages.old) (P.count pages.old) damage least (suc below) page (number low.now) (upper_of form.key high.now) }
    ensures named { (damage : Damage) → IsErrOf result (PageFault.Damaged damage) → AskedSince (P.asked pages.old) (P.asked pages.new) damage.page }
    ensures own { (page : ℕ) → bytes.now ≡ P.pages pages.old page → AsksOnly (uses form (P.pages pages.old) (suc below) page) (P.asked pages.old) (P.asked pages.new) }
    ensures more { AsksOnly (λ _. 1) (P.asked pages.old) (P.asked pages.new) }
    ensures fails { FailsReading P.Pages pages.old pages.new result }
    ensures frame { Reads P.Pages pages.old pages.new }
{
    if count(child) > least_at(form, below) {
        return Ok(None);
    }
    let beside = look_beside(pages, form, bytes, below, found, low, high)?;
    Ok(Some(beside))
}
