//! A step down from an inner page, whose place is kept for the way up.
ghost use Rattle.std.specs.Prelude.{◌≡◌, ℕ, ◌+◌, ◌<◌, ◌≤◌, List, ◌∷◌, [], ◌++◌, length, IfOk, IfErr, IsErrOf};
ghost use Rattle.page_face.specs.Calls.{FailsReading, Reads};
ghost use Rattle.page_face.specs.Causes.{IsUncounted};
ghost use Rattle.page_face.specs.Number.{number};
ghost use Rattle.page_face.specs.Nodes.{count_of};
ghost use Rattle.btree_nodes.specs.Nodes.{IsInner};
ghost use Rattle.btree_nodes.specs.Tree.{uses};
ghost use Rattle.btree_nodes.specs.Damages.{BreaksInner, IsDamaged, AskedSince, AsksOnly};
ghost use Rattle.btree_nodes.specs.Steps.{low_of, high_of};
ghost use Rattle.btree_insert.specs.Steps.{StepsAt};

use btree_nodes::{Bounds, Form, child_at, damaged, inner_count, place_in};
use page_face::{Damage, Page, PageFault, Pages, Rule};

/// A step from an inner page to a child.
#[derive(Clone, Copy, Debug, PartialEq, Eq)]
pub struct Step {
    /// The place of the child's entry.
    pub at: usize,
    /// The child's page.
    pub child: u32,
}

// The step from an inner page of `count` entries to the child that a key belongs to, whose bounds are then in `bounds`.
fn step_in(
    page: &Page,
    form: Form,
    count: usize,
    least: usize,
    level: u8,
    bounds: &mut Bounds,
    key: &[u8],
) -> Step
    requires count { count ≡ count_of page.now }
    requires sound { IsInner form least level page.now }
    requires key { length key.now ≡ form.key }
    requires top { 0 < bounds.old.top → bounds.old.top ≡ form.key }
    ensures steps { StepsAt form page.now (number key.now) (low_of form bounds.old) (high_of form bounds.old) result.at result.child (low_of form bounds.new) (high_of form bounds.new) }
    ensures top { 0 < bounds.new.top → bounds.new.top ≡ form.key }
{
    let at = place_in(page, form, count, least, level, key);
    bounds.narrow(page, form, count, at);
    Step {
        at,
        child: child_at(page, form, at),
    }
}

// The step from the page looked at to the child that a key belongs to.
//
// Refuses the rule that the page breaks between these bounds.
fn step_from<P: Pages>(
    pages: &mut P,
    form: Form,
    least: usize,
    level: u8,
    bounds: &mut Bounds,
    key: &[u8],
) -> Result<Step, Rule>
    requires least { 2 ≤ least }
    requires level { 0 < level }
    requires key { length key.now ≡ form.key }
    requires top { 0 < bounds.old.top → bounds.old.top ≡ form.key }
    ensures sound { IfOk result (λ step. IsInner form least level (P.looked pages.old)) }
    ensures steps { IfOk result (λ step. StepsAt form (P.looked pages.old) (number key.now) (low_of form bounds.old) (high_of form bounds.old) step.at step.child (low_of form bounds.new) (high_of form bounds.new)) }
    ensures breaks { IfErr result (λ rule. BreaksInner rule form least level (low_of form bounds.old) (high_of form bounds.old) (P.looked pages.old)) }
    ensures top { 0 < bounds.new.top → bounds.new.top ≡ form.key }
    ensures asked { P.asked pages.new ≡ P.asked pages.old }
    ensures frame { Reads P.Pages pages.old pages.new }
    ensures faults { P.faults pages.new ≡ P.faults pages.old }
{
    match inner_count(
        pages,
        form,
        least,
        level,
        bounds.low(form),
        bounds.high(form),
    ) {
        Ok(count) => Ok(step_in(pages.looked(), form, count, least, level, bounds, key)),
        Err(rule) => Err(rule),
    }
}

/// Looks at the child that a key belongs to, of the inner page looked at, which is `page`. The child's bounds are then in
/// `bounds`.
///
/// Refuses `Damaged` with the rule that the page breaks between its bounds, or with `Link` at the child; `Disk`; `Stopped`;
/// `Memory`. Looks at one page, and copies none. It has a frame of its own, so that no level of a put holds what it copies of the
/// bounds.
#[inline(never)]
pub fn go_down<P: Pages>(
    pages: &mut P,
    form: Form,
    least: usize,
    page: u32,
    level: u8,
    bounds: &mut Bounds,
    key: &[u8],
) -> Result<Step, PageFault>
    requires least { 2 ≤ least }
    requires level { 0 < level }
    requires key { length key.now ≡ form.key }
    requires top { 0 < bounds.old.top → bounds.old.top ≡ form.key }
    ensures sound { IfOk result (λ step. IsInner form least level (P.looked pages.old)) }
    ensures steps { IfOk result (λ step. StepsAt form (P.looked pages.old) (number key.now) (low_of form bounds.old) (high_of form bounds.old) step.at step.child (low_of form bounds.new) (high_of form bounds.new)) }
    ensures gives { IfOk result (λ step. 0 < length (P.pages pages.old step.child) → P.looked pages.new ≡ P.pages pages.old step.child) }
    ensures counted { IfOk result (λ step. ¬ IsUncounted (P.count pages.old) step.child) }
    ensures asked { IfOk result (λ step. P.asked pages.new ≡ P.asked pages.old ++ step.child ∷ []) }
    ensures top { IfOk result (λ step. 0 < bounds.new.top → bounds.new.top ≡ form.key) }
    ensures damaged { P.looked pages.old ≡ P.pages pages.old page → (damage : Damage) → IsErrOf result (PageFault.Damaged damage)
        → IsDamaged form (P.pages pages.old) (P.count pages.old) damage least level page (low_of form bounds.old) (high_of form bounds.old) }
    ensures named { (before : List ℕ) → P.asked pages.old ≡ before ++ page ∷ []
        → (damage : Damage) → IsErrOf result (PageFault.Damaged damage) → AskedSince before (P.asked pages.new) damage.page }
    ensures own { (before : List ℕ) → P.asked pages.old ≡ before ++ page ∷ [] → P.looked pages.old ≡ P.pages pages.old page
        → AsksOnly (uses form (P.pages pages.old) level page) before (P.asked pages.new) }
    ensures fails { FailsReading P.Pages pages.old pages.new result }
    ensures frame { Reads P.Pages pages.old pages.new }
{
    let step = match step_from(pages, form, least, level, bounds, key) {
        Ok(step) => step,
        Err(rule) => return Err(damaged(page, rule)),
    };
    match pages.look(step.child) {
        Ok(()) => Ok(step),
        Err(fault) => Err(fault),
    }
}
