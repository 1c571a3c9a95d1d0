//! The walk over the nodes below a page.
ghost use Rattle.std.specs.Prelude.{◌≡◌, ℕ, ◌<◌, true, IfOk, OnOk, IsErrOf};
ghost use Rattle.page_face.specs.Calls.{Reads, FailsReading};
ghost use Rattle.btree_nodes.specs.Damages.{AreReadable};
ghost use Rattle.page_walks.specs.Met.{held};
ghost use Rattle.rtree_nodes.specs.Pages.{level_in, is_form, slots_in};
ghost use Rattle.rtree_nodes.specs.Reach.{reach_of};
ghost use Rattle.rtree_nodes.specs.Slots.{tops};
ghost use Rattle.tree_check.specs.Damages.{IsBrokenBelow};
ghost use Rattle.tree_check.specs.Walks.{IsWalked, IsWalkedSlot, AreWalked, IsBrokenSlot, AreBrokenSlots};

use crate::node::{bounds_of, check_form, child_in, is_same};
use btree_nodes::damaged;
use page_face::{Damage, Page, PageFault, Pages, Rule};
use page_walks::enter;
use rtree_nodes::{SLOTS, SLOTS_MIN};
use spatial_base::Rect;
use std::collections::BTreeSet;

/// Walks a node of this level, whose page was met and has these bytes, and all nodes below it.
///
/// Returns the least rectangle around its items. The pages below it join those met and the list, and its own page joins the list last.
#[cycle(walk)]
pub(crate) fn walk_node<P: Pages>(
    pages: &mut P,
    page: u32,
    bytes: &Page,
    level: u8,
    least: usize,
    met: &mut BTreeSet<u32>,
    list: &mut Vec<u32>,
) -> Result<Rect, PageFault>
    requires least { 0 < least }
    requires bytes { AreReadable (P.pages pages.old) (P.count pages.old) → bytes.now ≡ P.pages pages.old page }
    ensures walked { AreReadable (P.pages pages.old) (P.count pages.old)
        → OnOk result (IsWalked (P.pages pages.old) (P.count pages.old) least level page (held met.old) (held met.new) list.old.items list.new.items) }
    ensures rect { IfOk result (λ rect. (d : ℕ) → reach_of rect d ≡ tops d (slots_in bytes.now)) }
    ensures damaged { AreReadable (P.pages pages.old) (P.count pages.old) → (damage : Damage) → IsErrOf result (PageFault.Damaged damage)
        → IsBrokenBelow (P.pages pages.old) (P.count pages.old) (held met.old) least level page damage }
    ensures fails { FailsReading P.Pages pages.old pages.new result }
    ensures frame { Reads P.Pages pages.old pages.new }
{
    match check_form(bytes, level, least) {
        Ok(()) => {}
        Err(rule) => return Err(damaged(page, rule)),
    }
    match walk_slots(pages, page, bytes, level, met, list) {
        Ok(()) => {}
        Err(fault) => return Err(fault),
    }
    match list.push(page) {
        Ok(()) => Ok(bounds_of(bytes)),
        Err(_) => Err(PageFault::Memory),
    }
}

// Walks all below the slots of a node of this level.
#[cycle(walk)]
fn walk_slots<P: Pages>(
    pages: &mut P,
    page: u32,
    bytes: &Page,
    level: u8,
    met: &mut BTreeSet<u32>,
    list: &mut Vec<u32>,
) -> Result<(), PageFault>
    requires form { is_form bytes.now ≡ true }
    requires level { level_in bytes.now ≡ level }
    ensures walked { AreReadable (P.pages pages.old) (P.count pages.old)
        → OnOk result (AreWalked (P.pages pages.old) (P.count pages.old) level (slots_in bytes.now) (held met.old) (held met.new) list.old.items list.new.items 32) }
    ensures damaged { AreReadable (P.pages pages.old) (P.count pages.old) → (damage : Damage) → IsErrOf result (PageFault.Damaged damage)
        → AreBrokenSlots (P.pages pages.old) (P.count pages.old) (held met.old) level page (slots_in bytes.now) damage }
    ensures fails { FailsReading P.Pages pages.old pages.new result }
    ensures frame { Reads P.Pages pages.old pages.new }
{
    if level == 0 {
        return Ok(());
    }
    for at in 0..SLOTS {
        match walk_slot(pages, page, bytes, at, level, met, list) {
            Ok(()) => {}
            Err(fault) => return Err(fault),
        }
    }
    Ok(())
}

// Walks all below a slot of an inner node of this level.
#[cycle(walk)]
fn walk_slot<P: Pages>(
    pages: &mut P,
    page: u32,
    bytes: &Page,
    at: usize,
    level: u8,
    met: &mut BTreeSet<u32>,
    list: &mut Vec<u32>,
) -> Result<(), PageFault>
    requires within { at < 32 }
    requires form { is_form bytes.now ≡ true }
    requires inner { 0 < level_in bytes.now }
    requires level { level_in bytes.now ≡ level }
    ensures walked { AreReadable (P.pages pages.old) (P.count pages.old)
        → OnOk result (IsWalkedSlot (P.pages pages.old) (P.count pages.old) level (slots_in bytes.now at) (held met.old) (held met.new) list.old.items list.new.items) }
    ensures damaged { AreReadable (P.pages pages.old) (P.count pages.old) → (damage : Damage) → IsErrOf result (PageFault.Damaged damage)
        → IsBrokenSlot (P.pages pages.old) (P.count pages.old) (held met.old) level page (slots_in bytes.now at) damage }
    ensures fails { FailsReading P.Pages pages.old pages.new result }
    ensures frame { Reads P.Pages pages.old pages.new }
{
    let child = match child_in(bytes, at) {
        Some(child) => child,
        None => return Ok(()),
    };
    match enter(pages, child.page, met) {
        Ok(()) => {}
        Err(fault) => return Err(fault),
    }
    let inside = *pages.looked();
    match walk_node(pages, child.page, &inside, level - 1, SLOTS_MIN, met, list) {
        Ok(rect) => {
            if is_same(&child.rect, &rect) {
                Ok(())
            } else {
                Err(damaged(page, Rule::Rect))
            }
        }
        Err(fault) => Err(fault),
    }
}
