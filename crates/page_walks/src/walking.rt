//! The walk over the pages of a map.
ghost use Rattle.std.specs.Prelude.{◌≡◌, ℕ, suc, ◌+◌, ◌*◌, ◌<◌, ◌≤◌, List, length, OnOk, IsErrOf};
ghost use Rattle.page_face.specs.Calls.{FailsReading, Reads};
ghost use Rattle.page_face.specs.Nodes.{count_of};
ghost use Rattle.page_face.specs.Number.{number};
ghost use Rattle.btree_nodes.specs.Bounds.{upper_of};
ghost use Rattle.btree_nodes.specs.Damages.{AreReadable, IsOrdered};
ghost use Rattle.btree_nodes.specs.Nodes.{IsInner, least_of_root};
ghost use Rattle.btree_nodes.specs.Rows.{Row};
ghost use Rattle.btree_nodes.specs.Tree.{map_rows, map_uses};
ghost use Rattle.page_walks.specs.Met.{held, Meets};
ghost use Rattle.page_walks.specs.Beneath.{beneath};
ghost use Rattle.page_walks.specs.Leaves.{IsBadBelow};
ghost use Rattle.page_walks.specs.Maps.{IsBadMap, IsGoodMap};
ghost use Rattle.page_walks.specs.Walks.{HasWalked};

use crate::enter;
use crate::sink::{Refusal, Sink};
use btree_nodes::{
    Bounds, Form, child_at, damaged, inner_count, leaf_count, least_at, level, lower, root_least,
    upper,
};
use page_face::{Damage, Page, PageFault, Pages};
use std::collections::BTreeSet;

// Checks the leaf looked at, which has this number, and hands it to the sink.
fn leaf<P: Pages, S: Sink>(
    pages: &mut P,
    form: Form,
    least: usize,
    page: u32,
    low: &[u8],
    high: &[u8],
    met: &BTreeSet<u32>,
    sink: &mut S,
) -> Result<(), PageFault>
    requires form { S.form ≡ form }
    requires least { 1 ≤ least }
    requires low { length low.now ≡ form.key }
    requires high { 0 < length high.now → length high.now ≡ form.key }
    requires looked { AreReadable (P.pages pages.old) (P.count pages.old) → P.looked pages.old ≡ P.pages pages.old page }
    ensures walked { AreReadable (P.pages pages.old) (P.count pages.old)
        → OnOk result (HasWalked S.good (λ rows. S.takes sink.old rows sink.new) form (P.pages pages.old) (P.count pages.old) least 0 page
        (number low.now) (upper_of form.key high.now) (held met.now) (held met.now)) }
    ensures damaged { AreReadable (P.pages pages.old) (P.count pages.old)
        → (damage : Damage) → IsErrOf result (PageFault.Damaged damage)
        → IsBadBelow S.breaks form (P.pages pages.old) (P.count pages.old) (held met.now) least 0 page (number low.now) (upper_of form.key high.now) damage }
    ensures asked { P.asked pages.new ≡ P.asked pages.old }
    ensures fails { FailsReading P.Pages pages.old pages.new result }
    ensures frame { Reads P.Pages pages.old pages.new }
{
    match leaf_count(pages, form, least, low, high) {
        Ok(count) => match sink.leaf(pages.looked(), count) {
            Ok(()) => Ok(()),
            Err(Refusal::Memory) => Err(PageFault::Memory),
            Err(Refusal::Breaks(rule)) => Err(damaged(page, rule)),
        },
        Err(rule) => Err(damaged(page, rule)),
    }
}

// Walks the page looked at, which has this number and was met, and all below it.
#[cycle(walk)]
fn below<P: Pages, S: Sink>(
    pages: &mut P,
    form: Form,
    least: usize,
    level: u8,
    page: u32,
    low: &[u8],
    high: &[u8],
    met: &mut BTreeSet<u32>,
    sink: &mut S,
) -> Result<(), PageFault>
    requires form { S.form ≡ form }
    requires least { least_of_root level ≤ least }
    requires low { length low.now ≡ form.key }
    requires high { 0 < length high.now → length high.now ≡ form.key }
    requires looked { AreReadable (P.pages pages.old) (P.count pages.old) → P.looked pages.old ≡ P.pages pages.old page }
    ensures walked { AreReadable (P.pages pages.old) (P.count pages.old)
        → OnOk result (HasWalked S.good (λ rows. S.takes sink.old rows sink.new) form (P.pages pages.old) (P.count pages.old) least level page
        (number low.now) (upper_of form.key high.now) (held met.old) (held met.new)) }
    ensures damaged { AreReadable (P.pages pages.old) (P.count pages.old)
        → (damage : Damage) → IsErrOf result (PageFault.Damaged damage)
        → IsBadBelow S.breaks form (P.pages pages.old) (P.count pages.old) (held met.old) least level page (number low.now) (upper_of form.key high.now) damage }
    ensures meets { AreReadable (P.pages pages.old) (P.count pages.old)
        → Meets (beneath form (P.pages pages.old) level page) (P.asked pages.old) (P.asked pages.new) (held met.old) (held met.new) }
    ensures fails { FailsReading P.Pages pages.old pages.new result }
    ensures frame { Reads P.Pages pages.old pages.new }
{
    if level == 0 {
        return leaf(pages, form, least, page, low, high, met, sink);
    }
    match inner_count(pages, form, least, level, low, high) {
        Ok(count) => {
            let node = *pages.looked();
            children(
                pages,
                form,
                least,
                level - 1,
                page,
                &node,
                count,
                low,
                high,
                met,
                sink,
            )
        }
        Err(rule) => Err(damaged(page, rule)),
    }
}

// Walks the children of an inner page, which are of this level, and all below them. `node` is a copy of the page, which was checked.
#[cycle(walk)]
fn children<P: Pages, S: Sink>(
    pages: &mut P,
    form: Form,
    least: usize,
    level: u8,
    page: u32,
    node: &Page,
    count: usize,
    low: &[u8],
    high: &[u8],
    met: &mut BTreeSet<u32>,
    sink: &mut S,
) -> Result<(), PageFault>
    requires form { S.form ≡ form }
    requires level { level < 255 }
    requires low { length low.now ≡ form.key }
    requires high { 0 < length high.now → length high.now ≡ form.key }
    requires count { count ≡ count_of node.now }
    requires sound { IsInner form least (suc level) node.now }
    requires order { IsOrdered form (number low.now) (upper_of form.key high.now) node.now }
    requires node { AreReadable (P.pages pages.old) (P.count pages.old) → node.now ≡ P.pages pages.old page }
    ensures walked { AreReadable (P.pages pages.old) (P.count pages.old)
        → OnOk result (HasWalked S.good (λ rows. S.takes sink.old rows sink.new) form (P.pages pages.old) (P.count pages.old) least (suc level) page
        (number low.now) (upper_of form.key high.now) (held met.old) (held met.new)) }
    ensures damaged { AreReadable (P.pages pages.old) (P.count pages.old)
        → (damage : Damage) → IsErrOf result (PageFault.Damaged damage)
        → IsBadBelow S.breaks form (P.pages pages.old) (P.count pages.old) (held met.old) least (suc level) page (number low.now) (upper_of form.key high.now) damage }
    ensures meets { AreReadable (P.pages pages.old) (P.count pages.old)
        → Meets (beneath form (P.pages pages.old) (suc level) page) (P.asked pages.old) (P.asked pages.new) (held met.old) (held met.new) }
    ensures fails { FailsReading P.Pages pages.old pages.new result }
    ensures frame { Reads P.Pages pages.old pages.new }
{
    let half = least_at(form, level);
    for at in 0..count {
        let child = child_at(node, form, at);
        match enter(pages, child, met) {
            Ok(()) => {}
            Err(fault) => return Err(fault),
        }
        let from = lower(node, form, at, low);
        let to = upper(node, form, count, at, high);
        match below(pages, form, half, level, child, from, to, met, sink) {
            Ok(()) => {}
            Err(fault) => return Err(fault),
        }
    }
    Ok(())
}

/// Walks the map below a root: its pages are met, and the sink takes its rows.
///
/// Returns `Damaged` with the first page on the way that is broken and a rule that it breaks, or `Disk`, `Stopped` or `Memory`. Pages of
/// the map may then have been met, and the sink may be in any state.
///
/// Looks once at each page of the map, and takes memory for its number. Holds a copy of one page for each level above the leaf.
pub fn walk_map<P: Pages, S: Sink>(
    pages: &mut P,
    form: Form,
    root: u32,
    met: &mut BTreeSet<u32>,
    sink: &mut S,
) -> Result<(), PageFault>
    requires form { S.form ≡ form }
    ensures whole { AreReadable (P.pages pages.old) (P.count pages.old)
        → OnOk result (IsGoodMap S.good form (P.pages pages.old) (P.count pages.old) (held met.old) root) }
    ensures met { AreReadable (P.pages pages.old) (P.count pages.old)
        → OnOk result ((n : ℕ) → held met.new n ≡ held met.old n + map_uses form (P.pages pages.old) root n) }
    ensures takes { AreReadable (P.pages pages.old) (P.count pages.old)
        → OnOk result (S.takes sink.old (map_rows form (P.pages pages.old) root) sink.new) }
    ensures damaged { AreReadable (P.pages pages.old) (P.count pages.old)
        → (damage : Damage) → IsErrOf result (PageFault.Damaged damage)
        → IsBadMap S.breaks form (P.pages pages.old) (P.count pages.old) (held met.old) root damage }
    ensures meets { AreReadable (P.pages pages.old) (P.count pages.old)
        → Meets (map_uses form (P.pages pages.old) root) (P.asked pages.old) (P.asked pages.new) (held met.old) (held met.new) }
    ensures fails { FailsReading P.Pages pages.old pages.new result }
    ensures frame { Reads P.Pages pages.old pages.new }
{
    if root == 0 {
        return Ok(());
    }
    match enter(pages, root, met) {
        Ok(()) => {}
        Err(fault) => return Err(fault),
    }
    let level = level(pages.looked());
    let bounds = Bounds::all();
    let low = bounds.low(form);
    let high = bounds.high(form);
    match below(
        pages,
        form,
        root_least(level),
        level,
        root,
        low,
        high,
        met,
        sink,
    ) {
        Ok(()) => Ok(()),
        Err(fault) => Err(fault),
    }
}
