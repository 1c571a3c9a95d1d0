//! The search among lists in memory that is led by the picks of one of them.
ghost use Rattle.std.specs.Prelude.{◌≡◌, ◌<◌, ◌≤◌, ◌∷◌, ◌++◌, [], if◌then◌else◌, Vec, length, IfOk, OnOk};
ghost use Rattle.std.specs.List.{AllByRecursion, filter};
ghost use Rattle.std.specs.declared.alloc.Global.{Global};
ghost use Rattle.spatial_base.specs.Point.{distance};
ghost use Rattle.place_values.specs.declared.query.Pick.{Pick};
ghost use Rattle.place_values.specs.Search.{lists_in};
ghost use Rattle.group_search.specs.declared.bounding.Lead.{Lead};
ghost use Rattle.group_search.specs.Blocks.{IsBlock, ArePacks, block_picks, packed_lists};
ghost use Rattle.group_search.specs.Choices.{IsCut};
ghost use Rattle.group_search.specs.Joins.{may_join};
ghost use Rattle.group_search.specs.Leads.{led_by, AreLeads, AreBounds, IsPaired, AreGathered, OfEach, Follows, lead_picks};
ghost use Rattle.group_search.specs.Picks.{AreNear, AreMeasured};
ghost use Rattle.group_search.specs.Tried.{IsChosen, IsBest};

use crate::bounding::{Lead, block_cost, bounded};
use crate::joining::may_join;
use crate::lists::{alone, is_behind, list_at};
use crate::packing::{Block, packed_each};
use crate::search::least_choice;
use place_values::{Chosen, Pick};
use spatial_base::Origin;
use std::alloc::{AllocError, Global};

// Adds those of some picks that may be in a choice with the lead that costs at most so much.
fn add_paired(
    at: &Origin,
    anchor: &Pick,
    picks: &[Pick],
    most: u64,
    near: &mut Vec<Pick>,
) -> Result<(), AllocError>
    requires anchor { anchor.now.dist ≤ 2545584412 }
    requires picks { AreNear picks.now }
    ensures { OnOk result (near.new.items ≡ near.old.items ++ filter (may_join at.now.scale most anchor.now) picks.now) }
{
    for pick in picks {
        if may_join(at, anchor, pick, most) {
            near.push(*pick)?;
        }
    }
    Ok(())
}

// The picks of some blocks that may be in a choice with the lead that costs at most so much.
fn paired(
    alloc: Global,
    at: &Origin,
    anchor: &Pick,
    blocks: &[Block],
    most: u64,
) -> Result<Vec<Pick>, AllocError>
    requires anchor { anchor.now.dist ≤ 2545584412 }
    requires blocks { AllByRecursion (IsBlock at.now) blocks.now }
    ensures { IfOk result (λ picks. picks.items ≡ filter (may_join at.now.scale most anchor.now) (block_picks blocks.now)) }
{
    let mut near = Vec::new(alloc);
    for block in blocks {
        if block_cost(at, anchor, block) <= most {
            add_paired(at, anchor, &block.picks, most, &mut near)?;
        }
    }
    Ok(near)
}

// The picks of some blocks that may be in a choice with the lead that costs at most so much. For its own word this is the lead alone.
fn beside(
    alloc: Global,
    at: &Origin,
    anchor: &Pick,
    blocks: &[Block],
    is_own: bool,
    most: u64,
) -> Result<Vec<Pick>, AllocError>
    requires anchor { anchor.now.dist ≤ 2545584412 }
    requires anchor_measured { anchor.now.dist ≡ distance at.now anchor.now.point }
    requires blocks { AllByRecursion (IsBlock at.now) blocks.now }
    ensures cut { IfOk result (λ picks. IsCut (IsPaired at.now anchor.now most) (if is_own then anchor.now ∷ [] else block_picks blocks.now) picks.items) }
    ensures near { IfOk result (λ picks. AreNear picks.items) }
    ensures measured { IfOk result (λ picks. AreMeasured at.now picks.items) }
{
    if is_own {
        return alone(alloc, anchor);
    }
    paired(alloc, at, anchor, blocks, most)
}

// For each word the picks that may be in a choice with the lead that costs at most so much, or nothing if a word has none.
fn gather_paired(
    alloc: Global,
    at: &Origin,
    packs: &[Vec<Block>],
    anchor: &Pick,
    own: usize,
    most: u64,
) -> Result<Option<Vec<Vec<Pick>>>, AllocError>
    requires anchor { anchor.now.dist ≤ 2545584412 }
    requires anchor_measured { anchor.now.dist ≡ distance at.now anchor.now.point }
    requires packs { ArePacks at.now packs.now }
    ensures gathered { IfOk result (AreGathered (IsPaired at.now anchor.now most) (led_by own anchor.now (packed_lists packs.now))) }
    ensures near { IfOk result (OfEach AreNear) }
    ensures measured { IfOk result (OfEach (AreMeasured at.now)) }
{
    let mut lists = Vec::new(alloc);
    for (index, blocks) in packs.iter().enumerate() {
        let picks = beside(alloc, at, anchor, blocks, index == own, most)?;
        if picks.is_empty() {
            return Ok(None);
        }
        lists.push(picks)?;
    }
    Ok(Some(lists))
}

// Leaves the best of the best choice so far and all choices that take a lead pick.
fn follow_in(
    alloc: Global,
    at: &Origin,
    packs: &[Vec<Block>],
    anchor: &Pick,
    own: usize,
    best: &mut Chosen,
) -> Result<(), AllocError>
    requires anchor { anchor.now.dist ≤ 2545584412 }
    requires anchor_measured { anchor.now.dist ≡ distance at.now anchor.now.point }
    requires packs { ArePacks at.now packs.now }
    requires cost { best.old.cost ≤ 5091168824 }
    ensures followed { AreLeads (packed_lists packs.now) own (anchor.now ∷ []) → IsChosen at.now (packed_lists packs.now) best.old
        → OnOk result (Follows at.now (packed_lists packs.now) own (anchor.now ∷ []) best.old best.new) }
    ensures cost { OnOk result (best.new.cost ≤ best.old.cost) }
{
    let gathered = gather_paired(alloc, at, packs, anchor, own, best.cost)?;
    match gathered {
        Some(lists) => least_choice(alloc, at, &lists, best),
        None => Ok(()),
    }
}

// Leaves the best of the best choice so far and all choices that take one of the leads. Passes over a lead with which a choice costs more
// than the best one, and one at the point of the last that was followed, if it doesn't come before it.
fn follow_bounded(
    alloc: Global,
    at: &Origin,
    packs: &[Vec<Block>],
    leads: &[Lead],
    own: usize,
    best: &mut Chosen,
) -> Result<(), AllocError>
    requires leads { AreNear (lead_picks leads.now) }
    requires measured { AreMeasured at.now (lead_picks leads.now) }
    requires packs { ArePacks at.now packs.now }
    requires cost { best.old.cost ≤ 5091168824 }
    ensures followed { AreLeads (packed_lists packs.now) own (lead_picks leads.now) → AreBounds at.now (packed_lists packs.now) own leads.now → IsChosen at.now (packed_lists packs.now) best.old
        → OnOk result (Follows at.now (packed_lists packs.now) own (lead_picks leads.now) best.old best.new) }
    ensures cost { OnOk result (best.new.cost ≤ best.old.cost) }
{
    let mut last = None;
    for lead in leads {
        if lead.least > best.cost {
            continue;
        }
        if is_behind(&lead.pick, &last) {
            continue;
        }
        follow_in(alloc, at, packs, &lead.pick, own, best)?;
        last = Some(lead.pick);
    }
    Ok(())
}

/// Leaves the least of all choices of a pick of each list, if the best one so far is one of them. `own` is the position of a list.
///
/// The picks of this list lead. For each of them it finds what a choice with it costs at least: the greatest of the costs with the best
/// partner for each word. Those partners are a choice too. Then the leads are followed in the order of these costs, those alone with which
/// a choice may cost as little as the best one. All choices of the picks round such a lead are searched.
pub fn search_lists(
    alloc: Global,
    at: &Origin,
    lists: &[Vec<Pick>],
    own: usize,
    best: &mut Chosen,
) -> Result<(), AllocError>
    requires near { AllByRecursion (λ (list : Vec Pick Global). AreNear list.items) lists.now }
    requires measured { AllByRecursion (λ (list : Vec Pick Global). AreMeasured at.now list.items) lists.now }
    requires cost { best.old.cost ≤ 5091168824 }
    ensures least { own < length lists.now → IsChosen at.now (lists_in lists.now) best.old
        → OnOk result (IsBest at.now (lists_in lists.now) best.old best.new) }
    ensures cost { OnOk result (best.new.cost ≤ best.old.cost) }
{
    let packs = packed_each(alloc, lists)?;
    let picks = list_at(lists, own);
    let mut leads = bounded(alloc, at, &packs, picks, own, &mut *best)?;
    leads.sort_unstable();
    follow_bounded(alloc, at, &packs, &leads, own, best)
}
