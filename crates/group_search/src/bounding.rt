//! What a choice that takes a lead pick costs at least.
ghost use Rattle.std.specs.Prelude.{◌≡◌, ◌<◌, ◌≤◌, ◌∷◌, [], if◌then◌else◌, List, Vec, IfOk, IfSome, OnOk};
ghost use Rattle.std.specs.List.{AllByRecursion, Contains};
ghost use Rattle.std.specs.declared.alloc.Global.{Global};
ghost use Rattle.spatial_base.specs.Point.{distance};
ghost use Rattle.place_values.specs.declared.query.Pick.{Pick};
ghost use Rattle.group_search.specs.Blocks.{IsBlock, ArePacks, IsBelowPairs, block_picks, packed_lists};
ghost use Rattle.group_search.specs.Choices.{IsChoice};
ghost use Rattle.group_search.specs.Joins.{pair_cost};
ghost use Rattle.group_search.specs.Leads.{AreLeads, IsBound, AreBounds, lead_picks};
ghost use Rattle.group_search.specs.Picks.{AreNear, AreMeasured};
ghost use Rattle.group_search.specs.Tried.{IsChosen, IsBetter};

use crate::packing::{Block, along_curve};
use crate::search::offer;
use place_values::{Chosen, Pick, cost_of_choice};
use spatial_base::{Origin, dist};
use std::alloc::{AllocError, Global};

/// A lead pick, and what a choice that takes it costs at least. Leads are in the order of that cost, and those at one point come together.
#[derive(Clone, Copy, PartialEq, Eq, PartialOrd, Ord)]
pub(crate) struct Lead {
    /// No choice with the pick costs less, in degrees times 10^7.
    pub(crate) least: u64,
    /// The position of the pick's point along a curve.
    pub(crate) along: u64,
    /// The pick.
    pub(crate) pick: Pick,
}

// A pick for a word beside a lead pick, if there is one for little enough.
#[derive(Clone, Copy)]
struct Partner {
    // No choice with the lead and a pick for the word costs less.
    cost: u64,
    // A pick with which a choice may cost so little.
    pick: Option<Pick>,
}

/// Returns what a choice with both picks costs at least: the distance to the farther of the two, and the one between them.
pub(crate) fn pair_cost(at: &Origin, pick: &Pick, other: &Pick) -> u64
    requires near { pick.now.dist ≤ 2545584412 }
    requires other { other.now.dist ≤ 2545584412 }
    ensures value { result ≡ pair_cost at.now.scale pick.now other.now }
    ensures far { result ≤ 5091168824 }
{
    pick.dist.max(other.dist) + dist(&pick.point, &other.point, at.scale())
}

/// Returns what a choice with a lead pick and any pick of a block costs at least.
pub(crate) fn block_cost(at: &Origin, anchor: &Pick, block: &Block) -> u64
    requires anchor { anchor.now.dist ≤ 2545584412 }
    requires block { IsBlock at.now block.now }
    ensures below { IsBelowPairs at.now.scale result anchor.now block.now.picks.items }
    ensures far { result ≤ 5091168824 }
{
    anchor.dist.max(block.nearest) + block.bounds.mindist(&anchor.point, at.scale())
}

// The better of a partner and one more pick.
fn better(at: &Origin, anchor: &Pick, pick: &Pick, known: Partner) -> Partner
    requires anchor { anchor.now.dist ≤ 2545584412 }
    requires pick { pick.now.dist ≤ 2545584412 }
    ensures below { result.cost ≤ pair_cost at.now.scale anchor.now pick.now }
    ensures less { result.cost ≤ known.cost }
    ensures among { (all : List Pick) → IfSome known.pick (Contains all) → Contains all pick.now → IfSome result.pick (Contains all) }
{
    let cost = pair_cost(at, anchor, pick);
    if cost < known.cost {
        return Partner {
            cost,
            pick: Some(*pick),
        };
    }
    known
}

// The better of a partner and some picks.
fn better_among(at: &Origin, anchor: &Pick, picks: &[Pick], known: Partner) -> Partner
    requires anchor { anchor.now.dist ≤ 2545584412 }
    requires picks { AreNear picks.now }
    ensures below { IsBelowPairs at.now.scale result.cost anchor.now picks.now }
    ensures less { result.cost ≤ known.cost }
    ensures among { (all : List Pick) → IfSome known.pick (Contains all) → ((pick : Pick) → Contains picks.now pick → Contains all pick) → IfSome result.pick (Contains all) }
{
    let mut best = known;
    for pick in picks {
        best = better(at, anchor, pick, best);
    }
    best
}

// The better of a partner and the picks of a block.
fn better_of(at: &Origin, anchor: &Pick, block: &Block, known: Partner) -> Partner
    requires anchor { anchor.now.dist ≤ 2545584412 }
    requires block { IsBlock at.now block.now }
    ensures below { IsBelowPairs at.now.scale result.cost anchor.now block.now.picks.items }
    ensures less { result.cost ≤ known.cost }
    ensures among { (all : List Pick) → IfSome known.pick (Contains all) → ((pick : Pick) → Contains block.now.picks.items pick → Contains all pick) → IfSome result.pick (Contains all) }
{
    let cost = block_cost(at, anchor, block);
    if cost >= known.cost {
        return known;
    }
    better_among(at, anchor, &block.picks, known)
}

// The best partner in some blocks, if a choice with it may cost at most so much.
fn partner_in(at: &Origin, anchor: &Pick, blocks: &[Block], most: u64) -> Partner
    requires anchor { anchor.now.dist ≤ 2545584412 }
    requires blocks { AllByRecursion (IsBlock at.now) blocks.now }
    requires most { most ≤ 5091168824 }
    ensures below { IsBelowPairs at.now.scale result.cost anchor.now (block_picks blocks.now) }
    ensures among { IfSome result.pick (Contains (block_picks blocks.now)) }
{
    let mut best = Partner {
        cost: most + 1,
        pick: None,
    };
    for block in blocks {
        best = better_of(at, anchor, block, best);
    }
    best
}

// The best partner for a word: the lead itself for its own.
fn partner_for(at: &Origin, anchor: &Pick, blocks: &[Block], is_own: bool, most: u64) -> Partner
    requires anchor { anchor.now.dist ≤ 2545584412 }
    requires blocks { AllByRecursion (IsBlock at.now) blocks.now }
    requires most { most ≤ 5091168824 }
    ensures below { IsBelowPairs at.now.scale result.cost anchor.now (if is_own then anchor.now ∷ [] else block_picks blocks.now) }
    ensures among { IfSome result.pick (Contains (if is_own then anchor.now ∷ [] else block_picks blocks.now)) }
{
    if is_own {
        return Partner {
            cost: anchor.dist,
            pick: Some(*anchor),
        };
    }
    partner_in(at, anchor, blocks, most)
}

// Keeps a choice if it costs less than the best one.
fn keep_cheaper(
    alloc: Global,
    at: &Origin,
    picks: &[Pick],
    best: &mut Chosen,
) -> Result<(), AllocError>
    ensures chosen { (lists : List (List Pick)) → IsChoice lists picks.now → IsChosen at.now lists best.old → OnOk result (IsBetter at.now lists best.old best.new) }
    ensures cost { OnOk result (best.new.cost ≤ best.old.cost) }
{
    let cost = cost_of_choice(at, picks);
    if cost < best.cost {
        return offer(alloc, picks, cost, best);
    }
    Ok(())
}

// What a choice with a lead pick costs at least. Leaves the better of the best choice and that of the lead's best partners.
fn bound_of(
    alloc: Global,
    at: &Origin,
    packs: &[Vec<Block>],
    anchor: &Pick,
    own: usize,
    best: &mut Chosen,
) -> Result<u64, AllocError>
    requires anchor { anchor.now.dist ≤ 2545584412 }
    requires measured { anchor.now.dist ≡ distance at.now anchor.now.point }
    requires packs { ArePacks at.now packs.now }
    requires cost { best.old.cost ≤ 5091168824 }
    ensures bound { IfOk result (λ least. AreLeads (packed_lists packs.now) own (anchor.now ∷ []) → IsBound at.now (packed_lists packs.now) own least anchor.now) }
    ensures chosen { AreLeads (packed_lists packs.now) own (anchor.now ∷ []) → IsChosen at.now (packed_lists packs.now) best.old
        → OnOk result (IsBetter at.now (packed_lists packs.now) best.old best.new) }
    ensures cost { OnOk result (best.new.cost ≤ best.old.cost) }
{
    let mut least: u64 = 0;
    let mut picks = Vec::new(alloc);
    for (index, blocks) in packs.iter().enumerate() {
        let found = partner_for(at, anchor, blocks, index == own, best.cost);
        least = least.max(found.cost);
        match found.pick {
            Some(pick) => picks.push(pick)?,
            None => return Ok(least),
        }
    }
    keep_cheaper(alloc, at, &picks, best)?;
    Ok(least)
}

/// Returns lead picks with what a choice with each costs at least, and leaves the best of the best choice and of the choices of the best
/// partners of each.
pub(crate) fn bounded(
    alloc: Global,
    at: &Origin,
    packs: &[Vec<Block>],
    leads: &[Pick],
    own: usize,
    best: &mut Chosen,
) -> Result<Vec<Lead>, AllocError>
    requires leads { AreNear leads.now }
    requires measured { AreMeasured at.now leads.now }
    requires packs { ArePacks at.now packs.now }
    requires cost { best.old.cost ≤ 5091168824 }
    ensures leads { IfOk result (λ likely. lead_picks likely.items ≡ leads.now) }
    ensures bounds { IfOk result (λ likely. AreLeads (packed_lists packs.now) own leads.now → AreBounds at.now (packed_lists packs.now) own likely.items) }
    ensures chosen { AreLeads (packed_lists packs.now) own leads.now → IsChosen at.now (packed_lists packs.now) best.old
        → OnOk result (IsBetter at.now (packed_lists packs.now) best.old best.new) }
    ensures cost { OnOk result (best.new.cost ≤ best.old.cost) }
{
    let mut likely = Vec::new(alloc);
    for pick in leads {
        let least = bound_of(alloc, at, packs, pick, own, best)?;
        let along = along_curve(&pick.point);
        likely.push(Lead {
            least,
            along,
            pick: *pick,
        })?;
    }
    Ok(likely)
}
