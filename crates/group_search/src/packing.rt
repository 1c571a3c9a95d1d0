//! Picks in blocks of neighbours.
ghost use Rattle.std.specs.Prelude.{◌≡◌, ◌<◌, ◌≤◌, Vec, IfOk};
ghost use Rattle.std.specs.List.{AllByRecursion};
ghost use Rattle.std.specs.declared.alloc.Global.{Global};
ghost use Rattle.spatial_base.specs.Point.{Viewpoint};
ghost use Rattle.spatial_base.specs.Rect.{Holds};
ghost use Rattle.place_values.specs.declared.query.Pick.{Pick};
ghost use Rattle.place_values.specs.Search.{lists_in};
ghost use Rattle.group_search.specs.Blocks.{IsBlock, ArePacks, block_picks, packed_lists};
ghost use Rattle.group_search.specs.Choices.{IsSame, AreCut};
ghost use Rattle.group_search.specs.Picks.{AreNear, AreMeasured};

use place_values::Pick;
use spatial_base::{LATITUDE_MAX, LONGITUDE_MAX, Point, Rect};
use std::alloc::{AllocError, Global};

/// Some picks for a word, mostly near each other.
#[derive(Drop)]
pub(crate) struct Block {
    /// A rectangle that holds the points of them all.
    pub(crate) bounds: Rect,
    /// No pick is nearer to the query's point than this, in degrees times 10^7.
    pub(crate) nearest: u64,
    /// The picks.
    pub(crate) picks: Vec<Pick>,
}

/// The least longitude of a point, in degrees times 10^7.
const WEST: i32 = -(LONGITUDE_MAX as i32);

/// The least latitude of a point, in degrees times 10^7.
const SOUTH: i32 = -(LATITUDE_MAX as i32);

/// The fewest picks that are worth a block of their own.
const FEW: usize = 16;

// Puts the bits of a number two apart, the lowest first.
fn spread(bits: u32) -> u64 {
    let mut wide = u64::from(bits);
    wide = (wide | (wide << 16)) & 0x0000_ffff_0000_ffff;
    wide = (wide | (wide << 8)) & 0x00ff_00ff_00ff_00ff;
    wide = (wide | (wide << 4)) & 0x0f0f_0f0f_0f0f_0f0f;
    wide = (wide | (wide << 2)) & 0x3333_3333_3333_3333;
    (wide | (wide << 1)) & 0x5555_5555_5555_5555
}

/// Returns the position of a point along a curve that mostly keeps neighbours together: the bits of its longitude and of its latitude in
/// turn (Morton 1966).
pub(crate) fn along_curve(point: &Point) -> u64 {
    let east = point.x().abs_diff(WEST);
    let north = point.y().abs_diff(SOUTH);
    (spread(north) << 1) | spread(east)
}

// A rectangle that holds the points of some picks, of which one is given.
fn bounds_of(first: &Pick, picks: &[Pick]) -> Rect
    ensures { AllByRecursion (λ (pick : Pick). Holds result pick.point) picks.now }
{
    let mut bounds = Rect::of(&first.point);
    for pick in picks {
        bounds = bounds.join(&Rect::of(&pick.point));
    }
    bounds
}

// How far the nearest of some picks is, of which one is given.
fn nearest_of(first: &Pick, picks: &[Pick]) -> u64
    ensures least { AllByRecursion (λ (pick : Pick). result ≤ pick.dist) picks.now }
    ensures low { result ≤ first.now.dist }
{
    let mut nearest = first.dist;
    for pick in picks {
        nearest = nearest.min(pick.dist);
    }
    nearest
}

// A block of some picks, of which one is given.
fn block_of(alloc: Global, first: &Pick, picks: &[Pick]) -> Result<Block, AllocError>
    requires first { first.now.dist ≤ 2545584412 }
    requires near { AreNear picks.now }
    ensures picks { IfOk result (λ block. block.picks.items ≡ picks.now) }
    ensures block { IfOk result (λ block. (at : Viewpoint) → AreMeasured at picks.now → IsBlock at block) }
{
    let bounds = bounds_of(first, picks);
    let nearest = nearest_of(first, picks);
    let copies = Vec::from_slice(alloc, picks)?;
    Ok(Block {
        bounds,
        nearest,
        picks: copies,
    })
}

// How many picks of so many a block has.
fn block_len(len: usize) -> usize
    ensures { 0 < result }
{
    len.isqrt().max(FEW)
}

// Some picks in blocks of so many.
fn cut_to_blocks(alloc: Global, picks: &[Pick], most: usize) -> Result<Vec<Block>, AllocError>
    requires near { AreNear picks.now }
    requires most { 0 < most }
    ensures picks { IfOk result (λ blocks. block_picks blocks.items ≡ picks.now) }
    ensures blocks { IfOk result (λ blocks. (at : Viewpoint) → AreMeasured at picks.now → AllByRecursion (IsBlock at) blocks.items) }
{
    let mut blocks = Vec::new(alloc);
    let mut rest = picks;
    while let Some(first) = rest.first() {
        let (front, others) = rest.split_at(most.min(rest.len()));
        let block = block_of(alloc, first, front)?;
        blocks.push(block)?;
        rest = others;
    }
    Ok(blocks)
}

/// Returns the same picks in blocks. Those of a block are neighbours along a curve, and so mostly near each other.
pub(crate) fn packed(alloc: Global, picks: &[Pick]) -> Result<Vec<Block>, AllocError>
    requires { AreNear picks.now }
    ensures same { IfOk result (λ blocks. IsSame picks.now (block_picks blocks.items)) }
    ensures blocks { IfOk result (λ blocks. (at : Viewpoint) → AreMeasured at picks.now → AllByRecursion (IsBlock at) blocks.items) }
{
    let mut ordered = Vec::from_slice(alloc, picks)?;
    ordered.sort_unstable_by_key(|pick| along_curve(&pick.point));
    cut_to_blocks(alloc, &ordered, block_len(picks.len()))
}

/// Returns the picks of each list in blocks.
pub(crate) fn packed_each(alloc: Global, lists: &[Vec<Pick>]) -> Result<Vec<Vec<Block>>, AllocError>
    requires { AllByRecursion (λ (list : Vec Pick Global). AreNear list.items) lists.now }
    ensures same { IfOk result (λ packs. AreCut (λ _. Unit {0}) (lists_in lists.now) (packed_lists packs.items)) }
    ensures blocks { IfOk result (λ packs. (at : Viewpoint) → AllByRecursion (λ (list : Vec Pick Global). AreMeasured at list.items) lists.now → ArePacks at packs.items) }
{
    let mut packs = Vec::new(alloc);
    for list in lists {
        let blocks = packed(alloc, list)?;
        packs.push(blocks)?;
    }
    Ok(packs)
}
