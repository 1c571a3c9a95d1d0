//! Which nodes of a tree a query opens.
ghost use Rattle.std.specs.Prelude.{◌≡◌};

use crate::irtree_engine_tests::{answered, opened, splits_in};
use crate::small_tree::write_hits;
use disk_model::MemoryStation;
use irtree_engine::Engine;
use page_face::Pages;
use page_store::Store;
use place_values::{Answer, Query, Weights};
use rtree_nodes::child_at;
use spatial_base::{Point, SCALE_MAX};
use split_policy::Halving;
use std::alloc::Global;
use std::test::Fail;
use term_impacts::one_word;

// The pages of a root and of its two children, the western one first.
#[derive(Clone, Copy)]
struct Nodes {
    root: u32,
    west: u32,
    east: u32,
}

// The nodes of a tree that was split once: the root's first slot has the node that was split, which kept the places in the west.
fn nodes_of(alloc: Global, station: &mut MemoryStation) -> Result<Nodes, Fail> {
    let mut store = Store::open(alloc, station, 0)?;
    let root = store.head().tree;
    let page = store.read(root)?;
    Ok(Nodes {
        root,
        west: child_at(&page, 0),
        east: child_at(&page, 1),
    })
}

// The three places nearest to the place in the west.
fn nearest_three() -> Result<Query, Fail> {
    Ok(Query::Nearest {
        at: Point::new(0, 0).ok_or("off the map")?,
        scale: SCALE_MAX,
        k: 3,
        filter: None,
    })
}

// The three places of least cost from there that have a word; distance alone counts.
fn top_three(alloc: Global, word: &str) -> Result<Query, Fail> {
    let mut words = Vec::new(alloc);
    words.push((one_word(alloc, word)?.ok_or("no word")?, 1))?;
    Ok(Query::Top {
        at: Point::new(0, 0).ok_or("off the map")?,
        scale: SCALE_MAX,
        k: 3,
        alpha: 1_000,
        reach: 10_000_000,
        words: Weights::from_vec(words),
    })
}

// Whether the keys and costs of an answer are these.
fn readable(alloc: Global, answer: &Answer, wanted: &str) -> bool {
    let mut out = String::new(alloc);
    match answer {
        Answer::Hits(hits) => {
            write_hits(&mut out, hits.as_slice()).is_some() && out.as_str() == wanted
        }
        Answer::Group(_) => false,
    }
}

// Whether the hits of a query are these, and which of the root and its children, the western one first, it opens.
fn is_searched(
    alloc: Global,
    engine: &mut Engine<'_, MemoryStation>,
    nodes: Nodes,
    query: &Query,
    wanted: &str,
    opened: [bool; 3],
) -> Result<bool, Fail>
    ensures { engine.new.store.disk.ghost_name ≡ engine.old.store.disk.ghost_name }
{
    if !query.is_within_limits() {
        return Err("not within the limits".into());
    }
    let answer = answered(engine, query)?;
    let log = engine.read_log();
    Ok(
        readable(alloc, &answer, wanted)
            && log.contains(&nodes.root) == opened[0]
            && log.contains(&nodes.west) == opened[1]
            && log.contains(&nodes.east) == opened[2],
    )
}

// Searches for the nearest places on a line, and for the first that have a word which all of them have, or none. Returns whether the
// searches have these hits and open these nodes.
fn are_searched(
    alloc: Global,
    engine: &mut Engine<'_, MemoryStation>,
    nodes: Nodes,
) -> Result<bool, Fail>
    ensures { engine.new.store.disk.ghost_name ≡ engine.old.store.disk.ghost_name }
{
    let nearest = nearest_three()?;
    let held = top_three(alloc, "x")?;
    let unheld = top_three(alloc, "z")?;
    let near = "t00 0, t01 10000000, t02 20000000, ";
    let first = "t00 0, t01 2550000000000, t02 5100000000000, ";
    let west = [true, true, false];
    Ok(
        is_searched(alloc, engine, nodes, &nearest, near, west)?
            && is_searched(alloc, engine, nodes, &held, first, west)?
            && is_searched(alloc, engine, nodes, &unheld, "", [false; 3])?,
    )
}

// Whether the engine over a store searches so.
fn are_searched_in(alloc: Global, station: &mut MemoryStation, nodes: Nodes) -> Result<bool, Fail> {
    let policy = Box::new(alloc, Halving::new())?;
    let mut engine = opened(alloc, station, 64, policy)?;
    let are_searched = are_searched(alloc, &mut engine, nodes);
    let _loan = engine.into_disk();
    are_searched
}

#[test]
fn a_search_opens_only_the_nodes_that_may_hold_an_answer(rt: HostRuntime) -> Result<(), Fail> {
    let mut station = MemoryStation::new(rt.alloc(), 90);
    assert!(rt; splits_in(rt.alloc(), &mut station)?);
    let nodes = nodes_of(rt.alloc(), &mut station)?;
    assert!(rt; are_searched_in(rt.alloc(), &mut station, nodes)?);
    Ok(())
}
