//! A ranked search as an opener of nodes.
ghost use Rattle.std.proofs.Props.{props};
ghost use Rattle.spatial_base.specs.Point.{IsViewpoint};

use crate::Ask;
use node_filter::Ids;
use node_rows::Tree;
use page_face::PageFault;
use spatial_base::Origin;

/// A ranked search of one tree: it opens the tree's nodes for a best-first search.
#[derive(Drop)]
pub struct Ranking<'q> {
    pub tree: Tree,
    pub ids: &'q Ids,
    pub at: Origin,
    pub ask: Ask<'q>,
    pub held: Option<PageFault>,
    ghost on_map: { IsViewpoint at } by { Prim.hlevel props },
}
