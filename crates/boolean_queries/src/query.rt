//! A query of a tree: a region and a filter.
use crate::region::Region;
use node_filter::Ids;
use place_values::Expr;

/// A region, and a filter on the words of its places. Without a filter every place passes.
#[derive(Drop)]
pub(crate) struct Query<'a> {
    /// Where the places are.
    pub region: Region,
    /// The words of the query that the store knows, with their numbers.
    pub ids: &'a Ids,
    /// What a place has to meet.
    pub filter: Option<&'a Expr>,
}
