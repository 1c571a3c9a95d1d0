//! The slots of a node that a search may go on to, by the node's rows of words.
ghost use Rattle.std.specs.Prelude.{◌≡◌, ◌<◌, ℕ, slice_index, IfOk};
ghost use Rattle.btree_nodes.specs.Tree.{IsMap};
ghost use Rattle.rtree_nodes.specs.Stock.{rows_form};
ghost use Rattle.node_rows.specs.Rows.{bytes_in};
ghost use Rattle.node_filter.specs.Masks.{has_slot};
ghost use Rattle.node_filter.specs.Numbers.{byte_of};
ghost use Rattle.node_filter.specs.Filters.{admits_by};
ghost use Rattle.node_filter.specs.Rows.{LooksAtRows};
ghost use Rattle.best_first.specs.Asks.{filter_of, qualifies, text_by};

use crate::Ask;
use node_filter::{Ids, Marks, admitted, relevances};
use node_rows::Tree;
use page_face::{PageFault, Pages};
use place_values::Expr;

// These slots, each of no relevance.
fn plain(slots: u32) -> Marks
    ensures slots { result.slots ≡ slots }
    ensures texts { (i : ℕ) → slice_index result.texts i ≡ 0 }
{
    Marks {
        slots,
        texts: [0; 32],
    }
}

// The slots that a filter admits, or all if there is none.
fn filtered<P: Pages>(
    pages: &mut P,
    tree: &Tree,
    ids: &Ids,
    filter: Option<&Expr>,
    node: u32,
    level: u8,
) -> Result<Marks, PageFault>
    ensures slots { IsMap rows_form (P.pages pages.old) tree.now.rows → IfOk result (λ marks. (i : ℕ) → i < 32
        → has_slot marks.slots i ≡ admits_by level (byte_of ids.now (bytes_in (P.pages pages.old) tree.now.rows node) i) (filter_of filter.entry)) }
    ensures texts { IfOk result (λ marks. (i : ℕ) → slice_index marks.texts i ≡ 0) }
    ensures rows { LooksAtRows P.Pages tree.now.rows pages.old pages.new result }
{
    let Some(filter) = filter else {
        return Ok(plain(u32::MAX));
    };
    match admitted(pages, tree, ids, node, level, u32::MAX, filter) {
        Ok(slots) => Ok(plain(slots)),
        Err(fault) => Err(fault),
    }
}

/// Returns the slots of a node of this level that are answers or may have one below them, with the relevance of each.
///
/// Looks at the node's row of each word of the search that the store knows, and at no other page. Refuses as a look at a row does.
pub fn marks<P: Pages>(
    pages: &mut P,
    tree: &Tree,
    ids: &Ids,
    ask: &Ask,
    node: u32,
    level: u8,
) -> Result<Marks, PageFault>
    ensures slots { IsMap rows_form (P.pages pages.old) tree.now.rows → IfOk result (λ marks. (i : ℕ) → i < 32
        → has_slot marks.slots i ≡ qualifies ask.now level (byte_of ids.now (bytes_in (P.pages pages.old) tree.now.rows node) i)) }
    ensures texts { IsMap rows_form (P.pages pages.old) tree.now.rows → IfOk result (λ marks. (i : ℕ) → i < 32
        → slice_index marks.texts i ≡ text_by ask.now (byte_of ids.now (bytes_in (P.pages pages.old) tree.now.rows node) i)) }
    ensures rows { LooksAtRows P.Pages tree.now.rows pages.old pages.new result }
{
    match ask {
        Ask::Nearest(filter) => filtered(pages, tree, ids, *filter, node, level),
        Ask::Top(terms) => relevances(pages, tree, ids, node, terms.words),
    }
}
