//! The slots of a node that a filter admits.
ghost use Rattle.std.specs.Prelude.{◌<◌, ◌^◌, ◌&&◌, nat_lt, IfOk};
ghost use Rattle.btree_nodes.specs.Tree.{IsMap};
ghost use Rattle.rtree_nodes.specs.Stock.{rows_form};
ghost use Rattle.node_rows.specs.Rows.{bytes_in};
ghost use Rattle.node_filter.specs.Masks.{has_slot, Marks};
ghost use Rattle.node_filter.specs.Numbers.{byte_of};
ghost use Rattle.node_filter.specs.Filters.{admits};
ghost use Rattle.node_filter.specs.Rows.{LooksAtRows};

use crate::Ids;
use crate::masks::above_zero;
use node_rows::{Tree, row};
use page_face::{PageFault, Pages};
use place_values::Expr;
use term_impacts::Word;

// The slots of a mask that have a word below them.
fn holding<P: Pages>(
    pages: &mut P,
    tree: &Tree,
    ids: &Ids,
    node: u32,
    used: u32,
    word: &Word,
) -> Result<u32, PageFault>
    ensures slots { IsMap rows_form (P.pages pages.old) tree.now.rows
        → IfOk result (λ mask. Marks mask (λ i. has_slot used i && nat_lt 0 (byte_of ids.now (bytes_in (P.pages pages.old) tree.now.rows node) i word.now))) }
    ensures small { IfOk result (λ mask. mask < 2 ^ 32) }
    ensures rows { LooksAtRows P.Pages tree.now.rows pages.old pages.new result }
{
    match ids.number(word) {
        Some(number) => match row(pages, tree, node, number) {
            Ok(bytes) => Ok(used & above_zero(&bytes)),
            Err(fault) => Err(fault),
        },
        None => Ok(0),
    }
}

/// Returns those of the slots `used` of a node that a filter admits. In a leaf, of level 0, these are the slots whose place meets it. In
/// any other node they are those below which a place may meet it, by the greatest impact of each word below the slot. A word has to be
/// there, `And` needs both sides, `Or` one, and `Not` admits every slot.
///
/// Looks at the node's row of each word in the filter that the store knows, and at no other page: a `row` a word. It skips the right side
/// of an `And` whose left side admits no slot, and of an `Or` whose left side admits all.
///
/// Refuses `Damaged`, `Disk`, `Stopped` and `Memory` as `row` does.
pub fn admitted<P: Pages>(
    pages: &mut P,
    tree: &Tree,
    ids: &Ids,
    node: u32,
    level: u8,
    used: u32,
    filter: &Expr,
) -> Result<u32, PageFault>
    ensures slots { IsMap rows_form (P.pages pages.old) tree.now.rows
        → IfOk result (λ mask. Marks mask (λ i. has_slot used i && admits level (byte_of ids.now (bytes_in (P.pages pages.old) tree.now.rows node) i) filter.now)) }
    ensures small { IfOk result (λ mask. mask < 2 ^ 32) }
    ensures rows { LooksAtRows P.Pages tree.now.rows pages.old pages.new result }
{
    match filter {
        Expr::Has(word) => holding(pages, tree, ids, node, used, word),
        Expr::Not(one) => {
            if level > 0 {
                return Ok(used);
            }
            match admitted(pages, tree, ids, node, level, used, one) {
                Ok(left) => Ok(used & !left),
                Err(fault) => Err(fault),
            }
        }
        Expr::And(one, other) => {
            let left = match admitted(pages, tree, ids, node, level, used, one) {
                Ok(left) => left,
                Err(fault) => return Err(fault),
            };
            if left == 0 {
                return Ok(0);
            }
            admitted(pages, tree, ids, node, level, left, other)
        }
        Expr::Or(one, other) => {
            let left = match admitted(pages, tree, ids, node, level, used, one) {
                Ok(left) => left,
                Err(fault) => return Err(fault),
            };
            if left == used {
                return Ok(used);
            }
            match admitted(pages, tree, ids, node, level, used & !left, other) {
                Ok(right) => Ok(left | right),
                Err(fault) => Err(fault),
            }
        }
    }
}
