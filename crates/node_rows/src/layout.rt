//! The layout of the rows' map.
ghost use Rattle.std.proofs.Common.{refl};
ghost use Rattle.rtree_nodes.specs.Stock.{rows_form};

use paged_map::Layout;

/// Rows of words by node and word: map 4, keys of 12 bytes, values of 32.
pub struct WordRows;

impl Layout for WordRows {
    ghost form = { rows_form };

    ghost KEY = { 12 };

    const KEY: usize = 12;

    ghost VALUE = { 32 };

    const VALUE: usize = 32;

    ghost MAP = { 4 };

    const MAP: u8 = 4;

    ghost key_is = { refl };

    ghost value_is = { refl };

    ghost map_is = { refl };
}
