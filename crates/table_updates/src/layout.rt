//! The rows of the place map of version 1.
ghost use Rattle.std.proofs.Common.{refl};
ghost use Rattle.table_updates.specs.Version1.{places_form_version1};

use paged_map::Layout;

/// Places of version 1 by the form of their key.
pub(crate) struct PlacesVersion1;

impl Layout for PlacesVersion1 {
    ghost form = { places_form_version1 };

    ghost KEY = { 66 };

    const KEY: usize = 66;

    ghost VALUE = { 585 };

    const VALUE: usize = 585;

    ghost MAP = { 1 };

    const MAP: u8 = 1;

    ghost key_is = { refl };

    ghost value_is = { refl };

    ghost map_is = { refl };
}
