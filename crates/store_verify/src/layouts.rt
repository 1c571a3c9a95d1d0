//! The rows of the tables.
ghost use Rattle.std.proofs.Common.{refl};
ghost use Rattle.store_tables.specs.Holding.{numbers_form, places_form, texts_form};

use paged_map::Layout;

/// Word numbers by the form of their word.
pub(crate) struct Texts;

impl Layout for Texts {
    ghost form = { texts_form };

    ghost KEY = { 33 };

    const KEY: usize = 33;

    ghost VALUE = { 8 };

    const VALUE: usize = 8;

    ghost MAP = { 2 };

    const MAP: u8 = 2;

    ghost key_is = { refl };

    ghost value_is = { refl };

    ghost map_is = { refl };
}

/// Words, and how many places hold them, by their number.
pub(crate) struct Numbers;

impl Layout for Numbers {
    ghost form = { numbers_form };

    ghost KEY = { 8 };

    const KEY: usize = 8;

    ghost VALUE = { 37 };

    const VALUE: usize = 37;

    ghost MAP = { 3 };

    const MAP: u8 = 3;

    ghost key_is = { refl };

    ghost value_is = { refl };

    ghost map_is = { refl };
}

/// Places by the form of their key.
pub(crate) struct Places;

impl Layout for Places {
    ghost form = { places_form };

    ghost KEY = { 66 };

    const KEY: usize = 66;

    ghost VALUE = { 649 };

    const VALUE: usize = 649;

    ghost MAP = { 5 };

    const MAP: u8 = 5;

    ghost key_is = { refl };

    ghost value_is = { refl };

    ghost map_is = { refl };
}
