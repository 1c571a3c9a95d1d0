//! Keys and rows of the place table.
ghost use Rattle.std.specs.Prelude.{◌≡◌, ◌+◌, IfSome};
ghost use Rattle.std.specs.Option.{option_copied};
ghost use Rattle.page_face.specs.Number.{number};
ghost use Rattle.spatial_base.specs.Key.{Name, IsName};
ghost use Rattle.row_codec.specs.Stored.{place_value};
ghost use Rattle.store_tables.specs.Coded.{IsPlaceEntry, key_code, next_code};
ghost use Rattle.row_codec.specs.declared.stored.Stored.{Stored};

use row_codec::Stored;
use spatial_base::Key;

// The number of a key's form plus 1, in bytes: the next key. A form's last byte is a length, so adding 1 never overflows it.
fn behind(key: &Key) -> [u8; 66]
    ensures number { number result ≡ key_code key.now + 1 }
    ensures name { IsName key.now }
{
    let mut bytes = key.bytes();
    bytes[65] += 1;
    bytes
}

/// The least bytes that are greater than a key's form, or the least of all.
pub(crate) fn first_behind(after: Option<&Key>) -> [u8; 66]
    ensures number { number result ≡ next_code (option_copied after.entry) }
    ensures name { IfSome (option_copied after.entry) IsName }
{
    match after {
        Some(key) => behind(key),
        None => [0; 66],
    }
}

/// Decodes the key and the place of a row. Returns `None` exactly if its bytes are no key's and place's.
pub(crate) fn entry_of_bytes(key: &[u8; 66], value: &[u8; 649]) -> Option<(Key, Stored)>
    ensures form { IfSome result (λ entry. IsPlaceEntry entry × (number key.now ≡ key_code entry.0) × (value.now ≡ place_value entry.1)) }
    ensures every { (entry : Name × Stored) → IsPlaceEntry entry → number key.now ≡ key_code entry.0 → value.now ≡ place_value entry.1 → result ≡ Some entry }
{
    Some((Key::of_bytes(key)?, Stored::decode(value)?))
}
