// Keys as 66 bytes.
ghost use Rattle.std.specs.Prelude.{◌≡◌, ◌<◌, ◌≤◌, ◌↔◌, ℕ, List, ◌∷◌, ◌++◌, [], length, take, drop, Some, IsSome, IfSome, IfOk, IsErrOf};
ghost use Rattle.std.specs.Int.{w64, from_be_bytes};
ghost use Rattle.std.specs.Option.{option_copied};
ghost use Rattle.std.specs.Ordering.{as_partial_cmp, eq_by_cmp};
ghost use Rattle.std.specs.Cmp.{eq_by_cmp_equiv, partial_equiv_from_equiv, partial_order_from_total};
ghost use Rattle.std.specs.Cmp.Rules.{comparing};
ghost use Rattle.std.proofs.Common.{rules};
ghost use Rattle.spatial_base.specs.Key.{Name, Text, Auto, IsName, text_of, serial_of, form_of, padded, key_cmp, key_cmp_total, IsKeyForm};

use std::cmp::Ordering;
use std::marker::Model;

/// The most bytes that a text key has.
pub const KEY_TEXT_MAX: usize = 64;

/// Why a text is not a key.
#[derive(Clone, Copy, Debug, PartialEq, Eq)]
pub enum KeyFault {
    /// The text is empty.
    Empty = 1,
    /// The text has more than 64 bytes.
    TooLong = 2,
}

/// A key: a text of 1 to 64 bytes of UTF-8, or an automatic number.
///
/// Text keys are ordered by their bytes, and a proper prefix comes first. Automatic keys come after all text keys, in the order of
/// their numbers.
///
/// A key is stored in 66 bytes, its form. Byte 0 is the kind: 0 for a text, 1 for a number. Bytes 1 to 64 are the text, or the number
/// in 8 bytes big-endian, padded with zeros. Byte 65 is the length before the padding. Comparing two forms byte by byte gives the order
/// of the keys.
#[derive(Clone, Copy, Debug)]
pub struct Key {
    bytes: [u8; 66],
}

impl Model for Key {
    ghost use Rattle.std.specs.Prelude.{◌≡◌};
    ghost use Rattle.spatial_base.specs.Key.{Name, IsName, name_in, form_of};

    ghost Value = { Name };

    ghost view = { λ k. name_in k.bytes };

    ghost invariant = { λ k. (form_of (name_in k.bytes) ≡ k.bytes) × ∥ IsName (name_in k.bytes) ∥₁ };

    ghost inverse = { λ name. record { bytes = form_of name } };

    ghost inverse_ok = { λ k h i. record { bytes = h.0 i } };
}

// The form with this kind and content: the kind, the content padded with zeros to 64 bytes, and the content's length.
fn form(kind: u8, content: &[u8]) -> [u8; 66]
    requires { length content.now ≤ 64 }
    ensures { result ≡ kind ∷ padded 64 content.now ++ length content.now ∷ [] }
{
    let mut bytes = [0; 66];
    bytes[0] = kind;
    bytes[1..1 + content.len()].copy_from_slice(content);
    bytes[65] = content.len() as u8;
    bytes
}

impl Key {
    /// Returns the key of a text.
    ///
    /// Refuses with `Empty` exactly if the text has no bytes, and with `TooLong` exactly if it has more than 64.
    pub fn of_text(text: &str) -> Result<Key, KeyFault>
        ensures ok { IfOk result (λ key. key ≡ Text text.now) }
        ensures empty { IsErrOf result KeyFault.Empty ↔ (length text.now ≡ 0) }
        ensures too_long { IsErrOf result KeyFault.TooLong ↔ (64 < length text.now) }
    {
        if text.is_empty() {
            return Err(KeyFault::Empty);
        }
        if text.len() > KEY_TEXT_MAX {
            return Err(KeyFault::TooLong);
        }
        Ok(Key {
            bytes: form(0, text.as_bytes()),
        })
    }

    /// Returns the automatic key with this serial.
    pub fn auto(serial: u64) -> Key
        ensures { result ≡ Auto serial }
    {
        Key {
            bytes: form(1, &serial.to_be_bytes()),
        }
    }

    /// Returns the text of a text key, or `None` for an automatic key.
    pub fn text(&self) -> Option<&str>
        ensures { option_copied result ≡ text_of self.now }
    {
        if self.bytes[0] != 0 {
            return None;
        }
        let len = self.bytes[65] as usize;
        Some(unsafe { std::str::from_utf8_unchecked(&self.bytes[1..1 + len]) })
    }

    /// Returns the serial of an automatic key, or `None` for a text key.
    pub fn serial(&self) -> Option<u64>
        ensures { result ≡ serial_of self.now }
    {
        if self.bytes[0] == 0 {
            return None;
        }
        Some(serial_in(&self.bytes))
    }

    /// Returns the key's form of 66 bytes.
    pub fn bytes(&self) -> [u8; 66]
        ensures form { result ≡ form_of self.now }
        ensures name { IsName self.now }
    {
        self.bytes
    }
}

impl Key {
    /// Returns the key that has this form, or `None` exactly if the bytes are not the form of a key.
    pub fn of_bytes(bytes: &[u8; 66]) -> Option<Key>
        ensures some { IsSome result ↔ IsKeyForm bytes.now }
        ensures value { IfSome result (λ key. form_of key ≡ bytes.now) }
        ensures name { IfSome result IsName }
    {
        let key = named_by(bytes)?;
        if key.bytes == *bytes { Some(key) } else { None }
    }
}

// The key that has this form. If no key has it, the result may be anything.
fn named_by(bytes: &[u8; 66]) -> Option<Key>
    ensures { (name : Name) → IsName name → bytes.now ≡ form_of name → result ≡ Some name }
{
    if bytes[0] == 0 {
        text_named_by(bytes)
    } else {
        Some(Key::auto(serial_in(bytes)))
    }
}

// The same for bytes whose kind is text.
fn text_named_by(bytes: &[u8; 66]) -> Option<Key>
    ensures { (text : List ℕ) → IsName (Text text) → bytes.now ≡ form_of (Text text) → result ≡ Some (Text text) }
{
    let len = bytes[65] as usize;
    if len > KEY_TEXT_MAX {
        return None;
    }
    let text = std::str::from_utf8(&bytes[1..1 + len]).ok()?;
    Key::of_text(text).ok()
}

// The serial in bytes whose kind is automatic.
fn serial_in(bytes: &[u8; 66]) -> u64
    ensures { result ≡ from_be_bytes w64 (take 8 (drop 1 bytes.now)) }
{
    let [_, a, b, c, d, e, f, g, h, ..] = *bytes;
    u64::from_be_bytes([a, b, c, d, e, f, g, h])
}

impl PartialEq for Key {
    ghost eq = { eq_by_cmp key_cmp };

    ghost laws = { partial_equiv_from_equiv (eq_by_cmp_equiv key_cmp_total) };

    fn eq(&self, other: &Key) -> bool {
        self.cmp(other).is_eq()
    }
}

impl Eq for Key {
    ghost laws = { eq_by_cmp_equiv key_cmp_total };
}

impl PartialOrd for Key {
    ghost partial_cmp = { as_partial_cmp key_cmp };

    ghost laws = { partial_order_from_total key_cmp_total };

    fn partial_cmp(&self, other: &Key) -> Option<Ordering> {
        Some(self.cmp(other))
    }
}

impl Ord for Key {
    ghost cmp = { key_cmp };

    ghost total = { key_cmp_total };

    ghost matches_partial_cmp = { Prim.search (comparing, rules) };

    ghost matches_eq = { Prim.search (comparing, rules) };

    fn cmp(&self, other: &Key) -> Ordering {
        self.bytes.cmp(&other.bytes)
    }
}
