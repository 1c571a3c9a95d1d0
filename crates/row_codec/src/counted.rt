//! A word and how many places hold it.
ghost use Rattle.std.specs.Prelude.{◌≡◌, ℕ, List, ◌<◌, length, Some, IfSome};
ghost use Rattle.term_impacts.specs.Form.{IsWordText, word_form};
ghost use Rattle.row_codec.specs.Counted.{counted_value, IsCounted};

use crate::bytes::{u32_at, write_at};
use term_impacts::Word;

/// The bytes of a [`Counted`].
pub const COUNTED_BYTES: usize = 37;

/// A word and the number of places that hold it: a row's value in the table of the words by number.
#[derive(Clone, Copy, Debug)]
pub struct Counted {
    /// The word.
    pub word: Word,
    /// The number of places that hold it.
    pub places: u32,
}

impl Counted {
    /// The row's value: the word's form, 33 bytes, and the number of places, 4 bytes.
    #[tactic(auto, unfolding(crate::specs::Counted::counted_value))]
    pub fn encode(&self) -> [u8; 37]
        ensures bytes { result ≡ counted_value self.now }
        ensures value { IsCounted self.now }
    {
        let Counted { word, places } = *self;
        let mut bytes = [0; 37];
        write_at(&mut bytes, 0, &word.bytes());
        write_at(&mut bytes, 33, &places.to_be_bytes());
        bytes
    }

    /// Decodes a row's value. Returns `None` exactly if its first 33 bytes are no word's form.
    pub fn decode(bytes: &[u8; 37]) -> Option<Counted>
        ensures form { IfSome result (λ counted. IsCounted counted × (bytes.now ≡ counted_value counted)) }
        ensures every { (counted : Counted) → IsCounted counted → bytes.now ≡ counted_value counted → result ≡ Some counted }
    {
        let word = word_of_bytes(&bytes[..33])?;
        let places = u32_at(bytes, 33);
        Some(Counted { word, places })
    }
}

// The word of these 33 bytes.
fn word_of_bytes(bytes: &[u8]) -> Option<Word>
    requires { length bytes.now ≡ 33 }
    ensures form { IfSome result (λ word. IsWordText word × (bytes.now ≡ word_form word)) }
    ensures every { (text : List ℕ) → IsWordText text → bytes.now ≡ word_form text → result ≡ Some text }
{
    let mut form = [0; 33];
    form.copy_from_slice(bytes);
    Word::of_bytes(&form)
}
