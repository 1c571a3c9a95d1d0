//! A word in its form of 33 bytes.
ghost use Rattle.std.specs.Prelude.{◌≡◌, ◌≢◌, ℕ, ◌≤◌, List, take, drop, replicate, ◌-◌, IfSome, IfNone, Some};
ghost use Rattle.std.specs.Cmp.Lexicographic.{slice_cmp, nat_list_cmp_total, texts_ties, texts_po, nat_list_eq_equiv};
ghost use Rattle.std.specs.Cmp as Cmp;
ghost use Rattle.std.specs.Hash as fed;
ghost use Rattle.std.specs.Int.{from_be_bytes, w64};
ghost use Rattle.std.specs.Ordering.{nat_cmp};
ghost use Rattle.std.specs.Str.{bytes_eq};
ghost use Rattle.std.proofs.Common.{rules};
ghost use Rattle.term_impacts.specs.Form.{IsWordText, word_form};

use std::cmp::Ordering;
use std::hash::{Hash, Hasher};
use std::marker::Model;
use std::str::{from_utf8, from_utf8_unchecked};

/// The most bytes that a word has.
pub const WORD_MAX: usize = 32;

/// A word: a text of 1 to 32 bytes of UTF-8, ordered by its bytes, a proper prefix first.
///
/// It is stored in its form of 33 bytes: the text, zero bytes up to 32, and the text's length. Comparing two forms byte by byte gives
/// the order of the words. Contracts see a word as the bytes of its text.
#[derive(Clone, Copy, Debug)]
pub struct Word {
    form: [u8; 33],
}

impl Model for Word {
    ghost use Rattle.std.specs.Prelude.{ℕ, List};
    ghost use Rattle.term_impacts.specs.Form.{word_form, form_text, IsWordForm};

    ghost Value = { List ℕ };

    ghost view = { λ w. form_text w.form };

    ghost invariant = { λ w. IsWordForm w.form };

    ghost inverse = { λ text. record { form = word_form text } };

    ghost use Rattle.std.proofs.Common.{ap, sym};

    ghost inverse_ok = { λ w is. ap (λ f. record { form = f }) (sym is.padded) };
}

impl Word {
    /// Returns the word's text.
    pub fn text(&self) -> &str
        ensures text { result.now ≡ self.now }
        ensures valid { IsWordText self.now }
    {
        let len = self.form[WORD_MAX] as usize;
        // The type's invariant says that each word's text is UTF-8, so it is not checked again.
        unsafe { from_utf8_unchecked(&self.form[..len]) }
    }

    /// Returns the word's form: its text, zero bytes up to 32, and the text's length.
    pub fn bytes(&self) -> [u8; 33]
        ensures form { result ≡ word_form self.now }
        ensures valid { IsWordText self.now }
    {
        self.form
    }

    /// Returns the word that has this form, or `None` exactly if the bytes are not the form of a word.
    ///
    /// They are not one if:
    ///
    /// - the last byte is not from 1 to 32,
    /// - that many bytes at the beginning are not UTF-8, or
    /// - a byte between these and the last is not zero.
    pub fn of_bytes(bytes: &[u8; 33]) -> Option<Word>
        ensures form { IfSome result (λ word. IsWordText word × (bytes.now ≡ word_form word)) }
        ensures no_form { IfNone result ((text : List ℕ) → IsWordText text → bytes.now ≢ word_form text) }
    {
        let len = bytes[WORD_MAX] as usize;
        if len == 0 || len > WORD_MAX {
            return None;
        }
        let Ok(text) = from_utf8(&bytes[..len]) else {
            return None;
        };
        let word = Word::of_text(text);
        if word.form != *bytes {
            return None;
        }
        Some(word)
    }

    /// Returns the word with this text.
    fn of_text(text: &str) -> Word
        requires { IsWordText text.now }
        ensures word { result ≡ text.now }
    {
        let len = text.len();
        let mut form = [0; 33];
        form[..len].copy_from_slice(text.as_bytes());
        Word::sealed(form, len)
    }

    /// Returns the word whose text is the first `len` bytes of the form. The other bytes of the form are zero.
    #[inline]
    pub(crate) fn sealed(mut form: [u8; 33], len: usize) -> Word
        requires text { IsWordText (take len form) }
        requires len { len ≤ 32 }
        requires zeros { drop len form ≡ replicate (33 - len) 0 }
        ensures { result ≡ take len form }
    {
        form[WORD_MAX] = len as u8;
        Word { form }
    }
}

// The first eight bytes of a form as a number.
#[inline(always)]
fn front(form: &[u8; 33]) -> u64
    ensures { result ≡ from_be_bytes w64 (take 8 form.now) }
{
    let [a, b, c, d, e, f, g, h, ..] = form;
    u64::from_be_bytes([*a, *b, *c, *d, *e, *f, *g, *h])
}

impl PartialEq for Word {
    ghost eq = { bytes_eq };

    ghost laws = { Cmp.partial_equiv_from_equiv nat_list_eq_equiv };

    // Most unequal words already differ in their first eight bytes.
    #[inline(always)]
    fn eq(&self, other: &Word) -> bool {
        front(&self.form) == front(&other.form) && self.form == other.form
    }
}

impl Eq for Word {
    ghost laws = { nat_list_eq_equiv };
}

impl PartialOrd for Word {
    ghost partial_cmp = { λ x y. Some (slice_cmp nat_cmp x y) };

    ghost laws = { texts_po };

    fn partial_cmp(&self, other: &Word) -> Option<Ordering> {
        Some(self.cmp(other))
    }
}

impl Ord for Word {
    ghost cmp = { slice_cmp nat_cmp };

    ghost total = { nat_list_cmp_total };

    ghost matches_partial_cmp = { Prim.search rules };

    ghost matches_eq = { texts_ties };

    fn cmp(&self, other: &Word) -> Ordering
        ensures text_order { result ≡ slice_cmp nat_cmp self.now other.now }
        ensures form_order { result ≡ slice_cmp nat_cmp (word_form self.now) (word_form other.now) }
    {
        self.text().cmp(other.text())
    }
}

impl Hash for Word {
    ghost hash_input = { fed.str };

    ghost respects_eq = { Prim.search rules };

    fn hash<H: Hasher>(&self, state: &mut H) {
        self.text().hash(state);
    }
}
