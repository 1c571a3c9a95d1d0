//! The label of a place: the first line of its text, cut to 63 bytes.
ghost use Rattle.std.specs.Prelude.{◌≡◌, ◌≢◌, ℕ, List, IfSome, IfNone};
ghost use Rattle.std.specs.Cmp as Cmp;
ghost use Rattle.std.specs.Cmp.Lexicographic.{nat_list_eq_equiv};
ghost use Rattle.std.specs.Str.{bytes_eq};
ghost use Rattle.term_impacts.specs.Label.{IsLabelText, first_line as line_of, label_form, label_of};

use std::marker::Model;
use std::str::{from_utf8, from_utf8_unchecked};

/// The most bytes that a label has: with its length it takes 64.
pub const LABEL_MAX: usize = 63;

/// A label: a text of at most 63 bytes of UTF-8 without LF, which may be empty.
///
/// It is stored in its form of 64 bytes: the text, zero bytes up to 63, and the text's length. Contracts see a label as the bytes of
/// its text.
#[derive(Clone, Copy, Debug)]
pub struct Label {
    form: [u8; 64],
}

impl Model for Label {
    ghost use Rattle.std.specs.Prelude.{ℕ, List};
    ghost use Rattle.term_impacts.specs.Label.{label_form, form_text, IsLabelForm};

    ghost Value = { List ℕ };

    ghost view = { λ label. form_text label.form };

    ghost invariant = { λ label. IsLabelForm label.form };

    ghost inverse = { λ text. record { form = label_form text } };

    ghost use Rattle.std.proofs.Common.{ap, sym};

    ghost inverse_ok = { λ label is. ap (λ f. record { form = f }) (sym is.padded) };
}

impl Label {
    /// Returns the label of a text: its first line, cut to the longest prefix of whole characters that has at most 63 bytes.
    pub fn of_text(text: &str) -> Label
        ensures label { result ≡ label_of text.now }
        ensures valid { IsLabelText result }
    {
        let line = first_line(text);
        let (label, _) = line.split_at(line.floor_char_boundary(LABEL_MAX));
        Label::sealed(label)
    }

    /// Returns the label's text.
    pub fn text(&self) -> &str
        ensures text { result.now ≡ self.now }
        ensures valid { IsLabelText self.now }
    {
        let len = self.form[LABEL_MAX] as usize;
        // The type's invariant says that each label's text is UTF-8, so it is not checked again.
        unsafe { from_utf8_unchecked(&self.form[..len]) }
    }

    /// Returns the label's form: its text, zero bytes up to 63, and the text's length.
    pub fn bytes(&self) -> [u8; 64]
        ensures form { result ≡ label_form self.now }
        ensures valid { IsLabelText self.now }
    {
        self.form
    }

    /// Returns the label that has this form, or `None` exactly if the bytes are not the form of a label.
    ///
    /// They are not one if:
    ///
    /// - the last byte is above 63,
    /// - that many bytes at the beginning are not UTF-8, or have an LF, or
    /// - a byte between these and the last is not zero.
    pub fn of_bytes(bytes: &[u8; 64]) -> Option<Label>
        ensures form { IfSome result (λ label. IsLabelText label × (bytes.now ≡ label_form label)) }
        ensures no_form { IfNone result ((text : List ℕ) → IsLabelText text → bytes.now ≢ label_form text) }
    {
        let len = bytes[LABEL_MAX] as usize;
        if len > LABEL_MAX {
            return None;
        }
        let Ok(text) = from_utf8(&bytes[..len]) else {
            return None;
        };
        let label = Label::of_text(text);
        if label.form != *bytes {
            return None;
        }
        Some(label)
    }

    /// Returns the label with this text.
    fn sealed(text: &str) -> Label
        requires { IsLabelText text.now }
        ensures { result ≡ text.now }
    {
        let len = text.len();
        let mut form = [0; 64];
        form[..len].copy_from_slice(text.as_bytes());
        form[LABEL_MAX] = len as u8;
        Label { form }
    }
}

/// The text up to its first LF.
fn first_line(text: &str) -> &str
    ensures { result.now ≡ line_of text.now }
{
    match text.split_once('\n') {
        Some((line, _)) => line,
        None => text,
    }
}

impl PartialEq for Label {
    ghost eq = { bytes_eq };

    ghost laws = { Cmp.partial_equiv_from_equiv nat_list_eq_equiv };

    fn eq(&self, other: &Label) -> bool {
        self.form == other.form
    }
}

impl Eq for Label {
    ghost laws = { nat_list_eq_equiv };
}
