ghost use Rattle.std.specs.Prelude.{◌≡◌, true, false, ℕ, ◌+◌, ◌<◌, ◌≤◌, ◌^◌, length, slice_index, IfOk, IfErr, OnOk};
ghost use Rattle.std.specs.Str.{IsCharBoundary};
ghost use Rattle.json_spelled.specs.Reader.{state_of};
ghost use Rattle.json_spelled.specs.Feeding.{IsTaken, Leads, Stops, Reads, StopsFrom};
ghost use Rattle.json_spelled.specs.Reading.{refusal_of};

use crate::fault::StepFault;
use crate::kind::{Kind, kind_of};
use crate::lexeme::Lexeme;
use crate::reader::Reader;
use crate::tree::JsonFault;

/// Whether a string takes the byte as it is.
#[inline(always)]
fn is_plain(byte: u8) -> bool
    ensures taken { result ≡ true → IsTaken byte }
    ensures ends { result ≡ false → byte < 128 }
{
    match kind_of(byte) {
        Kind::Quote => false,
        Kind::Backslash => false,
        Kind::Break => false,
        Kind::Control => false,
        _ => true,
    }
}

/// Returns where the bytes end that a string takes as they are, from an index on.
fn plain_end(text: &[u8], start: usize) -> usize
    requires { start ≤ length text.now }
    ensures from { start ≤ result }
    ensures within { result ≤ length text.now }
    ensures taken { (k : ℕ) → start ≤ k → k < result → IsTaken (slice_index text.now k) }
    ensures ends { result < length text.now → slice_index text.now result < 128 }
{
    for end in start..text.len() {
        if !is_plain(text[end]) {
            return end;
        }
    }
    text.len()
}

impl Reader {
    /// Takes the byte at this index, and returns the next index.
    fn take_at(&mut self, text: &str, index: usize) -> Result<usize, StepFault>
        requires more { index < length text.now }
        requires small { self.old.lexeme ≡ Lexeme.Text → slice_index text.now index < 128 }
        ensures next { IfOk result (λ next. (index < next) × (next ≤ length text.now)) }
        ensures leads { IfOk result (λ next. Leads text.now index next (state_of self.old) (state_of self.new)) }
        ensures boundary { IfOk result (λ next. self.new.lexeme ≡ Lexeme.Text → IsCharBoundary text.now next) }
        ensures stops { IfErr result (Stops text.now index (state_of self.old)) }
    {
        if let Err(fault) = self.step(text.as_bytes()[index]) {
            return Err(fault);
        }
        Ok(index + 1)
    }

    /// Takes a run of a string, or else one byte, and returns the next index.
    fn take_in_text(&mut self, text: &str, index: usize) -> Result<usize, StepFault>
        requires more { index < length text.now }
        requires lexeme { self.old.lexeme ≡ Lexeme.Text }
        requires boundary { IsCharBoundary text.now index }
        ensures next { IfOk result (λ next. (index < next) × (next ≤ length text.now)) }
        ensures leads { IfOk result (λ next. Leads text.now index next (state_of self.old) (state_of self.new)) }
        ensures boundary { IfOk result (λ next. self.new.lexeme ≡ Lexeme.Text → IsCharBoundary text.now next) }
        ensures stops { IfErr result (Stops text.now index (state_of self.old)) }
    {
        let end = plain_end(text.as_bytes(), index);
        if index < end {
            if self.take_run(&text[index..end]).is_err() {
                return Err(StepFault::Memory);
            }
            return Ok(end);
        }
        self.take_at(text, index)
    }

    /// Takes a run of a string, or else one byte, and returns the next index.
    fn advance(&mut self, text: &str, index: usize) -> Result<usize, StepFault>
        requires more { index < length text.now }
        requires boundary { self.old.lexeme ≡ Lexeme.Text → IsCharBoundary text.now index }
        ensures next { IfOk result (λ next. (index < next) × (next ≤ length text.now)) }
        ensures leads { IfOk result (λ next. Leads text.now index next (state_of self.old) (state_of self.new)) }
        ensures boundary { IfOk result (λ next. self.new.lexeme ≡ Lexeme.Text → IsCharBoundary text.now next) }
        ensures stops { IfErr result (Stops text.now index (state_of self.old)) }
    {
        if let Lexeme::Text = self.lexeme {
            return self.take_in_text(text, index);
        }
        self.take_at(text, index)
    }

    /// Takes whole characters. The first of their bytes has this offset.
    pub(crate) fn take_text(&mut self, text: &str, at: u64) -> Result<(), JsonFault>
        requires { at + length text.now < 2 ^ 63 }
        ensures reads { OnOk result (Reads text.now (state_of self.old) (state_of self.new)) }
        ensures stops { IfErr result (StopsFrom text.now at (state_of self.old)) }
    {
        let mut index = 0;
        while index < text.len() {
            match self.advance(text, index) {
                Ok(next) => index = next,
                Err(fault) => return Err(refusal(fault, at + index as u64)),
            }
        }
        Ok(())
    }
}

/// The refusal of the byte at this offset.
fn refusal(fault: StepFault, at: u64) -> JsonFault
    ensures { result ≡ refusal_of fault at }
{
    match fault {
        StepFault::Refused => JsonFault::Syntax(at),
        StepFault::TooDeep => JsonFault::TooDeep(at),
        StepFault::Memory => JsonFault::Memory,
    }
}
