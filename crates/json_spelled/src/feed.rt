ghost use Rattle.std.specs.Prelude.{◌≡◌, ℕ, ◌+◌, ◌<◌, ◌≤◌, ◌^◌, List, [], ◌∷◌, ◌++◌, length, take, OnOk, IfOk, IfErr, MatchResult, None, Some, Err};
ghost use Rattle.json_spelled.specs.Reader.{state_of};
ghost use Rattle.json_spelled.specs.Feeding.{Reading, IsRefused, Took, Told, count, refusal};

use crate::reader::Reader;
use crate::tree::{JsonFault, Tree};
use std::alloc::Global;

/// A JSON text that comes in pieces.
#[derive(Drop)]
pub struct Feed {
    reader: Reader,
    /// The first bytes of a character whose others are still to come: three at most.
    pending: Vec<u8>,
    /// How many bytes the reader took.
    at: u64,
    /// Why the text was refused.
    fault: Option<JsonFault>,
}

/// Returns whole characters at the beginning, as many as there are.
fn whole_characters(bytes: &[u8]) -> &str
    ensures within { length result.now ≤ length bytes.now }
    ensures front { result.now ≡ take (length result.now) bytes.now }
{
    match str::from_utf8(bytes) {
        Ok(text) => text,
        Err(error) => unsafe { str::from_utf8_unchecked(&bytes[..error.valid_up_to()]) },
    }
}

impl Feed {
    /// Returns a feed that took nothing.
    pub fn new(alloc: Global) -> Feed
        ensures took { Took [] result }
        ensures going { refusal result ≡ None }
        ensures count { count result ≡ 0 }
    {
        Feed {
            reader: Reader::new(alloc),
            pending: Vec::new(alloc),
            at: 0,
            fault: None,
        }
    }

    /// Takes a byte of a character that isn't whole before it.
    fn take_byte(&mut self, byte: u8) -> Result<(), JsonFault>
        requires { count self.old + 1 < 2 ^ 63 }
        ensures reading { OnOk result ((bytes : List ℕ) → Reading bytes self.old.pending.items self.old.at (state_of self.old.reader)
            → Reading (bytes ++ byte ∷ []) self.new.pending.items self.new.at (state_of self.new.reader)) }
        ensures refused { IfErr result (λ fault. (bytes : List ℕ) → Reading bytes self.old.pending.items self.old.at (state_of self.old.reader)
            → IsRefused (bytes ++ byte ∷ []) fault) }
        ensures count { OnOk result (count self.new ≡ count self.old + 1) }
        ensures fault { self.new.fault ≡ self.old.fault }
    {
        if self.pending.push(byte).is_err() {
            return Err(JsonFault::Memory);
        }
        if let Ok(text) = str::from_utf8(&self.pending) {
            if let Err(fault) = self.reader.take_text(text, self.at) {
                return Err(fault);
            }
            self.at += self.pending.len() as u64;
            self.pending.clear();
            return Ok(());
        }
        if self.pending.len() >= 4 {
            return Err(JsonFault::NotUtf8(self.at));
        }
        Ok(())
    }

    /// Takes whole characters, if no character was begun before them.
    fn take_text(&mut self, text: &str) -> Result<(), JsonFault>
        requires none { length self.old.pending.items ≡ 0 }
        requires count { count self.old + length text.now < 2 ^ 63 }
        ensures reading { OnOk result ((bytes : List ℕ) → Reading bytes self.old.pending.items self.old.at (state_of self.old.reader)
            → Reading (bytes ++ text.now) self.new.pending.items self.new.at (state_of self.new.reader)) }
        ensures refused { IfErr result (λ fault. (bytes : List ℕ) → Reading bytes self.old.pending.items self.old.at (state_of self.old.reader)
            → IsRefused (bytes ++ text.now) fault) }
        ensures count { OnOk result (count self.new ≡ count self.old + length text.now) }
        ensures fault { self.new.fault ≡ self.old.fault }
    {
        if let Err(fault) = self.reader.take_text(text, self.at) {
            return Err(fault);
        }
        self.at += text.len() as u64;
        Ok(())
    }

    /// Takes whole characters at the beginning, or else one byte, and returns how many bytes that is.
    fn take_some(&mut self, rest: &[u8]) -> Result<usize, JsonFault>
        requires some { 0 < length rest.now }
        requires count { count self.old + length rest.now < 2 ^ 63 }
        ensures taken { IfOk result (λ n. (0 < n) × (n ≤ length rest.now)) }
        ensures reading { IfOk result (λ n. (bytes : List ℕ) → Reading bytes self.old.pending.items self.old.at (state_of self.old.reader)
            → Reading (bytes ++ take n rest.now) self.new.pending.items self.new.at (state_of self.new.reader)) }
        ensures refused { IfErr result (λ fault. (bytes : List ℕ) → Reading bytes self.old.pending.items self.old.at (state_of self.old.reader)
            → IsRefused (bytes ++ rest.now) fault) }
        ensures count { IfOk result (λ n. count self.new ≡ count self.old + n) }
        ensures fault { self.new.fault ≡ self.old.fault }
    {
        if self.pending.is_empty() {
            let text = whole_characters(rest);
            if !text.is_empty() {
                if let Err(fault) = self.take_text(text) {
                    return Err(fault);
                }
                return Ok(text.len());
            }
        }
        if let Err(fault) = self.take_byte(rest[0]) {
            return Err(fault);
        }
        Ok(1)
    }

    /// Takes the next piece of the text.
    ///
    /// A refusal other than [`JsonFault::Memory`] is what [`read_tree`](crate::read_tree) gives for every text that begins with the bytes
    /// so far, whatever comes after them. After a refusal every later call gives it again and takes nothing.
    ///
    /// It takes time in proportion to the number of bytes, wherever the text is cut. It keeps what was read of the value, and of the
    /// bytes themselves three at most.
    pub fn push(&mut self, piece: &[u8]) -> Result<(), JsonFault>
        requires { refusal self.old ≡ None → count self.old + length piece.now < 2 ^ 63 }
        ensures took { (bytes : List ℕ) → Took bytes self.old → Took (bytes ++ piece.now) self.new }
        ensures answer { MatchResult result (λ _. refusal self.new ≡ None) (λ fault. refusal self.new ≡ Some fault) }
        ensures repeats { (fault : JsonFault) → refusal self.old ≡ Some fault → result ≡ Err fault }
        ensures count { OnOk result (count self.new ≡ count self.old + length piece.now) }
    {
        if let Some(fault) = self.fault {
            return Err(fault);
        }
        let mut index = 0;
        while index < piece.len() {
            match self.take_some(&piece[index..]) {
                Ok(taken) => index += taken,
                Err(fault) => {
                    self.fault = Some(fault);
                    return Err(fault);
                }
            }
        }
        Ok(())
    }

    /// Returns the value of the whole text, as [`read_tree`](crate::read_tree) does.
    pub fn end(self) -> Result<Tree, JsonFault>
        ensures told { (bytes : List ℕ) → Took bytes self → Told bytes result }
        ensures repeats { (fault : JsonFault) → refusal self ≡ Some fault → result ≡ Err fault }
    {
        let Feed {
            mut reader,
            pending,
            at,
            fault,
        } = self;
        if let Some(fault) = fault {
            return Err(fault);
        }
        if !pending.is_empty() {
            return Err(JsonFault::NotUtf8(at));
        }
        match reader.finish() {
            Ok(Some(tree)) => Ok(tree),
            Ok(None) => Err(JsonFault::Syntax(at)),
            Err(_) => Err(JsonFault::Memory),
        }
    }
}
