ghost use Rattle.std.specs.Prelude.{◌≡◌, ◌<◌, ◌++◌, ◌∷◌, [], None, IfSome, MatchResult, string_bytes};
ghost use Rattle.json_spelled.specs.Grammar as grammar;
ghost use Rattle.json_spelled.specs.Grammar.{said, said_behind, alone};
ghost use Rattle.json_spelled.specs.Machine.{Hex1, Hex2, Hex3, Hex4, text_step, escape_step, in_text, unit_step, close, InText, InBytes};
ghost use Rattle.json_spelled.specs.Reader.{state_of, around, use_of, Tries, Makes};

use crate::fault::StepFault;
use crate::kind::Kind;
use crate::lexeme::Lexeme;
use crate::reader::{Place, Reader};
use crate::tree::Tree;
use std::mem;

/// Whether a code unit is a high surrogate.
fn is_high(code: u32) -> bool
    ensures { result ≡ grammar.is_high code }
{
    0xD800 <= code && code < 0xDC00
}

/// Whether a code unit is a low surrogate.
fn is_low(code: u32) -> bool
    ensures { result ≡ grammar.is_low code }
{
    0xDC00 <= code && code < 0xE000
}

/// The byte that an escape of one letter means.
fn escaped(letter: u8) -> Option<u8>
    ensures value { result ≡ grammar.escaped letter }
    ensures small { IfSome result (λ byte. byte < 128) }
{
    match letter {
        b'"' | b'\\' | b'/' => Some(letter),
        b'b' => Some(8),
        b'f' => Some(12),
        b'n' => Some(b'\n'),
        b'r' => Some(b'\r'),
        b't' => Some(b'\t'),
        _ => None,
    }
}

/// The value of a hexadecimal digit, or `None` for any other byte.
fn hex_digit(byte: u8) -> Option<u8>
    ensures { result ≡ grammar.hex_digit byte }
{
    match byte {
        b'0'..=b'9' => Some(byte - b'0'),
        b'A'..=b'F' => Some(byte - b'A' + 10),
        b'a'..=b'f' => Some(byte - b'a' + 10),
        _ => None,
    }
}

/// Appends the character with this code, or U+FFFD if no character has it.
fn say(token: &mut String, code: u32) -> Result<(), StepFault>
    ensures { MatchResult result (λ _. string_bytes token.new ≡ string_bytes token.old ++ said code)
        (λ fault. fault ≡ StepFault.Memory) }
{
    let character = char::from_u32(code).unwrap_or('\u{FFFD}');
    token.push(character)?;
    Ok(())
}

/// Appends an ASCII character.
pub(crate) fn push_ascii(token: &mut String, byte: u8) -> Result<(), StepFault>
    requires { byte < 128 }
    ensures { MatchResult result (λ _. string_bytes token.new ≡ string_bytes token.old ++ byte ∷ [])
        (λ fault. fault ≡ StepFault.Memory) }
{
    token.push(char::from(byte))?;
    Ok(())
}

/// Appends U+FFFD for a high surrogate whose partner does not follow.
fn say_alone(token: &mut String, high: Option<u32>) -> Result<(), StepFault>
    ensures { MatchResult result (λ _. string_bytes token.new ≡ string_bytes token.old ++ alone high)
        (λ fault. fault ≡ StepFault.Memory) }
{
    match high {
        Some(high) => say(token, high),
        None => Ok(()),
    }
}

/// Appends what a code unit means after `waiting`, the high surrogate right before it, if there is one.
fn say_behind(token: &mut String, waiting: Option<u32>, code: u32) -> Result<(), StepFault>
    ensures { MatchResult result (λ _. string_bytes token.new ≡ string_bytes token.old ++ said_behind waiting code)
        (λ fault. fault ≡ StepFault.Memory) }
{
    if let Some(high) = waiting {
        if is_high(high) && is_low(code) {
            return say(token, 0x10000 + (high - 0xD800) * 0x400 + (code - 0xDC00));
        }
        say(token, high)?;
    }
    if is_high(code) {
        return Ok(());
    }
    say(token, code)
}

impl Reader {
    /// Takes a byte of a string.
    pub(crate) fn text(&mut self, kind: Kind, byte: u8) -> Result<(), StepFault>
        requires lexeme { self.old.lexeme ≡ Lexeme.Text }
        requires small { byte < 128 }
        ensures { Tries (λ _. text_step (use_of self.old.place) (string_bytes self.old.token) self.old.high (around self.old) kind byte)
            result (state_of self.new) }
    {
        match kind {
            Kind::Quote => self.close(),
            Kind::Backslash => {
                self.lexeme = Lexeme::Escape;
                Ok(())
            }
            Kind::Break | Kind::Control => Err(StepFault::Refused),
            _ => self.take_byte(byte),
        }
    }

    /// Appends a byte to the string's content.
    fn take_byte(&mut self, byte: u8) -> Result<(), StepFault>
        requires { byte < 128 }
        ensures { Makes result (InText (use_of self.old.place) InBytes (((string_bytes self.old.token) ++ alone self.old.high) ++ byte ∷ []) None (around self.old))
            (state_of self.new) }
    {
        say_alone(&mut self.token, self.high)?;
        self.high = None;
        push_ascii(&mut self.token, byte)?;
        self.lexeme = Lexeme::Text;
        Ok(())
    }

    /// Appends whole characters to the string's content.
    pub(crate) fn take_run(&mut self, run: &str) -> Result<(), StepFault>
        ensures { Makes result (InText (use_of self.old.place) InBytes ((string_bytes self.old.token ++ alone self.old.high) ++ run.now) None (around self.old))
            (state_of self.new) }
    {
        say_alone(&mut self.token, self.high)?;
        self.high = None;
        self.token.push_str(run)?;
        self.lexeme = Lexeme::Text;
        Ok(())
    }

    /// Ends the string, which is whole.
    fn close(&mut self) -> Result<(), StepFault>
        ensures { Makes result (close (use_of self.old.place) ((string_bytes self.old.token) ++ alone self.old.high) (around self.old))
            (state_of self.new) }
    {
        say_alone(&mut self.token, self.high)?;
        let says = self.copied()?;
        match mem::replace(&mut self.place, Place::Value) {
            Place::Name(members) => {
                self.stand(Place::BehindName(members, says));
                Ok(())
            }
            _ => self.deliver(Tree::Text(says)),
        }
    }

    /// Takes a byte after a backslash.
    pub(crate) fn escape(&mut self, byte: u8) -> Result<(), StepFault>
        ensures { Tries (λ _. escape_step (use_of self.old.place) (string_bytes self.old.token) self.old.high (around self.old) byte)
            result (state_of self.new) }
    {
        if byte == b'u' {
            self.lexeme = Lexeme::Hex1;
            return Ok(());
        }
        match escaped(byte) {
            Some(says) => self.take_byte(says),
            None => Err(StepFault::Refused),
        }
    }

    /// Takes the first digit of a code unit.
    pub(crate) fn hex1(&mut self, byte: u8) -> Result<(), StepFault>
        ensures { Tries (λ _. in_text (use_of self.old.place) Hex1 (string_bytes self.old.token) self.old.high (around self.old) Kind.Other byte)
            result (state_of self.new) }
    {
        match hex_digit(byte) {
            Some(digit) => {
                self.first = digit;
                self.lexeme = Lexeme::Hex2;
                Ok(())
            }
            None => Err(StepFault::Refused),
        }
    }

    /// Takes the second digit of a code unit.
    pub(crate) fn hex2(&mut self, byte: u8) -> Result<(), StepFault>
        ensures { Tries (λ _. in_text (use_of self.old.place) (Hex2 self.old.first) (string_bytes self.old.token) self.old.high (around self.old) Kind.Other byte)
            result (state_of self.new) }
    {
        match hex_digit(byte) {
            Some(digit) => {
                self.second = digit;
                self.lexeme = Lexeme::Hex3;
                Ok(())
            }
            None => Err(StepFault::Refused),
        }
    }

    /// Takes the third digit of a code unit.
    pub(crate) fn hex3(&mut self, byte: u8) -> Result<(), StepFault>
        ensures { Tries (λ _. in_text (use_of self.old.place) (Hex3 self.old.first self.old.second) (string_bytes self.old.token) self.old.high (around self.old) Kind.Other byte)
            result (state_of self.new) }
    {
        match hex_digit(byte) {
            Some(digit) => {
                self.third = digit;
                self.lexeme = Lexeme::Hex4;
                Ok(())
            }
            None => Err(StepFault::Refused),
        }
    }

    /// Takes the fourth digit of a code unit, which completes it.
    pub(crate) fn hex4(&mut self, byte: u8) -> Result<(), StepFault>
        ensures { Tries (λ _. in_text (use_of self.old.place) (Hex4 self.old.first self.old.second self.old.third) (string_bytes self.old.token) self.old.high (around self.old) Kind.Other byte)
            result (state_of self.new) }
    {
        match hex_digit(byte) {
            Some(digit) => {
                let high = 4096 * u32::from(self.first) + 256 * u32::from(self.second);
                self.unit(high + 16 * u32::from(self.third) + u32::from(digit))
            }
            None => Err(StepFault::Refused),
        }
    }

    /// Takes a whole code unit.
    fn unit(&mut self, code: u32) -> Result<(), StepFault>
        ensures { Makes result (unit_step (use_of self.old.place) (string_bytes self.old.token) self.old.high (around self.old) code)
            (state_of self.new) }
    {
        say_behind(&mut self.token, self.high, code)?;
        self.high = if is_high(code) { Some(code) } else { None };
        self.lexeme = Lexeme::Text;
        Ok(())
    }
}
