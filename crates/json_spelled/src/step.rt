ghost use Rattle.std.specs.Prelude.{◌≡◌, ◌<◌, ◌==◌, Some, None, if◌then◌else◌};
ghost use Rattle.json_spelled.specs.Machine.{step, step_by, start, awaited, behind_awaited};
ghost use Rattle.json_spelled.specs.Kind.{kind as kind_read};
ghost use Rattle.json_spelled.specs.Reader.{state_of, state_by, around, Tries, Makes};

use crate::fault::StepFault;
use crate::kind::{Kind, kind_of};
use crate::lexeme::{Lexeme, Word};
use crate::reader::{Place, Reader};
use crate::tree::Tree;
use std::alloc::Global;

/// The letter that a word continues with.
fn letter_behind(word: Word) -> u8
    ensures { result ≡ awaited word }
{
    match word {
        Word::N | Word::Tr => b'u',
        Word::Nu | Word::Nul | Word::Fa => b'l',
        Word::T => b'r',
        Word::Tru | Word::Fals => b'e',
        Word::F => b'a',
        Word::Fal => b's',
    }
}

impl Reader {
    /// Returns a reader that has read nothing.
    #[tactic(auto, unfolding(crate::specs::Reader::frames_of))]
    pub(crate) fn new(alloc: Global) -> Reader
        ensures { state_of result ≡ start }
    {
        Reader {
            alloc,
            lexeme: Lexeme::Between,
            place: Place::Start,
            token: String::new(alloc),
            high: None,
            first: 0,
            second: 0,
            third: 0,
            opened: Vec::new(alloc),
        }
    }

    /// Takes the word's next letter, which is the right one. The last letter completes the value.
    fn next_word(&mut self, word: Word) -> Result<(), StepFault>
        ensures { Makes result (behind_awaited word (around self.old)) (state_of self.new) }
    {
        self.lexeme = match word {
            Word::N => Lexeme::Word(Word::Nu),
            Word::Nu => Lexeme::Word(Word::Nul),
            Word::T => Lexeme::Word(Word::Tr),
            Word::Tr => Lexeme::Word(Word::Tru),
            Word::F => Lexeme::Word(Word::Fa),
            Word::Fa => Lexeme::Word(Word::Fal),
            Word::Fal => Lexeme::Word(Word::Fals),
            Word::Nul => return self.deliver(Tree::Null),
            Word::Tru => return self.deliver(Tree::Truth(true)),
            Word::Fals => return self.deliver(Tree::Truth(false)),
        };
        Ok(())
    }

    /// Takes a letter of a word.
    fn word(&mut self, word: Word, byte: u8) -> Result<(), StepFault>
        ensures { Tries (λ _. if byte == awaited word then Some (behind_awaited word (around self.old)) else None)
            result (state_of self.new) }
    {
        if byte != letter_behind(word) {
            return Err(StepFault::Refused);
        }
        self.next_word(word)
    }

    /// Takes the next byte.
    pub(crate) fn step(&mut self, byte: u8) -> Result<(), StepFault>
        requires { self.old.lexeme ≡ Lexeme.Text → byte < 128 }
        ensures { Tries (λ levels. step levels (state_of self.old) byte) result (state_of self.new) }
    {
        self.go_on_in(self.lexeme, kind_of(byte), byte)
    }

    /// Takes a byte of this kind in this token.
    fn go_on_in(&mut self, lexeme: Lexeme, kind: Kind, byte: u8) -> Result<(), StepFault>
        requires lexeme { self.old.lexeme ≡ lexeme }
        requires small { lexeme ≡ Lexeme.Text → byte < 128 }
        requires kind { kind ≡ kind_read byte }
        ensures { Tries (λ levels. step_by levels (state_by lexeme self.old) kind byte)
            result (state_of self.new) }
    {
        match lexeme {
            Lexeme::Text => self.text(kind, byte),
            Lexeme::Number(part) => self.number(part, kind, byte),
            Lexeme::Between => self.between(kind, byte),
            Lexeme::Word(word) => self.word(word, byte),
            Lexeme::Escape => self.escape(byte),
            Lexeme::Hex1 => self.hex1(byte),
            Lexeme::Hex2 => self.hex2(byte),
            Lexeme::Hex3 => self.hex3(byte),
            Lexeme::Hex4 => self.hex4(byte),
        }
    }
}
