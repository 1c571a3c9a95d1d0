ghost use Rattle.std.specs.Prelude.{◌≡◌, OnOk, MatchResult, option_map, string_bytes};
ghost use Rattle.json_spelled.specs.Kind.{kind as kind_read};
ghost use Rattle.json_spelled.specs.Machine.{goes_on, may_end, number_step, deliver, finish};
ghost use Rattle.json_spelled.specs.Json.{spelled};
ghost use Rattle.json_spelled.specs.Reader.{state_of, around, Tries, Makes};
ghost use Rattle.json_spelled.specs.View.{json_of};

use crate::fault::StepFault;
use crate::kind::Kind;
use crate::lexeme::{Lexeme, Part};
use crate::reader::{Place, Reader};
use crate::text::push_ascii;
use crate::tree::Tree;
use std::mem;

/// Returns the part after one more byte, or `None` if the number does not continue with it.
fn part_behind(part: Part, kind: Kind) -> Option<Part>
    ensures { result ≡ goes_on part kind }
{
    match part {
        Part::Minus => match kind {
            Kind::Zero => Some(Part::Zero),
            Kind::Digit => Some(Part::Integer),
            _ => None,
        },
        Part::Zero => match kind {
            Kind::Point => Some(Part::Point),
            Kind::Exponent => Some(Part::Exponent),
            _ => None,
        },
        Part::Integer => match kind {
            Kind::Zero | Kind::Digit => Some(Part::Integer),
            Kind::Point => Some(Part::Point),
            Kind::Exponent => Some(Part::Exponent),
            _ => None,
        },
        Part::Point => match kind {
            Kind::Zero | Kind::Digit => Some(Part::Fraction),
            _ => None,
        },
        Part::Fraction => match kind {
            Kind::Zero | Kind::Digit => Some(Part::Fraction),
            Kind::Exponent => Some(Part::Exponent),
            _ => None,
        },
        Part::Exponent => match kind {
            Kind::Plus | Kind::Minus => Some(Part::Sign),
            Kind::Zero | Kind::Digit => Some(Part::Power),
            _ => None,
        },
        Part::Sign | Part::Power => match kind {
            Kind::Zero | Kind::Digit => Some(Part::Power),
            _ => None,
        },
    }
}

/// Whether a number may end with this part.
fn is_last(part: Part) -> bool
    ensures { result ≡ may_end part }
{
    match part {
        Part::Zero | Part::Integer | Part::Fraction | Part::Power => true,
        Part::Minus | Part::Point | Part::Exponent | Part::Sign => false,
    }
}

impl Reader {
    /// Takes a byte that continues the number or ends it.
    pub(crate) fn number(&mut self, part: Part, kind: Kind, byte: u8) -> Result<(), StepFault>
        requires { kind ≡ kind_read byte }
        ensures { Tries (λ levels. number_step levels (goes_on part kind) part (string_bytes self.old.token) (around self.old) kind byte)
            result (state_of self.new) }
    {
        if let Some(next) = part_behind(part, kind) {
            self.lexeme = Lexeme::Number(next);
            push_ascii(&mut self.token, byte)?;
            return Ok(());
        }
        if !is_last(part) {
            return Err(StepFault::Refused);
        }
        self.end_number()?;
        self.between(kind, byte)
    }

    /// Ends the number, which is whole.
    fn end_number(&mut self) -> Result<(), StepFault>
        ensures made { Makes result (deliver (spelled (string_bytes self.old.token)) (around self.old))
            (state_of self.new) }
        ensures between { OnOk result (self.new.lexeme ≡ Lexeme.Between) }
    {
        let spelling = self.copied()?;
        self.deliver(Tree::Spelled(spelling))
    }

    /// Returns the token's bytes as a text.
    pub(crate) fn copied(&self) -> Result<String, StepFault>
        ensures { MatchResult result (λ text. string_bytes text ≡ string_bytes self.now.token)
            (λ fault. fault ≡ StepFault.Memory) }
    {
        Ok(String::from_str(self.alloc, &self.token)?)
    }

    /// Returns the value of the text, or `None` if the text may not end here.
    pub(crate) fn finish(&mut self) -> Result<Option<Tree>, StepFault>
        ensures { MatchResult result (λ tree. option_map json_of tree ≡ finish (state_of self.old))
            (λ fault. fault ≡ StepFault.Memory) }
    {
        match self.lexeme {
            Lexeme::Between => {}
            Lexeme::Number(part) if is_last(part) => self.end_number()?,
            _ => return Ok(None),
        }
        match mem::replace(&mut self.place, Place::Value) {
            Place::Ended(tree) => Ok(Some(tree)),
            _ => Ok(None),
        }
    }
}
