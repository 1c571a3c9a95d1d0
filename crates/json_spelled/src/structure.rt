ghost use Rattle.std.specs.Prelude.{◌≡◌, ◌<◌, ◌∷◌, [], Some, None, OnOk, string_bytes, if◌then◌else◌};
ghost use Rattle.json_spelled.specs.Kind.{kind as kind_read};
ghost use Rattle.json_spelled.specs.Machine.{Between, InText, InBytes, InNumber, InWord, open_at, begin, between, first_item, behind_item, first_name, name_step, behind_name, behind_member, ended_step, deliver};
ghost use Rattle.json_spelled.specs.Reader.{state_of, around, place_of, use_of, Tries, Makes};
ghost use Rattle.json_spelled.specs.View.{json_of, jsons_of, entries_of};

use crate::fault::StepFault;
use crate::kind::Kind;
use crate::lexeme::{Lexeme, Part, Word};
use crate::reader::{Open, Place, Reader};
use crate::text::push_ascii;
use crate::tree::Tree;
use std::mem;

/// How many arrays and objects may be open at once.
const LEVELS: usize = 64;

impl Reader {
    /// Takes a whole value.
    #[tactic(auto, using(crate::proofs::Frames::frames_pushed, crate::proofs::Frames::jsons_pushed, crate::proofs::Frames::entries_pushed, crate::proofs::Frames::frames_empty))]
    pub(crate) fn deliver(&mut self, value: Tree) -> Result<(), StepFault>
        ensures made { Makes result (deliver (json_of value) (around self.old)) (state_of self.new) }
        ensures between { OnOk result (self.new.lexeme ≡ Lexeme.Between) }
    {
        match self.opened.pop() {
            None => self.stand(Place::Ended(value)),
            Some(Open::List(mut items)) => {
                items.push(value)?;
                self.stand(Place::BehindItem(items));
            }
            Some(Open::Object(mut members, name)) => {
                members.push((name, value))?;
                self.stand(Place::BehindMember(members));
            }
        }
        Ok(())
    }

    /// Closes the token: after it no token is open, and `place` says what may come.
    pub(crate) fn stand(&mut self, place: Place)
        ensures made { state_of self.new ≡ Between (place_of place) (around self.old) }
        ensures between { self.new.lexeme ≡ Lexeme.Between }
    {
        self.lexeme = Lexeme::Between;
        self.place = place;
    }

    /// Opens a level, or refuses if 64 are open.
    #[tactic(auto, using(crate::proofs::Frames::length_frames))]
    fn open_at(&mut self, place: Place) -> Result<(), StepFault>
        ensures { Tries (λ levels. open_at levels (place_of place) (around self.old))
            result (state_of self.new) }
    {
        if self.opened.len() >= LEVELS {
            return Err(StepFault::TooDeep);
        }
        self.stand(place);
        Ok(())
    }

    fn begin_text(&mut self, place: Place)
        ensures { state_of self.new ≡ InText (use_of place) InBytes [] None (around self.old) }
    {
        self.lexeme = Lexeme::Text;
        self.place = place;
        self.token.clear();
        self.high = None;
    }

    fn begin_number(&mut self, part: Part, byte: u8) -> Result<(), StepFault>
        requires { byte < 128 }
        ensures { Makes result (InNumber part (byte ∷ []) (around self.old)) (state_of self.new) }
    {
        self.lexeme = Lexeme::Number(part);
        self.token.clear();
        push_ascii(&mut self.token, byte)?;
        Ok(())
    }

    fn begin_word(&mut self, word: Word)
        ensures { state_of self.new ≡ InWord word (around self.old) }
    {
        self.lexeme = Lexeme::Word(word);
    }

    /// Begins a value.
    fn begin(&mut self, kind: Kind, byte: u8) -> Result<(), StepFault>
        requires { kind ≡ kind_read byte }
        ensures { Tries (λ levels. begin levels (around self.old) kind byte)
            result (state_of self.new) }
    {
        match kind {
            Kind::Blank | Kind::Break => self.stand(Place::Value),
            Kind::Quote => self.begin_text(Place::Value),
            Kind::OpenList => return self.open_at(Place::FirstItem),
            Kind::OpenObject => return self.open_at(Place::FirstName),
            Kind::Minus => self.begin_number(Part::Minus, byte)?,
            Kind::Zero => self.begin_number(Part::Zero, byte)?,
            Kind::Digit => self.begin_number(Part::Integer, byte)?,
            Kind::SmallN => self.begin_word(Word::N),
            Kind::SmallT => self.begin_word(Word::T),
            Kind::SmallF => self.begin_word(Word::F),
            _ => return Err(StepFault::Refused),
        }
        Ok(())
    }

    /// Begins the first item of an array, or closes the array.
    #[tactic(auto, using(crate::proofs::Frames::frames_pushed))]
    fn first_item(&mut self, kind: Kind, byte: u8) -> Result<(), StepFault>
        requires { kind ≡ kind_read byte }
        ensures { Tries (λ levels. first_item levels (around self.old) kind byte)
            result (state_of self.new) }
    {
        match kind {
            Kind::Blank | Kind::Break => {
                self.stand(Place::FirstItem);
                Ok(())
            }
            Kind::CloseList => self.deliver(Tree::List(Vec::new(self.alloc))),
            _ => {
                self.opened.push(Open::List(Vec::new(self.alloc)))?;
                self.begin(kind, byte)
            }
        }
    }

    #[tactic(auto, using(crate::proofs::Frames::frames_pushed))]
    fn behind_item(&mut self, items: Vec<Tree>, kind: Kind) -> Result<(), StepFault>
        ensures { Tries (λ _. behind_item (jsons_of items.items) (around self.old) kind)
            result (state_of self.new) }
    {
        match kind {
            Kind::Blank | Kind::Break => self.stand(Place::BehindItem(items)),
            Kind::Comma => {
                self.opened.push(Open::List(items))?;
                self.stand(Place::Value);
            }
            Kind::CloseList => self.deliver(Tree::List(items))?,
            _ => return Err(StepFault::Refused),
        }
        Ok(())
    }

    fn first_name(&mut self, kind: Kind) -> Result<(), StepFault>
        ensures { Tries (λ _. first_name (around self.old) kind) result (state_of self.new) }
    {
        match kind {
            Kind::Blank | Kind::Break => self.stand(Place::FirstName),
            Kind::Quote => self.begin_text(Place::Name(Vec::new(self.alloc))),
            Kind::CloseObject => self.deliver(Tree::Members(Vec::new(self.alloc)))?,
            _ => return Err(StepFault::Refused),
        }
        Ok(())
    }

    fn name(&mut self, members: Vec<(String, Tree)>, kind: Kind) -> Result<(), StepFault>
        ensures { Tries (λ _. name_step (entries_of members.items) (around self.old) kind)
            result (state_of self.new) }
    {
        match kind {
            Kind::Blank | Kind::Break => self.stand(Place::Name(members)),
            Kind::Quote => self.begin_text(Place::Name(members)),
            _ => return Err(StepFault::Refused),
        }
        Ok(())
    }

    #[tactic(auto, using(crate::proofs::Frames::frames_pushed))]
    fn behind_name(
        &mut self,
        members: Vec<(String, Tree)>,
        name: String,
        kind: Kind,
    ) -> Result<(), StepFault>
        ensures { Tries (λ _. behind_name (entries_of members.items) (string_bytes name) (around self.old) kind)
            result (state_of self.new) }
    {
        match kind {
            Kind::Blank | Kind::Break => self.stand(Place::BehindName(members, name)),
            Kind::Colon => {
                self.opened.push(Open::Object(members, name))?;
                self.stand(Place::Value);
            }
            _ => return Err(StepFault::Refused),
        }
        Ok(())
    }

    fn behind_member(&mut self, members: Vec<(String, Tree)>, kind: Kind) -> Result<(), StepFault>
        ensures { Tries (λ _. behind_member (entries_of members.items) (around self.old) kind)
            result (state_of self.new) }
    {
        match kind {
            Kind::Blank | Kind::Break => self.stand(Place::BehindMember(members)),
            Kind::Comma => self.stand(Place::Name(members)),
            Kind::CloseObject => self.deliver(Tree::Members(members))?,
            _ => return Err(StepFault::Refused),
        }
        Ok(())
    }

    fn ended(&mut self, tree: Tree, kind: Kind) -> Result<(), StepFault>
        ensures { Tries (λ _. ended_step (json_of tree) (around self.old) kind)
            result (state_of self.new) }
    {
        match kind {
            Kind::Blank | Kind::Break => self.stand(Place::Ended(tree)),
            _ => return Err(StepFault::Refused),
        }
        Ok(())
    }

    /// Takes one byte of a byte order mark.
    fn mark(&mut self, is_right: bool, place: Place) -> Result<(), StepFault>
        ensures { Tries (λ _. if is_right then Some (Between (place_of place) (around self.old)) else None)
            result (state_of self.new) }
    {
        if !is_right {
            return Err(StepFault::Refused);
        }
        self.stand(place);
        Ok(())
    }

    /// Takes a byte while no token is open.
    pub(crate) fn between(&mut self, kind: Kind, byte: u8) -> Result<(), StepFault>
        requires { kind ≡ kind_read byte }
        ensures { Tries (λ levels. between levels (place_of self.old.place) (around self.old) kind byte)
            result (state_of self.new) }
    {
        let place = mem::replace(&mut self.place, Place::Value);
        self.go_on(place, kind, byte)
    }

    /// Takes a byte while no token is open and `place` says what may come.
    fn go_on(&mut self, place: Place, kind: Kind, byte: u8) -> Result<(), StepFault>
        requires { kind ≡ kind_read byte }
        ensures { Tries (λ levels. between levels (place_of place) (around self.old) kind byte)
            result (state_of self.new) }
    {
        match place {
            Place::Start if byte == 0xEF => self.mark(true, Place::Mark1),
            Place::Start => self.begin(kind, byte),
            Place::Mark1 => self.mark(byte == 0xBB, Place::Mark2),
            Place::Mark2 => self.mark(byte == 0xBF, Place::Value),
            Place::Value => self.begin(kind, byte),
            Place::FirstItem => self.first_item(kind, byte),
            Place::BehindItem(items) => self.behind_item(items, kind),
            Place::FirstName => self.first_name(kind),
            Place::Name(members) => self.name(members, kind),
            Place::BehindName(members, name) => self.behind_name(members, name, kind),
            Place::BehindMember(members) => self.behind_member(members, kind),
            Place::Ended(tree) => self.ended(tree, kind),
        }
    }
}
