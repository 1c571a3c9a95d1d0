/// How much of a number the bytes read so far have given.
#[derive(Clone, Copy, Debug, PartialEq, Eq, Drop)]
pub enum Stage {
    /// No byte was read.
    Start,
    /// The sign was read.
    Minus,
    /// The digits before the point are `0`, and no more of them may follow.
    Zero,
    /// Digits before the point were read, and more may follow.
    Whole,
    /// The point was read.
    Point,
    /// Digits after the point were read.
    Fraction,
    /// `e` or `E` was read.
    Letter,
    /// The exponent's sign was read.
    Sign,
    /// Digits of the exponent were read.
    Exponent,
}

impl Stage {
    ghost use Rattle.std.specs.Prelude.{◌≡◌, ◌∷◌, [], ℕ, List, IfSome, IfNone, IsTrue, ◌↔◌};
    ghost use Rattle.number_grammar.specs.Stages.{Continues, next_stage};

    /// Returns the stage after one more byte, or `None` if no number continues with that byte.
    pub fn next(self, byte: u8) -> Option<Stage>
        ensures some { IfSome result (λ stage. (rest : List ℕ) → Continues self (byte ∷ rest) ↔ Continues stage rest) }
        ensures none { IfNone result ((rest : List ℕ) → Continues self (byte ∷ rest) → ⊥) }
    {
        self.after(byte)
    }

    /// From each stage some bytes complete a number, so the bytes so far are the beginning of one. The call does nothing: its contract
    /// is the law.
    pub fn begins_a_number(self)
        ensures { (rest : List ℕ) × Continues self rest }
    {}

    /// The stage after one more byte, by the tables of the grammar.
    fn after(self, byte: u8) -> Option<Stage>
        ensures { result ≡ next_stage self byte }
    {
        match self {
            Stage::Start if byte == b'-' => Some(Stage::Minus),
            Stage::Start | Stage::Minus if byte == b'0' => Some(Stage::Zero),
            Stage::Start | Stage::Minus | Stage::Whole if byte.is_ascii_digit() => Some(
                Stage::Whole,
            ),
            Stage::Zero | Stage::Whole if byte == b'.' => Some(Stage::Point),
            Stage::Point | Stage::Fraction if byte.is_ascii_digit() => Some(Stage::Fraction),
            Stage::Zero | Stage::Whole | Stage::Fraction if byte == b'e' || byte == b'E' => Some(
                Stage::Letter,
            ),
            Stage::Letter if byte == b'+' || byte == b'-' => Some(Stage::Sign),
            Stage::Letter | Stage::Sign | Stage::Exponent if byte.is_ascii_digit() => Some(
                Stage::Exponent,
            ),
            _ => None,
        }
    }

    /// Returns whether the bytes so far are a whole number of the grammar.
    pub fn is_number(self) -> bool
        ensures { IsTrue result ↔ Continues self [] }
    {
        matches!(
            self,
            Stage::Zero | Stage::Whole | Stage::Fraction | Stage::Exponent
        )
    }
}
