//! Why a line is refused.
ghost use Rattle.std.specs.Prelude.{◌≡◌, ◌≢◌};
ghost use Rattle.query_replies.specs.Fault.{reason_text};

/// Why a line is refused.
#[derive(Clone, Copy, Debug, PartialEq, Eq)]
pub enum LineFault {
    /// The line is not UTF-8.
    Utf8 = 1,
    /// The line has more than 65,536 bytes.
    Length = 2,
    /// There is no command at a place that needs one.
    Command = 3,
    /// The line ends too early.
    Missing = 4,
    /// There is no number at a place that needs one.
    Number = 5,
    /// The number is out of its range.
    Range = 6,
    /// There is no key at a place that needs one.
    Key = 7,
    /// There is no word at a place that needs one, or the word was already given.
    Word = 8,
    /// There is no part of an expression at a place that needs one, or the expression is too deep or has too many words.
    Expression = 9,
    /// The line has more after it is complete.
    Extra = 10,
    /// Memory ran out.
    Memory,
}

/// Returns the word that a refusal is reported with.
pub(crate) fn reason(fault: LineFault) -> &'static [u8]
    requires { fault ≢ LineFault.Memory }
    ensures { result.now ≡ reason_text fault }
{
    match fault {
        LineFault::Utf8 => b"utf8",
        LineFault::Length => b"length",
        LineFault::Command => b"command",
        LineFault::Missing => b"missing",
        LineFault::Number => b"number",
        LineFault::Range => b"range",
        LineFault::Key => b"key",
        LineFault::Word => b"word",
        LineFault::Expression => b"expression",
        LineFault::Extra => b"extra",
        LineFault::Memory => unreachable!(),
    }
}
