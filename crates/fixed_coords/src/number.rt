//! The parts of a number, as its text has them.

ghost use Rattle.std.specs.Prelude.{◌≡◌, ◌↔◌, IfSome, IfNone, IsTrue, min, length, take_while, drop};
ghost use Rattle.std.specs.Str.Parse.{digits_value};
ghost use Rattle.std.specs.Char.{is_ascii_digit};
ghost use Rattle.number_grammar.specs.Number.{Parts, AreDigits, IsDigits, IsInt, IsFrac, IsExp, IsMadeOf, IsNumber};
ghost use Rattle.number_grammar.specs.Cut.{first_digits, after_digits, first_minus, after_minus, first_frac, after_frac};
ghost use Rattle.fixed_coords.specs.Spelled.{IsExponentOf, minus_of, IsNumberOf};

/// A number's parts: the sign, the digits before and after the point, and the exponent.
#[derive(Clone, Copy, Drop)]
pub struct Number<'a> {
    pub negative: bool,
    pub whole: &'a [u8],
    pub fraction: &'a [u8],
    pub exponent: Exponent,
}

/// A power of ten. Its size is never more than [`EXPONENT_MOST`]: a greater one is stored as that.
#[derive(Clone, Copy, Drop)]
pub struct Exponent {
    pub negative: bool,
    pub size: usize,
}

/// The greatest size of an exponent that is stored. It already moves the point past all the digits of a spelling.
pub const EXPONENT_MOST: usize = 1000;

/// Returns the parts of the number that the text is, or `None` if it is not a number.
pub fn number_of(text: &[u8]) -> Option<Number<'_>>
    ensures none { IfNone result (IsNumber text.now → ⊥) }
    ensures some { IfSome result (λ number. (parts : Parts) × IsMadeOf text.now parts × IsNumberOf number parts) }
{
    let (negative, rest) = split_minus(text);
    let (whole, rest) = split_digits(rest);
    if !is_whole(whole) {
        return None;
    }
    let (fraction, rest) = split_fraction(rest)?;
    let exponent = exponent_of(rest)?;
    Some(Number {
        negative,
        whole,
        fraction,
        exponent,
    })
}

/// Returns whether the text begins with `-`, and what follows it.
fn split_minus(text: &[u8]) -> (bool, &[u8])
    ensures minus { first_minus text.now ≡ minus_of result.0 }
    ensures rest { result.1.now ≡ after_minus text.now }
{
    match text {
        [b'-', rest @ ..] => (true, rest),
        _ => (false, text),
    }
}

/// Returns the digits that the text begins with, and what follows them.
fn split_digits(text: &[u8]) -> (&[u8], &[u8])
    ensures digits { result.0.now ≡ first_digits text.now }
    ensures rest { result.1.now ≡ after_digits text.now }
{
    text.split_at(digit_count(text))
}

/// Returns how many digits the text begins with.
fn digit_count(text: &[u8]) -> usize
    ensures { result ≡ length (take_while is_ascii_digit text.now) }
{
    text.iter().take_while(|byte| byte.is_ascii_digit()).count()
}

/// Returns whether these digits may come before the point: `0` alone, or digits that do not begin with `0`.
fn is_whole(digits: &[u8]) -> bool
    requires { AreDigits digits.now }
    ensures { IsTrue result ↔ IsInt digits.now }
{
    match digits {
        [] => false,
        [b'0'] => true,
        [first, ..] => *first != b'0',
    }
}

/// Returns the digits after a leading point, and what follows them. If there is no leading point, there are no digits.
///
/// Returns `None` if no digit follows the point.
fn split_fraction(text: &[u8]) -> Option<(&[u8], &[u8])>
    ensures none { IfNone result (IsFrac (first_frac text.now) → ⊥) }
    ensures frac { IfSome result (λ split. IsFrac (first_frac text.now)) }
    ensures digits { IfSome result (λ split. split.0.now ≡ drop 1 (first_frac text.now)) }
    ensures rest { IfSome result (λ split. split.1.now ≡ after_frac text.now) }
{
    match text {
        [b'.', rest @ ..] => {
            let (fraction, rest) = split_digits(rest);
            if fraction.is_empty() {
                None
            } else {
                Some((fraction, rest))
            }
        }
        _ => Some((&text[..0], text)),
    }
}

/// Returns the exponent that the text gives, its letter included, or 0 if the text is empty. Returns `None` if the text is not an
/// exponent.
fn exponent_of(text: &[u8]) -> Option<Exponent>
    ensures none { IfNone result (IsExp text.now → ⊥) }
    ensures exp { IfSome result (λ exponent. IsExp text.now) }
    ensures value { IfSome result (λ exponent. IsExponentOf exponent (drop 1 text.now)) }
{
    match text {
        [] => Some(Exponent {
            negative: false,
            size: 0,
        }),
        [b'e' | b'E', b'-', digits @ ..] => signed_exponent(true, digits),
        [b'e' | b'E', b'+', digits @ ..] => signed_exponent(false, digits),
        [b'e' | b'E', digits @ ..] => signed_exponent(false, digits),
        _ => None,
    }
}

/// Returns the exponent with these digits and this sign, or `None` if they are not digits or there are none.
fn signed_exponent(negative: bool, digits: &[u8]) -> Option<Exponent>
    ensures none { IfNone result (IsDigits digits.now → ⊥) }
    ensures digits { IfSome result (λ exponent. IsDigits digits.now) }
    ensures sign { IfSome result (λ exponent. exponent.negative ≡ negative) }
    ensures size { IfSome result (λ exponent. exponent.size ≡ min (digits_value 10 digits.now) 1000) }
{
    if digits.is_empty() {
        return None;
    }
    let mut size = 0;
    for digit in digits {
        if !digit.is_ascii_digit() {
            return None;
        }
        size = (size * 10 + (*digit - b'0') as usize).min(EXPONENT_MOST);
    }
    Some(Exponent { negative, size })
}
