//! Reads a token as a key.
ghost use Rattle.std.specs.Prelude.{◌≡◌};
ghost use Rattle.line_tokens.specs.Seen.{seen};
ghost use Rattle.query_lang.specs.Key.{text_key, serial_key, bare_key, key_of};
ghost use Rattle.query_lang.specs.Number.{number_of};

use crate::number::number;
use line_tokens::Token;
use query_replies::LineFault;
use spatial_base::Key;

// The key with this text.
fn text_key(text: &str) -> Result<Key, LineFault>
    ensures { result ≡ text_key text.now }
{
    Key::of_text(text).map_err(|_| LineFault::Key)
}

// The automatic key with this serial.
fn serial_key(digits: &[u8]) -> Result<Key, LineFault>
    ensures { result ≡ serial_key (number_of digits.now) }
{
    let Some(serial) = number(digits) else {
        return Err(LineFault::Key);
    };
    if serial <= u128::from(u64::MAX) {
        Ok(Key::auto(serial as u64))
    } else {
        Err(LineFault::Key)
    }
}

// The key that a bare token gives.
fn bare_key(text: &str, auto: bool) -> Result<Key, LineFault>
    ensures { result ≡ bare_key auto text.now }
{
    match text.as_bytes() {
        [b'#', digits @ ..] => {
            if auto {
                serial_key(digits)
            } else {
                Err(LineFault::Key)
            }
        }
        _ => text_key(text),
    }
}

/// Returns the key that a token gives. An automatic key is accepted only if `auto` is set.
pub(crate) fn key(token: &Token, auto: bool) -> Result<Key, LineFault>
    ensures { result ≡ key_of auto (seen token.now) }
{
    match token {
        Token::Bare(text) => bare_key(text, auto),
        Token::Quoted(text) => text_key(text.as_str()),
        _ => Err(LineFault::Key),
    }
}
