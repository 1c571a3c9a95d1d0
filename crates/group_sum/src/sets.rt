// Sets of words as masks: bit i stands for word i.
ghost use Rattle.std.specs.Prelude.{◌≡◌, ◌<◌, ◌≤◌, IfOk, length};
ghost use Rattle.group_sum.specs.Sets.{has_word, in_set};

use std::alloc::{AllocError, Global};
use term_impacts::Word;

/// Returns whether a set has a word.
pub(crate) fn has_word(set: usize, word: usize) -> bool
    requires { word < 64 }
    ensures { result ≡ has_word set word }
{
    set >> word & 1 == 1
}

/// Returns the words of a set, in order.
pub(crate) fn words_of(alloc: Global, words: &[Word], set: usize) -> Result<Vec<Word>, AllocError>
    requires { length words.now ≤ 8 }
    ensures { IfOk result (λ own. own.items ≡ in_set set words.now) }
{
    let mut own = Vec::new(alloc);
    for (i, word) in words.iter().enumerate() {
        if has_word(set, i) {
            own.push(*word)?;
        }
    }
    Ok(own)
}
