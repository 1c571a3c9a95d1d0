//! The impacts of a text's words, and the one word of a text that has only one.
ghost use Rattle.std.specs.Prelude.{◌≡◌, IfOk};
ghost use Rattle.term_impacts.specs.Impacts.{word_impacts};
ghost use Rattle.term_impacts.specs.Text.{words_of, only};

use crate::tally::Tally;
use crate::text_words::TextWords;
use crate::word::Word;
use crate::words::Words;
use spatial_base::Memory;
use std::alloc::{AllocError, Global};

/// Returns the words of a text with their impacts.
///
/// The words are the text's pieces between word boundaries (UAX #29) that have a letter or a number, after default case folding. Those
/// of more than 32 bytes do not count. The first 64 distinct words, by first appearance, are kept. The impact of each is `1 + floor(254
/// * tf / L)`, if it occurs `tf` times in the text and the text has `L` words in all.
///
/// Fails only if memory runs out. It makes one pass over the text, and keeps at most 64 words, however long the text is.
pub fn impacts(alloc: Global, text: &str) -> Result<Words, Memory>
    ensures { IfOk result (λ words. words ≡ word_impacts text.now) }
{
    weighed(alloc, text).map_err(|_| Memory)
}

fn weighed(alloc: Global, text: &str) -> Result<Words, AllocError>
    ensures { IfOk result (λ words. words ≡ word_impacts text.now) }
{
    let mut tally = Tally::new(alloc);
    for word in TextWords::new(text) {
        tally.add(word)?;
    }
    tally.impacts(alloc)
}

/// Returns the word of a text if the text has exactly one word, and `None` otherwise.
///
/// It stops at the second word, allocates no memory, and never fails.
pub fn one_word(_alloc: Global, text: &str) -> Result<Option<Word>, Memory>
    ensures { result ≡ Ok (only (words_of text.now)) }
{
    let mut found = None;
    for word in TextWords::new(text) {
        if found.is_some() {
            return Ok(None);
        }
        found = Some(word);
    }
    Ok(found)
}
