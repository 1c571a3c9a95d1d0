//! The words of a text, one by one.
ghost use Rattle.std.specs.Prelude.{◌≡◌, ◌≤◌, length};
ghost use Rattle.std.specs.Iterator.{YieldsFirst, item_count};
ghost use Rattle.term_impacts.specs.Text.{words_of};

use crate::folding::folded_word;
use crate::word::Word;
use unicode_segmentation::{UnicodeSegmentation, UnicodeWords};

/// An iterator over the words of a text, in order.
///
/// They are its pieces between word boundaries that have a letter or a number, folded, except those of more than 32 bytes.
#[derive(Drop)]
pub(crate) struct TextWords<'a> {
    pieces: UnicodeWords<'a>,
}

impl<'a> TextWords<'a> {
    ghost use Rattle.term_impacts.specs.Left.{words_left};

    #[inline]
    pub(crate) fn new(text: &'a str) -> TextWords<'a>
        ensures left { words_left result ≡ words_of text.now }
        ensures len { length (words_left result) ≤ length text.now }
    {
        TextWords {
            pieces: text.unicode_words(),
        }
    }
}

impl<'a> Iterator for TextWords<'a> {
    ghost use Rattle.term_impacts.specs.Left.{words_left};

    type Item = Word;

    ghost next_gives = { YieldsFirst words_left };

    ghost remaining = { item_count words_left };

    #[inline]
    fn next(&mut self) -> Option<Word> {
        'pieces: while let Some(piece) = self.pieces.next() {
            if let Some(word) = folded_word(piece) {
                return Some(word);
            }
        }
        None
    }
}
