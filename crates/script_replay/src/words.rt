//! Words with one space between.

ghost use Rattle.std.specs.Prelude.{◌≡◌, ◌<◌, ◌≤◌, length};

use crate::line::{BadLine, Producer};
use script_words::{parse_index, parse_signed};

/// Whether a line has an empty word: a space stands first, last, or behind another, or there is nothing.
pub(crate) fn has_empty_word(line: &[u8]) -> bool {
    let mut before = b' ';
    for byte in line {
        if before == b' ' && *byte == b' ' {
            return true;
        }
        before = *byte;
    }
    before == b' '
}

/// The first word, and what stands behind the space after it; nothing where it is the last.
pub(crate) fn split_word(words: &[u8]) -> (&[u8], &[u8])
    ensures shorter { 0 < length words.now → length result.1.now < length words.now }
{
    match words.iter().position(|byte| *byte == b' ') {
        Some(space) => (&words[..space], &words[space + 1..]),
        None => (words, &words[words.len()..]),
    }
}

/// The words of a line that are not yet read.
#[derive(Drop)]
pub(crate) struct Words<'a> {
    rest: &'a [u8],
}

impl<'a> Words<'a> {
    pub(crate) fn new(rest: &'a [u8]) -> Words<'a> {
        Words { rest }
    }

    /// All that are left.
    pub(crate) fn rest(&self) -> &'a [u8] {
        self.rest
    }

    /// The next word; an empty one where none is left.
    fn next(&mut self) -> &'a [u8] {
        let (word, rest) = split_word(self.rest);
        self.rest = rest;
        word
    }

    /// Reads a number that isn't negative.
    pub(crate) fn index(&mut self) -> Result<usize, BadLine> {
        parse_index(self.next()).ok_or(BadLine)
    }

    /// Reads a signed number.
    pub(crate) fn signed(&mut self) -> Result<i64, BadLine> {
        parse_signed(self.next()).ok_or(BadLine)
    }

    /// Reads a producer's id, its epoch and a sequence number.
    pub(crate) fn producer(&mut self) -> Result<Producer, BadLine> {
        let id = self.signed()?;
        let epoch = i16::try_from(self.signed()?).map_err(|_| BadLine)?;
        let sequence = i32::try_from(self.signed()?).map_err(|_| BadLine)?;
        Ok(Producer {
            id,
            epoch,
            sequence,
        })
    }

    /// Whether no word is left.
    pub(crate) fn are_over(&self) -> bool {
        self.rest.is_empty()
    }

    /// Sees that no word is left.
    pub(crate) fn end(&self) -> Result<(), BadLine> {
        if self.are_over() {
            Ok(())
        } else {
            Err(BadLine)
        }
    }
}
