//! The lines of a script.

use crate::items::Items;
use crate::words::{Words, has_empty_word, split_word};
use content::CleaningPart;

/// A line that is none of a script's.
#[derive(Clone, Copy, PartialEq, Eq)]
pub struct BadLine;

/// Who sends a batch, and as which of its batches.
#[derive(Clone, Copy, PartialEq, Eq)]
pub struct Producer {
    /// The producer's id, or -1 for none.
    pub id: i64,
    /// The producer's epoch.
    pub epoch: i16,
    /// The sequence number of the first record.
    pub sequence: i32,
}

impl Producer {
    /// No producer: each number is -1.
    pub const NONE: Producer = Producer {
        id: -1,
        epoch: -1,
        sequence: -1,
    };
}

/// What a line of a script says. Copies, batches and images are numbered from 0.
#[derive(Clone, Copy)]
pub enum Line<'a> {
    /// There are so many copies.
    Copies {
        count: usize,
    },
    /// A batch is sent to the leader.
    Produce {
        producer: Producer,
        items: Items<'a>,
    },
    /// A batch that was appended is delivered to a follower.
    Deliver {
        copy: usize,
        batch: usize,
    },
    /// A copy is cleaned.
    Clean {
        copy: usize,
        upto: i64,
        tomb_before: i64,
    },
    /// A part of a copy is cleaned.
    CleanPart {
        copy: usize,
        part: CleaningPart,
    },
    /// An image of a copy is kept.
    Send {
        copy: usize,
    },
    /// An image is merged into a follower.
    Merge {
        copy: usize,
        image: usize,
    },
    /// A copy's start moves up.
    Trim {
        copy: usize,
        start: i64,
    },
    /// A copy's table is printed.
    Table {
        copy: usize,
    },
    /// The offsets that a copy has seen are printed.
    Cover {
        copy: usize,
    },
}

/// A batch of the items that are left.
fn produce<'a>(producer: Producer, words: &Words<'a>) -> Result<Line<'a>, BadLine> {
    let items = Items::new(words.rest())?;
    Ok(Line::Produce { producer, items })
}

/// A delivery of the batch whose number comes next.
fn deliver<'a>(copy: usize, words: &mut Words<'a>) -> Result<Line<'a>, BadLine> {
    let batch = words.index()?;
    Ok(Line::Deliver { copy, batch })
}

/// A cleaning with the bounds that come next: two numbers of a whole one, four of a part.
fn clean<'a>(copy: usize, words: &mut Words<'a>) -> Result<Line<'a>, BadLine> {
    let first = words.signed()?;
    let second = words.signed()?;
    if words.are_over() {
        return Ok(Line::Clean {
            copy,
            upto: first,
            tomb_before: second,
        });
    }
    let part = CleaningPart {
        from: first,
        to: second,
        upto: words.signed()?,
        tomb_before: words.signed()?,
    };
    Ok(Line::CleanPart { copy, part })
}

/// A merge of the image whose number comes next.
fn merge<'a>(copy: usize, words: &mut Words<'a>) -> Result<Line<'a>, BadLine> {
    let image = words.index()?;
    Ok(Line::Merge { copy, image })
}

/// A move of a copy's start to the offset that comes next.
fn trim<'a>(copy: usize, words: &mut Words<'a>) -> Result<Line<'a>, BadLine> {
    let start = words.signed()?;
    Ok(Line::Trim { copy, start })
}

/// A line of numbers, by its first word.
fn numbers<'a>(name: &[u8], words: &mut Words<'a>) -> Result<Line<'a>, BadLine> {
    let first = words.index()?;
    match name {
        b"copies" => Ok(Line::Copies { count: first }),
        b"deliver" => deliver(first, words),
        b"clean" => clean(first, words),
        b"send" => Ok(Line::Send { copy: first }),
        b"merge" => merge(first, words),
        b"trim" => trim(first, words),
        b"table" => Ok(Line::Table { copy: first }),
        b"cover" => Ok(Line::Cover { copy: first }),
        _ => Err(BadLine),
    }
}

/// A line of numbers, with no word behind them.
fn only_numbers<'a>(name: &[u8], words: &mut Words<'a>) -> Result<Line<'a>, BadLine> {
    let parsed = numbers(name, words)?;
    words.end()?;
    Ok(parsed)
}

/// A line, by its first word and those behind it.
fn parse_words<'a>(name: &[u8], words: &mut Words<'a>) -> Result<Line<'a>, BadLine> {
    match name {
        b"produce" => produce(Producer::NONE, words),
        b"produce-as" => {
            let producer = words.producer()?;
            produce(producer, words)
        }
        _ => only_numbers(name, words),
    }
}

/// Reads a line, given without its line feed. Takes no memory.
///
/// # Errors
///
/// The line is none of a script's.
pub fn parse_line(line: &[u8]) -> Result<Line<'_>, BadLine> {
    if has_empty_word(line) {
        return Err(BadLine);
    }
    let (name, rest) = split_word(line);
    let mut words = Words::new(rest);
    parse_words(name, &mut words)
}
