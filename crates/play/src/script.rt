// Reads a line of a script: a word, and what it is about.
use crate::opening;
use crate::records::records;
use crate::single::Single;
use crate::source::Source;
use hex::FromHexError;
use numbers::term::Term;
use session::sizes::Sizes;
use shelf::joined::Joined;
use std::alloc::{AllocError, Global};
use std::num::ParseIntError;

// Why a line gives no call.
#[derive(Clone, Copy)]
pub(crate) enum Unread {
    NotUnderstood,
    NoMemory,
}

// Memory ran out while the shelf was made.
impl From<AllocError> for Unread {
    fn from(_e: AllocError) -> Unread {
        Unread::NoMemory
    }
}

// A text that should be a number is none, or one that is too large.
impl From<ParseIntError> for Unread {
    fn from(_e: ParseIntError) -> Unread {
        Unread::NotUnderstood
    }
}

// A text that should be bytes in hex is not, or memory ran out while it was read.
impl From<FromHexError> for Unread {
    fn from(e: FromHexError) -> Unread {
        match e {
            FromHexError::OutOfMemory => Unread::NoMemory,
            _ => Unread::NotUnderstood,
        }
    }
}

// What is done with a shelf: its count or the entry at a place is asked, it is written into so many bytes, or the
// session takes it.
#[derive(Clone, Copy)]
pub(crate) enum Question {
    Count,
    Entry(u16),
    Write(usize),
    Take,
}

// A question and the shelf that it is asked of.
#[derive(Drop)]
pub(crate) struct Asked {
    pub(crate) question: Question,
    pub(crate) source: Source,
}

// A call: a session is opened, a shelf is asked, or the session is to store a list of terms or to work.
#[derive(Drop)]
pub(crate) enum Call {
    Open(Sizes),
    Ask(Asked),
    Want(Vec<Term>),
    Work(u16),
}

impl Call {
    // The call that a line states.
    pub(crate) fn read(heap: Global, line: &str) -> Result<Call, Unread> {
        let (word, rest) = parted(line, " ")?;
        match word {
            "open" => Ok(Call::Open(opening::read(line)?)),
            "want" => Ok(Call::Want(terms(heap, rest)?)),
            "work" => Ok(Call::Work(rest.parse()?)),
            _ => Ok(Call::Ask(Asked::read(heap, word, rest)?)),
        }
    }
}

impl Asked {
    // The question that a word stands for. Some take a number after the shelf.
    fn read(heap: Global, word: &str, rest: &str) -> Result<Asked, Unread> {
        let (question, shelf) = match word {
            "count" => (Question::Count, rest),
            "take" => (Question::Take, rest),
            "entry" => {
                let (shelf, place) = parted(rest, " ")?;
                (Question::Entry(place.parse()?), shelf)
            }
            "write" => {
                let (shelf, capacity) = parted(rest, " ")?;
                (Question::Write(capacity.parse()?), shelf)
            }
            _ => return Err(Unread::NotUnderstood),
        };
        Ok(Asked {
            question,
            source: Source::read(heap, shelf)?,
        })
    }
}

impl Source {
    // Two shelves in brackets after the letter j and a mark, or one shelf that is not joined.
    fn read(heap: Global, text: &str) -> Result<Source, Unread> {
        let Some(joined) = text.strip_prefix("j:") else {
            return Ok(Source::Alone(Single::read(heap, text)?));
        };
        let (mark, pair) = parted(joined, ":(")?;
        let (first, rest) = parted(pair, ")+(")?;
        let (second, after) = parted(rest, ")")?;
        if !after.is_empty() {
            return Err(Unread::NotUnderstood);
        }
        Ok(Source::Joined(Joined::new(
            Single::read(heap, first)?,
            Single::read(heap, second)?,
            mark.parse()?,
        )))
    }
}

impl Single {
    // A letter, a mark and bytes in hex.
    fn read(heap: Global, text: &str) -> Result<Single, Unread> {
        let (letter, rest) = parted(text, ":")?;
        let (mark, digits) = parted(rest, ":")?;
        let mark = mark.parse()?;
        let bytes = hex_bytes(heap, digits)?;
        match letter {
            "c" => Ok(Single::Catalogue { bytes, mark }),
            "r" => Ok(Single::Records {
                records: records(heap, bytes.as_slice())?,
                mark,
            }),
            _ => Err(Unread::NotUnderstood),
        }
    }
}

// The bytes of a text in hex. It is looked at before memory is asked for, so that a long text that is not hex needs none.
fn hex_bytes(heap: Global, digits: &str) -> Result<Vec<u8>, Unread> {
    if !digits.bytes().all(|digit| digit.is_ascii_hexdigit()) {
        return Err(Unread::NotUnderstood);
    }
    Ok(hex::decode(heap, digits)?)
}

// The parts of a text before and after a separator.
pub(crate) fn parted<'a>(text: &'a str, separator: &str) -> Result<(&'a str, &'a str), Unread> {
    text.split_once(separator).ok_or(Unread::NotUnderstood)
}

// The terms of a list with commas, or none for two braces. Testing their numbers is the session's part.
fn terms(heap: Global, text: &str) -> Result<Vec<Term>, Unread> {
    if text == "{}" {
        return Ok(Vec::new(heap));
    }
    text.split(',')
        .map(|number| -> Result<Term, Unread> { Ok(Term(number.parse()?)) })
        .try_collect(heap)
}
