// The answers of shelves and of the session to what a script asks.
use crate::script::{Asked, Call, Question};
use crate::text::{EntryText, HexText, RefusalText};
use session::refusal::Refusal;
use session::session::Session;
use session::session::working::Stop;
use shelf::fault::Entry;
use shelf::shelf::Shelf;
use std::alloc::{AllocError, Global};
use std::fmt;
use writer::{WriteRefusal, write};

// What is answered; a buffer is kept whole, beside the length of what was written.
#[derive(Drop)]
pub(crate) enum Answer {
    Count(u16),
    Entry(Entry),
    Written {
        length: Result<usize, WriteRefusal>,
        buffer: Vec<u8>,
    },
    Done(Result<(), Refusal>),
    Place(Result<u16, Refusal>),
    Worked {
        steps: u16,
        stop: Stop,
    },
}

impl Call {
    // What the call answers. An opening is checked only: its session is open already.
    pub(crate) fn answer(&self, heap: Global, session: &mut Session) -> Result<Answer, AllocError> {
        match self {
            Call::Open(sizes) => Ok(Answer::Done(sizes.check())),
            Call::Ask(asked) => asked.answer(heap, session),
            Call::Want(terms) => Ok(Answer::Place(session.want(terms.as_slice()))),
            Call::Work(budget) => {
                let (steps, stop) = session.work(*budget);
                Ok(Answer::Worked { steps, stop })
            }
        }
    }
}

impl Asked {
    // What the shelf answers, or the session that takes it.
    fn answer(&self, heap: Global, session: &mut Session) -> Result<Answer, AllocError> {
        ask(heap, session, self.question, &self.source)
    }
}

// The answer of any shelf. It writes into bytes that are EE before. A match and no closure, since what is asked is read from
// a script.
fn ask<S: Shelf>(
    heap: Global,
    session: &mut Session,
    question: Question,
    shelf: &S,
) -> Result<Answer, AllocError> {
    match question {
        Question::Count => Ok(Answer::Count(shelf.count())),
        Question::Entry(place) => Ok(Answer::Entry(shelf.entry(place))),
        Question::Write(capacity) => {
            let mut buffer = vec![in heap; 0xeeu8; capacity]?;
            let length = write(shelf, buffer.as_mut_slice());
            Ok(Answer::Written { length, buffer })
        }
        Question::Take => Ok(Answer::Done(session.take(shelf))),
    }
}

// An answer as it stands after the arrow.
impl fmt::Display for Answer {
    fn fmt<W: fmt::Write>(&self, f: &mut fmt::Formatter<W>) -> fmt::Result {
        match self {
            Answer::Count(count) => write!(f, "{count}"),
            Answer::Entry(entry) => write!(f, "{}", EntryText(*entry)),
            Answer::Written {
                length: Ok(length),
                buffer,
            } => write!(f, "{length} {}", HexText(buffer.as_slice())),
            Answer::Written {
                length: Err(refusal),
                ..
            } => write!(f, "refused {}", refusal.number()),
            Answer::Done(Ok(())) => f.write_str("ok"),
            Answer::Place(Ok(place)) => write!(f, "place {place}"),
            Answer::Done(Err(refusal)) | Answer::Place(Err(refusal)) => {
                write!(f, "{}", RefusalText(*refusal))
            }
            Answer::Worked { steps, stop } => write!(f, "{steps} {}", stop.number()),
        }
    }
}
