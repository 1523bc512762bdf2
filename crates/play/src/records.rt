// Records as a script gives them: a kind, a right side, two role bytes, and the left set in 8 bytes.
use crate::script::Unread;
use numbers::role::{DirectedRole, Role};
use numbers::term::Term;
use numbers::term_set::TermSet;
use numbers::word_set::WordSet;
use shelf::form::{Axiom, Form};
use std::alloc::Global;

// The records, each of 12 bytes. Their numbers stay untested, since that is the shelf's part.
pub(crate) fn records(heap: Global, bytes: &[u8]) -> Result<Vec<Axiom>, Unread> {
    bytes.chunks(12).map(record).try_collect(heap)
}

// The record of 12 bytes.
fn record(row: &[u8]) -> Result<Axiom, Unread> {
    let [kind, right, role, upper, a, b, c, d, e, f, g, h] = row else {
        return Err(Unread::NotUnderstood);
    };
    let left = TermSet::of_word(u64::from_be_bytes([*a, *b, *c, *d, *e, *f, *g, *h]));
    let term = Term(*right);
    let role = directed(*role);
    match *kind {
        1 => Ok(Form::Under { left, term }),
        2 => Ok(Form::Nothing { left }),
        3 => Ok(Form::Exists {
            left,
            role,
            filler: filler(term),
        }),
        4 => Ok(Form::Only { left, role, term }),
        5 => Ok(Form::AtMostOne {
            left,
            role,
            filler: filler(term),
        }),
        6 => Ok(Form::RoleUnder {
            lower: role,
            upper: directed(*upper),
        }),
        _ => Err(Unread::NotUnderstood),
    }
}

// A right side where the number 0 stands for everything.
fn filler(term: Term) -> Option<Term> {
    (term.0 != 0).then_some(term)
}

// A role byte: the number, or 128 plus the number where the role is read backward. No `From`, which may only be written in the
// crate of one of its types.
fn directed(byte: u8) -> DirectedRole {
    if byte < 128 {
        DirectedRole::Forward(Role(byte))
    } else {
        DirectedRole::Backward(Role(byte - 128))
    }
}
