// What the cases are made of: roles, sets, axioms, faults, and the bytes of catalogues.
use numbers::role::{DirectedRole, Role};
use numbers::set::NumberSet;
use numbers::term::Term;
use numbers::term_set::TermSet;
use shelf::fault::{ByteFault, Cause, Entry, Origin, ShelfFault};
use shelf::form::{Axiom, Form};
use std::alloc::{AllocError, Global};

// The catalogue of the axioms `{1} under 2` and `S1 under -S2`.
pub(crate) const TWO_ENTRIES: &[u8; 17] =
    b"\x00\x02\x00\x0a\x00\x04\x00\x0e\x00\x03\x01\x00\x02\x01\x06\x01\x82";

// The first entry of the catalogue with two.
pub(crate) fn first_entry() -> Entry {
    Ok(under(&[1], 2))
}

// The second entry of the catalogue with two.
pub(crate) fn second_entry() -> Entry {
    Ok(role_under(forward(1), backward(2)))
}

// The role of a number, read forward.
pub(crate) fn forward(number: u8) -> DirectedRole {
    DirectedRole::Forward(Role(number))
}

// The role of a number, read backward.
pub(crate) fn backward(number: u8) -> DirectedRole {
    DirectedRole::Backward(Role(number))
}

// The set of the terms of these numbers.
pub(crate) fn terms(numbers: &[u8]) -> TermSet {
    numbers
        .iter()
        .fold(TermSet::empty(), |set, number| set.with(Term(*number)))
}

// The set of all 64 terms.
pub(crate) fn all_terms() -> TermSet {
    (1..=64u8).fold(TermSet::empty(), |set, number| set.with(Term(number)))
}

// The axiom that what carries the terms of the left carries the term of a number.
pub(crate) fn under(left: &[u8], number: u8) -> Axiom {
    Form::Under {
        left: terms(left),
        term: Term(number),
    }
}

// The axiom that nothing carries the terms of the left.
pub(crate) fn nothing(left: &[u8]) -> Axiom {
    Form::Nothing { left: terms(left) }
}

// The axiom that from what carries the left the role leads to some thing that carries the filler.
pub(crate) fn exists(left: &[u8], role: DirectedRole, filler: Option<Term>) -> Axiom {
    Form::Exists {
        left: terms(left),
        role,
        filler,
    }
}

// The axiom that from what carries the left the role leads only to what carries the term of a number.
pub(crate) fn only(left: &[u8], role: DirectedRole, number: u8) -> Axiom {
    Form::Only {
        left: terms(left),
        role,
        term: Term(number),
    }
}

// The axiom that from what carries the left the role leads to at most one thing with the filler.
pub(crate) fn at_most_one(left: &[u8], role: DirectedRole, filler: Option<Term>) -> Axiom {
    Form::AtMostOne {
        left: terms(left),
        role,
        filler,
    }
}

// The axiom that the lower role leads nowhere but where the upper one leads.
pub(crate) fn role_under(lower: DirectedRole, upper: DirectedRole) -> Axiom {
    Form::RoleUnder { lower, upper }
}

// The fault of a cause at a byte, in the shelf of a mark and at a place.
pub(crate) fn fault(cause: Cause, byte: usize, mark: u16, place: u16) -> ShelfFault {
    ShelfFault {
        fault: ByteFault { cause, byte },
        origin: Origin { mark, place },
    }
}

// Adds a number of two bytes, high byte first.
pub(crate) fn push_word(bytes: &mut Vec<u8>, word: usize) -> Result<(), AllocError> {
    bytes.extend_from_slice(&((word & 0xffff) as u16).to_be_bytes())
}

// The bytes of the catalogue that has these bodies.
pub(crate) fn catalogue_bytes(heap: Global, bodies: &[&[u8]]) -> Result<Vec<u8>, AllocError> {
    let mut bytes = Vec::new(heap);
    push_word(&mut bytes, bodies.len())?;
    let mut start = bodies.len().wrapping_mul(4).wrapping_add(2);
    for body in bodies {
        push_word(&mut bytes, start)?;
        push_word(&mut bytes, body.len())?;
        start = start.wrapping_add(body.len());
    }
    for body in bodies {
        bytes.extend_from_slice(*body)?;
    }
    Ok(bytes)
}

// The body of 67 bytes that says that nothing carries all 64 terms.
pub(crate) fn longest_body(heap: Global) -> Result<Vec<u8>, AllocError> {
    let mut body = vec![in heap; 2u8, 0, 0]?;
    body.extend(1..=64u8)?;
    Ok(body)
}
