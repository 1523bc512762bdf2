// The body of an entry, before it is put into a buffer.
ghost use Rattle.std.specs.Prelude.{◌≡◌, true, ◌++◌};
ghost use Rattle.numbers.specs.Roles.{is_role};
ghost use Rattle.shelf.specs.Axioms.{sound};
ghost use Rattle.shelf.specs.Shelves.{sound_entry};
ghost use Rattle.writer.specs.Writing.{role_byte, left_bytes, body_bytes, entry_bytes};

use arrayvec::ArrayVec;
use numbers::role::{DirectedRole, Role};
use numbers::set::NumberSet;
use numbers::term::Term;
use numbers::term_set::TermSet;
use shelf::fault::Entry;
use shelf::form::{Axiom, Form, filler_number};

// The bytes of a body: the kind, the two fields and the left list.
pub(crate) type Body = ArrayVec<u8, 67>;

// A role as a byte. This is no `From`, which may only be written in the crate of one of its types; a trait of our own
// for it would be no plainer.
fn role_byte(role: DirectedRole) -> u8
    requires { is_role role ≡ true }
    ensures { result ≡ role_byte role }
{
    match role {
        DirectedRole::Forward(Role(n)) => n,
        DirectedRole::Backward(Role(n)) => 128 + n,
    }
}

// The first three bytes of an axiom's body, its kind and its two fields, and the set of its left list. The kinds are
// the format's bytes and are written here alone, so an enum of them would be no plainer.
#[tactic(auto, using(crate::proofs::Members::none_bytes))]
fn head_and_left(axiom: Axiom) -> ([u8; 3], TermSet)
    requires { sound «axiom» ≡ true }
    ensures { body_bytes «axiom» ≡ result.0 ++ left_bytes result.1 }
{
    match axiom {
        Form::Under { left, term } => ([1, 0, term.0], left),
        Form::Nothing { left } => ([2, 0, 0], left),
        Form::Exists { left, role, filler } => ([3, role_byte(role), filler_number(filler)], left),
        Form::Only { left, role, term } => ([4, role_byte(role), term.0], left),
        Form::AtMostOne { left, role, filler } => (
            [5, role_byte(role), filler_number(filler)],
            left,
        ),
        Form::RoleUnder { lower, upper } => (
            [6, role_byte(lower), role_byte(upper)],
            TermSet::empty(),
        ),
    }
}

// The body of an axiom.
#[tactic(auto, using(crate::proofs::Members::terms_short))]
fn axiom_body(axiom: Axiom) -> Body
    requires { sound «axiom» ≡ true }
    ensures { result.items ≡ body_bytes «axiom» }
{
    let (head, left) = head_and_left(axiom);
    let mut body = Body::new();
    body.try_extend_from_slice(&head).unwrap();
    for Term(n) in left.terms() {
        body.push(n);
    }
    body
}

// The body of an entry; a fault has none.
pub(crate) fn entry_body(entry: Entry) -> Body
    requires { sound_entry «entry» ≡ true }
    ensures { result.items ≡ entry_bytes «entry» }
{
    match entry {
        Ok(axiom) => axiom_body(axiom),
        Err(_) => Body::new(),
    }
}
