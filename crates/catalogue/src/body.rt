// The body of a catalogue's entry: a kind byte, two fields and the list of left terms.
ghost use Rattle.std.specs.Prelude.{◌≡◌, ◌≤◌, ◌&&◌, length, nat_lt};
ghost use Rattle.std.specs.Option.{ok_or};
ghost use Rattle.numbers.specs.Bits.{possible};
ghost use Rattle.catalogue.specs.Bodies.{and_then, no_left, role_of, term_of, filler_of, zero_of, read_form, left_set, to_axiom};
ghost use Rattle.shelf.specs.Faults.{at_byte};
ghost use Rattle.catalogue.specs.Handed.{viewed, seen};
ghost use Rattle.shelf.specs.declared.form.Form.TheVariants.{RoleUnder};

use crate::fault::at_byte;
use numbers::role::{DirectedRole, Role};
use numbers::set::NumberSet;
use numbers::term::Term;
use numbers::term_set::TermSet;
use shelf::fault::{ByteFault, Cause};
use shelf::form::{Axiom, Form};

// A byte of a body with the fault that the entry has where the byte is not what it has to be.
#[derive(Clone, Copy)]
struct Field {
    byte: u8,
    fault: ByteFault,
}

// Methods and no `TryFrom`: their names say what a field is read as, which differs from kind to kind.
impl Field {
    // The field that is read at the byte `at` of the catalogue.
    fn new(byte: u8, cause: Cause, at: usize) -> Field
        ensures byte { result.byte ≡ byte }
        ensures fault { result.fault ≡ at_byte cause at }
    {
        Field {
            byte,
            fault: at_byte(cause, at),
        }
    }

    // The field as 0.
    fn zero(self) -> Result<(), ByteFault>
        ensures { result ≡ ok_or (zero_of self.byte) self.fault }
    {
        match self.byte {
            0 => Ok(()),
            _ => Err(self.fault),
        }
    }

    // The field as a role: its number, or 128 plus its number where the role is read backward.
    fn role(self) -> Result<DirectedRole, ByteFault>
        ensures { result ≡ ok_or (role_of self.byte) self.fault }
    {
        match self.byte {
            1..=16 => Ok(DirectedRole::Forward(Role(self.byte))),
            129..=144 => Ok(DirectedRole::Backward(Role(self.byte - 128))),
            _ => Err(self.fault),
        }
    }

    // The field as a term.
    fn term(self) -> Result<Term, ByteFault>
        ensures { result ≡ ok_or (term_of self.byte) self.fault }
    {
        let term = Term(self.byte);
        if term.in_range() {
            Ok(term)
        } else {
            Err(self.fault)
        }
    }

    // The field as a term, or 0 for everything.
    fn filler(self) -> Result<Option<Term>, ByteFault>
        ensures { result ≡ ok_or (filler_of self.byte) self.fault }
    {
        match self.byte {
            0 => Ok(None),
            _ => self.term().map(Some),
        }
    }
}

// The inclusion of one role in another, where the body that starts at the byte `at` ends after its fields.
fn inclusion<'a>(
    at: u16,
    first: Field,
    second: Field,
    left: &'a [u8],
) -> Result<Form<&'a [u8]>, ByteFault>
    ensures { viewed result ≡ and_then (ok_or (role_of first.byte) first.fault)
        (λ lower. and_then (ok_or (role_of second.byte) second.fault) (λ upper. no_left at left.now (RoleUnder lower upper))) }
{
    let lower = first.role()?;
    let upper = second.role()?;
    if !left.is_empty() {
        return Err(at_byte(Cause::Left, at as usize + 3));
    }
    Ok(Form::RoleUnder { lower, upper })
}

// The form of a body that starts at the byte `at` of its catalogue. The left list stays a part of the bytes.
pub(crate) fn form<'a>(at: u16, body: &'a [u8]) -> Result<Form<&'a [u8]>, ByteFault>
    requires { 3 ≤ length body.now }
    ensures { viewed result ≡ read_form at body.now }
{
    let [kind, first, second, left @ ..] = body else {
        unreachable!()
    };
    let first = Field::new(*first, Cause::First, at as usize + 1);
    let second = Field::new(*second, Cause::Second, at as usize + 2);
    match *kind {
        1 => {
            first.zero()?;
            let term = second.term()?;
            Ok(Form::Under { left, term })
        }
        2 => {
            first.zero()?;
            second.zero()?;
            Ok(Form::Nothing { left })
        }
        3 => Ok(Form::Exists {
            left,
            role: first.role()?,
            filler: second.filler()?,
        }),
        4 => Ok(Form::Only {
            left,
            role: first.role()?,
            term: second.term()?,
        }),
        5 => Ok(Form::AtMostOne {
            left,
            role: first.role()?,
            filler: second.filler()?,
        }),
        6 => inclusion(at, first, second, left),
        _ => Err(at_byte(Cause::Kind, at as usize)),
    }
}

// Whether a term of a left list may stand after the byte before it, or first after 0.
fn is_next(term: Term, before: u8) -> bool
    ensures { result ≡ (possible 64 term.0 && nat_lt before term.0) }
{
    term.in_range() && term.0 > before
}

// The set of the left list of a body that starts at the byte `at`: each term is above the one before.
// A loop that keeps the byte before: a fault names the first byte that is wrong, which `is_sorted` does not tell.
fn left_terms(at: u16, left: &[u8]) -> Result<TermSet, ByteFault>
    ensures { result ≡ left_set at left.now }
{
    let mut set = TermSet::empty();
    let mut before = 0;
    for (i, byte) in left.iter().enumerate() {
        let term = Term(*byte);
        if !is_next(term, before) {
            return Err(at_byte(Cause::Left, at as usize + 3 + i));
        }
        set = set.with(term);
        before = *byte;
    }
    Ok(set)
}

// The axiom that a form states, whose body starts at the byte `at`.
pub(crate) fn axiom(at: u16, form: Form<&[u8]>) -> Result<Axiom, ByteFault>
    ensures { result ≡ to_axiom at (seen form.entry) }
{
    let set = match form.left() {
        Some(left) => left_terms(at, left)?,
        None => TermSet::empty(),
    };
    Ok(form.with_left(set))
}
