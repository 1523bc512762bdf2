// How axioms, faults, refusals and bytes are printed.
use numbers::term::Term;
use numbers::term_set::TermSet;
use session::refusal::Refusal;
use shelf::fault::{Entry, ShelfFault};
use shelf::form::{Axiom, Form, filler_number};
use std::fmt;

// A set of terms in braces, rising.
#[derive(Clone, Copy)]
struct SetText(TermSet);

impl fmt::Display for SetText {
    fn fmt<W: fmt::Write>(&self, f: &mut fmt::Formatter<W>) -> fmt::Result {
        let mut terms = self.0.terms();
        f.write_str("{")?;
        if let Some(Term(first)) = terms.next() {
            write!(f, "{first}")?;
        }
        for Term(n) in terms {
            write!(f, ",{n}")?;
        }
        f.write_str("}")
    }
}

// An axiom as a short sentence.
#[derive(Clone, Copy)]
struct AxiomText(Axiom);

impl fmt::Display for AxiomText {
    fn fmt<W: fmt::Write>(&self, f: &mut fmt::Formatter<W>) -> fmt::Result {
        match self.0 {
            Form::Under { left, term } => write!(f, "{} under {}", SetText(left), term.0),
            Form::Nothing { left } => write!(f, "{} under nothing", SetText(left)),
            Form::Exists { left, role, filler } => {
                let (left, filler) = (SetText(left), filler_number(filler));
                write!(f, "{left} some {role} {filler}")
            }
            Form::Only { left, role, term } => {
                write!(f, "{} only {role} {}", SetText(left), term.0)
            }
            Form::AtMostOne { left, role, filler } => {
                let (left, filler) = (SetText(left), filler_number(filler));
                write!(f, "{left} at most one {role} {filler}")
            }
            Form::RoleUnder { lower, upper } => write!(f, "{lower} under {upper}"),
        }
    }
}

// A fault by its cause, its byte, and where it stands.
#[derive(Clone, Copy)]
struct FaultText(ShelfFault);

impl fmt::Display for FaultText {
    fn fmt<W: fmt::Write>(&self, f: &mut fmt::Formatter<W>) -> fmt::Result {
        let ShelfFault { fault, origin } = self.0;
        write!(
            f,
            "cause {} byte {} mark {} place {}",
            fault.cause.number(),
            fault.byte,
            origin.mark,
            origin.place
        )
    }
}

// An entry: the axiom, or the fault in its place.
#[derive(Clone, Copy)]
pub(crate) struct EntryText(pub(crate) Entry);

impl fmt::Display for EntryText {
    fn fmt<W: fmt::Write>(&self, f: &mut fmt::Formatter<W>) -> fmt::Result {
        match self.0 {
            Ok(axiom) => write!(f, "{}", AxiomText(axiom)),
            Err(fault) => write!(f, "fault {}", FaultText(fault)),
        }
    }
}

// Why a session refuses, with the place in the packet where there is one.
#[derive(Clone, Copy)]
pub(crate) struct RefusalText(pub(crate) Refusal);

impl fmt::Display for RefusalText {
    fn fmt<W: fmt::Write>(&self, f: &mut fmt::Formatter<W>) -> fmt::Result {
        let refusal = self.0;
        write!(f, "refused {}", refusal.number())?;
        match refusal {
            Refusal::Faulty { fault, place } => {
                write!(f, " {} packet {place}", FaultText(fault))
            }
            Refusal::Unused { place } => write!(f, " packet {place}"),
            _ => Ok(()),
        }
    }
}

// Bytes in hex, two digits each.
#[derive(Clone, Copy)]
pub(crate) struct HexText<'a>(pub(crate) &'a [u8]);

impl<'a> fmt::Display for HexText<'a> {
    fn fmt<W: fmt::Write>(&self, f: &mut fmt::Formatter<W>) -> fmt::Result {
        for byte in self.0 {
            write!(f, "{byte:02x}")?;
        }
        Ok(())
    }
}
