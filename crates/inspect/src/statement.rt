// What an axiom states, as text.
ghost use Rattle.std.specs.Prelude.{Some};
ghost use Rattle.inspect.specs.Statements.{left_text, statement};

use numbers::term::Term;
use numbers::term_set::TermSet;
use shelf::form::{Axiom, Form, filler_number};
use std::fmt;

// The terms of a left side, rising, or `all` where there is none.
#[derive(Clone, Copy)]
struct LeftText(TermSet);

impl fmt::Display for LeftText {
    ghost output = { λ t. Some (left_text t.0) };

    fn fmt<W: fmt::Write>(&self, f: &mut fmt::Formatter<W>) -> fmt::Result {
        let mut terms = self.0.terms();
        let Some(Term(first)) = terms.next() else {
            return f.write_str("all");
        };
        write!(f, "{first}")?;
        for Term(n) in terms {
            write!(f, " {n}")?;
        }
        Ok(())
    }
}

// What an axiom states.
#[derive(Clone, Copy)]
pub struct Statement(pub Axiom);

impl fmt::Display for Statement {
    ghost output = { λ t. Some (statement t.0) };

    fn fmt<W: fmt::Write>(&self, f: &mut fmt::Formatter<W>) -> fmt::Result {
        match self.0 {
            Form::Under { left, term } => write!(f, "{} under {}", LeftText(left), term.0),
            Form::Nothing { left } => write!(f, "{} under nothing", LeftText(left)),
            Form::Exists { left, role, filler } => {
                let (left, filler) = (LeftText(left), filler_number(filler));
                write!(f, "{left} some {role} {filler}")
            }
            Form::Only { left, role, term } => {
                write!(f, "{} only {role} {}", LeftText(left), term.0)
            }
            Form::AtMostOne { left, role, filler } => {
                let (left, filler) = (LeftText(left), filler_number(filler));
                write!(f, "{left} at most one {role} {filler}")
            }
            Form::RoleUnder { lower, upper } => write!(f, "{lower} under {upper}"),
        }
    }
}
