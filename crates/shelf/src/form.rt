// The six forms of an axiom.
ghost use Rattle.std.specs.Prelude.{◌≡◌, Decides, IfSome};
ghost use Rattle.shelf.specs.Axioms.{is_filler, roles_sound, right_sound};
ghost use Rattle.shelf.specs.Forms.{filler_number, left_of, map_left};

use numbers::role::DirectedRole;
use numbers::term::Term;
use numbers::term_set::TermSet;

// An axiom over a left side of the kind L. A filler is a term, or `None` for everything.
#[derive(Clone, Copy, PartialEq, Eq, Debug)]
pub enum Form<L> {
    // every thing that carries the left carries the term
    Under {
        left: L,
        term: Term,
    },
    // no thing carries the left
    Nothing {
        left: L,
    },
    // from every thing that carries the left, the role leads to some thing that carries the filler
    Exists {
        left: L,
        role: DirectedRole,
        filler: Option<Term>,
    },
    // from a thing that carries the left, the role leads only to things that carry the term
    Only {
        left: L,
        role: DirectedRole,
        term: Term,
    },
    // from a thing that carries the left, the role leads to at most one thing that carries the filler
    AtMostOne {
        left: L,
        role: DirectedRole,
        filler: Option<Term>,
    },
    // wherever the lower role leads, the upper one leads too
    RoleUnder {
        lower: DirectedRole,
        upper: DirectedRole,
    },
}

// An axiom whose left side is a set of terms.
pub type Axiom = Form<TermSet>;

// Whether two axioms are the same: their form and all their parts agree.
#[tactic(auto, using(crate::proofs::SameAxioms::axiom_known, crate::proofs::SameAxioms::axiom_itself))]
pub fn same(a: &Axiom, b: &Axiom) -> bool
    ensures { Decides result (a.now ≡ b.now) }
{
    *a == *b
}

// The number of a filler's term, or 0 for everything.
pub fn filler_number(filler: Option<Term>) -> u8
    ensures { result ≡ filler_number filler }
{
    filler.map_or(0, |term| term.0)
}

// Whether the filler is everything, or a term that means something.
fn filler_in_range(filler: Option<Term>) -> bool
    ensures { result ≡ is_filler filler }
{
    filler.is_none_or(|term| term.in_range())
}

impl<L> Form<L> {
    // The left side, of which the inclusion of a role has none.
    pub fn left(self) -> Option<L>
    where
        L: Copy,
        ensures { result ≡ left_of self }
    {
        match self {
            Form::Under { left, .. }
            | Form::Nothing { left }
            | Form::Exists { left, .. }
            | Form::Only { left, .. }
            | Form::AtMostOne { left, .. } => Some(left),
            Form::RoleUnder { .. } => None,
        }
    }

    // The same form with another left side, where it has one.
    pub fn with_left<M>(self, left: M) -> Form<M>
    where
        L: Copy,
        M: Copy,
        ensures { result ≡ map_left (λ _. left) self }
    {
        match self {
            Form::Under { term, .. } => Form::Under { left, term },
            Form::Nothing { .. } => Form::Nothing { left },
            Form::Exists { role, filler, .. } => Form::Exists { left, role, filler },
            Form::Only { role, term, .. } => Form::Only { left, role, term },
            Form::AtMostOne { role, filler, .. } => Form::AtMostOne { left, role, filler },
            Form::RoleUnder { lower, upper } => Form::RoleUnder { lower, upper },
        }
    }

    // Whether every role has a number from 1 to 16.
    pub fn roles_in_range(&self) -> bool
        ensures { result ≡ roles_sound self.now }
    {
        match self {
            Form::Under { .. } | Form::Nothing { .. } => true,
            Form::Exists { role, .. } | Form::Only { role, .. } | Form::AtMostOne { role, .. } =>
                role.in_range(),
            Form::RoleUnder { lower, upper } => lower.in_range() && upper.in_range(),
        }
    }

    // Whether the right side is a term from 1 to 64, or everything where that is allowed.
    pub fn right_in_range(&self) -> bool
        ensures { result ≡ right_sound self.now }
    {
        match self {
            Form::Under { term, .. } | Form::Only { term, .. } => term.in_range(),
            Form::Exists { filler, .. } | Form::AtMostOne { filler, .. } => filler_in_range(
                *filler,
            ),
            Form::Nothing { .. } | Form::RoleUnder { .. } => true,
        }
    }
}
