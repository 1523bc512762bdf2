// The terms and roles in use.
ghost use Rattle.std.specs.Prelude.{◌≡◌};
ghost use Rattle.numbers.specs.Bits.{possible};
ghost use Rattle.numbers.specs.Roles.{role_up_to};
ghost use Rattle.session.specs.Taking.{terms_to, filler_used, axiom_used, entry_refusal, take_answer};
ghost use Rattle.session.specs.Wanting.{set_of};

use crate::refusal::Refusal;
use numbers::role::DirectedRole;
use numbers::set::NumberSet;
use numbers::term::Term;
use numbers::term_set::TermSet;
use numbers::word_set::WordSet;
use shelf::fault::Entry;
use shelf::form::{Axiom, Form};

// The terms 1 to `terms`, whose set is `all`, and the roles 1 to `roles`.
#[derive(Clone, Copy)]
pub(crate) struct Vocabulary {
    pub terms: u8,
    pub roles: u8,
    all: TermSet,
    ghost all_terms: { all ≡ terms_to terms },
}

impl Vocabulary {
    // The terms from 1 to n and the roles from 1 to q.
    pub(crate) fn new(terms: u8, roles: u8) -> Vocabulary
        ensures terms { result.terms ≡ terms }
        ensures roles { result.roles ≡ roles }
    {
        Vocabulary {
            terms,
            roles,
            all: terms_to(terms),
        }
    }

    // Whether a term is in use.
    fn has_term(self, term: Term) -> bool
        ensures { result ≡ possible self.terms term.0 }
    {
        term.up_to(self.terms)
    }

    // Whether a role is in use, in either direction.
    fn has_role(self, role: DirectedRole) -> bool
        ensures { result ≡ role_up_to self.roles role }
    {
        role.up_to(self.roles)
    }

    // Whether a filler is everything or a term in use.
    fn has_filler(self, filler: Option<Term>) -> bool
        ensures { result ≡ filler_used self.terms filler }
    {
        filler.is_none_or(|term| self.has_term(term))
    }

    // Whether an axiom uses no other terms and roles.
    fn has_axiom(self, axiom: Axiom) -> bool
        ensures { result ≡ axiom_used (terms_to self.terms) self.terms self.roles «axiom» }
    {
        match axiom {
            Form::Under { left, term } => self.all.includes(left) && self.has_term(term),
            Form::Nothing { left } => self.all.includes(left),
            Form::Exists { left, role, filler } | Form::AtMostOne { left, role, filler } => self
                .all
                .includes(left)
                && self.has_role(role)
                && self.has_filler(filler),
            Form::Only { left, role, term } => self.all.includes(left)
                && self.has_role(role)
                && self.has_term(term),
            Form::RoleUnder { lower, upper } => self.has_role(lower) && self.has_role(upper),
        }
    }

    // Whether an entry at a place of a packet is an axiom that uses no others.
    pub(crate) fn check(self, place: u16, entry: Entry) -> Result<(), Refusal>
        ensures { result ≡ take_answer (entry_refusal (terms_to self.terms) self.terms self.roles place «entry») }
    {
        let axiom = entry.map_err(|fault| Refusal::from((fault, place)))?;
        if self.has_axiom(axiom) {
            Ok(())
        } else {
            Err(Refusal::Unused { place })
        }
    }

    // The set of a list of terms, if all of them are in use. A `for`, since of `try_fold` the check finds no proof.
    #[tactic(auto, using(std::proofs::lemmas::List::at_drop_more, std::proofs::lemmas::List::at_drop_all))]
    pub(crate) fn set_of(self, terms: &[Term]) -> Option<TermSet>
        ensures { result ≡ set_of self.terms terms.now }
    {
        let mut set = TermSet::empty();
        for term in terms {
            if !self.has_term(*term) {
                return None;
            }
            set = set.with(*term);
        }
        Some(set)
    }
}

// The set of the terms from 1 to n, made as a word, so that opening a session costs no step for each term.
fn terms_to(n: u8) -> TermSet
    ensures { result ≡ terms_to n }
{
    if n >= 64 {
        return TermSet::of_word(u64::MAX);
    }
    TermSet::of_word((1 << n) - 1)
}
