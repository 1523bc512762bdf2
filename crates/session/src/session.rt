// A session over tables that the caller lends.
ghost use Rattle.std.specs.Prelude.{◌≡◌, ℕ, ◌≤◌, true, List, length, None};
ghost use Rattle.shelf.specs.Axioms.{Axiom};
ghost use Rattle.calculus.specs.Makes.{words};
ghost use Rattle.calculus.specs.Potentials.{step_bound};
ghost use Rattle.calculus.specs.Reached.{Reached};
ghost use Rattle.calculus.specs.Rules.{Closed};
ghost use Rattle.session.specs.Runs.{Run};
ghost use Rattle.session.specs.Opening.{opened};
ghost use Rattle.session.specs.Taking.{taking, take_answer, take_state};
ghost use Rattle.session.specs.Wanting.{want_place, want_stored, want_answer, want_state};

mod live;
mod rules;
mod search;
pub mod working;

use crate::lookup::with_set;
use crate::packet;
use crate::refusal::Refusal;
use crate::sizes::Sizes;
use crate::table::Table;
use crate::vocabulary::Vocabulary;
use calculus::state::{Context, Need};
use calculus::theorems::step_bound;
use numbers::term::Term;
use numbers::term_set::TermSet;
use shelf::form::Axiom;
use shelf::shelf::Shelf;
use std::marker::Model;

// A session. A contract sees its abstract state. At rest, nothing is missing.
#[derive(Drop)]
pub struct Session<'a> {
    vocabulary: Vocabulary,
    axioms: Table<'a, Axiom>,
    contexts: Table<'a, Context<TermSet>>,
    needs: Table<'a, Need<TermSet>>,
    rest: bool,
}

impl<'a> Model for Session<'a> {
    ghost use Rattle.numbers.specs.declared.term_set.TermSet.{TermSet};
    ghost use Rattle.calculus.specs.States.{State};

    ghost Value = { State TermSet };

    ghost use Rattle.session.specs.Models.{model};

    ghost view = { model };
}

impl<'a> Session<'a> {
    // Opens a session over tables. If the check refuses its numbers, it has no terms, roles or places.
    pub fn open(
        terms: u8,
        roles: u8,
        axioms: &'a mut [Axiom],
        contexts: &'a mut [Context<TermSet>],
        needs: &'a mut [Need<TermSet>],
    ) -> Session<'a>
        ensures { result ≡ opened terms roles (length axioms.old) (length contexts.old) (length needs.old) }
    {
        let sizes = Sizes {
            terms,
            roles,
            axioms: axioms.len(),
            contexts: contexts.len(),
            needs: needs.len(),
        }
        .allowed();
        Session {
            vocabulary: Vocabulary::new(sizes.terms, sizes.roles),
            axioms: Table::new(&mut axioms[..sizes.axioms]),
            contexts: Table::new(&mut contexts[..sizes.contexts]),
            needs: Table::new(&mut needs[..sizes.needs]),
            rest: false,
        }
    }

    // More steps than this are made in no run that leads to the session: all workings together stay within it.
    #[tactic(auto, using(crate::proofs::RunLaws::in_run, crate::proofs::RunLaws::steps_bounded))]
    pub fn step_bound(&self) -> u64
        ensures value { result ≡ step_bound self.now.term_count self.now.role_count self.now.context_places self.now.need_places }
        ensures steps { (accepted : List Axiom) (steps : ℕ) → Run self.now accepted steps → steps ≤ result }
        ensures reached { (accepted : List Axiom) (steps : ℕ) → Run self.now accepted steps → Reached words self.now }
    {
        step_bound(
            self.vocabulary.terms,
            self.vocabulary.roles,
            self.contexts.room(),
            self.needs.room(),
        )
    }

    // Whether the session is at rest. In any run, nothing is missing then, and the table holds the accepted axioms.
    #[tactic(auto, using(crate::proofs::RestLaws::run_rest, crate::proofs::RestLaws::run_axioms))]
    pub fn is_at_rest(&self) -> bool
        ensures value { result ≡ self.now.rest }
        ensures closed { (accepted : List Axiom) (steps : ℕ) → Run self.now accepted steps → result ≡ true → Closed words self.now }
        ensures axioms { (accepted : List Axiom) (steps : ℕ) → Run self.now accepted steps → self.now.axioms ≡ accepted }
    {
        self.rest
    }

    // Takes all axioms of a shelf, or none.
    pub fn take<S: Shelf>(&mut self, shelf: &S) -> Result<(), Refusal>
        ensures value { result ≡ take_answer (taking self.old (S.Shelf.list shelf.now)) }
        ensures state { self.new ≡ take_state self.old (taking self.old (S.Shelf.list shelf.now)) (S.Shelf.list shelf.now) }
    {
        packet::check(shelf, self.vocabulary)?;
        let count = shelf.count();
        if self.axioms.len() as usize + count as usize > self.axioms.room() as usize {
            return Err(Refusal::NoAxiomPlace);
        }
        packet::append_all(&mut self.axioms, shelf);
        if count > 0 {
            self.rest = false;
        }
        Ok(())
    }

    // Stores the set of a list of terms as a context, or finds it stored, and answers its place.
    pub fn want(&mut self, terms: &[Term]) -> Result<u16, Refusal>
        ensures value { result ≡ want_answer self.old terms.now }
        ensures state { self.new ≡ want_state self.old terms.now }
    {
        let set = self.vocabulary.set_of(terms).ok_or(Refusal::Term)?;
        match with_set(self.contexts.all(), set) {
            Some(i) => Ok(i as u16 + 1),
            None => self.store(set),
        }
    }

    // Stores a set that is not stored yet.
    fn store(&mut self, set: TermSet) -> Result<u16, Refusal>
        ensures value { result ≡ want_place self.old set None }
        ensures state { self.new ≡ want_stored self.old set None }
    {
        if !self.contexts.is_free() {
            return Err(Refusal::NoContextPlace);
        }
        self.contexts.append(Context::new(set));
        self.rest = false;
        Ok(self.contexts.len())
    }
}
