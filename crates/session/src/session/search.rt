// The search for the first missing result.
ghost use Rattle.std.specs.Prelude.{◌≡◌};
ghost use Rattle.calculus.specs.Makes.{words};
ghost use Rattle.calculus.specs.Search.{first_missing};
ghost use Rattle.session.specs.Living.{live_left, live_at, needs_left, needs_of};
ghost use Rattle.session.specs.Scans.{by_axiom, by_need, by_edge, with_others, by_rule};

use super::Session;
use super::live::{Live, NeedsOf};
use super::rules::{AxiomRule, Edge, EdgeRule, NeedRule, PairRule, RULES, Rule, applies};
use calculus::state::{Finding, Need};
use numbers::term_set::TermSet;
use shelf::form::Axiom;

#[tactic(auto, using(crate::proofs::Firsts::none_start, crate::proofs::Firsts::none_next, crate::proofs::Firsts::first_none, crate::proofs::Lefts::left_here, crate::proofs::Lefts::left_next, crate::proofs::Lefts::left_end), unfolding(calculus::specs::Search::when, calculus::specs::Search::given))]
impl<'a> Session<'a> {
    // The contexts that are not void, with their places.
    fn live(&self) -> Live<'_>
        ensures { live_left result ≡ live_at 0 self.now.contexts }
    {
        Live::new(self.contexts.all())
    }

    // The needs of the context at a place.
    fn needs_of(&self, place: u16) -> NeedsOf<'_>
        ensures { needs_left result ≡ needs_of place self.now.needs }
    {
        NeedsOf::new(self.needs.all(), place)
    }

    // The first missing result of a rule over contexts and axioms.
    fn by_axiom(&self, rule: AxiomRule) -> Option<Finding<TermSet>>
        ensures { result ≡ by_axiom rule self.now }
    {
        let mut found = None;
        'search: for (place, context) in self.live() {
            for axiom in self.axioms.all() {
                found = self.at_axiom(rule, place, context, axiom);
                if found.is_some() {
                    break 'search;
                }
            }
        }
        found
    }

    // The first missing result of a rule over contexts and needs. Not one function with the one above: that would be told what
    // to go through at each context, as a closure, and the search would be no nest of loops.
    fn by_need(&self, rule: NeedRule) -> Option<Finding<TermSet>>
        ensures { result ≡ by_need rule self.now }
    {
        let mut found = None;
        'search: for (place, _) in self.live() {
            for need in self.needs_of(place) {
                found = self.at_need(rule, place, need);
                if found.is_some() {
                    break 'search;
                }
            }
        }
        found
    }

    // The first missing result of a rule over contexts, axioms and needs.
    fn by_edge(&self, rule: EdgeRule) -> Option<Finding<TermSet>>
        ensures { result ≡ by_edge rule self.now }
    {
        let mut found = None;
        'search: for (place, context) in self.live() {
            for axiom in self.axioms.all() {
                if !applies(rule, context, axiom) {
                    continue;
                }
                for need in self.needs_of(place) {
                    found = self.at_edge(rule, Edge { place, axiom, need });
                    if found.is_some() {
                        break 'search;
                    }
                }
            }
        }
        found
    }

    // The first missing result of a rule at one need, over a second one.
    pub(super) fn with_others(&self, rule: PairRule, edge: Edge) -> Option<Finding<TermSet>>
        ensures { result ≡ with_others rule self.now edge.entry.place edge.entry.«axiom».now edge.entry.need.now }
    {
        let owner = self.onward(rule, edge)?;
        for other in self.needs_of(owner) {
            let found = self.at_pair(rule, edge, other);
            if found.is_some() {
                return found;
            }
        }
        None
    }

    // The first missing result of a rule.
    fn by_rule(&self, rule: Rule) -> Option<Finding<TermSet>>
        ensures { result ≡ by_rule rule self.now }
    {
        match rule {
            Rule::Axiom(rule) => self.by_axiom(rule),
            Rule::Need(rule) => self.by_need(rule),
            Rule::Edge(rule) => self.by_edge(rule),
        }
    }

    // The first missing result of all rules: of the lowest rule, and then at the lowest places. A `for`, since of `find_map` the
    // check finds no proof.
    pub(crate) fn first_missing(&self) -> Option<Finding<TermSet>>
        ensures { result ≡ first_missing words self.now }
    {
        for rule in &RULES {
            let found = self.by_rule(*rule);
            if found.is_some() {
                return found;
            }
        }
        None
    }
}
