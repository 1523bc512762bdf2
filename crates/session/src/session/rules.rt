// What each rule gives at the places that the search goes through.
ghost use Rattle.std.specs.Prelude.{◌≡◌};
ghost use Rattle.calculus.specs.Makes.{words};
ghost use Rattle.calculus.specs.Search.{is_stored, missing};
ghost use Rattle.calculus.specs.States.{filler_set, target};
ghost use Rattle.session.specs.Scans.{at_axiom, at_need, more_role, at_edge, edge_applies, pair_opens, onward, pair_result, at_pair};

use super::Session;
use crate::lookup::{covering, with_set};
use calculus::state::{Context, Finding, Need};
use numbers::role::DirectedRole;
use numbers::role_set::RoleSet;
use numbers::set::NumberSet;
use numbers::term::Term;
use numbers::term_set::TermSet;
use shelf::form::{Axiom, Form};

// The rules by what they look at: a context with an axiom, with a need, with both, or with an axiom and two needs. They are
// enums and no impls of a trait, since `RULES` lists them in order, and a list has one type.
#[derive(Clone, Copy)]
pub(super) enum AxiomRule {
    // the term joins the held terms
    Under,
    // the context is void
    Nothing,
    // a new need
    Exists,
}

#[derive(Clone, Copy)]
pub(super) enum NeedRule {
    // a context with the need's terms
    Target,
    // the context is void, since the target is
    VoidTarget,
}

#[derive(Clone, Copy)]
pub(super) enum PairRule {
    // both needs made one
    Unite,
    // the second need's terms join the held terms
    BackTerms,
    // the first need has the second's roles, turned
    BackRoles,
}

#[derive(Clone, Copy)]
pub(super) enum EdgeRule {
    // the need has the upper role too
    RoleUnder,
    // the need has the term too
    OnlyDown,
    // the term joins the held terms
    OnlyUp,
    // what a second need adds
    WithOthers(PairRule),
}

// A rule, by what it looks at.
#[derive(Clone, Copy)]
pub(super) enum Rule {
    Axiom(AxiomRule),
    Need(NeedRule),
    Edge(EdgeRule),
}

// All rules, in the order in which the search tries them.
pub(super) const RULES: [Rule; 11] = [
    Rule::Need(NeedRule::Target),
    Rule::Axiom(AxiomRule::Under),
    Rule::Axiom(AxiomRule::Nothing),
    Rule::Axiom(AxiomRule::Exists),
    Rule::Edge(EdgeRule::RoleUnder),
    Rule::Need(NeedRule::VoidTarget),
    Rule::Edge(EdgeRule::OnlyDown),
    Rule::Edge(EdgeRule::OnlyUp),
    Rule::Edge(EdgeRule::WithOthers(PairRule::Unite)),
    Rule::Edge(EdgeRule::WithOthers(PairRule::BackTerms)),
    Rule::Edge(EdgeRule::WithOthers(PairRule::BackRoles)),
];

// A need of the context at a place, counted from 0, and an axiom: what an edge rule looks at.
#[derive(Clone, Copy)]
pub(super) struct Edge<'a> {
    pub(super) place: u16,
    pub(super) axiom: &'a Axiom,
    pub(super) need: &'a Need<TermSet>,
}

impl<'a> Session<'a> {
    // The target of a need, with its place.
    #[tactic(auto, using(crate::proofs::TableRows::found_row, crate::proofs::TableRows::found_none))]
    fn target(&self, need: &Need<TermSet>) -> Option<(u16, Context<TermSet>)>
        ensures { result ≡ target words self.now need.now }
    {
        let contexts = self.contexts.all();
        let place = with_set(contexts, need.terms)?;
        Some((place as u16, contexts[place]))
    }

    // Whether a result is stored.
    #[tactic(auto, using(crate::proofs::TableRows::found_is_any), unfolding(calculus::specs::Search::is_stored))]
    fn stores(&self, finding: &Finding<TermSet>) -> bool
        ensures { result ≡ is_stored words self.now finding.now }
    {
        match *finding {
            Finding::Fresh { set } => with_set(self.contexts.all(), set).is_some(),
            Finding::Held { context, terms } => self
                .contexts
                .get(context)
                .is_some_and(|row| row.held.includes(terms)),
            Finding::Void { context } => self.contexts.get(context).is_some_and(|row| row.void),
            Finding::Needed { need } => covering(self.needs.all(), &need).is_some(),
        }
    }

    // The result, if it is missing.
    #[tactic(auto, unfolding(calculus::specs::Search::when))]
    pub(super) fn missing(&self, finding: Finding<TermSet>) -> Option<Finding<TermSet>>
        ensures { result ≡ missing words self.now finding }
    {
        (!self.stores(&finding)).then_some(finding)
    }

    // What a rule gives at a context and an axiom.
    pub(super) fn at_axiom(
        &self,
        rule: AxiomRule,
        place: u16,
        context: &Context<TermSet>,
        axiom: &Axiom,
    ) -> Option<Finding<TermSet>>
        ensures { result ≡ at_axiom rule self.now place context.now «axiom».now }
    {
        match (rule, *axiom) {
            (AxiomRule::Under, Form::Under { left, term }) if context.held.includes(left) =>
                self.missing(Finding::Held {
                    context: place,
                    terms: TermSet::only(term),
                }),
            (AxiomRule::Nothing, Form::Nothing { left }) if context.held.includes(left) =>
                self.missing(Finding::Void { context: place }),
            (AxiomRule::Exists, Form::Exists { left, role, filler })
                if context.held.includes(left) => self.missing(Finding::Needed {
                need: Need {
                    context: place,
                    roles: RoleSet::only(role),
                    terms: filler_set(filler),
                },
            }),
            _ => None,
        }
    }

    // What a rule gives at a context and a need.
    pub(super) fn at_need(
        &self,
        rule: NeedRule,
        place: u16,
        need: &Need<TermSet>,
    ) -> Option<Finding<TermSet>>
        ensures { result ≡ at_need rule self.now place need.now }
    {
        match rule {
            NeedRule::Target => self.missing(Finding::Fresh { set: need.terms }),
            NeedRule::VoidTarget => {
                let (_, target) = self.target(need)?;
                if !target.void {
                    return None;
                }
                self.missing(Finding::Void { context: place })
            }
        }
    }

    // A need with one more role, if it has another, as a missing result.
    fn with_role(
        &self,
        need: &Need<TermSet>,
        role: DirectedRole,
        more: DirectedRole,
    ) -> Option<Finding<TermSet>>
        ensures { result ≡ more_role self.now need.now role more }
    {
        if !need.roles.contains(role) {
            return None;
        }
        self.missing(Finding::Needed {
            need: Need {
                roles: need.roles.with(more),
                ..*need
            },
        })
    }

    // What a rule gives at a need of a context and an axiom to which it applies.
    pub(super) fn at_edge(&self, rule: EdgeRule, edge: Edge) -> Option<Finding<TermSet>>
        ensures { result ≡ at_edge rule self.now edge.entry.place edge.entry.«axiom».now edge.entry.need.now }
    {
        let Edge { place, axiom, need } = edge;
        match (rule, *axiom) {
            // A match and no `or_else`: of a closure that calls twice the proof learns nothing.
            (EdgeRule::RoleUnder, Form::RoleUnder { lower, upper }) => match self.with_role(
                need, lower, upper,
            ) {
                Some(found) => Some(found),
                None => self.with_role(need, lower.turned(), upper.turned()),
            },
            (EdgeRule::OnlyDown, Form::Only { role, term, .. }) if need.roles.contains(role) =>
                self.missing(Finding::Needed {
                    need: Need {
                        terms: need.terms.with(term),
                        ..*need
                    },
                }),
            (EdgeRule::OnlyUp, Form::Only { left, role, term })
                if need.roles.contains(role.turned()) => {
                let (_, target) = self.target(need)?;
                if !target.held.includes(left) {
                    return None;
                }
                self.missing(Finding::Held {
                    context: place,
                    terms: TermSet::only(term),
                })
            }
            (EdgeRule::WithOthers(rule), _) => self.with_others(rule, edge),
            _ => None,
        }
    }

    // Where the second need has to belong, if a rule goes on from a first need.
    pub(super) fn onward(&self, rule: PairRule, edge: Edge) -> Option<u16>
        ensures { result ≡ onward rule self.now edge.entry.place edge.entry.«axiom».now edge.entry.need.now }
    {
        let Edge { place, axiom, need } = edge;
        let Form::AtMostOne { left, role, filler } = *axiom else {
            return None;
        };
        match rule {
            PairRule::Unite if need.roles.contains(role) => {
                let (_, target) = self.target(need)?;
                target.held.includes(filler_set(filler)).then_some(place)
            }
            PairRule::BackTerms | PairRule::BackRoles if need.roles.contains(role.turned()) => {
                let (owner, target) = self.target(need)?;
                (target.held.includes(left) && !target.void).then_some(owner)
            }
            _ => None,
        }
    }

    // What a rule gives at two needs.
    pub(super) fn at_pair(
        &self,
        rule: PairRule,
        edge: Edge,
        other: &Need<TermSet>,
    ) -> Option<Finding<TermSet>>
        ensures { result ≡ at_pair rule self.now edge.entry.place edge.entry.«axiom».now edge.entry.need.now other.now }
    {
        let Form::AtMostOne { role, filler, .. } = *edge.axiom else {
            return None;
        };
        if !other.roles.contains(role) {
            return None;
        }
        let (_, target) = self.target(other)?;
        if !target.held.includes(filler_set(filler)) {
            return None;
        }
        self.missing(pair_result(rule, edge.place, edge.need, other))
    }
}

// Whether a rule applies to a context and an axiom, so that its needs are worth a look.
pub(super) fn applies(rule: EdgeRule, context: &Context<TermSet>, axiom: &Axiom) -> bool
    ensures { result ≡ edge_applies rule context.now «axiom».now }
{
    match (rule, *axiom) {
        (EdgeRule::RoleUnder, Form::RoleUnder { .. }) => true,
        (EdgeRule::OnlyDown, Form::Only { left, .. }) => context.held.includes(left),
        (EdgeRule::OnlyUp, Form::Only { .. }) => true,
        (EdgeRule::WithOthers(rule), _) => opens(rule, context, axiom),
        _ => false,
    }
}

// Whether a rule opens with a context and an axiom.
fn opens(rule: PairRule, context: &Context<TermSet>, axiom: &Axiom) -> bool
    ensures { result ≡ pair_opens rule context.now «axiom».now }
{
    match (rule, *axiom) {
        (PairRule::Unite, Form::AtMostOne { left, .. }) => context.held.includes(left),
        (_, Form::AtMostOne { filler, .. }) => context.held.includes(filler_set(filler)),
        _ => false,
    }
}

// The result of a rule for two needs.
fn pair_result(
    rule: PairRule,
    place: u16,
    need: &Need<TermSet>,
    other: &Need<TermSet>,
) -> Finding<TermSet>
    ensures { result ≡ pair_result rule place need.now other.now }
{
    match rule {
        PairRule::Unite => Finding::Needed {
            need: Need {
                roles: need.roles.union(other.roles),
                terms: need.terms.union(other.terms),
                ..*need
            },
        },
        PairRule::BackTerms => Finding::Held {
            context: place,
            terms: other.terms,
        },
        PairRule::BackRoles => Finding::Needed {
            need: Need {
                roles: need.roles.union(other.roles.turned()),
                ..*need
            },
        },
    }
}

// The set of a filler: empty for everything.
fn filler_set(filler: Option<Term>) -> TermSet
    ensures { result ≡ filler_set words filler }
{
    filler.map_or_else(TermSet::empty, TermSet::only)
}
