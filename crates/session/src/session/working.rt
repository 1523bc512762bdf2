// Working: adding the first missing result, again and again.
ghost use Rattle.std.specs.Prelude.{◌≡◌, None};
ghost use Rattle.calculus.specs.Makes.{words};
ghost use Rattle.calculus.specs.States.{added};
ghost use Rattle.calculus.specs.declared.state.Finding.TheVariants.{Needed};
ghost use Rattle.session.specs.Working.{stop_number, blocked, Working};

use super::Session;
use crate::lookup::covered_by;
use calculus::state::{Context, Finding, Need};
use numbers::set::NumberSet;
use numbers::term_set::TermSet;

// Why working came to a stop.
#[derive(Clone, Copy, PartialEq, Eq, Debug)]
pub enum Stop {
    // nothing is missing
    AtRest = 0,
    // the budget is used
    Spent = 1,
    // the first missing result is a context, and no place is free
    NoContextPlace = 2,
    // the first missing result is a need that takes the next place, and none is free
    NoNeedPlace = 3,
}

impl Stop {
    // The number under which the stop is reported.
    pub fn number(self) -> u8
        ensures { result ≡ stop_number self }
    {
        self as u8
    }
}

impl<'a> Session<'a> {
    // Why a result has no place, if so. No `Result`, since `work` answers a stop beside its steps and no `?` goes through it.
    fn blocked(&self, finding: &Finding<TermSet>) -> Option<Stop>
        ensures { result ≡ blocked self.now finding.now }
    {
        match *finding {
            Finding::Fresh { .. } if !self.contexts.is_free() => Some(Stop::NoContextPlace),
            Finding::Needed { need } if !self.needs.is_free() => covered_by(self.needs.all(), &need)
                .is_none()
                .then_some(Stop::NoNeedPlace),
            _ => None,
        }
    }

    // Adds a need: in the place of the first one that it covers, or in the next place.
    fn add_need(&mut self, need: Need<TermSet>)
        requires { blocked self.old (Needed need) ≡ None }
        ensures { self.new ≡ added words self.old (Needed need) }
    {
        match covered_by(self.needs.all(), &need) {
            Some(j) => self.needs.set(j, need),
            None => self.needs.append(need),
        }
    }

    // Adds a result that has its place.
    fn add(&mut self, finding: Finding<TermSet>)
        requires { blocked self.old finding ≡ None }
        ensures { self.new ≡ added words self.old finding }
    {
        match finding {
            Finding::Fresh { set } => self.contexts.append(Context::new(set)),
            Finding::Held { context, terms } => {
                if let Some(row) = self.contexts.get(context) {
                    let held = row.held.union(terms);
                    self.contexts.set(context as usize, Context { held, ..row });
                }
            }
            Finding::Void { context } => {
                if let Some(row) = self.contexts.get(context) {
                    self.contexts
                        .set(context as usize, Context { void: true, ..row });
                }
            }
            Finding::Needed { need } => self.add_need(need),
        }
    }

    // Adds the first missing result until none is missing, the budget is used or the first has no place. It answers the
    // steps that it made and why it stopped.
    #[tactic(auto, using(crate::proofs::WorkSteps::stepped))]
    pub fn work(&mut self, budget: u16) -> (u16, Stop)
        ensures { Working self.old budget result.0 result.1 self.new }
    {
        // The steps are counted by hand: whether something is missing is asked once more after the last step of the budget.
        let mut steps = 0;
        loop {
            let Some(found) = self.first_missing() else {
                self.rest = true;
                return (steps, Stop::AtRest);
            };
            if steps >= budget {
                return (steps, Stop::Spent);
            }
            if let Some(stop) = self.blocked(&found) {
                return (steps, stop);
            }
            self.add(found);
            steps += 1;
        }
    }
}
