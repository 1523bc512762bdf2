// What is looked up in the tables: a context by its set, and needs by what they cover.
ghost use Rattle.std.specs.Prelude.{◌≡◌, ◌<◌, length, IfSome, position};
ghost use Rattle.calculus.specs.Makes.{words};
ghost use Rattle.calculus.specs.States.{same_set, need_covers};

use calculus::state::{Context, Need};
use numbers::set::NumberSet;
use numbers::term_set::TermSet;

// Whether one need covers another.
fn covers(need: &Need<TermSet>, other: &Need<TermSet>) -> bool
    ensures { result ≡ need_covers words need.now other.now }
{
    need.context == other.context
        && need.roles.includes(other.roles)
        && need.terms.includes(other.terms)
}

// The place, counted from 0, of the first context that has the set.
pub(crate) fn with_set(contexts: &[Context<TermSet>], set: TermSet) -> Option<usize>
    ensures value { result ≡ position (λ c. same_set words c.set set) contexts.now }
    ensures below { IfSome result (λ i. i < length contexts.now) }
{
    contexts
        .iter()
        .position(|row| row.set.includes(set) && set.includes(row.set))
}

// The place, counted from 0, of the first need that the given one covers.
pub(crate) fn covered_by(needs: &[Need<TermSet>], need: &Need<TermSet>) -> Option<usize>
    ensures value { result ≡ position (need_covers words need.now) needs.now }
    ensures below { IfSome result (λ i. i < length needs.now) }
{
    needs.iter().position(|row| covers(need, row))
}

// The place, counted from 0, of the first need that covers the given one.
pub(crate) fn covering(needs: &[Need<TermSet>], need: &Need<TermSet>) -> Option<usize>
    ensures { result ≡ position (λ d. need_covers words d need.now) needs.now }
{
    needs.iter().position(|row| covers(row, need))
}
