// The terms of a set, one after the other.
ghost use Rattle.std.specs.Prelude.{◌≡◌, ◌+◌, ◌<◌, [], ◌∷◌, MatchOption};
ghost use Rattle.std.specs.Iterator.{YieldsFirst, item_count};
ghost use Rattle.numbers.specs.TermLists.{term_of, terms_of, terms_from, terms_left};

use super::TermSet;
use crate::term::Term;
use crate::word_set::WordSet;

// The members of a set from the number `next` on, rising.
#[derive(Clone, Copy)]
pub struct Terms {
    set: TermSet,
    next: u8,
}

impl TermSet {
    // The terms of the set, rising.
    #[tactic(auto, unfolding(crate::specs::TermLists::members))]
    pub fn terms(self) -> Terms
        ensures { terms_left result ≡ terms_of self }
    {
        Terms { set: self, next: 1 }
    }
}

// The lowest member of a set from a number on: the lowest bit of what is left of its word.
fn first_from(set: TermSet, from: u8) -> Option<u8>
    ensures { MatchOption result (terms_from set from ≡ []) (λ n. (n < 65) × (terms_from set from ≡ term_of n ∷ terms_from set (n + 1))) }
{
    let passed = from.saturating_sub(1);
    if passed >= 64 {
        return None;
    }
    let rest = set.word() >> passed;
    if rest == 0 {
        return None;
    }
    Some(passed + 1 + rest.trailing_zeros() as u8)
}

impl Iterator for Terms {
    type Item = Term;

    ghost next_gives = { YieldsFirst terms_left };

    ghost remaining = { item_count terms_left };

    fn next(&mut self) -> Option<Term> {
        let n = first_from(self.set, self.next)?;
        self.next = n + 1;
        Some(Term(n))
    }
}
