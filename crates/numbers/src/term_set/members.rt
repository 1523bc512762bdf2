// What a term set has as members.
ghost use Rattle.std.specs.Prelude.{refl};
ghost use Rattle.std.proofs.Common.{lit≤, mod-eq_of_lt};
ghost use Rattle.numbers.specs.TermSets.{term_word, term_number};
ghost use Rattle.numbers.specs.SetsLawful.{same_terms};

use super::TermSet;
use crate::term::Term;
use crate::word_set::WordSet;

impl WordSet for TermSet {
    type Item = Term;

    const WIDTH: u8 = 64;

    ghost WIDTH = { 64 };

    ghost word = { λ s. s.bits };

    ghost of_word = { term_word };

    ghost number = { term_number };

    ghost narrow = { lit≤ tt };

    ghost small = { λ s. s.small };

    ghost kept = { λ x h. mod-eq_of_lt h };

    ghost known = { same_terms };

    ghost compared = { λ a b. refl };

    fn word(self) -> u64 {
        self.bits
    }

    fn of_word(bits: u64) -> TermSet {
        TermSet { bits }
    }

    fn number(item: Term) -> u8 {
        item.0
    }
}
