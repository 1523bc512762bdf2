// Sets that are kept as one word, and how they are sets by operations on it.
ghost use Rattle.std.specs.Prelude.{◌≡◌, ℕ, ◌^◌, ◌<◌, ◌≤◌, ◌==◌, Decides, not, bit_and, bit_or};
ghost use Rattle.numbers.specs.Bits.{word_has, word_single, word_covers};
ghost use Rattle.numbers.specs.Words.{kept_laws, known_alike};

use crate::set::NumberSet;

// A make of set that is kept as one word: the number n is a member if the bit at place n - 1 is 1.
pub trait WordSet: Copy + PartialEq {
    type Item;

    // how many members are possible
    const WIDTH: u8;

    ghost WIDTH: { ℕ };

    // the word of a set
    ghost word: { Self → ℕ };

    // the set of a word, of which the lowest WIDTH bits count
    ghost of_word: { ℕ → Self };

    // an item's number; 0 or above WIDTH where it has none
    ghost number: { Self.Item → ℕ };

    fn word(self) -> u64
        ensures { result ≡ word self };

    fn of_word(bits: u64) -> Self
        ensures { result ≡ of_word bits };

    fn number(item: Self::Item) -> u8
        ensures { result ≡ number item };

    ghost narrow: { WIDTH ≤ 64 };

    ghost small: { (s : Self) → word s < 2 ^ WIDTH };

    // a word that has no other bits is the word of its set
    ghost kept: { (x : ℕ) → x < 2 ^ WIDTH → word (of_word x) ≡ x };

    // a set is known by its word, and `==` compares the words
    ghost known: { (a b : Self) → word a ≡ word b → a ≡ b };

    ghost compared: { (a b : Self) → Self.eq a b ≡ (word a == word b) };

    // so `==` is sameness
    ghost alike: { (a b : Self) → Decides (Self.eq a b) (a ≡ b) } = { known_alike word known Self.eq compared };
}

// The word in which only the bit of a number is 1, or 0 where the number is no possible member of so many.
fn mask(width: u8, number: u8) -> u64
    requires { width ≤ 64 }
    ensures { result ≡ word_single width number }
{
    if number >= 1 && number <= width {
        1 << (number - 1)
    } else {
        0
    }
}

// Whether two words have a bit in common.
fn meet(a: u64, b: u64) -> bool
    ensures { result ≡ not (bit_and a b == 0) }
{
    a & b != 0
}

impl<S: WordSet> NumberSet for S {
    type Item = S::Item;

    ghost limit = { S.WIDTH };

    ghost has = { λ s. word_has (S.word s) };

    ghost number = { S.number };

    ghost none = { S.of_word 0 };

    ghost single = { λ k. S.of_word (word_single S.WIDTH k) };

    ghost covers = { λ a b. word_covers (S.word a) (S.word b) };

    ghost joined = { λ a b. S.of_word (bit_or (S.word a) (S.word b)) };

    ghost laws = { kept_laws S.WIDTH S.word S.of_word S.small S.kept S.known };

    fn empty() -> S {
        S::of_word(0)
    }

    fn only(item: S::Item) -> S {
        S::of_word(mask(S::WIDTH, S::number(item)))
    }

    #[tactic(auto, using(crate::specs::Words::has_mask))]
    fn contains(self, item: S::Item) -> bool {
        meet(self.word(), mask(S::WIDTH, S::number(item)))
    }

    fn includes(self, other: S) -> bool {
        self.word() & other.word() == other.word()
    }

    fn union(self, other: S) -> S {
        S::of_word(self.word() | other.word())
    }
}
