// The one meaning of sets: which numbers are members.
ghost use Rattle.std.specs.Prelude.{◌≡◌, ℕ, Bool};
ghost use Rattle.numbers.specs.Sets.{SetLaws};

// A set of items that have numbers. The ghost members are what the operations mean, and `laws` ties them to
// membership: inclusion is reflexive and transitive, inclusion both ways is sameness, and a union is the
// least set that includes both parts.
pub trait NumberSet: Copy {
    type Item;

    // the largest possible member
    ghost limit: { ℕ };

    // which numbers are members
    ghost has: { Self → ℕ → Bool };

    // an item's number; 0, never a member, where it has none
    ghost number: { Self.Item → ℕ };

    // the empty set
    ghost none: { Self };

    // the set with this member alone
    ghost single: { ℕ → Self };

    // whether the first set includes the second
    ghost covers: { Self → Self → Bool };

    // the union
    ghost joined: { Self → Self → Self };

    fn empty() -> Self
        ensures { result ≡ none };

    fn only(item: Self::Item) -> Self
        ensures { result ≡ single (number item) };

    fn contains(self, item: Self::Item) -> bool
        ensures { result ≡ has self (number item) };

    fn includes(self, other: Self) -> bool
        ensures { result ≡ covers self other };

    fn union(self, other: Self) -> Self
        ensures { result ≡ joined self other };

    // The set with one member more.
    fn with(self, item: Self::Item) -> Self
        ensures { result ≡ joined self (single (number item)) }
    {
        self.union(Self::only(item))
    }

    ghost laws: { SetLaws limit has none single covers joined };
}
