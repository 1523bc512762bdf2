// A term (an atomic concept) by its number.
ghost use Rattle.std.specs.Prelude.{◌≡◌};
ghost use Rattle.numbers.specs.Bits.{possible};
ghost use Rattle.numbers.specs.Terms.{is_term};

// The terms that mean something have the numbers 1 to 64; the calls that are given a term test that.
#[derive(Clone, Copy, PartialEq, Eq, Debug)]
pub struct Term(pub u8);

impl Term {
    // Whether the number is one that a term may have.
    pub fn in_range(self) -> bool
        ensures { result ≡ is_term self }
    {
        self.up_to(64)
    }

    // Whether the number is from 1 to n.
    pub fn up_to(self, n: u8) -> bool
        ensures { result ≡ possible n self.0 }
    {
        (1..=n).contains(&self.0)
    }
}
