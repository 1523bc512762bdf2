// A set of terms as one word.
ghost use Rattle.std.specs.Prelude.{◌^◌, ◌<◌};

mod members;
pub mod terms;

// Term n is a member if the bit at place n - 1 is 1.
#[derive(Clone, Copy, PartialEq, Eq, Debug)]
pub struct TermSet {
    bits: u64,
    ghost small: { bits < 2 ^ 64 },
}
