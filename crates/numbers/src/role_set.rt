// A set of directed roles as one word.
ghost use Rattle.std.specs.Prelude.{◌^◌, ◌<◌};

mod members;

// Role n read forward is a member if the bit at place n - 1 is 1, read backward if the bit at place n + 15 is.
#[derive(Clone, Copy, PartialEq, Eq, Debug)]
pub struct RoleSet {
    bits: u32,
    ghost small: { bits < 2 ^ 32 },
}
