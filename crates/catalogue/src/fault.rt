// The fault of a byte.
ghost use Rattle.std.specs.Prelude.{◌≡◌};
ghost use Rattle.shelf.specs.Faults.{at_byte};

use shelf::fault::{ByteFault, Cause};

// The cause at a byte; 0 where it concerns none.
pub(crate) fn at_byte(cause: Cause, byte: usize) -> ByteFault
    ensures { result ≡ at_byte cause byte }
{
    ByteFault { cause, byte }
}
