// What is wrong with an entry: a cause at a byte, and then in which shelf and at which place.
ghost use Rattle.std.specs.Prelude.{◌≡◌};
ghost use Rattle.shelf.specs.Faults.{cause_number, at_byte, in_shelf};
ghost use Rattle.shelf.specs.Shelves.{placed};

use crate::form::Axiom;

// Why an entry is faulty. The cases have the numbers under which they are reported.
#[derive(Clone, Copy, PartialEq, Eq, Debug)]
pub enum Cause {
    // the place asked is not on the list
    Outside = 0,
    // a catalogue's count or contents cannot be read
    Contents = 1,
    // a contents line names no body
    Line = 2,
    // no such kind of axiom
    Kind = 3,
    // the first field, or a role of a record
    First = 4,
    // the second field, or the right side of a record
    Second = 5,
    // the list of left terms
    Left = 6,
    // more entries than a shelf may have
    TooLong = 7,
}

impl Cause {
    // The number under which the cause is reported, 0 to 7.
    pub fn number(self) -> u8
        ensures { result ≡ cause_number self }
    {
        self as u8
    }
}

// A cause, and the byte that it concerns, counted from 0; 0 where it concerns none.
#[derive(Clone, Copy, PartialEq, Eq, Debug)]
pub struct ByteFault {
    pub cause: Cause,
    pub byte: usize,
}

// A fault that concerns no byte.
impl From<Cause> for ByteFault {
    ghost from_gives = { λ c f. f ≡ at_byte c 0 };

    fn from(cause: Cause) -> ByteFault {
        ByteFault { cause, byte: 0 }
    }
}

// A place of a shelf: the shelf's mark, and the place counted from 1.
#[derive(Clone, Copy, PartialEq, Eq, Debug)]
pub struct Origin {
    pub mark: u16,
    pub place: u16,
}

// A byte fault with the shelf and the place where it stands.
#[derive(Clone, Copy, PartialEq, Eq, Debug)]
pub struct ShelfFault {
    pub fault: ByteFault,
    pub origin: Origin,
}

impl From<(ByteFault, Origin)> for ShelfFault {
    ghost from_gives = { λ e r. r ≡ in_shelf e.0 e.1 };

    fn from(e: (ByteFault, Origin)) -> ShelfFault {
        let (fault, origin) = e;
        ShelfFault { fault, origin }
    }
}

// An axiom, or what is wrong in its place.
pub type Entry = Result<Axiom, ShelfFault>;

// What was read at a place, where a fault says in which shelf and at which place it stands.
pub fn located<T>(read: Result<T, ByteFault>, origin: Origin) -> Result<T, ShelfFault>
    ensures { result ≡ placed origin.mark origin.place read }
{
    read.map_err(|fault| ShelfFault::from((fault, origin)))
}

// The fault of a place that concerns no byte.
pub fn without_byte(cause: Cause, origin: Origin) -> ShelfFault
    ensures { result ≡ in_shelf (at_byte cause 0) origin }
{
    ShelfFault::from((ByteFault::from(cause), origin))
}
