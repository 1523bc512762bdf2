// Why a call is turned away.
ghost use Rattle.std.specs.Prelude.{◌≡◌};
ghost use Rattle.session.specs.Refusals.{refusal_number, faulty};

use shelf::fault::ShelfFault;

#[derive(Clone, Copy, PartialEq, Eq, Debug)]
pub enum Refusal {
    // opening: the number of terms is outside 1 to 64, or the number of roles above 16
    Numbers,
    // opening: a table is longer than its maximum
    TooLong,
    // wanting: a term is outside 1 to N
    Term,
    // taking: the entry at a place of the packet is faulty
    Faulty { fault: ShelfFault, place: u16 },
    // taking: the entry at a place of the packet uses a term above N or a role above Q
    Unused { place: u16 },
    // taking: the entries exceed the free axiom places
    NoAxiomPlace,
    // wanting: the set is new and no context place is free
    NoContextPlace,
}

impl Refusal {
    // The number under which the refusal is reported. A match, since a cast takes no variants with fields.
    pub fn number(self) -> u8
        ensures { result ≡ refusal_number self }
    {
        match self {
            Refusal::Numbers => 1,
            Refusal::TooLong => 2,
            Refusal::Term => 3,
            Refusal::Faulty { .. } => 4,
            Refusal::Unused { .. } => 5,
            Refusal::NoAxiomPlace => 6,
            Refusal::NoContextPlace => 7,
        }
    }
}

// A shelf's fault with its place in the packet.
impl From<(ShelfFault, u16)> for Refusal {
    ghost from_gives = { λ e r. r ≡ faulty e.0 e.1 };

    fn from(e: (ShelfFault, u16)) -> Refusal {
        let (fault, place) = e;
        Refusal::Faulty { fault, place }
    }
}
