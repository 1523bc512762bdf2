// A shelf of a script that is not joined, with what it is made over.
ghost use Rattle.play.specs.Singles.{single_list, single_mark, single_short, single_sound};

use catalogue::reader::Catalogue;
use shelf::fault::Entry;
use shelf::form::Axiom;
use shelf::records::Records;
use shelf::shelf::Shelf;

// A catalogue over its bytes, or a shelf over its records, and the mark.
#[derive(Drop)]
pub(crate) enum Single {
    Catalogue { bytes: Vec<u8>, mark: u16 },
    Records { records: Vec<Axiom>, mark: u16 },
}

// It answers as the shelf of its kind does.
impl Shelf for Single {
    ghost list = { single_list };

    ghost mark = { single_mark };

    ghost short = { single_short };

    ghost sound = { single_sound };

    fn count(&self) -> u16 {
        match self {
            Single::Catalogue { bytes, mark } => Catalogue::new(bytes.as_slice(), *mark).count(),
            Single::Records { records, mark } => Records::new(records.as_slice(), *mark).count(),
        }
    }

    fn entry(&self, place: u16) -> Entry {
        match self {
            Single::Catalogue { bytes, mark } => {
                Catalogue::new(bytes.as_slice(), *mark).entry(place)
            }
            Single::Records { records, mark } => {
                Records::new(records.as_slice(), *mark).entry(place)
            }
        }
    }
}
