// A shelf of a script: one alone, or two that are joined.
ghost use Rattle.play.specs.Sources.{source_list, source_mark, source_short, source_sound};

use crate::single::Single;
use shelf::fault::Entry;
use shelf::joined::Joined;
use shelf::shelf::Shelf;

// A shelf as the script gives it.
#[derive(Drop)]
pub(crate) enum Source {
    Alone(Single),
    Joined(Joined<Single, Single>),
}

// It answers as the shelf of its kind does.
impl Shelf for Source {
    ghost list = { source_list };

    ghost mark = { source_mark };

    ghost short = { source_short };

    ghost sound = { source_sound };

    fn count(&self) -> u16 {
        match self {
            Source::Alone(shelf) => shelf.count(),
            Source::Joined(shelf) => shelf.count(),
        }
    }

    fn entry(&self, place: u16) -> Entry {
        match self {
            Source::Alone(shelf) => shelf.entry(place),
            Source::Joined(shelf) => shelf.entry(place),
        }
    }
}
