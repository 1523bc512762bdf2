// The entries of a shelf, one after the other.
ghost use Rattle.std.specs.Prelude.{◌≡◌};
ghost use Rattle.std.specs.Iterator.{YieldsFirst, item_count};
ghost use Rattle.shelf.specs.Coming.{entries_left};

use crate::fault::Entry;
use crate::shelf::Shelf;

// A shelf of which the first `given` entries were given.
#[derive(Clone, Copy)]
pub struct Entries<'a, S> {
    shelf: &'a S,
    given: u16,
}

impl<'a, S> Entries<'a, S> {
    // All entries of a shelf.
    pub(crate) fn of(shelf: &'a S) -> Entries<'a, S>
        ensures shelf { result.shelf.now ≡ shelf.now }
        ensures given { result.given ≡ 0 }
    {
        Entries { shelf, given: 0 }
    }
}

impl<'a, S: Shelf> Iterator for Entries<'a, S> {
    type Item = Entry;

    ghost next_gives = { YieldsFirst (entries_left S.list) };

    ghost remaining = { item_count (entries_left S.list) };

    #[tactic(auto, using(crate::specs::EntryLists::entries_next))]
    fn next(&mut self) -> Option<Entry> {
        if self.given >= self.shelf.count() {
            return None;
        }
        self.given += 1;
        Some(self.shelf.entry(self.given))
    }
}
