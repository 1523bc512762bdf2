// The entries of a shelf, one after the other, by a count that was asked once.
ghost use Rattle.std.specs.Prelude.{◌≡◌};
ghost use Rattle.std.specs.Iterator.{YieldsFirst, item_count};
ghost use Rattle.shelf.specs.Coming.{counted_left};

use crate::fault::Entry;
use crate::shelf::Shelf;

// A shelf of which the first `given` entries were given, of the first `count`. It keeps the count, which some shelves have to work
// out. That the count is the shelf's own is promised by `counted_entries`, and not by the type.
#[derive(Clone, Copy)]
pub struct CountedEntries<'a, S> {
    shelf: &'a S,
    count: u16,
    given: u16,
}

impl<'a, S> CountedEntries<'a, S> {
    // The first so many entries of a shelf.
    pub(crate) fn of(shelf: &'a S, count: u16) -> CountedEntries<'a, S>
        ensures shelf { result.shelf.now ≡ shelf.now }
        ensures count { result.count ≡ count }
        ensures given { result.given ≡ 0 }
    {
        CountedEntries {
            shelf,
            count,
            given: 0,
        }
    }
}

impl<'a, S: Shelf> Iterator for CountedEntries<'a, S> {
    type Item = Entry;

    ghost next_gives = { YieldsFirst (counted_left S.list S.mark) };

    ghost remaining = { item_count (counted_left S.list S.mark) };

    #[tactic(auto, using(crate::specs::EntryLists::answers_next))]
    fn next(&mut self) -> Option<Entry> {
        if self.given >= self.count {
            return None;
        }
        self.given += 1;
        Some(self.shelf.entry(self.given))
    }
}
