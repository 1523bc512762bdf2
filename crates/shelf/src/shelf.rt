// What a shelf is: a list that can be asked, and a mark.
ghost use Rattle.std.specs.Prelude.{◌≡◌, ℕ, ◌≤◌, true, List, length, drop};
ghost use Rattle.shelf.specs.Shelves.{Entry, entry_at, all_sound};
ghost use Rattle.shelf.specs.Coming.{entries_left, counted_left};

use crate::counted::CountedEntries;
use crate::entries::Entries;
use crate::fault::Entry;

// A shelf means a list of at most 65,535 entries and has a mark. Both answers are those of the list and the
// mark, so code above a shelf never looks at how it is kept.
pub trait Shelf {
    // the entries
    ghost list: { Self → List Entry };

    // the number given to the shelf at its making
    ghost mark: { Self → ℕ };

    // there are at most 65,535 entries
    ghost short: { (s : Self) → length (list s) ≤ 65535 };

    // every axiom has terms from 1 to 64 and roles from 1 to 16
    ghost sound: { (s : Self) → all_sound (list s) ≡ true };

    // How many entries there are.
    fn count(&self) -> u16
        ensures { result ≡ length (list self.now) };

    // The entry at a place counted from 1; outside the list, a fault that says so.
    fn entry(&self, place: u16) -> Entry
        ensures { result ≡ entry_at (list self.now) (mark self.now) place };

    // The entries in order. The shelf is asked for its count at each entry, so what is left is always the rest of its list.
    final fn entries(&self) -> Entries<'_, Self>
        ensures all { entries_left list result ≡ list self.now }
        ensures few { length (list self.now) ≤ 65535 }
    {
        Entries::of(self)
    }

    // The entries in order, by a count that is asked once, since some shelves have to work it out. The whole list is left: as what
    // the shelf answers, and as the rest of the list.
    final fn counted_entries(&self) -> CountedEntries<'_, Self>
        ensures all { counted_left list mark result ≡ list self.now }
        ensures rest { drop result.given (list result.shelf.now) ≡ list self.now }
        ensures count { result.count ≡ length (list result.shelf.now) }
        ensures few { length (list self.now) ≤ 65535 }
    {
        CountedEntries::of(self, self.count())
    }
}
