// A shelf of two shelves, one after the other.
ghost use Rattle.std.specs.Prelude.{◌≡◌, ◌+◌, ◌++◌, length};
ghost use Rattle.shelf.specs.EntryLists.{all_short, joined_sound};
ghost use Rattle.shelf.specs.Shelves.{at_most_all};

use crate::fault::{Entry, Origin};
use crate::limit::{index, limited_count};
use crate::shelf::Shelf;

// The first list and then the second, faults as they are. If both together exceed 65,535 entries, one fault.
#[derive(Clone, Copy, Drop)]
pub struct Joined<A, B> {
    first: A,
    second: B,
    mark: u16,
}

impl<A, B> Joined<A, B> {
    pub fn new(first: A, second: B, mark: u16) -> Joined<A, B>
        ensures first { result.first ≡ first }
        ensures second { result.second ≡ second }
        ensures mark { result.mark ≡ mark }
    {
        Joined {
            first,
            second,
            mark,
        }
    }
}

impl<A: Shelf, B: Shelf> Joined<A, B> {
    // How many entries both shelves have together.
    fn total(&self) -> usize
        ensures { result ≡ length (A.Shelf.list self.now.first) + length (B.Shelf.list self.now.second) }
    {
        self.first.count() as usize + self.second.count() as usize
    }
}

impl<A: Shelf, B: Shelf> Shelf for Joined<A, B> {
    ghost list = { λ s. at_most_all s.mark (A.Shelf.list s.first ++ B.Shelf.list s.second) };

    ghost mark = { λ s. s.mark };

    ghost short = { λ s. all_short s.mark (A.Shelf.list s.first ++ B.Shelf.list s.second) };

    ghost sound = { λ s. joined_sound s.mark (A.Shelf.list s.first) (B.Shelf.list s.second) (A.Shelf.sound s.first) (B.Shelf.sound s.second) };

    fn count(&self) -> u16 {
        limited_count(self.total())
    }

    fn entry(&self, place: u16) -> Entry {
        let mark = self.mark;
        let _on_the_list = index(self.total(), Origin { mark, place })?;
        let first = self.first.count();
        if place <= first {
            self.first.entry(place)
        } else {
            self.second.entry(place - first)
        }
    }
}
