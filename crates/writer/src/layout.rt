// A catalogue laid out in a slice of its length.
ghost use Rattle.std.specs.Prelude.{◌≡◌, ◌+◌, ◌*◌, ◌≤◌, ◌++◌, length, take, drop};
ghost use Rattle.std.specs.List.{concat};
ghost use Rattle.writer.specs.Writing.{entry_bodies, lines_from, catalogue_bytes};

use crate::body::entry_body;
use shelf::shelf::Shelf;

// Puts bytes into a slice from the place `at` on, and answers the place behind them.
fn put(room: &mut [u8], at: usize, bytes: &[u8]) -> usize
    requires { at + length bytes.now ≤ length room.old }
    ensures end { result ≡ at + length bytes.now }
    ensures front { take result room.new ≡ take at room.old ++ bytes.now }
    ensures rest { drop result room.new ≡ drop result room.old }
{
    let end = at + bytes.len();
    room[at..end].copy_from_slice(bytes);
    end
}

// The length of a shelf's catalogue. A `for`, since of `map` and `sum` the check finds no proof: the closure owes that each entry
// is well formed, and that the sum fits.
#[tactic(auto, using(crate::proofs::Sizes::length_catalogue, crate::proofs::Sizes::bodies_short))]
pub(crate) fn catalogue_length<S: Shelf>(shelf: &S) -> usize
    ensures { result ≡ length (catalogue_bytes (S.Shelf.list shelf.now)) }
{
    let mut len = 2;
    for entry in shelf.counted_entries() {
        len += 4 + entry_body(entry).len();
    }
    len
}

// Writes the contents: for each body where it starts in the catalogue, and its length.
#[tactic(auto, using(crate::proofs::Sizes::bodies_short))]
fn write_lines<S: Shelf>(shelf: &S, lines: &mut [u8])
    requires few { length (S.Shelf.list shelf.now) ≤ 512 }
    requires room { length lines.old ≡ 4 * length (S.Shelf.list shelf.now) }
    ensures { lines.new ≡ lines_from (2 + 4 * length (S.Shelf.list shelf.now)) (entry_bodies (S.Shelf.list shelf.now)) }
{
    let mut at = 0;
    let mut start = 2 + 4 * shelf.count();
    for entry in shelf.counted_entries() {
        let size = entry_body(entry).len() as u16;
        at = put(lines, at, &start.to_be_bytes());
        at = put(lines, at, &size.to_be_bytes());
        start += size;
    }
}

// Writes the bodies.
fn write_bodies<S: Shelf>(shelf: &S, room: &mut [u8])
    requires { length room.old ≡ length (concat (entry_bodies (S.Shelf.list shelf.now))) }
    ensures { room.new ≡ concat (entry_bodies (S.Shelf.list shelf.now)) }
{
    let mut at = 0;
    for entry in shelf.counted_entries() {
        at = put(room, at, entry_body(entry).as_slice());
    }
}

// Fills a slice with the count, the contents and the bodies.
#[tactic(auto, using(crate::proofs::Sizes::length_catalogue))]
pub(crate) fn lay_out<S: Shelf>(shelf: &S, catalogue: &mut [u8])
    requires few { length (S.Shelf.list shelf.now) ≤ 512 }
    requires room { length catalogue.old ≡ length (catalogue_bytes (S.Shelf.list shelf.now)) }
    ensures { catalogue.new ≡ catalogue_bytes (S.Shelf.list shelf.now) }
{
    let count = shelf.count();
    let (contents, room) = catalogue.split_at_mut(2 + 4 * count as usize);
    let (front, lines) = contents.split_at_mut(2);
    front.copy_from_slice(&count.to_be_bytes());
    write_lines(shelf, lines);
    write_bodies(shelf, room);
}
