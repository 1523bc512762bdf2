// A table over a lent slice of rows. Its places fill in order.
ghost use Rattle.std.specs.Prelude.{◌≡◌, ◌<◌, ◌≤◌, [], ◌∷◌, ◌++◌, length, nat_lt, slice_set};
ghost use Rattle.std.specs.List.{slice_get};

use std::marker::Model;

// The first `filled` places of the slice are filled: a length beside it, since a session works in memory that its caller
// lends. A contract sees the rows that fill the table and how many it has room for.
#[derive(Drop)]
pub(crate) struct Table<'a, T> {
    places: &'a mut [T],
    filled: u16,
}

impl<'a, T> Model for Table<'a, T> {
    ghost use Rattle.std.specs.Prelude.{◌≤◌, length, take};
    ghost use Rattle.session.specs.Tables.{Rows, rows_code};

    ghost Value = { Rows T };

    ghost coded = { rows_code T.code };

    ghost view = { λ t. record { rows = take t.filled t.places.now; room = length t.places.now } };

    ghost invariant = { λ t. (t.filled ≤ length t.places.now) × (length t.places.now ≤ 65535) };
}

impl<'a, T: Copy> Table<'a, T> {
    // A table of which no place is filled.
    pub(crate) fn new(places: &'a mut [T]) -> Table<'a, T>
        requires { length places.old ≤ 65535 }
        ensures rows { result.rows ≡ [] }
        ensures room { result.room ≡ length places.old }
    {
        Table { places, filled: 0 }
    }

    // What fills the table.
    pub(crate) fn all(&self) -> &[T]
        ensures rows { result.now ≡ self.now.rows }
        ensures few { length result.now ≤ 65535 }
    {
        &self.places[..self.filled as usize]
    }

    // How many places are filled.
    pub(crate) fn len(&self) -> u16
        ensures { result ≡ length self.now.rows }
    {
        self.filled
    }

    // How many places there are.
    pub(crate) fn room(&self) -> u16
        ensures { result ≡ self.now.room }
    {
        self.places.len() as u16
    }

    // Whether a place is free.
    pub(crate) fn is_free(&self) -> bool
        ensures { result ≡ nat_lt (length self.now.rows) self.now.room }
    {
        self.len() < self.room()
    }

    // The row at a place counted from 0, if it is filled.
    pub(crate) fn get(&self, i: u16) -> Option<T>
        ensures { result ≡ slice_get self.now.rows i }
    {
        self.all().get(i as usize).copied()
    }

    // Fills the next place.
    pub(crate) fn append(&mut self, row: T)
        requires { length self.old.rows < self.old.room }
        ensures rows { self.new.rows ≡ self.old.rows ++ (row ∷ []) }
        ensures room { self.new.room ≡ self.old.room }
    {
        put(&mut *self.places, self.filled as usize, row);
        self.filled += 1;
    }

    // Puts another row at a filled place counted from 0.
    #[tactic(auto, using(crate::proofs::TableRows::take_set_in))]
    pub(crate) fn set(&mut self, i: usize, row: T)
        requires { i < length self.old.rows }
        ensures rows { self.new.rows ≡ slice_set self.old.rows i row }
        ensures room { self.new.room ≡ self.old.room }
    {
        put(&mut *self.places, i, row);
    }
}

// Puts a row at a place of a slice.
fn put<T: Copy>(places: &mut [T], i: usize, row: T)
    requires { i < length places.old }
    ensures { places.new ≡ slice_set places.old i row }
{
    places[i] = row;
}
