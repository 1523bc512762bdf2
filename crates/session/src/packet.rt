// Reading a packet: whether its entries can be taken, and its axioms.
ghost use Rattle.std.specs.Prelude.{◌≡◌, ◌+◌, ◌<◌, ◌≤◌, ◌++◌, length};
ghost use Rattle.session.specs.Taking.{terms_to, entries_refusal, take_answer, with_entry, axioms_of};

use crate::refusal::Refusal;
use crate::table::Table;
use crate::vocabulary::Vocabulary;
use shelf::fault::Entry;
use shelf::form::Axiom;
use shelf::shelf::Shelf;

// Whether all entries of a packet are axioms over the vocabulary. Both loops over a packet count its places, since through
// `counted_entries` a packet of records took over half as long again.
#[tactic(auto, using(shelf::specs::EntryLists::entries_next))]
pub(crate) fn check<S: Shelf>(shelf: &S, vocabulary: Vocabulary) -> Result<(), Refusal>
    ensures { result ≡ take_answer (entries_refusal (terms_to vocabulary.terms) vocabulary.terms vocabulary.roles 1 (S.Shelf.list shelf.now)) }
{
    for i in 0..shelf.count() {
        vocabulary.check(i + 1, shelf.entry(i + 1))?;
    }
    Ok(())
}

// Appends the axiom of an entry, if it is one.
fn append_entry(table: &mut Table<Axiom>, entry: Entry)
    requires { length table.old.rows < table.old.room }
    ensures rows { table.new.rows ≡ with_entry table.old.rows «entry» }
    ensures room { table.new.room ≡ table.old.room }
{
    if let Ok(axiom) = entry {
        table.append(axiom);
    }
}

// Appends the axioms of a packet that has its places.
pub(crate) fn append_all<S: Shelf>(table: &mut Table<Axiom>, shelf: &S)
    requires { length table.old.rows + length (S.Shelf.list shelf.now) ≤ table.old.room }
    ensures rows { table.new.rows ≡ table.old.rows ++ axioms_of (S.Shelf.list shelf.now) }
    ensures room { table.new.room ≡ table.old.room }
{
    for i in 0..shelf.count() {
        append_entry(table, shelf.entry(i + 1));
    }
}
