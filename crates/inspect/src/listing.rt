// The listing of a catalogue, as text.
ghost use Rattle.std.specs.Prelude.{◌≡◌, ◌++◌, Some, IfOk, string_bytes};
ghost use Rattle.catalogue.specs.Catalogues.{catalogue_list};
ghost use Rattle.writer.specs.Writing.{faultless};
ghost use Rattle.inspect.specs.Listings.{entry_text, line_text, lines_text, faults_in, counts_text, end_text, listing_text};

use crate::statement::Statement;
use catalogue::reader::Catalogue;
use shelf::fault::{Entry, ShelfFault};
use shelf::shelf::Shelf;
use std::alloc::{AllocError, Global};
use std::fmt;
use writer::write;

// What an entry states, or what is wrong with it.
#[derive(Clone, Copy)]
struct EntryText(Entry);

impl fmt::Display for EntryText {
    ghost output = { λ t. Some (entry_text t.0) };

    fn fmt<W: fmt::Write>(&self, f: &mut fmt::Formatter<W>) -> fmt::Result {
        match self.0 {
            Ok(axiom) => write!(f, "{}", Statement(axiom)),
            Err(ShelfFault { fault, .. }) => {
                write!(f, "fault {} at byte {}", fault.cause.number(), fault.byte)
            }
        }
    }
}

// The line of an entry.
#[derive(Clone, Copy)]
struct Line {
    place: u16,
    entry: Entry,
}

impl fmt::Display for Line {
    ghost output = { λ l. Some (line_text l.place l.entry) };

    fn fmt<W: fmt::Write>(&self, f: &mut fmt::Formatter<W>) -> fmt::Result {
        writeln!(f, "{}: {}", self.place, EntryText(self.entry))
    }
}

// Adds a line for each entry of a shelf, and answers how many are faulty. No `Display`: each entry is read once, for both.
fn push_lines<S: Shelf>(text: &mut String, shelf: &S) -> Result<usize, AllocError>
    ensures { IfOk result (λ n. (string_bytes text.new ≡ string_bytes text.old ++ lines_text 1 (S.Shelf.list shelf.now)) × (n ≡ faults_in (S.Shelf.list shelf.now))) }
{
    let mut faults = 0;
    for (i, entry) in shelf.counted_entries().enumerate() {
        let place = i as u16 + 1;
        if entry.is_err() {
            faults += 1;
        }
        write!(text, "{}", Line { place, entry })?;
    }
    Ok(faults)
}

// How many entries there are, and how many are faulty.
#[derive(Clone, Copy)]
struct Counts {
    entries: u16,
    faults: usize,
}

impl fmt::Display for Counts {
    ghost output = { λ c. Some (counts_text c.entries c.faults) };

    fn fmt<W: fmt::Write>(&self, f: &mut fmt::Formatter<W>) -> fmt::Result {
        write!(f, "{} entries, {} faulty", self.entries, self.faults)
    }
}

// Whether the catalogue was written again the same, and the end of the line.
#[derive(Clone, Copy)]
struct End {
    again: bool,
}

impl fmt::Display for End {
    ghost output = { λ e. Some (end_text e.again) };

    fn fmt<W: fmt::Write>(&self, f: &mut fmt::Formatter<W>) -> fmt::Result {
        if self.again {
            f.write_str(", written again the same\n")
        } else {
            f.write_str("\n")
        }
    }
}

// Whether the catalogue is written again with the same bytes, into a buffer of the same length.
fn is_written_again(heap: Global, bytes: &[u8]) -> Result<bool, AllocError>
    ensures { IfOk result (λ again. again ≡ faultless (catalogue_list bytes.now 0)) }
{
    let mut room = vec![in heap; 0; bytes.len()]?;
    let buffer = room.as_mut_slice();
    let again = match write(&Catalogue::new(bytes, 0), buffer) {
        Ok(len) => buffer[..len] == bytes[..],
        Err(_) => false,
    };
    Ok(again)
}

// The listing of a catalogue: a line for each entry, and one that counts them.
pub fn listing(heap: Global, bytes: &[u8]) -> Result<String, AllocError>
    ensures { IfOk result (λ t. string_bytes t ≡ listing_text (catalogue_list bytes.now 0)) }
{
    let catalogue = Catalogue::new(bytes, 0);
    let again = is_written_again(heap, bytes)?;
    let mut text = String::new(heap);
    let faults = push_lines(&mut text, &catalogue)?;
    let counts = Counts {
        entries: catalogue.count(),
        faults,
    };
    let end = End { again };
    write!(text, "{counts}{end}")?;
    Ok(text)
}
