// What the cases ask of a shelf.
use crate::making::{catalogue_bytes, fault};
use catalogue::reader::Catalogue;
use shelf::fault::{Cause, Entry};
use shelf::shelf::Shelf;
use std::alloc::Global;
use std::process::Abort;
use std::test::Fail;

// Checks that these places are outside a shelf of the mark.
pub(crate) fn check_outside<S: Shelf>(rt: &impl Abort, shelf: &S, mark: u16, places: &[u16]) {
    for place in places {
        let expected = Err(fault(Cause::Outside, 0, mark, *place));
        assert_eq!(rt; shelf.entry(*place), expected, "{}", *place);
    }
}

// Checks that a shelf has this entry from the first place to the last.
pub(crate) fn check_run<S: Shelf>(
    rt: &impl Abort,
    shelf: &S,
    first: u16,
    last: u16,
    expected: Entry,
) {
    for place in first..=last {
        assert_eq!(rt; shelf.entry(place), expected, "{}", place);
    }
}

// Checks that a shelf of the mark has these entries, and that the places around them are outside. A check that
// fails says the bytes of the note.
fn check_noted<S: Shelf>(
    rt: &impl Abort,
    note: &[u8],
    shelf: &S,
    mark: u16,
    expected: &[Entry],
) -> Result<(), Fail> {
    let count = shelf.count();
    assert_eq!(rt; count as usize, expected.len(), "{note:?}");
    for (place, entry) in (1..=count).zip(expected) {
        assert_eq!(rt; shelf.entry(place), *entry, "{} of {note:?}", place);
    }
    assert_eq!(rt; shelf.entries().count(), expected.len(), "{note:?}");
    assert_eq!(rt; shelf.counted_entries().count(), expected.len(), "{note:?}");
    for ((entry, counted), wanted) in shelf.entries().zip(shelf.counted_entries()).zip(expected) {
        assert_eq!(rt; entry, *wanted, "{note:?}");
        assert_eq!(rt; counted, *wanted, "{note:?}");
    }
    check_outside(rt, shelf, mark, &[0, count.wrapping_add(1), 65535]);
    Ok(())
}

// Checks that a shelf of the mark has these entries, and that the places around them are outside.
pub(crate) fn check_list<S: Shelf>(
    rt: &impl Abort,
    shelf: &S,
    mark: u16,
    expected: &[Entry],
) -> Result<(), Fail> {
    check_noted(rt, &[], shelf, mark, expected)
}

// Checks that the catalogue of these bytes has these entries.
pub(crate) fn check_catalogue(
    rt: &impl Abort,
    bytes: &[u8],
    expected: &[Entry],
) -> Result<(), Fail> {
    check_noted(rt, bytes, &Catalogue::new(bytes, 7), 7, expected)
}

// Checks that a catalogue of this body alone has this entry.
pub(crate) fn check_alone(
    rt: &impl Abort,
    heap: Global,
    body: &[u8],
    expected: Entry,
) -> Result<(), Fail> {
    let bytes = catalogue_bytes(heap, &[body])?;
    check_catalogue(rt, bytes.as_slice(), &[expected])
}
