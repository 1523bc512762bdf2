// What is written of a shelf, and what is refused.
use crate::checking::{check_outside, check_run};
use crate::making::{
    TWO_ENTRIES, all_terms, at_most_one, backward, catalogue_bytes, exists, forward, longest_body,
    nothing, only, role_under, under,
};
use catalogue::reader::Catalogue;
use numbers::term::Term;
use shelf::form::{Axiom, Form};
use shelf::joined::Joined;
use shelf::records::Records;
use shelf::shelf::Shelf;
use std::alloc::{AllocError, Global};
use std::process::Abort;
use std::test::Fail;
use writer::{WriteRefusal, write};

// Checks that a shelf is written as these bytes into a buffer with so many bytes more, which stay.
fn check_written<S: Shelf>(
    rt: &impl Abort,
    heap: Global,
    shelf: &S,
    bytes: &[u8],
    more: usize,
) -> Result<(), Fail> {
    let rest = vec![in heap; 0xeeu8; more]?;
    let mut buffer = vec![in heap; 0xeeu8; bytes.len()]?;
    buffer.extend_from_slice(rest.as_slice())?;
    let mut expected = bytes.to_vec(heap)?;
    expected.extend_from_slice(rest.as_slice())?;
    assert_eq!(rt; write(shelf, buffer.as_mut_slice()), Ok(bytes.len()));
    assert_eq!(rt; buffer.as_slice(), expected.as_slice());
    Ok(())
}

// Checks that a shelf is not written into so many bytes, which stay.
fn check_refused<S: Shelf>(
    rt: &impl Abort,
    heap: Global,
    shelf: &S,
    room: usize,
    refusal: WriteRefusal,
) -> Result<(), Fail> {
    let untouched = vec![in heap; 0xeeu8; room]?;
    let mut buffer = vec![in heap; 0xeeu8; room]?;
    assert_eq!(rt;
        write(shelf, buffer.as_mut_slice()),
        Err(refusal),
        "{}",
        room
    );
    assert_eq!(rt; buffer.as_slice(), untouched.as_slice());
    Ok(())
}

// The refusals have the numbers under which they are reported.
#[test]
fn refusals_have_their_numbers(rt: HostRuntime) {
    assert_eq!(rt; WriteRefusal::Unwritable.number(), 10);
    assert_eq!(rt; WriteRefusal::TooShort.number(), 11);
}

// A faultless catalogue is written again the same, and the bytes after it stay.
#[test]
fn a_catalogue_is_written_again(rt: HostRuntime) -> Result<(), Fail> {
    let shelf = Catalogue::new(TWO_ENTRIES, 7);
    check_written(&rt, rt.alloc(), &shelf, TWO_ENTRIES, 0)?;
    check_written(&rt, rt.alloc(), &shelf, TWO_ENTRIES, 1)?;
    check_written(&rt, rt.alloc(), &shelf, TWO_ENTRIES, 100)
}

// A buffer that is too short is refused and stays as it was.
#[test]
fn a_short_buffer_stays(rt: HostRuntime) -> Result<(), Fail> {
    let shelf = Catalogue::new(TWO_ENTRIES, 7);
    for room in [0, 1, 2, 10, 16] {
        check_refused(&rt, rt.alloc(), &shelf, room, WriteRefusal::TooShort)?;
    }
    Ok(())
}

// A shelf with no entry is written as the count 0.
#[test]
fn no_entries_are_written(rt: HostRuntime) -> Result<(), Fail> {
    let shelf = Records::new(&[], 8);
    check_written(&rt, rt.alloc(), &shelf, &[0, 0], 0)?;
    check_written(&rt, rt.alloc(), &shelf, &[0, 0], 3)?;
    check_refused(&rt, rt.alloc(), &shelf, 0, WriteRefusal::TooShort)?;
    check_refused(&rt, rt.alloc(), &shelf, 1, WriteRefusal::TooShort)
}

// Records of each form are written, and what was written is written again the same.
#[test]
fn each_form_is_written(rt: HostRuntime) -> Result<(), Fail> {
    let heap = rt.alloc();
    let records = [
        under(&[64, 1, 2], 64),
        nothing(&[]),
        exists(&[5], backward(16), None),
        exists(&[], forward(1), Some(Term(1))),
        only(&[3, 2], forward(16), 7),
        at_most_one(&[64], backward(1), Some(Term(64))),
        at_most_one(&[], forward(2), None),
        role_under(forward(1), backward(2)),
    ];
    let bodies: [&[u8]; 8] = [
        &[1, 0, 64, 1, 2, 64],
        &[2, 0, 0],
        &[3, 144, 0, 5],
        &[3, 1, 1],
        &[4, 16, 7, 2, 3],
        &[5, 129, 64, 64],
        &[5, 2, 0],
        &[6, 1, 130],
    ];
    let bytes = catalogue_bytes(heap, &bodies)?;
    check_written(&rt, heap, &Records::new(&records, 8), bytes.as_slice(), 2)?;
    check_written(
        &rt,
        heap,
        &Catalogue::new(bytes.as_slice(), 7),
        bytes.as_slice(),
        2,
    )
}

// Joined shelves are written as one catalogue.
#[test]
fn joined_shelves_are_written(rt: HostRuntime) -> Result<(), Fail> {
    let heap = rt.alloc();
    let records = [nothing(&[3])];
    let shelf = Joined::new(Records::new(&records, 8), Catalogue::new(TWO_ENTRIES, 7), 9);
    let bytes = catalogue_bytes(heap, &[&[2, 0, 0, 3], &[1, 0, 2, 1], &[6, 1, 130]])?;
    check_written(&rt, heap, &shelf, bytes.as_slice(), 5)?;
    check_refused(&rt, heap, &shelf, 24, WriteRefusal::TooShort)
}

// A shelf with a fault is not written, however large or small the buffer is.
#[test]
fn a_fault_is_not_written(rt: HostRuntime) -> Result<(), Fail> {
    let records = [under(&[1], 2), nothing(&[3]), under(&[1], 65)];
    let faulty = Records::new(&records, 8);
    let unreadable = Catalogue::new(&[0, 0, 0], 7);
    let joined = Joined::new(Catalogue::new(TWO_ENTRIES, 7), faulty, 9);
    for room in [0, 1, 100] {
        check_refused(&rt, rt.alloc(), &faulty, room, WriteRefusal::Unwritable)?;
        check_refused(&rt, rt.alloc(), &unreadable, room, WriteRefusal::Unwritable)?;
        check_refused(&rt, rt.alloc(), &joined, room, WriteRefusal::Unwritable)?;
    }
    Ok(())
}

// More than 512 entries are not written, however large or small the buffer is.
#[test]
fn entries_513_are_not_written(rt: HostRuntime) -> Result<(), Fail> {
    let records = vec![in rt.alloc(); nothing(&[]); 513]?;
    let shelf = Records::new(records.as_slice(), 8);
    assert_eq!(rt; shelf.count(), 513);
    for room in [0, 2, 3593, 4000] {
        check_refused(&rt, rt.alloc(), &shelf, room, WriteRefusal::Unwritable)?;
    }
    Ok(())
}

// A join that is too long is not written, although it has one entry.
#[test]
fn a_long_join_is_not_written(rt: HostRuntime) -> Result<(), Fail> {
    let records = vec![in rt.alloc(); nothing(&[]); 32768]?;
    let half = Records::new(records.as_slice(), 8);
    let shelf = Joined::new(half, half, 9);
    assert_eq!(rt; shelf.count(), 1);
    check_refused(&rt, rt.alloc(), &shelf, 4000, WriteRefusal::Unwritable)
}

// The axiom that nothing carries all 64 terms, 512 times.
fn largest_records(heap: Global) -> Result<Vec<Axiom>, AllocError> {
    vec![in heap; Form::Nothing { left: all_terms() }; 512]
}

// The largest catalogue, 512 entries of 67 bytes, is written into 36,354 bytes and no fewer.
#[test]
fn the_largest_catalogue_is_written(rt: HostRuntime) -> Result<(), Fail> {
    let records = largest_records(rt.alloc())?;
    let shelf = Records::new(records.as_slice(), 8);
    let body = longest_body(rt.alloc())?;
    let bodies = vec![in rt.alloc(); body.as_slice(); 512]?;
    let bytes = catalogue_bytes(rt.alloc(), bodies.as_slice())?;
    assert_eq!(rt; bytes.len(), 36354);
    check_written(&rt, rt.alloc(), &shelf, bytes.as_slice(), 1)?;
    check_refused(&rt, rt.alloc(), &shelf, 36353, WriteRefusal::TooShort)
}

// The largest catalogue is read back as it was written.
#[test]
fn the_largest_catalogue_is_read_back(rt: HostRuntime) -> Result<(), Fail> {
    let records = largest_records(rt.alloc())?;
    let mut buffer = vec![in rt.alloc(); 0u8; 36354]?;
    let written = write(&Records::new(records.as_slice(), 8), buffer.as_mut_slice());
    assert_eq!(rt; written, Ok(36354));
    let back = Catalogue::new(buffer.as_slice(), 7);
    assert_eq!(rt; back.count(), 512);
    check_run(&rt, &back, 1, 512, Ok(Form::Nothing { left: all_terms() }));
    check_outside(&rt, &back, 7, &[0, 513]);
    Ok(())
}
