// The entries of a catalogue, by its bytes.
use crate::checking::{check_alone, check_list};
use crate::making::{
    TWO_ENTRIES, at_most_one, backward, catalogue_bytes, exists, fault, first_entry, forward,
    nothing, only, role_under, second_entry, under,
};
use catalogue::reader::Catalogue;
use numbers::term::Term;
use shelf::fault::Cause;
use std::test::Fail;

// Two entries are read.
#[test]
fn two_entries_are_read(rt: HostRuntime) -> Result<(), Fail> {
    let shelf = Catalogue::new(TWO_ENTRIES, 7);
    check_list(&rt, &shelf, 7, &[first_entry(), second_entry()])
}

// A line that starts one byte too late is a fault of its own entry, and the entry before is read.
#[test]
fn a_late_start_is_a_fault_of_that_entry(rt: HostRuntime) -> Result<(), Fail> {
    let bytes = b"\x00\x02\x00\x0a\x00\x04\x00\x0f\x00\x03\x01\x00\x02\x01\x06\x01\x82";
    let shelf = Catalogue::new(bytes, 7);
    check_list(
        &rt,
        &shelf,
        7,
        &[first_entry(), Err(fault(Cause::Line, 6, 7, 2))],
    )
}

// The count 0 alone is a catalogue with no entry, and with a byte more it is one faulty entry.
#[test]
fn no_entries_are_read(rt: HostRuntime) -> Result<(), Fail> {
    check_list(&rt, &Catalogue::new(b"\x00\x00", 7), 7, &[])?;
    let contents = Err(fault(Cause::Contents, 0, 7, 1));
    check_list(&rt, &Catalogue::new(b"\x00\x00\x00", 7), 7, &[contents])
}

// The bytes that the cases lay out are those of a catalogue written by hand.
#[test]
fn bodies_are_laid_out_one_after_the_other(rt: HostRuntime) -> Result<(), Fail> {
    let bytes = catalogue_bytes(rt.alloc(), &[&[1, 0, 2, 1], &[6, 1, 130]])?;
    assert_eq!(rt; bytes.as_slice(), TWO_ENTRIES.as_slice());
    Ok(())
}

// What has a left and a term or nothing is read, with the smallest and the largest numbers.
#[test]
fn inclusions_are_read(rt: HostRuntime) -> Result<(), Fail> {
    let heap = rt.alloc();
    check_alone(&rt, heap, &[1, 0, 1], Ok(under(&[], 1)))?;
    check_alone(
        &rt,
        heap,
        &[1, 0, 64, 1, 2, 63, 64],
        Ok(under(&[1, 2, 63, 64], 64)),
    )?;
    check_alone(&rt, heap, &[2, 0, 0], Ok(nothing(&[])))?;
    check_alone(&rt, heap, &[2, 0, 0, 64], Ok(nothing(&[64])))
}

// What has a role is read, with the smallest and the largest numbers in both directions.
#[test]
fn statements_with_roles_are_read(rt: HostRuntime) -> Result<(), Fail> {
    let heap = rt.alloc();
    check_alone(&rt, heap, &[3, 1, 0], Ok(exists(&[], forward(1), None)))?;
    check_alone(
        &rt,
        heap,
        &[3, 144, 64, 7],
        Ok(exists(&[7], backward(16), Some(Term(64)))),
    )?;
    check_alone(&rt, heap, &[4, 16, 1], Ok(only(&[], forward(16), 1)))?;
    check_alone(
        &rt,
        heap,
        &[4, 129, 64, 1, 64],
        Ok(only(&[1, 64], backward(1), 64)),
    )?;
    check_alone(
        &rt,
        heap,
        &[5, 129, 0],
        Ok(at_most_one(&[], backward(1), None)),
    )?;
    check_alone(
        &rt,
        heap,
        &[5, 16, 1, 5, 6],
        Ok(at_most_one(&[5, 6], forward(16), Some(Term(1)))),
    )?;
    check_alone(
        &rt,
        heap,
        &[6, 1, 144],
        Ok(role_under(forward(1), backward(16))),
    )?;
    check_alone(
        &rt,
        heap,
        &[6, 129, 16],
        Ok(role_under(backward(1), forward(16))),
    )
}
