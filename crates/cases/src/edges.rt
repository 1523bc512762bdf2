// The largest and the smallest catalogues, and bytes beyond 65,535.
use crate::checking::{check_alone, check_list, check_outside, check_run};
use crate::making::{
    all_terms, catalogue_bytes, fault, forward, longest_body, nothing, push_word, role_under, under,
};
use catalogue::reader::Catalogue;
use shelf::fault::{Cause, Entry};
use shelf::form::Form;
use shelf::shelf::Shelf;
use std::alloc::{AllocError, Global};
use std::process::Abort;
use std::test::Fail;

// A catalogue of 512 bodies: `{} under nothing`, 510 times `S1 under S2`, and `{} under 64`.
fn many_bodies(heap: Global) -> Result<Vec<u8>, AllocError> {
    let first: &[u8] = &[2, 0, 0];
    let between: &[u8] = &[6, 1, 2];
    let last: &[u8] = &[1, 0, 64];
    let mut bodies = vec![in heap; between; 512]?;
    bodies[0] = first;
    bodies[511] = last;
    catalogue_bytes(heap, bodies.as_slice())
}

// A catalogue may have 512 entries.
#[test]
fn entries_512_are_read(rt: HostRuntime) -> Result<(), Fail> {
    let bytes = many_bodies(rt.alloc())?;
    let shelf = Catalogue::new(bytes.as_slice(), 7);
    assert_eq!(rt; bytes.len(), 3586);
    assert_eq!(rt; shelf.count(), 512);
    check_run(&rt, &shelf, 1, 1, Ok(nothing(&[])));
    check_run(&rt, &shelf, 2, 511, Ok(role_under(forward(1), forward(2))));
    check_run(&rt, &shelf, 512, 512, Ok(under(&[], 64)));
    check_outside(&rt, &shelf, 7, &[0, 513, 514, 65535]);
    Ok(())
}

// A body has 67 bytes where all 64 terms are on its left, and a byte more is one too many.
#[test]
fn a_body_of_67_bytes_is_read(rt: HostRuntime) -> Result<(), Fail> {
    let mut body = longest_body(rt.alloc())?;
    assert_eq!(rt; body.len(), 67);
    let all = Ok(Form::Nothing { left: all_terms() });
    check_alone(&rt, rt.alloc(), body.as_slice(), all)?;
    body.push(64)?;
    let line = Err(fault(Cause::Line, 2, 7, 1));
    check_alone(&rt, rt.alloc(), body.as_slice(), line)
}

// A body has 3 bytes where nothing is on its left, and a byte fewer is one too few.
#[test]
fn a_body_of_3_bytes_is_read(rt: HostRuntime) -> Result<(), Fail> {
    let line = Err(fault(Cause::Line, 2, 7, 1));
    check_alone(&rt, rt.alloc(), &[1, 0, 9], Ok(under(&[], 9)))?;
    check_alone(&rt, rt.alloc(), &[1, 0], line)?;
    check_alone(&rt, rt.alloc(), &[], line)
}

// A start plus a length beyond 65,535 is compared as it is: taken modulo 65,536 it would be right.
#[test]
fn a_start_plus_a_length_does_not_wrap(rt: HostRuntime) -> Result<(), Fail> {
    let lines = [
        Err(fault(Cause::Line, 2, 7, 1)),
        Err(fault(Cause::Line, 6, 7, 2)),
    ];
    let start = [0, 2, 255, 255, 0, 11, 0, 10, 0, 3, 2, 0, 0];
    check_list(&rt, &Catalogue::new(&start, 7), 7, &lines)?;
    let length = [0, 2, 0, 10, 255, 255, 0, 9, 0, 4, 2, 0, 0];
    check_list(&rt, &Catalogue::new(&length, 7), 7, &lines)
}

// Checks what the second entry is where the first line is wrong and ends at 65,535.
fn check_far(rt: &impl Abort, heap: Global, body: &[u8], expected: Entry) -> Result<(), Fail> {
    let mut bytes = vec![in heap; 0u8, 2, 0xff, 0x00, 0x00, 0xff, 0xff, 0xff]?;
    push_word(&mut bytes, body.len())?;
    let gap = vec![in heap; 0u8; 65525]?;
    bytes.extend_from_slice(gap.as_slice())?;
    bytes.extend_from_slice(body)?;
    let list = [Err(fault(Cause::Line, 2, 7, 1)), expected];
    check_list(rt, &Catalogue::new(bytes.as_slice(), 7), 7, &list)
}

// A body may go on beyond 65,535 after a wrong line, and its faults name bytes beyond.
#[test]
fn a_body_beyond_65535_is_read(rt: HostRuntime) -> Result<(), Fail> {
    let heap = rt.alloc();
    check_far(&rt, heap, &[1, 0, 2, 1], Ok(under(&[1], 2)))?;
    check_far(
        &rt,
        heap,
        &[0, 0, 2, 1],
        Err(fault(Cause::Kind, 65535, 7, 2)),
    )?;
    check_far(
        &rt,
        heap,
        &[1, 1, 2, 1],
        Err(fault(Cause::First, 65536, 7, 2)),
    )?;
    check_far(
        &rt,
        heap,
        &[1, 0, 0, 1],
        Err(fault(Cause::Second, 65537, 7, 2)),
    )?;
    check_far(
        &rt,
        heap,
        &[1, 0, 2, 1, 1],
        Err(fault(Cause::Left, 65539, 7, 2)),
    )
}
