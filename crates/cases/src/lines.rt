// Faults of a catalogue's count and contents.
use crate::checking::check_catalogue;
use crate::making::{
    TWO_ENTRIES, catalogue_bytes, fault, first_entry, nothing, push_word, second_entry, under,
};
use shelf::fault::{Cause, Entry};
use std::alloc::Global;
use std::process::Abort;
use std::test::Fail;

// Checks that bytes whose contents cannot be read mean one faulty entry.
fn check_unreadable(rt: &impl Abort, bytes: &[u8]) -> Result<(), Fail> {
    let contents = Err(fault(Cause::Contents, 0, 7, 1));
    check_catalogue(rt, bytes, &[contents])
}

// A missing count, cut contents, and bytes after the count 0 cannot be read.
#[test]
fn cut_contents_cannot_be_read(rt: HostRuntime) -> Result<(), Fail> {
    let cases: [&[u8]; 9] = [
        &[],
        &[0],
        &[2],
        &[0, 0, 0],
        &[0, 0, 0, 6, 0, 3, 2, 0, 0],
        &[0, 1],
        &[0, 1, 0, 6, 0],
        &[0, 2, 0, 10, 0, 3, 0, 13, 0],
        &[255, 255, 0, 10, 0, 3, 2, 0, 0],
    ];
    for bytes in cases {
        check_unreadable(&rt, bytes)?;
    }
    Ok(())
}

// The count 513 cannot be read, although the lines and the bodies are all there.
#[test]
fn the_count_513_cannot_be_read(rt: HostRuntime) -> Result<(), Fail> {
    let body: &[u8] = &[2, 0, 0];
    let bodies = vec![in rt.alloc(); body; 513]?;
    let bytes = catalogue_bytes(rt.alloc(), bodies.as_slice())?;
    assert_eq!(rt; bytes.len(), 3593);
    check_unreadable(&rt, bytes.as_slice())
}

// A contents line: where the body starts, and how long it is.
#[derive(Clone, Copy)]
struct Line(usize, usize);

// Checks the entries of two lines with the bytes after them, which start at the byte 10.
fn check_lines(
    rt: &impl Abort,
    heap: Global,
    lines: [Line; 2],
    bodies: &[u8],
    expected: [Entry; 2],
) -> Result<(), Fail> {
    let mut bytes = vec![in heap; 0u8, 2]?;
    for Line(start, length) in lines {
        push_word(&mut bytes, start)?;
        push_word(&mut bytes, length)?;
    }
    bytes.extend_from_slice(bodies)?;
    check_catalogue(rt, bytes.as_slice(), &expected)
}

// The entry for a fault of the first of two lines.
fn first_fault() -> Entry {
    Err(fault(Cause::Line, 2, 7, 1))
}

// The entry for a fault of the second of two lines.
fn second_fault() -> Entry {
    Err(fault(Cause::Line, 6, 7, 2))
}

// The first of two bodies of 3 bytes, as an entry.
fn none() -> Entry {
    Ok(nothing(&[]))
}

// The second of two bodies of 3 bytes, as an entry.
fn nine() -> Entry {
    Ok(under(&[], 9))
}

// A start has to be the byte after the contents, or where the line before points, right or wrong.
#[test]
fn a_start_is_where_the_bytes_before_end(rt: HostRuntime) -> Result<(), Fail> {
    let heap = rt.alloc();
    let bodies = [2, 0, 0, 1, 0, 9];
    check_lines(
        &rt,
        heap,
        [Line(10, 3), Line(13, 3)],
        &bodies,
        [none(), nine()],
    )?;
    check_lines(
        &rt,
        heap,
        [Line(10, 3), Line(12, 4)],
        &bodies,
        [none(), second_fault()],
    )?;
    check_lines(
        &rt,
        heap,
        [Line(10, 3), Line(14, 3)],
        &bodies,
        [none(), second_fault()],
    )?;
    check_lines(
        &rt,
        heap,
        [Line(9, 4), Line(13, 3)],
        &bodies,
        [first_fault(), nine()],
    )?;
    check_lines(
        &rt,
        heap,
        [Line(0, 13), Line(13, 3)],
        &bodies,
        [first_fault(), nine()],
    )?;
    check_lines(
        &rt,
        heap,
        [Line(11, 3), Line(13, 3)],
        &bodies,
        [first_fault(), second_fault()],
    )
}

// A length has to be 3 to 67, and the line after counts on it, right or wrong.
#[test]
fn a_length_is_3_to_67(rt: HostRuntime) -> Result<(), Fail> {
    let heap = rt.alloc();
    for length in [0, 1, 2, 68, 69, 256, 259] {
        let mut bodies = vec![in heap; 0u8; length]?;
        bodies.extend_from_slice(&[1, 0, 9])?;
        let lines = [Line(10, length), Line(10 + length, 3)];
        check_lines(&rt, heap, lines, bodies.as_slice(), [first_fault(), nine()])?;
    }
    Ok(())
}

// A body ends within the bytes, and the last one with them.
#[test]
fn the_last_body_ends_with_the_bytes(rt: HostRuntime) -> Result<(), Fail> {
    let heap = rt.alloc();
    let lines = [Line(10, 3), Line(13, 3)];
    check_lines(&rt, heap, lines, &[2, 0, 0, 1, 0, 9], [none(), nine()])?;
    check_lines(&rt, heap, lines, &[2, 0, 0, 1, 0], [none(), second_fault()])?;
    check_lines(
        &rt,
        heap,
        lines,
        &[2, 0, 0, 1, 0, 9, 10],
        [none(), second_fault()],
    )?;
    check_lines(&rt, heap, lines, &[2, 0, 0], [none(), second_fault()])?;
    check_lines(&rt, heap, lines, &[2, 0], [first_fault(), second_fault()])?;
    check_lines(&rt, heap, lines, &[], [first_fault(), second_fault()])?;
    let long = [Line(10, 4), Line(14, 3)];
    check_lines(&rt, heap, long, &[2, 0, 0], [first_fault(), second_fault()])
}

// Checks what is left of the catalogue with two entries where it has only so many bytes.
fn check_cut(rt: &impl Abort, bytes: &[u8]) -> Result<(), Fail> {
    match bytes.len() {
        0..=9 => check_unreadable(rt, bytes),
        10..=13 => check_catalogue(rt, bytes, &[first_fault(), second_fault()]),
        14..=16 => check_catalogue(rt, bytes, &[first_entry(), second_fault()]),
        _ => check_catalogue(rt, bytes, &[first_entry(), second_entry()]),
    }
}

// A catalogue that is cut at any byte keeps the entries whose bodies are whole.
#[test]
fn a_cut_catalogue_keeps_whole_bodies(rt: HostRuntime) -> Result<(), Fail> {
    for length in 0..=17usize {
        let bytes = TWO_ENTRIES
            .get(0..length)
            .ok_or("longer than the catalogue")?;
        check_cut(&rt, bytes)?;
    }
    Ok(())
}
