// Faults of a body: its kind, its two fields and its left list.
use crate::checking::check_catalogue;
use crate::making::{catalogue_bytes, fault, first_entry};
use shelf::fault::Cause;
use std::alloc::Global;
use std::process::Abort;
use std::test::Fail;

// Checks that a body is a fault, where it is the second of a catalogue and starts at the byte 14.
fn check_fault(
    rt: &impl Abort,
    heap: Global,
    body: &[u8],
    cause: Cause,
    byte: usize,
) -> Result<(), Fail> {
    let bytes = catalogue_bytes(heap, &[&[1, 0, 2, 1], body])?;
    let expected = [first_entry(), Err(fault(cause, byte, 7, 2))];
    check_catalogue(rt, bytes.as_slice(), &expected)
}

// The causes have the numbers under which they are reported.
#[test]
fn causes_have_their_numbers(rt: HostRuntime) {
    let cases = [
        (Cause::Outside, 0),
        (Cause::Contents, 1),
        (Cause::Line, 2),
        (Cause::Kind, 3),
        (Cause::First, 4),
        (Cause::Second, 5),
        (Cause::Left, 6),
        (Cause::TooLong, 7),
    ];
    for (cause, number) in cases {
        assert_eq!(rt; cause.number(), number);
    }
}

// A kind outside 1 to 6 is a fault of the kind's byte, whatever the fields are.
#[test]
fn a_kind_is_1_to_6(rt: HostRuntime) -> Result<(), Fail> {
    check_fault(&rt, rt.alloc(), &[0, 0, 0], Cause::Kind, 14)?;
    check_fault(&rt, rt.alloc(), &[0, 1, 1, 1], Cause::Kind, 14)?;
    for kind in 7..=255u8 {
        check_fault(&rt, rt.alloc(), &[kind, 1, 1], Cause::Kind, 14)?;
    }
    Ok(())
}

// A first field that is no role, or not 0, as the kind asks, is a fault of its own.
#[test]
fn a_first_field_is_a_role_or_0(rt: HostRuntime) -> Result<(), Fail> {
    for first in [0, 17, 64, 127, 128, 145, 255] {
        for kind in [3, 4, 5, 6] {
            check_fault(&rt, rt.alloc(), &[kind, first, 1], Cause::First, 15)?;
        }
    }
    for first in [1, 16, 128, 129, 255] {
        check_fault(&rt, rt.alloc(), &[1, first, 1], Cause::First, 15)?;
        check_fault(&rt, rt.alloc(), &[2, first, 0], Cause::First, 15)?;
    }
    Ok(())
}

// A second field that is no term, not 0, or no role, as the kind asks, is a fault of its own.
#[test]
fn a_second_field_is_what_the_kind_asks(rt: HostRuntime) -> Result<(), Fail> {
    let cases = [
        [1, 0, 0],
        [1, 0, 65],
        [1, 0, 255],
        [2, 0, 1],
        [2, 0, 255],
        [3, 1, 65],
        [3, 1, 128],
        [4, 1, 0],
        [4, 1, 65],
        [5, 1, 65],
        [5, 1, 255],
        [6, 1, 0],
        [6, 1, 17],
        [6, 1, 128],
        [6, 1, 145],
    ];
    for body in cases {
        check_fault(&rt, rt.alloc(), &body, Cause::Second, 16)?;
    }
    Ok(())
}

// A left list is terms, each above the one before; the fault is at the first byte that offends.
#[test]
fn a_left_list_rises(rt: HostRuntime) -> Result<(), Fail> {
    let cases: [(&[u8], usize); 12] = [
        (&[1, 0, 2, 0], 17),
        (&[1, 0, 2, 65], 17),
        (&[1, 0, 2, 255], 17),
        (&[1, 0, 2, 2, 1], 18),
        (&[1, 0, 2, 3, 3], 18),
        (&[2, 0, 0, 1, 0], 18),
        (&[2, 0, 0, 1, 2, 3, 2, 64], 20),
        (&[3, 1, 0, 64, 65], 18),
        (&[3, 1, 0, 1, 2, 65], 19),
        (&[4, 1, 1, 64, 64], 18),
        (&[5, 1, 0, 1, 3, 2, 0], 19),
        (&[5, 1, 0, 2, 1, 0], 18),
    ];
    for (body, byte) in cases {
        check_fault(&rt, rt.alloc(), body, Cause::Left, byte)?;
    }
    Ok(())
}

// A statement on roles has no left list, so the first byte of one is a fault, also a term.
#[test]
fn a_statement_on_roles_has_no_left_list(rt: HostRuntime) -> Result<(), Fail> {
    check_fault(&rt, rt.alloc(), &[6, 1, 2, 1], Cause::Left, 17)?;
    check_fault(&rt, rt.alloc(), &[6, 1, 2, 0], Cause::Left, 17)?;
    check_fault(&rt, rt.alloc(), &[6, 1, 2, 1, 2, 2], Cause::Left, 17)
}

// Of several faults in one body the first by its byte is reported.
#[test]
fn the_first_fault_of_a_body_is_reported(rt: HostRuntime) -> Result<(), Fail> {
    let heap = rt.alloc();
    check_fault(&rt, heap, &[7, 0, 65, 0], Cause::Kind, 14)?;
    check_fault(&rt, heap, &[1, 1, 0, 0], Cause::First, 15)?;
    check_fault(&rt, heap, &[2, 1, 1, 0], Cause::First, 15)?;
    check_fault(&rt, heap, &[3, 0, 65, 0], Cause::First, 15)?;
    check_fault(&rt, heap, &[6, 0, 0, 1], Cause::First, 15)?;
    check_fault(&rt, heap, &[1, 0, 0, 0], Cause::Second, 16)?;
    check_fault(&rt, heap, &[4, 1, 0, 2, 1], Cause::Second, 16)?;
    check_fault(&rt, heap, &[6, 1, 0, 1], Cause::Second, 16)
}
