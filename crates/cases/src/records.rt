// What a shelf of records answers.
use crate::checking::{check_list, check_run};
use crate::making::{
    at_most_one, backward, exists, fault, first_entry, forward, nothing, only, role_under, under,
};
use numbers::term::Term;
use shelf::fault::Cause;
use shelf::form::Axiom;
use shelf::records::Records;
use shelf::shelf::Shelf;
use std::process::Abort;
use std::test::Fail;

// Checks that a record, the second of two, is a fault of the cause at no byte.
fn check_fault(rt: &impl Abort, record: Axiom, cause: Cause) -> Result<(), Fail> {
    let records = [under(&[1], 2), record];
    let expected = [first_entry(), Err(fault(cause, 0, 8, 2))];
    check_list(rt, &Records::new(&records, 8), 8, &expected)
}

// Checks that a record alone on a shelf is the entry there.
fn check_kept(rt: &impl Abort, record: Axiom) -> Result<(), Fail> {
    check_list(rt, &Records::new(&[record], 8), 8, &[Ok(record)])
}

// Records stand in their order, and no records are no entries.
#[test]
fn records_stand_in_order(rt: HostRuntime) -> Result<(), Fail> {
    let [a, b, c] = [
        nothing(&[3]),
        under(&[1], 2),
        role_under(forward(1), backward(2)),
    ];
    check_list(&rt, &Records::new(&[a, b, c], 8), 8, &[Ok(a), Ok(b), Ok(c)])?;
    check_list(&rt, &Records::new(&[c, b], 8), 8, &[Ok(c), Ok(b)])?;
    check_list(&rt, &Records::new(&[], 8), 8, &[])
}

// Each form of a record is an entry with its smallest and its largest numbers.
#[test]
fn each_form_is_kept(rt: HostRuntime) -> Result<(), Fail> {
    check_kept(&rt, under(&[], 1))?;
    check_kept(&rt, under(&[1, 64], 64))?;
    check_kept(&rt, nothing(&[]))?;
    check_kept(&rt, nothing(&[1, 2, 64]))?;
    check_kept(&rt, exists(&[], forward(1), None))?;
    check_kept(&rt, exists(&[5], backward(16), Some(Term(64))))?;
    check_kept(&rt, only(&[], forward(16), 1))?;
    check_kept(&rt, only(&[5], backward(1), 64))?;
    check_kept(&rt, at_most_one(&[], backward(1), None))?;
    check_kept(&rt, at_most_one(&[5], forward(16), Some(Term(1))))?;
    check_kept(&rt, role_under(forward(1), backward(16)))?;
    check_kept(&rt, role_under(backward(1), forward(16)))
}

// A role outside 1 to 16 is a fault of the first field, also the upper role.
#[test]
fn a_role_of_a_record_is_1_to_16(rt: HostRuntime) -> Result<(), Fail> {
    for number in [0, 17, 128, 129, 255] {
        for role in [forward(number), backward(number)] {
            check_fault(&rt, exists(&[1], role, None), Cause::First)?;
            check_fault(&rt, only(&[1], role, 1), Cause::First)?;
            check_fault(&rt, at_most_one(&[1], role, Some(Term(1))), Cause::First)?;
            check_fault(&rt, role_under(role, forward(1)), Cause::First)?;
            check_fault(&rt, role_under(forward(1), role), Cause::First)?;
        }
    }
    Ok(())
}

// A right side that is no term is a fault of the second field, also where everything may stand.
#[test]
fn a_right_side_of_a_record_is_a_term(rt: HostRuntime) -> Result<(), Fail> {
    for number in [0, 65, 128, 255] {
        check_fault(&rt, under(&[1], number), Cause::Second)?;
        check_fault(&rt, only(&[1], forward(1), number), Cause::Second)?;
        check_fault(
            &rt,
            exists(&[1], forward(1), Some(Term(number))),
            Cause::Second,
        )?;
        check_fault(
            &rt,
            at_most_one(&[1], backward(16), Some(Term(number))),
            Cause::Second,
        )?;
    }
    Ok(())
}

// Where the role and the right side are both wrong, the role is the fault.
#[test]
fn the_role_of_a_record_is_tested_first(rt: HostRuntime) -> Result<(), Fail> {
    check_fault(&rt, exists(&[1], forward(0), Some(Term(65))), Cause::First)?;
    check_fault(&rt, only(&[1], backward(17), 0), Cause::First)?;
    check_fault(
        &rt,
        at_most_one(&[1], forward(17), Some(Term(0))),
        Cause::First,
    )?;
    check_fault(&rt, role_under(forward(0), backward(17)), Cause::First)
}

// A shelf may have 65,535 records.
#[test]
fn records_65535_are_read(rt: HostRuntime) -> Result<(), Fail> {
    let mut records = vec![in rt.alloc(); nothing(&[3]); 65534]?;
    records.push(under(&[1], 2))?;
    let shelf = Records::new(records.as_slice(), 8);
    assert_eq!(rt; shelf.count(), 65535);
    check_run(&rt, &shelf, 1, 65534, Ok(nothing(&[3])));
    check_run(&rt, &shelf, 65535, 65535, Ok(under(&[1], 2)));
    Ok(())
}

// From 65,536 records on, a shelf is one fault.
#[test]
fn records_65536_are_one_fault(rt: HostRuntime) -> Result<(), Fail> {
    let mut records = vec![in rt.alloc(); nothing(&[3]); 65536]?;
    let long = [Err(fault(Cause::TooLong, 0, 8, 1))];
    check_list(&rt, &Records::new(records.as_slice(), 8), 8, &long)?;
    records.push(nothing(&[3]))?;
    check_list(&rt, &Records::new(records.as_slice(), 8), 8, &long)
}
