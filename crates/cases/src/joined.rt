// What shelves that are joined answer.
use crate::checking::{check_list, check_outside, check_run};
use crate::making::{
    TWO_ENTRIES, fault, first_entry, forward, nothing, role_under, second_entry, under,
};
use catalogue::reader::Catalogue;
use shelf::fault::Cause;
use shelf::joined::Joined;
use shelf::records::Records;
use shelf::shelf::Shelf;
use std::test::Fail;

// The second list follows the first, and places outside both have the mark of the joined shelf.
#[test]
fn lists_follow_one_another(rt: HostRuntime) -> Result<(), Fail> {
    let records = [nothing(&[3]), under(&[4], 5)];
    let first = Catalogue::new(TWO_ENTRIES, 7);
    let second = Records::new(&records, 8);
    let [three, four] = [Ok(nothing(&[3])), Ok(under(&[4], 5))];
    check_list(
        &rt,
        &Joined::new(first, second, 9),
        9,
        &[first_entry(), second_entry(), three, four],
    )?;
    check_list(
        &rt,
        &Joined::new(second, first, 9),
        9,
        &[three, four, first_entry(), second_entry()],
    )
}

// A fault keeps the mark and the place that it has on its own shelf, first or second.
#[test]
fn faults_keep_their_marks_and_places(rt: HostRuntime) -> Result<(), Fail> {
    let records = [
        under(&[1], 2),
        role_under(forward(0), forward(1)),
        under(&[1], 65),
    ];
    let rows = Records::new(&records, 8);
    let other = Catalogue::new(&[0, 1, 0, 6, 0, 4, 1, 0, 2, 0], 7);
    let left = Err(fault(Cause::Left, 9, 7, 1));
    let role = Err(fault(Cause::First, 0, 8, 2));
    let right = Err(fault(Cause::Second, 0, 8, 3));
    check_list(
        &rt,
        &Joined::new(rows, other, 9),
        9,
        &[first_entry(), role, right, left],
    )?;
    check_list(
        &rt,
        &Joined::new(other, rows, 9),
        9,
        &[left, first_entry(), role, right],
    )
}

// An empty shelf adds nothing on either side.
#[test]
fn an_empty_shelf_adds_nothing(rt: HostRuntime) -> Result<(), Fail> {
    let empty = Catalogue::new(&[0, 0], 6);
    let full = Catalogue::new(TWO_ENTRIES, 7);
    let both = [first_entry(), second_entry()];
    check_list(&rt, &Joined::new(empty, full, 9), 9, &both)?;
    check_list(&rt, &Joined::new(full, empty, 9), 9, &both)?;
    check_list(&rt, &Joined::new(empty, empty, 9), 9, &[])
}

// Joined shelves may have 65,535 entries together.
#[test]
fn joined_65535_entries_are_read(rt: HostRuntime) -> Result<(), Fail> {
    let many = vec![in rt.alloc(); nothing(&[1]); 40000]?;
    let more = vec![in rt.alloc(); nothing(&[2]); 25535]?;
    let first = Records::new(many.as_slice(), 7);
    let shelf = Joined::new(first, Records::new(more.as_slice(), 8), 9);
    assert_eq!(rt; shelf.count(), 65535);
    check_run(&rt, &shelf, 1, 40000, Ok(nothing(&[1])));
    check_run(&rt, &shelf, 40001, 65535, Ok(nothing(&[2])));
    check_outside(&rt, &shelf, 9, &[0]);
    Ok(())
}

// From 65,536 entries on, joined shelves are one fault under their own mark.
#[test]
fn joined_65536_entries_are_one_fault(rt: HostRuntime) -> Result<(), Fail> {
    let many = vec![in rt.alloc(); nothing(&[1]); 40000]?;
    let more = vec![in rt.alloc(); nothing(&[2]); 25536]?;
    let first = Records::new(many.as_slice(), 7);
    let shelf = Joined::new(first, Records::new(more.as_slice(), 8), 9);
    let long = [Err(fault(Cause::TooLong, 0, 9, 1))];
    check_list(&rt, &shelf, 9, &long)?;
    check_outside(&rt, &shelf, 9, &[2, 40000, 40001, 65535]);
    check_list(&rt, &Joined::new(first, first, 9), 9, &long)
}

// Joins nest on either side, with the same list.
#[test]
fn joins_nest(rt: HostRuntime) -> Result<(), Fail> {
    let a = Catalogue::new(TWO_ENTRIES, 1);
    let records = [nothing(&[3])];
    let b = Records::new(&records, 2);
    let c = Catalogue::new(&[0], 3);
    let contents = Err(fault(Cause::Contents, 0, 3, 1));
    let list = [first_entry(), second_entry(), Ok(nothing(&[3])), contents];
    check_list(&rt, &Joined::new(Joined::new(a, b, 4), c, 5), 5, &list)?;
    check_list(&rt, &Joined::new(a, Joined::new(b, c, 4), 5), 5, &list)
}

// A join that is too long is one entry of the join around it.
#[test]
fn a_nested_join_may_be_one_fault(rt: HostRuntime) -> Result<(), Fail> {
    let many = vec![in rt.alloc(); nothing(&[1]); 32768]?;
    let half = Records::new(many.as_slice(), 7);
    let shelf = Joined::new(Joined::new(half, half, 8), half, 9);
    assert_eq!(rt; shelf.count(), 32769);
    check_run(&rt, &shelf, 1, 1, Err(fault(Cause::TooLong, 0, 8, 1)));
    check_run(&rt, &shelf, 2, 32769, Ok(nothing(&[1])));
    check_outside(&rt, &shelf, 9, &[0, 32770]);
    Ok(())
}
