// The bodies that a catalogue hands out, with the left list as it stands in the bytes.
use crate::making::{
    TWO_ENTRIES, backward, catalogue_bytes, fault, forward, only, role_under, under,
};
use catalogue::reader::{Body, Catalogue};
use numbers::term::Term;
use shelf::fault::{ByteFault, Cause, ShelfFault};
use shelf::form::Form;
use std::process::Abort;
use std::test::Fail;

// Checks the three parts of a body that was handed out.
fn check_parts(rt: &impl Abort, body: Body, place: u16, start: u16, form: Form<&[u8]>) {
    assert_eq!(rt; body.place, place);
    assert_eq!(rt; body.start, start);
    assert_eq!(rt; body.form, form);
}

// A body has its place, the byte where it starts, and its form.
#[test]
fn a_body_has_its_place_and_start(rt: HostRuntime) -> Result<(), Fail> {
    let shelf = Catalogue::new(TWO_ENTRIES, 7);
    let first = shelf.body(1)?;
    let term = Term(2);
    let left = [1].as_slice();
    check_parts(&rt, first, 1, 10, Form::Under { left, term });
    assert_eq!(rt; first.axiom(), Ok(under(&[1], 2)));
    let second = shelf.body(2)?;
    let [lower, upper] = [forward(1), backward(2)];
    check_parts(&rt, second, 2, 14, Form::RoleUnder { lower, upper });
    assert_eq!(rt; second.axiom(), Ok(role_under(lower, upper)));
    Ok(())
}

// The form of the kind 4 with this left list, the role 16 read backward, and the term 64.
fn only_form(left: &[u8]) -> Form<&[u8]> {
    Form::Only {
        left,
        role: backward(16),
        term: Term(64),
    }
}

// A left list that rises is handed out as it stands, and is the set of the axiom.
#[test]
fn a_body_has_its_left_bytes(rt: HostRuntime) -> Result<(), Fail> {
    let bytes = catalogue_bytes(rt.alloc(), &[&[2, 0, 0], &[4, 144, 64, 3, 5, 64]])?;
    let body = Catalogue::new(bytes.as_slice(), 7).body(2)?;
    check_parts(&rt, body, 2, 13, only_form(&[3, 5, 64]));
    assert_eq!(rt; body.axiom(), Ok(only(&[3, 5, 64], backward(16), 64)));
    Ok(())
}

// A left list that is wrong is handed out as it stands too, and only the axiom is refused.
#[test]
fn a_body_has_its_wrong_left_bytes(rt: HostRuntime) -> Result<(), Fail> {
    let bytes = catalogue_bytes(rt.alloc(), &[&[2, 0, 0], &[4, 144, 64, 5, 3, 65]])?;
    let body = Catalogue::new(bytes.as_slice(), 7).body(2)?;
    check_parts(&rt, body, 2, 13, only_form(&[5, 3, 65]));
    let cause = Cause::Left;
    assert_eq!(rt; body.axiom(), Err(ByteFault { cause, byte: 17 }));
    Ok(())
}

// What is wrong with the body at a place of these bytes, if anything is.
fn body_fault(bytes: &[u8], place: u16) -> Option<ShelfFault> {
    Catalogue::new(bytes, 7).body(place).err()
}

// A place with no body, and a body with a wrong line, kind or field, is refused as the entry is.
#[test]
fn a_faulty_body_is_refused(rt: HostRuntime) -> Result<(), Fail> {
    let made = catalogue_bytes(rt.alloc(), &[&[7, 0, 0], &[1, 1, 1], &[1, 0, 0], &[1, 0]])?;
    let bytes = made.as_slice();
    assert_eq!(rt; body_fault(bytes, 0), Some(fault(Cause::Outside, 0, 7, 0)));
    assert_eq!(rt; body_fault(bytes, 1), Some(fault(Cause::Kind, 18, 7, 1)));
    assert_eq!(rt; body_fault(bytes, 2), Some(fault(Cause::First, 22, 7, 2)));
    assert_eq!(rt; body_fault(bytes, 3), Some(fault(Cause::Second, 26, 7, 3)));
    assert_eq!(rt; body_fault(bytes, 4), Some(fault(Cause::Line, 14, 7, 4)));
    assert_eq!(rt; body_fault(bytes, 5), Some(fault(Cause::Outside, 0, 7, 5)));
    assert_eq!(rt;
        body_fault(&[0, 1], 1),
        Some(fault(Cause::Contents, 0, 7, 1))
    );
    assert_eq!(rt;
        body_fault(&[0, 1], 2),
        Some(fault(Cause::Outside, 0, 7, 2))
    );
    Ok(())
}
