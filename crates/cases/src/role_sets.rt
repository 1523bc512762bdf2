// Which directed roles are members of a set, and what a set is when its roles are turned.
use crate::making::{backward, forward};
use numbers::role::DirectedRole;
use numbers::role_set::RoleSet;
use numbers::set::NumberSet;
use numbers::word_set::WordSet;
use std::process::Abort;
use std::test::Fail;

// The set of these roles. It and the next are no one function with those of terms: what they share is one call of `fold`.
fn roles(members: &[DirectedRole]) -> RoleSet {
    members
        .iter()
        .fold(RoleSet::empty(), |set, role| set.with(*role))
}

// The set of the roles 1 to 16 in both directions.
fn all_roles() -> RoleSet {
    (1..=16u8).fold(RoleSet::empty(), |set, number| {
        set.with(forward(number)).with(backward(number))
    })
}

// A role means something in both directions if its number is from 1 to 16.
#[test]
fn roles_are_1_to_16(rt: HostRuntime) {
    let cases = [
        (0, false),
        (1, true),
        (16, true),
        (17, false),
        (128, false),
        (129, false),
        (255, false),
    ];
    for (number, expected) in cases {
        assert_eq!(rt; forward(number).in_range(), expected, "{}", number);
        assert_eq!(rt; backward(number).in_range(), expected, "{}", number);
    }
}

// A turned role is the same number in the other direction, also where the number means nothing.
#[test]
fn a_turned_role_is_read_the_other_way(rt: HostRuntime) {
    for number in [0, 1, 16, 17, 255] {
        assert_eq!(rt; forward(number).turned(), backward(number));
        assert_eq!(rt; backward(number).turned(), forward(number));
        assert_eq!(rt; forward(number).turned().turned(), forward(number));
    }
}

// The set of one role has it in its own direction alone, and no member where it means nothing.
#[test]
fn a_set_of_one_role_has_that_member(rt: HostRuntime) {
    for number in 0..=255u8 {
        let ahead = RoleSet::only(forward(number));
        let back = RoleSet::only(backward(number));
        for other in 0..=255u8 {
            let expected = other == number && number >= 1 && number <= 16;
            assert_eq!(rt; ahead.contains(forward(other)), expected, "{}", other);
            assert_eq!(rt; back.contains(backward(other)), expected, "{}", other);
            assert!(rt; !ahead.contains(backward(other)), "{}", other);
            assert!(rt; !back.contains(forward(other)), "{}", other);
        }
    }
}

// Checks that no set has a role, not even the full one, and that it alone makes the empty set.
fn check_no_member(rt: &impl Abort, role: DirectedRole) -> Result<(), Fail> {
    assert_eq!(rt; RoleSet::only(role), RoleSet::empty(), "{role:?}");
    assert!(rt; !all_roles().contains(role), "{role:?}");
    Ok(())
}

// A role outside 1 to 16 is no member in either direction.
#[test]
fn a_role_out_of_range_is_no_member(rt: HostRuntime) -> Result<(), Fail> {
    for number in [0, 17, 128, 129, 255] {
        check_no_member(&rt, forward(number))?;
        check_no_member(&rt, backward(number))?;
    }
    for number in [1, 16] {
        assert!(rt; all_roles().contains(forward(number)), "{}", number);
        assert!(rt; all_roles().contains(backward(number)), "{}", number);
    }
    Ok(())
}

// A union has the roles of both sets and no other.
#[test]
fn a_role_union_has_both_members(rt: HostRuntime) {
    let union = roles(&[forward(1), backward(3)]).union(roles(&[backward(3), forward(16)]));
    for number in 0..=255u8 {
        assert_eq!(rt;
            union.contains(forward(number)),
            number == 1 || number == 16,
            "{}",
            number
        );
        assert_eq!(rt; union.contains(backward(number)), number == 3, "{}", number);
    }
    assert_eq!(rt; union, roles(&[forward(16), backward(3), forward(1)]));
    assert_eq!(rt; union.union(RoleSet::empty()), union);
}

// A set is the set of its word: forward roles by the lower half, backward ones by the upper half, and no other bit counts.
#[test]
fn a_role_set_is_its_word(rt: HostRuntime) {
    let cases = [
        (0, RoleSet::empty()),
        (1, roles(&[forward(1)])),
        (1 << 15, roles(&[forward(16)])),
        (1 << 16, roles(&[backward(1)])),
        (1 << 31 | 2, roles(&[backward(16), forward(2)])),
        (0xffff_ffff, all_roles()),
    ];
    for (word, set) in cases {
        assert_eq!(rt; RoleSet::of_word(word), set);
        assert_eq!(rt; set.word(), word);
    }
    assert_eq!(rt; RoleSet::of_word(1 << 32), RoleSet::empty());
    assert_eq!(rt; RoleSet::of_word(u64::MAX), all_roles());
}

// Checks that a set is this one when it is turned, and itself when it is turned twice.
fn check_turned(rt: &impl Abort, set: RoleSet, turned: RoleSet) -> Result<(), Fail> {
    assert_eq!(rt; set.turned(), turned, "{set:?}");
    assert_eq!(rt; set.turned().turned(), set, "{set:?}");
    Ok(())
}

// A turned set has the turned roles, and turned twice it is the set itself.
#[test]
fn a_turned_set_has_the_turned_roles(rt: HostRuntime) -> Result<(), Fail> {
    check_turned(
        &rt,
        roles(&[forward(1), backward(2), forward(16), backward(16)]),
        roles(&[backward(1), forward(2), backward(16), forward(16)]),
    )?;
    check_turned(&rt, RoleSet::empty(), RoleSet::empty())?;
    check_turned(&rt, all_roles(), all_roles())?;
    for number in 0..=17u8 {
        let ahead = RoleSet::only(forward(number));
        let back = RoleSet::only(backward(number));
        check_turned(&rt, ahead, back)?;
        check_turned(&rt, back, ahead)?;
    }
    Ok(())
}

// A set includes another if it has each role of the other in its direction, also when both are turned.
#[test]
fn a_role_set_includes_its_parts(rt: HostRuntime) {
    let both = roles(&[forward(1), backward(16)]);
    let cases = [
        (both, roles(&[backward(16)]), true),
        (both, roles(&[backward(16), forward(1)]), true),
        (both, RoleSet::empty(), true),
        (both, roles(&[forward(0), backward(17)]), true),
        (both, roles(&[forward(16)]), false),
        (both, roles(&[backward(1)]), false),
        (both, all_roles(), false),
        (all_roles(), both, true),
        (RoleSet::empty(), both, false),
    ];
    for (set, other, expected) in cases {
        assert_eq!(rt; set.includes(other), expected);
        assert_eq!(rt; set.turned().includes(other.turned()), expected);
    }
}
