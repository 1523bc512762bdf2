// Which terms are members of a set, and how sets include and join one another.
use crate::making::{all_terms, terms};
use numbers::set::NumberSet;
use numbers::term::Term;
use numbers::term_set::TermSet;
use numbers::word_set::WordSet;
use std::alloc::{AllocError, Global};
use std::test::Fail;

// A term means something if its number is from 1 to 64.
#[test]
fn terms_are_1_to_64(rt: HostRuntime) {
    let cases = [
        (0, false),
        (1, true),
        (2, true),
        (63, true),
        (64, true),
        (65, false),
        (255, false),
    ];
    for (number, expected) in cases {
        assert_eq!(rt; Term(number).in_range(), expected, "{}", number);
    }
}

// The set of one term has that term alone, and no member where the number means nothing.
#[test]
fn a_set_of_one_term_has_that_member(rt: HostRuntime) {
    for number in 0..=255u8 {
        let set = TermSet::only(Term(number));
        for other in 0..=255u8 {
            let expected = other == number && number >= 1 && number <= 64;
            assert_eq!(rt; set.contains(Term(other)), expected, "{}", other);
        }
    }
}

// A term outside 1 to 64 makes the empty set, and is in no set, not even in the full one.
#[test]
fn a_term_out_of_range_is_no_member(rt: HostRuntime) {
    for number in [0, 65, 128, 255] {
        assert_eq!(rt; TermSet::only(Term(number)), TermSet::empty(), "{}", number);
        assert!(rt; !all_terms().contains(Term(number)), "{}", number);
    }
    for number in [1, 2, 63, 64] {
        assert_ne!(rt; TermSet::only(Term(number)), TermSet::empty(), "{}", number);
        assert!(rt; all_terms().contains(Term(number)), "{}", number);
    }
}

// The numbers of a set's terms, as they come.
fn numbers_of(heap: Global, set: TermSet) -> Result<Vec<u8>, AllocError> {
    set.terms().map(|term| term.0).collect(heap)
}

// The terms of a set come rising, each once, and none comes that means nothing.
#[test]
fn the_terms_of_a_set_rise(rt: HostRuntime) -> Result<(), Fail> {
    let cases: [(&[u8], &[u8]); 5] = [
        (&[], &[]),
        (&[0, 65, 255], &[]),
        (&[1], &[1]),
        (&[64, 1, 33, 64, 32], &[1, 32, 33, 64]),
        (&[63, 64], &[63, 64]),
    ];
    for (numbers, expected) in cases {
        let came = numbers_of(rt.alloc(), terms(numbers))?;
        assert_eq!(rt; came.as_slice(), expected);
    }
    let all = numbers_of(rt.alloc(), all_terms())?;
    let expected: Vec<u8> = (1..=64u8).collect(rt.alloc())?;
    assert_eq!(rt; all.as_slice(), expected.as_slice());
    Ok(())
}

// A set is the set of its word, the term 1 by the lowest bit.
#[test]
fn a_term_set_is_its_word(rt: HostRuntime) {
    let cases: [(u64, &[u8]); 5] = [
        (0, &[]),
        (1, &[1]),
        (6, &[2, 3]),
        (1 << 63, &[64]),
        (1 << 31 | 1 << 32, &[32, 33]),
    ];
    for (word, numbers) in cases {
        assert_eq!(rt; TermSet::of_word(word), terms(numbers), "{numbers:?}");
        assert_eq!(rt; terms(numbers).word(), word, "{numbers:?}");
    }
    assert_eq!(rt; TermSet::of_word(u64::MAX), all_terms());
}

// A set includes another if each member of the other is one of its own.
#[test]
fn a_term_set_includes_its_parts(rt: HostRuntime) {
    let cases: [(&[u8], &[u8], bool); 10] = [
        (&[1, 64], &[1], true),
        (&[1, 64], &[64], true),
        (&[1, 64], &[64, 1], true),
        (&[1], &[1, 64], false),
        (&[1, 2], &[2, 3], false),
        (&[63], &[64], false),
        (&[1], &[], true),
        (&[], &[], true),
        (&[], &[64], false),
        (&[], &[0, 65], true),
    ];
    for (set, other, expected) in cases {
        let included = terms(set).includes(terms(other));
        assert_eq!(rt; included, expected, "{set:?} {other:?}");
    }
    assert!(rt; all_terms().includes(terms(&[1, 32, 33, 64])));
    assert!(rt; !terms(&[1, 32, 33, 64]).includes(all_terms()));
}

// A union has the members of both sets and no other.
#[test]
fn a_term_union_has_both_members(rt: HostRuntime) {
    let union = terms(&[1, 5]).union(terms(&[5, 64]));
    for number in 0..=255u8 {
        let expected = number == 1 || number == 5 || number == 64;
        assert_eq!(rt; union.contains(Term(number)), expected, "{}", number);
    }
    assert_eq!(rt; union, terms(&[64, 5, 1]));
    assert_eq!(rt; union.union(union), union);
    assert_eq!(rt; union.union(TermSet::empty()), union);
    assert_eq!(rt; union.union(TermSet::only(Term(65))), union);
    assert_eq!(rt; union.union(all_terms()), all_terms());
}
