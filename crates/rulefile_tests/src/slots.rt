// What a reading leaves in the slots, granted or refused.
use crate::support::{Answer, OLD_RULE, Shape, check_slots, read_into};
use std::process::Abort;

// A file, how many slots are lent, the answer, and the rules that then stand in the first slots.
type Case = (&'static [u8], usize, Answer, &'static [Shape]);

const A: Shape = Shape('+', 1, 0, 0, 0);

const ALL: Shape = Shape('+', 0, 0, 0, 0);

const GRANTED: [Case; 7] = [
    (b"G 1\n+ a\n", 4, Ok(('G', 1, 1)), &[A]),
    (b"G 1", 4, Ok(('G', 1, 0)), &[]),
    (b"G 1\n+ a\n+\n", 2, Ok(('G', 1, 2)), &[A, ALL]),
    (b"G 1\n+ a\n\n# x\n", 1, Ok(('G', 1, 1)), &[A]),
    (
        b"G 1\n+ a\n+\n+\n+ a",
        4,
        Ok(('G', 1, 4)),
        &[A, ALL, ALL, A],
    ),
    (b"G 1", 0, Ok(('G', 1, 0)), &[]),
    (b"G 1\n\n# x\n", 0, Ok(('G', 1, 0)), &[]),
];

// Refused with slots to spare.
const REFUSED: [Case; 10] = [
    (b"X 1\n+ a\n", 4, Err((1, 1, 0)), &[]),
    (b"G 1\nx\n+ a\n", 4, Err((2, 2, 4)), &[]),
    (b"G 1\n+ a\n+\nx", 4, Err((2, 4, 10)), &[A, ALL]),
    (b"G 1\n+ a !", 4, Err((3, 2, 9)), &[]),
    (b"G 1\n+ a\n+ z\n+ a", 4, Err((3, 3, 10)), &[A]),
    (b"G 1\n+ a\n\n# x\n+ a ", 4, Err((3, 5, 17)), &[A]),
    (b"G 1\n+ a\n+\n+ a b", 3, Err((4, 4, 14)), &[A, ALL]),
    (b"G 1\n+ a\n+ a a", 4, Err((5, 3, 12)), &[A]),
    (b"G 1\n+ a\n- a", 4, Err((6, 3, 8)), &[A]),
    (
        b"A 1\n+ a\n- a\n+ a !a",
        4,
        Err((6, 4, 16)),
        &[A, Shape('-', 1, 0, 0, 0)],
    ),
];

// All slots are taken.
const TAKEN: [Case; 19] = [
    (b"G 1\n+ a", 0, Err((7, 2, 4)), &[]),
    (b"G 1\n+x", 0, Err((7, 2, 4)), &[]),
    (b"A 1\n-", 0, Err((7, 2, 4)), &[]),
    (b"G 1\n\n# x\n+ a", 0, Err((7, 4, 9)), &[]),
    (b"G 1\nx", 0, Err((2, 2, 4)), &[]),
    (b"G 1\n-", 0, Err((6, 2, 4)), &[]),
    (b"x 1\n+ a", 0, Err((1, 1, 0)), &[]),
    (b"G 1\n+ a\n+ a", 1, Err((7, 3, 8)), &[A]),
    (b"G 1\n+ a\n\n# x\n+\n", 1, Err((7, 5, 13)), &[A]),
    (b"G 1\n+ a\n+\n+ a\nx", 2, Err((7, 4, 10)), &[A, ALL]),
    (b"G 1\n+ a\nx", 1, Err((2, 3, 8)), &[A]),
    (b"G 1\n+ a\n- a", 1, Err((6, 3, 8)), &[A]),
    (b"G 1\n+ a\n+z", 1, Err((7, 3, 8)), &[A]),
    (b"G 1\n+ a\n+ z", 1, Err((7, 3, 8)), &[A]),
    (b"G 1\n+ a\n+ b", 1, Err((7, 3, 8)), &[A]),
    (b"G 1\n+ a\n+ a a", 1, Err((7, 3, 8)), &[A]),
    (b"A 1\n+ a\n+ !a", 1, Err((7, 3, 8)), &[A]),
    (b"A 1\n+ a\n-x", 1, Err((7, 3, 8)), &[A]),
    (b"G 1\n+ z\n+ a\n+ a", 1, Err((3, 2, 6)), &[]),
];

// The slots that are not lent are looked at too.
fn check_left(rt: &impl Abort, cases: &[Case]) {
    for case in cases {
        let (file, room, due, rules) = *case;
        let mut slots = [OLD_RULE; 4];
        let found = read_into(8, room, file, &mut slots);
        assert_eq!(rt; found, due, "file {file:?}");
        check_slots(rt, file, &slots, rules);
    }
}

#[test]
fn rules_left_in_the_slots(rt: HostRuntime) {
    check_left(&rt, &GRANTED);
    check_left(&rt, &REFUSED);
    check_left(&rt, &TAKEN);
}
