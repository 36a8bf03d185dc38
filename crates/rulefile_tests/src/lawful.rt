// Lawful files, and the rules that they give.
use crate::support::{OLD_RULE, Shape, check_slots, read_on};
use std::process::Abort;

// A file, the posts of the ladder, the letter and the number of conditions, and the rules.
type Case = (&'static [u8], usize, (char, u8), &'static [Shape]);

const TWO: &[Shape] = &[Shape('+', 1, 2, 0, 0), Shape('+', 2, 4, 0, 0)];

// Line ends, empty lines and comments.
const LAYOUTS: [Case; 12] = [
    (b"G 3\n+ a !b\n+ b !c\n", 8, ('G', 3), TWO),
    (b"G 3\n+ a !b\n+ b !c", 8, ('G', 3), TWO),
    (b"G 3\n# two rules\n+ a !b\n# or\n+ b !c", 8, ('G', 3), TWO),
    (b"G 3\n\n\n+ a !b\n#\n\n+ b !c\n\n\n", 8, ('G', 3), TWO),
    (b"G 3\n##\n#+ a\n+ a !b\n+ b !c\n#", 8, ('G', 3), TWO),
    (
        b"G 3\n#\0\t\r\x80\xff\n+ a !b\n+ b !c\n# x\r",
        8,
        ('G', 3),
        TWO,
    ),
    (
        b"G 3\n# + a !z -\n+ b !c",
        8,
        ('G', 3),
        &[Shape('+', 2, 4, 0, 0)],
    ),
    (b"G 0", 8, ('G', 0), &[]),
    (b"G 9\n", 8, ('G', 9), &[]),
    (b"C 2\n\n", 8, ('C', 2), &[]),
    (b"D 2\n# x", 1, ('D', 2), &[]),
    (b"B 5\n\n\n#\n", 8, ('B', 5), &[]),
];

// The items of a rule, in any order.
const ITEMS: [Case; 20] = [
    (b"G 0\n+", 8, ('G', 0), &[Shape('+', 0, 0, 0, 0)]),
    (b"G 0\n+ 0", 8, ('G', 0), &[Shape('+', 0, 0, 0, 0)]),
    (b"G 0\n+ !0", 8, ('G', 0), &[Shape('+', 0, 0, 0, 1)]),
    (b"G 0\n+ 7", 8, ('G', 0), &[Shape('+', 0, 0, 7, 0)]),
    (b"G 0\n+ !7", 8, ('G', 0), &[Shape('+', 0, 0, 0, 128)]),
    (b"G 0\n+ 0 !1", 8, ('G', 0), &[Shape('+', 0, 0, 0, 2)]),
    (b"G 0\n+ 3 !6 !5", 8, ('G', 0), &[Shape('+', 0, 0, 3, 96)]),
    (b"G 0\n+ !5 !6 3", 8, ('G', 0), &[Shape('+', 0, 0, 3, 96)]),
    (b"G 2\n+ 4 a !b", 8, ('G', 2), &[Shape('+', 1, 2, 4, 0)]),
    (b"G 2\n+ 3 !6 a !b", 8, ('G', 2), &[Shape('+', 1, 2, 3, 64)]),
    (b"G 2\n+ !b a !6 3", 8, ('G', 2), &[Shape('+', 1, 2, 3, 64)]),
    (b"G 2\n+ a 3 !b !6", 8, ('G', 2), &[Shape('+', 1, 2, 3, 64)]),
    (
        b"G 2\n+ !6 !b 3 a\n",
        8,
        ('G', 2),
        &[Shape('+', 1, 2, 3, 64)],
    ),
    (
        b"G 9\n+ a b c d e f g h i",
        8,
        ('G', 9),
        &[Shape('+', 511, 0, 0, 0)],
    ),
    (
        b"G 9\n+ !i !h !g !f !e !d !c !b !a",
        8,
        ('G', 9),
        &[Shape('+', 0, 511, 0, 0)],
    ),
    (
        b"G 9\n+ a !b c !d 7 e !f !0 g !h i",
        8,
        ('G', 9),
        &[Shape('+', 341, 170, 7, 1)],
    ),
    (
        b"G 0\n+ !0 !1 !2 !3 !4 !5 !6 !7",
        8,
        ('G', 0),
        &[Shape('+', 0, 0, 0, 255)],
    ),
    (b"G 1\n+ a 0", 1, ('G', 1), &[Shape('+', 1, 0, 0, 0)]),
    (b"G 1\n+ 1 !0", 2, ('G', 1), &[Shape('+', 0, 0, 1, 1)]),
    (b"G 0\n+ !5 6", 7, ('G', 0), &[Shape('+', 0, 0, 6, 32)]),
];

// Lists of the models.
const MODELS: [Case; 7] = [
    (
        b"A 0\n+ 4\n- 6",
        8,
        ('A', 0),
        &[Shape('+', 0, 0, 4, 0), Shape('-', 0, 0, 6, 0)],
    ),
    (b"A 1\n-", 8, ('A', 1), &[Shape('-', 0, 0, 0, 0)]),
    (
        b"B 1\n- a\n+ 6\n",
        8,
        ('B', 1),
        &[Shape('-', 1, 0, 0, 0), Shape('+', 0, 0, 6, 0)],
    ),
    (
        b"C 2\n-\n+ b a",
        8,
        ('C', 2),
        &[Shape('-', 0, 0, 0, 0), Shape('+', 3, 0, 0, 0)],
    ),
    (b"C 2\n#\n- b 1", 2, ('C', 2), &[Shape('-', 2, 0, 1, 0)]),
    (
        b"D 9\n- i 7\n\n- 7 i",
        8,
        ('D', 9),
        &[Shape('-', 256, 0, 7, 0), Shape('-', 256, 0, 7, 0)],
    ),
    (
        b"D 9\n- i h g f e d c b a 0",
        8,
        ('D', 9),
        &[Shape('-', 511, 0, 0, 0)],
    ),
];

fn check_lawful(rt: &impl Abort, cases: &[Case]) {
    for (file, posts, head, rules) in cases {
        let mut slots = [OLD_RULE; 4];
        let found = read_on(*posts, file, &mut slots);
        assert_eq!(rt; found, Ok((head.0, head.1, rules.len())), "file {file:?}");
        check_slots(rt, file, &slots, rules);
    }
}

#[test]
fn rules_of_lawful_files(rt: HostRuntime) {
    check_lawful(&rt, &LAYOUTS);
    check_lawful(&rt, &ITEMS);
    check_lawful(&rt, &MODELS);
}
