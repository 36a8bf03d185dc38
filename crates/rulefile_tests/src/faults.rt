// Faults: which number, at which line and offset.
use crate::support::{OLD_RULE, read_on};
use std::process::Abort;

// A file, the posts of the ladder, and the line and the offset of its fault.
type Case = (&'static [u8], usize, usize, usize);

fn check_faults(rt: &impl Abort, number: u8, cases: &[Case]) {
    for (file, posts, line, offset) in cases {
        let mut slots = [OLD_RULE; 4];
        let found = read_on(*posts, file, &mut slots);
        assert_eq!(rt; found, Err((number, *line, *offset)), "file {file:?}");
    }
}

// The first line is wrong or missing.
const HEADS: [&[u8]; 34] = [
    b"",
    b"\n",
    b"\n\n",
    b"\nG 1",
    b"G",
    b"G ",
    b"G \n1",
    b"G1",
    b"G1\n",
    b"G 1 ",
    b"G 10",
    b"G  1",
    b" G 1",
    b"G 1\r\n",
    b"G\t1",
    b"G\r1",
    b"G\x001",
    b"G /",
    b"G :",
    b"G a",
    b"G -1",
    b"F 1",
    b"E 1",
    b"@ 1",
    b"g 1",
    b"1 G",
    b"+ a",
    b"#",
    b"# list\nG 1",
    b"\0 1",
    b"\t 1",
    b"\r 1",
    b"\x80 1",
    b"\xff 1",
];

// The first byte of a line is no mark.
const NO_MARK: [Case; 20] = [
    (b"G 1\n   ", 8, 2, 4),
    (b"G 1\n +", 8, 2, 4),
    (b"G 1\na", 8, 2, 4),
    (b"G 1\n1", 8, 2, 4),
    (b"G 1\nG 1", 8, 2, 4),
    (b"G 1\n!a", 8, 2, 4),
    (b"A 1\n!a", 8, 2, 4),
    (b"G 1\n\"", 8, 2, 4),
    (b"G 1\n$", 8, 2, 4),
    (b"G 1\n* a", 8, 2, 4),
    (b"G 1\n, a", 8, 2, 4),
    (b"G 1\n. a", 8, 2, 4),
    (b"G 1\n\0", 8, 2, 4),
    (b"G 1\n\t", 8, 2, 4),
    (b"G 1\n\r\n+ a", 8, 2, 4),
    (b"G 1\n\x80", 8, 2, 4),
    (b"G 1\n\xff\n", 8, 2, 4),
    (b"G 1\n\n x", 8, 3, 5),
    (b"G 1\n\n# x\n+ a\n 1", 8, 5, 13),
    (b"A 1\n- a\n+ a\n#\n\nx\n", 8, 6, 15),
];

// A space, a `!` or a name was due: the line ends, or a wrong byte stands there.
const NOT_DUE: [Case; 46] = [
    (b"G 1\n+ ", 8, 2, 6),
    (b"G 1\n+ \n+ a", 8, 2, 6),
    (b"G 1\n+ a ", 8, 2, 8),
    (b"G 1\n+ a \n+ a", 8, 2, 8),
    (b"G 1\n+ !", 8, 2, 7),
    (b"G 1\n+ !\n+ a", 8, 2, 7),
    (b"G 1\n+  a", 8, 2, 6),
    (b"G 1\n+ ! a", 8, 2, 7),
    (b"G 1\n+a", 8, 2, 5),
    (b"G 1\n+!a", 8, 2, 5),
    (b"A 1\n+!a", 8, 2, 5),
    (b"G 1\n++", 8, 2, 5),
    (b"G 1\n+#", 8, 2, 5),
    (b"G 1\n+ #", 8, 2, 6),
    (b"G 1\n+ a# note", 8, 2, 7),
    (b"G 1\n+ a!", 8, 2, 7),
    (b"G 2\n+ ab", 8, 2, 7),
    (b"G 1\n+ a1", 8, 2, 7),
    (b"G 1\n+ -", 8, 2, 6),
    (b"A 1\n- +", 8, 2, 6),
    (b"G 9\n+ j", 8, 2, 6),
    (b"G 9\n+ z", 8, 2, 6),
    (b"G 1\n+ A", 8, 2, 6),
    (b"G 1\n+ `", 8, 2, 6),
    (b"G 1\n+ /", 8, 2, 6),
    (b"G 1\n+ 8", 8, 2, 6),
    (b"G 1\n+ 9", 8, 2, 6),
    (b"G 1\n+ !z", 8, 2, 7),
    (b"G 1\n+ !9", 8, 2, 7),
    (b"G 1\n+ !!a", 8, 2, 7),
    (b"G 1\n+\0", 8, 2, 5),
    (b"G 1\n+\ta", 8, 2, 5),
    (b"G 1\n+\r\n", 8, 2, 5),
    (b"G 1\n+\x80", 8, 2, 5),
    (b"G 1\n+\xff", 8, 2, 5),
    (b"G 1\n+ \0", 8, 2, 6),
    (b"G 1\n+ \ta", 8, 2, 6),
    (b"G 1\n+ \r\n", 8, 2, 6),
    (b"G 1\n+ \x80", 8, 2, 6),
    (b"G 1\n+ \xff", 8, 2, 6),
    (b"G 1\n+ !\0", 8, 2, 7),
    (b"G 1\n+ !\r\n", 8, 2, 7),
    (b"G 1\n+ !\xff", 8, 2, 7),
    (b"G 1\n+ a\r\n", 8, 2, 7),
    (b"G 1\n# x\n\n+ a\n+ 3 !a \n", 8, 5, 20),
    (b"D 1\n- a\n- x", 8, 3, 10),
];

// A letter that is no condition, or a digit that is no post.
const OUT_OF_RANGE: [Case; 17] = [
    (b"G 2\n+ a !c", 8, 2, 9),
    (b"G 0\n+ a", 8, 2, 6),
    (b"G 8\n+ i", 8, 2, 6),
    (b"G 8\n+ !i", 8, 2, 7),
    (b"A 1\n- b", 8, 2, 6),
    (b"G 1\n+ b b", 8, 2, 6),
    (b"G 1\n+ bx", 8, 2, 6),
    (b"G 1\n+ 0 a b!", 0, 2, 10),
    (b"G 1\n+ 1", 0, 2, 6),
    (b"G 1\n+ 1", 1, 2, 6),
    (b"G 1\n+ 2", 2, 2, 6),
    (b"G 1\n+ !2", 2, 2, 7),
    (b"G 1\n+ 7", 2, 2, 6),
    (b"G 1\n+ 7", 7, 2, 6),
    (b"G 1\n+ 1 7", 2, 2, 8),
    (b"G 1\n+ 2 2", 2, 2, 6),
    (b"G 2\n+ a\n+ b 1 !c\n", 2, 3, 15),
];

// A name that the line has had before, or a second plain digit.
const REPEATED: [Case; 17] = [
    (b"G 1\n+ a a", 8, 2, 8),
    (b"G 1\n+ a a\n", 8, 2, 8),
    (b"G 1\n+ a !a", 8, 2, 9),
    (b"G 1\n+ !a a", 8, 2, 9),
    (b"G 1\n+ !a !a", 8, 2, 10),
    (b"G 1\n+ 3 3", 8, 2, 8),
    (b"G 1\n+ 3 !3", 8, 2, 9),
    (b"G 1\n+ !3 3", 8, 2, 9),
    (b"G 1\n+ !3 !3", 8, 2, 10),
    (b"G 1\n+ 0 3", 8, 2, 8),
    (b"G 1\n+ 0 !0", 8, 2, 9),
    (b"G 1\n+ 3 !6 5", 8, 2, 11),
    (b"G 1\n+ 1 0", 2, 2, 8),
    (b"G 1\n+ a 0 !a", 1, 2, 11),
    (b"G 1\n+ a aa", 8, 2, 8),
    (b"A 2\n- b a b", 8, 2, 10),
    (b"G 2\n+ a\n+ a b !a z", 8, 3, 15),
];

// A `-` in a guarded list, or a `!` in a list of a model.
const NOT_ALLOWED: [Case; 14] = [
    (b"G 1\n-", 8, 2, 4),
    (b"G 1\n- a", 8, 2, 4),
    (b"G 1\n-x", 8, 2, 4),
    (b"G 1\n- !z", 8, 2, 4),
    (b"A 1\n+ !", 8, 2, 6),
    (b"A 1\n+ !z", 8, 2, 6),
    (b"A 1\n+ !!", 8, 2, 6),
    (b"A 1\n+ !b", 8, 2, 6),
    (b"B 1\n- !a", 8, 2, 6),
    (b"C 1\n+ a !a", 8, 2, 8),
    (b"D 1\n+ !9", 8, 2, 6),
    (b"A 0\n+ !0", 8, 2, 6),
    (b"G 1\n+ a\n- a", 8, 3, 8),
    (b"B 1\n- a\n+ 1 !", 8, 3, 12),
];

// Four slots are taken, and another rule comes.
const NO_SLOT: [Case; 7] = [
    (b"G 1\n+\n+\n+\n+\n+", 8, 6, 12),
    (b"G 1\n+\n+\n+\n+\n+\n", 8, 6, 12),
    (b"G 1\n+\n+\n+\n+\n+ a a", 8, 6, 12),
    (b"G 1\n+ a\n+\n+\n+\n+ x", 8, 6, 14),
    (b"G 1\n+\n+\n\n+\n# x\n+\n#\n+", 8, 9, 19),
    (b"A 0\n-\n-\n+\n-\n-", 8, 6, 12),
    (b"A 0\n-\n-\n+\n-\n+\nx", 8, 6, 12),
];

#[test]
fn head(rt: HostRuntime) {
    for file in HEADS {
        check_faults(&rt, 1, &[(file, 8, 1, 0)]);
    }
}

#[test]
fn marks_and_names(rt: HostRuntime) {
    check_faults(&rt, 2, &NO_MARK);
    check_faults(&rt, 3, &NOT_DUE);
    check_faults(&rt, 4, &OUT_OF_RANGE);
}

#[test]
fn repeats_signs_and_slots(rt: HostRuntime) {
    check_faults(&rt, 5, &REPEATED);
    check_faults(&rt, 6, &NOT_ALLOWED);
    check_faults(&rt, 7, &NO_SLOT);
}
