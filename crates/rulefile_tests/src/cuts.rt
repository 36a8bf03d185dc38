// Files of several lines, cut at every byte.
use crate::machine::{SLOTS, line_at, run};
use crate::support::{Answer, OLD_RULE, read_on};

// A file, what its first k bytes give, by hand, its letter and number of conditions, and what the whole file gives. The sign for
// k = 0 stands first. A digit is the number of rules of a list, `h` says that line 1 is at fault, `?` that a name is missing at the
// end, and `x` that the fault of the whole file has been met.
type Case = (&'static [u8], &'static [u8], (char, u8), Answer);

const CUTS: [Case; 7] = [
    (
        b"G 3\n# no # +\n\n+ 3 !6 a !b\n+\n+ !0 !1 2\n#\n+ c b a\n\n",
        b"hhh0000000000001?1??1?1??11223??3??3?33334?4?4?444",
        ('G', 3),
        Ok(('G', 3, 4)),
    ),
    (
        b"B 2\n- a\n\n+ 6 b\n# x\n-\n+ 0",
        b"hhh001?1112?2?222222334?4",
        ('B', 2),
        Ok(('B', 2, 4)),
    ),
    (b"G 1\n\n+\n x", b"hhh00011xx", ('G', 1), Err((2, 4, 7))),
    (
        b"G 1\n+ a\n+ 0 !b a\n+ a",
        b"hhh001?112?2??xxxxxxx",
        ('G', 1),
        Err((4, 3, 13)),
    ),
    (
        b"G 1\n+ 2 !1 3\n+",
        b"hhh001?1??1?xxx",
        ('G', 1),
        Err((5, 2, 11)),
    ),
    (
        b"C 1\n# a\n- a 1\n+ a !a\n",
        b"hhh0000001?1?112?2?xxx",
        ('C', 1),
        Err((6, 4, 18)),
    ),
    (
        b"G 0\n+\n+\n+\n+\n+ 1",
        b"hhh0011223344xxx",
        ('G', 0),
        Err((7, 6, 12)),
    ),
];

// What a sign says of the first k bytes.
fn meant(sign: u8, k: usize, case: Case) -> Answer {
    let (file, _, (letter, conditions), whole) = case;
    match sign as char {
        'h' => Err((1, 1, 0)),
        '?' => Err((3, line_at(file, k), k)),
        'x' => whole,
        _ => Ok((letter, conditions, usize::from(sign.wrapping_sub(b'0')))),
    }
}

#[test]
fn cut_at_every_byte(rt: HostRuntime) {
    for case in CUTS {
        let (file, signs, _, _) = case;
        assert_eq!(rt; signs.len(), file.len().saturating_add(1));
        for (k, sign) in signs.iter().enumerate() {
            assert!(rt; k <= file.len());
            let cut = &file[..k];
            let mut slots = [OLD_RULE; SLOTS];
            let found = read_on(8, cut, &mut slots);
            assert_eq!(rt; found, meant(*sign, k, case), "file {cut:?}");
            assert_eq!(rt; (found, slots), run(8, SLOTS, cut), "file {cut:?}");
        }
    }
}
