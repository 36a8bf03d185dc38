// Whole inputs: how many rules and how many bytes are read.
use crate::support::{OLD_BYTE, OLD_RULE, Shape, answer, check_slots, check_text, front};
use ladders::House;
use report::tidy;
use rulefile::read;
use rules::{MOST_REQUESTS, Rule};
use std::alloc::{AllocError, Global};
use std::process::Abort;
use std::test::Fail;

const A: Shape = Shape('+', 1, 0, 0, 0);

// What a whole input is answered: the text; or a number and the figures.
type Told = Result<&'static [u8], (u8, &'static [u128])>;

// Tidies the input with room for so many bytes; the bytes after the text, and all of them after a refusal, stay.
fn check_tidy(
    rt: &impl Abort,
    input: &[u8],
    slots: &mut [Rule],
    room: usize,
    due: Told,
) -> Result<(), Fail> {
    let mut text = [OLD_BYTE; 64];
    match (tidy(input, slots, front(&mut text, room)), due) {
        (Ok(count), Ok(bytes)) => {
            assert_eq!(rt; count, bytes.len(), "input {input:?}");
            check_text(rt, &text, bytes);
            Ok(())
        }
        (Err(refusal), Err(told)) => {
            let figures = refusal.figures();
            assert_eq!(rt;
                (refusal.number(), figures.as_slice()),
                told,
                "input {input:?}"
            );
            check_text(rt, &text, &[]);
            Ok(())
        }
        _ => Err(Fail::new("granted in place of refused, or refused in place of granted")),
    }
}

// A list of so many rules.
fn many_rules(heap: Global, count: usize) -> Result<Vec<u8>, AllocError> {
    let mut file = Vec::new(heap);
    file.extend_from_slice(b"G 1\n")?;
    for _ in 0..count {
        file.extend_from_slice(b"+ a\n")?;
    }
    Ok(file)
}

fn check_all(rt: &impl Abort, slots: &[Rule], due: Rule) {
    for slot in slots {
        assert_eq!(rt; *slot, due);
    }
}

#[test]
fn most_rules(rt: HostRuntime) -> Result<(), Fail> {
    let heap = rt.alloc();
    let cases = [
        (4095, Ok(('G', 1, 4095))),
        (4096, Ok(('G', 1, 4096))),
        (4097, Err((7, 4098, 16388))),
        (5000, Err((7, 4098, 16388))),
    ];
    for (count, due) in cases {
        let file = many_rules(heap, count)?;
        let mut slots = vec![in heap; OLD_RULE; MOST_REQUESTS]?;
        assert_eq!(rt; answer(read(&file, &House, &mut slots)), due);
        let taken = count.min(MOST_REQUESTS);
        assert!(rt; slots.len() == MOST_REQUESTS);
        check_all(&rt, &slots[..taken], A.into());
        check_all(&rt, &slots[taken..], OLD_RULE);
    }
    let mut slots = vec![in heap; OLD_RULE; MOST_REQUESTS]?;
    let file = many_rules(heap, 4096)?;
    let mut text = vec![in heap; OLD_BYTE; 16388]?;
    match tidy(&file, &mut slots, &mut text) {
        Ok(count) => assert_eq!(rt; count, 16388),
        Err(_) => return Err(Fail::new("4,096 rules are refused")),
    }
    assert!(rt; text.as_slice() == file.as_slice());
    check_tidy(&rt, &file, &mut slots, 64, Err((8, &[16388])))?;
    let file = many_rules(heap, 4097)?;
    check_tidy(&rt, &file, &mut slots, 64, Err((7, &[4098, 16388])))
}

// How an input begins, the byte that fills it, its length but for the last byte, and the last byte; then the answer, and the rules
// in the first slots.
type Case = (&'static [u8], u8, usize, u8, Told, &'static [Shape]);

const LONG: [Case; 9] = [
    (b"G 1\n+ a\n#", b'x', 32766, b'x', Ok(b"G 1\n+ a\n"), &[A]),
    (b"G 1\n+ a\n#", b'x', 32767, b'x', Ok(b"G 1\n+ a\n"), &[A]),
    (b"G 1\n+ a\n#", b'x', 32768, b'x', Err((10, &[])), &[]),
    (b"G 1\n+ a\n", b'\n', 32767, b'\n', Ok(b"G 1\n+ a\n"), &[A]),
    (
        b"G 1\n+ a\n",
        b'\n',
        32767,
        b'+',
        Ok(b"G 1\n+ a\n+\n"),
        &[A, Shape('+', 0, 0, 0, 0)],
    ),
    (
        b"G 1\n+ a\n",
        b'\n',
        32767,
        b'x',
        Err((2, &[32762, 32767])),
        &[A],
    ),
    (b"G 1\n+ a\n", b'\n', 32768, b'\n', Err((10, &[])), &[]),
    (b"x", b'x', 32767, b'x', Err((1, &[1, 0])), &[]),
    (b"x", b'x', 40000, b'x', Err((10, &[])), &[]),
];

#[test]
fn longest_input(rt: HostRuntime) -> Result<(), Fail> {
    for (start, fill, len, last, due, rules) in LONG {
        let mut input = Vec::new(rt.alloc());
        input.extend_from_slice(start)?;
        input.resize(len, fill)?;
        input.push(last)?;
        let mut slots = [OLD_RULE; 4];
        check_tidy(&rt, &input, &mut slots, 64, due)?;
        check_slots(&rt, start, &slots, rules);
    }
    Ok(())
}

// An input, how many slots and how many bytes are lent, and the answer.
const SHORT: [(&[u8], usize, usize, Told); 19] = [
    (b"", 4, 64, Err((1, &[1, 0]))),
    (b"\n", 4, 64, Err((1, &[1, 0]))),
    (b"G 1", 4, 64, Ok(b"G 1\n")),
    (b"G 1\n", 4, 64, Ok(b"G 1\n")),
    (b"G 1\n\n", 0, 64, Ok(b"G 1\n")),
    (b"G 1\n\n+ a", 4, 64, Ok(b"G 1\n+ a\n")),
    (b"D 9\n- 7 i\n#\n", 4, 64, Ok(b"D 9\n- 7 i\n")),
    (b"C 2\n- b 0 a\n+ 0", 4, 64, Ok(b"C 2\n- a b\n+\n")),
    (
        b"G 3\n+ !c b !a !6 3 !5",
        4,
        64,
        Ok(b"G 3\n+ 3 !5 !6 !a b !c\n"),
    ),
    (b"G 1\n# x\n+ 0 !a", 4, 9, Ok(b"G 1\n+ !a\n")),
    (b"G 1\n# x\n+ 0 !a", 4, 8, Err((8, &[9]))),
    (b"G 1", 4, 3, Err((8, &[4]))),
    (b"G 1\n#\nx", 4, 64, Err((2, &[3, 6]))),
    (b"G 1\n+ ", 4, 64, Err((3, &[2, 6]))),
    (b"G 1\n+ 7 b", 4, 0, Err((4, &[2, 8]))),
    (b"G 1\n+ 3 !3", 4, 64, Err((5, &[2, 9]))),
    (b"A 1\n+ !7", 4, 64, Err((6, &[2, 6]))),
    (b"G 1\n+", 0, 64, Err((7, &[2, 4]))),
    (b"G 1\n+ a\n+ a\n+ x", 2, 64, Err((7, &[4, 12]))),
];

#[test]
fn short_inputs(rt: HostRuntime) -> Result<(), Fail> {
    for (input, slots, room, due) in SHORT {
        assert!(rt; slots <= 4);
        let mut held = [OLD_RULE; 4];
        check_tidy(&rt, input, &mut held[..slots], room, due)?;
    }
    Ok(())
}
