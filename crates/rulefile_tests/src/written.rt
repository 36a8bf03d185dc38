// Lists as they are written, and what cannot be written.
use crate::support::{OLD_BYTE, OLD_RULE, Shape, check_slots, check_text, front, read_on};
use ladders::{House, LadderRows, Rank};
use rules::{Letter, Model, Rule};
use std::process::Abort;
use writing::{Unwritten, write};

const A: Letter = Letter::Model(Model::A);

const B: Letter = Letter::Model(Model::B);

const C: Letter = Letter::Model(Model::C);

const D: Letter = Letter::Model(Model::D);

const G: Letter = Letter::Guarded;

// How long the longest text here is, and some bytes more.
const ROOM: usize = 80;

// The letter, the conditions and the posts that a list is written with. Eight posts are the house ladder, fewer a rank ladder, of which that of two stands by its rows.
type With = (Letter, u8, usize);

// Writes into the first bytes only.
fn write_into(
    with: With,
    rules: &[Rule],
    room: usize,
    text: &mut [u8],
) -> Result<usize, Unwritten> {
    let (letter, n, posts) = with;
    let text = front(text, room);
    match posts {
        8 => write(letter, n, &House, rules, text),
        2 => write(letter, n, &LadderRows::of(&Rank::new(2)), rules, text),
        _ => write(letter, n, &Rank::new(posts), rules, text),
    }
}

// One rule, and the text of the list of that rule.
type Line = (With, Shape, &'static [u8]);

const LINES: [Line; 15] = [
    ((G, 0, 1), Shape('+', 0, 0, 0, 0), b"G 0\n+\n"),
    ((G, 0, 1), Shape('+', 0, 0, 0, 1), b"G 0\n+ !0\n"),
    ((G, 0, 8), Shape('+', 0, 0, 7, 0), b"G 0\n+ 7\n"),
    ((G, 0, 8), Shape('+', 0, 0, 7, 1), b"G 0\n+ 7 !0\n"),
    ((G, 0, 8), Shape('+', 0, 0, 0, 128), b"G 0\n+ !7\n"),
    ((G, 0, 8), Shape('+', 0, 0, 3, 96), b"G 0\n+ 3 !5 !6\n"),
    ((G, 2, 8), Shape('+', 1, 2, 4, 0), b"G 2\n+ 4 a !b\n"),
    (
        (G, 3, 8),
        Shape('+', 2, 5, 3, 96),
        b"G 3\n+ 3 !5 !6 !a b !c\n",
    ),
    ((G, 9, 2), Shape('+', 256, 0, 1, 1), b"G 9\n+ 1 !0 i\n"),
    (
        (G, 9, 8),
        Shape('+', 341, 170, 3, 247),
        b"G 9\n+ 3 !0 !1 !2 !4 !5 !6 !7 a !b c !d e !f g !h i\n",
    ),
    (
        (A, 9, 8),
        Shape('+', 511, 0, 7, 0),
        b"A 9\n+ 7 a b c d e f g h i\n",
    ),
    ((A, 1, 1), Shape('-', 0, 0, 0, 0), b"A 1\n-\n"),
    ((B, 1, 8), Shape('-', 1, 0, 6, 0), b"B 1\n- 6 a\n"),
    ((C, 3, 3), Shape('+', 5, 0, 2, 0), b"C 3\n+ 2 a c\n"),
    ((D, 2, 4), Shape('-', 2, 0, 3, 0), b"D 2\n- 3 b\n"),
];

// The list of one rule is written as due, with no more room than it has bytes, and not with less.
fn check_line(rt: &impl Abort, line: Line) {
    let (with, shape, due) = line;
    let len = due.len();
    assert!(rt; 1 <= len);
    let rules = [shape.into()];
    let mut text = [OLD_BYTE; ROOM];
    assert_eq!(rt;
        write_into(with, &rules, len, &mut text),
        Ok(len),
        "{due:?}"
    );
    check_text(rt, &text, due);
    let mut less = [OLD_BYTE; ROOM];
    let short = write_into(with, &rules, len - 1, &mut less);
    assert_eq!(rt; short, Err(Unwritten::NoRoom(len as u128)), "{due:?}");
    check_text(rt, &less, &[]);
}

// Each text is the one due, and is read as the rule again.
#[test]
fn lines_of_rules(rt: HostRuntime) {
    for line in LINES {
        let ((letter, n, posts), shape, text) = line;
        check_line(&rt, line);
        let mut slots = [OLD_RULE; 2];
        let found = read_on(posts, text, &mut slots);
        assert_eq!(rt; found, Ok((letter.symbol(), n, 1)));
        check_slots(&rt, text, &slots, &[shape]);
    }
}

// A rule that no line gives.
const UNSAID: [(With, Shape); 19] = [
    ((G, 2, 8), Shape('+', 4, 0, 0, 0)),
    ((G, 2, 8), Shape('+', 0, 4, 0, 0)),
    ((G, 9, 8), Shape('+', 512, 0, 0, 0)),
    ((G, 9, 8), Shape('+', 0, 32768, 0, 0)),
    ((G, 0, 8), Shape('+', 1, 0, 0, 0)),
    ((G, 2, 8), Shape('+', 0, 0, 8, 0)),
    ((G, 2, 3), Shape('+', 0, 0, 3, 0)),
    ((G, 2, 8), Shape('+', 0, 0, 255, 0)),
    ((G, 2, 3), Shape('+', 0, 0, 0, 8)),
    ((G, 2, 7), Shape('+', 0, 0, 0, 128)),
    ((G, 2, 8), Shape('+', 3, 2, 0, 0)),
    ((G, 2, 8), Shape('+', 0, 0, 3, 8)),
    ((G, 2, 8), Shape('+', 0, 0, 7, 255)),
    ((G, 2, 8), Shape('-', 0, 0, 0, 0)),
    ((A, 2, 8), Shape('+', 0, 1, 0, 0)),
    ((B, 2, 8), Shape('-', 0, 0, 0, 1)),
    ((C, 2, 8), Shape('+', 0, 0, 0, 128)),
    ((D, 2, 8), Shape('-', 0, 2, 0, 0)),
    ((D, 2, 8), Shape('-', 4, 0, 0, 0)),
];

// The first such slot is told, before any want of room, and no byte is written.
#[test]
fn rules_that_no_line_gives(rt: HostRuntime) {
    for (with, shape) in UNSAID {
        let said = Rule::from(Shape('+', 0, 0, 0, 0));
        let unsaid = Rule::from(shape);
        for room in [0, ROOM] {
            let mut text = [OLD_BYTE; ROOM];
            let rules = [said, unsaid, unsaid];
            let found = write_into(with, &rules, room, &mut text);
            assert_eq!(rt; found, Err(Unwritten::NoLine(1)), "{shape:?}");
            check_text(&rt, &text, &[]);
        }
    }
}

// Lists without rules: the first line alone, or a refusal.
#[test]
fn heads(rt: HostRuntime) {
    for (letter, symbol) in [(G, b'G'), (A, b'A'), (B, b'B'), (C, b'C'), (D, b'D')] {
        for n in 0..10 {
            let mut text = [OLD_BYTE; 6];
            assert_eq!(rt; write_into((letter, n, 1), &[], 6, &mut text), Ok(4));
            check_text(&rt, &text, &[symbol, b' ', b'0' + n, b'\n']);
        }
        for n in [10, 11, 64, 255] {
            let mut text = [OLD_BYTE; 6];
            let found = write_into((letter, n, 1), &[], 6, &mut text);
            assert_eq!(rt; found, Err(Unwritten::NoLine(0)));
            check_text(&rt, &text, &[]);
        }
    }
}

#[test]
fn numbers_and_figures(rt: HostRuntime) {
    assert_eq!(rt; Unwritten::NoLine(7).number(), 9);
    assert_eq!(rt; Unwritten::NoLine(7).figure(), 7);
    assert_eq!(rt; Unwritten::NoRoom(52228).number(), 8);
    assert_eq!(rt; Unwritten::NoRoom(52228).figure(), 52228);
}
