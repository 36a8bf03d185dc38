// What the tests have in common: answers and rules as plain values, so that the tables stay short.
use ladders::{House, LadderRows, Rank};
use lines::Place;
use rulefile::{FileFault, Listing, read};
use rules::{Effect, Rule};
use std::fmt::Debug;
use std::process::Abort;

// What a reading answers: the letter, the number of conditions and the number of rules; or the number of a fault, its line and its
// offset.
pub type Answer = Result<(char, u8, usize), (u8, usize, usize)>;

// A rule: its mark, the conditions needed and barred, the floor post and the barred posts.
#[derive(Clone, Copy, Debug, PartialEq, Eq)]
pub struct Shape(pub char, pub u16, pub u16, pub u8, pub u8);

impl From<Shape> for Rule {
    fn from(shape: Shape) -> Rule {
        let Shape(mark, needed, barred, floor, barred_posts) = shape;
        let effect = match mark {
            '+' => Effect::Permit,
            _ => Effect::Deny,
        };
        Rule {
            effect,
            needed,
            barred,
            floor,
            barred_posts,
        }
    }
}

// What each slot holds before a reading. No line gives it.
pub const OLD_RULE: Rule = Rule {
    effect: Effect::Deny,
    needed: 65535,
    barred: 65535,
    floor: 255,
    barred_posts: 255,
};

// What each byte of a text holds before a writing. No text has it.
pub const OLD_BYTE: u8 = b'?';

// A function, since a `Result` of another crate's types takes no `From` here.
pub(crate) fn answer(read: Result<Listing, FileFault>) -> Answer {
    read.map(|list| (list.letter.symbol(), list.conditions, list.rules))
        .map_err(|fault| {
            let Place { line, offset } = fault.place();
            (fault.number(), line, offset)
        })
}

// Reads on a ladder of so many posts: of eight the house ladder, of two a rank ladder by its rows, else a rank ladder. The three are types of their own, so
// they are told apart here, and where lists are written.
pub(crate) fn read_on(posts: usize, file: &[u8], slots: &mut [Rule]) -> Answer {
    answer(match posts {
        8 => read(file, &House, slots),
        2 => read(file, &LadderRows::of(&Rank::new(2)), slots),
        _ => read(file, &Rank::new(posts), slots),
    })
}

// The first of the slots or bytes, so many as may be lent, or all that there are.
pub(crate) fn front<T>(all: &mut [T], room: usize) -> &mut [T] {
    let lent = room.min(all.len());
    &mut all[..lent]
}

// Reads into the first slots only.
pub(crate) fn read_into(posts: usize, room: usize, file: &[u8], slots: &mut [Rule]) -> Answer {
    read_on(posts, file, front(slots, room))
}

// These values stand at the front, and what follows them is as it was. `what` tells of which case that is.
fn check_front<T: Copy + Debug + PartialEq, S: Copy + Into<T>>(
    rt: &impl Abort,
    what: &[u8],
    found: &[T],
    front: &[S],
    old: T,
) {
    assert!(rt; front.len() <= found.len());
    let (first, others) = found.split_at(front.len());
    for (i, (value, due)) in first.iter().zip(front).enumerate() {
        let due: T = (*due).into();
        assert_eq!(rt; *value, due, "of {what:?}, at {i}");
    }
    for value in others {
        assert_eq!(rt; *value, old, "of {what:?}, after the front");
    }
}

// The rules of a file stand in the first slots, and the other slots hold what they held.
pub(crate) fn check_slots(rt: &impl Abort, file: &[u8], slots: &[Rule], rules: &[Shape]) {
    check_front(rt, file, slots, rules, OLD_RULE);
}

// The bytes stand at the front of the text, and the other bytes hold what they held.
pub(crate) fn check_text(rt: &impl Abort, text: &[u8], bytes: &[u8]) {
    check_front(rt, bytes, text, bytes, OLD_BYTE);
}
