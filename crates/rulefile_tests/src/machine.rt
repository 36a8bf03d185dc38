// A second reader, apart from the first: a machine that takes the whole file byte by byte, and knows of no lines.
use crate::support::{Answer, OLD_RULE};
use rules::{Effect, Rule};

// The most slots that the machine has.
pub const SLOTS: usize = 4;

// What is due next.
#[derive(Clone, Copy)]
enum Due {
    Letter,
    Space,
    Figure,
    HeadEnd,
    Mark,
    Comment,
    Item,
    Name,
    BarredName,
}

// What stands at a byte in place of what is due.
#[derive(Clone, Copy)]
enum Fault {
    WrongHead,
    NoMark,
    NotDue,
    OutOfRange,
    Repeated,
    NotAllowed,
    NoSlot,
}

impl Fault {
    fn number(self) -> u8 {
        match self {
            Fault::WrongHead => 1,
            Fault::NoMark => 2,
            Fault::NotDue => 3,
            Fault::OutOfRange => 4,
            Fault::Repeated => 5,
            Fault::NotAllowed => 6,
            Fault::NoSlot => 7,
        }
    }
}

// What a name is of.
#[derive(Clone, Copy)]
enum Name {
    Condition(u8),
    Post(u8),
}

#[derive(Clone, Copy)]
struct Machine {
    due: Due,
    letter: char,
    conditions: u8,
    posts: usize,
    room: usize,
    // the rule of this line but for its floor post, the names that it has had, by their bytes, and the floor post if one was named
    rule: Rule,
    had: [bool; 256],
    floor: Option<u8>,
    // how many slots are taken; the slots after them are looked at too, so they are kept with what they held
    count: usize,
    slots: [Rule; SLOTS],
}

// The machine answers itself as it is after the byte, or the fault that stands there.
type Taken = Result<Machine, Fault>;

impl Machine {
    fn new(posts: usize, room: usize) -> Machine {
        Machine {
            due: Due::Letter,
            letter: '\0',
            conditions: 0,
            posts,
            room,
            rule: OLD_RULE,
            had: [false; 256],
            floor: None,
            count: 0,
            slots: [OLD_RULE; SLOTS],
        }
    }

    // Something else is due next.
    fn until(self, due: Due) -> Machine {
        Machine { due, ..self }
    }

    // A byte of line 1, by what is due.
    fn take_head(self, b: u8) -> Taken {
        match (self.due, b as char) {
            (Due::Letter, 'A'..='D' | 'G') => Ok(Machine {
                due: Due::Space,
                letter: b as char,
                ..self
            }),
            (Due::Space, ' ') => Ok(self.until(Due::Figure)),
            (Due::Figure, '0'..='9') => Ok(Machine {
                due: Due::HeadEnd,
                conditions: b.wrapping_sub(b'0'),
                ..self
            }),
            (Due::HeadEnd, '\n') => Ok(self.until(Due::Mark)),
            _ => Err(Fault::WrongHead),
        }
    }

    // The first byte of a later line.
    fn take_mark(self, b: u8) -> Taken {
        let effect = match b as char {
            '\n' => return Ok(self),
            '#' => return Ok(self.until(Due::Comment)),
            '+' => Effect::Permit,
            '-' if self.letter == 'G' => return Err(Fault::NotAllowed),
            '-' => Effect::Deny,
            _ => return Err(Fault::NoMark),
        };
        if self.count >= self.room {
            return Err(Fault::NoSlot);
        }
        Ok(Machine {
            due: Due::Item,
            rule: Rule {
                effect,
                needed: 0,
                barred: 0,
                floor: 0,
                barred_posts: 0,
            },
            had: [false; 256],
            floor: None,
            ..self
        })
    }

    // The line ends, and its rule takes a slot.
    fn keep_rule(self) -> Machine {
        let mut next = self.until(Due::Mark);
        if let Some(slot) = next.slots.get_mut(self.count) {
            *slot = Rule {
                floor: self.floor.unwrap_or(0),
                ..self.rule
            };
            next.count = self.count.saturating_add(1);
        }
        next
    }

    // A name, plain or barred. Either way it is the same name.
    fn take_name(self, b: u8, barred: bool) -> Taken {
        let name = match b as char {
            'a'..='i' => Name::Condition(b.wrapping_sub(b'a')),
            '0'..='7' => Name::Post(b.wrapping_sub(b'0')),
            _ => return Err(Fault::NotDue),
        };
        let exists = match name {
            Name::Condition(c) => c < self.conditions,
            Name::Post(p) => usize::from(p) < self.posts,
        };
        if !exists {
            return Err(Fault::OutOfRange);
        }
        let second = matches!(name, Name::Post(_)) && !barred && self.floor.is_some();
        if self.had[usize::from(b)] || second {
            return Err(Fault::Repeated);
        }
        let mut next = self.until(Due::Item);
        next.had[usize::from(b)] = true;
        match (name, barred) {
            (Name::Post(p), true) => next.rule.barred_posts |= 1u8.wrapping_shl(u32::from(p)),
            (Name::Post(p), false) => next.floor = Some(p),
            (Name::Condition(c), true) => next.rule.barred |= 1u16.wrapping_shl(u32::from(c)),
            (Name::Condition(c), false) => next.rule.needed |= 1u16.wrapping_shl(u32::from(c)),
        }
        Ok(next)
    }

    // The next byte, by what is due. A machine of states is no switch to be got rid of here: the reader has none, and the two are compared.
    fn take(self, b: u8) -> Taken {
        match (self.due, b as char) {
            (Due::Letter | Due::Space | Due::Figure | Due::HeadEnd, _) => self.take_head(b),
            (Due::Mark, _) => self.take_mark(b),
            (Due::Comment, '\n') => Ok(self.until(Due::Mark)),
            (Due::Comment, _) => Ok(self),
            (Due::Item, '\n') => Ok(self.keep_rule()),
            (Due::Item, ' ') => Ok(self.until(Due::Name)),
            (Due::Item, _) => Err(Fault::NotDue),
            (Due::Name, '!') if self.letter != 'G' => Err(Fault::NotAllowed),
            (Due::Name, '!') => Ok(self.until(Due::BarredName)),
            (Due::Name, _) => self.take_name(b, false),
            (Due::BarredName, _) => self.take_name(b, true),
        }
    }
}

// The line that a byte stands in.
pub(crate) fn line_at(file: &[u8], offset: usize) -> usize {
    let ends = file.iter().take(offset).filter(|b| **b == b'\n').count();
    ends.saturating_add(1)
}

// The answer, and what the slots then hold. A byte 10 after the last one changes nothing, or ends the last line.
pub(crate) fn run(posts: usize, room: usize, file: &[u8]) -> (Answer, [Rule; SLOTS]) {
    let mut m = Machine::new(posts, room);
    for (offset, b) in file.iter().chain(b"\n").enumerate() {
        let slots = m.slots;
        match m.take(*b) {
            Ok(next) => m = next,
            Err(Fault::WrongHead) => return (Err((1, 1, 0)), slots),
            Err(fault) => {
                let refused = (fault.number(), line_at(file, offset), offset);
                return (Err(refused), slots);
            }
        }
    }
    let slots = m.slots;
    (Ok((m.letter, m.conditions, m.count)), slots)
}
