// A rule while its line is read.
ghost use Rattle.std.specs.Prelude.{◌≡◌};
ghost use Rattle.rulefile.specs.Items.{Known};
ghost use Rattle.rulefile.specs.Steps.{fresh, repeats, with_item, finished};

use crate::grammar::{Item, Name};
use ladders::has;
use rules::{Effect, Rule};

// What the items so far give. The floor post is told from none, since `0` may be named.
#[derive(Clone, Copy)]
pub(crate) struct Draft {
    pub(crate) effect: Effect,
    pub(crate) needed: u16,
    pub(crate) barred: u16,
    pub(crate) floor: Option<u8>,
    pub(crate) barred_posts: u8,
}

impl Draft {
    pub(crate) fn new(effect: Effect) -> Draft
        ensures { result ≡ fresh effect }
    {
        Draft {
            effect,
            needed: 0,
            barred: 0,
            floor: None,
            barred_posts: 0,
        }
    }

    // Whether the item names what was named before, or is a second plain digit.
    pub(crate) fn repeats(self, item: Item) -> bool
        requires { Known item.name }
        ensures { result ≡ repeats self item }
    {
        match item.name {
            Name::Condition(c) => has(self.needed, c) || has(self.barred, c),
            Name::Post(p) => {
                self.floor.is_some_and(|floor| !item.barred || floor == p)
                    || has(u16::from(self.barred_posts), p)
            }
        }
    }

    // One item more.
    pub(crate) fn add(&mut self, item: Item)
        requires { Known item.name }
        ensures { self.new ≡ with_item self.old item }
    {
        match (item.name, item.barred) {
            (Name::Condition(c), true) => self.barred |= 1 << c,
            (Name::Condition(c), false) => self.needed |= 1 << c,
            (Name::Post(p), true) => self.barred_posts |= 1 << p,
            (Name::Post(p), false) => self.floor = Some(p),
        }
    }
}

impl From<Draft> for Rule {
    ghost from_gives = { λ draft rule. rule ≡ finished draft };

    fn from(draft: Draft) -> Rule {
        Rule {
            effect: draft.effect,
            needed: draft.needed,
            barred: draft.barred,
            floor: draft.floor.unwrap_or(0),
            barred_posts: draft.barred_posts,
        }
    }
}
