// A rule permits or denies the requests that it applies to.
ghost use Rattle.std.specs.Prelude.{◌≡◌, Decides};
ghost use Rattle.rules.specs.Models.{opposite};
ghost use Rattle.rules.specs.Rules.{Applies, Clear, bars_nothing, floor_of};

use crate::request::{Request, are_conditions, includes};
use ladders::{Ladder, MOST_POSTS, has};
use std::ops::Not;

#[derive(Clone, Copy, Debug, PartialEq, Eq)]
pub enum Effect {
    Permit,
    Deny,
}

// The other effect.
impl Not for Effect {
    type Output = Effect;

    ghost not_gives = { λ e r. r ≡ opposite e };

    fn not(self) -> Effect {
        match self {
            Effect::Permit => Effect::Deny,
            Effect::Deny => Effect::Permit,
        }
    }
}

// The sets have condition c, or post p, as bit c or p.
#[derive(Clone, Copy, Debug, PartialEq, Eq)]
pub struct Rule {
    pub effect: Effect,
    pub needed: u16,
    pub barred: u16,
    pub floor: u8,
    pub barred_posts: u8,
}

impl Rule {
    // Whether the rule applies to a request.
    pub fn applies<L: Ladder>(&self, ladder: &L, request: Request) -> bool
        ensures { Decides result (Applies (L.at_least ladder.now) self.now request) }
    {
        request.set & self.barred == 0
            && includes(request.set, self.needed)
            && ladder.at_least(usize::from(request.post), usize::from(self.floor))
            && self.clears(ladder, usize::from(request.post))
    }

    // Whether a post is at least no barred post.
    fn clears<L: Ladder>(&self, ladder: &L, post: usize) -> bool
        ensures { Decides result (Clear (L.at_least ladder.now) post self.now.barred_posts) }
    {
        !(0..MOST_POSTS)
            .filter(|p| has(u16::from(self.barred_posts), *p as u8))
            .any(|p| ladder.at_least(post, p))
    }

    // Whether it bars no condition and no post.
    pub fn bars_nothing(&self) -> bool
        ensures { result ≡ bars_nothing self.now }
    {
        self.barred == 0 && self.barred_posts == 0
    }

    // The floor of a rule that bars nothing: the request of its floor post and its needed set.
    pub fn floor_of<L: Ladder>(&self, ladder: &L, n: u8) -> Option<Request>
        ensures { result ≡ floor_of (L.posts ladder.now) n self.now }
    {
        let is_floor = self.bars_nothing()
            && usize::from(self.floor) < ladder.count()
            && are_conditions(n, self.needed);
        is_floor.then_some(Request {
            post: self.floor,
            set: self.needed,
        })
    }
}
