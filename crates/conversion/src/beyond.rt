// Which requests have some of a set above them, or below them: told for all requests at once, by one pass over them for each condition and each
// pair of posts.
ghost use Rattle.std.specs.Prelude.{◌≡◌, ℕ, ◌<◌};
ghost use Rattle.expressiveness.specs.Order.{Above as IsAbove};
ghost use Rattle.conversion.specs.Beyond.{Condition, OverIn, Passed, Posts, Tells, upper_of};

use crate::flags::Flags;
use crate::order::Order;
use crate::side::Side;
use ladders::{Ladder, MOST_POSTS, has};

// Functions of an order ask that a number is below `total`, here and in other files: the bound is the order's, so no type of numbers can carry it.
// A number has its request's set in its lowest bits, one for each condition, and the post above them: so a step from one request to another is a step
// on their numbers.
impl Order {
    // The request with one condition more, if it lacks it.
    fn with_condition(&self, c: u8, lower: usize) -> Option<usize>
        requires { (c < self.now.conditions) × (lower < self.now.total) }
        ensures { result ≡ upper_of self.now.conditions (Condition c) lower }
    {
        (!has(lower as u16, c)).then_some(lower + (1 << c))
    }

    // The request with the upper of two posts and the same conditions, if its post is the lower one.
    fn with_post(&self, upper_post: usize, lower_post: usize, lower: usize) -> Option<usize>
        requires { (upper_post < 8) × (lower < self.now.total) }
        ensures { result ≡ upper_of self.now.conditions (Posts upper_post lower_post) lower }
    {
        let set = lower & ((1 << self.conditions) - 1);
        (lower >> self.conditions == lower_post).then_some((upper_post << self.conditions) + set)
    }

    // One pass over the requests, with a step from one to another above it: of two so linked, where the one on that side is of the set or marked, the
    // other is marked.
    fn pass<F: Fn(usize) -> Option<usize>>(
        &self,
        step: F,
        side: Side,
        members: &Flags,
        marks: &mut Flags,
    )
        requires callable { (x : ℕ) → x < self.now.total → F.pre step x }
        requires up { (x y : ℕ) → x < self.now.total → F.post step x (Some y) → IsAbove (OverIn self.now) y x }
        ensures { Passed self.now (F.post step) side members.now marks.old self.now.total marks.new }
    {
        for lower in 0..self.total {
            if let Some(upper) = step(lower) {
                let (marked, source) = side.turned(upper, lower);
                if members.has(source) || marks.has(source) {
                    marks.raise(marked);
                }
            }
        }
    }

    // Of each request whether some of a set lies on that side of it: marks are handed on in a pass for each condition, and one for each pair of posts of
    // which the upper is at least the lower.
    pub(crate) fn beyond(&self, side: Side, members: &Flags) -> Flags
        ensures { Tells self.now side members.now result }
    {
        let mut marks = Flags::none();
        for c in 0..self.conditions {
            self.pass(
                |lower| self.with_condition(c, lower),
                side,
                members,
                &mut marks,
            );
        }
        for upper_post in 0..MOST_POSTS {
            for lower_post in 0..MOST_POSTS {
                if upper_post != lower_post && self.ladder.at_least(upper_post, lower_post) {
                    self.pass(
                        |lower| self.with_post(upper_post, lower_post, lower),
                        side,
                        members,
                        &mut marks,
                    );
                }
            }
        }
        marks
    }
}
