// Comparing the requests of an order by their numbers.
ghost use Rattle.std.specs.Prelude.{◌≡◌, ◌<◌, Decides, MatchOption};
ghost use Rattle.rules.specs.Requests.{request_at};
ghost use Rattle.conversion.specs.Beyond.{Beyond, IsOrder, OverIn};

use crate::order::Order;
use crate::side::Side;
use ladders::{Ladder, LadderRows};
use rules::Request;

impl Order {
    // The requests of a ladder and so many conditions; none with more than nine conditions.
    pub(crate) fn of<L: Ladder>(ladder: &L, conditions: u8) -> Option<Order>
        ensures { MatchOption result (9 < conditions) (IsOrder (L.posts ladder.now) (L.at_least ladder.now) conditions) }
    {
        let total = Request::count_on(ladder, conditions)?;
        Some(Order {
            ladder: LadderRows::of(ladder),
            conditions,
            total,
        })
    }

    // The request of a number.
    pub(crate) fn request(&self, number: usize) -> Request
        requires { number < self.now.total }
        ensures { result ≡ request_at self.now.conditions number }
    {
        Request::numbered(self.conditions, number).unwrap()
    }

    // Whether a request is at or above another, by their numbers.
    fn is_over(&self, upper: usize, lower: usize) -> bool
        requires { (upper < self.now.total) × (lower < self.now.total) }
        ensures { Decides result (OverIn self.now upper lower) }
    {
        let lower = self.request(lower);
        self.request(upper).at_or_above(&self.ladder, lower)
    }

    // Whether request y lies on that side of request x.
    pub(crate) fn is_beyond(&self, side: Side, x: usize, y: usize) -> bool
        requires { (x < self.now.total) × (y < self.now.total) }
        ensures { Decides result (Beyond self.now side x y) }
    {
        let (upper, lower) = side.turned(x, y);
        upper != lower && self.is_over(upper, lower)
    }
}
