// A request: who asks, by post, and which conditions hold.
ghost use Rattle.std.specs.Prelude.{◌≡◌, Decides};
ghost use Rattle.rules.specs.Requests.{AtOrAbove, Includes, are_conditions, count_on, numbered_of, number_of};

use ladders::{Ladder, MOST_POSTS};

// The most conditions that there are.
pub const MOST_CONDITIONS: u8 = 9;

// The most requests that there are: those of eight posts and nine conditions, 4096.
pub const MOST_REQUESTS: usize = MOST_POSTS << MOST_CONDITIONS;

// The conditions are lettered a to i; condition a is bit 0 of the set.
#[derive(Clone, Copy, Debug, PartialEq, Eq)]
pub struct Request {
    pub post: u8,
    pub set: u16,
}

impl Request {
    // How many requests there are on a ladder and with n conditions; none with more than nine conditions.
    pub fn count_on<L: Ladder>(ladder: &L, n: u8) -> Option<usize>
        ensures { result ≡ count_on (L.posts ladder.now) n }
    {
        (n <= MOST_CONDITIONS).then(|| ladder.count() << n)
    }

    // The request of a number, with n conditions; none where n is above 9, or where no ladder, having at most eight posts, has such a request.
    pub fn numbered(n: u8, number: usize) -> Option<Request>
        ensures { result ≡ numbered_of n number }
    {
        (n <= MOST_CONDITIONS && number < MOST_POSTS << n).then(|| Request {
            post: (number >> n) as u8,
            set: (number & ((1 << n) - 1)) as u16,
        })
    }

    // The number of this request, with n conditions; none where n is above 9, or the set has a condition that is none of the n. Whether
    // the post is one of the ladder's is not asked.
    pub fn number(&self, n: u8) -> Option<usize>
        ensures { result ≡ number_of n self.now }
    {
        let Request { post, set } = *self;
        are_conditions(n, set).then(|| usize::from(post) << n | usize::from(set))
    }

    // Whether this request is at or above another.
    pub fn at_or_above<L: Ladder>(&self, ladder: &L, other: Request) -> bool
        ensures { Decides result (AtOrAbove (L.at_least ladder.now) self.now other) }
    {
        includes(self.set, other.set)
            && ladder.at_least(usize::from(self.post), usize::from(other.post))
    }
}

// Whether a set has every condition that another has.
pub(crate) fn includes(set: u16, other: u16) -> bool
    ensures { Decides result (Includes set other) }
{
    set & other == other
}

// Whether there may be n conditions, and a set has none but those.
pub(crate) fn are_conditions(n: u8, set: u16) -> bool
    ensures { result ≡ are_conditions n set }
{
    n <= MOST_CONDITIONS && set < 1 << n
}
