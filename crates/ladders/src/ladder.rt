// A ladder: a number of posts, 1 to 8, numbered from 0, and which post is at least which.
ghost use Rattle.std.specs.Prelude.{◌≡◌, ℕ, Bool};
ghost use Rattle.ladders.specs.Ladders.{Lawful};

// The most posts that a ladder has.
pub const MOST_POSTS: usize = 8;

pub trait Ladder {
    // How many posts it has.
    ghost posts: { Self → ℕ };

    // Whether the first number is a post that is at least the second.
    ghost at_least: { Self → ℕ → ℕ → Bool };

    fn count(&self) -> usize
        ensures { result ≡ posts self.now };

    // Of any two numbers, so they are no pair of posts with a type of its own.
    fn at_least(&self, p: usize, q: usize) -> bool
        ensures { result ≡ at_least self.now p q };

    ghost lawful: { (l : Self) → Lawful (posts l) (at_least l) };
}
