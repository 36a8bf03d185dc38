// The rank ladder: a post with a higher number is at least one with a lower.
ghost use Rattle.std.specs.Prelude.{◌≡◌, ◌≤◌};
ghost use Rattle.ladders.specs.Rank.{rank_posts, rank_at_least};
ghost use Rattle.ladders.specs.Laws.{rank-laws};

use crate::ladder::{Ladder, MOST_POSTS};

#[derive(Clone, Copy)]
pub struct Rank {
    posts: usize,
    ghost few: { (1 ≤ posts) × (posts ≤ 8) },
}

impl Rank {
    // A rank ladder of so many posts; 0 counts as 1, and more than 8 as 8.
    pub fn new(posts: usize) -> Rank
        ensures { result.posts ≡ rank_posts posts }
    {
        Rank {
            posts: posts.clamp(1, MOST_POSTS),
        }
    }
}

impl Ladder for Rank {
    ghost posts = { λ l. l.posts };

    ghost at_least = { λ l. rank_at_least l.posts };

    ghost lawful = { λ l. rank-laws l.posts l.few };

    fn count(&self) -> usize {
        self.posts
    }

    fn at_least(&self, p: usize, q: usize) -> bool {
        p < self.posts && q <= p
    }
}
