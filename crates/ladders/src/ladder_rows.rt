// A ladder by its rows, held by value.
ghost use Rattle.std.specs.Prelude.{◌≡◌, ℕ};
ghost use Rattle.ladders.specs.Ladders.{Lawful};
ghost use Rattle.ladders.specs.Rows.{row_posts, rows_at_least};

use crate::ladder::{Ladder, MOST_POSTS};
use crate::table::{rows, stands};

// Row p is the set of the posts that post p is at least; the rows of numbers that are no posts are empty.
#[derive(Clone, Copy)]
pub struct LadderRows {
    rows: [u8; MOST_POSTS],
    ghost lawful: { Lawful (row_posts rows) (rows_at_least rows) },
}

impl LadderRows {
    // The rows of a ladder, which answer as that ladder does.
    pub fn of<L: Ladder>(ladder: &L) -> LadderRows
        ensures posts { row_posts result.rows ≡ L.posts ladder.now }
        ensures same { (p q : ℕ) → rows_at_least result.rows p q ≡ L.at_least ladder.now p q }
    {
        LadderRows { rows: rows(ladder) }
    }
}

impl Ladder for LadderRows {
    ghost posts = { λ l. row_posts l.rows };

    ghost at_least = { λ l. rows_at_least l.rows };

    ghost lawful = { λ l. l.lawful };

    fn count(&self) -> usize {
        (0..MOST_POSTS)
            .map(|p| usize::from(self.at_least(p, p)))
            .sum()
    }

    fn at_least(&self, p: usize, q: usize) -> bool {
        stands(&self.rows, p, q)
    }
}
