// The rows of any ladder, filled once: row p is the set of the posts that post p is at least.
ghost use Rattle.std.specs.Prelude.{◌≡◌, ℕ, ◌<◌};
ghost use Rattle.ladders.specs.Sets.{holds};
ghost use Rattle.ladders.specs.Rows.{IsRows, rows_at_least};

use crate::ladder::{Ladder, MOST_POSTS};
use crate::members::has;
use std::array;

// The row of one post.
fn row<L: Ladder>(ladder: &L, p: usize) -> u8
    ensures { (q : ℕ) → q < 8 → holds result q ≡ L.at_least ladder.now p q }
{
    (0..MOST_POSTS).fold(0, |row, q| {
        if ladder.at_least(p, q) {
            row | 1 << q
        } else {
            row
        }
    })
}

pub fn rows<L: Ladder>(ladder: &L) -> [u8; MOST_POSTS]
    ensures { IsRows (L.at_least ladder.now) result }
{
    array::from_fn(|p| row(ladder, p))
}

// Whether post q stands in the row of post p; no number from 8 on stands in any row, or has one.
pub(crate) fn stands(rows: &[u8; MOST_POSTS], p: usize, q: usize) -> bool
    ensures { result ≡ rows_at_least rows.now p q }
{
    p < MOST_POSTS && q < MOST_POSTS && has(u16::from(rows[p]), q as u8)
}
