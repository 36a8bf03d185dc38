// The house ladder: the posts of one house, as a fixed table.
ghost use Rattle.std.specs.Prelude.{◌≡◌};
ghost use Rattle.ladders.specs.House.{house_at_least};
ghost use Rattle.ladders.specs.Laws.{house-laws};

use crate::ladder::{Ladder, MOST_POSTS};
use crate::table::stands;

// Row p has bit q where post p is at least post q.
const HOUSE: [u8; MOST_POSTS] = [1, 3, 5, 9, 29, 35, 93, 255];

#[derive(Clone, Copy)]
pub struct House;

impl Ladder for House {
    ghost posts = { λ _. 8 };

    ghost at_least = { λ _. house_at_least };

    ghost lawful = { λ l. house-laws };

    fn count(&self) -> usize {
        HOUSE.len()
    }

    fn at_least(&self, p: usize, q: usize) -> bool {
        stands(&HOUSE, p, q)
    }
}
