// The requests of a ladder and some conditions, in their order.
ghost use Rattle.std.specs.Prelude.{◌≡◌, ◌≤◌};
ghost use Rattle.ladders.specs.Rows.{row_posts};
ghost use Rattle.rules.specs.Requests.{request_total};

use ladders::LadderRows;

// The ladder is kept as a copy of its rows.
#[derive(Clone, Copy)]
pub(crate) struct Order {
    pub(crate) ladder: LadderRows,
    pub(crate) conditions: u8,
    pub(crate) total: usize,
    ghost few: { conditions ≤ 9 },
    ghost most: { total ≤ 4096 },
    ghost whole: { total ≡ request_total (row_posts ladder.rows) conditions },
}
