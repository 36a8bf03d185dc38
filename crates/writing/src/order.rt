// The items of a rule in the order in which they are written.
ghost use Rattle.std.specs.Prelude.{◌≡◌, ◌%◌, ◌^◌, MatchOption, bit_or};
ghost use Rattle.std.specs.Iterator.{YieldsFirst, item_count};
ghost use Rattle.rulefile.specs.Items.{item};
ghost use Rattle.writing.specs.Written.{floor_item, written_items};
ghost use Rattle.writing.specs.Steps.{Lowest, items_left};

use ladders::has;
use rulefile::{Item, Name};
use rules::{MOST_CONDITIONS, Rule};

// The conditions that have a letter.
pub(crate) const LETTERED: u16 = (1 << MOST_CONDITIONS) - 1;

// An item by its parts. The flag is that of `Item`: both kinds have a name.
fn item(barred: bool, name: Name) -> Item
    ensures { result ≡ item barred name }
{
    Item { barred, name }
}

fn floor_item(rule: &Rule) -> Option<Item>
    ensures { result ≡ floor_item rule.now }
{
    (rule.floor != 0).then_some(item(false, Name::Post(rule.floor)))
}

// The conditions that are written, plain or with a `!`.
pub(crate) fn named_conditions(rule: &Rule) -> u16
    ensures { result ≡ bit_or rule.now.needed rule.now.barred % 2 ^ 9 }
{
    (rule.needed | rule.barred) & LETTERED
}

// Takes the lowest member out of a set.
fn take_lowest(set: &mut u16) -> Option<u8>
    ensures { MatchOption result ((set.old ≡ 0) × (set.new ≡ 0)) (Lowest set.old set.new) }
{
    let whole = *set;
    if whole == 0 {
        return None;
    }
    // one less has the same members above the lowest, and not the lowest; those that it has below, the set has not
    *set = whole & (whole - 1);
    Some(whole.trailing_zeros() as u8)
}

// The items that are still to come: the floor post, then barred posts by rising number, then conditions by letter. Posts and conditions are sets,
// out of which the lowest member is taken, so that no number is looked at that gives no item.
#[derive(Drop)]
pub(crate) struct Items {
    floor: Option<Item>,
    barred_posts: u16,
    conditions: u16,
    // the conditions that are written plain, each other one with a `!`
    needed: u16,
}

impl Items {
    pub(crate) fn of(rule: &Rule) -> Items
        ensures { items_left result ≡ written_items rule.now }
    {
        Items {
            floor: floor_item(rule),
            barred_posts: u16::from(rule.barred_posts),
            conditions: named_conditions(rule),
            needed: rule.needed,
        }
    }
}

impl Iterator for Items {
    type Item = Item;

    ghost next_gives = { YieldsFirst items_left };

    ghost remaining = { item_count items_left };

    fn next(&mut self) -> Option<Item> {
        if let Some(item) = self.floor.take() {
            return Some(item);
        }
        if let Some(p) = take_lowest(&mut self.barred_posts) {
            return Some(item(true, Name::Post(p)));
        }
        let c = take_lowest(&mut self.conditions)?;
        Some(item(!has(self.needed, c), Name::Condition(c)))
    }
}
