// The text of one rule: how long it is, and writing it.
ghost use Rattle.std.specs.Prelude.{◌≡◌, ◌+◌, [], ◌∷◌, ◌++◌, length};
ghost use Rattle.std.specs.List.{flat_map};
ghost use Rattle.std.specs.Option.{option_to_list};
ghost use Rattle.rulefile.specs.Items.{Known, byte_of, spelled, mark_of};
ghost use Rattle.writing.specs.Written.{floor_item, post_item, condition_item, rising, line_of};
ghost use Rattle.writing.specs.Steps.{HasRoom, Named, Puts};

use crate::order::{Items, LETTERED, named_conditions};
use crate::pen::Pen;
use rulefile::{Item, Name};
use rules::{Effect, Rule};

// How many bytes an item has that is written plain, and one with a `!`. So a line is measured by how many members the rule's sets have, and none of its
// items is made.
const PLAIN: u32 = 2;

const BARRED: u32 = 3;

// How many bytes the floor post has in a line, written plain.
fn floor_len(rule: &Rule) -> u32
    ensures { result ≡ length (flat_map spelled (option_to_list (floor_item rule.now))) }
{
    if rule.floor == 0 { 0 } else { PLAIN }
}

// How many bytes the barred posts have in a line.
fn posts_len(rule: &Rule) -> u32
    ensures { result ≡ length (flat_map spelled (rising (post_item rule.now) 8)) }
{
    BARRED * rule.barred_posts.count_ones()
}

// How many bytes the conditions have in a line: one that is needed is written plain, even where it is barred too.
fn conditions_len(rule: &Rule) -> u32
    ensures { result ≡ length (flat_map spelled (rising (condition_item rule.now) 9)) }
{
    let plain = rule.needed & LETTERED;
    BARRED * named_conditions(rule).count_ones() - (BARRED - PLAIN) * plain.count_ones()
}

// How many bytes the line of a rule has, with its byte 10.
pub(crate) fn line_len(rule: &Rule) -> u32
    ensures { result ≡ length (line_of rule.now) + 1 }
{
    2 + floor_len(rule) + posts_len(rule) + conditions_len(rule)
}

// The letter or digit of a name. A function, since `Name` is another crate's, and so is `u8`: no `From` may stand here.
fn name_byte(name: Name) -> u8
    requires { Known name }
    ensures { result ≡ byte_of name }
{
    match name {
        Name::Condition(c) => b'a' + c,
        Name::Post(p) => b'0' + p,
    }
}

// The byte of an effect, in a function for the same reason.
fn mark_of(effect: Effect) -> u8
    ensures { result ≡ mark_of effect }
{
    match effect {
        Effect::Permit => b'+',
        Effect::Deny => b'-',
    }
}

impl Pen<'_> {
    fn put_item(&mut self, item: Item)
        requires { Known item.name × HasRoom self.old (length (spelled item)) }
        ensures { Puts self.old (spelled item) self.new }
    {
        let byte = name_byte(item.name);
        if item.barred {
            self.put(&[b' ', b'!', byte]);
        } else {
            self.put(&[b' ', byte]);
        }
    }

    // Writes the line of a rule with its byte 10.
    pub(crate) fn put_line(&mut self, rule: &Rule)
        requires { Named rule.now × HasRoom self.old (length (line_of rule.now) + 1) }
        ensures { Puts self.old (line_of rule.now ++ (10 ∷ [])) self.new }
    {
        self.put(&[mark_of(rule.effect)]);
        for item in Items::of(rule) {
            self.put_item(item);
        }
        self.put(b"\n");
    }
}
