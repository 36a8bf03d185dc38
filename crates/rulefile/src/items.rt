// Reading the items of a rule line, one after the other.
ghost use Rattle.std.specs.Prelude.{◌≡◌, ◌≤◌, length, IfSome, IfOk};
ghost use Rattle.rulefile.specs.Items.{name_of, Known};

use crate::draft::Draft;
use crate::faults::{ItemFault, LineFault};
use crate::grammar::{Grammar, Item, Name};
use lines::Place;
use rules::{Letter, Rule};

// What a byte names: a condition by its letter, or a post by its digit. That it is one of these is a clause, since an enum has no invariant; a `TryFrom`
// would be as public as `Name`, with an error that says nothing.
fn name_of(b: u8) -> Option<Name>
    ensures value { result ≡ name_of b }
    ensures known { IfSome result Known }
{
    match b as char {
        'a'..='i' => Some(Name::Condition(b - b'a')),
        '0'..='7' => Some(Name::Post(b - b'0')),
        _ => None,
    }
}

// A rule line after its mark: the draft of the items so far, and the bytes that are still to be read, up to the line's end.
#[derive(Drop)]
pub(crate) struct ItemReader<'a> {
    pub(crate) grammar: Grammar,
    pub(crate) draft: Draft,
    pub(crate) line: usize,
    pub(crate) end: usize,
    pub(crate) rest: &'a [u8],
    ghost within: { length rest.now ≤ end },
}

impl<'a> ItemReader<'a> {
    ghost use Rattle.rulefile.specs.Steps.{at, Kept, with_rest, name_read, ItemTaken, new_item, after_space, item_read, ItemsRead};

    // The place of the first byte that is left, or of the line's end.
    fn place(&self) -> Place
        ensures { result ≡ at self.now }
    {
        Place {
            line: self.line,
            offset: self.end - self.rest.len(),
        }
    }

    // The name that an item ends with.
    fn read_name(&mut self) -> Result<Name, ItemFault>
        ensures kept { Kept self.old self.new }
        ensures draft { self.new.draft ≡ self.old.draft }
        ensures value { with_rest self.new.rest.now result ≡ name_read self.old.grammar self.old.rest.now (at self.old) }
        ensures known { IfOk result Known }
    {
        let place = self.place();
        let [first, rest @ ..] = self.rest else {
            return Err(ItemFault::NotDue(place));
        };
        let name = name_of(*first).ok_or(ItemFault::NotDue(place))?;
        if !self.grammar.has(name) {
            return Err(ItemFault::OutOfRange(place));
        }
        self.rest = rest;
        Ok(name)
    }

    // An item by its name, which is new to the line. Whether it is barred is a flag, as in `Item`: both kinds have a name.
    fn new_item(&mut self, barred: bool) -> Result<(), LineFault>
        ensures { ItemTaken self.old result self.new (new_item self.old.grammar self.old.draft barred self.old.rest.now (at self.old)) }
    {
        let place = self.place();
        let name = self.read_name()?;
        let item = Item { barred, name };
        if self.draft.repeats(item) {
            return Err(LineFault::Repeated(place));
        }
        self.draft.add(item);
        Ok(())
    }

    // After an item's space: a `!` and a name, or a name alone. The `!` itself is at fault in a list of a model.
    fn after_space(&mut self) -> Result<(), LineFault>
        ensures { ItemTaken self.old result self.new (after_space self.old.grammar self.old.draft self.old.rest.now (at self.old)) }
    {
        let [first, rest @ ..] = self.rest else {
            return Err(ItemFault::NotDue(self.place()).into());
        };
        match (*first as char, self.grammar.letter) {
            ('!', Letter::Guarded) => {
                self.rest = rest;
                self.new_item(true)
            }
            ('!', Letter::Model(_)) => Err(LineFault::NotAllowed(self.place())),
            _ => self.new_item(false),
        }
    }

    // The first item that is left.
    fn read_item(&mut self) -> Result<(), LineFault>
        ensures { ItemTaken self.old result self.new (item_read self.old.grammar self.old.draft self.old.rest.now (at self.old)) }
    {
        let [b' ', rest @ ..] = self.rest else {
            return Err(ItemFault::NotDue(self.place()).into());
        };
        self.rest = rest;
        self.after_space()
    }

    // The rule that all items of the line give.
    pub(crate) fn read_rule(mut self) -> Result<Rule, LineFault>
        ensures { ItemsRead self.entry.grammar self.entry.draft self.entry.rest.now (at self.entry) result }
    {
        while !self.rest.is_empty() {
            self.read_item()?;
        }
        Ok(Rule::from(self.draft))
    }
}
