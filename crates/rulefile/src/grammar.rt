// What a rule line is read by, and the items that it is made of.
ghost use Rattle.std.specs.Prelude.{◌≡◌};
ghost use Rattle.rulefile.specs.Steps.{within};

use rules::Letter;

// The letter of the list, the number of conditions and the number of posts.
#[derive(Clone, Copy)]
pub struct Grammar {
    pub letter: Letter,
    pub conditions: u8,
    pub posts: usize,
}

impl Grammar {
    // Whether the list has the condition, or the ladder the post.
    pub(crate) fn has(self, name: Name) -> bool
        ensures { result ≡ within self name }
    {
        match name {
            Name::Condition(c) => c < self.conditions,
            Name::Post(p) => usize::from(p) < self.posts,
        }
    }
}

// What an item names: a condition, a being 0, or a post.
#[derive(Clone, Copy)]
pub enum Name {
    Condition(u8),
    Post(u8),
}

// A name, plain or with a `!` before it, which bars it. The flag does not tell whether there is a name: both kinds have one.
#[derive(Clone, Copy)]
pub struct Item {
    pub barred: bool,
    pub name: Name,
}

// A list that was read: its letter, how many conditions it has, and how many rules.
#[derive(Clone, Copy, Debug, PartialEq, Eq)]
pub struct Listing {
    pub letter: Letter,
    pub conditions: u8,
    pub rules: usize,
}
