// Faults of a rule file, in layers: an item's fault is held whole by its line's, and a line's by the file's.
ghost use Rattle.std.specs.Prelude.{◌≡◌};
ghost use Rattle.rulefile.specs.Faults.{kind_of, number, place_of};
ghost use Rattle.rulefile.specs.declared.faults.FileFault.TheVariants.{Line};
ghost use Rattle.rulefile.specs.declared.faults.LineFault.TheVariants.{Item};

use lines::Place;

// What is wrong with an item.
#[derive(Clone, Copy, Debug, PartialEq, Eq)]
pub enum ItemFault {
    // a space, a `!`, a letter a to i or a digit 0 to 7 was due, and something else stands there, or the line ends
    NotDue(Place),
    // a letter that is none of the conditions, or a digit that is no post
    OutOfRange(Place),
}

// What is wrong with a rule line.
#[derive(Clone, Copy, Debug, PartialEq, Eq)]
pub enum LineFault {
    Item(ItemFault),
    // the first byte is neither + nor -
    NoMark(Place),
    // a condition or a digit named twice, or a second plain digit
    Repeated(Place),
    // a - in a guarded list, or a ! in a list of a model
    NotAllowed(Place),
}

// What is wrong with a rule file.
#[derive(Clone, Copy, Debug, PartialEq, Eq)]
pub enum FileFault {
    Line(LineFault),
    // the first line is not a letter, a space and a digit
    WrongHead,
    // more rules than slots
    NoSlot(Place),
}

impl From<ItemFault> for LineFault {
    ghost from_gives = { λ e r. r ≡ Item e };

    fn from(e: ItemFault) -> LineFault {
        LineFault::Item(e)
    }
}

impl From<LineFault> for FileFault {
    ghost from_gives = { λ e r. r ≡ Line e };

    fn from(e: LineFault) -> FileFault {
        FileFault::Line(e)
    }
}

impl FileFault {
    // The number under which the fault is known, 1 to 7. The subject gives the numbers, so they stand in a table and do not follow the order of the cases.
    pub fn number(&self) -> u8
        ensures { result ≡ number (kind_of self.now) }
    {
        match self {
            FileFault::WrongHead => 1,
            FileFault::Line(LineFault::NoMark(_)) => 2,
            FileFault::Line(LineFault::Item(ItemFault::NotDue(_))) => 3,
            FileFault::Line(LineFault::Item(ItemFault::OutOfRange(_))) => 4,
            FileFault::Line(LineFault::Repeated(_)) => 5,
            FileFault::Line(LineFault::NotAllowed(_)) => 6,
            FileFault::NoSlot(_) => 7,
        }
    }

    // The line and the byte at which it stands. Each fault but one holds its place, so this is read off by cases and no conversion.
    pub fn place(&self) -> Place
        ensures { result ≡ place_of self.now }
    {
        match *self {
            FileFault::WrongHead => Place { line: 1, offset: 0 },
            FileFault::NoSlot(place)
            | FileFault::Line(LineFault::NoMark(place))
            | FileFault::Line(LineFault::Repeated(place))
            | FileFault::Line(LineFault::NotAllowed(place))
            | FileFault::Line(LineFault::Item(ItemFault::NotDue(place)))
            | FileFault::Line(LineFault::Item(ItemFault::OutOfRange(place))) => place,
        }
    }
}
