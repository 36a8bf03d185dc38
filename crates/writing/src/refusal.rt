// Why a list is not written.
ghost use Rattle.std.specs.Prelude.{◌≡◌};
ghost use Rattle.writing.specs.Refusals.{number_of, figure_of};

#[derive(Clone, Copy, Debug, PartialEq, Eq)]
pub enum Unwritten {
    // no line gives the rule in this slot, the first such; slot 0 where there are more than nine conditions
    NoLine(usize),
    // the text has this many bytes, and there is room for fewer
    NoRoom(u128),
}

impl Unwritten {
    // The number under which the refusal is known. The subject gives the numbers, so they stand in a table and do not follow the order of the cases.
    pub fn number(&self) -> u8
        ensures { result ≡ number_of self.now }
    {
        match self {
            Unwritten::NoLine(_) => 9,
            Unwritten::NoRoom(_) => 8,
        }
    }

    // Its figure: the slot, or the bytes needed.
    pub fn figure(&self) -> u128
        ensures { result ≡ figure_of self.now }
    {
        match *self {
            Unwritten::NoLine(slot) => slot as u128,
            Unwritten::NoRoom(needed) => needed,
        }
    }
}
