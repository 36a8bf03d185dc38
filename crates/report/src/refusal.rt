// Why an input is refused.
ghost use Rattle.std.specs.Prelude.{◌≡◌, Some};
ghost use Rattle.report.specs.Refusals.{number_of, figures_of, refusal_text};
ghost use Rattle.report.specs.declared.refusal.Refusal.TheVariants.{File, Text};

use arrayvec::ArrayVec;
use lines::Place;
use rulefile::FileFault;
use std::fmt::{self, Display};
use writing::Unwritten;

#[derive(Clone, Copy, Debug, PartialEq, Eq)]
pub enum Refusal {
    // the rule file is at fault
    File(FileFault),
    // the list is not written
    Text(Unwritten),
    // the input is longer than 32,768 bytes
    TooLong,
}

impl From<FileFault> for Refusal {
    ghost from_gives = { λ e r. r ≡ File e };

    fn from(e: FileFault) -> Refusal {
        Refusal::File(e)
    }
}

impl From<Unwritten> for Refusal {
    ghost from_gives = { λ e r. r ≡ Text e };

    fn from(e: Unwritten) -> Refusal {
        Refusal::Text(e)
    }
}

impl Refusal {
    // The number under which the refusal is known: 10, or that of the layer that it came through.
    pub fn number(&self) -> u8
        ensures { result ≡ number_of self.now }
    {
        match self {
            Refusal::File(fault) => fault.number(),
            Refusal::Text(unwritten) => unwritten.number(),
            Refusal::TooLong => 10,
        }
    }

    // Its figures: the line and the offset of a fault, or the figure of a list that is not written.
    pub fn figures(&self) -> ArrayVec<u128, 2>
        ensures { result.items ≡ figures_of self.now }
    {
        let mut figures = ArrayVec::new();
        match self {
            Refusal::File(fault) => {
                let Place { line, offset } = fault.place();
                figures.push(line as u128);
                figures.push(offset as u128);
            }
            Refusal::Text(unwritten) => figures.push(unwritten.figure()),
            Refusal::TooLong => {}
        }
        figures
    }
}

// The number, and then the figures, each after a space.
impl Display for Refusal {
    ghost output = { λ r. Some (refusal_text r) };

    fn fmt<W: fmt::Write>(&self, f: &mut fmt::Formatter<W>) -> fmt::Result {
        let number = self.number();
        write!(f, "{number}")?;
        let figures = self.figures();
        for figure in figures.as_slice() {
            write!(f, " {figure}")?;
        }
        Ok(())
    }
}
