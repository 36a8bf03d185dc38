// Tidying an input: a rule file on the house ladder, written as lists are written.
ghost use Rattle.rulefile.specs.Files.{OneReading};
ghost use Rattle.report.specs.Inputs.{Tidied};

use crate::refusal::Refusal;
use ladders::House;
use rulefile::read;
use rules::Rule;
use writing::write;

// The longest input, in bytes.
pub const LONGEST: usize = 32768;

// Reads the input into the slots, as a rule file on the house ladder, and writes the list that it holds into the text; answers how many
// bytes it wrote.
pub fn tidy(input: &[u8], slots: &mut [Rule], text: &mut [u8]) -> Result<usize, Refusal>
    ensures answer { Tidied input.now slots.old text.old result slots.new text.new }
    ensures once { OneReading 8 input.now }
{
    if input.len() > LONGEST {
        return Err(Refusal::TooLong);
    }
    let list = read(input, &House, slots)?;
    let rules = &slots[..list.rules];
    Ok(write(list.letter, list.conditions, &House, rules, text)?)
}
