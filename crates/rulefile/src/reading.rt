// Reading a rule file into lent slots.
ghost use Rattle.std.specs.Prelude.{◌+◌, List, drop};
ghost use Rattle.lines.specs.Lines.{Span, Lines};
ghost use Rattle.rulefile.specs.Files.{Answers, OneReading, EveryRule};
ghost use Rattle.rulefile.specs.Steps.{RestSays};

use crate::faults::FileFault;
use crate::grammar::{Grammar, Listing};
use crate::head::read_head;
use crate::rule_line::begin_rule;
use ladders::Ladder;
use lines::Reader;
use rules::Rule;

// The rules of the lines ahead of the reader, and how many they are.
fn read_rules(lines: Reader, grammar: Grammar, slots: &mut [Rule]) -> Result<usize, FileFault>
    ensures { (ls : List Span) → Lines (lines.entry.read + 1) lines.entry.at (drop lines.entry.at lines.entry.file.now) ls → RestSays grammar ls slots.old result slots.new }
{
    // the slots are filled by index: what an element lent by `iter_mut` or `get_mut` within another loop was set to is not known to the proof after it
    // (where the `for` goes straight over `iter_mut()`, it is)
    let mut count = 0;
    for line in lines {
        if let Some(items) = begin_rule(line, grammar)? {
            if count == slots.len() {
                return Err(FileFault::NoSlot(line.place));
            }
            slots[count] = items.read_rule()?;
            count += 1;
        }
    }
    Ok(count)
}

// A list read from a rule file, on the posts of the ladder: its letter, its number of conditions and its number of rules. The rules
// stand in the first slots, in the order of their lines, and the other slots hold what they held. A file that is not by the grammar
// is refused at its first faulty byte, and the rules of the lines before that one stand in the first slots.
pub fn read<L: Ladder>(file: &[u8], ladder: &L, slots: &mut [Rule]) -> Result<Listing, FileFault>
    ensures answer { Answers (L.posts ladder.now) file.now slots.old result slots.new }
    ensures once { OneReading (L.posts ladder.now) file.now }
    ensures lawful { EveryRule (L.posts ladder.now) }
{
    let mut lines = Reader::new(file);
    let (letter, conditions) = lines
        .next()
        .and_then(|line| read_head(line.bytes))
        .ok_or(FileFault::WrongHead)?;
    let grammar = Grammar {
        letter,
        conditions,
        posts: ladder.count(),
    };
    let rules = read_rules(lines, grammar, slots)?;
    Ok(Listing {
        letter,
        conditions,
        rules,
    })
}
