// A line after the first: it says nothing, or it is a rule.
ghost use Rattle.std.specs.Prelude.{◌≡◌, ◌+◌, ◌^◌, ◌<◌, length};
ghost use Rattle.rulefile.specs.Steps.{mark_read, Begins};

use crate::draft::Draft;
use crate::faults::LineFault;
use crate::grammar::Grammar;
use crate::items::ItemReader;
use lines::{Line, Place};
use rules::{Effect, Letter};

// A line that begins with it says nothing.
const COMMENT: char = '#';

// The effect that a rule's mark stands for. A guarded list has no deny rules, so this needs the letter and is no conversion of a byte.
fn read_mark(mark: u8, grammar: Grammar, place: Place) -> Result<Effect, LineFault>
    ensures { result ≡ mark_read grammar mark place }
{
    match (mark as char, grammar.letter) {
        ('+', _) => Ok(Effect::Permit),
        ('-', Letter::Guarded) => Err(LineFault::NotAllowed(place)),
        ('-', Letter::Model(_)) => Ok(Effect::Deny),
        _ => Err(LineFault::NoMark(place)),
    }
}

// The rule that the line begins, if it says anything: its mark is read, and its items are still to be read.
pub(crate) fn begin_rule(line: Line, grammar: Grammar) -> Result<Option<ItemReader>, LineFault>
    requires { line.place.offset + length line.bytes.now < 2 ^ 64 }
    ensures { Begins grammar line.entry result }
{
    let [mark, rest @ ..] = line.bytes else {
        return Ok(None);
    };
    if *mark as char == COMMENT {
        return Ok(None);
    }
    let effect = read_mark(*mark, grammar, line.place)?;
    Ok(Some(ItemReader {
        grammar,
        draft: Draft::new(effect),
        line: line.place.line,
        end: line.place.offset + line.bytes.len(),
        rest,
    }))
}
