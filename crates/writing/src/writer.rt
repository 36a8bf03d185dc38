// Writing a list into lent bytes.
ghost use Rattle.writing.specs.Writes.{Writes};

use crate::list_text::{put_list, text_len};
use crate::refusal::Unwritten;
use crate::saying::SmallGrammar;
use ladders::Ladder;
use rules::{Letter, Rule};

// Writes a list of this letter, with n conditions and these rules, on the posts of the ladder, and answers how many bytes it wrote; the
// bytes after them stay. A list with a rule that no line gives is refused, and so is one whose text is longer than the room. A refusal
// leaves every byte.
pub fn write<L: Ladder>(
    letter: Letter,
    conditions: u8,
    ladder: &L,
    rules: &[Rule],
    text: &mut [u8],
) -> Result<usize, Unwritten>
    ensures { Writes (L.posts ladder.now) letter conditions rules.now text.old result text.new }
{
    let small = SmallGrammar::of(letter, conditions, ladder).ok_or(Unwritten::NoLine(0))?;
    // a refusal where there is something: `ok_or` goes the other way
    if let Some(slot) = small.first_unsaid(rules) {
        return Err(Unwritten::NoLine(slot));
    }
    let needed = text_len(rules);
    if (text.len() as u128) < needed {
        return Err(Unwritten::NoRoom(needed));
    }
    Ok(put_list(text, small, rules))
}
