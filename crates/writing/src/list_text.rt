// The text of a list: how long it is, and writing it.
ghost use Rattle.std.specs.Prelude.{◌≡◌, ◌+◌, ◌≤◌, [], ◌∷◌, ◌++◌, map, length};
ghost use Rattle.std.specs.List.{AllByRecursion};
ghost use Rattle.rulefile.specs.Files.{head_line, filled};
ghost use Rattle.writing.specs.Written.{line_of, lined, written};
ghost use Rattle.writing.specs.Steps.{HasRoom, Named, Puts};

use crate::line_text::line_len;
use crate::pen::Pen;
use crate::saying::SmallGrammar;
use rules::Rule;

// How many bytes the first line has, with its byte 10.
const HEAD: u128 = 4;

// How many bytes the text of a list with these rules has.
pub(crate) fn text_len(rules: &[Rule]) -> u128
    ensures { result ≡ 4 + length (lined (map line_of rules.now)) }
{
    HEAD + rules
        .iter()
        .map(|rule| u128::from(line_len(rule)))
        .sum::<u128>()
}

impl Pen<'_> {
    // Writes the first line with its byte 10.
    fn put_head(&mut self, small: SmallGrammar)
        requires { HasRoom self.old 4 }
        ensures { Puts self.old (head_line small.grammar.letter small.grammar.conditions ++ (10 ∷ [])) self.new }
    {
        let letter = small.grammar.letter.symbol() as u8;
        let digit = b'0' + small.grammar.conditions;
        self.put(&[letter, b' ', digit, b'\n']);
    }
}

// Writes the text of a list, and answers how many bytes it has.
pub(crate) fn put_list(text: &mut [u8], small: SmallGrammar, rules: &[Rule]) -> usize
    requires { (AllByRecursion Named rules.now) × (length (written small.grammar.letter small.grammar.conditions rules.now) ≤ length text.old) }
    ensures text { text.new ≡ filled (written small.grammar.letter small.grammar.conditions rules.now) text.old }
    ensures count { result ≡ length (written small.grammar.letter small.grammar.conditions rules.now) }
{
    let mut pen = Pen::new(text);
    pen.put_head(small);
    for rule in rules {
        pen.put_line(rule);
    }
    pen.count()
}
