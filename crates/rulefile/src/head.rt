// The first line of a rule file.
ghost use Rattle.std.specs.Prelude.{◌≡◌};
ghost use Rattle.rulefile.specs.Steps.{head_of};

use rules::{Letter, Model};

// The list's letter and the number of its conditions, where the line is a letter, a space and a digit.
pub(crate) fn read_head(line: &[u8]) -> Option<(Letter, u8)>
    ensures { result ≡ head_of line.now }
{
    let [letter, b' ', figure] = line else {
        return None;
    };
    let letter = match *letter as char {
        'G' => Letter::Guarded,
        'A' => Letter::Model(Model::A),
        'B' => Letter::Model(Model::B),
        'C' => Letter::Model(Model::C),
        'D' => Letter::Model(Model::D),
        _ => return None,
    };
    let conditions = match *figure as char {
        '0'..='9' => *figure - b'0',
        _ => return None,
    };
    Some((letter, conditions))
}
