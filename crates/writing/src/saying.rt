// Which rules a line of the grammar can give.
ghost use Rattle.std.specs.Prelude.{◌≡◌, ◌<◌, ◌≤◌, take, Decides, Some, MatchOption};
ghost use Rattle.std.specs.List.{slice_get, AllByRecursion};
ghost use Rattle.rules.specs.declared.rule.Rule.{Rule};
ghost use Rattle.rulefile.specs.Files.{grammar};
ghost use Rattle.writing.specs.Writes.{Sayable};
ghost use Rattle.writing.specs.Steps.{Below, Apart, InRange, NamesOnce, CanSay};

use ladders::{Ladder, has};
use rulefile::Grammar;
use rules::{Letter, MOST_CONDITIONS, Rule};

// A grammar whose conditions and posts all have a letter or a digit, and that has a post.
#[derive(Clone, Copy)]
pub(crate) struct SmallGrammar {
    pub(crate) grammar: Grammar,
    ghost few: { (grammar.conditions ≤ 9) × ((1 ≤ grammar.posts) × (grammar.posts ≤ 8)) },
}

impl SmallGrammar {
    // The grammar of lists on the posts of a ladder, where there are nine conditions at most.
    pub(crate) fn of<L: Ladder>(letter: Letter, conditions: u8, ladder: &L) -> Option<SmallGrammar>
        ensures { MatchOption result (9 < conditions) (λ g. g.grammar ≡ grammar letter conditions (L.posts ladder.now)) }
    {
        if conditions > MOST_CONDITIONS {
            return None;
        }
        Some(SmallGrammar {
            grammar: Grammar {
                letter,
                conditions,
                posts: ladder.count(),
            },
        })
    }

    // Whether the rule names only conditions and posts that there are.
    fn is_in_range(self, rule: &Rule) -> bool
        ensures { Decides result (InRange self.grammar rule.now) }
    {
        let conditions = usize::from(self.grammar.conditions);
        usize::from(rule.floor) < self.grammar.posts
            && is_below(rule.needed, conditions)
            && is_below(rule.barred, conditions)
            && is_below(u16::from(rule.barred_posts), self.grammar.posts)
    }

    // Whether some line gives the rule.
    fn is_sayable(self, rule: &Rule) -> bool
        ensures { Decides result (CanSay self.grammar rule.now) }
    {
        self.is_in_range(rule) && names_once(rule) && self.grammar.letter.counts(rule)
    }

    // The slot of the first rule that no line gives.
    pub(crate) fn first_unsaid(self, rules: &[Rule]) -> Option<usize>
        ensures { MatchOption result (AllByRecursion (Sayable self.grammar) rules.now) (λ k. AllByRecursion (Sayable self.grammar) (take k rules.now) × ((t : Rule) × ((slice_get rules.now k ≡ Some t) × (Sayable self.grammar t → ⊥)))) }
    {
        rules.iter().position(|rule| !self.is_sayable(rule))
    }
}

// Whether the members of a set are below n. The crate `rules` asks it of conditions alone, by comparing with 2^n as its definition does: no twin.
fn is_below(set: u16, n: usize) -> bool
    requires { n < 16 }
    ensures { Decides result (Below set n) }
{
    set >> n == 0
}

// Whether no member of a set is one of another. `Rule::applies` asks it too, by the same one operator: a function shared for it is no plainer.
fn are_apart(set: u16, other: u16) -> bool
    ensures { Decides result (Apart set other) }
{
    set & other == 0
}

// Whether the rule names no condition and no post twice. A floor post 0 need not be named.
fn names_once(rule: &Rule) -> bool
    ensures { Decides result (NamesOnce rule.now) }
{
    are_apart(rule.needed, rule.barred)
        && (rule.floor == 0 || !has(u16::from(rule.barred_posts), rule.floor))
}
