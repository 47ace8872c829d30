// The lines of an accepted text, found again by their first bytes: a walk that judges nothing.
#![tactic(auto)]

ghost use Rattle.std.specs.Prelude.{◌<◌};
ghost use Rattle.sections.specs.Sections.{LinesOfLetter, RulesBegin, StandsSomeRule, RuleFound};

/// Lines that begin with one letter: how many, and the place after them.
#[derive(Clone, Copy)]
pub struct Run {
    pub lines: usize,
    pub after: usize,
}

/// The lines from a place on that begin with a letter, up to the first that does not. No `for` over `text::Lines`: the answer is
/// a place, which the lines alone do not give.
pub fn run_of(text: &[u8], letter: u8, from: usize) -> Run
    requires { 10 < letter }
    ensures { LinesOfLetter text.now letter from result }
{
    let mut lines: usize = 0;
    let mut at = from;
    while at < text.len() && text[at] == letter {
        at = text::find(text, b'\n', at) + 1;
        lines += 1;
    }
    Run { lines, after: at }
}

/// The place of the first rule's line, or of the end where there are no rules.
pub fn rules_begin(text: &[u8]) -> usize
    ensures { RulesBegin text.now result }
{
    let predicates = run_of(text, b'P', 0);
    let claims = run_of(text, b'C', predicates.after);
    run_of(text, b'G', claims.after).after
}

/// A rule's lines: where the head's name ends, how many subgoals and `M` lines there are, and the place after them.
#[derive(Clone, Copy)]
pub struct RuleLines {
    pub name_end: usize,
    pub subgoals: usize,
    pub multiplier_lines: usize,
    pub after: usize,
}

/// The lines of the rule whose head stands at a place. The head's name begins two bytes on.
pub fn rule_at(text: &[u8], at: usize) -> RuleLines
    requires { StandsSomeRule text.now at }
    ensures { RuleFound text.now at result }
{
    let end = text::find(text, b'\n', at);
    let name_end = at + reader::field_end(&text[at..end], 2);
    let subgoals = run_of(text, b'B', end + 1);
    let multipliers = run_of(text, b'M', subgoals.after);
    RuleLines {
        name_end,
        subgoals: subgoals.lines,
        multiplier_lines: multipliers.lines,
        after: multipliers.after,
    }
}
