// The lines of a clause, written on a page token by token.
#![tactic(auto)]

ghost use Rattle.std.specs.Prelude.{◌≡◌, ◌+◌, ◌≤◌, ◌<◌, length};
ghost use Rattle.clause_variables.specs.FreshNumbers.{Tabled};
ghost use Rattle.clause_lines.specs.WholeClauses.{NumberAfter, ClauseReady, LinesPut};

use clause_tokens::Mark;
use clause_variables::Variables;
use term_lines::Pen;
use words::ClassTable;

/// The number of the last fresh variable after one more token.
fn number_after(mark: Mark, variables: &Variables, number: usize) -> usize
    requires { Tabled variables.now.names variables.now.named × (number + 1 + variables.now.named < 100) }
    ensures { NumberAfter mark variables.now number result }
{
    if mark == Mark::Lone {
        variables.next_fresh(number + 1)
    } else {
        number
    }
}

/// Writes the lines of the clause that starts at a place and whose variables are gathered, and gives how many bytes they take.
/// Where it passes a limit, or the page has no room for them, there are none, and what the page holds then does not matter.
/// `pen` may be any, so that one serves for all clauses.
pub fn put_clause(
    text: &[u8],
    from: usize,
    classes: &ClassTable,
    variables: &Variables,
    pen: &mut Pen,
    page: &mut [u8],
) -> Option<usize>
    requires { (from ≤ length text.now) × ClauseReady text.now from variables.now }
    ensures { LinesPut text.now from variables.now page.old result page.new }
{
    pen.begin();
    let mut number: usize = 0;
    let mut at = from;
    // no `for`: each token begins where the one before it ends
    while let Some(token) = clause_tokens::next(text, at, classes) {
        let mark = token.mark;
        number = number_after(mark, variables, number);
        let bytes = &text[token.start..token.end];
        token_lines::put_token(mark, bytes, number, pen, page)?;
        if mark == Mark::Stop {
            return Some(pen.to);
        }
        at = token.end;
    }
    None
}
