// The grammar of clauses: how far the tokens from a place on make a clause.
#![tactic(auto)]

ghost use Rattle.std.specs.Prelude.{◌≡◌, [], ◌+◌, ◌≤◌, ◌<◌, length};
ghost use Rattle.clause_tokens.specs.NextTokens.{tokens_at};
ghost use Rattle.clauses.specs.Standings.{Advances};
ghost use Rattle.clauses.specs.Endings.{EndFound};

use clause_tokens::Mark;
use words::ClassTable;

/// What was read last in a clause. `Due`: an atom or a term is due; `Name`: a name, which may get arguments; `Term`: another term.
#[derive(Clone, Copy, PartialEq, Eq)]
enum Last {
    Due,
    Name,
    Term,
}

/// Where the reader stands in a clause: what was read last, how many compounds are open, and whether the head is complete.
#[derive(Clone, Copy)]
struct Standing {
    last: Last,
    depth: usize,
    body: bool,
}

/// What a token is there: it can't stand there, the clause goes on after it, or it ends the clause.
#[derive(Clone, Copy)]
enum Step {
    Refuses,
    Goes(Standing),
    Ends,
}

/// Where a token leads.
fn advance(from: Standing, mark: Mark) -> Step
    requires { from.depth + 1 < 18446744073709551616 }
    ensures { Advances from mark result }
{
    let Standing { last, depth, body } = from;
    let due = last == Last::Due;
    let named = last == Last::Name;
    match mark {
        Mark::Name => {
            if !due {
                return Step::Refuses;
            }
            Step::Goes(Standing {
                last: Last::Name,
                ..from
            })
        }
        Mark::Variable | Mark::Lone => {
            if !due | (depth == 0) {
                return Step::Refuses;
            }
            Step::Goes(Standing {
                last: Last::Term,
                ..from
            })
        }
        Mark::Opens => {
            if !named {
                return Step::Refuses;
            }
            Step::Goes(Standing {
                last: Last::Due,
                depth: depth + 1,
                ..from
            })
        }
        Mark::Closes => {
            if due | (depth == 0) {
                return Step::Refuses;
            }
            Step::Goes(Standing {
                last: Last::Term,
                depth: depth - 1,
                ..from
            })
        }
        Mark::Comma => {
            if due | ((depth == 0) & !body) {
                return Step::Refuses;
            }
            Step::Goes(Standing {
                last: Last::Due,
                ..from
            })
        }
        Mark::Neck => {
            if due | (depth != 0) | body {
                return Step::Refuses;
            }
            Step::Goes(Standing {
                last: Last::Due,
                body: true,
                ..from
            })
        }
        Mark::Stop => {
            if due | (depth != 0) {
                return Step::Refuses;
            }
            Step::Ends
        }
        Mark::Stray => Step::Refuses,
    }
}

/// Reads a clause from a place on: the place after its `.`, or that of the first token that can't continue it.
pub fn clause_end(text: &[u8], from: usize, classes: &ClassTable) -> Result<usize, usize>
    requires { (from ≤ length text.now) × (tokens_at text.now from ≡ [] → ⊥) }
    ensures { EndFound text.now from result }
{
    let mut standing = Standing {
        last: Last::Due,
        depth: 0,
        body: false,
    };
    let mut at = from;
    // no `for`: each token begins where the one before it ends
    while let Some(token) = clause_tokens::next(text, at, classes) {
        match advance(standing, token.mark) {
            Step::Refuses => return Err(token.start),
            Step::Ends => return Ok(token.end),
            Step::Goes(next) => standing = next,
        }
        at = token.end;
    }
    Err(text.len())
}
