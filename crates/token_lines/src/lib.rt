// What each token makes of the lines of a clause.
#![tactic(auto)]

ghost use Rattle.std.specs.Prelude.{◌≡◌, [], ◌<◌};
ghost use Rattle.clause_tokens.specs.declared.Mark.TheVariants.{Opens, Comma};
ghost use Rattle.term_lines.specs.Drawings.{Drawable, Draws};
ghost use Rattle.token_lines.specs.LineEnds.{EndComes, LineEnded};

use clause_tokens::Mark;
use term_lines::Pen;

/// The first argument of a head or a subgoal is due. It has no digit: the place that is kept for it is not read.
fn open_atom(pen: &mut Pen, page: &mut [u8]) -> Option<()>
    requires { (pen.old.compounds.depth ≡ 0) × Drawable [] Opens 0 pen.old page.old }
    ensures { Draws [] Opens 0 pen.old page.old result pen.new page.new }
{
    pen.put_separator(b',', page)?;
    pen.compounds.push(pen.line);
    pen.arguments = 1;
    Some(())
}

/// The next argument of a head or a subgoal is due.
fn next_argument(pen: &mut Pen, page: &mut [u8]) -> Option<()>
    requires { (pen.old.compounds.depth ≡ 1) × Drawable [] Comma 0 pen.old page.old }
    ensures { Draws [] Comma 0 pen.old page.old result pen.new page.new }
{
    if 7 < pen.arguments {
        return None;
    }
    pen.put_separator(b',', page)?;
    pen.arguments += 1;
    Some(())
}

/// A head or a subgoal is complete.
fn end_line(pen: &mut Pen, page: &mut [u8]) -> Option<()>
    requires { (pen.old.compounds.depth ≡ 0) × EndComes pen.old page.old }
    ensures { LineEnded pen.old page.old result pen.new page.new }
{
    if page.len() <= pen.to {
        return None;
    }
    pen.to = pages::put_byte(b'\n', page, pen.to);
    pen.line = pen.to;
    pen.atoms += 1;
    pen.arguments = 0;
    Some(())
}

/// The first argument of a symbol is due: its arity, the last byte written, becomes 1, and the place of it is kept.
fn open_symbol(pen: &mut Pen, page: &mut [u8]) -> Option<()>
    requires { (pen.old.compounds.depth ≡ 0 → ⊥) × Drawable [] Opens 0 pen.old page.old }
    ensures { Draws [] Opens 0 pen.old page.old result pen.new page.new }
{
    if 255 < pen.compounds.depth {
        return None;
    }
    let digit = pen.to - 1;
    pen.put_separator(b' ', page)?;
    page[digit] = b'1';
    pen.compounds.push(digit);
    Some(())
}

/// The next argument of a symbol is due: its arity is one more.
fn next_term(pen: &mut Pen, page: &mut [u8]) -> Option<()>
    requires { (1 < pen.old.compounds.depth) × Drawable [] Comma 0 pen.old page.old }
    ensures { Draws [] Comma 0 pen.old page.old result pen.new page.new }
{
    let digit = pen.compounds.last();
    let arity = page[digit];
    if b'8' < arity {
        return None;
    }
    pen.put_separator(b' ', page)?;
    page[digit] = arity + 1;
    Some(())
}

/// An opening parenthesis.
fn put_opening(pen: &mut Pen, page: &mut [u8]) -> Option<()>
    requires { Drawable [] Opens 0 pen.old page.old }
    ensures { Draws [] Opens 0 pen.old page.old result pen.new page.new }
{
    if pen.compounds.depth == 0 {
        open_atom(pen, page)
    } else {
        open_symbol(pen, page)
    }
}

/// A comma: after a subgoal, after an argument of a head or a subgoal, or after an argument of a symbol.
fn put_comma(pen: &mut Pen, page: &mut [u8]) -> Option<()>
    requires { Drawable [] Comma 0 pen.old page.old }
    ensures { Draws [] Comma 0 pen.old page.old result pen.new page.new }
{
    match pen.compounds.depth {
        0 => end_line(pen, page),
        1 => next_argument(pen, page),
        _ => next_term(pen, page),
    }
}

/// What a token makes of the lines: the token has these bytes, and the number is that of the last fresh variable.
pub fn put_token(
    mark: Mark,
    bytes: &[u8],
    number: usize,
    pen: &mut Pen,
    page: &mut [u8],
) -> Option<()>
    requires { Drawable bytes.now mark number pen.old page.old }
    ensures { Draws bytes.now mark number pen.old page.old result pen.new page.new }
{
    match mark {
        Mark::Name => pen.put_name(bytes, page),
        Mark::Variable => pen.put_variable(bytes, page),
        Mark::Lone => pen.put_lone(number, page),
        Mark::Opens => put_opening(pen, page),
        Mark::Closes => {
            pen.compounds.pop();
            Some(())
        }
        Mark::Comma => put_comma(pen, page),
        Mark::Neck | Mark::Stop => end_line(pen, page),
        Mark::Stray => None,
    }
}
