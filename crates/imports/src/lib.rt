// Import: every clause of the text is judged first, and only then are the lines written.
#![tactic(auto)]

ghost use Rattle.std.specs.Prelude.{◌≡◌, [], ◌≤◌, length};
ghost use Rattle.theory.specs.Lists.{over};
ghost use Rattle.clause_theory.specs.ClauseTokens.{tokens_of};
ghost use Rattle.clause_theory.specs.Clauses.{begin};
ghost use Rattle.clause_theory.specs.Import.{import_from, import_of};
ghost use Rattle.clause_theory.specs.Importations.{import_numbers};
ghost use Rattle.clause_tokens.specs.NextTokens.{tokens_at};
ghost use Rattle.imports.specs.Takings.{ClauseTaken};

use clause_theory::{ImportRefusal, Imported};
use clause_variables::Variables;
use term_lines::Pen;
use words::ClassTable;

/// A clause that is taken: the place after it, and how many bytes its lines take.
#[derive(Clone, Copy)]
struct Taken {
    place: usize,
    bytes: usize,
}

/// Takes the clause of this number, which starts at a place or after the layout there, and puts its lines on a page. It is
/// refused as past a limit where the page is too short for its lines, too. `variables` and `pen` may be any, so that one of each
/// serves for all clauses.
fn take_clause(
    text: &[u8],
    at: usize,
    number: usize,
    classes: &ClassTable,
    variables: &mut Variables,
    pen: &mut Pen,
    page: &mut [u8],
) -> Result<Taken, ImportRefusal>
    requires { (at ≤ length text.now) × (tokens_at text.now at ≡ [] → ⊥) }
    ensures { (length page.new ≡ length page.old) × ClauseTaken text.now at number page.old page.new result }
{
    let place = clauses::clause_end(text, at, classes).map_err(ImportRefusal::NoClauses)?;
    variables
        .gather_clause(text, at, classes)
        .ok_or(ImportRefusal::OverLimit(number))?;
    let bytes = clause_lines::put_clause(text, at, classes, variables, pen, page).ok_or(
        ImportRefusal::OverLimit(number),
    )?;
    Ok(Taken { place, bytes })
}

/// Judges the clauses of a text for a buffer with so much room: the number of clauses and of bytes that they take, or the first
/// refusal.
fn judge(text: &[u8], classes: &ClassTable, room: usize) -> Result<Imported, ImportRefusal>
    ensures { import_numbers result ≡ (import_from (length text.now) room 0 [] begin (tokens_of text.now)).returned }
{
    let mut variables = Variables::none();
    let mut pen = Pen::new();
    // room for the lines of any clause within the limits: nine of 1,024 bytes, each with its byte 10
    let mut page = [0u8; 9225];
    let mut clauses: usize = 0;
    let mut bytes: usize = 0;
    let mut at: usize = 0;
    // no `for`: each clause begins where the one before it ends
    while clause_tokens::layout_end(text, at) < text.len() {
        clauses += 1;
        let taken = take_clause(
            text,
            at,
            clauses,
            classes,
            &mut variables,
            &mut pen,
            &mut page,
        )?;
        if room - bytes < taken.bytes {
            return Err(ImportRefusal::ShortBuffer(clauses));
        }
        bytes += taken.bytes;
        at = taken.place;
    }
    Ok(Imported { clauses, bytes })
}

/// Writes the lines of a text whose clauses are judged, so that none is refused.
fn write(text: &[u8], classes: &ClassTable, buffer: &mut [u8])
    requires { (import_from (length text.now) (length buffer.old) 0 [] begin (tokens_of text.now)).returned.number ≡ 0 }
    ensures { buffer.new ≡ over (import_from (length text.now) (length buffer.old) 0 [] begin (tokens_of text.now)).text buffer.old }
{
    let mut variables = Variables::none();
    let mut pen = Pen::new();
    let mut clauses: usize = 0;
    let mut to: usize = 0;
    let mut at: usize = 0;
    // no `for`: each clause begins where the one before it ends
    while clause_tokens::layout_end(text, at) < text.len() {
        clauses += 1;
        let taken = take_clause(
            text,
            at,
            clauses,
            classes,
            &mut variables,
            &mut pen,
            &mut buffer[to..],
        )
        .unwrap();
        to += taken.bytes;
        at = taken.place;
    }
}

/// Imports a clause text into a buffer. A refusal leaves the buffer as it is.
pub fn import(text: &[u8], buffer: &mut [u8]) -> Result<Imported, ImportRefusal>
    ensures { (import_numbers result ≡ (import_of text.now buffer.old).returned) × (buffer.new ≡ (import_of text.now buffer.old).page) }
{
    let classes = ClassTable::standard();
    let imported = judge(text, &classes, buffer.len())?;
    write(text, &classes, buffer);
    Ok(imported)
}
