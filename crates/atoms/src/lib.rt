// Atoms, as heads and subgoals state them: which atom of its rule a line states, and the terms that are its fields.
#![tactic(auto)]

ghost use Rattle.std.specs.Prelude.{◌≡◌, ◌≤◌, ◌<◌, length};
ghost use Rattle.theory.specs.Sizes.{structural};
ghost use Rattle.atoms.specs.Fields.{FieldTerm, subgoal_atom, atom_of};

use tables::{Fault, Hints, Rows, Variables};
use theory::Letter;
use tokens::TokenRoom;
use words::ClassTable;

/// Which atom of the rule the next subgoal is. (A ninth one, which is refused when its line is done, takes the eighth one's
/// rows.)
fn subgoal_atom(subgoals: usize) -> usize
    ensures { result ≡ subgoal_atom subgoals }
{
    if subgoals < 8 { subgoals + 1 } else { 8 }
}

/// Which atom of the rule a line states, by its letter: the head is atom 0, and so is a fact, which has no rule.
pub fn atom_of(letter: Letter, subgoals: usize) -> usize
    ensures { result ≡ atom_of letter subgoals }
{
    match letter {
        Letter::B => subgoal_atom(subgoals),
        _ => 0,
    }
}

/// A field of a line that states an atom: a term, whose form goes into the row of the atom's argument.
pub fn field_term(
    atom: usize,
    index: usize,
    field: &[u8],
    many: usize,
    variables: &mut Variables,
    rows: &mut Rows,
    hints: &mut Hints,
    room: &mut TokenRoom,
    classes: &ClassTable,
) -> Result<usize, Fault>
    requires { (atom ≤ 8) × (index < 8) × (length field.now ≤ 1024) × (many ≤ 17) }
    ensures { FieldTerm structural atom index field.now many variables.old rows.old result variables.new rows.new }
{
    let Some(read) = tokens::read_argument(field, classes, room) else {
        return Err(Fault::NoTerm);
    };
    let base = tables::row_place(atom, index);
    Ok(terms::form_of_term(field, read, room, variables, many, hints, rows, base))
}
