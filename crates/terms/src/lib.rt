// The sizes of terms, by the tokens read, worked out as section 1.4 of document 000 has them: first the sum of the arities,
// then the occurrences of the variables. Every size and every coefficient comes of these two steps.
#![tactic(auto)]

ghost use Rattle.std.specs.Prelude.{◌≡◌, ◌+◌, ◌≤◌, length};
ghost use Rattle.theory.specs.Sizes.{structural};
ghost use Rattle.theory.specs.Measure.{measure_of};
ghost use Rattle.theory.specs.Answers.{measured_of};
ghost use Rattle.tokens.specs.TokenRows.{SmallArities, PlacesStand, TokensStand};
ghost use Rattle.terms.specs.Constants.{AritiesSummed};
ghost use Rattle.terms.specs.Rows.{Cleared, SmallRow, CountsOne, Counted};
ghost use Rattle.terms.specs.TermForms.{FormTaken};

use forms::Form;
use theory::TermRefusal;
use tokens::{TokenRoom, Tokens};
use words::{ClassTable, Hints, WordTable, Words};

/// The first step of section 1.4: the sum of the arities of a term's symbols. Of a ground term it is the size.
pub fn sum_of_arities(arities: &[u8]) -> u16
    requires { SmallArities arities.now (length arities.now) }
    ensures { AritiesSummed arities.now result }
{
    let mut sum: u16 = 0;
    for arity in arities {
        sum += *arity as u16;
    }
    sum
}

/// The size of a ground term, or why there is none.
pub fn measure(term: &[u8]) -> Result<u32, TermRefusal>
    ensures { measured_of result ≡ measure_of term.now }
{
    if text::is_unfit(term) {
        return Err(TermRefusal::UnfitTerm);
    }
    let classes = ClassTable::standard();
    let mut room = TokenRoom::empty();
    let Some(read) = tokens::read_tokens(term, &classes, &mut room) else {
        return Err(TermRefusal::NotTerm);
    };
    if 0 < read.variables {
        return Err(TermRefusal::HasVariable);
    }
    Ok(sum_of_arities(&room.arities[..read.symbols]) as u32)
}

/// Rows of 17 numbers, one for each argument of a rule's atoms: its constant, and how often each variable occurs.
pub type Rows = [u16; 1224];

fn clear_row(rows: &mut Rows, base: usize)
    requires { base + 17 ≤ 1224 }
    ensures { Cleared rows.old base rows.new 16 }
{
    for i in 0..Form::VARIABLES {
        rows[base + 1 + i] = 0;
    }
}

/// One occurrence more of a variable. Gives how many variables there are then, or 17.
fn count_variable(
    words: Words,
    names: &mut WordTable,
    known: usize,
    hints: &mut Hints,
    rows: &mut Rows,
    base: usize,
) -> usize
    requires { (base + 17 ≤ 1224) × (SmallRow rows.old base) }
    ensures { CountsOne words names.old known rows.old base result names.new rows.new }
{
    if Form::VARIABLES < known {
        return Form::VARIABLES + 1;
    }
    let at = words::place_by(names, known, words, hints);
    if Form::VARIABLES <= at {
        return Form::VARIABLES + 1;
    }
    let before = rows[base + 1 + at];
    rows[base + 1 + at] = before + 1;
    if at < known {
        return known;
    }
    names[known] = words;
    known + 1
}

/// The second step of section 1.4: counts the occurrences of a term's variables, by their places, into the row of a table that
/// starts at `base`. The number at `base + 1 + i` is how often the ith variable of the table of names occurs. Variables that are not yet in that table are
/// put after the others. Gives how many are in it then, or 17 where there would be more than 16. Whatever the hints hold,
/// the answer is right.
pub fn count_occurrences(
    field: &[u8],
    places: &[u16],
    names: &mut WordTable,
    known: usize,
    hints: &mut Hints,
    rows: &mut Rows,
    base: usize,
) -> usize
    requires { (PlacesStand field.now places.now (length places.now)) × (known ≤ 17) × (base + 17 ≤ 1224) }
    ensures { Counted field.now names.old known rows.old base result names.new rows.new }
{
    clear_row(rows, base);
    let mut many = known;
    for place in places {
        let start = tokens::start_of(*place);
        let end = tokens::end_of(*place);
        let words = words::words_at(field, start, end);
        many = count_variable(words, names, many, hints, rows, base);
    }
    many
}

/// The form of a term, into the row of a table that starts at `base`: its constant by the first step, its coefficients by the
/// second, in the order of section 1.4. Gives what the second step gives.
pub fn form_of_term(
    field: &[u8],
    read: Tokens,
    room: &TokenRoom,
    names: &mut WordTable,
    known: usize,
    hints: &mut Hints,
    rows: &mut Rows,
    base: usize,
) -> usize
    requires { (TokensStand field.now read room.now) × (known ≤ 17) × (base + 17 ≤ 1224) }
    ensures { FormTaken structural field.now names.old known rows.old base result names.new rows.new }
{
    let constant = sum_of_arities(&room.arities[..read.symbols]);
    let places = &room.places[..read.variables];
    let many = count_occurrences(field, places, names, known, hints, rows, base);
    rows[base] = constant;
    many
}
