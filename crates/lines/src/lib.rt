// A text's lines, judged one by one: the loops over lines and fields, and the picking of a step by its letter.
#![tactic(auto)]

ghost use Rattle.std.specs.Prelude.{◌≡◌, ◌≤◌, length};
ghost use Rattle.tables.specs.Manners.{manner_of};
ghost use Rattle.tables.specs.Sorts.{sort_of};
ghost use Rattle.tables.specs.Tables.{Safe};
ghost use Rattle.residuals.specs.Sums.{Summable};
ghost use Rattle.lines.specs.Steps.{IsEmpty, FieldReady, FieldDone, Skips, variables_before, ClosesE, CloseReady, CloseDone, LeavesResidual};
ghost use Rattle.lines.specs.LineLoading.{unruled, LoadsLines};

use forms::Form;
use tables::{
    Claims, Fault, Hints, Manner, NO_SLOT, Opened, Rows, Slots, State, Tables, Variables, Weights,
};
use theory::Letter;
use tokens::TokenRoom;
use words::{ClassTable, Words};

/// The words of no name.
const NO_WORDS: Words = Words {
    first: 0,
    second: 0,
};

/// What the fields of a line are read into: the row of a `C` line, the tables of the last rule, the weights of an `M` line, and
/// room to work in. The loops lend it as one.
#[derive(Drop)]
struct Room {
    /// Zeros before the first field of a line.
    row: [i16; 9],
    variables: Variables,
    rows: Rows,
    weights: Weights,
    slots: Slots,
    hints: Hints,
    tokens: TokenRoom,
}

impl Room {
    /// The room before any line: zeros.
    fn empty() -> Room
        ensures { IsEmpty result }
    {
        Room {
            row: [0i16; 9],
            variables: [NO_WORDS; 32],
            rows: [0u16; 1224],
            weights: [0i32; 81],
            slots: [NO_SLOT; 128],
            hints: [0u8; 128],
            tokens: TokenRoom::empty(),
        }
    }

    /// One field of a line, by the line's letter. A `P` line has none left, and an `E` line has none at all.
    fn read_field(
        &mut self,
        letter: Letter,
        index: usize,
        part: &[u8],
        state: State,
        many: usize,
        claims: &Claims,
        classes: &ClassTable,
    ) -> Result<usize, Fault>
        requires { FieldReady letter index part.now state many claims.now self.old }
        ensures { FieldDone letter index part.now state many claims.now self.old result self.new }
    {
        match letter {
            Letter::C => declarations::field_claim(index, part, &mut self.row, many),
            Letter::G | Letter::H | Letter::B => atoms::field_term(
                atoms::atom_of(letter, state.subgoals),
                index,
                part,
                many,
                &mut self.variables,
                &mut self.rows,
                &mut self.hints,
                &mut self.tokens,
                classes,
            ),
            Letter::M => certificates::field_multiplier(
                index,
                part,
                many,
                claims,
                &self.slots,
                &mut self.weights,
            ),
            Letter::P | Letter::E => Err(Fault::FieldCount),
            Letter::NoLetter => Err(Fault::Letter),
        }
    }

    /// A line's last tests, and what it adds to the tables, by its letter.
    fn close_line(
        &mut self,
        manner: Manner,
        o: Opened,
        state: State,
        many: usize,
        tables: &mut Tables,
    ) -> Result<State, Fault>
        requires { CloseReady o.letter o state tables.old self.old }
        ensures { CloseDone (manner_of manner) o.letter o state many tables.old self.old result tables.new self.new }
    {
        match o.letter {
            Letter::P => declarations::close_predicate(o, state, &mut tables.signatures),
            Letter::C => declarations::close_claim(
                o,
                state,
                &self.row,
                &mut tables.signatures,
                &mut tables.claims,
            ),
            Letter::G => facts::close_fact(
                o,
                state,
                many,
                &tables.signatures,
                &tables.claims,
                &self.rows,
            ),
            Letter::H => rules::close_head(o, state, many),
            Letter::B => {
                rules::close_subgoal(o, state, many, &tables.signatures, &mut self.slots)
            }
            Letter::M => certificates::close_multipliers(
                state,
                &tables.claims,
                &mut self.weights,
                &self.rows,
            ),
            Letter::E => close_end(manner, state),
            Letter::NoLetter => Err(Fault::Letter),
        }
    }

    /// The residual that a line leaves at whose end there is a fault: there is one only where a claim is not justified.
    fn residual(&self, fault: Fault, state: State) -> Option<Form>
        requires { (state.subgoals ≤ 8) × Summable self.now.weights self.now.rows }
        ensures { LeavesResidual self.now.weights self.now.rows state fault result }
    {
        if fault != Fault::Unjustified {
            return None;
        }
        Some(residuals::residual(&self.weights, &self.rows, state.subgoals, state.variables))
    }
}

/// Whether a ruled predicate with a claim has to head a rule.
fn refuses_headless(manner: Manner) -> bool
    ensures { result ≡ (manner_of manner).refuses_headless }
{
    matches!(manner, Manner::Whole)
}

/// The end of an `E` line: every ruled predicate with a claim heads a rule, where that is asked.
fn close_end(manner: Manner, state: State) -> Result<State, Fault>
    ensures { ClosesE (manner_of manner) state result }
{
    if refuses_headless(manner) & !tables::is_within(state.owing, state.headed) {
        return Err(Fault::Headless);
    }
    Ok(State {
        ended: true,
        ..state
    })
}

/// How many variables the rule has when the fields of a line begin.
fn variables_before(letter: Letter, state: State) -> usize
    ensures { result ≡ variables_before (sort_of letter) state }
{
    if matches!(letter, Letter::G | Letter::H) {
        0
    } else {
        state.variables
    }
}

/// How many fields from a place on need not be read: multipliers 0, which change nothing, up to one that is read.
fn zeros_ahead(letter: Letter, line: &[u8], from: usize) -> usize
    requires { from ≤ length line.now }
    ensures { Skips line.now from (sort_of letter) result }
{
    match letter {
        Letter::M => numbers::zeros(line, from),
        _ => 0,
    }
}

/// A text whose lines are judged: whether all pass, or the first fault; the number of the last line that was read, the state
/// there, and the residual where that line's claim is not justified.
#[derive(Clone, Copy)]
pub struct LoadedLines {
    pub ending: Result<(), Fault>,
    pub line: usize,
    pub state: State,
    pub residual: Option<Form>,
}

/// Judges the lines of a text in some manner, after lines that have filled the tables and left the state, with no rule among
/// them. Left at the first fault.
pub fn load_lines(manner: Manner, text: &[u8], start: State, tables: &mut Tables) -> LoadedLines
    requires { Safe (unruled tables.old) start }
    ensures { LoadsLines (manner_of manner) text.now start (unruled tables.old) result tables.new }
{
    let classes = ClassTable::standard();
    let plain = text::is_plain(text);
    let mut room = Room::empty();
    let len = text.len();
    let mut state = start;
    let mut ending = Ok(());
    let mut residual = None;
    let mut number: usize = 0;
    let mut at: usize = 0;
    // Loops over lines and fields, each with its label and left at the first fault, are the form that document 01 names.
    'lines: while at < len {
        let end = text::find(text, b'\n', at);
        let line = &text[at..end];
        number += 1;
        let opened = opening::open(
            line,
            state,
            &tables.signatures,
            &mut room.hints,
            &classes,
            plain,
        );
        let o = match opened {
            Ok(o) => o,
            Err(fault) => {
                ending = Err(fault);
                break 'lines;
            }
        };
        let letter = o.letter;
        let width = line.len();
        room.row = [0i16; 9];
        let mut many = variables_before(letter, state);
        let mut from = o.from;
        let mut index: usize = 0;
        // No iterator over fields would be plainer: fields are passed over in runs, and the place moves by them too.
        'fields: while from <= width {
            let skipped = zeros_ahead(letter, line, from);
            index += skipped;
            from += 2 * skipped;
            let stop = reader::field_end(line, from);
            let part = &line[from..stop];
            match room.read_field(letter, index, part, state, many, &tables.claims, &classes) {
                Ok(known) => {
                    many = known;
                }
                Err(fault) => {
                    ending = Err(fault);
                    break 'lines;
                }
            }
            index += 1;
            from = stop + 1;
        }
        match room.close_line(manner, o, state, many, tables) {
            Ok(next) => {
                state = next;
            }
            Err(fault) => {
                ending = Err(fault);
                residual = room.residual(fault, state);
                break 'lines;
            }
        }
        at = end + 1;
    }
    LoadedLines {
        ending,
        line: number,
        state,
        residual,
    }
}
