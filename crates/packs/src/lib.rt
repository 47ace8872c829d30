// Check: loading a pack, which is the tests of the whole text around its lines, and the residual area.
#![tactic(auto)]

ghost use Rattle.std.specs.Prelude.{◌≡◌, ◌≤◌, length, None, Err};
ghost use Rattle.theory.specs.Answers.{refusal_numbers, numbers_of};
ghost use Rattle.theory.specs.Check.{check_of};
ghost use Rattle.tables.specs.Tables.{SafeState};
ghost use Rattle.lines.specs.LineLoading.{fault_numbers, unruled};
ghost use Rattle.packs.specs.Loading.{begun, fresh, Judges, Laid, Loads};

use forms::Form;
use tables::{Fault, Manner, State, Tables};
use theory::{Counts, Refusal};

/// The state before any line.
fn start() -> State
    ensures { result ≡ begun }
{
    State {
        predicates: 0,
        claimed: false,
        rules: 0,
        multiplier_lines: 0,
        head: 0,
        subgoals: 0,
        variables: 0,
        slots: 0,
        multipliers: 0,
        shipped: 0,
        owing: 0,
        headed: 0,
        ended: false,
    }
}

/// The refusal of a line by its fault.
fn refusal(fault: Fault, line: u16, rule: u8, claim: u8) -> Refusal
    ensures { refusal_numbers result ≡ fault_numbers fault line rule claim }
{
    match fault {
        Fault::UnfitLine => Refusal::UnfitLine(line),
        Fault::Letter => Refusal::Letter(line),
        Fault::Name => Refusal::Name(line),
        Fault::Declaration => Refusal::Declaration(line),
        Fault::FieldCount => Refusal::FieldCount(line),
        Fault::Number => Refusal::Number(line),
        Fault::NoTerm => Refusal::NoTerm(line),
        Fault::CountLimit => Refusal::CountLimit(line),
        Fault::Unjustified => Refusal::Unjustified(line, rule, claim),
        Fault::RuledFact => Refusal::RuledFact(line),
        Fault::NotGround => Refusal::NotGround(line),
        Fault::UnmetClaim => Refusal::UnmetClaim(line),
        Fault::Headless => Refusal::Headless(line),
    }
}

/// Check's verdict by how the lines end: the number of the last line that was read, and the state there.
fn verdict(ending: Result<(), Fault>, line: usize, state: State) -> Result<Counts, Refusal>
    requires { (SafeState state) × (line ≤ 32768) }
    ensures { Judges ending line state result }
{
    let lines = line as u16;
    let rules = state.rules as u8;
    if let Err(fault) = ending {
        return Err(refusal(fault, lines, rules, (state.multipliers + 1) as u8));
    }
    if !state.ended {
        return Err(Refusal::NoEnd);
    }
    Ok(Counts {
        lines,
        rules,
        multiplier_lines: state.multiplier_lines as u16,
    })
}

/// A text that is judged: the verdict, the residual where a claim is not justified, and the state after the last line that was
/// read.
#[derive(Clone, Copy)]
pub struct Loaded {
    pub verdict: Result<Counts, Refusal>,
    pub residual: Option<Form>,
    pub state: State,
}

/// A text that is refused before any line is read.
fn refused(refusal: Refusal) -> Loaded
    ensures { (result.verdict ≡ Err refusal) × (result.residual ≡ None) }
{
    Loaded {
        verdict: Err(refusal),
        residual: None,
        state: start(),
    }
}

/// Judges a text and fills the tables, which are empty at first, with what its lines write.
#[tactic(auto, using(crate::proofs::LoadAnswers::long_text_lem))]
pub fn load(text: &[u8], tables: &mut Tables) -> Loaded
    requires { unruled tables.old ≡ fresh }
    ensures { Loads text.now result tables.new }
{
    let len = text.len();
    if 32768 < len {
        return refused(Refusal::LongText);
    }
    if len == 0 || text[len - 1] != b'\n' {
        return refused(Refusal::UnfinishedText);
    }
    let l = lines::load_lines(Manner::Whole, text, start(), tables);
    Loaded {
        verdict: verdict(l.ending, l.line, l.state),
        residual: l.residual,
        state: l.state,
    }
}

/// Lays a residual over the area's first 17 numbers.
fn lay(area: &mut [i64], form: Form)
    requires { 17 ≤ length area.old }
    ensures { Laid area.old form area.new }
{
    area[0] = form.constant;
    for i in 0..Form::VARIABLES {
        area[1 + i] = form.coefficients[i];
    }
}

/// Checks a pack. For an unjustified claim the area's first 17 numbers are the residual; otherwise it stays.
pub fn check(text: &[u8], area: &mut [i64]) -> Result<Counts, Refusal>
    ensures { (numbers_of result ≡ (check_of text.now area.old).returned) × (area.new ≡ (check_of text.now area.old).area) }
{
    if area.len() < 17 {
        return Err(Refusal::ShortArea);
    }
    let mut tables = Tables::empty();
    let l = load(text, &mut tables);
    if let Some(residual) = l.residual {
        lay(area, residual);
    }
    l.verdict
}
