// The calls as the terminal's firmware makes them: document 01's three answer with one 64-bit word, the others with four
// numbers. The crate cerrundix_c exports them to C.
#![tactic(auto)]

ghost use Rattle.std.specs.Prelude.{◌≡◌};
ghost use Rattle.theory.specs.Words.{check_word, reserve_word, measure_word};
ghost use Rattle.theory.specs.Check.{check_of};
ghost use Rattle.theory.specs.Measure.{measure_of};
ghost use Rattle.theory.specs.Reserve.{reserve_of};
ghost use Rattle.theory.specs.Sheet.{sheet_of};
ghost use Rattle.clause_theory.specs.Import.{import_of};

use answers::{Answer, Four, Three, Two};

/// Checks a pack: the word of check's four numbers. For an unjustified claim the area's first 17 numbers are the
/// residual; otherwise the area stays.
pub fn check(text: &[u8], area: &mut [i64]) -> u64
    ensures { (result ≡ check_word (check_of text.now area.old).returned) × (area.new ≡ (check_of text.now area.old).area) }
{
    answers::check_word(Four::from(packs::check(text, area)))
}

/// Reserves by a pack and a query: the word of the letter, the claim and the middle field.
pub fn reserve(text: &[u8], query: &[u8]) -> u64
    ensures { result ≡ reserve_word (reserve_of text.now query.now) }
{
    answers::reserve_word(Three::from(reservation::reserve(text, query)))
}

/// Measures a ground term: the word of the refusal, or 0, and the size.
pub fn measure(term: &[u8]) -> u64
    ensures { result ≡ measure_word (measure_of term.now) }
{
    answers::measure_word(Two::from(terms::measure(term)))
}

/// Writes the sheet of a pack on a page: 65 bytes for each rule. A refusal leaves the page as it is.
pub fn cerrundix_sheet(text: &[u8], page: &mut [u8]) -> Answer
    ensures { (result ≡ (sheet_of text.now page.old).returned) × (page.new ≡ (sheet_of text.now page.old).page) }
{
    Answer::from(Four::from(sheets::sheet(text, page)))
}

/// Imports a clause text: an `H` line and `B` lines for each clause, at the front of a buffer. A refusal leaves the buffer as
/// it is.
pub fn cerrundix_import(text: &[u8], buffer: &mut [u8]) -> Answer
    ensures { (result ≡ (import_of text.now buffer.old).returned) × (buffer.new ≡ (import_of text.now buffer.old).page) }
{
    Answer::from(imports::import(text, buffer))
}
