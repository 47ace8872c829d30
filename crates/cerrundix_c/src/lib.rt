// What C callers link: the calls of the crate cerrundix under the names that the header has, with the same promises.
#![tactic(auto)]

ghost use Rattle.std.specs.Prelude.{◌≡◌};
ghost use Rattle.theory.specs.Words.{check_word, reserve_word, measure_word};
ghost use Rattle.theory.specs.Check.{check_of};
ghost use Rattle.theory.specs.Measure.{measure_of};
ghost use Rattle.theory.specs.Reserve.{reserve_of};
ghost use Rattle.theory.specs.Sheet.{sheet_of};
ghost use Rattle.clause_theory.specs.Import.{import_of};

use answers::Answer;

/// Checks a pack: the word of check's four numbers. For an unjustified claim the area's first 17 numbers are the
/// residual; otherwise the area stays.
#[unsafe(no_mangle)]
pub extern "C" fn check(text: &[u8], area: &mut [i64]) -> u64
    ensures { (result ≡ check_word (check_of text.now area.old).returned) × (area.new ≡ (check_of text.now area.old).area) }
{
    cerrundix::check(text, area)
}

/// Reserves by a pack and a query: the word of the letter, the claim and the middle field.
#[unsafe(no_mangle)]
pub extern "C" fn reserve(text: &[u8], query: &[u8]) -> u64
    ensures { result ≡ reserve_word (reserve_of text.now query.now) }
{
    cerrundix::reserve(text, query)
}

/// Measures a ground term: the word of the refusal, or 0, and the size.
#[unsafe(no_mangle)]
pub extern "C" fn measure(term: &[u8]) -> u64
    ensures { result ≡ measure_word (measure_of term.now) }
{
    cerrundix::measure(term)
}

/// Writes the sheet of a pack on a page: 65 bytes for each rule. A refusal leaves the page as it is.
#[unsafe(no_mangle)]
pub extern "C" fn cerrundix_sheet(text: &[u8], page: &mut [u8]) -> Answer
    ensures { (result ≡ (sheet_of text.now page.old).returned) × (page.new ≡ (sheet_of text.now page.old).page) }
{
    cerrundix::cerrundix_sheet(text, page)
}

/// Imports a clause text: an `H` line and `B` lines for each clause, at the front of a buffer. A refusal leaves the buffer as
/// it is.
#[unsafe(no_mangle)]
pub extern "C" fn cerrundix_import(text: &[u8], buffer: &mut [u8]) -> Answer
    ensures { (result ≡ (import_of text.now buffer.old).returned) × (buffer.new ≡ (import_of text.now buffer.old).page) }
{
    cerrundix::cerrundix_import(text, buffer)
}
