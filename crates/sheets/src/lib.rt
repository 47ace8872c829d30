// The sheet: the pack is loaded as check loads it, and one walk over the accepted text writes a line for each rule.
#![tactic(auto)]

ghost use Rattle.std.specs.Prelude.{◌≡◌, Ok};
ghost use Rattle.theory.specs.Lists.{over};
ghost use Rattle.theory.specs.Written.{pack_of};
ghost use Rattle.theory.specs.Check.{verdict_of};
ghost use Rattle.theory.specs.Answers.{numbers_of, filing_numbers};
ghost use Rattle.theory.specs.Sheet.{sheet as sheetFor, sheet_of};
ghost use Rattle.sheets.specs.Readiness.{Ready};

use tables::Tables;
use theory::{Counts, FilingRefusal};

/// Writes the sheet of an accepted text with so many rules, line by line: each line is lent what the lines before it leave of the page.
fn put_sheet(text: &[u8], rules: usize, page: &mut [u8])
    requires { Ready text.now rules page.old }
    ensures { page.new ≡ over (sheetFor (pack_of text.now).rules) page.old }
{
    let mut from = sections::rules_begin(text);
    let mut at = 0;
    for number in 0..rules {
        let rule = sections::rule_at(text, from);
        at += columns::put_line(
            &mut page[at..],
            number + 1,
            &text[from + 2..rule.name_end],
            rule.subgoals,
            rule.multiplier_lines,
        );
        from = rule.after;
    }
}

/// Files the sheet of an accepted text if the page has room for it.
fn file(text: &[u8], counts: Counts, page: &mut [u8]) -> Result<Counts, FilingRefusal>
    requires { numbers_of (Ok counts) ≡ (verdict_of text.now).returned }
    ensures { (filing_numbers result ≡ (sheet_of text.now page.old).returned) × (page.new ≡ (sheet_of text.now page.old).page) }
{
    let rules = counts.rules as usize;
    if page.len() < 65 * rules {
        return Err(FilingRefusal::ShortPage);
    }
    put_sheet(text, rules, page);
    Ok(counts)
}

/// Writes the sheet of a pack on a page. A refusal leaves the page as it is.
pub fn sheet(text: &[u8], page: &mut [u8]) -> Result<Counts, FilingRefusal>
    ensures { (filing_numbers result ≡ (sheet_of text.now page.old).returned) × (page.new ≡ (sheet_of text.now page.old).page) }
{
    let mut tables = Tables::empty();
    let loaded = packs::load(text, &mut tables);
    let counts = loaded.verdict.map_err(FilingRefusal::NotAccepted)?;
    file(text, counts, page)
}
