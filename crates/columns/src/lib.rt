// The columns of the sheet, and a line of it. Each writer is lent the rest of the page, and gives how many bytes it wrote.
#![tactic(auto)]

ghost use Rattle.std.specs.Prelude.{[], ◌∷◌, ◌++◌, ◌≤◌, ◌<◌, length};
ghost use Rattle.theory.specs.Text.{decimal};
ghost use Rattle.theory.specs.Sheet.{spaces, right_aligned, left_aligned, entry, sheet_line};
ghost use Rattle.theory.proofs.Reading.Alignment.{FitsColumns};
ghost use Rattle.pages.specs.Pages.{Puts};

/// A number at the right edge of a column, and the space after it.
fn put_number(page: &mut [u8], width: usize, n: usize) -> usize
    requires { (length (decimal n) ≤ width) × (width < length page.old) }
    ensures { Puts (right_aligned width (decimal n) ++ (32 ∷ [])) page.old page.new result }
{
    let start = width - pages::digits(n as u64);
    pages::put_spaces(&mut page[..start]);
    pages::put_field(n as u64, b' ', page, start)
}

/// A name at the left edge of a column, and the space after it.
fn put_name(page: &mut [u8], width: usize, name: &[u8]) -> usize
    requires { (length name.now ≤ width) × (width < length page.old) }
    ensures { Puts (left_aligned width name.now ++ (32 ∷ [])) page.old page.new result }
{
    let end = name.len();
    pages::copy_over(name, &mut page[..end]);
    pages::put_spaces(&mut page[end..width + 1]);
    width + 1
}

/// The end of a line: so many spaces, and its byte 10.
fn put_end(page: &mut [u8], blank: usize) -> usize
    requires { blank < length page.old }
    ensures { Puts (spaces blank ++ (10 ∷ [])) page.old page.new result }
{
    pages::put_spaces(&mut page[..blank]);
    page[blank] = b'\n';
    blank + 1
}

/// A rule's line, with its byte 10, at the front of a page. Each column is laid into the rest of the page.
pub fn put_line(
    page: &mut [u8],
    number: usize,
    name: &[u8],
    subgoals: usize,
    multiplier_lines: usize,
) -> usize
    requires { (65 ≤ length page.old) × FitsColumns number (entry name.now subgoals multiplier_lines) }
    ensures { Puts (sheet_line number (entry name.now subgoals multiplier_lines) ++ (10 ∷ [])) page.old page.new result }
{
    let second = put_number(page, 4, number);
    let third = second + put_name(&mut page[second..], 16, name);
    let fourth = third + put_number(&mut page[third..], 2, subgoals);
    let last = fourth + put_number(&mut page[fourth..], 3, multiplier_lines);
    last + put_end(&mut page[last..], 64 - last)
}
