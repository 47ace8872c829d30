// Writing into a lent page, at a place: what lies around the bytes that a writer writes stays, and it gives the place after
// them. Spaces fill all that is lent.
#![tactic(auto)]

ghost use Rattle.std.specs.Prelude.{◌≡◌, [], ◌∷◌, ◌++◌, ◌+◌, ◌≤◌, ◌<◌, length};
ghost use Rattle.theory.specs.Text.{decimal};
ghost use Rattle.theory.specs.Sheet.{spaces};
ghost use Rattle.pages.specs.Pages.{Puts, PutAt};

fn digit(n: u64) -> u8
    requires { n < 10 }
    ensures { result ≡ 48 + n }
{
    b'0' + n as u8
}

/// How many digits a number has. The loop counts no index: it goes by what is left of the number.
pub fn digits(n: u64) -> usize
    ensures { (result ≡ length (decimal n)) × (result ≤ 20) }
{
    let mut left = n;
    let mut many: usize = 1;
    while 10 <= left {
        left = left / 10;
        many += 1;
    }
    many
}

/// Writes a number in decimal at the front of a page, and gives how many digits it has. By hand: std writes a number into a
/// `String` or to a stream, and a crate that writes it into a slice (the kit's `itoa`) would be one more to trust.
fn put_decimal(page: &mut [u8], n: u64) -> usize
    requires { length (decimal n) ≤ length page.old }
    ensures { Puts (decimal n) page.old page.new result }
{
    let many = digits(n);
    let mut left = n;
    for at in (0..many).rev() {
        page[at] = digit(left % 10);
        left /= 10;
    }
    many
}

/// Writes a number in decimal at a place, and gives the place after it.
pub fn put_number(number: u64, page: &mut [u8], to: usize) -> usize
    requires { to + length (decimal number) ≤ length page.old }
    ensures { PutAt (decimal number) (length (decimal number)) page.old page.new to result }
{
    to + put_decimal(&mut page[to..], number)
}

/// Writes a byte at a place, and gives the place after it.
pub fn put_byte(byte: u8, page: &mut [u8], to: usize) -> usize
    requires { to + 1 ≤ length page.old }
    ensures { PutAt (byte ∷ []) 1 page.old page.new to result }
{
    page[to] = byte;
    to + 1
}

/// Writes a number in decimal and one byte after it, at a place, and gives the place after them.
pub fn put_field(number: u64, after: u8, page: &mut [u8], to: usize) -> usize
    requires { to + length (decimal number) + 1 ≤ length page.old }
    ensures { PutAt (decimal number ++ (after ∷ [])) (length (decimal number) + 1) page.old page.new to result }
{
    let end = put_number(number, page, to);
    put_byte(after, page, end)
}

/// Copies a source over room that is as long as it. A loop, so that callers of the library need no memmove.
pub fn copy_over(source: &[u8], room: &mut [u8])
    requires { length room.old ≡ length source.now }
    ensures { room.new ≡ source.now }
{
    for (at, byte) in source.iter().enumerate() {
        room[at] = *byte;
    }
}

/// Copies a text to a place on the page, and gives the place after it.
pub fn put_text(text: &[u8], page: &mut [u8], to: usize) -> usize
    requires { to + length text.now ≤ length page.old }
    ensures { PutAt text.now (length text.now) page.old page.new to result }
{
    copy_over(text, &mut page[to..to + text.len()]);
    to + text.len()
}

/// Fills a page with spaces.
#[tactic(auto, unfolding(theory::specs::Sheet::spaces))]
pub fn put_spaces(page: &mut [u8])
    ensures { page.new ≡ spaces (length page.old) }
{
    page.fill(b' ');
}
