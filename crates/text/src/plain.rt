// Whether a text is plain, and what that spares of its lines.
ghost use Rattle.std.specs.Prelude.{◌≡◌, true};
ghost use Rattle.theory.specs.Lists.{every};
ghost use Rattle.theory.specs.Text.{between};
ghost use Rattle.theory.specs.Faults.{is_unfit};
ghost use Rattle.text.specs.Scans.{is_plain};

/// Whether each byte is 10 or may stand in a line. All bytes are looked at, with one flag: a few vector instructions.
pub fn is_plain(text: &[u8]) -> bool
    ensures { result ≡ every is_plain text.now }
{
    let mut odd = false;
    for &b in text {
        odd = odd | (((b < b' ') | (b'~' < b)) & (b != b'\n'));
    }
    !odd
}

/// As `is_unfit`. Of a text that is plain, a line's bytes need not be looked at again.
pub fn is_unfit_in(line: &[u8], plain: bool) -> bool
    requires { plain ≡ true → every (between 32 126) line.now ≡ true }
    ensures { result ≡ is_unfit line.now }
{
    if 1024 < line.len() {
        return true;
    }
    if plain {
        return false;
    }
    super::is_unfit(line)
}
