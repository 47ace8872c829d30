// Runs of fields `0`, eight bytes at a time.
ghost use Rattle.std.specs.Prelude.{◌≡◌, ◌+◌, ◌≤◌, length};
ghost use Rattle.numbers.specs.Zeros.{Zeros};

/// The fields `0,0,0,0,` as one number.
const ZEROS: u64 = 0x2c302c302c302c30;

/// How many fields `0`, each with the comma after it, stand at the start of eight bytes.
fn zeros_of_eight(eight: &[u8]) -> usize
    requires { length eight.now ≡ 8 }
    ensures { (result ≤ 4) × Zeros eight.now 0 result }
{
    (text::eight_bytes(eight, 0) ^ ZEROS).trailing_zeros() as usize / 16
}

/// How many fields `0`, each with the comma after it, stand from a place on. It stops where fewer than eight bytes are left,
/// and a first byte that is not `0` is looked at alone, so that fields that are not `0` cost little.
pub fn zeros(bytes: &[u8], from: usize) -> usize
    requires { from ≤ length bytes.now }
    ensures { Zeros bytes.now from result }
{
    let rest = &bytes[from..];
    let mut count: usize = 0;
    if let [b'0', ..] = rest {
        for eight in rest.chunks_exact(8) {
            let more = zeros_of_eight(eight);
            count += more;
            if more < 4 {
                return count;
            }
        }
    }
    count
}
