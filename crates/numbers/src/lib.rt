// The numbers in fields: decimal numbers, and fields `0` in runs.
#![tactic(auto)]

ghost use Rattle.std.specs.Prelude.{◌≡◌, ◌-◌, ◌≤◌, ◌<◌, negsuc};
ghost use Rattle.theory.specs.Text.{natural, integer};
ghost use Rattle.numbers.specs.Numbers.{option_of};

mod runs;

pub use runs::zeros;

fn digit(b: u8) -> u32
    requires { (48 ≤ b) × (b ≤ 57) }
    ensures { (result ≡ b - 48) × (result < 10) }
{
    (b - b'0') as u32
}

/// A number from 0 to a limit, without leading zeros.
#[tactic(auto, using(crate::proofs::NaturalReading::natural_of_zeros))]
pub fn read_natural(field: &[u8], limit: u32) -> Option<u32>
    requires { limit ≤ 99999 }
    ensures { option_of result ≡ natural limit field.now }
{
    match field {
        [] | [b'0', _, ..] => return None,
        _ => {}
    }
    let mut value: u32 = 0;
    for b in field {
        match *b {
            b'0'..=b'9' => value = value * 10 + digit(*b),
            _ => return None,
        }
        if limit < value {
            return None;
        }
    }
    Some(value)
}

/// A number from -limit to limit, without leading zeros, `-0` or a plus sign.
pub fn read_integer(field: &[u8], limit: u32) -> Option<i64>
    requires { limit ≤ 99999 }
    ensures { option_of result ≡ integer limit field.now }
{
    match field {
        [b'-', digits @ ..] => match read_natural(digits, limit)? {
            0 => None,
            n => Some(-(n as i64)),
        },
        _ => Some(read_natural(field, limit)? as i64),
    }
}
