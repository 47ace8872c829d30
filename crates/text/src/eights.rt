// Bytes as one number, the first byte the lowest: two, four or eight of them. A function for each width, since
// `from_le_bytes` is a method of each type of number.
ghost use Rattle.std.specs.Prelude.{◌≡◌, ◌+◌, ◌≤◌, length};
ghost use Rattle.text.specs.Scans.{part};
ghost use Rattle.text.specs.ByteNumbers.{number, Numbered};

/// Two bytes as one number.
pub fn two_bytes(bytes: &[u8], at: usize) -> u64
    requires { at + 2 ≤ length bytes.now }
    ensures { Numbered bytes.now at 2 65536 result }
{
    u16::from_le_bytes([bytes[at], bytes[at + 1]]) as u64
}

/// Four bytes as one number.
pub fn four_bytes(bytes: &[u8], at: usize) -> u64
    requires { at + 4 ≤ length bytes.now }
    ensures { Numbered bytes.now at 4 4294967296 result }
{
    u32::from_le_bytes([bytes[at], bytes[at + 1], bytes[at + 2], bytes[at + 3]]) as u64
}

/// Eight bytes as one number: one load.
pub fn eight_bytes(bytes: &[u8], at: usize) -> u64
    requires { at + 8 ≤ length bytes.now }
    ensures { result ≡ number (part bytes.now at (at + 8)) }
{
    u64::from_le_bytes([
        bytes[at],
        bytes[at + 1],
        bytes[at + 2],
        bytes[at + 3],
        bytes[at + 4],
        bytes[at + 5],
        bytes[at + 6],
        bytes[at + 7],
    ])
}
