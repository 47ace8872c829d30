// Few bytes as words: up to eight as one, up to sixteen as two.
ghost use Rattle.std.specs.Prelude.{◌≡◌, ◌+◌, ◌-◌, ◌/◌, ◌%◌, ◌^◌, ◌≤◌, ◌<◌, length, drop};
ghost use Rattle.text.specs.Scans.{part};
ghost use Rattle.text.specs.ByteNumbers.{number};
ghost use Rattle.words.specs.Words.{words_of};

use super::Words;

/// The lowest bytes of a word.
fn lowest_bytes(word: u64, count: usize) -> u64
    requires { count < 8 }
    ensures { result ≡ word % 256 ^ count }
{
    word & ((1u64 << (8 * count)) - 1)
}

/// The highest bytes of a word. Shifted twice, since no word is shifted by all of its bits.
fn highest_bytes(word: u64, count: usize) -> u64
    requires { count < 8 }
    ensures { result ≡ word / 256 ^ (8 - count) }
{
    (word >> (8 * (7 - count))) >> 8
}

/// Bytes as one number by two halves of two or four bytes, which may overlap: the first as it is, and of the last what comes
/// after the first.
fn by_halves(bytes: &[u8], half: usize, first: u64, last: u64) -> u64
    requires { (half ≤ 4) × (half ≤ length bytes.now) × (length bytes.now ≤ half + half) × (first ≡ number (part bytes.now 0 half)) × (last ≡ number (part bytes.now (length bytes.now - half) (length bytes.now - half + half))) }
    ensures { result ≡ number bytes.now }
{
    first + (last >> (8 * (half + half - bytes.len()))) * (1u64 << (8 * half))
}

/// Of nine to sixteen bytes, those after the first eight as one number.
fn past_eight(bytes: &[u8]) -> u64
    requires { (8 < length bytes.now) × (length bytes.now ≤ 16) }
    ensures { result ≡ number (drop 8 bytes.now) }
{
    let count = bytes.len();
    text::eight_bytes(bytes, count - 8) >> (8 * (16 - count))
}

/// Up to eight bytes as one number.
fn few_bytes(bytes: &[u8]) -> u64
    requires { length bytes.now ≤ 8 }
    ensures { result ≡ number bytes.now }
{
    let count = bytes.len();
    if 4 <= count {
        return by_halves(
            bytes,
            4,
            text::four_bytes(bytes, 0),
            text::four_bytes(bytes, count - 4),
        );
    }
    if 2 <= count {
        return by_halves(
            bytes,
            2,
            text::two_bytes(bytes, 0),
            text::two_bytes(bytes, count - 2),
        );
    }
    if count == 1 {
        return bytes[0] as u64;
    }
    0
}

/// Up to sixteen bytes as two words.
pub fn words_of(bytes: &[u8]) -> Words
    requires { length bytes.now ≤ 16 }
    ensures { result ≡ words_of bytes.now }
{
    if bytes.len() <= 8 {
        return Words {
            first: few_bytes(bytes),
            second: 0,
        };
    }
    Words {
        first: text::eight_bytes(bytes, 0),
        second: past_eight(bytes),
    }
}

/// Up to eight bytes between two places as one number: as part of eight where eight stand from the first on, or up to the last.
fn word_at(bytes: &[u8], from: usize, end: usize) -> u64
    requires { (from ≤ end) × (end ≤ length bytes.now) × (end ≤ from + 8) }
    ensures { result ≡ number (part bytes.now from end) }
{
    let count = end - from;
    if 8 <= count {
        return text::eight_bytes(bytes, from);
    }
    if 8 <= bytes.len() - from {
        return lowest_bytes(text::eight_bytes(bytes, from), count);
    }
    if 8 <= end {
        return highest_bytes(text::eight_bytes(bytes, end - 8), count);
    }
    few_bytes(&bytes[from..end])
}

/// Up to sixteen bytes between two places as two words.
pub fn words_at(bytes: &[u8], from: usize, end: usize) -> Words
    requires { (from ≤ end) × (end ≤ length bytes.now) × (end ≤ from + 16) }
    ensures { result ≡ words_of (part bytes.now from end) }
{
    if end - from <= 8 {
        return Words {
            first: word_at(bytes, from, end),
            second: 0,
        };
    }
    Words {
        first: text::eight_bytes(bytes, from),
        second: word_at(bytes, from + 8, end),
    }
}
