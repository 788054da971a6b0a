// The checksum that runs through a log.
ghost use Rattle.std.specs.Prelude.{◌≡◌, ◌+◌, ◌≤◌, length};
ghost use Rattle.log_format.specs.Bytes.{word_at};
ghost use Rattle.log_format.specs.Sums.{log_sum};

use byteorder::{ByteOrder, LittleEndian};
use number_fields::u32_at;

/// Two numbers that run over pairs of words.
#[derive(Clone, Copy, Debug, PartialEq, Eq)]
pub struct LogSum {
    pub first: u32,
    pub second: u32,
}

/// The word from `at` on, its most significant byte first or last.
fn word_at(is_big: bool, bytes: &[u8], at: usize) -> u32
    requires { at + 4 ≤ length bytes.now }
    ensures { result ≡ word_at is_big bytes.now at }
{
    if is_big {
        u32_at(bytes, at)
    } else {
        LittleEndian::read_u32(&bytes[at..])
    }
}

/// The checksum behind these bytes, from the one before them. Their length is a multiple of 8; bytes behind the last whole eight do
/// not count.
pub fn checksum(is_big: bool, before: LogSum, bytes: &[u8]) -> LogSum
    ensures { result ≡ log_sum is_big before bytes.now }
{
    let mut sum = before;
    for k in 0..bytes.len() / 8 {
        let x = word_at(is_big, bytes, 8 * k);
        let y = word_at(is_big, bytes, 8 * k + 4);
        let first = sum.first.wrapping_add(x).wrapping_add(sum.second);
        let second = sum.second.wrapping_add(y).wrapping_add(first);
        sum = LogSum { first, second };
    }
    sum
}
