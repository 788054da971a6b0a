// The header of a log.
//
// | offset | length | field                                                                                     |
// | 0      | 4      | magic: 377f0682, or 377f0683 where the words of its checksums have the highest byte first |
// | 4      | 4      | version of the format: 3007000                                                            |
// | 8      | 4      | page size, in bytes                                                                       |
// | 12     | 4      | how often the log was begun anew                                                          |
// | 16     | 8      | two salts, which each frame repeats                                                       |
// | 24     | 8      | checksum of the 24 bytes before                                                           |
ghost use Rattle.std.specs.Prelude.{◌≡◌, ◌+◌, ◌≤◌, IsTrue, MatchOption, false, length, true};
ghost use Rattle.log_format.specs.Header.{HasLogFields, is_log_head, is_page_size, stores_sum};

use crate::sum::{LogSum, checksum};
use number_fields::u32_at;

/// The fields of a log's header.
#[derive(Clone, Copy, Debug, PartialEq, Eq)]
pub struct LogHeader {
    /// Whether the words of the checksums have the highest byte first (by offset 0).
    pub is_big: bool,
    /// The version of the format (offset 4).
    pub version: u32,
    /// The length of a page, in bytes (offset 8).
    pub page_size: u32,
    /// The salts (offsets 16 and 20).
    pub salt: u32,
    pub other_salt: u32,
    /// The checksum, with which that of the first frame begins (offset 24).
    pub sum: LogSum,
}

/// Whether a page size, in bytes, is a power of two from 512 to 65,536.
fn is_page_size(size: u32) -> bool
    ensures answer { result ≡ is_page_size size }
    ensures bounds { IsTrue result → (512 ≤ size) × (size ≤ 65536) }
{
    matches!(
        size,
        512 | 1024 | 2048 | 4096 | 8192 | 16384 | 32768 | 65536
    )
}

/// Whether the eight bytes from `at` on are the checksum.
pub fn stores_sum(bytes: &[u8], at: usize, sum: &LogSum) -> bool
    requires { at + 8 ≤ length bytes.now }
    ensures { result ≡ stores_sum bytes.now at sum.now }
{
    u32_at(bytes, at) == sum.first && u32_at(bytes, at + 4) == sum.second
}

/// The fields of the header at the start of a log. None where there are fewer than 32 bytes, no magic, no page size, or another
/// checksum: such a log holds nothing.
pub fn read_log_header(bytes: &[u8]) -> Option<LogHeader>
    ensures fields { MatchOption result (is_log_head bytes.now ≡ false) (λ header. (is_log_head bytes.now ≡ true) × HasLogFields bytes.now header) }
    ensures bounds { MatchOption result (Unit {0}) (λ header. (512 ≤ header.page_size) × (header.page_size ≤ 65536)) }
{
    if bytes.len() < 32 {
        return None;
    }
    let magic = u32_at(bytes, 0);
    let is_big = magic == 0x377f0683;
    if !(magic == 0x377f0682 || is_big) {
        return None;
    }
    let page_size = u32_at(bytes, 8);
    if !is_page_size(page_size) {
        return None;
    }
    let start = LogSum {
        first: 0,
        second: 0,
    };
    let sum = checksum(is_big, start, &bytes[..24]);
    if !stores_sum(bytes, 24, &sum) {
        return None;
    }
    Some(LogHeader {
        is_big,
        version: u32_at(bytes, 4),
        page_size,
        salt: u32_at(bytes, 16),
        other_salt: u32_at(bytes, 20),
        sum,
    })
}
