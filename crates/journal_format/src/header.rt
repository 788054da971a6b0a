// The header of a segment.
//
// | offset | length | field                                                                |
// | 0      | 8      | magic: d9 d5 05 f9 20 a1 63 d7                                       |
// | 8      | 4      | count of records; ffffffff: as many whole ones as the file holds     |
// | 12     | 4      | nonce of the checksums                                               |
// | 16     | 4      | initial size of the database, in pages                               |
// | 20     | 4      | sector size, in bytes                                                |
// | 24     | 4      | page size, in bytes                                                  |
ghost use Rattle.std.specs.Prelude.{◌≡◌, ◌≤◌, IsTrue, MatchOption, bytes_eq, false, length, take, true};
ghost use Rattle.journal_format.specs.Header.{HasFields, journal_header_bytes, is_header, is_sector, journal_magic};

use number_fields::{u32_at, u32_bytes};

/// The fields of a segment's header, each with its offset in bytes.
#[derive(Clone, Copy, Debug, PartialEq, Eq)]
pub struct SegmentHeader {
    /// How many records the segment has, or ffffffff for as many whole ones as the file holds (offset 8).
    pub count: u32,
    /// What the checksums of the segment's records begin with (offset 12).
    pub nonce: u32,
    /// How many pages the database had at the start of the transaction (offset 16).
    pub initial: u32,
    /// The length of a header with its padding, in bytes (offset 20).
    pub sector: u32,
    /// The length of a page, in bytes (offset 24).
    pub page_size: u32,
}

const MAGIC: [u8; 8] = [0xd9, 0xd5, 0x05, 0xf9, 0x20, 0xa1, 0x63, 0xd7];

/// Whether the first eight bytes are the magic.
pub fn has_magic(bytes: &[u8]) -> bool
    requires { 8 ≤ length bytes.now }
    ensures { result ≡ bytes_eq (take 8 bytes.now) journal_magic }
{
    &bytes[..8] == MAGIC.as_slice()
}

/// The fields of the header at the start of the bytes. None where there are fewer than 28 of them, or no magic.
pub fn read_header(bytes: &[u8]) -> Option<SegmentHeader>
    ensures { MatchOption result (is_header bytes.now ≡ false) (λ header. (is_header bytes.now ≡ true) × HasFields bytes.now header) }
{
    if bytes.len() < 28 {
        return None;
    }
    if !has_magic(bytes) {
        return None;
    }
    Some(SegmentHeader {
        count: u32_at(bytes, 8),
        nonce: u32_at(bytes, 12),
        initial: u32_at(bytes, 16),
        sector: u32_at(bytes, 20),
        page_size: u32_at(bytes, 24),
    })
}

/// Writes the 28 bytes of a header.
pub fn write_header(header: &SegmentHeader, out: &mut [u8; 28])
    ensures bytes { out.new ≡ journal_header_bytes header.now.count header.now.nonce header.now.initial header.now.sector header.now.page_size }
    ensures reads_back { (is_header out.new ≡ true) × HasFields out.new header.now }
{
    let count = u32_bytes(header.count);
    let nonce = u32_bytes(header.nonce);
    let initial = u32_bytes(header.initial);
    let sector = u32_bytes(header.sector);
    let size = u32_bytes(header.page_size);
    *out = [
        0xd9, 0xd5, 0x05, 0xf9, 0x20, 0xa1, 0x63, 0xd7, count[0], count[1], count[2], count[3],
        nonce[0], nonce[1], nonce[2], nonce[3], initial[0], initial[1], initial[2], initial[3],
        sector[0], sector[1], sector[2], sector[3], size[0], size[1], size[2], size[3],
    ];
}

/// Whether a sector size, in bytes, is a power of two from 32 to 65,536.
pub fn sector_ok(sector: u32) -> bool
    ensures answer { result ≡ is_sector sector }
    ensures bounds { IsTrue result → (32 ≤ sector) × (sector ≤ 65536) }
{
    matches!(
        sector,
        32 | 64 | 128 | 256 | 512 | 1024 | 2048 | 4096 | 8192 | 16384 | 32768 | 65536
    )
}
