// Eight messages of one length: their last blocks with the padding (FIPS 180-4, section 5.1.1), and their digests.
ghost use Rattle.std.specs.Prelude.{◌≡◌, ℕ, ◌+◌, ◌-◌, ◌*◌, ◌/◌, ◌%◌, ◌<◌, ◌≤◌, ◌++◌, List, length, take, drop};
ghost use Rattle.sha1.specs.Sha1.{digest_bytes, hash_after, padding, sha1};
ghost use Rattle.hash_lanes.specs.Messages.{message, piece};
ghost use Rattle.hash_lanes.specs.Sha1Lanes.{final_hash, five, tail_blocks};

use crate::pieces::{padded, part};
use crate::sha1_block::{Hashes, absorb};
use crate::sha1_words::Lanes;
use std::simd::prelude::*;

const BLOCK: usize = 64;

/// The initial hash value (section 5.3.1).
pub const INITIAL_HASH: [u32; 5] = [
    0x6745_2301,
    0xefcd_ab89,
    0x98ba_dcfe,
    0x1032_5476,
    0xc3d2_e1f0,
];

/// One hash value in all eight lanes.
pub fn spread(hash: &[u32; 5]) -> Hashes
    ensures { result ≡ five (λ _. hash.now) }
{
    [
        Lanes::splat(hash[0]),
        Lanes::splat(hash[1]),
        Lanes::splat(hash[2]),
        Lanes::splat(hash[3]),
        Lanes::splat(hash[4]),
    ]
}

/// The first of eight hash values of five words.
pub fn first_of_eight(hashes: &Hashes) -> [u32; 5]
    ensures { (H : ℕ → List ℕ) → hashes.now ≡ five H → length (H 0) ≡ 5 → result ≡ H 0 }
{
    [
        hashes[0].to_array()[0],
        hashes[1].to_array()[0],
        hashes[2].to_array()[0],
        hashes[3].to_array()[0],
        hashes[4].to_array()[0],
    ]
}

// How many blocks so many last bytes of a message fill with their padding.
fn tail_blocks(used: usize) -> usize
    requires { used < 120 }
    ensures value { result ≡ tail_blocks used }
    ensures most { result ≤ 2 }
{
    (used + 8) / BLOCK + 1
}

// The last bytes of a message of so many bytes, with its padding.
fn tail(rest: &[u8], end: &[u8], total: u128) -> [u8; 256]
    requires room { length rest.now + length end.now < 120 }
    requires total { total % 64 ≡ (length rest.now + length end.now) % 64 }
    ensures { take (tail_blocks (length rest.now + length end.now) * 64) result ≡ rest.now ++ (end.now ++ padding total) }
{
    let size = BLOCK * tail_blocks(rest.len() + end.len());
    // The length in bits modulo 2^64.
    let bits = (total % (1 << 61)) as u64 * 8;
    padded(rest, end, &bits.to_be_bytes(), size)
}

// The last bytes of eight messages of so many bytes, each from byte `at` of its piece of the text on.
fn tails(
    text: &[u8],
    stride: usize,
    at: usize,
    len: usize,
    ends: &[u8],
    end_len: usize,
    total: u128,
) -> [u8; 1024]
    requires within { (at ≤ len) × (7 * stride + len ≤ length text.now) }
    requires ends { 8 * end_len ≤ length ends.now }
    requires room { len - at + end_len < 120 }
    requires total { total % 64 ≡ (len - at + end_len) % 64 }
    ensures { (i : ℕ) → i < 8 → take (tail_blocks (len - at + end_len) * 64) (drop (i * 128) result)
        ≡ drop at (piece text.now stride len i) ++ (piece ends.now end_len end_len i ++ padding total) }
{
    let rest = len - at;
    let mut out = [0u8; 1024];
    'messages: for i in 0..8usize {
        let last = tail(
            part(text, i * stride + at, rest),
            part(ends, i * end_len, end_len),
            total,
        );
        out[128 * i..128 * i + 128].copy_from_slice(&last[..128]);
    }
    out
}

/// The hash values of eight messages. Each is what the hash value `start` has taken, which is `before` bytes in whole blocks, and then
/// a piece of the text and one of the ends.
pub fn finished(
    start: &[u32; 5],
    before: usize,
    text: &[u8],
    stride: usize,
    len: usize,
    ends: &[u8],
    end_len: usize,
) -> Hashes
    requires blocks { before % 64 ≡ 0 }
    requires one { before ≤ 64 }
    requires short { end_len ≤ 32 }
    requires text { 7 * stride + len ≤ length text.now }
    requires ends { 8 * end_len ≤ length ends.now }
    ensures { (first : List ℕ) → length first ≡ before → start.now ≡ hash_after first (before / 64)
        → result ≡ five (λ i. final_hash (first ++ message text.now stride len ends.now end_len i)) }
{
    let mut hashes = spread(start);
    let count = len / BLOCK;
    absorb(&mut hashes, text, stride, count);
    let at = BLOCK * count;
    let total = before as u128 + len as u128 + end_len as u128;
    let tails = tails(text, stride, at, len, ends, end_len, total);
    absorb(&mut hashes, &tails, 128, tail_blocks(len - at + end_len));
    hashes
}

// The digest of one of the messages.
fn digest(hashes: &Hashes, lane: usize) -> [u8; 20]
    requires { lane < 8 }
    ensures { (H : ℕ → List ℕ) → hashes.now ≡ five H → result ≡ digest_bytes (H lane) 5 }
{
    let mut out = [0u8; 20];
    'words: for k in 0..5 {
        out[4 * k..4 * k + 4].copy_from_slice(&hashes[k].to_array()[lane].to_be_bytes());
    }
    out
}

/// The digests of the messages, one after another.
pub fn digests(hashes: &Hashes) -> [u8; 160]
    ensures { (H : ℕ → List ℕ) → hashes.now ≡ five H → (i : ℕ) → i < 8 → piece result 20 20 i ≡ digest_bytes (H i) 5 }
{
    let mut out = [0u8; 160];
    'messages: for i in 0..8usize {
        out[20 * i..20 * i + 20].copy_from_slice(&digest(hashes, i));
    }
    out
}

/// The digests under SHA-1 of eight messages of one length, one after another. The messages begin `stride` bytes apart.
pub fn sha1_of_eight(text: &[u8], stride: usize, len: usize) -> [u8; 160]
    requires { 7 * stride + len ≤ length text.now }
    ensures { (i : ℕ) → i < 8 → piece result 20 20 i ≡ sha1 (piece text.now stride len i) }
{
    digests(&finished(&INITIAL_HASH, 0, text, stride, len, &[], 0))
}
