// Four messages of one length: their last blocks with the padding (FIPS 180-4, section 5.1.2), and their digests.
ghost use Rattle.std.specs.Prelude.{◌≡◌, ℕ, ◌+◌, ◌-◌, ◌*◌, ◌/◌, ◌%◌, ◌^◌, ◌<◌, ◌≤◌, ◌++◌, List, length, take, drop};
ghost use Rattle.sha2.specs.Sha512.{digest_bytes, final_hash, hash_after, initial_hash_512, padding, sha512};
ghost use Rattle.hash_lanes.specs.Lanes.{words};
ghost use Rattle.hash_lanes.specs.Messages.{message, piece, tail_blocks};

use crate::block::{Hashes, absorb};
use crate::constants::INITIAL_HASH;
use crate::pieces::{padded, part};
use crate::words::Lanes;
use std::simd::prelude::*;

const BLOCK: usize = 128;

/// One hash value in all four lanes.
pub fn spread(hash: &[u64; 8]) -> Hashes
    ensures { result ≡ words (λ _. hash.now) }
{
    [
        Lanes::splat(hash[0]),
        Lanes::splat(hash[1]),
        Lanes::splat(hash[2]),
        Lanes::splat(hash[3]),
        Lanes::splat(hash[4]),
        Lanes::splat(hash[5]),
        Lanes::splat(hash[6]),
        Lanes::splat(hash[7]),
    ]
}

/// The first of four hash values of eight words.
pub fn first_of_four(hashes: &Hashes) -> [u64; 8]
    ensures { (H : ℕ → List ℕ) → hashes.now ≡ words H → length (H 0) ≡ 8 → result ≡ H 0 }
{
    [
        hashes[0].to_array()[0],
        hashes[1].to_array()[0],
        hashes[2].to_array()[0],
        hashes[3].to_array()[0],
        hashes[4].to_array()[0],
        hashes[5].to_array()[0],
        hashes[6].to_array()[0],
        hashes[7].to_array()[0],
    ]
}

// How many blocks so many last bytes of a message fill with their padding.
fn tail_blocks(used: usize) -> usize
    requires { used < 240 }
    ensures value { result ≡ tail_blocks used }
    ensures most { result ≤ 2 }
{
    (used + 16) / BLOCK + 1
}

// The last bytes of a message of so many bytes, with its padding.
fn tail(rest: &[u8], end: &[u8], total: u128) -> [u8; 256]
    requires room { length rest.now + length end.now < 240 }
    requires total { total % 128 ≡ (length rest.now + length end.now) % 128 }
    requires bits { total < 2 ^ 100 }
    ensures { take (tail_blocks (length rest.now + length end.now) * 128) result ≡ rest.now ++ (end.now ++ padding total) }
{
    let size = BLOCK * tail_blocks(rest.len() + end.len());
    padded(rest, end, &(total * 8).to_be_bytes(), size)
}

// Four last parts, one after another.
fn joined(a: &[u8; 256], b: &[u8; 256], c: &[u8; 256], d: &[u8; 256]) -> [u8; 1024]
    ensures { result ≡ a.now ++ (b.now ++ (c.now ++ d.now)) }
{
    let mut out = [0u8; 1024];
    out[..256].copy_from_slice(a);
    out[256..512].copy_from_slice(b);
    out[512..768].copy_from_slice(c);
    out[768..1024].copy_from_slice(d);
    out
}

// The last bytes of four messages of so many bytes, each from byte `at` of its piece of the text on.
fn tails(
    text: &[u8],
    stride: usize,
    at: usize,
    len: usize,
    ends: &[u8],
    end_len: usize,
    total: u128,
) -> [u8; 1024]
    requires within { (at ≤ len) × (3 * stride + len ≤ length text.now) }
    requires ends { 4 * end_len ≤ length ends.now }
    requires room { len - at + end_len < 240 }
    requires total { total % 128 ≡ (len - at + end_len) % 128 }
    requires bits { total < 2 ^ 100 }
    ensures { (i : ℕ) → i < 4 → take (tail_blocks (len - at + end_len) * 128) (drop (i * 256) result)
        ≡ drop at (piece text.now stride len i) ++ (piece ends.now end_len end_len i ++ padding total) }
{
    let rest = len - at;
    let first = tail(part(text, at, rest), part(ends, 0, end_len), total);
    let second = tail(
        part(text, stride + at, rest),
        part(ends, end_len, end_len),
        total,
    );
    let third = tail(
        part(text, 2 * stride + at, rest),
        part(ends, 2 * end_len, end_len),
        total,
    );
    let fourth = tail(
        part(text, 3 * stride + at, rest),
        part(ends, 3 * end_len, end_len),
        total,
    );
    joined(&first, &second, &third, &fourth)
}

/// The hash values of four messages. Each is what the hash value `start` has taken, which is `before` bytes in whole blocks, and then a
/// piece of the text and one of the ends.
pub fn finished(
    start: &[u64; 8],
    before: usize,
    text: &[u8],
    stride: usize,
    len: usize,
    ends: &[u8],
    end_len: usize,
) -> Hashes
    requires blocks { before % 128 ≡ 0 }
    requires one { before ≤ 128 }
    requires short { end_len ≤ 64 }
    requires text { 3 * stride + len ≤ length text.now }
    requires ends { 4 * end_len ≤ length ends.now }
    ensures { (first : List ℕ) → length first ≡ before → start.now ≡ hash_after initial_hash_512 first (before / 128)
        → result ≡ words (λ i. final_hash initial_hash_512 (first ++ message text.now stride len ends.now end_len i)) }
{
    let mut hashes = spread(start);
    let count = len / BLOCK;
    absorb(&mut hashes, text, stride, count);
    let at = BLOCK * count;
    let total = before as u128 + len as u128 + end_len as u128;
    let tails = tails(text, stride, at, len, ends, end_len, total);
    absorb(&mut hashes, &tails, 256, tail_blocks(len - at + end_len));
    hashes
}

// The digest of one of the messages.
fn digest(hashes: &Hashes, lane: usize) -> [u8; 64]
    requires { lane < 4 }
    ensures { (H : ℕ → List ℕ) → hashes.now ≡ words H → result ≡ digest_bytes (H lane) 8 }
{
    let mut out = [0u8; 64];
    'words: for k in 0..8 {
        out[8 * k..8 * k + 8].copy_from_slice(&hashes[k].to_array()[lane].to_be_bytes());
    }
    out
}

// Four digests, one after another.
fn joined_digests(a: &[u8; 64], b: &[u8; 64], c: &[u8; 64], d: &[u8; 64]) -> [u8; 256]
    ensures { result ≡ a.now ++ (b.now ++ (c.now ++ d.now)) }
{
    let mut out = [0u8; 256];
    out[..64].copy_from_slice(a);
    out[64..128].copy_from_slice(b);
    out[128..192].copy_from_slice(c);
    out[192..256].copy_from_slice(d);
    out
}

/// The digests of the messages, one after another.
pub fn digests(hashes: &Hashes) -> [u8; 256]
    ensures { (H : ℕ → List ℕ) → hashes.now ≡ words H → (i : ℕ) → i < 4 → piece result 64 64 i ≡ digest_bytes (H i) 8 }
{
    joined_digests(
        &digest(hashes, 0),
        &digest(hashes, 1),
        &digest(hashes, 2),
        &digest(hashes, 3),
    )
}

/// The digests under SHA-512 of four messages of one length, one after another. The messages begin `stride` bytes apart.
pub fn sha512_of_four(text: &[u8], stride: usize, len: usize) -> [u8; 256]
    requires { 3 * stride + len ≤ length text.now }
    ensures { (i : ℕ) → i < 4 → piece result 64 64 i ≡ sha512 (piece text.now stride len i) }
{
    digests(&finished(&INITIAL_HASH, 0, text, stride, len, &[], 0))
}
