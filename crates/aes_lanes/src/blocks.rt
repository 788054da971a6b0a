// Sixty-four blocks in, and out again: block i is in the lower half of vector i's lanes, block i + 32 in the
// upper, until the vectors are transposed.
ghost use Rattle.std.specs.Prelude.{◌≡◌, ℕ, ◌+◌, ◌*◌, ◌/◌, ◌%◌, ◌^◌, ◌<◌, [], ◌∷◌, ◌++◌, length, map, slice_index};
ghost use Rattle.std.specs.Int.{w64, to_le_bytes};
ghost use Rattle.std.specs.List.{range_with_len};
ghost use Rattle.aes_block.specs.Aes.{aes256, inv_aes256};
ghost use Rattle.aes_block.specs.Blocks.{block_at};
ghost use Rattle.aes_lanes.specs.Blocks.{block_in, word_bytes, word_bits};
ghost use Rattle.aes_lanes.specs.States.{IsState, state_in};
ghost use Rattle.aes_lanes.specs.Transposed.{bits, state_vectors};

use crate::keys::add_key;
use crate::lanes::{Lanes, Row, State};
use crate::rounds::{inv_round, inv_start, last_round, round};
use crate::transpose::transpose;
use aes_block::Aes256;
use std::simd::prelude::*;

// Column `c` of block `i`, and above it that of block `i + 32`.
#[inline(always)]
fn word(text: &[u8; 1024], i: usize, c: usize) -> u64
    requires block { i < 32 }
    requires column { c < 4 }
    ensures { to_le_bytes w64 result
        ≡ slice_index text.now (16 * i + 4 * c) ∷ slice_index text.now (16 * i + 4 * c + 1)
        ∷ slice_index text.now (16 * i + 4 * c + 2) ∷ slice_index text.now (16 * i + 4 * c + 3)
        ∷ slice_index text.now (16 * i + 4 * c + 512) ∷ slice_index text.now (16 * i + 4 * c + 513)
        ∷ slice_index text.now (16 * i + 4 * c + 514) ∷ slice_index text.now (16 * i + 4 * c + 515) ∷ [] }
{
    let at = 16 * i + 4 * c;
    u64::from_le_bytes([
        text[at],
        text[at + 1],
        text[at + 2],
        text[at + 3],
        text[at + 512],
        text[at + 513],
        text[at + 514],
        text[at + 515],
    ])
}

// Blocks `i` and `i + 32`, a column in each lane.
#[inline(always)]
fn words(text: &[u8; 1024], i: usize) -> Lanes
    requires { i < 32 }
    ensures lanes { length result ≡ 4 }
    ensures bits { (c k : ℕ) → c < 4 → bits result c k ≡ word_bits text.now c i k }
{
    Lanes::from_array([
        word(text, i, 0),
        word(text, i, 1),
        word(text, i, 2),
        word(text, i, 3),
    ])
}

// All of them.
fn load(text: &[u8; 1024]) -> State
    ensures lanes { IsState result }
    ensures bits { (c : ℕ) → c < 4 → state_vectors result c ≡ map (word_bits text.now c) (range_with_len 0 32) }
{
    State {
        r0: Row {
            p0: words(text, 0),
            p1: words(text, 1),
            p2: words(text, 2),
            p3: words(text, 3),
            p4: words(text, 4),
            p5: words(text, 5),
            p6: words(text, 6),
            p7: words(text, 7),
        },
        r1: Row {
            p0: words(text, 8),
            p1: words(text, 9),
            p2: words(text, 10),
            p3: words(text, 11),
            p4: words(text, 12),
            p5: words(text, 13),
            p6: words(text, 14),
            p7: words(text, 15),
        },
        r2: Row {
            p0: words(text, 16),
            p1: words(text, 17),
            p2: words(text, 18),
            p3: words(text, 19),
            p4: words(text, 20),
            p5: words(text, 21),
            p6: words(text, 22),
            p7: words(text, 23),
        },
        r3: Row {
            p0: words(text, 24),
            p1: words(text, 25),
            p2: words(text, 26),
            p3: words(text, 27),
            p4: words(text, 28),
            p5: words(text, 29),
            p6: words(text, 30),
            p7: words(text, 31),
        },
    }
}

// The states of 64 blocks.
#[inline(always)]
fn states(text: &[u8; 1024]) -> State
    ensures lanes { IsState result }
    ensures blocks { (j : ℕ) → j < 64 → state_in result j ≡ block_at text.now j }
{
    transpose(load(text))
}

// The states as vectors, transposed back.
#[inline(always)]
fn vectors(s: State) -> [Lanes; 32]
    requires { IsState s }
    ensures { (j : ℕ) → j < 64 → block_in result j ≡ state_in s j }
{
    let t = transpose(s);
    let a = t.r0;
    let b = t.r1;
    let c = t.r2;
    let d = t.r3;
    [
        a.p0, a.p1, a.p2, a.p3, a.p4, a.p5, a.p6, a.p7, b.p0, b.p1, b.p2, b.p3, b.p4, b.p5, b.p6,
        b.p7, c.p0, c.p1, c.p2, c.p3, c.p4, c.p5, c.p6, c.p7, d.p0, d.p1, d.p2, d.p3, d.p4, d.p5,
        d.p6, d.p7,
    ]
}

/// Encrypts 64 blocks of 16 bytes: Cipher (FIPS 197, section 5.1). `block_of` takes one out.
pub fn encrypt_blocks(aes: &Aes256, text: &[u8; 1024]) -> [Lanes; 32]
    ensures { (j : ℕ) → j < 64 → block_in result j ≡ aes256 aes.now (block_at text.now j) }
{
    let mut s = add_key(states(text), &aes.round_key(0));
    'rounds: for i in 0..13 {
        s = round(s, &aes.round_key(i + 1));
    }
    vectors(last_round(s, &aes.round_key(14)))
}

/// Decrypts 64 blocks of 16 bytes: InvCipher (FIPS 197, section 5.3). `block_of` takes one out.
pub fn decrypt_blocks(aes: &Aes256, text: &[u8; 1024]) -> [Lanes; 32]
    ensures { (j : ℕ) → j < 64 → block_in result j ≡ inv_aes256 aes.now (block_at text.now j) }
{
    let mut s = add_key(states(text), &aes.round_key(14));
    'rounds: for i in 0..13 {
        s = inv_round(s, &aes.round_key(13 - i));
    }
    vectors(inv_start(s, &aes.round_key(0)))
}

// The 32 bits from bit `s` on.
#[inline(always)]
fn half(x: u64, s: u64) -> u64
    requires { s < 64 }
    ensures is { result ≡ x / 2 ^ s % 2 ^ 32 }
    ensures small { result < 2 ^ 32 }
{
    (x >> s) & 0xffff_ffff
}

// The four bytes from bit `s` on of two words.
#[inline(always)]
fn joined(a: u64, b: u64, s: u64) -> u64
    requires { s < 64 }
    ensures { to_le_bytes w64 result ≡ word_bytes a s ++ word_bytes b s }
{
    half(a, s) + half(b, s) * 0x1_0000_0000
}

// The bytes of two numbers, the lowest of each first.
#[inline(always)]
fn bytes_of(low: u64, high: u64) -> [u8; 16]
    ensures { result ≡ to_le_bytes w64 low ++ to_le_bytes w64 high }
{
    let [a, b, c, d, e, f, g, h] = low.to_le_bytes();
    let [i, j, k, l, m, n, o, p] = high.to_le_bytes();
    [a, b, c, d, e, f, g, h, i, j, k, l, m, n, o, p]
}

/// Block `j`, from 0, of the 64 that were encrypted or decrypted.
#[inline(always)]
pub fn block_of(blocks: &[Lanes; 32], j: usize) -> [u8; 16]
    requires { j < 64 }
    ensures { result ≡ block_in blocks.now j }
{
    let [a, b, c, d] = blocks[j % 32].to_array();
    let s = (j / 32 * 32) as u64;
    bytes_of(joined(a, b, s), joined(c, d, s))
}
