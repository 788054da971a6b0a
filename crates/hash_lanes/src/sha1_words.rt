// Eight words at once, one of each message, and the functions of SHA-1 on them (FIPS 180-4, section 4.1.1).
ghost use Rattle.std.specs.Prelude.{◌≡◌, ℕ, ◌+◌, ◌*◌, ◌<◌, ◌≤◌, length};
ghost use Rattle.std.specs.Int.{w32, rotate_left};
ghost use Rattle.sha1.specs.Sha1.{ch, maj, parity, word_at};
ghost use Rattle.hash_lanes.specs.Sha1Lanes.{eight};

use std::simd::prelude::*;

/// A word of each of eight messages.
pub type Lanes = u32x8;

/// Each word, rotated to the left by so many bits.
#[inline(always)]
pub fn rotate_left(x: Lanes, n: u32) -> Lanes
    requires some { 0 < n }
    requires within { n < 32 }
    ensures { (f : ℕ → ℕ) → x ≡ eight f → result ≡ eight (λ i. rotate_left w32 (f i) n) }
{
    (x << Lanes::splat(n)) | (x >> Lanes::splat(32 - n))
}

/// Ch.
#[inline(always)]
pub fn ch(x: Lanes, y: Lanes, z: Lanes) -> Lanes
    ensures { (f g h : ℕ → ℕ) → x ≡ eight f → y ≡ eight g → z ≡ eight h → result ≡ eight (λ i. ch (f i) (g i) (h i)) }
{
    (x & y) ^ (!x & z)
}

/// Parity.
#[inline(always)]
pub fn parity(x: Lanes, y: Lanes, z: Lanes) -> Lanes
    ensures { (f g h : ℕ → ℕ) → x ≡ eight f → y ≡ eight g → z ≡ eight h → result ≡ eight (λ i. parity (f i) (g i) (h i)) }
{
    x ^ y ^ z
}

/// Maj.
#[inline(always)]
pub fn maj(x: Lanes, y: Lanes, z: Lanes) -> Lanes
    ensures { (f g h : ℕ → ℕ) → x ≡ eight f → y ≡ eight g → z ≡ eight h → result ≡ eight (λ i. maj (f i) (g i) (h i)) }
{
    (x & y) ^ (x & z) ^ (y & z)
}

// The word at this byte.
#[inline(always)]
fn word(text: &[u8], at: usize) -> u32
    requires { at + 4 ≤ length text.now }
    ensures { result ≡ word_at text.now at }
{
    u32::from_be_bytes([text[at], text[at + 1], text[at + 2], text[at + 3]])
}

/// The words at this byte of eight texts, each of which begins `stride` bytes after the one before.
#[inline(always)]
pub fn load(text: &[u8], at: usize, stride: usize) -> Lanes
    requires { at + 7 * stride + 4 ≤ length text.now }
    ensures { result ≡ eight (λ i. word_at text.now (at + i * stride)) }
{
    Lanes::from_array([
        word(text, at),
        word(text, at + stride),
        word(text, at + 2 * stride),
        word(text, at + 3 * stride),
        word(text, at + 4 * stride),
        word(text, at + 5 * stride),
        word(text, at + 6 * stride),
        word(text, at + 7 * stride),
    ])
}
