// The round keys, which are the same in every block.
ghost use Rattle.std.specs.Prelude.{◌≡◌, ℕ, ◌+◌, ◌*◌, ◌/◌, ◌%◌, ◌^◌, ◌<◌, ◌≤◌, length, slice_index};
ghost use Rattle.std.specs.Int.{w32, bit_at, to_le_bytes};
ghost use Rattle.aes_block.specs.Aes.{word_of, xor_bytes};
ghost use Rattle.aes_lanes.specs.Bits.{bit_in};
ghost use Rattle.aes_lanes.specs.Planes.{IsRow, byte_in};
ghost use Rattle.aes_lanes.specs.States.{IsState, state_in};

use crate::lanes::{Lanes, Row, State};
use crate::mix::xor;
use std::simd::prelude::*;

// All bits of a lane are bit `i` of the word there.
#[inline(always)]
fn key_plane(w: Lanes, i: u64) -> Lanes
    requires lanes { length w ≡ 4 }
    requires place { i < 32 }
    ensures lanes { length result ≡ 4 }
    ensures bits { (c j : ℕ) → c < 4 → j < 64 → bit_in result c j ≡ bit_at (slice_index w c) i }
{
    Lanes::splat(0) - ((w >> Lanes::splat(i)) & Lanes::splat(1))
}

// The byte from bit `i` of the word there on, in every block.
#[inline(always)]
fn key_row(w: Lanes, i: u64) -> Row
    requires lanes { length w ≡ 4 }
    requires place { i < 25 }
    ensures lanes { IsRow result }
    ensures bytes { (c j : ℕ) → c < 4 → j < 64 → byte_in result c j ≡ slice_index w c / 2 ^ i % 256 }
{
    Row {
        p0: key_plane(w, i),
        p1: key_plane(w, i + 1),
        p2: key_plane(w, i + 2),
        p3: key_plane(w, i + 3),
        p4: key_plane(w, i + 4),
        p5: key_plane(w, i + 5),
        p6: key_plane(w, i + 6),
        p7: key_plane(w, i + 7),
    }
}

// Word `c` of a key, its first byte lowest.
#[inline(always)]
fn key_word(k: &[u8; 16], c: usize) -> u64
    requires { c < 4 }
    ensures { to_le_bytes w32 result ≡ word_of k.now c }
{
    u32::from_le_bytes([k[4 * c], k[4 * c + 1], k[4 * c + 2], k[4 * c + 3]]) as u64
}

/// AddRoundKey (FIPS 197, section 5.1.4).
#[inline(always)]
pub fn add_key(s: State, k: &[u8; 16]) -> State
    requires { IsState s }
    ensures lanes { IsState result }
    ensures blocks { (j : ℕ) → j < 64 → state_in result j ≡ xor_bytes (state_in s j) k.now }
{
    let w = Lanes::from_array([
        key_word(k, 0),
        key_word(k, 1),
        key_word(k, 2),
        key_word(k, 3),
    ]);
    State {
        r0: xor(s.r0, key_row(w, 0)),
        r1: xor(s.r1, key_row(w, 8)),
        r2: xor(s.r2, key_row(w, 16)),
        r3: xor(s.r3, key_row(w, 24)),
    }
}
