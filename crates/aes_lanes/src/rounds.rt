// The rounds of the cipher and of the inverse cipher.
ghost use Rattle.std.specs.Prelude.{◌≡◌, ℕ, ◌<◌};
ghost use Rattle.aes_block.specs.Aes.{inv_mix_columns, inv_start, inv_sub_bytes, last_round, round, sub_bytes};
ghost use Rattle.aes_lanes.specs.States.{IsState, state_in};

use crate::inv_sbox::inv_sub_row;
use crate::keys::add_key;
use crate::lanes::State;
use crate::mix::{inv_mix_columns, mix_columns};
use crate::sbox::sub_row;
use crate::shift::{inv_shift_rows, shift_rows};

// SubBytes.
#[inline(always)]
fn sub_bytes(s: State) -> State
    requires { IsState s }
    ensures lanes { IsState result }
    ensures blocks { (j : ℕ) → j < 64 → state_in result j ≡ sub_bytes (state_in s j) }
{
    State {
        r0: sub_row(s.r0),
        r1: sub_row(s.r1),
        r2: sub_row(s.r2),
        r3: sub_row(s.r3),
    }
}

/// A round of the cipher (FIPS 197, section 5.1).
pub fn round(s: State, k: &[u8; 16]) -> State
    requires { IsState s }
    ensures lanes { IsState result }
    ensures blocks { (j : ℕ) → j < 64 → state_in result j ≡ round k.now (state_in s j) }
{
    add_key(mix_columns(shift_rows(sub_bytes(s))), k)
}

/// The last round of the cipher, which has no MixColumns.
pub fn last_round(s: State, k: &[u8; 16]) -> State
    requires { IsState s }
    ensures lanes { IsState result }
    ensures blocks { (j : ℕ) → j < 64 → state_in result j ≡ last_round k.now (state_in s j) }
{
    add_key(shift_rows(sub_bytes(s)), k)
}

// InvSubBytes.
#[inline(always)]
fn inv_sub_bytes(s: State) -> State
    requires { IsState s }
    ensures lanes { IsState result }
    ensures blocks { (j : ℕ) → j < 64 → state_in result j ≡ inv_sub_bytes (state_in s j) }
{
    State {
        r0: inv_sub_row(s.r0),
        r1: inv_sub_row(s.r1),
        r2: inv_sub_row(s.r2),
        r3: inv_sub_row(s.r3),
    }
}

/// InvShiftRows, InvSubBytes and AddRoundKey: the last round, and what each other begins with.
pub fn inv_start(s: State, k: &[u8; 16]) -> State
    requires { IsState s }
    ensures lanes { IsState result }
    ensures blocks { (j : ℕ) → j < 64 → state_in result j ≡ inv_start k.now (state_in s j) }
{
    add_key(inv_sub_bytes(inv_shift_rows(s)), k)
}

/// A round of the inverse cipher (FIPS 197, section 5.3).
pub fn inv_round(s: State, k: &[u8; 16]) -> State
    requires { IsState s }
    ensures lanes { IsState result }
    ensures blocks { (j : ℕ) → j < 64 → state_in result j ≡ inv_mix_columns (inv_start k.now (state_in s j)) }
{
    inv_mix_columns(inv_start(s, k))
}
