// The cipher under one key.
ghost use Rattle.std.specs.Prelude.{◌≡◌, ◌<◌};
ghost use Rattle.aes_block.specs.Aes.{IsKey, aes256, inv_aes256, key_expansion, round_key};

use crate::columns::{load, store};
use crate::rounds::{decrypt_columns, encrypt_columns};
use crate::schedule::{expand, invert, round_key};
use std::marker::Model;

/// A key of AES-256, expanded for both directions. Contracts see it as the key's 32 bytes.
///
/// It is neither `Copy` nor `Clone`: a user keeps one and lends it, or makes another from the key.
#[derive(Drop)]
pub struct Aes256 {
    // FIPS 197, section 5.2
    schedule: [u32; 60],
    // FIPS 197, section 5.3.5
    inverse_schedule: [u32; 60],
}

impl Model for Aes256 {
    ghost use Rattle.std.specs.Prelude.{List, ℕ};
    ghost use Rattle.aes_block.specs.Words.{AreSchedules, key_in};

    ghost Value = { List ℕ };

    ghost view = { λ a. key_in a.schedule };

    ghost invariant = { λ a. AreSchedules a.schedule a.inverse_schedule };
}

impl Aes256 {
    /// Expands a key (FIPS 197, sections 5.2 and 5.3.5).
    pub fn new(key: &[u8; 32]) -> Aes256
        ensures { result ≡ key.now }
    {
        let schedule = expand(key);
        let inverse_schedule = invert(&schedule);
        Aes256 {
            schedule,
            inverse_schedule,
        }
    }

    /// Round key `r` (FIPS 197, section 5.1.4).
    pub fn round_key(&self, r: usize) -> [u8; 16]
        requires { r < 15 }
        ensures { result ≡ round_key (key_expansion self.now 52) r }
    {
        store(round_key(&self.schedule, r))
    }

    /// What contracts see is a key: 32 bytes.
    #[inline(always)]
    pub fn key_law(&self)
        ensures { IsKey self.now }
    {
        // A use of a field, by which the proof learns the invariant.
        let _schedule = &self.schedule;
    }

    /// Encrypts a block in place: Cipher (FIPS 197, section 5.1).
    pub fn encrypt(&self, block: &mut [u8; 16])
        ensures value { block.new ≡ aes256 self.now block.old }
        ensures decrypts_to { inv_aes256 self.now block.new ≡ block.old }
    {
        let state = encrypt_columns(&self.schedule, load(block));
        *block = store(state);
    }

    /// Decrypts a block in place: InvCipher (FIPS 197, section 5.3).
    pub fn decrypt(&self, block: &mut [u8; 16])
        ensures value { block.new ≡ inv_aes256 self.now block.old }
        ensures encrypts_to { aes256 self.now block.new ≡ block.old }
    {
        let state = decrypt_columns(&self.inverse_schedule, load(block));
        *block = store(state);
    }
}
