// A passphrase, held in place.
ghost use Rattle.std.specs.Prelude.{◌≡◌, ◌≤◌, ℕ, List, length, take};
ghost use Rattle.cipher_profile.specs.Passphrase.{IsPassphrase};

use std::marker::Model;

/// The longest passphrase, in bytes.
pub const MAX_PASSPHRASE: usize = 1024;

/// 1 to 1,024 bytes, held in place. Contracts see the bytes.
#[derive(Drop)]
pub struct PassBytes {
    bytes: [u8; MAX_PASSPHRASE],
    len: usize,
}

impl Model for PassBytes {
    ghost Value = { List ℕ };

    ghost view = { λ p. take p.len p.bytes };

    ghost invariant = { λ p. record { some : 1 ≤ p.len; most : p.len ≤ 1024 } };
}

impl PassBytes {
    /// Holds a copy of these bytes.
    pub(crate) fn new(line: &[u8]) -> PassBytes
        requires { IsPassphrase line.now }
        ensures { result ≡ line.now }
    {
        let mut bytes = [0u8; MAX_PASSPHRASE];
        bytes[..line.len()].copy_from_slice(line);
        PassBytes {
            bytes,
            len: line.len(),
        }
    }

    /// The bytes.
    pub fn as_slice(&self) -> &[u8]
        ensures bytes { result.now ≡ self.now }
        ensures long { IsPassphrase result.now }
    {
        &self.bytes[..self.len]
    }
}
