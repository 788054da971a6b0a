// SHA-512 (FIPS 180-4) for HMAC.
ghost use Rattle.std.specs.Prelude.{◌≡◌};
ghost use Rattle.sha2.specs.Sha512.{sha512};
ghost use Rattle.sha2.specs.Hashers.{Holds512};
ghost use Rattle.sha2.proofs.Facts512.{length-sha512};
ghost use Rattle.std.proofs.Common.{lit≤};

use crate::PageHash;
use sha2::{Digest, Sha512};

/// SHA-512.
#[derive(Drop)]
pub struct Sha512Hash {
    hasher: Sha512,
}

impl PageHash for Sha512Hash {
    const BLOCK: usize = 128;

    const OUT: usize = 64;

    ghost BLOCK = { 128 };

    ghost OUT = { 64 };

    ghost hash = { sha512 };

    ghost holds = { λ s m. Holds512 s.hasher m };

    fn start() -> Sha512Hash {
        Sha512Hash {
            hasher: Sha512::new(),
        }
    }

    fn update(&mut self, piece: &[u8]) {
        self.hasher.update(piece);
    }

    fn finish(self, out: &mut [u8]) {
        out.copy_from_slice(&self.hasher.finalize());
    }

    fn fork(&self) -> Option<Sha512Hash>
        ensures { result ≡ Some self.now }
    {
        Some(Sha512Hash {
            hasher: self.hasher.clone().unwrap(),
        })
    }

    ghost hash_not_empty = { lit≤ tt };

    ghost hash_within_block = { lit≤ tt };

    ghost block_within_128 = { lit≤ tt };

    ghost hash_length = { length-sha512 };
}
