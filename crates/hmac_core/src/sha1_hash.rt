// SHA-1 (FIPS 180-4) for HMAC.
ghost use Rattle.std.specs.Prelude.{◌≡◌};
ghost use Rattle.sha1.specs.Sha1.{Holds, sha1};
ghost use Rattle.hmac_core.specs.Sha1Length.{length-sha1};
ghost use Rattle.std.proofs.Common.{lit≤};

use crate::PageHash;
use sha1::Sha1;

/// SHA-1.
#[derive(Drop)]
pub struct Sha1Hash {
    hasher: Sha1,
}

impl PageHash for Sha1Hash {
    const BLOCK: usize = 64;

    const OUT: usize = 20;

    ghost BLOCK = { 64 };

    ghost OUT = { 20 };

    ghost hash = { sha1 };

    ghost holds = { λ s m. Holds s.hasher m };

    fn start() -> Sha1Hash {
        Sha1Hash {
            hasher: Sha1::new(),
        }
    }

    fn update(&mut self, piece: &[u8]) {
        self.hasher.update(piece);
    }

    fn finish(self, out: &mut [u8]) {
        out.copy_from_slice(&self.hasher.finalize());
    }

    fn fork(&self) -> Option<Sha1Hash>
        ensures { result ≡ Some self.now }
    {
        Some(Sha1Hash {
            hasher: self.hasher.clone().unwrap(),
        })
    }

    ghost hash_not_empty = { lit≤ tt };

    ghost hash_within_block = { lit≤ tt };

    ghost block_within_128 = { lit≤ tt };

    ghost hash_length = { length-sha1 };
}
