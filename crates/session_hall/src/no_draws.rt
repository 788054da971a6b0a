// An entropy for a commit of a plain file, which draws nothing.
ghost use Rattle.std.specs.Prelude.{false, []};

use edge_model::{Entropy, Failed};

/// What a commit of a plain file is handed: a call of it is done at once and leaves the bytes as they are. No byte of a plain page depends
/// on it.
#[derive(Drop)]
pub struct NoDraws;

impl Entropy for NoDraws {
    ghost tells = { false };

    ghost left = { λ _. [] };

    ghost drawn = { λ _. [] };

    ghost faults = { λ _. 0 };

    fn fill(&mut self, _buf: &mut [u8]) -> Result<(), Failed> {
        Ok(())
    }
}
