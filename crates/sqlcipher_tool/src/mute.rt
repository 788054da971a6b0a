// A sink for what is to print nothing.
ghost use Rattle.std.specs.Prelude.{false, []};

use edge_model::{Failed, Sink};

/// What is printed to it is dropped, and nothing of it is told.
#[derive(Drop)]
pub struct Mute;

impl Sink for Mute {
    ghost tells = { false };

    ghost taken = { λ _. [] };

    ghost faults = { λ _. 0 };

    fn put(&mut self, piece: &[u8]) -> Result<usize, Failed> {
        Ok(piece.len())
    }
}
