// A source in memory.
ghost use Rattle.std.specs.Prelude.{◌≡◌, true, IfOk, IsTrue};
ghost use Rattle.edge_memory.specs.Gate.{is_next_due, IsCounted};
ghost use Rattle.edge_memory.specs.Memory.{Feed, full_feed};

use crate::gate::Gate;
use crate::supply::Supply;
use edge_model::{Failed, OutOfMemory, Source};
use std::alloc::Global;
use std::marker::Model;

/// Hands out the bytes that it was made with. It takes no memory in a call.
#[derive(Drop)]
pub struct MemSource {
    gate: Gate,
    supply: Supply,
}

impl Model for MemSource {
    ghost Value = { Feed };

    ghost view = { λ source. record { given = source.supply.given; left = source.supply.left; counts = source.gate } };
}

impl MemSource {
    /// These bytes are to come, and the calls with the listed numbers fail, the first call being number 1.
    pub fn new(alloc: Global, bytes: &[u8], failing: &[u64]) -> Result<MemSource, OutOfMemory>
        ensures { IfOk result (λ source. source ≡ full_feed bytes.now failing.now) }
    {
        let gate = Gate::with_failing(alloc, failing)?;
        let supply = Supply::new(alloc, bytes)?;
        Ok(MemSource { gate, supply })
    }
}

impl Source for MemSource {
    ghost tells = { true };

    ghost left = { λ source. source.left };

    ghost faults = { λ source. source.counts.faults };

    ghost is_due = { λ source. is_next_due source.counts.plan };

    ghost excuse = { λ old new. IsTrue (is_next_due old.counts.plan) };

    ghost counted = { λ done old new. IsCounted done old.counts new.counts };

    fn take(&mut self, buf: &mut [u8]) -> Result<usize, Failed> {
        self.gate.admit()?;
        Ok(self.supply.hand_out(buf))
    }
}
