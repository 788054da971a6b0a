// An entropy in memory.
ghost use Rattle.std.specs.Prelude.{◌≡◌, ◌⊎◌, ◌<◌, false, true, length, IfOk, IsTrue};
ghost use Rattle.edge_memory.specs.Gate.{is_next_due, IsCounted};
ghost use Rattle.edge_memory.specs.Memory.{Feed, full_feed, IsFeedDrawn};

use crate::gate::Gate;
use crate::supply::Supply;
use edge_model::{Entropy, Failed, OutOfMemory};
use std::alloc::Global;
use std::marker::Model;

/// Draws the bytes that it was made with, in order. It takes no memory in a call.
#[derive(Drop)]
pub struct MemEntropy {
    gate: Gate,
    supply: Supply,
}

impl Model for MemEntropy {
    ghost Value = { Feed };

    ghost view = { λ entropy. record { given = entropy.supply.given; left = entropy.supply.left; counts = entropy.gate } };
}

impl MemEntropy {
    /// These bytes are to be drawn, and the calls with the listed numbers fail, the first call being number 1. So does
    /// a call for more bytes than are left.
    pub fn new(alloc: Global, bytes: &[u8], failing: &[u64]) -> Result<MemEntropy, OutOfMemory>
        ensures { IfOk result (λ entropy. entropy ≡ full_feed bytes.now failing.now) }
    {
        let gate = Gate::with_failing(alloc, failing)?;
        let supply = Supply::new(alloc, bytes)?;
        Ok(MemEntropy { gate, supply })
    }
}

impl Entropy for MemEntropy {
    ghost tells = { true };

    ghost left = { λ entropy. entropy.left };

    ghost drawn = { λ entropy. entropy.given };

    ghost faults = { λ entropy. entropy.counts.faults };

    ghost is_due = { λ entropy. is_next_due entropy.counts.plan };

    ghost excuse = { λ old new asked. IsTrue (is_next_due old.counts.plan) ⊎ (length old.left < length asked) };

    ghost counted = { IsFeedDrawn };

    fn fill(&mut self, buf: &mut [u8]) -> Result<(), Failed> {
        self.gate.admit()?;
        let outcome = self.supply.fill(buf);
        self.gate.settle(outcome)
    }
}
