// A sink in memory.
ghost use Rattle.std.specs.Prelude.{◌≡◌, ◌⊎◌, true, IfOk, IsTrue};
ghost use Rattle.edge_model.specs.Causes.{Rose};
ghost use Rattle.edge_memory.specs.Gate.{is_next_due, IsCounted};
ghost use Rattle.edge_memory.specs.Memory.{Intake, empty_intake};

use crate::gate::{Gate, Refusal};
use edge_model::{Failed, OutOfMemory, Sink};
use std::alloc::Global;
use std::marker::Model;

/// Keeps the bytes that it takes, each piece whole. It can be refused the memory for them.
#[derive(Drop)]
pub struct MemSink {
    gate: Gate,
    taken: Vec<u8>,
}

impl Model for MemSink {
    ghost Value = { Intake };

    ghost view = { λ sink. record { taken = sink.taken.items; counts = sink.gate } };
}

impl MemSink {
    /// It has no byte, and the calls with the listed numbers fail, the first call being number 1.
    pub fn new(alloc: Global, failing: &[u64]) -> Result<MemSink, OutOfMemory>
        ensures { IfOk result (λ sink. sink ≡ empty_intake failing.now) }
    {
        let gate = Gate::with_failing(alloc, failing)?;
        Ok(MemSink {
            gate,
            taken: Vec::new(alloc),
        })
    }

    /// The bytes so far.
    pub fn bytes(&self) -> &[u8]
        ensures { result.now ≡ self.now.taken }
    {
        self.taken.as_slice()
    }

    /// How often memory was refused.
    pub fn starved(&self) -> u64
        ensures { result ≡ self.now.counts.starved }
    {
        self.gate.starved()
    }
}

impl Sink for MemSink {
    ghost tells = { true };

    ghost taken = { λ sink. sink.taken };

    ghost faults = { λ sink. sink.counts.faults };

    ghost is_due = { λ sink. is_next_due sink.counts.plan };

    ghost excuse = { λ old new. IsTrue (is_next_due old.counts.plan) ⊎ Rose old.counts.starved new.counts.starved };

    ghost counted = { λ done old new. IsCounted done old.counts new.counts };

    fn put(&mut self, piece: &[u8]) -> Result<usize, Failed> {
        self.gate.admit()?;
        let outcome = match self.taken.extend_from_slice(piece) {
            Ok(()) => Ok(piece.len()),
            Err(_) => Err(Refusal::Memory),
        };
        self.gate.settle(outcome)
    }
}
