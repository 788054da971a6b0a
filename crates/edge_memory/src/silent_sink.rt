// A sink that tells nothing.
ghost use Rattle.std.specs.Prelude.{◌≡◌, ◌⊎◌, ◌++◌, ◌≤◌, ◌<◌, [], length, take, IfOk, OnErr, IsErr, IsTrue, false, is_ok};
ghost use Rattle.edge_model.specs.Causes.{HasCause, Rose};
ghost use Rattle.edge_memory.specs.Gate.{IsCounted, is_next_due};

use crate::MemSink;
use edge_model::{Failed, Sink};

/// Passes calls on to a sink in memory, which keeps the bytes (`inner`).
#[derive(Drop)]
pub struct SilentSink {
    pub inner: MemSink,
}

impl Sink for SilentSink {
    ghost tells = { false };

    ghost taken = { λ _. [] };

    ghost faults = { λ sink. sink.inner.counts.faults };

    ghost is_due = { λ sink. is_next_due sink.inner.counts.plan };

    ghost excuse = { λ old new. IsTrue (is_next_due old.inner.counts.plan) ⊎ Rose old.inner.counts.starved new.inner.counts.starved };

    ghost counted = { λ done old new. IsCounted done old.inner.counts new.inner.counts };

    fn put(&mut self, piece: &[u8]) -> Result<usize, Failed>
        ensures count { IfOk result (λ count. count ≤ length piece.now) }
        ensures progress { IfOk result (λ count. 0 < length piece.now → 0 < count) }
        ensures inner { IfOk result (λ count. self.new.inner.taken ≡ self.old.inner.taken ++ take count piece.now) }
        ensures inner_failed { OnErr result (self.new.inner.taken ≡ self.old.inner.taken) }
        ensures due { IsTrue (is_next_due self.old.inner.counts.plan) → IsErr result }
        ensures excuse { OnErr result (IsTrue (is_next_due self.old.inner.counts.plan) ⊎ Rose self.old.inner.counts.starved self.new.inner.counts.starved) }
        ensures counted { IsCounted (is_ok result) self.old.inner.counts self.new.inner.counts }
        ensures cause { HasCause self.old.inner.counts.faults self.new.inner.counts.faults result }
    {
        self.inner.put(piece)
    }
}
