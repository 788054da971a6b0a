// A source that tells nothing.
ghost use Rattle.std.specs.Prelude.{◌≡◌, ◌++◌, ◌≤◌, ◌<◌, ◌↔◌, [], length, take, IfOk, OnErr, IsErr, IsTrue, false, is_ok};
ghost use Rattle.edge_model.specs.Causes.{HasCause};
ghost use Rattle.edge_memory.specs.Gate.{IsCounted, is_next_due};

use crate::MemSource;
use edge_model::{Failed, Source};

/// Passes calls on to a source in memory, which gives its bytes (`inner`).
#[derive(Drop)]
pub struct SilentSource {
    pub inner: MemSource,
}

impl Source for SilentSource {
    ghost tells = { false };

    ghost left = { λ _. [] };

    ghost faults = { λ source. source.inner.counts.faults };

    ghost is_due = { λ source. is_next_due source.inner.counts.plan };

    ghost excuse = { λ old new. IsTrue (is_next_due old.inner.counts.plan) };

    ghost counted = { λ done old new. IsCounted done old.inner.counts new.inner.counts };

    fn take(&mut self, buf: &mut [u8]) -> Result<usize, Failed>
        ensures count { IfOk result (λ count. count ≤ length buf.old) }
        ensures inner { IfOk result (λ count. self.old.inner.left ≡ take count buf.new ++ self.new.inner.left) }
        ensures inner_end { IfOk result (λ count. 0 < length buf.old → (count ≡ 0) ↔ (self.old.inner.left ≡ [])) }
        ensures inner_failed { OnErr result (self.new.inner.left ≡ self.old.inner.left) }
        ensures due { IsTrue (is_next_due self.old.inner.counts.plan) → IsErr result }
        ensures excuse { OnErr result (IsTrue (is_next_due self.old.inner.counts.plan)) }
        ensures counted { IsCounted (is_ok result) self.old.inner.counts self.new.inner.counts }
        ensures cause { HasCause self.old.inner.counts.faults self.new.inner.counts.faults result }
    {
        self.inner.take(buf)
    }
}
