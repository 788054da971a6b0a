// An entropy that tells nothing.
ghost use Rattle.std.specs.Prelude.{◌≡◌, ◌⊎◌, ◌++◌, ◌<◌, [], OnOk, OnErr, IsErr, IsTrue, false, is_ok, length};
ghost use Rattle.edge_model.specs.Causes.{HasCause};
ghost use Rattle.edge_memory.specs.Gate.{IsCounted, is_next_due};

use crate::MemEntropy;
use edge_model::{Entropy, Failed};

/// Passes calls on to an entropy in memory, which draws its bytes (`inner`).
#[derive(Drop)]
pub struct SilentEntropy {
    pub inner: MemEntropy,
}

impl Entropy for SilentEntropy {
    ghost tells = { false };

    ghost left = { λ _. [] };

    ghost drawn = { λ _. [] };

    ghost faults = { λ entropy. entropy.inner.counts.faults };

    ghost is_due = { λ entropy. is_next_due entropy.inner.counts.plan };

    ghost excuse = { λ old new asked. IsTrue (is_next_due old.inner.counts.plan) ⊎ (length old.inner.left < length asked) };

    ghost counted = { λ done old new. IsCounted done old.inner.counts new.inner.counts };

    fn fill(&mut self, buf: &mut [u8]) -> Result<(), Failed>
        ensures inner { OnOk result (self.old.inner.left ≡ buf.new ++ self.new.inner.left) }
        ensures inner_drawn { OnOk result (self.new.inner.given ≡ self.old.inner.given ++ buf.new) }
        ensures inner_failed { OnErr result (self.new.inner.given ≡ self.old.inner.given) }
        ensures due { IsTrue (is_next_due self.old.inner.counts.plan) → IsErr result }
        ensures excuse { OnErr result (IsTrue (is_next_due self.old.inner.counts.plan) ⊎ (length self.old.inner.left < length buf.old)) }
        ensures counted { IsCounted (is_ok result) self.old.inner.counts self.new.inner.counts }
        ensures cause { HasCause self.old.inner.counts.faults self.new.inner.counts.faults result }
    {
        self.inner.fill(buf)
    }
}
