// Where a loader puts the pages of a new file.
ghost use Rattle.std.specs.Prelude.{◌≡◌, ◌≤◌, ◌+◌, ℕ, refl};

use crate::state::FreshState;
use atomic_commit::CommitFault;
use bulk_load::{OutError, PageOut};
use fresh_disk::Side;

/// A new file, together with the side through which it is written.
#[derive(Drop)]
pub struct FreshOut<'a, T: Side> {
    pub(crate) state: &'a mut FreshState,
    pub(crate) side: &'a mut T,
}

impl<'a, T: Side> PageOut for FreshOut<'a, T> {
    ghost use Rattle.fresh_file.specs.State.{IsWellAs, fresh_pages};

    ghost pages = { λ s. fresh_pages s.state.now (T.Side.fresh s.side.now) };

    ghost limit = { λ s. s.state.now.limit };

    ghost faults = { λ s. record { disk = T.Side.disk_faults s.side.now; entropy = T.Side.draw_faults s.side.now } };

    ghost well = { λ start s. IsWellAs s.state.now start T.Side.tells T.Side.draws_tell (T.Side.fresh s.side.now) (T.Side.drawn s.side.now) };

    ghost only_fresh = { λ a b. (b.state.ghost_name ≡ a.state.ghost_name) × (b.side.ghost_name ≡ a.side.ghost_name)
        × (b.state.now.codec ≡ a.state.now.codec) × T.Side.only_fresh a.side.now b.side.now };

    ghost counted = { λ s. s.state.now.counted };

    ghost stays = { λ s. (refl, refl, refl, T.Side.stays s.side.now) };

    ghost joins = { λ a b c first next. (Prim.cc, Prim.cc, Prim.cc, T.Side.joins a.side.now b.side.now c.side.now first.3 next.3) };

    fn usable(&self) -> usize {
        self.state.usable()
    }

    fn take(&mut self) -> Result<u32, OutError> {
        self.state.take()
    }

    fn put(&mut self, n: u32, plain: &[u8]) -> Result<(), OutError> {
        if n == 1 {
            self.state.keep_first(plain);
            return Ok(());
        }
        match self.state.put_page(self.side, n, plain) {
            Ok(()) => Ok(()),
            Err(CommitFault::DiskFault) => Err(OutError::DiskFault),
            Err(CommitFault::EntropyFault) => Err(OutError::EntropyFault),
        }
    }
}
