// A disk and an entropy as a side.
ghost use Rattle.std.specs.Prelude.{◌≡◌, ℕ, IsTrue, refl};
ghost use Rattle.std.specs.Io.{StartsWith};
ghost use Rattle.std.proofs.Transfers.{starts_with_of_eq, starts_with_trans};
ghost use Rattle.edge_model.specs.Files.{bytes_of};
ghost use Rattle.edge_model.specs.Images.{LeavesOnly};
ghost use Rattle.fresh_disk.specs.OnlyFresh.{IsFreshSynced, IsOld, OnlyFresh, only_fresh_joins, only_fresh_stays, run_joins, run_stays};

use crate::clearing::{clear_fresh, create_fresh};
use crate::side::Side;
use edge_model::{Disk, Entropy, Failed, Role};

/// A disk and an entropy, where Main is read by none.
#[derive(Drop)]
pub struct Pair<'d, D: Disk, E: Entropy> {
    pub disk: &'d mut D,
    pub entropy: &'d mut E,
}

impl<'d, D: Disk, E: Entropy> Side for Pair<'d, D, E> {
    ghost tells = { D.Disk.tells };

    ghost draws_tell = { E.Entropy.tells };

    ghost fresh = { λ s. bytes_of (D.Disk.reads s.disk.now).fresh };

    ghost synced = { λ s. IsFreshSynced (D.Disk.images s.disk.now) (D.Disk.reads s.disk.now) };

    ghost drawn = { λ s. E.Entropy.drawn s.entropy.now };

    ghost disk_faults = { λ s. D.Disk.faults s.disk.now };

    ghost draw_faults = { λ s. E.Entropy.faults s.entropy.now };

    ghost only_fresh = { λ a b. (b.disk.ghost_name ≡ a.disk.ghost_name) × (b.entropy.ghost_name ≡ a.entropy.ghost_name)
        × (IsTrue E.Entropy.tells → StartsWith (E.Entropy.drawn b.entropy.now) (E.Entropy.drawn a.entropy.now))
        × (IsTrue D.Disk.tells → OnlyFresh (D.Disk.reads a.disk.now) (D.Disk.reads b.disk.now))
        × (IsTrue D.Disk.tells → LeavesOnly D.Disk.moment D.Disk.since a.disk.now b.disk.now (IsOld (D.Disk.images a.disk.now))) };

    ghost stays = { λ s. (refl, refl, (λ told. starts_with_of_eq _ _ refl), (λ told. only_fresh_stays _), λ told. run_stays D.Disk.only_now s.disk.now) };

    ghost joins = { λ a b c first next. (
      Prim.cc,
      Prim.cc,
      (λ told. starts_with_trans _ (E.Entropy.drawn b.entropy.now) _ (next.2 told) (first.2 told)),
      (λ told. only_fresh_joins _ (D.Disk.reads b.disk.now) _ (first.3 told) (next.3 told)),
      λ told. run_joins D.Disk.counts_now (first.4 told) (next.4 told),
    ) };

    fn side_create(&mut self) -> Result<(), Failed> {
        clear_fresh(self.disk)?;
        create_fresh(self.disk)
    }

    #[tactic(auto, using(std::proofs::Transfers::starts_with_of_eq))]
    fn side_write(&mut self, at: u64, bytes: &[u8]) -> Result<(), Failed> {
        self.disk.write_at(Role::Fresh, at, bytes)
    }

    #[tactic(auto, using(std::proofs::Transfers::starts_with_of_eq))]
    fn side_sync(&mut self) -> Result<(), Failed> {
        self.disk.sync(Role::Fresh)
    }

    #[tactic(auto, using(std::proofs::Transfers::starts_with_of_append, std::proofs::Transfers::starts_with_of_eq))]
    fn draw(&mut self, buf: &mut [u8]) -> Result<(), Failed> {
        self.entropy.fill(buf)
    }
}
