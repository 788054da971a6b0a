// A pager as a side: Fresh is written while pages are lent out of Main.
ghost use Rattle.std.specs.Prelude.{◌≡◌, ℕ, IsTrue, refl};
ghost use Rattle.edge_model.specs.Files.{bytes_of};
ghost use Rattle.fresh_disk.specs.OnlyFresh.{IsFreshSynced};

use crate::pager::Pager;
use edge_model::{Disk, Entropy, Failed, Role};
use fresh_disk::{Side, clear_fresh, create_fresh};

impl<'d, D: Disk, E: Entropy> Side for Pager<'d, D, E> {
    ghost use Rattle.pager.specs.Beside.{Beside, beside_joins, beside_stays};
    ghost use Rattle.std.proofs.Common.{◌∙◌};

    ghost tells = { D.Disk.tells };

    ghost draws_tell = { E.Entropy.tells };

    ghost fresh = { λ s. bytes_of (D.Disk.reads s.disk.now).fresh };

    ghost synced = { λ s. IsFreshSynced (D.Disk.images s.disk.now) (D.Disk.reads s.disk.now) };

    ghost drawn = { λ s. E.Entropy.drawn s.entropy.now };

    ghost disk_faults = { λ s. D.Disk.faults s.disk.now };

    ghost draw_faults = { λ s. E.Entropy.faults s.entropy.now };

    // what it lends is the same besides, and so are its pins
    ghost only_fresh = { λ a b. Beside D.Disk.tells E.Entropy.tells D.Disk.reads D.Disk.images D.Disk.moment D.Disk.since E.Entropy.drawn a.disk b.disk a.entropy b.entropy
        × (b.codec ≡ a.codec) × (b.header ≡ a.header) × (b.count ≡ a.count) × (b.cache ≡ a.cache) × (b.last ≡ a.last) };

    ghost stays = { λ s. (beside_stays D.Disk.only_now s.disk s.entropy, refl, refl, refl, refl, refl) };

    ghost joins = { λ a b c first next. (beside_joins D.Disk.counts_now first.0 next.0, next.1 ∙ first.1, next.2 ∙ first.2, next.3 ∙ first.3, next.4 ∙ first.4, next.5 ∙ first.5) };

    fn side_create(&mut self) -> Result<(), Failed> {
        clear_fresh(&mut *self.disk)?;
        create_fresh(&mut *self.disk)
    }

    fn side_write(&mut self, at: u64, bytes: &[u8]) -> Result<(), Failed> {
        self.disk.write_at(Role::Fresh, at, bytes)
    }

    fn side_sync(&mut self) -> Result<(), Failed> {
        self.disk.sync(Role::Fresh)
    }

    #[tactic(auto, using(std::proofs::Transfers::starts_with_of_append))]
    fn draw(&mut self, buf: &mut [u8]) -> Result<(), Failed> {
        self.entropy.fill(buf)
    }
}
