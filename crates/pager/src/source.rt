// A pager as a source of pages.
ghost use Rattle.std.specs.Prelude.{◌≡◌, ◌≤◌, ◌<◌, ◌^◌, ◌-◌, ℕ, true, nat_lt, OnOk, IfErr, IsTrue, if◌then◌else◌, refl};
ghost use Rattle.page_cache.specs.Pages.{is_held};
ghost use Rattle.edge_model.specs.Files.{main_of};
ghost use Rattle.pager.specs.Held.{plain_of_page, pins_of};
ghost use Rattle.pager.specs.Pages.{opened_pages};
ghost use Rattle.pager.specs.Causes.{MayRefuse, is_fault};

use crate::fill::PageError;
use crate::pager::Pager;
use db_format::PageSource;
use edge_model::{Disk, Entropy};

impl<'d, D: Disk, E: Entropy> PageSource for Pager<'d, D, E> {
    type Refusal = PageError;

    ghost use Rattle.pager.specs.Reads.{DiskRead, Untouched, disk_unread, untouched, disk_then_read, then_untouched};
    ghost use Rattle.std.proofs.Common.{◌∙◌};

    ghost tells = { D.tells };

    ghost plain = { λ p. opened_pages p.codec (main_of (D.reads p.disk.now)) p.count };

    ghost at_hand = { λ p. plain_of_page p.codec.profile p.last p.cache.held };

    ghost is_held = { λ p n. is_held n p.cache.held };

    ghost pins = { λ p. pins_of p.cache.held };

    ghost faults = { λ p. D.faults p.disk.now };

    ghost is_fault = { is_fault };

    ghost refuses = { MayRefuse D.tells };

    ghost only_read = { λ s t. DiskRead D.tells D.reads D.images D.moment D.since D.faults s.disk t.disk × Untouched s.entropy t.entropy
        × (t.codec ≡ s.codec) × (t.header ≡ s.header) × (t.count ≡ s.count) × (t.cache.frames ≡ s.cache.frames) };

    ghost same_pages = { λ s t read told. Prim.cc (read.2, read.4, (read.0.only_read told).stays) };

    ghost same_count = { λ s t read. read.4 };

    ghost same_usable = { λ s t read. Prim.cc read.2 };

    ghost later = { λ s t read. read.0.later };

    ghost reflexive = { λ s. (disk_unread s.disk, untouched s.entropy, refl, refl, refl, refl) };

    ghost transitive = { λ s t u first next. (disk_then_read first.0 next.0, then_untouched first.1 next.1, next.2 ∙ first.2, next.3 ∙ first.3, next.4 ∙ first.4, next.5 ∙ first.5) };

    fn pages(&self) -> u32 {
        self.count
    }

    fn usable(&self) -> usize {
        self.codec.profile().usable()
    }

    fn load(&mut self, n: u32) -> Result<(), PageError> {
        self.bring_in(n)
    }

    fn loaded(&self) -> &[u8] {
        self.lent()
    }

    fn pin(&mut self, n: u32) -> bool {
        self.cache.pin(n)
    }

    fn unpin(&mut self, n: u32) -> bool {
        self.cache.unpin(n)
    }
}
