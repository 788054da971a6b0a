// A source that keeps map pages back.
ghost use Rattle.std.specs.Prelude.{◌≡◌, ◌≤◌, ◌<◌, ◌-◌, ◌^◌, ℕ, true, List, length, nat_lt, IsTrue, OnOk, IfErr, if◌then◌else◌, refl};
ghost use Rattle.db_format.specs.Pages.{IsUsable, is_page};
ghost use Rattle.db_format.specs.Source.{Rose, one_more, one_less};
ghost use Rattle.map_pages.specs.Beside.{RefusesBeside, is_fault_beside, without_maps};

use crate::maps::is_map_page;
use db_format::PageSource;

/// Why a page was not given.
#[derive(Drop)]
pub enum MapRefusal<R> {
    /// It is a map page.
    MapPage { page: u32 },
    /// The source of all pages refused it.
    Refused(R),
}

/// The pages of another source without its map pages. While it lives, the other source is reached by it alone.
#[derive(Drop)]
pub struct BesideMaps<'s, S: PageSource> {
    source: &'s mut S,
}

impl<'s, S: PageSource> BesideMaps<'s, S> {
    /// Over this source.
    pub fn new(source: &'s mut S) -> BesideMaps<'s, S>
        ensures source { result.source.now ≡ source.old }
        ensures same_reference { result.source.ghost_name ≡ source.entry.ghost_name }
    {
        BesideMaps { source }
    }
}

impl<'s, S: PageSource> PageSource for BesideMaps<'s, S> {
    type Refusal = MapRefusal<S::Refusal>;

    ghost use Rattle.std.proofs.Common.{ap};

    ghost tells = { S.tells };

    ghost plain = { λ c. without_maps (S.plain c.source.now) };

    ghost at_hand = { λ c. S.at_hand c.source.now };

    ghost is_held = { λ c. S.is_held c.source.now };

    ghost pins = { λ c. S.pins c.source.now };

    ghost faults = { λ c. S.faults c.source.now };

    ghost is_fault = { is_fault_beside S.is_fault };

    ghost refuses = { RefusesBeside S.refuses };

    ghost only_read = { λ a b. S.only_read a.source.now b.source.now × (b.source.ghost_name ≡ a.source.ghost_name) };

    ghost same_pages = { λ a b read told. ap without_maps (S.same_pages a.source.now b.source.now read.0 told) };

    ghost same_count = { λ a b read. S.same_count a.source.now b.source.now read.0 };

    ghost same_usable = { λ a b read. S.same_usable a.source.now b.source.now read.0 };

    ghost later = { λ a b read. S.later a.source.now b.source.now read.0 };

    ghost reflexive = { λ a. (S.reflexive a.source.now, refl) };

    ghost transitive = { λ a b c first next. (S.transitive a.source.now b.source.now c.source.now first.0 next.0, Prim.cc (first.1, next.1)) };

    fn pages(&self) -> u32 {
        self.source.pages()
    }

    fn usable(&self) -> usize {
        self.source.usable()
    }

    fn load(&mut self, n: u32) -> Result<(), MapRefusal<S::Refusal>> {
        if is_map_page(self.source.usable() as u32, n) && n <= self.source.pages() {
            return Err(MapRefusal::MapPage { page: n });
        }
        match self.source.load(n) {
            Ok(()) => Ok(()),
            Err(refusal) => Err(MapRefusal::Refused(refusal)),
        }
    }

    fn loaded(&self) -> &[u8] {
        self.source.loaded()
    }

    fn pin(&mut self, n: u32) -> bool {
        self.source.pin(n)
    }

    fn unpin(&mut self, n: u32) -> bool {
        self.source.unpin(n)
    }
}
