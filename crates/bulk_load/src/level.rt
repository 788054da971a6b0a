// The open page of one level, and what waits to be put on it.
ghost use Rattle.std.specs.Prelude.{◌≡◌, ℕ, suc, ℤ, ◌+◌, ◌*◌, ◌≤◌, List, [], ◌∷◌, ◌++◌, length, drop, Option, None, IfOk, IfErr, OnOk, vec_len, false, OnErr};
ghost use Rattle.std.specs.Option.{option_to_list};
ghost use Rattle.db_format.specs.Pages.{IsUsable, Test};
ghost use Rattle.btree_page.specs.Kind.{family_of};
ghost use Rattle.btree_page.specs.Step.{Step};
ghost use Rattle.btree_model.specs.Content.{Entry};
ghost use Rattle.load_model.specs.Open.{Open, at_height};
ghost use Rattle.load_model.specs.Stands.{OpenPagesStand};
ghost use Rattle.bulk_load.specs.Close.{HasCells};
ghost use Rattle.bulk_load.specs.Level.{IsLevelReady, AreNamed, HoldsLevel, IsEntryIn};
ghost use Rattle.bulk_load.specs.Count.{IsBack, IsPageBegun, load};
ghost use Rattle.bulk_load.specs.Own.{Covers, only};
ghost use Rattle.bulk_load.specs.Out.{Follows, HasLoadCause, KeepsPages};
ghost use Rattle.bulk_load.specs.Settle.{IsNamed, IsPair, on};
ghost use Rattle.bulk_load.specs.Depth.{AreShort};
ghost use Rattle.bulk_load.specs.Volume.{level_volume, price, sizes};

use crate::error::LoadError;
use crate::out::PageOut;
use crate::pair::{Pair, settle};
use btree_page::Kind;
use page_build::PageBuilder;
use std::alloc::Global;

/// A level of interior pages, or the leaf of an index.
#[derive(Drop)]
pub struct Level {
    /// Its open page.
    pub page: PageBuilder,
    /// The last two children, or the last two entries, which are not yet on a page: so the last page can always get a cell.
    pub waiting: Vec<Pair>,
}

impl Level {
    /// A level with an empty page.
    pub fn new(alloc: Global, usable: usize, kind: Kind) -> Result<Level, LoadError>
        requires { IsUsable usable }
        ensures ready { IfOk result (λ level. IsLevelReady level usable) }
        ensures kind { IfOk result (λ level. level.page.kind ≡ kind) }
        ensures empty { IfOk result (λ level. HasCells level.page usable []) }
        ensures none { IfOk result (λ level. level.waiting.items ≡ []) }
        ensures cause { IfErr result (λ error. error ≡ LoadError.OutOfMemory) }
    {
        let Ok(page) = PageBuilder::new(alloc, usable, kind, false) else {
            return Err(LoadError::OutOfMemory);
        };
        Ok(Level {
            page,
            waiting: Vec::new(alloc),
        })
    }

    /// One child more. Where the page is full, it is put, and answered as a child of the level above.
    #[tactic(auto, using(crate::proofs::VolumeLemmas::sizes_pushed, crate::proofs::PutLemmas::keeps_after, crate::proofs::PutLemmas::keeps_same, crate::proofs::PutLemmas::follows_same))]
    pub fn enter<P: PageOut>(&mut self, out: &mut P, pair: Pair) -> Result<Option<Pair>, LoadError>
        requires ready { IsLevelReady self.old (P.pages out.old).usable }
        requires named { IsNamed (P.pages out.old).usable pair }
        ensures ready { OnOk result (IsLevelReady self.new (P.pages out.old).usable) }
        ensures kind { OnOk result (self.new.page.kind ≡ self.old.page.kind) }
        ensures named { IfOk result (λ up. AreNamed (P.pages out.old).usable (option_to_list up)) }
        ensures entered { (start : ℕ) → P.well start out.old → (own : Test) → Covers false own (P.pages out.old) (P.pages out.new)
            → (todo : List Step) (s : Step) (h : ℕ) (front back : List Open) (last : Option ℤ) (pushed : List Entry)
            → HoldsLevel self.old (P.pages out.old).usable todo
            → IsPair pair self.old.page.kind (P.pages out.old).usable s
            → OpenPagesStand (only own (P.pages out.old)) (family_of self.old.page.kind) last (front ++ (at_height h todo ++ (at_height h (on self.old.page.kind pair.child s) ++ back))) pushed
            → IfOk result (IsEntryIn (only own (P.pages out.new)) self.new (P.pages out.old).usable self.old.page.kind h front back last pushed) }
        ensures back { IsPageBegun self.old.page self.old.waiting.items → OnOk result (IsBack self.new.page self.new.waiting.items) }
        ensures count { IfOk result (λ up. (P.pages out.new).count + (load self.new + length (option_to_list up)) ≤ (P.pages out.old).count + (load self.old + 1)) }
        ensures one { IfOk result (λ up. (P.pages out.new).count ≡ (P.pages out.old).count + length (option_to_list up)) }
        ensures refused { OnErr result ((P.pages out.new).count ≤ (P.pages out.old).count + 1) }
        ensures short { AreShort (P.pages out.old).usable self.old.page.cells → OnOk result (AreShort (P.pages out.old).usable self.new.page.cells) }
        ensures deep { AreShort (P.pages out.old).usable self.old.page.cells → IfOk result (λ up. load self.new + 3 * length (option_to_list up) ≤ load self.old + 1) }
        ensures paid { IfOk result (λ up. price (P.pages out.old).usable (P.pages out.new).count + (level_volume self.new + 6 * sizes (option_to_list up))
            ≤ price (P.pages out.old).usable (P.pages out.old).count + (level_volume self.old + 6 * (length pair.cell.items + 2))) }
        ensures keeps { KeepsPages P.pages P.limit P.faults P.well false out.old out.new }
        ensures follows { OnOk result (Follows P.pages P.limit P.faults P.well false out.old out.new) }
        ensures cause { IfErr result (HasLoadCause P.pages P.limit P.faults out.old out.new) }
        ensures fresh { P.only_fresh out.old out.new }
    {
        if self.waiting.len() < 2 {
            return match self.waiting.push(pair) {
                Ok(()) => Ok(None),
                Err(_) => Err(LoadError::OutOfMemory),
            };
        }
        let mut first = self.waiting.remove(0);
        match self.waiting.push(pair) {
            Ok(()) => {}
            Err(_) => return Err(LoadError::OutOfMemory),
        }
        match settle(&mut self.page, out, &mut first, 0) {
            Ok(true) => Ok(Some(first)),
            Ok(false) => Ok(None),
            Err(error) => Err(LoadError::Out(error)),
        }
    }
}
