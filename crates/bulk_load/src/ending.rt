// The end of a tree: its levels end one by one, from the lowest up.
ghost use Rattle.std.specs.Prelude.{◌≡◌, ℕ, suc, ℤ, ◌+◌, ◌*◌, ◌^◌, ◌≤◌, Err, true, false, List, [], ◌++◌, Option, IfOk, IfErr, OnOk, ◌⊎◌, length};
ghost use Rattle.btree_page.specs.Kind.{family_of};
ghost use Rattle.btree_page.specs.Step.{Step, steps};
ghost use Rattle.btree_model.specs.Content.{Entry};
ghost use Rattle.load_model.specs.Open.{at_height};
ghost use Rattle.load_model.specs.Stands.{OpenPagesStand};
ghost use Rattle.page_build.specs.Written.{right_child};
ghost use Rattle.bulk_load.specs.Level.{IsLevelReady, HoldsLevel};
ghost use Rattle.bulk_load.specs.Levels.{AreReady, HoldLevels, opened};
ghost use Rattle.db_format.specs.Pages.{Test};
ghost use Rattle.bulk_load.specs.Count.{AreBack, CanEnd, held, load};
ghost use Rattle.bulk_load.specs.Found.{HasTree};
ghost use Rattle.bulk_load.specs.Own.{Covers, only};
ghost use Rattle.bulk_load.specs.Out.{Follows, HasEndCause, KeepsPages, is_load_refusal};
ghost use Rattle.bulk_load.specs.Settle.{up_kind};
ghost use Rattle.bulk_load.specs.Depth.{AreLevelsShort, MayEnd, closed_below};
ghost use Rattle.bulk_load.specs.Volume.{price, sizes, volumes};

use crate::closing::close;
use crate::error::LoadError;
use crate::level::Level;
use crate::levels::{drain, take_lowest};
use crate::out::PageOut;
use crate::root::put_root;
use btree_page::Kind;
use std::alloc::Global;

/// The end of a level and of those above it: all that waits is put, and the page is closed with this last child, if the level has
/// children. The last page is the root, which is answered. `left` is how many levels there may be above.
#[tactic(auto, using(crate::proofs::PutLemmas::keeps_after, crate::proofs::PutLemmas::keeps_more, crate::proofs::PutLemmas::follows_all, crate::proofs::PutLemmas::still_free))]
pub fn end_levels<P: PageOut>(
    alloc: Global,
    level: &mut Level,
    above: &mut Vec<Level>,
    out: &mut P,
    kind: Kind,
    below: u32,
    left: usize,
    at_one: bool,
) -> Result<u32, LoadError>
    requires ready { IsLevelReady level.old (P.pages out.old).usable }
    requires ready_above { AreReady above.old.items (P.pages out.old).usable }
    requires free { at_one ≡ true → (P.pages out.old).accepts 1 ≡ false }
    ensures tree { (start : ℕ) → P.well start out.old → (own : Test) → Covers at_one own (P.pages out.old) (P.pages out.new)
        → (todo : List Step) (todos : List (List Step)) (h : ℕ) (last : Option ℤ) (pushed : List Entry)
        → h + left ≤ 18
        → up_kind level.old.page.kind ≡ kind
        → HoldsLevel level.old (P.pages out.old).usable todo
        → HoldLevels above.old.items (P.pages out.old).usable kind todos
        → OpenPagesStand (only own (P.pages out.old)) (family_of kind) last (opened (suc h) todos ++ (at_height h todo ++ at_height h (steps [] (right_child level.old.page.kind below)))) pushed
        → IfOk result (λ root. HasTree (only own (P.pages out.new)) (family_of kind) root pushed) }
    ensures one { at_one ≡ true → IfOk result (λ root. root ≡ 1) }
    ensures count { CanEnd level.old.page level.old.waiting.items → AreBack above.old.items → (1 ≤ load level.old) ⊎ (length above.old.items ≡ 0)
        → (P.pages out.new).count ≤ (P.pages out.old).count + (load level.old + held above.old.items + 1) }
    // three pages for each level at most, and what the levels pay
    ensures spent { CanEnd level.old.page level.old.waiting.items → AreBack above.old.items
        → price (P.pages out.old).usable (P.pages out.new).count ≤ price (P.pages out.old).usable ((P.pages out.old).count + (3 * left + 3)) + (6 * sizes level.old.waiting.items + volumes above.old.items) }
    ensures asked { length level.old.waiting.items ≡ 0 → length above.old.items ≡ 0
        → IfErr result (λ error. is_load_refusal error ≡ true → (P.pages out.new).count ≡ (P.pages out.old).count) }
    ensures deep { MayEnd (P.pages out.old).usable level.old → AreLevelsShort (P.pages out.old).usable above.old.items → AreBack above.old.items
        → result ≡ Err LoadError.TooDeep → 3 ^ (left + 1) ≤ load level.old + 3 * closed_below above.old.items }
    ensures keeps { KeepsPages P.pages P.limit P.faults P.well at_one out.old out.new }
    ensures follows { OnOk result (Follows P.pages P.limit P.faults P.well at_one out.old out.new) }
    ensures cause { IfErr result (HasEndCause P.pages P.limit P.faults out.old out.new) }
    ensures fresh { P.only_fresh out.old out.new }
{
    drain(level, above, out, kind)?;
    let Some(mut next) = take_lowest(above) else {
        return put_root(alloc, &mut level.page, out, kind, below, at_one);
    };
    if left == 0 {
        return Err(LoadError::TooDeep);
    }
    let m = match close(&mut level.page, out, below) {
        Ok(m) => m,
        Err(error) => return Err(LoadError::Out(error)),
    };
    end_levels(alloc, &mut next, above, out, kind, m, left - 1, at_one)
}
