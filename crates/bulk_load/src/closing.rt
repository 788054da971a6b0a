// A page that is full is put.
ghost use Rattle.std.specs.Prelude.{◌≡◌, ℕ, suc, ℤ, ◌+◌, List, [], ◌∷◌, ◌++◌, Option, IfOk, IfErr, OnOk, true, false, OnErr, ◌≤◌};
ghost use Rattle.btree_page.specs.Cell.{Cell};
ghost use Rattle.btree_page.specs.Kind.{family_of};
ghost use Rattle.btree_page.specs.Step.{steps, child};
ghost use Rattle.btree_model.specs.Content.{Entry};
ghost use Rattle.load_model.specs.Open.{Open, at_height};
ghost use Rattle.load_model.specs.Stands.{OpenPagesStand};
ghost use Rattle.page_build.specs.Written.{right_child};
ghost use Rattle.bulk_load.specs.Close.{HasCells};
ghost use Rattle.db_format.specs.Pages.{Test};
ghost use Rattle.bulk_load.specs.Own.{Covers, only};
ghost use Rattle.bulk_load.specs.Out.{Follows, HasCause, KeepsPages, is_refusal};

use crate::out::{OutError, PageOut};
use crate::putting::put_next;
use page_build::PageBuilder;

/// Puts an open page at the next number and answers the number. `right` is the last child of an interior page.
pub fn close<P: PageOut>(page: &mut PageBuilder, out: &mut P, right: u32) -> Result<u32, OutError>
    requires size { page.old.usable ≡ (P.pages out.old).usable }
    requires plain { page.old.header ≡ 0 }
    ensures same { page.new ≡ page.old }
    ensures closed { (start : ℕ) → P.well start out.old → (own : Test) → Covers false own (P.pages out.old) (P.pages out.new)
        → (cells : List Cell) (h : ℕ) (front back : List Open) (last : Option ℤ) (pushed : List Entry)
        → HasCells page.old (P.pages out.old).usable cells
        → OpenPagesStand (only own (P.pages out.old)) (family_of page.old.kind) last (front ++ (at_height h (steps cells (right_child page.old.kind right)) ++ back)) pushed
        → IfOk result (λ m. OpenPagesStand (only own (P.pages out.new)) (family_of page.old.kind) last (front ++ (record { height = suc h; leads = child m } ∷ back)) pushed) }
    ensures one { OnOk result ((P.pages out.new).count ≡ (P.pages out.old).count + 1) }
    ensures refused { OnErr result ((P.pages out.new).count ≤ (P.pages out.old).count + 1) }
    ensures asked { IfErr result (λ why. is_refusal why ≡ true → (P.pages out.new).count ≡ (P.pages out.old).count) }
    ensures keeps { KeepsPages P.pages P.limit P.faults P.well false out.old out.new }
    ensures follows { OnOk result (Follows P.pages P.limit P.faults P.well false out.old out.new) }
    ensures cause { IfErr result (HasCause P.pages P.limit P.faults out.old out.new) }
    ensures fresh { P.only_fresh out.old out.new }
{
    let plain = page.finish(right);
    put_next(out, plain)
}
