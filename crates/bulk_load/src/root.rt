// The last page of a tree.
ghost use Rattle.std.specs.Prelude.{◌≡◌, ◌≤◌, ℕ, ℤ, true, false, List, Option, IfOk, IfErr, OnOk, ◌+◌};
ghost use Rattle.btree_page.specs.Cell.{Cell};
ghost use Rattle.btree_page.specs.Kind.{family_of};
ghost use Rattle.btree_page.specs.Step.{steps};
ghost use Rattle.btree_model.specs.Content.{Entry};
ghost use Rattle.load_model.specs.Open.{at_height};
ghost use Rattle.load_model.specs.Stands.{OpenPagesStand};
ghost use Rattle.page_build.specs.Written.{right_child};
ghost use Rattle.bulk_load.specs.Close.{HasCells, IsRoot};
ghost use Rattle.db_format.specs.Pages.{Test};
ghost use Rattle.bulk_load.specs.Found.{HasTree};
ghost use Rattle.bulk_load.specs.Own.{Covers, only};
ghost use Rattle.bulk_load.specs.Out.{Follows, HasCause, HasLoadCause, KeepsPages, is_load_refusal, is_refusal};
ghost use Rattle.bulk_load.specs.Settle.{up_kind};

use crate::closing::close;
use crate::error::LoadError;
use crate::out::{OutError, PageOut};
use btree_page::Kind;
use page_build::PageBuilder;
use std::alloc::Global;

// Puts an open page, which was made the first one, as page 1.
fn put_first<P: PageOut>(page: &mut PageBuilder, out: &mut P, right: u32) -> Result<(), OutError>
    requires size { page.old.usable ≡ (P.pages out.old).usable }
    requires place { page.old.header ≡ 100 }
    requires free { (P.pages out.old).accepts 1 ≡ false }
    ensures root { (start : ℕ) → P.well start out.old → (own : Test) → Covers true own (P.pages out.old) (P.pages out.new)
        → (cells : List Cell)
        → HasCells page.old (P.pages out.old).usable cells
        → OnOk result (IsRoot (only own (P.pages out.old)) (only own (P.pages out.new)) 1 (record { kind = page.old.kind; cells = cells; right = right_child page.old.kind right })) }
    ensures count { (P.pages out.new).count ≡ (P.pages out.old).count }
    ensures asked { IfErr result (λ why. is_refusal why ≡ false) }
    ensures keeps { KeepsPages P.pages P.limit P.faults P.well true out.old out.new }
    ensures follows { OnOk result (Follows P.pages P.limit P.faults P.well true out.old out.new) }
    ensures cause { IfErr result (HasCause P.pages P.limit P.faults out.old out.new) }
    ensures fresh { P.only_fresh out.old out.new }
{
    let plain = page.finish(right);
    out.put(1, plain)
}

// Puts an open page as page 1. Where it has no room for the 100 bytes in front, it is put at the next number, and page 1 has it as
// its only child.
#[tactic(auto, using(crate::proofs::PutLemmas::keeps_after, crate::proofs::PutLemmas::keeps_more, crate::proofs::PutLemmas::follows_all))]
fn put_at_one<P: PageOut>(
    alloc: Global,
    page: &mut PageBuilder,
    out: &mut P,
    kind: Kind,
    right: u32,
) -> Result<(), LoadError>
    requires size { page.old.usable ≡ (P.pages out.old).usable }
    requires plain { page.old.header ≡ 0 }
    requires free { (P.pages out.old).accepts 1 ≡ false }
    ensures tree { (start : ℕ) → P.well start out.old → (own : Test) → Covers true own (P.pages out.old) (P.pages out.new)
        → (cells : List Cell) (h : ℕ) (last : Option ℤ) (pushed : List Entry)
        → h ≤ 18
        → up_kind page.old.kind ≡ kind
        → HasCells page.old (P.pages out.old).usable cells
        → OpenPagesStand (only own (P.pages out.old)) (family_of kind) last (at_height h (steps cells (right_child page.old.kind right))) pushed
        → OnOk result (HasTree (only own (P.pages out.new)) (family_of kind) 1 pushed) }
    ensures count { (P.pages out.new).count ≤ (P.pages out.old).count + 1 }
    ensures asked { IfErr result (λ error. is_load_refusal error ≡ true → (P.pages out.new).count ≡ (P.pages out.old).count) }
    ensures keeps { KeepsPages P.pages P.limit P.faults P.well true out.old out.new }
    ensures follows { OnOk result (Follows P.pages P.limit P.faults P.well true out.old out.new) }
    ensures cause { IfErr result (HasLoadCause P.pages P.limit P.faults out.old out.new) }
    ensures fresh { P.only_fresh out.old out.new }
{
    if page.room() >= 100 {
        page.make_first();
        return match put_first(page, out, right) {
            Ok(()) => Ok(()),
            Err(error) => Err(LoadError::Out(error)),
        };
    }
    let m = match close(page, out, right) {
        Ok(m) => m,
        Err(error) => return Err(LoadError::Out(error)),
    };
    let mut first = match PageBuilder::new(alloc, out.usable(), kind, true) {
        Ok(first) => first,
        Err(_) => return Err(LoadError::OutOfMemory),
    };
    match put_first(&mut first, out, m) {
        Ok(()) => Ok(()),
        Err(error) => Err(LoadError::Out(error)),
    }
}

/// Puts the last page of a tree, as page 1 or at the next number, and answers its number. `kind` is that of the page above.
#[tactic(auto, using(crate::proofs::PutLemmas::keeps_after, crate::proofs::PutLemmas::keeps_more))]
pub fn put_root<P: PageOut>(
    alloc: Global,
    page: &mut PageBuilder,
    out: &mut P,
    kind: Kind,
    right: u32,
    at_one: bool,
) -> Result<u32, LoadError>
    requires size { page.old.usable ≡ (P.pages out.old).usable }
    requires plain { page.old.header ≡ 0 }
    requires free { at_one ≡ true → (P.pages out.old).accepts 1 ≡ false }
    ensures tree { (start : ℕ) → P.well start out.old → (own : Test) → Covers at_one own (P.pages out.old) (P.pages out.new)
        → (cells : List Cell) (h : ℕ) (last : Option ℤ) (pushed : List Entry)
        → h ≤ 18
        → up_kind page.old.kind ≡ kind
        → HasCells page.old (P.pages out.old).usable cells
        → OpenPagesStand (only own (P.pages out.old)) (family_of kind) last (at_height h (steps cells (right_child page.old.kind right))) pushed
        → IfOk result (λ root. HasTree (only own (P.pages out.new)) (family_of kind) root pushed) }
    ensures one { at_one ≡ true → IfOk result (λ root. root ≡ 1) }
    ensures count { (P.pages out.new).count ≤ (P.pages out.old).count + 1 }
    ensures asked { IfErr result (λ error. is_load_refusal error ≡ true → (P.pages out.new).count ≡ (P.pages out.old).count) }
    ensures keeps { KeepsPages P.pages P.limit P.faults P.well at_one out.old out.new }
    ensures follows { OnOk result (Follows P.pages P.limit P.faults P.well at_one out.old out.new) }
    ensures cause { IfErr result (HasLoadCause P.pages P.limit P.faults out.old out.new) }
    ensures fresh { P.only_fresh out.old out.new }
{
    if at_one {
        put_at_one(alloc, page, out, kind, right)?;
        return Ok(1);
    }
    match close(page, out, right) {
        Ok(root) => Ok(root),
        Err(error) => Err(LoadError::Out(error)),
    }
}
