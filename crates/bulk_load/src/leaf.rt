// The open leaf of a table.
ghost use Rattle.std.specs.Prelude.{◌≡◌, ℕ, ℤ, ◌+◌, ◌≤◌, max, List, [], ◌∷◌, ◌++◌, Some, None, IfOk, IfErr, OnOk, false, OnErr, ◌*◌, length};
ghost use Rattle.btree_page.specs.declared.kind.Family.TheVariants.{Table};
ghost use Rattle.btree_page.specs.declared.kind.Kind.TheVariants.{TableLeaf};
ghost use Rattle.btree_page.specs.Cell.{Cell};
ghost use Rattle.btree_page.specs.Step.{steps};
ghost use Rattle.btree_model.specs.Content.{Entry};
ghost use Rattle.load_model.specs.Open.{Open, at_height};
ghost use Rattle.load_model.specs.Stands.{OpenPagesStand};
ghost use Rattle.page_build.specs.Draft.{room_of};
ghost use Rattle.bulk_load.specs.Close.{HasCells, SameShape};
ghost use Rattle.bulk_load.specs.Leaf.{HasCellRoom};
ghost use Rattle.std.specs.Option.{option_to_list};
ghost use Rattle.db_format.specs.Pages.{Test};
ghost use Rattle.bulk_load.specs.Own.{Covers, only};
ghost use Rattle.bulk_load.specs.Out.{Follows, HasCause, KeepsPages};
ghost use Rattle.bulk_load.specs.Volume.{filled, price};

use crate::closing::close;
use crate::out::{OutError, PageOut};
use page_build::PageBuilder;

/// Makes room on the open leaf of a table for a cell of `len` bytes, of which an empty leaf has room for one. A leaf that was put is
/// answered; the last rowid stands behind it.
#[tactic(auto, using(crate::proofs::VolumeLemmas::filled_none, crate::proofs::PutLemmas::keeps_after, crate::proofs::PutLemmas::keeps_same, crate::proofs::PutLemmas::follows_same))]
pub fn make_room<P: PageOut>(
    leaf: &mut PageBuilder,
    out: &mut P,
    len: usize,
) -> Result<Option<u32>, OutError>
    requires size { leaf.old.usable ≡ (P.pages out.old).usable }
    requires plain { leaf.old.header ≡ 0 }
    requires kind { leaf.old.kind ≡ TableLeaf }
    requires fits { max 4 len + 10 ≤ leaf.old.usable }
    requires large { 480 ≤ leaf.old.usable }
    ensures shape { SameShape leaf.old leaf.new }
    ensures fits { OnOk result (max 4 len + 2 ≤ room_of leaf.new) }
    ensures room { (start : ℕ) → P.well start out.old → (own : Test) → Covers false own (P.pages out.old) (P.pages out.new)
        → (k : ℤ) (cells : List Cell) (front : List Open) (pushed : List Entry)
        → HasCells leaf.old (P.pages out.old).usable cells
        → OpenPagesStand (only own (P.pages out.old)) Table (Some k) (front ++ at_height 0 (steps cells None)) pushed
        → IfOk result (HasCellRoom (only own (P.pages out.new)) leaf.new (P.pages out.old).usable k cells front pushed) }
    ensures count { IfOk result (λ closed. (P.pages out.new).count + (2 * length leaf.new.cells + length (option_to_list closed)) ≤ (P.pages out.old).count + 2 * length leaf.old.cells) }
    ensures one { IfOk result (λ closed. (P.pages out.new).count ≡ (P.pages out.old).count + length (option_to_list closed)) }
    ensures refused { OnErr result ((P.pages out.new).count ≤ (P.pages out.old).count + 1) }
    // a leaf that is put, and the key behind it, are paid by half of what the leaf and the cell together have
    ensures paid { IfOk result (λ closed. price (P.pages out.old).usable (P.pages out.new).count + (3 * filled leaf.new + 90 * length (option_to_list closed))
        ≤ price (P.pages out.old).usable (P.pages out.old).count + (3 * filled leaf.old + 3 * (max 4 len + 2))) }
    ensures keeps { KeepsPages P.pages P.limit P.faults P.well false out.old out.new }
    ensures follows { OnOk result (Follows P.pages P.limit P.faults P.well false out.old out.new) }
    ensures cause { IfErr result (HasCause P.pages P.limit P.faults out.old out.new) }
    ensures fresh { P.only_fresh out.old out.new }
{
    if leaf.fits(len) {
        return Ok(None);
    }
    let m = close(leaf, out, 0)?;
    leaf.clear();
    Ok(Some(m))
}
