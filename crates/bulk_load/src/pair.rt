// A child of an open page, with what stands behind it; or an entry on its way to a leaf.
ghost use Rattle.std.specs.Prelude.{◌≡◌, ℕ, suc, ℤ, ◌+◌, ◌≤◌, max, true, List, [], ◌∷◌, ◌++◌, length, drop, Option, None, IfOk, IfErr, OnOk, false, OnErr, ◌↔◌, ◌*◌};
ghost use Rattle.btree_page.specs.Cell.{Cell};
ghost use Rattle.btree_page.specs.Kind.{family_of};
ghost use Rattle.btree_page.specs.Step.{Step, steps};
ghost use Rattle.btree_model.specs.Content.{Entry};
ghost use Rattle.load_model.specs.Open.{Open, at_height};
ghost use Rattle.load_model.specs.Stands.{OpenPagesStand};
ghost use Rattle.page_build.specs.Draft.{room_of};
ghost use Rattle.page_build.specs.Written.{four_bytes};
ghost use Rattle.bulk_load.specs.Close.{HasCells, SameShape};
ghost use Rattle.db_format.specs.Pages.{Test};
ghost use Rattle.bulk_load.specs.Count.{one_if};
ghost use Rattle.bulk_load.specs.Own.{Covers, only};
ghost use Rattle.bulk_load.specs.Out.{Follows, HasCause, KeepsPages};
ghost use Rattle.bulk_load.specs.Settle.{IsNamed, IsPair, IsLevelSettled, on, skip_of};
ghost use Rattle.bulk_load.specs.Depth.{AreShort};
ghost use Rattle.bulk_load.specs.Volume.{filled, price};

use crate::closing::close;
use crate::out::{OutError, PageOut};
use btree_page::Kind;
use page_build::{PageBuilder, four_bytes, lay};

/// A page of the level below, and what stands between it and the next.
#[derive(Drop)]
pub struct Pair {
    /// The page's number; 0 where the pair is an entry that comes to a leaf.
    pub child: u32,
    /// An interior cell: the number in four bytes, and the key or the entry behind it.
    pub cell: Vec<u8>,
}

// The same key or entry behind another child.
fn name(pair: &mut Pair, child: u32)
    requires { 4 ≤ length pair.old.cell.items }
    ensures child { pair.new.child ≡ child }
    ensures cell { pair.new.cell.items ≡ four_bytes child ++ drop 4 pair.old.cell.items }
{
    lay(&mut pair.cell, 0, &four_bytes(child));
    pair.child = child;
}

// How many bytes of a pair are not on a page of this kind: a leaf has no child.
fn skipped(kind: Kind) -> usize
    ensures value { result ≡ skip_of kind }
    ensures most { result ≤ 4 }
{
    if kind.is_interior() { 0 } else { 4 }
}

// Whether a cell of so many bytes may be added, and `more` bytes are left then.
fn has_room(page: &PageBuilder, len: usize, more: usize) -> bool
    ensures { (result ≡ true) ↔ (max 4 len + 2 + more ≤ room_of page.now) }
{
    let room = page.room();
    if !page.fits(len) {
        return false;
    }
    let taken = if len < 4 { 6 } else { len + 2 };
    more <= room - taken
}

/// Puts a pair on an open page, if there is room for it and for `more` bytes. Else its child is the page's last one,
/// the page is put, and what stands behind the child now stands behind this page: true. A leaf has no child: the
/// entry alone goes on it, or stands behind it.
#[tactic(auto, using(crate::proofs::LevelLemmas::renamed, crate::proofs::VolumeLemmas::filled_pair, crate::proofs::PutLemmas::keeps_after, crate::proofs::PutLemmas::keeps_same, crate::proofs::PutLemmas::follows_same))]
pub fn settle<P: PageOut>(
    page: &mut PageBuilder,
    out: &mut P,
    pair: &mut Pair,
    more: usize,
) -> Result<bool, OutError>
    requires size { page.old.usable ≡ (P.pages out.old).usable }
    requires plain { page.old.header ≡ 0 }
    requires named { IsNamed (P.pages out.old).usable pair.old }
    requires next { 3 * more + 12 ≤ (P.pages out.old).usable }
    ensures shape { SameShape page.old page.new }
    ensures named { OnOk result (IsNamed (P.pages out.old).usable pair.new) }
    ensures settled { (start : ℕ) → P.well start out.old → (own : Test) → Covers false own (P.pages out.old) (P.pages out.new)
        → (cells : List Cell) (s : Step) (h : ℕ) (front back : List Open) (last : Option ℤ) (pushed : List Entry)
        → HasCells page.old (P.pages out.old).usable cells
        → IsPair pair.old page.old.kind (P.pages out.old).usable s
        → OpenPagesStand (only own (P.pages out.old)) (family_of page.old.kind) last (front ++ (at_height h (steps cells None) ++ (at_height h (on page.old.kind pair.old.child s) ++ back))) pushed
        → IfOk result (IsLevelSettled (only own (P.pages out.new)) page.new pair.new (P.pages out.old).usable page.old.kind pair.old.child cells s h front back last pushed) }
    ensures fits { length pair.old.cell.items + 2 + more ≤ room_of page.old → IfOk result (λ closed. closed ≡ false) }
    ensures empty { length page.old.cells ≡ 0 → IfOk result (λ closed. closed ≡ false) }
    ensures left { IfOk result (λ closed. closed ≡ false → more ≤ room_of page.new) }
    ensures added { IfOk result (λ closed. closed ≡ false → 1 ≤ length page.new.cells) }
    ensures emptied { IfOk result (λ closed. closed ≡ true → length page.new.cells ≡ 0) }
    // one more is held, on the page or above it; and a page that is closed takes as much away as it adds
    ensures count { IfOk result (λ closed. (P.pages out.new).count + (length page.new.cells + one_if closed) ≤ (P.pages out.old).count + (length page.old.cells + 1)) }
    ensures one { IfOk result (λ closed. (P.pages out.new).count ≡ (P.pages out.old).count + one_if closed) }
    ensures refused { OnErr result ((P.pages out.new).count ≤ (P.pages out.old).count + 1) }
    // a page that is closed has two cells at least
    ensures short { AreShort (P.pages out.old).usable page.old.cells → OnOk result (AreShort (P.pages out.old).usable page.new.cells) }
    ensures wide { AreShort (P.pages out.old).usable page.old.cells → IfOk result (λ closed. closed ≡ true → 2 ≤ length page.old.cells) }
    // in bytes: what the page held pays for it, where no room was asked for more
    ensures size { OnOk result (length pair.new.cell.items ≡ length pair.old.cell.items) }
    ensures paid { more ≡ 0 → IfOk result (λ closed. price (P.pages out.old).usable (P.pages out.new).count + 6 * (filled page.new + one_if closed * (length pair.old.cell.items + 2))
        ≤ price (P.pages out.old).usable (P.pages out.old).count + 6 * (filled page.old + (length pair.old.cell.items + 2))) }
    ensures keeps { KeepsPages P.pages P.limit P.faults P.well false out.old out.new }
    ensures follows { OnOk result (Follows P.pages P.limit P.faults P.well false out.old out.new) }
    ensures cause { IfErr result (HasCause P.pages P.limit P.faults out.old out.new) }
    ensures fresh { P.only_fresh out.old out.new }
{
    let skip = skipped(page.kind());
    let len = pair.cell.len() - skip;
    if has_room(page, len, more) {
        page.add(&pair.cell[skip..]);
        return Ok(false);
    }
    let m = close(page, out, pair.child)?;
    page.clear();
    name(pair, m);
    Ok(true)
}
