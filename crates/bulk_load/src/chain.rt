// Overflow pages, section 1.7. A chain is put from its end, so each page names one that was put.
ghost use Rattle.std.specs.Prelude.{◌≡◌, ℕ, ◌+◌, ◌≤◌, ◌<◌, length, IfOk, IfErr, OnOk, false, OnErr, ◌-◌};
ghost use Rattle.bulk_load.specs.Chain.{IsLink, IsPutChain};
ghost use Rattle.db_format.specs.Pages.{Test};
ghost use Rattle.bulk_load.specs.Count.{pages_for};
ghost use Rattle.bulk_load.specs.Own.{Covers, only};
ghost use Rattle.bulk_load.specs.Out.{Follows, HasCause, KeepsPages};

use crate::out::{OutError, PageOut};
use crate::putting::put_next;
use page_build::{four_bytes, lay};

// Puts one page of a chain: the number of the next one, and these bytes.
fn put_link<P: PageOut>(
    out: &mut P,
    page: &mut Vec<u8>,
    next: u32,
    piece: &[u8],
) -> Result<u32, OutError>
    requires size { length page.old.items ≡ (P.pages out.old).usable }
    requires fits { 4 + length piece.now ≤ length page.old.items }
    ensures size { length page.new.items ≡ length page.old.items }
    ensures link { (start : ℕ) → P.well start out.old → (own : Test) → Covers false own (P.pages out.old) (P.pages out.new)
        → IfOk result (λ n. IsLink (only own (P.pages out.old)) (only own (P.pages out.new)) n next piece.now) }
    ensures low { IfOk result (λ n. 2 ≤ n) }
    ensures one { OnOk result ((P.pages out.new).count ≡ (P.pages out.old).count + 1) }
    ensures refused { OnErr result ((P.pages out.new).count ≤ (P.pages out.old).count + 1) }
    ensures keeps { KeepsPages P.pages P.limit P.faults P.well false out.old out.new }
    ensures follows { OnOk result (Follows P.pages P.limit P.faults P.well false out.old out.new) }
    ensures cause { IfErr result (HasCause P.pages P.limit P.faults out.old out.new) }
    ensures fresh { P.only_fresh out.old out.new }
{
    lay(page, 0, &four_bytes(next));
    lay(page, 4, piece);
    put_next(out, page)
}

/// Puts the chain of these bytes and answers its first page, 0 where there is no byte. `page` is as long as a page.
pub fn put_chain<P: PageOut>(out: &mut P, page: &mut Vec<u8>, rest: &[u8]) -> Result<u32, OutError>
    requires size { length page.old.items ≡ (P.pages out.old).usable }
    requires large { 480 ≤ length page.old.items }
    ensures size { OnOk result (length page.new.items ≡ length page.old.items) }
    ensures chain { (start : ℕ) → P.well start out.old → (own : Test) → Covers false own (P.pages out.old) (P.pages out.new)
        → IfOk result (λ n. IsPutChain (only own (P.pages out.old)) (only own (P.pages out.new)) n rest.now) }
    ensures none { length rest.now ≡ 0 → IfOk result (λ n. n ≡ 0) }
    ensures some { 0 < length rest.now → IfOk result (λ n. 2 ≤ n) }
    ensures count { OnOk result ((P.pages out.new).count ≡ (P.pages out.old).count + pages_for ((P.pages out.old).usable - 4) (length rest.now)) }
    ensures refused { OnErr result ((P.pages out.new).count ≤ (P.pages out.old).count + pages_for ((P.pages out.old).usable - 4) (length rest.now)) }
    ensures keeps { KeepsPages P.pages P.limit P.faults P.well false out.old out.new }
    ensures follows { OnOk result (Follows P.pages P.limit P.faults P.well false out.old out.new) }
    ensures cause { IfErr result (HasCause P.pages P.limit P.faults out.old out.new) }
    ensures fresh { P.only_fresh out.old out.new }
{
    let size = page.len() - 4;
    let mut next = 0;
    let mut end = rest.len();
    let mut left = end % size;
    if left > 0 {
        // the last page of the chain ends in zeros
        page.fill(0);
    }
    while end > 0 {
        let at = end - if left == 0 { size } else { left };
        next = put_link(out, page, next, &rest[at..end])?;
        end = at;
        left = 0;
    }
    Ok(next)
}
