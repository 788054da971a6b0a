// A page at the next number.
ghost use Rattle.std.specs.Prelude.{◌≡◌, ◌≤◌, ◌+◌, ℕ, length, IfOk, IfErr, OnOk, true, false, OnErr};
ghost use Rattle.db_format.specs.Pages.{Test};
ghost use Rattle.bulk_load.specs.Own.{Covers, only};
ghost use Rattle.bulk_load.specs.Out.{Follows, HasCause, IsPutAs, KeepsPages, is_refusal};

use crate::out::{OutError, PageOut};

/// Puts a page at the next number, which is answered.
pub fn put_next<P: PageOut>(out: &mut P, plain: &[u8]) -> Result<u32, OutError>
    requires size { length plain.now ≡ (P.pages out.old).usable }
    ensures put { (start : ℕ) → P.well start out.old → (own : Test) → Covers false own (P.pages out.old) (P.pages out.new)
        → IfOk result (λ n. IsPutAs (only own (P.pages out.old)) (only own (P.pages out.new)) n plain.now) }
    ensures low { IfOk result (λ n. 2 ≤ n) }
    ensures one { OnOk result ((P.pages out.new).count ≡ (P.pages out.old).count + 1) }
    ensures refused { OnErr result ((P.pages out.new).count ≤ (P.pages out.old).count + 1) }
    ensures asked { IfErr result (λ why. is_refusal why ≡ true → (P.pages out.new).count ≡ (P.pages out.old).count) }
    ensures keeps { KeepsPages P.pages P.limit P.faults P.well false out.old out.new }
    ensures follows { OnOk result (Follows P.pages P.limit P.faults P.well false out.old out.new) }
    ensures cause { IfErr result (HasCause P.pages P.limit P.faults out.old out.new) }
    ensures fresh { P.only_fresh out.old out.new }
{
    let n = out.take()?;
    out.put(n, plain)?;
    Ok(n)
}
