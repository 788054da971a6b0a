// Payloads that overflow, section 1.7.
ghost use Rattle.std.specs.Prelude.{◌≡◌, ◌+◌, ◌-◌, ◌≤◌, ◌<◌, ◌^◌, ℕ, List, length, vec_len, IsTrue, OnOk, IfErr};
ghost use Rattle.db_format.specs.Pages.{Test, also, is_page};
ghost use Rattle.db_format.specs.Seen.{marked, open_count};
ghost use Rattle.db_format.specs.Source.{Rose};
ghost use Rattle.btree_page.specs.Payload.{max_payload};
ghost use Rattle.btree_model.specs.Finding.{Finding, places};
ghost use Rattle.btree_model.specs.Walk.{chain, chain_of};
ghost use Rattle.btree_walk.specs.Causes.{IsGivenBy, IsMarked, is_failure};
ghost use Rattle.btree_walk.specs.Chain.{IsCellRead, IsChained};
ghost use Rattle.btree_walk.specs.Marks.{KeepsMarks};

use crate::{WalkError, is_in_range};
use db_format::{Defect, PageSource, Seen, u32_at};

// Reads the chain of `needed` overflow pages from page `first` on, whose number stands on page `start`, behind what
// `payload` has.
fn read_chain<S: PageSource>(
    source: &mut S,
    seen: &mut Seen,
    start: u32,
    first: u32,
    needed: usize,
    payload: &mut Vec<u8>,
) -> Result<(), WalkError<S::Refusal>>
    requires seen { length seen.old ≡ (S.plain source.old).count + 1 }
    ensures pins { S.pins source.new ≡ S.pins source.old }
    ensures reads { S.only_read source.old source.new }
    ensures seen_length { length seen.new ≡ length seen.old }
    ensures kept { KeepsMarks (marked seen.old) (marked seen.new) }
    ensures fewer { OnOk result (open_count seen.new ≤ open_count seen.old) }
    ensures given { IfErr result (IsGivenBy S.only_read S.plain S.refuses source.old) }
    ensures fault { IfErr result (λ error. IsTrue (is_failure S.is_fault error) → Rose (S.faults source.old) (S.faults source.new)) }
    ensures marks { IfErr result (λ error. IsTrue S.tells → (taken : Test) (met : List Finding) → marked seen.old ≡ also (places met) taken
        → IsMarked (chain (S.plain source.old) taken met needed start first) (marked seen.old) (marked seen.new)) }
    ensures on { IsTrue S.tells → (taken : Test) (met : List Finding) → marked seen.old ≡ also (places met) taken
        → IsChained S.refuses (S.plain source.old) taken met needed start first payload.old.items payload.new.items (marked seen.old) (marked seen.new) result }
{
    let count = source.pages();
    let mut holder = start;
    let mut n = first;
    for turn in 0..needed {
        if n == 0 {
            return Err(WalkError::Defect(Defect::ChainShort { page: holder }));
        }
        if !is_in_range(n, count) {
            return Err(WalkError::Defect(Defect::ChildOutOfRange { page: holder }));
        }
        if !seen.mark(n) {
            return Err(WalkError::Defect(Defect::PageTwice { page: n }));
        }
        match source.load(n) {
            Err(refusal) => return Err(WalkError::Source(refusal)),
            Ok(()) => {}
        }
        let bytes = source.loaded();
        match payload.extend_from_slice(&bytes[4..]) {
            Err(_) => return Err(WalkError::OutOfMemory),
            Ok(()) => {}
        }
        holder = n;
        n = u32_at(bytes, 0);
    }
    if n == 0 {
        Ok(())
    } else {
        Err(WalkError::Defect(Defect::ChainLong { page: holder }))
    }
}

// Reads the payload of a cell on page n. `payload` has its local bytes at first, and all of it at the end.
pub(crate) fn read_payload<S: PageSource>(
    source: &mut S,
    seen: &mut Seen,
    n: u32,
    size: u64,
    first: u32,
    payload: &mut Vec<u8>,
) -> Result<(), WalkError<S::Refusal>>
    requires seen { length seen.old ≡ (S.plain source.old).count + 1 }
    requires size { size ≤ max_payload }
    ensures limit { OnOk result (vec_len payload.new ≤ size) }
    ensures pins { S.pins source.new ≡ S.pins source.old }
    ensures reads { S.only_read source.old source.new }
    ensures seen_length { length seen.new ≡ length seen.old }
    ensures kept { KeepsMarks (marked seen.old) (marked seen.new) }
    ensures fewer { OnOk result (open_count seen.new ≤ open_count seen.old) }
    ensures given { IfErr result (IsGivenBy S.only_read S.plain S.refuses source.old) }
    ensures fault { IfErr result (λ error. IsTrue (is_failure S.is_fault error) → Rose (S.faults source.old) (S.faults source.new)) }
    ensures marks { IfErr result (λ error. IsTrue S.tells → (taken : Test) (met : List Finding) → marked seen.old ≡ also (places met) taken
        → IsMarked (chain_of (S.plain source.old) taken met n (record { size = size; local = payload.old.items; first = first })) (marked seen.old) (marked seen.new)) }
    ensures on { IsTrue S.tells → (taken : Test) (met : List Finding) → marked seen.old ≡ also (places met) taken
        → IsCellRead S.refuses (S.plain source.old) taken met n (record { size = size; local = payload.old.items; first = first }) payload.new.items (marked seen.old) (marked seen.new) result }
{
    let missing = (size as usize).saturating_sub(payload.len());
    if missing == 0 {
        payload.truncate(size as usize);
        return Ok(());
    }
    let usable = source.usable();
    if first == 0 {
        return Err(WalkError::Defect(Defect::ChildOutOfRange { page: n }));
    }
    let needed = (missing + (usable - 5)) / (usable - 4);
    match read_chain(source, seen, n, first, needed, payload) {
        Err(error) => Err(error),
        Ok(()) => {
            payload.truncate(size as usize);
            Ok(())
        }
    }
}
