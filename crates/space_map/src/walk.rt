// The trunk pages of the freelist in order, section 1.5.
ghost use Rattle.std.specs.Prelude.{◌≡◌, ◌+◌, ◌≤◌, ℕ, List, suc, length, IfOk, IfErr, IsTrue};
ghost use Rattle.db_format.specs.Pages.{Test};
ghost use Rattle.db_format.specs.Seen.{marked, open_count};
ghost use Rattle.db_format.specs.Source.{Rose};
ghost use Rattle.btree_model.specs.Finding.{Finding};
ghost use Rattle.btree_walk.specs.Causes.{IsGivenBy, is_failure};
ghost use Rattle.btree_walk.specs.Marks.{KeepsMarks};
ghost use Rattle.space_map.specs.Walk.{IsFreeWalkAt, IsNumber, IsVisited, IsWalked};

use crate::trunk::{Trunk, read_trunk, take_leaves};
use btree_walk::WalkError;
use db_format::{Defect, PageSource, Seen};

// Marks trunk n and its leaves. Every number of the trunk is tested before its first leaf is marked.
fn visit_trunk<S: PageSource>(
    source: &mut S,
    n: u32,
    seen: &mut Seen,
    free: &mut Seen,
) -> Result<Trunk, WalkError<S::Refusal>>
    requires low { 2 ≤ n }
    requires high { n ≤ (S.plain source.old).count }
    requires seen { length seen.old ≡ (S.plain source.old).count + 1 }
    requires free { length free.old ≡ (S.plain source.old).count + 1 }
    ensures on { IsTrue S.tells → (all : List Finding) (taken : Test) (fuel found : ℕ)
        → IsFreeWalkAt (S.plain source.old) all taken (suc fuel) n found (marked seen.old) (marked free.old)
        → IsVisited S.refuses (S.plain source.old) all taken fuel found (marked seen.new) (marked free.new) result }
    ensures next { IfOk result (λ trunk. IsNumber (S.plain source.old) trunk.next) }
    // why it stopped
    ensures given { IfErr result (IsGivenBy S.only_read S.plain S.refuses source.old) }
    ensures fault { IfErr result (λ error. IsTrue (is_failure S.is_fault error) → Rose (S.faults source.old) (S.faults source.new)) }
    // marks
    ensures seen_length { length seen.new ≡ length seen.old }
    ensures free_length { length free.new ≡ length free.old }
    ensures kept { KeepsMarks (marked seen.old) (marked seen.new) }
    ensures zero { marked seen.new 0 ≡ marked seen.old 0 }
    ensures less { IfOk result (λ trunk. open_count seen.new + (1 + trunk.size) ≡ open_count seen.old) }
    // what stays as it was
    ensures pins { S.pins source.new ≡ S.pins source.old }
    ensures reads { S.only_read source.old source.new }
{
    let count = source.pages();
    if !seen.mark(n) {
        return Err(WalkError::Defect(Defect::PageTwice { page: n }));
    }
    match source.load(n) {
        Err(refusal) => Err(WalkError::Source(refusal)),
        Ok(()) => {
            let bytes = source.loaded();
            match read_trunk(bytes, count) {
                None => Err(WalkError::Defect(Defect::TrunkFault { page: n })),
                Some(trunk) => match take_leaves(bytes, trunk.size, seen, free) {
                    Err(leaf) => Err(WalkError::Defect(Defect::PageTwice { page: leaf })),
                    Ok(()) => Ok(trunk),
                },
            }
        }
    }
}

/// Marks the trunks from the first on, and their leaves. It answers how many pages they are.
pub fn walk_trunks<S: PageSource>(
    source: &mut S,
    first: u32,
    seen: &mut Seen,
    free: &mut Seen,
) -> Result<u32, WalkError<S::Refusal>>
    requires first { IsNumber (S.plain source.old) first }
    requires seen { length seen.old ≡ (S.plain source.old).count + 1 }
    requires free { length free.old ≡ (S.plain source.old).count + 1 }
    ensures on { IsTrue S.tells → (all : List Finding) (taken : Test)
        → IsFreeWalkAt (S.plain source.old) all taken (S.plain source.old).count first 0 (marked seen.old) (marked free.old)
        → IsWalked S.refuses (S.plain source.old) all taken (marked seen.new) (marked free.new) result }
    ensures given { IfErr result (IsGivenBy S.only_read S.plain S.refuses source.old) }
    ensures fault { IfErr result (λ error. IsTrue (is_failure S.is_fault error) → Rose (S.faults source.old) (S.faults source.new)) }
    ensures seen_length { length seen.new ≡ length seen.old }
    ensures kept { KeepsMarks (marked seen.old) (marked seen.new) }
    ensures pins { S.pins source.new ≡ S.pins source.old }
    ensures reads { S.only_read source.old source.new }
{
    let count = source.pages();
    let mut n = first;
    let mut found = 0u32;
    for turn in 0..count {
        if n == 0 {
            return Ok(found);
        }
        match visit_trunk(source, n, seen, free) {
            Err(stop) => return Err(stop),
            Ok(trunk) => {
                n = trunk.next;
                found += 1 + trunk.size;
            }
        }
    }
    if n == 0 {
        Ok(found)
    } else {
        Err(WalkError::Defect(Defect::PageTwice { page: n }))
    }
}
