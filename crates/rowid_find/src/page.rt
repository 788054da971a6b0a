// Pages that are met once in a search.
ghost use Rattle.std.specs.Prelude.{◌≡◌, ◌≤◌, ◌+◌, List, [], ◌∷◌, true, false, length, Err, OnOk, IfOk, IfErr, IsTrue};
ghost use Rattle.db_format.specs.Pages.{IsUsable, also};
ghost use Rattle.db_format.specs.Seen.{marked, open_count};
ghost use Rattle.db_format.specs.Source.{Rose};
ghost use Rattle.btree_walk.specs.Causes.{IsGivenBy, is_failure};
ghost use Rattle.rowid_find.specs.Search.{IsNotLoaded};

use btree_walk::WalkError;
use db_format::{Counted, Defect, PageSource, Seen};
use std::alloc::Global;

/// Loads page n and marks it. A page that has a mark is not asked for again.
pub(crate) fn load_new<S: PageSource>(
    source: &mut Counted<'_, S>,
    seen: &mut Seen,
    n: u32,
) -> Result<(), WalkError<S::Refusal>>
    requires low { 1 ≤ n }
    requires high { n ≤ (S.plain source.old.source.now).count }
    requires seen { length seen.old ≡ (S.plain source.old.source.now).count + 1 }
    ensures told { OnOk result (IsTrue S.tells → S.at_hand source.new.source.now ≡ (S.plain source.old.source.now).page n) }
    ensures accepted { OnOk result (IsTrue S.tells → (S.plain source.old.source.now).accepts n ≡ true) }
    ensures size { OnOk result (length (S.at_hand source.new.source.now) ≡ (S.plain source.old.source.now).usable) }
    ensures usable { OnOk result (IsUsable (S.plain source.old.source.now).usable) }
    ensures fresh { OnOk result (marked seen.old n ≡ false) }
    ensures marks { OnOk result (marked seen.new ≡ also (n ∷ []) (marked seen.old)) }
    ensures refused { IfErr result (IsNotLoaded S.refuses (S.plain source.old.source.now) n (record { reads = source.old.reads; marks = marked seen.old }) source.new.reads) }
    ensures counted { source.new.reads ≤ source.old.reads + 1 }
    ensures once { source.new.reads + open_count seen.new ≤ source.old.reads + open_count seen.old }
    ensures length { length seen.new ≡ length seen.old }
    ensures given { IfErr result (IsGivenBy S.only_read S.plain S.refuses source.old.source.now) }
    ensures fault { IfErr result (λ error. IsTrue (is_failure S.is_fault error) → Rose (S.faults source.old.source.now) (S.faults source.new.source.now)) }
    ensures pins { S.pins source.new.source.now ≡ S.pins source.old.source.now }
    ensures reads { S.only_read source.old.source.now source.new.source.now × (source.new.source.ghost_name ≡ source.old.source.ghost_name) }
{
    if seen.has(n) {
        return Err(WalkError::Defect(Defect::PageTwice { page: n }));
    }
    seen.mark(n);
    match source.load(n) {
        Err(refusal) => Err(WalkError::Source(refusal)),
        Ok(()) => Ok(()),
    }
}

/// The bytes of page n, which is loaded and marked.
pub(crate) fn copy_page<S: PageSource>(
    alloc: Global,
    source: &mut Counted<'_, S>,
    seen: &mut Seen,
    n: u32,
) -> Result<Vec<u8>, WalkError<S::Refusal>>
    requires low { 1 ≤ n }
    requires high { n ≤ (S.plain source.old.source.now).count }
    requires seen { length seen.old ≡ (S.plain source.old.source.now).count + 1 }
    ensures told { IfOk result (λ bytes. IsTrue S.tells → bytes.items ≡ (S.plain source.old.source.now).page n) }
    ensures accepted { OnOk result (IsTrue S.tells → (S.plain source.old.source.now).accepts n ≡ true) }
    ensures usable { IfOk result (λ bytes. IsUsable (length bytes.items)) }
    ensures fresh { OnOk result (marked seen.old n ≡ false) }
    ensures marks { OnOk result (marked seen.new ≡ also (n ∷ []) (marked seen.old)) }
    ensures refused { IfErr result (IsNotLoaded S.refuses (S.plain source.old.source.now) n (record { reads = source.old.reads; marks = marked seen.old }) source.new.reads) }
    ensures counted { source.new.reads ≤ source.old.reads + 1 }
    ensures once { source.new.reads + open_count seen.new ≤ source.old.reads + open_count seen.old }
    ensures length { length seen.new ≡ length seen.old }
    ensures given { IfErr result (IsGivenBy S.only_read S.plain S.refuses source.old.source.now) }
    ensures fault { IfErr result (λ error. IsTrue (is_failure S.is_fault error) → Rose (S.faults source.old.source.now) (S.faults source.new.source.now)) }
    ensures pins { S.pins source.new.source.now ≡ S.pins source.old.source.now }
    ensures reads { S.only_read source.old.source.now source.new.source.now × (source.new.source.ghost_name ≡ source.old.source.ghost_name) }
{
    match load_new(source, seen, n) {
        Err(error) => Err(error),
        Ok(()) => match source.loaded().to_vec(alloc) {
            Err(_) => Err(WalkError::OutOfMemory),
            Ok(bytes) => Ok(bytes),
        },
    }
}
