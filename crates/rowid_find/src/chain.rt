// Payloads that overflow, section 1.7.
ghost use Rattle.std.specs.Prelude.{◌≡◌, ◌++◌, ◌+◌, ◌≤◌, ◌<◌, List, take, length, vec_len, IsTrue, OnOk, IfErr};
ghost use Rattle.db_format.specs.Seen.{marked, open_count};
ghost use Rattle.db_format.specs.Source.{Rose};
ghost use Rattle.btree_page.specs.Payload.{max_payload};
ghost use Rattle.btree_model.specs.Walk.{chain_bytes, payload_of};
ghost use Rattle.btree_walk.specs.Causes.{IsGivenBy, is_failure};
ghost use Rattle.rowid_find.specs.Reach.{chain_findings, links_of};
ghost use Rattle.rowid_find.specs.Search.{IsChainLinked};

use crate::page::load_new;
use btree_walk::{WalkError, is_in_range};
use db_format::{Counted, Defect, PageSource, Seen, u32_at};

// Reads the chain of `needed` overflow pages from page `first` on, whose number stands on page `start`, behind what
// `payload` has.
fn read_links<S: PageSource>(
    source: &mut Counted<'_, S>,
    seen: &mut Seen,
    start: u32,
    first: u32,
    needed: usize,
    payload: &mut Vec<u8>,
) -> Result<(), WalkError<S::Refusal>>
    requires seen { length seen.old ≡ (S.plain source.old.source.now).count + 1 }
    ensures on { IsTrue S.tells → IsChainLinked S.refuses (S.plain source.old.source.now) (chain_findings (S.plain source.old.source.now) needed start first)
        (payload.old.items ++ chain_bytes (S.plain source.old.source.now) needed first) payload.new.items
        (record { reads = source.old.reads; marks = marked seen.old }) (record { reads = source.new.reads; marks = marked seen.new }) result }
    ensures once { source.new.reads + open_count seen.new ≤ source.old.reads + open_count seen.old }
    ensures seen_length { length seen.new ≡ length seen.old }
    ensures given { IfErr result (IsGivenBy S.only_read S.plain S.refuses source.old.source.now) }
    ensures fault { IfErr result (λ error. IsTrue (is_failure S.is_fault error) → Rose (S.faults source.old.source.now) (S.faults source.new.source.now)) }
    ensures pins { S.pins source.new.source.now ≡ S.pins source.old.source.now }
    ensures reads { S.only_read source.old.source.now source.new.source.now × (source.new.source.ghost_name ≡ source.old.source.ghost_name) }
{
    let count = source.pages();
    let mut holder = start;
    let mut n = first;
    for turn in 0..needed {
        if n == 0 {
            return Err(WalkError::Defect(Defect::ChainShort { page: holder }));
        }
        if !is_in_range(n, count) {
            return Err(WalkError::Defect(Defect::ChildOutOfRange { page: holder }));
        }
        match load_new(source, seen, n) {
            Err(error) => return Err(error),
            Ok(()) => {}
        }
        let bytes = source.loaded();
        match payload.extend_from_slice(&bytes[4..]) {
            Err(_) => return Err(WalkError::OutOfMemory),
            Ok(()) => {}
        }
        holder = n;
        n = u32_at(bytes, 0);
    }
    if n == 0 {
        Ok(())
    } else {
        Err(WalkError::Defect(Defect::ChainLong { page: holder }))
    }
}

/// Reads the payload of a cell on page n. `payload` has its local bytes at first, and all of it at the end.
pub(crate) fn read_payload<S: PageSource>(
    source: &mut Counted<'_, S>,
    seen: &mut Seen,
    n: u32,
    size: u64,
    first: u32,
    payload: &mut Vec<u8>,
) -> Result<(), WalkError<S::Refusal>>
    requires size { size ≤ max_payload }
    requires seen { length seen.old ≡ (S.plain source.old.source.now).count + 1 }
    ensures limit { OnOk result (vec_len payload.new ≤ size) }
    ensures on { IsTrue S.tells → IsChainLinked S.refuses (S.plain source.old.source.now) (links_of (S.plain source.old.source.now) n (record { size = size; local = payload.old.items; first = first }))
        (payload_of (S.plain source.old.source.now) (record { size = size; local = payload.old.items; first = first })) payload.new.items
        (record { reads = source.old.reads; marks = marked seen.old }) (record { reads = source.new.reads; marks = marked seen.new }) result }
    ensures once { source.new.reads + open_count seen.new ≤ source.old.reads + open_count seen.old }
    ensures seen_length { length seen.new ≡ length seen.old }
    ensures given { IfErr result (IsGivenBy S.only_read S.plain S.refuses source.old.source.now) }
    ensures fault { IfErr result (λ error. IsTrue (is_failure S.is_fault error) → Rose (S.faults source.old.source.now) (S.faults source.new.source.now)) }
    ensures pins { S.pins source.new.source.now ≡ S.pins source.old.source.now }
    ensures reads { S.only_read source.old.source.now source.new.source.now × (source.new.source.ghost_name ≡ source.old.source.ghost_name) }
{
    let missing = (size as usize).saturating_sub(payload.len());
    if missing == 0 {
        payload.truncate(size as usize);
        return Ok(());
    }
    let usable = source.usable();
    if first == 0 {
        return Err(WalkError::Defect(Defect::ChildOutOfRange { page: n }));
    }
    let needed = (missing + (usable - 5)) / (usable - 4);
    match read_links(source, seen, n, first, needed, payload) {
        Err(error) => Err(error),
        Ok(()) => {
            payload.truncate(size as usize);
            Ok(())
        }
    }
}
