// The whole of a database.
ghost use Rattle.std.specs.Prelude.{◌≡◌, ◌+◌, ◌≤◌, length, IfOk, IfErr, OnOk, IsTrue};
ghost use Rattle.std.specs.List.{All};
ghost use Rattle.db_format.specs.Seen.{marked};
ghost use Rattle.db_format.specs.Source.{Rose, no_pins};
ghost use Rattle.btree_model.specs.Freelist.{first_trunk, free_field};
ghost use Rattle.btree_walk.specs.Causes.{IsGivenBy, is_failure};
ghost use Rattle.schema_map.specs.Census.{IsCensusBegun, IsCensus, IsStarted};

use crate::trees::check_trees;
use crate::unused::count_unmarked;
use crate::{Census, read_schema};
use btree_walk::WalkError;
use db_format::{Header, PageSource, Seen};
use space_map::{FreeMap, freelist};
use std::alloc::Global;
use std::marker::Model;

/// A census that has come through the freelist. Contracts see its marks and the freelist.
#[derive(Drop)]
pub struct Started {
    seen: Seen,
    leaves: FreeMap,
}

impl Model for Started {
    ghost use Rattle.schema_map.specs.Started.{FreeMarks};

    ghost Value = { FreeMarks };

    ghost view = { λ started. record { marks = started.seen; free = started.leaves } };
}

/// Begins a census: walks the freelist.
pub fn start<S: PageSource>(
    alloc: Global,
    source: &mut S,
    header: &Header,
) -> Result<Started, WalkError<S::Refusal>>
    requires first { IsTrue S.tells → header.now.first_trunk ≡ first_trunk (S.plain source.old) }
    requires kept { IsTrue S.tells → header.now.free_count ≡ free_field (S.plain source.old) }
    ensures found { IsTrue S.tells → IsStarted S.refuses (S.plain source.old) result }
    ensures given { IfErr result (IsGivenBy S.only_read S.plain S.refuses source.old) }
    ensures fault { IfErr result (λ error. IsTrue (is_failure S.is_fault error) → Rose (S.faults source.old) (S.faults source.new)) }
    ensures marks { IfOk result (λ started. length started.marks ≡ (S.plain source.old).count + 1) }
    ensures pins { S.pins source.new ≡ S.pins source.old }
    ensures reads { S.only_read source.old source.new }
{
    let mut seen = match Seen::new(alloc, source.pages()) {
        Err(_) => return Err(WalkError::OutOfMemory),
        Ok(seen) => seen,
    };
    match freelist(alloc, source, header, &mut seen) {
        Err(error) => Err(error),
        Ok(leaves) => Ok(Started { seen, leaves }),
    }
}

impl Started {
    /// The freelist.
    pub fn leaves(&self) -> &FreeMap
        ensures { result.now ≡ self.now.free }
    {
        &self.leaves
    }

    /// Goes on with the schema and the tree of each of its rows. The pages are those of the first call.
    pub fn finish<S: PageSource>(
        self,
        alloc: Global,
        source: &mut S,
    ) -> Result<Census, WalkError<S::Refusal>>
        requires some { 1 ≤ (S.plain source.old).count }
        requires unpinned { S.pins source.old ≡ no_pins }
        requires marks { length self.marks ≡ (S.plain source.old).count + 1 }
        requires begun { IsTrue S.tells → IsCensusBegun (S.plain source.old) self }
        ensures found { IsTrue S.tells → IsCensus S.refuses (S.plain source.old) result }
        ensures given { IfErr result (IsGivenBy S.only_read S.plain S.refuses source.old) }
        ensures fault { IfErr result (λ error. IsTrue (is_failure S.is_fault error) → Rose (S.faults source.old) (S.faults source.new)) }
        ensures roots { IfOk result (λ census. All (λ row. row.root ≤ (S.plain source.old).count) census.schema) }
        ensures unpinned { OnOk result (S.pins source.new ≡ no_pins) }
        ensures reads { S.only_read source.old source.new }
    {
        let pages = source.pages();
        let Started { mut seen, leaves } = self;
        let schema = match read_schema(alloc, source, &mut seen) {
            Err(error) => return Err(error),
            Ok(schema) => schema,
        };
        let counts = match check_trees(alloc, source, &mut seen, schema.rows()) {
            Err(error) => return Err(error),
            Ok(counts) => counts,
        };
        Ok(Census {
            trees: counts.trees.saturating_add(1),
            entries: counts.entries.saturating_add(schema.rows().len() as u64),
            free: leaves.count(),
            unused: count_unmarked(&seen, pages),
            schema,
            leaves,
        })
    }
}

/// Checks the whole of a database and counts what it has: each page has at most one place, each payload is a record, and no
/// part has a defect.
pub fn census<S: PageSource>(
    alloc: Global,
    source: &mut S,
    header: &Header,
) -> Result<Census, WalkError<S::Refusal>>
    requires first { IsTrue S.tells → header.now.first_trunk ≡ first_trunk (S.plain source.old) }
    requires kept { IsTrue S.tells → header.now.free_count ≡ free_field (S.plain source.old) }
    requires some { 1 ≤ (S.plain source.old).count }
    requires unpinned { S.pins source.old ≡ no_pins }
    ensures found { IsTrue S.tells → IsCensus S.refuses (S.plain source.old) result }
    ensures given { IfErr result (IsGivenBy S.only_read S.plain S.refuses source.old) }
    ensures fault { IfErr result (λ error. IsTrue (is_failure S.is_fault error) → Rose (S.faults source.old) (S.faults source.new)) }
    ensures roots { IfOk result (λ census. All (λ row. row.root ≤ (S.plain source.old).count) census.schema) }
    ensures unpinned { OnOk result (S.pins source.new ≡ no_pins) }
    ensures reads { S.only_read source.old source.new }
{
    match start(alloc, source, header) {
        Err(error) => Err(error),
        Ok(started) => started.finish(alloc, source),
    }
}
