// The freelist as a whole, section 1.5.
ghost use Rattle.std.specs.Prelude.{◌≡◌, ◌+◌, length, IfErr, IsTrue};
ghost use Rattle.db_format.specs.Seen.{marked};
ghost use Rattle.db_format.specs.Source.{Rose};
ghost use Rattle.btree_model.specs.Freelist.{first_trunk, free_field, freelist_walk};
ghost use Rattle.btree_walk.specs.Causes.{IsGivenBy, IsMarked, is_failure};
ghost use Rattle.btree_walk.specs.Marks.{KeepsMarks};
ghost use Rattle.space_map.specs.FreeMap.{IsFreelist};

use crate::trunk::is_number;
use crate::walk::walk_trunks;
use btree_walk::WalkError;
use db_format::{Defect, Header, PageSource, Seen};
use std::alloc::Global;
use std::marker::Model;

/// The pages of a freelist. Contracts see a mark for each leaf, and the count of trunks and leaves.
#[derive(Drop)]
pub struct FreeMap {
    leaves: Seen,
    count: u32,
}

impl Model for FreeMap {
    ghost use Rattle.space_map.specs.FreeMap.{FreePages};

    ghost Value = { FreePages };

    ghost view = { λ map. record { leaves = map.leaves; count = map.count } };
}

impl FreeMap {
    /// Whether page n is a leaf: its bytes hold no content, and may never have been written.
    pub fn is_leaf(&self, n: u32) -> bool
        ensures { result ≡ marked self.now.leaves n }
    {
        self.leaves.has(n)
    }

    /// How many trunks and leaves there are.
    pub fn count(&self) -> u32
        ensures { result ≡ self.now.count }
    {
        self.count
    }
}

/// Walks the freelist that the header begins, and marks each of its pages in `seen`. A page that has a mark before the
/// call counts as met at an earlier place. A defect is the first of the walk. Leaves are not read.
pub fn freelist<S: PageSource>(
    alloc: Global,
    source: &mut S,
    header: &Header,
    seen: &mut Seen,
) -> Result<FreeMap, WalkError<S::Refusal>>
    requires first { IsTrue S.tells → header.now.first_trunk ≡ first_trunk (S.plain source.old) }
    requires kept { IsTrue S.tells → header.now.free_count ≡ free_field (S.plain source.old) }
    requires marks { length seen.old ≡ (S.plain source.old).count + 1 }
    // what it finds, or why it stopped
    ensures found { IsTrue S.tells
        → IsFreelist S.refuses (S.plain source.old) (freelist_walk (S.plain source.old) (marked seen.old)) (marked seen.old) (marked seen.new) result }
    ensures given { IfErr result (IsGivenBy S.only_read S.plain S.refuses source.old) }
    ensures fault { IfErr result (λ error. IsTrue (is_failure S.is_fault error) → Rose (S.faults source.old) (S.faults source.new)) }
    // marks, whatever it answers
    ensures kept { KeepsMarks (marked seen.old) (marked seen.new) }
    ensures marked { IsTrue S.tells
        → IsMarked (freelist_walk (S.plain source.old) (marked seen.old)) (marked seen.old) (marked seen.new) }
    ensures length { length seen.new ≡ length seen.old }
    // what stays as it was
    ensures pins { S.pins source.new ≡ S.pins source.old }
    ensures reads { S.only_read source.old source.new }
{
    let count = source.pages();
    let mut leaves = match Seen::new(alloc, count) {
        Err(_) => return Err(WalkError::OutOfMemory),
        Ok(leaves) => leaves,
    };
    if !is_number(header.first_trunk, count) {
        return Err(WalkError::Defect(Defect::TrunkFault { page: 1 }));
    }
    match walk_trunks(source, header.first_trunk, seen, &mut leaves) {
        Err(stop) => Err(stop),
        Ok(found) => {
            if found == header.free_count {
                Ok(FreeMap {
                    leaves,
                    count: found,
                })
            } else {
                Err(WalkError::Defect(Defect::FreeCount {
                    kept: header.free_count,
                    found,
                }))
            }
        }
    }
}
