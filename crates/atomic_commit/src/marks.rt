// Which pages of a database are marked, as those that were changed, or those that have a record.
ghost use Rattle.std.specs.Prelude.{◌≡◌, ◌+◌, ◌-◌, ◌^◌, ◌<◌, ◌≤◌, Bool, List, false, length, replicate, IfOk, IsFalse};
ghost use Rattle.atomic_commit.specs.Batches.{HasMarked};
ghost use Rattle.atomic_commit.specs.Commit.{AreChanges};
ghost use Rattle.atomic_commit.specs.Marks.{is_marked, marked_count, with_mark};

use crate::PageNumbers;
use edge_model::OutOfMemory;
use std::alloc::Global;
use std::marker::Model;

/// A set of pages of a database, with their count. It takes memory when it is made, a byte a page, and never again.
#[derive(Drop)]
pub struct PageMarks {
    /// Page 1 first.
    marks: Vec<bool>,
    count: u32,
}

impl Model for PageMarks {
    ghost Value = { List Bool };

    ghost view = { λ m. m.marks.items };

    ghost invariant = { λ m. (m.count ≡ marked_count m.marks.items) × (length m.marks.items < 2 ^ 32) };
}

impl PageMarks {
    /// No page of so many is marked.
    pub fn new(alloc: Global, pages: u32) -> Result<PageMarks, OutOfMemory>
        ensures { IfOk result (λ m. m ≡ replicate pages false) }
    {
        let Ok(marks) = Vec::from_elem(alloc, false, pages as usize) else {
            return Err(OutOfMemory);
        };
        Ok(PageMarks { marks, count: 0 })
    }

    /// How many pages are marked.
    pub fn count(&self) -> u32
        ensures { result ≡ marked_count self.now }
    {
        self.count
    }

    /// Whether the page is marked. Where one is not, fewer pages are marked than there are.
    pub fn has(&self, n: u32) -> bool
        requires { (1 ≤ n) × (n ≤ length self.now) }
        ensures answer { result ≡ is_marked n self.now }
        ensures room { IsFalse result → marked_count self.now < length self.now }
    {
        self.marks[n as usize - 1]
    }

    /// Marks a page that is not marked.
    pub fn put(&mut self, n: u32)
        requires number { (1 ≤ n) × (n ≤ length self.old) }
        requires fresh { IsFalse (is_marked n self.old) }
        ensures marks { self.new ≡ with_mark n self.old }
        ensures one_more { marked_count self.new ≡ marked_count self.old + 1 }
    {
        self.marks[n as usize - 1] = true;
        self.count += 1;
    }
}

/// Marks those of these pages that are not marked.
pub fn mark_pages<N: PageNumbers>(marks: &mut PageMarks, pages: &N)
    requires { AreChanges (length marks.old) (N.numbers pages.now) }
    ensures { HasMarked (N.numbers pages.now) (length (N.numbers pages.now)) marks.old marks.new }
{
    for k in 0..pages.len() {
        let n = pages.number(k);
        if !marks.has(n) {
            marks.put(n);
        }
    }
}
