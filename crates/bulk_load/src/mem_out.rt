// Pages that are put into memory.
ghost use Rattle.std.specs.Prelude.{◌≡◌, ◌≤◌, ◌+◌, ◌*◌, ◌<◌, ◌^◌, ℕ, false, length, replicate, slice_index_or, take, IfOk};
ghost use Rattle.db_format.specs.Pages.{IsUsable, nothing};
ghost use Rattle.bulk_load.specs.MemOut.{mem_pages};

use crate::out::{OutError, PageOut};
use db_format::OutOfMemory;
use page_build::lay;
use std::alloc::Global;

/// Pages in memory, up to a limit. It has no faults, and takes no memory after `new`.
#[derive(Drop)]
pub struct MemOut {
    // the pages in a row, page 1 first
    bytes: Vec<u8>,
    // by page number, whether it was put
    put: Vec<bool>,
    usable: usize,
    limit: u32,
    // the last number that was given, 1 before the first
    last: u32,
    ghost size: { IsUsable usable },
    ghost whole: { length bytes.items ≡ limit * usable },
    ghost marked: { length put.items ≡ limit + 1 },
    ghost least: { 1 ≤ last },
    ghost within: { last ≤ limit },
    ghost free: { (k : ℕ) → last < k → slice_index_or put.items k false ≡ false },
}

impl MemOut {
    /// Room for so many pages of so many bytes, none of them put.
    pub fn new(alloc: Global, usable: usize, limit: u32) -> Result<MemOut, OutOfMemory>
        requires usable { IsUsable usable }
        requires some { 1 ≤ limit }
        ensures pages { IfOk result (λ out. (⟦<MemOut as PageOut>⟧.pages out).count ≡ 1) }
        ensures size { IfOk result (λ out. (⟦<MemOut as PageOut>⟧.pages out).usable ≡ usable) }
        ensures none { IfOk result (λ out. (n : ℕ) → (⟦<MemOut as PageOut>⟧.pages out).accepts n ≡ false) }
        ensures limit { IfOk result (λ out. ⟦<MemOut as PageOut>⟧.limit out ≡ limit) }
    {
        let bytes = match vec![in alloc; 0u8; limit as usize * usable] {
            Ok(bytes) => bytes,
            Err(_) => return Err(OutOfMemory),
        };
        let put = match vec![in alloc; false; limit as usize + 1] {
            Ok(put) => put,
            Err(_) => return Err(OutOfMemory),
        };
        Ok(MemOut {
            bytes,
            put,
            usable,
            limit,
            last: 1,
        })
    }

    /// The pages from 1 to the last number that was given, in a row. One that was not put has zeros.
    pub fn plain(&self) -> &[u8]
        ensures { result.now ≡ take (self.now.last * self.now.usable) self.now.bytes.items }
    {
        &self.bytes[..self.last as usize * self.usable]
    }
}

impl PageOut for MemOut {
    ghost use Rattle.std.specs.Prelude.{ℕ};
    ghost use Rattle.bulk_load.specs.MemOut.{mem_pages};

    ghost pages = { λ out. mem_pages out.usable out.bytes.items out.put.items out.last };

    ghost limit = { λ out. out.limit };

    ghost faults = { λ out. record { disk = 0; entropy = 0 } };

    ghost well = { λ start out. Unit {0} };

    ghost only_fresh = { λ old new. Unit {0} };

    ghost counted = { λ out. out.least };

    ghost stays = { λ out. tt };

    ghost joins = { λ a b c first then. tt };

    fn usable(&self) -> usize {
        self.usable
    }

    fn take(&mut self) -> Result<u32, OutError> {
        if self.last == self.limit {
            return Err(OutError::TooManyPages { limit: self.limit });
        }
        self.last += 1;
        Ok(self.last)
    }

    fn put(&mut self, n: u32, plain: &[u8]) -> Result<(), OutError> {
        lay(&mut self.bytes, (n as usize - 1) * self.usable, plain);
        self.put[n as usize] = true;
        Ok(())
    }
}
