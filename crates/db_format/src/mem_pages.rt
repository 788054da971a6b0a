// Pages in memory.
ghost use Rattle.std.specs.Prelude.{◌≡◌, ◌≤◌, ◌<◌, ◌^◌, ◌*◌, ◌/◌, ◌%◌, ◌+◌, ℕ, true, false, length, IfOk, refl};
ghost use Rattle.db_format.specs.Pages.{IsUsable, is_page};
ghost use Rattle.db_format.specs.Source.{no_pins, pages_of, pin_count};

use crate::{OutOfMemory, PageSource};
use std::alloc::Global;

/// No page has this number.
#[derive(Clone, Copy, Debug, PartialEq, Eq)]
pub struct NoPage;

/// Pages in memory, all of them held and accepted. It has no faults, and takes no memory after `new`.
#[derive(Drop)]
pub struct MemPages {
    bytes: Vec<u8>,
    usable: usize,
    count: u32,
    // the page loaded last, 0 for none
    last: u32,
    // by page number
    pins: Vec<u32>,
    ghost range: { IsUsable usable },
    ghost counted: { count ≡ length bytes.items / usable },
    ghost whole: { length bytes.items ≡ count * usable },
    ghost inside: { last ≤ count },
    ghost pinned: { length pins.items ≡ count + 1 },
}

impl MemPages {
    /// Pages of so many bytes each, which stand in a row.
    pub fn new(alloc: Global, usable: usize, plain: &[u8]) -> Result<MemPages, OutOfMemory>
        requires usable { IsUsable usable }
        requires whole { length plain.now % usable ≡ 0 }
        requires few { length plain.now / usable < 2 ^ 32 }
        ensures pages { IfOk result (λ source. ⟦<MemPages as PageSource>⟧.plain source ≡ pages_of usable plain.now) }
        ensures unpinned { IfOk result (λ source. ⟦<MemPages as PageSource>⟧.pins source ≡ no_pins) }
    {
        let count = (plain.len() / usable) as u32;
        let bytes = match plain.to_vec(alloc) {
            Ok(bytes) => bytes,
            Err(_) => return Err(OutOfMemory),
        };
        let pins = match vec![in alloc; 0u32; count as usize + 1] {
            Ok(pins) => pins,
            Err(_) => return Err(OutOfMemory),
        };
        Ok(MemPages {
            bytes,
            usable,
            count,
            last: 0,
            pins,
        })
    }

    // Page n is one of these.
    fn has(&self, n: u32) -> bool
        ensures { result ≡ is_page (pages_of self.now.usable self.now.bytes.items) n }
    {
        1 <= n && n <= self.count
    }
}

impl PageSource for MemPages {
    type Refusal = NoPage;

    ghost use Rattle.db_format.specs.MemPages.{SamePages};
    ghost use Rattle.std.proofs.Common.{◌∙◌, le_refl};

    ghost tells = { true };

    ghost plain = { λ source. pages_of source.usable source.bytes.items };

    ghost at_hand = { λ source. (pages_of source.usable source.bytes.items).page source.last };

    ghost is_held = { λ source n. is_page (pages_of source.usable source.bytes.items) n };

    ghost pins = { λ source. pin_count source.pins.items };

    ghost faults = { λ source. 0 };

    ghost is_fault = { λ refusal. false };

    ghost refuses = { λ pages n refusal. is_page pages n ≡ false };

    ghost only_read = { SamePages };

    ghost same_pages = { λ s t read told. Prim.cc (read.bytes, read.usable) };

    ghost same_count = { λ s t read. Prim.cc (read.bytes, read.usable) };

    ghost same_usable = { λ s t read. read.usable };

    ghost later = { λ s t read. le_refl 0 };

    ghost reflexive = { λ s. record { bytes = refl; usable = refl } };

    ghost transitive = { λ s t u first then. record { bytes = then.bytes ∙ first.bytes; usable = then.usable ∙ first.usable } };

    fn pages(&self) -> u32 {
        self.count
    }

    fn usable(&self) -> usize {
        self.usable
    }

    fn load(&mut self, n: u32) -> Result<(), NoPage> {
        if !self.has(n) {
            return Err(NoPage);
        }
        self.last = n;
        Ok(())
    }

    fn loaded(&self) -> &[u8] {
        if self.last == 0 {
            return &[];
        }
        let at = (self.last as usize - 1) * self.usable;
        &self.bytes[at..at + self.usable]
    }

    fn pin(&mut self, n: u32) -> bool {
        if !self.has(n) {
            return false;
        }
        self.pins[n as usize] += 1;
        true
    }

    fn unpin(&mut self, n: u32) -> bool {
        if !self.has(n) || self.pins[n as usize] == 0 {
            return false;
        }
        self.pins[n as usize] -= 1;
        true
    }
}
