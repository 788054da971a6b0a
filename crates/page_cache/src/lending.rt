// The calls that find a page and lend it at once. A proof that is generated learns what they ensure of the cache only from `is_held`,
// `hold` and `at_mut`, so callers whose contracts speak of the cache afterwards use those.
ghost use Rattle.std.specs.Prelude.{◌≡◌, ◌<◌, length, false, IfOk, OnOk, OnErr, option_map, replicate};
ghost use Rattle.std.specs.Borrow.{sem};
ghost use Rattle.page_cache.specs.Pages.{held_bytes, is_held};

use crate::cache::{Cache, Full};

impl Cache {
    ghost use Rattle.page_cache.specs.Cache.{LendsHeld, LendsPlaced};

    /// Lends the bytes of page n for writing, where it is held: what is written is the page from then on, and all else stays, the
    /// order of use among it.
    pub fn get_mut(&mut self, n: u32) -> Option<&mut [u8]>
        ensures* writes_back { sem 𝓛 (LendsHeld self.entry n result) }
        ensures value { option_map (λ bytes. bytes.now) result ≡ held_bytes n self.old.held }
    {
        if self.has(n) {
            Some(self.at_mut(n))
        } else {
            None
        }
    }

    /// Puts page n, which is not held, into a free frame, and lends its bytes, which are zeros, for writing: what is written is the page
    /// from then on. It is the most recently used, clean and without pins. Full comes exactly where no frame is free.
    pub fn place(&mut self, n: u32) -> Result<&mut [u8], Full>
        requires { is_held n self.old.held ≡ false }
        ensures* writes_back { sem 𝓛 (LendsPlaced self.entry n result) }
        ensures value { IfOk result (λ bytes. bytes.now ≡ replicate self.old.usable 0) }
        ensures full { OnOk result (length self.old.held < self.old.frames) × OnErr result (length self.old.held ≡ self.old.frames) }
    {
        if self.claim(n) {
            Ok(self.at_mut(n))
        } else {
            Err(Full)
        }
    }

    // Whether page n is held, where the cache may be lent again at once.
    fn has(&mut self, n: u32) -> bool
        ensures { (self.new ≡ self.old) × (result ≡ is_held n self.old.held) }
    {
        self.is_held(n)
    }
}
