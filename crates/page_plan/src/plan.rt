// What a transaction writes.
ghost use Rattle.std.specs.Prelude.{◌≡◌, ◌≤◌, ◌<◌, ◌+◌, ℕ, Bool, List, length, true, false, None, IfSome, replicate, if◌then◌else◌};
ghost use Rattle.pager.specs.Changed.{with_bytes};

/// What is put over a page: bytes from an offset on, over zeros or over what the page was.
#[derive(Clone, Copy)]
pub struct Over<'p> {
    /// Whether the page is zeros first: it is not opened then.
    pub zeroed: bool,
    /// Where the bytes begin, in the plain page.
    pub at: usize,
    /// The bytes. With none, the page is sealed anew as it is.
    pub bytes: &'p [u8],
}

/// The pages that a transaction writes, by their numbers from 1, and what each becomes.
pub trait Plan {
    /// The length of a plain page, in bytes.
    ghost plain_size: { Self → ℕ };

    /// Page n is written.
    ghost writes: { Self → ℕ → Bool };

    /// Page n is written over what it was, so that it has to be accepted.
    ghost opens: { Self → ℕ → Bool };

    /// What page n becomes, out of what it was.
    ghost becomes: { Self → ℕ → List ℕ → List ℕ };

    /// The next page behind this one, of so many pages, that may be written. None that is passed over is.
    fn next(&self, after: u32, pages: u32) -> Option<u32>
        ensures next { IfSome result (λ n. (after < n) × (n ≤ pages)) }
        ensures between { IfSome result (λ n. (m : ℕ) → after < m → m < n → writes self.now m ≡ false) }
        ensures none { result ≡ None → (m : ℕ) → after < m → m ≤ pages → writes self.now m ≡ false };

    /// What is put over page n, or none where it is not written. Of page 1 the first 16 bytes stay.
    fn over(&self, n: u32) -> Option<Over<'_>>
        ensures none { result ≡ None → writes self.now n ≡ false }
        ensures written { IfSome result (λ over. writes self.now n ≡ true) }
        ensures becomes { IfSome result (λ over. (page : List ℕ) → becomes self.now n page
            ≡ with_bytes over.at over.bytes.now (if over.zeroed then replicate (plain_size self.now) 0 else page)) }
        ensures within { IfSome result (λ over. over.at + length over.bytes.now ≤ plain_size self.now) }
        ensures first { IfSome result (λ over. n ≡ 1 → (over.zeroed ≡ false) × (16 ≤ over.at)) }
        ensures opens { IfSome result (λ over. over.zeroed ≡ false → opens self.now n ≡ true) };

    /// Whether the old bytes of the pages from the first to the last one wait for the journal together, before the first of them is
    /// written. It is a question of time alone.
    fn keeps_together(&self, first: u32, last: u32) -> bool
        requires { first ≤ last };

    /// How many bytes of old pages wait for the journal together, at most.
    fn segment(&self) -> u32
        ensures { 65536 ≤ result };
}
