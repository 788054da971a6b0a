// Where pages are put.
ghost use Rattle.std.specs.Prelude.{◌≡◌, ◌≤◌, ◌+◌, ◌==◌, ℕ, false, true, length, IfOk, IfErr, OnOk, OnErr};
ghost use Rattle.db_format.specs.Pages.{IsUsable, Pages};
ghost use Rattle.bulk_load.specs.Out.{Faults, HasCause, IsNumberTaken, MarksAt, SameBut, SameNumbers, is_refusal};

/// Why a page was not taken or put.
#[derive(Clone, Copy, Debug, PartialEq, Eq)]
pub enum OutError {
    /// All page numbers up to the limit were given.
    TooManyPages { limit: u32 },
    /// The disk failed.
    DiskFault,
    /// The entropy failed.
    EntropyFault,
}

/// Gives page numbers, 2, 3, 4 and so on, and takes plain pages. Page 1 may be put without being taken.
pub trait PageOut {
    /// The pages: their count is one more than that of the taken numbers, and those are accepted that were put. What a page
    /// reads as is known where it is told.
    ghost pages: { Self → Pages };

    /// How many pages there may be.
    ghost limit: { Self → ℕ };

    /// How often the disk and the entropy have failed.
    ghost faults: { Self → Faults };

    /// The pages are told, and stand as they were put. The number is the implementor's own.
    ghost well: { ℕ → Self → Type 0 };

    /// From the one to the other only these pages changed, and nothing else outside.
    ghost only_fresh: { Self → Self → Type 0 };

    /// The usable size of a page, in bytes.
    fn usable(&self) -> usize
        ensures value { result ≡ (pages self.now).usable }
        ensures range { IsUsable result };

    /// The next number.
    fn take(&mut self) -> Result<u32, OutError>
        ensures taken { IfOk result (λ n. IsNumberTaken (pages self.old) (pages self.new) n) }
        ensures room { OnOk result ((pages self.old).count + 1 ≤ limit self.old) }
        ensures refused { OnErr result (SameNumbers (pages self.old) (pages self.new)) }
        ensures cause { IfErr result (HasCause pages limit faults self.old self.new) }
        // what stays
        ensures well { (start : ℕ) → well start self.old → well start self.new }
        ensures told { (start : ℕ) → well start self.old → (k : ℕ) → (pages self.new).page k ≡ (pages self.old).page k }
        ensures limit { limit self.new ≡ limit self.old }
        ensures disk { (faults self.old).disk ≤ (faults self.new).disk }
        ensures entropy { (faults self.old).entropy ≤ (faults self.new).entropy }
        ensures fresh { only_fresh self.old self.new };

    /// Puts a page at a number that was taken, or at 1.
    fn put(&mut self, n: u32, plain: &[u8]) -> Result<(), OutError>
        requires least { 1 ≤ n }
        requires taken { n ≤ (pages self.old).count }
        requires size { length plain.now ≡ (pages self.old).usable }
        ensures put { OnOk result ((pages self.new).accepts n ≡ true) }
        ensures page { (start : ℕ) → well start self.old → OnOk result ((pages self.new).page n ≡ plain.now) }
        ensures well { (start : ℕ) → well start self.old → OnOk result (well start self.new) }
        ensures cause { IfErr result (HasCause pages limit faults self.old self.new) }
        ensures taken { IfErr result (λ why. is_refusal why ≡ false) }
        // what stays, whatever the answer
        ensures marks { MarksAt (pages self.old) (pages self.new) n }
        ensures told { (start : ℕ) → well start self.old → SameBut (pages self.old) (pages self.new) n }
        ensures limit { limit self.new ≡ limit self.old }
        ensures disk { (faults self.old).disk ≤ (faults self.new).disk }
        ensures entropy { (faults self.old).entropy ≤ (faults self.new).entropy }
        ensures fresh { only_fresh self.old self.new };

    ghost counted: { (s : Self) → 1 ≤ (pages s).count };

    ghost stays: { (s : Self) → only_fresh s s };

    ghost joins: { (a b c : Self) → only_fresh a b → only_fresh b c → only_fresh a c };
}
