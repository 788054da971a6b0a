// Where pages come from.
ghost use Rattle.std.specs.Prelude.{◌≡◌, ◌≤◌, ◌<◌, ◌-◌, ◌^◌, ℕ, Bool, true, List, length, nat_lt, IsTrue, IfOk, OnOk, IfErr, if◌then◌else◌};
ghost use Rattle.db_format.specs.Pages.{Pages, IsUsable, is_page};
ghost use Rattle.db_format.specs.Source.{Rose, one_more, one_less};

/// The plain pages of a database, lent one at a time. Pages are numbered from 1.
///
/// Generic code reads a page in two steps, `load` and then `loaded`: it learns nothing of a source that has lent a page
/// in one step.
pub trait PageSource {
    /// Why a page was not given.
    type Refusal;

    /// Whether clauses on the bytes of pages hold. A source over a device that tells nothing has only the others.
    ghost tells: { Bool };

    /// The plain pages, and which of them are accepted.
    ghost plain: { Self → Pages };

    /// The bytes that `loaded` lends.
    ghost at_hand: { Self → List ℕ };

    /// Whether the page is held, so that it may be pinned.
    ghost is_held: { Self → ℕ → Bool };

    /// How many pins each page has.
    ghost pins: { Self → ℕ → ℕ };

    /// How often the device has failed.
    ghost faults: { Self → ℕ };

    /// Whether the refusal says that the device failed, so that the page may be sound.
    ghost is_fault: { Self.Refusal → Bool };

    /// A source of these pages may refuse the page so.
    ghost refuses: { Pages → ℕ → Self.Refusal → Type 0 };

    /// Between two states the source only was read: the pages are the same, and nothing outside was changed.
    ghost only_read: { Self → Self → Type 0 };

    /// How many pages there are.
    fn pages(&self) -> u32
        ensures { result ≡ (plain self.now).count };

    /// The length of each page, in bytes.
    fn usable(&self) -> usize
        ensures value { result ≡ (plain self.now).usable }
        ensures range { IsUsable result };

    /// Brings page n in, for `loaded` to lend.
    fn load(&mut self, n: u32) -> Result<(), Self::Refusal>
        ensures told { OnOk result (IsTrue tells → at_hand self.new ≡ (plain self.old).page n) }
        ensures accepted { OnOk result (IsTrue tells → (plain self.old).accepts n ≡ true) }
        ensures size { OnOk result (length (at_hand self.new) ≡ (plain self.old).usable) }
        ensures usable { OnOk result (IsUsable (plain self.old).usable) }
        ensures in_range { OnOk result (is_page (plain self.old) n ≡ true) }
        ensures held { OnOk result (is_held self.new n ≡ true) }
        // why it was not given
        ensures refused { IfErr result (refuses (plain self.old) n) }
        ensures fault { IfErr result (λ refusal. IsTrue (is_fault refusal) → Rose (faults self.old) (faults self.new)) }
        // what stays as it was
        ensures pins { pins self.new ≡ pins self.old }
        ensures reads { only_read self.old self.new };

    /// The page that was loaded last.
    fn loaded(&self) -> &[u8]
        ensures { result.now ≡ at_hand self.now };

    /// Lends page n.
    final fn page(&mut self, n: u32) -> Result<&[u8], Self::Refusal>
    where
        Self: Sized,
        ensures told { IfOk result (λ page. IsTrue tells → page.now ≡ (plain self.old).page n) }
        ensures accepted { OnOk result (IsTrue tells → (plain self.old).accepts n ≡ true) }
        ensures size { IfOk result (λ page. length page.now ≡ (plain self.old).usable) }
        ensures in_range { OnOk result (is_page (plain self.old) n ≡ true) }
        ensures refused { IfErr result (refuses (plain self.old) n) }
    {
        self.load(n)?;
        Ok(self.loaded())
    }

    /// One pin more for page n, where it is held, as it is directly after `load`.
    fn pin(&mut self, n: u32) -> bool
        requires { pins self.old n < 2 ^ 32 - 1 }
        ensures value { result ≡ is_held self.old n }
        ensures pins { pins self.new ≡ (if result then one_more n (pins self.old) else pins self.old) }
        ensures at_hand { at_hand self.new ≡ at_hand self.old }
        ensures reads { only_read self.old self.new };

    /// One pin less for page n, where it has one.
    fn unpin(&mut self, n: u32) -> bool
        ensures value { result ≡ nat_lt 0 (pins self.old n) }
        ensures pins { pins self.new ≡ (if result then one_less n (pins self.old) else pins self.old) }
        ensures at_hand { at_hand self.new ≡ at_hand self.old }
        ensures reads { only_read self.old self.new };

    ghost same_pages: { (s t : Self) → only_read s t → IsTrue tells → plain t ≡ plain s };

    ghost same_count: { (s t : Self) → only_read s t → (plain t).count ≡ (plain s).count };

    ghost same_usable: { (s t : Self) → only_read s t → (plain t).usable ≡ (plain s).usable };

    ghost later: { (s t : Self) → only_read s t → faults s ≤ faults t };

    ghost reflexive: { (s : Self) → only_read s s };

    ghost transitive: { (s t u : Self) → only_read s t → only_read t u → only_read s u };
}
