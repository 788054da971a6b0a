// What a transaction asks of the writer of its journal.
ghost use Rattle.std.specs.Prelude.{◌≡◌, ◌⊎◌, ◌∷◌, [], ◌++◌, ◌+◌, ◌*◌, ◌<◌, ◌≤◌, ◌≢◌, ℕ, List, length, IsTrue, OnOk, None, Option};
ghost use Rattle.edge_model.specs.Causes.{HasCause};
ghost use Rattle.edge_model.specs.Files.{Files, bytes_of, number_of, main_of};
ghost use Rattle.edge_model.specs.Images.{Each, From, LeavesOnly, SameNames};
ghost use Rattle.journal_format.specs.Records.{Record};
ghost use Rattle.rollback_journal.specs.Playing.{journal_of};
ghost use Rattle.rollback_journal.specs.Laying.{laid};
ghost use Rattle.rollback_journal.specs.Recovery.{KeepsRecovered};
ghost use Rattle.rollback_journal.specs.Plays.{PlaysNone, PlaysAsBefore, PlaysAsBeforeOrAll, PlaysAsBeforeOrNone};
ghost use Rattle.atomic_commit.specs.Journals.{AsLeft, PlaysJust, records_in};
ghost use Rattle.atomic_commit.specs.Facts.{HasNone};

use edge_model::{Disk, Failed};
use rollback_journal::Stage;

/// A writer of a rollback journal, as a transaction sees it.
pub trait RecordWriter {
    ghost use Rattle.rollback_journal.specs.declared.stage.Stage.{Stage};
    ghost use Rattle.rollback_journal.specs.declared.stage.Stage.TheVariants.{Filling, Opened};

    /// The length of a page, in bytes.
    ghost page_size: { Self → ℕ };

    /// The size of the database, in pages.
    ghost initial: { Self → ℕ };

    /// Where the writing stands.
    ghost stage: { Self → Stage };

    /// Nothing is written yet.
    ghost is_new: { Self → Type 0 };

    /// How many records the present segment has.
    ghost count: { Self → ℕ };

    /// How many records the whole journal has.
    ghost total: { Self → ℕ };

    /// The numbers are so small that no offset wraps.
    ghost is_small: { Self → Type 0 };

    /// The records behind open gates, as the journal reads.
    ghost safe: { Self → List ℕ → List Record };

    /// The records behind the present gate, while it is closed.
    ghost waiting: { Self → List ℕ → List Record };

    /// The journal is as the last call left it, as it reads.
    ghost left: { Self → Files → Type 0 };

    /// And in an image, beside what is read.
    ghost beside: { Self → Files → Files → Type 0 };

    /// Makes the journal with a closed gate, and syncs its byte and its name.
    fn create<D: Disk>(&mut self, disk: &mut D) -> Result<(), Failed>
        requires new { is_new self.old }
        requires none { IsTrue D.tells → Each (D.images disk.old) (λ c. c.journal ≡ None) }
        ensures left { OnOk result (IsTrue D.tells →
            AsLeft (left self.new) (beside self.new) (D.reads disk.new) (D.images disk.new)) }
        ensures safe { OnOk result (IsTrue D.tells → safe self.new (journal_of (D.reads disk.new)) ≡ []) }
        ensures waiting { OnOk result (IsTrue D.tells → waiting self.new (journal_of (D.reads disk.new)) ≡ []) }
        ensures names { OnOk result (IsTrue D.tells → Each (D.images disk.new) (SameNames (D.reads disk.new))) }
        ensures stage { OnOk result ((stage self.new ≡ Stage.Filling) × (count self.new ≡ 0) × (total self.new ≡ 0)
            × is_small self.new) }
        ensures page_size { page_size self.new ≡ page_size self.old }
        ensures initial { initial self.new ≡ initial self.old }
        ensures main { OnOk result (IsTrue D.tells → (D.reads disk.new).main ≡ (D.reads disk.old).main) }
        ensures any_moment { IsTrue D.tells →
            LeavesOnly D.moment D.since disk.old disk.new (From (PlaysAsBefore (page_size self.old)) (D.images disk.old)) }
        ensures cause { HasCause (D.faults disk.old) (D.faults disk.new) result };

    /// Writes the record of page `n`, numbered from 1, behind the closed gate.
    fn append<D: Disk>(&mut self, disk: &mut D, n: u32, image: &[u8]) -> Result<(), Failed>
        requires stage { stage self.old ≡ Stage.Filling }
        requires small { is_small self.old }
        requires room { total self.old < initial self.old }
        requires page { (1 ≤ n) × (n ≤ initial self.old) × (length image.now ≡ page_size self.old) }
        requires fresh { IsTrue D.tells → HasNone n (records_in (safe self.old) (waiting self.old) (D.reads disk.old)) }
        requires left { IsTrue D.tells → AsLeft (left self.old) (beside self.old) (D.reads disk.old) (D.images disk.old) }
        ensures left { OnOk result (IsTrue D.tells →
            AsLeft (left self.new) (beside self.new) (D.reads disk.new) (D.images disk.new)) }
        ensures safe { OnOk result (IsTrue D.tells →
            safe self.new (journal_of (D.reads disk.new)) ≡ safe self.old (journal_of (D.reads disk.old))) }
        ensures one_more { OnOk result (IsTrue D.tells → waiting self.new (journal_of (D.reads disk.new))
            ≡ waiting self.old (journal_of (D.reads disk.old)) ++ record { page = n; image = image.now } ∷ []) }
        ensures stage { OnOk result ((stage self.new ≡ Stage.Filling) × (count self.new ≡ count self.old + 1)
            × (total self.new ≡ total self.old + 1) × is_small self.new) }
        ensures page_size { page_size self.new ≡ page_size self.old }
        ensures initial { initial self.new ≡ initial self.old }
        ensures main { IsTrue D.tells → (D.reads disk.new).main ≡ (D.reads disk.old).main }
        ensures any_moment { IsTrue D.tells →
            LeavesOnly D.moment D.since disk.old disk.new (From (PlaysAsBefore (page_size self.old)) (D.images disk.old)) }
        ensures cause { HasCause (D.faults disk.old) (D.faults disk.new) result };

    /// Opens the present gate. Each image then has the segment whole behind it.
    fn open_gate<D: Disk>(&mut self, disk: &mut D) -> Result<(), Failed>
        requires stage { (stage self.old ≡ Stage.Filling) × (0 < count self.old) }
        requires small { is_small self.old }
        requires left { IsTrue D.tells → AsLeft (left self.old) (beside self.old) (D.reads disk.old) (D.images disk.old) }
        ensures left { OnOk result (IsTrue D.tells →
            AsLeft (left self.new) (beside self.new) (D.reads disk.new) (D.images disk.new)) }
        ensures safe { OnOk result (IsTrue D.tells → safe self.new (journal_of (D.reads disk.new))
            ≡ records_in (safe self.old) (waiting self.old) (D.reads disk.old)) }
        ensures waiting { OnOk result (IsTrue D.tells → waiting self.new (journal_of (D.reads disk.new)) ≡ []) }
        ensures stage { OnOk result ((stage self.new ≡ Stage.Opened) × (count self.new ≡ count self.old)
            × (total self.new ≡ total self.old) × is_small self.new) }
        ensures page_size { page_size self.new ≡ page_size self.old }
        ensures initial { initial self.new ≡ initial self.old }
        ensures main { IsTrue D.tells → (D.reads disk.new).main ≡ (D.reads disk.old).main }
        ensures any_moment { IsTrue D.tells → LeavesOnly D.moment D.since disk.old disk.new
            (From (PlaysAsBeforeOrAll (page_size self.old) (initial self.old) (records_in (safe self.old) (waiting self.old) (D.reads disk.old))) (D.images disk.old)) }
        ensures cause { HasCause (D.faults disk.old) (D.faults disk.new) result };

    /// Begins a further segment, with its gate closed.
    fn next_segment<D: Disk>(&mut self, disk: &mut D) -> Result<(), Failed>
        requires stage { (stage self.old ≡ Stage.Opened) × (0 < count self.old) }
        requires small { is_small self.old }
        requires left { IsTrue D.tells → AsLeft (left self.old) (beside self.old) (D.reads disk.old) (D.images disk.old) }
        ensures left { OnOk result (IsTrue D.tells →
            AsLeft (left self.new) (beside self.new) (D.reads disk.new) (D.images disk.new)) }
        ensures safe { OnOk result (IsTrue D.tells →
            safe self.new (journal_of (D.reads disk.new)) ≡ safe self.old (journal_of (D.reads disk.old))) }
        ensures waiting { OnOk result (IsTrue D.tells → waiting self.new (journal_of (D.reads disk.new)) ≡ []) }
        ensures stage { OnOk result ((stage self.new ≡ Stage.Filling) × (count self.new ≡ 0)
            × (total self.new ≡ total self.old) × is_small self.new) }
        ensures page_size { page_size self.new ≡ page_size self.old }
        ensures initial { initial self.new ≡ initial self.old }
        ensures main { IsTrue D.tells → (D.reads disk.new).main ≡ (D.reads disk.old).main }
        ensures any_moment { IsTrue D.tells →
            LeavesOnly D.moment D.since disk.old disk.new (From (PlaysAsBefore (page_size self.old)) (D.images disk.old)) }
        ensures cause { HasCause (D.faults disk.old) (D.faults disk.new) result };

    /// Closes the whole journal. No image then plays it.
    fn close_gate<D: Disk>(&mut self, disk: &mut D) -> Result<(), Failed>
        requires stage { (stage self.old ≡ Stage.Filling) ⊎ (stage self.old ≡ Stage.Opened) }
        requires small { is_small self.old }
        requires left { IsTrue D.tells → AsLeft (left self.old) (beside self.old) (D.reads disk.old) (D.images disk.old) }
        ensures left { OnOk result (IsTrue D.tells →
            AsLeft (left self.new) (beside self.new) (D.reads disk.new) (D.images disk.new)) }
        ensures cold { OnOk result (IsTrue D.tells → Each (D.images disk.new) (λ c. PlaysNone (bytes_of c.journal))) }
        ensures stage { OnOk result (stage self.new ≡ Stage.Closed) }
        ensures page_size { page_size self.new ≡ page_size self.old }
        ensures initial { initial self.new ≡ initial self.old }
        ensures main { IsTrue D.tells → (D.reads disk.new).main ≡ (D.reads disk.old).main }
        ensures any_moment { IsTrue D.tells → LeavesOnly D.moment D.since disk.old disk.new
            (From (PlaysAsBeforeOrNone (page_size self.old)) (D.images disk.old)) }
        ensures cause { HasCause (D.faults disk.old) (D.faults disk.new) result };

    /// Removes a closed journal, and syncs the folder.
    fn remove<D: Disk>(&mut self, disk: &mut D) -> Result<(), Failed>
        requires stage { stage self.old ≡ Stage.Closed }
        requires left { IsTrue D.tells → AsLeft (left self.old) (beside self.old) (D.reads disk.old) (D.images disk.old) }
        ensures gone { OnOk result (IsTrue D.tells → Each (D.images disk.new) (λ c. c.journal ≡ None)) }
        ensures main { IsTrue D.tells → (D.reads disk.new).main ≡ (D.reads disk.old).main }
        ensures any_moment { IsTrue D.tells →
            LeavesOnly D.moment D.since disk.old disk.new (From (PlaysAsBefore (page_size self.old)) (D.images disk.old)) }
        ensures cause { HasCause (D.faults disk.old) (D.faults disk.new) result };

    /// Lays each image that stands behind an open gate at its page's place in Main, and syncs Main.
    fn lay_back<D: Disk>(&mut self, disk: &mut D) -> Result<(), Failed>
        requires stage { (stage self.old ≡ Stage.Filling) ⊎ (stage self.old ≡ Stage.Opened) }
        requires small { is_small self.old }
        requires left { IsTrue D.tells → AsLeft (left self.old) (beside self.old) (D.reads disk.old) (D.images disk.old) }
        requires pages { IsTrue D.tells →
            Each (D.images disk.old) (λ c. initial self.old * page_size self.old ≤ length (main_of c)) }
        ensures laid { OnOk result (IsTrue D.tells → main_of (D.reads disk.new)
            ≡ laid (page_size self.old) (safe self.old (journal_of (D.reads disk.old))) (main_of (D.reads disk.old))) }
        ensures journal { OnOk result (IsTrue D.tells → (D.reads disk.new).journal ≡ (D.reads disk.old).journal) }
        ensures settled { OnOk result (IsTrue D.tells → Each (D.images disk.new) (λ c. c.main ≡ (D.reads disk.new).main)) }
        ensures left { OnOk result (IsTrue D.tells →
            AsLeft (left self.new) (beside self.new) (D.reads disk.new) (D.images disk.new)) }
        ensures stage { OnOk result ((stage self.new ≡ stage self.old) × is_small self.new) }
        ensures page_size { page_size self.new ≡ page_size self.old }
        ensures initial { initial self.new ≡ initial self.old }
        ensures any_moment { IsTrue D.tells →
            LeavesOnly D.moment D.since disk.old disk.new (From (KeepsRecovered (page_size self.old)) (D.images disk.old)) }
        ensures cause { HasCause (D.faults disk.old) (D.faults disk.new) result };

    /// In each image the journal plays the records behind open gates, and no others.
    ghost plays_left: { (w : Self) (now c : Files) → left w now → beside w now c → (stage w ≡ Filling) ⊎ (stage w ≡ Opened) →
        PlaysJust (page_size w) (initial w) (safe w (journal_of now)) (bytes_of c.journal) };

    /// Both are of the journal alone.
    ghost stays_left: { (w : Self) (now new : Files) → left w now → new.journal ≡ now.journal → left w new };

    ghost stays_beside: { (w : Self) (now new d c : Files) → beside w now d → new.journal ≡ now.journal →
        c.journal ≡ d.journal → beside w new c };
}
