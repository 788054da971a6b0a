// The steps of a transaction, each of which keeps its facts.
ghost use Rattle.std.specs.Prelude.{◌≡◌, ◌⊎◌, ◌∷◌, [], ◌++◌, ◌+◌, ◌-◌, ◌*◌, ◌<◌, ◌≤◌, ◌≢◌, ℕ, List, length, take, IsTrue, OnOk, None, Option};
ghost use Rattle.edge_model.specs.Causes.{HasCause};
ghost use Rattle.edge_model.specs.Files.{Files, bytes_of, written, main_of};
ghost use Rattle.edge_model.specs.Images.{Each, From, LeavesOnly, SameNames};
ghost use Rattle.edge_model.specs.OnlyRead.{OnlyRead};
ghost use Rattle.journal_format.specs.Records.{Record};
ghost use Rattle.rollback_journal.specs.Laying.{page_start};
ghost use Rattle.rollback_journal.specs.Playing.{journal_of};
ghost use Rattle.atomic_commit.specs.Database.{Base, HoldsPages, HoldsOld, HoldsEither, IsAfterCommit, stored_page, stored_pages};
ghost use Rattle.atomic_commit.specs.Journals.{AsLeft, records_in};
ghost use Rattle.atomic_commit.specs.Facts.{HasFacts, HasPages, IsBase, IsCommitBegun, HasNone, HasRecord, SameFresh};

use crate::{RecordWriter, Stage};
use edge_model::{Disk, Failed, Role};

/// Makes the journal. No image has one, and each holds the database of the start.
pub fn start<D: Disk, W: RecordWriter>(disk: &mut D, writer: &mut W) -> Result<(), Failed>
    ghost base: { Base }
    requires new { W.is_new writer.old }
    requires sizes { (W.page_size writer.old ≡ base.size) × (W.initial writer.old ≡ base.pages) }
    requires begun { IsTrue D.tells → IsCommitBegun base (D.images disk.old) }
    ensures facts { OnOk result (IsTrue D.tells →
        HasFacts base (W.safe writer.new) (W.waiting writer.new) (D.reads disk.new) (D.images disk.new)) }
    ensures left { OnOk result (IsTrue D.tells →
        AsLeft (W.left writer.new) (W.beside writer.new) (D.reads disk.new) (D.images disk.new)) }
    ensures none { OnOk result (IsTrue D.tells → records_in (W.safe writer.new) (W.waiting writer.new) (D.reads disk.new)
        ≡ []) }
    ensures stage { OnOk result ((W.stage writer.new ≡ Stage.Filling) × (W.count writer.new ≡ 0) × (W.total writer.new ≡ 0)
        × W.is_small writer.new) }
    ensures sizes { (W.page_size writer.new ≡ base.size) × (W.initial writer.new ≡ base.pages) }
    ensures main { OnOk result (IsTrue D.tells → (D.reads disk.new).main ≡ (D.reads disk.old).main) }
    ensures any_moment { IsTrue D.tells → LeavesOnly D.moment D.since disk.old disk.new (HoldsOld base) }
    ensures fresh { IsTrue D.tells → LeavesOnly D.moment D.since disk.old disk.new (From SameFresh (D.images disk.old)) }
    ensures cause { HasCause (D.faults disk.old) (D.faults disk.new) result }
{
    writer.create(disk)?;
    Ok(())
}

/// Reads a page of Main as it is stored. Pages are numbered from 1, and the buffer has the length of one.
pub fn read_page<D: Disk>(disk: &mut D, n: u32, buffer: &mut [u8]) -> Result<(), Failed>
    requires page { (1 ≤ n) × (length buffer.old ≤ 65536) }
    requires within { IsTrue D.tells →
        page_start (length buffer.old) n + length buffer.old ≤ length (main_of (D.reads disk.old)) }
    ensures read { OnOk result (IsTrue D.tells →
        buffer.new ≡ stored_page (length buffer.old) n (main_of (D.reads disk.old))) }
    ensures length { length buffer.new ≡ length buffer.old }
    ensures only_read { IsTrue D.tells → OnlyRead D.reads D.images D.moment D.since disk.old disk.new }
    ensures cause { HasCause (D.faults disk.old) (D.faults disk.new) result }
{
    let at = (n as u64 - 1) * buffer.len() as u64;
    disk.read_at(Role::Main, at, buffer)?;
    Ok(())
}

/// Puts the record of page `n` behind the closed gate, before the page is changed for the first time. The buffer has the
/// length of a page.
pub fn keep_old<D: Disk, W: RecordWriter>(
    disk: &mut D,
    writer: &mut W,
    n: u32,
    buffer: &mut [u8],
) -> Result<(), Failed>
    ghost base: { Base }
    requires stage { W.stage writer.old ≡ Stage.Filling }
    requires small { W.is_small writer.old }
    requires room { W.total writer.old < W.initial writer.old }
    requires sizes { (W.page_size writer.old ≡ base.size) × (W.initial writer.old ≡ base.pages) }
    requires page { (1 ≤ n) × (n ≤ base.pages) × (length buffer.old ≡ base.size) × (base.size ≤ 65536) }
    requires fresh { IsTrue D.tells → HasNone n (records_in (W.safe writer.old) (W.waiting writer.old) (D.reads disk.old)) }
    requires facts { IsTrue D.tells →
        HasFacts base (W.safe writer.old) (W.waiting writer.old) (D.reads disk.old) (D.images disk.old) }
    requires left { IsTrue D.tells → AsLeft (W.left writer.old) (W.beside writer.old) (D.reads disk.old) (D.images disk.old) }
    ensures facts { OnOk result (IsTrue D.tells →
        HasFacts base (W.safe writer.new) (W.waiting writer.new) (D.reads disk.new) (D.images disk.new)) }
    ensures left { OnOk result (IsTrue D.tells →
        AsLeft (W.left writer.new) (W.beside writer.new) (D.reads disk.new) (D.images disk.new)) }
    ensures one_more { OnOk result (IsTrue D.tells →
        records_in (W.safe writer.new) (W.waiting writer.new) (D.reads disk.new)
        ≡ (records_in (W.safe writer.old) (W.waiting writer.old) (D.reads disk.old))
        ++ record { page = n; image = stored_page base.size n base.start } ∷ []) }
    ensures stage { OnOk result ((W.stage writer.new ≡ Stage.Filling) × (W.count writer.new ≡ W.count writer.old + 1)
        × (W.total writer.new ≡ W.total writer.old + 1) × W.is_small writer.new) }
    ensures sizes { (W.page_size writer.new ≡ base.size) × (W.initial writer.new ≡ base.pages) }
    ensures buffer { length buffer.new ≡ length buffer.old }
    ensures main { IsTrue D.tells → (D.reads disk.new).main ≡ (D.reads disk.old).main }
    ensures any_moment { IsTrue D.tells → LeavesOnly D.moment D.since disk.old disk.new (HoldsOld base) }
    ensures fresh { IsTrue D.tells → LeavesOnly D.moment D.since disk.old disk.new (From SameFresh (D.images disk.old)) }
    ensures cause { HasCause (D.faults disk.old) (D.faults disk.new) result }
{
    read_page(disk, n, buffer)?;
    writer.append(disk, n, buffer)?;
    Ok(())
}

/// Opens the gate. The pages of all records so far may then be written.
pub fn open<D: Disk, W: RecordWriter>(disk: &mut D, writer: &mut W) -> Result<(), Failed>
    ghost base: { Base }
    requires stage { (W.stage writer.old ≡ Stage.Filling) × (0 < W.count writer.old) }
    requires small { W.is_small writer.old }
    requires sizes { (W.page_size writer.old ≡ base.size) × (W.initial writer.old ≡ base.pages) }
    requires facts { IsTrue D.tells →
        HasFacts base (W.safe writer.old) (W.waiting writer.old) (D.reads disk.old) (D.images disk.old) }
    requires left { IsTrue D.tells → AsLeft (W.left writer.old) (W.beside writer.old) (D.reads disk.old) (D.images disk.old) }
    ensures facts { OnOk result (IsTrue D.tells →
        HasFacts base (W.safe writer.new) (W.waiting writer.new) (D.reads disk.new) (D.images disk.new)) }
    ensures left { OnOk result (IsTrue D.tells →
        AsLeft (W.left writer.new) (W.beside writer.new) (D.reads disk.new) (D.images disk.new)) }
    ensures safe { OnOk result (IsTrue D.tells → W.safe writer.new (journal_of (D.reads disk.new))
        ≡ records_in (W.safe writer.old) (W.waiting writer.old) (D.reads disk.old)) }
    ensures stage { OnOk result ((W.stage writer.new ≡ Stage.Opened) × (W.count writer.new ≡ W.count writer.old)
        × (W.total writer.new ≡ W.total writer.old) × W.is_small writer.new) }
    ensures sizes { (W.page_size writer.new ≡ base.size) × (W.initial writer.new ≡ base.pages) }
    ensures main { IsTrue D.tells → (D.reads disk.new).main ≡ (D.reads disk.old).main }
    ensures any_moment { IsTrue D.tells → LeavesOnly D.moment D.since disk.old disk.new (HoldsOld base) }
    ensures fresh { IsTrue D.tells → LeavesOnly D.moment D.since disk.old disk.new (From SameFresh (D.images disk.old)) }
    ensures cause { HasCause (D.faults disk.old) (D.faults disk.new) result }
{
    writer.open_gate(disk)?;
    Ok(())
}

/// Begins a further segment. The pages of the records so far may still be written.
pub fn next<D: Disk, W: RecordWriter>(disk: &mut D, writer: &mut W) -> Result<(), Failed>
    ghost base: { Base }
    requires stage { (W.stage writer.old ≡ Stage.Opened) × (0 < W.count writer.old) }
    requires small { W.is_small writer.old }
    requires sizes { (W.page_size writer.old ≡ base.size) × (W.initial writer.old ≡ base.pages) }
    requires facts { IsTrue D.tells →
        HasFacts base (W.safe writer.old) (W.waiting writer.old) (D.reads disk.old) (D.images disk.old) }
    requires left { IsTrue D.tells → AsLeft (W.left writer.old) (W.beside writer.old) (D.reads disk.old) (D.images disk.old) }
    ensures facts { OnOk result (IsTrue D.tells →
        HasFacts base (W.safe writer.new) (W.waiting writer.new) (D.reads disk.new) (D.images disk.new)) }
    ensures left { OnOk result (IsTrue D.tells →
        AsLeft (W.left writer.new) (W.beside writer.new) (D.reads disk.new) (D.images disk.new)) }
    ensures safe { OnOk result (IsTrue D.tells →
        W.safe writer.new (journal_of (D.reads disk.new)) ≡ W.safe writer.old (journal_of (D.reads disk.old))) }
    ensures waiting { OnOk result (IsTrue D.tells → W.waiting writer.new (journal_of (D.reads disk.new)) ≡ []) }
    ensures stage { OnOk result ((W.stage writer.new ≡ Stage.Filling) × (W.count writer.new ≡ 0)
        × (W.total writer.new ≡ W.total writer.old) × W.is_small writer.new) }
    ensures sizes { (W.page_size writer.new ≡ base.size) × (W.initial writer.new ≡ base.pages) }
    ensures main { IsTrue D.tells → (D.reads disk.new).main ≡ (D.reads disk.old).main }
    ensures any_moment { IsTrue D.tells → LeavesOnly D.moment D.since disk.old disk.new (HoldsOld base) }
    ensures fresh { IsTrue D.tells → LeavesOnly D.moment D.since disk.old disk.new (From SameFresh (D.images disk.old)) }
    ensures cause { HasCause (D.faults disk.old) (D.faults disk.new) result }
{
    writer.next_segment(disk)?;
    Ok(())
}

/// Writes a page of Main whose record is behind an open gate. Whatever becomes of it, the facts stand.
pub fn write_page<D: Disk, W: RecordWriter>(
    disk: &mut D,
    writer: &W,
    n: u32,
    bytes: &[u8],
) -> Result<(), Failed>
    ghost base: { Base }
    requires stage { (W.stage writer.now ≡ Stage.Filling) ⊎ (W.stage writer.now ≡ Stage.Opened) }
    requires sizes { (W.page_size writer.now ≡ base.size) × (W.initial writer.now ≡ base.pages) }
    requires page { (1 ≤ n) × (n ≤ base.pages) × (length bytes.now ≡ base.size) × (base.size ≤ 65536) }
    requires behind_gate { IsTrue D.tells → HasRecord n (W.safe writer.now (journal_of (D.reads disk.old))) }
    requires facts { IsTrue D.tells →
        HasFacts base (W.safe writer.now) (W.waiting writer.now) (D.reads disk.old) (D.images disk.old) }
    requires left { IsTrue D.tells → AsLeft (W.left writer.now) (W.beside writer.now) (D.reads disk.old) (D.images disk.old) }
    ensures facts { IsTrue D.tells →
        HasFacts base (W.safe writer.now) (W.waiting writer.now) (D.reads disk.new) (D.images disk.new) }
    ensures left { IsTrue D.tells → AsLeft (W.left writer.now) (W.beside writer.now) (D.reads disk.new) (D.images disk.new) }
    ensures main { OnOk result (IsTrue D.tells →
        main_of (D.reads disk.new) ≡ written (page_start base.size n) bytes.now (main_of (D.reads disk.old))) }
    ensures journal { IsTrue D.tells → (D.reads disk.new).journal ≡ (D.reads disk.old).journal }
    ensures any_moment { IsTrue D.tells → LeavesOnly D.moment D.since disk.old disk.new (HoldsOld base) }
    ensures fresh { IsTrue D.tells → LeavesOnly D.moment D.since disk.old disk.new (From SameFresh (D.images disk.old)) }
    ensures cause { HasCause (D.faults disk.old) (D.faults disk.new) result }
{
    let at = (n as u64 - 1) * bytes.len() as u64;
    disk.write_at(Role::Main, at, bytes)
}

/// Closes the journal and removes it. Main is synced already.
pub fn close<D: Disk, W: RecordWriter>(disk: &mut D, writer: &mut W) -> Result<(), Failed>
    ghost base: { Base }
    requires stage { (W.stage writer.old ≡ Stage.Filling) ⊎ (W.stage writer.old ≡ Stage.Opened) }
    requires small { W.is_small writer.old }
    requires sizes { (W.page_size writer.old ≡ base.size) × (W.initial writer.old ≡ base.pages) }
    requires base_is { IsBase base }
    requires settled { IsTrue D.tells → Each (D.images disk.old) (λ c. c.main ≡ (D.reads disk.old).main) }
    requires pages { IsTrue D.tells → HasPages base (main_of (D.reads disk.old)) }
    requires old { IsTrue D.tells → Each (D.images disk.old) (HoldsOld base) }
    requires left { IsTrue D.tells → AsLeft (W.left writer.old) (W.beside writer.old) (D.reads disk.old) (D.images disk.old) }
    ensures new { OnOk result (IsTrue D.tells → Each (D.images disk.new) (IsAfterCommit base (D.reads disk.old).main)) }
    ensures main { IsTrue D.tells → (D.reads disk.new).main ≡ (D.reads disk.old).main }
    ensures any_moment { IsTrue D.tells →
        LeavesOnly D.moment D.since disk.old disk.new (HoldsEither base (stored_pages base.size base.pages (main_of (D.reads disk.old)))) }
    ensures fresh { IsTrue D.tells → LeavesOnly D.moment D.since disk.old disk.new (From SameFresh (D.images disk.old)) }
    ensures cause { HasCause (D.faults disk.old) (D.faults disk.new) result }
{
    writer.close_gate(disk)?;
    writer.remove(disk)?;
    Ok(())
}

/// Ends a transaction whose changed pages all stand in Main: syncs Main, closes the journal and removes it.
pub fn finish<D: Disk, W: RecordWriter>(disk: &mut D, writer: &mut W) -> Result<(), Failed>
    ghost base: { Base }
    requires stage { (W.stage writer.old ≡ Stage.Filling) ⊎ (W.stage writer.old ≡ Stage.Opened) }
    requires small { W.is_small writer.old }
    requires sizes { (W.page_size writer.old ≡ base.size) × (W.initial writer.old ≡ base.pages) }
    requires base_is { IsBase base }
    requires facts { IsTrue D.tells →
        HasFacts base (W.safe writer.old) (W.waiting writer.old) (D.reads disk.old) (D.images disk.old) }
    requires left { IsTrue D.tells → AsLeft (W.left writer.old) (W.beside writer.old) (D.reads disk.old) (D.images disk.old) }
    ensures new { OnOk result (IsTrue D.tells → Each (D.images disk.new) (IsAfterCommit base (D.reads disk.old).main)) }
    ensures main { IsTrue D.tells → (D.reads disk.new).main ≡ (D.reads disk.old).main }
    ensures any_moment { IsTrue D.tells →
        LeavesOnly D.moment D.since disk.old disk.new (HoldsEither base (stored_pages base.size base.pages (main_of (D.reads disk.old)))) }
    ensures fresh { IsTrue D.tells → LeavesOnly D.moment D.since disk.old disk.new (From SameFresh (D.images disk.old)) }
    ensures cause { HasCause (D.faults disk.old) (D.faults disk.new) result }
{
    disk.sync(Role::Main)?;
    close(disk, writer)?;
    Ok(())
}

/// Takes back what was written, so that Main has the old pages again, and removes the journal.
pub fn abandon<D: Disk, W: RecordWriter>(disk: &mut D, writer: &mut W) -> Result<(), Failed>
    ghost base: { Base }
    requires stage { (W.stage writer.old ≡ Stage.Filling) ⊎ (W.stage writer.old ≡ Stage.Opened) }
    requires small { W.is_small writer.old }
    requires sizes { (W.page_size writer.old ≡ base.size) × (W.initial writer.old ≡ base.pages) }
    requires base_is { IsBase base }
    requires facts { IsTrue D.tells →
        HasFacts base (W.safe writer.old) (W.waiting writer.old) (D.reads disk.old) (D.images disk.old) }
    requires left { IsTrue D.tells → AsLeft (W.left writer.old) (W.beside writer.old) (D.reads disk.old) (D.images disk.old) }
    ensures old { OnOk result (IsTrue D.tells → Each (D.images disk.new) (λ c. HoldsOld base c × (c.journal ≡ None))) }
    ensures any_moment { IsTrue D.tells → LeavesOnly D.moment D.since disk.old disk.new (HoldsOld base) }
    ensures fresh { IsTrue D.tells → LeavesOnly D.moment D.since disk.old disk.new (From SameFresh (D.images disk.old)) }
    ensures cause { HasCause (D.faults disk.old) (D.faults disk.new) result }
{
    writer.lay_back(disk)?;
    close(disk, writer)?;
    Ok(())
}
