// The writer of a rollback journal: it makes the journal, writes records behind a closed gate, and removes it. The rules
// of what it writes stand at the head of the crate.
ghost use Rattle.std.specs.Prelude.{◌≡◌, ◌≢◌, ◌⊎◌, ◌∷◌, [], ◌++◌, ◌+◌, ◌-◌, ◌*◌, ◌<◌, ◌≤◌, length, IsTrue, OnOk, IfOk, None, Some, MatchBool};
ghost use Rattle.edge_model.specs.Causes.{HasCause};
ghost use Rattle.edge_model.specs.Files.{bytes_of, contents};
ghost use Rattle.edge_model.specs.Images.{Each, From, LeavesOnly, SameNames};
ghost use Rattle.rollback_journal.specs.Plays.{SameOthers, PlaysAsBefore};
ghost use Rattle.rollback_journal.specs.Writing.{Writing, IsSmall, at_first, with_stage, with_record, all_records, WriterStands, HasNoRecordOf};

mod gates;
mod laying_back;

use crate::put::put;
use crate::stage::Stage;
use edge_model::{Disk, Failed, OutOfMemory, Role};
use journal_format::write_record;
use std::alloc::Global;
use std::marker::Model;

/// The writer of one rollback journal. It takes memory when it is made and never again.
///
/// A call answers Failed only where the disk's count of faults rose; no call can follow one that failed. Between two calls
/// nothing else may change the journal (`stands`).
#[derive(Drop)]
pub struct JournalWriter {
    /// The length of a page, in bytes.
    page_size: u32,
    /// The size of the database at the start of the transaction, in pages.
    initial: u32,
    /// The offset of the present segment, in bytes.
    at: u64,
    /// The segment's number, from 1. It is its nonce.
    nonce: u32,
    /// How many records the segment has.
    count: u32,
    /// How many records the whole journal has.
    total: u32,
    stage: Stage,
    /// A record is put together here.
    buffer: Vec<u8>,
}

impl Model for JournalWriter {
    ghost Value = { Writing };

    ghost view = { λ w. record { page_size = w.page_size; initial = w.initial; at = w.at; nonce = w.nonce; count = w.count; total = w.total; stage = w.stage } };

    ghost invariant = { λ w. IsSmall (record { page_size = w.page_size; initial = w.initial; at = w.at; nonce = w.nonce; count = w.count; total = w.total; stage = w.stage }) × (length w.buffer.items ≡ w.page_size + 8) };
}

impl JournalWriter {
    /// Takes the memory of all that follows: a page and the 8 bytes of its record. The page size is in bytes; `initial` is the
    /// size of the database, in pages.
    pub fn new(alloc: Global, page_size: u32, initial: u32) -> Result<JournalWriter, OutOfMemory>
        requires { (512 ≤ page_size) × (page_size ≤ 65536) × (initial < 4294967295) }
        ensures { IfOk result (λ w. w ≡ at_first page_size initial) }
    {
        let Ok(buffer) = Vec::from_elem(alloc, 0u8, page_size as usize + 8) else {
            return Err(OutOfMemory);
        };
        Ok(JournalWriter {
            page_size,
            initial,
            at: 0,
            nonce: 1,
            count: 0,
            total: 0,
            stage: Stage::New,
            buffer,
        })
    }

    /// Makes the journal, a file of the one byte 0. Its name and its byte are synced.
    pub fn create<D: Disk>(&mut self, disk: &mut D) -> Result<(), Failed>
        requires new { self.old ≡ at_first self.old.page_size self.old.initial }
        requires none { IsTrue D.tells → Each (D.images disk.old) (λ c. c.journal ≡ None) }
        ensures made { OnOk result (self.new ≡ with_stage Stage.Filling self.old) }
        ensures sizes { (self.new.page_size ≡ self.old.page_size) × (self.new.initial ≡ self.old.initial) }
        ensures small { IsSmall self.new }
        ensures stands { OnOk result (IsTrue D.tells → WriterStands self.new (D.reads disk.new) (D.images disk.new)) }
        ensures none { OnOk result (IsTrue D.tells → all_records self.new (contents (D.reads disk.new).journal) ≡ []) }
        ensures names { OnOk result (IsTrue D.tells → Each (D.images disk.new) (SameNames (D.reads disk.new))) }
        ensures others { IsTrue D.tells → SameOthers (D.reads disk.old) (D.reads disk.new) }
        ensures any_moment { IsTrue D.tells →
            LeavesOnly D.moment D.since disk.old disk.new (From (PlaysAsBefore self.old.page_size) (D.images disk.old)) }
        ensures cause { HasCause (D.faults disk.old) (D.faults disk.new) result }
    {
        make_file(disk, self.page_size)?;
        self.stage = Stage::Filling;
        Ok(())
    }

    /// Writes the record of page `n`, numbered from 1, behind the closed gate. The image is the page's stored bytes.
    pub fn append<D: Disk>(&mut self, disk: &mut D, n: u32, image: &[u8]) -> Result<(), Failed>
        requires stage { self.old.stage ≡ Stage.Filling }
        requires room { self.old.total < self.old.initial }
        requires page { (1 ≤ n) × (n ≤ self.old.initial) × (length image.now ≡ self.old.page_size) }
        requires fresh { IsTrue D.tells → HasNoRecordOf n (all_records self.old (contents (D.reads disk.old).journal)) }
        requires stands { IsTrue D.tells → WriterStands self.old (D.reads disk.old) (D.images disk.old) }
        ensures made { OnOk result (self.new ≡ with_record self.old) }
        ensures sizes { (self.new.page_size ≡ self.old.page_size) × (self.new.initial ≡ self.old.initial) }
        ensures stands { OnOk result (IsTrue D.tells → WriterStands self.new (D.reads disk.new) (D.images disk.new)) }
        ensures one_more { OnOk result (IsTrue D.tells → all_records self.new (contents (D.reads disk.new).journal)
            ≡ all_records self.old (contents (D.reads disk.old).journal) ++ record { page = n; image = image.now } ∷ []) }
        ensures others { IsTrue D.tells → SameOthers (D.reads disk.old) (D.reads disk.new) }
        ensures any_moment { IsTrue D.tells →
            LeavesOnly D.moment D.since disk.old disk.new (From (PlaysAsBefore self.old.page_size) (D.images disk.old)) }
        ensures cause { HasCause (D.faults disk.old) (D.faults disk.new) result }
    {
        write_record(self.nonce, n, image, &mut self.buffer);
        let end = self.at + 512 + self.count as u64 * (self.page_size as u64 + 8);
        disk.write_at(Role::Journal, end, &self.buffer)?;
        self.count += 1;
        self.total += 1;
        self.stage = Stage::Filling;
        Ok(())
    }

    /// Removes a closed journal, and syncs the folder.
    pub fn remove<D: Disk>(&mut self, disk: &mut D) -> Result<(), Failed>
        requires stage { self.old.stage ≡ Stage.Closed }
        requires stands { IsTrue D.tells → WriterStands self.old (D.reads disk.old) (D.images disk.old) }
        ensures gone { OnOk result (IsTrue D.tells → Each (D.images disk.new) (λ c. c.journal ≡ None)) }
        ensures others { IsTrue D.tells → SameOthers (D.reads disk.old) (D.reads disk.new) }
        ensures any_moment { IsTrue D.tells →
            LeavesOnly D.moment D.since disk.old disk.new (From (PlaysAsBefore self.old.page_size) (D.images disk.old)) }
        ensures cause { HasCause (D.faults disk.old) (D.faults disk.new) result }
    {
        disk.remove(Role::Journal)?;
        disk.sync_folder()
    }

    /// Whether a gate was opened.
    fn is_begun(&self) -> bool
        ensures { MatchBool result ((0 < self.now.at) ⊎ (self.now.stage ≡ Stage.Opened))
            ((self.now.at ≡ 0) × (self.now.stage ≢ Stage.Opened)) }
    {
        self.at > 0 || self.stage == Stage::Opened
    }
}

/// Makes a file of the one byte 0, and syncs its byte and its name.
fn make_file<D: Disk>(disk: &mut D, page_size: u32) -> Result<(), Failed>
    requires none { IsTrue D.tells → Each (D.images disk.old) (λ c. c.journal ≡ None) }
    ensures there { OnOk result (IsTrue D.tells → bytes_of (D.reads disk.new).journal ≡ Some (0 ∷ [])) }
    ensures whole { OnOk result (IsTrue D.tells → Each (D.images disk.new) (λ c. c.journal ≡ (D.reads disk.new).journal)) }
    ensures names { OnOk result (IsTrue D.tells → Each (D.images disk.new) (SameNames (D.reads disk.new))) }
    ensures others { IsTrue D.tells → SameOthers (D.reads disk.old) (D.reads disk.new) }
    ensures any_moment { IsTrue D.tells →
        LeavesOnly D.moment D.since disk.old disk.new (From (PlaysAsBefore page_size) (D.images disk.old)) }
    ensures cause { HasCause (D.faults disk.old) (D.faults disk.new) result }
{
    let gate = [0u8];
    disk.create(Role::Journal)?;
    put(disk, 0, &gate)?;
    disk.sync_folder()
}
