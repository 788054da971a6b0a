// The gates of a journal. The gate of a segment is the first byte of its header: 0 while it is closed, d9 once it is open.
ghost use Rattle.std.specs.Prelude.{◌≡◌, ◌≢◌, ◌⊎◌, ◌∷◌, [], ◌+◌, ◌-◌, ◌*◌, ◌<◌, ◌≤◌, length, take, IsTrue, OnOk, MatchBool};
ghost use Rattle.edge_model.specs.Causes.{HasCause};
ghost use Rattle.edge_model.specs.Files.{bytes_of, with_file_bytes, written, contents};
ghost use Rattle.edge_model.specs.Images.{Each, From, LeavesOnly};
ghost use Rattle.rollback_journal.specs.Plays.{PlaysNone, SameOthers, PlaysAsBefore, PlaysAsBeforeOrAll, PlaysAsBeforeOrNone};
ghost use Rattle.rollback_journal.specs.Writing.{with_stage, with_segment, all_records, WriterStands, sector_of, IsJournalHeaded};

use super::JournalWriter;
use crate::put::put;
use crate::stage::Stage;
use edge_model::{Disk, Failed};
use journal_format::{SegmentHeader, write_header};

// sqlcipher-tool 1
const MARK: [u8; 16] = [
    115, 113, 108, 99, 105, 112, 104, 101, 114, 45, 116, 111, 111, 108, 32, 49,
];

impl JournalWriter {
    /// Opens the present gate. Each image then has the segment whole behind it.
    pub fn open_gate<D: Disk>(&mut self, disk: &mut D) -> Result<(), Failed>
        requires stage { (self.old.stage ≡ Stage.Filling) × (0 < self.old.count) }
        requires stands { IsTrue D.tells → WriterStands self.old (D.reads disk.old) (D.images disk.old) }
        ensures made { OnOk result (self.new ≡ with_stage Stage.Opened self.old) }
        ensures sizes { (self.new.page_size ≡ self.old.page_size) × (self.new.initial ≡ self.old.initial) }
        ensures stands { OnOk result (IsTrue D.tells → WriterStands self.new (D.reads disk.new) (D.images disk.new)) }
        ensures records { OnOk result (IsTrue D.tells → all_records self.new (contents (D.reads disk.new).journal)
            ≡ all_records self.old (contents (D.reads disk.old).journal)) }
        ensures others { IsTrue D.tells → SameOthers (D.reads disk.old) (D.reads disk.new) }
        ensures any_moment { IsTrue D.tells →
            LeavesOnly D.moment D.since disk.old disk.new
            (From (PlaysAsBeforeOrAll self.old.page_size self.old.initial
            (all_records self.old (contents (D.reads disk.old).journal))) (D.images disk.old)) }
        ensures cause { HasCause (D.faults disk.old) (D.faults disk.new) result }
    {
        self.put_head(disk)?;
        self.put_gate(disk)?;
        self.stage = Stage::Opened;
        Ok(())
    }

    /// Begins a further segment at the next multiple of 512, with its gate closed.
    pub fn next_segment<D: Disk>(&mut self, disk: &mut D) -> Result<(), Failed>
        requires stage { (self.old.stage ≡ Stage.Opened) × (0 < self.old.count) }
        requires stands { IsTrue D.tells → WriterStands self.old (D.reads disk.old) (D.images disk.old) }
        ensures made { OnOk result (self.new ≡ with_segment self.old) }
        ensures sizes { (self.new.page_size ≡ self.old.page_size) × (self.new.initial ≡ self.old.initial) }
        ensures stands { OnOk result (IsTrue D.tells → WriterStands self.new (D.reads disk.new) (D.images disk.new)) }
        ensures records { OnOk result (IsTrue D.tells → all_records self.new (contents (D.reads disk.new).journal)
            ≡ all_records self.old (contents (D.reads disk.old).journal)) }
        ensures others { IsTrue D.tells → SameOthers (D.reads disk.old) (D.reads disk.new) }
        ensures any_moment { IsTrue D.tells →
            LeavesOnly D.moment D.since disk.old disk.new (From (PlaysAsBefore self.old.page_size) (D.images disk.old)) }
        ensures cause { HasCause (D.faults disk.old) (D.faults disk.new) result }
    {
        let end = self.at + 512 + self.count as u64 * (self.page_size as u64 + 8);
        let next = end + (512 - end % 512) % 512;
        put(disk, next, &[0])?;
        self.at = next;
        self.nonce += 1;
        self.count = 0;
        self.stage = Stage::Filling;
        Ok(())
    }

    /// Closes the whole journal. Where its first gate was opened, a 0 is written over byte 0 and synced; where it never was,
    /// byte 0 is a synced 0 already, and nothing is written.
    pub fn close_gate<D: Disk>(&mut self, disk: &mut D) -> Result<(), Failed>
        requires stage { (self.old.stage ≡ Stage.Filling) ⊎ (self.old.stage ≡ Stage.Opened) }
        requires stands { IsTrue D.tells → WriterStands self.old (D.reads disk.old) (D.images disk.old) }
        ensures made { OnOk result (self.new ≡ with_stage Stage.Closed self.old) }
        ensures sizes { (self.new.page_size ≡ self.old.page_size) × (self.new.initial ≡ self.old.initial) }
        ensures stands { OnOk result (IsTrue D.tells → WriterStands self.new (D.reads disk.new) (D.images disk.new)) }
        ensures cold { OnOk result (IsTrue D.tells → Each (D.images disk.new) (λ c. PlaysNone (bytes_of c.journal))) }
        ensures one_byte { OnOk result (IsTrue D.tells → ((0 < self.old.at) ⊎ (self.old.stage ≡ Stage.Opened)) →
            (D.reads disk.new).journal ≡ with_file_bytes (written 0 (0 ∷ [])) (D.reads disk.old).journal) }
        ensures untouched { (self.old.at ≡ 0) × (self.old.stage ≡ Stage.Filling) → disk.new ≡ disk.old }
        ensures others { IsTrue D.tells → SameOthers (D.reads disk.old) (D.reads disk.new) }
        ensures any_moment { IsTrue D.tells → LeavesOnly D.moment D.since disk.old disk.new
            (From (PlaysAsBeforeOrNone self.old.page_size) (D.images disk.old)) }
        ensures cause { HasCause (D.faults disk.old) (D.faults disk.new) result }
    {
        let begun = self.is_begun();
        if begun {
            put(disk, 0, &[0])?;
            self.stage = Stage::Closed;
            return Ok(());
        }
        self.stage = Stage::Closed;
        Ok(())
    }

    /// The first sector of the present segment: its header and its padding.
    fn first_sector(&self) -> [u8; 512]
        ensures { result ≡ sector_of self.now }
    {
        let mut header = [0u8; 28];
        write_header(
            &SegmentHeader {
                count: self.count,
                nonce: self.nonce,
                initial: self.initial,
                sector: 512,
                page_size: self.page_size,
            },
            &mut header,
        );
        let mut sector = [0u8; 512];
        let (front, rest) = sector.split_at_mut(28);
        front.copy_from_slice(&header);
        if self.at == 0 {
            let (mark, _zeros) = rest.split_at_mut(16);
            mark.copy_from_slice(&MARK);
        }
        sector
    }

    /// Writes the first sector but its first byte, and syncs it.
    fn put_head<D: Disk>(&self, disk: &mut D) -> Result<(), Failed>
        requires stage { (self.now.stage ≡ Stage.Filling) × (0 < self.now.count) }
        requires stands { IsTrue D.tells → WriterStands self.now (D.reads disk.old) (D.images disk.old) }
        ensures stands { OnOk result (IsTrue D.tells → WriterStands self.now (D.reads disk.new) (D.images disk.new)) }
        ensures headed { OnOk result (IsTrue D.tells → IsJournalHeaded self.now (contents (D.reads disk.new).journal)) }
        ensures whole { OnOk result (IsTrue D.tells →
            Each (D.images disk.new) (λ c. c.journal ≡ (D.reads disk.new).journal)) }
        ensures records { OnOk result (IsTrue D.tells → all_records self.now (contents (D.reads disk.new).journal)
            ≡ all_records self.now (contents (D.reads disk.old).journal)) }
        ensures others { IsTrue D.tells → SameOthers (D.reads disk.old) (D.reads disk.new) }
        ensures any_moment { IsTrue D.tells →
            LeavesOnly D.moment D.since disk.old disk.new (From (PlaysAsBefore self.now.page_size) (D.images disk.old)) }
        ensures cause { HasCause (D.faults disk.old) (D.faults disk.new) result }
    {
        let sector = self.first_sector();
        put(disk, self.at + 1, &sector[1..512])
    }

    /// Writes the first byte of the header, and syncs it.
    fn put_gate<D: Disk>(&self, disk: &mut D) -> Result<(), Failed>
        requires stage { (self.now.stage ≡ Stage.Filling) × (0 < self.now.count) }
        requires stands { IsTrue D.tells → WriterStands self.now (D.reads disk.old) (D.images disk.old) }
        requires headed { IsTrue D.tells → IsJournalHeaded self.now (contents (D.reads disk.old).journal) }
        requires whole { IsTrue D.tells → Each (D.images disk.old) (λ c. c.journal ≡ (D.reads disk.old).journal) }
        ensures stands { OnOk result (IsTrue D.tells →
            WriterStands (with_stage Stage.Opened self.now) (D.reads disk.new) (D.images disk.new)) }
        ensures records { OnOk result (IsTrue D.tells → all_records self.now (contents (D.reads disk.new).journal)
            ≡ all_records self.now (contents (D.reads disk.old).journal)) }
        ensures others { IsTrue D.tells → SameOthers (D.reads disk.old) (D.reads disk.new) }
        ensures any_moment { IsTrue D.tells →
            LeavesOnly D.moment D.since disk.old disk.new
            (From (PlaysAsBeforeOrAll self.now.page_size self.now.initial
            (all_records self.now (contents (D.reads disk.old).journal))) (D.images disk.old)) }
        ensures cause { HasCause (D.faults disk.old) (D.faults disk.new) result }
    {
        put(disk, self.at, &[0xd9])
    }
}
