// The writer of a rollback journal is one that a transaction can have.
ghost use Rattle.std.specs.Prelude.{◌≡◌, ◌⊎◌, ℕ, List};
ghost use Rattle.edge_model.specs.Files.{Files};
ghost use Rattle.rollback_journal.specs.Playing.{journal_of};
ghost use Rattle.rollback_journal.specs.Writing.{IsSmall, IsLeft, IsLeftBeside, at_first, safe_records, waiting_records};

use crate::RecordWriter;
use edge_model::{Disk, Failed};
use rollback_journal::JournalWriter;

impl RecordWriter for JournalWriter {
    ghost use Rattle.atomic_commit.specs.WriterLaws.{left_just, moved_left, moved_beside};

    ghost page_size = { λ w. w.page_size };

    ghost initial = { λ w. w.initial };

    ghost stage = { λ w. w.stage };

    ghost is_new = { λ w. w ≡ at_first w.page_size w.initial };

    ghost count = { λ w. w.count };

    ghost total = { λ w. w.total };

    ghost is_small = { λ w. IsSmall w };

    ghost safe = { λ w journal. safe_records w journal };

    ghost waiting = { λ w journal. waiting_records w journal };

    ghost left = { λ w now. IsLeft w now.journal };

    ghost beside = { λ w now c. IsLeftBeside w now.journal c.journal };

    fn create<D: Disk>(&mut self, disk: &mut D) -> Result<(), Failed> {
        JournalWriter::create(self, disk)?;
        Ok(())
    }

    fn append<D: Disk>(&mut self, disk: &mut D, n: u32, image: &[u8]) -> Result<(), Failed> {
        JournalWriter::append(self, disk, n, image)?;
        Ok(())
    }

    fn open_gate<D: Disk>(&mut self, disk: &mut D) -> Result<(), Failed> {
        JournalWriter::open_gate(self, disk)?;
        Ok(())
    }

    fn next_segment<D: Disk>(&mut self, disk: &mut D) -> Result<(), Failed> {
        JournalWriter::next_segment(self, disk)?;
        Ok(())
    }

    fn close_gate<D: Disk>(&mut self, disk: &mut D) -> Result<(), Failed> {
        JournalWriter::close_gate(self, disk)?;
        Ok(())
    }

    fn remove<D: Disk>(&mut self, disk: &mut D) -> Result<(), Failed> {
        JournalWriter::remove(self, disk)?;
        Ok(())
    }

    fn lay_back<D: Disk>(&mut self, disk: &mut D) -> Result<(), Failed> {
        JournalWriter::lay_back(self, disk)?;
        Ok(())
    }

    ghost plays_left = { λ w now c left beside stage. left_just w now c left beside stage };

    ghost stays_left = { λ w now new left same. moved_left w now new left same };

    ghost stays_beside = { λ w now new d c beside same other. moved_beside w now new d c beside same other };
}
