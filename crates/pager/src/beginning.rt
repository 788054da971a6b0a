// A transaction begins: all its memory is taken, and neither the disk nor the entropy is called.
ghost use Rattle.std.specs.Prelude.{◌≡◌, ◌≤◌, ◌<◌, ◌*◌, ◌==◌, [], ℕ, length, false, Err, IfOk, IfErr, IsErrAnd, IsTrue};
ghost use Rattle.atomic_commit.specs.Facts.{IsCommitBegun};
ghost use Rattle.atomic_commit.specs.Marks.{marked_count};
ghost use Rattle.pager.specs.Changed.{same_layout, unchanged};
ghost use Rattle.pager.specs.UnderWay.{IsReadyFor, IsUnderWay, Start, is_touched};

use crate::changed::ChangedPages;
use crate::pager::Pager;
use crate::txn::Txn;
use atomic_commit::PageMarks;
use edge_model::{Disk, Entropy};
use page_codec::Codec;
use rollback_journal::JournalWriter;
use std::alloc::Global;

/// Why a transaction was not begun.
#[derive(Clone, Copy, Debug, PartialEq, Eq)]
pub enum BeginError {
    /// The codec for writing has pages of another length, another reserve or another setting.
    LayoutDiffers,
    /// Memory ran out.
    OutOfMemory,
}

/// Whether both codecs have pages of one length and one reserve, and the setting of both is one.
pub fn is_same_layout(read: &Codec, write: &Codec) -> bool
    ensures { result ≡ same_layout read.now write.now }
{
    let (old, new) = (*read.profile(), *write.profile());
    old.page_size == new.page_size && old.reserve == new.reserve && old.reads_log == new.reads_log
}

impl<'d, D: Disk, E: Entropy> Pager<'d, D, E> {
    /// Begins a transaction that may change all pages. Its changed pages are sealed under this codec, and stand in so many frames, out of which they are written
    /// where more are changed. All memory of the transaction is taken here, and neither the disk nor the entropy is called. The frames for
    /// reading are let go.
    pub fn begin(
        self,
        alloc: Global,
        write: Codec,
        frames: u32,
    ) -> Result<Txn<'d, D, E>, (Pager<'d, D, E>, BeginError)>
        ghost start: { Start }
        requires frames { (1 ≤ frames) × (frames ≤ 64) }
        requires sizes { (self.codec.profile.page_size ≡ start.base.size) × (self.count ≡ start.base.pages) }
        requires drawn { start.drawn ≡ E.drawn self.entropy.now }
        requires begun { IsTrue D.tells → IsCommitBegun start.base (D.images self.disk.now) }
        ensures disk { IfOk result (λ t. (t.disk.ghost_name ≡ self.entry.disk.ghost_name) × (t.disk.now ≡ self.entry.disk.now)) }
        ensures entropy { IfOk result (λ t. (t.entropy.ghost_name ≡ self.entry.entropy.ghost_name) × (t.entropy.now ≡ self.entry.entropy.now)) }
        ensures file { IfOk result (λ t. (t.read ≡ self.entry.codec) × (t.write ≡ write) × (t.count ≡ self.entry.count)) }
        ensures unchanged { IfOk result (λ t. (t.changed.held ≡ []) × (marked_count t.recorded ≡ 0)) }
        ensures untouched { IfOk result (λ t. (n : ℕ) → is_touched t.written t.changed.held n ≡ false) }
        ensures room { IfOk result (λ t. t.changed.frames ≤ frames) }
        ensures ready { IfOk result (λ t. IsReadyFor t.recorded t.writer) }
        ensures under_way { IfOk result (λ t. IsTrue D.tells → IsUnderWay start write t.recorded t.written t.writer (D.reads t.disk.now) (D.images t.disk.now)
            E.tells (E.drawn t.entropy.now)) }
        ensures back { IfErr result (λ e. (e.0.disk.ghost_name ≡ self.entry.disk.ghost_name) × (e.0.disk.now ≡ self.entry.disk.now)
            × (e.0.entropy.ghost_name ≡ self.entry.entropy.ghost_name) × (e.0.entropy.now ≡ self.entry.entropy.now) × (e.0.codec ≡ self.entry.codec)
            × (e.0.header ≡ self.entry.header) × (e.0.count ≡ self.entry.count) × (e.0.cache ≡ self.entry.cache)) }
        ensures layout { IfErr result (λ e. e.1 ≡ BeginError.LayoutDiffers → same_layout self.entry.codec write ≡ false) }
        ensures differs { same_layout self.entry.codec write ≡ false → IsErrAnd result (λ e. e.1 ≡ BeginError.LayoutDiffers) }
    {
        if !is_same_layout(&self.codec, &write) {
            return Err((self, BeginError::LayoutDiffers));
        }
        let profile = *write.profile();
        let frames = if self.count < frames {
            self.count
        } else {
            frames
        };
        let Ok(changed) = ChangedPages::new(alloc, frames, profile.usable(), self.count) else {
            return Err((self, BeginError::OutOfMemory));
        };
        let Ok(recorded) = PageMarks::new(alloc, self.count) else {
            return Err((self, BeginError::OutOfMemory));
        };
        let Ok(written) = PageMarks::new(alloc, self.count) else {
            return Err((self, BeginError::OutOfMemory));
        };
        let Ok(writer) = JournalWriter::new(alloc, profile.page_size, self.count) else {
            return Err((self, BeginError::OutOfMemory));
        };
        let Ok(draws) = vec![in alloc; 0u8; frames as usize * profile.reserve as usize] else {
            return Err((self, BeginError::OutOfMemory));
        };
        let Ok(stored) = vec![in alloc; 0u8; profile.page_size as usize] else {
            return Err((self, BeginError::OutOfMemory));
        };
        let Ok(plain) = vec![in alloc; 0u8; profile.usable()] else {
            return Err((self, BeginError::OutOfMemory));
        };
        let Ok(batch) = vec![in alloc; 0u8; frames as usize * profile.page_size as usize] else {
            return Err((self, BeginError::OutOfMemory));
        };
        let Pager {
            disk,
            entropy,
            codec,
            header: _,
            count,
            cache: _,
            window,
            ahead,
            last: _,
        } = self;
        Ok(Txn {
            disk,
            entropy,
            read: codec,
            write,
            count,
            changed,
            recorded,
            written,
            writer,
            draws,
            batch,
            stored,
            plain,
            window,
            ahead,
            last: 0,
        })
    }
}
