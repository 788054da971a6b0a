// Changed pages are drawn for, sealed, and written to Main: a batch before the commit, or the last one with it.
ghost use Rattle.std.specs.Prelude.{◌≡◌, ◌⊎◌, ◌*◌, ◌-◌, ◌<◌, ◌≤◌, [], ℕ, List, length, take, false, Err, IsOk, OnOk, OnErr, IsTrue};
ghost use Rattle.edge_model.specs.Causes.{HasCause, Rose};
ghost use Rattle.edge_model.specs.Images.{Each, From, LeavesOnly};
ghost use Rattle.cipher_profile.specs.Profile.{is_plain, usable};
ghost use Rattle.page_codec.specs.Page.{FileKeys};
ghost use Rattle.edge_model.specs.Files.{main_of};
ghost use Rattle.atomic_commit.specs.Batches.{HasMarked, IsBatchWritten};
ghost use Rattle.atomic_commit.specs.Commit.{IsCommitted, LeavesChanged};
ghost use Rattle.atomic_commit.specs.Database.{HoldsEither, HoldsOld, stored_pages};
ghost use Rattle.atomic_commit.specs.Facts.{IsBase, SameFresh};
ghost use Rattle.atomic_commit.specs.Marks.{marked_count};
ghost use Rattle.pager.specs.Changed.{HasMagic, IsDrawn, IsPageSealed};
ghost use Rattle.pager.specs.UnderWay.{HasNewPages, IsReadyFor, IsUnderWay, Start, is_touched, seen_pages};

use crate::changed::ChangedPages;
use crate::sealing::{Sealing, seal_side_by_side};
use atomic_commit::{CommitFault, PageMarks, end_batches, mark_pages, write_batch};
use edge_model::{Disk, Entropy, Failed};
use page_codec::Codec;
use rollback_journal::JournalWriter;

// Draws as many bytes, at the start of the buffer. For none the entropy is not called.
fn draw_for<E: Entropy>(entropy: &mut E, draws: &mut [u8], count: usize) -> Result<(), Failed>
    requires { count ≤ length draws.old }
    ensures drawn { OnOk result (IsDrawn E.tells (E.drawn entropy.old) (E.drawn entropy.new) count (take count draws.new)) }
    ensures failed { OnErr result (IsTrue E.tells → E.drawn entropy.new ≡ E.drawn entropy.old) }
    ensures none { count ≡ 0 → IsOk result × (entropy.new ≡ entropy.old) }
    ensures length { length draws.new ≡ length draws.old }
    ensures cause { HasCause (E.faults entropy.old) (E.faults entropy.new) result }
{
    if count == 0 {
        return Ok(());
    }
    entropy.fill(&mut draws[..count])
}

/// Writes the changed pages as a batch, each sealed with bytes of its own that are drawn here. The buffers are for the draws, for
/// the pages that are sealed side by side, and for a stored page.
pub(crate) fn write_frames<D: Disk, E: Entropy>(
    disk: &mut D,
    entropy: &mut E,
    writer: &mut JournalWriter,
    recorded: &mut PageMarks,
    written: &mut PageMarks,
    codec: &Codec,
    changed: &ChangedPages,
    draws: &mut [u8],
    room: &mut [u8],
    buffer: &mut [u8],
) -> Result<(), CommitFault>
    ghost start: { Start }
    requires sizes { (codec.now.profile.page_size ≡ start.base.size) × (changed.now.pages ≡ start.base.pages) × (length buffer.old ≡ start.base.size) }
    requires journal { (writer.old.page_size ≡ start.base.size) × (writer.old.initial ≡ start.base.pages) }
    requires some { 0 < start.base.pages }
    requires marks { length written.old ≡ start.base.pages }
    requires plain { (changed.now.usable ≡ usable codec.now.profile) × (is_plain codec.now.profile ≡ false → HasMagic changed.now.held) }
    requires room { length changed.now.numbers * codec.now.profile.reserve ≤ length draws.old }
    requires ready { IsReadyFor recorded.old writer.old }
    requires under_way { IsTrue D.tells → IsUnderWay start codec.now recorded.old written.old writer.old (D.reads disk.old) (D.images disk.old) E.tells (E.drawn entropy.old) }
    ensures ready { OnOk result (IsReadyFor recorded.new writer.new) }
    ensures under_way { OnOk result (IsTrue D.tells → IsUnderWay start codec.now recorded.new written.new writer.new (D.reads disk.new) (D.images disk.new) E.tells (E.drawn entropy.new)) }
    ensures marks { OnOk result (HasMarked changed.now.numbers (length changed.now.numbers) written.old written.new) }
    ensures as_many { length written.new ≡ length written.old }
    ensures recorded { OnOk result (0 < length changed.now.numbers → 0 < marked_count recorded.new) }
    ensures written { OnOk result (IsTrue D.tells → (drawn : List ℕ) × IsBatchWritten start.base (main_of (D.reads disk.old)) changed.now.numbers
        (IsPageSealed codec.now changed.now drawn) (length changed.now.numbers) (main_of (D.reads disk.new))) }
    ensures journal { (writer.new.page_size ≡ start.base.size) × (writer.new.initial ≡ start.base.pages) }
    ensures buffers { (length draws.new ≡ length draws.old) × (length buffer.new ≡ length buffer.old) }
    ensures any_moment { IsTrue D.tells → LeavesOnly D.moment D.since disk.old disk.new (HoldsOld start.base) }
    ensures fresh { IsTrue D.tells → LeavesOnly D.moment D.since disk.old disk.new (From SameFresh (D.images disk.old)) }
    ensures disk_fault { result ≡ Err CommitFault.DiskFault → Rose (D.faults disk.old) (D.faults disk.new) }
    ensures entropy_fault { result ≡ Err CommitFault.EntropyFault → Rose (E.faults entropy.old) (E.faults entropy.new) }
    ensures disk_later { D.faults disk.old ≤ D.faults disk.new }
    ensures entropy_later { E.faults entropy.old ≤ E.faults entropy.new }
{
    let count = changed.len() * codec.profile().reserve as usize;
    match draw_for(entropy, draws, count) {
        Ok(()) => {}
        Err(_) => return Err(CommitFault::EntropyFault),
    }
    let sealed = seal_side_by_side(codec, changed, &draws[..count], room);
    let mut sealing = Sealing {
        codec,
        changed,
        draws: &draws[..count],
        stored: room,
        sealed,
    };
    write_batch(disk, writer, recorded, &mut sealing, buffer)?;
    mark_pages(written, &sealing);
    Ok(())
}

/// Writes the changed pages as the last batch and commits. Where no page was changed at all, no call is made. The clauses speak of the
/// pages that were written before; no code asks for them.
pub(crate) fn end_frames<D: Disk, E: Entropy>(
    disk: &mut D,
    entropy: &mut E,
    writer: &mut JournalWriter,
    recorded: &mut PageMarks,
    written: &PageMarks,
    codec: &Codec,
    changed: &ChangedPages,
    draws: &mut [u8],
    room: &mut [u8],
    buffer: &mut [u8],
) -> Result<(), CommitFault>
    ghost start: { Start }
    requires sizes { (codec.now.profile.page_size ≡ start.base.size) × (changed.now.pages ≡ start.base.pages) × (length buffer.old ≡ start.base.size) }
    requires journal { (writer.old.page_size ≡ start.base.size) × (writer.old.initial ≡ start.base.pages) }
    requires plain { (changed.now.usable ≡ usable codec.now.profile) × (is_plain codec.now.profile ≡ false → HasMagic changed.now.held) }
    requires room { length changed.now.numbers * codec.now.profile.reserve ≤ length draws.old }
    requires base_is { IsBase start.base }
    requires ready { IsReadyFor recorded.old writer.old }
    requires under_way { IsTrue D.tells → IsUnderWay start codec.now recorded.old written.now writer.old (D.reads disk.old) (D.images disk.old) E.tells (E.drawn entropy.old) }
    ensures changed { OnOk result (IsTrue D.tells → (read : FileKeys) → codec.now.profile.page_size ≡ read.profile.page_size → HasNewPages start codec.now (is_touched written.now changed.now.held)
        (λ n. (seen_pages read codec.now (main_of (D.reads disk.old)) start.base.pages written.now changed.now.held).page n)
        E.tells (E.drawn entropy.new) (main_of (D.reads disk.new))) }
    ensures new { OnOk result (IsTrue D.tells → Each (D.images disk.new) (IsCommitted start.base (main_of (D.reads disk.new)))) }
    ensures settled { OnOk result (IsTrue D.tells → ((changed.now.numbers ≡ []) × (marked_count recorded.old ≡ 0) × (disk.new ≡ disk.old))
        ⊎ Each (D.images disk.new) (λ c. c.main ≡ (D.reads disk.new).main)) }
    ensures one_new { OnOk result (IsTrue D.tells → LeavesOnly D.moment D.since disk.old disk.new
        (HoldsEither start.base (stored_pages start.base.size start.base.pages (main_of (D.reads disk.new))))) }
    ensures any_moment { IsTrue D.tells → (read : FileKeys) → codec.now.profile.page_size ≡ read.profile.page_size → LeavesChanged D.moment D.since start.base (HasNewPages start codec.now (is_touched written.now changed.now.held)
        (λ n. (seen_pages read codec.now (main_of (D.reads disk.old)) start.base.pages written.now changed.now.held).page n)
        E.tells (E.drawn entropy.new)) disk.old disk.new }
    ensures only_old { result ≡ Err CommitFault.EntropyFault → IsTrue D.tells → LeavesOnly D.moment D.since disk.old disk.new (HoldsOld start.base) }
    ensures fresh { IsTrue D.tells → LeavesOnly D.moment D.since disk.old disk.new (From SameFresh (D.images disk.old)) }
    ensures none { changed.now.numbers ≡ [] → marked_count recorded.old ≡ 0 → IsOk result × (disk.new ≡ disk.old) × (entropy.new ≡ entropy.old) }
    ensures disk_fault { result ≡ Err CommitFault.DiskFault → Rose (D.faults disk.old) (D.faults disk.new) }
    ensures entropy_fault { result ≡ Err CommitFault.EntropyFault → Rose (E.faults entropy.old) (E.faults entropy.new) }
    ensures disk_later { D.faults disk.old ≤ D.faults disk.new }
    ensures entropy_later { E.faults entropy.old ≤ E.faults entropy.new }
{
    let count = changed.len() * codec.profile().reserve as usize;
    match draw_for(entropy, draws, count) {
        Ok(()) => {}
        Err(_) => return Err(CommitFault::EntropyFault),
    }
    let sealed = seal_side_by_side(codec, changed, &draws[..count], room);
    let mut sealing = Sealing {
        codec,
        changed,
        draws: &draws[..count],
        stored: room,
        sealed,
    };
    end_batches(disk, writer, recorded, &mut sealing, buffer)?;
    Ok(())
}
