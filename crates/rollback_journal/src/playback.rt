// The records of a hot journal, one by one: read, checked and laid over Main.
ghost use Rattle.std.specs.Prelude.{◌≡◌, ◌≢◌, ◌+◌, ◌-◌, ◌*◌, ◌<◌, ◌≤◌, Option, length, IsTrue, IfOk, OnOk, IfSome, Some, None};
ghost use Rattle.edge_model.specs.Causes.{HasCause};
ghost use Rattle.edge_model.specs.Files.{file_at, read_from, written, contents, main_of};
ghost use Rattle.edge_model.specs.Images.{Each, From, LeavesOnly};
ghost use Rattle.journal_format.specs.Header.{initial_at};
ghost use Rattle.rollback_journal.specs.Laying.{page_start, IsOneOf};
ghost use Rattle.journal_format.specs.Segments.{played};
ghost use Rattle.rollback_journal.specs.Recovery.{KeepsRecovered};
ghost use Rattle.rollback_journal.specs.Playing.{journal_of, IsInPlay, IsOneIfGood, DidAt, IsReadBack};

use edge_model::{Disk, Failed, Role};
use journal_format::record_page;

/// What was done with one record.
#[derive(Clone, Copy)]
pub enum Step {
    /// It is short, its number is 0 or its checksum differs: the playback ends.
    End,
    /// Its page is above the initial size.
    Passed,
    /// It was laid.
    Laid,
}

/// Fills the buffer from an offset on. Where the file ends within it, the missing bytes are zeros.
pub fn read_full<D: Disk>(
    disk: &mut D,
    role: Role,
    at: u64,
    buffer: &mut [u8],
) -> Result<(), Failed>
    ensures filled { OnOk result (IsTrue D.tells → file_at (D.reads disk.old) role ≢ None
        → at + length buffer.old ≤ length (contents (file_at (D.reads disk.old) role))
        → buffer.new ≡ read_from at (length buffer.old) (contents (file_at (D.reads disk.old) role))) }
    ensures same { IsTrue D.tells → D.reads disk.new ≡ D.reads disk.old }
    ensures crash { IsTrue D.tells → Each (D.images disk.new) (D.images disk.old) }
    ensures any_moment { IsTrue D.tells → LeavesOnly D.moment D.since disk.old disk.new (D.images disk.old) }
    ensures cause { HasCause (D.faults disk.old) (D.faults disk.new) result }
{
    let count = disk.read_at(role, at, buffer)?;
    for i in count..buffer.len() {
        buffer[i] = 0;
    }
    Ok(())
}

/// The page of the record at an offset, if it is good. It is then in the buffer.
fn read_record<D: Disk>(
    disk: &mut D,
    at: u64,
    nonce: u32,
    buffer: &mut [u8],
) -> Result<Option<u32>, Failed>
    requires room { 8 ≤ length buffer.old }
    requires there { IsTrue D.tells → (D.reads disk.old).journal ≢ None }
    requires fits { IsTrue D.tells → at + length buffer.old ≤ length (journal_of (D.reads disk.old)) }
    ensures numbered { IfOk result (λ page. IfSome page (λ n. 1 ≤ n)) }
    ensures read { IfOk result (λ page. IsTrue D.tells →
        IsReadBack (length buffer.old - 8) (journal_of (D.reads disk.old)) (record { nonce = nonce; at = at }) buffer.new page) }
    ensures same { IsTrue D.tells → D.reads disk.new ≡ D.reads disk.old }
    ensures crash { IsTrue D.tells → Each (D.images disk.new) (D.images disk.old) }
    ensures any_moment { IsTrue D.tells → LeavesOnly D.moment D.since disk.old disk.new (D.images disk.old) }
    ensures cause { HasCause (D.faults disk.old) (D.faults disk.new) result }
{
    read_full(disk, Role::Journal, at, buffer)?;
    Ok(record_page(nonce, buffer))
}

/// Lays an image at its page's place in Main. Pages are numbered from 1.
fn lay_image<D: Disk>(disk: &mut D, page_size: u32, page: u32, image: &[u8]) -> Result<(), Failed>
    requires size { (0 < page_size) × (page_size ≤ 65536) × (length image.now ≡ page_size) × (1 ≤ page) }
    requires in_play { IsTrue D.tells → Each (D.images disk.old) (IsInPlay page_size (D.reads disk.old)) }
    requires one { IsTrue D.tells →
        IsOneOf page_size (record { page = page; image = image.now }) (played page_size (journal_of (D.reads disk.old))) }
    ensures laid { OnOk result (IsTrue D.tells →
        main_of (D.reads disk.new) ≡ written (page_start page_size page) image.now (main_of (D.reads disk.old))) }
    ensures journal { OnOk result (IsTrue D.tells → (D.reads disk.new).journal ≡ (D.reads disk.old).journal) }
    ensures in_play { OnOk result (IsTrue D.tells → Each (D.images disk.new) (IsInPlay page_size (D.reads disk.new))) }
    ensures any_moment { IsTrue D.tells →
        LeavesOnly D.moment D.since disk.old disk.new (From (KeepsRecovered page_size) (D.images disk.old)) }
    ensures cause { HasCause (D.faults disk.old) (D.faults disk.new) result }
{
    disk.write_at(Role::Main, (page - 1) as u64 * page_size as u64, image)?;
    Ok(())
}

/// Does what is to be done with the record at an offset.
pub fn take_record<D: Disk>(
    disk: &mut D,
    page_size: u32,
    initial: u32,
    at: u64,
    nonce: u32,
    buffer: &mut [u8],
) -> Result<Step, Failed>
    requires size { (0 < page_size) × (page_size ≤ 65536) × (length buffer.old ≡ page_size + 8) }
    requires in_play { IsTrue D.tells → Each (D.images disk.old) (IsInPlay page_size (D.reads disk.old)) }
    requires initial { IsTrue D.tells → initial ≡ initial_at 0 (journal_of (D.reads disk.old)) }
    requires there { IsTrue D.tells → (D.reads disk.old).journal ≢ None }
    requires fits { IsTrue D.tells → at + (page_size + 8) ≤ length (journal_of (D.reads disk.old)) }
    requires one { IsTrue D.tells → IsOneIfGood page_size (journal_of (D.reads disk.old)) (record { nonce = nonce; at = at }) }
    ensures did { IfOk result (λ step. IsTrue D.tells → DidAt page_size (journal_of (D.reads disk.old))
        (record { nonce = nonce; at = at }) (main_of (D.reads disk.old)) (main_of (D.reads disk.new)) step) }
    ensures journal { OnOk result (IsTrue D.tells → (D.reads disk.new).journal ≡ (D.reads disk.old).journal) }
    ensures in_play { OnOk result (IsTrue D.tells → Each (D.images disk.new) (IsInPlay page_size (D.reads disk.new))) }
    ensures any_moment { IsTrue D.tells →
        LeavesOnly D.moment D.since disk.old disk.new (From (KeepsRecovered page_size) (D.images disk.old)) }
    ensures buffer { length buffer.new ≡ length buffer.old }
    ensures cause { HasCause (D.faults disk.old) (D.faults disk.new) result }
{
    let Some(page) = read_record(disk, at, nonce, buffer)? else {
        return Ok(Step::End);
    };
    if page > initial {
        return Ok(Step::Passed);
    }
    lay_image(disk, page_size, page, &buffer[4..4 + page_size as usize])?;
    Ok(Step::Laid)
}
