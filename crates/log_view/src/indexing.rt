// Which frame has a page last.
ghost use Rattle.std.specs.Prelude.{◌≡◌, ◌≢◌, ◌+◌, ◌-◌, ◌^◌, ◌<◌, ◌≤◌, ◌&&◌, ◌==◌, ℕ, nat_le, if◌then◌else◌, get_or, length, IsTrue, IfOk, IfSome, None};
ghost use Rattle.edge_model.specs.Causes.{HasCause};
ghost use Rattle.edge_model.specs.OnlyRead.{OnlyRead};
ghost use Rattle.log_format.specs.Frames.{frame_page};
ghost use Rattle.log_format.specs.Logs.{frame_bytes_at, frame_start, logged};
ghost use Rattle.log_recovery.specs.Laying.{log_of, IsLogReading, IsReadingOfLog};
ghost use Rattle.log_view.specs.View.{IsTable};
ghost use Rattle.rollback_journal.specs.Laying.{page_start, reach};

use edge_model::{Disk, Failed, Role};
use log_recovery::{LogReading, read_full};
use number_fields::u32_at;

/// The page of the frame with this number. None where the log ends before it.
fn page_of<D: Disk>(disk: &mut D, page_size: u32, k: u64) -> Result<Option<u32>, Failed>
    requires bound { (page_size ≤ 65536) × (frame_start page_size k < 2 ^ 64) }
    ensures page { IfOk result (λ found. IfSome found (λ page. IsTrue D.tells → page ≡ frame_page (frame_bytes_at page_size (log_of (D.reads disk.old)) k))) }
    ensures whole { IfOk result (λ found. IsTrue D.tells → frame_start page_size k + (page_size + 24) ≤ length (log_of (D.reads disk.old)) → found ≢ None) }
    ensures only { IsTrue D.tells → OnlyRead D.reads D.images D.moment D.since disk.old disk.new }
    ensures cause { HasCause (D.faults disk.old) (D.faults disk.new) result }
{
    let mut bytes = [0; 4];
    let whole = read_full(
        disk,
        Role::Journal,
        32 + k * (page_size as u64 + 24),
        &mut bytes,
    )?;
    if !whole {
        return Ok(None);
    }
    Ok(Some(u32_at(&bytes, 0)))
}

/// Notes the frame before this number as the last one of its page, where that is one of the database. Answers where the page ends, or
/// 0 where it is none.
fn note(table: &mut [u32], page_size: u32, page: u32, number: u32) -> u64
    requires size { page_size ≤ 65536 }
    ensures len { length table.new ≡ length table.old }
    ensures noted { (p : ℕ) → 1 ≤ p → p ≤ length table.old → get_or table.new (p - 1) 0 ≡ (if page == p then number else get_or table.old (p - 1) 0) }
    ensures end { result ≡ (if nat_le 1 page && nat_le page (length table.old) then page_start page_size page + page_size else 0) }
{
    if page == 0 {
        return 0;
    }
    if page as usize > table.len() {
        return 0;
    }
    table[page as usize - 1] = number;
    (page as u64 - 1) * page_size as u64 + page_size as u64
}

/// Notes the last committed frame of each page, in a table of zeros. Answers how far the pages reach, in bytes, or none where the log
/// ends before its last frame: it was cut since it was looked at.
pub fn index_frames<D: Disk>(
    disk: &mut D,
    reading: &LogReading,
    table: &mut [u32],
) -> Result<Option<u64>, Failed>
    requires reading { IsLogReading reading.now }
    requires few { reading.now.frames < 2 ^ 32 }
    requires table { length table.old ≡ reading.now.pages }
    requires zeros { (j : ℕ) → get_or table.old j 0 ≡ 0 }
    requires read { IsTrue D.tells → IsReadingOfLog reading.now (log_of (D.reads disk.old)) }
    ensures len { length table.new ≡ length table.old }
    ensures table { IfOk result (λ found. IfSome found (λ end. IsTrue D.tells → IsTable reading.now.page_size table.new (log_of (D.reads disk.old)) reading.now.frames)) }
    ensures end { IfOk result (λ found. IfSome found (λ end. IsTrue D.tells → end ≡ reach reading.now.page_size (logged reading.now.page_size (log_of (D.reads disk.old))))) }
    ensures whole { IfOk result (λ found. IsTrue D.tells → found ≢ None) }
    ensures only { IsTrue D.tells → OnlyRead D.reads D.images D.moment D.since disk.old disk.new }
    ensures cause { HasCause (D.faults disk.old) (D.faults disk.new) result }
{
    let mut end = 0;
    for k in 0..reading.frames {
        let Some(page) = page_of(disk, reading.page_size, k)? else {
            return Ok(None);
        };
        let page_end = note(table, reading.page_size, page, (k + 1) as u32);
        end = page_end.max(end);
    }
    Ok(Some(end))
}
