// Bytes of a file through its log.
ghost use Rattle.std.specs.Prelude.{◌≡◌, ◌≢◌, ◌+◌, ◌^◌, ◌<◌, ◌≤◌, ℕ, get_or, length, IfOk, IfSome, IsTrue, None};
ghost use Rattle.edge_model.specs.Causes.{HasCause};
ghost use Rattle.edge_model.specs.OnlyRead.{OnlyRead};
ghost use Rattle.log_view.specs.View.{IsHeldByLog, through};

use edge_model::{Disk, Failed, Role};
use log_recovery::read_full;

/// The number that the table has for a page, the first page being 0. There is none behind its end.
fn frame_of(table: &[u32], page: u64) -> u32
    ensures { result ≡ get_or table.now page 0 }
{
    if page < table.len() as u64 {
        table[page as usize]
    } else {
        0
    }
}

/// Fills the front of the buffer with the bytes from this place on, as far as its page goes. Answers how many, or none where the log
/// ends before them.
fn read_part<D: Disk>(
    disk: &mut D,
    page_size: u32,
    table: &[u32],
    at: u64,
    buffer: &mut [u8],
) -> Result<Option<usize>, Failed>
    requires size { (0 < page_size) × (page_size ≤ 65536) }
    requires some { 0 < length buffer.old }
    requires bound { at + length buffer.old < 2 ^ 64 }
    ensures count { IfOk result (λ read. IfSome read (λ count. (0 < count) × (count ≤ length buffer.old))) }
    ensures filled { IfOk result (λ read. IfSome read (λ count. IsTrue D.tells → (i : ℕ) → i < count
        → get_or buffer.new i 0 ≡ through page_size table.now (D.reads disk.old) (at + i))) }
    ensures whole { IfOk result (λ read. IsTrue D.tells → IsHeldByLog page_size table.now (D.reads disk.old) → read ≢ None) }
    ensures len { length buffer.new ≡ length buffer.old }
    ensures only { IsTrue D.tells → OnlyRead D.reads D.images D.moment D.since disk.old disk.new }
    ensures cause { HasCause (D.faults disk.old) (D.faults disk.new) result }
{
    let size = page_size as u64;
    let offset = at % size;
    let page = at / size;
    let count = (size - offset).min(buffer.len() as u64) as usize;
    let frame = frame_of(table, page);
    if frame == 0 {
        // Behind the end of Main, where no frame has a page either, the bytes are zeros.
        let _whole = read_full(disk, Role::Main, at, &mut buffer[..count])?;
        return Ok(Some(count));
    }
    let start = 32 + (frame as u64 - 1) * (size + 24);
    let whole = read_full(
        disk,
        Role::Journal,
        start + 24 + offset,
        &mut buffer[..count],
    )?;
    if !whole {
        return Ok(None);
    }
    Ok(Some(count))
}

/// Fills the buffer with the bytes from this place on. Answers whether they all were there: else the log was cut since it was indexed.
pub fn read_through<D: Disk>(
    disk: &mut D,
    page_size: u32,
    table: &[u32],
    at: u64,
    buffer: &mut [u8],
) -> Result<bool, Failed>
    requires size { (0 < page_size) × (page_size ≤ 65536) }
    requires bound { at + length buffer.old < 2 ^ 64 }
    ensures filled { IfOk result (λ whole. IsTrue whole → IsTrue D.tells → (i : ℕ) → i < length buffer.old
        → get_or buffer.new i 0 ≡ through page_size table.now (D.reads disk.old) (at + i)) }
    ensures whole { IfOk result (λ whole. IsTrue D.tells → IsHeldByLog page_size table.now (D.reads disk.old) → IsTrue whole) }
    ensures len { length buffer.new ≡ length buffer.old }
    ensures only { IsTrue D.tells → OnlyRead D.reads D.images D.moment D.since disk.old disk.new }
    ensures cause { HasCause (D.faults disk.old) (D.faults disk.new) result }
{
    let mut done = 0;
    while done < buffer.len() {
        let read = read_part(
            disk,
            page_size,
            table,
            at + done as u64,
            &mut buffer[done..],
        )?;
        match read {
            Some(count) => done += count,
            None => return Ok(false),
        }
    }
    Ok(true)
}
