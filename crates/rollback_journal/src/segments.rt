// The segments of a hot journal, one after another.
ghost use Rattle.std.specs.Prelude.{MatchOption, ◌≡◌, ◌≢◌, [], ◌++◌, ◌+◌, ◌-◌, ◌*◌, ◌<◌, ◌≤◌, not, List, Option, false, true, length, IsTrue, IfOk, OnOk, IfSome, Some, None, if◌then◌else◌};
ghost use Rattle.edge_model.specs.Causes.{HasCause};
ghost use Rattle.edge_model.specs.Images.{Each, From, LeavesOnly};
ghost use Rattle.journal_format.specs.Records.{Place};
ghost use Rattle.journal_format.specs.Segments.{played, places_of, rounded_up};
ghost use Rattle.rollback_journal.specs.Laying.{laid};
ghost use Rattle.rollback_journal.specs.Recovery.{KeepsRecovered};
ghost use Rattle.rollback_journal.specs.Playing.{journal_of, IsInPlay, pending, places_at, AreAmong, GoesOn, is_whole, todo_at, IsSegmentAt, IsJournalReading, IsReadingOf};
ghost use Rattle.edge_model.specs.Files.{main_of};

use crate::playback::{Step, read_full, take_record};
use edge_model::{Disk, Failed, Role};
use journal_format::read_header;

/// The numbers of a hot journal by which it is played: the first header's, and its length.
#[derive(Clone, Copy)]
pub struct Reading {
    /// The length of a page, in bytes.
    pub page_size: u32,
    /// The size of the database at the start of the transaction, in pages.
    pub initial: u32,
    /// The sector size, in bytes.
    pub sector: u32,
    /// The journal's length, in bytes.
    pub len: u64,
}

/// The records that a header announces, as far as the file holds them.
#[derive(Clone, Copy)]
pub struct Segment {
    /// The offset of the first record, in bytes.
    pub first: u64,
    /// What the checksums begin with.
    pub nonce: u32,
    /// How many whole records there are.
    pub count: u64,
    /// No segment comes after it: the count is ffffffff, or the file ends within the segment.
    pub last: bool,
}

/// The segment with this many records by its header, where so many whole ones fit the file.
fn segment_of(first: u64, nonce: u32, count: u32, fits: u64) -> Segment
    ensures first { result.first ≡ first }
    ensures nonce { result.nonce ≡ nonce }
    ensures count { result.count ≡ (if is_whole count fits then count else fits) }
    ensures last { result.last ≡ not (is_whole count fits) }
{
    let whole = count != 0xffff_ffff && count as u64 <= fits;
    let last = !whole;
    if whole {
        Segment {
            first,
            nonce,
            count: count as u64,
            last,
        }
    } else {
        Segment {
            first,
            nonce,
            count: fits,
            last,
        }
    }
}

/// The segment whose header is at an offset. None where there is no header, or the file ends before its first record.
fn read_segment<D: Disk>(
    disk: &mut D,
    reading: &Reading,
    at: u64,
) -> Result<Option<Segment>, Failed>
    requires reading { IsJournalReading reading.now }
    requires within { at ≤ reading.now.len }
    requires there { IsTrue D.tells → (D.reads disk.old).journal ≢ None }
    requires read { IsTrue D.tells → IsReadingOf reading.now (journal_of (D.reads disk.old)) }
    ensures segment { IfOk result (λ found. IsTrue D.tells →
        IsSegmentAt reading.now.page_size (journal_of (D.reads disk.old)) at found) }
    ensures bounds { IfOk result (λ found. IfSome found (λ s.
        (at < s.first) × (s.first + s.count * (reading.now.page_size + 8) ≤ reading.now.len))) }
    ensures same { IsTrue D.tells → D.reads disk.new ≡ D.reads disk.old }
    ensures crash { IsTrue D.tells → Each (D.images disk.new) (D.images disk.old) }
    ensures any_moment { IsTrue D.tells → LeavesOnly D.moment D.since disk.old disk.new (D.images disk.old) }
    ensures cause { HasCause (D.faults disk.old) (D.faults disk.new) result }
{
    let room = reading.len - at;
    let sector = reading.sector as u64;
    if room < 28 {
        return Ok(None);
    }
    let mut head = [0; 28];
    read_full(disk, Role::Journal, at, &mut head)?;
    let Some(header) = read_header(&head) else {
        return Ok(None);
    };
    if room < sector {
        return Ok(None);
    }
    let fits = (room - sector) / (reading.page_size as u64 + 8);
    Ok(Some(segment_of(at + sector, header.nonce, header.count, fits)))
}

/// Plays the records of a segment, and counts those that are laid. Says whether all of them were good.
fn play_records<D: Disk>(
    disk: &mut D,
    reading: &Reading,
    segment: &Segment,
    count: &mut u64,
    buffer: &mut [u8],
) -> Result<bool, Failed>
    requires reading { IsJournalReading reading.now }
    requires buffer { length buffer.old ≡ reading.now.page_size + 8 }
    requires bounds { segment.now.first + segment.now.count * (reading.now.page_size + 8) ≤ reading.now.len }
    requires counts { count.old ≤ segment.now.first }
    requires in_play { IsTrue D.tells → Each (D.images disk.old) (IsInPlay reading.now.page_size (D.reads disk.old)) }
    requires there { IsTrue D.tells → (D.reads disk.old).journal ≢ None }
    requires read { IsTrue D.tells → IsReadingOf reading.now (journal_of (D.reads disk.old)) }
    requires among { IsTrue D.tells → (rest : List Place)
        × AreAmong reading.now.page_size
        (pending reading.now.page_size (journal_of (D.reads disk.old))
        (places_of segment.now.count reading.now.page_size segment.now.nonce segment.now.first ++ rest))
        (played reading.now.page_size (journal_of (D.reads disk.old))) }
    ensures goes_on { IfOk result (λ all. IsTrue D.tells → (rest : List Place) →
        GoesOn reading.now.page_size
        (pending reading.now.page_size (journal_of (D.reads disk.old))
        (places_of segment.now.count reading.now.page_size segment.now.nonce segment.now.first ++ rest))
        (if all then pending reading.now.page_size (journal_of (D.reads disk.old)) rest else [])
        count.old count.new (main_of (D.reads disk.old)) (main_of (D.reads disk.new))) }
    ensures counts { OnOk result (count.new ≤ segment.now.first + segment.now.count * (reading.now.page_size + 8)) }
    ensures buffer { length buffer.new ≡ length buffer.old }
    ensures journal { OnOk result (IsTrue D.tells → (D.reads disk.new).journal ≡ (D.reads disk.old).journal) }
    ensures in_play { OnOk result (IsTrue D.tells →
        Each (D.images disk.new) (IsInPlay reading.now.page_size (D.reads disk.new))) }
    ensures any_moment { IsTrue D.tells →
        LeavesOnly D.moment D.since disk.old disk.new (From (KeepsRecovered reading.now.page_size) (D.images disk.old)) }
    ensures cause { HasCause (D.faults disk.old) (D.faults disk.new) result }
{
    let step = reading.page_size as u64 + 8;
    let mut at = segment.first;
    for _i in 0..segment.count {
        match take_record(
            disk,
            reading.page_size,
            reading.initial,
            at,
            segment.nonce,
            buffer,
        )? {
            Step::End => return Ok(false),
            Step::Passed => {}
            Step::Laid => *count += 1,
        }
        at += step;
    }
    Ok(true)
}

/// The next multiple of the sector size, where it is not past the end.
fn next_boundary(sector: u32, len: u64, end: u64) -> Option<u64>
    requires { (0 < sector) × (end ≤ len) }
    ensures { MatchOption result (len < rounded_up sector end)
        (λ next. (next ≡ rounded_up sector end) × (end ≤ next) × (next ≤ len)) }
{
    let unit = sector as u64;
    let pad = (unit - end % unit) % unit;
    if pad > len - end {
        return None;
    }
    Some(end + pad)
}

/// Plays the segment at an offset, and counts the records laid. Gives the offset of the next header, or none at the end of
/// the playback.
fn play_segment<D: Disk>(
    disk: &mut D,
    reading: &Reading,
    at: u64,
    count: &mut u64,
    buffer: &mut [u8],
) -> Result<Option<u64>, Failed>
    requires reading { IsJournalReading reading.now }
    requires buffer { length buffer.old ≡ reading.now.page_size + 8 }
    requires within { at ≤ reading.now.len }
    requires counts { count.old ≤ at }
    requires in_play { IsTrue D.tells → Each (D.images disk.old) (IsInPlay reading.now.page_size (D.reads disk.old)) }
    requires there { IsTrue D.tells → (D.reads disk.old).journal ≢ None }
    requires read { IsTrue D.tells → IsReadingOf reading.now (journal_of (D.reads disk.old)) }
    requires among { IsTrue D.tells → AreAmong reading.now.page_size
        (pending reading.now.page_size (journal_of (D.reads disk.old))
        (places_at reading.now.page_size (journal_of (D.reads disk.old)) at))
        (played reading.now.page_size (journal_of (D.reads disk.old))) }
    ensures goes_on { IfOk result (λ next. IsTrue D.tells →
        GoesOn reading.now.page_size
        (pending reading.now.page_size (journal_of (D.reads disk.old))
        (places_at reading.now.page_size (journal_of (D.reads disk.old)) at))
        (todo_at reading.now.page_size (journal_of (D.reads disk.old)) next)
        count.old count.new (main_of (D.reads disk.old)) (main_of (D.reads disk.new))) }
    ensures bounds { IfOk result (λ next. IfSome next (λ n. (at < n) × (n ≤ reading.now.len) × (count.new ≤ n))) }
    ensures buffer { length buffer.new ≡ length buffer.old }
    ensures journal { OnOk result (IsTrue D.tells → (D.reads disk.new).journal ≡ (D.reads disk.old).journal) }
    ensures in_play { OnOk result (IsTrue D.tells →
        Each (D.images disk.new) (IsInPlay reading.now.page_size (D.reads disk.new))) }
    ensures any_moment { IsTrue D.tells →
        LeavesOnly D.moment D.since disk.old disk.new (From (KeepsRecovered reading.now.page_size) (D.images disk.old)) }
    ensures cause { HasCause (D.faults disk.old) (D.faults disk.new) result }
{
    let Some(segment) = read_segment(disk, reading, at)? else {
        return Ok(None);
    };
    let all = play_records(disk, reading, &segment, count, buffer)?;
    if !all {
        return Ok(None);
    }
    if segment.last {
        return Ok(None);
    }
    Ok(next_boundary(
        reading.sector,
        reading.len,
        segment.first + segment.count * (reading.page_size as u64 + 8),
    ))
}

/// Plays the whole journal, and counts the records laid. Main is neither cut nor synced. The buffer is a page and 8 bytes
/// long, and no memory is taken.
pub fn play<D: Disk>(disk: &mut D, reading: &Reading, buffer: &mut [u8]) -> Result<u64, Failed>
    requires reading { IsJournalReading reading.now }
    requires buffer { length buffer.old ≡ reading.now.page_size + 8 }
    requires in_play { IsTrue D.tells → Each (D.images disk.old) (IsInPlay reading.now.page_size (D.reads disk.old)) }
    requires there { IsTrue D.tells → (D.reads disk.old).journal ≢ None }
    requires read { IsTrue D.tells → IsReadingOf reading.now (journal_of (D.reads disk.old)) }
    ensures laid { OnOk result (IsTrue D.tells → main_of (D.reads disk.new)
        ≡ laid reading.now.page_size (played reading.now.page_size (journal_of (D.reads disk.old))) (main_of (D.reads disk.old))) }
    ensures counted { IfOk result (λ records. IsTrue D.tells →
        records ≡ length (played reading.now.page_size (journal_of (D.reads disk.old)))) }
    ensures journal { OnOk result (IsTrue D.tells → (D.reads disk.new).journal ≡ (D.reads disk.old).journal) }
    ensures in_play { OnOk result (IsTrue D.tells →
        Each (D.images disk.new) (IsInPlay reading.now.page_size (D.reads disk.new))) }
    ensures any_moment { IsTrue D.tells →
        LeavesOnly D.moment D.since disk.old disk.new (From (KeepsRecovered reading.now.page_size) (D.images disk.old)) }
    ensures cause { HasCause (D.faults disk.old) (D.faults disk.new) result }
{
    let mut at = 0;
    let mut count = 0;
    while let Some(next) = play_segment(disk, reading, at, &mut count, buffer)? {
        at = next;
    }
    Ok(count)
}
