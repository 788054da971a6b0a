// A frame: a page as a transaction left it.
//
// | offset | length | field                                                                    |
// | 0      | 4      | the page's number, from 1                                                |
// | 4      | 4      | the database's size in pages, in the last frame of a commit; 0 elsewhere |
// | 8      | 8      | the salts of the log's header                                            |
// | 16     | 8      | checksum                                                                 |
// | 24     | S      | the page's bytes, as they are to be stored                               |
//
// S is the page size. The checksum goes on from that of the frame before, or of the header, over the first 8 bytes and the page's.
ghost use Rattle.std.specs.Prelude.{◌≡◌, ◌≤◌, IfSome, MatchOption, false, length, true};
ghost use Rattle.log_format.specs.Frames.{frame_sum, frame_page, frame_pages, has_salts, is_sound_frame};

use crate::header::{LogHeader, stores_sum};
use crate::sum::{LogSum, checksum};
use number_fields::u32_at;

/// What a sound frame says.
#[derive(Clone, Copy, Debug, PartialEq, Eq)]
pub struct LogFrame {
    /// The page's number.
    pub page: u32,
    /// The database's size in pages after the commit that it ends, or 0.
    pub pages: u32,
    /// Its checksum, with which that of the next one begins.
    pub sum: LogSum,
}

/// Whether a frame repeats the salts of the log's header.
fn has_salts(header: &LogHeader, bytes: &[u8]) -> bool
    requires { 24 ≤ length bytes.now }
    ensures { result ≡ has_salts header.now bytes.now }
{
    u32_at(bytes, 8) == header.salt && u32_at(bytes, 12) == header.other_salt
}

/// The checksum behind a frame, from the one before it.
fn sum_frame(is_big: bool, before: LogSum, bytes: &[u8]) -> LogSum
    requires { 24 ≤ length bytes.now }
    ensures { result ≡ frame_sum is_big before bytes.now }
{
    let head = checksum(is_big, before, &bytes[..8]);
    checksum(is_big, head, &bytes[24..])
}

/// What a frame says, by the checksum before it. None where its salts are others, its page has number 0 or its checksum does not
/// hold: the log ends before such a frame.
pub fn read_log_frame(header: &LogHeader, before: LogSum, bytes: &[u8]) -> Option<LogFrame>
    requires { 24 ≤ length bytes.now }
    ensures sound { MatchOption result (is_sound_frame header.now before bytes.now ≡ false) (λ frame. (is_sound_frame header.now before bytes.now ≡ true)
        × (frame.page ≡ frame_page bytes.now) × (frame.pages ≡ frame_pages bytes.now) × (frame.sum ≡ frame_sum header.now.is_big before bytes.now)) }
    ensures numbered { IfSome result (λ frame. 1 ≤ frame.page) }
{
    let page = u32_at(bytes, 0);
    if !has_salts(header, bytes) {
        return None;
    }
    if page == 0 {
        return None;
    }
    let sum = sum_frame(header.is_big, before, bytes);
    if stores_sum(bytes, 16, &sum) {
        Some(LogFrame {
            page,
            pages: u32_at(bytes, 4),
            sum,
        })
    } else {
        None
    }
}
