// A record: a page as it was before the transaction.
//
// | offset   | length | field                                 |
// | 0        | 4      | the page's number, from 1             |
// | 4        | S      | the page's bytes, as they were stored |
// | 4 + S    | 4      | checksum                              |
//
// S is the page size. The checksum is the nonce of the segment and every 200th byte of the page, counted from its end.
ghost use Rattle.std.specs.Prelude.{◌≡◌, ◌+◌, ◌≤◌, IfSome, MatchOption, false, length, true};
ghost use Rattle.journal_format.specs.Records.{image_of, is_sound_record, page_of, journal_record_bytes, sum_of};

use number_fields::{u32_at, u32_bytes};

/// The checksum of a page's bytes.
pub fn checksum(nonce: u32, image: &[u8]) -> u32
    ensures { result ≡ sum_of nonce image.now }
{
    let len = image.len();
    let mut sum = nonce;
    if len == 0 {
        return sum;
    }
    for k in 0..(len - 1) / 200 {
        let byte = image[len - 200 * (k + 1)] as u32;
        sum = sum.wrapping_add(byte);
    }
    sum
}

/// The page's number of a record of a segment with this nonce. None where the number is 0 or the checksum differs.
pub fn record_page(nonce: u32, bytes: &[u8]) -> Option<u32>
    requires { 8 ≤ length bytes.now }
    ensures sound { MatchOption result (is_sound_record nonce bytes.now ≡ false) (λ page. (is_sound_record nonce bytes.now ≡ true) × (page ≡ page_of bytes.now)) }
    ensures numbered { IfSome result (λ page. 1 ≤ page) }
{
    let page = u32_at(bytes, 0);
    let sum = u32_at(bytes, bytes.len() - 4);
    let image = &bytes[4..bytes.len() - 4];
    if page == 0 {
        return None;
    }
    if sum == checksum(nonce, image) {
        Some(page)
    } else {
        None
    }
}

/// Writes the record of page `n`, numbered from 1, for a segment with this nonce.
pub fn write_record(nonce: u32, n: u32, image: &[u8], out: &mut [u8])
    requires { (1 ≤ n) × (length out.old ≡ length image.now + 8) }
    ensures bytes { out.new ≡ journal_record_bytes nonce n image.now }
    ensures reads_back { (is_sound_record nonce out.new ≡ true) × (page_of out.new ≡ n) × (image_of out.new ≡ image.now) }
{
    let (number, rest) = out.split_at_mut(4);
    let (page, sum) = rest.split_at_mut(image.len());
    number.copy_from_slice(&u32_bytes(n));
    page.copy_from_slice(image);
    sum.copy_from_slice(&u32_bytes(checksum(nonce, image)));
}
