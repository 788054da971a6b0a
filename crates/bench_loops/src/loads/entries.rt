// The entries that are loaded.
ghost use Rattle.std.specs.Prelude.{◌≡◌, ◌+◌, ◌≤◌, length};
ghost use Rattle.btree_page.specs.Payload.{max_payload};

use btree_page::Family;
use db_format::{LONGEST_PAYLOAD, RowPieces, Value, write_row};
use std::alloc::Global;

// The text of the first entry, without what fills it up.
const FIRST: [u8; 13] = *b"row 100000000";

/// An entry: the record of a number and of a text that has the same number in nine digits. In an index the text is first.
#[derive(Drop)]
pub struct Entry {
    /// The record.
    pub record: Vec<u8>,
    // where the four bytes of the number begin
    number: usize,
    // where its digits begin
    digits: usize,
    ghost short: { length record.items ≤ max_payload },
    ghost number_inside: { number + 4 ≤ length record.items },
    ghost digits_inside: { digits + 9 ≤ length record.items },
}

impl Entry {
    /// The first one, with a text of so many bytes. `None` where those are fewer than 13, or memory ran out.
    pub fn first(alloc: Global, family: Family, text: usize) -> Option<Entry> {
        let record = first_record(alloc, family, text)?;
        let end = record.len().checked_sub(text)?;
        if text < FIRST.len() || end < 4 || LONGEST_PAYLOAD < record.len() as u64 {
            return None;
        }
        let (number, digits) = match family {
            Family::Table => (end - 4, end + 4),
            Family::Index => (record.len() - 4, end),
        };
        Some(Entry {
            record,
            number,
            digits,
        })
    }

    /// Makes it the next one.
    pub fn count_up(&mut self) {
        count_up(&mut self.record, self.number, 4, 0, 255);
        count_up(&mut self.record, self.digits, 9, b'0', b'9');
    }
}

// The record of the first entry.
fn first_record(alloc: Global, family: Family, length: usize) -> Option<Vec<u8>> {
    let mut text = vec![in alloc; b'x'; length].ok()?;
    for (place, byte) in text.iter_mut().zip(FIRST.iter()) {
        *place = *byte;
    }
    let number = Value::Int(100_000_000);
    let mut pieces = RowPieces::new(alloc);
    match family {
        Family::Table => {
            pieces.push(&number).ok()?;
            pieces.push(&Value::Text(&text)).ok()?;
        }
        Family::Index => {
            pieces.push(&Value::Text(&text)).ok()?;
            pieces.push(&number).ok()?;
        }
    }
    write_row(alloc, &pieces).ok()
}

// Counts up the number whose digits stand from here on, each from `least` to `most`.
fn count_up(bytes: &mut Vec<u8>, from: usize, digits: usize, least: u8, most: u8)
    requires { from + digits ≤ length bytes.old.items }
    ensures { length bytes.new.items ≡ length bytes.old.items }
{
    for digit in (0..digits).rev() {
        let at = from + digit;
        if bytes[at] < most {
            bytes[at] += 1;
            return;
        }
        bytes[at] = least;
    }
}
