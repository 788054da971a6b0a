// Cells, section 1.6.
ghost use Rattle.std.specs.Prelude.{◌≡◌, ◌≤◌, length, IfSome};
ghost use Rattle.std.specs.Option.{option_map};
ghost use Rattle.db_format.specs.Pages.{IsUsable};
ghost use Rattle.btree_page.specs.Cell.{cell_of, childed, keyed, payload_len, sized};
ghost use Rattle.btree_page.specs.Payload.{max_payload};
ghost use Rattle.btree_page.specs.Shown.{cell_shown};

use crate::Kind;
use crate::payload::{MAX_PAYLOAD, read_payload};
use db_format::{read_varint, u32_at};

/// A cell, with the local bytes of its payload borrowed from the page. `length` is that of the whole payload, in bytes, and
/// `first` the page in which the payload goes on, 0 where it is whole.
#[derive(Clone, Copy, Debug, PartialEq, Eq)]
pub enum Cell<'a> {
    /// A row.
    TableLeaf {
        rowid: i64,
        length: u64,
        local: &'a [u8],
        first: u32,
    },
    /// A child, and the key above its rowids.
    TableInterior {
        left: u32,
        key: i64,
    },
    /// An entry.
    IndexLeaf {
        length: u64,
        local: &'a [u8],
        first: u32,
    },
    /// A child, and the entry after its entries.
    IndexInterior {
        left: u32,
        length: u64,
        local: &'a [u8],
        first: u32,
    },
}

/// The cell at the start of these bytes, which go to the end of a page of this kind and usable size.
pub fn read_cell<'a>(kind: Kind, usable: usize, bytes: &'a [u8]) -> Option<Cell<'a>>
    requires { IsUsable usable }
    ensures read { option_map cell_shown result ≡ cell_of kind usable bytes.now }
    ensures limit { IfSome result (λ cell. payload_len (cell_shown cell) ≤ max_payload) }
{
    match kind {
        Kind::TableLeaf => {
            let (length, rest) = read_length(bytes)?;
            let (rowid, rest) = read_key(rest)?;
            let payload = read_payload(true, usable, length, rest)?;
            Some(Cell::TableLeaf {
                rowid,
                length,
                local: payload.local,
                first: payload.first,
            })
        }
        Kind::TableInterior => {
            let (left, rest) = read_child(bytes)?;
            let (key, _) = read_key(rest)?;
            Some(Cell::TableInterior { left, key })
        }
        Kind::IndexLeaf => {
            let (length, rest) = read_length(bytes)?;
            let payload = read_payload(false, usable, length, rest)?;
            Some(Cell::IndexLeaf {
                length,
                local: payload.local,
                first: payload.first,
            })
        }
        Kind::IndexInterior => {
            let (left, rest) = read_child(bytes)?;
            let (length, rest) = read_length(rest)?;
            let payload = read_payload(false, usable, length, rest)?;
            Some(Cell::IndexInterior {
                left,
                length,
                local: payload.local,
                first: payload.first,
            })
        }
    }
}

// The length of a payload, and what follows it.
fn read_length(bytes: &[u8]) -> Option<(u64, &[u8])>
    ensures read { option_map (λ found. (found.0, found.1.now)) result ≡ sized bytes.now }
    ensures limit { IfSome result (λ found. found.0 ≤ max_payload) }
{
    let (length, taken) = read_varint(bytes)?;
    if length > MAX_PAYLOAD {
        return None;
    }
    Some((length, &bytes[taken..]))
}

// A rowid or key, and what follows it.
fn read_key(bytes: &[u8]) -> Option<(i64, &[u8])>
    ensures { option_map (λ found. (found.0, found.1.now)) result ≡ keyed bytes.now }
{
    let (key, taken) = read_varint(bytes)?;
    Some((key.cast_signed(), &bytes[taken..]))
}

// The left child, and what follows it.
fn read_child(bytes: &[u8]) -> Option<(u32, &[u8])>
    ensures { option_map (λ found. (found.0, found.1.now)) result ≡ childed bytes.now }
{
    if bytes.len() < 4 {
        return None;
    }
    Some((u32_at(bytes, 0), &bytes[4..]))
}
