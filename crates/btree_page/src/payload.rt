// Payloads, and how much of them stays in their cells, section 1.6.
ghost use Rattle.std.specs.Prelude.{◌≡◌, ◌≤◌, ◌+◌, ◌-◌, length};
ghost use Rattle.std.specs.Option.{option_map};
ghost use Rattle.db_format.specs.Pages.{IsUsable};
ghost use Rattle.btree_page.specs.Cell.{stored_of};
ghost use Rattle.btree_page.specs.Shown.{payload_shown};
ghost use Rattle.btree_page.specs.Payload.{family_if, least_local, local_len, max_payload, most_local};

use db_format::u32_at;

/// The longest payload that is read, in bytes.
pub const MAX_PAYLOAD: u64 = 1 << 30;

/// How many bytes of a payload of this length, in bytes, stay in its cell, on a page of a table or else of an index, and of
/// this usable size. The others go to overflow pages.
pub fn local_len(table: bool, usable: usize, length: u64) -> usize
    requires { IsUsable usable }
    ensures value { result ≡ local_len (family_if table) usable length }
    ensures some { result ≤ length }
    ensures most { result ≤ most_local (family_if table) usable }
{
    let most = most_local(table, usable);
    if length <= most as u64 {
        return length as usize;
    }
    let least = (usable - 12) * 32 / 255 - 23;
    let fitted = least + ((length - least as u64) % (usable as u64 - 4)) as usize;
    if fitted <= most { fitted } else { least }
}

// The longest payload that stays whole in its cell.
fn most_local(table: bool, usable: usize) -> usize
    requires { IsUsable usable }
    ensures value { result ≡ most_local (family_if table) usable }
    ensures least { least_local usable ≤ result }
    ensures most { result + 35 ≤ usable }
{
    if table {
        usable - 35
    } else {
        (usable - 12) * 64 / 255 - 23
    }
}

/// A payload as its cell has it.
#[derive(Clone, Copy)]
pub struct Payload<'a> {
    pub length: u64,
    pub local: &'a [u8],
    pub first: u32,
}

/// The payload of this length whose local bytes are the first of these.
pub fn read_payload<'a>(
    table: bool,
    usable: usize,
    length: u64,
    bytes: &'a [u8],
) -> Option<Payload<'a>>
    requires { IsUsable usable }
    ensures { option_map payload_shown result ≡ stored_of (family_if table) usable length bytes.now }
{
    let local = local_len(table, usable, length);
    if length <= local as u64 {
        if bytes.len() < local {
            return None;
        }
        return Some(Payload {
            length,
            local: &bytes[..local],
            first: 0,
        });
    }
    if bytes.len() < local + 4 {
        return None;
    }
    Some(Payload {
        length,
        local: &bytes[..local],
        first: u32_at(bytes, local),
    })
}
