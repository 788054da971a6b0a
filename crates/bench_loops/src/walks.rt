// One table of a database file is walked again and again.
//
// `walk FILE PAGE ROOT TIMES`: the file, of pages of so many bytes without a reserve, is read into memory, and the
// tree with this root is walked so many times, with new marks each time. `walk FILE PAGE ROOT TIMES copy`: the
// pages' bytes are copied so many times in its place. Without words a small file is walked once. Prints how many entries
// were given, and a sum that rests on all of them.
ghost use Rattle.std.specs.Prelude.{◌≡◌, ◌≤◌, ◌<◌, ◌+◌, length, IfSome};
ghost use Rattle.db_format.specs.Source.{no_pins};
ghost use Rattle.btree_walk.specs.Cursor.{IsCursorReady};

use crate::words::{number, word_at};
use btree_walk::Cursor;
use db_format::{MemPages, PageSource, Seen};
use std::alloc::Global;
use std::{fs, io};

// Walks to the end, and adds up the lengths and first bytes of the payloads. `None` where the walk stopped before.
fn walk<S: PageSource>(cursor: &mut Cursor, source: &mut S, seen: &mut Seen) -> Option<u64>
where
    S::Refusal: Drop,
    requires { IsCursorReady (S.plain source.old).count (S.pins source.old) seen.old cursor.old }
    ensures pins { IfSome result (λ sum. S.pins source.new ≡ no_pins) }
    ensures reads { S.only_read source.old source.new }
{
    let mut sum = 0u64;
    for _ in 0..u64::MAX {
        match cursor.advance(source, seen) {
            Ok(true) => sum = sum.wrapping_add(weight(cursor.entry().payload)),
            Ok(false) => return Some(sum),
            Err(_) => return None,
        }
    }
    None
}

fn weight(payload: &[u8]) -> u64 {
    let first = match payload.first() {
        Some(byte) => *byte as u64,
        None => 0,
    };
    first.wrapping_add(payload.len() as u64)
}

// Walks the tree so many times. `None` where a walk stopped before its end.
fn walk_times<S: PageSource>(
    alloc: Global,
    source: &mut S,
    root: u32,
    times: u64,
) -> Option<(u64, u64)>
where
    S::Refusal: Drop,
    requires { S.pins source.old ≡ no_pins }
{
    let pages = source.pages();
    let mut total = (0u64, 0u64);
    if root == 0 || pages < root {
        return None;
    }
    for _ in 0..times {
        let Ok(mut seen) = Seen::new(alloc, pages) else {
            return None;
        };
        let Ok(mut cursor) = Cursor::new(alloc, root) else {
            return None;
        };
        let sum = walk(&mut cursor, source, &mut seen)?;
        total = (
            total.0.wrapping_add(cursor.given()),
            total.1.wrapping_add(sum),
        );
    }
    Some(total)
}

// Copies the pages so many times, and adds up a byte of each copy.
fn copy_times(alloc: Global, bytes: &[u8], times: u64) -> Option<(u64, u64)> {
    let mut sum = 0u64;
    for turn in 0..times {
        let copy = bytes.to_vec(alloc).ok()?;
        if let Some(byte) = copy.as_slice().get((turn % 4_096) as usize) {
            sum = sum.wrapping_add(*byte as u64);
        }
    }
    Some((times, sum))
}

/// Runs the loop by its words, and prints what it says.
pub fn run(rt: &HostRuntime, words: &Vec<String>) -> io::Result<()> {
    let path = word_at(words, 2, "small.db");
    let usable = number(words, 3, 512) as usize;
    let root = (number(words, 4, 2) % (1 << 32)) as u32;
    let times = number(words, 5, 1);
    let bytes = fs::read(rt, path)?;
    if usable < 480
        || 65_536 < usable
        || bytes.len() % usable != 0
        || u32::MAX as usize <= bytes.len() / usable
    {
        return Err(io::ErrorKind::InvalidInput.into());
    }
    let found = if words.len() > 6 {
        copy_times(rt.alloc(), bytes.as_slice(), times)
    } else {
        match MemPages::new(rt.alloc(), usable, bytes.as_slice()) {
            Ok(mut source) => walk_times(rt.alloc(), &mut source, root, times),
            Err(_) => None,
        }
    };
    match found {
        Some((count, sum)) => println!(rt; "{count} {sum}"),
        None => Err(io::ErrorKind::InvalidData.into()),
    }
}
