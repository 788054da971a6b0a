// A loaded tree, walked to its end.
ghost use Rattle.db_format.specs.Source.{no_pins};
ghost use Rattle.btree_walk.specs.Cursor.{IsCursorReady};

use btree_walk::Cursor;
use db_format::{MemPages, PageSource, Seen};
use std::alloc::Global;

/// How many entries the tree with this root has, and how many bytes those have. `None` where a walk does not get to its end.
pub fn read_back(alloc: Global, usable: usize, plain: &[u8], root: u32) -> Option<(u64, u64)> {
    if usable < 480
        || 65_536 < usable
        || plain.len() % usable != 0
        || u32::MAX as usize <= plain.len() / usable
    {
        return None;
    }
    let Ok(mut source) = MemPages::new(alloc, usable, plain) else {
        return None;
    };
    let pages = source.pages();
    if root == 0 || pages < root {
        return None;
    }
    let Ok(mut seen) = Seen::new(alloc, pages) else {
        return None;
    };
    let Ok(mut cursor) = Cursor::new(alloc, root) else {
        return None;
    };
    add_up(&mut cursor, &mut source, &mut seen)
}

fn add_up<S: PageSource>(cursor: &mut Cursor, source: &mut S, seen: &mut Seen) -> Option<(u64, u64)>
where
    S::Refusal: Drop,
    requires { IsCursorReady (S.plain source.old).count (S.pins source.old) seen.old cursor.old }
{
    let mut bytes = 0u64;
    for _ in 0..u64::MAX {
        match cursor.advance(source, seen) {
            Ok(true) => bytes = bytes.wrapping_add(cursor.entry().payload.len() as u64),
            Ok(false) => return Some((cursor.given(), bytes)),
            Err(_) => return None,
        }
    }
    None
}
