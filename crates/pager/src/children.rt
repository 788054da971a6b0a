// Which pages an interior page of a b-tree names behind one of its children: a guess at the pages that are asked for next.
ghost use Rattle.std.specs.Prelude.{◌≤◌, ◌+◌, length};

use crate::window::Wanted;
use number_fields::{u16_at, u32_at};

// The first bytes of an interior page, of an index and of a table (Database File Format, section 1.6).
const INDEX: u8 = 2;

const TABLE: u8 = 5;

/// Page n and the children that stand behind it in this page, if it is an interior page that names n; at most eight. The page is page
/// `parent` of the file, and its bytes need not be sound.
pub(crate) fn siblings(page: &[u8], parent: u32, n: u32) -> Wanted {
    let head = if parent == 1 { 100 } else { 0 };
    let mut wanted = Wanted::none();
    if page.len() < head + 12 || page[head] != INDEX && page[head] != TABLE {
        return wanted;
    }
    let cells = u16_at(page, head + 3) as usize;
    'children: for i in 0..cells + 1 {
        let Some(child) = child_at(page, head, cells, i) else {
            return wanted;
        };
        if child == n || wanted.count > 0 {
            wanted = wanted.with(child);
        }
    }
    wanted
}

// Child i of so many cells, or the last one, which stands behind them, where it is within the page.
fn child_at(page: &[u8], head: usize, cells: usize, i: usize) -> Option<u32>
    requires head { (head ≤ 100) × (head + 12 ≤ length page.now) }
    requires most { i ≤ 65536 }
{
    if i >= cells {
        return Some(u32_at(page, head + 8));
    }
    let pointer = head + 12 + 2 * i;
    if pointer + 2 > page.len() {
        return None;
    }
    let cell = u16_at(page, pointer) as usize;
    if cell + 4 > page.len() {
        return None;
    }
    Some(u32_at(page, cell))
}
