// The steps of a walk, section 1.6.
ghost use Rattle.std.specs.Prelude.{◌≡◌, ◌≤◌, ◌<◌, ◌+◌, ◌*◌, ◌^◌, ◌==◌, length, slice_get, Some, None, Ok, IsSome, IfOk, IsOkAnd, if◌then◌else◌};
ghost use Rattle.db_format.specs.Bytes.{u32_at};
ghost use Rattle.db_format.specs.Pages.{IsUsable};
ghost use Rattle.btree_page.specs.Page.{Node, read_page};
ghost use Rattle.btree_page.specs.Shown.{cell_shown, step_shown};
ghost use Rattle.btree_page.specs.Step.{cell_index, cell_step, child, entry_len, is_second, steps};
ghost use Rattle.btree_page.specs.Cell.{payload_len};
ghost use Rattle.btree_page.specs.Payload.{max_payload};

use crate::array::{CellArray, read_array};
use crate::{Cell, PageFault};

/// What a page of a tree leads to next.
#[derive(Clone, Copy, Debug, PartialEq, Eq)]
pub enum Step<'a> {
    /// The page below.
    Child(u32),
    /// The key between two children of a table's page.
    Key(i64),
    /// An entry of the tree, its rowid in a table. The rest is as in a cell.
    Entry {
        rowid: Option<i64>,
        length: u64,
        local: &'a [u8],
        first: u32,
    },
    /// Nothing: the page ends.
    End,
}

/// The step with this index, from 0, of page n with these bytes. Of the cells only its own is tested, so a page that was
/// read whole is walked in linear time. A page that was not may be refused at any step.
pub fn read_step<'a>(plain: &'a [u8], n: u32, index: u32) -> Result<Step<'a>, PageFault>
    requires { IsUsable (length plain.now) }
    ensures step { (page : Node) → read_page n plain.now ≡ Ok page
        → IsOkAnd result (λ step. slice_get (steps page.cells page.right) index ≡ step_shown step) }
    ensures limit { IfOk result (λ step. entry_len (step_shown step) ≤ max_payload) }
    ensures few { IfOk result (λ step. IsSome (step_shown step) → index < 2 ^ 20) }
{
    let array = read_array(plain, n)?;
    let interior = array.kind().is_interior();
    let at = cell_index(interior, index);
    if at < array.count() {
        return match array.cell(at) {
            Some(cell) => Ok(cell_step(cell, is_second(interior, index))),
            None => Err(PageFault::BadCell { index: at }),
        };
    }
    if interior {
        return Ok(last_step(&array, index));
    }
    Ok(Step::End)
}

// The cell of the step with this index.
fn cell_index(interior: bool, index: u32) -> u32
    ensures { result ≡ cell_index interior index }
{
    if interior { index / 2 } else { index }
}

// Whether the step with this index is the second of its cell.
fn is_second(interior: bool, index: u32) -> bool
    ensures { result ≡ is_second interior index }
{
    interior && index % 2 == 1
}

// What an interior page leads to behind its cells: its right child, then nothing.
fn last_step<'a>(array: &CellArray<'a>, index: u32) -> Step<'a>
    ensures { step_shown result
        ≡ (if index == 2 * array.now.count then Some (child (u32_at array.now.bytes.now (array.now.header + 8))) else None) }
{
    if index as u64 == 2 * array.count() as u64 {
        Step::Child(array.right())
    } else {
        Step::End
    }
}

// The step of a cell: of an interior page's the child comes first.
fn cell_step<'a>(cell: Cell<'a>, second: bool) -> Step<'a>
    ensures step { step_shown result ≡ Some (cell_step (cell_shown cell.entry) second) }
    ensures len { entry_len (step_shown result) ≤ payload_len (cell_shown cell.entry) }
{
    match cell {
        Cell::TableLeaf {
            rowid,
            length,
            local,
            first,
        } => Step::Entry {
            rowid: Some(rowid),
            length,
            local,
            first,
        },
        Cell::IndexLeaf {
            length,
            local,
            first,
        } => Step::Entry {
            rowid: None,
            length,
            local,
            first,
        },
        Cell::TableInterior { left, key } => {
            if second {
                Step::Key(key)
            } else {
                Step::Child(left)
            }
        }
        Cell::IndexInterior {
            left,
            length,
            local,
            first,
        } => {
            if second {
                Step::Entry {
                    rowid: None,
                    length,
                    local,
                    first,
                }
            } else {
                Step::Child(left)
            }
        }
    }
}
