// How far a salvage is.
ghost use Rattle.std.specs.Prelude.{◌≡◌, ◌≤◌, ◌+◌, [], length, IfOk, OnOk, IfErr};
ghost use Rattle.salvage_scan.specs.Salvage.{no_counts};
ghost use Rattle.salvage_scan.specs.Text.{counts_shown};

use crate::error::SalvageError;
use crate::room::Rooms;
use db_format::OutOfMemory;
use row_text::LineOut;
use std::alloc::Global;

/// How much was salvaged.
#[derive(Clone, Copy, Debug, PartialEq, Eq)]
pub struct Salvaged {
    /// Rows that were put.
    pub rows: u64,
    /// Rows whose payload is not whole, or is no record.
    pub lost: u64,
    /// Pages that are not accepted.
    pub refused: u64,
}

/// Room for two pages, for those that are read ahead and for a payload, the lines that wait, and the counts so far, of a file of so many whole pages.
#[derive(Drop)]
pub(crate) struct Scan {
    pub pages: u32,
    pub rooms: Rooms,
    pub payload: Vec<u8>,
    pub line: LineOut,
    pub counts: Salvaged,
}

impl Scan {
    /// Nothing is read and nothing put, of a file of so many whole pages of this size.
    pub(crate) fn new(alloc: Global, size: u32, pages: u32) -> Result<Scan, OutOfMemory>
        requires { 1 ≤ size }
        ensures even { IfOk result (λ scan. (length scan.rooms.even.bytes.items ≡ size) × (scan.rooms.even.number ≡ 0)) }
        ensures odd { IfOk result (λ scan. (length scan.rooms.odd.bytes.items ≡ size) × (scan.rooms.odd.number ≡ 0)) }
        ensures ahead { IfOk result (λ scan. (scan.rooms.ahead.window.count ≡ 0) × (scan.rooms.ahead.last ≡ pages)) }
        ensures pages { IfOk result (λ scan. scan.pages ≡ pages) }
        ensures nothing { IfOk result (λ scan. scan.line ≡ []) }
        ensures none { IfOk result (λ scan. counts_shown scan.counts ≡ no_counts) }
    {
        let rooms = Rooms::new(alloc, size, pages)?;
        let line = LineOut::new(alloc)?;
        Ok(Scan {
            pages,
            rooms,
            payload: Vec::new(alloc),
            line,
            counts: Salvaged {
                rows: 0,
                lost: 0,
                refused: 0,
            },
        })
    }
}

/// Counts one more. No clause says that a count has an end.
pub(crate) fn count_one(count: &mut u64) -> Result<(), SalvageError>
    ensures counted { OnOk result (count.new ≡ count.old + 1) }
    ensures memory { IfErr result (λ error. error ≡ SalvageError.OutOfMemory) }
{
    match count.checked_add(1) {
        None => Err(SalvageError::OutOfMemory),
        Some(more) => {
            *count = more;
            Ok(())
        }
    }
}
