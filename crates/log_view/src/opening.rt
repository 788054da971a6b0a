// The look at a pair of files, before it is read.
ghost use Rattle.std.specs.Prelude.{◌≡◌, ◌⊎◌, ◌+◌, ◌^◌, ◌<◌, ◌≤◌, ℕ, [], length, IsTrue, IfErr, IfOk, IsErr, OnOk, Err, get_or};
ghost use Rattle.edge_model.specs.Causes.{HasCause, Rose};
ghost use Rattle.edge_model.specs.Files.{length_of};
ghost use Rattle.edge_model.specs.Images.{Each, LeavesOnly};
ghost use Rattle.edge_model.specs.OnlyRead.{OnlyRead};
ghost use Rattle.log_recovery.specs.Finding.{IsLogFound, IsLogRefusable};
ghost use Rattle.log_recovery.specs.Laying.{log_of, IsLogReading, IsReadingOfLog, IsTaken};
ghost use Rattle.log_view.specs.Refused.{IsIndexRefused, IsTableRefused, IsViewRefused, IsViewTaken};
ghost use Rattle.log_view.specs.View.{IsHeldByLog, IsIndexed, ReachesEnd, viewed};
ghost use Rattle.log_view.specs.declared.opening.ViewError.TheVariants.{DiskFault};

use crate::indexing::index_frames;
use edge_model::{Disk, Failed, Role};
use log_recovery::{LogError, LogFound, LogReading, look};
use std::alloc::Global;
use thiserror::Error;

/// Why a file is not read through its log. Nothing is changed then either.
#[derive(Clone, Copy, Debug, PartialEq, Eq, Error)]
pub enum ViewError {
    /// The log is one that would not be laid.
    #[error("{0}")]
    Log(LogError),
    /// The database has more pages than a table is made for.
    #[error("the log's database has {pages} pages")]
    TooLarge { pages: u32 },
    /// The log has 2^32 frames or more.
    #[error("the log has {frames} frames")]
    TooLong { frames: u64 },
    /// The database has so many pages by the log's last commit, and neither Main nor a page of the log reaches its end.
    #[error("the log's database has {pages} pages, and the last are missing")]
    Short { pages: u32 },
    /// The log was cut by somebody else while it was looked at.
    #[error("the log was cut")]
    LogCut,
    /// The disk failed.
    #[error("the disk failed")]
    DiskFault,
    /// Memory ran out.
    #[error("out of memory")]
    OutOfMemory,
}

impl From<Failed> for ViewError {
    ghost from_gives = { λ _ error. error ≡ DiskFault };

    fn from(_failed: Failed) -> ViewError {
        ViewError::DiskFault
    }
}

/// What is known of a pair of files.
#[derive(Drop)]
pub struct Index {
    /// The length of a page, in bytes.
    pub page_size: u32,
    /// The length of Main as it is read, where it is there.
    pub len: Option<u64>,
    /// For each page, the number behind its last committed frame, or 0. Page 1 first.
    pub table: Vec<u32>,
}

/// Main alone.
fn index_nothing<D: Disk>(alloc: Global, disk: &mut D, page_size: u32) -> Result<Index, ViewError>
    requires alone { IsTrue D.tells → (viewed page_size (D.reads disk.old)).main ≡ (D.reads disk.old).main }
    ensures size { IfOk result (λ index. index.page_size ≡ page_size) }
    ensures len { IfOk result (λ index. IsTrue D.tells → index.len ≡ length_of (viewed page_size (D.reads disk.old)).main) }
    ensures indexed { IfOk result (λ index. IsTrue D.tells → IsIndexed page_size index.table.items (D.reads disk.old)) }
    ensures held { IfOk result (λ index. IsTrue D.tells → IsHeldByLog page_size index.table.items (D.reads disk.old)) }
    ensures only { IsTrue D.tells → OnlyRead D.reads D.images D.moment D.since disk.old disk.new }
    ensures refused { IfErr result (λ why. why ≡ ViewError.DiskFault) }
    ensures later { D.faults disk.old ≤ D.faults disk.new }
    ensures fault { IsErr result → Rose (D.faults disk.old) (D.faults disk.new) }
{
    let len = disk.length(Role::Main)?;
    Ok(Index {
        page_size,
        len,
        table: Vec::new(alloc),
    })
}

/// Main under the committed frames of a log, for which there is a table of zeros.
fn index_log<D: Disk>(
    disk: &mut D,
    reading: &LogReading,
    table: Vec<u32>,
) -> Result<Index, ViewError>
    requires reading { IsLogReading reading.now }
    requires few { reading.now.frames < 2 ^ 32 }
    requires table { length table.items ≡ reading.now.pages }
    requires zeros { (j : ℕ) → get_or table.items j 0 ≡ 0 }
    requires taken { IsTrue D.tells → IsTaken reading.now.page_size (D.reads disk.old) }
    requires read { IsTrue D.tells → IsReadingOfLog reading.now (log_of (D.reads disk.old)) }
    ensures size { IfOk result (λ index. index.page_size ≡ reading.now.page_size) }
    ensures len { IfOk result (λ index. IsTrue D.tells → index.len ≡ length_of (viewed reading.now.page_size (D.reads disk.old)).main) }
    ensures indexed { IfOk result (λ index. IsTrue D.tells → IsIndexed reading.now.page_size index.table.items (D.reads disk.old)) }
    ensures held { IfOk result (λ index. IsTrue D.tells → IsHeldByLog reading.now.page_size index.table.items (D.reads disk.old)) }
    ensures end { OnOk result (IsTrue D.tells → ReachesEnd reading.now.page_size (D.reads disk.old)) }
    ensures only { IsTrue D.tells → OnlyRead D.reads D.images D.moment D.since disk.old disk.new }
    ensures refused { IfErr result (λ why. IsTrue D.tells → IsIndexRefused reading.now.page_size (D.reads disk.old) why) }
    ensures later { D.faults disk.old ≤ D.faults disk.new }
    ensures fault { IfErr result (λ why. why ≡ ViewError.DiskFault → Rose (D.faults disk.old) (D.faults disk.new)) }
{
    let mut table = table;
    let Some(end) = index_frames(disk, reading, &mut table)? else {
        return Err(ViewError::LogCut);
    };
    let main = disk.length(Role::Main)?.unwrap_or(0);
    let reached = main.max(end);
    let whole = reading.pages as u64 * reading.page_size as u64;
    if reached < whole {
        return Err(ViewError::Short {
            pages: reading.pages,
        });
    }
    Ok(Index {
        page_size: reading.page_size,
        len: Some(whole),
        table,
    })
}

/// A table of zeros for the pages of a log, of which there are no more than `most`.
fn empty_table(alloc: Global, reading: &LogReading, most: u32) -> Result<Vec<u32>, ViewError>
    ensures most { OnOk result (reading.now.pages ≤ most) }
    ensures few { OnOk result (reading.now.frames < 2 ^ 32) }
    ensures table { IfOk result (λ table. length table.items ≡ reading.now.pages) }
    ensures zeros { IfOk result (λ table. (j : ℕ) → get_or table.items j 0 ≡ 0) }
    ensures refused { IfErr result (IsTableRefused reading.now most) }
{
    if reading.pages > most {
        return Err(ViewError::TooLarge {
            pages: reading.pages,
        });
    }
    if reading.frames > 4294967295 {
        return Err(ViewError::TooLong {
            frames: reading.frames,
        });
    }
    match Vec::from_elem(alloc, 0u32, reading.pages as usize) {
        Ok(table) => Ok(table),
        Err(_) => Err(ViewError::OutOfMemory),
    }
}

/// Main under the committed frames of a log that is taken. A table has no more than `most` pages.
fn index_live<D: Disk>(
    alloc: Global,
    disk: &mut D,
    reading: &LogReading,
    most: u32,
) -> Result<Index, ViewError>
    requires reading { IsLogReading reading.now }
    requires taken { IsTrue D.tells → IsTaken reading.now.page_size (D.reads disk.old) }
    requires read { IsTrue D.tells → IsReadingOfLog reading.now (log_of (D.reads disk.old)) }
    ensures size { IfOk result (λ index. index.page_size ≡ reading.now.page_size) }
    ensures len { IfOk result (λ index. IsTrue D.tells → index.len ≡ length_of (viewed reading.now.page_size (D.reads disk.old)).main) }
    ensures indexed { IfOk result (λ index. IsTrue D.tells → IsIndexed reading.now.page_size index.table.items (D.reads disk.old)) }
    ensures held { IfOk result (λ index. IsTrue D.tells → IsHeldByLog reading.now.page_size index.table.items (D.reads disk.old)) }
    ensures taken { OnOk result (IsTrue D.tells → IsViewTaken reading.now.page_size most (D.reads disk.old)) }
    ensures only { IsTrue D.tells → OnlyRead D.reads D.images D.moment D.since disk.old disk.new }
    ensures refused { IfErr result (λ why. IsTrue D.tells → IsViewRefused reading.now.page_size most (D.reads disk.old) why) }
    ensures later { D.faults disk.old ≤ D.faults disk.new }
    ensures fault { IfErr result (λ why. why ≡ ViewError.DiskFault → Rose (D.faults disk.old) (D.faults disk.new)) }
{
    let table = empty_table(alloc, reading, most)?;
    let index = index_log(disk, reading, table)?;
    Ok(index)
}

/// Main and its log, by what a look found.
fn index_found<D: Disk>(
    alloc: Global,
    disk: &mut D,
    page_size: u32,
    found: LogFound,
    most: u32,
) -> Result<Index, ViewError>
    requires found { IsTrue D.tells → IsLogFound page_size (D.reads disk.old) found }
    requires sound { IsLogRefusable page_size found }
    ensures size { IfOk result (λ index. index.page_size ≡ page_size) }
    ensures len { IfOk result (λ index. IsTrue D.tells → index.len ≡ length_of (viewed page_size (D.reads disk.old)).main) }
    ensures indexed { IfOk result (λ index. IsTrue D.tells → IsIndexed page_size index.table.items (D.reads disk.old)) }
    ensures held { IfOk result (λ index. IsTrue D.tells → IsHeldByLog page_size index.table.items (D.reads disk.old)) }
    ensures taken { OnOk result (IsTrue D.tells → IsViewTaken page_size most (D.reads disk.old)) }
    ensures only { IsTrue D.tells → OnlyRead D.reads D.images D.moment D.since disk.old disk.new }
    ensures refused { IfErr result (λ why. IsTrue D.tells → IsViewRefused page_size most (D.reads disk.old) why) }
    ensures later { D.faults disk.old ≤ D.faults disk.new }
    ensures fault { IfErr result (λ why. why ≡ ViewError.DiskFault → Rose (D.faults disk.old) (D.faults disk.new)) }
{
    match found {
        LogFound::Nothing => {
            let index = index_nothing(alloc, disk, page_size)?;
            Ok(index)
        }
        LogFound::Empty => {
            let index = index_nothing(alloc, disk, page_size)?;
            Ok(index)
        }
        LogFound::Refused(why) => Err(ViewError::Log(why)),
        LogFound::Live(reading) => {
            let index = index_live(alloc, disk, &reading, most)?;
            Ok(index)
        }
    }
}

/// Looks at Main and its log. A table has no more than `most` pages.
pub fn index_pair<D: Disk>(
    alloc: Global,
    disk: &mut D,
    page_size: u32,
    most: u32,
) -> Result<Index, ViewError>
    ensures size { IfOk result (λ index. index.page_size ≡ page_size) }
    ensures len { IfOk result (λ index. IsTrue D.tells → index.len ≡ length_of (viewed page_size (D.reads disk.new)).main) }
    ensures indexed { IfOk result (λ index. IsTrue D.tells → IsIndexed page_size index.table.items (D.reads disk.new)) }
    ensures held { IfOk result (λ index. IsTrue D.tells → IsHeldByLog page_size index.table.items (D.reads disk.new)) }
    ensures taken { OnOk result (IsTrue D.tells → IsViewTaken page_size most (D.reads disk.old)) }
    ensures same { IsTrue D.tells → D.reads disk.new ≡ D.reads disk.old }
    ensures crash { IsTrue D.tells → Each (D.images disk.new) (D.images disk.old) }
    ensures any_moment { IsTrue D.tells → LeavesOnly D.moment D.since disk.old disk.new (D.images disk.old) }
    ensures refused { IfErr result (λ why. IsTrue D.tells → IsViewRefused page_size most (D.reads disk.old) why) }
    ensures later { D.faults disk.old ≤ D.faults disk.new }
    ensures fault { IfErr result (λ why. why ≡ ViewError.DiskFault → Rose (D.faults disk.old) (D.faults disk.new)) }
{
    let Ok(mut buffer) = Vec::from_elem(alloc, 0u8, 65560) else {
        return Err(ViewError::OutOfMemory);
    };
    let found = look(disk, page_size, &mut buffer)?;
    let index = index_found(alloc, disk, page_size, found, most)?;
    Ok(index)
}
