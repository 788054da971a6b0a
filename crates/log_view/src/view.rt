// A disk over another one, through a log.
ghost use Rattle.std.specs.Prelude.{◌≡◌, ◌+◌, ◌-◌, ◌^◌, ◌<◌, ◌≤◌, length, min, None, IsTrue, IfErr, IfOk, OnOk, refl};
ghost use Rattle.edge_model.specs.Causes.{HasCause, Rose};
ghost use Rattle.edge_model.specs.Files.{file_at, length_of};
ghost use Rattle.edge_model.specs.Images.{Each, LeavesOnly};
ghost use Rattle.log_view.specs.Refused.{IsOutside, IsViewRefused, IsViewTaken};
ghost use Rattle.log_view.specs.View.{IsHeldByLog, IsIndexed, ViewedOf, viewed};
ghost use Rattle.log_view.specs.ViewLaws.{viewed_numbered};

use crate::opening::{ViewError, index_pair};
use crate::reading::read_through;
use edge_model::{Disk, Failed, Role};
use log_recovery::sync_pair;
use std::alloc::Global;

/// A disk whose Main is what Main and its log open to. No other file is there, and no call changes one: each that would is refused,
/// as a fault.
#[derive(Drop)]
pub struct LogView<D: Disk + Drop> {
    disk: D,
    page_size: u32,
    /// The length of Main, where it is there.
    len: Option<u64>,
    /// For each page, the number behind its last committed frame, or 0. Page 1 first.
    table: Vec<u32>,
    /// How often a call was refused.
    refused: u64,
    ghost sized: { (0 < page_size) × (page_size ≤ 65536) },
    ghost long: { IsTrue D.tells → len ≡ length_of (viewed page_size (D.reads disk)).main },
    ghost indexed: { IsTrue D.tells → IsIndexed page_size table.items (D.reads disk) },
    ghost held: { IsTrue D.tells → IsHeldByLog page_size table.items (D.reads disk) },
}

impl<D: Disk + Drop> Disk for LogView<D> {
    ghost tells = { D.tells };

    ghost reads = { λ v. viewed v.page_size (D.reads v.disk) };

    ghost images = { λ v. ViewedOf v.page_size (D.images v.disk) };

    ghost moment = { λ v. D.moment v.disk };

    ghost since = { λ v t. ViewedOf v.page_size (D.since v.disk t) };

    ghost next = { λ v. D.next v.disk };

    ghost faults = { λ v. D.faults v.disk + v.refused };

    ghost read_excuse = { λ old new. IsTrue D.tells → Rose (D.faults old.disk) (D.faults new.disk) };

    ghost reads_now = { λ v. (D.reads v.disk, D.reads_now v.disk, refl) };

    ghost counts_now = { λ v t c le now. (now.0, D.counts_now v.disk t now.0 le now.1, now.2) };

    ghost only_now = { λ v c left. (left.0, D.only_now v.disk left.0 left.1, left.2) };

    ghost numbered = { λ v c is. viewed_numbered v.page_size (D.next v.disk) is.0 c is.2 (D.numbered v.disk is.0 is.1) };

    fn length(&mut self, role: Role) -> Result<Option<u64>, Failed> {
        match role {
            Role::Main => Ok(self.len),
            Role::Journal => Ok(None),
            Role::Fresh => Ok(None),
        }
    }

    fn read_at(&mut self, role: Role, at: u64, buf: &mut [u8]) -> Result<usize, Failed> {
        let Some(len) = self.length_of(role) else {
            self.refused = self.refused.saturating_add(1);
            return Err(Failed);
        };
        if len <= at {
            return Ok(0);
        }
        let count = (len - at).min(buf.len() as u64) as usize;
        let whole = read_through(
            &mut self.disk,
            self.page_size,
            &self.table,
            at,
            &mut buf[..count],
        )?;
        if !whole {
            self.refused = self.refused.saturating_add(1);
            return Err(Failed);
        }
        Ok(count)
    }

    fn write_at(&mut self, role: Role, at: u64, bytes: &[u8]) -> Result<(), Failed> {
        self.refused = self.refused.saturating_add(1);
        Err(Failed)
    }

    fn cut(&mut self, role: Role, len: u64) -> Result<(), Failed> {
        self.refused = self.refused.saturating_add(1);
        Err(Failed)
    }

    fn sync(&mut self, role: Role) -> Result<(), Failed> {
        if self.length_of(role).is_none() {
            self.refused = self.refused.saturating_add(1);
            return Err(Failed);
        }
        sync_pair(&mut self.disk)
    }

    fn create(&mut self, role: Role) -> Result<(), Failed> {
        self.refused = self.refused.saturating_add(1);
        Err(Failed)
    }

    fn remove(&mut self, role: Role) -> Result<(), Failed> {
        self.refused = self.refused.saturating_add(1);
        Err(Failed)
    }

    fn rename_fresh(&mut self) -> Result<(), Failed> {
        self.refused = self.refused.saturating_add(1);
        Err(Failed)
    }

    fn sync_folder(&mut self) -> Result<(), Failed> {
        self.disk.sync_folder()
    }
}

impl<D: Disk + Drop> LogView<D> {
    /// Opens the view, for pages of this size in bytes. All memory is taken here: 4 bytes a page of the database, which may have `most`
    /// pages, and while it is opened the largest frame. Where it is refused the disk is handed back.
    pub fn open(
        alloc: Global,
        disk: D,
        page_size: u32,
        most: u32,
    ) -> Result<LogView<D>, (D, ViewError)>
        requires size { (0 < page_size) × (page_size ≤ 65536) }
        // the view is of these files, and they are only read
        ensures size { IfOk result (λ v. (v.page_size ≡ page_size) × (v.refused ≡ 0)) }
        ensures same { IfOk result (λ v. IsTrue D.tells → D.reads v.disk ≡ D.reads disk) }
        ensures crash { IfOk result (λ v. IsTrue D.tells → Each (D.images v.disk) (D.images disk)) }
        ensures any_moment { IfOk result (λ v. IsTrue D.tells → LeavesOnly D.moment D.since disk v.disk (D.images disk)) }
        ensures later { IfOk result (λ v. D.faults disk ≤ D.faults v.disk) }
        // Ok comes exactly where no refusal is due to the files, but for a fault and want of memory
        ensures taken { OnOk result (IsTrue D.tells → IsViewTaken page_size most (D.reads disk)) }
        ensures outside { IfErr result (λ e. IsTrue D.tells → IsViewTaken page_size most (D.reads disk) → IsOutside e.1) }
        // a refusal is due to the files, and leaves them so too
        ensures refused { IfErr result (λ e. IsTrue D.tells → IsViewRefused page_size most (D.reads disk) e.1) }
        ensures fault { IfErr result (λ e. e.1 ≡ ViewError.DiskFault → Rose (D.faults disk) (D.faults e.0)) }
        ensures left_same { IfErr result (λ e. IsTrue D.tells → D.reads e.0 ≡ D.reads disk) }
        ensures left_crash { IfErr result (λ e. IsTrue D.tells → Each (D.images e.0) (D.images disk)) }
        ensures left_later { IfErr result (λ e. D.faults disk ≤ D.faults e.0) }
        ensures left_moments { IfErr result (λ e. IsTrue D.tells → LeavesOnly D.moment D.since disk e.0 (D.images disk)) }
    {
        let mut disk = disk;
        match index_pair(alloc, &mut disk, page_size, most) {
            Ok(index) => Ok(LogView {
                disk,
                page_size,
                len: index.len,
                table: index.table,
                refused: 0,
            }),
            Err(why) => Err((disk, why)),
        }
    }

    /// The disk under the view.
    pub fn into_disk(self) -> D
        ensures { result ≡ self.disk }
    {
        self.disk
    }

    /// The length of the role's file, where it is there.
    fn length_of(&self, role: Role) -> Option<u64>
        ensures { IsTrue D.tells → result ≡ length_of (file_at (viewed self.now.page_size (D.reads self.now.disk)) role) }
    {
        match role {
            Role::Main => self.len,
            Role::Journal => None,
            Role::Fresh => None,
        }
    }
}
