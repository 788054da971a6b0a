// The end of a new file: the pages that are still held back, page 1, and the sync.
ghost use Rattle.std.specs.Prelude.{◌≡◌, ◌+◌, ◌≤◌, ℕ, [], ◌∷◌, true, length, take, IsTrue, IfOk, OnOk, OnErr, Ok, Err};
ghost use Rattle.edge_model.specs.Causes.{Rose};
ghost use Rattle.db_format.specs.Header.{IsPageSize, header_bytes, header_read};
ghost use Rattle.db_format.specs.Pages.{also};
ghost use Rattle.db_format.specs.Seen.{marked};
ghost use Rattle.page_codec.specs.Page.{magic};
ghost use Rattle.bulk_load.specs.Out.{AreAllPut};
ghost use Rattle.fresh_file.specs.Fresh.{IsFinished, IsWell, fresh_contents, sized_page, with_head};
ghost use Rattle.fresh_file.specs.Sealed.{plain_page};

use crate::sealing::seal_page_to;
use crate::state::FreshState;
use atomic_commit::CommitFault;
use db_format::{Header, write_header};
use fresh_disk::Side;
use page_build::lay;

impl FreshState {
    ghost use Rattle.fresh_file.specs.State.{IsWellAs, fresh_pages};

    /// Writes the pages that are still held back, then page 1 with this header, in which the size field is set to the count of pages, syncs
    /// Fresh and answers the count. Each page must have been put: page 1, and every number that was taken.
    pub fn finish<T: Side>(&mut self, side: &mut T, header: &Header) -> Result<u32, CommitFault>
        requires put { AreAllPut (fresh_pages self.old (T.fresh side.old)) }
        requires page_size { IsPageSize header.now.page_size }
        requires reserve { header.now.reserve ≤ 255 }
        requires format { header.now.format ≤ 4 }
        requires encoding { header.now.encoding ≤ 3 }
        ensures count { IfOk result (λ count. count ≡ self.old.taken + 1) }
        ensures file { (start : ℕ) → IsWellAs self.old start T.tells T.draws_tell (T.fresh side.old) (T.drawn side.old)
            → OnOk result (IsFinished self.old.codec header.now (fresh_pages self.old (T.fresh side.old)) start T.draws_tell (T.fresh side.new) (T.drawn side.new)) }
        ensures reads_back { header_read (header_bytes (sized_page header.now (self.old.taken + 1))) header.now.page_size header.now.reserve
            ≡ Ok (sized_page header.now (self.old.taken + 1)) }
        ensures synced { OnOk result (IsTrue T.tells → T.synced side.new) }
        ensures kept { T.only_fresh side.old side.new }
        ensures disk_later { T.disk_faults side.old ≤ T.disk_faults side.new }
        ensures draws_later { T.draw_faults side.old ≤ T.draw_faults side.new }
        ensures disk { result ≡ Err CommitFault.DiskFault → Rose (T.disk_faults side.old) (T.disk_faults side.new) }
        ensures entropy { result ≡ Err CommitFault.EntropyFault → Rose (T.draw_faults side.old) (T.draw_faults side.new) }
    {
        let count = self.taken + 1;
        let _salt = self.codec.salt();
        let _listed = self.codec.profile();
        let mut head = [0u8; 100];
        let sized = Header {
            size_field: count,
            ..*header
        };
        write_header(&sized, &mut head);
        self.write_held(side)?;
        self.put_first(side, &head)?;
        sync_side(side)?;
        Ok(count)
    }

    // Page 1 with this header.
    fn put_first<T: Side>(&mut self, side: &mut T, head: &[u8; 100]) -> Result<(), CommitFault>
        requires magic { take 16 head.now ≡ magic }
        ensures well { (start : ℕ) → IsWell self.old.codec (marked self.old.put) (self.old.taken + 1) start T.tells T.draws_tell (T.fresh side.old) (T.drawn side.old)
            → OnOk result (IsWell self.old.codec (also (1 ∷ []) (marked self.old.put)) (self.old.taken + 1) start T.tells T.draws_tell (T.fresh side.new) (T.drawn side.new)) }
        ensures here { (start : ℕ) → IsWell self.old.codec (marked self.old.put) (self.old.taken + 1) start T.tells T.draws_tell (T.fresh side.old) (T.drawn side.old)
            → OnOk result (plain_page self.old.codec 1 (fresh_contents (T.fresh side.new)) ≡ with_head head.now self.old.first.items) }
        ensures others { (start : ℕ) → IsWell self.old.codec (marked self.old.put) (self.old.taken + 1) start T.tells T.draws_tell (T.fresh side.old) (T.drawn side.old)
            → OnOk result ((m : ℕ) → marked self.old.put m ≡ true → (m ≡ 1 → ⊥) → plain_page self.old.codec m (fresh_contents (T.fresh side.new)) ≡ plain_page self.old.codec m (fresh_contents (T.fresh side.old))) }
        ensures kept { T.only_fresh side.old side.new }
        ensures disk_later { T.disk_faults side.old ≤ T.disk_faults side.new }
        ensures draws_later { T.draw_faults side.old ≤ T.draw_faults side.new }
        ensures disk { result ≡ Err CommitFault.DiskFault → Rose (T.disk_faults side.old) (T.disk_faults side.new) }
        ensures entropy { result ≡ Err CommitFault.EntropyFault → Rose (T.draw_faults side.old) (T.draw_faults side.new) }
    {
        lay(&mut self.first, 0, head);
        let _profile = *self.codec.profile();
        seal_page_to(
            &self.codec,
            &mut self.draw,
            &mut self.stored,
            side,
            1,
            &self.first,
        )?;
        Ok(())
    }
}

// No byte of Fresh is unsynced.
fn sync_side<T: Side>(side: &mut T) -> Result<(), CommitFault>
    ensures done { OnOk result (IsTrue T.tells → T.synced side.new) }
    ensures same { IsTrue T.tells → T.fresh side.new ≡ T.fresh side.old }
    ensures drawn { T.drawn side.new ≡ T.drawn side.old }
    ensures kept { T.only_fresh side.old side.new }
    ensures draws { T.draw_faults side.new ≡ T.draw_faults side.old }
    ensures disk_later { T.disk_faults side.old ≤ T.disk_faults side.new }
    ensures fault { OnErr result (Rose (T.disk_faults side.old) (T.disk_faults side.new)) }
    ensures error { OnErr result (result ≡ Err CommitFault.DiskFault) }
{
    match side.side_sync() {
        Ok(()) => Ok(()),
        Err(_) => Err(CommitFault::DiskFault),
    }
}
