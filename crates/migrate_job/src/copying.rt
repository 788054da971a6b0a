// One entry of the old file is pushed into the new one.
ghost use Rattle.std.specs.Prelude.{◌≡◌, ◌≤◌, ◌<◌, ◌+◌, ℕ, true, false, List, [], ◌∷◌, ◌++◌, length, Some, Ok, Err, IfOk, IfErr, OnOk, OnErr, IsTrue, map};
ghost use Rattle.btree_model.specs.Content.{Entry, entry_of, last_after};
ghost use Rattle.btree_model.specs.Finding.{Row, entries};
ghost use Rattle.btree_page.specs.Payload.{max_payload};
ghost use Rattle.btree_walk.specs.Causes.{IsWalkStop};
ghost use Rattle.btree_walk.specs.Cursor.{IsAdvanced, IsCursorAt, IsCursorReady, IsSameTree, row_of, row_shown, walked, walked_family};
ghost use Rattle.btree_walk.specs.Turn.{work};
ghost use Rattle.bulk_load.specs.Depth.{IsShallow};
ghost use Rattle.bulk_load.specs.Few.{TookFew, load_pages};
ghost use Rattle.bulk_load.specs.Loader.{IsLoader, Loaded, family_of_loader, is_for, is_late};
ghost use Rattle.bulk_load.specs.Own.{Covers, only};
ghost use Rattle.cipher_profile.specs.Profile.{usable};
ghost use Rattle.db_format.specs.Pages.{Test};
ghost use Rattle.db_format.specs.Seen.{marked};
ghost use Rattle.db_format.specs.Source.{no_pins};
ghost use Rattle.edge_model.specs.Causes.{Rose};
ghost use Rattle.edge_model.specs.Files.{bytes_of};
ghost use Rattle.fresh_file.specs.State.{IsWellAs, fresh_pages};
ghost use Rattle.pager.specs.Beside.{Beside};
ghost use Rattle.pager.specs.Causes.{IsReadRefusal, MayRefuse};
ghost use Rattle.pager.specs.Held.{pins_of};
ghost use Rattle.pager.specs.PagesOf.{pages_of};
ghost use Rattle.migrate_job.specs.Copying.{FollowsBeside, FollowsTarget, IsOfWalk, KeepsBeside, KeepsTarget, asked_by, beside_main, migrate_load_error, migrate_page_error, pushed_then, migrate_walk_error};
ghost use Rattle.migrate_job.specs.Stops.{is_early_stop};

use crate::error::MigrateError;
use btree_walk::{Cursor, WalkError};
use bulk_load::{LoadError, Loader, OutError};
use db_format::{Defect, Seen};
use edge_model::{Disk, Entropy};
use fresh_disk::Side;
use fresh_file::FreshState;
use pager::{PageError, Pager};

/// Pushes the cursor's next entry, behind all others, and answers whether there was one. The loader's last rowid is the cursor's. After
/// an error the loader and the new file may only be dropped.
pub fn copy_next<'d, D: Disk, E: Entropy>(
    pager: &mut Pager<'d, D, E>,
    cursor: &mut Cursor,
    seen: &mut Seen,
    loader: &mut Loader,
    fresh: &mut FreshState,
) -> Result<bool, MigrateError>
    requires cursor { IsCursorReady pager.old.count (pins_of pager.old.cache.held) seen.old cursor.old }
    requires loader { IsLoader loader.old (usable fresh.old.codec.profile) }
    requires last { loader.old.last ≡ cursor.old.last }
    // exactly one entry more was given, and exactly this one was pushed; or the walk is at its end, and nothing was
    ensures advanced { IfOk result (λ more. IsTrue D.tells → (taken : Test) (given : List Row) → IsCursorAt (pages_of pager.old) taken given cursor.old (marked seen.old)
        → IsAdvanced (MayRefuse D.tells) (pages_of pager.old) taken given cursor.new (marked seen.new) (Ok more)) }
    ensures pushed { (start : ℕ) → IsWellAs fresh.old start D.tells E.tells (bytes_of (D.reads pager.old.disk.now).fresh) (E.drawn pager.old.entropy.now)
        → (own : Test) → Covers false own (fresh_pages fresh.old (bytes_of (D.reads pager.old.disk.now).fresh)) (fresh_pages fresh.new (bytes_of (D.reads pager.new.disk.now).fresh))
        → (pushed : List Entry) → Loaded (only own (fresh_pages fresh.old (bytes_of (D.reads pager.old.disk.now).fresh))) loader.old pushed
        → IfOk result (λ more. Loaded (only own (fresh_pages fresh.new (bytes_of (D.reads pager.new.disk.now).fresh))) loader.new (pushed_then pushed (row_of cursor.new) more)) }
    ensures end { result ≡ Ok false → (loader.new ≡ loader.old) × (fresh.new ≡ fresh.old) }
    ensures unpinned { result ≡ Ok false → pins_of pager.new.cache.held ≡ no_pins }
    // the next call may follow
    ensures cursor { IsCursorReady pager.new.count (pins_of pager.new.cache.held) seen.new cursor.new }
    ensures same_tree { IsSameTree cursor.old cursor.new }
    ensures less { IfOk result (λ more. IsTrue more → work seen.new cursor.new.path < work seen.old cursor.old.path) }
    ensures loader { OnOk result (IsLoader loader.new (usable fresh.old.codec.profile)) }
    ensures family { OnOk result (family_of_loader loader.new ≡ family_of_loader loader.old) }
    ensures at_one { OnOk result (loader.new.at_one ≡ loader.old.at_one) }
    ensures last { OnOk result (loader.new.last ≡ cursor.new.last) }
    // an entry of another family than the loader's is not pushed
    ensures other_family { cursor.old.given < cursor.new.given → is_for (family_of_loader loader.old) cursor.new.rowid ≡ false
        → result ≡ Err (MigrateError.Defect (Defect.BadKind cursor.new.page)) }
    ensures unpushed { is_for (family_of_loader loader.old) cursor.new.rowid ≡ false → (loader.new ≡ loader.old) × (fresh.new ≡ fresh.old) }
    // why it stopped: a defect is one of the walk where the pages are told, since there no entry is of another family
    ensures of_walk { IfErr result (λ error. IsTrue D.tells → (taken : Test) (given : List Row) → IsCursorAt (pages_of pager.old) taken given cursor.old (marked seen.old)
        → family_of_loader loader.old ≡ walked_family (pages_of pager.old) cursor.old → IsOfWalk (walked (pages_of pager.old) taken cursor.old) error) }
    ensures limit { (limit : ℕ) → result ≡ Err (MigrateError.TooManyPages limit) → (limit ≡ fresh.old.limit) × (fresh.old.limit ≤ fresh.new.taken + 1) }
    // how many pages were taken since the loader was made: after an error no more than a tree of all entries takes, with the one that was
    // asked for
    ensures took { (from : ℕ) (list : List Entry) → TookFew (family_of_loader loader.old) (usable fresh.old.codec.profile) from list (fresh.old.taken + 1) loader.old
        → IfOk result (λ more. TookFew (family_of_loader loader.old) (usable fresh.old.codec.profile) from (pushed_then list (row_of cursor.new) more) (fresh.new.taken + 1) loader.new) }
    ensures shallow { (from : ℕ) → IsShallow (usable fresh.old.codec.profile) from (fresh.old.taken + 1) loader.old
        → OnOk result (IsShallow (usable fresh.old.codec.profile) from (fresh.new.taken + 1) loader.new) }
    ensures few { IfErr result (λ error. IsTrue D.tells → (taken : Test) (given more : List Row)
        → IsCursorAt (pages_of pager.old) taken given cursor.old (marked seen.old) → entries (walked (pages_of pager.old) taken cursor.old) ≡ given ++ more
        → (from : ℕ) → TookFew (family_of_loader loader.old) (usable fresh.old.codec.profile) from (map entry_of given) (fresh.old.taken + 1) loader.old
        → fresh.new.taken + 1 + asked_by error ≤ from + load_pages (family_of_loader loader.old) (usable fresh.old.codec.profile)
        (map entry_of (entries (walked (pages_of pager.old) taken cursor.old)))) }
    ensures disk_fault { result ≡ Err MigrateError.DiskFault → Rose (D.faults pager.old.disk.now) (D.faults pager.new.disk.now) }
    ensures entropy_fault { result ≡ Err MigrateError.EntropyFault → Rose (E.faults pager.old.entropy.now) (E.faults pager.new.entropy.now) }
    // what stays
    ensures keeps { KeepsBeside D.tells E.tells D.reads E.drawn D.faults E.faults
        (beside_main fresh.old pager.old.disk.now pager.old.entropy.now)
        (beside_main fresh.new pager.new.disk.now pager.new.entropy.now) }
    ensures follows { OnOk result (FollowsBeside D.tells E.tells D.reads E.drawn D.faults E.faults
        (beside_main fresh.old pager.old.disk.now pager.old.entropy.now)
        (beside_main fresh.new pager.new.disk.now pager.new.entropy.now)) }
    ensures codec { fresh.new.codec ≡ fresh.old.codec }
    ensures beside { Beside D.tells E.tells D.reads D.images D.moment D.since E.drawn pager.old.disk pager.new.disk pager.old.entropy pager.new.entropy }
    ensures file { (pager.new.codec ≡ pager.old.codec) × (pager.new.header ≡ pager.old.header) × (pager.new.count ≡ pager.old.count) }
{
    match cursor.advance(pager, seen) {
        Err(error) => Err(walk_error(error)),
        Ok(false) => Ok(false),
        Ok(true) => {
            let entry = cursor.entry();
            match push_entry(loader, fresh, pager, entry.rowid, entry.payload, entry.page) {
                Ok(()) => Ok(true),
                Err(error) => Err(error),
            }
        }
    }
}

// Pushes this entry, whose cell stands on this page, where it is one of the loader's family.
fn push_entry<T: Side>(
    loader: &mut Loader,
    fresh: &mut FreshState,
    side: &mut T,
    rowid: Option<i64>,
    payload: &[u8],
    page: u32,
) -> Result<(), MigrateError>
    requires loader { IsLoader loader.old (usable fresh.old.codec.profile) }
    requires above { is_late loader.old rowid ≡ false }
    requires short { length payload.now ≤ max_payload }
    ensures pushed { (start : ℕ) → IsWellAs fresh.old start T.tells T.draws_tell (T.fresh side.old) (T.drawn side.old)
        → (own : Test) → Covers false own (fresh_pages fresh.old (T.fresh side.old)) (fresh_pages fresh.new (T.fresh side.new))
        → (pushed : List Entry) → Loaded (only own (fresh_pages fresh.old (T.fresh side.old))) loader.old pushed
        → OnOk result (Loaded (only own (fresh_pages fresh.new (T.fresh side.new))) loader.new (pushed ++ record { rowid = rowid; payload = payload.now } ∷ [])) }
    ensures loader { OnOk result (IsLoader loader.new (usable fresh.old.codec.profile)) }
    ensures family { OnOk result (family_of_loader loader.new ≡ family_of_loader loader.old) }
    ensures at_one { OnOk result (loader.new.at_one ≡ loader.old.at_one) }
    ensures last { OnOk result (loader.new.last ≡ last_after loader.old.last rowid) }
    ensures other_family { is_for (family_of_loader loader.old) rowid ≡ false → result ≡ Err (MigrateError.Defect (Defect.BadKind page)) }
    ensures unpushed { is_for (family_of_loader loader.old) rowid ≡ false → (loader.new ≡ loader.old) × (fresh.new ≡ fresh.old) }
    ensures late { is_for (family_of_loader loader.old) rowid ≡ true → IfErr result (λ error. is_early_stop error ≡ false) }
    ensures limit { (limit : ℕ) → result ≡ Err (MigrateError.TooManyPages limit) → (limit ≡ fresh.old.limit) × (fresh.old.limit ≤ fresh.new.taken + 1) }
    ensures took { (from : ℕ) (list : List Entry) → TookFew (family_of_loader loader.old) (usable fresh.old.codec.profile) from list (fresh.old.taken + 1) loader.old
        → OnOk result (TookFew (family_of_loader loader.old) (usable fresh.old.codec.profile) from (list ++ record { rowid = rowid; payload = payload.now } ∷ []) (fresh.new.taken + 1) loader.new) }
    ensures shallow { (from : ℕ) → IsShallow (usable fresh.old.codec.profile) from (fresh.old.taken + 1) loader.old
        → OnOk result (IsShallow (usable fresh.old.codec.profile) from (fresh.new.taken + 1) loader.new) }
    ensures few { (from : ℕ) (list : List Entry) → TookFew (family_of_loader loader.old) (usable fresh.old.codec.profile) from list (fresh.old.taken + 1) loader.old
        → OnErr result (fresh.new.taken + 1 + 1 ≤ from + load_pages (family_of_loader loader.old) (usable fresh.old.codec.profile) (list ++ record { rowid = rowid; payload = payload.now } ∷ [])) }
    ensures disk_fault { result ≡ Err MigrateError.DiskFault → Rose (T.disk_faults side.old) (T.disk_faults side.new) }
    ensures entropy_fault { result ≡ Err MigrateError.EntropyFault → Rose (T.draw_faults side.old) (T.draw_faults side.new) }
    ensures keeps { KeepsTarget T.tells T.draws_tell T.fresh T.drawn T.disk_faults T.draw_faults
        (record { state = fresh.old; side = side.old }) (record { state = fresh.new; side = side.new }) }
    ensures follows { OnOk result (FollowsTarget T.tells T.draws_tell T.fresh T.drawn T.disk_faults T.draw_faults
        (record { state = fresh.old; side = side.old }) (record { state = fresh.new; side = side.new })) }
    ensures codec { fresh.new.codec ≡ fresh.old.codec }
    ensures kept { T.only_fresh side.old side.new }
{
    if !loader.is_for(rowid) {
        return Err(MigrateError::Defect(Defect::BadKind { page }));
    }
    let mut out = fresh.out(side);
    match loader.push(&mut out, rowid, payload) {
        Ok(()) => Ok(()),
        Err(error) => Err(load_error(error)),
    }
}

/// How a page that is not given stops the command.
pub(crate) fn page_error(error: PageError) -> MigrateError
    requires { IsReadRefusal error }
    ensures { result ≡ migrate_page_error error }
{
    match error {
        PageError::TagRefused { page } => MigrateError::PageTag { page },
        PageError::DiskFault => MigrateError::DiskFault,
        // A walk pins fewer pages than there are frames, but no clause of a source of pages says that a frame is left.
        PageError::AllPinned => MigrateError::OutOfMemory,
        // A walk asks for pages of the file alone.
        PageError::OutOfRange | PageError::EntropyFault => unreachable!(),
    }
}

/// How a walk that failed stops the command.
pub(crate) fn walk_error(error: WalkError<PageError>) -> MigrateError
    requires { IsWalkStop IsReadRefusal error }
    ensures { result ≡ migrate_walk_error error }
{
    match error {
        WalkError::Defect(defect) => MigrateError::Defect(defect),
        WalkError::Source(refusal) => page_error(refusal),
        WalkError::OutOfMemory => MigrateError::OutOfMemory,
    }
}

/// How a load that failed stops the command.
pub(crate) fn load_error(error: LoadError) -> MigrateError
    requires in_order { error ≡ LoadError.RowidOrder → ⊥ }
    requires shallow { error ≡ LoadError.TooDeep → ⊥ }
    ensures { migrate_load_error error ≡ Some result }
{
    match error {
        LoadError::Out(OutError::TooManyPages { limit }) => MigrateError::TooManyPages { limit },
        LoadError::Out(OutError::DiskFault) => MigrateError::DiskFault,
        LoadError::Out(OutError::EntropyFault) => MigrateError::EntropyFault,
        LoadError::OutOfMemory => MigrateError::OutOfMemory,
        LoadError::RowidOrder | LoadError::TooDeep => unreachable!(),
    }
}
