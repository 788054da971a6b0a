// One tree of the old file is loaded anew, entry by entry.
ghost use Rattle.std.specs.Prelude.{◌≡◌, ◌≤◌, ◌+◌, ℕ, true, false, List, [], ◌++◌, length, map, None, Err, IfOk, IfErr, OnOk, IsTrue};
ghost use Rattle.btree_model.specs.Content.{Entry, entry_of};
ghost use Rattle.btree_model.specs.Finding.{Row, entries, is_sound};
ghost use Rattle.btree_model.specs.Tree.{root_family, tree_walk};
ghost use Rattle.btree_page.specs.declared.kind.Family.{Family};
ghost use Rattle.btree_walk.specs.Cursor.{IsCursorAt, IsCursorReady, walked, walked_family};
ghost use Rattle.bulk_load.specs.Depth.{IsShallow};
ghost use Rattle.bulk_load.specs.Few.{TookFew, load_pages};
ghost use Rattle.bulk_load.specs.Loader.{IsLoader, Loaded, family_of_loader};
ghost use Rattle.bulk_load.specs.Found.{HasTree};
ghost use Rattle.bulk_load.specs.Own.{Covers, CoversNew, only};
ghost use Rattle.load_model.specs.Stands.{IsNonePut};
ghost use Rattle.cipher_profile.specs.Profile.{usable};
ghost use Rattle.db_format.specs.Pages.{IsUsable, Pages, Test, nothing};
ghost use Rattle.db_format.specs.Seen.{marked};
ghost use Rattle.db_format.specs.Source.{no_pins};
ghost use Rattle.edge_model.specs.Causes.{Rose};
ghost use Rattle.edge_model.specs.Files.{bytes_of};
ghost use Rattle.fresh_file.specs.State.{IsWellAs, fresh_pages};
ghost use Rattle.pager.specs.Beside.{Beside};
ghost use Rattle.pager.specs.Held.{pins_of};
ghost use Rattle.pager.specs.PagesOf.{pages_of};
ghost use Rattle.migrate_job.specs.Copying.{FollowsBeside, FollowsTarget, IsOfWalk, KeepsBeside, KeepsTarget, asked_by, beside_main};
ghost use Rattle.migrate_job.specs.Stops.{is_early_stop};

use crate::copying::{copy_next, load_error, page_error};
use crate::error::MigrateError;
use btree_page::Family;
use btree_walk::{Cursor, tree_family};
use bulk_load::{LoadError, Loader};
use db_format::{PageSource, Seen};
use edge_model::{Disk, Entropy};
use fresh_disk::Side;
use fresh_file::FreshState;
use pager::Pager;
use std::alloc::Global;

/// Loads the tree with this root anew, entry by entry, and answers its new root.
pub(crate) fn copy_tree<'d, D: Disk, E: Entropy>(
    alloc: Global,
    pager: &mut Pager<'d, D, E>,
    state: &mut FreshState,
    root: u32,
) -> Result<u32, MigrateError>
    requires low { 1 ≤ root }
    requires high { root ≤ pager.old.count }
    requires unpinned { pins_of pager.old.cache.held ≡ no_pins }
    // the new tree stands on the pages that were taken for it, and has the entries of the old one, which has no defect
    ensures tree { (start : ℕ) → IsWellAs state.old start D.tells E.tells (bytes_of (D.reads pager.old.disk.now).fresh) (E.drawn pager.old.entropy.now)
        → (own : Test) → CoversNew false own (fresh_pages state.old (bytes_of (D.reads pager.old.disk.now).fresh)) (fresh_pages state.new (bytes_of (D.reads pager.new.disk.now).fresh))
        → IfOk result (λ new_root. HasTree (only own (fresh_pages state.new (bytes_of (D.reads pager.new.disk.now).fresh)))
        (root_family root ((pages_of pager.old).page root)) new_root (map entry_of (entries (tree_walk (pages_of pager.old)
        (root_family root ((pages_of pager.old).page root)) nothing root)))) }
    ensures sound { OnOk result (IsTrue D.tells → is_sound (tree_walk (pages_of pager.old) (root_family root ((pages_of pager.old).page root)) nothing root) ≡ true) }
    // why it stopped: a defect or a refused page of the tree, which a sound one has not, or what is told by a count
    ensures cause { IfErr result (λ error. IsTrue D.tells → IsOfWalk (tree_walk (pages_of pager.old) (root_family root ((pages_of pager.old).page root)) nothing root) error) }
    ensures late { IfErr result (λ error. IsTrue D.tells → is_sound (tree_walk (pages_of pager.old)
        (root_family root ((pages_of pager.old).page root)) nothing root) ≡ true → is_early_stop error ≡ false) }
    // no more pages are taken than a tree of these entries may have, with the one that was asked for in vain
    ensures few { IsTrue D.tells → state.new.taken ≤ state.old.taken + load_pages (root_family root ((pages_of pager.old).page root)) (usable state.old.codec.profile)
        (map entry_of (entries (tree_walk (pages_of pager.old) (root_family root ((pages_of pager.old).page root)) nothing root))) }
    ensures asked { (limit : ℕ) → result ≡ Err (MigrateError.TooManyPages limit) → IsTrue D.tells → state.new.taken + 1 ≤ state.old.taken + load_pages
        (root_family root ((pages_of pager.old).page root)) (usable state.old.codec.profile) (map entry_of (entries (tree_walk (pages_of pager.old)
        (root_family root ((pages_of pager.old).page root)) nothing root))) }
    ensures limit { (limit : ℕ) → result ≡ Err (MigrateError.TooManyPages limit) → (limit ≡ state.old.limit) × (state.old.limit ≤ state.new.taken + 1) }
    ensures disk_fault { result ≡ Err MigrateError.DiskFault → Rose (D.faults pager.old.disk.now) (D.faults pager.new.disk.now) }
    ensures entropy_fault { result ≡ Err MigrateError.EntropyFault → Rose (E.faults pager.old.entropy.now) (E.faults pager.new.entropy.now) }
    // what stays
    ensures keeps { KeepsBeside D.tells E.tells D.reads E.drawn D.faults E.faults (beside_main state.old pager.old.disk.now pager.old.entropy.now) (beside_main state.new pager.new.disk.now pager.new.entropy.now) }
    ensures follows { OnOk result (FollowsBeside D.tells E.tells D.reads E.drawn D.faults E.faults (beside_main state.old pager.old.disk.now pager.old.entropy.now) (beside_main state.new pager.new.disk.now pager.new.entropy.now)) }
    ensures codec { state.new.codec ≡ state.old.codec }
    ensures limit_same { state.new.limit ≡ state.old.limit }
    ensures unpinned { OnOk result (pins_of pager.new.cache.held ≡ no_pins) }
    ensures beside { Beside D.tells E.tells D.reads D.images D.moment D.since E.drawn pager.old.disk pager.new.disk pager.old.entropy pager.new.entropy }
    ensures file { (pager.new.codec ≡ pager.old.codec) × (pager.new.header ≡ pager.old.header) × (pager.new.count ≡ pager.old.count) }
    ensures disk_later { D.faults pager.old.disk.now ≤ D.faults pager.new.disk.now }
    ensures entropy_later { E.faults pager.old.entropy.now ≤ E.faults pager.new.entropy.now }
{
    match tree_family(pager, root) {
        Ok(family) => copy_family(alloc, pager, state, root, family),
        Err(refusal) => Err(page_error(refusal)),
    }
}

// The same for a tree that is to be of this family.
fn copy_family<'d, D: Disk, E: Entropy>(
    alloc: Global,
    pager: &mut Pager<'d, D, E>,
    state: &mut FreshState,
    root: u32,
    family: Family,
) -> Result<u32, MigrateError>
    requires low { 1 ≤ root }
    requires high { root ≤ pager.old.count }
    requires unpinned { pins_of pager.old.cache.held ≡ no_pins }
    ensures tree { (start : ℕ) → IsWellAs state.old start D.tells E.tells (bytes_of (D.reads pager.old.disk.now).fresh) (E.drawn pager.old.entropy.now)
        → (own : Test) → CoversNew false own (fresh_pages state.old (bytes_of (D.reads pager.old.disk.now).fresh)) (fresh_pages state.new (bytes_of (D.reads pager.new.disk.now).fresh))
        → IfOk result (λ new_root. HasTree (only own (fresh_pages state.new (bytes_of (D.reads pager.new.disk.now).fresh))) family new_root
        (map entry_of (entries (tree_walk (pages_of pager.old) family nothing root)))) }
    ensures sound { OnOk result (IsTrue D.tells → is_sound (tree_walk (pages_of pager.old) family nothing root) ≡ true) }
    ensures cause { IfErr result (λ error. IsTrue D.tells → IsOfWalk (tree_walk (pages_of pager.old) family nothing root) error) }
    ensures few { IsTrue D.tells → state.new.taken ≤ state.old.taken + load_pages family (usable state.old.codec.profile)
        (map entry_of (entries (tree_walk (pages_of pager.old) family nothing root))) }
    ensures asked { IfErr result (λ error. IsTrue D.tells → state.new.taken + asked_by error ≤ state.old.taken + load_pages family (usable state.old.codec.profile)
        (map entry_of (entries (tree_walk (pages_of pager.old) family nothing root)))) }
    ensures limit { (limit : ℕ) → result ≡ Err (MigrateError.TooManyPages limit) → (limit ≡ state.old.limit) × (state.old.limit ≤ state.new.taken + 1) }
    ensures disk_fault { result ≡ Err MigrateError.DiskFault → Rose (D.faults pager.old.disk.now) (D.faults pager.new.disk.now) }
    ensures entropy_fault { result ≡ Err MigrateError.EntropyFault → Rose (E.faults pager.old.entropy.now) (E.faults pager.new.entropy.now) }
    ensures keeps { KeepsBeside D.tells E.tells D.reads E.drawn D.faults E.faults (beside_main state.old pager.old.disk.now pager.old.entropy.now) (beside_main state.new pager.new.disk.now pager.new.entropy.now) }
    ensures follows { OnOk result (FollowsBeside D.tells E.tells D.reads E.drawn D.faults E.faults (beside_main state.old pager.old.disk.now pager.old.entropy.now) (beside_main state.new pager.new.disk.now pager.new.entropy.now)) }
    ensures codec { state.new.codec ≡ state.old.codec }
    ensures unpinned { OnOk result (pins_of pager.new.cache.held ≡ no_pins) }
    ensures beside { Beside D.tells E.tells D.reads D.images D.moment D.since E.drawn pager.old.disk pager.new.disk pager.old.entropy pager.new.entropy }
    ensures file { (pager.new.codec ≡ pager.old.codec) × (pager.new.header ≡ pager.old.header) × (pager.new.count ≡ pager.old.count) }
{
    let pages = pager.pages();
    let mut seen = match Seen::new(alloc, pages) {
        Err(_) => return Err(MigrateError::OutOfMemory),
        Ok(seen) => seen,
    };
    let mut cursor = match Cursor::of_family(alloc, root, family) {
        Err(_) => return Err(MigrateError::OutOfMemory),
        Ok(cursor) => cursor,
    };
    let mut loader = match new_loader(alloc, state.usable(), family) {
        Err(_) => return Err(MigrateError::OutOfMemory),
        Ok(loader) => loader,
    };
    match copy_entries(pager, &mut cursor, &mut seen, &mut loader, state) {
        Err(error) => Err(error),
        Ok(()) => finish_tree(loader, state, pager),
    }
}

// A loader of an empty tree, whose root goes to a page that is taken.
fn new_loader(alloc: Global, usable: usize, family: Family) -> Result<Loader, LoadError>
    requires { IsUsable usable }
    ensures ready { IfOk result (λ loader. IsLoader loader usable) }
    ensures family { IfOk result (λ loader. family_of_loader loader ≡ family) }
    ensures at_one { IfOk result (λ loader. loader.at_one ≡ false) }
    ensures last { IfOk result (λ loader. loader.last ≡ None) }
    ensures shallow { (from : ℕ) → IfOk result (IsShallow usable from from) }
    ensures none { (from : ℕ) → IfOk result (TookFew family usable from [] from) }
    ensures empty { (pages : Pages) → pages.usable ≡ usable → IsNonePut pages → IfOk result (λ loader. Loaded pages loader []) }
{
    match family {
        Family::Table => Loader::table(alloc, usable, false),
        Family::Index => Loader::index(alloc, usable),
    }
}

// Pushes every entry that the cursor has not given yet.
fn copy_entries<'d, D: Disk, E: Entropy>(
    pager: &mut Pager<'d, D, E>,
    cursor: &mut Cursor,
    seen: &mut Seen,
    loader: &mut Loader,
    state: &mut FreshState,
) -> Result<(), MigrateError>
    requires cursor { IsCursorReady pager.old.count (pins_of pager.old.cache.held) seen.old cursor.old }
    requires loader { IsLoader loader.old (usable state.old.codec.profile) }
    requires last { loader.old.last ≡ cursor.old.last }
    // all entries of the walk, behind those that were given and pushed before
    ensures loaded { (start : ℕ) → IsWellAs state.old start D.tells E.tells (bytes_of (D.reads pager.old.disk.now).fresh) (E.drawn pager.old.entropy.now)
        → (own : Test) → Covers false own (fresh_pages state.old (bytes_of (D.reads pager.old.disk.now).fresh)) (fresh_pages state.new (bytes_of (D.reads pager.new.disk.now).fresh))
        → (taken : Test) (given : List Row) → IsCursorAt (pages_of pager.old) taken given cursor.old (marked seen.old)
        → Loaded (only own (fresh_pages state.old (bytes_of (D.reads pager.old.disk.now).fresh))) loader.old (map entry_of given)
        → OnOk result (Loaded (only own (fresh_pages state.new (bytes_of (D.reads pager.new.disk.now).fresh))) loader.new
        (map entry_of (entries (walked (pages_of pager.old) taken cursor.old)))) }
    ensures sound { OnOk result (IsTrue D.tells → (taken : Test) (given : List Row) → IsCursorAt (pages_of pager.old) taken given cursor.old (marked seen.old)
        → is_sound (walked (pages_of pager.old) taken cursor.old) ≡ true) }
    ensures loader { OnOk result (IsLoader loader.new (usable state.old.codec.profile)) }
    ensures family { OnOk result (family_of_loader loader.new ≡ family_of_loader loader.old) }
    ensures at_one { OnOk result (loader.new.at_one ≡ loader.old.at_one) }
    ensures unpinned { OnOk result (pins_of pager.new.cache.held ≡ no_pins) }
    ensures of_walk { IfErr result (λ error. IsTrue D.tells → (taken : Test) (given : List Row) → IsCursorAt (pages_of pager.old) taken given cursor.old (marked seen.old)
        → family_of_loader loader.old ≡ walked_family (pages_of pager.old) cursor.old → IsOfWalk (walked (pages_of pager.old) taken cursor.old) error) }
    ensures shallow { (from : ℕ) → IsShallow (usable state.old.codec.profile) from (state.old.taken + 1) loader.old
        → OnOk result (IsShallow (usable state.old.codec.profile) from (state.new.taken + 1) loader.new) }
    ensures took { IsTrue D.tells → (taken : Test) (given more : List Row) → IsCursorAt (pages_of pager.old) taken given cursor.old (marked seen.old)
        → entries (walked (pages_of pager.old) taken cursor.old) ≡ given ++ more
        → (from : ℕ) → TookFew (family_of_loader loader.old) (usable state.old.codec.profile) from (map entry_of given) (state.old.taken + 1) loader.old
        → OnOk result (TookFew (family_of_loader loader.old) (usable state.old.codec.profile) from
        (map entry_of (entries (walked (pages_of pager.old) taken cursor.old))) (state.new.taken + 1) loader.new) }
    ensures few { IsTrue D.tells → (taken : Test) (given more : List Row) → IsCursorAt (pages_of pager.old) taken given cursor.old (marked seen.old)
        → entries (walked (pages_of pager.old) taken cursor.old) ≡ given ++ more
        → (from : ℕ) → TookFew (family_of_loader loader.old) (usable state.old.codec.profile) from (map entry_of given) (state.old.taken + 1) loader.old
        → IfErr result (λ error. state.new.taken + 1 + asked_by error ≤ from + load_pages (family_of_loader loader.old) (usable state.old.codec.profile)
        (map entry_of (entries (walked (pages_of pager.old) taken cursor.old)))) }
    ensures limit { (limit : ℕ) → result ≡ Err (MigrateError.TooManyPages limit) → (limit ≡ state.old.limit) × (state.old.limit ≤ state.new.taken + 1) }
    ensures disk_fault { result ≡ Err MigrateError.DiskFault → Rose (D.faults pager.old.disk.now) (D.faults pager.new.disk.now) }
    ensures entropy_fault { result ≡ Err MigrateError.EntropyFault → Rose (E.faults pager.old.entropy.now) (E.faults pager.new.entropy.now) }
    ensures keeps { KeepsBeside D.tells E.tells D.reads E.drawn D.faults E.faults (beside_main state.old pager.old.disk.now pager.old.entropy.now) (beside_main state.new pager.new.disk.now pager.new.entropy.now) }
    ensures follows { OnOk result (FollowsBeside D.tells E.tells D.reads E.drawn D.faults E.faults (beside_main state.old pager.old.disk.now pager.old.entropy.now) (beside_main state.new pager.new.disk.now pager.new.entropy.now)) }
    ensures codec { state.new.codec ≡ state.old.codec }
    ensures beside { Beside D.tells E.tells D.reads D.images D.moment D.since E.drawn pager.old.disk pager.new.disk pager.old.entropy pager.new.entropy }
    ensures file { (pager.new.codec ≡ pager.old.codec) × (pager.new.header ≡ pager.old.header) × (pager.new.count ≡ pager.old.count) }
{
    'entries: loop {
        match copy_next(pager, cursor, seen, loader, state) {
            Err(error) => return Err(error),
            Ok(false) => return Ok(()),
            Ok(true) => {}
        }
    }
}

// The end of a tree.
fn finish_tree<T: Side>(
    loader: Loader,
    state: &mut FreshState,
    side: &mut T,
) -> Result<u32, MigrateError>
    requires loader { IsLoader loader (usable state.old.codec.profile) }
    requires at_one { loader.at_one ≡ false }
    requires shallow { IsShallow (usable state.old.codec.profile) 0 (state.old.taken + 1) loader }
    ensures tree { (start : ℕ) → IsWellAs state.old start T.tells T.draws_tell (T.fresh side.old) (T.drawn side.old)
        → (own : Test) → Covers false own (fresh_pages state.old (T.fresh side.old)) (fresh_pages state.new (T.fresh side.new))
        → (pushed : List Entry) → Loaded (only own (fresh_pages state.old (T.fresh side.old))) loader pushed
        → IfOk result (λ root. HasTree (only own (fresh_pages state.new (T.fresh side.new))) (family_of_loader loader) root pushed) }
    ensures late { IfErr result (λ error. is_early_stop error ≡ false) }
    ensures few { (from : ℕ) (list : List Entry) → TookFew (family_of_loader loader) (usable state.old.codec.profile) from list (state.old.taken + 1) loader
        → state.new.taken + 1 ≤ from + load_pages (family_of_loader loader) (usable state.old.codec.profile) list }
    ensures asked { (from : ℕ) (list : List Entry) → TookFew (family_of_loader loader) (usable state.old.codec.profile) from list (state.old.taken + 1) loader
        → IfErr result (λ error. state.new.taken + 1 + asked_by error ≤ from + load_pages (family_of_loader loader) (usable state.old.codec.profile) list) }
    ensures limit { (limit : ℕ) → result ≡ Err (MigrateError.TooManyPages limit) → (limit ≡ state.old.limit) × (state.old.limit ≤ state.new.taken + 1) }
    ensures disk_fault { result ≡ Err MigrateError.DiskFault → Rose (T.disk_faults side.old) (T.disk_faults side.new) }
    ensures entropy_fault { result ≡ Err MigrateError.EntropyFault → Rose (T.draw_faults side.old) (T.draw_faults side.new) }
    ensures keeps { KeepsTarget T.tells T.draws_tell T.fresh T.drawn T.disk_faults T.draw_faults
        (record { state = state.old; side = side.old }) (record { state = state.new; side = side.new }) }
    ensures follows { OnOk result (FollowsTarget T.tells T.draws_tell T.fresh T.drawn T.disk_faults T.draw_faults
        (record { state = state.old; side = side.old }) (record { state = state.new; side = side.new })) }
    ensures codec { state.new.codec ≡ state.old.codec }
    ensures kept { T.only_fresh side.old side.new }
{
    let mut out = state.out(side);
    match loader.finish(&mut out) {
        Ok(root) => Ok(root),
        Err(error) => Err(load_error(error)),
    }
}
