// A whole database is loaded anew.
ghost use Rattle.std.specs.Prelude.{◌≡◌, ◌≤◌, ◌<◌, ◌+◌, ◌⊎◌, ℕ, true, false, List, Option, Some, Err, IfOk, IfErr, OnOk, IsTrue, length, map};
ghost use Rattle.std.specs.List.{All};
ghost use Rattle.btree_model.specs.Content.{content};
ghost use Rattle.btree_model.specs.Finding.{entries};
ghost use Rattle.btree_model.specs.Parts.{is_database};
ghost use Rattle.btree_page.specs.declared.kind.Family.TheVariants.{Table};
ghost use Rattle.bulk_load.specs.Few.{load_pages};
ghost use Rattle.bulk_load.specs.Found.{HasTree, HoldsItems, IsTightBehind};
ghost use Rattle.bulk_load.specs.Out.{AreAllPut, Follows, KeepsPages};
ghost use Rattle.bulk_load.specs.Own.{CoversNew, only};
ghost use Rattle.cipher_profile.specs.Profile.{IsListed, usable};
ghost use Rattle.db_format.specs.Pages.{Test};
ghost use Rattle.db_format.specs.Source.{no_pins};
ghost use Rattle.db_format.specs.Value.{Datum};
ghost use Rattle.edge_model.specs.Causes.{Rose};
ghost use Rattle.edge_model.specs.Files.{bytes_of};
ghost use Rattle.fresh_file.specs.State.{IsWellAs, most_pages, fresh_pages};
ghost use Rattle.pager.specs.Beside.{Beside};
ghost use Rattle.pager.specs.Held.{pins_of};
ghost use Rattle.pager.specs.PagesOf.{pages_of};
ghost use Rattle.migrate_job.specs.Bound.{pages_at_most};
ghost use Rattle.migrate_job.specs.Copied.{AreCopied, AreRenamed, HasLongRow, IsCopiedTree, IsRooted, IsSoundRow, new_entries, rows_error, tree_most, trees_most};
ghost use Rattle.migrate_job.specs.Copying.{FollowsBeside, IsTargetWell, KeepsBeside, beside_main, target_faults, target_limit, target_pages};
ghost use Rattle.migrate_job.specs.Stops.{is_early_stop};
ghost use Rattle.schema_map.specs.Census.{schema_after};
ghost use Rattle.schema_map.specs.Schema.{schema_row};

use crate::copying::load_error;
use crate::error::MigrateError;
use crate::rows::{RowsError, load_rows};
use crate::tree::copy_tree;
use bulk_load::LoadError;
use edge_model::{Disk, Entropy};
use fresh_disk::Side;
use fresh_file::FreshState;
use pager::Pager;
use schema_map::{Schema, SchemaRow};
use std::alloc::Global;

/// Loads every tree of the old file anew in schema order, and last the schema, at page 1. The first 100 bytes of page 1 are left for the
/// header.
pub(crate) fn copy_database<'d, D: Disk, E: Entropy>(
    alloc: Global,
    pager: &mut Pager<'d, D, E>,
    schema: &Schema,
    state: &mut FreshState,
) -> Result<(), MigrateError>
    requires unpinned { pins_of pager.old.cache.held ≡ no_pins }
    requires none { ((fresh_pages state.old (bytes_of (D.reads pager.old.disk.now).fresh)).count ≡ 1) × ((n : ℕ) → (fresh_pages state.old (bytes_of (D.reads pager.old.disk.now).fresh)).accepts n ≡ false) }
    requires roots { All (λ row. row.root ≤ pager.old.count) schema.now }
    // what the new pages hold behind a header
    ensures copied { (start : ℕ) → IsWellAs state.old start D.tells E.tells (bytes_of (D.reads pager.old.disk.now).fresh) (E.drawn pager.old.entropy.now)
        → is_database (pages_of pager.old) ≡ true → schema.now ≡ map schema_row (entries (schema_after (pages_of pager.old)))
        → OnOk result (HoldsItems (fresh_pages state.new (bytes_of (D.reads pager.new.disk.now).fresh)) (content (pages_of pager.old)).rows) }
    // and that none of them stands beside the schema and the trees
    ensures tight { (start : ℕ) → IsWellAs state.old start D.tells E.tells (bytes_of (D.reads pager.old.disk.now).fresh) (E.drawn pager.old.entropy.now)
        → is_database (pages_of pager.old) ≡ true → schema.now ≡ map schema_row (entries (schema_after (pages_of pager.old)))
        → OnOk result (IsTightBehind (fresh_pages state.new (bytes_of (D.reads pager.new.disk.now).fresh))) }
    ensures well { (start : ℕ) → IsWellAs state.old start D.tells E.tells (bytes_of (D.reads pager.old.disk.now).fresh) (E.drawn pager.old.entropy.now)
        → OnOk result (IsWellAs state.new start D.tells E.tells (bytes_of (D.reads pager.new.disk.now).fresh) (E.drawn pager.new.entropy.now)) }
    ensures whole { OnOk result (AreAllPut (fresh_pages state.new (bytes_of (D.reads pager.new.disk.now).fresh))) }
    // why it stopped: nothing that is found in the old pages
    ensures late { IfErr result (λ error. IsTrue D.tells → is_database (pages_of pager.old) ≡ true → schema.now ≡ map schema_row (entries (schema_after (pages_of pager.old))) → is_early_stop error ≡ false) }
    ensures limit { (limit : ℕ) → result ≡ Err (MigrateError.TooManyPages limit) → limit ≡ state.old.limit }
    ensures few { (start : ℕ) → IsWellAs state.old start D.tells E.tells (bytes_of (D.reads pager.old.disk.now).fresh) (E.drawn pager.old.entropy.now)
        → IsListed state.old.codec.profile → state.old.limit ≡ most_pages state.old.codec.profile
        → is_database (pages_of pager.old) ≡ true → schema.now ≡ map schema_row (entries (schema_after (pages_of pager.old)))
        → (limit : ℕ) → result ≡ Err (MigrateError.TooManyPages limit)
        → state.old.limit < pages_at_most (usable state.old.codec.profile) state.old.limit (content (pages_of pager.old)) }
    ensures disk_fault { result ≡ Err MigrateError.DiskFault → Rose (D.faults pager.old.disk.now) (D.faults pager.new.disk.now) }
    ensures entropy_fault { result ≡ Err MigrateError.EntropyFault → Rose (E.faults pager.old.entropy.now) (E.faults pager.new.entropy.now) }
    // what stays
    ensures same { (state.new.codec ≡ state.old.codec) × (state.new.limit ≡ state.old.limit) }
    ensures unpinned { OnOk result (pins_of pager.new.cache.held ≡ no_pins) }
    ensures beside { Beside D.tells E.tells D.reads D.images D.moment D.since E.drawn pager.old.disk pager.new.disk pager.old.entropy pager.new.entropy }
    ensures file { (pager.new.codec ≡ pager.old.codec) × (pager.new.header ≡ pager.old.header) × (pager.new.count ≡ pager.old.count) }
    ensures disk_later { D.faults pager.old.disk.now ≤ D.faults pager.new.disk.now }
    ensures entropy_later { E.faults pager.old.entropy.now ≤ E.faults pager.new.entropy.now }
{
    let rows = schema.rows();
    match copy_trees(alloc, pager, rows, state) {
        Ok(roots) => load_schema(alloc, pager, rows, &roots, state),
        Err(error) => Err(error),
    }
}

// Loads the trees of these rows in order, and answers their new roots, 0 standing for none.
fn copy_trees<'d, D: Disk, E: Entropy>(
    alloc: Global,
    pager: &mut Pager<'d, D, E>,
    rows: &[SchemaRow],
    state: &mut FreshState,
) -> Result<Vec<u32>, MigrateError>
    requires unpinned { pins_of pager.old.cache.held ≡ no_pins }
    requires high { All (λ row. row.root ≤ pager.old.count) rows.now }
    ensures each { IfOk result (λ roots. length roots.items ≡ length rows.now) }
    ensures trees { (start : ℕ) → IsWellAs state.old start D.tells E.tells (bytes_of (D.reads pager.old.disk.now).fresh) (E.drawn pager.old.entropy.now)
        → IfOk result (λ roots. AreCopied (pages_of pager.old) (fresh_pages state.new (bytes_of (D.reads pager.new.disk.now).fresh)) (fresh_pages state.old (bytes_of (D.reads pager.old.disk.now).fresh)).count (fresh_pages state.new (bytes_of (D.reads pager.new.disk.now).fresh)).count rows.now roots.items) }
    ensures late { IfErr result (λ error. IsTrue D.tells → All (IsSoundRow (pages_of pager.old)) rows.now → is_early_stop error ≡ false) }
    ensures limit { (limit : ℕ) → result ≡ Err (MigrateError.TooManyPages limit) → limit ≡ state.old.limit }
    ensures few { OnOk result (IsTrue D.tells → state.new.taken ≤ state.old.taken + trees_most (pages_of pager.old) (usable state.old.codec.profile) rows.now) }
    ensures asked { (limit : ℕ) → result ≡ Err (MigrateError.TooManyPages limit) → IsTrue D.tells
        → state.old.limit ≤ state.old.taken + trees_most (pages_of pager.old) (usable state.old.codec.profile) rows.now }
    ensures disk_fault { result ≡ Err MigrateError.DiskFault → Rose (D.faults pager.old.disk.now) (D.faults pager.new.disk.now) }
    ensures entropy_fault { result ≡ Err MigrateError.EntropyFault → Rose (E.faults pager.old.entropy.now) (E.faults pager.new.entropy.now) }
    // what stays
    ensures keeps { KeepsBeside D.tells E.tells D.reads E.drawn D.faults E.faults (beside_main state.old pager.old.disk.now pager.old.entropy.now) (beside_main state.new pager.new.disk.now pager.new.entropy.now) }
    ensures follows { OnOk result (FollowsBeside D.tells E.tells D.reads E.drawn D.faults E.faults (beside_main state.old pager.old.disk.now pager.old.entropy.now) (beside_main state.new pager.new.disk.now pager.new.entropy.now)) }
    ensures codec { state.new.codec ≡ state.old.codec }
    ensures unpinned { OnOk result (pins_of pager.new.cache.held ≡ no_pins) }
    ensures beside { Beside D.tells E.tells D.reads D.images D.moment D.since E.drawn pager.old.disk pager.new.disk pager.old.entropy pager.new.entropy }
    ensures file { (pager.new.codec ≡ pager.old.codec) × (pager.new.header ≡ pager.old.header) × (pager.new.count ≡ pager.old.count) }
{
    let mut roots = Vec::new(alloc);
    for i in 0..rows.len() {
        match copy_row(alloc, pager, rows[i].root, state) {
            Err(error) => return Err(error),
            Ok(root) => match roots.push(root) {
                Err(_) => return Err(MigrateError::OutOfMemory),
                Ok(()) => {}
            },
        }
    }
    Ok(roots)
}

// Loads the tree with this root, and answers its new root. 0 stands for no tree.
fn copy_row<'d, D: Disk, E: Entropy>(
    alloc: Global,
    pager: &mut Pager<'d, D, E>,
    root: u32,
    state: &mut FreshState,
) -> Result<u32, MigrateError>
    requires unpinned { pins_of pager.old.cache.held ≡ no_pins }
    requires high { root ≤ pager.old.count }
    ensures tree { (start : ℕ) → IsWellAs state.old start D.tells E.tells (bytes_of (D.reads pager.old.disk.now).fresh) (E.drawn pager.old.entropy.now)
        → IfOk result (λ new. IsCopiedTree (pages_of pager.old) (fresh_pages state.new (bytes_of (D.reads pager.new.disk.now).fresh)) (fresh_pages state.old (bytes_of (D.reads pager.old.disk.now).fresh)).count (fresh_pages state.new (bytes_of (D.reads pager.new.disk.now).fresh)).count root new) }
    ensures late { IfErr result (λ error. IsTrue D.tells → (values : List Datum) → IsRooted (pages_of pager.old) values root → is_early_stop error ≡ false) }
    ensures limit { (limit : ℕ) → result ≡ Err (MigrateError.TooManyPages limit) → limit ≡ state.old.limit }
    ensures few { IsTrue D.tells → state.new.taken ≤ state.old.taken + tree_most (pages_of pager.old) (usable state.old.codec.profile) root }
    ensures asked { (limit : ℕ) → result ≡ Err (MigrateError.TooManyPages limit) → IsTrue D.tells
        → state.old.limit ≤ state.old.taken + tree_most (pages_of pager.old) (usable state.old.codec.profile) root }
    ensures disk_fault { result ≡ Err MigrateError.DiskFault → Rose (D.faults pager.old.disk.now) (D.faults pager.new.disk.now) }
    ensures entropy_fault { result ≡ Err MigrateError.EntropyFault → Rose (E.faults pager.old.entropy.now) (E.faults pager.new.entropy.now) }
    // what stays
    ensures keeps { KeepsBeside D.tells E.tells D.reads E.drawn D.faults E.faults (beside_main state.old pager.old.disk.now pager.old.entropy.now) (beside_main state.new pager.new.disk.now pager.new.entropy.now) }
    ensures follows { OnOk result (FollowsBeside D.tells E.tells D.reads E.drawn D.faults E.faults (beside_main state.old pager.old.disk.now pager.old.entropy.now) (beside_main state.new pager.new.disk.now pager.new.entropy.now)) }
    ensures codec { state.new.codec ≡ state.old.codec }
    ensures unpinned { OnOk result (pins_of pager.new.cache.held ≡ no_pins) }
    ensures beside { Beside D.tells E.tells D.reads D.images D.moment D.since E.drawn pager.old.disk pager.new.disk pager.old.entropy pager.new.entropy }
    ensures file { (pager.new.codec ≡ pager.old.codec) × (pager.new.header ≡ pager.old.header) × (pager.new.count ≡ pager.old.count) }
{
    if root == 0 {
        return Ok(0);
    }
    copy_tree(alloc, pager, state, root)
}

// Loads the schema at page 1, where the trees of these rows have these roots.
fn load_schema<T: Side>(
    alloc: Global,
    side: &mut T,
    rows: &[SchemaRow],
    roots: &[u32],
    state: &mut FreshState,
) -> Result<(), MigrateError>
    requires free { (fresh_pages state.old (T.fresh side.old)).accepts 1 ≡ false }
    requires each { length roots.now ≡ length rows.now }
    ensures tree { (start : ℕ) → IsWellAs state.old start T.tells T.draws_tell (T.fresh side.old) (T.drawn side.old)
        → (own : Test) → CoversNew true own (fresh_pages state.old (T.fresh side.old)) (fresh_pages state.new (T.fresh side.new))
        → OnOk result (HasTree (only own (fresh_pages state.new (T.fresh side.new))) Table 1 (new_entries rows.now roots.now)) }
    ensures renamed { OnOk result (AreRenamed rows.now roots.now) }
    ensures late { IfErr result (λ error. is_early_stop error ≡ false) }
    ensures limit { (limit : ℕ) → result ≡ Err (MigrateError.TooManyPages limit) → limit ≡ state.old.limit }
    ensures asked { (limit : ℕ) → result ≡ Err (MigrateError.TooManyPages limit)
        → HasLongRow rows.now roots.now ⊎ (state.old.limit ≤ state.old.taken + load_pages Table (usable state.old.codec.profile) (new_entries rows.now roots.now)) }
    ensures disk_fault { result ≡ Err MigrateError.DiskFault → Rose (T.disk_faults side.old) (T.disk_faults side.new) }
    ensures entropy_fault { result ≡ Err MigrateError.EntropyFault → Rose (T.draw_faults side.old) (T.draw_faults side.new) }
    ensures follows { OnOk result (Follows (target_pages T.fresh) target_limit (target_faults T.disk_faults T.draw_faults) (IsTargetWell T.tells T.draws_tell T.fresh T.drawn) true
        (record { state = state.old; side = side.old }) (record { state = state.new; side = side.new })) }
    ensures codec { state.new.codec ≡ state.old.codec }
    ensures limit_same { state.new.limit ≡ state.old.limit }
    ensures kept { T.only_fresh side.old side.new }
    ensures disk_later { T.disk_faults side.old ≤ T.disk_faults side.new }
    ensures entropy_later { T.draw_faults side.old ≤ T.draw_faults side.new }
{
    let limit = state.page_limit();
    let mut out = state.out(side);
    match load_rows(alloc, &mut out, rows, roots) {
        Ok(()) => Ok(()),
        Err(error) => Err(rows_error(error, limit)),
    }
}

// How rows that are not loaded stop the command.
fn rows_error(error: RowsError, limit: u32) -> MigrateError
    requires { error ≡ RowsError.Load LoadError.TooDeep → ⊥ }
    ensures { rows_error limit error ≡ Some result }
{
    match error {
        RowsError::TooLong => MigrateError::TooManyPages { limit },
        // The rows of a census are in order.
        RowsError::Load(LoadError::RowidOrder | LoadError::OutOfMemory) =>
            MigrateError::OutOfMemory,
        RowsError::Load(LoadError::Out(why)) => load_error(LoadError::Out(why)),
        RowsError::Load(LoadError::TooDeep) => unreachable!(),
    }
}
