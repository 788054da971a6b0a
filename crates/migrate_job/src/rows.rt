// The rows of the schema, loaded with the new roots of their trees.
ghost use Rattle.std.specs.Prelude.{◌≡◌, ◌≤◌, ◌<◌, ◌+◌, ℕ, true, false, List, [], ◌∷◌, ◌++◌, ◌⊎◌, Some, None, length, IfOk, IfErr, OnErr, OnOk};
ghost use Rattle.btree_page.specs.declared.kind.Family.TheVariants.{Table};
ghost use Rattle.btree_page.specs.Payload.{max_payload};
ghost use Rattle.btree_model.specs.Content.{Entry};
ghost use Rattle.bulk_load.specs.Few.{TookFew, load_pages};
ghost use Rattle.bulk_load.specs.Found.{HasTree};
ghost use Rattle.bulk_load.specs.Loader.{IsLoader, Loaded, family_of_loader};
ghost use Rattle.bulk_load.specs.Out.{Follows, KeepsPages};
ghost use Rattle.bulk_load.specs.Own.{Covers, CoversNew, only};
ghost use Rattle.bulk_load.specs.declared.out.OutError.TheVariants.{TooManyPages};
ghost use Rattle.load_model.specs.Stands.{IsNonePut};
ghost use Rattle.db_format.specs.Pages.{IsUsable, Pages, Test};
ghost use Rattle.db_format.specs.Record.{columns};
ghost use Rattle.db_format.specs.Row.{record_bytes};
ghost use Rattle.migrate_job.specs.Copied.{AreRenamed, HasLongRow, HasRowsCause, IsRenamed, new_entries, payload_with, row_values, values_of_payload};

use crate::row::{RowError, row_with_root};
use bulk_load::{LoadError, Loader, PageOut};
use db_format::LONGEST_PAYLOAD;
use schema_map::SchemaRow;
use std::alloc::Global;

/// Why the rows were not loaded.
#[derive(Clone, Copy, Debug, PartialEq, Eq)]
pub(crate) enum RowsError {
    /// A row that is written anew would be longer than a payload may be.
    TooLong,
    /// A row was not loaded.
    Load(LoadError),
}

/// Loads the schema at page 1, which was not put before. Each row that has a tree names its new root, 0 standing for none.
#[tactic(auto, using(bulk_load::proofs::PutLemmas::keeps_after, bulk_load::proofs::PutLemmas::follows_all))]
pub(crate) fn load_rows<P: PageOut>(
    alloc: Global,
    out: &mut P,
    rows: &[SchemaRow],
    roots: &[u32],
) -> Result<(), RowsError>
    requires free { (P.pages out.old).accepts 1 ≡ false }
    requires each { length roots.now ≡ length rows.now }
    ensures tree { (start : ℕ) → P.well start out.old → (own : Test) → CoversNew true own (P.pages out.old) (P.pages out.new)
        → OnOk result (HasTree (only own (P.pages out.new)) Table 1 (new_entries rows.now roots.now)) }
    ensures renamed { OnOk result (AreRenamed rows.now roots.now) }
    // where no number is left, or a row is too long, the schema wants that much
    ensures asked { IfErr result (λ error. (limit : ℕ) → error ≡ RowsError.Load (LoadError.Out (TooManyPages limit))
        → (P.pages out.new).count + 1 ≤ (P.pages out.old).count + load_pages Table (P.pages out.old).usable (new_entries rows.now roots.now)) }
    ensures too_long { IfErr result (λ error. error ≡ RowsError.TooLong → HasLongRow rows.now roots.now) }
    ensures cause { IfErr result (HasRowsCause P.pages P.limit P.faults out.old out.new) }
    ensures keeps { KeepsPages P.pages P.limit P.faults P.well true out.old out.new }
    ensures follows { OnOk result (Follows P.pages P.limit P.faults P.well true out.old out.new) }
    ensures fresh { P.only_fresh out.old out.new }
{
    let mut loader = match new_loader(alloc, out.usable()) {
        Ok(loader) => loader,
        Err(error) => return Err(RowsError::Load(error)),
    };
    push_rows(alloc, &mut loader, out, rows, roots)?;
    match loader.finish(out) {
        Ok(_) => Ok(()),
        Err(error) => Err(RowsError::Load(error)),
    }
}

// A loader of the empty schema.
fn new_loader(alloc: Global, usable: usize) -> Result<Loader, LoadError>
    requires { IsUsable usable }
    ensures ready { IfOk result (λ loader. IsLoader loader usable) }
    ensures family { IfOk result (λ loader. family_of_loader loader ≡ Table) }
    ensures at_one { IfOk result (λ loader. loader.at_one ≡ true) }
    ensures empty { (pages : Pages) → pages.usable ≡ usable → IsNonePut pages → IfOk result (λ loader. Loaded pages loader []) }
    ensures none { (from : ℕ) → IfOk result (TookFew Table usable from [] from) }
    ensures memory { IfErr result (λ error. error ≡ LoadError.OutOfMemory) }
{
    Loader::table(alloc, usable, true)
}

// Pushes the rows in order.
fn push_rows<P: PageOut>(
    alloc: Global,
    loader: &mut Loader,
    out: &mut P,
    rows: &[SchemaRow],
    roots: &[u32],
) -> Result<(), RowsError>
    requires ready { IsLoader loader.old (P.pages out.old).usable }
    requires family { family_of_loader loader.old ≡ Table }
    requires each { length roots.now ≡ length rows.now }
    ensures loaded { (start : ℕ) → P.well start out.old → (own : Test) → Covers false own (P.pages out.old) (P.pages out.new)
        → Loaded (only own (P.pages out.old)) loader.old [] → OnOk result (Loaded (only own (P.pages out.new)) loader.new (new_entries rows.now roots.now)) }
    ensures pushed { (from : ℕ) → TookFew Table (P.pages out.old).usable from [] (P.pages out.old).count loader.old
        → OnOk result (TookFew Table (P.pages out.old).usable from (new_entries rows.now roots.now) (P.pages out.new).count loader.new) }
    ensures asked { (from : ℕ) → TookFew Table (P.pages out.old).usable from [] (P.pages out.old).count loader.old
        → OnErr result ((P.pages out.new).count + 1 ≤ from + load_pages Table (P.pages out.old).usable (new_entries rows.now roots.now)) }
    ensures too_long { IfErr result (λ error. error ≡ RowsError.TooLong → HasLongRow rows.now roots.now) }
    ensures renamed { OnOk result (AreRenamed rows.now roots.now) }
    ensures ready { OnOk result (IsLoader loader.new (P.pages out.new).usable) }
    ensures family { OnOk result (family_of_loader loader.new ≡ Table) }
    ensures at_one { OnOk result (loader.new.at_one ≡ loader.old.at_one) }
    ensures cause { IfErr result (HasRowsCause P.pages P.limit P.faults out.old out.new) }
    ensures keeps { KeepsPages P.pages P.limit P.faults P.well false out.old out.new }
    ensures follows { OnOk result (Follows P.pages P.limit P.faults P.well false out.old out.new) }
    ensures fresh { P.only_fresh out.old out.new }
{
    for i in 0..rows.len() {
        let row = &rows[i];
        push_row(
            alloc,
            loader,
            out,
            row.rowid,
            row.root,
            row.payload.as_slice(),
            roots[i],
        )?;
    }
    Ok(())
}

// Pushes a row that named the root `old`, 0 for none, where its tree has the root `new` now.
#[tactic(auto, using(bulk_load::proofs::PutLemmas::keeps_same))]
fn push_row<P: PageOut>(
    alloc: Global,
    loader: &mut Loader,
    out: &mut P,
    rowid: i64,
    old: u32,
    payload: &[u8],
    new: u32,
) -> Result<(), RowsError>
    requires ready { IsLoader loader.old (P.pages out.old).usable }
    requires family { family_of_loader loader.old ≡ Table }
    ensures loaded { (start : ℕ) → P.well start out.old → (own : Test) → Covers false own (P.pages out.old) (P.pages out.new)
        → (pushed : List Entry) → Loaded (only own (P.pages out.old)) loader.old pushed
        → OnOk result (Loaded (only own (P.pages out.new)) loader.new (pushed ++ record { rowid = Some rowid; payload = payload_with payload.now old new } ∷ [])) }
    ensures pushed { (from : ℕ) (list : List Entry) → TookFew Table (P.pages out.old).usable from list (P.pages out.old).count loader.old
        → OnOk result (TookFew Table (P.pages out.old).usable from (list ++ record { rowid = Some rowid; payload = payload_with payload.now old new } ∷ []) (P.pages out.new).count loader.new) }
    ensures asked { (from : ℕ) (list : List Entry) → TookFew Table (P.pages out.old).usable from list (P.pages out.old).count loader.old
        → OnErr result ((P.pages out.new).count + 1 ≤ from + load_pages Table (P.pages out.old).usable (list ++ record { rowid = Some rowid; payload = payload_with payload.now old new } ∷ [])) }
    ensures ready { OnOk result (IsLoader loader.new (P.pages out.new).usable) }
    ensures family { OnOk result (family_of_loader loader.new ≡ Table) }
    ensures at_one { OnOk result (loader.new.at_one ≡ loader.old.at_one) }
    ensures renamed { OnOk result (IsRenamed payload.now old new) }
    ensures too_long { IfErr result (λ error. error ≡ RowsError.TooLong → max_payload < length (payload_with payload.now old new)) }
    ensures cause { IfErr result (HasRowsCause P.pages P.limit P.faults out.old out.new) }
    ensures keeps { KeepsPages P.pages P.limit P.faults P.well false out.old out.new }
    ensures follows { OnOk result (Follows P.pages P.limit P.faults P.well false out.old out.new) }
    ensures fresh { P.only_fresh out.old out.new }
{
    if payload.len() as u64 > LONGEST_PAYLOAD {
        return Err(RowsError::Load(LoadError::OutOfMemory));
    }
    if old == 0 {
        return push_payload(loader, out, rowid, payload);
    }
    let renamed = renamed_row(alloc, payload, new)?;
    push_payload(loader, out, rowid, &renamed)
}

// The row with another root page.
fn renamed_row(alloc: Global, payload: &[u8], root: u32) -> Result<Vec<u8>, RowsError>
    requires short { length payload.now ≤ max_payload }
    ensures bytes { IfOk result (λ row. row.items ≡ record_bytes (row_values root (values_of_payload payload.now))) }
    ensures reads { IfOk result (λ row. columns row.items ≡ Some (row_values root (values_of_payload payload.now))) }
    ensures long { OnOk result (5 ≤ length (values_of_payload payload.now)) }
    ensures short { IfOk result (λ row. length row.items ≤ max_payload) }
    ensures too_long { IfErr result (λ error. error ≡ RowsError.TooLong → max_payload < length (record_bytes (row_values root (values_of_payload payload.now)))) }
    ensures memory { IfErr result (λ error. (error ≡ RowsError.TooLong) ⊎ (error ≡ RowsError.Load LoadError.OutOfMemory)) }
{
    match row_with_root(alloc, payload, root) {
        Ok(row) => Ok(row),
        Err(RowError::TooLong) => Err(RowsError::TooLong),
        Err(RowError::NoRow | RowError::OutOfMemory) => {
            Err(RowsError::Load(LoadError::OutOfMemory))
        }
    }
}

// Pushes this row.
fn push_payload<P: PageOut>(
    loader: &mut Loader,
    out: &mut P,
    rowid: i64,
    payload: &[u8],
) -> Result<(), RowsError>
    requires ready { IsLoader loader.old (P.pages out.old).usable }
    requires family { family_of_loader loader.old ≡ Table }
    requires short { length payload.now ≤ max_payload }
    ensures loaded { (start : ℕ) → P.well start out.old → (own : Test) → Covers false own (P.pages out.old) (P.pages out.new)
        → (pushed : List Entry) → Loaded (only own (P.pages out.old)) loader.old pushed
        → OnOk result (Loaded (only own (P.pages out.new)) loader.new (pushed ++ record { rowid = Some rowid; payload = payload.now } ∷ [])) }
    ensures pushed { (from : ℕ) (list : List Entry) → TookFew Table (P.pages out.old).usable from list (P.pages out.old).count loader.old
        → OnOk result (TookFew Table (P.pages out.old).usable from (list ++ record { rowid = Some rowid; payload = payload.now } ∷ []) (P.pages out.new).count loader.new) }
    ensures asked { (from : ℕ) (list : List Entry) → TookFew Table (P.pages out.old).usable from list (P.pages out.old).count loader.old
        → OnErr result ((P.pages out.new).count + 1 ≤ from + load_pages Table (P.pages out.old).usable (list ++ record { rowid = Some rowid; payload = payload.now } ∷ [])) }
    ensures ready { OnOk result (IsLoader loader.new (P.pages out.new).usable) }
    ensures family { OnOk result (family_of_loader loader.new ≡ Table) }
    ensures at_one { OnOk result (loader.new.at_one ≡ loader.old.at_one) }
    ensures not_long { IfErr result (λ error. error ≡ RowsError.TooLong → ⊥) }
    ensures cause { IfErr result (HasRowsCause P.pages P.limit P.faults out.old out.new) }
    ensures keeps { KeepsPages P.pages P.limit P.faults P.well false out.old out.new }
    ensures follows { OnOk result (Follows P.pages P.limit P.faults P.well false out.old out.new) }
    ensures fresh { P.only_fresh out.old out.new }
{
    match loader.push(out, Some(rowid), payload) {
        Ok(()) => Ok(()),
        Err(error) => Err(RowsError::Load(error)),
    }
}
