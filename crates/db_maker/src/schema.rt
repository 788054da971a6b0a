// The schema of a made database.
ghost use Rattle.std.specs.Prelude.{◌≡◌, ◌≤◌, ◌+◌, ◌^◌, ℕ, false, true, List, [], ◌∷◌, ◌++◌, pos, Some, Err, length, IfOk, IfErr, OnOk, OnErr};
ghost use Rattle.btree_page.specs.declared.kind.Family.TheVariants.{Table};
ghost use Rattle.btree_page.specs.Payload.{max_payload};
ghost use Rattle.btree_model.specs.Content.{Entry};
ghost use Rattle.db_format.specs.Row.{record_bytes};
ghost use Rattle.db_format.specs.Pages.{Test};
ghost use Rattle.bulk_load.specs.Few.{TookFew, load_pages};
ghost use Rattle.bulk_load.specs.Out.{Follows, HasEndCause, HasLoadCause, KeepsPages, is_load_refusal};
ghost use Rattle.bulk_load.specs.Own.{Covers, CoversNew, only};
ghost use Rattle.bulk_load.specs.Loader.{IsLoader, Loaded, family_of_loader, is_late};
ghost use Rattle.bulk_load.specs.Found.{HasTree};
ghost use Rattle.db_maker.specs.Pages.{schema_pages};
ghost use Rattle.db_maker.specs.Parts.{part_values, schema_entries, schema_entry, schema_values, view_values};

use crate::part::Part;
use bulk_load::{LoadError, Loader, PageOut};
use db_format::{OutOfMemory, RowPieces, Value, write_row};
use std::alloc::Global;

const ITEMS: &[u8] =
    b"CREATE TABLE items(id INTEGER PRIMARY KEY, name TEXT, data BLOB, size INTEGER)";

const NAMES: &[u8] = b"CREATE INDEX items_name ON items(name)";

const CODES: &[u8] = b"CREATE TABLE codes(code TEXT PRIMARY KEY, item INTEGER) WITHOUT ROWID";

const VIEW: &[u8] = b"CREATE VIEW names AS SELECT name FROM items";

/// Loads the schema at page 1, where the trees have these roots.
pub(crate) fn load_schema<P: PageOut>(
    alloc: Global,
    out: &mut P,
    items: u32,
    names: u32,
    codes: u32,
) -> Result<(), LoadError>
    requires free { (P.pages out.old).accepts 1 ≡ false }
    ensures tree { (start : ℕ) → P.well start out.old → (own : Test) → CoversNew true own (P.pages out.old) (P.pages out.new)
        → OnOk result (HasTree (only own (P.pages out.new)) Table 1 (schema_entries items names codes)) }
    ensures cause { IfErr result (HasEndCause P.pages P.limit P.faults out.old out.new) }
    ensures few { (P.pages out.new).count ≤ (P.pages out.old).count + schema_pages }
    ensures asked { IfErr result (λ error. is_load_refusal error ≡ true → (P.pages out.new).count + 1 ≤ (P.pages out.old).count + schema_pages) }
    ensures deep { result ≡ Err LoadError.TooDeep → 2 ^ 28 ≤ (P.pages out.new).count }
    ensures keeps { KeepsPages P.pages P.limit P.faults P.well true out.old out.new }
    ensures follows { OnOk result (Follows P.pages P.limit P.faults P.well true out.old out.new) }
    ensures fresh { P.only_fresh out.old out.new }
{
    let mut loader = Loader::table(alloc, out.usable(), true)?;
    push_schema(alloc, &mut loader, out, items, names, codes)?;
    loader.finish(out)?;
    Ok(())
}

// Pushes the four rows.
fn push_schema<P: PageOut>(
    alloc: Global,
    loader: &mut Loader,
    out: &mut P,
    items: u32,
    names: u32,
    codes: u32,
) -> Result<(), LoadError>
    requires ready { IsLoader loader.old (P.pages out.old).usable }
    requires family { family_of_loader loader.old ≡ Table }
    requires last { loader.old.last ≡ None }
    ensures loaded { (start : ℕ) → P.well start out.old → (own : Test) → Covers false own (P.pages out.old) (P.pages out.new)
        → Loaded (only own (P.pages out.old)) loader.old [] → OnOk result (Loaded (only own (P.pages out.new)) loader.new (schema_entries items names codes)) }
    ensures ready { OnOk result (IsLoader loader.new (P.pages out.new).usable) }
    ensures family { OnOk result (family_of_loader loader.new ≡ Table) }
    ensures at_one { OnOk result (loader.new.at_one ≡ loader.old.at_one) }
    ensures cause { IfErr result (HasLoadCause P.pages P.limit P.faults out.old out.new) }
    ensures pushed { TookFew Table (P.pages out.old).usable (P.pages out.old).count [] (P.pages out.old).count loader.old
        → OnOk result (TookFew Table (P.pages out.old).usable (P.pages out.old).count (schema_entries items names codes) (P.pages out.new).count loader.new) }
    ensures few { TookFew Table (P.pages out.old).usable (P.pages out.old).count [] (P.pages out.old).count loader.old
        → OnErr result ((P.pages out.new).count + 1 ≤ (P.pages out.old).count + load_pages Table (P.pages out.old).usable (schema_entries items names codes)) }
    ensures keeps { KeepsPages P.pages P.limit P.faults P.well false out.old out.new }
    ensures follows { OnOk result (Follows P.pages P.limit P.faults P.well false out.old out.new) }
    ensures fresh { P.only_fresh out.old out.new }
{
    push_part(alloc, loader, out, 1, Part::Items, items)?;
    push_part(alloc, loader, out, 2, Part::Names, names)?;
    push_part(alloc, loader, out, 3, Part::Codes, codes)?;
    push_view(alloc, loader, out)?;
    Ok(())
}

// Pushes the row of a tree with this root.
#[tactic(auto, using(bulk_load::proofs::PutLemmas::keeps_same))]
fn push_part<P: PageOut>(
    alloc: Global,
    loader: &mut Loader,
    out: &mut P,
    rowid: i64,
    part: Part,
    root: u32,
) -> Result<(), LoadError>
    requires ready { IsLoader loader.old (P.pages out.old).usable }
    requires family { family_of_loader loader.old ≡ Table }
    requires above { is_late loader.old (Some rowid) ≡ false }
    ensures loaded { (start : ℕ) → P.well start out.old → (own : Test) → Covers false own (P.pages out.old) (P.pages out.new)
        → (pushed : List Entry) → Loaded (only own (P.pages out.old)) loader.old pushed
        → OnOk result (Loaded (only own (P.pages out.new)) loader.new (pushed ++ record { rowid = Some rowid; payload = record_bytes (part_values part root) } ∷ [])) }
    ensures ready { OnOk result (IsLoader loader.new (P.pages out.new).usable) }
    ensures family { OnOk result (family_of_loader loader.new ≡ Table) }
    ensures at_one { OnOk result (loader.new.at_one ≡ loader.old.at_one) }
    ensures last { OnOk result (loader.new.last ≡ Some rowid) }
    ensures cause { IfErr result (HasLoadCause P.pages P.limit P.faults out.old out.new) }
    ensures pushed { (from : ℕ) (entries : List Entry) → TookFew Table (P.pages out.old).usable from entries (P.pages out.old).count loader.old
        → OnOk result (TookFew Table (P.pages out.old).usable from (entries ++ record { rowid = Some rowid; payload = record_bytes (part_values part root) } ∷ []) (P.pages out.new).count loader.new) }
    ensures few { (from : ℕ) (entries : List Entry) → TookFew Table (P.pages out.old).usable from entries (P.pages out.old).count loader.old
        → OnErr result ((P.pages out.new).count + 1 ≤ from + load_pages Table (P.pages out.old).usable (entries ++ record { rowid = Some rowid; payload = record_bytes (part_values part root) } ∷ [])) }
    ensures keeps { KeepsPages P.pages P.limit P.faults P.well false out.old out.new }
    ensures follows { OnOk result (Follows P.pages P.limit P.faults P.well false out.old out.new) }
    ensures fresh { P.only_fresh out.old out.new }
{
    let row = match part_row(alloc, part, root) {
        Ok(row) => row,
        Err(_) => return Err(LoadError::OutOfMemory),
    };
    push(loader, out, rowid, &row)
}

// Pushes the row of the view, the fourth.
#[tactic(auto, using(bulk_load::proofs::PutLemmas::keeps_same))]
fn push_view<P: PageOut>(alloc: Global, loader: &mut Loader, out: &mut P) -> Result<(), LoadError>
    requires ready { IsLoader loader.old (P.pages out.old).usable }
    requires family { family_of_loader loader.old ≡ Table }
    requires above { is_late loader.old (Some (pos 4)) ≡ false }
    ensures loaded { (start : ℕ) → P.well start out.old → (own : Test) → Covers false own (P.pages out.old) (P.pages out.new)
        → (pushed : List Entry) → Loaded (only own (P.pages out.old)) loader.old pushed
        → OnOk result (Loaded (only own (P.pages out.new)) loader.new (pushed ++ schema_entry 4 view_values ∷ [])) }
    ensures ready { OnOk result (IsLoader loader.new (P.pages out.new).usable) }
    ensures family { OnOk result (family_of_loader loader.new ≡ Table) }
    ensures at_one { OnOk result (loader.new.at_one ≡ loader.old.at_one) }
    ensures cause { IfErr result (HasLoadCause P.pages P.limit P.faults out.old out.new) }
    ensures pushed { (from : ℕ) (entries : List Entry) → TookFew Table (P.pages out.old).usable from entries (P.pages out.old).count loader.old
        → OnOk result (TookFew Table (P.pages out.old).usable from (entries ++ schema_entry 4 view_values ∷ []) (P.pages out.new).count loader.new) }
    ensures few { (from : ℕ) (entries : List Entry) → TookFew Table (P.pages out.old).usable from entries (P.pages out.old).count loader.old
        → OnErr result ((P.pages out.new).count + 1 ≤ from + load_pages Table (P.pages out.old).usable (entries ++ schema_entry 4 view_values ∷ [])) }
    ensures keeps { KeepsPages P.pages P.limit P.faults P.well false out.old out.new }
    ensures follows { OnOk result (Follows P.pages P.limit P.faults P.well false out.old out.new) }
    ensures fresh { P.only_fresh out.old out.new }
{
    let row = match view_row(alloc) {
        Ok(row) => row,
        Err(_) => return Err(LoadError::OutOfMemory),
    };
    push(loader, out, 4, &row)
}

// The row of a tree with this root.
fn part_row(alloc: Global, part: Part, root: u32) -> Result<Vec<u8>, OutOfMemory>
    ensures value { IfOk result (λ row. row.items ≡ record_bytes (part_values part root)) }
    ensures short { IfOk result (λ row. length row.items ≤ max_payload) }
{
    match part {
        Part::Items => schema_row(alloc, b"table", b"items", b"items", root, ITEMS),
        Part::Names => schema_row(alloc, b"index", b"items_name", b"items", root, NAMES),
        Part::Codes => schema_row(alloc, b"table", b"codes", b"codes", root, CODES),
    }
}

// The row of the view, which has no tree.
fn view_row(alloc: Global) -> Result<Vec<u8>, OutOfMemory>
    ensures value { IfOk result (λ row. row.items ≡ record_bytes view_values) }
    ensures short { IfOk result (λ row. length row.items ≤ max_payload) }
{
    schema_row(alloc, b"view", b"names", b"names", 0, VIEW)
}

// A row of the schema.
fn schema_row(
    alloc: Global,
    kind: &[u8],
    name: &[u8],
    table: &[u8],
    root: u32,
    sql: &[u8],
) -> Result<Vec<u8>, OutOfMemory>
    requires small { length kind.now + length name.now + length table.now + length sql.now ≤ 1000 }
    ensures value { IfOk result (λ row. row.items ≡ record_bytes (schema_values kind.now name.now table.now root sql.now)) }
    ensures short { IfOk result (λ row. length row.items ≤ max_payload) }
{
    schema_record(alloc, kind, name, table, root, sql)
}

// The record of these five columns.
fn schema_record(
    alloc: Global,
    kind: &[u8],
    name: &[u8],
    table: &[u8],
    root: u32,
    sql: &[u8],
) -> Result<Vec<u8>, OutOfMemory>
    ensures { IfOk result (λ row. row.items ≡ record_bytes (schema_values kind.now name.now table.now root sql.now)) }
{
    let mut row = RowPieces::new(alloc);
    row.push(&Value::Text(kind))?;
    row.push(&Value::Text(name))?;
    row.push(&Value::Text(table))?;
    row.push(&Value::Int(root as i64))?;
    row.push(&Value::Text(sql))?;
    write_row(alloc, &row)
}

// Pushes a row, which is above all before it.
fn push<P: PageOut>(
    loader: &mut Loader,
    out: &mut P,
    rowid: i64,
    row: &[u8],
) -> Result<(), LoadError>
    requires ready { IsLoader loader.old (P.pages out.old).usable }
    requires family { family_of_loader loader.old ≡ Table }
    requires above { is_late loader.old (Some rowid) ≡ false }
    requires short { length row.now ≤ max_payload }
    ensures loaded { (start : ℕ) → P.well start out.old → (own : Test) → Covers false own (P.pages out.old) (P.pages out.new)
        → (pushed : List Entry) → Loaded (only own (P.pages out.old)) loader.old pushed
        → OnOk result (Loaded (only own (P.pages out.new)) loader.new (pushed ++ record { rowid = Some rowid; payload = row.now } ∷ [])) }
    ensures ready { OnOk result (IsLoader loader.new (P.pages out.new).usable) }
    ensures family { OnOk result (family_of_loader loader.new ≡ Table) }
    ensures at_one { OnOk result (loader.new.at_one ≡ loader.old.at_one) }
    ensures last { OnOk result (loader.new.last ≡ Some rowid) }
    ensures cause { IfErr result (HasLoadCause P.pages P.limit P.faults out.old out.new) }
    ensures pushed { (from : ℕ) (entries : List Entry) → TookFew Table (P.pages out.old).usable from entries (P.pages out.old).count loader.old
        → OnOk result (TookFew Table (P.pages out.old).usable from (entries ++ record { rowid = Some rowid; payload = row.now } ∷ []) (P.pages out.new).count loader.new) }
    ensures few { (from : ℕ) (entries : List Entry) → TookFew Table (P.pages out.old).usable from entries (P.pages out.old).count loader.old
        → OnErr result ((P.pages out.new).count + 1 ≤ from + load_pages Table (P.pages out.old).usable (entries ++ record { rowid = Some rowid; payload = row.now } ∷ [])) }
    ensures keeps { KeepsPages P.pages P.limit P.faults P.well false out.old out.new }
    ensures follows { OnOk result (Follows P.pages P.limit P.faults P.well false out.old out.new) }
    ensures fresh { P.only_fresh out.old out.new }
{
    loader.push(out, Some(rowid), row)?;
    Ok(())
}
