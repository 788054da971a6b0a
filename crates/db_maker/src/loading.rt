// A tree of rows, made and pushed one after another.
ghost use Rattle.std.specs.Prelude.{◌≡◌, ◌≤◌, ◌+◌, ◌^◌, ℕ, true, false, List, [], ◌∷◌, ◌++◌, None, Err, IfOk, IfErr, OnOk, OnErr};
ghost use Rattle.db_format.specs.Pages.{IsUsable, Pages, Test};
ghost use Rattle.btree_model.specs.Content.{Entry, last_after};
ghost use Rattle.load_model.specs.Stands.{IsNonePut};
ghost use Rattle.bulk_load.specs.Out.{Follows, HasEndCause, HasLoadCause, KeepsPages};
ghost use Rattle.bulk_load.specs.Own.{Covers, CoversNew, only};
ghost use Rattle.bulk_load.specs.Loader.{IsLoader, Loaded, family_of_loader, is_late};
ghost use Rattle.db_maker.specs.Made.{HasPart};
ghost use Rattle.db_maker.specs.Parts.{entries_in, entry_in, family_in};
ghost use Rattle.bulk_load.specs.Few.{TookFew, load_pages};
ghost use Rattle.bulk_load.specs.Out.{is_load_refusal};
ghost use Rattle.db_maker.specs.Pages.{part_pages};

use crate::part::Part;
use crate::rows::{payload, rowid};
use bulk_load::{LoadError, Loader, PageOut};
use std::alloc::Global;

/// Loads the entries from 1 to `rows` of a tree, and answers its root.
#[tactic(auto, using(bulk_load::proofs::PutLemmas::keeps_after, bulk_load::proofs::PutLemmas::follows_all))]
pub(crate) fn load_part<P: PageOut>(
    alloc: Global,
    out: &mut P,
    part: Part,
    rows: u32,
) -> Result<u32, LoadError>
    ensures tree { (start : ℕ) → P.well start out.old → (own : Test) → CoversNew false own (P.pages out.old) (P.pages out.new)
        → IfOk result (λ root. HasPart (only own (P.pages out.new)) part root rows) }
    ensures cause { IfErr result (HasEndCause P.pages P.limit P.faults out.old out.new) }
    ensures few { (P.pages out.new).count ≤ (P.pages out.old).count + part_pages (P.pages out.old).usable part rows }
    ensures asked { IfErr result (λ error. is_load_refusal error ≡ true → (P.pages out.new).count + 1 ≤ (P.pages out.old).count + part_pages (P.pages out.old).usable part rows) }
    ensures deep { result ≡ Err LoadError.TooDeep → 2 ^ 28 ≤ (P.pages out.new).count }
    ensures keeps { KeepsPages P.pages P.limit P.faults P.well false out.old out.new }
    ensures follows { OnOk result (Follows P.pages P.limit P.faults P.well false out.old out.new) }
    ensures fresh { P.only_fresh out.old out.new }
{
    let mut loader = new_loader(alloc, out.usable(), part)?;
    push_rows(alloc, &mut loader, out, part, rows)?;
    loader.finish(out)
}

// A loader of an empty tree.
fn new_loader(alloc: Global, usable: usize, part: Part) -> Result<Loader, LoadError>
    requires { IsUsable usable }
    ensures ready { IfOk result (λ loader. IsLoader loader usable) }
    ensures family { IfOk result (λ loader. family_of_loader loader ≡ family_in part) }
    ensures at_one { IfOk result (λ loader. loader.at_one ≡ false) }
    ensures last { IfOk result (λ loader. loader.last ≡ None) }
    ensures empty { (pages : Pages) → pages.usable ≡ usable → IsNonePut pages → IfOk result (λ loader. Loaded pages loader []) }
    ensures none { (from : ℕ) → IfOk result (TookFew (family_in part) usable from [] from) }
    ensures cause { IfErr result (λ error. error ≡ LoadError.OutOfMemory) }
{
    match part {
        Part::Items => Loader::table(alloc, usable, false),
        Part::Names | Part::Codes => Loader::index(alloc, usable),
    }
}

// Pushes the entries from 1 to `rows`.
fn push_rows<P: PageOut>(
    alloc: Global,
    loader: &mut Loader,
    out: &mut P,
    part: Part,
    rows: u32,
) -> Result<(), LoadError>
    requires ready { IsLoader loader.old (P.pages out.old).usable }
    requires family { family_of_loader loader.old ≡ family_in part }
    requires last { loader.old.last ≡ None }
    ensures loaded { (start : ℕ) → P.well start out.old → (own : Test) → Covers false own (P.pages out.old) (P.pages out.new)
        → Loaded (only own (P.pages out.old)) loader.old [] → OnOk result (Loaded (only own (P.pages out.new)) loader.new (entries_in part rows)) }
    ensures ready { OnOk result (IsLoader loader.new (P.pages out.new).usable) }
    ensures family { OnOk result (family_of_loader loader.new ≡ family_in part) }
    ensures at_one { OnOk result (loader.new.at_one ≡ loader.old.at_one) }
    ensures cause { IfErr result (HasLoadCause P.pages P.limit P.faults out.old out.new) }
    ensures pushed { TookFew (family_in part) (P.pages out.old).usable (P.pages out.old).count [] (P.pages out.old).count loader.old
        → OnOk result (TookFew (family_in part) (P.pages out.old).usable (P.pages out.old).count (entries_in part rows) (P.pages out.new).count loader.new) }
    ensures few { TookFew (family_in part) (P.pages out.old).usable (P.pages out.old).count [] (P.pages out.old).count loader.old
        → OnErr result ((P.pages out.new).count + 1 ≤ (P.pages out.old).count + part_pages (P.pages out.old).usable part rows) }
    ensures keeps { KeepsPages P.pages P.limit P.faults P.well false out.old out.new }
    ensures follows { OnOk result (Follows P.pages P.limit P.faults P.well false out.old out.new) }
    ensures fresh { P.only_fresh out.old out.new }
{
    for before in 0..rows {
        push_row(alloc, loader, out, part, before + 1)?;
    }
    Ok(())
}

// Pushes entry i, which is above all before it.
fn push_row<P: PageOut>(
    alloc: Global,
    loader: &mut Loader,
    out: &mut P,
    part: Part,
    i: u32,
) -> Result<(), LoadError>
    requires ready { IsLoader loader.old (P.pages out.old).usable }
    requires family { family_of_loader loader.old ≡ family_in part }
    requires above { is_late loader.old (entry_in part i).rowid ≡ false }
    ensures loaded { (start : ℕ) → P.well start out.old → (own : Test) → Covers false own (P.pages out.old) (P.pages out.new)
        → (pushed : List Entry) → Loaded (only own (P.pages out.old)) loader.old pushed
        → OnOk result (Loaded (only own (P.pages out.new)) loader.new (pushed ++ entry_in part i ∷ [])) }
    ensures ready { OnOk result (IsLoader loader.new (P.pages out.new).usable) }
    ensures family { OnOk result (family_of_loader loader.new ≡ family_in part) }
    ensures at_one { OnOk result (loader.new.at_one ≡ loader.old.at_one) }
    ensures last { OnOk result (loader.new.last ≡ last_after loader.old.last (entry_in part i).rowid) }
    ensures cause { IfErr result (HasLoadCause P.pages P.limit P.faults out.old out.new) }
    ensures pushed { (from : ℕ) (entries : List Entry) → TookFew (family_in part) (P.pages out.old).usable from entries (P.pages out.old).count loader.old
        → OnOk result (TookFew (family_in part) (P.pages out.old).usable from (entries ++ entry_in part i ∷ []) (P.pages out.new).count loader.new) }
    ensures few { (from : ℕ) (entries : List Entry) → TookFew (family_in part) (P.pages out.old).usable from entries (P.pages out.old).count loader.old
        → OnErr result ((P.pages out.new).count + 1 ≤ from + load_pages (family_in part) (P.pages out.old).usable (entries ++ entry_in part i ∷ [])) }
    ensures keeps { KeepsPages P.pages P.limit P.faults P.well false out.old out.new }
    ensures follows { OnOk result (Follows P.pages P.limit P.faults P.well false out.old out.new) }
    ensures fresh { P.only_fresh out.old out.new }
{
    let row = match payload(alloc, part, i) {
        Ok(row) => row,
        Err(_) => return Err(LoadError::OutOfMemory),
    };
    loader.push(out, rowid(part, i), &row)?;
    Ok(())
}
