// A loader: the open leaf and the levels above it.
ghost use Rattle.std.specs.Prelude.{◌≡◌, ◌↔◌, ℕ, ℤ, ◌+◌, ◌*◌, ◌^◌, ◌≤◌, true, false, List, [], ◌∷◌, ◌++◌, length, max, Option, Some, None, Err, IfOk, IfErr, OnOk, OnErr, ◌-◌};
ghost use Rattle.db_format.specs.Pages.{IsUsable, Pages, Test};
ghost use Rattle.btree_page.specs.declared.kind.Family.TheVariants.{Table, Index};
ghost use Rattle.btree_page.specs.declared.kind.Kind.TheVariants.{IndexLeaf, TableLeaf};
ghost use Rattle.btree_page.specs.Kind.{is_interior};
ghost use Rattle.btree_page.specs.Payload.{local_len, max_payload};
ghost use Rattle.btree_model.specs.Content.{Entry, last_after};
ghost use Rattle.load_model.specs.Stands.{IsNonePut, is_at_most};
ghost use Rattle.page_build.specs.Draft.{room_of};
ghost use Rattle.bulk_load.specs.Chain.{IsPutChain};
ghost use Rattle.bulk_load.specs.Count.{AreBack, KeepsBack, overflow_pages, pages_for, weight};
ghost use Rattle.bulk_load.specs.Own.{Covers, only};
ghost use Rattle.bulk_load.specs.Out.{Follows, HasCause, HasEndCause, HasLoadCause, KeepsPages, is_load_refusal};
ghost use Rattle.bulk_load.specs.Cells.{row_len};
ghost use Rattle.bulk_load.specs.Settle.{up_kind};
ghost use Rattle.bulk_load.specs.Bound.{entry_weight};
ghost use Rattle.bulk_load.specs.Few.{TookFew, load_pages};
ghost use Rattle.bulk_load.specs.Found.{HasTree};
ghost use Rattle.bulk_load.specs.Depth.{AreLevelsShort, IsShallow, KeepsShort, closed_below};
ghost use Rattle.bulk_load.specs.Volume.{price, volume};

use crate::cells::{entry_pair, key_pair, row_len, write_row};
use crate::chain::put_chain;
use crate::ending::end_levels;
use crate::error::LoadError;
use crate::leaf::make_room;
use crate::level::Level;
use crate::levels::climb;
use crate::out::{OutError, PageOut};
use btree_page::{Family, Kind, local_len};
use std::alloc::Global;

/// A tree that is being written. It holds one open page a level, the last two children or entries that go on it, one page of an
/// overflow chain, and one cell.
#[derive(Drop)]
pub struct Loader {
    leaf: Level,
    // the levels of interior pages, from the lowest up
    levels: Vec<Level>,
    // a page of any bytes, for overflow pages
    spare: Vec<u8>,
    // the cell of a row
    cell: Vec<u8>,
    // the last rowid
    last: Option<i64>,
    // whether the root goes to page 1
    at_one: bool,
}

// The kind of the page above.
fn above(kind: Kind) -> Kind
    ensures { result ≡ up_kind kind }
{
    match kind {
        Kind::TableLeaf | Kind::TableInterior => Kind::TableInterior,
        Kind::IndexLeaf | Kind::IndexInterior => Kind::IndexInterior,
    }
}

// The chain of these bytes.
fn chain_of<P: PageOut>(out: &mut P, page: &mut Vec<u8>, rest: &[u8]) -> Result<u32, LoadError>
    requires size { length page.old.items ≡ (P.pages out.old).usable }
    requires large { 480 ≤ length page.old.items }
    ensures size { OnOk result (length page.new.items ≡ length page.old.items) }
    ensures chain { (start : ℕ) → P.well start out.old → (own : Test) → Covers false own (P.pages out.old) (P.pages out.new)
        → IfOk result (λ n. IsPutChain (only own (P.pages out.old)) (only own (P.pages out.new)) n rest.now) }
    ensures none { length rest.now ≡ 0 → IfOk result (λ n. n ≡ 0) }
    ensures some { 1 ≤ length rest.now → IfOk result (λ n. 2 ≤ n) }
    ensures count { OnOk result ((P.pages out.new).count ≡ (P.pages out.old).count + pages_for ((P.pages out.old).usable - 4) (length rest.now)) }
    ensures refused { OnErr result ((P.pages out.new).count ≤ (P.pages out.old).count + pages_for ((P.pages out.old).usable - 4) (length rest.now)) }
    ensures keeps { KeepsPages P.pages P.limit P.faults P.well false out.old out.new }
    ensures follows { OnOk result (Follows P.pages P.limit P.faults P.well false out.old out.new) }
    ensures cause { IfErr result (HasLoadCause P.pages P.limit P.faults out.old out.new) }
    ensures fresh { P.only_fresh out.old out.new }
{
    match put_chain(out, page, rest) {
        Ok(n) => Ok(n),
        Err(error) => Err(LoadError::Out(error)),
    }
}

// Is there a last rowid, and is this one not above it?
fn is_at_most(last: Option<i64>, rowid: i64) -> bool
    ensures { result ≡ is_at_most last rowid }
{
    match last {
        None => false,
        Some(last) => rowid <= last,
    }
}

impl Loader {
    ghost use Rattle.bulk_load.specs.Loader.{IsLoader, Loaded, family_of_loader, is_for, is_late};

    /// A loader of an empty table. The usable size is that of its pages, in bytes. With `at_one` its root goes to page 1, whose first
    /// 100 bytes are left as zeros.
    #[tactic(auto, using(crate::proofs::FewLemmas::took_none))]
    pub fn table(alloc: Global, usable: usize, at_one: bool) -> Result<Loader, LoadError>
        requires { IsUsable usable }
        ensures ready { IfOk result (λ loader. IsLoader loader usable) }
        ensures family { IfOk result (λ loader. family_of_loader loader ≡ Table) }
        ensures at_one { IfOk result (λ loader. loader.at_one ≡ at_one) }
        ensures last { IfOk result (λ loader. loader.last ≡ None) }
        ensures back { IfOk result (λ loader. KeepsBack loader) }
        ensures light { IfOk result (λ loader. weight loader ≡ 0) }
        ensures void { IfOk result (λ loader. volume loader ≡ 0) }
        ensures shallow { (from : ℕ) → IfOk result (IsShallow usable from from) }
        ensures none { (from : ℕ) → IfOk result (TookFew Table usable from [] from) }
        ensures empty { (pages : Pages) → pages.usable ≡ usable → IsNonePut pages → IfOk result (λ loader. Loaded pages loader []) }
        ensures cause { IfErr result (λ error. error ≡ LoadError.OutOfMemory) }
    {
        Loader::new(alloc, usable, Kind::TableLeaf, at_one)
    }

    /// A loader of an empty index.
    #[tactic(auto, using(crate::proofs::FewLemmas::took_none))]
    pub fn index(alloc: Global, usable: usize) -> Result<Loader, LoadError>
        requires { IsUsable usable }
        ensures ready { IfOk result (λ loader. IsLoader loader usable) }
        ensures family { IfOk result (λ loader. family_of_loader loader ≡ Index) }
        ensures at_one { IfOk result (λ loader. loader.at_one ≡ false) }
        ensures last { IfOk result (λ loader. loader.last ≡ None) }
        ensures back { IfOk result (λ loader. KeepsBack loader) }
        ensures light { IfOk result (λ loader. weight loader ≡ 0) }
        ensures void { IfOk result (λ loader. volume loader ≡ 0) }
        ensures shallow { (from : ℕ) → IfOk result (IsShallow usable from from) }
        ensures none { (from : ℕ) → IfOk result (TookFew Index usable from [] from) }
        ensures empty { (pages : Pages) → pages.usable ≡ usable → IsNonePut pages → IfOk result (λ loader. Loaded pages loader []) }
        ensures cause { IfErr result (λ error. error ≡ LoadError.OutOfMemory) }
    {
        Loader::new(alloc, usable, Kind::IndexLeaf, false)
    }

    // A loader with an empty leaf of this kind.
    fn new(alloc: Global, usable: usize, kind: Kind, at_one: bool) -> Result<Loader, LoadError>
        requires usable { IsUsable usable }
        requires leaf { is_interior kind ≡ false }
        ensures ready { IfOk result (λ loader. IsLoader loader usable) }
        ensures kind { IfOk result (λ loader. loader.leaf.page.kind ≡ kind) }
        ensures at_one { IfOk result (λ loader. loader.at_one ≡ at_one) }
        ensures last { IfOk result (λ loader. loader.last ≡ None) }
        ensures back { IfOk result (λ loader. KeepsBack loader) }
        ensures light { IfOk result (λ loader. weight loader ≡ 0) }
        ensures void { IfOk result (λ loader. volume loader ≡ 0) }
        ensures shallow { (from : ℕ) → IfOk result (IsShallow usable from from) }
        ensures empty { (pages : Pages) → pages.usable ≡ usable → IsNonePut pages → IfOk result (λ loader. Loaded pages loader []) }
        ensures cause { IfErr result (λ error. error ≡ LoadError.OutOfMemory) }
    {
        let leaf = Level::new(alloc, usable, kind)?;
        let Ok(spare) = vec![in alloc; 0; usable] else {
            return Err(LoadError::OutOfMemory);
        };
        Ok(Loader {
            leaf,
            levels: Vec::new(alloc),
            spare,
            cell: Vec::new(alloc),
            last: None,
            at_one,
        })
    }

    /// Whether an entry with this rowid, or without one, is one for its tree.
    pub fn is_for(&self, rowid: Option<i64>) -> bool
        ensures { result ≡ is_for (family_of_loader self.now) rowid }
    {
        match self.leaf.page.kind().family() {
            Family::Table => rowid.is_some(),
            Family::Index => rowid.is_none(),
        }
    }

    /// One entry more, behind all others: a row with its rowid, or an entry of an index without one. Its payload has at most 2^30 bytes.
    /// After an answer that is neither Ok nor RowidOrder the loader may only be dropped.
    #[tactic(auto, using(crate::proofs::PutLemmas::keeps_after, crate::proofs::PutLemmas::keeps_same))]
    pub fn push<P: PageOut>(
        &mut self,
        out: &mut P,
        rowid: Option<i64>,
        payload: &[u8],
    ) -> Result<(), LoadError>
        requires ready { IsLoader self.old (P.pages out.old).usable }
        requires family { is_for (family_of_loader self.old) rowid ≡ true }
        requires short { length payload.now ≤ max_payload }
        // the entry stands behind those that were pushed before, on pages that this loader took
        ensures loaded { (start : ℕ) → P.well start out.old → (own : Test) → Covers false own (P.pages out.old) (P.pages out.new)
            → (pushed : List Entry) → Loaded (only own (P.pages out.old)) self.old pushed
            → OnOk result (Loaded (only own (P.pages out.new)) self.new (pushed ++ record { rowid = rowid; payload = payload.now } ∷ [])) }
        ensures ready { OnOk result (IsLoader self.new (P.pages out.new).usable) }
        ensures family { OnOk result (family_of_loader self.new ≡ family_of_loader self.old) }
        ensures at_one { OnOk result (self.new.at_one ≡ self.old.at_one) }
        ensures last { OnOk result (self.new.last ≡ last_after self.old.last rowid) }
        // a rowid that is not above the last is refused, and nothing changes
        ensures order { (result ≡ Err LoadError.RowidOrder) ↔ (is_late self.old rowid ≡ true) }
        ensures unchanged { result ≡ Err LoadError.RowidOrder → (self.new ≡ self.old) × (out.new ≡ out.old) }
        // how many pages were taken: beside those of its chain, two for an entry in all, with what the loader holds
        ensures back { KeepsBack self.old → OnOk result (KeepsBack self.new) }
        ensures count { OnOk result ((P.pages out.new).count + weight self.new ≤ (P.pages out.old).count + (weight self.old + 2 + overflow_pages (family_of_loader self.old) (P.pages out.old).usable (length payload.now))) }
        ensures refused { OnErr result ((P.pages out.new).count ≤ (P.pages out.old).count + (weight self.old + overflow_pages (family_of_loader self.old) (P.pages out.old).usable (length payload.now) + 2)) }
        // the same by bytes: three for each that an entry counts, with what the loader holds
        ensures paid { OnOk result (price (P.pages out.old).usable (P.pages out.new).count + volume self.new
            ≤ price (P.pages out.old).usable ((P.pages out.old).count + overflow_pages (family_of_loader self.old) (P.pages out.old).usable (length payload.now))
            + (volume self.old + 6 * entry_weight (family_of_loader self.old) (P.pages out.old).usable (record { rowid = rowid; payload = payload.now }))) }
        ensures spent { OnErr result (price (P.pages out.old).usable (P.pages out.new).count
            ≤ price (P.pages out.old).usable ((P.pages out.old).count + overflow_pages (family_of_loader self.old) (P.pages out.old).usable (length payload.now) + 1)
            + (volume self.old + 6 * entry_weight (family_of_loader self.old) (P.pages out.old).usable (record { rowid = rowid; payload = payload.now }))) }
        // and a level more wants three times as many pages
        ensures shallow { (from : ℕ) → IsShallow (P.pages out.old).usable from (P.pages out.old).count self.old
            → OnOk result (IsShallow (P.pages out.old).usable from (P.pages out.new).count self.new) }
        // all pushes added up: no more than the pages of a tree of these entries, also where one more was asked for
        ensures pushed { (from : ℕ) (entries : List Entry) → TookFew (family_of_loader self.old) (P.pages out.old).usable from entries (P.pages out.old).count self.old
            → OnOk result (TookFew (family_of_loader self.old) (P.pages out.old).usable from (entries ++ record { rowid = rowid; payload = payload.now } ∷ []) (P.pages out.new).count self.new) }
        ensures few { (from : ℕ) (entries : List Entry) → TookFew (family_of_loader self.old) (P.pages out.old).usable from entries (P.pages out.old).count self.old
            → OnErr result ((P.pages out.new).count + 1 ≤ from + load_pages (family_of_loader self.old) (P.pages out.old).usable (entries ++ record { rowid = rowid; payload = payload.now } ∷ [])) }
        ensures flat { result ≡ Err LoadError.TooDeep → ⊥ }
        // what other answers there are, and what all of them leave
        ensures cause { (why : OutError) → result ≡ Err (LoadError.Out why) → HasCause P.pages P.limit P.faults out.old out.new why }
        ensures keeps { KeepsPages P.pages P.limit P.faults P.well false out.old out.new }
        ensures follows { OnOk result (Follows P.pages P.limit P.faults P.well false out.old out.new) }
        ensures fresh { P.only_fresh out.old out.new }
    {
        match rowid {
            None => self.push_entry(out, payload),
            Some(rowid) => {
                if is_at_most(self.last, rowid) {
                    return Err(LoadError::RowidOrder);
                }
                self.push_row(out, rowid, payload)
            }
        }
    }

    /// The end: all open pages are put, and the root of the tree is answered. With `at_one` page 1 must not have been put.
    #[tactic(auto, using(crate::proofs::CountLemmas::leaf_can))]
    pub fn finish<P: PageOut>(mut self, out: &mut P) -> Result<u32, LoadError>
        requires ready { IsLoader self (P.pages out.old).usable }
        requires free { self.at_one ≡ true → (P.pages out.old).accepts 1 ≡ false }
        // the tree from the root is the pushed list, and stands on all pages that this loader took, and on page 1 with `at_one`
        ensures tree { (start : ℕ) → P.well start out.old → (own : Test) → Covers self.at_one own (P.pages out.old) (P.pages out.new)
            → (pushed : List Entry) → Loaded (only own (P.pages out.old)) self pushed
            → IfOk result (λ root. HasTree (only own (P.pages out.new)) (family_of_loader self) root pushed) }
        // and whatever the answer, it takes one more at most beside what the loader holds
        ensures count { KeepsBack self → (P.pages out.new).count ≤ (P.pages out.old).count + (weight self + 1) }
        // the same by bytes: three pages more for each level, and page 1
        ensures spent { KeepsBack self → price (P.pages out.old).usable (P.pages out.new).count ≤ price (P.pages out.old).usable ((P.pages out.old).count + 57) + volume self }
        // all pushes and the end added up: no more than the pages of a tree of these entries
        ensures few { (from : ℕ) (entries : List Entry) → TookFew (family_of_loader self) (P.pages out.old).usable from entries (P.pages out.old).count self
            → (P.pages out.new).count ≤ from + load_pages (family_of_loader self) (P.pages out.old).usable entries }
        ensures asked { (from : ℕ) (entries : List Entry) → TookFew (family_of_loader self) (P.pages out.old).usable from entries (P.pages out.old).count self
            → IfErr result (λ error. is_load_refusal error ≡ true → (P.pages out.new).count + 1 ≤ from + load_pages (family_of_loader self) (P.pages out.old).usable entries) }
        // a tree that is too deep has as many pages
        ensures deep { (from : ℕ) → IsShallow (P.pages out.old).usable from (P.pages out.old).count self
            → result ≡ Err LoadError.TooDeep → 2 ^ 28 + from ≤ (P.pages out.old).count }
        ensures one { self.at_one ≡ true → IfOk result (λ root. root ≡ 1) }
        ensures cause { IfErr result (HasEndCause P.pages P.limit P.faults out.old out.new) }
        ensures keeps { KeepsPages P.pages P.limit P.faults P.well self.at_one out.old out.new }
        ensures follows { OnOk result (Follows P.pages P.limit P.faults P.well self.at_one out.old out.new) }
        ensures fresh { P.only_fresh out.old out.new }
    {
        let kind = above(self.leaf.page.kind());
        let alloc = *self.levels.allocator();
        end_levels(
            alloc,
            &mut self.leaf,
            &mut self.levels,
            out,
            kind,
            0,
            18,
            self.at_one,
        )
    }

    // One entry more of an index.
    #[tactic(auto, using(crate::proofs::VolumeLemmas::volume_index, crate::proofs::PutLemmas::keeps_after, crate::proofs::PutLemmas::follows_all))]
    fn push_entry<P: PageOut>(&mut self, out: &mut P, payload: &[u8]) -> Result<(), LoadError>
        requires ready { IsLoader self.old (P.pages out.old).usable }
        requires kind { self.old.leaf.page.kind ≡ IndexLeaf }
        requires short { length payload.now ≤ max_payload }
        ensures ready { OnOk result (IsLoader self.new (P.pages out.old).usable) }
        ensures kind { OnOk result (self.new.leaf.page.kind ≡ self.old.leaf.page.kind) }
        ensures at_one { OnOk result (self.new.at_one ≡ self.old.at_one) }
        ensures last { OnOk result (self.new.last ≡ self.old.last) }
        ensures loaded { (start : ℕ) → P.well start out.old → (own : Test) → Covers false own (P.pages out.old) (P.pages out.new)
            → (pushed : List Entry) → Loaded (only own (P.pages out.old)) self.old pushed
            → OnOk result (Loaded (only own (P.pages out.new)) self.new (pushed ++ record { rowid = None; payload = payload.now } ∷ [])) }
        ensures cause { IfErr result (HasLoadCause P.pages P.limit P.faults out.old out.new) }
        ensures back { KeepsBack self.old → OnOk result (KeepsBack self.new) }
        ensures count { OnOk result ((P.pages out.new).count + weight self.new ≤ (P.pages out.old).count + (weight self.old + 2 + overflow_pages Index (P.pages out.old).usable (length payload.now))) }
        ensures refused { OnErr result ((P.pages out.new).count ≤ (P.pages out.old).count + (weight self.old + overflow_pages Index (P.pages out.old).usable (length payload.now) + 2)) }
        ensures paid { OnOk result (price (P.pages out.old).usable (P.pages out.new).count + volume self.new
            ≤ price (P.pages out.old).usable ((P.pages out.old).count + overflow_pages Index (P.pages out.old).usable (length payload.now))
            + (volume self.old + 6 * entry_weight Index (P.pages out.old).usable (record { rowid = None; payload = payload.now }))) }
        ensures spent { OnErr result (price (P.pages out.old).usable (P.pages out.new).count
            ≤ price (P.pages out.old).usable ((P.pages out.old).count + overflow_pages Index (P.pages out.old).usable (length payload.now) + 1)
            + (volume self.old + 6 * entry_weight Index (P.pages out.old).usable (record { rowid = None; payload = payload.now }))) }
        ensures short { KeepsShort (P.pages out.old).usable self.old → OnOk result (KeepsShort (P.pages out.old).usable self.new) }
        ensures deep { KeepsShort (P.pages out.old).usable self.old
            → OnOk result (closed_below self.new.levels.items + (P.pages out.old).count ≤ closed_below self.old.levels.items + (P.pages out.new).count) }
        ensures keeps { KeepsPages P.pages P.limit P.faults P.well false out.old out.new }
        ensures follows { OnOk result (Follows P.pages P.limit P.faults P.well false out.old out.new) }
        ensures fresh { P.only_fresh out.old out.new }
    {
        let usable = out.usable();
        let local = local_len(false, usable, payload.len() as u64);
        let first = chain_of(out, &mut self.spare, &payload[local..])?;
        let pair = entry_pair(*self.levels.allocator(), payload, local, first)?;
        match self.leaf.enter(out, pair)? {
            None => Ok(()),
            Some(up) => {
                climb(&mut self.levels, out, Kind::IndexInterior, up)?;
                Ok(())
            }
        }
    }

    // One row more of a table: room first, then its chain, then its cell, so that no page is put between a chain and its cell.
    #[tactic(auto, using(crate::proofs::VolumeLemmas::price_more, crate::proofs::PutLemmas::keeps_after, crate::proofs::PutLemmas::follows_all))]
    fn push_row<P: PageOut>(
        &mut self,
        out: &mut P,
        rowid: i64,
        payload: &[u8],
    ) -> Result<(), LoadError>
        requires ready { IsLoader self.old (P.pages out.old).usable }
        requires kind { self.old.leaf.page.kind ≡ TableLeaf }
        requires short { length payload.now ≤ max_payload }
        requires above { is_at_most self.old.last rowid ≡ false }
        ensures ready { OnOk result (IsLoader self.new (P.pages out.old).usable) }
        ensures kind { OnOk result (self.new.leaf.page.kind ≡ self.old.leaf.page.kind) }
        ensures at_one { OnOk result (self.new.at_one ≡ self.old.at_one) }
        ensures last { OnOk result (self.new.last ≡ Some rowid) }
        ensures loaded { (start : ℕ) → P.well start out.old → (own : Test) → Covers false own (P.pages out.old) (P.pages out.new)
            → (pushed : List Entry) → Loaded (only own (P.pages out.old)) self.old pushed
            → OnOk result (Loaded (only own (P.pages out.new)) self.new (pushed ++ record { rowid = Some rowid; payload = payload.now } ∷ [])) }
        ensures cause { IfErr result (HasLoadCause P.pages P.limit P.faults out.old out.new) }
        ensures back { KeepsBack self.old → OnOk result (KeepsBack self.new) }
        ensures count { OnOk result ((P.pages out.new).count + weight self.new ≤ (P.pages out.old).count + (weight self.old + 2 + overflow_pages Table (P.pages out.old).usable (length payload.now))) }
        ensures refused { OnErr result ((P.pages out.new).count ≤ (P.pages out.old).count + (weight self.old + overflow_pages Table (P.pages out.old).usable (length payload.now) + 1)) }
        ensures paid { OnOk result (price (P.pages out.old).usable (P.pages out.new).count + volume self.new
            ≤ price (P.pages out.old).usable ((P.pages out.old).count + overflow_pages Table (P.pages out.old).usable (length payload.now))
            + (volume self.old + 6 * entry_weight Table (P.pages out.old).usable (record { rowid = Some rowid; payload = payload.now }))) }
        ensures spent { OnErr result (price (P.pages out.old).usable (P.pages out.new).count
            ≤ price (P.pages out.old).usable ((P.pages out.old).count + overflow_pages Table (P.pages out.old).usable (length payload.now) + 1)
            + (volume self.old + 6 * entry_weight Table (P.pages out.old).usable (record { rowid = Some rowid; payload = payload.now }))) }
        ensures short { KeepsShort (P.pages out.old).usable self.old → OnOk result (KeepsShort (P.pages out.old).usable self.new) }
        ensures deep { KeepsShort (P.pages out.old).usable self.old
            → OnOk result (closed_below self.new.levels.items + (P.pages out.old).count ≤ closed_below self.old.levels.items + (P.pages out.new).count) }
        ensures keeps { KeepsPages P.pages P.limit P.faults P.well false out.old out.new }
        ensures follows { OnOk result (Follows P.pages P.limit P.faults P.well false out.old out.new) }
        ensures fresh { P.only_fresh out.old out.new }
    {
        let usable = out.usable();
        let local = local_len(true, usable, payload.len() as u64);
        let len = row_len(rowid, payload.len(), local);
        self.leaf_for(out, len)?;
        self.add_row(out, rowid, payload, local)?;
        Ok(())
    }

    // Makes room on the open leaf of a table for a cell of `len` bytes.
    #[tactic(auto, using(crate::proofs::CellLemmas::key_named, crate::proofs::CellLemmas::key_most, crate::proofs::VolumeLemmas::volume_table, crate::proofs::PutLemmas::keeps_after, crate::proofs::PutLemmas::keeps_same, crate::proofs::PutLemmas::follows_same, crate::proofs::PutLemmas::follows_all))]
    fn leaf_for<P: PageOut>(&mut self, out: &mut P, len: usize) -> Result<(), LoadError>
        requires ready { IsLoader self.old (P.pages out.old).usable }
        requires kind { self.old.leaf.page.kind ≡ TableLeaf }
        requires fits { len + 17 ≤ (P.pages out.old).usable }
        ensures ready { OnOk result (IsLoader self.new (P.pages out.old).usable) }
        ensures kind { OnOk result (self.new.leaf.page.kind ≡ self.old.leaf.page.kind) }
        ensures at_one { OnOk result (self.new.at_one ≡ self.old.at_one) }
        ensures last { OnOk result (self.new.last ≡ self.old.last) }
        ensures fits { OnOk result (max 4 len + 2 ≤ room_of self.new.leaf.page) }
        ensures loaded { (start : ℕ) → P.well start out.old → (own : Test) → Covers false own (P.pages out.old) (P.pages out.new)
            → (pushed : List Entry) → Loaded (only own (P.pages out.old)) self.old pushed
            → OnOk result (Loaded (only own (P.pages out.new)) self.new pushed) }
        ensures cause { IfErr result (HasLoadCause P.pages P.limit P.faults out.old out.new) }
        ensures back { AreBack self.old.levels.items → OnOk result (AreBack self.new.levels.items) }
        ensures waits { OnOk result (self.new.leaf.waiting.items ≡ self.old.leaf.waiting.items) }
        ensures count { OnOk result ((P.pages out.new).count + weight self.new ≤ (P.pages out.old).count + weight self.old) }
        ensures refused { OnErr result ((P.pages out.new).count ≤ (P.pages out.old).count + (weight self.old + 1)) }
        ensures paid { OnOk result (price (P.pages out.old).usable (P.pages out.new).count + volume self.new
            ≤ price (P.pages out.old).usable (P.pages out.old).count + (volume self.old + 3 * (max 4 len + 2))) }
        ensures spent { OnErr result (price (P.pages out.old).usable (P.pages out.new).count
            ≤ price (P.pages out.old).usable ((P.pages out.old).count + 1) + (volume self.old + 3 * (max 4 len + 2))) }
        ensures short { AreLevelsShort (P.pages out.old).usable self.old.levels.items → OnOk result (AreLevelsShort (P.pages out.old).usable self.new.levels.items) }
        ensures deep { AreLevelsShort (P.pages out.old).usable self.old.levels.items
            → OnOk result (closed_below self.new.levels.items + (P.pages out.old).count ≤ closed_below self.old.levels.items + (P.pages out.new).count) }
        ensures keeps { KeepsPages P.pages P.limit P.faults P.well false out.old out.new }
        ensures follows { OnOk result (Follows P.pages P.limit P.faults P.well false out.old out.new) }
        ensures fresh { P.only_fresh out.old out.new }
    {
        let Some(last) = self.last else {
            return Ok(());
        };
        match make_room(&mut self.leaf.page, out, len) {
            Err(error) => Err(LoadError::Out(error)),
            Ok(None) => Ok(()),
            Ok(Some(m)) => {
                let pair = key_pair(*self.levels.allocator(), m, last)?;
                climb(&mut self.levels, out, Kind::TableInterior, pair)?;
                Ok(())
            }
        }
    }

    // Puts the chain of a row, and adds its cell to the open leaf.
    #[tactic(auto, using(crate::proofs::VolumeLemmas::volume_table, crate::proofs::PutLemmas::keeps_after, crate::proofs::PutLemmas::follows_all))]
    fn add_row<P: PageOut>(
        &mut self,
        out: &mut P,
        rowid: i64,
        payload: &[u8],
        local: usize,
    ) -> Result<(), LoadError>
        requires ready { IsLoader self.old (P.pages out.old).usable }
        requires kind { self.old.leaf.page.kind ≡ TableLeaf }
        requires short { length payload.now ≤ max_payload }
        requires above { is_at_most self.old.last rowid ≡ false }
        requires local { local ≡ local_len Table (P.pages out.old).usable (length payload.now) }
        requires some { local ≤ length payload.now }
        requires fits { max 4 (row_len (length payload.now) rowid local) + 2 ≤ room_of self.old.leaf.page }
        ensures ready { OnOk result (IsLoader self.new (P.pages out.old).usable) }
        ensures kind { OnOk result (self.new.leaf.page.kind ≡ self.old.leaf.page.kind) }
        ensures at_one { OnOk result (self.new.at_one ≡ self.old.at_one) }
        ensures last { OnOk result (self.new.last ≡ Some rowid) }
        ensures loaded { (start : ℕ) → P.well start out.old → (own : Test) → Covers false own (P.pages out.old) (P.pages out.new)
            → (pushed : List Entry) → Loaded (only own (P.pages out.old)) self.old pushed
            → OnOk result (Loaded (only own (P.pages out.new)) self.new (pushed ++ record { rowid = Some rowid; payload = payload.now } ∷ [])) }
        ensures cause { IfErr result (HasLoadCause P.pages P.limit P.faults out.old out.new) }
        ensures levels { OnOk result (self.new.levels.items ≡ self.old.levels.items) }
        ensures waits { OnOk result (self.new.leaf.waiting.items ≡ self.old.leaf.waiting.items) }
        ensures filled { OnOk result (1 ≤ length self.new.leaf.page.cells) }
        ensures count { OnOk result ((P.pages out.new).count + weight self.new ≤ (P.pages out.old).count + (weight self.old + 2 + overflow_pages Table (P.pages out.old).usable (length payload.now))) }
        ensures refused { OnErr result ((P.pages out.new).count ≤ (P.pages out.old).count + (weight self.old + overflow_pages Table (P.pages out.old).usable (length payload.now))) }
        ensures taken { OnOk result ((P.pages out.new).count ≡ (P.pages out.old).count + overflow_pages Table (P.pages out.old).usable (length payload.now)) }
        ensures paid { OnOk result (volume self.new ≡ volume self.old + 3 * (max 4 (row_len (length payload.now) rowid local) + 2)) }
        ensures few { OnErr result ((P.pages out.new).count ≤ (P.pages out.old).count + overflow_pages Table (P.pages out.old).usable (length payload.now)) }
        ensures keeps { KeepsPages P.pages P.limit P.faults P.well false out.old out.new }
        ensures follows { OnOk result (Follows P.pages P.limit P.faults P.well false out.old out.new) }
        ensures fresh { P.only_fresh out.old out.new }
    {
        let first = chain_of(out, &mut self.spare, &payload[local..])?;
        write_row(&mut self.cell, rowid, payload, local, first)?;
        self.leaf.page.add(&self.cell);
        self.last = Some(rowid);
        Ok(())
    }
}
