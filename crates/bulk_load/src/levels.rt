// The levels of interior pages, from the lowest up.
ghost use Rattle.std.specs.Prelude.{◌≡◌, ℕ, suc, ℤ, ◌+◌, ◌≤◌, true, List, [], ◌∷◌, ◌++◌, length, Option, Some, None, map, IfOk, IfErr, OnOk, MatchOption, false, OnErr, ◌*◌};
ghost use Rattle.db_format.specs.Pages.{IsUsable, Test};
ghost use Rattle.btree_page.specs.Kind.{family_of, is_interior};
ghost use Rattle.btree_page.specs.Step.{Step, steps, child};
ghost use Rattle.btree_model.specs.Content.{Entry};
ghost use Rattle.load_model.specs.Open.{Open, at_height};
ghost use Rattle.load_model.specs.Stands.{OpenPagesStand};
ghost use Rattle.bulk_load.specs.Level.{AreNamed, IsLevelReady, HoldsLevel};
ghost use Rattle.bulk_load.specs.declared.pair.Pair.{Pair};
ghost use Rattle.bulk_load.specs.Levels.{AreReady, HoldLevels, opened, AreOpen, IsDrained};
ghost use Rattle.bulk_load.specs.Count.{AreBack, CanEnd, IsBack, held, load};
ghost use Rattle.bulk_load.specs.Own.{Covers, only};
ghost use Rattle.bulk_load.specs.Out.{Follows, HasLoadCause, KeepsPages};
ghost use Rattle.bulk_load.specs.Settle.{IsNamed, IsPair, two, up_kind};
ghost use Rattle.bulk_load.specs.Depth.{AreLevelsShort, AreShort, MayEnd, closed_below};
ghost use Rattle.bulk_load.specs.Volume.{level_volume, price, sizes, volumes};

use crate::error::LoadError;
use crate::level::Level;
use crate::out::PageOut;
use crate::pair::{Pair, settle};
use btree_page::Kind;
use std::alloc::Global;

// A level with this child alone.
fn over(alloc: Global, usable: usize, kind: Kind, pair: Pair) -> Result<Level, LoadError>
    requires usable { IsUsable usable }
    requires named { IsNamed usable pair }
    ensures ready { IfOk result (λ level. IsLevelReady level usable) }
    ensures holds { (s : Step) → is_interior kind ≡ true → IsPair pair kind usable s
        → IfOk result (λ level. (level.page.kind ≡ kind) × HoldsLevel level usable (child pair.child ∷ s ∷ [])) }
    ensures back { IfOk result (λ level. IsBack level.page level.waiting.items) }
    ensures one { IfOk result (λ level. load level ≡ 1) }
    ensures short { IfOk result (λ level. AreShort usable level.page.cells) }
    ensures size { IfOk result (λ level. level_volume level ≡ 6 * (length pair.cell.items + 2)) }
    ensures cause { IfErr result (λ error. error ≡ LoadError.OutOfMemory) }
{
    let mut level = Level::new(alloc, usable, kind)?;
    match level.waiting.push(pair) {
        Ok(()) => Ok(level),
        Err(_) => Err(LoadError::OutOfMemory),
    }
}

// The lowest of these levels, if there is one.
pub fn take_lowest(levels: &mut Vec<Level>) -> Option<Level>
    ensures { MatchOption result ((levels.old.items ≡ []) × (levels.new.items ≡ [])) (λ level. levels.old.items ≡ level ∷ levels.new.items) }
{
    if levels.is_empty() {
        return None;
    }
    Some(levels.remove(0))
}

// The oldest of these pairs, if there is one.
fn take_oldest(waiting: &mut Vec<Pair>) -> Option<Pair>
    ensures { MatchOption result ((waiting.old.items ≡ []) × (waiting.new.items ≡ [])) (λ pair. waiting.old.items ≡ pair ∷ waiting.new.items) }
{
    if waiting.is_empty() {
        return None;
    }
    Some(waiting.remove(0))
}

// This level below the others.
fn put_below(levels: &mut Vec<Level>, level: Level) -> Result<(), LoadError>
    ensures ok { OnOk result (levels.new.items ≡ level ∷ levels.old.items) }
    ensures cause { IfErr result (λ error. error ≡ LoadError.OutOfMemory) }
{
    match levels.insert(0, level) {
        Ok(()) => Ok(()),
        Err(_) => Err(LoadError::OutOfMemory),
    }
}

/// One child more for the lowest of these levels. A page that was closed enters the level above; above all of them a
/// level is made.
#[tactic(auto, using(crate::proofs::PutLemmas::keeps_after, crate::proofs::PutLemmas::keeps_same, crate::proofs::PutLemmas::follows_same, crate::proofs::PutLemmas::follows_all))]
pub fn climb<P: PageOut>(
    levels: &mut Vec<Level>,
    out: &mut P,
    kind: Kind,
    pair: Pair,
) -> Result<(), LoadError>
    requires ready { AreReady levels.old.items (P.pages out.old).usable }
    requires named { IsNamed (P.pages out.old).usable pair }
    ensures ready { OnOk result (AreReady levels.new.items (P.pages out.old).usable) }
    ensures climbed { (start : ℕ) → P.well start out.old → (own : Test) → Covers false own (P.pages out.old) (P.pages out.new)
        → (todos : List (List Step)) (s : Step) (h : ℕ) (back : List Open) (last : Option ℤ) (pushed : List Entry)
        → is_interior kind ≡ true
        → HoldLevels levels.old.items (P.pages out.old).usable kind todos
        → IsPair pair kind (P.pages out.old).usable s
        → OpenPagesStand (only own (P.pages out.old)) (family_of kind) last (opened h todos ++ (two h pair.child s ++ back)) pushed
        → OnOk result (AreOpen (only own (P.pages out.new)) levels.new.items (P.pages out.old).usable kind h back last pushed) }
    ensures back { AreBack levels.old.items → OnOk result (AreBack levels.new.items) }
    ensures count { OnOk result ((P.pages out.new).count + held levels.new.items ≤ (P.pages out.old).count + (held levels.old.items + 1)) }
    ensures refused { OnErr result ((P.pages out.new).count ≤ (P.pages out.old).count + (held levels.old.items + 2)) }
    ensures short { AreLevelsShort (P.pages out.old).usable levels.old.items → OnOk result (AreLevelsShort (P.pages out.old).usable levels.new.items) }
    ensures deep { AreLevelsShort (P.pages out.old).usable levels.old.items → OnOk result (closed_below levels.new.items ≤ closed_below levels.old.items + 1) }
    ensures paid { OnOk result (price (P.pages out.old).usable (P.pages out.new).count + volumes levels.new.items
        ≤ price (P.pages out.old).usable (P.pages out.old).count + (volumes levels.old.items + 6 * (length pair.cell.items + 2))) }
    ensures spent { OnErr result (price (P.pages out.old).usable (P.pages out.new).count
        ≤ price (P.pages out.old).usable ((P.pages out.old).count + 1) + (volumes levels.old.items + 6 * (length pair.cell.items + 2))) }
    ensures keeps { KeepsPages P.pages P.limit P.faults P.well false out.old out.new }
    ensures follows { OnOk result (Follows P.pages P.limit P.faults P.well false out.old out.new) }
    ensures cause { IfErr result (HasLoadCause P.pages P.limit P.faults out.old out.new) }
    ensures fresh { P.only_fresh out.old out.new }
{
    let Some(mut level) = take_lowest(levels) else {
        let level = over(*levels.allocator(), out.usable(), kind, pair)?;
        return put_below(levels, level);
    };
    match level.enter(out, pair)? {
        None => put_below(levels, level),
        Some(up) => {
            climb(levels, out, kind, up)?;
            put_below(levels, level)
        }
    }
}

// How many bytes the next one takes on a page.
fn next_size(waiting: &Vec<Pair>) -> usize
    ensures most { (usable : ℕ) → 12 ≤ usable → AreNamed usable waiting.now.items → 3 * result + 12 ≤ usable }
    ensures value { (pair : Pair) (rest : List Pair) → waiting.now.items ≡ pair ∷ rest → 4 ≤ length pair.cell.items → result ≡ length pair.cell.items + 2 }
{
    if waiting.is_empty() {
        return 0;
    }
    let len = waiting[0].cell.len();
    if len < 4 { 6 } else { len + 2 }
}

/// Puts what waits at a level on its page. `kind` is that of the levels above.
#[tactic(auto, using(crate::proofs::PutLemmas::keeps_after, crate::proofs::PutLemmas::keeps_same, crate::proofs::PutLemmas::follows_same, crate::proofs::PutLemmas::follows_all))]
pub fn drain<P: PageOut>(
    level: &mut Level,
    above: &mut Vec<Level>,
    out: &mut P,
    kind: Kind,
) -> Result<(), LoadError>
    requires ready { IsLevelReady level.old (P.pages out.old).usable }
    requires ready_above { AreReady above.old.items (P.pages out.old).usable }
    ensures ready { OnOk result (IsLevelReady level.new (P.pages out.old).usable) }
    ensures ready_above { OnOk result (AreReady above.new.items (P.pages out.old).usable) }
    ensures kind { OnOk result (level.new.page.kind ≡ level.old.page.kind) }
    ensures drained { (start : ℕ) → P.well start out.old → (own : Test) → Covers false own (P.pages out.old) (P.pages out.new)
        → (todo : List Step) (todos : List (List Step)) (h : ℕ) (back : List Open) (last : Option ℤ) (pushed : List Entry)
        → up_kind level.old.page.kind ≡ kind
        → HoldsLevel level.old (P.pages out.old).usable todo
        → HoldLevels above.old.items (P.pages out.old).usable kind todos
        → OpenPagesStand (only own (P.pages out.old)) (family_of kind) last (opened (suc h) todos ++ (at_height h todo ++ back)) pushed
        → OnOk result (IsDrained (only own (P.pages out.new)) level.new above.new.items (P.pages out.old).usable kind h back last pushed) }
    ensures back { AreBack above.old.items → OnOk result (AreBack above.new.items) }
    ensures filled { CanEnd level.old.page level.old.waiting.items → 1 ≤ load level.old → OnOk result (1 ≤ length level.new.page.cells) }
    ensures count { OnOk result ((P.pages out.new).count + (load level.new + held above.new.items) ≤ (P.pages out.old).count + (load level.old + held above.old.items)) }
    ensures refused { OnErr result ((P.pages out.new).count ≤ (P.pages out.old).count + (load level.old + held above.old.items + 1)) }
    ensures short { AreLevelsShort (P.pages out.old).usable above.old.items → OnOk result (AreLevelsShort (P.pages out.old).usable above.new.items) }
    ensures deep { MayEnd (P.pages out.old).usable level.old → AreLevelsShort (P.pages out.old).usable above.old.items
        → OnOk result (load level.new + 3 * closed_below above.new.items ≤ load level.old + 3 * closed_below above.old.items) }
    ensures idle { length level.old.waiting.items ≡ 0 → ((P.pages out.new).count ≡ (P.pages out.old).count) × (above.new.items ≡ above.old.items) }
    // a page for each that waited, and what the levels above pay
    ensures spent { price (P.pages out.old).usable (P.pages out.new).count
        ≤ price (P.pages out.old).usable ((P.pages out.old).count + length level.old.waiting.items + 1) + (6 * sizes level.old.waiting.items + volumes above.old.items) }
    ensures paid { OnOk result (price (P.pages out.old).usable (P.pages out.new).count + volumes above.new.items
        ≤ price (P.pages out.old).usable ((P.pages out.old).count + length level.old.waiting.items) + (6 * sizes level.old.waiting.items + volumes above.old.items)) }
    ensures keeps { KeepsPages P.pages P.limit P.faults P.well false out.old out.new }
    ensures follows { OnOk result (Follows P.pages P.limit P.faults P.well false out.old out.new) }
    ensures cause { IfErr result (HasLoadCause P.pages P.limit P.faults out.old out.new) }
    ensures fresh { P.only_fresh out.old out.new }
{
    let Some(mut first) = take_oldest(&mut level.waiting) else {
        return Ok(());
    };
    let more = next_size(&level.waiting);
    match settle(&mut level.page, out, &mut first, more) {
        Err(error) => Err(LoadError::Out(error)),
        Ok(false) => drain(level, above, out, kind),
        Ok(true) => {
            climb(above, out, kind, first)?;
            drain(level, above, out, kind)
        }
    }
}
