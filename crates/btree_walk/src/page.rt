// The pages of a tree, as they are read on the way.
ghost use Rattle.std.specs.Prelude.{◌≡◌, ◌≢◌, ◌≤◌, ◌<◌, ◌-◌, ◌^◌, ℕ, true, is_ok, slice_get, length, Ok, IsTrue, IfOk, IfErr, if◌then◌else◌};
ghost use Rattle.db_format.specs.Source.{Rose, one_more};
ghost use Rattle.db_format.specs.Pages.{is_page};
ghost use Rattle.btree_page.specs.Page.{Node, read_node};
ghost use Rattle.btree_model.specs.Tree.{root_family};
ghost use Rattle.btree_model.specs.Walk.{page_defect};
ghost use Rattle.btree_walk.specs.Causes.{IsGivenBy, is_failure};
ghost use Rattle.btree_walk.specs.Cursor.{family_or};
ghost use Rattle.btree_walk.specs.Turn.{IsNodeOpened, IsReadable, IsTurn, IsUnread, todo_of};

use crate::WalkError;
use btree_page::{Family, PageFault, PageView, Step, page_kind, read_step};
use db_format::{Defect, PageSource};

// The next step of a page. The local bytes of a payload stand apart.
#[derive(Clone, Copy)]
pub(crate) enum Turn {
    Child(u32),
    Key(i64),
    Cell {
        rowid: Option<i64>,
        length: u64,
        first: u32,
    },
    End,
}

/// The family of the tree with this root, which is loaded.
pub fn tree_family<S: PageSource>(source: &mut S, root: u32) -> Result<Family, S::Refusal>
    ensures value { IfOk result (λ family. IsTrue S.tells → family ≡ root_family root ((S.plain source.old).page root)) }
    ensures refused { IfErr result (S.refuses (S.plain source.old) root) }
    ensures fault { IfErr result (λ refusal. IsTrue (S.is_fault refusal) → Rose (S.faults source.old) (S.faults source.new)) }
    ensures pins { S.pins source.new ≡ S.pins source.old }
    ensures reads { S.only_read source.old source.new }
{
    match source.load(root) {
        Ok(()) => Ok(root_family(source.loaded(), root)),
        Err(refusal) => Err(refusal),
    }
}

// The family that is asked for, or else that of the root, which is then loaded.
pub(crate) fn choose_family<S: PageSource>(
    source: &mut S,
    asked: Option<Family>,
    root: u32,
) -> Result<Family, S::Refusal>
    ensures value { IfOk result (λ family. IsTrue S.tells → family ≡ family_or asked (root_family root ((S.plain source.old).page root))) }
    ensures pins { S.pins source.new ≡ S.pins source.old }
    ensures reads { S.only_read source.old source.new }
    ensures refused { IfErr result (S.refuses (S.plain source.old) root) }
    ensures fault { IfErr result (λ refusal. IsTrue (S.is_fault refusal) → Rose (S.faults source.old) (S.faults source.new)) }
{
    match asked {
        Some(family) => Ok(family),
        None => tree_family(source, root),
    }
}

// The family of the tree that has page n as its root.
fn root_family(plain: &[u8], n: u32) -> Family
    requires { 480 ≤ length plain.now }
    ensures { result ≡ root_family n plain.now }
{
    match page_kind(plain, n) {
        Some(kind) => kind.family(),
        None => Family::Index,
    }
}

// Loads page n, which is to be a page of a tree of this family, and pins it.
pub(crate) fn open_page<S: PageSource>(
    source: &mut S,
    family: Family,
    n: u32,
) -> Result<(), WalkError<S::Refusal>>
    requires room { S.pins source.old n < 2 ^ 32 - 1 }
    requires range { is_page (S.plain source.old) n ≡ true }
    ensures opened { IsTrue S.tells → IsNodeOpened S.refuses (S.plain source.old) family n result }
    ensures pins { S.pins source.new ≡ (if is_ok result then one_more n (S.pins source.old) else S.pins source.old) }
    ensures reads { S.only_read source.old source.new }
    ensures given { IfErr result (IsGivenBy S.only_read S.plain S.refuses source.old) }
    ensures fault { IfErr result (λ error. IsTrue (is_failure S.is_fault error) → Rose (S.faults source.old) (S.faults source.new)) }
{
    match source.load(n) {
        Ok(()) => {}
        Err(refusal) => return Err(WalkError::Source(refusal)),
    }
    match PageView::open(source.loaded(), n, family) {
        Ok(_) => {
            source.pin(n);
            Ok(())
        }
        Err(fault) => Err(WalkError::Defect(page_defect(n, fault))),
    }
}

// The defect of page n that this fault is.
pub(crate) fn page_defect(n: u32, fault: PageFault) -> Defect
    ensures { result ≡ page_defect n fault }
{
    match fault {
        PageFault::BadKind => Defect::BadKind { page: n },
        PageFault::BadCell { index } => Defect::BadCell { page: n, index },
    }
}

// The step with this index of page n, which was opened before; `local` has the local bytes of its payload.
pub(crate) fn take_step<S: PageSource>(
    source: &mut S,
    n: u32,
    index: u32,
    local: &mut Vec<u8>,
) -> Result<Turn, WalkError<S::Refusal>>
    requires range { is_page (S.plain source.old) n ≡ true }
    ensures value { IfOk result (λ turn. (family : Family) (page : Node) → IsTrue S.tells → read_node family n ((S.plain source.old).page n) ≡ Ok page
        → IsTurn (slice_get (todo_of (S.plain source.old) family n) index) turn local.new.items) }
    ensures limit { IfOk result IsReadable }
    ensures few { IfOk result (λ turn. turn ≢ Turn.End → index < 2 ^ 20) }
    ensures pins { S.pins source.new ≡ S.pins source.old }
    ensures reads { S.only_read source.old source.new }
    ensures unread { IfErr result (λ error. (family : Family) (page : Node) → IsTrue S.tells → read_node family n ((S.plain source.old).page n) ≡ Ok page → IsUnread (S.refuses (S.plain source.old) n) error) }
    ensures given { IfErr result (IsGivenBy S.only_read S.plain S.refuses source.old) }
    ensures fault { IfErr result (λ error. IsTrue (is_failure S.is_fault error) → Rose (S.faults source.old) (S.faults source.new)) }
{
    match source.load(n) {
        Ok(()) => {}
        Err(refusal) => return Err(WalkError::Source(refusal)),
    }
    match read_step(source.loaded(), n, index) {
        Err(fault) => Err(WalkError::Defect(page_defect(n, fault))),
        Ok(Step::End) => Ok(Turn::End),
        Ok(Step::Child(child)) => Ok(Turn::Child(child)),
        Ok(Step::Key(key)) => Ok(Turn::Key(key)),
        Ok(
            Step::Entry {
                rowid,
                length,
                local: bytes,
                first,
            },
        ) => {
            local.clear();
            match local.extend_from_slice(bytes) {
                Ok(()) => Ok(Turn::Cell {
                    rowid,
                    length,
                    first,
                }),
                Err(_) => Err(WalkError::OutOfMemory),
            }
        }
    }
}
