// The rule of rowids, section 1.6.
ghost use Rattle.std.specs.Prelude.{◌≡◌};
ghost use Rattle.btree_walk.specs.Order.{late_of, low_of, page_after, raised_of};
ghost use Rattle.btree_model.specs.Content.{last_after};

// The last rowid is above this key.
pub(crate) fn is_late(last: Option<i64>, key: i64) -> bool
    ensures { result ≡ late_of last key }
{
    match last {
        None => false,
        Some(rowid) => key < rowid,
    }
}

// The rowid is not above the greatest rowid or key.
pub(crate) fn is_low(floor: Option<i64>, rowid: Option<i64>) -> bool
    ensures { result ≡ low_of floor rowid }
{
    match (floor, rowid) {
        (Some(most), Some(rowid)) => rowid <= most,
        _ => false,
    }
}

// The greatest rowid or key after this key.
pub(crate) fn raised(floor: Option<i64>, key: i64) -> Option<i64>
    ensures { result ≡ raised_of floor key }
{
    match floor {
        None => Some(key),
        Some(most) => { if key <= most { Some(most) } else { Some(key) } }
    }
}

// The rowid of this entry, or the one before.
pub(crate) fn last_of(last: Option<i64>, rowid: Option<i64>) -> Option<i64>
    ensures { result ≡ last_after last rowid }
{
    match rowid {
        None => last,
        Some(rowid) => Some(rowid),
    }
}

// The page of this entry where it has a rowid, or the one before.
pub(crate) fn page_of(last: u32, rowid: Option<i64>, page: u32) -> u32
    ensures { result ≡ page_after last rowid page }
{
    match rowid {
        None => last,
        Some(_) => page,
    }
}
