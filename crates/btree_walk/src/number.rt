// Numbers by which pages name each other.
ghost use Rattle.std.specs.Prelude.{◌≡◌, ◌≤◌, IsTrue};
ghost use Rattle.db_format.specs.Pages.{Pages};
ghost use Rattle.btree_model.specs.Range.{is_in_range};

/// Whether page n may be named by a page of a database of so many pages: page 1 is named by none.
pub fn is_in_range(n: u32, count: u32) -> bool
    ensures value { (pages : Pages) → pages.count ≡ count → result ≡ is_in_range pages n }
    ensures low { IsTrue result → 2 ≤ n }
    ensures high { IsTrue result → n ≤ count }
{
    n >= 2 && n <= count
}
