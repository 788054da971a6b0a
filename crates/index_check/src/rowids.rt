// Some rowids, as they are reported: how many, and the least.
ghost use Rattle.std.specs.Prelude.{◌≡◌, ◌+◌, ◌-◌, ◌<◌, ◌^◌, ◌++◌, ◌∷◌, [], ℤ, List, length};
ghost use Rattle.index_check.specs.Agree.{lesser};
ghost use Rattle.index_check.specs.Checked.{AreCounted};

/// How many rowids there are, and the least of them.
#[derive(Clone, Copy, Debug, PartialEq, Eq)]
pub struct Rowids {
    /// How many.
    pub count: u64,
    /// The least; `None` where there are none.
    pub least: Option<i64>,
}

impl Rowids {
    /// None.
    pub fn none() -> Rowids
        ensures { AreCounted [] result }
    {
        Rowids {
            count: 0,
            least: None,
        }
    }

    /// One rowid more.
    pub fn add(&mut self, rowid: i64)
        requires { self.old.count < 2 ^ 64 - 1 }
        ensures counted { (before : List ℤ) → AreCounted before self.old → AreCounted (before ++ rowid ∷ []) self.new }
        ensures more { self.new.count ≡ self.old.count + 1 }
    {
        self.count += 1;
        self.least = lesser(self.least, Some(rowid));
    }

    /// These and others.
    pub fn join(&self, others: &Rowids) -> Rowids
        ensures { (first second : List ℤ) → length (first ++ second) < 2 ^ 64 → AreCounted first self.now → AreCounted second others.now → AreCounted (first ++ second) result }
    {
        Rowids {
            count: self.count.saturating_add(others.count),
            least: lesser(self.least, others.least),
        }
    }
}

// The lesser of two, where there are two.
fn lesser(first: Option<i64>, second: Option<i64>) -> Option<i64>
    ensures { result ≡ lesser first second }
{
    match (first, second) {
        (None, other) => other,
        (Some(rowid), None) => Some(rowid),
        (Some(rowid), Some(other)) => {
            if rowid <= other {
                Some(rowid)
            } else {
                Some(other)
            }
        }
    }
}
