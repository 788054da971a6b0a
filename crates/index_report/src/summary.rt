// What is found of all indexes, in numbers.
ghost use Rattle.std.specs.Prelude.{◌≡◌, ◌<◌, ◌-◌, ◌^◌, ◌++◌, ◌∷◌, [], List, length, option_to_list};
ghost use Rattle.index_report.specs.declared.verdict.Verdict.{Verdict as Found};
ghost use Rattle.index_report.specs.Summary.{summary};

use crate::verdict::Verdict;

/// How many indexes there are of each kind.
#[derive(Clone, Copy, Debug, PartialEq, Eq)]
pub struct Summary {
    /// How many are checked.
    pub checked: u64,
    /// How many entries those have, 2^64 - 1 where there are more.
    pub entries: u64,
    /// How many are not checked.
    pub unchecked: u64,
    /// How many of those that are checked differ from their table.
    pub differing: u64,
}

impl Summary {
    /// None yet.
    pub(crate) fn none() -> Summary
        ensures { result ≡ summary [] }
    {
        Summary {
            checked: 0,
            entries: 0,
            unchecked: 0,
            differing: 0,
        }
    }

    // One index more.
    fn with(&self, verdict: &Verdict) -> Summary
        ensures { (before : List Found) → length before < 2 ^ 64 - 1 → self.now ≡ summary before → result ≡ summary (before ++ verdict.now ∷ []) }
    {
        match verdict {
            Verdict::Unchecked(_) => Summary {
                checked: self.checked,
                entries: self.entries,
                unchecked: self.unchecked.saturating_add(1),
                differing: self.differing,
            },
            Verdict::Checked(found) => Summary {
                checked: self.checked.saturating_add(1),
                entries: self.entries.saturating_add(found.entries),
                unchecked: self.unchecked,
                differing: self.differing.saturating_add(u64::from(!found.is_whole())),
            },
        }
    }
    /// One row of the schema more, of which this is found: nothing where it is none of an index.
    pub(crate) fn after(&self, found: Option<Verdict>) -> Summary
        ensures { (before : List Found) → length before < 2 ^ 64 - 1 → self.now ≡ summary before → result ≡ summary (before ++ option_to_list found) }
    {
        match found {
            None => *self,
            Some(verdict) => self.with(&verdict),
        }
    }
}
