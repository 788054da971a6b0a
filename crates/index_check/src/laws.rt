// What the counts of a check say of rows and entries.
ghost use Rattle.std.specs.Prelude.{◌≡◌, ℤ, true, List, Option};
ghost use Rattle.index_check.specs.Agree.{IsOneForOne, beyond};
ghost use Rattle.index_check.specs.Checked.{IsAgreement, IsRising, is_whole, surplus};
ghost use Rattle.index_check.specs.declared.agreement.Agreement.{Agreement as Found};

/// The counts are whole exactly where each row has one entry, and each entry belongs to a row.
pub fn whole_law()
    ensures whole { (rows : List ℤ) (owners : List (Option ℤ)) (found : Found) → IsRising rows → IsAgreement rows owners found
        → is_whole found ≡ true → IsOneForOne rows owners }
    ensures only { (rows : List ℤ) (owners : List (Option ℤ)) (found : Found) → IsRising rows → IsAgreement rows owners found
        → IsOneForOne rows owners → is_whole found ≡ true }
{}

/// The surplus of the counts is what the entries of all rows are beyond one a row.
pub fn beyond_law()
    ensures { (rows : List ℤ) (owners : List (Option ℤ)) (found : Found) → IsRising rows → IsAgreement rows owners found → surplus found ≡ beyond rows owners }
{}
