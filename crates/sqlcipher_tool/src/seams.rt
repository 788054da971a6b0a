// What the runs of `settle` keep together, and that the settled file holds what the old one held.
ghost use Rattle.std.specs.Prelude.{◌≡◌, ℕ, Bool, List, Option, Some};
ghost use Rattle.btree_model.specs.Content.{content};
ghost use Rattle.btree_model.specs.Parts.{parts};
ghost use Rattle.cipher_profile.specs.Profile.{IsListed, with_log};
ghost use Rattle.cipher_profile.specs.declared.keys.Secret.{Secret};
ghost use Rattle.cipher_profile.specs.declared.profile.Profile.{Profile};
ghost use Rattle.db_format.specs.Pages.{Pages};
ghost use Rattle.log_view.specs.View.{viewed};
ghost use Rattle.page_codec.specs.Page.{keys_of};
ghost use Rattle.pager.specs.Pages.{opened_pages};
ghost use Rattle.sqlcipher_tool.specs.Crash.{IsSafely, new_held, old_held};
ghost use Rattle.sqlcipher_tool.specs.Holding.{HoldsOnly, disk_run};
ghost use Rattle.sqlcipher_tool.specs.Plain.{IsClean};
ghost use Rattle.sqlcipher_tool.specs.ReadAlike.{AreReadAlike};
ghost use Rattle.sqlcipher_tool.specs.Renewal.{IsNewDrawn, Renewal, renewed};
ghost use Rattle.sqlcipher_tool.specs.Recovered.{recovered_main};
ghost use Rattle.sqlcipher_tool.specs.Seams.{AreKept, AreTaken, BeginsBehind, HoldAtFirst, HoldsThroughout, IsLaid, Joins};
ghost use Rattle.sqlcipher_tool.specs.Settle.{IsSettledFrom};
ghost use Rattle.sqlcipher_tool.specs.Settling.{CanBeLaid, CanLoseMaps};
ghost use Rattle.sqlcipher_tool.specs.declared.change.Change.TheVariants.{Settle as SettleBy};
ghost use Rattle.sqlcipher_tool.specs.declared.command.Command.TheVariants.{Change as ChangeFile};
ghost use Rattle.sqlcipher_tool.specs.declared.status.Status.TheVariants.{Done};
ghost use Rattle.edge_model.specs.Files.{main_of};
ghost use Rattle.edge_model.specs.Images.{Each};
ghost use Rattle.sqlcipher_tool.specs.declared.command.Command.{Command};
ghost use Rattle.sqlcipher_tool.specs.declared.status.Status.{Status};

use edge_model::Disk;

/// Three runs over three disks, one after another, from the first value of each to its last: a recovery, the laying of a log, and a change.
/// Where FILE, FILE-journal and FILE-wal hold the old database at the start, whatever a crash left of them, they do so at every moment of
/// the runs, until in the last one FILE alone holds it or the new one.
pub fn seams_law<Z: Disk, O: Disk, T: Disk>(
    zero: &Z,
    zero_end: &Z,
    one: &O,
    one_end: &O,
    two: &T,
    two_end: &T,
)
    ensures { (status : Status) (command : Command) (renewal : Renewal) (tells : Bool) (drawn : List ℕ) (logs : Option (List ℕ) → Bool)
        → AreTaken renewal.old_profile.page_size logs
        → AreKept status (old_held renewal (T.reads two.now)) (IsNewDrawn command renewal tells drawn (recovered_main renewal.old_profile (T.reads two.now))) (new_held renewal)
        (disk_run Z.reads Z.images Z.moment Z.since zero.now zero_end.now) (disk_run O.reads O.images O.moment O.since one.now one_end.now) (disk_run T.reads T.images T.moment T.since two.now two_end.now)
        → Joins logs (disk_run Z.reads Z.images Z.moment Z.since zero.now zero_end.now) (disk_run O.reads O.images O.moment O.since one.now one_end.now) (disk_run T.reads T.images T.moment T.since two.now two_end.now)
        → HoldAtFirst (old_held renewal (T.reads two.now)) logs (disk_run Z.reads Z.images Z.moment Z.since zero.now zero_end.now)
        → HoldsThroughout status (old_held renewal (T.reads two.now)) (IsNewDrawn command renewal tells drawn (recovered_main renewal.old_profile (T.reads two.now))) (new_held renewal) logs
        (disk_run Z.reads Z.images Z.moment Z.since zero.now zero_end.now) (disk_run O.reads O.images O.moment O.since one.now one_end.now) (disk_run T.reads T.images T.moment T.since two.now two_end.now) }
{}

/// Pages that differ in the header's fields alone which no tree, no freelist and no content has are the same database.
pub fn read_alike_law()
    ensures { (old new : Pages) → AreReadAlike old new → (parts new ≡ parts old) × (content new ≡ content old) }
{}

/// A settled file is clean under its key where marks do not pass, as the old one was where they do, and holds the same. Where it had map
/// pages, none of its parts had a place on one.
pub fn settled_clean_law()
    ensures { (profile : Profile) (secret : Secret) (before after : List ℕ) → IsListed profile
        → IsSettledFrom (keys_of (with_log profile) secret before) (keys_of profile secret after) before after → (clean : IsClean (keys_of (with_log profile) secret before) before)
        → CanLoseMaps (opened_pages (keys_of (with_log profile) secret before) before clean.opens.count)
        → (now : IsClean (keys_of profile secret after) after) × (now.held ≡ clean.held) }
{}

/// After Done of the last run FILE is clean under its key where marks do not pass, so it is in rollback mode with all pages in use accepted,
/// and holds what it held at the start of that run, where it was such as `check_to_settle` asks.
pub fn settle_done_law<T: Disk>(two: &T, two_end: &T)
    ensures { (profile : Profile) (first second : Secret) (frames : ℕ) (tells : Bool) (drawn : List ℕ) → IsListed profile
        → IsSafely Done (ChangeFile profile (SettleBy frames)) tells drawn (disk_run T.reads T.images T.moment T.since two.now two_end.now) (Some (renewed profile (SettleBy frames) first second))
        → Each (T.images two.now) (HoldsOnly (old_held (renewed profile (SettleBy frames) first second) (T.reads two.now)))
        → (laid : CanBeLaid profile first (recovered_main profile (T.reads two.now)))
        → (now : IsClean (keys_of profile first (main_of (T.reads two_end.now))) (main_of (T.reads two_end.now))) × (now.held ≡ laid.clean.held) }
{}

/// The runs together: after Done of the last one FILE alone is clean under its key where marks do not pass, so it is in rollback mode with all
/// pages in use accepted, and holds what the file held that was checked through a view of FILE and FILE-wal. It asks that the view was one of
/// the files with which the laying began, and that the last run began with what the laying left: that is the program's part.
pub fn settle_law<V: Disk, O: Disk, T: Disk>(view: &V, one: &O, one_end: &O, two: &T, two_end: &T)
    ensures { (profile : Profile) (first second : Secret) (frames : ℕ) (tells : Bool) (drawn : List ℕ) → IsListed profile
        → V.reads view.now ≡ viewed profile.page_size (O.reads one.now)
        → (checked : CanBeLaid profile first (recovered_main profile (V.reads view.now)))
        → IsLaid profile.page_size (O.reads one.now) (O.images one_end.now)
        → BeginsBehind (O.images one_end.now) (T.images two.now)
        → IsSafely Done (ChangeFile profile (SettleBy frames)) tells drawn (disk_run T.reads T.images T.moment T.since two.now two_end.now) (Some (renewed profile (SettleBy frames) first second))
        → (now : IsClean (keys_of profile first (main_of (T.reads two_end.now))) (main_of (T.reads two_end.now))) × (now.held ≡ checked.clean.held) }
{}
