// What the pages of a settled database are, as a law of the definitions.
ghost use Rattle.db_format.specs.Pages.{Pages};
ghost use Rattle.map_pages.specs.Settled.{AreSettled, CanBeSettled, IsSameDatabase};

/// A database without a defect whose parts meet no map page stays the same database when the map pages go onto its freelist.
pub fn settled_law()
    ensures { (old new : Pages) → CanBeSettled old → AreSettled old new → IsSameDatabase old new }
{}
