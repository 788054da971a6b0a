// A database is checked whole, before anything is drawn or written.
ghost use Rattle.std.specs.Prelude.{◌≡◌, ◌≤◌, ℕ, true, Err, IfOk, IfErr, OnOk, IsTrue, map};
ghost use Rattle.std.specs.List.{All};
ghost use Rattle.btree_model.specs.Finding.{entries};
ghost use Rattle.btree_model.specs.Parts.{is_database};
ghost use Rattle.db_format.specs.Header.{header_fields};
ghost use Rattle.db_format.specs.Source.{no_pins};
ghost use Rattle.edge_model.specs.Causes.{Rose};
ghost use Rattle.migrate_job.specs.Stops.{IsFoundEarly};
ghost use Rattle.pager.specs.Held.{pins_of};
ghost use Rattle.pager.specs.PagesOf.{pages_of};
ghost use Rattle.pager.specs.Reads.{DiskRead, Untouched};
ghost use Rattle.schema_map.specs.Census.{schema_after};
ghost use Rattle.schema_map.specs.Schema.{schema_row};

use crate::copying::walk_error;
use crate::error::MigrateError;
use edge_model::{Disk, Entropy};
use pager::Pager;
use schema_map::{Schema, census};
use std::alloc::Global;

/// Checks that no part has a defect. Answers the schema.
pub(crate) fn check_database<D: Disk, E: Entropy>(
    alloc: Global,
    pager: &mut Pager<'_, D, E>,
) -> Result<Schema, MigrateError>
    requires unpinned { pins_of pager.old.cache.held ≡ no_pins }
    requires header { IsTrue D.tells → pager.old.header ≡ header_fields ((pages_of pager.old).page 1) }
    ensures sound { OnOk result (IsTrue D.tells → is_database (pages_of pager.old) ≡ true) }
    ensures schema { IfOk result (λ schema. IsTrue D.tells → schema ≡ map schema_row (entries (schema_after (pages_of pager.old)))) }
    ensures roots { IfOk result (All (λ row. row.root ≤ pager.old.count)) }
    ensures found { IfErr result (λ e. IsTrue D.tells → IsFoundEarly (pages_of pager.old) e) }
    ensures reading { IfErr result (λ e. (e ≡ MigrateError.EntropyFault → ⊥) × ((limit : ℕ) → e ≡ MigrateError.TooManyPages limit → ⊥)) }
    ensures fault { result ≡ Err MigrateError.DiskFault → Rose (D.faults pager.old.disk.now) (D.faults pager.new.disk.now) }
    ensures unpinned { OnOk result (pins_of pager.new.cache.held ≡ no_pins) }
    ensures disk { DiskRead D.tells D.reads D.images D.moment D.since D.faults pager.old.disk pager.new.disk }
    ensures entropy { Untouched pager.old.entropy pager.new.entropy }
    ensures file { (pager.new.codec ≡ pager.old.codec) × (pager.new.header ≡ pager.old.header) × (pager.new.count ≡ pager.old.count) }
{
    let header = *pager.header();
    match census(alloc, pager, &header) {
        Ok(census) => Ok(census.schema),
        Err(error) => Err(walk_error(error)),
    }
}
