// What the counts of a report say of rows and entries.
ghost use Rattle.std.specs.Prelude.{◌≡◌, List};
ghost use Rattle.db_format.specs.Pages.{Pages};
ghost use Rattle.schema_map.specs.declared.schema.SchemaRow.{SchemaRow as Kept};
ghost use Rattle.export_rows.specs.Schema.{IsSchemaOf};
ghost use Rattle.index_report.specs.Agreeing.{AreOneByOne};
ghost use Rattle.index_report.specs.Report.{found_of};

/// Of a database without a defect no index that is checked differs exactly where, of each of these, each row of its table has one entry,
/// and each entry belongs to a row.
pub fn agreeing_law()
    ensures agree { (pages : Pages) (rows : List Kept) → IsSchemaOf pages rows → (found_of pages rows).differing ≡ 0 → AreOneByOne pages rows }
    ensures only { (pages : Pages) (rows : List Kept) → IsSchemaOf pages rows → AreOneByOne pages rows → (found_of pages rows).differing ≡ 0 }
{}
