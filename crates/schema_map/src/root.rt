// The root page of a schema row, section 2.6.
ghost use Rattle.std.specs.Prelude.{◌≡◌};
ghost use Rattle.db_format.specs.Pages.{Pages};
ghost use Rattle.db_format.specs.Value.Datum.{int};
ghost use Rattle.btree_model.specs.Schema.{root_of, root_of_value};
ghost use Rattle.schema_map.specs.Root.{root_shown};

use db_format::{RecordView, Value};

/// What the fourth column of a schema row says.
#[derive(Clone, Copy)]
pub enum RootPage {
    /// There are fewer than five columns, or the fourth holds neither an integer nor NULL.
    Missing,
    /// The row has no tree.
    NoTree,
    /// The root of the row's tree.
    At(u32),
    /// No page that a row may name has this number.
    OutOfRange,
}

/// The root page of the schema row with these columns, in a database of `count` pages.
pub fn root_page(row: &RecordView<'_>, count: u32) -> RootPage
    ensures { (pages : Pages) → pages.count ≡ count → result ≡ root_shown pages (root_of row.now) }
{
    if row.columns() < 5 {
        return RootPage::Missing;
    }
    match row.value(3) {
        Value::Null => RootPage::NoTree,
        Value::Int(number) => root_at(number, count),
        Value::Float(_) | Value::Text(_) | Value::Blob(_) => RootPage::Missing,
    }
}

// The root page with this number.
fn root_at(number: i64, count: u32) -> RootPage
    ensures { (pages : Pages) → pages.count ≡ count → result ≡ root_shown pages (root_of_value (int number)) }
{
    if number == 0 {
        RootPage::NoTree
    } else if number >= 2 && number <= count as i64 {
        RootPage::At(number as u32)
    } else {
        RootPage::OutOfRange
    }
}
