// What a row of the schema stands for, section 2.6.
ghost use Rattle.std.specs.Prelude.{◌≡◌};
ghost use Rattle.db_format.specs.Value.{datum_of};
ghost use Rattle.schema_names.specs.Near.{kind_named, schema_kind};

use db_format::Value;

/// What a row of the schema stands for, by its first column.
#[derive(Clone, Copy, Debug, PartialEq, Eq)]
pub enum SchemaKind {
    /// A table, also one without rowids or a virtual one.
    Table,
    /// An index.
    Index,
    /// A view.
    View,
    /// A trigger.
    Trigger,
}

/// What this first column says.
pub fn kind_of(value: Value<'_>) -> Option<SchemaKind>
    ensures { result ≡ schema_kind (datum_of value.entry) }
{
    match value {
        Value::Text(stored) => kind_named(stored),
        Value::Null | Value::Int(_) | Value::Float(_) | Value::Blob(_) => None,
    }
}

// The kind of this name.
fn kind_named(stored: &[u8]) -> Option<SchemaKind>
    ensures { result ≡ kind_named stored.now }
{
    if stored == b"table".as_slice() {
        return Some(SchemaKind::Table);
    }
    if stored == b"index".as_slice() {
        return Some(SchemaKind::Index);
    }
    if stored == b"view".as_slice() {
        return Some(SchemaKind::View);
    }
    if stored == b"trigger".as_slice() {
        return Some(SchemaKind::Trigger);
    }
    None
}
