// The lines of a content.
ghost use Rattle.std.specs.Prelude.{◌≡◌, ◌≤◌, ◌+◌, ◌++◌, codes, decimal, length, OnOk, OnErr, IsTrue};
ghost use Rattle.edge_model.specs.Causes.{HasCause};
ghost use Rattle.btree_model.specs.Content.{without_fourth};
ghost use Rattle.export_rows.specs.Lines.{database_line, end_line, kept_of, kind_text, schema_line};
ghost use Rattle.row_text.specs.Out.{Moves, MovesPart};

use btree_page::Family;
use db_format::{Header, RecordView};
use edge_model::{Failed, Sink};
use row_text::{LineOut, put_values};

/// Appends the line of a database with this header.
pub fn put_database<K: Sink>(line: &mut LineOut, out: &mut K, header: &Header) -> Result<(), Failed>
    ensures done { OnOk result (IsTrue K.tells → Moves (database_line (kept_of header.now)) (K.taken out.old) line.old (K.taken out.new) line.new) }
    ensures part { OnErr result (IsTrue K.tells → MovesPart (database_line (kept_of header.now)) (K.taken out.old) line.old (K.taken out.new)) }
    ensures cause { HasCause (K.faults out.old) (K.faults out.new) result }
{
    line.make_room(out)?;
    push_schema_fields(line, header);
    push_names(line, header);
    Ok(())
}

// A number after a text.
fn push_field(line: &mut LineOut, name: &[u8], value: u32)
    requires { length line.old + length name.now + 20 ≤ 65536 }
    ensures text { line.new ≡ line.old ++ name.now ++ decimal value }
    ensures short { length line.new ≤ length line.old + length name.now + 20 }
{
    line.push(name);
    line.push_number(value);
}

fn push_schema_fields(line: &mut LineOut, header: &Header)
    requires { length line.old + 200 ≤ 65536 }
    ensures text { line.new ≡ line.old
        ++ codes "database cookie " ++ decimal header.now.cookie
        ++ codes " format " ++ decimal header.now.format
        ++ codes " cache " ++ decimal header.now.cache
        ++ codes " encoding " ++ decimal header.now.encoding }
    ensures short { length line.new ≤ length line.old + 130 }
{
    push_field(line, b"database cookie ", header.cookie);
    push_field(line, b" format ", header.format);
    push_field(line, b" cache ", header.cache);
    push_field(line, b" encoding ", header.encoding);
}

fn push_names(line: &mut LineOut, header: &Header)
    requires { length line.old + 200 ≤ 65536 }
    ensures { line.new ≡ line.old
        ++ codes " user-version " ++ decimal header.now.user_version
        ++ codes " application-id " ++ decimal header.now.application_id
        ++ codes " sqlite " ++ decimal header.now.sqlite_number
        ++ codes "\n" }
{
    push_field(line, b" user-version ", header.user_version);
    push_field(line, b" application-id ", header.application_id);
    push_field(line, b" sqlite ", header.sqlite_number);
    line.push(b"\n");
}

/// Appends the line of a schema row, whose tree is of this family, if it has one.
pub fn put_schema_row<K: Sink>(
    line: &mut LineOut,
    out: &mut K,
    rowid: i64,
    row: &RecordView<'_>,
    family: Option<Family>,
) -> Result<(), Failed>
    ensures done { OnOk result (IsTrue K.tells → Moves (schema_line rowid (without_fourth row.now) family) (K.taken out.old) line.old (K.taken out.new) line.new) }
    ensures part { OnErr result (IsTrue K.tells → MovesPart (schema_line rowid (without_fourth row.now) family) (K.taken out.old) line.old (K.taken out.new)) }
    ensures cause { HasCause (K.faults out.old) (K.faults out.new) result }
{
    line.make_room(out)?;
    line.push(b"schema ");
    line.push_signed(rowid);
    let mut values = row.values();
    put_values(line, out, &mut values, 3)?;
    line.write(out, kind_text(family))?;
    let _root = values.next();
    put_values(line, out, &mut values, 1)?;
    line.write(out, b"\n")
}

fn kind_text(family: Option<Family>) -> &'static [u8]
    ensures { result.now ≡ kind_text family }
{
    match family {
        None => b" none",
        Some(Family::Table) => b" table",
        Some(Family::Index) => b" index",
    }
}

/// Appends the last line.
pub fn put_end<K: Sink>(line: &mut LineOut, out: &mut K) -> Result<(), Failed>
    ensures done { OnOk result (IsTrue K.tells → Moves end_line (K.taken out.old) line.old (K.taken out.new) line.new) }
    ensures part { OnErr result (IsTrue K.tells → MovesPart end_line (K.taken out.old) line.old (K.taken out.new)) }
    ensures cause { HasCause (K.faults out.old) (K.faults out.new) result }
{
    line.write(out, b"end\n")
}
