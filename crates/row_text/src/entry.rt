// The line of a row of a table, or of an entry of an index.
ghost use Rattle.std.specs.Prelude.{◌≡◌, ◌≤◌, ◌+◌, ◌++◌, length, OnOk, OnErr, IsTrue};
ghost use Rattle.edge_model.specs.Causes.{HasCause};
ghost use Rattle.row_text.specs.Lines.{entry_head, entry_line};
ghost use Rattle.row_text.specs.Out.{Moves, MovesPart};

use crate::line_out::LineOut;
use crate::values::put_values;
use db_format::RecordView;
use edge_model::{Failed, Sink};

/// Appends the line of an entry: with its rowid in a table.
pub fn put_entry<K: Sink>(
    line: &mut LineOut,
    out: &mut K,
    rowid: Option<i64>,
    row: &RecordView<'_>,
) -> Result<(), Failed>
    ensures done { OnOk result (IsTrue K.tells → Moves (entry_line rowid row.now) (K.taken out.old) line.old (K.taken out.new) line.new) }
    ensures part { OnErr result (IsTrue K.tells → MovesPart (entry_line rowid row.now) (K.taken out.old) line.old (K.taken out.new)) }
    ensures cause { HasCause (K.faults out.old) (K.faults out.new) result }
{
    line.make_room(out)?;
    push_head(line, rowid);
    let mut values = row.values();
    put_values(line, out, &mut values, row.columns() as usize)?;
    line.write(out, b"\n")
}

fn push_head(line: &mut LineOut, rowid: Option<i64>)
    requires { length line.old + 30 ≤ 65536 }
    ensures { line.new ≡ line.old ++ entry_head rowid }
{
    match rowid {
        None => line.push(b"entry"),
        Some(rowid) => {
            line.push(b"row ");
            line.push_signed(rowid);
        }
    }
}
