// The lines of a salvage.
ghost use Rattle.std.specs.Prelude.{◌≡◌, ◌≤◌, ◌+◌, ◌++◌, codes, decimal, length, OnOk, OnErr, IsTrue};
ghost use Rattle.std.specs.Fmt.{signed_decimal};
ghost use Rattle.edge_model.specs.Causes.{HasCause};
ghost use Rattle.row_text.specs.Out.{Moves, MovesPart};
ghost use Rattle.salvage_scan.specs.Salvage.Line.{bad_cell, lost, row, tag_refused};
ghost use Rattle.salvage_scan.specs.Text.{counts_line, line_text};

use db_format::RecordView;
use edge_model::{Failed, Sink};
use itoa::Buffer;
use row_text::{LineOut, put_values};

/// Appends the line of a page that is not accepted.
pub(crate) fn put_refused<K: Sink>(line: &mut LineOut, out: &mut K, n: u32) -> Result<(), Failed>
    ensures done { OnOk result (IsTrue K.tells → Moves (line_text (tag_refused n)) (K.taken out.old) line.old (K.taken out.new) line.new) }
    ensures part { OnErr result (IsTrue K.tells → MovesPart (line_text (tag_refused n)) (K.taken out.old) line.old (K.taken out.new)) }
    ensures cause { HasCause (K.faults out.old) (K.faults out.new) result }
{
    line.make_room(out)?;
    push_refused(line, n);
    Ok(())
}

fn push_refused(line: &mut LineOut, n: u32)
    requires { length line.old + 100 ≤ 65536 }
    ensures { line.new ≡ line.old ++ line_text (tag_refused n) }
{
    line.push(b"page ");
    line.push_number(n);
    line.push(b": tag refused\n");
}

/// Appends the line of a leaf with a bad cell.
pub(crate) fn put_bad_cell<K: Sink>(
    line: &mut LineOut,
    out: &mut K,
    n: u32,
    index: u32,
) -> Result<(), Failed>
    ensures done { OnOk result (IsTrue K.tells → Moves (line_text (bad_cell n index)) (K.taken out.old) line.old (K.taken out.new) line.new) }
    ensures part { OnErr result (IsTrue K.tells → MovesPart (line_text (bad_cell n index)) (K.taken out.old) line.old (K.taken out.new)) }
    ensures cause { HasCause (K.faults out.old) (K.faults out.new) result }
{
    line.make_room(out)?;
    push_bad_cell(line, n, index);
    Ok(())
}

fn push_bad_cell(line: &mut LineOut, n: u32, index: u32)
    requires { length line.old + 100 ≤ 65536 }
    ensures { line.new ≡ line.old ++ line_text (bad_cell n index) }
{
    line.push(b"page ");
    line.push_number(n);
    line.push(b": bad cell ");
    line.push_number(index);
    line.push(b"\n");
}

/// Appends the line of a row.
pub(crate) fn put_row<K: Sink>(
    line: &mut LineOut,
    out: &mut K,
    n: u32,
    rowid: i64,
    values: &RecordView<'_>,
) -> Result<(), Failed>
    ensures done { OnOk result (IsTrue K.tells → Moves (line_text (row n rowid values.now)) (K.taken out.old) line.old (K.taken out.new) line.new) }
    ensures part { OnErr result (IsTrue K.tells → MovesPart (line_text (row n rowid values.now)) (K.taken out.old) line.old (K.taken out.new)) }
    ensures cause { HasCause (K.faults out.old) (K.faults out.new) result }
{
    line.make_room(out)?;
    push_place(line, b"row ", n, rowid);
    let mut left = values.values();
    put_values(line, out, &mut left, values.columns() as usize)?;
    line.write(out, b"\n")
}

/// Appends the line of a row that is lost.
pub(crate) fn put_lost<K: Sink>(
    line: &mut LineOut,
    out: &mut K,
    n: u32,
    rowid: i64,
) -> Result<(), Failed>
    ensures done { OnOk result (IsTrue K.tells → Moves (line_text (lost n rowid)) (K.taken out.old) line.old (K.taken out.new) line.new) }
    ensures part { OnErr result (IsTrue K.tells → MovesPart (line_text (lost n rowid)) (K.taken out.old) line.old (K.taken out.new)) }
    ensures cause { HasCause (K.faults out.old) (K.faults out.new) result }
{
    line.make_room(out)?;
    push_lost(line, n, rowid);
    Ok(())
}

fn push_lost(line: &mut LineOut, n: u32, rowid: i64)
    requires { length line.old + 100 ≤ 65536 }
    ensures { line.new ≡ line.old ++ line_text (lost n rowid) }
{
    push_place(line, b"lost ", n, rowid);
    line.push(b"\n");
}

// The page and the rowid of a row, after a word.
fn push_place(line: &mut LineOut, word: &[u8], n: u32, rowid: i64)
    requires room { length line.old + 90 ≤ 65536 }
    requires word { length word.now ≤ 10 }
    ensures text { line.new ≡ line.old ++ (word.now ++ decimal n ++ codes " " ++ signed_decimal rowid) }
    ensures short { length line.new ≤ length line.old + 51 }
{
    line.push(word);
    line.push_number(n);
    line.push(b" ");
    line.push_signed(rowid);
}

/// Appends the last line.
pub(crate) fn put_counts<K: Sink>(
    line: &mut LineOut,
    out: &mut K,
    rows: u64,
    lost: u64,
    refused: u64,
) -> Result<(), Failed>
    ensures done { OnOk result (IsTrue K.tells → Moves (counts_line (record { rows = rows; lost_rows = lost; refused_pages = refused }))
        (K.taken out.old) line.old (K.taken out.new) line.new) }
    ensures part { OnErr result (IsTrue K.tells → MovesPart (counts_line (record { rows = rows; lost_rows = lost; refused_pages = refused }))
        (K.taken out.old) line.old (K.taken out.new)) }
    ensures cause { HasCause (K.faults out.old) (K.faults out.new) result }
{
    line.make_room(out)?;
    push_counts(line, rows, lost, refused);
    Ok(())
}

fn push_counts(line: &mut LineOut, rows: u64, lost: u64, refused: u64)
    requires { length line.old + 200 ≤ 65536 }
    ensures { line.new ≡ line.old ++ counts_line (record { rows = rows; lost_rows = lost; refused_pages = refused }) }
{
    push_count(line, b"salvaged: ", rows);
    push_count(line, b" rows, ", lost);
    push_count(line, b" lost, ", refused);
    line.push(b" refused pages\n");
}

// A number after a text.
fn push_count(line: &mut LineOut, text: &[u8], count: u64)
    requires room { length line.old + 60 ≤ 65536 }
    requires word { length text.now ≤ 20 }
    ensures text { line.new ≡ line.old ++ text.now ++ decimal count }
    ensures short { length line.new ≤ length line.old + 40 }
{
    let mut digits = Buffer::new();
    line.push(text);
    line.push(digits.format(count).as_bytes());
}
