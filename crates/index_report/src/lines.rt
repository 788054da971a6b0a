// The lines of indexes.
ghost use Rattle.std.specs.Prelude.{◌≡◌, ◌++◌, ℕ, List, codes, decimal, OnOk, OnErr, IsTrue, length};
ghost use Rattle.edge_model.specs.Causes.{HasCause};
ghost use Rattle.db_format.specs.Value.{datum_of};
ghost use Rattle.row_text.specs.Out.{Moves, MovesPart};
ghost use Rattle.index_report.specs.Lines.{agreement_text, count_line, head, last_line, least_text, rowids_line, verdict_text, why_text};

use crate::summary::Summary;
use crate::verdict::{Unchecked, Verdict};
use db_format::Value;
use edge_model::{Failed, Sink};
use index_check::{Agreement, Rowids};
use itoa::Buffer;
use row_text::{LineOut, put_value};

// Appends a number, in decimal.
fn put_number<K: Sink>(line: &mut LineOut, out: &mut K, number: u64) -> Result<(), Failed>
    ensures done { OnOk result (IsTrue K.tells → Moves (decimal number) (K.taken out.old) line.old (K.taken out.new) line.new) }
    ensures part { OnErr result (IsTrue K.tells → MovesPart (decimal number) (K.taken out.old) line.old (K.taken out.new)) }
    ensures cause { HasCause (K.faults out.old) (K.faults out.new) result }
{
    let mut digits = Buffer::new();
    line.write(out, digits.format(number).as_bytes())
}

// Appends a number after a text.
fn put_field<K: Sink>(
    line: &mut LineOut,
    out: &mut K,
    text: &[u8],
    number: u64,
) -> Result<(), Failed>
    ensures done { OnOk result (IsTrue K.tells → Moves (text.now ++ decimal number) (K.taken out.old) line.old (K.taken out.new) line.new) }
    ensures part { OnErr result (IsTrue K.tells → MovesPart (text.now ++ decimal number) (K.taken out.old) line.old (K.taken out.new)) }
    ensures cause { HasCause (K.faults out.old) (K.faults out.new) result }
{
    line.write(out, text)?;
    put_number(line, out, number)
}

// Appends what a line of this index begins with.
fn put_head<K: Sink>(line: &mut LineOut, out: &mut K, name: &Value<'_>) -> Result<(), Failed>
    ensures done { OnOk result (IsTrue K.tells → Moves (head (datum_of name.now)) (K.taken out.old) line.old (K.taken out.new) line.new) }
    ensures part { OnErr result (IsTrue K.tells → MovesPart (head (datum_of name.now)) (K.taken out.old) line.old (K.taken out.new)) }
    ensures cause { HasCause (K.faults out.old) (K.faults out.new) result }
{
    line.write(out, b"index ")?;
    put_value(line, out, name)?;
    line.write(out, b": ")
}

// Appends the least of some rowids.
fn put_least<K: Sink>(line: &mut LineOut, out: &mut K, least: Option<i64>) -> Result<(), Failed>
    ensures done { OnOk result (IsTrue K.tells → Moves (least_text least) (K.taken out.old) line.old (K.taken out.new) line.new) }
    ensures part { OnErr result (IsTrue K.tells → MovesPart (least_text least) (K.taken out.old) line.old (K.taken out.new)) }
    ensures cause { HasCause (K.faults out.old) (K.faults out.new) result }
{
    match least {
        None => Ok(()),
        Some(rowid) => {
            line.make_room(out)?;
            line.push(b", least rowid ");
            line.push_signed(rowid);
            Ok(())
        }
    }
}

// Appends the line of some rowids, where there are any.
fn put_rowids<K: Sink>(
    line: &mut LineOut,
    out: &mut K,
    name: &Value<'_>,
    what: &[u8],
    found: &Rowids,
) -> Result<(), Failed>
    ensures done { OnOk result (IsTrue K.tells → Moves (rowids_line (datum_of name.now) what.now found.now) (K.taken out.old) line.old (K.taken out.new) line.new) }
    ensures part { OnErr result (IsTrue K.tells → MovesPart (rowids_line (datum_of name.now) what.now found.now) (K.taken out.old) line.old (K.taken out.new)) }
    ensures cause { HasCause (K.faults out.old) (K.faults out.new) result }
{
    if found.count == 0 {
        return Ok(());
    }
    put_head(line, out, name)?;
    put_number(line, out, found.count)?;
    line.write(out, what)?;
    put_least(line, out, found.least)?;
    line.write(out, b"\n")
}

// Appends the line of so many, where there are any.
fn put_count<K: Sink>(
    line: &mut LineOut,
    out: &mut K,
    name: &Value<'_>,
    what: &[u8],
    count: u64,
) -> Result<(), Failed>
    ensures done { OnOk result (IsTrue K.tells → Moves (count_line (datum_of name.now) what.now count) (K.taken out.old) line.old (K.taken out.new) line.new) }
    ensures part { OnErr result (IsTrue K.tells → MovesPart (count_line (datum_of name.now) what.now count) (K.taken out.old) line.old (K.taken out.new)) }
    ensures cause { HasCause (K.faults out.old) (K.faults out.new) result }
{
    if count == 0 {
        return Ok(());
    }
    put_head(line, out, name)?;
    put_number(line, out, count)?;
    line.write(out, what)?;
    line.write(out, b"\n")
}

// Appends a line for each way in which an index differs from its table.
fn put_agreement<K: Sink>(
    line: &mut LineOut,
    out: &mut K,
    name: &Value<'_>,
    found: &Agreement,
) -> Result<(), Failed>
    ensures done { OnOk result (IsTrue K.tells → Moves (agreement_text (datum_of name.now) found.now) (K.taken out.old) line.old (K.taken out.new) line.new) }
    ensures part { OnErr result (IsTrue K.tells → MovesPart (agreement_text (datum_of name.now) found.now) (K.taken out.old) line.old (K.taken out.new)) }
    ensures cause { HasCause (K.faults out.old) (K.faults out.new) result }
{
    put_rowids(line, out, name, b" rows missing", &found.missing)?;
    put_rowids(line, out, name, b" entries of no row", &found.strangers)?;
    put_count(line, out, name, b" entries without a rowid", found.nameless)?;
    put_count(
        line,
        out,
        name,
        b" entries beyond one a row",
        found.beyond(),
    )
}

fn why_text(why: Unchecked) -> &'static [u8]
    ensures { result.now ≡ why_text why }
{
    match why {
        Unchecked::NoTree => b"no tree of an index",
        Unchecked::NoTable => b"no table",
        Unchecked::NoRowids => b"table without rowids",
        Unchecked::NotRead => b"partial or not read",
    }
}

/// Appends the lines of what is found of the index of this name.
pub(crate) fn put_verdict<K: Sink>(
    line: &mut LineOut,
    out: &mut K,
    name: &Value<'_>,
    verdict: &Verdict,
) -> Result<(), Failed>
    ensures done { OnOk result (IsTrue K.tells → Moves (verdict_text (datum_of name.now) verdict.now) (K.taken out.old) line.old (K.taken out.new) line.new) }
    ensures part { OnErr result (IsTrue K.tells → MovesPart (verdict_text (datum_of name.now) verdict.now) (K.taken out.old) line.old (K.taken out.new)) }
    ensures cause { HasCause (K.faults out.old) (K.faults out.new) result }
{
    match verdict {
        Verdict::Unchecked(why) => {
            put_head(line, out, name)?;
            line.write(out, b"not checked: ")?;
            line.write(out, why_text(*why))?;
            line.write(out, b"\n")
        }
        Verdict::Checked(found) => put_agreement(line, out, name, found),
    }
}

/// Appends the last line.
pub(crate) fn put_last<K: Sink>(
    line: &mut LineOut,
    out: &mut K,
    found: &Summary,
) -> Result<(), Failed>
    ensures done { OnOk result (IsTrue K.tells → Moves (last_line found.now) (K.taken out.old) line.old (K.taken out.new) line.new) }
    ensures part { OnErr result (IsTrue K.tells → MovesPart (last_line found.now) (K.taken out.old) line.old (K.taken out.new)) }
    ensures cause { HasCause (K.faults out.old) (K.faults out.new) result }
{
    if found.differing == 0 {
        put_field(line, out, b"ok: ", found.checked)?;
        put_field(line, out, b" indexes, ", found.entries)?;
        put_field(line, out, b" entries, ", found.unchecked)?;
        return line.write(out, b" not checked\n");
    }
    put_field(line, out, b"indexes differ: ", found.differing)?;
    put_field(line, out, b" of ", found.checked)?;
    line.write(out, b"\n")
}
