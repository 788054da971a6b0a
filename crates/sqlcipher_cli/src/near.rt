// The names that are near that of `find`, where there is no table of it: on standard error, since the answer is given.
ghost use Rattle.std.specs.Prelude.{IsTrue};
ghost use Rattle.sqlcipher_tool.specs.Opening.{AreRecovered};

use crate::asked::Asked;
use cipher_profile::{Secret, read_key};
use edge_files::{KeptLine, KeyLine, Shown, say};
use edge_model::{Disk, Entropy};
use profile_word::profile_of;
use schema_names::{NearName, SchemaKind};
use sqlcipher_tool::{Refusal, Status, near_names};
use std::alloc::Global;
use std::str;

const NO_TABLE: &str =
    "the schema has no table of this name whose rows have rowids: a name is compared byte for byte, case and all; a view has no rows of \
    its own, and those of an index or of a WITHOUT ROWID table have no rowids: for these use `export`, which shows every name";

/// Where a `find` ended for want of its table, the names of the schema that are that of its words but for case. The key line is that of
/// the run, and the files are read as it left them. Where the names can't be had there are none, which is no fault of the run.
pub fn names_near<E: Entropy, D: Disk>(
    alloc: Global,
    status: Status,
    words: &[&str],
    line: &KeyLine,
    entropy: &mut E,
    disk: &mut D,
) -> Option<Vec<NearName>>
    requires { IsTrue D.tells → AreRecovered (D.reads disk.old) (D.images disk.old) }
{
    if status != Status::Refused(Refusal::NoTable) {
        return None;
    }
    let secret = match profile_of(Asked::new(words).version())?.line_form() {
        Some(form) => read_key(form, &mut KeptLine::new(line)).ok()?,
        None => Secret::NoKey,
    };
    near_names(alloc, words, &secret, entropy, disk).ok()
}

/// Says what is there in the place of the table of this name.
pub fn explain_names(rt: &HostRuntime, sought: &str, names: &[NearName]) {
    if names.is_empty() {
        say(rt, NO_TABLE);
    }
    for near in names {
        if let Ok(stored) = str::from_utf8(near.name.as_slice()) {
            explain_name(rt, near, stored, stored == sought);
        }
    }
}

// What has this name. A table is of the very name only where its rows have no rowids, since `find` would have found it.
fn explain_name(rt: &HostRuntime, near: &NearName, stored: &str, is_sought: bool) {
    let name = Shown(stored);
    let words = match near.kind {
        SchemaKind::Table if !is_sought => {
            "a table of almost this name: a name is compared byte for byte, case and all"
        }
        SchemaKind::Table if near.has_tree => {
            "a table WITHOUT ROWID: its rows have no rowids; use `export`"
        }
        SchemaKind::Table => "a virtual table: its rows stand in other tables; use `export`",
        SchemaKind::Index => "an index: its entries have no rowids of their own; use `export`",
        SchemaKind::View => "a view: it has no rows of its own",
        SchemaKind::Trigger => "a trigger: it has no rows",
    };
    say(rt, format_args!("`{name}` is {words}"));
}
