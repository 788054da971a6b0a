// The rows of `salvage` on a made file whose pages are whole, or have a bit of a tag turned.
use command_runs::pages::turn;
use command_runs::served::{KEY, OTHER_KEY, Step, disk_with, made, serve_all};
use std::test::Fail;

const WHOLE: &str =
    "row 1 1 'table' 'items' 'items' 2 'CREATE TABLE items(id INTEGER PRIMARY KEY, name TEXT, data BLOB, size INTEGER)'\n\
    row 1 2 'index' 'items_name' 'items' 3 'CREATE INDEX items_name ON items(name)'\n\
    row 1 3 'table' 'codes' 'codes' 4 'CREATE TABLE codes(code TEXT PRIMARY KEY, item INTEGER) WITHOUT ROWID'\n\
    row 1 4 'view' 'names' 'names' 0 'CREATE VIEW names AS SELECT name FROM items'\n\
    salvaged: 4 rows, 0 lost, 0 refused pages\n";

const WITHOUT_PAGE_3: &str =
    "row 1 1 'table' 'items' 'items' 2 'CREATE TABLE items(id INTEGER PRIMARY KEY, name TEXT, data BLOB, size INTEGER)'\n\
    row 1 2 'index' 'items_name' 'items' 3 'CREATE INDEX items_name ON items(name)'\n\
    row 1 3 'table' 'codes' 'codes' 4 'CREATE TABLE codes(code TEXT PRIMARY KEY, item INTEGER) WITHOUT ROWID'\n\
    row 1 4 'view' 'names' 'names' 0 'CREATE VIEW names AS SELECT name FROM items'\n\
    page 3: tag refused\n\
    salvaged: 4 rows, 0 lost, 1 refused pages\n";

const WITHOUT_PAGE_1: &str = "page 1: tag refused\nsalvaged: 0 rows, 0 lost, 1 refused pages\n";

// Where a bit is turned, the key, what is printed, and the status. The tag of page 1 begins at byte 4,032, that of page 3 at 12,224.
const ROWS: [(Option<usize>, &[u8], &str, u8); 4] = [
    (None, KEY, WHOLE, 0),
    (Some(12_224), KEY, WITHOUT_PAGE_3, 0),
    (Some(4_032), KEY, WITHOUT_PAGE_1, 0),
    (None, OTHER_KEY, "key refused\n", 3),
];

#[test]
fn prints_the_rows_of_the_pages_that_are_whole(rt: HostRuntime) -> Result<(), Fail> {
    let alloc = rt.alloc();
    for (turned, key, text, code) in ROWS {
        let mut file = made(alloc, "4", "0")?;
        if let Some(at) = turned {
            turn(&mut file, at);
        }
        let mut disk = disk_with(alloc, file.as_slice())?;
        let step: Step<'_> = (&["salvage", "4"], &[key], Some(text), code);
        serve_all(alloc, &mut disk, 0, &[step])?;
    }
    Ok(())
}
