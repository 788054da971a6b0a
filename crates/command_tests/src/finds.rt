// The rows of `find` on a made file of a thousand rows.
use command_runs::served::{KEY, Step, disk_with, made, serve_all};
use std::test::Fail;

const NONE: Option<&str> = Some("found: 0 rows\n");

const ONE: Option<&str> = Some("row 10 null 'item-0000000010' x'' 0\nfound: 1 rows\n");

const MISSING: Option<&str> = Some("no such table\n");

const USAGE: Option<&str> = Some("usage\n");

const STEPS: [Step<'static>; 12] = [
    (&["find", "4", "items", "10", "10"], &[KEY], ONE, 0),
    (&["find", "4", "items", "010", "10"], &[KEY], ONE, 0),
    (&["find", "4", "items", "1001", "2000"], &[KEY], NONE, 0),
    (&["find", "4", "items", "5", "4"], &[KEY], NONE, 0),
    (&["find", "4", "items", "-5", "0"], &[KEY], NONE, 0),
    (&["find", "4", "codes", "1", "1"], &[KEY], MISSING, 2),
    (&["find", "4", "names", "1", "1"], &[KEY], MISSING, 2),
    (&["find", "4", "Items", "1", "1"], &[KEY], MISSING, 2),
    (
        &["find", "4", "items", "1", "9223372036854775808"],
        &[],
        USAGE,
        1,
    ),
    (&["find", "4", "items", "+1", "1"], &[], USAGE, 1),
    (
        &["find", "4", "items", "1", "00000000000000000001"],
        &[],
        USAGE,
        1,
    ),
    (&["find", "4", "items", "1"], &[], USAGE, 1),
];

#[test]
fn finds_the_rows_of_a_range_of_rowids(rt: HostRuntime) -> Result<(), Fail> {
    let alloc = rt.alloc();
    let main = made(alloc, "4", "1000")?;
    let mut disk = disk_with(alloc, main.as_slice())?;
    serve_all(alloc, &mut disk, 0, &STEPS)?;
    Ok(())
}
