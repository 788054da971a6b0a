// What POSIX says of names and open files.
ghost use Rattle.std.specs.Prelude.{◌≡◌};

use call_memory::MemCalls;
use edge_model::Role;
use std::io::ErrorKind;
use std::test::Fail;
use system_calls::{Calls, Fault, read_full};

/// A call, as data. The changes of bytes are of what is open in a place, those of names are of a name.
#[derive(Clone, Copy)]
enum Step {
    Open(Role),
    Close(Role),
    MoveFresh,
    Write(Role, u64, &'static [u8]),
    Cut(Role, u64),
    Sync(Role),
    Create(Role),
    Remove(Role),
    Rename,
    SyncFolder,
}

use Role::{Fresh, Journal, Main};
use Step::{Close, Create, Cut, MoveFresh, Open, Remove, Rename, Sync, SyncFolder, Write};

/// A file's bytes, where there is one.
type Bytes = Option<&'static [u8]>;

/// A step, why it fails where it does, and then what Main, Journal and Fresh lead to, and what is open in their places.
#[derive(Clone, Copy)]
struct Row {
    step: Step,
    fails: Option<ErrorKind>,
    names: [Bytes; 3],
    places: [Bytes; 3],
}

/// The file is cut where it is longer: to lengthen one is no call of the system here.
fn cut_to(calls: &mut MemCalls, place: Role, len: u64) -> Result<(), Fault> {
    let found = calls.look_open(place)?;
    if found.length() < len {
        return Ok(());
    }
    calls.set_len(place, len)
}

fn make(calls: &mut MemCalls, step: Step) -> Result<(), Fault> {
    match step {
        Open(name) => match calls.open(name, false) {
            Ok(_) => Ok(()),
            Err(fault) => Err(fault),
        },
        Close(place) => {
            calls.close(place);
            Ok(())
        }
        MoveFresh => {
            calls.move_fresh();
            Ok(())
        }
        Write(place, at, bytes) => calls.write_all(place, at, bytes),
        Cut(place, len) => cut_to(calls, place, len),
        Sync(place) => calls.sync(place),
        Create(name) => calls.create_new(name, None),
        Remove(name) => calls.remove(name),
        Rename => calls.rename_fresh(true),
        SyncFolder => calls.sync_folder(),
    }
}

/// Whether the step is done, or fails as it should.
fn answers(calls: &mut MemCalls, row: &Row) -> bool {
    match (make(calls, row.step), row.fails) {
        (Ok(()), None) => true,
        (Err(fault), Some(kind)) => fault.error.kind() == kind,
        _ => false,
    }
}

/// Whether this is open in the place. It is read in pieces.
fn is_open(calls: &MemCalls, place: Role, want: Bytes) -> bool {
    let Some(want) = want else {
        return !calls.is_open(place);
    };
    let mut buf = [0u8; 16];
    match read_full(calls, place, 0, &mut buf) {
        Ok(count) => count <= 16 && &buf[..count] == want,
        Err(_) => false,
    }
}

fn is_so(calls: &MemCalls, row: &Row) -> bool {
    let roles = [Main, Journal, Fresh];
    for (role, (name, place)) in roles.iter().zip(row.names.iter().zip(row.places.iter())) {
        if calls.bytes(*role) != *name || !is_open(calls, *role, *place) {
            return false;
        }
    }
    true
}

/// The number of the first row that is not so.
fn first_wrong(calls: &mut MemCalls, rows: &[Row]) -> Option<usize> {
    for (i, row) in rows.iter().enumerate() {
        if !answers(calls, row) || !is_so(calls, row) {
            return Some(i);
        }
    }
    None
}

fn done(step: Step, names: [Bytes; 3], places: [Bytes; 3]) -> Row {
    Row {
        step,
        fails: None,
        names,
        places,
    }
}

fn fails(step: Step, kind: ErrorKind, names: [Bytes; 3], places: [Bytes; 3]) -> Row {
    Row {
        step,
        fails: Some(kind),
        names,
        places,
    }
}

// POSIX, rename(): a file that the new name led to and that is open stays so, and the link alone is removed.
#[test]
fn a_file_that_was_renamed_over_stays_open(rt: HostRuntime) -> Result<(), Fail> {
    let old: Bytes = Some(&[1, 2, 3]);
    let new: Bytes = Some(&[4, 5]);
    let rows = [
        done(Open(Main), [old, None, None], [old, None, None]),
        done(
            Create(Fresh),
            [old, None, Some(&[])],
            [old, None, Some(&[])],
        ),
        done(Write(Fresh, 0, &[4, 5]), [old, None, new], [old, None, new]),
        done(Rename, [new, None, None], [old, None, new]),
        done(
            Write(Main, 0, &[9]),
            [new, None, None],
            [Some(&[9, 2, 3]), None, new],
        ),
        done(MoveFresh, [new, None, None], [new, None, None]),
        done(
            Write(Main, 1, &[6]),
            [Some(&[4, 6]), None, None],
            [Some(&[4, 6]), None, None],
        ),
        fails(
            Rename,
            ErrorKind::NotFound,
            [Some(&[4, 6]), None, None],
            [Some(&[4, 6]), None, None],
        ),
    ];
    let mut calls = MemCalls::with_files(rt.alloc(), old, None, None)?;
    assert_eq!(rt; first_wrong(&mut calls, &rows), None);
    Ok(())
}

// POSIX, unlink(): the file stays while it is open. open() with O_EXCL and O_CREAT makes another one then.
#[test]
fn a_file_without_a_name_stays_open(rt: HostRuntime) -> Result<(), Fail> {
    let old: Bytes = Some(&[7, 8]);
    let more: Bytes = Some(&[7, 8, 0, 9]);
    let none: [Bytes; 3] = [None, None, None];
    let rows = [
        done(Open(Journal), [None, old, None], [None, old, None]),
        done(Remove(Journal), none, [None, old, None]),
        done(Write(Journal, 3, &[9]), none, [None, more, None]),
        fails(
            Remove(Journal),
            ErrorKind::NotFound,
            none,
            [None, more, None],
        ),
        fails(Open(Main), ErrorKind::NotFound, none, [None, more, None]),
        done(Sync(Journal), none, [None, more, None]),
        done(Cut(Journal, 1), none, [None, Some(&[7]), None]),
        done(
            Create(Journal),
            [None, Some(&[]), None],
            [None, Some(&[]), None],
        ),
        done(Close(Journal), [None, Some(&[]), None], none),
    ];
    let mut calls = MemCalls::with_files(rt.alloc(), None, old, None)?;
    assert_eq!(rt; first_wrong(&mut calls, &rows), None);
    Ok(())
}

// POSIX, open(): with O_EXCL and O_CREAT it fails where the name is there. pwrite() of no bytes changes nothing, and one past the end leaves zeros
// between; ftruncate() keeps the bytes below the length.
#[test]
fn a_name_that_is_taken_is_not_made(rt: HostRuntime) -> Result<(), Fail> {
    let old: Bytes = Some(&[1, 2]);
    let long: Bytes = Some(&[1, 2, 0, 0, 5, 6, 7, 8, 9, 10]);
    let names = [old, None, None];
    let rows = [
        fails(
            Create(Main),
            ErrorKind::AlreadyExists,
            names,
            [None, None, None],
        ),
        done(Open(Main), names, [old, None, None]),
        done(Write(Main, 9, &[]), names, [old, None, None]),
        done(
            Write(Main, 4, &[5, 6, 7, 8, 9, 10]),
            [long, None, None],
            [long, None, None],
        ),
        done(Cut(Main, 2), names, [old, None, None]),
        done(SyncFolder, names, [old, None, None]),
    ];
    let mut calls = MemCalls::with_files(rt.alloc(), old, None, None)?;
    assert_eq!(rt; first_wrong(&mut calls, &rows), None);
    Ok(())
}

// POSIX, stat(): st_nlink is the number of names, and st_ino that of the file under each of them.
#[test]
fn a_look_tells_of_the_file(rt: HostRuntime) -> Result<(), Fail> {
    let mut calls = MemCalls::with_files(rt.alloc(), Some(&[1]), None, Some(&[2, 3]))?;
    let opened = make(&mut calls, Open(Main)).is_ok() && make(&mut calls, Open(Fresh)).is_ok();
    let renamed = make(&mut calls, Rename).is_ok();
    let (Ok(Some(named)), Ok(old), Ok(new)) = (
        calls.look(Main),
        calls.look_open(Main),
        calls.look_open(Fresh),
    ) else {
        return Err(Fail::new("not told"));
    };
    assert!(rt; opened && renamed && calls.starved() == 0);
    assert!(rt; named.identity == new.identity && named.identity != old.identity);
    assert_eq!(rt; (old.names, new.names, named.length()), (0, 1, 2));
    Ok(())
}
