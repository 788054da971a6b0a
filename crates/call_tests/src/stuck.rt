// What comes behind a sync that failed.
ghost use Rattle.std.specs.Prelude.{◌≡◌};

use call_memory::MemCalls;
use edge_model::{Disk, Role};
use std::test::Fail;
use system_calls::{Calls, OpenFiles};

// The call that is made to fail behind the second sync is the first of all since: so that sync made none.
#[test]
fn no_call_is_made_behind_a_failed_sync(rt: HostRuntime) -> Result<(), Fail> {
    let calls = MemCalls::with_files(rt.alloc(), Some(&[1, 2, 3]), None, None)?;
    let mut files = OpenFiles::new(calls);
    let wrote = files.write_at(Role::Main, 0, &[9]);
    files.calls.fail_calls(&[1])?;
    let failed = files.sync(Role::Main);
    assert!(rt; wrote.is_ok() && failed.is_err() && files.is_stuck && files.faults == 1);
    let before = files.calls.changes();
    files.calls.fail_calls(&[1])?;
    let again = files.sync(Role::Main);
    let next = files.calls.open(Role::Main, false);
    assert!(rt; again.is_err() && files.faults == 2 && next.is_err());
    assert_eq!(rt; files.calls.changes(), before);
    Ok(())
}

// The calls themselves go on: a later sync succeeds, and saves nothing. Where none has failed it is noted.
#[test]
fn a_sync_behind_a_failed_one_saves_nothing(rt: HostRuntime) -> Result<(), Fail> {
    let mut calls = MemCalls::with_files(rt.alloc(), Some(&[1, 2, 3]), None, None)?;
    let opened = calls.open(Role::Main, false);
    let saved = calls.sync(Role::Main);
    assert!(rt; opened.is_ok() && saved.is_ok() && calls.changes() == 1 && !calls.is_spoilt());
    calls.fail_calls(&[1])?;
    let failed = calls.sync(Role::Main);
    let again = calls.sync(Role::Main);
    let folder = calls.sync_folder();
    assert!(rt; failed.is_err() && again.is_ok() && folder.is_ok());
    assert!(rt; calls.changes() == 1 && calls.is_spoilt());
    Ok(())
}
