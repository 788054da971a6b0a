// An export that is disturbed prints nothing before all is checked.
use crate::rows::{TABLE, TABLE_TEXT};
use command_runs::pages::sealed;
use command_runs::served::{Given, KEY, disk_with, serve};
use sqlcipher_tool::Status;
use std::test::Fail;

#[test]
fn prints_nothing_where_a_call_fails_before_all_is_checked(rt: HostRuntime) -> Result<(), Fail> {
    let alloc = rt.alloc();
    let main = sealed(alloc, "4", KEY, 4, &TABLE)?;
    let given = Given {
        words: &["export", "4"],
        lines: &[KEY],
        drawn: 0,
    };
    let mut done = 0u32;
    for call in 1u64..40 {
        let mut disk = disk_with(alloc, main.as_slice())?;
        disk.fail_calls(&[call])?;
        let served = serve(alloc, &given, &mut disk)?;
        if served.status == Status::Done {
            done = done.saturating_add(1);
            assert_eq!(rt; served.text.as_slice(), TABLE_TEXT.as_bytes());
        } else {
            assert_eq!(rt; served.status, Status::DiskFault, "call {call}");
            assert!(rt; served.text.is_empty(), "call {call}");
        }
    }
    assert!(rt; 20 < done && done < 36);
    Ok(())
}
