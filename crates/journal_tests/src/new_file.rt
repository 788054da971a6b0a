// A new file beside Main, stopped after every number of calls.
use crate::files::{PICKS, disk_with, image_of, plan_faults};
use edge_memory::{ImagePick, MemDisk, MemEntropy, SilentDisk};
use edge_model::{Failed, Role};
use fresh_disk::{Pair, Side, publish_new};
use std::alloc::Global;
use std::test::Fail;

/// Writes two bytes, two that are drawn behind them, and publishes. It answers what was drawn.
fn renew(disk: &mut SilentDisk, entropy: &mut MemEntropy) -> Result<[u8; 2], Failed> {
    let mut drawn = [0; 2];
    {
        let mut pair = Pair { disk, entropy };
        pair.side_create()?;
        pair.draw(&mut drawn)?;
        pair.side_write(0, &[1, 2])?;
        pair.side_write(2, &drawn)?;
        pair.side_sync()?;
    }
    publish_new(disk)?;
    Ok(drawn)
}

/// What `renew` draws, with the disk that it leaves. Main has one byte, and an earlier stop left a longer Fresh; the disk stops after so
/// many calls, and these draws fail.
fn renewed(
    alloc: Global,
    calls: u64,
    failing: &[u64],
) -> Result<(Result<[u8; 2], Failed>, MemDisk), Fail> {
    let mut disk = SilentDisk {
        inner: disk_with(alloc, Some(&[9]), None, Some(&[7; 9]))?,
    };
    plan_faults(&mut disk.inner, &[], Some(calls))?;
    let mut entropy = MemEntropy::new(alloc, &[3, 4], failing)?;
    let done = renew(&mut disk, &mut entropy);
    Ok((done, disk.inner))
}

// The calls are: length, remove, sync_folder, create, two writes, sync, rename and sync_folder. So the rename is the eighth, and
// nothing of it may be lost after the ninth.
#[test]
fn each_stop_leaves_the_old_file_or_the_new_one(rt: HostRuntime) -> Result<(), Fail> {
    let old: Option<&[u8]> = Some(&[9]);
    let new: Option<&[u8]> = Some(&[1, 2, 3, 4]);
    for calls in 0..10 {
        let (done, disk) = renewed(rt.alloc(), calls, &[])?;
        assert!(rt; done.is_ok() == (calls == 9), "{calls} calls");
        for pick in PICKS {
            let image = image_of(&disk, pick)?;
            let renamed = calls == 9 || calls == 8 && !matches!(pick, ImagePick::Lost);
            let main = if renamed { new } else { old };
            assert!(rt;
                image.bytes(Role::Main) == main,
                "{pick:?} after {calls} calls"
            );
        }
        assert!(rt; disk.starved() == 0);
    }
    Ok(())
}

#[test]
fn a_failed_draw_is_a_fault_of_the_entropy_alone(rt: HostRuntime) -> Result<(), Fail> {
    let (done, disk) = renewed(rt.alloc(), 9, &[1])?;
    assert!(rt; done == Err(Failed));
    assert!(rt; disk.bytes(Role::Fresh) == Some(&[]));
    assert!(rt; disk.bytes(Role::Main) == Some(&[9]));
    Ok(())
}
