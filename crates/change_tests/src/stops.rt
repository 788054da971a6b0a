// What a stop, a failure of one call and an end of the entropy leave of each command that writes: the old file or the new one, byte by
// byte. By which key these open, and to what, is asked once.
use crate::plays::REKEYED;
use command_runs::pages::sealed;
use command_runs::served::{
    Given, KEY, OTHER_KEY, disk_with, file_in, made, recovered, serve, told,
};
use edge_memory::{ImagePick, MemDisk};
use edge_model::Role;
use sqlcipher_tool::Status;
use std::alloc::{AllocError, Global};
use std::process::Abort;
use std::test::Fail;

const STAMP: Given<'static> = Given {
    words: &["stamp", "4", "user-version", "7"],
    lines: &[KEY],
    drawn: 80,
};

const REKEY: Given<'static> = Given {
    words: &["rekey", "3", "3"],
    lines: &[KEY, OTHER_KEY],
    drawn: 4_800,
};

const MIGRATE: Given<'static> = Given {
    words: &["migrate", "3", "4"],
    lines: &[KEY, OTHER_KEY],
    drawn: 4_000,
};

const ENCRYPT: Given<'static> = Given {
    words: &["migrate", "plain:1024", "4"],
    lines: &[KEY],
    drawn: 4_000,
};

const DECRYPT: Given<'static> = Given {
    words: &["migrate", "4", "plain:1024"],
    lines: &[KEY],
    drawn: 0,
};

// A script of one commit, which seals the four pages of a file of version 4 under another key.
const PLAY: Given<'static> = Given {
    words: &["play", "4"],
    lines: &REKEYED,
    drawn: 320,
};

// More calls of the disk than a run here makes.
const MOST_CALLS: u64 = 4_400;

// A page of version 3 has so many bytes, and a page that is sealed draws so many.
const SIZE: usize = 1_024;

const RESERVE: usize = 48;

// More than this many pages don't stand in memory.
const FRAMES: usize = 64;

// What this command is tried on: a disk, and the files of which one is left, as files of the profile.
#[derive(Drop)]
struct Trial {
    given: Given<'static>,
    start: MemDisk,
    profile: &'static str,
    old: Vec<u8>,
    new: Vec<u8>,
}

// The trial of a command from this disk on, whose file is the old one once it is recovered.
fn trial_from(
    alloc: Global,
    given: Given<'static>,
    start: MemDisk,
    profile: &'static str,
    old: Vec<u8>,
) -> Result<Trial, AllocError> {
    let mut whole = start.image(ImagePick::Kept).map_err(|_| AllocError)?;
    serve(alloc, &given, &mut whole)?;
    let new = file_in(alloc, &whole, Role::Main)?;
    Ok(Trial {
        given,
        start,
        profile,
        old,
        new,
    })
}

// The trial of a command on this file.
fn trial_on(
    alloc: Global,
    given: Given<'static>,
    profile: &'static str,
    old: Vec<u8>,
) -> Result<Trial, AllocError> {
    let start = disk_with(alloc, old.as_slice())?;
    trial_from(alloc, given, start, profile, old)
}

// A run that is stopped after so many calls, or whose next call alone fails: how it ends, and how many images are recovered to the old
// file and how many to the new one.
fn disturbed(
    alloc: Global,
    trial: &Trial,
    calls: u64,
    alone: bool,
) -> Result<(Status, usize, usize), AllocError> {
    let mut disk = trial.start.image(ImagePick::Kept).map_err(|_| AllocError)?;
    if alone {
        disk.fail_calls(&[calls.saturating_add(1)])
            .map_err(|_| AllocError)?;
    } else {
        disk.stop_after(calls);
    }
    let status = serve(alloc, &trial.given, &mut disk)?.status;
    let (olds, news) = recovered(alloc, &disk, trial.profile, &trial.old, &trial.new)?;
    Ok((status, olds, news))
}

// Such a run leaves one of the two, and where it is done, the new one. Answers how it ends, and how many images have the new file.
fn leaves_one(
    rt: &impl Abort,
    alloc: Global,
    trial: &Trial,
    calls: u64,
    alone: bool,
) -> Result<(Status, usize), Fail> {
    let (status, olds, news) = disturbed(alloc, trial, calls, alone)?;
    assert_eq!(rt; olds.saturating_add(news), 3, "{calls}");
    if status == Status::Done {
        assert_eq!(rt; news, 3, "{calls}");
    } else {
        assert_eq!(rt; status, Status::DiskFault, "{calls}");
    }
    Ok((status, news))
}

// Each run that is stopped leaves one of the two, where each such call from this one on is tried. Answers the first number of calls that
// is no less than the run's, and how many images had the new file before.
fn each_stop_leaves_one(
    rt: &impl Abort,
    alloc: Global,
    trial: &Trial,
    from: u64,
    step: u64,
) -> Result<(u64, usize), Fail> {
    let mut renewed = 0usize;
    let mut calls = from;
    for _ in 0..MOST_CALLS {
        let (status, news) = leaves_one(rt, alloc, trial, calls, false)?;
        if status == Status::Done {
            return Ok((calls, renewed));
        }
        renewed = renewed.saturating_add(news);
        calls = calls.saturating_add(step);
    }
    panic!(rt; "the run is longer than so many calls");
}

// Each run of which one call alone fails leaves one of the two, where each such call of these is tried. Answers how many runs ended in a
// fault, and how many images of them had the new file. A read ahead that fails is no fault: its pages are read once more, one by one.
fn each_failure_leaves_one(
    rt: &impl Abort,
    alloc: Global,
    trial: &Trial,
    from: u64,
    end: u64,
    step: u64,
) -> Result<(u64, usize), Fail> {
    let mut faults = 0u64;
    let mut renewed = 0usize;
    let mut calls = from;
    for _ in 0..MOST_CALLS {
        if calls >= end {
            break;
        }
        let (status, news) = leaves_one(rt, alloc, trial, calls, true)?;
        if status == Status::DiskFault {
            faults = faults.saturating_add(1);
            renewed = renewed.saturating_add(news);
        }
        calls = calls.saturating_add(step);
    }
    Ok((faults, renewed))
}

// Each call of the run is tried, by a stop and by a failure of it alone.
fn each_call_leaves_one(rt: &impl Abort, alloc: Global, trial: &Trial) -> Result<(), Fail> {
    let (end, renewed) = each_stop_leaves_one(rt, alloc, trial, 0, 1)?;
    assert!(rt; end > 15 && renewed > 0, "{end}");
    let (faults, renewed) = each_failure_leaves_one(rt, alloc, trial, 0, end, 1)?;
    assert!(rt; faults > 15 && renewed > 0, "{faults}");
    Ok(())
}

#[test]
fn a_stamp_leaves_the_old_file_or_the_stamped_one(rt: HostRuntime) -> Result<(), Fail> {
    let alloc = rt.alloc();
    let old = sealed(alloc, "4", KEY, 4, &[])?;
    let stamp = trial_on(alloc, STAMP, "4", old)?;
    each_call_leaves_one(&rt, alloc, &stamp)
}

// The rekey of a file of more pages than stand in memory, so that its pages are sealed in two batches. Of its calls each eleventh is
// tried, and each of the last ones, with which the second batch is committed.
fn long_rekey(rt: &impl Abort, alloc: Global) -> Result<Trial, Fail> {
    let rekey = trial_on(alloc, REKEY, "3", made(alloc, "3", "30")?)?;
    assert!(rt; rekey.old.len() / SIZE > FRAMES);
    Ok(rekey)
}

// So many calls are the last ones.
const LAST_CALLS: u64 = 30;

#[test]
fn a_stop_of_a_rekey_leaves_the_old_file_or_the_new_one(rt: HostRuntime) -> Result<(), Fail> {
    let alloc = rt.alloc();
    let rekey = long_rekey(&rt, alloc)?;
    let (end, _) = each_stop_leaves_one(&rt, alloc, &rekey, 0, 11)?;
    assert!(rt; end > 300, "{end}");
    let from = end.saturating_sub(LAST_CALLS);
    let (last, renewed) = each_stop_leaves_one(&rt, alloc, &rekey, from, 1)?;
    assert!(rt; last <= end && renewed > 0, "{last}");
    Ok(())
}

#[test]
fn a_call_of_a_rekey_that_fails_alone_leaves_one_of_the_two(rt: HostRuntime) -> Result<(), Fail> {
    let alloc = rt.alloc();
    let rekey = long_rekey(&rt, alloc)?;
    let (end, _) = each_stop_leaves_one(&rt, alloc, &rekey, 300, 1)?;
    let (faults, _) = each_failure_leaves_one(&rt, alloc, &rekey, 0, end, 11)?;
    assert!(rt; faults > 15, "{faults}");
    let from = end.saturating_sub(LAST_CALLS);
    let (_, renewed) = each_failure_leaves_one(&rt, alloc, &rekey, from, end, 1)?;
    assert!(rt; renewed > 0, "{renewed}");
    Ok(())
}

// What the first stop behind a write to the file leaves of a rekey: a file whose pages are no longer all of the old key, some of them
// torn, beside a hot journal.
fn half_rekeyed(alloc: Global, old: &[u8]) -> Result<MemDisk, AllocError> {
    for calls in 0..MOST_CALLS {
        let mut disk = disk_with(alloc, old)?;
        disk.stop_after(calls);
        serve(alloc, &REKEY, &mut disk)?;
        let image = disk.image(ImagePick::Torn).map_err(|_| AllocError)?;
        if image.bytes(Role::Main) != Some(old) && image.bytes(Role::Journal).is_some() {
            return Ok(image);
        }
    }
    Ok(MemDisk::new(alloc))
}

#[test]
fn a_stop_of_a_migration_leaves_the_old_file_or_the_new_one(rt: HostRuntime) -> Result<(), Fail> {
    let alloc = rt.alloc();
    let old = made(alloc, "3", "7")?;
    for half in [false, true] {
        let start = if half {
            half_rekeyed(alloc, old.as_slice())?
        } else {
            disk_with(alloc, old.as_slice())?
        };
        let migrate = trial_from(alloc, MIGRATE, start, "3", old.to_vec(alloc)?)?;
        let (end, renewed) = each_stop_leaves_one(&rt, alloc, &migrate, 0, 1)?;
        assert!(rt; end > 30 && renewed > 0, "{end}");
    }
    Ok(())
}

// A file of this profile is migrated from or to a plain one.
fn a_plain_migration_leaves_one(
    rt: &impl Abort,
    alloc: Global,
    given: Given<'static>,
    profile: &'static str,
) -> Result<(), Fail> {
    let migrate = trial_on(alloc, given, profile, made(alloc, profile, "7")?)?;
    let (end, renewed) = each_stop_leaves_one(rt, alloc, &migrate, 0, 1)?;
    assert!(rt; end > 30 && renewed > 0, "{end}");
    Ok(())
}

#[test]
fn a_stop_of_an_encryption_leaves_the_plain_file_or_the_new_one(
    rt: HostRuntime,
) -> Result<(), Fail> {
    a_plain_migration_leaves_one(&rt, rt.alloc(), ENCRYPT, "plain:1024")
}

#[test]
fn a_stop_of_a_decryption_leaves_the_old_file_or_the_plain_one(
    rt: HostRuntime,
) -> Result<(), Fail> {
    a_plain_migration_leaves_one(&rt, rt.alloc(), DECRYPT, "4")
}

// The old file opens by the old key alone, and the new one by the new key.
#[test]
fn a_stop_of_a_script_leaves_the_old_file_or_the_committed_one(
    rt: HostRuntime,
) -> Result<(), Fail> {
    let alloc = rt.alloc();
    let play = trial_on(alloc, PLAY, "4", made(alloc, "4", "0")?)?;
    for (file, key) in [(&play.old, KEY), (&play.new, OTHER_KEY)] {
        let said = told(alloc, &["verify", "4"], key, file.as_slice())?;
        assert!(rt; said.starts_with(b"ok: 4 trees, 4 entries, "));
    }
    each_call_leaves_one(&rt, alloc, &play)
}

// A script recovers the file first, also where its first line is no step.
#[test]
fn a_script_begins_with_the_recovery(rt: HostRuntime) -> Result<(), Fail> {
    let alloc = rt.alloc();
    let old = made(alloc, "3", "7")?;
    let start = half_rekeyed(alloc, old.as_slice())?;
    let half = file_in(alloc, &start, Role::Main)?;
    assert!(rt; half.as_slice() != old.as_slice());
    let rows: [(&[&[u8]], &str, u8); 2] = [
        (
            &[b"open 0 3 ", KEY, b"share 0\nread 0 1 0\n"],
            "done\ndone\nbyte 83\n",
            0,
        ),
        (&[b"walk 0\n"], "line 1: no step\n", 2),
    ];
    for (lines, text, code) in rows {
        let mut disk = start.image(ImagePick::Kept)?;
        let given = Given {
            words: &["play", "3"],
            lines,
            drawn: 0,
        };
        let served = serve(alloc, &given, &mut disk)?;
        assert_eq!(rt; served.text.as_slice(), text.as_bytes());
        assert_eq!(rt; served.status.code(), code);
        assert!(rt; disk.bytes(Role::Main) == Some(old.as_slice()));
        assert!(rt; disk.bytes(Role::Journal).is_none());
    }
    let mut disk = start.image(ImagePick::Kept)?;
    let given = Given {
        words: &["play", "4"],
        lines: &[b"walk 0\n"],
        drawn: 0,
    };
    let served = serve(alloc, &given, &mut disk)?;
    assert_eq!(rt;
        served.text.as_slice(),
        b"journal page size 1024\n".as_slice()
    );
    assert_eq!(rt; served.status.code(), 2);
    assert!(rt; disk.bytes(Role::Main) == Some(half.as_slice()));
    assert!(rt; disk.bytes(Role::Journal).is_some());
    Ok(())
}

// Such a migration recovers the file first. Without its journal it has none of the rows.
#[test]
fn a_half_rekeyed_file_is_migrated_with_its_old_rows(rt: HostRuntime) -> Result<(), Fail> {
    let alloc = rt.alloc();
    let old = made(alloc, "3", "7")?;
    let mut disk = half_rekeyed(alloc, old.as_slice())?;
    let half = file_in(alloc, &disk, Role::Main)?;
    assert_eq!(rt; half.len(), old.len());
    assert_eq!(rt; serve(alloc, &MIGRATE, &mut disk)?.status, Status::Done);
    assert!(rt; disk.bytes(Role::Journal).is_none());
    let new = file_in(alloc, &disk, Role::Main)?;
    let before = told(alloc, &["export", "3"], KEY, old.as_slice())?;
    let after = told(alloc, &["export", "4"], OTHER_KEY, new.as_slice())?;
    assert!(rt; before.len() > 300);
    assert_eq!(rt; before.as_slice(), after.as_slice());
    for key in [KEY, OTHER_KEY] {
        let without = told(alloc, &["export", "3"], key, half.as_slice())?;
        assert!(rt; without.as_slice() != before.as_slice());
    }
    Ok(())
}

// A run for which only so many bytes are there to be drawn leaves this file.
fn starves(
    rt: &impl Abort,
    alloc: Global,
    given: &Given<'_>,
    profile: &str,
    old: &[u8],
    drawn: usize,
) -> Result<(), Fail> {
    let mut disk = disk_with(alloc, old)?;
    let less = Given {
        words: given.words,
        lines: given.lines,
        drawn,
    };
    let status = serve(alloc, &less, &mut disk)?.status;
    assert_eq!(rt; status, Status::EntropyFault, "{drawn}");
    let (olds, _) = recovered(alloc, &disk, profile, old, &[])?;
    assert_eq!(rt; olds, 3, "{drawn}");
    Ok(())
}

#[test]
fn an_entropy_that_ends_at_any_page_leaves_the_old_file(rt: HostRuntime) -> Result<(), Fail> {
    let alloc = rt.alloc();
    let stamped = sealed(alloc, "4", KEY, 4, &[])?;
    starves(&rt, alloc, &STAMP, "4", stamped.as_slice(), 79)?;
    let shared = made(alloc, "4", "0")?;
    for drawn in [0, 79, 80, 319] {
        starves(&rt, alloc, &PLAY, "4", shared.as_slice(), drawn)?;
    }
    let old = made(alloc, "3", "30")?;
    for before in 0..old.len() / SIZE {
        let drawn = before.saturating_mul(RESERVE).saturating_add(47);
        starves(&rt, alloc, &REKEY, "3", old.as_slice(), drawn)?;
    }
    Ok(())
}
