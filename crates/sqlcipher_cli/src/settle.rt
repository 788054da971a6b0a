// `settle`, a run after another over one folder, in which another file has the role Journal each time: the journal is played back, the file is
// checked with its log, the log is laid and removed, and the marks of WAL mode go. The file stays open and locked from the first to the last.
ghost use Rattle.std.specs.Prelude.{◌≡◌, Some, IfErr};
ghost use Rattle.cipher_profile.specs.Profile.{IsListed};
ghost use Rattle.sqlcipher_cli.specs.Exit.{EndsCommand};
ghost use Rattle.sqlcipher_tool.specs.Answer.{IsStopStatus};
ghost use Rattle.sqlcipher_tool.specs.Settling.{settled_by};
ghost use Rattle.sqlcipher_tool.specs.Words.{form, texts};

use crate::log_signs::{LogSigns, differ, own_frames, salt_of};
use cipher_profile::Profile;
use edge_files::{DeviceEntropy, HostDisk, InputSource, OutputSink, Purpose};
use edge_model::Disk;
use log_view::LogView;
use sqlcipher_tool::{
    MOST_PAGES, Secrets, Status, check_to_settle, conclude_view, key_to_settle, lay_log,
    recover_to_settle, refuse_other_log, settle_marks,
};
use std::alloc::Global;

/// How it ended, and what was seen of the log.
#[derive(Clone, Copy)]
pub struct Settled {
    pub status: Status,
    pub signs: LogSigns,
}

impl Settled {
    // It ended so, whatever the log is.
    fn stopped(status: Status) -> Settled
        ensures { result.status ≡ status }
    {
        Settled {
            status,
            signs: LogSigns::none(),
        }
    }
}

// A log that was laid: how many frames it had, and what was seen of it.
#[derive(Clone, Copy)]
struct Laid {
    frames: u64,
    signs: LogSigns,
}

/// Settles the file of these words, whose profile this is. The folder is one for a recovery beside a log.
pub fn settle_with_log<'a>(
    alloc: Global,
    words: &[&str],
    input: &mut InputSource,
    out: &mut OutputSink,
    entropy: &mut DeviceEntropy,
    profile: Profile,
    disk: HostDisk<'a>,
) -> (HostDisk<'a>, Settled)
    requires listed { IsListed profile }
    requires asked { settled_by (form (texts words.now)) ≡ Some profile }
    ensures { EndsCommand (texts words.now) result.1.status }
{
    let secrets = match key_to_settle(profile, input, out) {
        Ok(secrets) => secrets,
        Err(status) => return (disk, Settled::stopped(status)),
    };
    let (mut disk, laid) = take_log_in(alloc, profile, &secrets, out, disk);
    match laid {
        Ok(laid) => {
            disk.turn_to(Purpose::Command);
            let status = settle_marks(
                alloc,
                profile,
                laid.frames,
                &secrets,
                out,
                entropy,
                &mut disk,
            );
            let settled = Settled {
                status,
                signs: laid.signs,
            };
            (disk, settled)
        }
        Err(settled) => (disk, settled),
    }
}

// The log of a file that was recovered and checked is laid.
fn take_log_in<'a>(
    alloc: Global,
    profile: Profile,
    secrets: &Secrets,
    out: &mut OutputSink,
    mut disk: HostDisk<'a>,
) -> (HostDisk<'a>, Result<Laid, Settled>)
    requires listed { IsListed profile }
    ensures { IfErr result.1 (λ settled. IsStopStatus settled.status) }
{
    if let Err(status) = recover_to_settle(alloc, profile, out, &mut disk) {
        return (disk, Err(Settled::stopped(status)));
    }
    let (mut disk, checked) = check_pair(alloc, profile, secrets, out, disk);
    let has_other_salt = match checked {
        Ok(has_other_salt) => has_other_salt,
        Err(settled) => return (disk, Err(settled)),
    };
    let has_log = disk.folder.has_seen_log();
    let Ok(own) = own_frames(&mut disk, profile.page_size) else {
        return (disk, Err(Settled::stopped(Status::DiskFault)));
    };
    disk.turn_to(Purpose::LayLog);
    match lay_log(alloc, profile, out, &mut disk) {
        Ok(frames) => {
            let signs = LogSigns {
                has_other_salt,
                was_dead: has_log && frames == 0,
                unlaid: own.whole.saturating_sub(frames),
                was_cut: own.has_part,
            };
            (disk, Ok(Laid { frames, signs }))
        }
        Err(status) => (disk, Err(Settled::stopped(status))),
    }
}

// The file is checked as one with its log, of which nothing is changed. Page 1 of the log may have a salt of its own: then it is asked whether
// that log is another file's. Answers whether it has.
fn check_pair<'a>(
    alloc: Global,
    profile: Profile,
    secrets: &Secrets,
    out: &mut OutputSink,
    mut disk: HostDisk<'a>,
) -> (HostDisk<'a>, Result<bool, Settled>)
    requires listed { IsListed profile }
    ensures { IfErr result.1 (λ settled. IsStopStatus settled.status) }
{
    let _usable = profile.usable();
    disk.turn_to(Purpose::ReadLog);
    match LogView::open(alloc, disk, profile.page_size, MOST_PAGES) {
        Ok(mut view) => {
            let checked = check_to_settle(alloc, profile, secrets, out, &mut view);
            let seen = seen_salt(&checked, &mut view);
            let mut disk = view.into_disk();
            let has_other_salt = !profile.is_clear() && differ(salt_of(&mut disk), seen);
            let taken = match checked {
                Ok(salt) => refuse_other_log(profile, secrets, &salt, out, &mut disk),
                Err(status) => Err(status),
            };
            match taken {
                Ok(()) => (disk, Ok(has_other_salt)),
                Err(status) => {
                    let signs = LogSigns {
                        has_other_salt,
                        ..LogSigns::none()
                    };
                    let settled = Settled { status, signs };
                    (disk, Err(settled))
                }
            }
        }
        Err((disk, why)) => (disk, Err(Settled::stopped(conclude_view(out, why)))),
    }
}

// The salt of the two as they open: the one that the check has answered, else the one that they begin with.
fn seen_salt<D: Disk>(checked: &Result<[u8; 16], Status>, view: &mut D) -> Option<[u8; 16]> {
    match checked {
        Ok(salt) => Some(*salt),
        Err(_) => salt_of(view),
    }
}
