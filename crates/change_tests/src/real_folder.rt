// The adapters over a real folder.
ghost use Rattle.std.specs.Prelude.{◌≡◌, false};

use Role::{Fresh, Journal, Main};
use Step::{Create, Cut, Remove, Rename, Sync, SyncFolder, Write};
use edge_files::{Conflict, DeviceEntropy, HostDisk, Paths, Progress, Purpose};
use edge_memory::{MemDisk, MemSink, MemSource, SilentDisk};
use edge_model::{Disk, Failed, Role};
use sqlcipher_tool::{Status, run};
use std::alloc::{AllocError, Global};
use std::fs::{self, OpenOptions, Permissions};
use std::os::unix::fs::{PermissionsExt, symlink};
use std::process::Abort;
use std::test::Fail;
use std::{env, process};

const TAG: &str =
    "f31d12e34275adc3a3ab8ec543401efd9c518bb1cfe3150417ed41d902c84322ea9ebb0dc7b9865b3b6fb7e9a96c1bdec3f5316ae6f498298e34ae7f19488865";

const KEY: &[u8] = b"x'000102030405060708090a0b0c0d0e0f101112131415161718191a1b1c1d1e1f'\n";

// A page of SQLCipher 4, whose tag was computed with Python's hmac.
fn page(alloc: Global) -> Result<Vec<u8>, Fail> {
    let mut page = vec![in alloc; 1u8; 4032]?;
    page.extend_from_slice(hex::decode(alloc, TAG)?.as_slice())?;
    Ok(page)
}

// `tags 4` on the file at the path.
fn answer(rt: &HostRuntime, alloc: Global, path: &str) -> Result<(Status, Vec<u8>), Fail> {
    let paths = Paths::new(rt, path)?;
    let progress = Progress::new(rt);
    let mut disk = HostDisk::new(rt, &paths, &progress, Purpose::Command)?;
    let mut input = MemSource::new(alloc, KEY, &[])?;
    let mut out = MemSink::new(alloc, &[])?;
    let mut entropy = DeviceEntropy::new(rt);
    let status = run(
        alloc,
        &["tags", "4"],
        &mut input,
        &mut out,
        &mut entropy,
        &mut disk,
    );
    Ok((status, out.bytes().to_vec(alloc)?))
}

/// What a step writes, or its first bytes.
const BYTES: &[u8] = b"after a gap";

/// A call of a disk that changes it, as data. A write is of so many bytes, at an offset.
#[derive(Clone, Copy, Debug)]
enum Step {
    Write(Role, u64, usize),
    Cut(Role, u64),
    Sync(Role),
    Create(Role),
    Remove(Role),
    Rename,
    SyncFolder,
}

fn take<D: Disk>(disk: &mut D, step: Step) -> Result<(), Failed>
    requires { D.tells ≡ false }
{
    match step {
        Write(role, at, count) => disk.write_at(role, at, &BYTES[..count.min(BYTES.len())]),
        Cut(role, len) => disk.cut(role, len),
        Sync(role) => disk.sync(role),
        Create(role) => disk.create(role),
        Remove(role) => disk.remove(role),
        Rename => disk.rename_fresh(),
        SyncFolder => disk.sync_folder(),
    }
}

/// A role's length, and what a read of eight bytes gives.
type Seen = (Result<Option<u64>, Failed>, Result<usize, Failed>, [u8; 8]);

fn seen<D: Disk>(disk: &mut D, role: Role, at: u64) -> Seen {
    let mut bytes = [0u8; 8];
    let length = disk.length(role);
    let count = disk.read_at(role, at, &mut bytes);
    (length, count, bytes)
}

// The header of a journal with one page of 1,024 bytes.
const HOT: &[u8] =
    b"\xd9\xd5\x05\xf9\x20\xa1\x63\xd7\x00\x00\x00\x01\x00\x00\x00\x00\x00\x00\x00\x01\x00\x00\x02\x00\x00\x00\x04\x00";

/// Writes in, at and past the end, cuts, changes of names, and calls on roles without a file.
const STEPS: [Step; 24] = [
    Write(Main, 2, 6),
    Write(Main, 17, 11),
    Write(Main, 90, 0),
    Cut(Main, 90),
    Cut(Main, 21),
    Sync(Main),
    Write(Journal, 0, 4),
    Cut(Journal, 0),
    Sync(Journal),
    Remove(Journal),
    Rename,
    Create(Journal),
    Write(Journal, 5, 4),
    Sync(Journal),
    SyncFolder,
    Create(Fresh),
    Write(Fresh, 0, 11),
    Sync(Fresh),
    Remove(Journal),
    Rename,
    Write(Main, 3, 3),
    Cut(Main, 0),
    Remove(Main),
    Sync(Main),
];

// The disk in memory is proved to meet the trait, so what it answers is what the trait says.
fn answers_as_in_memory(
    test: &impl Abort,
    rt: &HostRuntime,
    alloc: Global,
    path: &str,
) -> Result<(), Fail> {
    fs::write(rt, path, b"twelve bytes")?;
    let paths = Paths::new(rt, path)?;
    let progress = Progress::new(rt);
    let mut real = HostDisk::new(rt, &paths, &progress, Purpose::Command)?;
    let inner = MemDisk::with_files(alloc, Some(b"twelve bytes"), None, None);
    let mut told = SilentDisk {
        inner: inner.map_err(|_| AllocError)?,
    };
    for step in STEPS {
        let outcome = take(&mut real, step);
        assert_eq!(test; outcome, take(&mut told, step), "{step:?}");
        if outcome.is_err() {
            // After a change that failed nothing more is called.
            assert_eq!(test; real.length(Main), Err(Failed));
            real = HostDisk::new(rt, &paths, &progress, Purpose::Command)?;
        }
        for role in [Main, Journal, Fresh] {
            for at in [0, 6, 30] {
                let read = seen(&mut real, role, at);
                assert_eq!(test;
                    read,
                    seen(&mut told, role, at),
                    "{role:?} at {at} after {step:?}"
                );
            }
        }
    }
    Ok(())
}

fn mode_of(rt: &HostRuntime, path: &str) -> Result<u32, Fail> {
    Ok(fs::symlink_metadata(rt, path)?.permissions().mode() & 0o777)
}

// Through a link: the journal and the new file stand beside the file with its mode.
fn makes_files_as_main(
    test: &impl Abort,
    rt: &HostRuntime,
    path: &str,
    link: &str,
) -> Result<(), Fail> {
    let paths = Paths::new(rt, link)?;
    let progress = Progress::new(rt);
    let mut disk = HostDisk::new(rt, &paths, &progress, Purpose::Command)?;
    assert_eq!(test; disk.create(Journal), Ok(()));
    assert_eq!(test; disk.create(Journal), Err(Failed));
    disk = HostDisk::new(rt, &paths, &progress, Purpose::Command)?;
    assert_eq!(test; mode_of(rt, paths.journal.as_str())?, 0o640);
    assert_eq!(test; disk.create(Fresh), Ok(()));
    // A journal beside Main would be played into the new file.
    assert_eq!(test; disk.rename_fresh(), Err(Failed));
    assert!(test; disk.last.and_then(|last| last.conflict()) == Some(Conflict::Appeared));
    assert_eq!(test; disk.remove(Journal), Ok(()));
    assert_eq!(test; disk.rename_fresh(), Ok(()));
    assert_eq!(test; mode_of(rt, path)?, 0o640);
    Ok(())
}

// The rename has replaced the file and not the link, which leads nowhere once the file is gone.
fn keeps_the_link(test: &impl Abort, rt: &HostRuntime, path: &str, link: &str) -> Result<(), Fail> {
    assert!(test; fs::symlink_metadata(rt, link)?.is_symlink());
    assert_eq!(test; fs::metadata(rt, path)?.len(), 0);
    fs::remove_file(rt, path)?;
    let paths = Paths::new(rt, link)?;
    let progress = Progress::new(rt);
    let mut disk = HostDisk::new(rt, &paths, &progress, Purpose::Command)?;
    assert_eq!(test; disk.length(Main), Err(Failed));
    assert_eq!(test; disk.create(Main), Err(Failed));
    Ok(())
}

fn follows_links(
    test: &impl Abort,
    rt: &HostRuntime,
    alloc: Global,
    path: &str,
) -> Result<(), Fail> {
    let link = format!(in alloc; "{path}-link")?;
    fs::write(rt, path, b"old")?;
    fs::set_permissions(rt, path, Permissions::from_mode(0o640))?;
    symlink(rt, "file.db", link.as_str())?;
    makes_files_as_main(test, rt, path, link.as_str())?;
    keeps_the_link(test, rt, path, link.as_str())?;
    fs::remove_file(rt, link.as_str())?;
    Ok(())
}

// A file that was cut since its length was answered, and one that may not be written.
fn refuses(test: &impl Abort, rt: &HostRuntime, path: &str) -> Result<(), Fail> {
    fs::write(rt, path, b"twelve bytes")?;
    let paths = Paths::new(rt, path)?;
    let progress = Progress::new(rt);
    let mut disk = HostDisk::new(rt, &paths, &progress, Purpose::Command)?;
    let mut buf = [0u8; 10];
    assert_eq!(test; disk.length(Main), Ok(Some(12)));
    fs::write(rt, path, b"twelve")?;
    assert_eq!(test; disk.read_at(Main, 4, &mut buf), Err(Failed));
    // Another wrote to it since it was looked at.
    assert_eq!(test; disk.write_at(Main, 0, b"x"), Err(Failed));
    Ok(())
}

// A file that may only be read.
fn reads_alone(test: &impl Abort, rt: &HostRuntime, path: &str) -> Result<(), Fail> {
    let mut permissions = fs::metadata(rt, path)?.permissions();
    permissions.set_readonly(true);
    fs::set_permissions(rt, path, permissions)?;
    let paths = Paths::new(rt, path)?;
    let progress = Progress::new(rt);
    let mut disk = HostDisk::new(rt, &paths, &progress, Purpose::Command)?;
    // A privileged process may write it all the same.
    let denied = OpenOptions::new().write(true).open(rt, path).is_err();
    assert_eq!(test; disk.write_at(Main, 0, b"x").is_err(), denied);
    disk = HostDisk::new(rt, &paths, &progress, Purpose::Command)?;
    assert_eq!(test; disk.create(Journal).is_err(), denied);
    disk = HostDisk::new(rt, &paths, &progress, Purpose::Command)?;
    let journal = if denied { None } else { Some(0) };
    assert_eq!(test; disk.length(Journal), Ok(journal));
    assert_eq!(test; disk.remove(Journal).is_err(), denied);
    fs::remove_file(rt, path)?;
    Ok(())
}

// A second run, a log with a byte, a file that took the name, and what is no unfinished file under the new file's name.
fn keeps_others_out(test: &impl Abort, rt: &HostRuntime, path: &str) -> Result<(), Fail> {
    fs::write(rt, path, b"twelve bytes")?;
    let paths = Paths::new(rt, path)?;
    let progress = Progress::new(rt);
    let mut disk = HostDisk::new(rt, &paths, &progress, Purpose::Command)?;
    assert_eq!(test; disk.length(Main), Ok(Some(12)));
    assert_eq!(test;
        conflict_at(rt, &paths, &progress, Purpose::Command),
        Some(Conflict::OtherRun)
    );
    fs::write(rt, paths.fresh.as_str(), b"precious")?;
    assert_eq!(test; disk.remove(Fresh), Err(Failed));
    assert!(test; disk.last.and_then(|last| last.conflict()) == Some(Conflict::InTheWay));
    // What a stop leaves of a file with pages of 512 bytes, whose first one is written last.
    let mut unfinished = [0u8; 2000];
    unfinished[512] = 13;
    fs::write(rt, paths.fresh.as_str(), unfinished.as_slice())?;
    assert_eq!(test; disk.remove(Fresh), Ok(()));
    fs::write(rt, paths.fresh.as_str(), b"other bytes")?;
    fs::rename(rt, paths.fresh.as_str(), path)?;
    assert_eq!(test; disk.write_at(Main, 0, b"x"), Err(Failed));
    assert!(test; disk.last.and_then(|last| last.conflict()) == Some(Conflict::Replaced));
    fs::write(rt, paths.log.as_str(), b"l")?;
    assert_eq!(test;
        conflict_at(rt, &paths, &progress, Purpose::Command),
        Some(Conflict::Log)
    );
    assert_eq!(test; conflict_at(rt, &paths, &progress, Purpose::Probe), None);
    // With the log it is read, but not beside a journal that would be played back first.
    assert_eq!(test; conflict_at(rt, &paths, &progress, Purpose::ReadLog), None);
    fs::write(rt, paths.journal.as_str(), b"\xd9\xd5\x05\xf9")?;
    assert_eq!(test; conflict_at(rt, &paths, &progress, Purpose::ReadLog), None);
    fs::write(rt, paths.journal.as_str(), HOT)?;
    assert_eq!(test;
        conflict_at(rt, &paths, &progress, Purpose::ReadLog),
        Some(Conflict::HotJournal)
    );
    fs::remove_file(rt, paths.journal.as_str())?;
    fs::remove_file(rt, paths.log.as_str())?;
    fs::remove_file(rt, path)?;
    Ok(())
}

// The log that was read is laid and removed, and its index with it; one that was written to since is not, nor one that nobody has read.
fn lays_logs(test: &impl Abort, rt: &HostRuntime, path: &str) -> Result<(), Fail> {
    fs::write(rt, path, b"twelve bytes")?;
    let paths = Paths::new(rt, path)?;
    let progress = Progress::new(rt);
    fs::write(rt, paths.log.as_str(), [7u8; 40].as_slice())?;
    fs::write(rt, paths.index.as_str(), b"index")?;
    let mut disk = HostDisk::new(rt, &paths, &progress, Purpose::RecoverBesideLog)?;
    assert_eq!(test; disk.length(Main), Ok(Some(12)));
    assert_eq!(test; disk.length(Journal), Ok(None));
    disk.turn_to(Purpose::LayLog);
    assert_eq!(test; disk.length(Journal), Err(Failed));
    disk.turn_to(Purpose::ReadLog);
    assert_eq!(test; disk.length(Journal), Ok(Some(40)));
    assert_eq!(test; disk.write_at(Main, 0, b"T"), Err(Failed));
    assert_eq!(test; disk.remove(Journal), Err(Failed));
    disk.turn_to(Purpose::LayLog);
    assert_eq!(test; disk.write_at(Main, 0, b"T"), Ok(()));
    fs::write(rt, paths.log.as_str(), [8u8; 40].as_slice())?;
    assert_eq!(test; disk.write_at(Main, 0, b"U"), Err(Failed));
    assert!(test; disk.last.and_then(|last| last.conflict()) == Some(Conflict::Changed));
    disk = HostDisk::new(rt, &paths, &progress, Purpose::RecoverBesideLog)?;
    disk.turn_to(Purpose::ReadLog);
    assert_eq!(test; disk.length(Journal), Ok(Some(40)));
    disk.turn_to(Purpose::LayLog);
    assert_eq!(test; disk.remove(Journal), Ok(()));
    assert_eq!(test; disk.sync_folder(), Ok(()));
    assert!(test; !fs::exists(rt, paths.log.as_str())? && !fs::exists(rt, paths.index.as_str())?);
    disk.turn_to(Purpose::Command);
    assert_eq!(test; disk.length(Main), Ok(Some(12)));
    assert_eq!(test; disk.length(Journal), Ok(None));
    fs::remove_file(rt, path)?;
    Ok(())
}

fn conflict_at(
    rt: &HostRuntime,
    paths: &Paths,
    progress: &Progress,
    purpose: Purpose,
) -> Option<Conflict> {
    let mut disk = HostDisk::new(rt, paths, progress, purpose).ok()?;
    let _ = disk.length(Main);
    disk.last?.conflict()
}

#[test]
fn serves_the_files_of_a_folder(rt: HostRuntime) -> Result<(), Fail> {
    let alloc = rt.alloc();
    let temporary = env::temp_dir(&rt)?;
    let folder = format!(in alloc;
        "{}/sqlcipher-tool-{}",
        temporary.as_str(),
        process::id(rt.process())
    )?;
    let path = format!(in alloc; "{folder}/file.db")?;
    fs::create_dir(&rt, folder.as_str())?;
    let (status, text) = answer(&rt, alloc, path.as_str())?;
    assert_eq!(rt; text.as_slice(), b"file is empty\n".as_slice());
    assert_eq!(rt; status.code(), 2);
    let (status, _) = answer(&rt, alloc, folder.as_str())?;
    assert_eq!(rt; status, Status::DiskFault);
    fs::write(&rt, path.as_str(), page(alloc)?.as_slice())?;
    let (status, text) = answer(&rt, alloc, path.as_str())?;
    assert_eq!(rt; text.as_slice(), b"tags hold: 1 pages\n".as_slice());
    assert_eq!(rt; status, Status::Done);
    answers_as_in_memory(&rt, &rt, alloc, path.as_str())?;
    follows_links(&rt, &rt, alloc, path.as_str())?;
    refuses(&rt, &rt, path.as_str())?;
    reads_alone(&rt, &rt, path.as_str())?;
    keeps_others_out(&rt, &rt, path.as_str())?;
    lays_logs(&rt, &rt, path.as_str())?;
    fs::remove_dir(&rt, folder.as_str())?;
    Ok(())
}
