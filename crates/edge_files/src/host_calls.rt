// The calls of the system that runs this program, by the standard library. What stands here is trusted: no clause says what it does to
// the files.
ghost use Rattle.std.specs.Prelude.{◌≡◌, ◌≤◌, [], false, length, refl, IfOk};
ghost use Rattle.edge_model.specs.Files.{no_files};
ghost use Rattle.edge_model.specs.Silent.{nothing_numbered};
ghost use Rattle.system_calls.specs.Found.{no_found};
ghost use Rattle.system_calls.specs.System.{no_system};

use edge_model::Role;
use std::fs::{self, File, Metadata, OpenOptions, Permissions, TryLockError};
use std::io::{self, Error, ErrorKind};
use std::os::fd::AsRawFd;
use std::os::unix::fs::{FileExt, MetadataExt, OpenOptionsExt, PermissionsExt, fchown};
use std::path::PathBuf;
use system_calls::{Calls, Fault, Found, Identity, Mark};

/// The three files with these paths, and their folder.
#[derive(Drop)]
pub struct HostCalls<'a> {
    rt: &'a HostRuntime,
    folder: &'a str,
    main: HostFile<'a>,
    journal: HostFile<'a>,
    fresh: HostFile<'a>,
    /// Whether the files are only read, so that there is nothing to sync.
    is_only_read: bool,
}

// A path, and the file that is open in its place.
#[derive(Drop)]
struct HostFile<'a> {
    path: &'a str,
    file: Option<File>,
    /// Whether its file system can't be written to. It may refuse a sync, of which there is nothing to do.
    is_unchangeable: bool,
}

impl<'a> HostFile<'a> {
    fn new(path: &'a str) -> HostFile<'a> {
        HostFile {
            path,
            file: None,
            is_unchangeable: false,
        }
    }

    fn put(&mut self, file: Option<File>, is_unchangeable: bool) {
        self.file = file;
        self.is_unchangeable = is_unchangeable;
    }
}

impl<'a> HostCalls<'a> {
    /// Nothing is open.
    pub fn new(
        rt: &'a HostRuntime,
        folder: &'a str,
        main: &'a str,
        journal: &'a str,
        fresh: &'a str,
        is_only_read: bool,
    ) -> HostCalls<'a> {
        HostCalls {
            rt,
            folder,
            main: HostFile::new(main),
            journal: HostFile::new(journal),
            fresh: HostFile::new(fresh),
            is_only_read,
        }
    }

    /// From now on Journal is the file with this path. Where it is another one, nothing is open of it.
    pub fn turn_to(&mut self, journal: &'a str, is_only_read: bool) {
        if self.journal.path != journal {
            self.journal = HostFile::new(journal);
        }
        self.is_only_read = is_only_read;
    }

    /// The path that the open file has now, where it can be known.
    pub fn whereabouts(&self, place: Role) -> Option<PathBuf> {
        let file = self.at(place).file.as_ref()?;
        let number = file.as_raw_fd();
        let link = format!(in self.rt.alloc(); "/proc/self/fd/{number}").ok()?;
        fs::read_link(self.rt, link.as_str()).ok()
    }

    fn at(&self, role: Role) -> &HostFile<'a> {
        match role {
            Role::Main => &self.main,
            Role::Journal => &self.journal,
            Role::Fresh => &self.fresh,
        }
    }

    fn put(&mut self, role: Role, file: Option<File>, is_unchangeable: bool) {
        match role {
            Role::Main => self.main.put(file, is_unchangeable),
            Role::Journal => self.journal.put(file, is_unchangeable),
            Role::Fresh => self.fresh.put(file, is_unchangeable),
        }
    }

    fn file(&self, role: Role, call: &'static str) -> Result<&File, Fault> {
        match &self.at(role).file {
            Some(file) => Ok(file),
            None => Err(Fault::new(call, ErrorKind::NotFound.into())),
        }
    }
}

// Says of which call an error is.
fn told<T: Drop>(call: &'static str, outcome: io::Result<T>) -> Result<T, Fault> {
    match outcome {
        Ok(value) => Ok(value),
        Err(error) => Err(Fault::new(call, error)),
    }
}

/// What the system tells of a file.
pub fn found_in(found: &Metadata) -> Found {
    Found {
        is_regular: found.is_file(),
        identity: Identity {
            device: found.dev(),
            inode: found.ino(),
        },
        mark: Mark {
            seconds: found.mtime(),
            nanoseconds: found.mtime_nsec(),
            length: found.len(),
        },
        mode: found.mode(),
        owner: found.uid(),
        group: found.gid(),
        names: found.nlink(),
    }
}

// Whether the file system gives a file no second name, or not this one.
fn has_no_links(error: Error) -> bool {
    matches!(
        error.kind(),
        ErrorKind::PermissionDenied | ErrorKind::Unsupported | ErrorKind::TooManyLinks
    )
}

impl<'a> Calls for HostCalls<'a> {
    ghost tells = { false };

    ghost system = { λ _. no_system };

    ghost images = { λ _ c. c ≡ no_files };

    ghost moment = { λ _. 0 };

    ghost since = { λ _ _ c. c ≡ no_files };

    ghost is_spoilt = { λ _. false };

    ghost next = { λ _. 0 };

    ghost found = { λ _ _. no_found };

    ghost reads_now = { λ _. refl };

    ghost counts_now = { λ _ _ _ _ now. now };

    ghost only_now = { λ _ _ left. left };

    ghost numbered = { λ _ c is. nothing_numbered c is };

    ghost unborn = { λ _. refl };

    fn is_open(&self, place: Role) -> bool {
        self.at(place).file.is_some()
    }

    fn look(&self, name: Role) -> Result<Option<Found>, Fault> {
        match fs::symlink_metadata(self.rt, self.at(name).path) {
            Ok(found) => Ok(Some(found_in(&found))),
            Err(error) if error.kind() == ErrorKind::NotFound => Ok(None),
            Err(error) => Err(Fault::new("look up", error)),
        }
    }

    fn look_open(&self, place: Role) -> Result<Found, Fault> {
        let found = told("look up", self.file(place, "look up")?.metadata())?;
        Ok(found_in(&found))
    }

    fn read_some(&self, place: Role, at: u64, buf: &mut [u8]) -> Result<usize, Fault> {
        let file = self.file(place, "read")?;
        for _ in 0..u64::MAX {
            match file.read_at(buf, at) {
                Ok(count) => return Ok(count),
                Err(error) if error.kind() == ErrorKind::Interrupted => {}
                Err(error) => return Err(Fault::new("read", error)),
            }
        }
        Err(Fault::new("read", ErrorKind::Interrupted.into()))
    }

    fn lock(&self, place: Role) -> Result<bool, Fault> {
        match self.file(place, "lock")?.try_lock() {
            Ok(()) => Ok(true),
            Err(TryLockError::WouldBlock) => Ok(false),
            Err(TryLockError::Error(error)) => Err(Fault::new("lock", error)),
        }
    }

    fn give(&self, place: Role, like: &Found) -> Result<(), Fault> {
        let file = self.file(place, "set the mode")?;
        let _ = fchown(file, Some(like.owner), Some(like.group));
        let mode = Permissions::from_mode(like.permissions());
        told("set the mode", file.set_permissions(mode))
    }

    fn open(&mut self, name: Role, is_only_read: bool) -> Result<Option<Error>, Fault> {
        let path = self.at(name).path;
        let mut why: Error = ErrorKind::PermissionDenied.into();
        if !is_only_read {
            match OpenOptions::new()
                .read(true)
                .write(true)
                .open(self.rt, path)
            {
                Ok(file) => {
                    self.put(name, Some(file), false);
                    return Ok(None);
                }
                Err(error) => why = error,
            }
        }
        let file = told("open", File::open(self.rt, path))?;
        self.put(
            name,
            Some(file),
            why.kind() == ErrorKind::ReadOnlyFilesystem,
        );
        Ok(Some(why))
    }

    fn close(&mut self, place: Role) {
        self.put(place, None, false);
    }

    fn move_fresh(&mut self) {
        let file = self.fresh.file.take();
        self.put(Role::Main, file, false);
    }

    fn write_all(&mut self, place: Role, at: u64, bytes: &[u8]) -> Result<(), Fault> {
        told("write", self.file(place, "write")?.write_all_at(bytes, at))
    }

    fn set_len(&mut self, place: Role, len: u64) -> Result<(), Fault> {
        told("cut", self.file(place, "cut")?.set_len(len))
    }

    fn sync(&mut self, place: Role) -> Result<(), Fault> {
        if self.is_only_read {
            return Ok(());
        }
        let outcome = self.file(place, "sync")?.sync_all();
        if self.at(place).is_unchangeable {
            return Ok(());
        }
        told("sync", outcome)
    }

    fn create_new(&mut self, name: Role, mode: Option<u32>) -> Result<(), Fault> {
        let mut options = OpenOptions::new();
        options.read(true).write(true).create_new(true);
        if let Some(bits) = mode {
            options.mode(bits);
        }
        let file = told("create", options.open(self.rt, self.at(name).path))?;
        self.put(name, Some(file), false);
        Ok(())
    }

    fn remove(&mut self, name: Role) -> Result<(), Fault> {
        told("remove", fs::remove_file(self.rt, self.at(name).path))
    }

    fn rename_fresh(&mut self, is_to_replace: bool) -> Result<(), Fault> {
        if !is_to_replace {
            match fs::hard_link(self.rt, self.fresh.path, self.main.path) {
                Ok(()) => return told("remove", fs::remove_file(self.rt, self.fresh.path)),
                Err(error) if has_no_links(error) => {}
                Err(error) => return Err(Fault::new("link", error)),
            }
        }
        told(
            "rename",
            fs::rename(self.rt, self.fresh.path, self.main.path),
        )
    }

    fn sync_folder(&mut self) -> Result<(), Fault> {
        if self.is_only_read {
            return Ok(());
        }
        let folder = told("open", File::open(self.rt, self.folder))?;
        let outcome = folder.sync_all();
        if self.main.is_unchangeable {
            return Ok(());
        }
        told("sync", outcome)
    }
}
