// A file that is changed, with its journal beside it, as a disk that tells nothing.
ghost use Rattle.std.specs.Prelude.{◌≡◌, ◌≤◌, IfOk, Ok, length, refl, false};
ghost use Rattle.edge_model.specs.Causes.{HasCause};
ghost use Rattle.edge_model.specs.Files.{no_files};
ghost use Rattle.edge_model.specs.Silent.{nothing_numbered};

use edge_model::{Disk, Failed, Role};
use std::fs::{self, File, OpenOptions};
use std::io;
use std::os::unix::fs::FileExt;

/// The file and its journal, in the folder where the program runs, and how often a call failed.
#[derive(Drop)]
pub struct ChangedFile<'a> {
    rt: &'a HostRuntime,
    main: File,
    journal: Option<File>,
    journal_path: &'a str,
    faults: u64,
}

impl<'a> ChangedFile<'a> {
    /// The file, and the path that its journal is to have.
    pub fn new(rt: &'a HostRuntime, main: File, journal_path: &'a str) -> ChangedFile<'a> {
        ChangedFile {
            rt,
            main,
            journal: None,
            journal_path,
            faults: 0,
        }
    }

    fn make_journal(&mut self) -> io::Result<()>
        ensures uncounted { self.new.faults ≡ self.old.faults }
    {
        let file = OpenOptions::new()
            .read(true)
            .write(true)
            .create_new(true)
            .open(self.rt, self.journal_path)?;
        self.journal = Some(file);
        Ok(())
    }

    fn remove_journal(&mut self) -> io::Result<()>
        ensures uncounted { self.new.faults ≡ self.old.faults }
    {
        self.journal = None;
        fs::remove_file(self.rt, self.journal_path)
    }
}

// The file of the role, where it is open.
fn opened<'f>(main: &'f File, journal: &'f Option<File>, role: Role) -> io::Result<&'f File> {
    if role == Role::Main {
        return Ok(main);
    }
    match journal {
        Some(file) => Ok(file),
        None => Err(io::ErrorKind::NotFound.into()),
    }
}

fn read_file(file: io::Result<&File>, at: u64, buf: &mut [u8]) -> io::Result<usize>
    ensures count { IfOk result (λ count. count ≤ length buf.old) }
    ensures length { length buf.new ≡ length buf.old }
{
    file?.read_at(buf, at)
}

fn write_file(file: io::Result<&File>, at: u64, bytes: &[u8]) -> io::Result<()> {
    file?.write_all_at(bytes, at)
}

fn sync_file(file: io::Result<&File>) -> io::Result<()> {
    file?.sync_all()
}

fn sync_here(rt: &HostRuntime) -> io::Result<()> {
    File::open(rt, ".")?.sync_all()
}

// A call that was not done is counted.
fn settle<T: Drop>(faults: &mut u64, outcome: io::Result<T>) -> Result<T, Failed>
    ensures cause { HasCause faults.old faults.new result }
    ensures value { IfOk result (λ value. outcome ≡ Ok value) }
{
    match outcome {
        Ok(value) => Ok(value),
        Err(_) => {
            *faults = faults.saturating_add(1);
            Err(Failed)
        }
    }
}

impl<'a> Disk for ChangedFile<'a> {
    ghost tells = { false };

    ghost reads = { λ _. no_files };

    ghost images = { λ _ c. c ≡ no_files };

    ghost moment = { λ _. 0 };

    ghost since = { λ _ _ c. c ≡ no_files };

    ghost next = { λ _. 0 };

    ghost faults = { λ disk. disk.faults };

    ghost reads_now = { λ _. refl };

    ghost counts_now = { λ _ _ _ _ now. now };

    ghost only_now = { λ _ _ left. left };

    ghost numbered = { λ _ c is. nothing_numbered c is };

    fn length(&mut self, role: Role) -> Result<Option<u64>, Failed> {
        if role != Role::Main {
            return Ok(None);
        }
        match self.main.metadata() {
            Ok(found) => Ok(Some(found.len())),
            Err(error) => settle(&mut self.faults, Err(error)),
        }
    }

    fn read_at(&mut self, role: Role, at: u64, buf: &mut [u8]) -> Result<usize, Failed> {
        let outcome = read_file(opened(&self.main, &self.journal, role), at, buf);
        settle(&mut self.faults, outcome)
    }

    fn write_at(&mut self, role: Role, at: u64, bytes: &[u8]) -> Result<(), Failed> {
        let outcome = write_file(opened(&self.main, &self.journal, role), at, bytes);
        settle(&mut self.faults, outcome)
    }

    fn cut(&mut self, _role: Role, _len: u64) -> Result<(), Failed> {
        settle(&mut self.faults, Err(io::ErrorKind::Unsupported.into()))
    }

    fn sync(&mut self, role: Role) -> Result<(), Failed> {
        let outcome = sync_file(opened(&self.main, &self.journal, role));
        settle(&mut self.faults, outcome)
    }

    fn create(&mut self, _role: Role) -> Result<(), Failed> {
        let outcome = self.make_journal();
        settle(&mut self.faults, outcome)
    }

    fn remove(&mut self, _role: Role) -> Result<(), Failed> {
        let outcome = self.remove_journal();
        settle(&mut self.faults, outcome)
    }

    fn rename_fresh(&mut self) -> Result<(), Failed> {
        settle(&mut self.faults, Err(io::ErrorKind::Unsupported.into()))
    }

    fn sync_folder(&mut self) -> Result<(), Failed> {
        let outcome = sync_here(self.rt);
        settle(&mut self.faults, outcome)
    }
}
