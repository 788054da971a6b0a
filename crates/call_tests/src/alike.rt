// The files of a system in memory, as a disk, beside the disk in memory.
ghost use Rattle.std.specs.Prelude.{◌≡◌, IsTrue, None, OnOk};
ghost use Rattle.edge_model.specs.Files.{file_at, no_files};

use call_memory::MemCalls;
use edge_memory::MemDisk;
use edge_model::{Disk, Failed, Role};
use std::alloc::Global;
use std::test::Fail;
use system_calls::OpenFiles;

/// How many calls were done, and what those that read answered.
#[derive(Clone, Copy, Debug, PartialEq, Eq)]
struct Answers {
    done: u64,
    length: Option<u64>,
    count: usize,
    /// The four bytes, the first one highest.
    word: u32,
}

const NO_ANSWERS: Answers = Answers {
    done: 0,
    length: None,
    count: 0,
    word: 0,
};

impl Answers {
    fn add(&mut self) {
        self.done = self.done.saturating_add(1);
    }
}

/// Main is made.
fn make_main<D: Disk>(disk: &mut D, answers: &mut Answers) -> Result<(), Failed>
    requires { IsTrue D.tells → D.reads disk.old ≡ no_files }
    ensures journal { OnOk result (IsTrue D.tells → file_at (D.reads disk.new) Role.Journal ≡ None) }
    ensures fresh { OnOk result (IsTrue D.tells → file_at (D.reads disk.new) Role.Fresh ≡ None) }
{
    disk.create(Role::Main)?;
    answers.add();
    disk.write_at(Role::Main, 0, &[1, 2, 3, 4])?;
    answers.add();
    disk.sync(Role::Main)?;
    answers.add();
    Ok(())
}

/// A journal is made.
fn make_journal<D: Disk>(disk: &mut D, answers: &mut Answers) -> Result<(), Failed>
    requires journal { IsTrue D.tells → file_at (D.reads disk.old) Role.Journal ≡ None }
    requires fresh { IsTrue D.tells → file_at (D.reads disk.old) Role.Fresh ≡ None }
    ensures fresh { OnOk result (IsTrue D.tells → file_at (D.reads disk.new) Role.Fresh ≡ None) }
{
    disk.create(Role::Journal)?;
    answers.add();
    disk.write_at(Role::Journal, 0, &[5, 6, 7])?;
    answers.add();
    disk.sync(Role::Journal)?;
    answers.add();
    disk.sync_folder()?;
    answers.add();
    Ok(())
}

/// Main is changed.
fn change_main<D: Disk>(disk: &mut D, answers: &mut Answers) -> Result<(), Failed>
    requires fresh { IsTrue D.tells → file_at (D.reads disk.old) Role.Fresh ≡ None }
    ensures fresh { OnOk result (IsTrue D.tells → file_at (D.reads disk.new) Role.Fresh ≡ None) }
{
    disk.write_at(Role::Main, 2, &[8, 9])?;
    answers.add();
    disk.cut(Role::Main, 3)?;
    answers.add();
    disk.sync(Role::Main)?;
    answers.add();
    disk.remove(Role::Journal)?;
    answers.add();
    Ok(())
}

/// Fresh takes the place of Main.
fn put_fresh<D: Disk>(disk: &mut D, answers: &mut Answers) -> Result<(), Failed>
    requires fresh { IsTrue D.tells → file_at (D.reads disk.old) Role.Fresh ≡ None }
{
    disk.create(Role::Fresh)?;
    answers.add();
    disk.write_at(Role::Fresh, 1, &[3, 4])?;
    answers.add();
    disk.sync(Role::Fresh)?;
    answers.add();
    disk.rename_fresh()?;
    answers.add();
    Ok(())
}

/// What Main is then.
fn read_main<D: Disk>(disk: &mut D, answers: &mut Answers) -> Result<(), Failed> {
    answers.length = disk.length(Role::Main)?;
    answers.add();
    let mut buf = [0u8; 4];
    answers.count = disk.read_at(Role::Main, 1, &mut buf)?;
    answers.word = u32::from_be_bytes(buf);
    answers.add();
    disk.sync_folder()?;
    answers.add();
    Ok(())
}

/// A run of calls, as far as none fails.
fn run<D: Disk>(disk: &mut D) -> Answers
    requires { IsTrue D.tells → D.reads disk.old ≡ no_files }
{
    let mut answers = NO_ANSWERS;
    let _done = run_all(disk, &mut answers);
    answers
}

fn run_all<D: Disk>(disk: &mut D, answers: &mut Answers) -> Result<(), Failed>
    requires { IsTrue D.tells → D.reads disk.old ≡ no_files }
{
    make_main(disk, answers)?;
    make_journal(disk, answers)?;
    change_main(disk, answers)?;
    put_fresh(disk, answers)?;
    read_main(disk, answers)
}

/// What the run answers over the system's files where that call of it fails, and the bytes of Main, Journal and Fresh then equal those of the disk in
/// memory, of which so many calls are done.
fn answers_alike(alloc: Global, failing: u64) -> Result<Option<Answers>, Fail> {
    let mut calls = MemCalls::new(alloc);
    calls.fail_calls(&[failing])?;
    let mut files = OpenFiles::new(calls);
    let answers = run(&mut files);
    let mut disk = MemDisk::new(alloc);
    disk.stop_after(answers.done);
    let mut same = run(&mut disk) == answers && files.calls.starved() == 0 && disk.starved() == 0;
    for role in [Role::Main, Role::Journal, Role::Fresh] {
        same = same && files.calls.bytes(role) == disk.bytes(role);
    }
    Ok(if same { Some(answers) } else { None })
}

// By hand: with no call failing Main is 0, 3, 4 at the end. The run is 18 calls of the disk. Of the system it is 16 that are counted: a look
// or a read is not.
#[test]
fn the_files_answer_as_the_disk_in_memory(rt: HostRuntime) -> Result<(), Fail> {
    for failing in 1..19 {
        let answers = answers_alike(rt.alloc(), failing)?;
        let Some(answers) = answers else {
            return Err(Fail::new("not alike"));
        };
        let whole = failing > 16;
        assert_eq!(rt; answers.done == 18, whole, "call {failing}");
        if whole {
            assert_eq!(rt;
                (answers.length, answers.count, answers.word),
                (Some(3), 2, 0x0304_0000)
            );
        }
    }
    Ok(())
}
