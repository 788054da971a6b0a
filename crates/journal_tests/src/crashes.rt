// What no clause says: that the rules of a crash mean what they should, and that calls can succeed.
ghost use Rattle.std.specs.Prelude.{◌≡◌, [], IsTrue, None, OnOk, Some, length};
ghost use Rattle.edge_model.specs.Causes.{HasCause};
ghost use Rattle.edge_model.specs.Files.{bytes_of, file_at, written};
ghost use Rattle.edge_model.specs.Images.{Each, From, LeavesOnly};

use crate::files::{PICKS, disk_with, image_of, plan_faults};
use edge_memory::{
    MemDisk, MemEntropy, MemSink, MemSource, SilentDisk, SilentEntropy, SilentSink, SilentSource,
};
use edge_model::{Disk, Entropy, Failed, Role, Sink, Source, put_all};
use std::alloc::Global;
use std::test::Fail;

/// Makes a journal that a crash leaves whole.
fn keep_journal<D: Disk>(disk: &mut D, bytes: &[u8]) -> Result<(), Failed>
    requires { IsTrue D.tells → file_at (D.reads disk.old) Role.Journal ≡ None }
    ensures kept { OnOk result (IsTrue D.tells → Each (D.images disk.new) (λ c. bytes_of c.journal ≡ Some (written 0 bytes.now []))) }
    ensures any_moment { IsTrue D.tells → LeavesOnly D.moment D.since disk.old disk.new (From (λ d c. c.main ≡ d.main) (D.images disk.old)) }
    ensures cause { HasCause (D.faults disk.old) (D.faults disk.new) result }
{
    disk.create(Role::Journal)?;
    disk.write_at(Role::Journal, 0, bytes)?;
    disk.sync(Role::Journal)?;
    disk.sync_folder()
}

/// Whether the making of the journal is done or not, and the journal is this in the images Lost, Kept and Torn.
fn is_kept(
    alloc: Global,
    failing: u64,
    done: bool,
    journals: [Option<&[u8]>; 3],
) -> Result<bool, Fail> {
    let mut disk = MemDisk::new(alloc);
    disk.fail_calls(&[failing])?;
    let mut same = keep_journal(&mut disk, &[7]).is_ok() == done && disk.starved() == 0;
    for (pick, journal) in PICKS.iter().zip(journals) {
        let image = image_of(&disk, *pick)?;
        same = same && image.bytes(Role::Journal) == journal;
    }
    Ok(same)
}

// Where the call with this number fails, what the journal is in the images Lost, Kept and Torn.
#[test]
fn a_journal_is_kept_or_a_call_failed(rt: HostRuntime) -> Result<(), Fail> {
    let table: [(u64, bool, [Option<&[u8]>; 3]); 5] = [
        (1, false, [None, None, None]),
        (2, false, [None, Some(&[]), Some(&[])]),
        (3, false, [None, Some(&[7]), Some(&[248])]),
        (4, false, [None, Some(&[7]), Some(&[7])]),
        (5, true, [Some(&[7]), Some(&[7]), Some(&[7])]),
    ];
    for (call, done, journals) in table {
        assert!(rt; is_kept(rt.alloc(), call, done, journals)?, "call {call}");
    }
    Ok(())
}

/// A call of a disk, as data.
#[derive(Clone, Copy)]
enum Step {
    Write(Role, u64, &'static [u8]),
    Cut(Role, u64),
    Sync(Role),
    Create(Role),
    Remove(Role),
    Rename,
    SyncFolder,
}

// The disk is one that tells nothing, of whose names no call asks anything.
fn make(disk: &mut SilentDisk, step: Step) -> Result<(), Failed> {
    match step {
        Step::Write(role, at, bytes) => disk.write_at(role, at, bytes),
        Step::Cut(role, len) => disk.cut(role, len),
        Step::Sync(role) => disk.sync(role),
        Step::Create(role) => disk.create(role),
        Step::Remove(role) => disk.remove(role),
        Step::Rename => disk.rename_fresh(),
        Step::SyncFolder => disk.sync_folder(),
    }
}

/// A file's bytes, where there is one.
type Bytes = Option<&'static [u8]>;

/// Steps on a disk whose Main is 1, 2, 3, and Main and Fresh in the images Lost, Kept and Torn.
#[derive(Drop)]
struct Row {
    steps: &'static [Step],
    images: [(Bytes, Bytes); 3],
}

fn shows(image: &MemDisk, main: Bytes, fresh: Bytes) -> bool {
    image.bytes(Role::Main) == main && image.bytes(Role::Fresh) == fresh
}

/// Whether all steps are done.
fn are_done(disk: &mut SilentDisk, steps: &[Step]) -> bool {
    for step in steps {
        if make(disk, *step).is_err() {
            return false;
        }
    }
    true
}

/// Whether the steps are done, and a crash after them leaves the row's images.
fn leaves(alloc: Global, row: &Row) -> Result<bool, Fail> {
    let inner = disk_with(alloc, Some(&[1, 2, 3]), None, None)?;
    let mut disk = SilentDisk { inner };
    let mut same = are_done(&mut disk, row.steps) && disk.inner.starved() == 0;
    for (pick, (main, fresh)) in PICKS.iter().zip(row.images) {
        let image = image_of(&disk.inner, *pick)?;
        same = same && shows(&image, main, fresh);
    }
    Ok(same)
}

use Role::{Fresh, Main};
use Step::{Create, Cut, Remove, Rename, Sync, SyncFolder, Write};

// By hand from the rules: a write may be lost, done or torn until its file is synced, and a change of names may be
// lost or done until the folder is.
#[test]
fn a_crash_leaves_what_the_rules_allow(rt: HostRuntime) -> Result<(), Fail> {
    let table = [
        Row {
            steps: &[Write(Main, 1, &[9])],
            images: [
                (Some(&[1, 2, 3]), None),
                (Some(&[1, 9, 3]), None),
                (Some(&[1, 246, 3]), None),
            ],
        },
        // past the old end, with a gap of zeros
        Row {
            steps: &[Write(Main, 4, &[7])],
            images: [
                (Some(&[1, 2, 3]), None),
                (Some(&[1, 2, 3, 0, 7]), None),
                (Some(&[1, 2, 3, 255, 248]), None),
            ],
        },
        // what was synced stays, also beside a later write
        Row {
            steps: &[Write(Main, 0, &[5]), Sync(Main), Write(Main, 2, &[6])],
            images: [
                (Some(&[5, 2, 3]), None),
                (Some(&[5, 2, 6]), None),
                (Some(&[5, 2, 249]), None),
            ],
        },
        Row {
            steps: &[Cut(Main, 1)],
            images: [
                (Some(&[1, 2, 3]), None),
                (Some(&[1]), None),
                (Some(&[1]), None),
            ],
        },
        // a new name may be gone, though its bytes are synced
        Row {
            steps: &[Create(Fresh), Write(Fresh, 0, &[4]), Sync(Fresh)],
            images: [
                (Some(&[1, 2, 3]), None),
                (Some(&[1, 2, 3]), Some(&[4])),
                (Some(&[1, 2, 3]), Some(&[4])),
            ],
        },
        // and bytes may be gone, though their name is synced
        Row {
            steps: &[Create(Fresh), SyncFolder, Write(Fresh, 0, &[4])],
            images: [
                (Some(&[1, 2, 3]), Some(&[])),
                (Some(&[1, 2, 3]), Some(&[4])),
                (Some(&[1, 2, 3]), Some(&[251])),
            ],
        },
        // a rename may be there or not until the folder is synced
        Row {
            steps: &[
                Create(Fresh),
                Write(Fresh, 0, &[4]),
                Sync(Fresh),
                SyncFolder,
                Rename,
            ],
            images: [
                (Some(&[1, 2, 3]), Some(&[4])),
                (Some(&[4]), None),
                (Some(&[4]), None),
            ],
        },
        Row {
            steps: &[
                Create(Fresh),
                Write(Fresh, 0, &[4]),
                Sync(Fresh),
                Rename,
                SyncFolder,
            ],
            images: [(Some(&[4]), None), (Some(&[4]), None), (Some(&[4]), None)],
        },
        // a sync is of the file, under whatever name a crash leaves it
        Row {
            steps: &[
                Create(Fresh),
                SyncFolder,
                Sync(Fresh),
                Rename,
                Write(Main, 0, &[6]),
                Sync(Main),
            ],
            images: [
                (Some(&[1, 2, 3]), Some(&[6])),
                (Some(&[6]), None),
                (Some(&[6]), None),
            ],
        },
        // a file of the same name is another file
        Row {
            steps: &[Remove(Main), Create(Main), Write(Main, 0, &[8]), Sync(Main)],
            images: [
                (Some(&[1, 2, 3]), None),
                (Some(&[8]), None),
                (Some(&[8]), None),
            ],
        },
    ];
    for (number, row) in table.iter().enumerate() {
        assert!(rt; leaves(rt.alloc(), row)?, "row {number}");
    }
    Ok(())
}

/// So many bytes at most that are read from Main at this offset.
fn read_from<D: Disk>(disk: &mut D, at: u64, buf: &mut [u8]) -> Result<usize, Failed>
    ensures { length buf.new ≡ length buf.old }
{
    disk.read_at(Main, at, buf)
}

fn length_of<D: Disk>(disk: &mut D, role: Role) -> Result<Option<u64>, Failed> {
    disk.length(role)
}

#[test]
fn a_read_ends_where_the_file_does(rt: HostRuntime) -> Result<(), Fail> {
    let mut disk = SilentDisk {
        inner: disk_with(
            rt.alloc(),
            Some(&[10, 11, 12, 13, 14, 15, 16, 17]),
            None,
            None,
        )?,
    };
    let mut buf = [0; 10];
    assert!(rt; read_from(&mut disk, 4, &mut buf) == Ok(4));
    assert!(rt; buf.get(..4) == Some(&[14, 15, 16, 17]));
    assert!(rt; length_of(&mut disk, Main) == Ok(Some(8)));
    assert!(rt; length_of(&mut disk, Fresh) == Ok(None));
    Ok(())
}

// Listed calls and those past a stop fail, and no others.
#[test]
fn calls_fail_where_they_are_to(rt: HostRuntime) -> Result<(), Fail> {
    let mut disk = MemDisk::new(rt.alloc());
    plan_faults(&mut disk, &[2, 5], None)?;
    for passes in [true, false, true] {
        assert!(rt; length_of(&mut disk, Main).is_ok() == passes);
    }
    plan_faults(&mut disk, &[1], Some(3))?;
    for passes in [false, false, true, false, false] {
        assert!(rt; length_of(&mut disk, Main).is_ok() == passes);
    }
    assert!(rt; disk.starved() == 0);
    Ok(())
}

/// All that the source gives, put into the sink.
fn copy_all<S: Source, K: Sink>(source: &mut S, sink: &mut K) -> Result<(), Failed> {
    let mut buf = [0; 4];
    for _ in 0..u64::MAX {
        let count = source.take(&mut buf)?;
        if count == 0 {
            return Ok(());
        }
        put_all(sink, &buf[..count])?;
    }
    Ok(())
}

/// Whether six bytes are all copied or not, and the sink has so many, where these calls of the source and of the sink fail.
fn are_copied(
    alloc: Global,
    takes: &[u64],
    puts: &[u64],
    done: bool,
    count: usize,
) -> Result<bool, Fail> {
    let bytes = [1, 2, 3, 4, 5, 6];
    let mut source = SilentSource {
        inner: MemSource::new(alloc, &bytes, takes)?,
    };
    let mut sink = SilentSink {
        inner: MemSink::new(alloc, puts)?,
    };
    let ended = copy_all(&mut source, &mut sink).is_ok() == done;
    let same = Some(sink.inner.bytes()) == bytes.get(..count);
    Ok(ended && same && sink.inner.starved() == 0)
}

// Six bytes come in pieces of four and two, and then the end. Where the call with this number fails, of the source or
// of the sink, the sink has these bytes.
#[test]
fn bytes_are_copied_up_to_a_failure(rt: HostRuntime) -> Result<(), Fail> {
    let table: [(&[u64], &[u64], bool, usize); 6] = [
        (&[], &[], true, 6),
        (&[1], &[], false, 0),
        (&[2], &[], false, 4),
        (&[3], &[], false, 6),
        (&[], &[1], false, 0),
        (&[], &[2], false, 4),
    ];
    for (takes, puts, done, count) in table {
        assert!(rt;
            are_copied(rt.alloc(), takes, puts, done, count)?,
            "{takes:?} {puts:?}"
        );
    }
    Ok(())
}

/// Two draws of two bytes, the second after the first whatever came of it.
fn draw_twice<E: Entropy>(entropy: &mut E) -> ([u8; 2], [u8; 2]) {
    let mut first = [0; 2];
    let mut second = [0; 2];
    let _ = entropy.fill(&mut first);
    let _ = entropy.fill(&mut second);
    (first, second)
}

// A draw that fails gives nothing away, and neither does one for more than is left.
#[test]
fn draws_are_of_the_next_bytes(rt: HostRuntime) -> Result<(), Fail> {
    let table: [(&[u8], &[u64], ([u8; 2], [u8; 2])); 3] = [
        (&[1, 2, 3, 4, 5], &[], ([1, 2], [3, 4])),
        (&[1, 2, 3, 4, 5], &[1], ([0, 0], [1, 2])),
        (&[1, 2, 3], &[], ([1, 2], [0, 0])),
    ];
    for (bytes, failing, draws) in table {
        let mut entropy = SilentEntropy {
            inner: MemEntropy::new(rt.alloc(), bytes, failing)?,
        };
        assert!(rt; draw_twice(&mut entropy) == draws, "{bytes:?}");
    }
    Ok(())
}
