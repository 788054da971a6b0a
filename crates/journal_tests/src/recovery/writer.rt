// What the writer writes, byte by byte, with pages of 512 bytes. Of these the checksum takes two.
ghost use Rattle.std.specs.Prelude.{◌≡◌, IfOk, OnOk};
ghost use Rattle.rollback_journal.specs.Writing.{at_first};

use crate::files::{answer_of, disk_with, is_left, plan_faults, runs_of};
use edge_memory::SilentDisk;
use edge_model::{Disk, Failed, Role};
use rollback_journal::{JournalWriter, Stage};
use std::alloc::Global;
use std::test::Fail;

/// Four pages of ones.
fn ones(alloc: Global) -> Result<SilentDisk, Fail> {
    Ok(SilentDisk {
        inner: disk_with(alloc, Some(&[1; 2048]), None, None)?,
    })
}

fn new_writer(alloc: Global) -> Result<JournalWriter, Fail>
    ensures { IfOk result (λ w. w ≡ at_first 512 4) }
{
    Ok(JournalWriter::new(alloc, 512, 4)?)
}

/// Records of page 2, of sevens, and of page 3, of eights, each in a segment of its own. Page 3 is then changed.
fn write_two(writer: &mut JournalWriter, disk: &mut SilentDisk) -> Result<(), Failed>
    requires { writer.old ≡ at_first 512 4 }
    ensures { OnOk result (writer.new.stage ≡ Stage.Opened) }
{
    writer.create(disk)?;
    writer.append(disk, 2, &[7; 512])?;
    writer.open_gate(disk)?;
    writer.next_segment(disk)?;
    writer.append(disk, 3, &[8; 512])?;
    writer.open_gate(disk)?;
    disk.write_at(Role::Main, 1024, &[9; 512])
}

/// The records are laid back, and the journal is closed and removed.
fn take_back(writer: &mut JournalWriter, disk: &mut SilentDisk) -> Result<(), Failed>
    requires { writer.old.stage ≡ Stage.Opened }
{
    writer.lay_back(disk)?;
    writer.close_gate(disk)?;
    writer.remove(disk)
}

fn write_and_take_back(writer: &mut JournalWriter, disk: &mut SilentDisk) -> Result<(), Failed>
    requires { writer.old ≡ at_first 512 4 }
{
    write_two(writer, disk)?;
    take_back(writer, disk)
}

/// A header with these fields and 16 bytes behind it in a sector of 512 bytes, and one record.
fn put_segment(
    out: &mut Vec<u8>,
    fields: [u32; 5],
    mark: &[u8; 16],
    page: u32,
    fill: u8,
    sum: u32,
) -> Result<(), Fail> {
    out.extend_from_slice(&[0xd9, 0xd5, 0x05, 0xf9, 0x20, 0xa1, 0x63, 0xd7])?;
    for field in fields {
        out.extend_from_slice(&field.to_be_bytes())?;
    }
    out.extend_from_slice(mark)?;
    out.extend_from_slice(&[0; 468])?;
    out.extend_from_slice(&page.to_be_bytes())?;
    out.extend_from_slice(&[fill; 512])?;
    out.extend_from_slice(&sum.to_be_bytes())?;
    Ok(())
}

#[test]
fn two_segments_have_the_bytes_of_the_format(rt: HostRuntime) -> Result<(), Fail> {
    let mut disk = ones(rt.alloc())?;
    let mut writer = new_writer(rt.alloc())?;
    write_two(&mut writer, &mut disk)?;
    let mut journal = Vec::new(rt.alloc());
    put_segment(
        &mut journal,
        [1, 1, 4, 512, 512],
        b"sqlcipher-tool 1",
        2,
        7,
        15,
    )?;
    journal.extend_from_slice(&[0; 504])?;
    put_segment(&mut journal, [1, 2, 4, 512, 512], &[0; 16], 3, 8, 18)?;
    assert!(rt; disk.inner.bytes(Role::Journal) == Some(journal.as_slice()));
    take_back(&mut writer, &mut disk)?;
    let main = runs_of(rt.alloc(), 512, &[1, 7, 8, 1])?;
    assert!(rt; is_left(&disk.inner, &main));
    Ok(())
}

/// The answer where the call with this number fails, with the disk that is left.
fn failed_at(alloc: Global, call: u64) -> Result<(Result<(), Failed>, SilentDisk), Fail> {
    let mut disk = ones(alloc)?;
    plan_faults(&mut disk.inner, &[call], None)?;
    let mut writer = new_writer(alloc)?;
    let answer = write_and_take_back(&mut writer, &mut disk);
    Ok((answer, disk))
}

// Of the 31 calls four make the journal, each record is one, each gate four, the second segment two, and the write of Main
// one; ten lay back, two close the journal and two remove it.
#[test]
fn each_call_that_fails_is_answered(rt: HostRuntime) -> Result<(), Fail> {
    for call in 1..32 {
        let (answer, mut disk) = failed_at(rt.alloc(), call)?;
        assert!(rt; answer == Err(Failed), "{call}");
        assert!(rt; answer_of(rt.alloc(), &mut disk, 512).is_ok(), "{call}");
        assert!(rt; disk.inner.bytes(Role::Journal).is_none(), "{call}");
    }
    Ok(())
}
