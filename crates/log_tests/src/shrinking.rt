// A log that is cut by somebody else while it is read.
ghost use Rattle.std.specs.Prelude.{◌≡◌, ◌≤◌, length, refl, false};
ghost use Rattle.edge_model.specs.Causes.{Rose};
ghost use Rattle.edge_model.specs.Files.{no_files};
ghost use Rattle.edge_model.specs.Silent.{nothing_numbered};

use crate::case::Case;
use crate::digest::digest_of;
use crate::told::{MOST, show_refusal};
use edge_model::{Disk, Failed, Role};
use log_view::LogView;
use std::io;

/// Two files that are only read. Behind so many reads of the log it has no byte, though its length was told before.
#[derive(Drop)]
pub struct Shrinking<'a> {
    main: &'a [u8],
    log: &'a [u8],
    reads: u64,
    faults: u64,
}

/// Copies the bytes from an offset on, as many as there are and fit, and answers how many.
fn copy_from(bytes: &[u8], at: u64, buf: &mut [u8]) -> usize
    ensures { result ≤ length buf.old }
{
    if at >= bytes.len() as u64 {
        return 0;
    }
    let rest = &bytes[at as usize..];
    let count = rest.len().min(buf.len());
    buf[..count].copy_from_slice(&rest[..count]);
    count
}

/// A call that is not done.
fn refuse(faults: &mut u64) -> Failed
    ensures rose { Rose faults.old faults.new }
    ensures later { faults.old ≤ faults.new }
{
    *faults = faults.saturating_add(1);
    Failed
}

impl<'a> Disk for Shrinking<'a> {
    ghost tells = { false };

    ghost reads = { λ _. no_files };

    ghost images = { λ _ c. c ≡ no_files };

    ghost moment = { λ _. 0 };

    ghost since = { λ _ _ c. c ≡ no_files };

    ghost next = { λ _. 0 };

    ghost faults = { λ disk. disk.faults };

    ghost reads_now = { λ _. refl };

    ghost counts_now = { λ _ _ _ _ now. now };

    ghost only_now = { λ _ _ left. left };

    ghost numbered = { λ _ c is. nothing_numbered c is };

    fn length(&mut self, role: Role) -> Result<Option<u64>, Failed> {
        match role {
            Role::Main => Ok(Some(self.main.len() as u64)),
            Role::Journal => Ok(Some(self.log.len() as u64)),
            Role::Fresh => Ok(None),
        }
    }

    fn read_at(&mut self, role: Role, at: u64, buf: &mut [u8]) -> Result<usize, Failed> {
        match role {
            Role::Main => Ok(copy_from(self.main, at, buf)),
            Role::Journal => {
                if self.reads == 0 {
                    return Ok(0);
                }
                self.reads -= 1;
                Ok(copy_from(self.log, at, buf))
            }
            Role::Fresh => Err(refuse(&mut self.faults)),
        }
    }

    fn write_at(&mut self, _role: Role, _at: u64, _bytes: &[u8]) -> Result<(), Failed> {
        Err(refuse(&mut self.faults))
    }

    fn cut(&mut self, _role: Role, _len: u64) -> Result<(), Failed> {
        Err(refuse(&mut self.faults))
    }

    fn sync(&mut self, _role: Role) -> Result<(), Failed> {
        Ok(())
    }

    fn create(&mut self, _role: Role) -> Result<(), Failed> {
        Err(refuse(&mut self.faults))
    }

    fn remove(&mut self, _role: Role) -> Result<(), Failed> {
        Err(refuse(&mut self.faults))
    }

    fn rename_fresh(&mut self) -> Result<(), Failed> {
        Err(refuse(&mut self.faults))
    }

    fn sync_folder(&mut self) -> Result<(), Failed> {
        Ok(())
    }
}

/// The line of a pair whose log has no byte behind so many reads.
pub fn show_shrinking(
    rt: &HostRuntime,
    case: &Case<'_>,
    main: &[u8],
    log: &[u8],
) -> io::Result<()> {
    let disk = Shrinking {
        main,
        log,
        reads: case.first as u64,
        faults: 0,
    };
    if case.size == 0 || case.size > 65536 {
        return Err(io::ErrorKind::InvalidData.into());
    }
    print!(rt; "{}, no log behind {} reads: ", case.name, case.first)?;
    match LogView::open(rt.alloc(), disk, case.size, MOST) {
        Ok(mut view) => match digest_of(&mut view) {
            Ok(_digest) => println!(rt; "read"),
            Err(_) => println!(rt; "opened, then a fault"),
        },
        Err((_disk, why)) => {
            show_refusal(rt, why)?;
            println!(rt; "")
        }
    }
}
