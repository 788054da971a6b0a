// `stamp`: a field of the database header is set, in one transaction that changes page 1 alone.
ghost use Rattle.std.specs.Prelude.{◌≡◌, ◌≤◌, ◌==◌, length, Some, Err, IfErr, IsErr, OnOk, IsTrue};
ghost use Rattle.fresh_disk.specs.OnlyFresh.{IsOld};
ghost use Rattle.fresh_disk.specs.Published.{IsAlone};
ghost use Rattle.edge_model.specs.Causes.{Rose};
ghost use Rattle.edge_model.specs.Images.{Each, From, LeavesOnly};
ghost use Rattle.edge_model.specs.OnlyRead.{OnlyRead};
ghost use Rattle.cipher_profile.specs.Profile.{IsListed};
ghost use Rattle.page_codec.specs.Page.{keys_of};
ghost use Rattle.edge_model.specs.Files.{main_of};
ghost use Rattle.atomic_commit.specs.Facts.{SameFresh};
ghost use Rattle.sqlcipher_tool.specs.Answer.{Answer};
ghost use Rattle.sqlcipher_tool.specs.Behind.{IsRefusedChange};
ghost use Rattle.sqlcipher_tool.specs.Change.{IsLateChange, KeepsOrCommits, change_answer, change_status};
ghost use Rattle.rekey_job.specs.Draws.{FileDraws};
ghost use Rattle.sqlcipher_tool.specs.Holding.{HoldsOnly, held_by};
ghost use Rattle.sqlcipher_tool.specs.Opening.{AreRecovered, opened_with};
ghost use Rattle.sqlcipher_tool.specs.Renewal.{WithDraws};
ghost use Rattle.sqlcipher_tool.specs.Stamp.{IsStamped, field_at, stamp_answer};
ghost use Rattle.pager.specs.Drawn.{drawn_since};

use crate::command::Field;
use crate::first_page::change_first;
use crate::opening::{ChangeError, Stop, open_main};
use crate::text::stamped_report;
use cipher_profile::{Profile, Secret};
use db_format::{APPLICATION_ID_AT, USER_VERSION_AT};
use edge_model::{Disk, Entropy};
use number_fields::u32_bytes;
use pager::OpenedFile;
use std::alloc::Global;
use text_lines::Text;

/// Opens Main with this secret, and stamps it: the field gets this number. Answers what is printed.
pub fn stamp_file<E: Entropy, D: Disk>(
    alloc: Global,
    profile: Profile,
    field: Field,
    value: u32,
    secret: &Secret,
    entropy: &mut E,
    disk: &mut D,
) -> Result<Text, ChangeError>
    requires listed { IsListed profile }
    requires recovered { IsTrue D.tells → AreRecovered (D.reads disk.old) (D.images disk.old) }
    requires alone { IsTrue D.tells → profile.page_size ≤ length (main_of (D.reads disk.old)) → Each (D.images disk.old) (IsAlone (main_of (D.reads disk.old))) }
    ensures told { IsTrue D.tells → (answer : Answer) → change_answer result ≡ Some answer → answer ≡ stamp_answer profile secret.now (main_of (D.reads disk.old)) }
    ensures safely { IsTrue D.tells → Each (D.images disk.old) (HoldsOnly (held_by (keys_of profile secret.now (main_of (D.reads disk.old))) (main_of (D.reads disk.old))))
        → KeepsOrCommits D.reads D.images D.moment D.since (change_status result)
        (WithDraws (IsStamped (keys_of profile secret.now (main_of (D.reads disk.old))) field value (main_of (D.reads disk.old))) E.tells
        (λ file. FileDraws (keys_of profile secret.now file) file (λ n. n == 1) 0 (drawn_since (E.drawn entropy.old) (E.drawn entropy.new))))
        (HoldsOnly (held_by (keys_of profile secret.now (main_of (D.reads disk.old))) (main_of (D.reads disk.old))))
        (λ file. HoldsOnly (held_by (keys_of profile secret.now file) file)) disk.old disk.new }
    ensures fresh { IsTrue D.tells → LeavesOnly D.moment D.since disk.old disk.new (From SameFresh (D.images disk.old)) }
    ensures stays { IfErr result (λ e. IsRefusedChange e → IsTrue D.tells → Each (D.images disk.new) (IsOld (D.images disk.old))) }
    ensures unopened { IsTrue D.tells → IsErr (opened_with profile secret.now (main_of (D.reads disk.old))) → OnlyRead D.reads D.images D.moment D.since disk.old disk.new }
    ensures own_draws { OnOk result (IsTrue D.tells → IsTrue E.tells
        → FileDraws (keys_of profile secret.now (main_of (D.reads disk.new))) (main_of (D.reads disk.new)) (λ n. n == 1) 0 (drawn_since (E.drawn entropy.old) (E.drawn entropy.new))) }
    ensures late { IfErr result IsLateChange }
    ensures disk_fault { result ≡ Err (ChangeError.Stopped Stop.DiskFault) → Rose (D.faults disk.old) (D.faults disk.new) }
    ensures entropy_fault { result ≡ Err ChangeError.EntropyFault → Rose (E.faults entropy.old) (E.faults entropy.new) }
    ensures disk_later { D.faults disk.old ≤ D.faults disk.new }
    ensures entropy_later { E.faults entropy.old ≤ E.faults entropy.new }
{
    let file = match open_main(alloc, disk, profile, secret) {
        Ok(file) => file,
        Err(stop) => return Err(ChangeError::Stopped(stop)),
    };
    let pager = file.into_pager(disk, entropy);
    let write = pager.codec().again();
    let bytes = u32_bytes(value);
    // Behind the commit nothing takes memory.
    let report = stamped_report();
    let (disk, entropy, done) = change_first(alloc, pager, write, field_at(field), &bytes, report);
    // Both end here as they are, entropy first: the prover learns of each from these lines.
    let _ = entropy;
    let _ = disk;
    done
}

fn field_at(field: Field) -> usize
    ensures value { result ≡ field_at field }
    ensures place { (60 ≤ result) × (result ≤ 68) }
{
    match field {
        Field::UserVersion => USER_VERSION_AT,
        Field::ApplicationId => APPLICATION_ID_AT,
    }
}
