// The rows of `tags` and `recover`, and what each failure of the outside and each refusal of the words or of a key line answers.
//
// In the tagged file, page n has 4,032 bytes n. Its tags were computed with Python's hmac and hashlib, for profile 4 and the raw key of
// the bytes 0 to 31.
use command_runs::pages::turn;
use command_runs::served::{Given, KEY, Step, disk_with, serve_all, serve_failing};
use edge_memory::MemDisk;
use edge_model::Role;
use sqlcipher_tool::Status;
use std::alloc::Global;
use std::test::Fail;

const TAGS: [&str; 4] = [
    "f31d12e34275adc3a3ab8ec543401efd9c518bb1cfe3150417ed41d902c84322ea9ebb0dc7b9865b3b6fb7e9a96c1bdec3f5316ae6f498298e34ae7f19488865",
    "84cc4b6b848a55dbeda53f40ce6dda8982b47ec80d1afcac1621ee649794459ddb0b351a7806b3973f561d39d2b854614c0f762d268acc7958686d7e4509c536",
    "f72312e815a91f8fed433d04a8d2fba5303538916d3b651646ae2968e044b73bbe00951131a51ef542d2430ee7907d84877f69c64b0bafdcf9a7483422ca4fd0",
    "44036d3ea5f624a31ff75eaa5366f022de53d8414212d830176015bace29e4d43c1090be942703f243b3372c926269d61782824dce86388a1290794150518a27",
];

const SIZE: usize = 4096;

const HELD: &str = "tags hold: 4 pages\n";

// A tagged file: the pages in their order, the byte whose lowest bit is turned, and the length, to which it is cut or filled with zeros.
type Tagged = ([usize; 4], usize, usize);

// No byte of the file.
const NONE: usize = usize::MAX;

const WHOLE: Tagged = ([0, 1, 2, 3], NONE, 16_384);

// The tag of page 3 begins there.
const DAMAGED: Tagged = ([0, 1, 2, 3], 12_224, 16_384);

fn tagged(alloc: Global, form: Tagged) -> Result<Vec<u8>, Fail> {
    let (pages, turned, length) = form;
    let mut file = Vec::new(alloc);
    for page in pages {
        file.extend_from_slice(&[(page % 4 + 1) as u8; 4032])?;
        let tag = TAGS.get(page).copied().unwrap_or("");
        file.extend_from_slice(hex::decode(alloc, tag)?.as_slice())?;
    }
    turn(&mut file, turned);
    file.resize(length, 0)?;
    Ok(file)
}

const ROWS: [(Tagged, &str, u8); 6] = [
    (WHOLE, HELD, 0),
    (([0, 1, 2, 3], NONE, 16_484), HELD, 0),
    (DAMAGED, "page 3: tag refused\n", 2),
    (
        ([0, 2, 1, 3], NONE, 16_384),
        "page 2: tag refused\npage 3: tag refused\n",
        2,
    ),
    (([0, 1, 2, 3], 4_032, 16_384), "key refused\n", 3),
    (
        ([0, 1, 2, 3], NONE, 4_095),
        "file is short: 4095 bytes\n",
        2,
    ),
];

#[test]
fn answers_each_row_of_tags(rt: HostRuntime) -> Result<(), Fail> {
    let alloc = rt.alloc();
    for (form, text, code) in ROWS {
        let mut disk = disk_with(alloc, tagged(alloc, form)?.as_slice())?;
        let step: Step<'_> = (&["tags", "4"], &[KEY], Some(text), code);
        serve_all(alloc, &mut disk, 0, &[step])?;
    }
    Ok(())
}

// A journal of the four pages with the first bytes of page 3. Its checksum is the nonce and the bytes at 3,896, 3,696, .. and
// 96 of the image, twenty times 3.
fn journal_of_page_3(alloc: Global) -> Result<Vec<u8>, Fail> {
    let mut journal = Vec::new(alloc);
    journal.extend_from_slice(&[
        0xd9, 0xd5, 0x05, 0xf9, 0x20, 0xa1, 0x63, 0xd7, 0, 0, 0, 1, 0, 0, 0, 7, 0, 0, 0, 4, 0, 0,
        2, 0, 0, 0, 0x10, 0,
    ])?;
    journal.resize(512, 0)?;
    journal.extend_from_slice(&[0, 0, 0, 3])?;
    let file = tagged(alloc, WHOLE)?;
    journal.extend_from_slice(file.get(2 * SIZE..3 * SIZE).unwrap_or(&[]))?;
    journal.extend_from_slice(&[0, 0, 0, 67])?;
    Ok(journal)
}

// The journal beside a damaged file.
#[derive(Clone, Copy)]
enum Beside {
    Nothing,
    Cold,
    Hot,
}

const COLD: &[u8] = &[0];

const RECOVERIES: [(Beside, &[&str], &str, u8); 5] = [
    (Beside::Hot, &["tags", "4"], HELD, 0),
    (Beside::Hot, &["recover", "4"], "played: 1\n", 0),
    (
        Beside::Hot,
        &["recover", "3"],
        "journal page size 4096\n",
        2,
    ),
    (Beside::Cold, &["recover", "4"], "cold\n", 0),
    (Beside::Nothing, &["recover", "4"], "nothing\n", 0),
];

#[test]
fn recovers_before_it_answers(rt: HostRuntime) -> Result<(), Fail> {
    let alloc = rt.alloc();
    let damaged = tagged(alloc, DAMAGED)?;
    let hot = journal_of_page_3(alloc)?;
    for (beside, words, text, code) in RECOVERIES {
        let journal = match beside {
            Beside::Nothing => None,
            Beside::Cold => Some(COLD),
            Beside::Hot => Some(hot.as_slice()),
        };
        let mut disk = MemDisk::with_files(alloc, Some(damaged.as_slice()), journal, None)?;
        let step: Step<'_> = (words, &[KEY], Some(text), code);
        serve_all(alloc, &mut disk, 0, &[step])?;
        assert_eq!(rt; disk.bytes(Role::Journal).is_some(), code == 2);
    }
    Ok(())
}

// A line of 1,025 bytes without an end, and one of a raw key with a salt, of 96 digits.
const LONG: [u8; 1025] = [b'a'; 1025];

const SALTED: &[u8] =
    b"x'000000000000000000000000000000000000000000000000000000000000000000000000000000000000000000000000'";

const USAGE: &str = "usage\n";

const ONLY_READ: &str = "a file with its log is only read\n";

// What is refused without a call of the disk.
const REFUSALS: [(&[&str], &[u8], &str, u8); 30] = [
    (&["tags", "4"], b"", "key missing\n", 2),
    (&["tags", "4"], b"\n", "key empty\n", 2),
    (&["tags", "4"], &LONG, "key too long\n", 2),
    (&["tags", "4"], SALTED, "key with salt\n", 2),
    (&["migrate", "1", "4"], KEY, "key missing\n", 2),
    (&["tags", "1"], b"", "profile has no tags\n", 2),
    (&["rekey", "3", "4"], KEY, "layout differs\n", 2),
    (&["recover", "3:wal"], b"", ONLY_READ, 2),
    (&["stamp", "4:wal", "user-version", "7"], b"", ONLY_READ, 2),
    (&["rekey", "4", "4:wal"], b"", ONLY_READ, 2),
    (&["migrate", "plain:512:wal", "4"], b"", ONLY_READ, 2),
    (&["make", "4:8192:wal", "0"], b"", ONLY_READ, 2),
    (&["play", "4:wal"], b"", ONLY_READ, 2),
    (&["tags", "4:wal:wal"], KEY, USAGE, 1),
    (&["play", "4:wal", "4"], KEY, USAGE, 1),
    (&[], KEY, USAGE, 1),
    (&["tags"], KEY, USAGE, 1),
    (&["tags", "5"], KEY, USAGE, 1),
    (&["header", "4", "4"], KEY, USAGE, 1),
    (&["probe", "4"], KEY, USAGE, 1),
    (&["tag", "4"], KEY, USAGE, 1),
    (&["make", "4", "-1"], KEY, USAGE, 1),
    (&["stamp", "4", "user-version", "4294967296"], KEY, USAGE, 1),
    (
        &["stamp", "4", "user-version", "00000000007"],
        KEY,
        USAGE,
        1,
    ),
    (&["stamp", "4", "user-version", "+7"], KEY, USAGE, 1),
    (&["stamp", "4", "user-version", ""], KEY, USAGE, 1),
    (&["stamp", "4", "user-version", "7a"], KEY, USAGE, 1),
    (&["stamp", "4", "schema-cookie", "7"], KEY, USAGE, 1),
    (&["stamp", "5", "user-version", "7"], KEY, USAGE, 1),
    (&["stamp", "4", "user-version"], KEY, USAGE, 1),
];

#[test]
fn answers_each_refusal_of_the_words_and_of_a_key_line(rt: HostRuntime) -> Result<(), Fail> {
    let alloc = rt.alloc();
    for (words, line, text, code) in REFUSALS {
        let mut disk = MemDisk::new(alloc);
        disk.stop_after(0);
        let step: Step<'_> = (words, &[line], Some(text), code);
        serve_all(alloc, &mut disk, 0, &[step])?;
    }
    Ok(())
}

// A call of the input, of the output and of the disk that fails, 0 for none, and how the run ends. The disk has nine: four before the
// recovery looks, two that look, the length, page 1, and the four pages at once.
const FAILURES: [(u64, u64, u64, Status); 10] = [
    (1, 0, 0, Status::InputFault),
    (68, 0, 0, Status::InputFault),
    (0, 1, 0, Status::OutputFault),
    (0, 0, 1, Status::DiskFault),
    (0, 0, 4, Status::DiskFault),
    (0, 0, 6, Status::DiskFault),
    (0, 0, 7, Status::DiskFault),
    (0, 0, 8, Status::DiskFault),
    (0, 0, 9, Status::DiskFault),
    (0, 0, 10, Status::Done),
];

const TAGS_4: Given<'static> = Given {
    words: &["tags", "4"],
    lines: &[KEY],
    drawn: 0,
};

#[test]
fn answers_the_failure_of_each_call(rt: HostRuntime) -> Result<(), Fail> {
    let alloc = rt.alloc();
    let main = tagged(alloc, WHOLE)?;
    for (take, put, call, status) in FAILURES {
        let mut disk = disk_with(alloc, main.as_slice())?;
        disk.fail_calls(&[call])?;
        let served = serve_failing(alloc, &TAGS_4, take, put, &mut disk)?;
        assert_eq!(rt;
            served.status,
            status,
            "take {take}, put {put}, disk call {call}"
        );
    }
    Ok(())
}
