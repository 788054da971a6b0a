// Scripts of sessions on the file that `make` makes in version 4 without a row: page 1 is the schema, pages 2 to 4 are the empty roots of a
// table, an index and a table without rowids. What the forms of a line are is tried in `session_play`, and stops of a script in `stops`.
use command_runs::pages::turn;
use command_runs::served::{
    AMPLE, Given, KEY, OTHER_KEY, disk_with, file_in, made, serve, serve_failing,
};
use edge_memory::MemDisk;
use edge_model::Role;
use sqlcipher_tool::Status;
use std::alloc::{AllocError, Global};
use std::process::Abort;
use std::test::Fail;

const PLAY: &[&str] = &["play", "4"];

// A script in pieces, what is printed, and the status. A key line has its line feed.
type Row<'a> = (&'a [&'a [u8]], &'a str, u8);

const ROWS: [Row<'static>; 9] = [
    (
        &[
            b"open 0 4 ",
            KEY,
            b"open 1 4 ",
            KEY,
            b"share 0\nshare 1\nread 0 2 0\nreserve 0\nreserve 1\nchange 0 3 7 7\nread 1 3 7\nread 0 3 7\ncommit 0\nshare 2\nrelease 1\n\
            share 1\ncommit 0\nshare 1\nread 1 3 7\n",
        ],
        "done\ndone\ndone\ndone\nbyte 13\ndone\nbusy\ndone\nbyte 0\nbyte 7\nbusy\nmisuse\ndone\nbusy\ndone\ndone\nbyte 7\n",
        0,
    ),
    (
        &REKEYED,
        "done\ndone\ndone\ndone\ndone\ndone\nkey refused\ndone\ndone\nmisuse\n",
        0,
    ),
    (
        &[b"open 0 4 ", KEY, b"walk 0"],
        "done\nline 2: no step\n",
        2,
    ),
    (
        &[b"open 0 4 ", KEY, &LETTERS],
        "done\nline 2: too long\n",
        2,
    ),
    (
        &[b"stop\n", &LETTERS_OF_A_LINE],
        "done\nline 2: no step\n",
        2,
    ),
    (
        &[b"stop\n", &LETTERS_OF_A_LINE, b"\nstop\n"],
        "done\nline 2: no step\n",
        2,
    ),
    (
        &[b"stop\n", &LETTERS, b"\nstop\n"],
        "done\nline 2: too long\n",
        2,
    ),
    (
        &[b"open 0 4 ", OTHER_KEY, b"share 0\nshare 0"],
        "done\nkey refused\nkey refused\n",
        0,
    ),
    (&[], "", 0),
];

/// A rekey under another session.
pub const REKEYED: [&[u8]; 9] = [
    b"open 0 4 ",
    KEY,
    b"open 1 4 ",
    KEY,
    b"share 0\nreserve 0\nrekey 0 4 ",
    OTHER_KEY,
    b"commit 0\nshare 1\nopen 1 4 ",
    OTHER_KEY,
    b"share 1\nchange 1 2 7 1\n",
];

// One byte more than the longest line has, and that line.
const LETTERS: [u8; 1101] = [b'k'; 1101];

const LETTERS_OF_A_LINE: [u8; 1100] = [b'k'; 1100];

// A commit, and what it has left.
const CHANGE: &[u8] = b"share 0\nreserve 0\nchange 0 3 7 7\ncommit 0\n";

const CHANGED: &str = "done\ndone\ndone\ndone\ndone\n";

const READ: &[u8] = b"share 0\nread 0 3 7\n";

const OLD_BYTE: &str = "done\ndone\nbyte 0\n";

const NEW_BYTE: &str = "done\ndone\nbyte 7\n";

// These words on a disk answer so.
fn answers<'x>(
    rt: &impl Abort,
    alloc: Global,
    words: &'x [&'x str],
    disk: &mut MemDisk,
    row: &Row<'x>,
) -> Result<(), Fail> {
    let (lines, text, code) = *row;
    let given = Given {
        words,
        lines,
        drawn: AMPLE,
    };
    let served = serve(alloc, &given, disk)?;
    assert_eq!(rt; served.text.as_slice(), text.as_bytes(), "{words:?} {text}");
    assert_eq!(rt; served.status.code(), code, "{words:?} {text}");
    assert_eq!(rt; disk.starved(), 0);
    Ok(())
}

#[test]
fn answers_each_row_of_play(rt: HostRuntime) -> Result<(), Fail> {
    let alloc = rt.alloc();
    let file = made(alloc, "4", "0")?;
    for row in &ROWS {
        let mut disk = disk_with(alloc, file.as_slice())?;
        answers(&rt, alloc, PLAY, &mut disk, row)?;
    }
    Ok(())
}

// Files that do not open, and a page whose tag does not hold, answer the step that meets them.
#[test]
fn a_refused_file_is_an_answer(rt: HostRuntime) -> Result<(), Fail> {
    let alloc = rt.alloc();
    let mut file = made(alloc, "4", "0")?;
    let steps: &[&[u8]] = &[b"open 0 4 ", KEY, b"share 0\nread 0 3 7\nread 0 2 0\n"];
    let mut absent = MemDisk::new(alloc);
    answers(
        &rt,
        alloc,
        PLAY,
        &mut absent,
        &(steps, "done\nfile is empty\nmisuse\nmisuse\n", 0),
    )?;
    let mut short = disk_with(alloc, file.get(..8192).unwrap_or(&[]))?;
    answers(
        &rt,
        alloc,
        PLAY,
        &mut short,
        &(
            steps,
            "done\nfile is short: 8192 bytes\nmisuse\nmisuse\n",
            0,
        ),
    )?;
    // The tag of page 3 begins at byte 12,224.
    turn(&mut file, 12_224);
    let mut damaged = disk_with(alloc, file.as_slice())?;
    answers(
        &rt,
        alloc,
        PLAY,
        &mut damaged,
        &(steps, "done\ndone\npage 3: tag refused\nbyte 13\n", 0),
    )
}

// What is no command takes nothing of the input, whose first call fails.
#[test]
fn play_takes_one_profile(rt: HostRuntime) -> Result<(), Fail> {
    let alloc = rt.alloc();
    let words: [&[&str]; 5] = [
        &["play"],
        &["play", "5"],
        &["play", "plain:256"],
        &["play", "4", "4"],
        &["Play", "4"],
    ];
    for words in words {
        let given = Given {
            words,
            lines: &[b"stop\n"],
            drawn: 0,
        };
        let mut disk = MemDisk::new(alloc);
        let served = serve_failing(alloc, &given, 1, 0, &mut disk)?;
        assert_eq!(rt; served.text.as_slice(), b"usage\n".as_slice(), "{words:?}");
        assert_eq!(rt; served.status, Status::Usage, "{words:?}");
    }
    Ok(())
}

// A plain file has no key, and the first call for a byte to be drawn fails.
#[test]
fn a_script_of_a_plain_file_draws_nothing(rt: HostRuntime) -> Result<(), Fail> {
    let alloc = rt.alloc();
    let mut disk = disk_with(alloc, made(alloc, "plain:4096", "0")?.as_slice())?;
    let given = Given {
        words: &["play", "plain:4096"],
        lines: &[
            b"open 0 plain:4096\n",
            CHANGE,
            b"share 0\nread 0 3 7\nopen 1 4 k",
        ],
        drawn: 0,
    };
    let served = serve(alloc, &given, &mut disk)?;
    let text = "done\ndone\ndone\ndone\ndone\ndone\nbyte 7\nmisuse\n";
    assert_eq!(rt; served.text.as_slice(), text.as_bytes());
    assert_eq!(rt; served.status, Status::Done);
    let keyed: Row<'_> = (&[b"open 0 plain:4096 k"], "line 1: no step\n", 2);
    answers(&rt, alloc, &["play", "plain:4096"], &mut disk, &keyed)
}

#[test]
fn a_script_has_at_most_a_hundred_thousand_lines(rt: HostRuntime) -> Result<(), Fail> {
    let alloc = rt.alloc();
    let mut script = Vec::new(alloc);
    let mut text = Vec::new(alloc);
    for _line in 0..100_000 {
        script.extend_from_slice(b"stop\n")?;
        text.extend_from_slice(b"done\n")?;
    }
    text.extend_from_slice(b"more than 100000 lines\n")?;
    // The byte behind them begins a line that would be too long.
    let given = Given {
        words: PLAY,
        lines: &[script.as_slice(), &LETTERS],
        drawn: 0,
    };
    let served = serve(alloc, &given, &mut MemDisk::new(alloc))?;
    assert_eq!(rt; served.status.code(), 2);
    assert!(rt; served.text.as_slice() == text.as_slice());
    Ok(())
}

// What a read of the byte that the commit changes prints of this disk.
fn byte_of(alloc: Global, disk: &MemDisk) -> Result<Vec<u8>, AllocError> {
    let file = file_in(alloc, disk, Role::Main)?;
    let given = Given {
        words: PLAY,
        lines: &[b"open 0 4 ", KEY, READ],
        drawn: 0,
    };
    Ok(serve(alloc, &given, &mut disk_with(alloc, file.as_slice())?)?.text)
}

// A call of the input that fails, and one of the output, counted from 1; what is printed before it, and the byte that the file has then.
fn fails_so(
    rt: &impl Abort,
    alloc: Global,
    take: usize,
    put: u64,
    text: &str,
    byte: &str,
) -> Result<(), Fail> {
    let file = made(alloc, "4", "0")?;
    let mut disk = disk_with(alloc, file.as_slice())?;
    let given = Given {
        words: PLAY,
        lines: &[b"open 0 4 ", KEY, CHANGE, READ],
        drawn: AMPLE,
    };
    let served = serve_failing(alloc, &given, take as u64, put, &mut disk)?;
    let due = if put == 0 {
        Status::InputFault
    } else {
        Status::OutputFault
    };
    assert_eq!(rt; served.status, due, "{take} {put}");
    assert_eq!(rt; served.text.as_slice(), text.as_bytes(), "{take} {put}");
    assert_eq!(rt; disk.bytes(Role::Journal), None, "{take} {put}");
    assert_eq!(rt;
        byte_of(alloc, &disk)?.as_slice(),
        byte.as_bytes(),
        "{take} {put}"
    );
    Ok(())
}

// The source gives a byte a call. A commit that was made stays, also where its answer is not printed.
#[test]
fn a_stream_that_fails_leaves_what_was_committed(rt: HostRuntime) -> Result<(), Fail> {
    let alloc = rt.alloc();
    let opened = KEY.len().saturating_add(9);
    let committed = opened.saturating_add(CHANGE.len());
    let read = committed.saturating_add(READ.len());
    fails_so(&rt, alloc, 1, 0, "", OLD_BYTE)?;
    fails_so(&rt, alloc, opened, 0, "", OLD_BYTE)?;
    fails_so(
        &rt,
        alloc,
        committed,
        0,
        "done\ndone\ndone\ndone\n",
        OLD_BYTE,
    )?;
    fails_so(
        &rt,
        alloc,
        committed.saturating_add(1),
        0,
        CHANGED,
        NEW_BYTE,
    )?;
    fails_so(
        &rt,
        alloc,
        read.saturating_add(1),
        0,
        "done\ndone\ndone\ndone\ndone\ndone\nbyte 7\n",
        NEW_BYTE,
    )?;
    fails_so(&rt, alloc, 0, 1, "", OLD_BYTE)?;
    fails_so(&rt, alloc, 0, 4, "done\ndone\ndone\n", OLD_BYTE)?;
    fails_so(&rt, alloc, 0, 5, "done\ndone\ndone\ndone\n", NEW_BYTE)
}
