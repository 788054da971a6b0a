// Call lists whose held pages were worked out by hand, and more pages than frames.
ghost use Rattle.std.specs.Prelude.{◌≤◌};

use page_cache::{Cache, Full, OutOfMemory};
use std::process::Abort;

// A call, and what it answers.
#[derive(Clone, Copy, Debug)]
enum Call {
    Place(u32),
    // No frame is free for this page.
    Full(u32),
    Touch(u32, bool),
    // The page is filled with this byte, where it is held.
    Fill(u32, u8, bool),
    Pin(u32, bool),
    Unpin(u32, bool),
    Mark(u32, bool, bool),
    Discard(u32, bool),
    Victim(Option<u32>),
}

// A held page: its number, its bytes, which are all the same, its pins, and whether it is marked as changed.
#[derive(Clone, Copy, Debug)]
struct Left(u32, u8, u32, bool);

fn check_call(rt: &impl Abort, cache: &mut Cache, call: Call) {
    match call {
        Call::Place(n) => {
            assert!(rt; !cache.is_held(n), "{call:?}");
            assert!(rt; cache.place(n).is_ok(), "{call:?}");
        }
        Call::Full(n) => {
            assert!(rt; !cache.is_held(n), "{call:?}");
            assert_eq!(rt; cache.hold(n), Err(Full), "{call:?}");
        }
        Call::Touch(n, held) => assert_eq!(rt; cache.touch(n), held, "{call:?}"),
        Call::Fill(n, byte, held) => {
            let is_held = match cache.get_mut(n) {
                Some(bytes) => {
                    bytes.fill(byte);
                    true
                }
                None => false,
            };
            assert_eq!(rt; is_held, held, "{call:?}");
        }
        Call::Pin(n, held) => {
            assert!(rt; cache.pins(n) < u32::MAX, "{call:?}");
            assert_eq!(rt; cache.pin(n), held, "{call:?}");
        }
        Call::Unpin(n, had_one) => assert_eq!(rt; cache.unpin(n), had_one, "{call:?}"),
        Call::Mark(n, dirty, held) => assert_eq!(rt; cache.set_dirty(n, dirty), held, "{call:?}"),
        Call::Discard(n, held) => assert_eq!(rt; cache.discard(n), held, "{call:?}"),
        Call::Victim(n) => assert_eq!(rt; cache.victim(), n, "{call:?}"),
    }
}

// The cache holds these pages and no other, the most recently used first. It holds none afterwards.
fn check_left(rt: &impl Abort, cache: &mut Cache, left: &[Left]) {
    for Left(n, byte, pins, dirty) in left {
        let same = match cache.get(*n) {
            Some(bytes) => bytes == [*byte; 4].as_slice(),
            None => false,
        };
        assert!(rt; same, "the bytes of page {n}");
        assert_eq!(rt; cache.is_dirty(*n), *dirty, "the mark of page {n}");
        for _ in 0..*pins {
            assert!(rt; cache.unpin(*n), "the pins of page {n}");
        }
        assert!(rt; !cache.unpin(*n), "the pins of page {n}");
    }
    for Left(n, _, _, _) in left.iter().rev() {
        assert_eq!(rt; cache.victim(), Some(*n));
        assert!(rt; cache.discard(*n), "page {n}");
    }
    assert_eq!(rt; cache.victim(), None);
}

#[test]
fn call_lists_leave_these_pages(rt: HostRuntime) {
    let table: [(&str, u32, &[Call], &[Left]); 4] = [
        (
            "one frame",
            1,
            &[
                Call::Victim(None),
                Call::Touch(1, false),
                Call::Place(1),
                Call::Fill(1, 0xa1, true),
                Call::Full(2),
                Call::Victim(Some(1)),
                Call::Pin(1, true),
                Call::Victim(None),
                Call::Unpin(1, true),
                Call::Unpin(1, false),
                Call::Mark(1, true, true),
                Call::Discard(1, true),
                Call::Discard(1, false),
                Call::Fill(1, 0xa2, false),
                Call::Victim(None),
                Call::Place(2),
            ],
            &[Left(2, 0, 0, false)],
        ),
        (
            "the order of use",
            3,
            &[
                Call::Place(7),
                Call::Fill(7, 1, true),
                Call::Place(0),
                Call::Place(u32::MAX),
                Call::Victim(Some(7)),
                Call::Touch(7, true),
                Call::Victim(Some(0)),
                Call::Full(5),
                Call::Discard(0, true),
                Call::Place(5),
                Call::Fill(u32::MAX, 9, true),
                Call::Touch(0, false),
                Call::Victim(Some(u32::MAX)),
            ],
            &[
                Left(5, 0, 0, false),
                Left(7, 1, 0, false),
                Left(u32::MAX, 9, 0, false),
            ],
        ),
        (
            "all pinned",
            3,
            &[
                Call::Place(1),
                Call::Place(2),
                Call::Place(3),
                Call::Pin(1, true),
                Call::Pin(1, true),
                Call::Pin(2, true),
                Call::Victim(Some(3)),
                Call::Pin(3, true),
                Call::Victim(None),
                Call::Full(4),
                Call::Unpin(1, true),
                Call::Victim(None),
                Call::Unpin(3, true),
                Call::Victim(Some(3)),
                Call::Pin(4, false),
                Call::Unpin(4, false),
                Call::Touch(1, true),
                Call::Fill(2, 2, true),
            ],
            &[
                Left(1, 0, 1, false),
                Left(3, 0, 0, false),
                Left(2, 2, 1, false),
            ],
        ),
        (
            "a frame used again",
            2,
            &[
                Call::Place(1),
                Call::Fill(1, 0xff, true),
                Call::Mark(1, true, true),
                Call::Pin(1, true),
                Call::Place(2),
                Call::Mark(2, true, true),
                Call::Mark(2, false, true),
                Call::Discard(1, true),
                Call::Mark(1, true, false),
                Call::Place(3),
                Call::Full(1),
                Call::Mark(3, true, true),
            ],
            &[Left(3, 0, 0, true), Left(2, 0, 0, false)],
        ),
    ];
    for (what, frames, calls, left) in table {
        match Cache::new(rt.alloc(), frames, 4) {
            Ok(mut cache) => {
                for call in calls {
                    check_call(&rt, &mut cache, *call);
                }
                check_left(&rt, &mut cache, left);
            }
            Err(OutOfMemory) => assert!(rt; false, "{what}"),
        }
    }
}

// A page comes in, of its number's bytes, and where no frame is free the least recently used page goes first.
fn check_placed(rt: &impl Abort, cache: &mut Cache, n: u32) {
    if n > 2_000 {
        assert_eq!(rt; cache.victim(), Some(n - 2_000));
        assert!(rt; cache.discard(n - 2_000));
    }
    assert!(rt; !cache.is_held(n));
    match cache.place(n) {
        Ok(bytes) => {
            assert_eq!(rt; bytes.len(), 4);
            bytes.copy_from_slice(&n.to_le_bytes());
        }
        Err(Full) => assert!(rt; false, "page {n}"),
    }
}

// More pages come in than the index has room for at once.
#[test]
fn two_thousand_frames_hold_the_last_used(rt: HostRuntime) {
    match Cache::new(rt.alloc(), 2_000, 4) {
        Ok(mut cache) => {
            for n in 1..7_001u32 {
                check_placed(&rt, &mut cache, n);
            }
            check_call(&rt, &mut cache, Call::Full(7_001));
            for n in 1..7_001u32 {
                let want = n.to_le_bytes();
                let is_last = n > 5_000;
                let same = match cache.get(n) {
                    Some(bytes) => is_last && bytes == want.as_slice(),
                    None => !is_last,
                };
                assert!(rt; same, "page {n}");
            }
        }
        Err(OutOfMemory) => assert!(rt; false),
    }
}
