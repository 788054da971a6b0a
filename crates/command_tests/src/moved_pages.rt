// Two files of one key and one salt, as an older and a newer state of one file are. A whole page of the older one is put into the newer
// one, at its own number and at number 2.
use command_runs::served::{KEY, made, told};
use std::alloc::{AllocError, Global};
use std::test::Fail;

// The newer file with a page of this size of the older one, each numbered from 0.
fn with_page(
    alloc: Global,
    newer: &[u8],
    older: &[u8],
    size: usize,
    from: usize,
    to: usize,
) -> Result<Vec<u8>, AllocError> {
    let mut file = newer.to_vec(alloc)?;
    let new = file.iter_mut().skip(to.saturating_mul(size)).take(size);
    for (at, byte) in new.zip(older.iter().skip(from.saturating_mul(size))) {
        *at = *byte;
    }
    Ok(file)
}

#[test]
fn an_older_page_is_accepted_at_its_number_alone_where_there_are_tags(
    rt: HostRuntime,
) -> Result<(), Fail> {
    let alloc = rt.alloc();
    for (profile, size) in [("2", 1024usize), ("3", 1024), ("4", 4096)] {
        let older = made(alloc, profile, "7")?;
        let newer = made(alloc, profile, "8")?;
        let old = older.as_slice();
        let new = newer.as_slice();
        let whole = told(alloc, &["tags", profile], KEY, new)?;
        assert!(rt; whole.starts_with(b"tags hold: "), "{profile}");
        let last = (older.len() / size).saturating_sub(1);
        let back = with_page(alloc, new, old, size, last, last)?;
        assert!(rt; last > 1 && back.as_slice() != new, "{profile}");
        let kept = told(alloc, &["tags", profile], KEY, back.as_slice())?;
        assert_eq!(rt; kept.as_slice(), whole.as_slice(), "{profile}");
        let moved = with_page(alloc, new, old, size, last, 1)?;
        let refused = told(alloc, &["tags", profile], KEY, moved.as_slice())?;
        assert_eq!(rt;
            refused.as_slice(),
            b"page 2: tag refused\n".as_slice(),
            "{profile}"
        );
    }
    Ok(())
}

// What is read from such a page may be no database.
#[test]
fn no_page_of_version_1_is_refused_by_a_tag(rt: HostRuntime) -> Result<(), Fail> {
    let alloc = rt.alloc();
    let older = made(alloc, "1", "7")?;
    let newer = made(alloc, "1", "8")?;
    let last = (older.len() / 1024).saturating_sub(1);
    for to in [last, 1] {
        let file = with_page(alloc, newer.as_slice(), older.as_slice(), 1024, last, to)?;
        assert!(rt; file.as_slice() != newer.as_slice(), "{to}");
        let said = told(alloc, &["verify", "1"], KEY, file.as_slice())?;
        assert!(rt; !said.ends_with(b"refused\n") && !said.is_empty(), "{to}");
    }
    Ok(())
}
