// Transactions in batches, and marks.
mod batched;
mod whole;

use atomic_commit::PageMarks;
use std::test::Fail;

#[test]
fn a_page_is_marked_once(rt: HostRuntime) -> Result<(), Fail> {
    let mut marks = PageMarks::new(rt.alloc(), 3)?;
    marks.put(3);
    assert_eq!(rt; marks.count(), 1);
    assert!(rt; marks.has(3) && !marks.has(1) && !marks.has(2));
    Ok(())
}
