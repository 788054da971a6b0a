// A page of which the disk reads a part.
use edge_memory::MemDisk;
use pager::read_page;
use std::test::Fail;

#[test]
fn what_a_short_read_leaves_out_is_taken_as_zeros(rt: HostRuntime) -> Result<(), Fail> {
    let mut disk = MemDisk::with_files(rt.alloc(), Some(&[1, 2, 3, 4]), None, None)?;
    let mut page = [9u8; 8];
    assert!(rt; read_page(&mut disk, 1, &mut page).is_ok());
    assert_eq!(rt; page, [1, 2, 3, 4, 0, 0, 0, 0]);
    Ok(())
}
