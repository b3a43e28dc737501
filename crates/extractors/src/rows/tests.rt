//! Codes filed under three keys.
use crate::rows::Rows;
use std::test::Fail;

#[test]
fn three_keys(rt: HostRuntime) -> Result<(), Fail> {
    let mut rows = Rows::new(rt.alloc(), 3)?;
    assert_eq!(rt; rows.len(), 3);
    rows.file(2, 7)?;
    rows.file(0, 4)?;
    rows.file(2, 5)?;
    assert_eq!(rt; rows.row(0), [4].as_slice());
    assert!(rt; rows.row(1).is_empty());
    assert_eq!(rt; rows.row(2), [7, 5].as_slice());
    Ok(())
}
