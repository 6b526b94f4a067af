//! Rows of the graph's edges.
use std::test::Fail;
use value_sheet::Rows;

#[test]
fn rows(rt: HostRuntime) -> Result<(), Fail> {
    let sources = vec![in rt.alloc(); 1, 0, 1, 5, 1, 0]?;
    let rows = Rows::of_sources(rt.alloc(), &sources, 2, 3)?;
    assert!(rt; rows.row(0) == [0, 2].as_slice() && rows.row(1) == [0, 1, 2].as_slice());
    assert!(rt; rows.row(2).is_empty());
    Ok(())
}
