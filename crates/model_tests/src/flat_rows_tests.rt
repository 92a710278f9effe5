//! Rows, put in and given back.
use flat_rows::Rows;
use std::alloc::{AllocError, Global};
use std::test::Fail;

// Whether three rows come back as they were pushed.
fn come_back(alloc: Global) -> Result<bool, AllocError> {
    let mut rows = Rows::new(alloc);
    let first = rows.is_empty();
    rows.push([3u32, 1].as_slice())?;
    rows.push([].as_slice())?;
    rows.push([7].as_slice())?;
    Ok(
        first
            && rows.len() == 3
            && rows.item_count() == 3
            && rows.row(0) == [3, 1].as_slice()
            && rows.row(1).is_empty()
            && rows.row(2) == [7].as_slice(),
    )
}

#[test]
fn rows_come_back_as_pushed(rt: HostRuntime) -> Result<(), Fail> {
    assert!(rt; come_back(rt.alloc())?);
    Ok(())
}

// Whether two rows that are appended to one stand behind it.
fn stand_behind(rows: &mut Rows<u32>, more: &mut Rows<u32>) -> Result<bool, AllocError> {
    rows.push([3u32, 1].as_slice())?;
    more.push([].as_slice())?;
    more.push([7].as_slice())?;
    rows.append(more)?;
    Ok(
        rows.len() == 3
            && rows.row(1).is_empty()
            && rows.row(2) == [7].as_slice()
            && rows.items() == [3, 1, 7].as_slice(),
    )
}

fn appended(alloc: Global) -> Result<bool, AllocError> {
    let mut rows = Rows::new(alloc);
    let mut more = Rows::new(alloc);
    stand_behind(&mut rows, &mut more)
}

#[test]
fn appended_rows_stand_behind_the_others(rt: HostRuntime) -> Result<(), Fail> {
    assert!(rt; appended(rt.alloc())?);
    Ok(())
}
