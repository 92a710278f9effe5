//! A count from its beginning.

use event_counts::Count;
use std::test::Fail;

#[test]
fn a_count_rises_by_one_for_each_event(rt: HostRuntime) -> Result<(), Fail> {
    let mut count = Count::new();
    assert_eq!(rt; count.number(), 0);
    count.add_one();
    count.add_one();
    assert_eq!(rt; count.number(), 2);
    Ok(())
}
