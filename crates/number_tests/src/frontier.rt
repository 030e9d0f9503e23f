//! The order of a few pairs.

use open_list::OpenList;
use std::test::Fail;

// What has this bound may move to another thread.
fn movable<T: Send>(value: T) -> T {
    value
}

#[test]
#[tactic(auto, using(open_list::proofs::Pairs::members))]
fn pairs_in_order(rt: HostRuntime) -> Result<(), Fail> {
    let mut open = movable(OpenList::new(rt.alloc()));
    assert_eq!(rt; open.least(), None);
    open.push(5, 0)?;
    open.push(2, 1)?;
    open.push(2, 2)?;
    assert_eq!(rt; open.least(), Some((2, 1)));
    assert_eq!(rt; open.remove(2, 0), false);
    assert_eq!(rt; open.remove(2, 1), true);
    assert_eq!(rt; open.remove(2, 1), false);
    assert_eq!(rt; open.least(), Some((2, 2)));
    assert_eq!(rt; open.remove(2, 2), true);
    assert_eq!(rt; open.least(), Some((5, 0)));
    assert_eq!(rt; open.remove(5, 0), true);
    assert_eq!(rt; open.least(), None);
    Ok(())
}
