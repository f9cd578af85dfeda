//! Worked examples of items in boxes and of edges that come near one another.

use crate::parts::{numbers, point};
use crate::two_edges;
use arc_map::EdgeRef;
use std::test::*;
use sweep_index::{EdgeIndex, EdgeSlabs, Index, Item, Owner};

#[test]
fn items_stand_in_boxes(rt: HostRuntime) -> Result<(), Fail> {
    let items = [
        Item {
            at: point(3, 0)?,
            owner: Owner::Town,
        },
        Item {
            at: point(1, 5)?,
            owner: Owner::Chain(0),
        },
        Item {
            at: point(1, 2)?,
            owner: Owner::Chain(1),
        },
    ];
    let Ok(mut index) = Index::build(rt.alloc(), items.to_vec(rt.alloc())?) else {
        return Err(Fail::from("memory"));
    };
    let all = numbers(rt.alloc(), index.in_box(point(1, 0)?, point(3, 5)?))?;
    assert!(rt; all.as_slice() == [0, 1, 2].as_slice());
    let low = numbers(rt.alloc(), index.in_box(point(1, 0)?, point(3, 2)?))?;
    assert!(rt; low.as_slice() == [0, 2].as_slice());
    index.drop_item(2);
    let left = numbers(rt.alloc(), index.in_box(point(1, 0)?, point(3, 2)?))?;
    assert!(rt; left.as_slice() == [0].as_slice());
    Ok(())
}

#[test]
fn boxes_that_touch_meet(rt: HostRuntime) -> Result<(), Fail> {
    let first = EdgeRef { arc: 0, at: 0 };
    let second = EdgeRef { arc: 1, at: 0 };
    let (a, b, c) = (point(0, 0)?, point(4, 2)?, point(6, 9)?);
    assert!(rt; a != b);
    assert!(rt; c != b);
    let map = two_edges(rt.alloc(), a, b, c, b, point(2, 2)?)?;
    let Ok(index) = EdgeIndex::build(rt.alloc(), &map) else {
        return Err(Fail::from("memory"));
    };
    let mut pairs = index.pairs();
    assert!(rt; pairs.next() == Some((first, second)));
    assert!(rt; pairs.next() == None);
    let mut towns = index.towns();
    assert!(rt; towns.next() == Some((0, first)));
    assert!(rt; towns.next() == None);
    let Ok(slabs) = EdgeSlabs::build(rt.alloc(), &map) else {
        return Err(Fail::from("memory"));
    };
    let mut both = slabs.at_x(b.x());
    assert!(rt; both.next().is_some());
    assert!(rt; both.next().is_some());
    assert!(rt; both.next() == None);
    let mut last = slabs.at_x(c.x());
    assert!(rt; last.next() == Some(second));
    assert!(rt; last.next() == None);
    Ok(())
}
