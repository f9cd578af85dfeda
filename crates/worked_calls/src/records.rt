//! Records of a run, and a map at work.

use arc_map::{ArcMap, EndTable, RunRecords, WorkMap};
use grid_exact::Point;
use std::test::Fail;

#[test]
fn records_come_back_in_order(rt: HostRuntime) -> Result<(), Fail> {
    let alloc = rt.alloc();
    let mut records = RunRecords::with_room(alloc, 2, 5, 7)?;
    records.push(3, 0, &[0, 2, 3], &[2, 1, 1, 0]);
    records.push(5, 7, &[0, 2], &[1, 1, 0]);
    assert_eq!(rt; records.count(), 2);
    let second = records.get(1);
    assert_eq!(rt; (second.arc, second.from), (5, 7));
    assert_eq!(rt; second.kept, [0, 2].as_slice());
    assert_eq!(rt; second.layers, [1, 1, 0].as_slice());
    Ok(())
}

#[test]
fn an_empty_map_is_put_to_work(rt: HostRuntime) -> Result<(), Fail> {
    let alloc = rt.alloc();
    let map = ArcMap::new(Vec::new(alloc), Vec::new(alloc), Vec::new(alloc), false);
    let work = WorkMap::new(alloc, map, Vec::new(alloc))?;
    let table = EndTable::build(alloc, &work)?;
    assert!(rt; table.chains_at(Point::origin()).is_empty());
    assert_eq!(rt; work.chain_count(), 0);
    assert_eq!(rt; work.finish().arc_count(), 0);
    Ok(())
}
