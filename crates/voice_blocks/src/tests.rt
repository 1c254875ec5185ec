use crate::BlockMap;
use crate::owner::Owner;
use std::process::Abort;
use voice_units::{Lane, NoMemory, RopeId};

fn take(rt: &impl Abort, map: &mut BlockMap, lane: u16, n: u32) -> Result<bool, NoMemory> {
    map.reserve(n)?;
    let next = map.next_index(&Owner::Taking(Lane(lane)));
    assert!(rt; next <= 1 << 31 && n <= 1 << 31);
    Ok(map.take(Owner::Taking(Lane(lane)), n))
}

fn place(map: &mut BlockMap, file: u32, index: u32, address: u32) -> Result<bool, NoMemory> {
    map.reserve(1)?;
    Ok(map.place(RopeId(file as u64), index, address))
}

fn rename(map: &mut BlockMap, lane: u16, file: u32) -> bool {
    let next = map.next_index(&Owner::File(RopeId(file as u64)));
    if next > 0 {
        return false;
    }
    map.rename(Lane(lane), RopeId(file as u64));
    true
}

#[test]
fn the_lowest_free_addresses_are_taken(rt: HostRuntime) -> Result<(), NoMemory> {
    let mut map = BlockMap::new(rt.alloc(), 70)?;
    assert!(rt; map.free() == 70);
    assert!(rt; take(&rt, &mut map, 1, 3)?);
    assert!(rt; take(&rt, &mut map, 2, 62)?);
    map.drop_block(Owner::Taking(Lane(1)), 1);
    assert!(rt; take(&rt, &mut map, 2, 2)?);
    assert!(rt; take(&rt, &mut map, 1, 1)?);
    assert!(rt; !take(&rt, &mut map, 1, 4)?);
    assert!(rt; map.free() == 3);
    let rows = [
        (1, 0, Some(0)),
        (1, 1, None),
        (1, 2, Some(2)),
        (1, 3, Some(66)),
        (1, 4, None),
        (2, 0, Some(3)),
        (2, 61, Some(64)),
        (2, 62, Some(1)),
        (2, 63, Some(65)),
        (2, 64, None),
    ];
    for (lane, index, wanted) in rows {
        let found = map.address(Owner::Taking(Lane(lane)), index);
        assert!(rt; found == wanted, "lane {lane} index {index}");
    }
    Ok(())
}

#[test]
fn files_are_placed_dropped_and_named(rt: HostRuntime) -> Result<(), NoMemory> {
    let mut map = BlockMap::new(rt.alloc(), 4)?;
    let rows = [
        (7, 0, 2, true),
        (8, 0, 2, false),
        (7, 0, 1, false),
        (7, 1, 4, false),
        (7, 2, 0, true),
        (8, 0, 3, true),
    ];
    for (file, index, address, wanted) in rows {
        let placed = place(&mut map, file, index, address)?;
        assert!(rt; placed == wanted, "file {file} index {index}");
    }
    assert!(rt; map.free() == 1);
    map.drop_owner(Owner::File(RopeId(7)));
    assert!(rt; map.free() == 3);
    assert!(rt; map.address(Owner::File(RopeId(7)), 0).is_none());
    assert!(rt; map.address(Owner::File(RopeId(7)), 2).is_none());
    assert!(rt; map.address(Owner::File(RopeId(8)), 0) == Some(3));
    assert!(rt; take(&rt, &mut map, 1, 3)?);
    assert!(rt; map.address(Owner::Taking(Lane(1)), 2) == Some(2));
    assert!(rt; rename(&mut map, 1, 9));
    assert!(rt; map.address(Owner::Taking(Lane(1)), 2).is_none());
    assert!(rt; map.address(Owner::File(RopeId(9)), 2) == Some(2));
    assert!(rt; map.address(Owner::File(RopeId(8)), 0) == Some(3));
    assert!(rt; map.free() == 0);
    let copied = map.copy()?;
    assert!(rt; copied.address(Owner::File(RopeId(8)), 0) == Some(3));
    assert!(rt; copied.free() == 0);
    Ok(())
}
