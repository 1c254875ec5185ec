use super::{Added, Recordings};
use std::alloc::Global;
use std::borrow::CowSlice;
use voice_model::Why;
use voice_units::{Graces, Lane, NoMemory, Shape};

// A shape of two lanes, with blocks of 8 bytes. One that no disk can have is answered as want of memory, which fails the test.
fn small_shape() -> Result<Shape, NoMemory> {
    let graces = Graces {
        common: 5,
        held: 5,
        until: 5,
        listed: 5,
    };
    Shape::new(1, 8, 16, 512, graces, 2, 4096).map_err(|_| NoMemory)
}

// An add that is refused is answered as want of memory, which fails the test.
fn add<'a>(
    recordings: &mut Recordings,
    shape: &Shape,
    bytes: &'a [u8],
) -> Result<CowSlice<'a, u8, Global>, NoMemory> {
    if bytes.len() > 64 {
        return Err(NoMemory);
    }
    if recordings
        .add_refused(shape, Lane(0), bytes.len() as u32, 3)
        .is_some()
    {
        return Err(NoMemory);
    }
    let Added { taking, blocks } = recordings.added(Lane(0), bytes)?;
    recordings.put(Lane(0), taking);
    Ok(blocks)
}

#[test]
fn begin_is_refused(rt: HostRuntime) -> Result<(), NoMemory> {
    let alloc = rt.alloc();
    let shape = small_shape()?;
    let mut recordings = Recordings::new(alloc, 2)?;
    assert_eq!(rt;
        recordings.begin(alloc, &shape, Lane(2), 1)?,
        Some(Why::UnknownLane(2))
    );
    assert_eq!(rt;
        recordings.begin(alloc, &shape, Lane(0), 1)?,
        Some(Why::LaneBusy(1))
    );
    assert_eq!(rt; recordings.begin(alloc, &shape, Lane(0), 0)?, None);
    assert_eq!(rt;
        recordings.begin(alloc, &shape, Lane(0), 1)?,
        Some(Why::LaneRecording)
    );
    assert!(rt; recordings.is_open(Lane(0)));
    assert!(rt; !recordings.is_open(Lane(1)));
    assert!(rt; !recordings.is_open(Lane(2)));
    Ok(())
}

#[test]
fn add_and_end(rt: HostRuntime) -> Result<(), NoMemory> {
    let alloc = rt.alloc();
    let shape = small_shape()?;
    let mut recordings = Recordings::new(alloc, 2)?;
    assert_eq!(rt;
        recordings.add_refused(&shape, Lane(0), 20, 3),
        Some(Why::NoRecording)
    );
    assert_eq!(rt; recordings.begin(alloc, &shape, Lane(0), 0)?, None);
    assert_eq!(rt;
        recordings.add_refused(&shape, Lane(0), 20, 2),
        Some(Why::NoRoom(3, 2))
    );
    let blocks = add(&mut recordings, &shape, b"ABCDEFGHIJKLMNOPQRST")?;
    assert!(rt; blocks.as_slice() == b"ABCDEFGHIJKLMNOP".as_slice());
    assert_eq!(rt; recordings.total(Lane(0)), 20);
    assert_eq!(rt; recordings.blocks_more(&shape, Lane(0), 5), 1);
    assert_eq!(rt;
        recordings.add_refused(&shape, Lane(0), u32::MAX, 3),
        Some(Why::TooLong(4_294_967_315))
    );
    assert_eq!(rt;
        recordings.end_refused(&shape, Lane(0), (1 << 48) + 1),
        Some(Why::IdsSpent)
    );
    assert_eq!(rt; recordings.end_refused(&shape, Lane(0), 1 << 48), None);
    let last = recordings.last_block(alloc, Lane(0))?;
    assert!(rt; last.as_slice() == b"QRST\0\0\0\0".as_slice());
    recordings.close(Lane(0));
    assert_eq!(rt;
        recordings.end_refused(&shape, Lane(0), 1),
        Some(Why::NoRecording)
    );
    Ok(())
}
