//! Lists that lose, repeat and reorder packets; and mirrors of several shapes.

use crate::disks::disk_of;
use crate::packets::{ALL, SMALL, grown, serve};
use std::alloc::Global;
use std::test::Fail;
use voice_disk::{MemDisk, image_of};
use voice_mirror::{Mirror, OpenError, Taken};
use voice_outside::Disk;

// The next number of a row of numbers that look drawn.
fn drawn(seed: u32) -> u32 {
    seed.wrapping_mul(1_664_525).wrapping_add(1_013_904_223)
}

// 50 numbers of packets: each is near the place where it stands, and some are lost, repeated or early.
fn network(alloc: Global, seed: u32) -> Result<Vec<u8>, Fail> {
    let mut numbers = Vec::new(alloc);
    let mut state = seed;
    for place in 0..ALL {
        state = drawn(state);
        let ahead = (state >> 24) as u8 % 4;
        let n = (place / 2 + 1).saturating_add(ahead);
        numbers.push(n.min(ALL))?;
    }
    Ok(numbers)
}

// What a mirror has to answer to a number at a position.
fn wanted(position: u8, n: u8) -> Taken {
    if n <= position {
        return Taken::Again;
    }
    if n - position > 1 {
        return Taken::Early(u64::from(position));
    }
    Taken::Done
}

// The bytes of a disk.
fn bytes_of(alloc: Global, disk: &MemDisk) -> Result<Vec<u8>, Fail> {
    Ok(image_of(alloc, disk, disk.calls(), 1)?)
}

// A mirror that served a list has just what one has that served the packets it took in order, byte for byte.
fn serves_a_list(alloc: Global, seed: u32) -> Result<bool, Fail> {
    let numbers = network(alloc, seed)?;
    let served = serve(alloc, disk_of(alloc, SMALL, &[])?, &numbers)?;
    let mut position = 0u8;
    for (n, answer) in numbers.iter().zip(served.answers.iter()) {
        if *answer != wanted(position, *n) {
            return Ok(false);
        }
        if *answer == Taken::Done {
            position = *n;
        }
    }
    if served.position != u64::from(position) {
        return Ok(false);
    }
    let other = grown(alloc, SMALL, position)?;
    let (bytes, others) = (bytes_of(alloc, &served.disk)?, bytes_of(alloc, &other)?);
    Ok(bytes.as_slice() == others.as_slice())
}

#[test]
fn lists_leave_a_front(rt: HostRuntime) -> Result<(), Fail> {
    for seed in 0..200 {
        assert!(rt; serves_a_list(rt.alloc(), seed)?);
    }
    Ok(())
}

#[test]
fn answers_come_in_their_order(rt: HostRuntime) -> Result<(), Fail> {
    let disk = disk_of(rt.alloc(), SMALL, &[])?;
    let served = serve(rt.alloc(), disk, &[1, 3, 2, 2, 3])?;
    let wanted = [
        Taken::Done,
        Taken::Early(1),
        Taken::Done,
        Taken::Again,
        Taken::Done,
    ];
    assert_eq!(rt; served.answers.as_slice(), wanted.as_slice());
    assert_eq!(rt; served.position, 3);
    Ok(())
}

// Block, blocks and area may be others than the first disk's.
#[test]
fn other_shapes_take_all(rt: HostRuntime) -> Result<(), Fail> {
    for sizes in [SMALL, (16, 13, 1300), (8, 64, 4096), (64, 20, 1200)] {
        let disk = grown(rt.alloc(), sizes, ALL)?;
        assert_eq!(rt; serve(rt.alloc(), disk, &[])?.position, u64::from(ALL));
    }
    Ok(())
}

// Each answer that leaves a packet for want of room.
#[test]
fn small_disks_refuse(rt: HostRuntime) -> Result<(), Fail> {
    for (sizes, taken, wanted) in [
        ((8, 2, 1200), 8, Taken::NoRoom(1, 0)),
        ((16, 1, 1200), 4, Taken::NoRoom(1, 0)),
        ((8, 32, 512), 20, Taken::JournalFull(528, 495)),
    ] {
        let disk = grown(rt.alloc(), sizes, taken)?;
        let served = serve(rt.alloc(), disk, &[taken + 1])?;
        assert_eq!(rt; served.answers.as_slice(), [wanted].as_slice());
        assert_eq!(rt; served.position, u64::from(taken));
    }
    Ok(())
}

// Promotes the mirror of a disk.
fn promoted(alloc: Global, disk: MemDisk) -> Result<MemDisk, Fail> {
    let Ok(mirror) = Mirror::open(alloc, disk) else {
        return Err(Fail::from("no mirror"));
    };
    match mirror.promote() {
        (Ok(()), disk) => Ok(disk),
        (Err(_), _disk) => Err(Fail::from("no voice disk")),
    }
}

// A promoted mirror is none any more.
#[test]
fn a_promoted_mirror_is_a_voice_disk(rt: HostRuntime) -> Result<(), Fail> {
    let disk = promoted(rt.alloc(), grown(rt.alloc(), SMALL, 7)?)?;
    match Mirror::open(rt.alloc(), disk) {
        Ok(mirror) => {
            let _disk = mirror.close();
            Err(Fail::from("a mirror still"))
        }
        Err((e, _disk)) => {
            assert!(rt; matches!(e, OpenError::BadDisk(_)));
            Ok(())
        }
    }
}
