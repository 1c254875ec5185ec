//! A legal list of 50 changes as packets, and mirrors that take them.

use crate::disks::{Sizes, disk_of};
use mirror_packets::parse;
use std::alloc::Global;
use std::test::Fail;
use voice_disk::MemDisk;
use voice_mirror::{Mirror, Taken};

/// How many packets the list has.
pub const ALL: u8 = 50;

/// With these a mirror switches its journal once on its way to the last packet.
pub const SMALL: Sizes = (8, 32, 1200);

// The body of a packet: by turns a voice file of 8 samples, a row of its rope, the row's end, and a moment.
fn body(alloc: Global, n: u8) -> Result<Vec<u8>, Fail> {
    let before = n.saturating_sub(1);
    let mut body = Vec::new(alloc);
    match n % 4 {
        1 => {
            body.extend_from_slice(&[0x20, 0, 0, 0, 0, 0, 0, 0, n])?;
            body.extend_from_slice(&[n; 8])?;
        }
        2 => body.extend_from_slice(&[3, 1, 1, n, 0, 0, 0, 0, 0, 0, 0, before, 0])?,
        3 => body.extend_from_slice(&[4, 1, 1, before])?,
        _ => body.extend_from_slice(&[7, 0, 0, 0, 0, 0, 0, 0, n])?,
    }
    Ok(body)
}

/// The bytes of packets of these numbers, in this order.
pub fn bytes_of(alloc: Global, numbers: &[u8]) -> Result<Vec<u8>, Fail> {
    let mut bytes = Vec::new(alloc);
    for n in numbers {
        let body = body(alloc, *n)?;
        let Ok(length) = u8::try_from(body.len()) else {
            return Err(Fail::from("a long body"));
        };
        bytes.extend_from_slice(&[0, 0, 0, 0, 0, 0, 0, *n, 0, 0, 0, length])?;
        bytes.extend_from_slice(&body)?;
    }
    Ok(bytes)
}

/// The numbers from 1 to one.
pub fn in_order(alloc: Global, last: u8) -> Result<Vec<u8>, Fail> {
    let mut numbers = Vec::new(alloc);
    for n in 1..=last {
        numbers.push(n)?;
    }
    Ok(numbers)
}

/// What a mirror answered to packets, its position behind them, and its disk.
#[derive(Drop)]
pub struct Served {
    pub answers: Vec<Taken>,
    pub position: u64,
    pub disk: MemDisk,
}

/// Opens the mirror of a disk, and serves it the packets of these numbers, in this order.
pub fn serve(alloc: Global, disk: MemDisk, numbers: &[u8]) -> Result<Served, Fail> {
    let bytes = bytes_of(alloc, numbers)?;
    let Ok(packets) = parse(alloc, &bytes) else {
        return Err(Fail::from("no packets"));
    };
    let mut mirror = match Mirror::open(alloc, disk) {
        Ok(mirror) => mirror,
        Err(_) => return Err(Fail::from("no mirror")),
    };
    let answers = mirror.serve(&packets);
    let position = mirror.position();
    let disk = mirror.close();
    Ok(Served {
        answers: answers?,
        position,
        disk,
    })
}

/// The disk of a mirror that has taken the first packets of the list.
pub fn grown(alloc: Global, sizes: Sizes, last: u8) -> Result<MemDisk, Fail> {
    let served = serve(alloc, disk_of(alloc, sizes, &[])?, &in_order(alloc, last)?)?;
    for answer in &served.answers {
        if *answer != Taken::Done {
            return Err(Fail::from("not taken"));
        }
    }
    Ok(served.disk)
}
