//! What crashes and faults leave of packets, with a switch of the journal among them.

use crate::disks::disk_of;
use crate::packets::{ALL, SMALL, grown, in_order, serve};
use std::alloc::Global;
use std::test::Fail;
use voice_disk::{MemDisk, image_of};
use voice_mirror::Taken;
use voice_outside::Disk;

// The last packet before the three that are crashed in; the journal switches among them.
const BEFORE: u8 = 44;

// The position of the image that a crash at a moment leaves, and the one that it has once all packets came again.
fn recovered(alloc: Global, disk: &MemDisk, moment: u64, choice: u16) -> Result<(u64, u64), Fail> {
    if moment > disk.calls() {
        return Err(Fail::from("no moment"));
    }
    let image = image_of(alloc, disk, moment, choice)?;
    let disk = MemDisk::of(alloc, image, Vec::new(alloc))?;
    let first = serve(alloc, disk, &[])?;
    let last = serve(alloc, first.disk, &in_order(alloc, ALL)?)?;
    Ok((first.position, last.position))
}

// A crash within packet n or behind it leaves the packets before n, and goes on to the last one.
#[test]
fn crashes_leave_what_was_taken(rt: HostRuntime) -> Result<(), Fail> {
    let mut disk = grown(rt.alloc(), SMALL, BEFORE)?;
    for n in BEFORE + 1..BEFORE + 4 {
        let from = disk.calls();
        let served = serve(rt.alloc(), disk, &[n])?;
        assert_eq!(rt; served.answers.as_slice(), [Taken::Done].as_slice());
        disk = served.disk;
        for moment in from..=disk.calls() {
            for choice in 0..3 {
                let (position, last) = recovered(rt.alloc(), &disk, moment, choice)?;
                assert!(rt; position == u64::from(n - 1) || position == u64::from(n));
                assert!(rt; moment < disk.calls() || position == u64::from(n));
                assert_eq!(rt; last, u64::from(ALL));
            }
        }
    }
    Ok(())
}

// Opening makes the calls 4 to 9, packet 1 a write of its block, of its record and a sync, and of the gate and a sync.
#[test]
fn faults_leave_the_packet_or_doubt(rt: HostRuntime) -> Result<(), Fail> {
    for (call, wanted) in [
        (10, Taken::DiskFault),
        (11, Taken::DiskFault),
        (12, Taken::DiskFault),
        (13, Taken::InDoubt),
        (14, Taken::InDoubt),
        (15, Taken::Done),
    ] {
        let disk = disk_of(rt.alloc(), SMALL, &[call])?;
        let served = serve(rt.alloc(), disk, &[1, 1])?;
        let again = if wanted == Taken::DiskFault {
            Taken::Done
        } else {
            Taken::Again
        };
        assert_eq!(rt; served.answers.as_slice(), [wanted, again].as_slice());
        assert_eq!(rt; served.position, 1);
    }
    Ok(())
}
