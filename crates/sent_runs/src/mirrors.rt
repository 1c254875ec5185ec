//! Packets that a mirror takes, in any order, over a device that fails, and as a crash leaves it.

use crate::runs::{
    ONE, THREE, TWO, fed, fed_rows, parts_of, refused, rows_sent, small_disk, taken_and, voices,
};
use std::alloc::Global;
use std::process::Abort;
use std::sync::Wait;
use std::test::Fail;
use std::thread::Threads;
use voice_disk::{MemDisk, image_of};
use voice_main::Status;
use voice_outside::Disk;

// Parts of a file of packets, and what a mirror prints that takes them.
type Fed = (&'static [(usize, usize)], &'static [u8]);

const FED: &[Fed] = &[
    (
        &[ONE, TWO, THREE],
        b"packet 1 taken\npacket 2 taken\npacket 3 taken\nposition 3\n",
    ),
    (
        &[ONE, THREE, TWO, TWO, THREE],
        b"packet 1 taken\npacket 3 early 1\npacket 2 taken\npacket 2 again\npacket 3 taken\nposition 3\n",
    ),
    (
        &[ONE, TWO, ONE, TWO],
        b"packet 1 taken\npacket 2 taken\npacket 1 again\npacket 2 again\nposition 2\n",
    ),
    (
        &[THREE, TWO, ONE],
        b"packet 3 early 0\npacket 2 early 0\npacket 1 taken\nposition 1\n",
    ),
    (&[THREE], b"packet 3 early 0\nposition 0\n"),
    (&[], b"position 0\n"),
];

#[test]
fn packets_are_taken_in_order(rt: HostRuntime) -> Result<(), Fail> {
    let packets = rows_sent(&rt, rt.alloc())?;
    assert_eq!(rt; packets.len(), 82);
    for &(parts, wanted) in FED {
        let file = parts_of(rt.alloc(), &packets, parts)?;
        let disk = small_disk(rt.alloc(), 2, &[])?;
        let _disk = fed(&rt, rt.alloc(), &file, disk, wanted)?;
    }
    Ok(())
}

// What a mirror takes in each of some runs, one after another.
const RUNS: &[Fed] = &[
    (
        &[ONE, THREE],
        b"packet 1 taken\npacket 3 early 1\nposition 1\n",
    ),
    (&[], b"position 1\n"),
    (
        &[THREE, TWO],
        b"packet 3 early 1\npacket 2 taken\nposition 2\n",
    ),
    (
        &[ONE, TWO, THREE],
        b"packet 1 again\npacket 2 again\npacket 3 taken\nposition 3\n",
    ),
    (&[THREE], b"packet 3 again\nposition 3\n"),
];

#[test]
fn a_later_run_goes_on_at_the_position(rt: HostRuntime) -> Result<(), Fail> {
    let packets = rows_sent(&rt, rt.alloc())?;
    let mut disk = small_disk(rt.alloc(), 2, &[])?;
    for &(parts, wanted) in RUNS {
        let file = parts_of(rt.alloc(), &packets, parts)?;
        disk = fed(&rt, rt.alloc(), &file, disk, wanted)?;
    }
    Ok(())
}

// How many calls formatting, opening and packet 1 make: 9, at most 3 for its blocks, and 4 for its record.
fn calls_of_one<R: Threads + Wait + Sync + Abort>(rt: &R, alloc: Global) -> Result<u64, Fail> {
    let ran = fed_rows(rt, alloc, &[ONE], &[])?;
    Ok(ran.disk.calls())
}

// The calls of formatting are 1 to 3, and those of opening 4 to 9.
const OPENED: u64 = 9;

// What a run prints where the change of packet 1 is not done, and where it is in doubt.
type Texts = (&'static [u8], &'static [u8]);

// What the run prints in which one call fails: behind the opening, the last two calls of packet 1 are those of its gate.
fn with_fault(call: u64, last: u64, (before, doubt): Texts) -> (Status, &'static [u8]) {
    if call <= OPENED {
        return (Status::DiskFault, b"");
    }
    if last.saturating_sub(call) < 2 {
        return (Status::Done, doubt);
    }
    (Status::Done, before)
}

// Packet 1 alone.
const ALONE: Texts = (
    b"packet 1 disk-fault\nposition 0\n",
    b"packet 1 in-doubt\nposition 0\n",
);

// Packet 1 twice in one run.
const TWICE: Texts = (
    b"packet 1 disk-fault\npacket 1 taken\nposition 1\n",
    b"packet 1 in-doubt\npacket 1 again\nposition 1\n",
);

// Asserts how a run ends in which one call fails, and gives the disk then.
fn assert_faulty<R: Threads + Wait + Sync + Abort>(
    rt: &R,
    alloc: Global,
    parts: &[(usize, usize)],
    call: u64,
    (status, text): (Status, &[u8]),
) -> Result<MemDisk, Fail> {
    let ran = fed_rows(rt, alloc, parts, &[call])?;
    assert_eq!(rt; ran.status, status, "call {call}");
    assert_eq!(rt; ran.text.as_slice(), text, "call {call}");
    Ok(ran.disk)
}

// A write that fails changes no byte of a disk in memory; after the gate's sync fails its byte is there.
#[test]
fn after_any_fault_packet_1_may_be_fed_again(rt: HostRuntime) -> Result<(), Fail> {
    let last = calls_of_one(&rt, rt.alloc())?;
    assert!(rt; last >= 14 && last <= 16);
    let packets = rows_sent(&rt, rt.alloc())?;
    let file = parts_of(rt.alloc(), &packets, &[ONE])?;
    for call in 4..=last {
        let wanted = with_fault(call, last, ALONE);
        let disk = assert_faulty(&rt, rt.alloc(), &[ONE], call, wanted)?;
        let after: &[u8] = if call < last {
            b"packet 1 taken\nposition 1\n"
        } else {
            b"packet 1 again\nposition 1\n"
        };
        let _disk = fed(&rt, rt.alloc(), &file, disk, after)?;
    }
    Ok(())
}

#[test]
fn what_is_in_doubt_lands_before_the_next_packet(rt: HostRuntime) -> Result<(), Fail> {
    let last = calls_of_one(&rt, rt.alloc())?;
    for call in 4..=last {
        let wanted = with_fault(call, last, TWICE);
        let _disk = assert_faulty(&rt, rt.alloc(), &[ONE, ONE], call, wanted)?;
    }
    Ok(())
}

// The landing writes the gate and syncs.
#[test]
fn a_landing_that_fails_is_a_fault(rt: HostRuntime) -> Result<(), Fail> {
    let last = calls_of_one(&rt, rt.alloc())?;
    let packets = rows_sent(&rt, rt.alloc())?;
    for more in [1, 2] {
        let fails = [last, last.saturating_add(more)];
        let ran = fed_rows(&rt, rt.alloc(), &[ONE, TWO, TWO], &fails)?;
        assert_eq!(rt; ran.status, Status::Done);
        assert_eq!(rt;
            ran.text.as_slice(),
            b"packet 1 in-doubt\npacket 2 disk-fault\npacket 2 taken\nposition 2\n".as_slice()
        );
        let wanted = b"packet 1 again\npacket 2 again\npacket 3 taken\nposition 3\n";
        let _disk = fed(&rt, rt.alloc(), &packets, ran.disk, wanted)?;
    }
    Ok(())
}

// What may stand in place of bytes that aren't settled: what was there, what was written, and another byte.
const CHOICES: [u16; 3] = [0, 1, 7];

// The disk that a crash leaves at a moment, with a choice of what isn't settled.
fn left_by(alloc: Global, disk: &MemDisk, moment: u64, choice: u16) -> Result<MemDisk, Fail> {
    if moment > disk.calls() {
        return Err(Fail::from("no such moment"));
    }
    let bytes = image_of(alloc, disk, moment, choice)?;
    Ok(MemDisk::of(alloc, bytes, Vec::new(alloc))?)
}

// Whether packet 1 is there at a moment, with a choice: it was acknowledged at its last call, and only the byte that the call before writes opens its gate.
fn is_there(last: u64, moment: u64, choice: u16) -> bool {
    moment >= last || choice == 1 && last.saturating_sub(moment) <= 2
}

// Asserts what all packets come to behind a crash at a moment.
fn assert_left<R: Threads + Wait + Sync + Abort>(
    rt: &R,
    alloc: Global,
    disk: &MemDisk,
    packets: &[u8],
    (moment, choice): (u64, u16),
) -> Result<(), Fail> {
    let wanted: &[u8] = if is_there(disk.calls(), moment, choice) {
        b"packet 1 again\npacket 2 taken\npacket 3 taken\nposition 3\n"
    } else {
        b"packet 1 taken\npacket 2 taken\npacket 3 taken\nposition 3\n"
    };
    let left = left_by(alloc, disk, moment, choice)?;
    let _disk = fed(rt, alloc, packets, left, wanted)?;
    Ok(())
}

#[test]
fn a_crash_leaves_a_mirror_with_a_packet_or_without_it(rt: HostRuntime) -> Result<(), Fail> {
    let packets = rows_sent(&rt, rt.alloc())?;
    let ran = fed_rows(&rt, rt.alloc(), &[ONE], &[])?;
    for moment in OPENED..=ran.disk.calls() {
        for choice in CHOICES {
            assert_left(&rt, rt.alloc(), &ran.disk, &packets, (moment, choice))?;
        }
    }
    Ok(())
}

// A numbered base takes 30 bytes, 26 and 8 for each file of one block, and 49 for each rope of one piece; an area of 512 has room for 495.
#[test]
fn a_small_journal_gets_full(rt: HostRuntime) -> Result<(), Fail> {
    let packets = voices(rt.alloc(), 6)?;
    let disk = small_disk(rt.alloc(), 2, &[])?;
    let wanted = taken_and(
        rt.alloc(),
        1,
        5,
        b"packet 6 journal-full 528 495\nposition 5\n",
    )?;
    let disk = fed(&rt, rt.alloc(), &packets, disk, &wanted)?;
    // without a change, a mirror is a voice disk as well; with one it is none
    let script = b"1 length 1\n";
    let files = [(b"s".as_slice(), script.as_slice())];
    let _disk = refused(
        &rt,
        rt.alloc(),
        &["run", "s"],
        &files,
        disk,
        Status::BadDisk(80),
    )?;
    Ok(())
}

// The packets of advances to the moments from 1 to 60: each record takes 22 bytes, of 495, so the journal switches twice, and its base takes 30.
#[test]
fn a_journal_switches_as_often_as_it_has_to(rt: HostRuntime) -> Result<(), Fail> {
    let mut packets = Vec::new(rt.alloc());
    for n in 1..=60 {
        packets.extend_from_slice(&[
            0, 0, 0, 0, 0, 0, 0, n, 0, 0, 0, 9, 7, 0, 0, 0, 0, 0, 0, 0, n,
        ])?;
    }
    let wanted = taken_and(rt.alloc(), 1, 60, b"position 60\n")?;
    let disk = small_disk(rt.alloc(), 2, &[])?;
    let disk = fed(&rt, rt.alloc(), &packets, disk, &wanted)?;
    let _disk = fed(&rt, rt.alloc(), b"", disk, b"position 60\n")?;
    Ok(())
}
