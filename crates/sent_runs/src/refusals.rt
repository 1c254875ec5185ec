//! What the words of a mirror refuse.

use crate::runs::{
    ONE, TWO, fed, parts_of, promoted, refused, rows_sent, run_on, run_with, scripted, shelf_with,
    small_disk, voices,
};
use disk_uses::steps::{bytes_of, disk_of, part};
use std::alloc::Global;
use std::process::Abort;
use std::sync::Wait;
use std::test::Fail;
use std::thread::Threads;
use voice_disk::MemDisk;
use voice_main::Status;
use voice_outside::Disk;
use voice_units::Name;

// Words that are in no form.
const NO_FORMS: &[&[&str]] = &[
    &["mirror"],
    &["mirror", ""],
    &["mirror", "-p"],
    &["mirror", "p", "p"],
    &["mirrors", "p"],
    &["Mirror", "p"],
    &["promote", "p"],
    &["promote", ""],
    &["promoted"],
    &["--promote"],
];

#[test]
fn other_words_are_refused(rt: HostRuntime) -> Result<(), Fail> {
    for &words in NO_FORMS {
        let disk = small_disk(rt.alloc(), 2, &[])?;
        let files = [(b"p".as_slice(), b"".as_slice())];
        let disk = refused(&rt, rt.alloc(), words, &files, disk, Status::Usage)?;
        assert_eq!(rt; disk.calls(), 3);
    }
    Ok(())
}

// A file, and the place of its first packet that is not good.
const BAD_FILES: &[(&[u8], u64)] = &[
    (&[0], 0),
    (&[0, 0, 0, 0, 0, 0, 0, 1, 0, 0, 0], 0),
    (&[0, 0, 0, 0, 0, 0, 0, 1, 0, 0, 0, 0], 0),
    (&[0, 0, 0, 0, 0, 0, 0, 0, 0, 0, 0, 4, 4, 1, 1, b'k'], 0),
    (&[0, 1, 0, 0, 0, 0, 0, 1, 0, 0, 0, 4, 4, 1, 1, b'k'], 0),
    (&[0, 0, 0, 0, 0, 0, 0, 1, 0, 0, 0, 4, 4, 4, 1, b'k'], 0),
    (&[0, 0, 0, 0, 0, 0, 0, 1, 0, 0, 0, 4, 4, 1, 1, b'k', 0], 16),
    // a moment 0, a kind of a base, a kind of the journal that records a file, and a voice file of the number 0
    (
        &[
            0, 0, 0, 0, 0, 0, 0, 1, 0, 0, 0, 9, 7, 0, 0, 0, 0, 0, 0, 0, 0,
        ],
        0,
    ),
    (
        &[
            0, 0, 0, 0, 0, 0, 0, 1, 0, 0, 0, 17, 12, 0, 0, 0, 0, 0, 0, 0, 0, 0, 0, 0, 0, 0, 0, 0, 1,
        ],
        0,
    ),
    (
        &[
            0, 0, 0, 0, 0, 0, 0, 1, 0, 0, 0, 17, 11, 0, 0, 0, 0, 0, 0, 0, 1, 0, 0, 0, 0, 0, 0, 0, 0,
        ],
        0,
    ),
    (
        &[
            0, 0, 0, 0, 0, 0, 0, 1, 0, 0, 0, 9, 0x20, 0, 0, 0, 0, 0, 0, 0, 0,
        ],
        0,
    ),
];

#[test]
fn bad_packets_are_refused_before_the_disk_is_touched(rt: HostRuntime) -> Result<(), Fail> {
    for &(bytes, place) in BAD_FILES {
        let disk = small_disk(rt.alloc(), 2, &[])?;
        let files = [(b"p".as_slice(), bytes)];
        let disk = refused(
            &rt,
            rt.alloc(),
            &["mirror", "p"],
            &files,
            disk,
            Status::BadPackets(place),
        )?;
        assert_eq!(rt; disk.calls(), 3);
    }
    Ok(())
}

// The place of the packet in which the file is cut, or none where it ends with a packet.
fn cut_in(length: usize) -> Option<u64> {
    match length {
        0 | 41 | 66 | 82 => None,
        1..=40 => Some(0),
        42..=65 => Some(41),
        _ => Some(66),
    }
}

#[test]
fn a_cut_file_is_refused_at_its_last_packet(rt: HostRuntime) -> Result<(), Fail> {
    let packets = rows_sent(&rt, rt.alloc())?;
    for length in 0..=82 {
        let Some(place) = cut_in(length) else {
            continue;
        };
        let disk = small_disk(rt.alloc(), 2, &[])?;
        let files = [(b"p".as_slice(), part(&packets, 0, length))];
        let disk = refused(
            &rt,
            rt.alloc(),
            &["mirror", "p"],
            &files,
            disk,
            Status::BadPackets(place),
        )?;
        assert_eq!(rt; disk.calls(), 3);
    }
    Ok(())
}

#[test]
fn a_file_that_is_absent_is_told(rt: HostRuntime) -> Result<(), Fail> {
    let disk = small_disk(rt.alloc(), 2, &[])?;
    let files = [(b"p".as_slice(), b"".as_slice())];
    let disk = refused(
        &rt,
        rt.alloc(),
        &["mirror", "q"],
        &files,
        disk,
        Status::NoFile(Name::new(b"q")?),
    )?;
    assert_eq!(rt; disk.calls(), 3);
    Ok(())
}

#[test]
fn a_shelf_that_fails_leaves_the_disk(rt: HostRuntime) -> Result<(), Fail> {
    let packets = rows_sent(&rt, rt.alloc())?;
    let files = [(b"p".as_slice(), packets.as_slice())];
    let mut shelf = shelf_with(rt.alloc(), &files, &[1])?;
    let disk = small_disk(rt.alloc(), 2, &[])?;
    let ran = run_on(&rt, rt.alloc(), &["mirror", "p"], &mut shelf, &[], disk)?;
    assert_eq!(rt; ran.status, Status::ShelfFault);
    assert_eq!(rt; ran.text.len(), 0);
    assert_eq!(rt; ran.disk.calls(), 3);
    Ok(())
}

// A promotion reads no file, and prints nothing.
#[test]
fn a_promotion_needs_no_shelf_and_no_sink(rt: HostRuntime) -> Result<(), Fail> {
    let mut shelf = shelf_with(rt.alloc(), &[], &[1])?;
    let disk = small_disk(rt.alloc(), 2, &[])?;
    let ran = run_on(&rt, rt.alloc(), &["promote"], &mut shelf, &[1], disk)?;
    assert_eq!(rt; ran.status, Status::Done);
    assert_eq!(rt; ran.text.len(), 0);
    Ok(())
}

#[test]
fn what_was_taken_stands_where_the_sink_fails(rt: HostRuntime) -> Result<(), Fail> {
    let packets = rows_sent(&rt, rt.alloc())?;
    let files = [(b"p".as_slice(), packets.as_slice())];
    let mut shelf = shelf_with(rt.alloc(), &files, &[])?;
    let disk = small_disk(rt.alloc(), 2, &[])?;
    let ran = run_on(&rt, rt.alloc(), &["mirror", "p"], &mut shelf, &[1], disk)?;
    assert_eq!(rt; ran.status, Status::SinkFault);
    assert_eq!(rt; ran.text.len(), 0);
    let wanted = b"packet 1 again\npacket 2 again\npacket 3 again\nposition 3\n";
    let _disk = fed(&rt, rt.alloc(), &packets, ran.disk, wanted)?;
    Ok(())
}

// Packets of number 1 that may not follow on an empty mirror: a row that isn't there goes, a row of a rope that isn't there, a piece of a file that isn't there, a key and a rope that aren't there go.
const STRANGE: &[&[u8]] = &[
    &[0, 0, 0, 0, 0, 0, 0, 1, 0, 0, 0, 4, 4, 1, 1, b'k'],
    &[
        0, 0, 0, 0, 0, 0, 0, 1, 0, 0, 0, 13, 3, 1, 1, b'k', 0, 0, 0, 0, 0, 0, 0, 1, 0,
    ],
    &[
        0, 0, 0, 0, 0, 0, 0, 1, 0, 0, 0, 27, 2, 0, 0, 0, 0, 0, 0, 0, 2, 0, 1, 0, 0, 0, 0, 0, 0, 0,
        1, 0, 0, 0, 0, 0, 0, 0, 5,
    ],
    &[0, 0, 0, 0, 0, 0, 0, 1, 0, 0, 0, 5, 5, 0, 1, 1, b'k'],
    &[
        0, 0, 0, 0, 0, 0, 0, 1, 0, 0, 0, 11, 6, 0, 1, 0, 0, 0, 0, 0, 0, 0, 1,
    ],
];

// Nothing is written, and another packet of the number may be taken.
#[test]
fn a_change_that_may_not_follow_is_strange(rt: HostRuntime) -> Result<(), Fail> {
    let packets = rows_sent(&rt, rt.alloc())?;
    let one = parts_of(rt.alloc(), &packets, &[ONE])?;
    for &strange in STRANGE {
        let disk = small_disk(rt.alloc(), 2, &[])?;
        let before = bytes_of(rt.alloc(), &disk)?;
        let wanted = b"packet 1 strange\nposition 0\n";
        let disk = fed(&rt, rt.alloc(), strange, disk, wanted)?;
        assert!(rt; bytes_of(rt.alloc(), &disk)?.as_slice() == before.as_slice());
        let mut both = strange.to_vec(rt.alloc())?;
        both.extend_from_slice(&one)?;
        let wanted = b"packet 1 strange\npacket 1 taken\nposition 1\n";
        let _disk = fed(&rt, rt.alloc(), &both, disk, wanted)?;
    }
    Ok(())
}

// Packets of number 2 that may not follow packet 1: its voice file again, and a row of a rope that isn't there yet.
const STRANGE_LATER: &[&[u8]] = &[
    &[
        0, 0, 0, 0, 0, 0, 0, 2, 0, 0, 0, 10, 0x20, 0, 0, 0, 0, 0, 0, 0, 1, b'A',
    ],
    &[
        0, 0, 0, 0, 0, 0, 0, 2, 0, 0, 0, 13, 3, 1, 1, b'k', 0, 0, 0, 0, 0, 0, 0, 2, 0,
    ],
];

#[test]
fn a_voice_file_comes_once(rt: HostRuntime) -> Result<(), Fail> {
    let packets = rows_sent(&rt, rt.alloc())?;
    for &strange in STRANGE_LATER {
        let mut file = parts_of(rt.alloc(), &packets, &[ONE])?;
        file.extend_from_slice(strange)?;
        file.extend_from_slice(&parts_of(rt.alloc(), &packets, &[TWO])?)?;
        let disk = small_disk(rt.alloc(), 2, &[])?;
        let wanted = b"packet 1 taken\npacket 2 strange\npacket 2 taken\nposition 2\n";
        let _disk = fed(&rt, rt.alloc(), &file, disk, wanted)?;
    }
    Ok(())
}

// Samples of a voice file, and what comes of it over 16 blocks of 8, of which so many are in use.
const ROOMS: &[(u8, u8, &[u8])] = &[
    (0, 128, b"packet 1 taken\nposition 1\n"),
    (0, 129, b"packet 1 no-room 17 16\nposition 0\n"),
    (2, 112, b"packet 3 taken\nposition 3\n"),
    (2, 113, b"packet 3 no-room 15 14\nposition 2\n"),
];

#[test]
fn a_voice_file_needs_its_blocks(rt: HostRuntime) -> Result<(), Fail> {
    for &(used, samples, wanted) in ROOMS {
        let disk = small_disk(rt.alloc(), 2, &[])?;
        let first = voices(rt.alloc(), used)?;
        let ran = run_with(
            &rt,
            rt.alloc(),
            &["mirror", "p"],
            &[(b"p".as_slice(), first.as_slice())],
            disk,
        )?;
        let next = used.saturating_add(1);
        let length = samples.saturating_add(9);
        let mut file = Vec::new(rt.alloc());
        file.extend_from_slice(&[
            0, 0, 0, 0, 0, 0, 0, next, 0, 0, 0, length, 0x20, 0, 0, 0, 0, 0, 0, 0, 99,
        ])?;
        let voice = vec![in rt.alloc(); 7u8; usize::from(samples)]?;
        file.extend_from_slice(&voice)?;
        let _disk = fed(&rt, rt.alloc(), &file, ran.disk, wanted)?;
    }
    Ok(())
}

// Asserts that neither word of a mirror takes a disk.
fn assert_no_mirror<R: Threads + Wait + Sync + Abort>(
    rt: &R,
    alloc: Global,
    disk: MemDisk,
    place: u64,
) -> Result<(), Fail> {
    let packets = rows_sent(rt, alloc)?;
    let before = bytes_of(alloc, &disk)?;
    let files = [(b"p".as_slice(), packets.as_slice())];
    let disk = refused(
        rt,
        alloc,
        &["mirror", "p"],
        &files,
        disk,
        Status::BadDisk(place),
    )?;
    let disk = refused(rt, alloc, &["promote"], &[], disk, Status::BadDisk(place))?;
    assert!(rt; bytes_of(alloc, &disk)?.as_slice() == before.as_slice());
    Ok(())
}

// Not formatted, of version 1, with a change that has no number, and promoted: the base stands in the second area, from byte 592 on.
#[test]
fn other_disks_are_no_mirrors(rt: HostRuntime) -> Result<(), Fail> {
    let disk = disk_of(rt.alloc(), 0x55, &[])?;
    assert_no_mirror(&rt, rt.alloc(), disk, 0)?;
    let disk = small_disk(rt.alloc(), 1, &[])?;
    assert_no_mirror(&rt, rt.alloc(), disk, 8)?;
    let disk = small_disk(rt.alloc(), 2, &[])?;
    let disk = scripted(
        &rt,
        rt.alloc(),
        b"1 advance 5\n",
        disk,
        b"1 1 advance: done\n",
    )?;
    assert_no_mirror(&rt, rt.alloc(), disk, 80)?;
    let disk = small_disk(rt.alloc(), 2, &[])?;
    let disk = promoted(&rt, rt.alloc(), disk)?;
    assert_no_mirror(&rt, rt.alloc(), disk, 592)
}
