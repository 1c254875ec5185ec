//! Mirrors whose disks are made voice disks, and what is done with them then.

use crate::runs::{
    F20, ONE, THREE, TWO, fed, fed_rows, file_of, printed, promoted, refused, rows_sent, run_on,
    scripted, sent, shelf_with, small_disk, taken_and, voices,
};
use disk_uses::steps::bytes_of;
use std::alloc::Global;
use std::process::Abort;
use std::sync::Wait;
use std::test::Fail;
use std::thread::Threads;
use voice_disk::MemDisk;
use voice_main::Status;
use voice_outside::Disk;

// The disk of a mirror that took these parts of the packets of `ROWS`.
fn mirrored<R: Threads + Wait + Sync + Abort>(
    rt: &R,
    alloc: Global,
    parts: &[(usize, usize)],
) -> Result<MemDisk, Fail> {
    let ran = fed_rows(rt, alloc, parts, &[])?;
    Ok(ran.disk)
}

const LENGTH: &[u8] = b"1 length 1\n";

#[test]
fn a_mirror_is_no_voice_disk_before_it_is_promoted(rt: HostRuntime) -> Result<(), Fail> {
    let disk = mirrored(&rt, rt.alloc(), &[ONE, THREE, TWO, TWO, THREE])?;
    let files = [(b"s".as_slice(), LENGTH)];
    let disk = refused(
        &rt,
        rt.alloc(),
        &["run", "s"],
        &files,
        disk,
        Status::BadDisk(80),
    )?;
    let disk = refused(&rt, rt.alloc(), &["audit"], &[], disk, Status::BadDisk(80))?;
    let disk = promoted(&rt, rt.alloc(), disk)?;
    let wanted = b"1 1 length: number 20\n";
    let disk = scripted(&rt, rt.alloc(), LENGTH, disk, wanted)?;
    let files = [(b"p".as_slice(), b"".as_slice())];
    let _disk = refused(
        &rt,
        rt.alloc(),
        &["mirror", "p"],
        &files,
        disk,
        Status::BadDisk(592),
    )?;
    Ok(())
}

// The base of a mirror without a change takes 22 bytes of 495.
#[test]
fn a_mirror_without_a_change_is_promoted_too(rt: HostRuntime) -> Result<(), Fail> {
    let disk = mirrored(&rt, rt.alloc(), &[])?;
    let disk = promoted(&rt, rt.alloc(), disk)?;
    let wanted =
        b"version 2 form 2 block 8 blocks 16 area 512 graces 60 60 60 60 lanes 4\njournal epoch 2 left 473\nnow 0 next 1\nblocks used 0 shared 0 free 16\n";
    let _disk = printed(&rt, rt.alloc(), &["audit"], &[], disk, wanted)?;
    Ok(())
}

// What a script does over a promoted mirror that has packets 1 and 2, and what it prints.
const WORK: &[u8] =
    b"1 a = record f20\n1 b = sub a 0 8\n1 c = concat 1 b\n1 retain held late c 6869\n";

const WORKED: &[u8] =
    b"1 1 record: rope 2 length 20\n2 1 sub: rope 3 length 8\n3 1 concat: rope 4 length 28\n4 1 retain: done\n";

// The base takes 22 bytes, 42 for the file, 41 for its rope and 18 for the row; the changes take 34, 32, 48 and 23; so the last gate stands at 276 of 512.
const AUDITED: &[u8] =
    b"version 2 form 2 block 8 blocks 16 area 512 graces 60 60 60 60 lanes 4\njournal epoch 2 left 235\nnow 0 next 5\nrope 1 length 20 pieces 1 rows 1\nrope 2 length 20 pieces 1 rows 0\nrope 3 length 8 pieces 1 rows 0\nrope 4 length 28 pieces 2 rows 1\nrow held k 1 -\nrow held late 4 6869\nblocks used 6 shared 4 free 10\n";

const LATER: &[u8] =
    b"1 lookup held k\n1 v = lookup held late\n1 length v\n1 advance 60\n1 sweep 9\n1 length 1\n";

const FOUND: &[u8] =
    b"1 1 lookup: found 1 -\n2 1 lookup: found 4 6869\n3 1 length: number 28\n4 1 advance: done\n5 1 sweep: swept 0 rows 2 ropes 2 3\n6 1 length: number 20\n";

#[test]
fn a_promoted_mirror_goes_on_as_a_voice_disk(rt: HostRuntime) -> Result<(), Fail> {
    let disk = mirrored(&rt, rt.alloc(), &[ONE, TWO])?;
    let disk = promoted(&rt, rt.alloc(), disk)?;
    let disk = scripted(&rt, rt.alloc(), WORK, disk, WORKED)?;
    let disk = printed(&rt, rt.alloc(), &["audit"], &[], disk, AUDITED)?;
    let disk = scripted(&rt, rt.alloc(), LATER, disk, FOUND)?;
    let heard = b"ABCDEFGHIJKLMNOPQRSTABCDEFGH";
    assert_hears(&rt, rt.alloc(), b"1 play 0 4 0 28 h\n", disk, heard)
}

// Asserts what a script hears in the file `h`.
fn assert_hears<R: Threads + Wait + Sync + Abort>(
    rt: &R,
    alloc: Global,
    script: &[u8],
    disk: MemDisk,
    wanted: &[u8],
) -> Result<(), Fail> {
    let mut shelf = shelf_with(alloc, &[(b"s".as_slice(), script)], &[])?;
    let ran = run_on(rt, alloc, &["run", "s"], &mut shelf, &[], disk)?;
    assert_eq!(rt; ran.status, Status::Done);
    assert!(rt; file_of(&mut shelf, b"h")?.as_slice() == wanted);
    Ok(())
}

// The shapes of mirrors: the areas of two of them are shorter than the records of all changes.
const SHAPES: [&[&str]; 3] = [
    &[
        "format", "--block", "16", "--blocks", "40", "--area", "4096",
    ],
    &["format", "--block", "24", "--blocks", "10", "--area", "600"],
    &["format", "--block", "8", "--blocks", "32", "--area", "640"],
];

// A formatted disk.
fn formatted<R: Threads + Wait + Sync + Abort>(
    rt: &R,
    alloc: Global,
    words: &[&str],
) -> Result<MemDisk, Fail> {
    let disk = MemDisk::new(alloc, 16384, Vec::new(alloc))?;
    printed(rt, alloc, words, &[], disk, b"")
}

// The changes of the first machine in two runs: packets 1 to 4, and 5 to 16.
const FIRST: &[u8] =
    b"1 a = record f20\n1 retain held first a 6869\n1 b = sub a 4 8\n1 retain listed part b -\n";

const FIRST_TEXT: &[u8] =
    b"1 1 record: rope 1 length 20\n2 1 retain: done\n3 1 sub: rope 2 length 8\n4 1 retain: done\nnext 5\n";

const SECOND: &[u8] =
    b"1 v = lookup held first\n1 w = lookup listed part\n1 c = replace v 0 4 w\n1 retain held second c -\n1 advance 1\n1 advance 2\n1 advance 3\n1 advance 4\n1 advance 5\n1 advance 6\n1 advance 7\n1 advance 8\n1 advance 9\n1 forget listed part\n";

const SECOND_TEXT: &[u8] =
    b"1 1 lookup: found 1 6869\n2 1 lookup: found 2 -\n3 1 replace: rope 3 length 24\n4 1 retain: done\n5 1 advance: done\n6 1 advance: done\n7 1 advance: done\n8 1 advance: done\n9 1 advance: done\n10 1 advance: done\n11 1 advance: done\n12 1 advance: done\n13 1 advance: done\n14 1 forget: done\nnext 17\n";

// What the first mirror does once it is promoted: packets 17 to 20.
const THIRD: &[u8] =
    b"1 v = lookup held second\n1 d = record f20\n1 e = concat v d v\n1 retain held third e 00\n1 advance 10\n";

const THIRD_TEXT: &[u8] =
    b"1 1 lookup: found 3 -\n2 1 record: rope 4 length 20\n3 1 concat: rope 5 length 68\n4 1 retain: done\n5 1 advance: done\nnext 21\n";

// What is told and heard of all of it. The moment is 10, so of two rows until 10 and until 11 one is expired.
const LOOK: &[u8] =
    b"1 lookup held first\n1 lookup held second\n1 c = lookup held third\n1 lookup listed part\n1 length 1\n1 length 2\n1 length c\n1 describe c\n1 levels c\n1 retain until u 1 000000000000000a\n1 retain until w 1 000000000000000b\n1 sweep 0\n";

const LOOK_TEXT: &[u8] =
    b"1 1 lookup: found 1 6869\n2 1 lookup: found 3 -\n3 1 lookup: found 5 00\n4 1 lookup: no no-interest\n5 1 length: number 20\n6 1 length: number 8\n7 1 length: number 68\n8 1 describe: talk 1 0+68\n9 1 levels: peaks 1 62\n10 1 retain: done\n11 1 retain: done\n12 1 sweep: swept 1 rows 0 ropes\n";

const HEARD: &[u8] = b"EFGHIJKLEFGHIJKLMNOPQRSTABCDEFGHIJKLMNOPQRSTEFGHIJKLEFGHIJKLMNOPQRST";

// The packets of the first machine's runs.
fn first_machine<R: Threads + Wait + Sync + Abort>(
    rt: &R,
    alloc: Global,
) -> Result<(Vec<u8>, Vec<u8>), Fail> {
    let disk = small_disk(alloc, 2, &[])?;
    let (disk, first) = sent(rt, alloc, FIRST, "1", disk, FIRST_TEXT)?;
    let (_disk, second) = sent(rt, alloc, SECOND, "5", disk, SECOND_TEXT)?;
    Ok((first, second))
}

// A mirror of that shape that took the packets of both runs.
fn follower<R: Threads + Wait + Sync + Abort>(
    rt: &R,
    alloc: Global,
    words: &[&str],
    first: &[u8],
    second: &[u8],
) -> Result<MemDisk, Fail> {
    let disk = formatted(rt, alloc, words)?;
    let wanted = taken_and(alloc, 1, 4, b"position 4\n")?;
    let disk = fed(rt, alloc, first, disk, &wanted)?;
    let wanted = taken_and(alloc, 5, 16, b"position 16\n")?;
    fed(rt, alloc, second, disk, &wanted)
}

// Asserts what is told and heard of all changes.
fn assert_look<R: Threads + Wait + Sync + Abort>(
    rt: &R,
    alloc: Global,
    disk: MemDisk,
) -> Result<(), Fail> {
    let disk = scripted(rt, alloc, LOOK, disk, LOOK_TEXT)?;
    assert_hears(rt, alloc, b"1 play 0 5 0 68 h\n", disk, HEARD)
}

// A second mirror follows a first one that was promoted, under the numbers behind its position, and is promoted too.
fn assert_followed<R: Threads + Wait + Sync + Abort>(
    rt: &R,
    alloc: Global,
    one: &[&str],
    other: &[&str],
) -> Result<(), Fail> {
    let (first, second) = first_machine(rt, alloc)?;
    let ahead = follower(rt, alloc, one, &first, &second)?;
    let behind = follower(rt, alloc, other, &first, &second)?;
    let ahead = promoted(rt, alloc, ahead)?;
    let (ahead, third) = sent(rt, alloc, THIRD, "17", ahead, THIRD_TEXT)?;
    let wanted = taken_and(alloc, 17, 20, b"position 20\n")?;
    let behind = fed(rt, alloc, &third, behind, &wanted)?;
    let behind = promoted(rt, alloc, behind)?;
    assert_look(rt, alloc, ahead)?;
    assert_look(rt, alloc, behind)
}

#[test]
fn a_promoted_mirror_is_mirrored_again(rt: HostRuntime) -> Result<(), Fail> {
    for one in SHAPES {
        for other in SHAPES {
            assert_followed(&rt, rt.alloc(), one, other)?;
        }
    }
    Ok(())
}

// A disk whose first area has the last epoch.
fn spent(alloc: Global) -> Result<MemDisk, Fail> {
    let mut disk = small_disk(alloc, 2, &[])?;
    if disk.size() < 80 {
        return Err(Fail::from("a short disk"));
    }
    match disk.write(72, &[0, 1, 0, 0, 0, 0, 0, 0]) {
        Ok(()) => Ok(disk),
        Err(_) => Err(Fail::from("no disk")),
    }
}

// Each voice file of one block takes 34 bytes, so 14 of them leave 19 of 495 bytes; there is no further area for a base.
#[test]
fn at_the_last_epoch_there_is_no_promotion(rt: HostRuntime) -> Result<(), Fail> {
    let disk = spent(rt.alloc())?;
    let before = bytes_of(rt.alloc(), &disk)?;
    let disk = refused(&rt, rt.alloc(), &["promote"], &[], disk, Status::EpochSpent)?;
    assert!(rt; bytes_of(rt.alloc(), &disk)?.as_slice() == before.as_slice());
    let packets = voices(rt.alloc(), 15)?;
    let full = b"packet 15 journal-full 34 19\nposition 14\n";
    let wanted = taken_and(rt.alloc(), 1, 14, full)?;
    let disk = fed(&rt, rt.alloc(), &packets, disk, &wanted)?;
    let before = bytes_of(rt.alloc(), &disk)?;
    let disk = refused(&rt, rt.alloc(), &["promote"], &[], disk, Status::EpochSpent)?;
    assert!(rt; bytes_of(rt.alloc(), &disk)?.as_slice() == before.as_slice());
    Ok(())
}

// The numbered record of a voice file of 8 samples, whose block has its number as address.
fn record_of(n: u8) -> [u8; 34] {
    [
        1, 0, 0, 0, 29, 0, 0, 0, 0, 0, 0, 0, n, 11, 0, 0, 0, 0, 0, 0, 0, n, 0, 0, 0, 8, 0, 0, 0, 1,
        0, 0, 0, n,
    ]
}

// Puts a record on a disk.
fn put_record(disk: &mut MemDisk, at: u64, record: &[u8; 34]) -> Result<(), Fail> {
    if disk.size() < 4096 {
        return Err(Fail::from("a short disk"));
    }
    if at > 4000 {
        return Err(Fail::from("a high place"));
    }
    match disk.write(at, record) {
        Ok(()) => Ok(()),
        Err(_) => Err(Fail::from("no disk")),
    }
}

// A disk with the records of so many voice files, behind which no gate is open.
fn crowded(alloc: Global, last: u8) -> Result<MemDisk, Fail> {
    let mut disk = small_disk(alloc, 2, &[])?;
    let mut at = 80u64;
    for n in 1..=last {
        put_record(&mut disk, at, &record_of(n))?;
        at = at.saturating_add(34);
    }
    Ok(disk)
}

// The base takes 22 bytes, 26 for each file and 41 for each rope.
#[test]
fn a_base_that_an_area_does_not_hold_is_refused(rt: HostRuntime) -> Result<(), Fail> {
    let disk = crowded(rt.alloc(), 8)?;
    let before = bytes_of(rt.alloc(), &disk)?;
    let disk = refused(
        &rt,
        rt.alloc(),
        &["promote"],
        &[],
        disk,
        Status::JournalFull(558, 495),
    )?;
    assert!(rt; bytes_of(rt.alloc(), &disk)?.as_slice() == before.as_slice());
    let _disk = fed(&rt, rt.alloc(), b"", disk, b"position 8\n")?;
    let disk = crowded(rt.alloc(), 7)?;
    let disk = promoted(&rt, rt.alloc(), disk)?;
    let wanted = b"1 1 length: number 8\n2 1 length: no unknown-rope 8\n";
    let _disk = scripted(&rt, rt.alloc(), b"1 length 7\n1 length 8\n", disk, wanted)?;
    Ok(())
}

// How many calls formatting, opening and the promotion of an empty mirror make: the last two are those of the head's gate.
fn calls_of_promotion<R: Threads + Wait + Sync + Abort>(
    rt: &R,
    alloc: Global,
) -> Result<u64, Fail> {
    let disk = small_disk(alloc, 2, &[])?;
    let disk = promoted(rt, alloc, disk)?;
    Ok(disk.calls())
}

// The status of a promotion whose call fails.
fn faulty_status(call: u64, last: u64) -> Status {
    if last.saturating_sub(call) < 2 {
        return Status::InDoubt;
    }
    Status::DiskFault
}

// Asserts what stands after a promotion whose call failed: the mirror, or the voice disk where the gate was written.
fn assert_stands<R: Threads + Wait + Sync + Abort>(
    rt: &R,
    alloc: Global,
    disk: MemDisk,
    is_voice: bool,
) -> Result<(), Fail> {
    if is_voice {
        let disk = refused(rt, alloc, &["promote"], &[], disk, Status::BadDisk(592))?;
        let wanted = b"1 1 record: rope 1 length 20\n";
        let _disk = scripted(rt, alloc, b"1 record f20\n", disk, wanted)?;
        return Ok(());
    }
    let packets = rows_sent(rt, alloc)?;
    let wanted = b"packet 1 taken\npacket 2 taken\npacket 3 taken\nposition 3\n";
    let disk = fed(rt, alloc, &packets, disk, wanted)?;
    let disk = promoted(rt, alloc, disk)?;
    let _disk = scripted(rt, alloc, LENGTH, disk, b"1 1 length: number 20\n")?;
    Ok(())
}

// Opening makes the calls 4 to 9, the promotion at most 8 more.
#[test]
fn each_failing_call_of_a_promotion_is_told(rt: HostRuntime) -> Result<(), Fail> {
    let last = calls_of_promotion(&rt, rt.alloc())?;
    assert!(rt; last > 9 && last <= 17);
    for call in 4..=last {
        let disk = small_disk(rt.alloc(), 2, &[call])?;
        let wanted = faulty_status(call, last);
        let disk = refused(&rt, rt.alloc(), &["promote"], &[], disk, wanted)?;
        assert_stands(&rt, rt.alloc(), disk, call >= last)?;
    }
    Ok(())
}

// The samples of a recording are those of its packet.
#[test]
fn a_promoted_mirror_plays_what_was_recorded(rt: HostRuntime) -> Result<(), Fail> {
    let disk = mirrored(&rt, rt.alloc(), &[ONE])?;
    let disk = promoted(&rt, rt.alloc(), disk)?;
    assert_hears(&rt, rt.alloc(), b"1 play 0 1 0 20 h\n", disk, F20)
}
