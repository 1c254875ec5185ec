//! Tables and records with more entries than two bytes count: ropes that are due at once, interests that one census drops, and a base of many ropes.

use crate::faults::switches_of;
use crate::long::large_disk;
use crate::runs::run_script;
use disk_uses::steps::{bytes_of, change};
use std::alloc::Global;
use std::process::Abort;
use std::sync::Wait;
use std::test::Fail;
use std::thread::Threads;
use voice_disk::MemDisk;
use voice_main::Status;

// How many ropes or interests there are.
const MANY: u32 = 70_000;

// How many of them a sweep or a census takes at most.
const MOST: u32 = 65_535;

// Where the records of a disk begin that was just formatted.
const RECORDS: usize = 80;

// Areas with room for the records, and for that of what goes at once.
const AREA: u32 = 1 << 21;

// Areas with room for the records that are almost full behind so many advances; a base has room there.
const FULL: u32 = 1_760_000;

const ADVANCES: u32 = 15_713;

// Puts a record behind others.
fn put_record(records: &mut Vec<u8>, payload: &[u8]) -> Result<(), Fail> {
    let len = u32::try_from(payload.len())?;
    records.push(1)?;
    records.extend_from_slice(&len.to_be_bytes())?;
    records.extend_from_slice(payload)?;
    Ok(())
}

// Puts the recordings of so many ropes without samples there.
fn put_ropes(records: &mut Vec<u8>, count: u32) -> Result<(), Fail> {
    for number in 1..=count {
        let [a, b, c, d] = number.to_be_bytes();
        put_record(
            records,
            &[11, 0, 0, 0, 0, a, b, c, d, 0, 0, 0, 0, 0, 0, 0, 0],
        )?;
    }
    Ok(())
}

// Puts so many listed interests of the first rope there, whose keys are `k` and five digits.
fn put_rows(alloc: Global, records: &mut Vec<u8>, count: u32) -> Result<(), Fail> {
    for number in 1..=count {
        let key = format!(in alloc; "k{number:05}")?;
        let mut payload = [3, 3, 6].to_vec(alloc)?;
        payload.extend_from_slice(key.as_bytes())?;
        payload.extend_from_slice(&[0, 0, 0, 0, 0, 0, 0, 1, 0])?;
        put_record(records, &payload)?;
    }
    Ok(())
}

// Puts advances to the moments from 1 on there.
fn put_advances(records: &mut Vec<u8>, count: u32) -> Result<(), Fail> {
    for moment in 1..=count {
        let [a, b, c, d] = moment.to_be_bytes();
        put_record(records, &[7, 0, 0, 0, 0, a, b, c, d])?;
    }
    Ok(())
}

// A disk with areas of this size and these records.
fn disk_with(alloc: Global, area: u32, records: &[u8]) -> Result<MemDisk, Fail> {
    let size = 64 + 2 * u64::from(area) + 32;
    let disk = large_disk(alloc, 8, area, size)?;
    let mut bytes = bytes_of(alloc, &disk)?;
    if !change(&mut bytes, RECORDS, records) {
        return Err(Fail::new("the records have no room"));
    }
    Ok(MemDisk::of(alloc, bytes, Vec::new(alloc))?)
}

// Asserts what a script prints over a disk, and gives the disk then.
fn assert_told<R: Threads + Wait + Sync + Abort>(
    rt: &R,
    alloc: Global,
    disk: MemDisk,
    (script, wanted): (&str, &str),
) -> Result<MemDisk, Fail> {
    let ran = run_script(rt, alloc, script, disk)?;
    assert_eq!(rt; ran.ended.status, Status::Done);
    assert!(rt; ran.text.as_slice() == wanted.as_bytes(), "{script}");
    Ok(ran.ended.disk)
}

// Puts the line of a sweep there that removes the ropes of these numbers.
fn put_swept(
    alloc: Global,
    text: &mut String,
    entry: u32,
    (first, last): (u32, u32),
) -> Result<(), Fail> {
    let count = last.saturating_add(1).saturating_sub(first);
    let line = format!(in alloc; "{entry} 1 sweep: swept 0 rows {count} ropes")?;
    text.push_str(&line)?;
    for number in first..=last {
        let number = format!(in alloc; " {number}")?;
        text.push_str(&number)?;
    }
    text.push_str("\n")?;
    Ok(())
}

#[test]
fn many_ropes_are_due_at_once(rt: HostRuntime) -> Result<(), Fail> {
    let alloc = rt.alloc();
    let mut records = Vec::new(alloc);
    put_ropes(&mut records, MANY)?;
    let disk = disk_with(alloc, AREA, &records)?;
    let script = "1 advance 60\n1 sweep 65535\n1 sweep 65535\n1 sweep 9\n";
    let mut wanted = String::from_str(alloc, "1 1 advance: done\n")?;
    put_swept(alloc, &mut wanted, 2, (1, MOST))?;
    put_swept(alloc, &mut wanted, 3, (MOST + 1, MANY))?;
    wanted.push_str("4 1 sweep: swept 0 rows 0 ropes\n")?;
    let disk = assert_told(&rt, alloc, disk, (script, &wanted))?;
    let told = ("1 length 70000\n", "1 1 length: no unknown-rope 70000\n");
    let _disk = assert_told(&rt, alloc, disk, told)?;
    Ok(())
}

#[test]
fn many_interests_go_in_a_census(rt: HostRuntime) -> Result<(), Fail> {
    let alloc = rt.alloc();
    let mut records = Vec::new(alloc);
    put_ropes(&mut records, 1)?;
    put_rows(alloc, &mut records, MANY)?;
    let disk = disk_with(alloc, AREA, &records)?;
    let told = ("1 census\n", "1 1 census: number 65535\n");
    let disk = assert_told(&rt, alloc, disk, told)?;
    let told = (
        "1 lookup listed k65535\n1 lookup listed k65536\n1 census k70000\n1 census\n",
        "1 1 lookup: no no-interest\n2 1 lookup: found 1 -\n3 1 census: number 4464\n4 1 census: number 1\n",
    );
    let _disk = assert_told(&rt, alloc, disk, told)?;
    Ok(())
}

#[test]
fn a_base_has_many_ropes(rt: HostRuntime) -> Result<(), Fail> {
    let alloc = rt.alloc();
    let mut records = Vec::new(alloc);
    put_ropes(&mut records, MANY)?;
    put_advances(&mut records, ADVANCES)?;
    let disk = disk_with(alloc, FULL, &records)?;
    let told = ("1 record z0\n", "1 1 record: rope 70001 length 0\n");
    let disk = assert_told(&rt, alloc, disk, told)?;
    assert_eq!(rt; switches_of(alloc, &disk)?, 1);
    let told = (
        "1 length 70001\n1 sweep 0\n1 record z0\n",
        "1 1 length: number 0\n2 1 sweep: swept 0 rows 0 ropes\n3 1 record: rope 70002 length 0\n",
    );
    let _disk = assert_told(&rt, alloc, disk, told)?;
    Ok(())
}
