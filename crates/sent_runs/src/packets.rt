//! The packets of a run, the line behind its text, and what is refused.

use crate::runs::{F20, ROWS, Ran, run_on, shelf_with, small_disk};
use mirror_packets::parse;
use std::alloc::Global;
use std::process::Abort;
use std::sync::Wait;
use std::test::Fail;
use std::thread::Threads;
use voice_main::Status;
use voice_outside::Shelf;
use voice_units::Name;

// What a run came to: its status, its text, and the files `p` and `h`, if they are there.
#[derive(Drop)]
struct Outcome {
    status: Status,
    text: Vec<u8>,
    packets: Option<Vec<u8>>,
    heard: Option<Vec<u8>>,
}

// A run of these words over a script.
fn run_words<R: Threads + Wait + Sync>(
    rt: &R,
    alloc: Global,
    asked: &[&str],
    script: &[u8],
    (version, disk_fails, shelf_fails): (u32, &[u64], &[u64]),
) -> Result<Outcome, Fail> {
    let disk = small_disk(alloc, version, disk_fails)?;
    let mut shelf = shelf_with(alloc, &[(b"s".as_slice(), script)], shelf_fails)?;
    let Ran {
        status,
        text,
        disk: _,
    } = run_on(rt, alloc, asked, &mut shelf, &[], disk)?;
    let packets = shelf.get(&Name::new(b"p")?).unwrap_or(None);
    let heard = shelf.get(&Name::new(b"h")?).unwrap_or(None);
    Ok(Outcome {
        status,
        text,
        packets,
        heard,
    })
}

// The packets 1 to 3 of `ROWS`: a voice file of 20 samples, a row, and its end.
const FIRST: &[u8] = &[
    0, 0, 0, 0, 0, 0, 0, 1, 0, 0, 0, 29, 0x20, 0, 0, 0, 0, 0, 0, 0, 1,
];

const SECOND: &[u8] = &[
    0, 0, 0, 0, 0, 0, 0, 2, 0, 0, 0, 13, 3, 1, 1, b'k', 0, 0, 0, 0, 0, 0, 0, 1, 0,
];

const THIRD: &[u8] = &[0, 0, 0, 0, 0, 0, 0, 3, 0, 0, 0, 4, 4, 1, 1, b'k'];

fn row_packets(alloc: Global) -> Result<Vec<u8>, Fail> {
    let mut all = Vec::new(alloc);
    for part in [FIRST, F20.as_slice(), SECOND, THIRD] {
        all.extend_from_slice(part)?;
    }
    Ok(all)
}

#[test]
fn rows_are_sent(rt: HostRuntime) -> Result<(), Fail> {
    let wanted = row_packets(rt.alloc())?;
    for version in [1, 2] {
        let sent = run_words(
            &rt,
            rt.alloc(),
            &["packets", "s", "p", "1"],
            ROWS,
            (version, &[], &[]),
        )?;
        assert_eq!(rt; sent.status, Status::Done);
        assert_eq!(rt;
            sent.text.as_slice(),
            b"1 1 record: rope 1 length 20\n2 1 retain: done\n3 1 forget: done\nnext 4\n".as_slice()
        );
        assert!(rt;
            sent.packets
                .is_some_and(|p| p.as_slice() == wanted.as_slice())
        );
    }
    Ok(())
}

// The numbers of the packets of a file, as they are read.
fn numbers_in(alloc: Global, bytes: &[u8]) -> Result<Vec<u64>, Fail> {
    let mut numbers = Vec::new(alloc);
    for packet in &parse(alloc, bytes)? {
        numbers.push(packet.number)?;
    }
    Ok(numbers)
}

// A script, the first number, the last line, and the numbers of the packets.
type Numbered = (&'static [u8], &'static str, &'static [u8], &'static [u64]);

const NUMBERED: &[Numbered] = &[
    (b"", "7", b"next 7\n", &[]),
    (
        b"1 length 1\n",
        "7",
        b"1 1 length: no unknown-rope 1\nnext 7\n",
        &[],
    ),
    (
        b"1 a = record f20\n1 sub a 5 7\n1 advance 9\n1 sweep 9\n",
        "140737488355328",
        b"next 140737488355331\n",
        &[140737488355328, 140737488355329, 140737488355330],
    ),
    (
        b"1 begin 0\n1 add 0 f20\n1 add 0 f20\n1 end 0\n",
        "5",
        b"next 6\n",
        &[5],
    ),
    (
        b"1 a = record f20\n1 play 0 a 5 7 h\n",
        "1",
        b"next 2\n",
        &[1],
    ),
];

#[test]
fn packets_are_read_back(rt: HostRuntime) -> Result<(), Fail> {
    for &(script, first, end, numbers) in NUMBERED {
        let Outcome {
            status,
            text,
            packets,
            heard: _,
        } = run_words(
            &rt,
            rt.alloc(),
            &["packets", "s", "p", first],
            script,
            (2, &[], &[]),
        )?;
        assert_eq!(rt; status, Status::Done);
        assert!(rt; text.ends_with(end));
        let Some(packets) = packets else {
            return Err(Fail::from("no packets"));
        };
        assert_eq!(rt; numbers_in(rt.alloc(), &packets)?.as_slice(), numbers);
    }
    Ok(())
}

#[test]
fn files_of_servings_are_set_too(rt: HostRuntime) -> Result<(), Fail> {
    let script = b"1 a = record f20\n1 play 0 a 5 7 h\n";
    let words = ["packets", "s", "p", "1"];
    let sent = run_words(&rt, rt.alloc(), &words, script, (2, &[], &[]))?;
    assert!(rt;
        sent.heard
            .is_some_and(|h| h.as_slice() == b"FGHIJKL".as_slice())
    );
    Ok(())
}

// The calls of the disk that fail, the text, and how many bytes the packets have; opening makes the calls 4 to 8, the recording 9 to 14.
type Doubt = (&'static [u64], &'static [u8], usize);

const DOUBTS: &[Doubt] = &[
    (
        &[14, 15],
        b"1 1 record: no in-doubt\n2 1 advance: no disk-fault\nnext unknown\n",
        0,
    ),
    (
        &[14],
        b"1 1 record: no in-doubt\n2 0 landed: done\n3 1 advance: done\nnext 3\n",
        41 + 21,
    ),
    (
        &[12],
        b"1 1 record: no disk-fault\n2 1 advance: done\nnext 2\n",
        21,
    ),
];

#[test]
fn what_is_in_doubt_is_sent_as_it_lands(rt: HostRuntime) -> Result<(), Fail> {
    for &(fails, text, len) in DOUBTS {
        let script = b"1 record f20\n1 advance 5\n";
        let words = ["packets", "s", "p", "1"];
        let sent = run_words(&rt, rt.alloc(), &words, script, (2, fails, &[]))?;
        assert_eq!(rt; sent.status, Status::Done);
        assert_eq!(rt; sent.text.as_slice(), text);
        assert!(rt; sent.packets.is_some_and(|p| p.len() == len));
    }
    Ok(())
}

#[test]
fn without_its_file_nothing_is_printed(rt: HostRuntime) -> Result<(), Fail> {
    // The shelf's calls: the script, its sample file, and the packets.
    let words = ["packets", "s", "p", "1"];
    let sent = run_words(&rt, rt.alloc(), &words, ROWS, (2, &[], &[3]))?;
    assert_eq!(rt; sent.status, Status::ShelfFault);
    assert_eq!(rt; sent.text.len(), 0);
    Ok(())
}

#[test]
fn other_words_are_refused(rt: HostRuntime) -> Result<(), Fail> {
    let refused = [
        ["packets", "s", "p", "0"],
        ["packets", "s", "p", "01"],
        ["packets", "s", "p", "140737488355329"],
        ["packets", "s", "p", "18446744073709551617"],
        ["packets", "s", "p", "x"],
        ["packets", "s", "-p", "1"],
        ["packets", "-s", "p", "1"],
        ["packet", "s", "p", "1"],
    ];
    for words in refused {
        let sent = run_words(&rt, rt.alloc(), &words, ROWS, (2, &[], &[]))?;
        assert_eq!(rt; sent.status, Status::Usage);
        assert!(rt; sent.packets.is_none());
    }
    Ok(())
}
