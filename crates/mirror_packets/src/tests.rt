//! Files of packets, as they are read, written and refused.

use crate::{Body, Packet, PacketError, parse, put};
use std::alloc::{AllocError, Global};
use std::test::Fail;
use voice_model::{Change, Class, Key};
use voice_units::RopeId;

// Packet 3, that the key `k` goes from the held rows; and packet 4, voice file 5 with the samples `ABC`.
const FILE: [u8; 40] = [
    0, 0, 0, 0, 0, 0, 0, 3, 0, 0, 0, 4, 4, 1, 1, b'k', 0, 0, 0, 0, 0, 0, 0, 4, 0, 0, 0, 12, 0x20,
    0, 0, 0, 0, 0, 0, 0, 5, b'A', b'B', b'C',
];

// Rope 7 of 3 samples of file 5.
const EDITED: [u8; 27] = [
    2, 0, 0, 0, 0, 0, 0, 0, 7, 0, 1, 0, 0, 0, 0, 0, 0, 0, 5, 0, 0, 0, 0, 0, 0, 0, 3,
];

// A held row with key `k` for rope 7, and no note.
const RETAINED: [u8; 13] = [3, 1, 1, b'k', 0, 0, 0, 0, 0, 0, 0, 7, 0];

const FORGOTTEN: [u8; 4] = [4, 1, 1, b'k'];

const CENSUS: [u8; 5] = [5, 0, 1, 1, b'k'];

const SWEPT: [u8; 11] = [6, 0, 1, 0, 0, 0, 0, 0, 0, 0, 7];

const ADVANCED: [u8; 9] = [7, 0, 0, 0, 0, 0, 0, 0, 9];

// Voice file 2^48 with no samples.
const SILENT: [u8; 9] = [0x20, 0, 1, 0, 0, 0, 0, 0, 0];

// Changes that the journal knows and packets don't bring.
const RECORDED: [u8; 17] = [1, 0, 0, 0, 0, 0, 0, 0, 1, 0, 0, 0, 0, 0, 0, 0, 0];

const BASE: [u8; 17] = [8, 0, 0, 0, 0, 0, 0, 0, 0, 0, 0, 0, 0, 0, 0, 0, 1];

const WIDE: [u8; 17] = [11, 0, 0, 0, 0, 0, 0, 0, 1, 0, 0, 0, 0, 0, 0, 0, 0];

// How many packets bytes spell.
fn count(alloc: Global, bytes: &[u8]) -> Result<usize, PacketError> {
    let packets = parse(alloc, bytes)?;
    Ok(packets.len())
}

// A packet in front of others: its number, the length of its body and the body.
fn packet(alloc: Global, number: u64, body: &[u8]) -> Result<Vec<u8>, AllocError> {
    let mut bytes = Vec::new(alloc);
    bytes.extend_from_slice(&number.to_be_bytes())?;
    let len = (body.len() as u64).to_be_bytes();
    bytes.extend_from_slice(&len[4..])?;
    bytes.extend_from_slice(body)?;
    Ok(bytes)
}

// How many packets spell a file of one body with this number.
fn lone(alloc: Global, number: u64, body: &[u8]) -> Result<Result<usize, PacketError>, AllocError> {
    let bytes = packet(alloc, number, body)?;
    Ok(count(alloc, &bytes))
}

// What becomes of the file with one byte changed.
fn changed(alloc: Global, place: usize, byte: u8) -> Result<usize, PacketError> {
    let mut bytes = FILE;
    if let Some(changed) = bytes.get_mut(place) {
        *changed = byte;
    }
    count(alloc, &bytes)
}

// The packets that bytes spell, spelled again.
fn again(alloc: Global, bytes: &[u8]) -> Result<Vec<u8>, Fail> {
    let packets = parse(alloc, bytes)?;
    let mut out = Vec::new(alloc);
    for packet in &packets {
        put(packet, &mut out)?;
    }
    Ok(out)
}

// Tests that a body is read and spelled again, and that a byte behind it is refused.
fn is_a_body(rt: &impl std::process::Abort, alloc: Global, body: &[u8]) -> Result<(), Fail> {
    let mut bytes = packet(alloc, 1, body)?;
    assert_eq!(rt; count(alloc, &bytes), Ok(1));
    let spelled = again(alloc, &bytes)?;
    assert!(rt; spelled.as_slice() == bytes.as_slice());
    bytes.push(0)?;
    assert_eq!(rt;
        count(alloc, &bytes),
        Err(PacketError::BadPackets(bytes.len() as u64 - 1))
    );
    Ok(())
}

#[test]
fn packets_are_read(rt: HostRuntime) -> Result<(), Fail> {
    let packets = parse(rt.alloc(), &FILE)?;
    assert_eq!(rt; packets.len(), 2);
    assert_eq!(rt; packets[0].number, 3);
    match &packets[0].body {
        Body::Other(Change::Forgotten(class, key)) => {
            assert_eq!(rt; *class, Class::Held);
            assert!(rt; key.bytes() == b"k".as_slice());
        }
        _ => assert!(rt; false),
    }
    assert_eq!(rt; packets[1].number, 4);
    match &packets[1].body {
        Body::Voice(id, samples) => {
            assert_eq!(rt; id.number(), 5);
            assert!(rt; *samples == b"ABC".as_slice());
        }
        Body::Other(_) => assert!(rt; false),
    }
    assert_eq!(rt; count(rt.alloc(), b""), Ok(0));
    Ok(())
}

#[test]
fn packets_are_put(rt: HostRuntime) -> Result<(), Fail> {
    let mut out = Vec::new(rt.alloc());
    let forgotten = Packet {
        number: 3,
        body: Body::Other(Change::Forgotten(Class::Held, Key::new(b"k")?)),
    };
    let voice = Packet {
        number: 4,
        body: Body::Voice(RopeId(5), b"ABC"),
    };
    put(&forgotten, &mut out)?;
    put(&voice, &mut out)?;
    assert!(rt; out.as_slice() == FILE.as_slice());
    Ok(())
}

#[test]
fn bodies_of_each_kind_are_read(rt: HostRuntime) -> Result<(), Fail> {
    is_a_body(&rt, rt.alloc(), &EDITED)?;
    is_a_body(&rt, rt.alloc(), &RETAINED)?;
    is_a_body(&rt, rt.alloc(), &FORGOTTEN)?;
    is_a_body(&rt, rt.alloc(), &CENSUS)?;
    is_a_body(&rt, rt.alloc(), &SWEPT)?;
    is_a_body(&rt, rt.alloc(), &ADVANCED)?;
    is_a_body(&rt, rt.alloc(), &SILENT)
}

#[test]
fn a_cut_file_is_refused(rt: HostRuntime) {
    for n in 0..40 {
        let expected = match n {
            0 => Ok(0),
            1..16 => Err(PacketError::BadPackets(0)),
            16 => Ok(1),
            _ => Err(PacketError::BadPackets(16)),
        };
        assert_eq!(rt; count(rt.alloc(), &FILE[..n]), expected, "{n} bytes");
    }
}

#[test]
fn numbers_have_their_ranges(rt: HostRuntime) -> Result<(), Fail> {
    let none = Err(PacketError::BadPackets(0));
    assert_eq!(rt; lone(rt.alloc(), 0, &FORGOTTEN)?, none);
    assert_eq!(rt; lone(rt.alloc(), 1 << 48, &FORGOTTEN)?, Ok(1));
    assert_eq!(rt; lone(rt.alloc(), (1 << 48) + 1, &FORGOTTEN)?, none);
    assert_eq!(rt;
        changed(rt.alloc(), 23, 0),
        Err(PacketError::BadPackets(16))
    );
    assert_eq!(rt; lone(rt.alloc(), 1, &[0x20, 0, 0, 0, 0, 0, 0, 0, 0])?, none);
    assert_eq!(rt; lone(rt.alloc(), 1, &[0x20, 0, 1, 0, 0, 0, 0, 0, 1])?, none);
    Ok(())
}

#[test]
fn other_bodies_are_refused(rt: HostRuntime) -> Result<(), Fail> {
    let none = Err(PacketError::BadPackets(0));
    assert_eq!(rt; lone(rt.alloc(), 1, &RECORDED)?, none);
    assert_eq!(rt; lone(rt.alloc(), 1, &BASE)?, none);
    assert_eq!(rt; lone(rt.alloc(), 1, &WIDE)?, none);
    assert_eq!(rt; lone(rt.alloc(), 1, &[])?, none);
    assert_eq!(rt; lone(rt.alloc(), 1, &SILENT[..8])?, none);
    assert_eq!(rt; lone(rt.alloc(), 1, &[0x21, 0, 1, 0, 0, 0, 0, 0, 0])?, none);
    assert_eq!(rt; lone(rt.alloc(), 1, &[4, 1, 1, b'k', 0])?, none);
    assert_eq!(rt; changed(rt.alloc(), 11, 5), none);
    assert_eq!(rt; changed(rt.alloc(), 11, 3), none);
    Ok(())
}
