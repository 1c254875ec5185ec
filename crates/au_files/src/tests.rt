//! Files as other programs write them, and files that are refused.

use crate::{AuError, Voice, read, write};
use std::test::Fail;

const LETTERS: &[u8; 34] = b".snd\0\0\0\x18\0\0\0\x0a\0\0\0\x01\0\0\x1f\x40\0\0\0\x01ABCDEFGHIJ";

// Four bytes more of header, and a size that is not known.
const NOTED: &[u8; 38] =
    b".snd\0\0\0\x1c\xff\xff\xff\xff\0\0\0\x01\0\0\x1f\x40\0\0\0\x01noteABCDEFGHIJ";

// What becomes of the letters' file with one byte changed.
fn changed(place: usize, byte: u8) -> Result<Voice, AuError> {
    let mut bytes = *LETTERS;
    if let Some(changed) = bytes.get_mut(place) {
        *changed = byte;
    }
    read(&bytes)
}

#[test]
fn files_are_read(rt: HostRuntime) -> Result<(), Fail> {
    assert_eq!(rt; read(LETTERS), Ok(Voice { from: 24, len: 10 }));
    assert_eq!(rt; read(NOTED), Ok(Voice { from: 28, len: 10 }));
    assert_eq!(rt; changed(11, 3), Ok(Voice { from: 24, len: 3 }));
    assert_eq!(rt; changed(11, 0), Ok(Voice { from: 24, len: 0 }));
    assert_eq!(rt; changed(11, 11), Ok(Voice { from: 24, len: 10 }));
    assert_eq!(rt; changed(8, 0xff), Ok(Voice { from: 24, len: 10 }));
    assert_eq!(rt; changed(7, 34), Ok(Voice { from: 34, len: 0 }));
    Ok(())
}

#[test]
fn files_are_refused(rt: HostRuntime) -> Result<(), Fail> {
    assert_eq!(rt; read(b""), Err(AuError::Short));
    assert_eq!(rt; read(&LETTERS[..23]), Err(AuError::Short));
    assert_eq!(rt; changed(3, b'e'), Err(AuError::Magic));
    assert_eq!(rt; changed(7, 23), Err(AuError::Offset));
    assert_eq!(rt; changed(7, 35), Err(AuError::Offset));
    assert_eq!(rt; changed(15, 3), Err(AuError::Encoding));
    assert_eq!(rt; changed(19, 0x4c), Err(AuError::Rate));
    assert_eq!(rt; changed(23, 2), Err(AuError::Channels));
    assert_eq!(rt; AuError::Channels.number(), 6);
    Ok(())
}

#[test]
fn the_first_cause_is_told(rt: HostRuntime) -> Result<(), Fail> {
    assert_eq!(rt; read(&[0; 24]), Err(AuError::Magic));
    assert_eq!(rt;
        read(b".snd\0\0\0\x17\0\0\0\0\0\0\0\x03\0\0\x1f\x4c\0\0\0\x02"),
        Err(AuError::Offset)
    );
    assert_eq!(rt;
        read(b".snd\0\0\0\x18\0\0\0\0\0\0\0\x03\0\0\x1f\x4c\0\0\0\x02"),
        Err(AuError::Encoding)
    );
    assert_eq!(rt;
        read(b".snd\0\0\0\x18\0\0\0\0\0\0\0\x01\0\0\x1f\x4c\0\0\0\x02"),
        Err(AuError::Rate)
    );
    Ok(())
}

#[test]
fn samples_are_written(rt: HostRuntime) -> Result<(), Fail> {
    let mut out = Vec::new(rt.alloc());
    out.push(b'!')?;
    write(b"ABCDEFGHIJ", &mut out)?;
    assert!(rt; out.as_slice()[1..] == LETTERS[..]);
    assert_eq!(rt; out.as_slice()[0], b'!');
    Ok(())
}
