use super::Taking;
use std::alloc::Global;
use std::borrow::CowSlice;
use voice_units::{Lane, NoMemory};

// A recording that would grow too long is answered as want of memory, which fails the test.
fn added<'a>(taking: &mut Taking, bytes: &'a [u8]) -> Result<CowSlice<'a, u8, Global>, NoMemory> {
    if bytes.len() > 1 << 30 || taking.total() as usize + bytes.len() > 1 << 30 {
        return Err(NoMemory);
    }
    taking.add(bytes)
}

#[test]
fn blocks_and_rest(rt: HostRuntime) -> Result<(), NoMemory> {
    let alloc = rt.alloc();
    let mut taking = Taking::begin(alloc, Lane(0), 8)?;
    assert_eq!(rt; taking.lane().0, 0);
    let given = added(&mut taking, b"ABCDEFGHIJKLMNOPQRST")?;
    assert!(rt; given.as_slice() == b"ABCDEFGHIJKLMNOP".as_slice());
    let other = taking.copy()?;
    assert!(rt; other.end().as_slice() == b"QRST\0\0\0\0".as_slice());
    assert_eq!(rt; added(&mut taking, b"UVW")?.len(), 0);
    let given = added(&mut taking, b"XYZabcdefghijklmn")?;
    assert!(rt; given.as_slice() == b"QRSTUVWXYZabcdefghijklmn".as_slice());
    assert_eq!(rt; taking.total(), 40);
    assert_eq!(rt; taking.end().len(), 0);
    Ok(())
}
