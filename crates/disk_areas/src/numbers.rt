//! Numbers among bytes, the highest byte first.

ghost use Rattle.std.specs.Prelude.{◌≡◌, ◌+◌, ◌≤◌, ◌<◌, ◌^◌, ◌++◌, length, vec_capacity};
ghost use Rattle.disk_areas.specs.Numbers.{number_at, number_bytes};

use byteorder::{BigEndian, ByteOrder};

/// The number in the 2 bytes from a place on.
pub fn read_2(bytes: &[u8], at: usize) -> u16
    requires { at + 2 ≤ length bytes.now }
    ensures { result ≡ number_at 2 at bytes.now }
{
    BigEndian::read_u16(&bytes[at..])
}

/// The number in the 4 bytes from a place on.
pub fn read_4(bytes: &[u8], at: usize) -> u32
    requires { at + 4 ≤ length bytes.now }
    ensures { result ≡ number_at 4 at bytes.now }
{
    BigEndian::read_u32(&bytes[at..])
}

/// The number in the 8 bytes from a place on.
pub fn read_8(bytes: &[u8], at: usize) -> u64
    requires { at + 8 ≤ length bytes.now }
    ensures { result ≡ number_at 8 at bytes.now }
{
    BigEndian::read_u64(&bytes[at..])
}

/// The two bytes of a number.
pub fn two_bytes(n: u16) -> [u8; 2]
    ensures { result ≡ number_bytes 2 n }
{
    let mut bytes = [0; 2];
    BigEndian::write_u16(&mut bytes, n);
    bytes
}

/// The four bytes of a number.
pub fn four_bytes(n: u32) -> [u8; 4]
    ensures value { result ≡ number_bytes 4 n }
    ensures fits { n < 2 ^ 32 }
{
    let mut bytes = [0; 4];
    BigEndian::write_u32(&mut bytes, n);
    bytes
}

/// The eight bytes of a number.
pub fn eight_bytes(n: u64) -> [u8; 8]
    ensures { result ≡ number_bytes 8 n }
{
    let mut bytes = [0; 8];
    BigEndian::write_u64(&mut bytes, n);
    bytes
}

/// Appends bytes for which there is room.
pub fn append(out: &mut Vec<u8>, bytes: &[u8])
    requires room { length out.old.items + length bytes.now ≤ vec_capacity out.old }
    ensures items { out.new.items ≡ out.old.items ++ bytes.now }
    ensures capacity { vec_capacity out.old ≤ vec_capacity out.new }
{
    let _ = out.extend_from_slice(bytes);
}

/// Appends a number in one byte.
pub fn append_1(out: &mut Vec<u8>, n: u8)
    requires room { length out.old.items + 1 ≤ vec_capacity out.old }
    ensures items { out.new.items ≡ out.old.items ++ number_bytes 1 n }
    ensures capacity { vec_capacity out.old ≤ vec_capacity out.new }
{
    append(out, &[n]);
}

/// Appends a number in two bytes.
pub fn append_2(out: &mut Vec<u8>, n: u16)
    requires room { length out.old.items + 2 ≤ vec_capacity out.old }
    ensures items { out.new.items ≡ out.old.items ++ number_bytes 2 n }
    ensures capacity { vec_capacity out.old ≤ vec_capacity out.new }
{
    append(out, &two_bytes(n));
}

/// Appends a number in four bytes.
pub fn append_4(out: &mut Vec<u8>, n: u32)
    requires room { length out.old.items + 4 ≤ vec_capacity out.old }
    ensures items { out.new.items ≡ out.old.items ++ number_bytes 4 n }
    ensures capacity { vec_capacity out.old ≤ vec_capacity out.new }
{
    append(out, &four_bytes(n));
}

/// Appends a number in eight bytes.
pub fn append_8(out: &mut Vec<u8>, n: u64)
    requires room { length out.old.items + 8 ≤ vec_capacity out.old }
    ensures items { out.new.items ≡ out.old.items ++ number_bytes 8 n }
    ensures capacity { vec_capacity out.old ≤ vec_capacity out.new }
{
    append(out, &eight_bytes(n));
}
