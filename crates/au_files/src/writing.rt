//! A file of samples.

ghost use Rattle.std.specs.Prelude.{◌≡◌, ◌+◌, ◌≤◌, ◌++◌, length, vec_capacity, IsOk, OnOk, OnErr};
ghost use Rattle.au_files.specs.Au.{file_of, size_word};
ghost use Rattle.disk_areas.specs.Numbers.{number_bytes};

use byteorder::{BigEndian, ByteOrder};
use voice_units::NoMemory;

// Magic, and that the samples follow the header at once.
const FRONT: [u8; 8] = *b".snd\0\0\0\x18";

// Mu-law, 8,000 a second, one channel.
const BACK: [u8; 12] = *b"\0\0\0\x01\0\0\x1f\x40\0\0\0\x01";

// Appends bytes for which there is room.
fn append(out: &mut Vec<u8>, bytes: &[u8])
    requires room { length out.old.items + length bytes.now ≤ vec_capacity out.old }
    ensures items { out.new.items ≡ out.old.items ++ bytes.now }
    ensures capacity { vec_capacity out.old ≤ vec_capacity out.new }
{
    let _ = out.extend_from_slice(bytes);
}

// The size that a header says, unknown where 32 bits don't hold it.
fn size_of(samples: &[u8]) -> [u8; 4]
    ensures { result ≡ number_bytes 4 (size_word (length samples.now)) }
{
    let size = u32::try_from(samples.len()).unwrap_or(u32::MAX);
    let mut bytes = [0; 4];
    BigEndian::write_u32(&mut bytes, size);
    bytes
}

/// Appends a file of these samples: a header of 24 bytes and the samples. After want of memory nothing is appended.
pub fn write(samples: &[u8], out: &mut Vec<u8>) -> Result<(), NoMemory>
    ensures ok { OnOk result (out.new.items ≡ out.old.items ++ file_of samples.now) }
    ensures err { OnErr result (out.new.items ≡ out.old.items) }
    ensures spare { length out.old.items + (24 + length samples.now) ≤ vec_capacity out.old → IsOk result }
{
    let Some(all) = samples.len().checked_add(24) else {
        return Err(NoMemory);
    };
    out.reserve(all)?;
    append(out, &FRONT);
    append(out, &size_of(samples));
    append(out, &BACK);
    append(out, samples);
    Ok(())
}
