//! Where the samples of a file lie.

ghost use Rattle.std.specs.Prelude.{◌≡◌, ◌+◌, ◌≤◌, length, None, Some, IfOk, IfErr};
ghost use Rattle.voice_units.specs.Spots.{slice};
ghost use Rattle.au_files.specs.Au.{word, refusal, samples, sample_count};

use crate::AuError;
use byteorder::{BigEndian, ByteOrder};

const MAGIC: u32 = 0x2e73_6e64;

const HEADER: usize = 24;

const MU_LAW: u32 = 1;

const RATE: u32 = 8_000;

// A number of bytes that is not known.
const UNKNOWN: u32 = u32::MAX;

/// Where the samples of a file lie: so many bytes from a place on.
#[derive(Clone, Copy, Debug, PartialEq, Eq)]
pub struct Voice {
    pub from: u64,
    pub len: u64,
}

// The word of a header at a place, which begins with 0.
fn word(bytes: &[u8], place: usize) -> u32
    requires low { place ≤ 5 }
    requires header { 24 ≤ length bytes.now }
    ensures { result ≡ word place bytes.now }
{
    BigEndian::read_u32(&bytes[4 * place..])
}

/// Where the samples of a file lie. A size that is unknown (`ffffffff`), or greater than what follows, stands for all that follows. It takes no memory.
pub fn read(bytes: &[u8]) -> Result<Voice, AuError>
    ensures ok { IfOk result (λ voice. (refusal bytes.now ≡ None) × (slice bytes.now voice.from voice.len ≡ samples bytes.now) × (voice.from + voice.len ≤ length bytes.now)) }
    ensures err { IfErr result (λ cause. refusal bytes.now ≡ Some cause) }
{
    if bytes.len() < HEADER {
        return Err(AuError::Short);
    }
    if word(bytes, 0) != MAGIC {
        return Err(AuError::Magic);
    }
    let from = u64::from(word(bytes, 1));
    let all = bytes.len() as u64;
    if from < HEADER as u64 || from > all {
        return Err(AuError::Offset);
    }
    if word(bytes, 3) != MU_LAW {
        return Err(AuError::Encoding);
    }
    if word(bytes, 4) != RATE {
        return Err(AuError::Rate);
    }
    if word(bytes, 5) != 1 {
        return Err(AuError::Channels);
    }
    let len = sample_count(word(bytes, 2), all - from);
    Ok(Voice { from, len })
}

// How many samples there are, by the size that a header says, where so many bytes follow.
fn sample_count(size: u32, rest: u64) -> u64
    ensures { result ≡ sample_count size rest }
{
    if size == UNKNOWN || u64::from(size) > rest {
        return rest;
    }
    u64::from(size)
}
