//! Calls that make ropes, and calls that tell of them.

use crate::answers::Undone;
use crate::loudness::{peaks, talk};
use crate::plain::Plain;
use crate::samples::{Sample, bytes_of, count_of, interval, piece_count, recorded};
use voice_model::{PeakList, Reply, RopeList, TalkList, Tapes, Why};
use voice_units::{Moment, RopeId, Take};

/// The greatest length of a rope.
const MOST_SAMPLES: u64 = 1 << 30;

/// How many pieces a rope has at most.
const MOST_PIECES: u32 = 4096;

/// A live rope.
#[derive(Drop)]
pub struct Rope {
    pub id: RopeId,
    pub samples: Vec<Sample>,
    /// The moment since which it is idle.
    pub idle: Moment,
    /// How long it is kept idle: the grace of the class of the last interest that it lost, or the common one.
    pub wait: u32,
}

/// A length that a rope can have.
pub(crate) fn not_long(length: u64) -> Result<(), Why> {
    if length > MOST_SAMPLES {
        return Err(Why::TooLong(length));
    }
    Ok(())
}

// A number of pieces that a rope can have.
fn not_many(samples: &[Sample]) -> Result<(), Why> {
    let pieces = piece_count(samples);
    if pieces > MOST_PIECES {
        return Err(Why::TooManyPieces(pieces));
    }
    Ok(())
}

impl Plain {
    /// The samples of a live rope.
    pub(crate) fn samples(&self, id: RopeId) -> Result<&[Sample], Why> {
        for rope in &self.ropes {
            if rope.id == id {
                return Ok(rope.samples.as_slice());
            }
        }
        Err(Why::UnknownRope(id))
    }

    /// The number of the next rope.
    pub(crate) fn next_rope(&self) -> Result<RopeId, Why> {
        match RopeId::new(self.next) {
            Some(id) => Ok(id),
            None => Err(Why::IdsSpent),
        }
    }

    /// A rope of these samples comes.
    pub(crate) fn add_rope(&mut self, id: RopeId, samples: Vec<Sample>) -> Result<Reply, Undone> {
        let length = count_of(&samples);
        self.ropes.push(Rope {
            id,
            samples,
            idle: self.moment,
            wait: self.shape.graces.common,
        })?;
        self.next = self.next.saturating_add(1);
        Ok(Reply::Rope(id, length))
    }

    pub(crate) fn record(&mut self, tapes: &Tapes, take: Take) -> Result<Reply, Undone> {
        if !tapes.has(take) {
            return Err(Undone::Strange);
        }
        let bytes = tapes.samples(take);
        not_long(bytes.len() as u64)?;
        let id = self.next_rope()?;
        let need = take.len.div_ceil(self.shape.block);
        let free = self.free()?;
        if need > free {
            return Err(Undone::Refused(Why::NoRoom(need, free)));
        }
        let samples = recorded(self.alloc, id, bytes)?;
        self.add_rope(id, samples)
    }

    pub(crate) fn concat(&mut self, ropes: &RopeList) -> Result<Reply, Undone> {
        let mut length: u64 = 0;
        for rope in ropes.items() {
            length = length.saturating_add(self.samples(*rope)?.len() as u64);
        }
        not_long(length)?;
        let mut joined = Vec::new(self.alloc);
        for rope in ropes.items() {
            joined.extend_from_slice(self.samples(*rope)?)?;
        }
        not_many(&joined)?;
        let id = self.next_rope()?;
        self.add_rope(id, joined)
    }

    pub(crate) fn sub(&mut self, rope: RopeId, start: u32, len: u32) -> Result<Reply, Undone> {
        let samples = self.samples(rope)?;
        let part = interval(samples, start, len)?;
        let id = self.next_rope()?;
        let mut made = Vec::new(self.alloc);
        made.extend_from_slice(part)?;
        self.add_rope(id, made)
    }

    pub(crate) fn replace(
        &mut self,
        rope: RopeId,
        start: u32,
        len: u32,
        with: RopeId,
    ) -> Result<Reply, Undone> {
        let samples = self.samples(rope)?;
        let other = self.samples(with)?;
        let taken = interval(samples, start, len)?;
        let rest = samples.len().saturating_sub(taken.len()) as u64;
        not_long(rest.saturating_add(other.len() as u64))?;
        let before = samples.iter().take(start as usize);
        let after = samples.iter().skip(start as usize + len as usize);
        let mut made = Vec::new(self.alloc);
        for sample in before.chain(other).chain(after) {
            made.push(*sample)?;
        }
        not_many(&made)?;
        let id = self.next_rope()?;
        self.add_rope(id, made)
    }

    pub(crate) fn length(&self, rope: RopeId) -> Result<Reply, Undone> {
        Ok(Reply::Number(self.samples(rope)?.len() as u64))
    }

    pub(crate) fn describe(&self, rope: RopeId) -> Result<Reply, Undone> {
        let bytes = bytes_of(self.alloc, self.samples(rope)?)?;
        Ok(Reply::Talk(TalkList::of(talk(self.alloc, &bytes)?)))
    }

    pub(crate) fn levels(&self, rope: RopeId) -> Result<Reply, Undone> {
        let bytes = bytes_of(self.alloc, self.samples(rope)?)?;
        Ok(Reply::Peaks(PeakList::of(peaks(self.alloc, &bytes)?)))
    }
}
