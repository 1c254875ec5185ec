//! Calls of recordings in parts.

use crate::answers::Undone;
use crate::plain::Plain;
use crate::ropes::not_long;
use crate::samples::recorded;
use voice_model::{Reply, Tapes, Why};
use voice_units::{Lane, Take};

impl Plain {
    /// The bytes of a lane's open recording.
    pub(crate) fn taking(&self, lane: Lane) -> Result<&[u8], Why> {
        match self.takings.get(lane.0 as usize) {
            Some(Some(bytes)) => Ok(bytes.as_slice()),
            Some(None) => Err(Why::NoRecording),
            None => Err(Why::UnknownLane(self.shape.lanes)),
        }
    }

    // The open recording of a lane is this one.
    fn set_taking(&mut self, lane: Lane, taking: Option<Vec<u8>>) {
        if let Some(slot) = self.takings.get_mut(lane.0 as usize) {
            *slot = taking;
        }
    }

    pub(crate) fn begin(&mut self, lane: Lane) -> Result<Reply, Undone> {
        let Some(jobs) = self.lanes.get(lane.0 as usize) else {
            return Err(Undone::Refused(Why::UnknownLane(self.shape.lanes)));
        };
        let jobs = u32::try_from(jobs.len()).unwrap_or(u32::MAX);
        if self.taking(lane).is_ok() {
            return Err(Undone::Refused(Why::LaneRecording));
        }
        if jobs > 0 {
            return Err(Undone::Refused(Why::LaneBusy(jobs)));
        }
        self.set_taking(lane, Some(Vec::new(self.alloc)));
        Ok(Reply::Done)
    }

    pub(crate) fn add(&mut self, tapes: &Tapes, lane: Lane, take: Take) -> Result<Reply, Undone> {
        if !tapes.has(take) {
            return Err(Undone::Strange);
        }
        let samples = tapes.samples(take);
        let before = self.taking(lane)?.len() as u64;
        let after = before.saturating_add(samples.len() as u64);
        not_long(after)?;
        let block = u64::from(self.shape.block);
        let more = after.div_ceil(block).saturating_sub(before.div_ceil(block));
        let need = u32::try_from(more).unwrap_or(u32::MAX);
        let free = self.free()?;
        if need > free {
            return Err(Undone::Refused(Why::NoRoom(need, free)));
        }
        if let Some(Some(bytes)) = self.takings.get_mut(lane.0 as usize) {
            bytes.extend_from_slice(samples)?;
        }
        Ok(Reply::Number(after))
    }

    pub(crate) fn end(&mut self, lane: Lane) -> Result<Reply, Undone> {
        let bytes = self.taking(lane)?;
        let id = self.next_rope()?;
        let samples = recorded(self.alloc, id, bytes)?;
        let reply = self.add_rope(id, samples)?;
        self.set_taking(lane, None);
        Ok(reply)
    }

    /// An End is in doubt: its recording is closed, and its blocks stay in use until it lands.
    pub fn doubt_end(&mut self, lane: Lane) {
        if let Some(slot) = self.takings.get_mut(lane.0 as usize) {
            self.doubted = slot.take();
        }
    }

    /// An End that was in doubt lands.
    pub(crate) fn land(&mut self) -> Result<Reply, Undone> {
        let Some(bytes) = &self.doubted else {
            return Err(Undone::Strange);
        };
        let id = self.next_rope()?;
        let samples = recorded(self.alloc, id, bytes)?;
        self.add_rope(id, samples)?;
        self.doubted = None;
        Ok(Reply::Done)
    }
}
