//! The state, and which call does what.

use crate::answers::Undone;
use crate::lanes::Job;
use crate::ropes::Rope;
use crate::samples::add_blocks;
use std::alloc::Global;
use std::collections::VecDeque;
use voice_model::{Call, Reply, Row, Tapes};
use voice_units::{Moment, NoMemory, Shape};

/// The state after calls, as plain lists.
#[derive(Drop)]
pub struct Plain {
    pub(crate) alloc: Global,
    pub(crate) shape: Shape,
    /// The live ropes, in rising number.
    pub(crate) ropes: Vec<Rope>,
    /// The interests, in order of making.
    pub(crate) rows: Vec<Row>,
    pub(crate) moment: Moment,
    /// The number of the next rope.
    pub(crate) next: u64,
    /// How many jobs were made.
    pub(crate) made: u64,
    /// The jobs of each lane, in order.
    pub(crate) lanes: Vec<VecDeque<Job>>,
    /// The bytes of each lane's open recording.
    pub(crate) takings: Vec<Option<Vec<u8>>>,
    /// The bytes of a recording whose End is in doubt.
    pub(crate) doubted: Option<Vec<u8>>,
}

impl Plain {
    /// The state of a disk that was just formatted in this shape.
    pub fn new(alloc: Global, shape: &Shape) -> Result<Plain, NoMemory> {
        let mut lanes = Vec::new(alloc);
        let mut takings = Vec::new(alloc);
        for _ in 0..shape.lanes {
            lanes.push(VecDeque::new(alloc))?;
            takings.push(None)?;
        }
        Ok(Plain {
            alloc,
            shape: *shape,
            ropes: Vec::new(alloc),
            rows: Vec::new(alloc),
            moment: Moment(0),
            next: 1,
            made: 0,
            lanes,
            takings,
            doubted: None,
        })
    }

    /// The reply to a call, which is done. `None` is for a call that it cannot do, where nothing is done: a landing, but of an End in doubt, and a recording of what no tape has.
    pub fn eval(&mut self, tapes: &Tapes, call: &Call) -> Result<Option<Reply>, NoMemory> {
        match self.answer(tapes, call) {
            Ok(reply) => Ok(Some(reply)),
            Err(Undone::Refused(why)) => Ok(Some(Reply::No(why))),
            Err(Undone::Strange) => Ok(None),
            Err(Undone::NoMemory) => Err(NoMemory),
        }
    }

    // Does a call, by its kind.
    fn answer(&mut self, tapes: &Tapes, call: &Call) -> Result<Reply, Undone> {
        match call {
            Call::Record(take) => self.record(tapes, *take),
            Call::Concat(ropes) => self.concat(ropes),
            Call::Sub(rope, start, len) => self.sub(*rope, *start, *len),
            Call::Replace(rope, start, len, with) => self.replace(*rope, *start, *len, *with),
            Call::Length(rope) => self.length(*rope),
            Call::Describe(rope) => self.describe(*rope),
            Call::Levels(rope) => self.levels(*rope),
            Call::Play(lane, rope, start, len) => self.play(*lane, *rope, *start, *len),
            Call::Feed(lane, back) => self.feed(*lane, *back),
            Call::Stop(lane) => self.stop(*lane),
            Call::Retain(class, key, rope, note) => self.retain(Row {
                class: *class,
                key: *key,
                rope: *rope,
                note: *note,
            }),
            Call::Forget(class, key) => self.forget(*class, key),
            Call::Lookup(class, key) => self.lookup(*class, key),
            Call::Census(keys) => self.census(keys),
            Call::Advance(moment) => self.advance(*moment),
            Call::Sweep(limit) => self.sweep(*limit),
            Call::Begin(lane) => self.begin(*lane),
            Call::Add(lane, take) => self.add(tapes, *lane, *take),
            Call::End(lane) => self.end(*lane),
            Call::Landed => self.land(),
        }
    }

    /// Its disk is opened again: no lane has a job or an open recording, jobs are numbered from 1 on, and nothing is in doubt.
    pub fn reopen(&mut self) {
        self.made = 0;
        for jobs in self.lanes.iter_mut() {
            jobs.clear();
        }
        for taking in self.takings.iter_mut() {
            *taking = None;
        }
        self.doubted = None;
    }

    /// How many blocks nothing uses: no live rope, no passage of a job that is not stopped, and no open recording.
    pub fn free(&self) -> Result<u32, NoMemory> {
        let mut blocks = Vec::new(self.alloc);
        for rope in &self.ropes {
            add_blocks(&mut blocks, &rope.samples, self.shape.block)?;
        }
        for jobs in &self.lanes {
            for job in jobs {
                if !job.stopped {
                    add_blocks(&mut blocks, &job.passage, self.shape.block)?;
                }
            }
        }
        let mut used = u32::try_from(blocks.len()).unwrap_or(u32::MAX);
        for taking in self.takings.iter().chain([&self.doubted]) {
            if let Some(bytes) = taking {
                let taken = bytes.len().div_ceil(self.shape.block as usize);
                used = used.saturating_add(u32::try_from(taken).unwrap_or(u32::MAX));
            }
        }
        Ok(self.shape.blocks.saturating_sub(used))
    }
}
