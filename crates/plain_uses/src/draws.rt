//! Steps drawn from a seed, with numbers near the edges.

use crate::mixes::{Kind, MIXES};
use crate::pair::{LANES, Pair};
use crate::steps::Step;
use crate::tapes::{SIGNS, TALK};
use std::test::Fail;
use voice_model::Class;
use voice_units::{Lane, RopeId};

// No rope becomes longer.
const MOST: u32 = 6000;

/// What steps are drawn from: a number that looks like a random one, a mix, the number of the last rope, the latest moment, the last interest, how large a block is, and the lane where a recording was begun last, until its end.
#[derive(Drop)]
pub struct Draws {
    number: u64,
    mix: usize,
    newest: u64,
    moment: u64,
    row: (Class, u8),
    block: u32,
    begun: Option<u16>,
}

// The next of a row of numbers that look like random ones.
fn next_number(number: u64) -> u64 {
    number
        .wrapping_mul(6_364_136_223_846_793_005)
        .wrapping_add(1_442_695_040_888_963_407)
}

// The length of a rope by the evaluator, where it is live.
fn live_length(pair: &mut Pair, rope: u64) -> Result<Option<u32>, Fail> {
    match RopeId::new(rope) {
        Some(id) => pair.length(id),
        None => Ok(None),
    }
}

// The same, and 0 where it is not live.
fn length(pair: &mut Pair, rope: u64) -> Result<u32, Fail> {
    Ok(live_length(pair, rope)?.unwrap_or(0))
}

impl Draws {
    /// Those of a seed, over blocks of this size.
    pub fn new(seed: u64, block: u32) -> Draws {
        Draws {
            number: next_number(seed),
            mix: (seed % 7) as usize,
            newest: 0,
            moment: 0,
            row: (Class::Held, 0),
            block,
            begun: None,
        }
    }

    // A number below a count, and 0 below 0.
    fn below(&mut self, count: u32) -> u32 {
        if count == 0 {
            return 0;
        }
        self.number = next_number(self.number);
        ((self.number >> 33) % u64::from(count)) as u32
    }

    // One of some numbers.
    fn one_of(&mut self, numbers: &[u32]) -> u32 {
        let place = self.below(numbers.len().min(16) as u32);
        match numbers.get(place as usize) {
            Some(number) => *number,
            None => 0,
        }
    }

    fn kind(&mut self) -> Kind {
        if self.newest == 0 && self.below(4) > 0 {
            return Kind::Record;
        }
        let mix = MIXES.get(self.mix).copied().unwrap_or(&[]);
        let place = self.below(mix.len().min(64) as u32);
        match mix.get(place as usize) {
            Some(kind) => *kind,
            None => Kind::Record,
        }
    }

    // A rope: mostly one of the last ones, now and then one that never was.
    fn rope(&mut self) -> u64 {
        let last = self.newest.min(6) as u32;
        let all = self.newest.min(1000) as u32;
        match self.below(32) {
            0 => 0,
            1 => self.newest.saturating_add(1),
            2 => 1 << 48,
            3..8 => u64::from(self.below(all).saturating_add(1)),
            _ => self.newest.saturating_sub(u64::from(self.below(last))),
        }
    }

    // An interval of a rope of this length: mostly inside, now and then one beyond.
    fn interval(&mut self, length: u32) -> (u32, u32) {
        let start = match self.below(32) {
            0 => u32::MAX,
            1 => length.saturating_add(1),
            2 => length,
            3..18 => 0,
            _ => self.below(length),
        };
        let rest = length.saturating_sub(start);
        let len = match self.below(32) {
            0 => u32::MAX,
            1 => rest.saturating_add(1),
            2 => 0,
            3 => 1,
            4..18 => rest,
            _ => self.below(rest.saturating_add(1)),
        };
        (start, len)
    }

    // A lane: mostly the first one, now and then one too many.
    fn lane(&mut self) -> u16 {
        match self.below(32) {
            0 => LANES,
            1..4 => 3,
            4..7 => 2,
            7..12 => 1,
            _ => 0,
        }
    }

    fn class(&mut self) -> Class {
        match self.below(3) {
            0 => Class::Held,
            1 => Class::Until,
            _ => Class::Listed,
        }
    }

    // One of few keys.
    fn key(&mut self) -> u8 {
        (self.below(4) % 4) as u8
    }

    // How long a recording is: near the length of whole blocks, and much longer.
    fn recorded_length(&mut self) -> u32 {
        let block = self.block;
        match self.below(16) {
            0 => 0,
            1..4 => block.saturating_sub(1),
            4..6 => block,
            6..8 => block.saturating_add(1),
            8..10 => block.saturating_mul(2).saturating_add(4),
            10 => block.saturating_mul(5),
            11 => block.saturating_mul(80),
            12 | 13 => 20,
            _ => 1,
        }
    }

    // A part of a tape: the tape, from, len. Often it is the tape's last one.
    fn part(&mut self) -> (u32, u32, u32) {
        let wanted = self.recorded_length();
        let (tape, most) = if wanted > 64 || self.below(2) == 0 {
            (TALK, 10_000)
        } else {
            (SIGNS, 64)
        };
        let len = wanted.min(most);
        let last = most.saturating_sub(len);
        let from = match self.below(4) {
            0 => last,
            _ => self.below(last.saturating_add(1)),
        };
        (tape, from, len)
    }

    fn recording(&mut self) -> Step {
        let (tape, from, len) = self.part();
        Step::Record(tape, from, len)
    }

    // A lane for recordings in parts: mostly the last one, where few jobs come, now and then one too many.
    fn recording_lane(&mut self) -> u16 {
        match self.below(32) {
            0 => LANES,
            1 => u16::MAX,
            2..6 => 0,
            6..10 => 1,
            10..16 => 2,
            _ => 3,
        }
    }

    fn begin(&mut self) -> Step {
        let lane = self.recording_lane();
        self.begun = Some(lane);
        Step::Begin(lane)
    }

    // A lane that may record: mostly the one where a recording was begun last.
    fn begun_lane(&mut self) -> u16 {
        let is_known = self.below(8) > 0;
        match self.begun {
            Some(lane) if is_known => lane,
            _ => self.recording_lane(),
        }
    }

    // Whether a recording is begun first, since none is known.
    fn begins(&mut self) -> bool {
        self.begun.is_none() && self.below(4) > 0
    }

    fn add(&mut self) -> Step {
        if self.begins() {
            return self.begin();
        }
        let lane = self.begun_lane();
        let (tape, from, len) = self.part();
        Step::Add(lane, tape, from, len)
    }

    fn end(&mut self) -> Step {
        if self.begins() {
            return self.begin();
        }
        let lane = self.begun_lane();
        if self.begun == Some(lane) {
            self.begun = None;
        }
        Step::End(lane)
    }

    // Two ropes by turns, as often as what they make stays short enough: mostly the last one again and again.
    fn concat(&mut self, pair: &mut Pair) -> Result<Step, Fail> {
        let (mut first, mut other) = (self.rope(), self.rope());
        if self.below(2) == 0 {
            first = self.newest;
            other = self.newest;
        }
        let longest = length(pair, first)?.max(length(pair, other)?);
        let most = MOST / longest.max(1);
        let count = self.one_of(&[1, 2, 3, 16, 16, 16]).min(most.max(1));
        Ok(Step::Concat(count, first, other))
    }

    fn sub(&mut self, pair: &mut Pair) -> Result<Step, Fail> {
        let rope = self.rope();
        let (start, len) = self.interval(length(pair, rope)?);
        Ok(Step::Sub(rope, start, len))
    }

    fn replace(&mut self, pair: &mut Pair) -> Result<Step, Fail> {
        let (rope, with) = (self.rope(), self.rope());
        let (long, other) = (length(pair, rope)?, length(pair, with)?);
        let (start, len) = self.interval(long);
        if long.saturating_add(other) > MOST {
            return Ok(Step::Sub(rope, start, len));
        }
        Ok(Step::Replace(rope, start, len, with))
    }

    // A call that tells of a rope.
    fn telling(&mut self) -> Step {
        let rope = self.rope();
        match self.below(3) {
            0 => Step::Length(rope),
            1 => Step::Describe(rope),
            _ => Step::Levels(rope),
        }
    }

    fn play(&mut self, pair: &mut Pair) -> Result<Step, Fail> {
        let rope = self.rope();
        let (start, len) = self.interval(length(pair, rope)?);
        let lane = match self.below(8) {
            0 => self.begun_lane(),
            _ => self.lane(),
        };
        Ok(Step::Play(lane, rope, start, len))
    }

    // A lane with a window out, if there is one.
    fn lane_with_window(&mut self, pair: &Pair) -> u16 {
        for lane in 0..LANES {
            if pair.out(Lane(lane)) > 0 && self.below(3) > 0 {
                return lane;
            }
        }
        self.lane()
    }

    // A window comes back, if one is out: nothing of it was heard, a part, or all.
    fn serve(&mut self, pair: &Pair) -> Step {
        let lane = self.lane_with_window(pair);
        let out = pair.out(Lane(lane));
        if out == 0 {
            return Step::Feed(lane);
        }
        match self.below(16) {
            0 => Step::TakeBack(lane),
            1 | 2 => Step::Serve(lane, 0),
            3..8 => Step::Serve(lane, self.below(out.saturating_add(1))),
            _ => Step::Serve(lane, out),
        }
    }

    // What notes spell: moments before now, now, behind now and above the last one, and none.
    fn noted(&mut self) -> Option<u64> {
        match self.below(8) {
            0 => None,
            1 => Some(self.moment.saturating_sub(1)),
            2 => Some(self.moment),
            3 => Some(1 << 40),
            4 => Some((1 << 40) + 1),
            _ => Some(self.moment.saturating_add(u64::from(self.below(30)))),
        }
    }

    // An interest of a live rope, or of another one.
    fn retain(&mut self) -> Step {
        self.row = (self.class(), self.key());
        let (class, key) = self.row;
        Step::Retain(class, key, self.rope(), self.noted())
    }

    // A call on an interest: often on the last one.
    fn on_row(&mut self) -> Step {
        let (class, key) = if self.below(2) == 0 {
            self.row
        } else {
            (self.class(), self.key())
        };
        match self.below(6) {
            0 => Step::Census((self.below(16) % 16) as u8),
            1..4 => Step::Lookup(class, key),
            _ => Step::Forget(class, key),
        }
    }

    // A moment near the last one, seldom the very last.
    fn advance(&mut self) -> Step {
        let more = self.one_of(&[0, 1, 5, 10, 11, 20, 30, 40]);
        match self.below(64) {
            0 => self.moment = 1 << 40,
            1..8 => return Step::Advance(self.moment.saturating_sub(1)),
            _ => self.moment = self.moment.saturating_add(u64::from(more)).min(1 << 40),
        }
        Step::Advance(self.moment)
    }

    fn sweep(&mut self) -> Step {
        match self.below(8) {
            0 => Step::Sweep(0),
            1 | 2 => Step::Sweep(1),
            3 => Step::Sweep(2),
            4 => Step::Sweep(u16::MAX),
            _ => Step::Sweep(9),
        }
    }

    /// The next step.
    pub fn step(&mut self, pair: &mut Pair) -> Result<Step, Fail> {
        let next = self.newest.saturating_add(1);
        if live_length(pair, next)?.is_some() {
            self.newest = next;
        }
        match self.kind() {
            Kind::Record => Ok(self.recording()),
            Kind::Concat => self.concat(pair),
            Kind::Sub => self.sub(pair),
            Kind::Replace => self.replace(pair),
            Kind::Tell => Ok(self.telling()),
            Kind::Play => self.play(pair),
            Kind::Feed => Ok(Step::Feed(self.lane())),
            Kind::Serve => Ok(self.serve(pair)),
            Kind::Stop => Ok(Step::Stop(self.lane())),
            Kind::Retain => Ok(self.retain()),
            Kind::Row => Ok(self.on_row()),
            Kind::Advance => Ok(self.advance()),
            Kind::Sweep => Ok(self.sweep()),
            Kind::Begin => Ok(self.begin()),
            Kind::Add => Ok(self.add()),
            Kind::End => Ok(self.end()),
        }
    }
}
