//! A store over a disk in memory and the plain evaluator, which are asked the same calls, and the windows that are out on the lanes.

ghost use Rattle.std.specs.Prelude.{◌≡◌, IsTrue};
ghost use Rattle.std.specs.Option.{ForSome};
ghost use Rattle.std.specs.Arc.{arc_value};
ghost use Rattle.voice_model.specs.Valid.{InRange};
ghost use Rattle.lane_calls.specs.Answers.{IsHandedOut};
ghost use Rattle.built_calls.specs.Built.{is_built};
ghost use Rattle.voice_store.specs.Facts.{TakesAreIn, HasRopes};
ghost use Rattle.voice_store.specs.Shown.{tapes_in, pool_of};

use frame_pool::Lease;
use lane_calls::Fed;
use plain_calls::Plain;
use std::alloc::Global;
use std::sync::Arc;
use std::test::Fail;
use voice_disk::MemDisk;
use voice_model::{Call, Entry, Reply, RopeList, Tapes};
use voice_outside::Disk;
use voice_store::Store;
use voice_units::{Graces, Lane, RopeId, Shape, Take};

// Who makes all calls.
const CALLER: u16 = 1;

/// How many lanes there are.
pub const LANES: u16 = 4;

/// How a disk is laid out: the size of a block, how many there are, the size of an area of the journal, and the graces.
#[derive(Clone, Copy)]
pub struct Plan {
    pub block: u32,
    pub blocks: u32,
    pub area: u32,
    pub graces: Graces,
}

/// What the store answers, and what the evaluator does, as texts.
#[derive(Drop)]
pub struct Answers {
    pub found: String,
    pub wanted: String,
}

/// A store and the evaluator, their tapes, and the windows that are out on lanes 0 to 3. It is closed in one place, since a proof has to go through all that is let go.
pub struct Pair {
    store: Store<MemDisk>,
    plain: Plain,
    tapes: Arc<Tapes, Global>,
    first: Option<Lease>,
    second: Option<Lease>,
    third: Option<Lease>,
    fourth: Option<Lease>,
    ghost taped: { tapes_in store ≡ arc_value tapes },
    ghost first_owned: { ForSome first (λ l. l.pool ≡ pool_of store) },
    ghost second_owned: { ForSome second (λ l. l.pool ≡ pool_of store) },
    ghost third_owned: { ForSome third (λ l. l.pool ≡ pool_of store) },
    ghost fourth_owned: { ForSome fourth (λ l. l.pool ≡ pool_of store) },
}

// How many bytes a disk of a plan has. No shape fits if a `u64` can't say it.
fn size_of(plan: Plan) -> u64 {
    let front = 64 + 2 * u64::from(plan.area);
    let blocks = u64::from(plan.block).saturating_mul(u64::from(plan.blocks));
    blocks.saturating_add(front)
}

fn shape_of(plan: Plan) -> Result<Shape, Fail> {
    let size = size_of(plan);
    let lanes = u32::from(LANES);
    match Shape::new(
        2,
        plan.block,
        plan.blocks,
        plan.area,
        plan.graces,
        lanes,
        size,
    ) {
        Ok(shape) => Ok(shape),
        Err(_) => Err(Fail::new("no such shape")),
    }
}

// A disk of a shape, just formatted.
fn new_disk(alloc: Global, size: u64, shape: &Shape) -> Result<MemDisk, Fail> {
    let mut disk = MemDisk::new(alloc, size, Vec::new(alloc))?;
    let all = u64::from(shape.block) * u64::from(shape.blocks);
    if disk.size() < 64 + 2 * u64::from(shape.area) + all {
        return Err(Fail::new("the disk is too small"));
    }
    Store::format(&mut disk, shape)?;
    Ok(disk)
}

// What the evaluator answers.
fn wanted_of(alloc: Global, plain: &mut Plain, tapes: &Tapes, call: &Call) -> Result<String, Fail> {
    match plain.eval(tapes, call)? {
        Some(reply) => Ok(format!(in alloc; "{reply}\n")?),
        None => Err(Fail::new("the evaluator can't do it")),
    }
}

// The replies from a place of a history on, a line each.
fn found_in(alloc: Global, history: &[Entry], from: usize) -> Result<String, Fail> {
    let mut text = String::new(alloc);
    for entry in history.iter().skip(from) {
        let reply = &entry.reply;
        let line = format!(in alloc; "{reply}\n")?;
        text.push_str(&line)?;
    }
    Ok(text)
}

// How long a window is, 0 where none is out.
fn len_of(window: &Option<Lease>) -> u32 {
    match window {
        Some(lease) => lease.len(),
        None => 0,
    }
}

// The samples of a window, none where it was taken back.
fn copied(alloc: Global, lease: &mut Lease) -> Result<Option<Vec<u8>>, Fail>
    ensures { lease.new ≡ lease.old }
{
    if !lease.live() {
        return Ok(None);
    }
    let mut samples = vec![in alloc; 0u8; lease.len() as usize]?;
    let _all = lease.copy(0, &mut samples);
    Ok(Some(samples))
}

impl Pair {
    /// A pair over a new disk.
    pub fn open(alloc: Global, plan: Plan, tapes: Tapes) -> Result<Pair, Fail> {
        let shape = shape_of(plan)?;
        let disk = new_disk(alloc, size_of(plan), &shape)?;
        let plain = Plain::new(alloc, &shape)?;
        let Ok(tapes) = Arc::new(alloc, tapes) else {
            return Err(Fail::new("no memory"));
        };
        let Ok(shared) = Arc::try_clone(&tapes) else {
            return Err(Fail::new("no memory"));
        };
        match Store::open(alloc, disk, shared) {
            Ok(store) => Ok(Pair {
                store,
                plain,
                tapes,
                first: None,
                second: None,
                third: None,
                fourth: None,
            }),
            Err(_) => Err(Fail::new("the disk is refused")),
        }
    }

    /// Lets all go.
    pub fn close(self) {
        let Pair {
            store,
            plain: _,
            tapes: _,
            first: _,
            second: _,
            third: _,
            fourth: _,
        } = self;
        let (_disk, _history) = store.close();
    }

    /// Makes a call.
    pub fn ask(&mut self, alloc: Global, call: Call) -> Result<Answers, Fail>
        requires built { IsTrue (is_built call) }
        requires takes { TakesAreIn (tapes_in self.old.store) call }
        requires ropes { HasRopes call }
        requires range { InRange call }
    {
        let wanted = wanted_of(alloc, &mut self.plain, &self.tapes, &call)?;
        let before = self.store.history().len();
        let _reply = self.store.apply(CALLER, call)?;
        let found = found_in(alloc, self.store.history(), before)?;
        Ok(Answers { found, wanted })
    }

    /// Records samples of a tape.
    pub fn record(&mut self, alloc: Global, take: Take) -> Result<Answers, Fail> {
        if !self.tapes.has(take) {
            return Err(Fail::new("no such samples"));
        }
        self.ask(alloc, Call::Record(take))
    }

    /// Adds samples of a tape to the recording of a lane.
    pub fn add(&mut self, alloc: Global, lane: Lane, take: Take) -> Result<Answers, Fail> {
        if !self.tapes.has(take) {
            return Err(Fail::new("no such samples"));
        }
        self.ask(alloc, Call::Add(lane, take))
    }

    /// Makes a rope of these, one after another.
    pub fn concat(&mut self, alloc: Global, ropes: Vec<RopeId>) -> Result<Answers, Fail> {
        if ropes.len() < 1 || ropes.len() > 16 {
            return Err(Fail::new("so many ropes are not concatenated"));
        }
        self.ask(alloc, Call::Concat(RopeList::of(ropes)))
    }

    // Takes the window of a lane off, if one is out.
    fn hand_out(&mut self, lane: Lane) -> Option<Lease>
        ensures pool { ForSome result (λ l. l.pool ≡ pool_of self.old.store) }
        ensures same { self.new.store ≡ self.old.store }
    {
        match lane.0 {
            0 => self.first.take(),
            1 => self.second.take(),
            2 => self.third.take(),
            3 => self.fourth.take(),
            _ => None,
        }
    }

    // Puts the window of a lane back.
    fn keep(&mut self, lane: Lane, lease: Lease)
        requires { lease.pool ≡ pool_of self.old.store }
        ensures { self.new.store ≡ self.old.store }
    {
        match lane.0 {
            0 => self.first = Some(lease),
            1 => self.second = Some(lease),
            2 => self.third = Some(lease),
            3 => self.fourth = Some(lease),
            _ => {}
        }
    }

    // Keeps the window that a Feed of the lane came to, if it did.
    fn take_in(&mut self, lane: Lane, fed: Fed)
        requires { IsHandedOut (pool_of self.old.store) lane fed }
    {
        if let Fed::Window(_at, lease) = fed {
            self.keep(lane, lease);
        }
    }

    /// Asks for the next window of a lane.
    pub fn feed(&mut self, alloc: Global, lane: Lane) -> Result<Answers, Fail> {
        let call = Call::Feed(lane, None);
        let wanted = wanted_of(alloc, &mut self.plain, &self.tapes, &call)?;
        let before = self.store.history().len();
        let fed = self.store.feed(CALLER, lane)?;
        self.take_in(lane, fed);
        let found = found_in(alloc, self.store.history(), before)?;
        Ok(Answers { found, wanted })
    }

    /// Brings the window of a lane back, of which so much was heard, and asks for the next one.
    pub fn serve(&mut self, alloc: Global, lane: Lane, heard: u32) -> Result<Answers, Fail> {
        let Some(mut lease) = self.hand_out(lane) else {
            return Err(Fail::new("no window"));
        };
        if heard > lease.len() {
            return Err(Fail::new("the window is shorter"));
        }
        let on = lease.lane();
        let call = Call::Feed(on, Some(heard));
        let wanted = wanted_of(alloc, &mut self.plain, &self.tapes, &call)?;
        let before = self.store.history().len();
        let fed = self.store.serve(CALLER, &mut lease, heard)?;
        self.take_in(on, fed);
        let found = found_in(alloc, self.store.history(), before)?;
        Ok(Answers { found, wanted })
    }

    /// Takes the window of a lane back without a Feed. It stays here, and the evaluator isn't told.
    pub fn take_back(&mut self, lane: Lane) {
        if let Some(mut lease) = self.hand_out(lane) {
            self.store.take_back(&mut lease);
            self.keep(lane, lease);
        }
    }

    /// How many samples of a lane are out.
    pub fn out(&self, lane: Lane) -> u32 {
        match lane.0 {
            0 => len_of(&self.first),
            1 => len_of(&self.second),
            2 => len_of(&self.third),
            3 => len_of(&self.fourth),
            _ => 0,
        }
    }

    /// The samples of the window that is out on a lane; none where none is, or it was taken back.
    pub fn heard(&mut self, alloc: Global, lane: Lane) -> Result<Option<Vec<u8>>, Fail> {
        let Some(mut lease) = self.hand_out(lane) else {
            return Ok(None);
        };
        let heard = copied(alloc, &mut lease);
        self.keep(lane, lease);
        heard
    }

    /// The samples of a lane that are out by the evaluator.
    pub fn wanted(&self, lane: Lane) -> Result<Vec<u8>, Fail> {
        Ok(self.plain.window(lane)?)
    }

    /// How many blocks nothing uses: in the store, and by the evaluator.
    pub fn free(&self) -> Result<(u32, u32), Fail> {
        Ok((self.store.free(), self.plain.free()?))
    }

    /// How long a rope is by the evaluator, where it is live.
    pub fn length(&mut self, rope: RopeId) -> Result<Option<u32>, Fail> {
        match self.plain.eval(&self.tapes, &Call::Length(rope))? {
            Some(Reply::Number(length)) => Ok(Some(u32::try_from(length)?)),
            _ => Ok(None),
        }
    }
}
