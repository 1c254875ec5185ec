//! A store with the windows that are out on its first two lanes.

ghost use Rattle.std.specs.Prelude.{◌≡◌, IfOk, IsTrue};
ghost use Rattle.std.specs.Option.{ForSome};
ghost use Rattle.std.specs.Arc.{arc_value};
ghost use Rattle.voice_model.specs.Valid.{InRange};
ghost use Rattle.lane_calls.specs.Answers.{IsHandedOut};
ghost use Rattle.built_calls.specs.Built.{is_built};
ghost use Rattle.voice_store.specs.Facts.{TakesAreIn, HasRopes};
ghost use Rattle.voice_store.specs.Shown.{tapes_in, pool_of};

use frame_pool::Lease;
use lane_calls::Fed;
use std::alloc::Global;
use std::sync::Arc;
use std::test::Fail;
use voice_disk::MemDisk;
use voice_model::{Call, Entry, RopeList, Tapes};
use voice_outside::Disk;
use voice_store::Store;
use voice_units::{Graces, Lane, RopeId, Shape, Take};

// Who makes all calls.
const CALLER: u16 = 1;

// More windows than a passage of these tests has.
const WINDOWS: u32 = 128;

/// A store over a disk in memory, its tapes, and the windows that are out on lanes 0 and 1. It is closed in one place, since a proof has to go through all that is let go.
pub struct Desk {
    store: Store<MemDisk>,
    tapes: Arc<Tapes, Global>,
    first: Option<Lease>,
    second: Option<Lease>,
    ghost taped: { tapes_in store ≡ arc_value tapes },
    ghost first_owned: { ForSome first (λ l. l.pool ≡ pool_of store) },
    ghost second_owned: { ForSome second (λ l. l.pool ≡ pool_of store) },
}

// A shape of 4 lanes, on which a rope that nobody keeps stays for a minute.
fn shape_of(block: u32, blocks: u32, area: u32, size: u64) -> Option<Shape> {
    let graces = Graces {
        common: 60,
        held: 60,
        until: 60,
        listed: 60,
    };
    Shape::new(2, block, blocks, area, graces, 4, size).ok()
}

/// A disk of that size, just formatted.
pub fn new_disk(
    alloc: Global,
    (block, blocks, area, size): (u32, u32, u32, u64),
) -> Result<MemDisk, Fail> {
    let mut disk = MemDisk::new(alloc, size, Vec::new(alloc))?;
    let shape = shape_of(block, blocks, area, size).ok_or("no such shape")?;
    let all = u64::from(shape.block) * u64::from(shape.blocks);
    if disk.size() < 64 + 2 * u64::from(shape.area) + all {
        return Err(Fail::new("the disk is too small"));
    }
    Store::format(&mut disk, &shape)?;
    Ok(disk)
}

impl Desk {
    /// The desk of a disk, whose caller records from these tapes.
    pub fn open(alloc: Global, disk: MemDisk, tapes: Vec<Vec<u8>>) -> Result<Desk, Fail> {
        let Ok(tapes) = Arc::new(alloc, Tapes::new(tapes)) else {
            return Err(Fail::new("no memory"));
        };
        let Ok(shared) = Arc::try_clone(&tapes) else {
            return Err(Fail::new("no memory"));
        };
        match Store::open(alloc, disk, shared) {
            Ok(store) => Ok(Desk {
                store,
                tapes,
                first: None,
                second: None,
            }),
            Err(_) => Err(Fail::new("the disk is refused")),
        }
    }

    /// Lets all go.
    pub fn close(self) {
        let Desk {
            store,
            tapes: _,
            first: _,
            second: _,
        } = self;
        let (_disk, _history) = store.close();
    }

    /// Makes a call.
    pub fn ask(&mut self, call: Call) -> Result<(), Fail>
        requires built { IsTrue (is_built call) }
        requires takes { TakesAreIn (tapes_in self.old.store) call }
        requires ropes { HasRopes call }
        requires range { InRange call }
    {
        let _reply = self.store.apply(CALLER, call)?;
        Ok(())
    }

    /// Records the first samples of a tape.
    pub fn record(&mut self, tape: u32, len: u32) -> Result<(), Fail> {
        let take = Take { tape, from: 0, len };
        if !self.tapes.has(take) {
            return Err(Fail::new("no such samples"));
        }
        self.ask(Call::Record(take))
    }

    /// Makes a rope of these, one after another.
    pub fn concat(&mut self, ropes: Vec<RopeId>) -> Result<(), Fail> {
        if ropes.len() < 1 || ropes.len() > 16 {
            return Err(Fail::new("so many ropes are not concatenated"));
        }
        self.ask(Call::Concat(RopeList::of(ropes)))
    }

    // Takes the window of a lane off the desk.
    fn hand_out(&mut self, lane: Lane) -> Result<Lease, Fail>
        ensures pool { IfOk result (λ l. l.pool ≡ pool_of self.old.store) }
        ensures same { self.new.store ≡ self.old.store }
    {
        let window = match lane.0 {
            0 => self.first.take(),
            1 => self.second.take(),
            _ => None,
        };
        let Some(lease) = window else {
            return Err(Fail::new("no window"));
        };
        Ok(lease)
    }

    // Puts the window of a lane on the desk.
    fn keep(&mut self, lane: Lane, lease: Lease)
        requires { lease.pool ≡ pool_of self.old.store }
        ensures { self.new.store ≡ self.old.store }
    {
        match lane.0 {
            0 => self.first = Some(lease),
            1 => self.second = Some(lease),
            _ => {}
        }
    }

    // Puts the window on the desk that a Feed of the lane came to, if it did.
    fn take_in(&mut self, lane: Lane, fed: Fed)
        requires { IsHandedOut (pool_of self.old.store) lane fed }
    {
        if let Fed::Window(_at, lease) = fed {
            self.keep(lane, lease);
        }
    }

    /// Asks for the next window of a lane.
    pub fn feed(&mut self, lane: Lane) -> Result<(), Fail> {
        let fed = self.store.feed(CALLER, lane)?;
        self.take_in(lane, fed);
        Ok(())
    }

    /// Brings the window of a lane back, of which so much was heard, and asks for the next one.
    pub fn serve(&mut self, lane: Lane, heard: u32) -> Result<(), Fail> {
        let mut lease = self.hand_out(lane)?;
        if heard > lease.len() {
            return Err(Fail::new("the window is shorter"));
        }
        let on = lease.lane();
        let fed = self.store.serve(CALLER, &mut lease, heard)?;
        self.take_in(on, fed);
        Ok(())
    }

    /// Takes the window of a lane back without a Feed. It stays on the desk.
    pub fn take_back(&mut self, lane: Lane) -> Result<(), Fail> {
        let mut lease = self.hand_out(lane)?;
        self.store.take_back(&mut lease);
        self.keep(lane, lease);
        Ok(())
    }

    /// The samples of the window of a lane.
    pub fn copied(&mut self, alloc: Global, lane: Lane) -> Result<Vec<u8>, Fail> {
        let mut lease = self.hand_out(lane)?;
        if !lease.live() {
            return Err(Fail::new("the window is over"));
        }
        let mut samples = vec![in alloc; 0u8; lease.len() as usize]?;
        let _all = lease.copy(0, &mut samples);
        self.keep(lane, lease);
        Ok(samples)
    }

    /// Whether the window of a lane is on the desk.
    pub fn has_window(&self, lane: Lane) -> bool {
        match lane.0 {
            0 => self.first.is_some(),
            1 => self.second.is_some(),
            _ => false,
        }
    }

    /// The calls so far.
    pub fn history(&self) -> &[Entry] {
        self.store.history()
    }

    /// Whether a frame holds a block of a voice file.
    pub fn resident(&self, file: RopeId, index: u32) -> bool {
        self.store.resident(file, index)
    }

    /// How many blocks nothing uses.
    pub fn free(&self) -> u32 {
        self.store.free()
    }
}

/// What is heard of a lane's first job: window after window, each brought back once all of it was heard, until none is out.
pub fn hear(alloc: Global, desk: &mut Desk, lane: Lane) -> Result<Vec<u8>, Fail> {
    let mut heard = Vec::new(alloc);
    desk.feed(lane)?;
    for _ in 0..WINDOWS {
        if !desk.has_window(lane) {
            return Ok(heard);
        }
        let window = desk.copied(alloc, lane)?;
        heard.extend_from_slice(&window)?;
        desk.serve(lane, u32::try_from(window.len())?)?;
    }
    Ok(heard)
}
