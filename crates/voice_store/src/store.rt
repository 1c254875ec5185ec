//! The store.

ghost use Rattle.std.specs.Prelude.{◌≡◌, ◌≢◌, ◌<◌, ◌≤◌, ◌+◌, ◌-◌, ◌⊎◌, ◌++◌, ◌∷◌, ℕ, [], Some, None, true, false, IsTrue, IsOk, IfOk, IfErr, OnOk, OnErr, length, if◌then◌else◌, replicate};
ghost use Rattle.std.specs.Arc.{arc_value};
ghost use Rattle.voice_outside.specs.Counters.{HasRisen};
ghost use Rattle.voice_outside.specs.Disk.{MakesAtMost, Now};
ghost use Rattle.voice_journal.specs.Readings.{extent};
ghost use Rattle.voice_journal.specs.Looks.{Since};
ghost use Rattle.voice_journal.specs.Formatted.{IsFormatted, SameButHeads};
ghost use Rattle.voice_model.specs.State.{State, formatted};
ghost use Rattle.voice_model.specs.Room.{free, used};
ghost use Rattle.voice_model.specs.Valid.{InRange};
ghost use Rattle.voice_model.specs.declared.calls.Why.{Why};
ghost use Rattle.voice_model.specs.Image.{Reading, reading, opened_from};
ghost use Rattle.frame_pool.specs.Pool.{spent};
ghost use Rattle.tallies.specs.Tallies.{samples_of};
ghost use Rattle.lane_calls.specs.Answers.{IsHandedOut, HasStopped};
ghost use Rattle.recovery.specs.Shown.{IsParts};
ghost use Rattle.voice_store.specs.Feeding.{told, HasSamples};
ghost use Rattle.voice_store.specs.Shown.{Keeps, HasBlock, HasRoomFor, history_of, tapes_in, pool_of, lanes_in, frames_in, state_of};
ghost use Rattle.voice_store.specs.Stood.{ShowsState};
ghost use Rattle.voice_store.specs.Residing.{has_use, HoldsWindow, KeepsFrames, MovesFrames};
ghost use Rattle.playing.specs.Frames.{is_resident};
ghost use Rattle.voice_model.specs.Step.{landed};
ghost use Rattle.listening.specs.Looks.{OnlyLooked, Looked};
ghost use Rattle.voice_store.specs.Facts.{entry_of, Adds, AddsLanding, Goes, GoesOn, IsFault, TakesAreIn, HasRopes, hears, only_tells, most_reads};
ghost use Rattle.voice_store.specs.DeviceCalls.{landing_calls, most_calls};
ghost use Rattle.voice_store.specs.Spare.{FitsBehindOthers};
ghost use Rattle.voice_store.specs.Turns.{AddsShortly, unread_blocks, window_blocks};
ghost use Rattle.row_calls.specs.Asked.{takes_no_memory};
ghost use Rattle.built_calls.specs.Built.{is_built};

use crate::inside::Inside;
use frame_pool::Lease;
use journal_readings::laws::opens_empty;
use lane_calls::Fed;
use recovery::Parts;
use std::alloc::Global;
use std::marker::Model;
use std::snapshot::Snapshot;
use std::sync::Arc;
use tallies::{Tally, tallied};
use voice_journal::{Journal, OpenError};
use voice_model::{Call, Entry, Reply, Tapes};
use voice_outside::Disk;
use voice_units::{Failed, Lane, NoMemory, RopeId, Shape};

/// The voice manager's store over a disk: the calls of several callers, one at a time, and the history of them. Contracts see the disk, the disk as it was opened, the tapes, the history, and whether memory was wanted; the state is that of the history, from what the disk's bytes were as it was opened.
#[derive(Drop)]
pub struct Store<D: Disk> {
    disk: D,
    origin: Snapshot<D>,
    inside: Inside,
    wanted: bool,
}

impl<D: Disk> Model for Store<D> {
    ghost use Rattle.voice_store.specs.Shown.{Shown, IsWhole};

    ghost Value = { Shown D };

    ghost view = { λ s. record { disk = s.disk; origin = s.origin.value; inside = s.inside; wanted = s.wanted } };

    ghost invariant = { λ s. IsWhole (D.told s.origin.value) (D.told s.disk) s.inside s.wanted };
}

impl<D: Disk> Store<D> {
    /// Formats a disk for a shape. After `Failed` nothing is known of it, and it has to be formatted again.
    pub fn format(disk: &mut D, shape: &Shape) -> Result<(), Failed>
        requires { extent shape.now ≤ (D.told disk.old).size }
        ensures made { MakesAtMost 3 (D.told disk.old) (D.told disk.new) result }
        ensures ok { IsTrue (D.told disk.old).honest → OnOk result (Now (D.told disk.new) (IsFormatted shape.now (D.told disk.old).bytes)) }
        // It opens as the empty state of the shape.
        ensures opens { IsTrue (D.told disk.old).honest → OnOk result (Now (D.told disk.new) (λ image. opened_from image ≡ Some (formatted shape.now))) }
        ensures bytes { IsTrue (D.told disk.old).honest → SameButHeads shape.now (D.told disk.old).bytes (D.told disk.new).bytes }
    {
        opens_empty();
        Journal::format(disk, shape)
    }

    /// Opens the store of a disk, with an empty history. `BadDisk` comes exactly where the disk's bytes have damage, with the place of the first. An `Err` hands the disk back. It makes at most 5 device calls, and changes nothing.
    pub fn open(
        alloc: Global,
        mut disk: D,
        tapes: Arc<Tapes, Global>,
    ) -> Result<Store<D>, (OpenError, D)>
        ensures ok { IfOk result (λ s. (s.origin ≡ disk) × (tapes_in s ≡ arc_value tapes) × (history_of s ≡ []) × Goes 5 (D.told disk) (D.told s.disk) × (s.wanted ≡ false)) }
        // The opened state is what the disk's bytes recover.
        ensures state { IfOk result (λ s. (first : State) × Keeps D.told first s × (IsTrue (D.told disk).honest → opened_from (D.told disk).bytes ≡ Some first)) }
        // The tables are those that the records rebuild, on every disk.
        ensures parts { IfOk result (λ s. IsParts s.inside.journal.shape s.inside.parts) }
        // No frame holds a block.
        ensures frames { IfOk result (λ s. (n : ℕ) × (frames_in s ≡ replicate n None)) }
        // From the first sync on, each crash leaves the bytes that were read.
        ensures since { IfOk result (λ s. IsTrue (D.told disk).honest → OnlyLooked (D.told disk) (D.told s.disk) × Since ((D.told disk).calls + 1) (D.told s.disk) (λ image. image ≡ (D.told disk).bytes)) }
        ensures goes { IfErr result (λ e. Goes 5 (D.told disk) (D.told e.1)) }
        ensures looks { IfErr result (λ e. IsTrue (D.told disk).honest → OnlyLooked (D.told disk) (D.told e.1)) }
        ensures bad { IfErr result (λ e. (place : ℕ) → e.0 ≡ OpenError.BadDisk place → IsTrue (D.told disk).honest → reading (D.told disk).bytes ≡ Reading.Bad place) }
        ensures fault { IfErr result (λ e. e.0 ≡ OpenError.DiskFault → HasRisen (D.told disk).faults (D.told e.1).faults) }
    {
        let origin = Snapshot::of(&disk);
        match Inside::open(alloc, &mut disk, tapes) {
            Ok(inside) => Ok(Store {
                disk,
                origin,
                inside,
                wanted: false,
            }),
            Err(e) => Err((e, disk)),
        }
    }

    /// Makes a call for a caller, and adds its entry to the history, after a landing where a change was in doubt and the call is of a kind that makes changes. After `NoMemory` nothing of the call is done, but a change in doubt may have landed.
    pub fn apply(&mut self, caller: u16, call: Call) -> Result<Reply, NoMemory>
        requires built { IsTrue (is_built call) }
        requires takes { TakesAreIn (tapes_in self.old) call }
        requires ropes { HasRopes call }
        requires range { InRange call }
        requires caller_least { 1 ≤ caller }
        requires caller_most { caller ≤ 16 }
        ensures entry { IfOk result (λ reply. Adds caller call reply (D.told self.new.disk).calls (history_of self.old) (history_of self.new)) }
        ensures err { OnErr result (AddsLanding (history_of self.old) (history_of self.new)) }
        // The history stays legal, on a disk that isn't honest but for the talk and peaks that were read off it; and what a crash may leave since an entry is that entry's state or a later one.
        ensures state { (first : State) → Keeps D.told first self.old → Keeps D.told first self.new }
        // A call that the tables and the lanes answer, and a Stop, take no memory where there is room for the entry and one more.
        ensures spare { IsTrue (only_tells call) → HasRoomFor 2 self.old → IsOk result }
        // Nor does a Forget or an Advance, where nothing is in doubt and its change fits behind the other records.
        ensures behind { (first : State) → Keeps D.told first self.old → IsTrue (takes_no_memory call) → HasRoomFor 2 self.old → (state_of first self.old).doubt ≡ None → FitsBehindOthers (state_of first self.old) (tapes_in self.old) call → IsOk result }
        ensures cause { IfOk result (λ reply. IsFault reply → HasRisen (D.told self.old.disk).faults (D.told self.new.disk).faults) }
        ensures goes { GoesOn (D.told self.old.disk) (D.told self.new.disk) }
        ensures calls { (first : State) → Keeps D.told first self.old → (D.told self.new.disk).calls ≤ (D.told self.old.disk).calls + most_calls (state_of first self.old) (tapes_in self.old) call }
        // The entry comes within the device calls that its call may take, and a landing before it within its two.
        ensures turns { (first : State) → Keeps D.told first self.old → IfOk result (λ reply. AddsShortly (state_of first self.old) (tapes_in self.old) (D.told self.old.disk).calls caller call reply (D.told self.new.disk).calls (history_of self.old) (history_of self.new)) }
        // A call for which there is no memory makes no device call but those of a landing, and reads.
        ensures few { (first : State) → Keeps D.told first self.old → OnErr result ((D.told self.new.disk).calls ≤ (D.told self.old.disk).calls + (landing_calls (state_of first self.old) + most_reads (state_of first self.old) call)) }
        ensures still { (first : State) → Keeps D.told first self.old → (state_of first self.old).doubt ≡ None → OnErr result ((history_of self.new ≡ history_of self.old) × (hears call ≡ false → self.new.disk ≡ self.old.disk)) }
        // A call that hears a rope changes no byte, whatever its answer.
        ensures looks { IsTrue (hears call) → IsTrue (D.told self.old.disk).honest → OnlyLooked (D.told self.old.disk) (D.told self.new.disk) }
        // No block comes into a frame, and none leaves but one that no live rope and no held passage has after a landing, or after the call.
        ensures frames { (first : State) → Keeps D.told first self.old → KeepsFrames (landed (state_of first self.old)) (state_of first self.new) (frames_in self.old) (frames_in self.new) }
        // An answer leaves it as it was whether memory was wanted; want of memory is told from then on.
        ensures wanted { OnOk result (self.new.wanted ≡ self.old.wanted) }
        ensures want { OnErr result (self.new.wanted ≡ true) }
        ensures origin { self.new.origin ≡ self.old.origin }
        ensures tapes { tapes_in self.new ≡ tapes_in self.old }
        ensures pool { pool_of self.new ≡ pool_of self.old }
    {
        let answer = self.inside.apply(&mut self.disk, caller, call);
        self.wanted |= answer.is_err();
        answer
    }

    /// Makes room for so many entries of the history; all else stays, whatever the answer.
    pub fn reserve(&mut self, n: u32) -> Result<(), NoMemory>
        ensures room { OnOk result (HasRoomFor n self.new) }
        ensures spare { HasRoomFor n self.old → IsOk result }
        ensures history { history_of self.new ≡ history_of self.old }
        ensures state { (first : State) → Keeps D.told first self.old → Keeps D.told first self.new }
        ensures rest { (self.new.disk ≡ self.old.disk) × (self.new.origin ≡ self.old.origin) × (tapes_in self.new ≡ tapes_in self.old) × (pool_of self.new ≡ pool_of self.old) × (frames_in self.new ≡ frames_in self.old) × (self.new.wanted ≡ self.old.wanted) }
    {
        self.inside.reserve(n)
    }

    /// Asks for a caller for the next window of a lane's first job, while no window comes back, and adds the entry to the history. It is refused where the lane is unknown, has no job, or has a window out, in this order. A job that was stopped or heard to its end leaves the lane.
    pub fn feed(&mut self, caller: u16, lane: Lane) -> Result<Fed, NoMemory>
        ensures entry { IfOk result (λ fed. history_of self.new ≡ history_of self.old ++ entry_of caller (Call.Feed lane None) (told fed) (D.told self.new.disk).calls ∷ []) }
        ensures err { OnErr result (history_of self.new ≡ history_of self.old) }
        // The history stays legal and held, as after a call that is applied.
        ensures state { (first : State) → Keeps D.told first self.old → Keeps D.told first self.new }
        // The lease of a window has the samples of the first job's passage, from where it begins, whatever was removed, freed or recorded meanwhile.
        ensures samples { IsTrue (D.told self.old.disk).honest → (first : State) → Keeps D.told first self.old → IfOk result (HasSamples (state_of first self.old) lane) }
        // Frames hold the blocks of the window that is handed out.
        ensures holds { (first : State) → Keeps D.told first self.old → IfOk result (HoldsWindow (state_of first self.old) lane (frames_in self.new)) }
        // A block leaves its frame only for one that no frame held, or as no live rope and no held passage has it any more.
        ensures moves { (first : State) → Keeps D.told first self.old → MovesFrames (state_of first self.new) (frames_in self.old) (frames_in self.new) }
        // The lease of a window is of this store's pool and of the lane; it can be brought back.
        ensures fresh { IfOk result (IsHandedOut (pool_of self.old) lane) }
        ensures cause { IfOk result (λ fed. IsFault (told fed) → HasRisen (D.told self.old.disk).faults (D.told self.new.disk).faults) }
        // It reads at most four blocks, and changes no byte.
        ensures looks { Looked 4 (D.told self.old.disk) (D.told self.new.disk) }
        // It reads each block of its window once at most, and none that a frame holds.
        ensures calls { (first : State) → Keeps D.told first self.old → (D.told self.new.disk).calls ≤ (D.told self.old.disk).calls + window_blocks (state_of first self.old) lane None }
        ensures reads { (first : State) → Keeps D.told first self.old → (D.told self.new.disk).calls ≤ (D.told self.old.disk).calls + unread_blocks (state_of first self.old) lane None (frames_in self.old) }
        ensures wanted { OnOk result (self.new.wanted ≡ self.old.wanted) }
        ensures want { OnErr result (self.new.wanted ≡ true) }
        ensures origin { self.new.origin ≡ self.old.origin }
        ensures tapes { tapes_in self.new ≡ tapes_in self.old }
        ensures pool { pool_of self.new ≡ pool_of self.old }
    {
        if self.inside.reserve(1).is_err() {
            self.wanted = true;
            return Err(NoMemory);
        }
        let answer = self.inside.feed(&mut self.disk, caller, lane);
        self.wanted |= answer.is_err();
        answer
    }

    /// Brings for a caller the lease of a window back, of which so much was heard, and asks for the next window of its lane's first job, as `feed`. After `NoMemory` the lease may be taken back already, and can be brought back again; one that is not that of a window which is out is always answered so, with all as before.
    pub fn serve(&mut self, caller: u16, lease: &mut Lease, heard: u32) -> Result<Fed, NoMemory>
        requires pool { lease.old.pool ≡ pool_of self.old }
        requires most { heard ≤ lease.old.len }
        ensures entry { IfOk result (λ fed. history_of self.new ≡ history_of self.old ++ entry_of caller (Call.Feed lease.old.lane (Some heard)) (told fed) (D.told self.new.disk).calls ∷ []) }
        ensures err { OnErr result (history_of self.new ≡ history_of self.old) }
        ensures state { (first : State) → Keeps D.told first self.old → Keeps D.told first self.new }
        ensures samples { IsTrue (D.told self.old.disk).honest → (first : State) → Keeps D.told first self.old → IfOk result (HasSamples (state_of first self.old) lease.old.lane) }
        // Frames hold the blocks of the window that is handed out.
        ensures holds { (first : State) → Keeps D.told first self.old → IfOk result (HoldsWindow (state_of first self.old) lease.old.lane (frames_in self.new)) }
        // A block leaves its frame only for one that no frame held, or as no live rope and no held passage has it any more.
        ensures moves { (first : State) → Keeps D.told first self.old → MovesFrames (state_of first self.new) (frames_in self.old) (frames_in self.new) }
        ensures fresh { IfOk result (IsHandedOut (pool_of self.old) lease.old.lane) }
        // A lease whose player saw the hint is that of a job that is stopped.
        ensures hinted { lease.old.taken ≡ false → lease.old.hinted ≡ true → IfOk result HasStopped }
        // A window that comes back is not refused.
        ensures unrefused { IfOk result (λ fed. (reason : Why) → fed ≢ Fed.Refused reason) }
        ensures lease { (lease.new ≡ lease.old) ⊎ (lease.new ≡ spent lease.old) }
        ensures back { IfOk result (λ fed. lease.new ≡ (if lease.old.taken then lease.old else spent lease.old)) }
        ensures cause { IfOk result (λ fed. IsFault (told fed) → HasRisen (D.told self.old.disk).faults (D.told self.new.disk).faults) }
        ensures looks { Looked 4 (D.told self.old.disk) (D.told self.new.disk) }
        ensures calls { (first : State) → Keeps D.told first self.old → (D.told self.new.disk).calls ≤ (D.told self.old.disk).calls + window_blocks (state_of first self.old) lease.old.lane (Some heard) }
        ensures reads { (first : State) → Keeps D.told first self.old → (D.told self.new.disk).calls ≤ (D.told self.old.disk).calls + unread_blocks (state_of first self.old) lease.old.lane (Some heard) (frames_in self.old) }
        ensures wanted { OnOk result (self.new.wanted ≡ self.old.wanted) }
        ensures want { OnErr result (self.new.wanted ≡ true) }
        ensures origin { self.new.origin ≡ self.old.origin }
        ensures tapes { tapes_in self.new ≡ tapes_in self.old }
        ensures pool { pool_of self.new ≡ pool_of self.old }
    {
        if self.inside.reserve(1).is_err() {
            self.wanted = true;
            return Err(NoMemory);
        }
        let answer = self.inside.serve(&mut self.disk, caller, lease, heard);
        self.wanted |= answer.is_err();
        answer
    }

    /// Takes the lease of a window back without a Feed, so that its player hears it no longer. The window stays out, and nothing else changes; a lease that was taken back before stays as it is.
    pub fn take_back(&mut self, lease: &mut Lease)
        requires pool { lease.old.pool ≡ pool_of self.old }
        ensures lease { (lease.new ≡ lease.old) ⊎ (lease.new ≡ spent lease.old) }
        // That of a lane of the store is back.
        ensures back { lease.old.lane < lanes_in self.old → lease.new ≡ (if lease.old.taken then lease.old else spent lease.old) }
        ensures history { history_of self.new ≡ history_of self.old }
        ensures state { (first : State) → Keeps D.told first self.old → Keeps D.told first self.new }
        ensures rest { (self.new.disk ≡ self.old.disk) × (self.new.origin ≡ self.old.origin) × (tapes_in self.new ≡ tapes_in self.old) × (pool_of self.new ≡ pool_of self.old) × (frames_in self.new ≡ frames_in self.old) × (self.new.wanted ≡ self.old.wanted) }
    {
        self.inside.take_back(&self.disk, lease);
    }

    /// The calls so far, in order.
    pub fn history(&self) -> &[Entry]
        ensures { result.now ≡ history_of self.now }
    {
        &self.inside.history
    }

    /// Whether there was want of memory for a call, a Feed or a window that came back, since the store was opened. Without it each entry's moment lies at most the device calls that its call may take behind the one before it; the device calls of one that was not entered are counted nowhere.
    pub fn wanted(&self) -> bool
        ensures { result ≡ self.now.wanted }
    {
        self.wanted
    }

    /// Whether a frame holds the bytes of a block of a voice file: then a Feed whose window has it does not read it.
    pub fn resident(&self, file: RopeId, index: u32) -> bool
        ensures value { result ≡ is_resident (frames_in self.now) file index }
        // Its bytes in the frame are those at its address on the disk.
        ensures bytes { IsTrue (D.told self.now.disk).honest → (first : State) → Keeps D.told first self.now → result ≡ true → HasBlock (D.told self.now.disk).bytes self.now file index }
        // A live rope or a held passage has it.
        ensures used { (first : State) → Keeps D.told first self.now → result ≡ true → has_use (state_of first self.now) file index ≡ true }
    {
        self.inside.lanes.is_resident(file, index)
    }

    /// How many lanes there are.
    pub fn lanes(&self) -> u16
        ensures { result ≡ lanes_in self.now }
    {
        self.inside.journal.shape().lanes
    }

    /// How many blocks nothing uses: no live rope, no held passage, no change in doubt, and no open recording.
    pub fn free(&self) -> u32
        ensures { (first : State) → Keeps D.told first self.now → result ≡ free (state_of first self.now) }
    {
        self.inside.parts.blocks.free()
    }

    /// How many ropes are live, how many samples they have in all, and how many blocks are used: by live ropes, by held passages, by a change in doubt, and by open recordings. It takes no memory and makes no device call, and goes over the live ropes.
    pub fn tally(&self) -> Tally
        ensures ropes { (first : State) → Keeps D.told first self.now → result.ropes ≡ length (state_of first self.now).kept.ropes }
        ensures samples { (first : State) → Keeps D.told first self.now → result.samples ≡ samples_of (state_of first self.now).kept.ropes }
        ensures blocks { (first : State) → Keeps D.told first self.now → result.blocks ≡ used (state_of first self.now) }
    {
        tallied(&self.inside.parts, &self.inside.journal.shape())
    }

    /// The shape of the disk.
    pub fn shape(&self) -> Shape
        ensures value { result ≡ self.now.inside.journal.shape }
        ensures state { (first : State) → Keeps D.told first self.now → (state_of first self.now).kept.shape ≡ result }
    {
        self.inside.journal.shape()
    }

    /// The tables of ropes, interests and blocks. Where nothing is in doubt they show what outlives a crash of the state.
    pub fn parts(&self) -> &Parts
        ensures same { result.now ≡ self.now.inside.parts }
        ensures shows { (first : State) → Keeps D.told first self.now → (state_of first self.now).doubt ≡ None → ShowsState result.now (state_of first self.now) }
    {
        &self.inside.parts
    }

    /// Hands the disk and the history back.
    pub fn close(self) -> (D, Vec<Entry>)
        ensures disk { result.0 ≡ self.disk }
        ensures history { result.1.items ≡ history_of self }
    {
        let Store {
            disk,
            origin: _,
            inside,
            wanted: _,
        } = self;
        (disk, inside.history)
    }
}
