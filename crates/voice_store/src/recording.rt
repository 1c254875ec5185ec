//! Recordings.

ghost use Rattle.std.specs.Prelude.{◌≡◌, ◌+◌, ◌*◌, ◌==◌, ◌≤◌, ◌<◌, ◌^◌, ◌++◌, ◌∷◌, [], ℕ, List, None, cond, length, IsTrue, IfOk, OnOk, OnErr, vec_len, vec_capacity};
ghost use Rattle.voice_units.specs.Blocks.{blocks_for};
ghost use Rattle.voice_outside.specs.Disk.{MakesAtMost};
ghost use Rattle.voice_outside.specs.Counters.{HasRisen};
ghost use Rattle.voice_blocks.specs.Holders.{open_in};
ghost use Rattle.voice_model.specs.State.{State};
ghost use Rattle.voice_model.specs.Changes as sizes;
ghost use Rattle.voice_model.specs.Replay.{acted};
ghost use Rattle.voice_model.specs.Tapes.{HasTake, taken};
ghost use Rattle.fillings.specs.Laws.{HasBytes};
ghost use Rattle.recording_writer.specs.Wrote.{WroteAt};
ghost use Rattle.crash_laws.specs.Standing.{IsLater};
ghost use Rattle.next_ropes.specs.Ready.{next_change};
ghost use Rattle.next_ropes.specs.declared.NextRope.{NextRope as RopeValue};
ghost use Rattle.voice_store.specs.Filled.{IsPadded};
ghost use Rattle.voice_store.specs.Stood.{IsSeated, ShowsState, Stood, last_of, tapes_of};
ghost use Rattle.voice_store.specs.Trying.{IsPlan};
ghost use Rattle.voice_store.specs.DeviceCalls.{change_calls};
ghost use Rattle.voice_store.specs.Facts.{GoesOn, IsFault, entry_of};
ghost use Rattle.voice_store.specs.Keeping.{HasRoom, HoldsRecording, MakesRecording, recorded_by, recording_of, refused_by};
ghost use Rattle.voice_store.specs.Residing.{KeepsUsed};
ghost use Rattle.voice_store.specs.Ways.{IsWay};

use crate::committing::Plan;
use crate::editing::{replies_of, rope_size};
use crate::going::{Going, give_up};
use crate::inside::Inside;
use crate::ways::Way;
use checkpoint::parts_size;
use crash_laws::laws::{disks_are_honest, foundations};
use next_changes::NextChange;
use next_ropes::{NextRope, ready_recording};
use recording_writer::write_samples;
use voice_model::{Call, Reply, Why};
use voice_outside::Disk;
use voice_units::{Failed, LAST_ROPE, MOST_SAMPLES, NoMemory, Shape, Take, blocks_needed};

// The bytes that an address takes in a record.
fn address_width(form: u8) -> u64
    ensures { result ≡ sizes.address_size form }
{
    if form == 2 { 4 } else { 2 }
}

// What a recording of so many samples adds to a base: its rope, and its file with the blocks, where it has any.
fn growth(form: u8, block: u32, len: u32) -> u64
    requires least { 1 ≤ block }
    requires most { len ≤ 2 ^ 30 }
    requires block_limit { block ≤ 8192 }
    ensures { result ≡ 24 + cond (form == 2) 1 0 + cond (len == 0) 0 (34 + (4 + sizes.address_size form) * blocks_for block len) }
{
    if len == 0 {
        return rope_size(form, 0);
    }
    let blocks = u64::from(blocks_needed(block, len as u64));
    rope_size(form, 1) + 18 + (4 + address_width(form)) * blocks
}

impl Inside {
    /// How a recording of so many samples gets into the journal, where nothing is in doubt.
    pub(crate) fn recording_way(&self, len: u32) -> Result<Way, NoMemory>
        requires { len ≤ 2 ^ 30 }
        ensures { (s : State) (bytes : List ℕ) → IsSeated self.now.journal s → ShowsState self.now.parts s → length bytes ≡ len → IfOk result (IsWay s (recording_of s bytes)) }
    {
        let shape = self.journal.shape();
        let form = self.parts.form;
        let base = parts_size(&self.parts);
        let more = u128::from(growth(form, shape.block, len));
        let blocks = u64::from(blocks_needed(shape.block, len as u64));
        self.way(22 + address_width(form) * blocks, base, base + more)
    }

    // Why a recording of so many samples is refused, but for the journal's room.
    fn refusal(&self, shape: &Shape, len: u32) -> Option<Why>
        ensures { result ≡ refused_by self.now.parts.next shape.now.block (open_in self.now.parts.blocks.holders) len }
    {
        if len as u64 > MOST_SAMPLES {
            return Some(Why::TooLong(u64::from(len)));
        }
        if self.parts.next > LAST_ROPE {
            return Some(Why::IdsSpent);
        }
        let need = blocks_needed(shape.block, len as u64);
        let free = self.parts.blocks.free();
        if need > free {
            return Some(Why::NoRoom(need, free));
        }
        None
    }

    // Writes the samples of a recording into the blocks of its rope.
    fn write_recording<D: Disk>(
        &self,
        disk: &mut D,
        take: Take,
        next: &NextRope,
        last: &mut [u8],
    ) -> Result<(), Failed>
        requires holds { (first : State) × (t0 : ℕ) × HoldsRecording first t0 (D.told disk.old) self.now take next.now }
        requires block { length last.old ≡ self.now.journal.shape.block }
        ensures made { MakesAtMost (blocks_for self.now.journal.shape.block take.len) (D.told disk.old) (D.told disk.new) result }
        ensures moments { IsTrue (D.told disk.old).honest → IsLater (D.told disk.old) (D.told disk.new) }
        ensures content { IsTrue (D.told disk.old).honest → WroteAt self.now.journal.shape next.now.addresses.items (D.told disk.old) (D.told disk.new) }
        ensures written { IsTrue (D.told disk.old).honest → OnOk result (HasBytes (D.told disk.new).bytes self.now.journal.shape next.now.addresses.items (taken (tapes_of self.now) take)) }
        ensures padded { IsTrue (D.told disk.old).honest → OnOk result (IsPadded (D.told disk.new).bytes self.now.journal.shape next.now.addresses.items (length (taken (tapes_of self.now) take))) }
    {
        disks_are_honest(disk);
        let shape = self.journal.shape();
        let samples = self.tapes.samples(take);
        let result = write_samples(&shape, disk, &next.addresses, samples, last);
        disks_are_honest(disk);
        result
    }

    // Writes the samples of a recording whose rope is ready, and does its change.
    fn write_and_commit<D: Disk>(
        &mut self,
        disk: &mut D,
        caller: u16,
        take: Take,
        going: Going,
        plan: Plan,
        last: &mut [u8],
    ) -> Reply
        requires holds { (rope : RopeValue) × (going ≡ Going.Change (NextChange.Rope rope)) × (first : State) × (t0 : ℕ) × (h : HoldsRecording first t0 (D.told disk.old) self.old take rope) × IsPlan self.old.journal (last_of first self.old) (recorded_by (last_of first self.old) (tapes_of self.old) take) (acted h.makes.stood.b (next_change h.makes.stood.b.form rope)) plan }
        requires block { length last.old ≡ self.old.journal.shape.block }
        requires room { vec_len self.old.history < vec_capacity self.old.history }
        ensures goes { GoesOn (D.told disk.old) (D.told disk.new) }
        ensures calls { (rope : RopeValue) → going ≡ Going.Change (NextChange.Rope rope) → (first : State) (t0 : ℕ) (h : HoldsRecording first t0 (D.told disk.old) self.old take rope) → IsPlan self.old.journal (last_of first self.old) (recorded_by (last_of first self.old) (tapes_of self.old) take) (acted h.makes.stood.b (next_change h.makes.stood.b.form rope)) plan → (D.told disk.new).calls ≤ (D.told disk.old).calls + change_calls (last_of first self.old) (tapes_of self.old) (Call.Record take) }
        ensures cause { IsFault result → HasRisen (D.told disk.old).faults (D.told disk.new).faults }
        ensures items { self.new.history.items ≡ self.old.history.items ++ entry_of caller (Call.Record take) result (D.told disk.new).calls ∷ [] }
        ensures tapes { self.new.tapes ≡ self.old.tapes }
        ensures pool { self.new.lanes.frames.keeper.pool ≡ self.old.lanes.frames.keeper.pool }
        ensures frames { KeepsUsed self.old self.new }
        ensures stood { (rope : RopeValue) → going ≡ Going.Change (NextChange.Rope rope) → (first : State) (t0 : ℕ) (h : HoldsRecording first t0 (D.told disk.old) self.old take rope) → IsPlan self.old.journal (last_of first self.old) (recorded_by (last_of first self.old) (tapes_of self.old) take) (acted h.makes.stood.b (next_change h.makes.stood.b.form rope)) plan → Stood first t0 (D.told disk.new) self.new }
    {
        foundations();
        let _most = self.journal.epoch();
        let Going::Change(NextChange::Rope(rope)) = going else {
            unreachable!()
        };
        let replies = replies_of(&rope);
        let written = self.write_recording(disk, take, &rope, last);
        let going = Going::Change(NextChange::Rope(rope));
        let Ok(()) = written else {
            return self.failed(disk, caller, Call::Record(take), going);
        };
        self.commit(disk, caller, Call::Record(take), replies, going, plan)
    }

    // Keeps a recording, in this way.
    fn record_by<D: Disk>(
        &mut self,
        disk: &mut D,
        caller: u16,
        take: Take,
        way: Way,
    ) -> Result<Reply, NoMemory>
        requires way { (first : State) × (t0 : ℕ) × HasRoom first t0 (D.told disk.old) self.old take way }
        requires room { vec_len self.old.history < vec_capacity self.old.history }
        ensures goes { GoesOn (D.told disk.old) (D.told disk.new) }
        ensures calls { (first : State) (t0 : ℕ) → HasRoom first t0 (D.told disk.old) self.old take way → (D.told disk.new).calls ≤ (D.told disk.old).calls + change_calls (last_of first self.old) (tapes_of self.old) (Call.Record take) }
        ensures cause { IfOk result (λ reply. IsFault reply → HasRisen (D.told disk.old).faults (D.told disk.new).faults) }
        ensures items { IfOk result (λ reply. self.new.history.items ≡ self.old.history.items ++ entry_of caller (Call.Record take) reply (D.told disk.new).calls ∷ []) }
        ensures err { OnErr result (self.new.history.items ≡ self.old.history.items) }
        ensures still { OnErr result (disk.new ≡ disk.old) }
        ensures tapes { self.new.tapes ≡ self.old.tapes }
        ensures pool { self.new.lanes.frames.keeper.pool ≡ self.old.lanes.frames.keeper.pool }
        ensures frames { KeepsUsed self.old self.new }
        ensures stood { (first : State) (t0 : ℕ) → HasRoom first t0 (D.told disk.old) self.old take way → Stood first t0 (D.told disk.new) self.new }
    {
        let shape = self.journal.shape();
        let mut last = vec![in self.alloc; 0u8; shape.block as usize]?;
        let rope = ready_recording(self.alloc, &mut self.parts, &shape, take.len)?;
        let going = Going::Change(NextChange::Rope(rope));
        let Ok(plan) = self.plan(&going, way) else {
            give_up(&mut self.parts, going);
            return Err(NoMemory);
        };
        Ok(self.write_and_commit(disk, caller, take, going, plan, &mut last))
    }

    // Records, where nothing refuses it but perhaps the journal.
    fn record_unrefused<D: Disk>(
        &mut self,
        disk: &mut D,
        caller: u16,
        take: Take,
    ) -> Result<Reply, NoMemory>
        requires makes { (first : State) × (t0 : ℕ) × MakesRecording first t0 (D.told disk.old) self.old take }
        requires room { vec_len self.old.history < vec_capacity self.old.history }
        ensures goes { GoesOn (D.told disk.old) (D.told disk.new) }
        ensures calls { (first : State) (t0 : ℕ) → MakesRecording first t0 (D.told disk.old) self.old take → (D.told disk.new).calls ≤ (D.told disk.old).calls + change_calls (last_of first self.old) (tapes_of self.old) (Call.Record take) }
        ensures cause { IfOk result (λ reply. IsFault reply → HasRisen (D.told disk.old).faults (D.told disk.new).faults) }
        ensures items { IfOk result (λ reply. self.new.history.items ≡ self.old.history.items ++ entry_of caller (Call.Record take) reply (D.told disk.new).calls ∷ []) }
        ensures err { OnErr result (self.new.history.items ≡ self.old.history.items) }
        ensures still { OnErr result (disk.new ≡ disk.old) }
        ensures tapes { self.new.tapes ≡ self.old.tapes }
        ensures pool { self.new.lanes.frames.keeper.pool ≡ self.old.lanes.frames.keeper.pool }
        ensures frames { KeepsUsed self.old self.new }
        ensures stood { (first : State) (t0 : ℕ) → MakesRecording first t0 (D.told disk.old) self.old take → Stood first t0 (D.told disk.new) self.new }
    {
        match self.recording_way(take.len)? {
            Way::Full(most, left) => {
                Ok(self.refuse(
                    disk,
                    caller,
                    Call::Record(take),
                    Why::JournalFull(most, left),
                ))
            }
            way => self.record_by(disk, caller, take, way),
        }
    }

    /// Records, where nothing is in doubt.
    pub(crate) fn record<D: Disk>(
        &mut self,
        disk: &mut D,
        caller: u16,
        take: Take,
    ) -> Result<Reply, NoMemory>
        requires stood { (first : State) × (t0 : ℕ) × Stood first t0 (D.told disk.old) self.old }
        requires sure { self.old.doubt ≡ None }
        requires take { HasTake (tapes_of self.old) take }
        requires room { vec_len self.old.history < vec_capacity self.old.history }
        ensures goes { GoesOn (D.told disk.old) (D.told disk.new) }
        ensures calls { (first : State) (t0 : ℕ) → Stood first t0 (D.told disk.old) self.old → (D.told disk.new).calls ≤ (D.told disk.old).calls + change_calls (last_of first self.old) (tapes_of self.old) (Call.Record take) }
        ensures cause { IfOk result (λ reply. IsFault reply → HasRisen (D.told disk.old).faults (D.told disk.new).faults) }
        ensures items { IfOk result (λ reply. self.new.history.items ≡ self.old.history.items ++ entry_of caller (Call.Record take) reply (D.told disk.new).calls ∷ []) }
        ensures err { OnErr result (self.new.history.items ≡ self.old.history.items) }
        ensures still { OnErr result (disk.new ≡ disk.old) }
        ensures tapes { self.new.tapes ≡ self.old.tapes }
        ensures pool { self.new.lanes.frames.keeper.pool ≡ self.old.lanes.frames.keeper.pool }
        ensures frames { KeepsUsed self.old self.new }
        ensures stood { (first : State) (t0 : ℕ) → Stood first t0 (D.told disk.old) self.old → Stood first t0 (D.told disk.new) self.new }
    {
        let shape = self.journal.shape();
        if let Some(why) = self.refusal(&shape, take.len) {
            return Ok(self.refuse(disk, caller, Call::Record(take), why));
        }
        self.record_unrefused(disk, caller, take)
    }
}
