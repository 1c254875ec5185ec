//! Frames that hold blocks.

ghost use Rattle.std.specs.Prelude.{◌%◌, Option, [], ◌∷◌, ◌++◌, ◌↔◌, None, map, replicate, ◌≡◌, ◌≢◌, ℕ, ◌*◌, ◌<◌, ◌≤◌, ◌^◌, ◌||◌, true, false, length, slice_set, Some, IfSome, IfNone, IfOk, OnOk, OnErr, IsErr, IsTrue, List, cond, ◌⊎◌, if◌then◌else◌};
ghost use Rattle.std.specs.List.{list_any};
ghost use Rattle.voice_units.specs.Layout.{bytes_needed};
ghost use Rattle.voice_outside.specs.Counters.{HasRisen};
ghost use Rattle.voice_blocks.specs.Holders.{Holders};
ghost use Rattle.playing.specs.declared.blocks.Block.{Block as BlockValue};
ghost use Rattle.voice_outside.specs.Disk.{MakesAtMost, segment};
ghost use Rattle.voice_blocks.specs.Place.{block_place};
ghost use Rattle.frame_pool.specs.declared.views.Stage.TheVariants.{Free};
ghost use Rattle.voice_units.specs.Spots.{samples_in};
ghost use Rattle.frame_pool.specs.Steps.{lane_at, is_free, ended};
ghost use Rattle.frame_pool.specs.Pool.{lanes_of, block_of, stage_of, hint_of, mark_of, looks_of, word_of, frame_of, spent, IsSpare};
ghost use Rattle.playing.specs.Frames.{has_frame, is_read, is_wanted, is_in, resident_at, HoldsBytes, AreOnDisk, OnlyReads, IsReadied, is_resident, HaveAddresses, HasRead, AreAddresses, AreFound, IsAddress, IsBroughtIn, ChangesLaneAlone, missing, if_used, uses_of, Forgets, AreUsed, holds};
ghost use Rattle.frame_pool.specs.Rule.{idle_lane};
ghost use Rattle.playing.specs.Windows.{ArePartsOf, AreStretches, IsOut, IsLeaseOf};

use crate::blocks::{Block, LeasedParts};
use frame_pool::{Keeper, Lease, Part, Pool};
use rope_table::RopeTable;
use std::alloc::Global;
use std::marker::Model;
use voice_blocks::{BlockMap, Owner, read_block};
use voice_outside::Disk;
use voice_units::{Failed, Lane, NoMemory, Piece, RopeId, Shape};

/// The frames of a pool: which block each holds, and which parts each lane's lease reads.
#[derive(Drop)]
pub(crate) struct Frames {
    keeper: Keeper,
    resident: Vec<Option<Block>>,
    readers: Vec<LeasedParts>,
    room: Vec<u8>,
}

impl Model for Frames {
    ghost use Rattle.std.specs.Prelude.{length};
    ghost use Rattle.playing.specs.Frames.{FramesState, IsFrames};

    ghost Value = { FramesState };

    ghost view = { λ f. record { keeper = f.keeper; resident = f.resident.items } };

    ghost invariant = { λ f. IsFrames f.keeper f.resident.items f.readers.items (length f.room.items) };
}

// Whether a frame is in parts.
fn has_frame(parts: &[Part], frame: u32) -> bool
    ensures { result ≡ has_frame parts.now frame }
{
    parts.iter().any(|part| part.frame == frame)
}

// Whether a lane reads a frame.
fn is_read(readers: &[LeasedParts], frame: u32) -> bool
    ensures { result ≡ is_read readers.now frame }
{
    readers.iter().any(|lane| has_frame(&lane.parts, frame))
}

// Whether a stretch lies in a block.
fn is_in(stretch: &Piece, block: u32, b: &Block) -> bool
    requires { 0 < block }
    ensures { result ≡ is_in block b.now stretch.now }
{
    stretch.file == b.file && stretch.from / block == b.index
}

// Whether a stretch of a window lies in a block.
fn is_among(window: &[Piece], block: u32, b: &Block) -> bool
    requires { 0 < block }
    ensures { result ≡ list_any (is_in block b.now) window.now }
{
    for stretch in window {
        if is_in(stretch, block, b) {
            return true;
        }
    }
    false
}

// Whether a stretch of a window lies in the block that a frame holds.
fn is_wanted(window: &[Piece], block: u32, resident: Option<Block>) -> bool
    requires { 0 < block }
    ensures { result ≡ is_wanted block window.now resident }
{
    let Some(b) = resident else {
        return false;
    };
    is_among(window, block, &b)
}

// A frame that no lane reads and that holds no block of a window: there is one where this lane reads none and a block of the window is in no frame.
fn spare_frame(
    readers: &[LeasedParts],
    resident: &[Option<Block>],
    window: &[Piece],
    block: u32,
) -> Option<u32>
    requires block { 0 < block }
    requires count { length resident.now < 2 ^ 32 }
    ensures spare { IfSome result (λ f. (f < length resident.now) × (is_read readers.now f ≡ false) × (is_wanted block window.now (resident_at resident.now f) ≡ false)) }
    ensures none { IfNone result ((f : ℕ) → f < length resident.now → (is_read readers.now f || is_wanted block window.now (resident_at resident.now f)) ≡ true) }
{
    for f in 0..resident.len() {
        if is_wanted(window, block, resident[f]) {
            continue;
        }
        if is_read(readers, f as u32) {
            continue;
        }
        return Some(f as u32);
    }
    None
}

// The frame that holds a block, if one does.
fn find_block(resident: &[Option<Block>], b: &Block) -> Option<u32>
    requires { length resident.now < 2 ^ 32 }
    ensures some { IfSome result (λ f. (f < length resident.now) × (resident_at resident.now f ≡ Some b.now)) }
    ensures none { IfNone result ((f : ℕ) → resident_at resident.now f ≢ Some b.now) }
{
    for f in 0..resident.len() {
        let Some(held) = resident[f] else {
            continue;
        };
        if held == *b {
            return Some(f as u32);
        }
    }
    None
}

// The addresses of the blocks of a window. They are looked up before a block is read: so the look-ups wait for memory side by side.
fn addresses_of(blocks: &BlockMap, window: &[Piece], block: u32) -> [u32; 4]
    requires some { 0 < block }
    requires few { length window.now ≤ 4 }
    requires addresses { HaveAddresses block blocks.now.holders window.now }
    ensures { AreAddresses block blocks.now.holders window.now result (length window.now) }
{
    let mut addresses = [0; 4];
    for k in 0..window.len() {
        let stretch = window[k];
        let Some(address) = blocks.address(Owner::File(stretch.file), stretch.from / block) else {
            unreachable!()
        };
        addresses[k] = address;
    }
    addresses
}

// Reads a block into room for it.
fn read_room<D: Disk>(
    shape: &Shape,
    disk: &mut D,
    address: u32,
    room: &mut Vec<u8>,
) -> Result<(), Failed>
    requires whole { length room.old.items ≡ shape.now.block }
    requires within { address < shape.now.blocks }
    requires fits { bytes_needed shape.now.block shape.now.blocks shape.now.area ≤ (D.told disk.old).size }
    ensures made { MakesAtMost 1 (D.told disk.old) (D.told disk.new) result }
    ensures whole { length room.new.items ≡ length room.old.items }
    ensures reads { IsTrue (D.told disk.old).honest → OnlyReads (D.told disk.old) (D.told disk.new) }
    ensures content { IsTrue (D.told disk.old).honest → OnOk result (room.new.items ≡ segment (D.told disk.old).bytes (block_place shape.now address) shape.now.block) }
{
    read_block(shape, disk, address, room)
}

impl Frames {
    // Reads a block into the room, and swaps it with a frame that no lane reads.
    fn load<D: Disk>(
        &mut self,
        shape: &Shape,
        disk: &mut D,
        address: u32,
        frame: u32,
        b: Block,
    ) -> Result<(), Failed>
        requires block { shape.now.block ≡ block_of self.old.keeper }
        requires within { address < shape.now.blocks }
        requires fits { bytes_needed shape.now.block shape.now.blocks shape.now.area ≤ (D.told disk.old).size }
        requires frame { frame < length self.old.resident }
        requires spare { IsSpare self.old.keeper frame }
        requires new_block { (f : ℕ) → resident_at self.old.resident f ≢ Some b }
        ensures made { MakesAtMost 1 (D.told disk.old) (D.told disk.new) result }
        ensures reads { IsTrue (D.told disk.old).honest → OnlyReads (D.told disk.old) (D.told disk.new) }
        ensures resident { OnOk result (self.new.resident ≡ slice_set self.old.resident frame (Some b)) }
        ensures lanes { OnOk result ((l : ℕ) → lane_at self.new.keeper.view l ≡ lane_at self.old.keeper.view l) }
        ensures pool { OnOk result (self.new.keeper.pool ≡ self.old.keeper.pool) }
        ensures others { OnOk result ((f : ℕ) → f ≢ frame → frame_of self.new.keeper f ≡ frame_of self.old.keeper f) }
        ensures filled { IsTrue (D.told disk.old).honest → OnOk result (frame_of self.new.keeper frame ≡ segment (D.told disk.old).bytes (block_place shape.now address) shape.now.block) }
        ensures err { OnErr result (self.new ≡ self.old) }
    {
        read_room(shape, disk, address, &mut self.room)?;
        self.keeper.fill(frame, &mut self.room);
        self.resident[frame as usize] = Some(b);
        Ok(())
    }
}

impl Frames {
    // A frame that no lane reads and that holds no block of a window.
    fn spare(&self, lane: Lane, window: &[Piece], block: u32, b: &Block) -> u32
        requires block { 0 < block }
        requires lane { lane < lanes_of self.now.keeper }
        requires free { stage_of self.now.keeper lane ≡ Free }
        requires few { length window.now ≤ 4 }
        requires wanted { list_any (is_in block b.now) window.now ≡ true }
        requires absent { (f : ℕ) → resident_at self.now.resident f ≢ Some b.now }
        ensures low { result < length self.now.resident }
        ensures spare { IsSpare self.now.keeper result }
        ensures unwanted { is_wanted block window.now (resident_at self.now.resident result) ≡ false }
    {
        let Some(frame) = spare_frame(&self.readers, &self.resident, window, block) else {
            unreachable!()
        };
        frame
    }

    // The frame of a block of a window. It is read where no frame holds it.
    fn ready<D: Disk>(
        &mut self,
        shape: &Shape,
        disk: &mut D,
        lane: Lane,
        window: &[Piece],
        address: u32,
        b: Block,
    ) -> Result<u32, Failed>
        requires some { 0 < shape.now.block }
        requires block { shape.now.block ≡ block_of self.old.keeper }
        requires fits { bytes_needed shape.now.block shape.now.blocks shape.now.area ≤ (D.told disk.old).size }
        requires lane { lane < lanes_of self.old.keeper }
        requires free { stage_of self.old.keeper lane ≡ Free }
        requires few { length window.now ≤ 4 }
        requires wanted { list_any (is_in shape.now.block b) window.now ≡ true }
        requires within { address < shape.now.blocks }
        ensures made { MakesAtMost (cond (is_resident self.old.resident b.file b.index) 0 1) (D.told disk.old) (D.told disk.new) result }
        ensures reads { IsTrue (D.told disk.old).honest → OnlyReads (D.told disk.old) (D.told disk.new) }
        ensures frame { IfOk result (λ f. (f < length self.new.resident) × (resident_at self.new.resident f ≡ Some b)) }
        ensures step { OnOk result (IsReadied shape.now.block window.now b self.old self.new) }
        ensures bytes { IsTrue (D.told disk.old).honest → (held : Holders) → IsAddress held b address → (bytes : ℕ → ℕ → List ℕ) → AreOnDisk bytes shape.now (D.told disk.old).bytes held → HoldsBytes bytes self.old → HoldsBytes bytes self.new }
        ensures err { OnErr result (self.new ≡ self.old) }
    {
        if let Some(frame) = find_block(&self.resident, &b) {
            return Ok(frame);
        }
        let frame = self.spare(lane, window, shape.block, &b);
        self.load(shape, disk, address, frame, b)?;
        Ok(frame)
    }
}

impl Frames {
    /// Brings the blocks of a window into frames, and tells which. A block that a frame holds is not read.
    pub fn bring_in<D: Disk>(
        &mut self,
        shape: &Shape,
        disk: &mut D,
        blocks: &BlockMap,
        lane: Lane,
        window: &[Piece],
    ) -> Result<[u32; 4], Failed>
        requires some { 0 < shape.now.block }
        requires block { shape.now.block ≡ block_of self.old.keeper }
        requires fits { bytes_needed shape.now.block shape.now.blocks shape.now.area ≤ (D.told disk.old).size }
        requires lane { lane < lanes_of self.old.keeper }
        requires free { stage_of self.old.keeper lane ≡ Free }
        requires few { length window.now ≤ 4 }
        requires count { length blocks.now.holders ≡ shape.now.blocks }
        requires addresses { HaveAddresses shape.now.block blocks.now.holders window.now }
        ensures made { HasRead (missing shape.now.block self.old.resident window.now) (D.told disk.old) (D.told disk.new) }
        ensures cause { IsErr result → HasRisen (D.told disk.old).faults (D.told disk.new).faults }
        ensures found { IfOk result (λ found. AreFound shape.now.block self.new.resident window.now found (length window.now)) }
        ensures frames { IsBroughtIn shape.now.block window.now self.old self.new }
        ensures bytes { IsTrue (D.told disk.old).honest → (bytes : ℕ → ℕ → List ℕ) → AreOnDisk bytes shape.now (D.told disk.old).bytes blocks.now.holders → HoldsBytes bytes self.old → HoldsBytes bytes self.new }
    {
        let addresses = addresses_of(blocks, window, shape.block);
        let mut found = [0; 4];
        for k in 0..window.len() {
            let stretch = window[k];
            let b = Block {
                file: stretch.file,
                index: stretch.from / shape.block,
            };
            let frame = self.ready(shape, disk, lane, window, addresses[k], b)?;
            found[k] = frame;
        }
        Ok(found)
    }
}

// The parts of these frames that have the samples of a window.
fn parts_of(
    alloc: Global,
    window: &[Piece],
    found: &[u32; 4],
    block: u32,
) -> Result<Vec<Part>, NoMemory>
    requires some { 0 < block }
    requires few { length window.now ≤ 4 }
    ensures { (resident : List (Option BlockValue)) → AreFound block resident window.now found.now (length window.now) → IfOk result (λ parts. ArePartsOf block resident window.now parts.items) }
{
    let mut parts = Vec::with_capacity(alloc, window.len())?;
    for k in 0..window.len() {
        let stretch = window[k];
        parts.push(Part {
            frame: found[k],
            from: stretch.from % block,
            len: stretch.len,
        })?;
    }
    Ok(parts)
}

impl Frames {
    /// Hands out a lease of the samples of a window whose blocks are in these frames. After `NoMemory` nothing changed.
    pub fn grant(
        &mut self,
        alloc: Global,
        lane: Lane,
        window: &[Piece],
        found: &[u32; 4],
        block: u32,
    ) -> Result<Lease, NoMemory>
        requires some { 0 < block }
        requires block { block ≡ block_of self.old.keeper }
        requires lane { lane < lanes_of self.old.keeper }
        requires free { stage_of self.old.keeper lane ≡ Free }
        requires least { 1 ≤ length window.now }
        requires few { length window.now ≤ 4 }
        requires stretches { AreStretches block window.now }
        requires found { AreFound block self.old.resident window.now found.now (length window.now) }
        ensures lease { IfOk result (λ lease. IsLeaseOf self.old lane window.now lease) }
        ensures stage { OnOk result (IsOut (samples_in window.now) (stage_of self.new.keeper lane)) }
        ensures hint { OnOk result ((hint_of self.new.keeper lane ≡ 0) × (mark_of self.new.keeper lane ≡ false)) }
        ensures others { ChangesLaneAlone self.old self.new lane }
        ensures err { OnErr result (self.new ≡ self.old) }
    {
        let parts = parts_of(alloc, window, found, block)?;
        let lease = self.keeper.grant(alloc, lane, &parts)?;
        self.readers[usize::from(lane.0)] = LeasedParts { parts };
        Ok(lease)
    }

    /// Takes a lease back that was not before. Its lane is free then.
    pub fn take_back(&mut self, lease: &mut Lease)
        requires pool { lease.old.pool ≡ self.old.keeper.pool }
        requires fresh { lease.old.taken ≡ false }
        ensures lease { lease.new ≡ spent lease.old }
        ensures low { lease.old.lane < lanes_of self.old.keeper }
        ensures out { IsOut lease.old.len (stage_of self.old.keeper lease.old.lane) }
        ensures stage { stage_of self.new.keeper lease.old.lane ≡ Free }
        ensures hint { (hint_of self.new.keeper lease.old.lane ≡ hint_of self.old.keeper lease.old.lane) × (mark_of self.new.keeper lease.old.lane ≡ mark_of self.old.keeper lease.old.lane) }
        ensures marked { lease.old.hinted ≡ true → mark_of self.old.keeper lease.old.lane ≡ true }
        ensures others { ChangesLaneAlone self.old self.new lease.old.lane }
    {
        let lane = lease.lane();
        self.keeper.take_back(lease);
        self.readers[usize::from(lane.0)].parts.clear();
    }

    /// Stores the hint of a lane.
    pub fn hint(&mut self, lane: Lane, on: bool)
        requires lane { lane < lanes_of self.old.keeper }
        ensures hint { hint_of self.new.keeper lane ≡ word_of on }
        ensures mark { mark_of self.new.keeper lane ≡ (if on then true else (if is_free (stage_of self.old.keeper lane) then false else mark_of self.old.keeper lane)) }
        ensures stage { stage_of self.new.keeper lane ≡ stage_of self.old.keeper lane }
        ensures others { ChangesLaneAlone self.old self.new lane }
    {
        self.keeper.hint(lane, on);
    }

    /// Looks whether a lane's lease was released: then its frames may be filled.
    pub fn observe(&mut self, lane: Lane) -> bool
        requires lane { lane < lanes_of self.old.keeper }
        ensures looks { (n : ℕ) × (looks_of self.new.keeper lane ≡ looks_of self.old.keeper lane ++ n ∷ []) × (IsTrue result ↔ (n ≡ 0)) }
        ensures stage { stage_of self.new.keeper lane ≡ (if result then ended (stage_of self.old.keeper lane) else stage_of self.old.keeper lane) }
        ensures hint { (hint_of self.new.keeper lane ≡ hint_of self.old.keeper lane) × (mark_of self.new.keeper lane ≡ mark_of self.old.keeper lane) }
        ensures others { ChangesLaneAlone self.old self.new lane }
    {
        let over = self.keeper.observe(lane);
        if over {
            self.readers[usize::from(lane.0)].parts.clear();
        }
        over
    }
}

// A block that something uses.
fn if_used(ropes: &RopeTable, held: Option<Block>) -> Option<Block>
    ensures { result ≡ if_used (uses_of ropes.now) held }
{
    let Some(b) = held else {
        return None;
    };
    if ropes.uses(b.file, b.index) > 0 {
        return Some(b);
    }
    None
}

// Only blocks that something uses stay.
fn keep_used(resident: &mut Vec<Option<Block>>, ropes: &RopeTable)
    ensures { resident.new.items ≡ map (if_used (uses_of ropes.now)) resident.old.items }
{
    for k in 0..resident.len() {
        resident[k] = if_used(ropes, resident[k]);
    }
}

// No lane reads a frame.
fn no_readers(alloc: Global, lanes: u16) -> Result<Vec<LeasedParts>, NoMemory>
    ensures { IfOk result (λ readers. readers.items ≡ replicate lanes []) }
{
    let mut readers = Vec::with_capacity(alloc, usize::from(lanes))?;
    for _ in 0..lanes {
        readers.push(LeasedParts {
            parts: Vec::new(alloc),
        })?;
    }
    Ok(readers)
}

impl Frames {
    /// The frames of so many lanes, which hold no block.
    pub fn new(alloc: Global, lanes: u16, block: u32) -> Result<Frames, NoMemory>
        requires lanes { (1 ≤ lanes) × (lanes ≤ 16) }
        requires block { (block % 8 ≡ 0) × (8 ≤ block) × (block ≤ 8192) }
        ensures empty { IfOk result (λ s. s.resident ≡ replicate (4 * lanes) None) }
        ensures sizes { IfOk result (λ s. (lanes_of s.keeper ≡ lanes) × (block_of s.keeper ≡ block)) }
        ensures free { IfOk result (λ s. (l : ℕ) → lane_at s.keeper.view l ≡ idle_lane) }
    {
        let (_pool, keeper) = Pool::new(alloc, lanes, block)?;
        let resident = vec![in alloc; None; 4 * usize::from(lanes)]?;
        let readers = no_readers(alloc, lanes)?;
        let room = vec![in alloc; 0; block as usize]?;
        Ok(Frames {
            keeper,
            resident,
            readers,
            room,
        })
    }

    /// Blocks that nothing uses are not known to be in a frame any longer.
    pub fn forget_unused(&mut self, ropes: &RopeTable)
        ensures forgets { Forgets (uses_of ropes.now) self.old self.new }
        ensures used { AreUsed (uses_of ropes.now) self.new }
        ensures bytes { (bytes : ℕ → ℕ → List ℕ) → HoldsBytes bytes self.old → HoldsBytes bytes self.new }
    {
        keep_used(&mut self.resident, ropes);
    }

    /// Whether a frame holds a block.
    pub fn is_resident(&self, file: RopeId, index: u32) -> bool
        ensures { result ≡ is_resident self.now.resident file index }
    {
        has_block(&self.resident, file, index)
    }
}

// Whether a frame holds a block.
fn has_block(resident: &[Option<Block>], file: RopeId, index: u32) -> bool
    ensures { result ≡ is_resident resident.now file index }
{
    resident.iter().any(|held| is_held(*held, file, index))
}

fn is_held(held: Option<Block>, file: RopeId, index: u32) -> bool
    ensures { result ≡ holds file index held }
{
    let Some(b) = held else {
        return false;
    };
    b.file == file && b.index == index
}
