//! Plays over a disk in memory.

ghost use Rattle.std.specs.Prelude.{◌≡◌, ◌≤◌, ◌<◌, ◌↔◌, length, true, IfOk, IsTrue};
ghost use Rattle.std.specs.Option.{ForSome};
ghost use Rattle.voice_units.specs.Layout.{bytes_needed};
ghost use Rattle.frame_pool.specs.Pool.{lanes_of, block_of};
ghost use Rattle.play_queue.specs.Queued.{lane_of};
ghost use Rattle.playing.specs.Lanes.{next_window, window_at};
ghost use Rattle.playing.specs.Fed.{FedTo};
ghost use Rattle.playing.specs.Frames.{HaveAddresses};

use crate::windows::window_of;
use crate::{Fed, Lanes};
use frame_pool::Lease;
use play_queue::Queues;
use rope_algebra::Pieces;
use rope_table::RopeTable;
use std::alloc::Global;
use std::test::Fail;
use voice_blocks::{BlockMap, Owner, write_block};
use voice_disk::MemDisk;
use voice_outside::Disk;
use voice_units::{Graces, JobId, Lane, NoMemory, Piece, RopeId, Shape};

// Blocks of 8, 16 of them.
fn shape_of(size: u64) -> Result<Shape, NoMemory>
    ensures { IfOk result (λ shape. (shape.block ≡ 8) × (shape.blocks ≡ 16)) }
{
    let graces = Graces {
        common: 60,
        held: 60,
        until: 60,
        listed: 60,
    };
    match Shape::new(1, 8, 16, 512, graces, 4, size) {
        Ok(shape) => Ok(shape),
        Err(_) => Err(NoMemory),
    }
}

// Whether a disk has room for a shape.
fn fits<D: Disk>(disk: &D, shape: &Shape) -> bool
    ensures { IsTrue result ↔ (bytes_needed shape.now.block shape.now.blocks shape.now.area ≤ (D.told disk.now).size) }
{
    let blocks = u64::from(shape.block) * u64::from(shape.blocks);
    64 + 2 * u64::from(shape.area) + blocks <= disk.size()
}

// Writes the k-th block of file 1 at an address.
fn lay(
    shape: &Shape,
    disk: &mut MemDisk,
    blocks: &mut BlockMap,
    k: u32,
    address: u32,
    bytes: &[u8; 8],
) -> Result<(), NoMemory>
    requires block { shape.now.block ≡ 8 }
    ensures count { length blocks.new.holders ≡ length blocks.old.holders }
{
    if address >= shape.blocks || !fits(disk, shape) {
        return Err(NoMemory);
    }
    blocks.reserve(1)?;
    let placed = blocks.place(RopeId(1), k, address);
    if !placed || write_block(shape, disk, address, bytes).is_err() {
        return Err(NoMemory);
    }
    Ok(())
}

// Where the five blocks of file 1 lie, which has the letters and the digits.
fn laid(alloc: Global, shape: &Shape, disk: &mut MemDisk) -> Result<BlockMap, NoMemory>
    requires block { shape.now.block ≡ 8 }
    ensures count { IfOk result (λ blocks. length blocks.holders ≡ 16) }
{
    let mut blocks = BlockMap::new(alloc, 16)?;
    lay(shape, disk, &mut blocks, 0, 3, b"abcdefgh")?;
    lay(shape, disk, &mut blocks, 1, 0, b"ijklmnop")?;
    lay(shape, disk, &mut blocks, 2, 5, b"qrstuvwx")?;
    lay(shape, disk, &mut blocks, 3, 1, b"yz012345")?;
    lay(shape, disk, &mut blocks, 4, 2, b"6789ABCD")?;
    Ok(blocks)
}

// Whether the blocks of a window have addresses.
fn are_placed(blocks: &BlockMap, window: &[Piece], block: u32) -> bool
    requires { 0 < block }
    ensures { IsTrue result → HaveAddresses block blocks.now.holders window.now }
{
    for stretch in window {
        if blocks
            .address(Owner::File(stretch.file), stretch.from / block)
            .is_none()
        {
            return false;
        }
    }
    true
}

// How much of a lane's first job is out, where the blocks of its next window have addresses.
fn out_on(
    alloc: Global,
    blocks: &BlockMap,
    queues: &Queues,
    lane: Lane,
    more: u32,
) -> Result<u32, NoMemory>
    requires { lane < length queues.now }
    ensures { IfOk result (λ out. (out ≡ window_at (lane_of queues.now lane)) × (0 < length (lane_of queues.now lane)) × HaveAddresses 8 blocks.now.holders (next_window 8 more (lane_of queues.now lane))) }
{
    let Some(job) = queues.head(lane) else {
        return Err(NoMemory);
    };
    let Some(at) = job.heard.checked_add(more) else {
        return Err(NoMemory);
    };
    let window = window_of(alloc, &job.passage, at, 8)?;
    if !are_placed(blocks, &window, 8) {
        return Err(NoMemory);
    }
    Ok(job.window)
}

// Puts a job on a lane, whose passage is a piece of file 1.
fn play(alloc: Global, lanes: &mut Lanes, lane: Lane, from: u32, len: u32) -> Result<(), NoMemory>
    requires lanes { lanes_of lanes.old.frames.keeper ≡ 2 }
    requires lane { lane < 2 }
    ensures pool { lanes.new.frames.keeper.pool ≡ lanes.old.frames.keeper.pool }
{
    if from > 40 || len > 40 {
        return Err(NoMemory);
    }
    let piece = Piece {
        file: RopeId(1),
        from,
        len,
    };
    let passage = Pieces::one(alloc, piece)?;
    if lanes.queues().count(lane) >= 8 {
        return Err(NoMemory);
    }
    lanes.push(lane, JobId(u64::from(from)), passage);
    Ok(())
}

// Feeds a lane of which nothing is out.
fn feed(
    alloc: Global,
    shape: &Shape,
    disk: &mut MemDisk,
    blocks: &BlockMap,
    lanes: &mut Lanes,
    lane: Lane,
) -> Result<Fed, NoMemory>
    requires shape { (shape.now.block ≡ 8) × (shape.now.blocks ≡ 16) }
    requires count { length blocks.now.holders ≡ 16 }
    requires sizes { (lanes_of lanes.old.frames.keeper ≡ 2) × (block_of lanes.old.frames.keeper ≡ 8) }
    requires lane { lane < 2 }
    ensures fed { IfOk result (λ fed. FedTo 8 0 lane fed lanes.old lanes.new) }
    ensures pool { lanes.new.frames.keeper.pool ≡ lanes.old.frames.keeper.pool }
{
    if !fits(disk, shape) || out_on(alloc, blocks, lanes.queues(), lane, 0)? > 0 {
        return Err(NoMemory);
    }
    lanes.feed(alloc, shape, disk, blocks, lane, 0)
}

// Brings a lease back, of which so much was heard, and feeds its lane.
fn serve(
    alloc: Global,
    shape: &Shape,
    disk: &mut MemDisk,
    blocks: &BlockMap,
    lanes: &mut Lanes,
    lease: &mut Lease,
    heard: u32,
) -> Result<Fed, NoMemory>
    requires shape { (shape.now.block ≡ 8) × (shape.now.blocks ≡ 16) }
    requires count { length blocks.now.holders ≡ 16 }
    requires sizes { (lanes_of lanes.old.frames.keeper ≡ 2) × (block_of lanes.old.frames.keeper ≡ 8) }
    requires lane { lease.old.lane < 2 }
    requires pool { lease.old.pool ≡ lanes.old.frames.keeper.pool }
    ensures fed { IfOk result (λ fed. FedTo 8 heard lease.old.lane fed lanes.old lanes.new) }
    ensures pool { lanes.new.frames.keeper.pool ≡ lanes.old.frames.keeper.pool }
{
    let lane = lease.lane();
    if !fits(disk, shape) || heard > lease.len() {
        return Err(NoMemory);
    }
    let _out = out_on(alloc, blocks, lanes.queues(), lane, heard)?;
    lanes.serve(alloc, shape, disk, blocks, lane, lease, heard)
}

// Stops a lane.
fn stop(lanes: &mut Lanes, lane: Lane) -> u32
    requires lanes { lanes_of lanes.old.frames.keeper ≡ 2 }
    requires lane { lane < 2 }
    ensures pool { lanes.new.frames.keeper.pool ≡ lanes.old.frames.keeper.pool }
{
    let _queues = lanes.queues();
    lanes.stop(lane)
}

// Blocks that the table does not use leave residency.
fn forget(lanes: &mut Lanes, ropes: &RopeTable)
    ensures pool { lanes.new.frames.keeper.pool ≡ lanes.old.frames.keeper.pool }
{
    lanes.forget_unused(ropes);
}

// What a lease has, with dots behind its end.
fn copied<const N: usize>(lease: &mut Lease) -> [u8; N]
    requires { lease.old.live ≡ true }
    ensures { lease.new ≡ lease.old }
{
    let mut out = [b'.'; N];
    lease.copy(0, &mut out);
    out
}

// What a feed gave: where a window begins, how much was heard of the job that left, or a fault.
#[derive(Clone, Copy, Debug, PartialEq, Eq)]
enum Seen {
    Window(u32),
    Stopped(u32),
    Ended(u32),
    Fault,
}

// Two lanes over a disk, with the lease that was handed out last.
#[derive(Drop)]
struct Desk {
    shape: Shape,
    disk: MemDisk,
    blocks: BlockMap,
    lanes: Lanes,
    lease: Option<Lease>,
    ghost shaped: { (shape.block ≡ 8) × (shape.blocks ≡ 16) },
    ghost counted: { length blocks.holders ≡ 16 },
    ghost sized: { (lanes_of lanes.frames.keeper ≡ 2) × (block_of lanes.frames.keeper ≡ 8) },
    ghost owned: { ForSome lease (λ l. l.pool ≡ lanes.frames.keeper.pool) },
}

impl Desk {
    // A desk over a disk whose listed calls fail; the first five lay the blocks.
    fn of(alloc: Global, fails: &[u64]) -> Result<Desk, NoMemory> {
        let mut disk = MemDisk::new(alloc, 4096, fails.to_vec(alloc)?)?;
        let shape = shape_of(disk.size())?;
        let blocks = laid(alloc, &shape, &mut disk)?;
        let lanes = Lanes::new(alloc, 2, 8)?;
        Ok(Desk {
            shape,
            disk,
            blocks,
            lanes,
            lease: None,
        })
    }

    fn play(&mut self, alloc: Global, lane: Lane, from: u32, len: u32) -> Result<(), NoMemory> {
        if lane.0 >= 2 {
            return Err(NoMemory);
        }
        play(alloc, &mut self.lanes, lane, from, len)
    }

    fn feed(&mut self, alloc: Global, lane: Lane) -> Result<Seen, NoMemory> {
        if lane.0 >= 2 {
            return Err(NoMemory);
        }
        let fed = feed(
            alloc,
            &self.shape,
            &mut self.disk,
            &self.blocks,
            &mut self.lanes,
            lane,
        )?;
        match fed {
            Fed::Window(at, lease) => {
                self.lease = Some(lease);
                Ok(Seen::Window(at))
            }
            Fed::Stopped(job) => Ok(Seen::Stopped(job.heard)),
            Fed::Ended(job) => Ok(Seen::Ended(job.heard)),
            Fed::Fault => Ok(Seen::Fault),
        }
    }

    // Brings the lease back, of which so much was heard, and feeds its lane.
    fn serve(&mut self, alloc: Global, heard: u32) -> Result<Seen, NoMemory> {
        let Some(mut lease) = self.lease.take() else {
            return Err(NoMemory);
        };
        if lease.lane().0 >= 2 {
            return Err(NoMemory);
        }
        let fed = serve(
            alloc,
            &self.shape,
            &mut self.disk,
            &self.blocks,
            &mut self.lanes,
            &mut lease,
            heard,
        )?;
        match fed {
            Fed::Window(at, lease) => {
                self.lease = Some(lease);
                Ok(Seen::Window(at))
            }
            Fed::Stopped(job) => Ok(Seen::Stopped(job.heard)),
            Fed::Ended(job) => Ok(Seen::Ended(job.heard)),
            Fed::Fault => Ok(Seen::Fault),
        }
    }

    // What the lease has, with dots behind its end.
    fn text<const N: usize>(&mut self) -> [u8; N] {
        let Some(mut lease) = self.lease.take() else {
            return [b'!'; N];
        };
        if !lease.live() {
            return [b'!'; N];
        }
        let out = copied(&mut lease);
        self.lease = Some(lease);
        out
    }

    // Stops a lane, and says how many jobs were not stopped and whether the lease is hinted.
    fn stop(&mut self, lane: Lane) -> (u32, bool) {
        let Some(mut lease) = self.lease.take() else {
            return (9, false);
        };
        if lane.0 >= 2 || !lease.live() || lease.hinted() {
            return (9, false);
        }
        let newly = stop(&mut self.lanes, lane);
        let hinted = lease.hinted();
        self.lease = Some(lease);
        (newly, hinted)
    }

    // Nothing uses a block any longer.
    fn forget(&mut self, alloc: Global) {
        forget(&mut self.lanes, &RopeTable::new(alloc, 8));
    }

    fn holds(&self, index: u32) -> bool {
        self.lanes.is_resident(RopeId(1), index)
    }

    // How many calls the disk made once the blocks were laid.
    fn calls(&self) -> u64 {
        self.disk.calls().saturating_sub(5)
    }
}

// The passage begins in the first block and ends in the fifth, at which the second window begins.
#[test]
fn a_passage_in_two_windows(rt: HostRuntime) -> Result<(), Fail> {
    let mut desk = Desk::of(rt.alloc(), &[])?;
    desk.play(rt.alloc(), Lane(1), 3, 34)?;
    assert!(rt; desk.feed(rt.alloc(), Lane(1))? == Seen::Window(0));
    assert!(rt; desk.text() == *b"defghijklmnopqrstuvwxyz012345.");
    assert!(rt; desk.calls() == 4);
    assert!(rt; desk.serve(rt.alloc(), 29)? == Seen::Window(29));
    assert!(rt; desk.text() == *b"6789A.");
    assert!(rt; desk.calls() == 5);
    assert!(rt; desk.serve(rt.alloc(), 5)? == Seen::Ended(34));
    assert!(rt; desk.calls() == 5);
    Ok(())
}

// A stop hints the player, and the lease that comes back ends the job where it was heard.
#[test]
fn a_stop_between_windows(rt: HostRuntime) -> Result<(), Fail> {
    let mut desk = Desk::of(rt.alloc(), &[])?;
    desk.play(rt.alloc(), Lane(0), 0, 40)?;
    assert!(rt; desk.feed(rt.alloc(), Lane(0))? == Seen::Window(0));
    let (newly, hinted) = desk.stop(Lane(0));
    assert!(rt; newly == 1 && hinted);
    assert!(rt; desk.serve(rt.alloc(), 11)? == Seen::Stopped(11));
    assert!(rt; desk.calls() == 4);
    Ok(())
}

// The second lane reads the block that the first one brought into a frame.
#[test]
fn a_frame_that_two_lanes_read(rt: HostRuntime) -> Result<(), Fail> {
    let mut desk = Desk::of(rt.alloc(), &[])?;
    desk.play(rt.alloc(), Lane(0), 16, 8)?;
    desk.play(rt.alloc(), Lane(1), 20, 8)?;
    assert!(rt; desk.feed(rt.alloc(), Lane(0))? == Seen::Window(0));
    assert!(rt; desk.text() == *b"qrstuvwx." && desk.calls() == 1);
    assert!(rt; desk.feed(rt.alloc(), Lane(1))? == Seen::Window(0));
    assert!(rt; desk.text() == *b"uvwxyz01." && desk.calls() == 2);
    Ok(())
}

// A block that nothing uses leaves residency, and is read again when it is wanted; a read that fails leaves the job.
#[test]
fn a_freed_block_leaves_residency(rt: HostRuntime) -> Result<(), Fail> {
    let mut desk = Desk::of(rt.alloc(), &[7])?;
    desk.play(rt.alloc(), Lane(0), 8, 8)?;
    desk.play(rt.alloc(), Lane(1), 8, 8)?;
    assert!(rt; desk.feed(rt.alloc(), Lane(0))? == Seen::Window(0));
    assert!(rt; desk.holds(1) && !desk.holds(0));
    desk.forget(rt.alloc());
    assert!(rt; !desk.holds(1));
    assert!(rt; desk.feed(rt.alloc(), Lane(1))? == Seen::Fault);
    assert!(rt; desk.feed(rt.alloc(), Lane(1))? == Seen::Window(0));
    assert!(rt; desk.text() == *b"ijklmnop." && desk.calls() == 3);
    Ok(())
}
