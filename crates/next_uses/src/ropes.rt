//! Ropes of a small disk made ready; they come, or are given back.

ghost use Rattle.std.specs.Prelude.{◌≡◌, [], IfOk};
ghost use Rattle.voice_model.specs.Replay.{Rebuilt};
ghost use Rattle.voice_model.specs.declared.Change.{Change};
ghost use Rattle.running_tables.specs.Running.{AtRest};
ghost use Rattle.next_ropes.specs.Ready.{IsReady};

use next_ropes::{NextRope, give_back, parts_after, perform, ready_edit, ready_recording};
use recovery::Parts;
use std::alloc::Global;
use std::test::Fail;
use voice_units::{BadShape, Graces, NoMemory, RopeId, Shape};

// Where memory or an address wants.
const REFUSED: u64 = 999;

// 16 blocks of 8 samples.
fn small_shape(version: u32) -> Result<Shape, BadShape> {
    let graces = Graces {
        common: 60,
        held: 60,
        until: 60,
        listed: 60,
    };
    Shape::new(version, 8, 16, 512, graces, 4, 1216)
}

fn empty_parts(alloc: Global, shape: &Shape) -> Result<Parts, NoMemory>
    ensures { IfOk result (λ parts. AtRest shape.now parts) }
{
    Parts::empty(alloc, shape)
}

// The kind and the size of its change, its last address, and how many addresses are free while it is ready.
fn seen(parts: &Parts, next: &NextRope) -> [u64; 4] {
    let kind = next.payload.first().copied().unwrap_or(0);
    let last = next.addresses.last().copied().unwrap_or(0);
    [
        u64::from(kind),
        next.payload.len() as u64,
        u64::from(last),
        u64::from(parts.blocks.free()),
    ]
}

// The rope comes, or is given back.
fn finish(parts: &mut Parts, shape: &Shape, next: NextRope, comes: bool)
    requires { (b : Rebuilt) × (c : Change) × IsReady [] [] parts.old b next c × (b.shape ≡ shape.now) }
    ensures { AtRest shape.now parts.new }
{
    if comes {
        perform(parts, shape, next);
    } else {
        give_back(parts, next);
    }
}

// A recording is made ready; it comes, or is given back.
fn record(parts: &mut Parts, alloc: Global, shape: &Shape, len: u16, comes: bool) -> [u64; 4]
    requires { AtRest shape.now parts.old }
    ensures { AtRest shape.now parts.new }
{
    let len = u32::from(len);
    if parts.next > 1 << 48 {
        return [REFUSED; 4];
    }
    if (len + (shape.block - 1)) / shape.block > parts.blocks.free() {
        return [REFUSED; 4];
    }
    let Ok(next) = ready_recording(alloc, parts, shape, len) else {
        return [REFUSED; 4];
    };
    let seen = seen(parts, &next);
    finish(parts, shape, next, comes);
    seen
}

// A rope of the pieces of rope 1 is made ready; it comes, or is given back.
fn copy_first(parts: &mut Parts, alloc: Global, shape: &Shape, comes: bool) -> [u64; 4]
    requires { AtRest shape.now parts.old }
    ensures { AtRest shape.now parts.new }
{
    let _block = parts.ropes.block();
    let Some(first) = parts.ropes.get(RopeId(1)) else {
        return [REFUSED; 4];
    };
    let Ok(pieces) = first.copy() else {
        return [REFUSED; 4];
    };
    if parts.next > 1 << 48 || pieces.count() > 4096 || pieces.length() > 1 << 30 {
        return [REFUSED; 4];
    }
    let Ok(next) = ready_edit(alloc, parts, pieces) else {
        return [REFUSED; 4];
    };
    let seen = seen(parts, &next);
    finish(parts, shape, next, comes);
    seen
}

// How many ropes live, the number of the next one, and how many addresses are free.
fn counts(parts: &Parts) -> [u64; 3] {
    [
        parts.ropes.count() as u64,
        parts.next,
        u64::from(parts.blocks.free()),
    ]
}

// The counts after a recording of 16 samples, which does not come here.
fn counts_after(parts: &mut Parts, alloc: Global, shape: &Shape) -> [u64; 3]
    requires { AtRest shape.now parts.old }
    ensures { AtRest shape.now parts.new }
{
    if parts.next > 1 << 48 {
        return [REFUSED; 3];
    }
    if (16 + (shape.block - 1)) / shape.block > parts.blocks.free() {
        return [REFUSED; 3];
    }
    let Ok(next) = ready_recording(alloc, parts, shape, 16) else {
        return [REFUSED; 3];
    };
    let Ok(after) = parts_after(alloc, parts, shape, &next) else {
        finish(parts, shape, next, false);
        return [REFUSED; 3];
    };
    finish(parts, shape, next, false);
    counts(&after)
}

// Five ropes in turn: what was seen of each while it was ready, and the counts after it came or was given back.
fn five_ropes(alloc: Global, shape: &Shape) -> Result<[([u64; 4], [u64; 3]); 5], NoMemory> {
    let mut parts = empty_parts(alloc, shape)?;
    let first = record(&mut parts, alloc, shape, 20, false);
    let first = (first, counts(&parts));
    let second = record(&mut parts, alloc, shape, 20, true);
    let second = (second, counts(&parts));
    let third = record(&mut parts, alloc, shape, 8, true);
    let third = (third, counts_after(&mut parts, alloc, shape));
    let fourth = copy_first(&mut parts, alloc, shape, false);
    let fourth = (fourth, counts(&parts));
    let fifth = copy_first(&mut parts, alloc, shape, true);
    let fifth = (fifth, counts(&parts));
    Ok([first, second, third, fourth, fifth])
}

#[test]
fn ropes_in_form_1(rt: HostRuntime) -> Result<(), Fail> {
    let Ok(shape) = small_shape(1) else {
        return Ok(());
    };
    let ropes = five_ropes(rt.alloc(), &shape)?;
    let want = [
        ([1, 23, 2, 13], [0, 1, 16]),
        ([1, 23, 2, 13], [1, 2, 13]),
        ([1, 19, 3, 12], [3, 4, 10]),
        ([2, 27, 0, 12], [2, 3, 12]),
        ([2, 27, 0, 12], [3, 4, 12]),
    ];
    assert_eq!(rt; ropes, want);
    Ok(())
}

#[test]
fn ropes_in_form_2(rt: HostRuntime) -> Result<(), Fail> {
    let Ok(shape) = small_shape(2) else {
        return Ok(());
    };
    let ropes = five_ropes(rt.alloc(), &shape)?;
    let want = [
        ([11, 29, 2, 13], [0, 1, 16]),
        ([11, 29, 2, 13], [1, 2, 13]),
        ([11, 21, 3, 12], [3, 4, 10]),
        ([2, 27, 0, 12], [2, 3, 12]),
        ([2, 27, 0, 12], [3, 4, 12]),
    ];
    assert_eq!(rt; ropes, want);
    Ok(())
}
