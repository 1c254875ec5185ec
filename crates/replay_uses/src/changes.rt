//! Changes tried on the parts of a small disk, and what stands after them.

ghost use Rattle.recovery.specs.Shown.{IsParts};

use crate::steps::{empty_parts, tried};
use recovery::Parts;
use std::alloc::Global;
use std::process::Abort;
use std::test::Fail;
use voice_blocks::Owner;
use voice_units::{BadShape, Graces, RopeId, Shape};

// A block without an address.
const NOWHERE: u64 = 777;

fn small_shape() -> Result<Shape, BadShape> {
    let graces = Graces {
        common: 60,
        held: 60,
        until: 60,
        listed: 60,
    };
    Shape::new(2, 8, 16, 512, graces, 4, 1216)
}

// The address of a block of the first file.
fn address(parts: &Parts, index: u32) -> u64 {
    match parts.blocks.address(Owner::File(RopeId(1)), index) {
        Some(address) => u64::from(address),
        None => NOWHERE,
    }
}

// Rope 1 has 20 samples, in the blocks at 0, 1 and 2. Its number and its addresses are not given again, nor are there narrow addresses in form 2.
fn recordings(rt: &impl Abort, parts: &mut Parts, alloc: Global, shape: &Shape)
    requires { IsParts shape.now parts.old }
    ensures { IsParts shape.now parts.new }
{
    let first = [
        11, 0, 0, 0, 0, 0, 0, 0, 1, 0, 0, 0, 20, 0, 0, 0, 3, 0, 0, 0, 0, 0, 0, 0, 1, 0, 0, 0, 2,
    ];
    let done = tried(parts, alloc, shape, &first);
    let again = tried(parts, alloc, shape, &first);
    let held = [
        11, 0, 0, 0, 0, 0, 0, 0, 2, 0, 0, 0, 8, 0, 0, 0, 1, 0, 0, 0, 2,
    ];
    let taken = tried(parts, alloc, shape, &held);
    let narrow = [1, 0, 0, 0, 0, 0, 0, 0, 2, 0, 0, 0, 8, 0, 0, 0, 1, 0, 3];
    let narrow = tried(parts, alloc, shape, &narrow);
    assert_eq!(rt; [done, again, taken, narrow], [1, 0, 0, 0]);
}

// Rope 3 is made of 5 samples of file 1 from place 5 on, which lie in its blocks 0 and 1. File 2 has no block.
fn edits(rt: &impl Abort, parts: &mut Parts, alloc: Global, shape: &Shape)
    requires { IsParts shape.now parts.old }
    ensures { IsParts shape.now parts.new }
{
    let slice = [
        2, 0, 0, 0, 0, 0, 0, 0, 3, 0, 1, 0, 0, 0, 0, 0, 0, 0, 1, 0, 0, 0, 5, 0, 0, 0, 5,
    ];
    let done = tried(parts, alloc, shape, &slice);
    let missing = [
        2, 0, 0, 0, 0, 0, 0, 0, 4, 0, 1, 0, 0, 0, 0, 0, 0, 0, 2, 0, 0, 0, 0, 0, 0, 0, 1,
    ];
    let unused = tried(parts, alloc, shape, &missing);
    assert_eq!(rt; [done, unused], [1, 0]);
}

// A row of class Held with key k keeps rope 1; a sweep of it and a census of k are refused. The row comes and goes once.
fn rows(rt: &impl Abort, parts: &mut Parts, alloc: Global, shape: &Shape)
    requires { IsParts shape.now parts.old }
    ensures { IsParts shape.now parts.new }
{
    let row = [3, 1, 1, 0x6b, 0, 0, 0, 0, 0, 0, 0, 1, 0];
    let came = tried(parts, alloc, shape, &row);
    let stands = tried(parts, alloc, shape, &row);
    let kept = tried(parts, alloc, shape, &[6, 0, 1, 0, 0, 0, 0, 0, 0, 0, 1]);
    let not_listed = tried(parts, alloc, shape, &[5, 0, 1, 1, 0x6b]);
    let went = tried(parts, alloc, shape, &[4, 1, 1, 0x6b]);
    let gone = tried(parts, alloc, shape, &[4, 1, 1, 0x6b]);
    let found = [came, stands, kept, not_listed, went, gone];
    assert_eq!(rt; found, [1, 0, 0, 0, 1, 0]);
}

// Moment 60 comes once; rope 1 goes once.
fn moments(rt: &impl Abort, parts: &mut Parts, alloc: Global, shape: &Shape)
    requires { IsParts shape.now parts.old }
    ensures { IsParts shape.now parts.new }
{
    let later = [7, 0, 0, 0, 0, 0, 0, 0, 60];
    let came = tried(parts, alloc, shape, &later);
    let again = tried(parts, alloc, shape, &later);
    let sweep = [6, 0, 1, 0, 0, 0, 0, 0, 0, 0, 1];
    let went = tried(parts, alloc, shape, &sweep);
    let gone = tried(parts, alloc, shape, &sweep);
    assert_eq!(rt; [came, again, went, gone], [1, 0, 1, 0]);
}

// The addresses of the blocks of the first file, and how many are free.
fn assert_addresses(rt: &impl Abort, parts: &Parts, wanted: [u64; 4]) {
    let found = [
        address(parts, 0),
        address(parts, 1),
        address(parts, 2),
        u64::from(parts.blocks.free()),
    ];
    assert_eq!(rt; found, wanted);
}

fn in_order(rt: &impl Abort, parts: &mut Parts, alloc: Global, shape: &Shape)
    requires { IsParts shape.now parts.old }
{
    recordings(rt, parts, alloc, shape);
    edits(rt, parts, alloc, shape);
    rows(rt, parts, alloc, shape);
    assert_addresses(rt, parts, [0, 1, 2, 13]);
    moments(rt, parts, alloc, shape);
    assert_addresses(rt, parts, [0, 1, NOWHERE, 14]);
}

#[test]
fn changes_in_order(rt: HostRuntime) -> Result<(), Fail> {
    let Ok(shape) = small_shape() else {
        return Err(Fail::new("the shape is refused"));
    };
    let mut parts = empty_parts(rt.alloc(), &shape)?;
    in_order(&rt, &mut parts, rt.alloc(), &shape);
    Ok(())
}
