//! A mirror's tables, and others that follow them.

ghost use Rattle.std.specs.Prelude.{◌≡◌, true, is_some, IfOk, OnOk, IfSome};
ghost use Rattle.voice_model.specs.Spelling.{keeps_grammar};
ghost use Rattle.voice_model.specs.Replay.{brings};
ghost use Rattle.recovery.specs.Shown.{IsParts};
ghost use Rattle.mirror_tables.specs.Beside.{IsSame};

use super::{
    Beside, brought_up, free_addresses, numbered_base, numbered_need, plain_need, try_change,
};
use change_codec::get;
use recovery::Parts;
use std::alloc::Global;
use std::process::Abort;
use std::test::Fail;
use voice_model::Change;
use voice_units::{BadShape, Graces, NoMemory, Shape};

// A recording of 8 samples, which are one block, at the address 1.
const RECORDING: [u8; 21] = [
    11, 0, 0, 0, 0, 0, 0, 0, 1, 0, 0, 0, 8, 0, 0, 0, 1, 0, 0, 0, 1,
];

// Blocks of 8, 16 of them.
fn small_shape() -> Result<Shape, BadShape> {
    let graces = Graces {
        common: 60,
        held: 60,
        until: 60,
        listed: 60,
    };
    Shape::new(2, 8, 16, 512, graces, 4, 1216)
}

// The tables of a disk that was just formatted.
fn empty_tables(alloc: Global, shape: &Shape) -> Result<Parts, NoMemory>
    ensures { IfOk result (λ parts. IsParts shape.now parts) }
{
    Parts::empty(alloc, shape)
}

// Whether a mirror takes changes of this kind.
fn is_taken(change: &Change) -> bool
    ensures { result ≡ is_some (brings change.now) }
{
    match change {
        Change::Base(..)
        | Change::Base2(..)
        | Change::File(..)
        | Change::File2(..)
        | Change::Rope(..)
        | Change::Rope2(..) => false,
        _ => true,
    }
}

// The change that bytes spell, if a mirror takes it.
fn change_of(alloc: Global, bytes: &[u8]) -> Option<Change>
    ensures grammar { IfSome result (λ change. keeps_grammar change ≡ true) }
    ensures kind { IfSome result (λ change. is_some (brings change) ≡ true) }
{
    let Ok(change) = get(alloc, bytes) else {
        return None;
    };
    if !is_taken(&change) {
        return None;
    }
    Some(change)
}

// Does a change to the parts, and then to the tables beside them.
fn followed(
    alloc: Global,
    shape: &Shape,
    parts: &mut Parts,
    tables: Parts,
    change: Change,
) -> Result<Parts, NoMemory>
    requires parts { IsParts shape.now parts.old }
    requires same { IsSame parts.old tables }
    requires grammar { keeps_grammar change ≡ true }
    requires kind { is_some (brings change) ≡ true }
    ensures parts { OnOk result (IsParts shape.now parts.new) }
    ensures same { IfOk result (λ tables. IsSame parts.new tables) }
{
    let Ok(true) = try_change(alloc, shape, parts, &change) else {
        return Err(NoMemory);
    };
    let tables = brought_up(alloc, shape, parts, Beside::Behind(tables, change))?;
    brought_up(alloc, shape, parts, Beside::Same(tables))
}

// The base has a head of 22, a file of 18 with 8 for its block, and a rope of 25 with 16 for its piece.
fn look_at_bases(rt: &impl Abort, alloc: Global, shape: &Shape, tables: &Parts) -> Result<(), Fail>
    requires { IsParts shape.now tables.now }
{
    assert_eq!(rt; plain_need(tables), 89);
    assert_eq!(rt; numbered_need(tables), 113);
    let base = numbered_base(alloc, 7, tables)?;
    assert_eq!(rt; base.size(), 113);
    let Some(head) = base.get(0) else {
        assert!(rt; false);
        return Ok(());
    };
    assert_eq!(rt; head.get(7).copied(), Some(7));
    assert_eq!(rt; head.get(8).copied(), Some(12));
    Ok(())
}

// Of 16 addresses that of the recording is taken.
fn look_for_addresses(
    rt: &impl Abort,
    alloc: Global,
    shape: &Shape,
    tables: &mut Parts,
) -> Result<(), Fail>
    requires { IsParts shape.now tables.old }
{
    let Some(list) = free_addresses(alloc, tables, 2)? else {
        assert!(rt; false);
        return Ok(());
    };
    assert_eq!(rt; list.items(), [0, 2].as_slice());
    let all = free_addresses(alloc, tables, 16)?;
    assert!(rt; all.is_none());
    Ok(())
}

// Makes a copy of the tables, and looks at it once it has followed them.
fn follow(rt: &impl Abort, alloc: Global, shape: &Shape, parts: &mut Parts) -> Result<(), Fail>
    requires { IsParts shape.now parts.old }
{
    let Some(change) = change_of(alloc, &RECORDING) else {
        assert!(rt; false);
        return Ok(());
    };
    let tables = brought_up(alloc, shape, parts, Beside::Nothing)?;
    let mut tables = followed(alloc, shape, parts, tables, change)?;
    assert_eq!(rt; tables.next, 2);
    look_at_bases(rt, alloc, shape, &tables)?;
    look_for_addresses(rt, alloc, shape, &mut tables)
}

#[test]
fn tables_follow_others(rt: HostRuntime) -> Result<(), Fail> {
    let alloc = rt.alloc();
    let Ok(shape) = small_shape() else {
        assert!(rt; false);
        return Ok(());
    };
    let mut parts = empty_tables(alloc, &shape)?;
    follow(&rt, alloc, &shape, &mut parts)
}
