//! A change is made ready with all memory that it needs, before a byte is written.

ghost use Rattle.std.specs.Prelude.{◌≡◌, ◌+◌, ◌^◌, ◌<◌, ◌≤◌, ℕ, true, length, is_some, IfOk, OnErr};
ghost use Rattle.voice_model.specs.Spelling.{spelling, keeps_grammar};
ghost use Rattle.voice_model.specs.Replay.{Rebuilt, brings, is_legal, acted};
ghost use Rattle.mirror_readings.specs.Laws.{numbered_payload};
ghost use Rattle.recovery.specs.Shown.{Rebuilds, IsParts};
ghost use Rattle.mirror_tables.specs.Beside.{IsSame, IsBeside};
ghost use Rattle.voice_mirror.specs.Shown.{IsStanding, state_of};
ghost use Rattle.voice_mirror.specs.Ready.{IsWay, IsPlanned, IsReadied, EachReadied};

use crate::discarding::{discard_change, discard_tables};
use crate::inside::Inside;
use crate::landing::put_beside;
use change_codec::size;
use mirror_replay::put_numbered;
use mirror_tables::{Beside, brought_up, numbered_base, numbered_need, try_change};
use recovery::Parts;
use std::alloc::Global;
use std::mem;
use voice_journal::{Journal, Payloads};
use voice_model::Change;
use voice_units::NoMemory;

/// How a change goes into the journal: the record that is appended, or the base that has it.
#[derive(Drop)]
pub(crate) enum How {
    Append(Vec<u8>),
    Switch(Payloads),
}

/// A change, the tables that have it, and how it goes into the journal.
#[derive(Drop)]
pub(crate) struct Ready {
    pub(crate) tables: Parts,
    pub(crate) change: Change,
    pub(crate) how: How,
}

/// What came of making a change ready.
#[derive(Drop)]
pub(crate) enum Readied {
    Goes(Ready),
    Strange,
    Full(u128, u64),
}

/// Whether a change is appended or goes into a base; or the bytes needed and left, where it has no room.
#[derive(Clone, Copy)]
pub(crate) enum Way {
    Append,
    Switch,
    Full(u128, u64),
}

/// How a change goes into the journal, or why it does not.
#[derive(Drop)]
pub(crate) enum Planned {
    Goes(How),
    Full(u128, u64),
}

// Where a change of this frame goes, and the numbered base with it has this size.
fn choose(journal: &Journal, size: u128, frame: u64) -> Way
    ensures { IsWay journal.now size frame result }
{
    let left = journal.left();
    if journal.epoch() == 1 << 48 {
        if frame > left {
            return Way::Full(u128::from(frame), left);
        }
        return Way::Append;
    }
    let shape = journal.shape();
    let room = u64::from(shape.area) - 17;
    if size > u128::from(room) {
        return Way::Full(size, room);
    }
    if frame > left {
        return Way::Switch;
    }
    Way::Append
}

// The record of a numbered change.
fn payload(alloc: Global, number: u64, change: &Change) -> Result<Vec<u8>, NoMemory>
    requires { keeps_grammar change.now ≡ true }
    ensures { IfOk result (λ bytes. bytes.items ≡ numbered_payload number (spelling change.now)) }
{
    let mut bytes = Vec::new(alloc);
    put_numbered(number, change, &mut bytes)?;
    Ok(bytes)
}

// How a numbered change goes into the journal, where the tables have it already.
fn plan(
    alloc: Global,
    journal: &Journal,
    number: u64,
    tables: &Parts,
    change: &Change,
) -> Result<Planned, NoMemory>
    requires grammar { keeps_grammar change.now ≡ true }
    requires shown { (x : Rebuilt) × Rebuilds tables.now x }
    ensures { IfOk result (λ planned. (x : Rebuilt) → Rebuilds tables.now x → IsPlanned journal.now number x change.now planned) }
{
    let Some(frame) = size(change).checked_add(13) else {
        return Err(NoMemory);
    };
    match choose(journal, numbered_need(tables), frame) {
        Way::Full(need, left) => Ok(Planned::Full(need, left)),
        Way::Append => Ok(Planned::Goes(How::Append(payload(alloc, number, change)?))),
        Way::Switch => Ok(Planned::Goes(How::Switch(numbered_base(alloc, number, tables)?))),
    }
}

// The tables on which the next change is tried. There are none beside the parts then.
pub(crate) fn next_tables(inside: &mut Inside) -> Result<Parts, NoMemory>
    requires parts { IsParts inside.old.journal.shape inside.old.parts }
    requires beside { IsBeside inside.old.journal.shape inside.old.parts inside.old.beside }
    ensures tables { IfOk result (λ tables. IsSame inside.old.parts tables) }
    ensures rest { inside.new ≡ record inside.old { beside = Beside.Nothing } }
{
    let beside = mem::replace(&mut inside.beside, Beside::Nothing);
    let shape = inside.journal.shape();
    brought_up(inside.alloc, &shape, &inside.parts, beside)
}

// Lets a change go that is not done; the tables stay as those that show the same.
fn gave_up(inside: &mut Inside, tables: Parts, change: Change)
    ensures { inside.new ≡ record inside.old { beside = Beside.Same tables } }
{
    discard_change(change);
    put_beside(inside, Beside::Same(tables));
}

// A change on tables that have it.
fn settle_on(
    alloc: Global,
    journal: &Journal,
    number: u64,
    tables: Parts,
    change: Change,
) -> Result<Readied, NoMemory>
    requires grammar { keeps_grammar change ≡ true }
    requires shown { (x : Rebuilt) × Rebuilds tables x }
    ensures { IfOk result (λ r. (b : Rebuilt) → is_legal b change ≡ true → Rebuilds tables (acted b change) → IsReadied journal.now number change b r) }
{
    match plan(alloc, journal, number, &tables, &change) {
        Ok(Planned::Goes(how)) => Ok(Readied::Goes(Ready {
            tables,
            change,
            how,
        })),
        Ok(Planned::Full(need, left)) => {
            discard_tables(tables);
            Ok(Readied::Full(need, left))
        }
        Err(e) => {
            discard_tables(tables);
            Err(e)
        }
    }
}

// Tries a change on tables that show what the parts do.
fn tried(
    inside: &mut Inside,
    number: u64,
    mut tables: Parts,
    change: Change,
) -> Result<Readied, NoMemory>
    requires grammar { keeps_grammar change ≡ true }
    requires kind { is_some (brings change) ≡ true }
    requires parts { IsParts inside.old.journal.shape inside.old.parts }
    requires same { IsSame inside.old.parts tables }
    requires none { inside.old.beside ≡ Beside.Nothing }
    ensures readied { IfOk result (λ r. EachReadied (state_of inside.old) number change r) }
    ensures rest { inside.new ≡ record inside.old { beside = inside.new.beside } }
    ensures beside { IsBeside inside.old.journal.shape inside.old.parts inside.new.beside }
{
    let shape = inside.journal.shape();
    match try_change(inside.alloc, &shape, &mut tables, &change) {
        Ok(true) => settle_on(inside.alloc, &inside.journal, number, tables, change),
        Ok(false) => {
            gave_up(inside, tables, change);
            Ok(Readied::Strange)
        }
        Err(e) => {
            gave_up(inside, tables, change);
            Err(e)
        }
    }
}

/// Makes a change ready under its number.
pub(crate) fn make_ready(
    inside: &mut Inside,
    number: u64,
    change: Change,
) -> Result<Readied, NoMemory>
    requires grammar { keeps_grammar change ≡ true }
    requires kind { is_some (brings change) ≡ true }
    requires parts { IsParts inside.old.journal.shape inside.old.parts }
    requires beside { IsBeside inside.old.journal.shape inside.old.parts inside.old.beside }
    ensures readied { IfOk result (λ r. EachReadied (state_of inside.old) number change r) }
    ensures rest { inside.new ≡ record inside.old { beside = inside.new.beside } }
    ensures beside { IsBeside inside.old.journal.shape inside.old.parts inside.new.beside }
    ensures standing { (size : ℕ) → IsStanding size inside.old → IsStanding size inside.new }
{
    let tables = next_tables(inside)?;
    tried(inside, number, tables, change)
}
