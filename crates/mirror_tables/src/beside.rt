//! Tables beside others.

ghost use Rattle.std.specs.Prelude.{◌≡◌, true, is_some, IfOk};
ghost use Rattle.voice_model.specs.Spelling.{keeps_grammar};
ghost use Rattle.voice_model.specs.Replay.{brings};
ghost use Rattle.recovery.specs.Shown.{IsParts, IsApplied};
ghost use Rattle.mirror_tables.specs.Beside.{IsSame, IsBehind, IsBeside};

use recovery::Parts;
use std::alloc::Global;
use voice_model::Change;
use voice_units::{NoMemory, Shape};

/// Tables beside others, on which the next change is tried.
#[derive(Drop)]
pub enum Beside {
    /// There are none.
    Nothing,
    /// They show the same.
    Same(Parts),
    /// They show what the others showed before this change.
    Behind(Parts, Change),
}

/// Tries a change on tables: true exactly where it is legal, and then it has acted; after false or want of memory the tables show what they did. Tables of 2^32 - 1 ropes or rows take no more, which counts as want of memory.
pub fn try_change(
    alloc: Global,
    shape: &Shape,
    tables: &mut Parts,
    change: &Change,
) -> Result<bool, NoMemory>
    requires grammar { keeps_grammar change.now ≡ true }
    requires kind { is_some (brings change.now) ≡ true }
    requires tables { IsParts shape.now tables.old }
    ensures { IsApplied shape.now tables.old tables.new change.now result }
{
    if tables.ropes.count() > 4_294_967_294 {
        return Err(NoMemory);
    }
    if tables.interests.is_full() {
        return Err(NoMemory);
    }
    tables.apply(alloc, shape, change)
}

// A copy, which shows the same.
fn copy_of(parts: &Parts) -> Result<Parts, NoMemory>
    ensures { IfOk result (λ tables. IsSame parts.now tables) }
{
    Ok(Parts {
        ropes: parts.ropes.copy()?,
        interests: parts.interests.copy()?,
        blocks: parts.blocks.copy()?,
        moment: parts.moment,
        next: parts.next,
        form: parts.form,
    })
}

// Does the change that the tables lack.
fn caught_up(
    alloc: Global,
    shape: &Shape,
    parts: &Parts,
    mut tables: Parts,
    change: &Change,
) -> Result<Parts, NoMemory>
    requires { IsBehind shape.now parts.now tables change.now }
    ensures { IfOk result (λ tables. IsSame parts.now tables) }
{
    let Ok(true) = try_change(alloc, shape, &mut tables, change) else {
        return Err(NoMemory);
    };
    Ok(tables)
}

/// Tables that show what the parts show: those beside them, brought up by the change that they lack, or a copy where there are none. A copy goes over all tables; otherwise it takes as many steps as `try_change`. After want of memory there are none.
pub fn brought_up(
    alloc: Global,
    shape: &Shape,
    parts: &Parts,
    beside: Beside,
) -> Result<Parts, NoMemory>
    requires parts { IsParts shape.now parts.now }
    requires beside { IsBeside shape.now parts.now beside }
    ensures { IfOk result (λ tables. IsSame parts.now tables) }
{
    match beside {
        Beside::Nothing => copy_of(parts),
        Beside::Same(tables) => Ok(tables),
        Beside::Behind(tables, change) => caught_up(alloc, shape, parts, tables, &change),
    }
}
