//! What was added to open recordings.

ghost use Rattle.std.specs.Prelude.{◌≡◌, IfOk};
ghost use Rattle.mirror_sender.specs.Abreast.{takes_on, others_than};

use std::alloc::Global;
use voice_units::{Lane, NoMemory, Take};

/// A take that was added to the open recording of a lane.
#[derive(Clone, Copy, Debug, PartialEq, Eq)]
pub struct Added {
    pub lane: Lane,
    pub take: Take,
}

/// The takes that were added on a lane.
pub(crate) fn takes_on(alloc: Global, adds: &[Added], lane: Lane) -> Result<Vec<Take>, NoMemory>
    ensures { IfOk result (λ takes. takes.items ≡ takes_on adds.now lane) }
{
    let mut takes = Vec::new(alloc);
    for added in adds {
        if added.lane.0 == lane.0 {
            takes.push(added.take)?;
        }
    }
    Ok(takes)
}

/// What was added on other lanes.
pub(crate) fn others_than(alloc: Global, adds: &[Added], lane: Lane) -> Result<Vec<Added>, NoMemory>
    ensures { IfOk result (λ others. others.items ≡ others_than adds.now lane) }
{
    let mut others = Vec::new(alloc);
    for added in adds {
        if added.lane.0 != lane.0 {
            others.push(*added)?;
        }
    }
    Ok(others)
}
