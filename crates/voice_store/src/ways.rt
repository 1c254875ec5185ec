//! How a change gets into the journal.

ghost use Rattle.std.specs.Prelude.{◌≡◌, ℕ, IfOk};
ghost use Rattle.voice_model.specs.State.{State, Effect};
ghost use Rattle.voice_model.specs.Samples.{Tagged};
ghost use Rattle.voice_model.specs.Changes.{frame_size, base_size, changed};
ghost use Rattle.voice_store.specs.Stood.{IsSeated};
ghost use Rattle.voice_store.specs.Ways.{IsWay};

use crate::inside::Inside;
use voice_units::NoMemory;

/// How a change gets into the journal.
#[derive(Clone, Copy, Debug, PartialEq, Eq)]
pub(crate) enum Way {
    /// Not at all: what it needs, and what is left.
    Full(u64, u64),
    /// Behind the other records.
    Append,
    /// Within a base of the state after it, in the other area.
    Switch,
}

/// The greatest epoch; there is no switch at it.
pub(crate) const LAST_EPOCH: u64 = 1 << 48;

impl Inside {
    /// How a change whose record takes `frame` bytes gets into the journal, where a base takes `base` bytes now and `need` bytes after it.
    pub(crate) fn way(&self, frame: u64, base: u128, need: u128) -> Result<Way, NoMemory>
        ensures { (s : State) (effect : Effect Tagged) → IsSeated self.now.journal s → base ≡ base_size s.form s.kept → frame ≡ frame_size s.form s.kept.shape.block effect → need ≡ base_size s.form (changed s.form s.kept effect) → IfOk result (IsWay s effect) }
    {
        let left = self.journal.left();
        let area = u64::from(self.journal.shape().area) - 17;
        if self.journal.epoch() == LAST_EPOCH {
            if frame > left {
                return Ok(Way::Full(frame, left));
            }
            return Ok(Way::Append);
        }
        if frame <= left && need <= base {
            return Ok(Way::Append);
        }
        if need > u128::from(area) {
            let Ok(most) = u64::try_from(need) else {
                return Err(NoMemory);
            };
            return Ok(Way::Full(most, area));
        }
        if frame <= left {
            return Ok(Way::Append);
        }
        Ok(Way::Switch)
    }
}
