//! Laws of when a mirror's disk stands for the changes that the mirror took, and how calls carry that. Each is the contract of a function over the moments of a disk; a proof above takes the lemma that proves it, for any two moments, from `proofs/`.

ghost use Rattle.mirror_laws.specs.Foundations.{MirrorFoundations};
ghost use Rattle.mirror_laws.specs.Promotion.{PromotionsTurn};
ghost use Rattle.mirror_laws.specs.Laws.{OpeningHolds, StandingGives, LooksCarry, WritesCarry, AppendsCarry, SwitchesCarry, FailuresCarry, LandingsCarry};

use mirror_readings::laws::{opens, rebuilds_base, rebuilds_more, rebuilds_valid};
use voice_outside::Disk;

/// The laws of the crates below hold.
pub fn foundations()
    ensures { MirrorFoundations }
{
    opens();
    rebuilds_valid();
    rebuilds_more();
    rebuilds_base();
    crash_laws::laws::foundations();
}

/// A disk that was opened stands for what its bytes mean.
pub fn opening_holds<D: Disk>(disk: &D)
    ensures { OpeningHolds (D.told disk.now) }
{
    foundations();
}

/// What is rebuilt where a disk stands for the changes is sound.
pub fn standing_gives<D: Disk>(disk: &D)
    ensures { StandingGives (D.told disk.now) }
{
    foundations();
}

/// Calls that change nothing carry it.
pub fn looks_carry<D: Disk>(old: &D, new: &D)
    ensures { LooksCarry (D.told old.now) (D.told new.now) }
{
    foundations();
}

/// A write into blocks that have no place carries it.
pub fn writes_carry<D: Disk>(old: &D, new: &D)
    ensures { WritesCarry (D.told old.now) (D.told new.now) }
{
    foundations();
}

/// An append carries it to one change more, taken or in doubt.
pub fn appends_carry<D: Disk>(old: &D, new: &D)
    ensures { AppendsCarry (D.told old.now) (D.told new.now) }
{
    foundations();
}

/// A switch carries it to one change more, taken or in doubt.
pub fn switches_carry<D: Disk>(old: &D, new: &D)
    ensures { SwitchesCarry (D.told old.now) (D.told new.now) }
{
    foundations();
}

/// An append or a switch that failed before it counted carries it.
pub fn failures_carry<D: Disk>(old: &D, new: &D)
    ensures { FailuresCarry (D.told old.now) (D.told new.now) }
{
    foundations();
}

/// A landing takes the change that was in doubt, and a landing that failed leaves it in doubt.
pub fn landings_carry<D: Disk>(old: &D, new: &D)
    ensures { LandingsCarry (D.told old.now) (D.told new.now) }
{
    foundations();
}

/// A switch to the plain base of what the mirror has makes its disk a voice disk with just that, at once or in doubt; where it fails before it counts the disk stays the mirror's.
pub fn promotions_turn<D: Disk>(old: &D, new: &D)
    ensures { PromotionsTurn (D.told old.now) (D.told new.now) }
{
    foundations();
}
