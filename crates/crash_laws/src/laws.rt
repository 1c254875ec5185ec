//! Laws of when a disk stands for a state, and how calls carry that. Each is the contract of a function over the moments of a disk; a proof above takes the lemma that proves it, for any two moments, from `proofs/`.

ghost use Rattle.crash_laws.specs.Foundations.{Foundations};
ghost use Rattle.crash_laws.specs.Laws.{DisksAreHonest, OpeningHolds, StandingGives, EntriesCount, LooksCarry, WritesCarry, AppendsCarry, SwitchesCarry, FailuresCarry, LandingsCarry};

use fillings::laws::fills_alike;
use journal_readings::laws::{opens, rebuilds_base, rebuilds_more, rebuilds_valid};
use voice_journal::laws::{blocks_lie_apart, doubt_reads};
use voice_outside::Disk;

/// The laws of the crates below hold.
pub fn foundations()
    ensures { Foundations }
{
    opens();
    rebuilds_valid();
    rebuilds_more();
    rebuilds_base();
    fills_alike();
    blocks_lie_apart();
    doubt_reads();
}

/// An honest disk keeps what the model of disks says.
pub fn disks_are_honest<D: Disk>(disk: &D)
    ensures { DisksAreHonest (D.told disk.now) }
{}

/// A disk that was opened stands for the state that its bytes open as.
pub fn opening_holds<D: Disk>(disk: &D)
    ensures { OpeningHolds (D.told disk.now) }
{
    foundations();
}

/// What is rebuilt where a disk stands for a state is sound.
pub fn standing_gives<D: Disk>(disk: &D)
    ensures { StandingGives (D.told disk.now) }
{
    foundations();
}

/// An entry without a call of the disk carries what is held.
pub fn entries_count<D: Disk>(disk: &D)
    ensures { EntriesCount (D.told disk.now) }
{}

/// Calls that change nothing carry it.
pub fn looks_carry<D: Disk>(old: &D, new: &D)
    ensures { LooksCarry (D.told old.now) (D.told new.now) }
{}

/// A write into blocks that have no place carries it.
pub fn writes_carry<D: Disk>(old: &D, new: &D)
    ensures { WritesCarry (D.told old.now) (D.told new.now) }
{
    foundations();
}

/// An append carries it to the state with the change, done or in doubt.
pub fn appends_carry<D: Disk>(old: &D, new: &D)
    ensures { AppendsCarry (D.told old.now) (D.told new.now) }
{
    foundations();
}

/// A switch carries it to the state with the change, done or in doubt.
pub fn switches_carry<D: Disk>(old: &D, new: &D)
    ensures { SwitchesCarry (D.told old.now) (D.told new.now) }
{
    foundations();
}

/// An append or a switch that failed before it counted carries it.
pub fn failures_carry<D: Disk>(old: &D, new: &D)
    ensures { FailuresCarry (D.told old.now) (D.told new.now) }
{
    foundations();
}

/// A landing carries it to the state with the change that was in doubt, and a landing that failed leaves it.
pub fn landings_carry<D: Disk>(old: &D, new: &D)
    ensures { LandingsCarry (D.told old.now) (D.told new.now) }
{
    foundations();
}
