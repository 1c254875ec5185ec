//! Makes a mirror's disk a voice disk.

ghost use Rattle.std.specs.Prelude.{◌≡◌, ◌↔◌, ◌+◌, ◌^◌, ◌≤◌, ◌<◌, ℕ, List, Option, map, IsTrue, IsErrOf, IfOk, IfErr, OnOk, Err, None};
ghost use Rattle.voice_outside.specs.Disk.{MakesAtMost};
ghost use Rattle.voice_outside.specs.Counters.{HasRisen};
ghost use Rattle.voice_journal.specs.Readings.{extent, framed_size};
ghost use Rattle.voice_model.specs.Samples.{Tagged};
ghost use Rattle.voice_model.specs.State.{Durable, Effect};
ghost use Rattle.voice_model.specs.Spelling.{spelling};
ghost use Rattle.voice_model.specs.Replay.{Rebuilt};
ghost use Rattle.voice_model.specs.Base.{base_of};
ghost use Rattle.recovery.specs.Shown.{Rebuilds};
ghost use Rattle.mirror_readings.specs.Readings.{Mirrored};
ghost use Rattle.mirror_laws.specs.Standing.{StandsSure};
ghost use Rattle.mirror_tables.specs.Numbered.{plain_size};
ghost use Rattle.mirror_laws.specs.Standing.{Took};
ghost use Rattle.voice_mirror.specs.Shown.{Keeps, IsStanding, state_of};
ghost use Rattle.voice_mirror.specs.Promoting.{Goes, IsFull, IsOfDevice, IsTurned, JudgesPromotion, PromotesAs};

use crate::inside::Inside;
use crate::landing::settle;
use checkpoint::compact_parts;
use mirror_laws::laws::foundations;
use mirror_tables::plain_need;
use recovery::Parts;
use std::alloc::Global;
use voice_journal::{Fault, Journal, Payloads};
use voice_outside::Disk;

/// Why a mirror's disk was not made a voice disk.
#[derive(Clone, Copy, Debug, PartialEq, Eq)]
pub enum PromoteError {
    /// The journal has no further epoch. Nothing was written but what was in doubt.
    EpochSpent,
    /// What the mirror has takes the first number of bytes as records, and an area has room for the second. Nothing was written but what was in doubt.
    JournalFull(u128, u64),
    /// The device failed before the switch counted, and its count of faults rose: the disk is the mirror's, with what was in doubt or without it.
    DiskFault,
    /// The device failed where the switch may have counted, and its count of faults rose: the disk is the mirror's as before, or a voice disk that has the same.
    InDoubt,
    /// Nothing was written but what was in doubt.
    NoMemory,
}

// Why no base of these tables goes into the other area.
fn refuse(journal: &Journal, parts: &Parts) -> Result<(), PromoteError>
    ensures spent { IsErrOf result PromoteError.EpochSpent ↔ (journal.now.seat.epoch ≡ 2 ^ 48) }
    ensures full { (need left : ℕ) → (result ≡ Err (PromoteError.JournalFull need left)) ↔ IsFull journal.now parts.now need left }
    ensures ok { OnOk result ((journal.now.seat.epoch < 2 ^ 48) × (plain_size parts.now + 17 ≤ journal.now.shape.area)) }
    ensures early { IfErr result (λ e. ¬ IsOfDevice e) }
{
    if journal.epoch() == 1 << 48 {
        return Err(PromoteError::EpochSpent);
    }
    let shape = journal.shape();
    let left = u64::from(shape.area) - 17;
    let need = plain_need(parts);
    if need > u128::from(left) {
        return Err(PromoteError::JournalFull(need, left));
    }
    Ok(())
}

// The base of these tables, where it goes into the other area.
fn plain_base(alloc: Global, journal: &Journal, parts: &Parts) -> Result<Payloads, PromoteError>
    requires shown { (b : Rebuilt) × Rebuilds parts.now b }
    ensures spent { IsErrOf result PromoteError.EpochSpent ↔ (journal.now.seat.epoch ≡ 2 ^ 48) }
    ensures full { (need left : ℕ) → (result ≡ Err (PromoteError.JournalFull need left)) ↔ IsFull journal.now parts.now need left }
    ensures fits { IfOk result (λ base. (journal.now.seat.epoch < 2 ^ 48) × (framed_size base + 17 ≤ journal.now.shape.area) × (plain_size parts.now + 17 ≤ journal.now.shape.area)) }
    ensures base { (b : Rebuilt) → Rebuilds parts.now b → IfOk result (λ base. base ≡ map spelling (base_of 2 b)) }
    ensures early { IfErr result (λ e. ¬ IsOfDevice e) }
{
    if let Err(e) = refuse(journal, parts) {
        return Err(e);
    }
    match compact_parts(alloc, 2, parts) {
        Ok(base) => Ok(base),
        Err(_) => Err(PromoteError::NoMemory),
    }
}

// Switches to a base. It takes no memory.
fn switch_over<D: Disk>(
    disk: &mut D,
    journal: &mut Journal,
    base: &Payloads,
) -> Result<(), PromoteError>
    requires shape_fits { extent journal.old.shape ≤ (D.told disk.old).size }
    requires base_fits { framed_size base.now + 17 ≤ journal.old.shape.area }
    requires epoch_left { journal.old.seat.epoch < 2 ^ 48 }
    requires sure { journal.old.doubt ≡ None }
    ensures made { MakesAtMost 6 (D.told disk.old) (D.told disk.new) result }
    ensures device { IfErr result IsOfDevice }
    ensures turns { IsTrue (D.told disk.old).honest → (b : Rebuilt) (had : Mirrored) → StandsSure journal.old (D.told disk.old) b had.position had.kept → base.now ≡ map spelling (base_of 2 b) → IsTurned had (D.told disk.old) (D.told disk.new) result }
{
    foundations();
    match journal.switch(disk, base) {
        Ok(()) => Ok(()),
        Err(Fault::Before) => Err(PromoteError::DiskFault),
        Err(Fault::Doubt) => Err(PromoteError::InDoubt),
    }
}

// Switches a journal to the base of these tables.
fn turn<D: Disk>(
    alloc: Global,
    disk: &mut D,
    journal: &mut Journal,
    parts: &Parts,
) -> Result<(), PromoteError>
    requires shape_fits { extent journal.old.shape ≤ (D.told disk.old).size }
    requires sure { journal.old.doubt ≡ None }
    requires shown { (b : Rebuilt) × Rebuilds parts.now b }
    ensures goes { Goes 6 (D.told disk.old) (D.told disk.new) }
    ensures spent { IsErrOf result PromoteError.EpochSpent ↔ (journal.old.seat.epoch ≡ 2 ^ 48) }
    ensures full { (need left : ℕ) → (result ≡ Err (PromoteError.JournalFull need left)) ↔ IsFull journal.old parts.now need left }
    ensures unchanged { IfErr result (λ e. ¬ IsOfDevice e → disk.new ≡ disk.old) }
    ensures fault { IfErr result (λ e. IsOfDevice e → HasRisen (D.told disk.old).faults (D.told disk.new).faults) }
    ensures turns { IsTrue (D.told disk.old).honest → (b : Rebuilt) (had : Mirrored) → StandsSure journal.old (D.told disk.old) b had.position had.kept → Rebuilds parts.now b → IsTurned had (D.told disk.old) (D.told disk.new) result }
{
    match plain_base(alloc, journal, parts) {
        Ok(base) => switch_over(disk, journal, &base),
        Err(e) => Err(e),
    }
}

// Lands what is in doubt, and switches to the base.
pub(crate) fn promote<D: Disk>(disk: &mut D, inside: &mut Inside) -> Result<(), PromoteError>
    requires standing { IsStanding (D.told disk.old).size inside.old }
    ensures goes { Goes 8 (D.told disk.old) (D.told disk.new) }
    ensures judges { JudgesPromotion (state_of inside.old) result }
    ensures unchanged { IfErr result (λ e. ¬ IsOfDevice e → inside.old.pending ≡ None → disk.new ≡ disk.old) }
    ensures fault { IfErr result (λ e. IsOfDevice e → HasRisen (D.told disk.old).faults (D.told disk.new).faults) }
    ensures promotes { IsTrue (D.told disk.old).honest → (first : Durable Tagged) (from t0 : ℕ) (taken : List Took) (doubt : Option (Effect Tagged)) → Keeps first from t0 taken doubt (D.told disk.old) (state_of inside.old)
        → PromotesAs first from t0 taken doubt (D.told disk.new) result }
{
    foundations();
    let Ok(()) = settle(disk, inside) else {
        return Err(PromoteError::DiskFault);
    };
    turn(inside.alloc, disk, &mut inside.journal, &inside.parts)
}
