//! Copies of rows.

ghost use Rattle.std.specs.Prelude.{◌≡◌, ◌+◌, ◌≤◌, ◌++◌, IfOk, OnOk, length};

use counted_row::CountedRow;
use std::alloc::Global;
use voice_units::NoMemory;

/// What may be copied where there is memory.
pub(crate) trait Duplicate: Sized + Drop {
    /// An equal one.
    fn duplicate(&self) -> Result<Self, NoMemory>
        ensures { IfOk result (λ copy. copy ≡ self.now) };
}

/// Puts copies of values behind those of a row.
fn push_copies<T: Duplicate>(row: &mut CountedRow<T>, values: &[T]) -> Result<(), NoMemory>
    ensures items { OnOk result (row.new.items ≡ row.old.items ++ values.now) }
    ensures room { OnOk result (length row.old.items + row.old.spare ≤ length row.new.items + row.new.spare) }
{
    for value in values {
        row.push(value.duplicate()?)?;
    }
    Ok(())
}

/// Equal values in the same order, with room for n in all.
pub(crate) fn copied<T: Duplicate>(
    alloc: Global,
    row: &CountedRow<T>,
    n: usize,
) -> Result<CountedRow<T>, NoMemory>
    ensures items { IfOk result (λ copy. copy.items ≡ row.now.items) }
    ensures room { IfOk result (λ copy. n ≤ length copy.items + copy.spare) }
{
    let _count = row.len();
    let mut copy = CountedRow::new(alloc);
    copy.reserve(n)?;
    let mut place = 0;
    while let Some(run) = row.run(place) {
        push_copies(&mut copy, run)?;
        place += run.len();
    }
    Ok(copy)
}
