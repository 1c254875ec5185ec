//! Stamps that rise: those of all rows, and those of the rows of class Listed.

ghost use Rattle.std.specs.Prelude.{◌≡◌, ℕ, ◌<◌, ◌≤◌, ◌+◌, ◌++◌, ◌∷◌, [], true, cond};
ghost use Rattle.interest_table.specs.Inside.{among, without, is_listed, Rises, IsDelisted};

use counted_row::CountedRow;
use voice_model::{Class, Row};

/// Puts a stamp last, where there is room.
pub(crate) fn put_stamp(order: &mut CountedRow<u64>, stamp: u64)
    requires { 0 < order.old.spare }
    ensures items { order.new.items ≡ order.old.items ++ stamp ∷ [] }
    ensures spare { order.old.spare ≤ order.new.spare + 1 }
{
    let Ok(()) = order.push(stamp) else {
        return;
    };
}

/// Takes out a stamp that is there.
pub(crate) fn take_stamp(order: &mut CountedRow<u64>, stamp: u64)
    ensures items { (top : ℕ) → Rises 0 order.old.items top → among stamp order.old.items ≡ true → order.new.items ≡ without stamp order.old.items }
    ensures spare { order.old.spare ≤ order.new.spare }
{
    order.remove_at_point(|other| *other < stamp);
}

/// Whether a row is of class Listed.
fn is_listed(row: &Row) -> bool
    ensures { result ≡ is_listed row.now }
{
    matches!(row.class, Class::Listed)
}

/// A row comes under a stamp above all others, where there is room.
pub(crate) fn gain_listed(listed: &mut CountedRow<u64>, row: &Row, stamp: u64)
    requires { 0 < listed.old.spare }
    ensures items { listed.new.items ≡ cond (is_listed row.now) (listed.old.items ++ stamp ∷ []) listed.old.items }
    ensures spare { listed.old.spare ≤ listed.new.spare + 1 }
{
    if !is_listed(row) {
        return;
    }
    put_stamp(listed, stamp);
}

/// The row of a stamp goes.
pub(crate) fn lose_listed(listed: &mut CountedRow<u64>, row: &Row, stamp: u64)
    ensures items { IsDelisted row.now stamp listed.old.items listed.new.items }
    ensures spare { listed.old.spare ≤ listed.new.spare }
{
    if is_listed(row) {
        take_stamp(listed, stamp);
    }
}
