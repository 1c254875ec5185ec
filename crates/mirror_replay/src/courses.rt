//! The numbers of records, one after another.

ghost use Rattle.std.specs.Prelude.{◌≡◌, ◌+◌, ◌==◌, Bool};
ghost use Rattle.mirror_replay.specs.Numbered.{with_number, position_of};
ghost use Rattle.mirror_replay.specs.Stripped.{course_after, is_first_kind, is_later_kind};

use disk_areas::read_8;

/// What the records so far say of the next number.
#[derive(Clone, Copy)]
pub enum Course {
    /// There is no record so far.
    Begun,
    /// The first one begins a base of form 2, and all so far have this number.
    Base(u64),
    /// The last one has this number, and no later one may have it again.
    Later(u64),
}

// Whether a number is the last one plus 1.
fn is_next(last: u64, number: u64) -> bool
    ensures { result ≡ (number == last + 1) }
{
    number > last && number - last == 1
}

// Whether a change of this kind begins a base of form 2.
fn is_first_kind(kind: u8) -> bool
    ensures { result ≡ is_first_kind kind }
{
    kind == 12
}

// Whether a change of this kind may stand in a base of form 2 behind its first record.
fn is_later_kind(kind: u8) -> bool
    ensures { result ≡ is_later_kind kind }
{
    kind == 3 || kind == 13 || kind == 14
}

impl Course {
    // The course behind the first record, by its number and whether it begins a base.
    fn first(number: u64, begins: bool) -> Option<Course>
        ensures { (continues : Bool) → result ≡ with_number Course.Begun number begins continues }
    {
        if begins {
            if number > 1 << 48 {
                return None;
            }
            return Some(Course::Base(number));
        }
        if number != 1 {
            return None;
        }
        Some(Course::Later(number))
    }

    // The course behind one more record, by its number and what its change is to a base; none where the number may not come.
    fn with_number(self, number: u64, begins: bool, continues: bool) -> Option<Course>
        ensures { result ≡ with_number self number begins continues }
    {
        match self {
            Course::Begun => Course::first(number, begins),
            Course::Base(last) => {
                if is_next(last, number) {
                    return Some(Course::Later(number));
                }
                if continues && number == last {
                    return Some(self);
                }
                None
            }
            Course::Later(last) => {
                if is_next(last, number) {
                    return Some(Course::Later(number));
                }
                None
            }
        }
    }

    /// The course behind a payload; none where its number may not come, or where nothing stands behind it.
    pub(crate) fn after(self, payload: &[u8]) -> Option<Course>
        ensures { result ≡ course_after self payload.now }
    {
        if payload.len() < 9 {
            return None;
        }
        let number = read_8(payload, 0);
        let change = &payload[8..];
        let kind = change[0];
        self.with_number(number, is_first_kind(kind), is_later_kind(kind))
    }

    /// The number of the last record, 0 where there is none.
    pub(crate) fn position(self) -> u64
        ensures { result ≡ position_of self }
    {
        match self {
            Course::Begun => 0,
            Course::Base(number) | Course::Later(number) => number,
        }
    }
}
