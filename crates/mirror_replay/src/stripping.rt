//! Payloads without their numbers, as far as these are right.

ghost use Rattle.std.specs.Prelude.{◌<◌, ◌-◌, ◌^◌, length, IfOk};
ghost use Rattle.mirror_replay.specs.Stripped.{IsStripped};

use crate::courses::Course;
use std::alloc::Global;
use voice_journal::RecordList;
use voice_units::NoMemory;

/// The payloads before the first one whose number may not come, without their numbers; and the course behind them, if these are all.
#[derive(Drop)]
pub(crate) struct Stripped {
    pub(crate) list: RecordList,
    pub(crate) course: Option<Course>,
}

/// Takes the numbers of payloads off. It looks at no more of a change than its kind.
pub(crate) fn strip(alloc: Global, payloads: &RecordList) -> Result<Stripped, NoMemory>
    requires { length payloads.now < 2 ^ 32 - 1 }
    ensures { IfOk result (λ stripped. IsStripped payloads.now stripped) }
{
    let mut list = RecordList::new(alloc);
    let mut course = Course::Begun;
    let mut index = 0;
    while let Some(payload) = payloads.get(index) {
        let Some(next) = course.after(payload) else {
            return Ok(Stripped { list, course: None });
        };
        list.push(u64::from(index), &payload[8..])?;
        course = next;
        index += 1;
    }
    Ok(Stripped {
        list,
        course: Some(course),
    })
}
