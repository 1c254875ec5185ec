//! Replies twice.

ghost use Rattle.std.specs.Prelude.{◌≡◌, IsOk, IfOk};

use std::alloc::Global;
use voice_model::{PeakList, Reply, RopeList, TalkList};
use voice_units::NoMemory;

/// A reply twice: one is entered, and one is answered. Lists alone take memory.
pub(crate) fn twice(alloc: Global, reply: Reply) -> Result<(Reply, Reply), NoMemory>
    ensures first { IfOk result (λ both. both.0 ≡ reply) }
    ensures second { IfOk result (λ both. both.1 ≡ reply) }
    ensures spare { reply ≡ Reply.Done → IsOk result }
{
    let again = match &reply {
        Reply::Rope(rope, len) => Reply::Rope(*rope, *len),
        Reply::Number(n) => Reply::Number(*n),
        Reply::Talk(spans) => Reply::Talk(TalkList::of(Vec::from_slice(alloc, spans.items())?)),
        Reply::Job(job) => Reply::Job(*job),
        Reply::Window(from, len) => Reply::Window(*from, *len),
        Reply::Ended(job, heard) => Reply::Ended(*job, *heard),
        Reply::Stopped(job, heard) => Reply::Stopped(*job, *heard),
        Reply::Found(rope, note) => Reply::Found(*rope, *note),
        Reply::Swept(rows, ropes) => {
            Reply::Swept(*rows, RopeList::of(Vec::from_slice(alloc, ropes.items())?))
        }
        Reply::Done => Reply::Done,
        Reply::Peaks(peaks) => Reply::Peaks(PeakList::of(Vec::from_slice(alloc, peaks.items())?)),
        Reply::No(why) => Reply::No(*why),
    };
    Ok((again, reply))
}
