//! Calls, their replies and the entries of a history.

ghost use Rattle.std.specs.Prelude.{◌≡◌};
ghost use Rattle.voice_model.specs.Step.{is_asked_of};

use super::lists::{KeyList, PeakList, RopeList, TalkList};
use super::texts::{Key, Note};
use voice_units::{JobId, Lane, Moment, RopeId, Take};

/// How an interest ends.
#[derive(Clone, Copy, Debug, PartialEq, Eq, Hash)]
pub enum Class {
    /// By Forget alone.
    Held,
    /// At the moment that its note spells, in 8 bytes.
    Until,
    /// With a census that does not list its key.
    Listed,
}

/// An interest in a rope. At most one row has a given class and key.
#[derive(Clone, Copy, Debug, PartialEq, Eq)]
pub struct Row {
    pub class: Class,
    pub key: Key,
    pub rope: RopeId,
    pub note: Note,
}

/// What a caller may ask, and the landing of a change that was in doubt.
#[derive(Drop)]
pub enum Call {
    /// A rope of these samples, which are kept as a voice file.
    Record(Take),
    /// A rope of 1 to 16 ropes, one after another.
    Concat(RopeList),
    /// A rope of `len` samples from `start` on: rope, start, len.
    Sub(RopeId, u32, u32),
    /// A rope with another in place of `len` samples from `start` on: rope, start, len, other.
    Replace(RopeId, u32, u32, RopeId),
    /// How many samples a rope has.
    Length(RopeId),
    /// Where there is talk in a rope.
    Describe(RopeId),
    /// A job of play comes last on a lane: lane, rope, start, len.
    Play(Lane, RopeId, u32, u32),
    /// The next window of a lane's first job, and how much of the last one was heard.
    Feed(Lane, Option<u32>),
    /// Every job of the lane is stopped.
    Stop(Lane),
    /// An interest: class, key, rope, note.
    Retain(Class, Key, RopeId, Note),
    /// An interest goes.
    Forget(Class, Key),
    /// The rope and the note of an interest.
    Lookup(Class, Key),
    /// The interests of class Listed go whose keys are not among at most 1,024 ones.
    Census(KeyList),
    /// The moment becomes this one where it is later.
    Advance(Moment),
    /// Expired interests go, and then at most so many ropes that nobody keeps.
    Sweep(u16),
    /// A change that was in doubt has landed. No caller asks it.
    Landed,
    /// A recording opens on a lane.
    Begin(Lane),
    /// Samples are added to a lane's recording.
    Add(Lane, Take),
    /// A rope of a lane's recording.
    End(Lane),
    /// The greatest loudness in each window of a rope.
    Levels(RopeId),
}

/// Why a call was refused.
#[derive(Clone, Copy, Debug, PartialEq, Eq)]
pub enum Why {
    /// That rope is not live.
    UnknownRope(RopeId),
    /// The interval does not lie in a rope of this length.
    BadInterval(u32),
    /// The rope would have this length, more than 2^30 samples.
    TooLong(u64),
    /// The rope would have this many pieces, more than 4,096.
    TooManyPieces(u32),
    /// The blocks that are needed, and the free ones.
    NoRoom(u32, u32),
    /// The bytes of the journal that are needed, and those that are left.
    JournalFull(u64, u64),
    /// The class and key stand, for this rope.
    KeyTaken(RopeId),
    /// No interest has that class and key.
    NoInterest,
    /// The note of class Until spells no moment.
    BadData,
    /// The lane has an open recording.
    LaneRecording,
    /// The lane has this many jobs.
    LaneBusy(u32),
    /// The lane has 8 jobs.
    QueueFull,
    /// The lane has no job.
    NoJob,
    /// The lane has no open recording.
    NoRecording,
    /// A device call failed, and the change is not done.
    DiskFault,
    /// A device call failed at or after the write that commits; the change may be done.
    InDoubt,
    /// The next rope would have a number above 2^48.
    IdsSpent,
    /// There are only this many lanes.
    UnknownLane(u16),
    /// A window is out on the lane, and the call brings none back.
    WindowOut,
}

/// What a call is answered.
#[derive(Drop)]
pub enum Reply {
    /// The new rope and its length.
    Rope(RopeId, u32),
    Number(u64),
    Talk(TalkList),
    Job(JobId),
    /// Where the window begins in the passage, and its length.
    Window(u32, u32),
    /// The job, and how many samples of it were heard.
    Ended(JobId, u32),
    Stopped(JobId, u32),
    Found(RopeId, Note),
    /// How many interests were dropped, and the ropes that were removed.
    Swept(u32, RopeList),
    Done,
    Peaks(PeakList),
    No(Why),
}

/// A call of a caller (1 to 16, and 0 for a landing) with its reply, and the number of device calls made as the reply was made.
#[derive(Drop)]
pub struct Entry {
    pub caller: u16,
    pub call: Call,
    pub reply: Reply,
    pub ack: u64,
}

impl Call {
    /// Whether a caller may ask it of the store by itself: not a Feed, which moves a lease too, and not a landing.
    pub fn is_asked(&self) -> bool
        ensures { result ≡ is_asked_of self.now }
    {
        !matches!(self, Call::Feed(..) | Call::Landed)
    }
}
