//! How a run ended.

ghost use Rattle.std.specs.Prelude.{◌≡◌};
ghost use Rattle.voice_main.specs.Statuses.{code_of, reason_of};

use au_files::AuError;
use script_lang::Cause;
use thiserror::Error;
use voice_units::Name;

/// How a run ended. It is shown as the line that the program prints on standard error.
#[derive(Clone, Copy, Debug, PartialEq, Eq, Error)]
pub enum Status {
    /// The script was read to its end, and every line was done.
    #[error("voice: done")]
    Done,
    /// The words are in no form that the program knows.
    #[error("voice: usage: voice format|run|make")]
    Usage,
    /// A disk of that size can't have the shape.
    #[error("voice: the shape does not fit the disk")]
    BadShape,
    /// That line, counted from 1, is the script's first bad one, for that cause.
    #[error("voice: line {0} of the script is refused: {reason}", reason = reason(.1))]
    BadScript(u32, Cause),
    /// The script or a sample file is absent: the first one.
    #[error("voice: no file {0}")]
    NoFile(Name),
    #[error("voice: the folder failed")]
    ShelfFault,
    #[error("voice: the output failed")]
    SinkFault,
    /// The disk's bytes have no reading; the first damage is at that byte.
    #[error("voice: the disk is damaged at byte {0}")]
    BadDisk(u64),
    /// The disk failed before the first call, or as it was formatted.
    #[error("voice: the disk failed")]
    DiskFault,
    #[error("voice: no memory")]
    NoMemory,
    /// That file is no AU file of the profile, for that cause.
    #[error("voice: {0} is refused, cause {cause}", cause = .1.number())]
    BadAu(Name, AuError),
    /// That line, counted from 1, is the index's first bad one.
    #[error("voice: line {0} of the index is refused")]
    BadIndex(u32),
    /// At that byte of that note `[[voice:` stands, and no anchor does.
    #[error("voice: {0} has a bad anchor at byte {1}")]
    BadNote(Name, u64),
    /// Notes name so many keys.
    #[error("voice: {0} keys are too many")]
    TooManyKeys(u64),
    /// At that byte of the file its first packet begins that is not good.
    #[error("voice: the packets are damaged at byte {0}")]
    BadPackets(u64),
    /// What a mirror has takes the first number of bytes as records, and an area of its journal has room for the second.
    #[error("voice: the journal is full")]
    JournalFull(u128, u64),
    /// The disk failed where a promotion may have counted: it is the mirror's, or a voice disk that has the same.
    #[error("voice: the change is in doubt")]
    InDoubt,
    /// A mirror's journal has no further epoch.
    #[error("voice: no further epoch")]
    EpochSpent,
}

// The cause of a bad line of a script, as the program tells it.
fn reason(cause: &Cause) -> &'static str
    ensures { result.now ≡ reason_of cause.now }
{
    match cause {
        Cause::Lines => "more than 65535 lines",
        Cause::Bytes => "a byte other than printed ASCII, space and tab",
        Cause::Caller => "no caller from 1 to 16 at its beginning",
        Cause::Verb => "no known verb where one belongs",
        Cause::Arguments => "wrong words behind the verb",
        Cause::Bind => "what is bound is no variable, or the verb binds nothing",
        Cause::LaneTaken => "another caller serves that lane",
    }
}

impl Status {
    /// The exit status of the program.
    pub fn code(&self) -> u8
        ensures { result ≡ code_of self.now }
    {
        match self {
            Status::Done => 0,
            Status::Usage | Status::BadShape => 2,
            Status::BadScript(_, _) => 3,
            Status::NoFile(_) => 4,
            Status::ShelfFault => 5,
            Status::SinkFault => 6,
            Status::BadDisk(_) => 7,
            Status::DiskFault => 8,
            Status::NoMemory => 9,
            Status::BadAu(_, _) => 10,
            Status::BadIndex(_) => 11,
            Status::BadNote(_, _) => 12,
            Status::TooManyKeys(_) => 13,
            Status::BadPackets(_) => 14,
            Status::JournalFull(_, _) => 15,
            Status::InDoubt => 16,
            Status::EpochSpent => 17,
        }
    }
}
