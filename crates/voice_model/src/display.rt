//! What entries print. The definition of the text stands in `specs/Text`.

ghost use Rattle.std.specs.Prelude.{◌≡◌, ◌<◌, Some, map};
ghost use Rattle.std.specs.Fmt.{decimal};
ghost use Rattle.voice_model.specs.Text.{verb_of, why_text, hex_digit, note_text, spaced, span_text, reply_text};

use super::calls::{Call, Reply, Why};
use super::lists::{PeakList, RopeList, TalkList};
use super::texts::Note;
use std::fmt;

impl fmt::Display for Call {
    ghost output = { λ call. Some (verb_of call) };

    fn fmt<W: fmt::Write>(&self, f: &mut fmt::Formatter<W>) -> fmt::Result {
        match self {
            Call::Record(_) => write!(f, "record"),
            Call::Concat(_) => write!(f, "concat"),
            Call::Sub(_, _, _) => write!(f, "sub"),
            Call::Replace(_, _, _, _) => write!(f, "replace"),
            Call::Length(_) => write!(f, "length"),
            Call::Describe(_) => write!(f, "describe"),
            Call::Play(_, _, _, _) => write!(f, "play"),
            Call::Feed(_, _) => write!(f, "feed"),
            Call::Stop(_) => write!(f, "stop"),
            Call::Retain(_, _, _, _) => write!(f, "retain"),
            Call::Forget(_, _) => write!(f, "forget"),
            Call::Lookup(_, _) => write!(f, "lookup"),
            Call::Census(_) => write!(f, "census"),
            Call::Advance(_) => write!(f, "advance"),
            Call::Sweep(_) => write!(f, "sweep"),
            Call::Landed => write!(f, "landed"),
            Call::Begin(_) => write!(f, "begin"),
            Call::Add(_, _) => write!(f, "add"),
            Call::End(_) => write!(f, "end"),
            Call::Levels(_) => write!(f, "levels"),
        }
    }
}

impl fmt::Display for Why {
    ghost output = { λ why. Some (why_text why) };

    fn fmt<W: fmt::Write>(&self, f: &mut fmt::Formatter<W>) -> fmt::Result {
        match self {
            Why::UnknownRope(id) => {
                let id = id.0;
                write!(f, "unknown-rope {id}")
            }
            Why::BadInterval(n) => write!(f, "bad-interval {n}"),
            Why::TooLong(n) => write!(f, "too-long {n}"),
            Why::TooManyPieces(n) => write!(f, "too-many-pieces {n}"),
            Why::NoRoom(need, free) => write!(f, "no-room {need} {free}"),
            Why::JournalFull(need, left) => write!(f, "journal-full {need} {left}"),
            Why::KeyTaken(id) => {
                let id = id.0;
                write!(f, "key-taken {id}")
            }
            Why::NoInterest => write!(f, "no-interest"),
            Why::BadData => write!(f, "bad-data"),
            Why::LaneRecording => write!(f, "lane-recording"),
            Why::LaneBusy(n) => write!(f, "lane-busy {n}"),
            Why::QueueFull => write!(f, "queue-full"),
            Why::NoJob => write!(f, "no-job"),
            Why::NoRecording => write!(f, "no-recording"),
            Why::DiskFault => write!(f, "disk-fault"),
            Why::InDoubt => write!(f, "in-doubt"),
            Why::IdsSpent => write!(f, "ids-spent"),
            Why::UnknownLane(n) => write!(f, "unknown-lane {n}"),
            Why::WindowOut => write!(f, "window-out"),
        }
    }
}

// The hex digit of a number below 16.
fn hex_digit(n: u8) -> char
    requires { n < 16 }
    ensures { result ≡ hex_digit n }
{
    char::from(if n < 10 { 48 + n } else { 87 + n })
}

// A note, as pairs of hex digits, or a dash.
impl fmt::Display for Note {
    ghost output = { λ note. Some (note_text note) };

    fn fmt<W: fmt::Write>(&self, f: &mut fmt::Formatter<W>) -> fmt::Result {
        let bytes = self.bytes();
        if bytes.is_empty() {
            return write!(f, "-");
        }
        for b in bytes {
            let high = hex_digit(*b / 16);
            let low = hex_digit(*b % 16);
            write!(f, "{high}{low}")?;
        }
        Ok(())
    }
}

// Intervals, each with a space before it.
impl fmt::Display for TalkList {
    ghost output = { λ spans. Some (spaced (map span_text spans)) };

    fn fmt<W: fmt::Write>(&self, f: &mut fmt::Formatter<W>) -> fmt::Result {
        for span in self.items() {
            let start = span.start;
            let len = span.len;
            write!(f, " {start}+{len}")?;
        }
        Ok(())
    }
}

// Numbers, each with a space before it.
impl fmt::Display for RopeList {
    ghost output = { λ ids. Some (spaced (map decimal ids)) };

    fn fmt<W: fmt::Write>(&self, f: &mut fmt::Formatter<W>) -> fmt::Result {
        for id in self.items() {
            let id = id.number();
            write!(f, " {id}")?;
        }
        Ok(())
    }
}

// Numbers, each with a space before it.
impl fmt::Display for PeakList {
    ghost output = { λ peaks. Some (spaced (map decimal peaks)) };

    fn fmt<W: fmt::Write>(&self, f: &mut fmt::Formatter<W>) -> fmt::Result {
        for peak in self.items() {
            write!(f, " {peak}")?;
        }
        Ok(())
    }
}

impl fmt::Display for Reply {
    ghost output = { λ reply. Some (reply_text reply) };

    fn fmt<W: fmt::Write>(&self, f: &mut fmt::Formatter<W>) -> fmt::Result {
        match self {
            Reply::Rope(id, n) => {
                let id = id.number();
                write!(f, "rope {id} length {n}")
            }
            Reply::Number(n) => write!(f, "number {n}"),
            Reply::Talk(spans) => {
                let count = spans.items().len();
                write!(f, "talk {count}{spans}")
            }
            Reply::Job(job) => {
                let job = job.0;
                write!(f, "job {job}")
            }
            Reply::Window(at, n) => write!(f, "window {at} {n}"),
            Reply::Ended(job, n) => {
                let job = job.0;
                write!(f, "ended {job} {n}")
            }
            Reply::Stopped(job, n) => {
                let job = job.0;
                write!(f, "stopped {job} {n}")
            }
            Reply::Found(id, note) => {
                let id = id.number();
                write!(f, "found {id} {note}")
            }
            Reply::Swept(rows, ids) => {
                let count = ids.items().len();
                write!(f, "swept {rows} rows {count} ropes{ids}")
            }
            Reply::Done => write!(f, "done"),
            Reply::Peaks(peaks) => {
                let count = peaks.items().len();
                write!(f, "peaks {count}{peaks}")
            }
            Reply::No(why) => write!(f, "no {why}"),
        }
    }
}
