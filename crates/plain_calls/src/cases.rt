//! Calls and their replies, worked out by hand from the definitions, and those of two days of docs/SCRIPT.md.

use voice_model::Class;
use voice_units::Graces;

/// A call that a row asks for: ropes and lanes by their numbers, keys and notes by their bytes. A recording is of the first samples of the tape.
#[derive(Clone, Copy)]
pub enum Ask {
    Record(u32),
    Concat(&'static [u16]),
    Sub(u16, u32, u32),
    Replace(u16, u32, u32, u16),
    Length(u16),
    Describe(u16),
    Levels(u16),
    Play(u16, u16, u32, u32),
    Feed(u16, Option<u32>),
    Stop(u16),
    Retain(Class, &'static [u8], u16, &'static [u8]),
    Forget(Class, &'static [u8]),
    Lookup(Class, &'static [u8]),
    Census(&'static [u8]),
    Advance(u32),
    Sweep(u16),
    Begin(u16),
    /// Adds the first samples of the tape.
    Add(u16, u32),
    End(u16),
    Landed,
}

/// Calls on a new disk of blocks of 8 samples and three lanes, with their replies, a dash where a call can't be done; the tape, as runs of equal samples; and how many blocks are free behind them.
#[derive(Clone, Copy)]
pub struct Case {
    pub blocks: u32,
    pub graces: Graces,
    pub tape: &'static [(u8, usize)],
    pub rows: &'static [(Ask, &'static str)],
    pub free: u32,
}

/// A day for each class.
pub const DAY: Graces = Graces {
    common: 86400,
    held: 86400,
    until: 86400,
    listed: 86400,
};

const UNEQUAL: Graces = Graces {
    common: 30,
    held: 10,
    until: 20,
    listed: 40,
};

const EDITS: Case = Case {
    blocks: 24,
    graces: DAY,
    tape: &[(0x41, 20)],
    rows: &[
        (Ask::Record(20), "rope 1 length 20"),
        (Ask::Sub(1, 0, 10), "rope 2 length 10"),
        (Ask::Concat(&[2, 1]), "rope 3 length 30"),
        (Ask::Replace(1, 5, 10, 2), "rope 4 length 20"),
        (Ask::Replace(1, 20, 0, 2), "rope 5 length 30"),
        (Ask::Length(5), "number 30"),
        (Ask::Length(9), "no unknown-rope 9"),
        (Ask::Sub(9, 0, 99), "no unknown-rope 9"),
        (Ask::Sub(1, 15, 6), "no bad-interval 20"),
        (Ask::Replace(1, 0, 21, 9), "no unknown-rope 9"),
        (Ask::Replace(2, 11, 0, 1), "no bad-interval 10"),
        (Ask::Concat(&[1, 7, 8]), "no unknown-rope 7"),
        (Ask::Record(0), "rope 6 length 0"),
        (Ask::Sub(1, 20, 0), "rope 7 length 0"),
        (Ask::Record(21), "-"),
        (Ask::Landed, "-"),
    ],
    free: 21,
};

// A recording takes its blocks as it grows, and keeps them as a rope.
const PARTS: Case = Case {
    blocks: 9,
    graces: DAY,
    tape: &[(0x41, 20)],
    rows: &[
        (Ask::Begin(3), "no unknown-lane 3"),
        (Ask::Add(3, 1), "no unknown-lane 3"),
        (Ask::End(3), "no unknown-lane 3"),
        (Ask::Add(0, 1), "no no-recording"),
        (Ask::End(0), "no no-recording"),
        (Ask::Record(8), "rope 1 length 8"),
        (Ask::Play(1, 1, 0, 8), "job 1"),
        (Ask::Begin(1), "no lane-busy 1"),
        (Ask::Begin(0), "done"),
        (Ask::Begin(0), "no lane-recording"),
        (Ask::Play(0, 9, 0, 1), "no unknown-rope 9"),
        (Ask::Play(0, 1, 0, 9), "no lane-recording"),
        (Ask::Add(0, 20), "number 20"),
        (Ask::Add(0, 0), "number 20"),
        (Ask::Add(0, 20), "number 40"),
        (Ask::Begin(2), "done"),
        (Ask::Add(2, 20), "number 20"),
        (Ask::Add(2, 4), "number 24"),
        (Ask::Add(2, 1), "no no-room 1 0"),
        (Ask::Record(1), "no no-room 1 0"),
        (Ask::End(0), "rope 2 length 40"),
        (Ask::End(0), "no no-recording"),
        (Ask::Replace(2, 0, 40, 1), "rope 3 length 8"),
        (Ask::Begin(0), "done"),
        (Ask::End(0), "rope 4 length 0"),
        (Ask::End(2), "rope 5 length 24"),
    ],
    free: 0,
};

// 16 ropes of 256 pieces have as many as a rope may have.
const PIECES: Case = Case {
    blocks: 24,
    graces: DAY,
    tape: &[(0x41, 1)],
    rows: &[
        (Ask::Record(1), "rope 1 length 1"),
        (Ask::Concat(&[1; 16]), "rope 2 length 16"),
        (Ask::Concat(&[2; 16]), "rope 3 length 256"),
        (Ask::Concat(&[3; 16]), "rope 4 length 4096"),
        (Ask::Concat(&[1, 4]), "no too-many-pieces 4097"),
        (Ask::Replace(4, 7, 0, 1), "no too-many-pieces 4097"),
        (Ask::Replace(4, 7, 1, 1), "rope 5 length 4096"),
    ],
    free: 23,
};

// A passage keeps its blocks, whatever is removed, until its job is stopped.
const ROOM: Case = Case {
    blocks: 4,
    graces: UNEQUAL,
    tape: &[(0x41, 40)],
    rows: &[
        (Ask::Record(20), "rope 1 length 20"),
        (Ask::Record(16), "no no-room 2 1"),
        (Ask::Record(8), "rope 2 length 8"),
        (Ask::Record(1), "no no-room 1 0"),
        (Ask::Play(0, 1, 4, 8), "job 1"),
        (Ask::Advance(30), "done"),
        (Ask::Sweep(9), "swept 0 rows 2 ropes 1 2"),
        (Ask::Record(17), "no no-room 3 2"),
        (Ask::Record(16), "rope 3 length 16"),
        (Ask::Stop(0), "number 1"),
        (Ask::Record(17), "no no-room 3 2"),
        (Ask::Record(9), "rope 4 length 9"),
    ],
    free: 0,
};

// The day of mail of docs/SCRIPT.md.
const MAIL: Case = Case {
    blocks: 24,
    graces: DAY,
    tape: &[(0x41, 20)],
    rows: &[
        (Ask::Record(20), "rope 1 length 20"),
        (Ask::Retain(Class::Held, b"mail.1", 1, b"hi"), "done"),
        (Ask::Lookup(Class::Held, b"mail.1"), "found 1 6869"),
        (Ask::Sub(1, 0, 10), "rope 2 length 10"),
        (Ask::Concat(&[2, 1]), "rope 3 length 30"),
        (
            Ask::Retain(Class::Until, b"note.1", 3, &[0, 0, 0, 0, 0, 1, 0x51, 0x80]),
            "done",
        ),
        (Ask::Forget(Class::Held, b"mail.1"), "done"),
        (Ask::Advance(86400), "done"),
        (Ask::Sweep(100), "swept 1 rows 2 ropes 1 2"),
        (Ask::Advance(172800), "done"),
        (Ask::Sweep(100), "swept 0 rows 1 ropes 3"),
    ],
    free: 24,
};

// Moment 2^40 + 1 is above the last one.
const INTERESTS: Case = Case {
    blocks: 24,
    graces: UNEQUAL,
    tape: &[(0x41, 8)],
    rows: &[
        (Ask::Record(8), "rope 1 length 8"),
        (Ask::Record(8), "rope 2 length 8"),
        (Ask::Retain(Class::Held, b"k", 1, b""), "done"),
        (Ask::Retain(Class::Held, b"k", 9, b""), "no unknown-rope 9"),
        (Ask::Retain(Class::Held, b"k", 2, b""), "no key-taken 1"),
        (
            Ask::Retain(Class::Until, b"k", 9, b"x"),
            "no unknown-rope 9",
        ),
        (Ask::Retain(Class::Until, b"k", 2, b"x"), "no bad-data"),
        (
            Ask::Retain(Class::Until, b"k", 2, &[0, 0, 1, 0, 0, 0, 0, 1]),
            "no bad-data",
        ),
        (Ask::Forget(Class::Until, b"k"), "no no-interest"),
        (Ask::Lookup(Class::Listed, b"k"), "no no-interest"),
    ],
    free: 22,
};

// Ropes 1 to 3 lose their interests at the moments 0, 5 and 0, and rope 4 never has one.
const WAITS: Case = Case {
    blocks: 24,
    graces: UNEQUAL,
    tape: &[(0x41, 8)],
    rows: &[
        (Ask::Record(8), "rope 1 length 8"),
        (Ask::Record(8), "rope 2 length 8"),
        (Ask::Record(8), "rope 3 length 8"),
        (Ask::Record(8), "rope 4 length 8"),
        (Ask::Retain(Class::Held, b"k", 1, b""), "done"),
        (
            Ask::Retain(Class::Until, b"k", 2, &[0, 0, 0, 0, 0, 0, 0, 5]),
            "done",
        ),
        (Ask::Retain(Class::Listed, b"k", 3, b""), "done"),
        (Ask::Forget(Class::Held, b"k"), "done"),
        (Ask::Census(b"k"), "number 0"),
        (Ask::Census(b"l"), "number 1"),
        (Ask::Advance(5), "done"),
        (Ask::Sweep(9), "swept 1 rows 0 ropes"),
        (Ask::Advance(9), "done"),
        (Ask::Sweep(9), "swept 0 rows 0 ropes"),
        (Ask::Advance(10), "done"),
        (Ask::Sweep(9), "swept 0 rows 1 ropes 1"),
        (Ask::Advance(24), "done"),
        (Ask::Sweep(9), "swept 0 rows 0 ropes"),
        (Ask::Advance(40), "done"),
        (Ask::Advance(3), "done"),
        (Ask::Sweep(0), "swept 0 rows 0 ropes"),
        (Ask::Sweep(2), "swept 0 rows 2 ropes 2 3"),
        (Ask::Sweep(2), "swept 0 rows 1 ropes 4"),
    ],
    free: 24,
};

// The passage has 36 samples from place 4 on: a part of a block, and four blocks.
const WINDOWS: Case = Case {
    blocks: 24,
    graces: DAY,
    tape: &[(0x41, 40)],
    rows: &[
        (Ask::Record(40), "rope 1 length 40"),
        (Ask::Play(3, 9, 0, 99), "no unknown-lane 3"),
        (Ask::Play(0, 9, 0, 99), "no unknown-rope 9"),
        (Ask::Play(0, 1, 5, 36), "no bad-interval 40"),
        (Ask::Feed(3, None), "no unknown-lane 3"),
        (Ask::Feed(0, None), "no no-job"),
        (Ask::Play(0, 1, 4, 36), "job 1"),
        (Ask::Play(0, 1, 40, 0), "job 2"),
        (Ask::Feed(0, None), "window 0 28"),
        (Ask::Feed(0, None), "no window-out"),
        (Ask::Feed(0, Some(28)), "window 28 8"),
        (Ask::Feed(0, Some(3)), "window 31 5"),
        (Ask::Feed(0, Some(5)), "ended 1 36"),
        (Ask::Feed(0, None), "ended 2 0"),
        (Ask::Feed(0, None), "no no-job"),
    ],
    free: 19,
};

// A window that is out when its lane is stopped comes back, and so much of its job was heard.
const STOPS: Case = Case {
    blocks: 24,
    graces: DAY,
    tape: &[(0x41, 8)],
    rows: &[
        (Ask::Record(8), "rope 1 length 8"),
        (Ask::Play(2, 1, 0, 8), "job 1"),
        (Ask::Play(2, 1, 0, 8), "job 2"),
        (Ask::Play(2, 1, 0, 8), "job 3"),
        (Ask::Play(2, 1, 0, 8), "job 4"),
        (Ask::Play(2, 1, 0, 8), "job 5"),
        (Ask::Play(2, 1, 0, 8), "job 6"),
        (Ask::Play(2, 1, 0, 8), "job 7"),
        (Ask::Play(2, 1, 0, 8), "job 8"),
        (Ask::Play(2, 9, 0, 9), "no unknown-rope 9"),
        (Ask::Play(2, 1, 0, 9), "no queue-full"),
        (Ask::Feed(2, None), "window 0 8"),
        (Ask::Stop(2), "number 8"),
        (Ask::Stop(2), "number 0"),
        (Ask::Stop(3), "no unknown-lane 3"),
        (Ask::Feed(2, None), "no window-out"),
        (Ask::Feed(2, Some(2)), "stopped 1 2"),
        (Ask::Feed(2, None), "stopped 2 0"),
        (Ask::Play(2, 1, 0, 8), "job 9"),
        (Ask::Stop(2), "number 1"),
    ],
    free: 23,
};

// The dictation of docs/SCRIPT.md, and more. The byte 0x41 has the loudness 62, 0xff has 0, 121 has 6 and 120 has 7.
const TALK: Case = Case {
    blocks: 4096,
    graces: DAY,
    tape: &[
        (0x41, 4000),
        (0xff, 4000),
        (0x41, 4000),
        (121, 4000),
        (120, 160),
    ],
    rows: &[
        (Ask::Record(12000), "rope 1 length 12000"),
        (Ask::Describe(1), "talk 2 0+4000 8000+4000"),
        (Ask::Replace(1, 4000, 160, 1), "rope 2 length 23840"),
        (Ask::Describe(2), "talk 2 0+8000 12000+11840"),
        (Ask::Sub(1, 3840, 4160), "rope 3 length 4160"),
        (Ask::Describe(3), "talk 1 0+160"),
        (Ask::Record(16160), "rope 4 length 16160"),
        (Ask::Describe(4), "talk 3 0+4000 8000+4000 16000+160"),
        (Ask::Sub(4, 11920, 161), "rope 5 length 161"),
        (Ask::Levels(5), "peaks 2 62 6"),
        (Ask::Levels(9), "no unknown-rope 9"),
        (Ask::Describe(9), "no unknown-rope 9"),
        (Ask::Sub(1, 0, 0), "rope 6 length 0"),
        (Ask::Describe(6), "talk 0"),
        (Ask::Levels(6), "peaks 0"),
    ],
    free: 576,
};

/// All cases.
pub const CASES: &[Case] = &[
    EDITS, PARTS, PIECES, ROOM, MAIL, INTERESTS, WAITS, WINDOWS, STOPS, TALK,
];
