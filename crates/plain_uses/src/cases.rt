//! Worked calls: edits, plays, interests and sweeps.

use crate::pair::{Pair, Plan};
use crate::steps::{Step, assert_step};
use crate::tapes::{LETTERS, SIGNS, TALK, tapes};
use std::alloc::Global;
use std::process::Abort;
use std::test::Fail;
use voice_model::Class;
use voice_units::Graces;

// A rope that nobody keeps stays for a minute.
const MINUTE: Graces = Graces {
    common: 60,
    held: 60,
    until: 60,
    listed: 60,
};

// Sixteen blocks of 8.
const SMALL: Plan = Plan {
    block: 8,
    blocks: 16,
    area: 1 << 12,
    graces: MINUTE,
};

// The same, with room for ropes of many pieces in the journal.
const ROOMY: Plan = Plan {
    block: 8,
    blocks: 16,
    area: 1 << 18,
    graces: MINUTE,
};

// The same as the first one, where a rope stays as long as its class says.
const UNEQUAL: Plan = Plan {
    block: 8,
    blocks: 16,
    area: 1 << 12,
    graces: Graces {
        common: 30,
        held: 10,
        until: 20,
        listed: 40,
    },
};

// Blocks of 64, with room for a long recording, on which a rope stays for an hour.
const LARGE: Plan = Plan {
    block: 64,
    blocks: 200,
    area: 1 << 12,
    graces: Graces {
        common: 3600,
        held: 3600,
        until: 3600,
        listed: 3600,
    },
};

// What is done, step by step, on a new disk.
const CASES: &[(&str, Plan, &[Step])] = &[
    (
        "edits",
        SMALL,
        &[
            Step::Record(LETTERS, 0, 20),
            Step::Sub(1, 12, 8),
            Step::Sub(1, 13, 8),
            Step::Sub(1, 20, 0),
            Step::Sub(1, 0, 0),
            Step::Replace(1, 5, 10, 4),
            Step::Replace(1, 20, 0, 1),
            Step::Replace(1, 0, 21, 9),
            Step::Replace(2, 11, 0, 1),
            Step::Concat(3, 2, 1),
            Step::Concat(3, 1, 17),
            Step::Length(7),
            Step::Length(0),
            Step::Record(LETTERS, 0, 0),
            Step::Play(0, 5, 0, 10),
            Step::Feed(0),
            Step::Serve(0, 10),
        ],
    ),
    // Its pieces begin and end in the middle of blocks, so the first window has the four stretches of two of them.
    (
        "windows of parts of blocks",
        SMALL,
        &[
            Step::Record(SIGNS, 0, 64),
            Step::Sub(1, 4, 8),
            Step::Sub(1, 20, 8),
            Step::Sub(1, 36, 8),
            Step::Sub(1, 52, 4),
            Step::Concat(2, 2, 3),
            Step::Concat(2, 4, 5),
            Step::Concat(2, 6, 7),
            Step::Play(0, 8, 0, 28),
            Step::Feed(0),
            Step::Serve(0, 16),
            Step::Serve(0, 12),
        ],
    ),
    // The passage keeps its eight blocks until the job has ended, though its rope is gone and the other eight are recorded over.
    (
        "a rope that is swept while it is played",
        SMALL,
        &[
            Step::Record(SIGNS, 0, 64),
            Step::Play(0, 1, 0, 64),
            Step::Feed(0),
            Step::Advance(60),
            Step::Sweep(9),
            Step::Record(TALK, 0, 64),
            Step::Record(TALK, 0, 1),
            Step::Serve(0, 32),
            Step::Serve(0, 32),
            Step::Record(TALK, 0, 1),
        ],
    ),
    (
        "blocks that are recorded over",
        SMALL,
        &[
            Step::Record(TALK, 0, 128),
            Step::Play(0, 1, 0, 128),
            Step::Feed(0),
            Step::Serve(0, 32),
            Step::Serve(0, 32),
            Step::Serve(0, 32),
            Step::Serve(0, 32),
            Step::Advance(60),
            Step::Sweep(9),
            Step::Record(TALK, 200, 128),
            Step::Play(0, 2, 0, 128),
            Step::Feed(0),
            Step::Serve(0, 32),
            Step::Serve(0, 32),
            Step::Serve(0, 32),
            Step::Serve(0, 32),
        ],
    ),
    (
        "a full lane",
        SMALL,
        &[
            Step::Record(LETTERS, 0, 20),
            Step::Play(0, 1, 0, 20),
            Step::Play(0, 1, 0, 20),
            Step::Play(0, 1, 0, 20),
            Step::Play(0, 1, 0, 20),
            Step::Play(0, 1, 0, 20),
            Step::Play(0, 1, 0, 20),
            Step::Play(0, 1, 0, 20),
            Step::Play(0, 1, 0, 20),
            Step::Play(0, 1, 0, 21),
            Step::Play(0, 9, 0, 20),
            Step::Stop(0),
            Step::Feed(0),
            Step::Play(4, 9, 0, 20),
            Step::Stop(4),
        ],
    ),
    // A job that was stopped stays on its lane until a Feed tells of it.
    (
        "stops before and after a window is heard",
        SMALL,
        &[
            Step::Record(SIGNS, 0, 64),
            Step::Play(0, 1, 0, 64),
            Step::Play(0, 1, 32, 32),
            Step::Play(1, 1, 0, 64),
            Step::Feed(0),
            Step::Feed(1),
            Step::Stop(0),
            Step::Stop(0),
            Step::Feed(0),
            Step::Serve(0, 0),
            Step::Feed(0),
            Step::Feed(0),
            Step::Stop(1),
            Step::Serve(1, 32),
            Step::Stop(1),
            Step::Feed(1),
        ],
    ),
    // A window that is taken back stays out until it comes back in a Feed.
    (
        "a part of a window, and windows that are taken back",
        SMALL,
        &[
            Step::Feed(0),
            Step::Record(SIGNS, 0, 64),
            Step::Play(0, 1, 0, 64),
            Step::Feed(0),
            Step::Feed(0),
            Step::Feed(1),
            Step::Feed(4),
            Step::Serve(0, 10),
            Step::TakeBack(0),
            Step::Feed(0),
            Step::TakeBack(0),
            Step::Serve(0, 30),
            Step::Serve(0, 24),
        ],
    ),
    (
        "two lanes turn by turn",
        SMALL,
        &[
            Step::Record(SIGNS, 0, 64),
            Step::Play(0, 1, 0, 64),
            Step::Play(1, 1, 0, 64),
            Step::Feed(0),
            Step::Feed(1),
            Step::Serve(0, 32),
            Step::Serve(1, 32),
            Step::Serve(0, 32),
            Step::Serve(1, 32),
        ],
    ),
    (
        "room",
        SMALL,
        &[
            Step::Record(TALK, 0, 128),
            Step::Concat(16, 1, 1),
            Step::Record(TALK, 0, 1),
            Step::Record(LETTERS, 0, 0),
            Step::Sub(1, 4, 8),
            Step::Retain(Class::Held, 0, 4, None),
            Step::Advance(60),
            Step::Sweep(9),
            Step::Record(TALK, 0, 120),
            Step::Record(TALK, 0, 112),
            Step::Record(TALK, 0, 9),
        ],
    ),
    // 16 ropes of 256 pieces have as many as a rope may have.
    (
        "pieces",
        ROOMY,
        &[
            Step::Record(LETTERS, 0, 1),
            Step::Concat(16, 1, 1),
            Step::Concat(16, 2, 2),
            Step::Concat(16, 3, 3),
            Step::Concat(2, 1, 4),
            Step::Replace(4, 7, 0, 1),
            Step::Replace(4, 7, 1, 1),
            Step::Sub(4, 0, 4095),
            Step::Play(0, 6, 4085, 10),
            Step::Feed(0),
        ],
    ),
    (
        "interests",
        SMALL,
        &[
            Step::Record(LETTERS, 0, 20),
            Step::Record(LETTERS, 0, 8),
            Step::Retain(Class::Held, 0, 1, None),
            Step::Retain(Class::Held, 0, 9, None),
            Step::Retain(Class::Held, 0, 2, Some(7)),
            Step::Retain(Class::Until, 0, 2, None),
            Step::Retain(Class::Until, 0, 2, Some((1 << 40) + 1)),
            Step::Retain(Class::Until, 0, 2, Some(1 << 40)),
            Step::Lookup(Class::Until, 0),
            Step::Lookup(Class::Listed, 0),
            Step::Retain(Class::Listed, 0, 1, None),
            Step::Retain(Class::Listed, 1, 2, None),
            Step::Census(2),
            Step::Lookup(Class::Listed, 0),
            Step::Census(2),
            Step::Lookup(Class::Listed, 1),
            Step::Forget(Class::Held, 0),
            Step::Forget(Class::Held, 0),
            Step::Lookup(Class::Held, 0),
        ],
    ),
    // Ropes 1 to 3 lose their interests at the moments 0, 5 and 0, and rope 4 never has one.
    (
        "waits",
        UNEQUAL,
        &[
            Step::Record(LETTERS, 0, 8),
            Step::Concat(2, 1, 1),
            Step::Concat(2, 1, 2),
            Step::Concat(2, 2, 1),
            Step::Retain(Class::Held, 0, 1, None),
            Step::Retain(Class::Until, 0, 2, Some(5)),
            Step::Retain(Class::Listed, 0, 3, None),
            Step::Forget(Class::Held, 0),
            Step::Census(1),
            Step::Census(0),
            Step::Advance(4),
            Step::Sweep(9),
            Step::Advance(5),
            Step::Sweep(0),
            Step::Advance(10),
            Step::Sweep(9),
            Step::Advance(40),
            Step::Advance(3),
            Step::Sweep(2),
            Step::Sweep(9),
        ],
    ),
    // The silence is cut out of a message, and a note is put there; then the message is let go.
    (
        "a day of mail",
        LARGE,
        &[
            Step::Record(TALK, 0, 9000),
            Step::Describe(1),
            Step::Sub(1, 0, 0),
            Step::Replace(1, 480, 4160, 2),
            Step::Describe(3),
            Step::Record(SIGNS, 0, 64),
            Step::Replace(3, 480, 0, 4),
            Step::Levels(5),
            Step::Retain(Class::Held, 1, 5, None),
            Step::Retain(Class::Until, 1, 4, Some(7200)),
            Step::Advance(3600),
            Step::Sweep(100),
            Step::Describe(5),
            Step::Record(TALK, 0, 5000),
            Step::Forget(Class::Held, 1),
            Step::Advance(7200),
            Step::Sweep(100),
            Step::Length(5),
            Step::Describe(4),
            Step::Levels(6),
        ],
    ),
];

// Asserts that the steps of a case come to the same.
fn assert_steps(
    rt: &impl Abort,
    alloc: Global,
    pair: &mut Pair,
    name: &str,
    steps: &[Step],
) -> Result<(), Fail> {
    for (number, step) in steps.iter().enumerate() {
        let _answered = assert_step(rt, alloc, pair, (name, number), *step)?;
    }
    Ok(())
}

// Asserts it over a new disk.
fn assert_case(
    rt: &impl Abort,
    alloc: Global,
    (name, plan, steps): (&str, Plan, &[Step]),
) -> Result<(), Fail> {
    let mut pair = Pair::open(alloc, plan, tapes(alloc)?)?;
    let told = assert_steps(rt, alloc, &mut pair, name, steps);
    pair.close();
    told
}

#[test]
fn worked_calls_are_answered_alike(rt: HostRuntime) -> Result<(), Fail> {
    for case in CASES {
        assert_case(&rt, rt.alloc(), *case)?;
    }
    Ok(())
}
