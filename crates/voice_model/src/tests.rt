//! Texts of replies and refusals, and each value that calls carry made once.

use crate::{
    AddressList, Call, Class, Entry, Key, KeyList, Note, Pair, PairList, PeakList, PieceList,
    Reply, RopeList, Row, Span, TalkList, Tapes, Why,
};
use std::test::Fail;
use voice_units::{JobId, Lane, Moment, Piece, RopeId, Take};

const A: RopeId = RopeId(1);

const B: RopeId = RopeId(281474976710656);

const J: JobId = JobId(18446744073709551615);

// The refusals by their number.
#[test]
fn refusals_print(rt: HostRuntime) -> Result<(), Fail> {
    let rows = [
        (Why::UnknownRope(B), "unknown-rope 281474976710656"),
        (Why::BadInterval(20), "bad-interval 20"),
        (Why::TooLong(1073741825), "too-long 1073741825"),
        (Why::TooManyPieces(4097), "too-many-pieces 4097"),
        (Why::NoRoom(1, 0), "no-room 1 0"),
        (Why::JournalFull(533, 495), "journal-full 533 495"),
        (Why::KeyTaken(A), "key-taken 1"),
        (Why::NoInterest, "no-interest"),
        (Why::BadData, "bad-data"),
        (Why::LaneRecording, "lane-recording"),
        (Why::LaneBusy(8), "lane-busy 8"),
        (Why::QueueFull, "queue-full"),
        (Why::NoJob, "no-job"),
        (Why::NoRecording, "no-recording"),
        (Why::DiskFault, "disk-fault"),
        (Why::InDoubt, "in-doubt"),
        (Why::IdsSpent, "ids-spent"),
        (Why::UnknownLane(4), "unknown-lane 4"),
        (Why::WindowOut, "window-out"),
    ];
    for (why, wanted) in rows {
        let text = format!(in rt.alloc(); "{why}")?;
        assert_eq!(rt; text.as_str(), wanted);
    }
    Ok(())
}

#[test]
fn replies_print(rt: HostRuntime) -> Result<(), Fail> {
    let alloc = rt.alloc();
    let talk = vec![in alloc;
        Span {
            start: 0,
            len: 4000
        },
        Span {
            start: 8000,
            len: 4000
        },
    ]?;
    let gone = vec![in alloc; A, RopeId(3)]?;
    let rows = [
        (Reply::Rope(A, 20), "rope 1 length 20"),
        (
            Reply::Number(18446744073709551615),
            "number 18446744073709551615",
        ),
        (Reply::Talk(TalkList::of(talk)), "talk 2 0+4000 8000+4000"),
        (Reply::Talk(TalkList::of(Vec::new(alloc))), "talk 0"),
        (Reply::Job(J), "job 18446744073709551615"),
        (Reply::Window(16, 12), "window 16 12"),
        (Reply::Ended(JobId(1), 28), "ended 1 28"),
        (Reply::Stopped(JobId(2), 0), "stopped 2 0"),
        (Reply::Found(B, Note::new(b"")?), "found 281474976710656 -"),
        (Reply::Found(A, Note::new(&[0x0a, 0xff])?), "found 1 0aff"),
        (
            Reply::Swept(1, RopeList::of(gone)),
            "swept 1 rows 2 ropes 1 3",
        ),
        (
            Reply::Swept(0, RopeList::of(Vec::new(alloc))),
            "swept 0 rows 0 ropes",
        ),
        (Reply::Done, "done"),
        (
            Reply::Peaks(PeakList::of(vec![in alloc; 0, 127]?)),
            "peaks 2 0 127",
        ),
        (Reply::Peaks(PeakList::of(Vec::new(alloc))), "peaks 0"),
    ];
    for (reply, wanted) in rows {
        let text = format!(in alloc; "{reply}")?;
        assert_eq!(rt; text.as_str(), wanted);
    }
    Ok(())
}

// Each call by its verb; a caller may ask all but two.
#[test]
fn calls_print(rt: HostRuntime) -> Result<(), Fail> {
    let alloc = rt.alloc();
    let take = Take {
        tape: 0,
        from: 0,
        len: 20,
    };
    let key = Key::new(b"k")?;
    let note = Note::new(b"n")?;
    let rows = [
        (Call::Record(take), "record", true),
        (
            Call::Concat(RopeList::of(vec![in alloc; A]?)),
            "concat",
            true,
        ),
        (Call::Sub(A, 0, 5), "sub", true),
        (Call::Replace(A, 0, 5, B), "replace", true),
        (Call::Length(A), "length", true),
        (Call::Describe(A), "describe", true),
        (Call::Play(Lane(0), A, 0, 5), "play", true),
        (Call::Feed(Lane(0), Some(5)), "feed", false),
        (Call::Stop(Lane(0)), "stop", true),
        (Call::Retain(Class::Held, key, A, note), "retain", true),
        (Call::Forget(Class::Until, key), "forget", true),
        (Call::Lookup(Class::Listed, key), "lookup", true),
        (
            Call::Census(KeyList::of(vec![in alloc; key]?)),
            "census",
            true,
        ),
        (Call::Advance(Moment(60)), "advance", true),
        (Call::Sweep(9), "sweep", true),
        (Call::Landed, "landed", false),
        (Call::Begin(Lane(0)), "begin", true),
        (Call::Add(Lane(0), take), "add", true),
        (Call::End(Lane(0)), "end", true),
        (Call::Levels(A), "levels", true),
    ];
    for (call, wanted, asked) in rows {
        let text = format!(in alloc; "{call}")?;
        assert_eq!(rt; text.as_str(), wanted);
        assert_eq!(rt; call.is_asked(), asked);
    }
    Ok(())
}

#[test]
fn tapes_have_takes(rt: HostRuntime) -> Result<(), Fail> {
    let alloc = rt.alloc();
    let letters = b"ABCDEFGHIJKLMNOPQRST".to_vec(alloc)?;
    let tapes = Tapes::new(vec![in alloc; letters, Vec::new(alloc)]?);
    assert_eq!(rt; tapes.len(), 2);
    assert!(rt; !tapes.is_empty());
    let rows = [
        (0, 0, 20, true),
        (0, 20, 0, true),
        (0, 1, 20, false),
        (1, 0, 0, true),
        (2, 0, 0, false),
    ];
    for (tape, from, len, wanted) in rows {
        assert_eq!(rt; tapes.has(Take { tape, from, len }), wanted);
    }
    let take = Take {
        tape: 0,
        from: 18,
        len: 2,
    };
    assert!(rt; tapes.has(take));
    assert_eq!(rt; tapes.samples(take), b"ST".as_slice());
    assert!(rt; tapes.len() > 0);
    assert!(rt;
        tapes.whole(0)
            == Take {
                tape: 0,
                from: 0,
                len: 20
            }
    );
    assert!(rt; Tapes::new(Vec::new(alloc)).is_empty());
    Ok(())
}

#[test]
fn texts_and_lists_hold_their_items(rt: HostRuntime) -> Result<(), Fail> {
    let alloc = rt.alloc();
    let rows = [
        (0, false, true),
        (1, true, true),
        (64, true, true),
        (65, false, true),
        (128, false, true),
        (129, false, false),
    ];
    for (len, key, note) in rows {
        let bytes = vec![in alloc; 97u8; len]?;
        assert_eq!(rt; Key::new(&bytes).is_ok(), key);
        assert_eq!(rt; Note::new(&bytes).is_ok(), note);
    }
    let key = Key::new(b"mail.1")?;
    let note = Note::new(b"hi")?;
    assert_eq!(rt; key.bytes(), b"mail.1".as_slice());
    assert_eq!(rt; note.bytes(), b"hi".as_slice());
    let row = Row {
        class: Class::Held,
        key,
        rope: A,
        note,
    };
    assert!(rt; row == row);
    let piece = Piece {
        file: A,
        from: 0,
        len: 5,
    };
    assert!(rt; PieceList::of(vec![in alloc; piece]?).items() == [piece].as_slice());
    let pair = Pair {
        index: 0,
        address: 7,
    };
    assert!(rt; PairList::of(vec![in alloc; pair]?).items() == [pair].as_slice());
    assert!(rt; AddressList::of(vec![in alloc; 7u32]?).items() == [7u32].as_slice());
    assert!(rt; KeyList::of(vec![in alloc; key]?).items() == [key].as_slice());
    assert!(rt; RopeList::of(vec![in alloc; A]?).items() == [A].as_slice());
    assert!(rt; PeakList::of(vec![in alloc; 127u8]?).items() == [127u8].as_slice());
    let span = Span { start: 0, len: 1 };
    assert!(rt; TalkList::of(vec![in alloc; span]?).items() == [span].as_slice());
    let entry = Entry {
        caller: 1,
        call: Call::Length(A),
        reply: Reply::Done,
        ack: 0,
    };
    assert_eq!(rt; entry.caller, 1);
    Ok(())
}
