//! Lines as the grammar has them, and texts of entries.

use script_lang::{
    Built, Cause, Env, Line, RopeArg, Script, ScriptError, Verb, entry_text, parse, parse_by,
    resolve,
};
use voice_model::{Call, Entry, Note, Reply, RopeList, Span, TalkList, Tapes, Why};
use voice_units::{JobId, Lane, RopeId};

type Refused = Option<(u32, Cause)>;

fn refused(read: Result<Script, ScriptError>) -> Refused {
    match read {
        Ok(_) => None,
        Err(ScriptError::BadLine(line, cause)) => Some((line, cause)),
        Err(ScriptError::NoMemory) => Some((0, Cause::Lines)),
    }
}

fn bad(rt: &HostRuntime, bytes: &[u8]) -> Refused {
    refused(parse_by(rt.alloc(), bytes, Built::All))
}

#[test]
fn each_cause_at_its_line(rt: HostRuntime) {
    let lines: [(&[u8], u32, Cause); 45] = [
        (b"\n\n1 length a\x80", 3, Cause::Bytes),
        (b"1 length a\x7f", 1, Cause::Bytes),
        (b"x \x01", 1, Cause::Bytes),
        (b"1 length a\r\r\n", 1, Cause::Bytes),
        (b"1 length\r a\n", 1, Cause::Bytes),
        (b"0 length 1", 1, Cause::Caller),
        (b"17 length 1", 1, Cause::Caller),
        (b"01 length 1", 1, Cause::Caller),
        (b"+1 length 1", 1, Cause::Caller),
        (b"x sing", 1, Cause::Caller),
        (b"1 sing a", 1, Cause::Verb),
        (b"1 Length a", 1, Cause::Verb),
        (b"1", 1, Cause::Verb),
        (b"1 a =", 1, Cause::Verb),
        (b"1 record = f", 1, Cause::Verb),
        (b"1 a = = b", 1, Cause::Verb),
        (b"1 = record f", 1, Cause::Verb),
        (b"1 9 = sing f", 1, Cause::Verb),
        (b"1 length", 1, Cause::Arguments),
        (b"1 length a b", 1, Cause::Arguments),
        (b"1 length a-b", 1, Cause::Arguments),
        (b"1 length 281474976710657", 1, Cause::Arguments),
        (b"1 length 00", 1, Cause::Arguments),
        (b"1 sub 1 0", 1, Cause::Arguments),
        (b"1 sub a 00 1", 1, Cause::Arguments),
        (b"1 sub a 4294967296 1", 1, Cause::Arguments),
        (b"1 sub a 99999999999999999999 1", 1, Cause::Arguments),
        (b"1 record -f", 1, Cause::Arguments),
        (b"1 record .f", 1, Cause::Arguments),
        (b"1 retain kept k a -", 1, Cause::Arguments),
        (b"1 retain held k a 686", 1, Cause::Arguments),
        (b"1 retain held k a 68FF", 1, Cause::Arguments),
        (b"1 forget held k/2", 1, Cause::Arguments),
        (b"1 advance 1099511627777", 1, Cause::Arguments),
        (b"1 sweep 65536", 1, Cause::Arguments),
        (b"1 stop 16", 1, Cause::Arguments),
        (b"1 play 16 1 0 1 f", 1, Cause::Arguments),
        (b"1 concat", 1, Cause::Arguments),
        (
            b"1 concat a a a a a a a a a a a a a a a a a",
            1,
            Cause::Arguments,
        ),
        (b"1 9 = record -f", 1, Cause::Arguments),
        (b"1 a = length 1", 1, Cause::Bind),
        (b"1 9 = record f", 1, Cause::Bind),
        (b"1 = = record f", 1, Cause::Bind),
        (
            b"1 play 0 a 0 1 o\n2 play 0 a 0 1 o\n2 sing",
            2,
            Cause::LaneTaken,
        ),
        (
            b"3 serve 15 o\n3 serve 15 o\n\n1 play 15 a 0 1 o",
            4,
            Cause::LaneTaken,
        ),
    ];
    for (bytes, line, cause) in lines {
        let found = bad(&rt, bytes);
        assert!(rt; found == Some((line, cause)), "{line} {cause:?}: {found:?}");
    }
}

#[test]
fn what_is_taken(rt: HostRuntime) {
    let scripts: [&[u8]; 11] = [
        b"",
        b"\n",
        b" \t \n# \xff\x00\r\n#",
        b"\r\n  #x",
        b"1 length a\r",
        b"\t1\t  length \t a\t\r\n1 a = record f20\r\n",
        b"1 sub a 0 4294967295\n1 length 281474976710656\n1 advance 1099511627776\n1 sweep 65535\n1 advance 0",
        b"16 retain until mail.1 a 6869\n16 retain listed m-_ 0 -\n16 v = lookup held k\n16 forget held 0",
        b"1 concat a b c 1 2\n1 census\n1 census m n\n1 describe a\n1 levels a\n1 x_9 = replace a 0 1 b",
        b"1 play 0 v 0 10 out\n1 serve 0 p.2\n2 queue 0 a 0 1\n2 stop 0\n2 begin 0\n2 add 0 f20\n2 e = end 0\n2 end 0",
        b"1 play 0 a 0 1 o\n2 play 1 a 0 1 o\n1 serve 0 o",
    ];
    for (k, bytes) in scripts.iter().enumerate() {
        let found = bad(&rt, bytes);
        assert!(rt; found == None, "script {k}: {found:?}");
    }
}

// What a script may have today.
#[test]
fn verbs_that_are_built(rt: HostRuntime) {
    let now =
        b"1 a = record f\n1 b = sub a 0 1\n1 c = replace a 0 1 b\n2 concat 1 2\n1 length c\n# x\n1 retain until u b 000000000000001e\n1 forget held k\n2 d = lookup until u\n1 census m\n1 advance 30\n2 sweep 9\n1 describe a\n2 levels a\n1 queue 0 a 0 1\n2 stop 0\n1 serve 0 out\n2 play 1 a 0 1 other\n1 begin 2\n1 add 2 f\n1 e = end 2";
    let now = refused(parse(rt.alloc(), now));
    assert!(rt; now == None, "{now:?}");
}

fn repeated(rt: &HostRuntime, front: &[u8], part: &[u8], count: usize, end: &[u8]) -> Vec<u8> {
    let mut bytes = Vec::new(rt.alloc());
    let _ = bytes.extend_from_slice(front);
    for _ in 0..count {
        let _ = bytes.extend_from_slice(part);
    }
    let _ = bytes.extend_from_slice(end);
    bytes
}

#[test]
fn limits(rt: HostRuntime) {
    let long = repeated(&rt, b"", b"\n", 65_535, b"");
    assert!(rt; bad(&rt, &long) == None);
    let comment = repeated(&rt, b"", b"1 record f\n", 65_535, b"# x");
    assert!(rt; bad(&rt, &comment) == Some((65_536, Cause::Lines)));
    let keys = repeated(&rt, b"1 census", b" k", 1_024, b"");
    assert!(rt; bad(&rt, &keys) == None);
    let more = repeated(&rt, b"1 census", b" k", 1_025, b"");
    assert!(rt; bad(&rt, &more) == Some((1, Cause::Arguments)));
    let key = repeated(&rt, b"1 forget held ", b"k", 64, b"");
    assert!(rt; bad(&rt, &key) == None);
    let key = repeated(&rt, b"1 forget held ", b"k", 65, b"");
    assert!(rt; bad(&rt, &key) == Some((1, Cause::Arguments)));
    let note = repeated(&rt, b"1 retain held k a ", b"0a", 128, b"");
    assert!(rt; bad(&rt, &note) == None);
    let note = repeated(&rt, b"1 retain held k a ", b"0a", 129, b"");
    assert!(rt; bad(&rt, &note) == Some((1, Cause::Arguments)));
}

// Lines of mail, dictation, recording and hang-up, each as it stands in a script.
#[test]
fn a_days_lines(rt: HostRuntime) {
    let script = b"1 a = record msg
1 describe a
1 e = sub a 0 0
1 b = replace a 160000 8000 e
1 n = record note
1 c = concat b n
1 retain held mail.1 c 6869
2 v = lookup held mail.1
2 play 0 v 0 360000 p2
3 v = lookup held mail.1
3 play 1 v 0 360000 p3
1 retain until u a 000000000000001e
1 retain listed m b -
1 census n
1 census
1 advance 100
1 sweep 100
1 queue 0 a 0 20
1 stop 0
2 serve 0 out
1 begin 0
1 add 0 f20
1 end 0
1 sub 281474976710656 0 0
1 c = concat a a a a a a a a a a a a a a a a
";
    let Ok(read) = parse_by(rt.alloc(), script, Built::All) else {
        panic!(rt; "refused");
    };
    assert!(rt; read.lines.len() == 25 && read.samples.len() == 3 && read.callers == 3);
    let line = &read.lines[8];
    assert!(rt; line.number == 9 && line.caller == 2 && line.bind.is_none());
    assert!(rt;
        line.file
            .as_ref()
            .is_some_and(|name| name.bytes() == b"p2".as_slice())
    );
    assert!(rt;
        matches!(&line.verb, Verb::Play(lane, RopeArg::Var(_), 0, 360_000) if *lane == Lane(0))
    );
    assert!(rt; read.samples[2].bytes() == b"f20".as_slice());
    assert!(rt; matches!(&read.lines[4].verb, Verb::Record(1)));
    assert!(rt; matches!(&read.lines[21].verb, Verb::Add(_, 2)));
}

fn asked(rt: &HostRuntime, line: &Line, env: &Env, tapes: &Tapes) -> Option<Call> {
    match &line.verb {
        Verb::Record(tape) | Verb::Add(_, tape) => {
            if *tape as usize >= tapes.len() {
                return None;
            }
        }
        _ => {}
    }
    match resolve(rt.alloc(), line, env, tapes) {
        Ok(call) => call,
        Err(_) => None,
    }
}

#[test]
fn variables(rt: HostRuntime) {
    let script =
        b"1 a = record f\n1 b = sub a 0 1\n2 length a\n1 concat a b 7 a\n1 serve 0 o\n1 a = lookup held k\n1 levels a";
    let Ok(read) = parse_by(rt.alloc(), script, Built::All) else {
        panic!(rt; "refused");
    };
    let mut tape = Vec::new(rt.alloc());
    let _ = tape.extend_from_slice(b"ABC");
    let mut all = Vec::new(rt.alloc());
    let _ = all.push(tape);
    let tapes = Tapes::new(all);
    assert!(rt; read.lines.len() == 7);
    let mut one = Env::new(rt.alloc());
    let two = Env::new(rt.alloc());
    let lines = &read.lines;
    let call = asked(&rt, &lines[0], &one, &tapes);
    assert!(rt; matches!(&call, Some(Call::Record(take)) if take.tape == 0 && take.len == 3));
    let call = asked(&rt, &lines[1], &one, &tapes);
    assert!(rt; matches!(&call, Some(Call::Sub(rope, 0, 1)) if *rope == RopeId(0)));
    assert!(rt; one.bind(&lines[0], &Reply::Rope(RopeId(5), 3)).is_ok());
    assert!(rt; one.bind(&lines[1], &Reply::No(Why::IdsSpent)).is_ok());
    let call = asked(&rt, &lines[3], &one, &tapes);
    assert!(rt;
        matches!(&call, Some(Call::Concat(ropes)) if ropes.items() == [RopeId(5), RopeId(0), RopeId(7), RopeId(5)].as_slice())
    );
    let call = asked(&rt, &lines[2], &two, &tapes);
    assert!(rt; matches!(&call, Some(Call::Length(rope)) if *rope == RopeId(0)));
    assert!(rt; asked(&rt, &lines[4], &one, &tapes).is_none());
    let Ok(note) = Note::new(b"") else {
        panic!(rt; "note");
    };
    assert!(rt; one.bind(&lines[5], &Reply::Found(RopeId(9), note)).is_ok());
    assert!(rt; one.bind(&lines[2], &Reply::Number(3)).is_ok());
    let call = asked(&rt, &lines[6], &one, &tapes);
    assert!(rt; matches!(&call, Some(Call::Levels(rope)) if *rope == RopeId(9)));
}

fn text(rt: &HostRuntime, index: u64, call: Call, reply: Reply) -> Vec<u8> {
    let mut out = Vec::new(rt.alloc());
    let entry = Entry {
        caller: 1,
        call,
        reply,
        ack: 0,
    };
    let _ = entry_text(index, &entry, &mut out);
    out
}

#[test]
fn texts(rt: HostRuntime) {
    let Ok(note) = Note::new(b"hi") else {
        panic!(rt; "note");
    };
    let mut ids = Vec::new(rt.alloc());
    let _ = ids.push(RopeId(1));
    let _ = ids.push(RopeId(2));
    let mut spans = Vec::new(rt.alloc());
    let _ = spans.push(Span {
        start: 8000,
        len: 4000,
    });
    let rope = Reply::Rope(RopeId(5), 352_000);
    let rope = text(
        &rt,
        6,
        Call::Concat(RopeList::of(Vec::new(rt.alloc()))),
        rope,
    );
    assert!(rt; rope.as_slice() == b"6 1 concat: rope 5 length 352000\n".as_slice());
    let found = text(&rt, 7, Call::Landed, Reply::Found(RopeId(5), note));
    assert!(rt; found.as_slice() == b"7 1 landed: found 5 6869\n".as_slice());
    let full = Reply::No(Why::JournalFull(14, 5));
    let full = text(&rt, 18, Call::Stop(Lane(0)), full);
    assert!(rt; full.as_slice() == b"18 1 stop: no journal-full 14 5\n".as_slice());
    let swept = Reply::Swept(0, RopeList::of(ids));
    let swept = text(&rt, 61, Call::Sweep(100), swept);
    assert!(rt; swept.as_slice() == b"61 1 sweep: swept 0 rows 2 ropes 1 2\n".as_slice());
    let talk = Reply::Talk(TalkList::of(spans));
    let talk = text(&rt, 2, Call::Describe(RopeId(1)), talk);
    assert!(rt; talk.as_slice() == b"2 1 describe: talk 1 8000+4000\n".as_slice());
    let ended = Reply::Ended(JobId(1), 10);
    let ended = text(&rt, 7, Call::Feed(Lane(0), None), ended);
    assert!(rt; ended.as_slice() == b"7 1 feed: ended 1 10\n".as_slice());
}
