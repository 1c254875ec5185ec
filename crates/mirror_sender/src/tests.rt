//! Histories that are followed, and the packets of their changes.

ghost use Rattle.std.specs.Prelude.{◌≡◌, ℕ, List, IfOk};
ghost use Rattle.voice_model.specs.Tapes.{HasTake};
ghost use Rattle.voice_model.specs.Valid.{InRange};
ghost use Rattle.mirror_sender.specs.Abreast.{IsSound, IsWithin};

use crate::Sender;
use recovery::Parts;
use std::alloc::Global;
use std::test::Fail;
use voice_model::{Call, Class, Entry, Key, Note, Reply, Tapes, Why};
use voice_units::{BadShape, Graces, NoMemory, RopeId, Shape, Take};

// 16 blocks of 8 samples.
fn small_shape() -> Result<Shape, BadShape> {
    let graces = Graces {
        common: 60,
        held: 60,
        until: 60,
        listed: 60,
    };
    Shape::new(2, 8, 16, 512, graces, 4, 1216)
}

// A sender of an empty disk, whose first packet has the number 1.
fn started(alloc: Global, shape: &Shape) -> Result<Sender, NoMemory>
    ensures { IfOk result (λ sender. (tapes : List (List ℕ)) → IsSound tapes sender) }
{
    let parts = Parts::empty(alloc, shape)?;
    Ok(Sender::new(alloc, shape, parts, 1))
}

// One tape of 20 samples.
fn one_tape(alloc: Global) -> Result<Tapes, NoMemory> {
    let tape = vec![in alloc; b'a'; 20]?;
    let tapes = vec![in alloc; tape]?;
    Ok(Tapes::new(tapes))
}

// An interest of class Held without a note.
fn retain(key: Key, rope: RopeId, note: Note) -> Call
    ensures range { InRange result }
    ensures within { (tapes : List (List ℕ)) → IsWithin tapes result }
{
    let (_key, _note) = (key.bytes().len(), note.bytes().len());
    Call::Retain(Class::Held, key, rope, note)
}

// Follows a call and its reply.
fn noted(
    sender: &mut Sender,
    tapes: &Tapes,
    call: Call,
    reply: Reply,
    out: &mut Vec<u8>,
) -> Result<(), NoMemory>
    requires sound { IsSound tapes.now sender.old }
    requires range { InRange call }
    requires within { IsWithin tapes.now call }
    ensures { IsSound tapes.now sender.new }
{
    let entry = Entry {
        caller: 1,
        call,
        reply,
        ack: 0,
    };
    sender.note(tapes, &entry, out)
}

// Rope 1 of 20 samples is recorded.
fn recorded(
    sender: &mut Sender,
    tapes: &Tapes,
    reply: Reply,
    out: &mut Vec<u8>,
) -> Result<(), NoMemory>
    requires { IsSound tapes.now sender.old }
    ensures { IsSound tapes.now sender.new }
{
    let take = Take {
        tape: 0,
        from: 0,
        len: 20,
    };
    if !tapes.has(take) {
        return Ok(());
    }
    noted(sender, tapes, Call::Record(take), reply, out)
}

// A recording, a row that comes, and its end.
fn row_script(
    sender: &mut Sender,
    tapes: &Tapes,
    key: Key,
    note: Note,
    out: &mut Vec<u8>,
) -> Result<(), NoMemory>
    requires { IsSound tapes.now sender.old }
{
    recorded(sender, tapes, Reply::Rope(RopeId(1), 20), out)?;
    let comes = retain(key, RopeId(1), note);
    noted(sender, tapes, comes, Reply::Done, out)?;
    let goes = Call::Forget(Class::Held, key);
    noted(sender, tapes, goes, Reply::Done, out)
}

// A recording and a part of it.
fn edit_script(sender: &mut Sender, tapes: &Tapes, out: &mut Vec<u8>) -> Result<(), NoMemory>
    requires { IsSound tapes.now sender.old }
{
    recorded(sender, tapes, Reply::Rope(RopeId(1), 20), out)?;
    let part = Call::Sub(RopeId(1), 5, 7);
    noted(sender, tapes, part, Reply::Rope(RopeId(2), 7), out)
}

// An entry of caller 1.
fn entry(call: Call, reply: Reply) -> Entry
    ensures { result.call ≡ call }
{
    Entry {
        caller: 1,
        call,
        reply,
        ack: 0,
    }
}

// A recording and a part of it, as one history.
fn history_script(sender: &mut Sender, tapes: &Tapes, out: &mut Vec<u8>) -> Result<(), NoMemory>
    requires { IsSound tapes.now sender.old }
{
    let take = Take {
        tape: 0,
        from: 0,
        len: 20,
    };
    if !tapes.has(take) {
        return Ok(());
    }
    let history = [
        entry(Call::Record(take), Reply::Rope(RopeId(1), 20)),
        entry(Call::Sub(RopeId(1), 5, 7), Reply::Rope(RopeId(2), 7)),
    ];
    sender.follow(tapes, history.as_slice(), out)
}

// How many bytes are sent of a recording in doubt; then it lands.
fn doubt_script(sender: &mut Sender, tapes: &Tapes, out: &mut Vec<u8>) -> Result<usize, NoMemory>
    requires { IsSound tapes.now sender.old }
{
    recorded(sender, tapes, Reply::No(Why::InDoubt), out)?;
    let doubted = out.len();
    noted(sender, tapes, Call::Landed, Reply::Done, out)?;
    Ok(doubted)
}

// The packets of a row that comes and goes.
fn of_a_row(
    alloc: Global,
    shape: &Shape,
    tapes: &Tapes,
    key: Key,
    note: Note,
    out: &mut Vec<u8>,
) -> Result<(), NoMemory> {
    let mut sender = started(alloc, shape)?;
    row_script(&mut sender, tapes, key, note, out)
}

// The packets of an edit.
fn of_an_edit(
    alloc: Global,
    shape: &Shape,
    tapes: &Tapes,
    out: &mut Vec<u8>,
) -> Result<(), NoMemory> {
    let mut sender = started(alloc, shape)?;
    edit_script(&mut sender, tapes, out)
}

// The packets of the same edit, as one history.
fn of_a_history(
    alloc: Global,
    shape: &Shape,
    tapes: &Tapes,
    out: &mut Vec<u8>,
) -> Result<(), NoMemory> {
    let mut sender = started(alloc, shape)?;
    history_script(&mut sender, tapes, out)
}

// The packets of a doubt, and how many bytes were sent before it landed.
fn of_a_doubt(
    alloc: Global,
    shape: &Shape,
    tapes: &Tapes,
    out: &mut Vec<u8>,
) -> Result<usize, NoMemory> {
    let mut sender = started(alloc, shape)?;
    doubt_script(&mut sender, tapes, out)
}

#[test]
fn a_row_comes_and_goes(rt: HostRuntime) -> Result<(), Fail> {
    let shape = small_shape()?;
    let key = Key::new(b"k")?;
    let note = Note::new(b"")?;
    let tapes = one_tape(rt.alloc())?;
    let mut out = Vec::new(rt.alloc());
    of_a_row(rt.alloc(), &shape, &tapes, key, note, &mut out)?;
    assert_eq!(rt; out.len(), 12 + 29 + 12 + 13 + 16);
    assert!(rt; &out[..8] == [0, 0, 0, 0, 0, 0, 0, 1].as_slice());
    assert!(rt; &out[66..] == [0, 0, 0, 0, 0, 0, 0, 3, 0, 0, 0, 4, 4, 1, 1, b'k'].as_slice());
    Ok(())
}

#[test]
fn an_edit_is_sent(rt: HostRuntime) -> Result<(), Fail> {
    let shape = small_shape()?;
    let tapes = one_tape(rt.alloc())?;
    let mut out = Vec::new(rt.alloc());
    of_an_edit(rt.alloc(), &shape, &tapes, &mut out)?;
    // Number 2, a body of 27 bytes: rope 2 of 7 samples of file 1 from place 5 on.
    let expected = [
        0, 0, 0, 0, 0, 0, 0, 2, 0, 0, 0, 27, 2, 0, 0, 0, 0, 0, 0, 0, 2, 0, 1, 0, 0, 0, 0, 0, 0, 0,
        1, 0, 0, 0, 5, 0, 0, 0, 7,
    ];
    assert_eq!(rt; out.len(), 41 + 39);
    assert!(rt; &out[41..] == expected.as_slice());
    Ok(())
}

#[test]
fn a_history_is_sent_as_its_entries(rt: HostRuntime) -> Result<(), Fail> {
    let shape = small_shape()?;
    let tapes = one_tape(rt.alloc())?;
    let mut apart = Vec::new(rt.alloc());
    of_an_edit(rt.alloc(), &shape, &tapes, &mut apart)?;
    let mut whole = Vec::new(rt.alloc());
    of_a_history(rt.alloc(), &shape, &tapes, &mut whole)?;
    assert_eq!(rt; whole.len(), 41 + 39);
    assert!(rt; whole.as_slice() == apart.as_slice());
    Ok(())
}

#[test]
fn a_change_in_doubt_is_sent_as_it_lands(rt: HostRuntime) -> Result<(), Fail> {
    let shape = small_shape()?;
    let tapes = one_tape(rt.alloc())?;
    let mut out = Vec::new(rt.alloc());
    let doubted = of_a_doubt(rt.alloc(), &shape, &tapes, &mut out)?;
    assert_eq!(rt; doubted, 0);
    assert_eq!(rt; out.len(), 41);
    Ok(())
}
