//! What the words behind each verb say.

ghost use Rattle.std.specs.Prelude.{Some, ◌≡◌, ℕ, ◌<◌, ◌^◌, length};
ghost use Rattle.script_lang.specs.Arguments.{Reads, Says, just, said_of, whole, record_at, concat_at, sub_at, replace_at, length_at, retain_at, forget_at, lookup_at, census_at, advance_at, sweep_at, describe_at, queue_at, play_at, serve_at, stop_at, begin_at, add_at, end_at, levels_at};

use crate::arguments::Unread;
use crate::labels::{Boxed, Label};
use crate::samples::Samples;
use crate::scripts::{ArgList, Verb};
use crate::verbs::VerbName;
use crate::words::Words;
use std::alloc::Global;
use voice_model::KeyList;

/// What a line says behind its verb: the verb with its arguments, the file of a play, and a sample file.
#[derive(Drop)]
pub struct Said {
    pub verb: Verb,
    pub file: Option<Label>,
    pub sample: Option<Label>,
}

fn just(verb: Verb) -> Said
    ensures { result ≡ just verb }
{
    Said {
        verb,
        file: None,
        sample: None,
    }
}

#[tactic(auto, unfolding(crate::specs::Arguments::record_at))]
fn record(alloc: Global, words: &mut Words, samples: &Samples) -> Result<Said, Unread>
    requires { length samples.now < 2 ^ 32 }
    ensures { Reads result (record_at samples.now words.old) words.new }
{
    let file = words.file(alloc)?;
    let tape = samples.tape_of(&file);
    Ok(Said {
        verb: Verb::Record(tape),
        file: None,
        sample: Some(file),
    })
}

#[tactic(auto, unfolding(crate::specs::Arguments::sub_at))]
fn sub(alloc: Global, words: &mut Words) -> Result<Said, Unread>
    ensures { Reads result (sub_at words.old) words.new }
{
    let rope = words.rope(alloc)?;
    let start = words.count()?;
    let len = words.count()?;
    Ok(just(Verb::Sub(rope, start, len)))
}

#[tactic(auto, unfolding(crate::specs::Arguments::length_at))]
fn length(alloc: Global, words: &mut Words) -> Result<Said, Unread>
    ensures { Reads result (length_at words.old) words.new }
{
    let rope = words.rope(alloc)?;
    Ok(just(Verb::Length(rope)))
}

#[tactic(auto, unfolding(crate::specs::Arguments::concat_at))]
fn concat(alloc: Global, words: &mut Words) -> Result<Said, Unread>
    ensures { Reads result (concat_at words.old) words.new }
{
    let ropes = words.ropes(alloc)?;
    if ropes.is_empty() || ropes.len() > 16 {
        return Err(Unread::Arguments);
    }
    Ok(just(Verb::Concat(ArgList::of(ropes))))
}

#[tactic(auto, unfolding(crate::specs::Arguments::census_at))]
fn census(alloc: Global, words: &mut Words) -> Result<Said, Unread>
    ensures { Reads result (census_at words.old) words.new }
{
    let keys = words.keys(alloc)?;
    if keys.len() > 1024 {
        return Err(Unread::Arguments);
    }
    Ok(just(Verb::Census(KeyList::of(keys))))
}

#[tactic(auto, unfolding(crate::specs::Arguments::replace_at))]
fn replace(alloc: Global, words: &mut Words) -> Result<Said, Unread>
    ensures { Reads result (replace_at words.old) words.new }
{
    let rope = words.rope(alloc)?;
    let start = words.count()?;
    let len = words.count()?;
    let other = words.rope(alloc)?;
    let other = Boxed::new(alloc, other)?;
    Ok(just(Verb::Replace(rope, start, len, other)))
}

#[tactic(auto, unfolding(crate::specs::Arguments::retain_at))]
fn retain(alloc: Global, words: &mut Words) -> Result<Said, Unread>
    ensures { Reads result (retain_at words.old) words.new }
{
    let class = words.class()?;
    let key = words.key(alloc)?;
    let rope = words.rope(alloc)?;
    let note = words.note(alloc)?;
    let key = Boxed::new(alloc, key)?;
    Ok(just(Verb::Retain(class, key, rope, note)))
}

#[tactic(auto, unfolding(crate::specs::Arguments::forget_at))]
fn forget(alloc: Global, words: &mut Words) -> Result<Said, Unread>
    ensures { Reads result (forget_at words.old) words.new }
{
    let class = words.class()?;
    let key = words.key(alloc)?;
    Ok(just(Verb::Forget(class, key)))
}

#[tactic(auto, unfolding(crate::specs::Arguments::lookup_at))]
fn lookup(alloc: Global, words: &mut Words) -> Result<Said, Unread>
    ensures { Reads result (lookup_at words.old) words.new }
{
    let class = words.class()?;
    let key = words.key(alloc)?;
    Ok(just(Verb::Lookup(class, key)))
}

#[tactic(auto, unfolding(crate::specs::Arguments::advance_at))]
fn advance(words: &mut Words) -> Result<Said, Unread>
    ensures { Reads result (advance_at words.old) words.new }
{
    let moment = words.moment()?;
    Ok(just(Verb::Advance(moment)))
}

#[tactic(auto, unfolding(crate::specs::Arguments::sweep_at))]
fn sweep(words: &mut Words) -> Result<Said, Unread>
    ensures { Reads result (sweep_at words.old) words.new }
{
    let limit = words.limit()?;
    Ok(just(Verb::Sweep(limit)))
}

#[tactic(auto, unfolding(crate::specs::Arguments::describe_at))]
fn describe(alloc: Global, words: &mut Words) -> Result<Said, Unread>
    ensures { Reads result (describe_at words.old) words.new }
{
    let rope = words.rope(alloc)?;
    Ok(just(Verb::Describe(rope)))
}

#[tactic(auto, unfolding(crate::specs::Arguments::queue_at))]
fn queue(alloc: Global, words: &mut Words) -> Result<Said, Unread>
    ensures { Reads result (queue_at words.old) words.new }
{
    let lane = words.lane()?;
    let rope = words.rope(alloc)?;
    let start = words.count()?;
    let len = words.count()?;
    Ok(just(Verb::Queue(lane, rope, start, len)))
}

#[tactic(auto, unfolding(crate::specs::Arguments::play_at))]
fn play(alloc: Global, words: &mut Words) -> Result<Said, Unread>
    ensures { Reads result (play_at words.old) words.new }
{
    let lane = words.lane()?;
    let rope = words.rope(alloc)?;
    let start = words.count()?;
    let len = words.count()?;
    let file = words.file(alloc)?;
    Ok(Said {
        verb: Verb::Play(lane, rope, start, len),
        file: Some(file),
        sample: None,
    })
}

#[tactic(auto, unfolding(crate::specs::Arguments::serve_at))]
fn serve(alloc: Global, words: &mut Words) -> Result<Said, Unread>
    ensures { Reads result (serve_at words.old) words.new }
{
    let lane = words.lane()?;
    let file = words.file(alloc)?;
    Ok(Said {
        verb: Verb::Serve(lane),
        file: Some(file),
        sample: None,
    })
}

#[tactic(auto, unfolding(crate::specs::Arguments::stop_at))]
fn stop(words: &mut Words) -> Result<Said, Unread>
    ensures { Reads result (stop_at words.old) words.new }
{
    let lane = words.lane()?;
    Ok(just(Verb::Stop(lane)))
}

#[tactic(auto, unfolding(crate::specs::Arguments::begin_at))]
fn begin(words: &mut Words) -> Result<Said, Unread>
    ensures { Reads result (begin_at words.old) words.new }
{
    let lane = words.lane()?;
    Ok(just(Verb::Begin(lane)))
}

#[tactic(auto, unfolding(crate::specs::Arguments::add_at))]
fn add(alloc: Global, words: &mut Words, samples: &Samples) -> Result<Said, Unread>
    requires { length samples.now < 2 ^ 32 }
    ensures { Reads result (add_at samples.now words.old) words.new }
{
    let lane = words.lane()?;
    let file = words.file(alloc)?;
    let tape = samples.tape_of(&file);
    Ok(Said {
        verb: Verb::Add(lane, tape),
        file: None,
        sample: Some(file),
    })
}

#[tactic(auto, unfolding(crate::specs::Arguments::end_at))]
fn end(words: &mut Words) -> Result<Said, Unread>
    ensures { Reads result (end_at words.old) words.new }
{
    let lane = words.lane()?;
    Ok(just(Verb::End(lane)))
}

#[tactic(auto, unfolding(crate::specs::Arguments::levels_at))]
fn levels(alloc: Global, words: &mut Words) -> Result<Said, Unread>
    ensures { Reads result (levels_at words.old) words.new }
{
    let rope = words.rope(alloc)?;
    Ok(just(Verb::Levels(rope)))
}

// What was said, where no word is left.
fn whole(said: Said, words: &mut Words) -> Result<Said, Unread>
    ensures { Says result (whole (Some (said, words.old))) }
{
    if words.word().is_none() {
        return Ok(said);
    }
    Err(Unread::Arguments)
}

/// What the words say behind the verb, all of them.
#[tactic(auto, unfolding(crate::specs::Arguments::said_of))]
pub fn read_said(
    alloc: Global,
    name: VerbName,
    words: &mut Words,
    samples: &Samples,
) -> Result<Said, Unread>
    requires { length samples.now < 2 ^ 32 }
    ensures { Says result (said_of samples.now name words.old) }
{
    let said = match name {
        VerbName::Record => record(alloc, words, samples),
        VerbName::Concat => concat(alloc, words),
        VerbName::Sub => sub(alloc, words),
        VerbName::Replace => replace(alloc, words),
        VerbName::Length => length(alloc, words),
        VerbName::Retain => retain(alloc, words),
        VerbName::Forget => forget(alloc, words),
        VerbName::Lookup => lookup(alloc, words),
        VerbName::Census => census(alloc, words),
        VerbName::Advance => advance(words),
        VerbName::Sweep => sweep(words),
        VerbName::Describe => describe(alloc, words),
        VerbName::Queue => queue(alloc, words),
        VerbName::Play => play(alloc, words),
        VerbName::Serve => serve(alloc, words),
        VerbName::Stop => stop(words),
        VerbName::Begin => begin(words),
        VerbName::Add => add(alloc, words, samples),
        VerbName::End => end(words),
        VerbName::Levels => levels(alloc, words),
    };
    whole(said?, words)
}
