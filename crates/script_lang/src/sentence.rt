//! What a line says: its caller, what it binds, and its verb with the arguments.

ghost use Rattle.std.specs.Prelude.{◌≡◌, ℕ, ◌<◌, ◌^◌, length};
ghost use Rattle.script_lang.specs.Arguments.{Reads};
ghost use Rattle.script_lang.specs.Verbs.{verbs_of};
ghost use Rattle.script_lang.specs.Parts.{binds_well, is_known, served};
ghost use Rattle.script_lang.specs.Reading.{Speaks, caller_of, caller_at, verb_of, name_at, Binds, now_of, as_cause, spoken_of};
ghost use Rattle.script_lang.specs.declared.sentence.Refusal.TheVariants as refusals;

use crate::arguments::Unread;
use crate::forms::is_var;
use crate::labels::Label;
use crate::numbers::number;
use crate::phrases::{Said, read_said};
use crate::samples::Samples;
use crate::scripts::{Cause, Verb};
use crate::verbs::{Built, VerbName};
use crate::words::Words;
use std::alloc::{AllocFailed, Global};
use voice_units::{Lane, NoMemory};

/// What a line says.
#[derive(Drop)]
pub struct Spoken {
    pub caller: u16,
    pub bind: Option<Label>,
    pub said: Said,
}

/// Why a line adds nothing.
#[derive(Clone, Copy, Debug, PartialEq, Eq)]
pub enum Refusal {
    Bad(Cause),
    NoMemory,
}

impl<T: Drop> From<AllocFailed<T>> for Refusal {
    ghost from_gives = { λ _ e. e ≡ refusals.NoMemory };

    fn from(_: AllocFailed<T>) -> Self {
        Refusal::NoMemory
    }
}

impl From<NoMemory> for Refusal {
    ghost from_gives = { λ _ e. e ≡ refusals.NoMemory };

    fn from(_: NoMemory) -> Self {
        Refusal::NoMemory
    }
}

impl Unread {
    fn as_cause(self, cause: Cause) -> Refusal
        ensures { result ≡ as_cause self cause }
    {
        match self {
            Unread::Arguments => Refusal::Bad(cause),
            Unread::NoMemory => Refusal::NoMemory,
        }
    }
}

#[tactic(auto, unfolding(crate::specs::Reading::caller_of))]
fn caller_of(word: &[u8]) -> Option<u16>
    ensures { result ≡ caller_of word.now }
{
    let n = number(word, 16)?;
    if n > 0 {
        return Some(n as u16);
    }
    None
}

// The verb that a word names, where a script may have it.
#[tactic(auto, unfolding(crate::specs::Reading::verb_of))]
fn verb_of(built: Built, word: &[u8]) -> Option<VerbName>
    ensures { result ≡ verb_of (verbs_of built) word.now }
{
    let verb = VerbName::named(word)?;
    if built.has(verb) {
        return Some(verb);
    }
    None
}

impl<'a> Words<'a> {
    #[tactic(auto, unfolding(crate::specs::Reading::caller_at))]
    fn caller(&mut self) -> Result<u16, Unread>
        ensures { Reads result (caller_at self.old) self.new }
    {
        let word = self.need()?;
        match caller_of(word) {
            Some(caller) => Ok(caller),
            None => Err(Unread::Arguments),
        }
    }

    #[tactic(auto, unfolding(crate::specs::Reading::name_at))]
    fn name(&mut self, built: Built) -> Result<VerbName, Unread>
        ensures { Reads result (name_at (verbs_of built) self.old) self.new }
    {
        let word = self.need()?;
        match verb_of(built, word) {
            Some(name) => Ok(name),
            None => Err(Unread::Arguments),
        }
    }
}

// The variable to bind, where the verb binds.
fn bound(alloc: Global, name: VerbName, word: Option<&[u8]>) -> Result<Option<Label>, Refusal>
    ensures { Binds result name (now_of word.entry) }
{
    match word {
        Some(word) => {
            if !is_var(word) || !name.binds() {
                return Err(Refusal::Bad(Cause::Bind));
            }
            let label = Label::new(alloc, word)?;
            Ok(Some(label))
        }
        None => Ok(None),
    }
}

// What the words of a line say.
#[tactic(auto, unfolding(crate::specs::Reading::spoken_of))]
pub fn read_spoken(
    alloc: Global,
    built: Built,
    words: &mut Words,
    samples: &Samples,
) -> Result<Spoken, Refusal>
    requires { length samples.now < 2 ^ 32 }
    ensures { Speaks result (spoken_of (verbs_of built) samples.now words.old) }
{
    let caller = match words.caller() {
        Ok(caller) => caller,
        Err(unread) => return Err(unread.as_cause(Cause::Caller)),
    };
    let bind = words.bind();
    let name = match words.name(built) {
        Ok(name) => name,
        Err(unread) => return Err(unread.as_cause(Cause::Verb)),
    };
    let said = match read_said(alloc, name, words, samples) {
        Ok(said) => said,
        Err(unread) => return Err(unread.as_cause(Cause::Arguments)),
    };
    match bound(alloc, name, bind) {
        Ok(bind) => Ok(Spoken { caller, bind, said }),
        Err(Refusal::Bad(cause)) => Err(Refusal::Bad(cause)),
        Err(Refusal::NoMemory) => Err(Refusal::NoMemory),
    }
}

// Whether the verb names a tape, and its number is below the count.
pub fn is_known(verb: &Verb, count: usize) -> bool
    ensures { result ≡ is_known verb.now count }
{
    match verb {
        Verb::Record(tape) => (*tape as usize) < count,
        Verb::Add(_, tape) => (*tape as usize) < count,
        _ => false,
    }
}

// The lane that a verb serves.
pub fn served(verb: &Verb) -> Option<Lane>
    ensures { result ≡ served verb.now }
{
    match verb {
        Verb::Play(lane, _, _, _) => Some(*lane),
        Verb::Serve(lane) => Some(*lane),
        _ => None,
    }
}
