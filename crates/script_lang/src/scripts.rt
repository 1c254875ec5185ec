//! What a script says.

ghost use Rattle.std.specs.Prelude.{◌≡◌};
ghost use Rattle.script_lang.specs.declared.scripts.ScriptError.TheVariants as errors;

use crate::labels::{Boxed, Label};
use std::marker::Model;
use voice_model::{Class, KeyList, Note};
use voice_units::{Lane, Moment, Name, NoMemory, RopeId};

/// A rope in a script: by number, or by a variable.
#[derive(Drop)]
pub enum RopeArg {
    Id(RopeId),
    Var(Label),
}

/// Ropes in a script.
#[derive(Drop)]
pub struct ArgList {
    items: Vec<RopeArg>,
}

impl Model for ArgList {
    ghost use Rattle.std.specs.Prelude.{List};
    ghost use Rattle.script_lang.specs.declared.scripts.RopeArg.{RopeArg};

    ghost Value = { List RopeArg };

    ghost view = { λ a. a.items.items };
}

impl ArgList {
    pub fn of(items: Vec<RopeArg>) -> ArgList
        ensures { result ≡ items.items }
    {
        ArgList { items }
    }

    pub fn items(&self) -> &[RopeArg]
        ensures { result.now ≡ self.now }
    {
        &self.items
    }
}

/// What a line asks for. What only rare verbs have lies in memory of its own, so that each line stays small.
#[derive(Drop)]
pub enum Verb {
    Record(u32),
    Concat(ArgList),
    Sub(RopeArg, u32, u32),
    Replace(RopeArg, u32, u32, Boxed<RopeArg>),
    Length(RopeArg),
    Retain(Class, Boxed<Label>, RopeArg, Boxed<Note>),
    Forget(Class, Label),
    Lookup(Class, Label),
    Census(KeyList),
    Advance(Moment),
    Sweep(u16),
    Describe(RopeArg),
    Queue(Lane, RopeArg, u32, u32),
    Play(Lane, RopeArg, u32, u32),
    Serve(Lane),
    Stop(Lane),
    Begin(Lane),
    Add(Lane, u32),
    End(Lane),
    Levels(RopeArg),
}

/// A line that makes a call.
#[derive(Drop)]
pub struct Line {
    pub number: u32,
    pub caller: u16,
    pub bind: Option<Label>,
    pub verb: Verb,
    pub file: Option<Label>,
}

/// The lines of a script, the sample files by first mention, and the greatest caller.
#[derive(Drop)]
pub struct Script {
    pub lines: Vec<Line>,
    pub samples: Vec<Name>,
    pub callers: u16,
}

impl Model for Script {
    ghost use Rattle.script_lang.specs.Shown.{Reading};

    ghost Value = { Reading };

    ghost view = { λ s. record { lines = s.lines.items; samples = s.samples.items; callers = s.callers } };
}

/// Why a line is refused.
#[derive(Clone, Copy, Debug, PartialEq, Eq)]
pub enum Cause {
    /// There are more than 65,535 lines.
    Lines,
    Bytes,
    Caller,
    Verb,
    /// Their number or form.
    Arguments,
    /// What is bound is no variable, or the verb binds nothing.
    Bind,
    /// Another caller serves that lane.
    LaneTaken,
}

/// Why a script is refused: its first bad line, or want of memory.
#[derive(Clone, Copy, Debug, PartialEq, Eq)]
pub enum ScriptError {
    BadLine(u32, Cause),
    NoMemory,
}

impl From<NoMemory> for ScriptError {
    ghost from_gives = { λ _ e. e ≡ errors.NoMemory };

    fn from(_: NoMemory) -> Self {
        ScriptError::NoMemory
    }
}
