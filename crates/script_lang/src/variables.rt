//! The variables of a caller, and what its lines ask for.

ghost use Rattle.std.specs.Prelude.{◌≡◌, [], OnOk, OnErr, IfOk, map, List, length};
ghost use Rattle.voice_model.specs.Follows.{Binding, value_of, bound, bound_rope};
ghost use Rattle.script_lang.specs.Bindings.{Sets};
ghost use Rattle.script_lang.specs.Grammar.{verb_name};
ghost use Rattle.script_lang.specs.Errands.{meant, asked, errand_of, HasTape, SameValues, IsBuiltAlike, IsAskedOf};

use crate::keys::NameKey;
use crate::labels::Label;
use crate::scripts::{Line, RopeArg, Verb};
use indexmap::IndexMap;
use std::alloc::Global;
use std::marker::Model;
use voice_model::{Call, Key, KeyList, Reply, RopeList, Tapes};
use voice_units::{NoMemory, RopeId};

/// The variables of one caller and their ropes. Contracts see the list of its bindings.
#[derive(Drop)]
pub struct Env {
    ropes: IndexMap<NameKey, RopeId>,
}

impl Model for Env {
    ghost use Rattle.std.specs.Prelude.{List};
    ghost use Rattle.voice_model.specs.Follows.{Binding};
    ghost use Rattle.script_lang.specs.Bindings.{bindings};

    ghost Value = { List Binding };

    ghost view = { λ e. bindings e.ropes.entries };
}

// The rope that a reply gives.
fn given(reply: &Reply) -> Option<RopeId>
    ensures { result ≡ bound_rope reply.now }
{
    match reply {
        Reply::Rope(id, _) => Some(*id),
        Reply::Found(id, _) => Some(*id),
        _ => None,
    }
}

impl Env {
    /// No variable is set. It takes no memory.
    pub fn new(alloc: Global) -> Env
        ensures { result ≡ [] }
    {
        Env {
            ropes: IndexMap::new(alloc),
        }
    }

    #[tactic(auto, using(crate::proofs::Asking::bind_sets))]
    /// Sets the variable that the line binds to the rope of its reply, if it is `Rope` or `Found`. After want of memory each variable is as before.
    pub fn bind(&mut self, line: &Line, reply: &Reply) -> Result<(), NoMemory>
        ensures ok { (variables : List Binding) → SameValues self.old variables → OnOk result (SameValues self.new (bound line.now.bind (bound_rope reply.now) variables)) }
        ensures err { OnErr result (self.new ≡ self.old) }
    {
        let Some(name) = &line.bind else {
            return Ok(());
        };
        let Some(rope) = given(reply) else {
            return Ok(());
        };
        self.set(name, rope)
    }

    #[tactic(auto, using(crate::proofs::Asking::set_is))]
    fn set(&mut self, name: &Label, rope: RopeId) -> Result<(), NoMemory>
        ensures ok { OnOk result (Sets self.old name.now rope self.new) }
        ensures err { OnErr result (self.new ≡ self.old) }
    {
        self.ropes.insert(NameKey::of(name), rope)?;
        Ok(())
    }

    // The rope of a variable, 0 where no reply set it.
    #[tactic(auto, using(crate::proofs::Asking::value_is))]
    fn value(&self, name: &Label) -> RopeId
        ensures { result ≡ value_of self.now name.now }
    {
        match self.ropes.get(&NameKey::of(name)) {
            Some(rope) => *rope,
            None => RopeId(0),
        }
    }

    fn meant(&self, rope: &RopeArg) -> RopeId
        ensures { result ≡ meant self.now rope.now }
    {
        match rope {
            RopeArg::Id(id) => *id,
            RopeArg::Var(name) => self.value(name),
        }
    }

    fn all_meant(&self, alloc: Global, ropes: &[RopeArg]) -> Result<RopeList, NoMemory>
        ensures { IfOk result (λ ids. ids ≡ map (meant self.now) ropes.now) }
    {
        let mut ids = Vec::new(alloc);
        for rope in ropes {
            ids.push(self.meant(rope))?;
        }
        Ok(RopeList::of(ids))
    }
}

fn copied(alloc: Global, keys: &[Key]) -> Result<KeyList, NoMemory>
    ensures { IfOk result (λ l. l ≡ keys.now) }
{
    let keys = Vec::from_slice(alloc, keys)?;
    Ok(KeyList::of(keys))
}

// The call of a line, its variables standing as they do.
fn call_of(alloc: Global, line: &Line, env: &Env, tapes: &Tapes) -> Result<Option<Call>, NoMemory>
    requires { HasTape (length tapes.now) line.now.verb }
    ensures { IfOk result (λ call. call ≡ asked tapes.now line.now.verb env.now) }
{
    Ok(Some(match &line.verb {
        Verb::Record(tape) => Call::Record(tapes.whole(*tape)),
        Verb::Concat(args) => Call::Concat(env.all_meant(alloc, args.items())?),
        Verb::Sub(rope, start, len) => Call::Sub(env.meant(rope), *start, *len),
        Verb::Replace(rope, start, len, with) => {
            Call::Replace(env.meant(rope), *start, *len, env.meant(with.get()))
        }
        Verb::Length(rope) => Call::Length(env.meant(rope)),
        Verb::Retain(class, key, rope, note) => {
            Call::Retain(*class, key.get().key(), env.meant(rope), *note.get())
        }
        Verb::Forget(class, key) => Call::Forget(*class, key.key()),
        Verb::Lookup(class, key) => Call::Lookup(*class, key.key()),
        Verb::Census(keys) => Call::Census(copied(alloc, keys.items())?),
        Verb::Advance(moment) => Call::Advance(*moment),
        Verb::Sweep(limit) => Call::Sweep(*limit),
        Verb::Describe(rope) => Call::Describe(env.meant(rope)),
        Verb::Queue(lane, rope, start, len) => Call::Play(*lane, env.meant(rope), *start, *len),
        Verb::Play(lane, rope, start, len) => Call::Play(*lane, env.meant(rope), *start, *len),
        Verb::Serve(_) => return Ok(None),
        Verb::Stop(lane) => Call::Stop(*lane),
        Verb::Begin(lane) => Call::Begin(*lane),
        Verb::Add(lane, tape) => Call::Add(*lane, tapes.whole(*tape)),
        Verb::End(lane) => Call::End(*lane),
        Verb::Levels(rope) => Call::Levels(env.meant(rope)),
    }))
}

#[tactic(auto, using(crate::proofs::Asking::asked_same, crate::proofs::Asking::built_alike, crate::proofs::Asking::asked_of))]
/// The call that a line asks for, its variables replaced by their ropes: none exactly where it only serves a lane.
pub fn resolve(
    alloc: Global,
    line: &Line,
    env: &Env,
    tapes: &Tapes,
) -> Result<Option<Call>, NoMemory>
    requires { HasTape (length tapes.now) line.now.verb }
    ensures value { (variables : List Binding) → SameValues env.now variables → IfOk result (λ call. call ≡ (errand_of tapes.now line.now).asks variables) }
    ensures built { IfOk result (IsBuiltAlike (verb_name line.now.verb)) }
    ensures asked { IfOk result IsAskedOf }
{
    call_of(alloc, line, env, tapes)
}
