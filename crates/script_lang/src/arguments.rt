//! Reading the words behind a verb, one kind of word at a time.

ghost use Rattle.std.specs.Prelude.{◌≡◌, ℕ, ◌<◌, ◌≤◌, ◌^◌, ◌+◌, length, IfSome, IfOk};
ghost use Rattle.script_lang.specs.Forms.{class_of, hex_value, hex_of, note_of};
ghost use Rattle.script_lang.specs.declared.arguments.Unread.TheVariants as unread;
ghost use Rattle.script_lang.specs.Arguments.{Reads, Says, next, rope_at, rope_of, number_at, file_at, key_at, class_at, note_at, key_of, ropes_of, keys_of, ReadsAll, file_of, ReadsWord};

use crate::forms;
use crate::labels::{Boxed, Label};
use crate::numbers::number;
use crate::scripts::RopeArg;
use crate::words::Words;
use std::alloc::{AllocFailed, Global};
use voice_model::{Class, Key, Note};
use voice_units::{Lane, Moment, NoMemory, RopeId};

/// Why words are not read.
#[derive(Clone, Copy, Debug, PartialEq, Eq)]
pub enum Unread {
    Arguments,
    NoMemory,
}

impl<T: Drop> From<AllocFailed<T>> for Unread {
    ghost from_gives = { λ _ e. e ≡ unread.NoMemory };

    fn from(_: AllocFailed<T>) -> Self {
        Unread::NoMemory
    }
}

impl From<NoMemory> for Unread {
    ghost from_gives = { λ _ e. e ≡ unread.NoMemory };

    fn from(_: NoMemory) -> Self {
        Unread::NoMemory
    }
}

// The rope that the word means.
#[tactic(auto, unfolding(crate::specs::Arguments::rope_of))]
fn rope_of(alloc: Global, word: &[u8]) -> Result<RopeArg, Unread>
    ensures { Says result (rope_of word.now) }
{
    if forms::is_var(word) {
        let name = Label::new(alloc, word)?;
        return Ok(RopeArg::Var(name));
    }
    match number(word, 1 << 48) {
        Some(id) => Ok(RopeArg::Id(RopeId(id))),
        None => Err(Unread::Arguments),
    }
}

#[tactic(auto, unfolding(crate::specs::Arguments::file_of))]
fn file_of(alloc: Global, word: &[u8]) -> Result<Label, Unread>
    ensures { Says result (file_of word.now) }
{
    if !forms::is_file(word) {
        return Err(Unread::Arguments);
    }
    let name = Label::new(alloc, word)?;
    Ok(name)
}

// A key that is kept in the line.
#[tactic(auto, unfolding(crate::specs::Arguments::key_of))]
fn label_of(alloc: Global, word: &[u8]) -> Result<Label, Unread>
    ensures { Says result (key_of word.now) }
{
    if !forms::is_key(word) {
        return Err(Unread::Arguments);
    }
    let key = Label::new(alloc, word)?;
    Ok(key)
}

#[tactic(auto, unfolding(crate::specs::Arguments::key_of))]
fn key_of(word: &[u8]) -> Option<Key>
    ensures { result ≡ key_of word.now }
{
    if !forms::is_key(word) {
        return None;
    }
    let Ok(key) = Key::new(word) else {
        unreachable!();
    };
    Some(key)
}

#[tactic(auto, unfolding(crate::specs::Forms::class_of))]
fn class_of(word: &[u8]) -> Option<Class>
    ensures { result ≡ class_of word.now }
{
    if word == b"held".as_slice() {
        return Some(Class::Held);
    }
    if word == b"until".as_slice() {
        return Some(Class::Until);
    }
    if word == b"listed".as_slice() {
        return Some(Class::Listed);
    }
    None
}

fn hex_value(c: u8) -> Option<u8>
    ensures value { result ≡ hex_value c }
    ensures small { IfSome result (λ h. h < 16) }
{
    match c {
        b'0'..=b'9' => Some(c - b'0'),
        b'a'..=b'f' => Some(c - 87),
        _ => None,
    }
}

// The bytes that pairs of hex digits write.
fn hex_of(word: &[u8]) -> Option<Note>
    requires { length word.now ≤ 256 }
    ensures { result ≡ hex_of word.now }
{
    if word.len() % 2 != 0 {
        return None;
    }
    let mut bytes = [0; 128];
    let count = word.len() / 2;
    for i in 0..count {
        let Some(high) = hex_value(word[2 * i]) else {
            return None;
        };
        let Some(low) = hex_value(word[2 * i + 1]) else {
            return None;
        };
        bytes[i] = 16 * high + low;
    }
    let Ok(note) = Note::new(&bytes[..count]) else {
        unreachable!();
    };
    Some(note)
}

#[tactic(auto, unfolding(crate::specs::Forms::note_of))]
fn note_of(word: &[u8]) -> Option<Note>
    ensures { result ≡ note_of word.now }
{
    if word == b"-".as_slice() {
        let Ok(note) = Note::new(&[]) else {
            unreachable!();
        };
        return Some(note);
    }
    if word.is_empty() || word.len() > 256 {
        return None;
    }
    hex_of(word)
}

impl<'a> Words<'a> {
    // The next word, which has to be there.
    pub fn need(&mut self) -> Result<&'a [u8], Unread>
        ensures { ReadsWord result (next self.old) self.new }
    {
        match self.word() {
            Some(word) => Ok(word),
            None => Err(Unread::Arguments),
        }
    }

    #[tactic(auto, unfolding(crate::specs::Arguments::rope_at))]
    pub fn rope(&mut self, alloc: Global) -> Result<RopeArg, Unread>
        ensures { Reads result (rope_at self.old) self.new }
    {
        let word = self.need()?;
        rope_of(alloc, word)
    }

    #[tactic(auto, unfolding(crate::specs::Arguments::number_at))]
    pub fn number(&mut self, most: u64) -> Result<u64, Unread>
        ensures read { Reads result (number_at most self.old) self.new }
        ensures most { IfOk result (λ n. n ≤ most) }
    {
        let word = self.need()?;
        match number(word, most) {
            Some(n) => Ok(n),
            None => Err(Unread::Arguments),
        }
    }

    // A START or LEN.
    pub fn count(&mut self) -> Result<u32, Unread>
        ensures { Reads result (number_at 4294967295 self.old) self.new }
    {
        let n = self.number(u64::from(u32::MAX))?;
        Ok(n as u32)
    }

    #[tactic(auto, unfolding(crate::specs::Arguments::file_at))]
    pub fn file(&mut self, alloc: Global) -> Result<Label, Unread>
        ensures { Reads result (file_at self.old) self.new }
    {
        let word = self.need()?;
        file_of(alloc, word)
    }

    #[tactic(auto, unfolding(crate::specs::Arguments::key_at))]
    pub fn key(&mut self, alloc: Global) -> Result<Label, Unread>
        ensures { Reads result (key_at self.old) self.new }
    {
        let word = self.need()?;
        label_of(alloc, word)
    }

    #[tactic(auto, unfolding(crate::specs::Arguments::class_at))]
    pub fn class(&mut self) -> Result<Class, Unread>
        ensures { Reads result (class_at self.old) self.new }
    {
        let word = self.need()?;
        match class_of(word) {
            Some(class) => Ok(class),
            None => Err(Unread::Arguments),
        }
    }

    #[tactic(auto, unfolding(crate::specs::Arguments::note_at))]
    pub fn note(&mut self, alloc: Global) -> Result<Boxed<Note>, Unread>
        ensures { Reads result (note_at self.old) self.new }
    {
        let word = self.need()?;
        let Some(note) = note_of(word) else {
            return Err(Unread::Arguments);
        };
        let note = Boxed::new(alloc, note)?;
        Ok(note)
    }

    pub fn lane(&mut self) -> Result<Lane, Unread>
        ensures { Reads result (number_at 15 self.old) self.new }
    {
        let n = self.number(15)?;
        Ok(Lane(n as u16))
    }

    pub fn moment(&mut self) -> Result<Moment, Unread>
        ensures { Reads result (number_at (2 ^ 40) self.old) self.new }
    {
        let n = self.number(1 << 40)?;
        Ok(Moment(n))
    }

    pub fn limit(&mut self) -> Result<u16, Unread>
        ensures { Reads result (number_at 65535 self.old) self.new }
    {
        let n = self.number(65535)?;
        Ok(n as u16)
    }

    // All that is left.
    pub fn ropes(&mut self, alloc: Global) -> Result<Vec<RopeArg>, Unread>
        ensures { ReadsAll result (ropes_of self.old) self.new }
    {
        let mut all = Vec::new(alloc);
        'words: while let Some(word) = self.word() {
            let x = match rope_of(alloc, word) {
                Ok(x) => x,
                Err(Unread::Arguments) => return Err(Unread::Arguments),
                Err(Unread::NoMemory) => return Err(Unread::NoMemory),
            };
            all.push(x)?;
        }
        Ok(all)
    }

    // All that is left.
    pub fn keys(&mut self, alloc: Global) -> Result<Vec<Key>, Unread>
        ensures { ReadsAll result (keys_of self.old) self.new }
    {
        let mut all = Vec::new(alloc);
        'words: while let Some(word) = self.word() {
            let Some(x) = key_of(word) else {
                return Err(Unread::Arguments);
            };
            all.push(x)?;
        }
        Ok(all)
    }
}
