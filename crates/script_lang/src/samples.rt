//! The sample files of a script, by first mention.

ghost use Rattle.std.specs.Prelude.{◌≡◌, ℕ, [], true, ◌+◌, ◌≤◌, ◌<◌, ◌^◌, length, IfOk, OnOk};
ghost use Rattle.script_lang.specs.Samples.{place_of, tape_of};
ghost use Rattle.script_lang.specs.Parts.{mention};

use crate::labels::Label;
use indexmap::IndexSet;
use std::alloc::Global;
use std::marker::Model;
use voice_units::{Name, NoMemory};

/// The sample files that lines named so far, each once, in the order of their first mention.
#[derive(Drop)]
pub struct Samples {
    names: IndexSet<Label>,
}

impl Model for Samples {
    ghost use Rattle.std.specs.Prelude.{List, ℕ};

    ghost Value = { List (List ℕ) };

    ghost view = { λ s. s.names.keys };
}

impl Samples {
    /// No sample file.
    pub fn new(alloc: Global) -> Samples
        ensures { result ≡ [] }
    {
        Samples {
            names: IndexSet::new(alloc),
        }
    }

    /// The number of the tape of a sample file: its place, or the next one.
    #[tactic(auto, using(crate::proofs::Names::place_is))]
    pub fn tape_of(&self, name: &Label) -> u32
        requires { length self.now < 2 ^ 32 }
        ensures { result ≡ tape_of self.now name.now }
    {
        let place = self.names.get_index_of(name);
        place.unwrap_or(self.names.len()) as u32
    }

    /// How many there are.
    pub fn count(&self) -> usize
        ensures { result ≡ length self.now }
    {
        self.names.len()
    }

    /// Adds a sample file, if it is new. One that is known needs no look-up.
    #[tactic(auto, using(crate::proofs::Names::mention_is, crate::proofs::Names::mention_grows))]
    pub fn mention(&mut self, name: Option<Label>, known: bool) -> Result<(), NoMemory>
        requires { known ≡ true → mention self.old name ≡ self.old }
        ensures ok { OnOk result (self.new ≡ mention self.old name) }
        ensures grows { length self.new ≤ length self.old + 1 }
    {
        if known {
            return Ok(());
        }
        if let Some(name) = name {
            self.names.insert(name)?;
        }
        Ok(())
    }

    /// Their names.
    pub fn names(&self, alloc: Global) -> Result<Vec<Name>, NoMemory>
        ensures { IfOk result (λ v. v.items ≡ self.now) }
    {
        let keys = self.names.as_slice();
        let mut names = Vec::with_capacity(alloc, keys.len())?;
        for key in keys {
            names.push(key.name())?;
        }
        Ok(names)
    }
}
