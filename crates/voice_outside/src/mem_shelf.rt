//! A shelf in memory, for tests.

ghost use Rattle.std.specs.Prelude.{ℕ, List, Option, Some, None, ◌≡◌, ◌≤◌, ◌+◌, ◌<◌, ◌↔◌, map, length, MatchOption, IsErrOf, IfOk, IfSome, OnOk, OnErr, is_some, Contains, [], true};
ghost use Rattle.std.specs.FinMap as files;
ghost use Rattle.voice_outside.specs.Files.{named, found, SameElsewhere};
ghost use Rattle.voice_outside.specs.Counters.{next_count, faults_after};
ghost use Rattle.voice_outside.specs.Causes.{HasCause, is_failed};
ghost use Rattle.voice_outside.specs.Memory.{FailsAsListed};

use crate::errors::OutsideError;
use crate::listed::next_call_fails;
use crate::shelf::Shelf;
use std::alloc::Global;
use std::marker::Model;
use voice_units::Name;

/// Files in memory. It tells them, and answers `Failed` exactly on the listed calls, counted from 1.
#[derive(Drop)]
pub struct MemShelf {
    alloc: Global,
    files: Vec<(Name, Vec<u8>)>,
    fails: Vec<u64>,
    calls: u64,
    faults: u64,
}

impl Model for MemShelf {
    ghost use Rattle.voice_outside.specs.Memory.{ShelfValue, shelf_code};
    ghost use Rattle.voice_outside.specs.Files.{named};
    ghost use Rattle.std.specs.FinMap.{from_entries};

    ghost Value = { ShelfValue };

    ghost coded = { shelf_code };

    ghost view = { λ a. record { files = from_entries (named a.files.items); fails = a.fails.items; calls = a.calls; faults = a.faults } };
}

// The bytes under the first such name.
fn find<'a>(files: &'a [(Name, Vec<u8>)], name: &Name) -> Option<&'a [u8]>
    ensures { MatchOption result (found name.now (named files.now) ≡ None) (λ bytes. found name.now (named files.now) ≡ Some bytes.now) }
{
    for file in files {
        if name.bytes() == file.0.bytes() {
            return Some(&file.1);
        }
    }
    None
}

impl MemShelf {
    ghost use Rattle.std.specs.FinMap.{from_entries};

    /// A shelf of these files, of which the first counts where two have one name. The calls whose numbers are listed fail.
    pub fn new(alloc: Global, files: Vec<(Name, Vec<u8>)>, fails: Vec<u64>) -> MemShelf
        ensures { result ≡ record { files = from_entries (named files.items); fails = fails.items; calls = 0; faults = 0 } }
    {
        MemShelf {
            alloc,
            files,
            fails,
            calls: 0,
            faults: 0,
        }
    }
}

impl Shelf for MemShelf {
    ghost files = { λ s. Some s.files };

    ghost faults = { λ s. s.faults };

    fn get(&mut self, name: &Name) -> Result<Option<Vec<u8>>, OutsideError>
        ensures told { IfOk result (λ found. MatchOption found (files.get self.old.files name.now ≡ None) (λ v. files.get self.old.files name.now ≡ Some v.items)) }
        ensures kept { self.new.files ≡ self.old.files }
        ensures cause { HasCause self.old.faults self.new.faults result }
        ensures exactly { FailsAsListed self.old.fails self.old.calls result }
        ensures calls { self.new.calls ≡ next_count self.old.calls }
        ensures faults { self.new.faults ≡ faults_after (is_failed result) self.old.faults }
        ensures fails { self.new.fails ≡ self.old.fails }
    {
        if next_call_fails(&self.fails, &mut self.calls, &mut self.faults) {
            return Err(OutsideError::Failed);
        }
        let Some(bytes) = find(&self.files, name) else {
            return Ok(None);
        };
        let copy = bytes.to_vec(self.alloc)?;
        Ok(Some(copy))
    }

    fn put(&mut self, name: &Name, bytes: &[u8]) -> Result<(), OutsideError>
        ensures told { OnOk result (self.new.files ≡ files.insert self.old.files name.now bytes.now) }
        ensures err { OnErr result (self.new.files ≡ self.old.files) }
        ensures cause { HasCause self.old.faults self.new.faults result }
        ensures exactly { FailsAsListed self.old.fails self.old.calls result }
        ensures calls { self.new.calls ≡ next_count self.old.calls }
        ensures faults { self.new.faults ≡ faults_after (is_failed result) self.old.faults }
        ensures fails { self.new.fails ≡ self.old.fails }
    {
        if next_call_fails(&self.fails, &mut self.calls, &mut self.faults) {
            return Err(OutsideError::Failed);
        }
        let bytes = bytes.to_vec(self.alloc)?;
        self.files.insert(0, (*name, bytes))?;
        Ok(())
    }
}
