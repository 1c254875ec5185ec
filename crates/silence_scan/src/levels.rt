//! The greatest loudness of each window, of bytes that come in pieces.

ghost use Rattle.std.specs.Prelude.{◌≡◌, ◌+◌, ◌-◌, ◌≤◌, ◌<◌, ℕ, List, [], ◌++◌, length, false, IsTrue, OnOk, OnErr, IfOk};
ghost use Rattle.voice_model.specs.Talk.{peaks};
ghost use Rattle.silence_scan.specs.Levels.{HasHeard};

use super::loudness::{WINDOW, peak};
use std::alloc::Global;
use std::marker::Model;
use voice_model::PeakList;
use voice_units::NoMemory;

/// Finds the greatest loudness in each window of 160 bytes, however the bytes are cut into pieces. Once memory was wanting it is spent.
#[derive(Drop)]
pub struct Leveller {
    peaks: Vec<u8>,
    count: usize,
    most: u8,
    spent: bool,
}

impl Model for Leveller {
    ghost use Rattle.std.specs.Prelude.{◌<◌};
    ghost use Rattle.silence_scan.specs.Levels.{Levels, levels_of};

    ghost Value = { Levels };

    ghost view = { λ a. levels_of a.peaks.items a.count a.most a.spent };

    ghost invariant = { λ a. a.count < 160 };
}

impl Leveller {
    /// A leveller that has heard nothing. It takes no memory.
    pub fn new(alloc: Global) -> Leveller
        ensures heard { HasHeard [] result }
        ensures fresh { result.spent ≡ false }
    {
        Leveller {
            peaks: Vec::new(alloc),
            count: 0,
            most: 0,
            spent: false,
        }
    }

    // How many samples the window that is not yet whole still takes, 1 to 160.
    fn room(&self) -> usize
        ensures left { result ≡ 160 - self.now.count }
        ensures some { 0 < result }
    {
        WINDOW - self.count
    }

    fn is_spent(&self) -> bool
        ensures { result ≡ self.now.spent }
    {
        self.spent
    }

    // Samples that all belong to the window that is not yet whole.
    fn add(&mut self, part: &[u8]) -> Result<(), NoMemory>
        requires { self.old.count + length part.now ≤ 160 }
        ensures heard { OnOk result ((before : List ℕ) → HasHeard before self.old → HasHeard (before ++ part.now) self.new) }
        ensures fresh { OnOk result (self.new.spent ≡ self.old.spent) }
        ensures spent { OnErr result (IsTrue self.new.spent) }
    {
        let most = self.most.max(peak(part));
        let count = self.count + part.len();
        if count < WINDOW {
            self.most = most;
            self.count = count;
            return Ok(());
        }
        self.most = 0;
        self.count = 0;
        let Ok(()) = self.peaks.push(most) else {
            self.spent = true;
            return Err(NoMemory);
        };
        Ok(())
    }

    /// Hears further bytes. After want of memory it answers `NoMemory` from then on.
    pub fn feed(&mut self, bytes: &[u8]) -> Result<(), NoMemory>
        ensures heard { OnOk result ((before : List ℕ) → HasHeard before self.old → HasHeard (before ++ bytes.now) self.new) }
        ensures fresh { OnOk result (self.new.spent ≡ false) }
        ensures spent { OnErr result (IsTrue self.new.spent) }
        ensures stays_spent { IsTrue self.old.spent → OnOk result ⊥ }
    {
        if self.is_spent() {
            return Err(NoMemory);
        }
        let mut at = 0;
        'parts: while at < bytes.len() {
            let n = self.room().min(bytes.len() - at);
            self.add(&bytes[at..at + n])?;
            at += n;
        }
        Ok(())
    }

    /// The greatest loudness of each window of all the bytes that it heard, the last window perhaps shorter.
    pub fn finish(self) -> Result<PeakList, NoMemory>
        ensures answer { IfOk result (λ found. (all : List ℕ) → HasHeard all self → found ≡ peaks all) }
        ensures stays_spent { IsTrue self.spent → OnOk result ⊥ }
    {
        if self.spent {
            return Err(NoMemory);
        }
        let count = self.count;
        let most = self.most;
        let mut peaks = self.peaks;
        if count > 0 {
            peaks.push(most)?;
        }
        Ok(PeakList::of(peaks))
    }
}
