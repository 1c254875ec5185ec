//! Where there is talk, in bytes that come in pieces.

ghost use Rattle.std.specs.Prelude.{◌≡◌, ◌+◌, ◌-◌, ◌≤◌, ◌<◌, ◌^◌, ℕ, List, [], ◌++◌, length, false, IsTrue, OnOk, OnErr, IfOk};
ghost use Rattle.voice_model.specs.Talk.{talk};
ghost use Rattle.silence_scan.specs.Scan.{HasScanned, fed_to};

use super::loudness::loud_sum;
use super::runs::Runs;
use std::alloc::Global;
use std::marker::Model;
use voice_model::TalkList;
use voice_units::NoMemory;

// The samples of a whole window.
const WINDOW: u32 = 160;

// A window is quiet up to this loudness for each of its samples.
const QUIET: u32 = 6;

/// Finds where there is talk, however the bytes are cut into pieces. Once memory was wanting it is spent.
#[derive(Drop)]
pub struct Scanner {
    runs: Runs,
    count: u32,
    loudness: u64,
    spent: bool,
}

impl Model for Scanner {
    ghost use Rattle.std.specs.Prelude.{◌+◌, ◌*◌, ◌<◌, ◌≤◌, ◌^◌};
    ghost use Rattle.silence_scan.specs.Scan.{Scan, scan_of, reach};

    ghost Value = { Scan };

    ghost view = { λ a. scan_of a.runs a.count a.loudness a.spent };

    ghost invariant = { λ a. (a.count < 160) × (a.loudness ≤ 127 * a.count) × (reach a.runs + a.count ≤ 2 ^ 30) };
}

impl Scanner {
    /// A scanner that has heard nothing. It takes no memory.
    pub fn new(alloc: Global) -> Scanner
        ensures scanned { HasScanned [] result }
        ensures fresh { result.spent ≡ false }
        ensures empty { fed_to result ≡ 0 }
    {
        Scanner {
            runs: Runs::new(alloc),
            count: 0,
            loudness: 0,
            spent: false,
        }
    }

    // How many samples the window that is not yet whole still takes, 1 to 160.
    fn room(&self) -> usize
        ensures left { result ≡ 160 - self.now.count }
        ensures some { 0 < result }
    {
        (WINDOW - self.count) as usize
    }

    fn is_spent(&self) -> bool
        ensures { result ≡ self.now.spent }
    {
        self.spent
    }

    // Samples that all belong to the window that is not yet whole.
    fn add(&mut self, part: &[u8]) -> Result<(), NoMemory>
        requires one_window { self.old.count + length part.now ≤ 160 }
        requires room { fed_to self.old + length part.now ≤ 2 ^ 30 }
        ensures scanned { OnOk result ((before : List ℕ) → HasScanned before self.old → HasScanned (before ++ part.now) self.new) }
        ensures fresh { OnOk result (self.new.spent ≡ self.old.spent) }
        ensures fed { OnOk result (fed_to self.new ≡ fed_to self.old + length part.now) }
        ensures spent { OnErr result (IsTrue self.new.spent) }
    {
        let loudness = self.loudness + loud_sum(part);
        let count = self.count + part.len() as u32;
        if count < WINDOW {
            self.loudness = loudness;
            self.count = count;
            return Ok(());
        }
        self.loudness = 0;
        self.count = 0;
        let quiet = loudness <= u64::from(QUIET * WINDOW);
        let Ok(()) = self.runs.add_window(quiet, WINDOW) else {
            self.spent = true;
            return Err(NoMemory);
        };
        Ok(())
    }

    /// Hears further bytes, at most 2^30 in all. After want of memory it answers `NoMemory` from then on.
    pub fn feed(&mut self, bytes: &[u8]) -> Result<(), NoMemory>
        requires { self.old.spent ≡ false → fed_to self.old + length bytes.now ≤ 2 ^ 30 }
        ensures scanned { OnOk result ((before : List ℕ) → HasScanned before self.old → HasScanned (before ++ bytes.now) self.new) }
        ensures fresh { OnOk result (self.new.spent ≡ false) }
        ensures fed { OnOk result (fed_to self.new ≡ fed_to self.old + length bytes.now) }
        ensures spent { OnErr result (IsTrue self.new.spent) }
        ensures stays_spent { IsTrue self.old.spent → OnOk result ⊥ }
    {
        if self.is_spent() {
            return Err(NoMemory);
        }
        let mut at = 0;
        'parts: while at < bytes.len() {
            let n = self.room().min(bytes.len() - at);
            self.add(&bytes[at..at + n])?;
            at += n;
        }
        Ok(())
    }

    /// Where there is talk in all the bytes that it heard.
    pub fn finish(self) -> Result<TalkList, NoMemory>
        ensures answer { IfOk result (λ found. (all : List ℕ) → HasScanned all self → found ≡ talk all) }
        ensures stays_spent { IsTrue self.spent → OnOk result ⊥ }
    {
        if self.spent {
            return Err(NoMemory);
        }
        let count = self.count;
        let loudness = self.loudness;
        let mut runs = self.runs;
        if count == 0 {
            return Ok(TalkList::of(runs.finish()?));
        }
        runs.add_window(loudness <= u64::from(QUIET * count), count)?;
        Ok(TalkList::of(runs.finish()?))
    }
}
