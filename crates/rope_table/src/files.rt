//! How many blocks of each file have a count, and how many files live ropes have.

ghost use Rattle.std.specs.Prelude.{◌≡◌, ℕ, ◌+◌, ◌^◌, ◌<◌, ◌≤◌, ◌==◌, true, false, List, length, nat_lt, IfOk, OnOk, if◌then◌else◌, cond};
ghost use Rattle.std.specs.HashMap.{spare};
ghost use Rattle.std.specs.List.{sum_by};
ghost use Rattle.voice_units.specs.Blocks.{BlockPair};
ghost use Rattle.rope_table.specs.Table.{has_file, files_of};
ghost use Rattle.rope_table.specs.Inside.{once, count_changed};
ghost use Rattle.rope_table.specs.Files.{no_file, file_of, is_filed, file_once, files_live};

use std::alloc::Global;
use std::collections::HashMap;
use std::marker::Model;
use voice_units::{NoMemory, RopeId};

/// How many blocks of a file have a count, and how many of these live ropes have.
#[derive(Clone, Copy)]
pub(crate) struct FileCount {
    counted: u64,
    live: u64,
}

/// The counts of files. Contracts see the entries, for how many more there is room, and how many are of files that live ropes have.
#[derive(Drop)]
pub(crate) struct FileCounts {
    files: HashMap<RopeId, FileCount>,
    live: u64,
}

impl Model for FileCounts {
    ghost use Rattle.std.specs.HashMap.{spare};
    ghost use Rattle.rope_table.specs.Files.{Filed, IsFiled};

    ghost Value = { Filed };

    ghost view = { λ f. record { files = f.files.entries; spare = spare f.files } };

    ghost invariant = { λ f. IsFiled f.files f.live };
}

// The count of a file of which no block has one.
fn no_blocks() -> FileCount
    ensures { result ≡ no_file }
{
    FileCount {
        counted: 0,
        live: 0,
    }
}

// A file has this count from now on.
fn put(files: &mut HashMap<RopeId, FileCount>, file: RopeId, count: FileCount)
    requires { is_filed files.old.entries file ≡ false → 0 < spare files.old }
    ensures counts { (f : ℕ) → file_of files.new.entries f ≡ cond (file == f) count (file_of files.old.entries f) }
    ensures spare { spare files.old ≤ spare files.new + (if is_filed files.old.entries file then 0 else 1) }
    ensures live { files_live files.new.entries + file_once (file_of files.old.entries file) ≡ files_live files.old.entries + file_once count }
{
    let Some(place) = files.get_mut(&file) else {
        let _entered = files.insert(file, count);
        return;
    };
    *place = count;
}

// The count of a file of which a block gets a count.
fn changed(before: FileCount, entered: bool, was: bool, is: bool) -> FileCount
    requires fits { before.counted < 2 ^ 63 }
    requires live_fits { before.live < 2 ^ 63 }
    requires there { once was ≤ before.live }
    ensures { result ≡ count_changed entered was is before }
{
    FileCount {
        counted: before.counted + u64::from(entered),
        live: before.live + u64::from(is) - u64::from(was),
    }
}

// A block of a file gets a count. The counts that the file had and has.
fn change(
    files: &mut HashMap<RopeId, FileCount>,
    file: RopeId,
    entered: bool,
    was: bool,
    is: bool,
) -> (FileCount, FileCount)
    requires room { is_filed files.old.entries file ≡ false → 0 < spare files.old }
    requires fits { (file_of files.old.entries file).counted < 2 ^ 63 }
    requires live_fits { (file_of files.old.entries file).live < 2 ^ 63 }
    requires there { once was ≤ (file_of files.old.entries file).live }
    ensures before { result.0 ≡ file_of files.old.entries file }
    ensures after { result.1 ≡ count_changed entered was is result.0 }
    ensures counts { (f : ℕ) → file_of files.new.entries f ≡ cond (file == f) result.1 (file_of files.old.entries f) }
    ensures spare { spare files.old ≤ spare files.new + (if is_filed files.old.entries file then 0 else 1) }
    ensures live { files_live files.new.entries + file_once result.0 ≡ files_live files.old.entries + file_once result.1 }
{
    let Some(place) = files.get_mut(&file) else {
        let none = no_blocks();
        let first = changed(none, entered, was, is);
        let _entered = files.insert(file, first);
        return (none, first);
    };
    let before = *place;
    let after = changed(before, entered, was, is);
    *place = after;
    (before, after)
}

// How many files live ropes have, as the count of one of them changes.
fn recounted(live: u64, before: FileCount, after: FileCount) -> u64
    requires fits { live + file_once after < 2 ^ 64 }
    requires there { file_once before ≤ live + file_once after }
    ensures { result + file_once before ≡ live + file_once after }
{
    let more = live + u64::from(after.live > 0);
    more - u64::from(before.live > 0)
}

// A file has no count any longer.
fn take(files: &mut HashMap<RopeId, FileCount>, file: RopeId)
    ensures counts { (f : ℕ) → file_of files.new.entries f ≡ cond (file == f) no_file (file_of files.old.entries f) }
    ensures spare { spare files.old ≤ spare files.new }
    ensures live { files_live files.new.entries + file_once (file_of files.old.entries file) ≡ files_live files.old.entries }
{
    let _taken = files.remove(&file);
}

impl FileCounts {
    /// No counts. It takes no memory.
    pub(crate) fn new(alloc: Global) -> FileCounts
        ensures { (f : ℕ) → file_of result.files f ≡ no_file }
    {
        FileCounts {
            files: HashMap::new(alloc),
            live: 0,
        }
    }

    /// Equal counts.
    pub(crate) fn copy(&self) -> Result<FileCounts, NoMemory>
        ensures { IfOk result (λ copy. (f : ℕ) → file_of copy.files f ≡ file_of self.now.files f) }
    {
        let files = self.files.clone()?;
        Ok(FileCounts {
            files,
            live: self.live,
        })
    }

    /// Makes room for n more files.
    pub(crate) fn reserve(&mut self, n: u32) -> Result<(), NoMemory>
        ensures counts { (f : ℕ) → file_of self.new.files f ≡ file_of self.old.files f }
        ensures room { OnOk result (n ≤ self.new.spare) }
        ensures kept { self.old.spare ≤ self.new.spare }
    {
        self.files.reserve(n as usize)?;
        Ok(())
    }

    // The count of a file.
    fn get(&self, file: RopeId) -> FileCount
        ensures { result ≡ file_of self.now.files file }
    {
        let Some(count) = self.files.get(&file) else {
            return no_blocks();
        };
        *count
    }

    // A file has this count from now on.
    fn put(&mut self, file: RopeId, count: FileCount)
        requires { is_filed self.old.files file ≡ false → 0 < self.old.spare }
        ensures counts { (f : ℕ) → file_of self.new.files f ≡ cond (file == f) count (file_of self.old.files f) }
        ensures spare { self.old.spare ≤ self.new.spare + (if is_filed self.old.files file then 0 else 1) }
    {
        let _most = self.files.len();
        let before = self.get(file);
        put(&mut self.files, file, count);
        self.live = recounted(self.live, before, count);
    }

    // A file has no count any longer.
    fn take(&mut self, file: RopeId)
        ensures counts { (f : ℕ) → file_of self.new.files f ≡ cond (file == f) no_file (file_of self.old.files f) }
        ensures spare { self.old.spare ≤ self.new.spare }
    {
        let before = self.get(file);
        take(&mut self.files, file);
        if before.live > 0 {
            self.live -= 1;
        }
    }

    /// A block of a file gets a count, which it had or not (`entered`), and which a live rope had (`was`) or has now (`is`).
    pub(crate) fn change(&mut self, file: RopeId, entered: bool, was: bool, is: bool)
        requires room { is_filed self.old.files file ≡ false → 0 < self.old.spare }
        requires fits { (file_of self.old.files file).counted < 2 ^ 63 }
        requires live_fits { (file_of self.old.files file).live < 2 ^ 63 }
        requires there { once was ≤ (file_of self.old.files file).live }
        ensures counted { (f : ℕ) → (file_of self.new.files f).counted ≡ (file_of self.old.files f).counted + cond (file == f) (once entered) 0 }
        ensures live { (f : ℕ) → (file_of self.new.files f).live + cond (file == f) (once was) 0 ≡ (file_of self.old.files f).live + cond (file == f) (once is) 0 }
        ensures spare { self.old.spare ≤ self.new.spare + (if is_filed self.old.files file then 0 else 1) }
    {
        if !entered && was == is {
            return;
        }
        let _most = self.files.len();
        let (before, after) = change(&mut self.files, file, entered, was, is);
        self.live = recounted(self.live, before, after);
    }

    /// A block of a file has no count any longer, and a live rope had it or not.
    pub(crate) fn leave(&mut self, file: RopeId, was: bool)
        requires counted { 1 ≤ (file_of self.old.files file).counted }
        requires there { once was ≤ (file_of self.old.files file).live }
        requires last { (file_of self.old.files file).counted ≡ 1 → (file_of self.old.files file).live ≡ once was }
        ensures counted { (f : ℕ) → (file_of self.new.files f).counted + cond (file == f) 1 0 ≡ (file_of self.old.files f).counted }
        ensures live { (f : ℕ) → (file_of self.new.files f).live + cond (file == f) (once was) 0 ≡ (file_of self.old.files f).live }
        ensures spare { self.old.spare ≤ self.new.spare }
    {
        let before = self.get(file);
        if before.counted == 1 {
            self.take(file);
            return;
        }
        let after = FileCount {
            counted: before.counted - 1,
            live: before.live - u64::from(was),
        };
        self.put(file, after);
    }

    /// How many files live ropes have.
    pub(crate) fn live(&self) -> u64
        ensures { (pairs : List BlockPair) → ((f : ℕ) → has_file pairs f ≡ nat_lt 0 (file_of self.now.files f).live) → result ≡ length (files_of pairs) }
    {
        let _unique = self.files.len();
        self.live
    }
}
