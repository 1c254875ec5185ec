//! A generated script, run, and the one line that tells what it came to.

ghost use Rattle.std.specs.Prelude.{ℕ, [], ◌≡◌, ◌≤◌, ◌%◌, ◌^◌, ◌⊎◌, ◌++◌, true, false, IfOk, IfErr, OnOk, Option, length};
ghost use Rattle.std.specs.Arc.{arc_value};
ghost use Rattle.voice_outside.specs.Counters.{HasRisen};
ghost use Rattle.voice_outside.specs.Files.{Files};
ghost use Rattle.script_lang.specs.Verbs.{is_built_verb};
ghost use Rattle.script_lang.specs.Whole.{IsWhole};
ghost use Rattle.voice_store.specs.Facts.{GoesOn};
ghost use Rattle.voice_main.specs.Outside.{outside, IsUnchanged};
ghost use Rattle.voice_main.specs.Ran.{Performed, Begun};
ghost use Rattle.voice_main.specs.MadeRuns.{byte_total, ropes_words, blocks_words, counted_line, IsCounted, IsTold};
ghost use Rattle.voice_main.specs.MakePromise.{MakePromise};
ghost use Rattle.voice_main.specs.Statuses.{Opens, Performs, IsEarly, IsSilent};

use crate::output::{history_text, print_text};
use crate::script_lines::run_lines;
use crate::status::Status;
use crate::top_call::{Ended, Scripted, open_status};
use made_scripts::made;
use std::alloc::Global;
use std::sync::Arc;
use voice_model::Entry;
use voice_outside::{Disk, Gate, Sink};
use voice_store::{Store, Tally};
use voice_units::NoMemory;

/// The generated script that the words `make SEED LINES` ask for, of 1 to 65,535 lines.
#[derive(Clone, Copy)]
pub struct Making {
    pub seed: u64,
    pub lines: u32,
}

// The sum of bytes, modulo 2^32.
fn byte_sum(bytes: &[u8]) -> u32
    ensures { result ≡ byte_total bytes.now % 2 ^ 32 }
{
    let mut sum = 0u32;
    for b in bytes {
        sum = sum.wrapping_add(u32::from(*b));
    }
    sum
}

// The words of live ropes.
fn put_ropes(entries: u64, ropes: u64, samples: u128, line: &mut Vec<u8>) -> Result<(), NoMemory>
    ensures { OnOk result (line.new.items ≡ line.old.items ++ ropes_words entries ropes samples) }
{
    let alloc = *line.allocator();
    let text = format!(in alloc; "entries {entries} ropes {ropes} samples {samples}")?;
    line.extend_from_slice(text.as_bytes())?;
    Ok(())
}

// The words of used blocks, and of a sum.
fn put_blocks(blocks: u32, sum: u32, line: &mut Vec<u8>) -> Result<(), NoMemory>
    ensures { OnOk result (line.new.items ≡ line.old.items ++ blocks_words blocks sum) }
{
    let alloc = *line.allocator();
    let text = format!(in alloc; " blocks {blocks} sum {sum}\n")?;
    line.extend_from_slice(text.as_bytes())?;
    Ok(())
}

// The line that tells what a history came to.
fn line_of(alloc: Global, history: &[Entry], tally: &Tally) -> Result<Vec<u8>, NoMemory>
    ensures { IfOk result (λ line. line.items ≡ counted_line history.now tally.now.ropes tally.now.samples tally.now.blocks) }
{
    let text = history_text(alloc, history)?;
    let sum = byte_sum(&text);
    let mut line = Vec::new(alloc);
    put_ropes(history.len() as u64, tally.ropes, tally.samples, &mut line)?;
    put_blocks(tally.blocks, sum, &mut line)?;
    Ok(line)
}

// The disk and the history that the calls of a generated script left, and how much there is then.
#[derive(Drop)]
struct Counted<D> {
    disk: D,
    history: Vec<Entry>,
    tally: Tally,
    is_finished: bool,
}

// Opens the disk's store, makes the calls of a script, and counts what there is then.
fn count_lines<D: Disk, G: Gate>(
    alloc: Global,
    scripted: &Scripted,
    disk: D,
    gate: &G,
) -> Result<Counted<D>, (Status, D)>
    requires whole { IsWhole is_built_verb scripted.now.script }
    requires there { length (arc_value scripted.now.tapes) ≡ length scripted.now.script.samples }
    ensures so_far { IfOk result (λ counted. (k : ℕ) × Performed (arc_value scripted.now.tapes) (Begun false (arc_value scripted.now.tapes) scripted.now.script k counted.history.items) (D.told disk) (D.told counted.disk) counted.history.items) }
    ensures finished { IfOk result (λ counted. counted.is_finished ≡ true → Performed (arc_value scripted.now.tapes) (IsCounted (arc_value scripted.now.tapes) scripted.now.script (D.told disk) (D.told counted.disk) counted.history.items counted.tally.ropes counted.tally.samples counted.tally.blocks) (D.told disk) (D.told counted.disk) counted.history.items) }
    ensures opens { IfErr result (λ e. Opens (D.told disk) (D.told e.1) e.0) }
    ensures looks { IfErr result (λ e. IsUnchanged (D.told disk) (D.told e.1)) }
    ensures goes { IfOk result (λ counted. GoesOn (D.told disk) (D.told counted.disk)) }
    ensures goes_back { IfErr result (λ e. GoesOn (D.told disk) (D.told e.1)) }
{
    let Ok(tapes) = Arc::try_clone(&scripted.tapes) else {
        return Err((Status::NoMemory, disk));
    };
    let mut store = match Store::open(alloc, disk, tapes) {
        Ok(store) => store,
        Err((e, disk)) => return Err((open_status(e), disk)),
    };
    let ran = run_lines(alloc, &mut store, &scripted.tapes, &scripted.script, gate);
    let tally = store.tally();
    let wanted = store.wanted();
    let (disk, history) = store.close();
    let Ok(_heard) = ran else {
        return Ok(Counted {
            disk,
            history,
            tally,
            is_finished: false,
        });
    };
    Ok(Counted {
        disk,
        history,
        tally,
        is_finished: !wanted,
    })
}

// Makes the calls of a script, and prints the line that tells what they came to.
fn tell_lines<O: Sink, D: Disk, G: Gate>(
    alloc: Global,
    scripted: &Scripted,
    out: &mut O,
    disk: D,
    gate: &G,
) -> Ended<D>
    requires whole { IsWhole is_built_verb scripted.now.script }
    requires there { length (arc_value scripted.now.tapes) ≡ length scripted.now.script.samples }
    ensures so_far { ((result.history.items ≡ []) × IsUnchanged (D.told disk) (D.told result.disk)) ⊎ ((k : ℕ) × Performed (arc_value scripted.now.tapes) (Begun false (arc_value scripted.now.tapes) scripted.now.script k result.history.items) (D.told disk) (D.told result.disk) result.history.items) }
    ensures told { IsTold (arc_value scripted.now.tapes) scripted.now.script (O.contents out.old) (O.contents out.new) (D.told disk) (D.told result.disk) result.history.items result.status }
    ensures which { Performs ⊥ (HasRisen (O.faults out.old) (O.faults out.new) ⊎ HasRisen (O.empty_takes out.old) (O.empty_takes out.new)) (D.told disk) (D.told result.disk) result.status }
    ensures silent { IsSilent result.status → (result.history.items ≡ []) × (O.contents out.new ≡ O.contents out.old) }
    ensures goes { GoesOn (D.told disk) (D.told result.disk) }
{
    let counted = match count_lines(alloc, scripted, disk, gate) {
        Ok(counted) => counted,
        Err((status, disk)) => return Ended {
            status,
            disk,
            history: Vec::new(alloc),
        },
    };
    if !counted.is_finished {
        return Ended {
            status: Status::NoMemory,
            disk: counted.disk,
            history: counted.history,
        };
    }
    let status = match line_of(alloc, &counted.history, &counted.tally) {
        Ok(line) => print_text(&line, out),
        Err(NoMemory) => Status::NoMemory,
    };
    Ended {
        status,
        disk: counted.disk,
        history: counted.history,
    }
}

// No store was opened, for want of memory.
fn unopened<D>(alloc: Global, disk: D) -> Ended<D>
    ensures status { result.status ≡ Status.NoMemory }
    ensures disk { result.disk ≡ disk }
    ensures history { result.history.items ≡ [] }
{
    Ended {
        status: Status::NoMemory,
        disk,
        history: Vec::new(alloc),
    }
}

/// Runs a generated script in the order of its lines, and prints the line that tells what it came to. It sets no file.
pub fn make<O: Sink, D: Disk, G: Gate>(
    alloc: Global,
    asked: Making,
    out: &mut O,
    disk: D,
    gate: &G,
) -> Ended<D>
    requires some { 1 ≤ asked.lines }
    requires most { asked.lines ≤ 65535 }
    ensures promise { (files : Option Files) (shelf_faults : ℕ) → MakePromise asked.seed asked.lines (outside files shelf_faults (O.contents out.old) (O.faults out.old) (O.empty_takes out.old) (D.told disk)) (outside files shelf_faults (O.contents out.new) (O.faults out.new) (O.empty_takes out.new) (D.told result.disk)) result.status result.history.items }
    // A status that is decided before the first call leaves no history and prints nothing.
    ensures silent { IsSilent result.status → (result.history.items ≡ []) × (O.contents out.new ≡ O.contents out.old) }
    // No status is one that is decided before the disk is touched.
    ensures late { IsEarly result.status → ⊥ }
    // The disk keeps its size, and its counts never fall.
    ensures disk { GoesOn (D.told disk) (D.told result.disk) }
{
    let Ok((script, tapes)) = made(alloc, asked.seed, asked.lines) else {
        return unopened(alloc, disk);
    };
    let Ok(tapes) = Arc::new(alloc, tapes) else {
        return unopened(alloc, disk);
    };
    let scripted = Scripted { script, tapes };
    tell_lines(alloc, &scripted, out, disk, gate)
}
