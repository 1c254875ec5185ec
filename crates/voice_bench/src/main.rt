//! Measurements of the voice manager's parts, each as a ratio to the same work made bare, in one run.
#![tactic(auto)]

use std::alloc::AllocError;
use std::env::{Env, args};
use std::fs::File;
use std::io;
use std::rt::{Clock, Files};
use std::sync::Wait;
use std::thread::Threads;

const MEASUREMENTS: &str = "\
voice_bench MEASUREMENT: prints figures of this machine.
  copy     a window of 16 KiB out of frames, against a plain copy of its bytes
  parse    a script of 65,535 lines, against cutting its bytes into words
  loud     loudness and talk of 1 MiB of samples, against a plain sum
  sums     the sum of loudness of 1 MiB of samples, against the fastest of four plain sums
  rows     making and forgetting an interest, by the number of interests
  ropes    putting in, taking out, keeping, cutting and sweeping ropes, by the number of ropes
  appends  appends a second in memory and to a file of this folder, against bare calls
  replay   replay of 16 MiB of changes, against reading them and looking each number up
  mail     replay of mail that is kept and forgotten, by the number of changes
  compact  the base of a state, by the number of ropes
  open     opening a store of 20,000 ropes, against parsing its records
  growth   opening a store, by the number of changes in its journal
  edits    edits to a file of this folder and in memory, against bare calls
  record   recording 1 MiB in memory, against bare calls
  parts    a recording of 48 MiB in parts to a file of this folder, against its writes and a sync
  plays    plays of 48 MiB out of 4,096 pieces, against plain reads, and Feeds by their place
  calls    calls on rows, on the moment and of sweeps, by the number of rows, and edits by that of ropes
  turns    calls through a server with 1, 2, 4 and 16 callers on threads, against the store alone
  players  samples a second that 16 players on 16 threads hear while two of them also record and sweep, and one alone
  all      each of these
";

fn words<R: Env + AllocGlobal>(rt: &R) -> io::Result<Vec<String>> {
    let mut words = Vec::new(rt.alloc());
    for word in args(rt)?.skip(1) {
        if words.push(word).is_err() {
            return Err(io::Error::from(AllocError));
        }
    }
    Ok(words)
}

fn measure<R: Print + Clock + AllocGlobal + Files<File = File> + Threads + Wait + Sync>(
    rt: &R,
    word: &str,
) -> io::Result<()> {
    table_measures::measure(rt, word)?;
    store_measures::measure(rt, word)?;
    turn_measures::measure(rt, word)
}

fn main(rt: HostRuntime) -> io::Result<()> {
    let words = words(&rt)?;
    let [word] = words.as_slice() else {
        return print!(rt; "{MEASUREMENTS}");
    };
    measure(&rt, word.as_str())
}
