//! `voice`: runs a script of calls over the voice manager in the current folder, and prints their history.
#![tactic(auto)]

mod arguments;
mod disk_file;
mod help;

use arguments::words;
use disk_file::{discard, find, finish, make};
use help::{HELP, VERSION};
use std::alloc::AllocError;
use std::fs::File;
use std::process::ExitCode;
use std::rt::Files;
use std::sync::Wait;
use std::thread::Threads;
use voice_disk::FileDisk;
use voice_main::{Ended, Status, is_conversion, run};
use voice_outside::{Disk, FolderShelf, MemShelf, MemSink, NoDisk, OpenGate, StdSink};

// Tells how the run ended on standard error, unless it is done, and by the exit status.
fn exit(rt: &impl Eprint, status: Status) -> ExitCode {
    if status != Status::Done {
        // Where standard error fails too, the exit status still tells.
        let _ = eprintln!(rt; "{status}");
    }
    ExitCode::from(status.code())
}

// Prints a text on standard output.
fn tell(rt: &(impl Print + Eprint), text: &str) -> ExitCode {
    match print!(rt; "{text}") {
        Ok(()) => ExitCode::SUCCESS,
        Err(_) => exit(rt, Status::SinkFault),
    }
}

// The word `format` alone.
fn format_words<R: AllocGlobal>(rt: &R) -> Result<Vec<String>, AllocError> {
    let mut words = Vec::new(rt.alloc());
    words.push(String::from_str(rt.alloc(), "format")?)?;
    Ok(words)
}

// Runs the words over the current folder, standard output and this disk.
fn run_over<R: Threads + Wait + Sync + Files + AllocGlobal + Print, D: Disk>(
    rt: &R,
    words: &[String],
    disk: D,
) -> Ended<D> {
    run(
        rt,
        rt.alloc(),
        words,
        &mut FolderShelf::new(rt),
        &mut StdSink::new(rt),
        disk,
        &OpenGate,
    )
}

// Refuses words that are in no form, which `run` itself tells: it runs them over no file, no disk and a sink in memory, and so does nothing outside.
fn check_form<R: Threads + Wait + Sync + AllocGlobal>(
    rt: &R,
    words: &[String],
) -> Result<(), Status> {
    let alloc = rt.alloc();
    let mut shelf = MemShelf::new(alloc, Vec::new(alloc), Vec::new(alloc));
    let mut out = MemSink::new(alloc, Vec::new(alloc));
    let ended = run(
        rt,
        alloc,
        words,
        &mut shelf,
        &mut out,
        NoDisk::new(),
        &OpenGate,
    );
    match ended.status {
        Status::Usage => Err(Status::Usage),
        Status::NoMemory => Err(Status::NoMemory),
        _ => Ok(()),
    }
}

// A new disk, formatted with the defaults. It has its name only once it is formatted.
fn new_disk<R: Threads + Wait + Sync + Files<File = File> + AllocGlobal + Print>(
    rt: &R,
) -> Result<FileDisk, Status> {
    let Ok(format) = format_words(rt) else {
        return Err(Status::NoMemory);
    };
    let disk = make(rt)?;
    let ended = run_over(rt, &format, disk);
    if ended.status != Status::Done {
        discard(rt, ended.disk);
        return Err(ended.status);
    }
    finish(rt, ended.disk)
}

// The disk that is there, or a new one, made only for words in a form. One that is there is never formatted but by the user's word.
fn disk_for<R: Threads + Wait + Sync + Files<File = File> + AllocGlobal + Print>(
    rt: &R,
    words: &[String],
) -> Result<FileDisk, Status> {
    if let Some(disk) = find(rt)? {
        return Ok(disk);
    }
    check_form(rt, words)?;
    new_disk(rt)
}

// Does what the words say, and returns how that ended.
fn perform<R: Threads + Wait + Sync + Files<File = File> + AllocGlobal + Print>(
    rt: &R,
    words: &[String],
) -> Status {
    if is_conversion(words) {
        return run_over(rt, words, NoDisk::new()).status;
    }
    match disk_for(rt, words) {
        Ok(disk) => run_over(rt, words, disk).status,
        Err(status) => status,
    }
}

fn main(rt: HostRuntime) -> ExitCode {
    let Ok(words) = words(&rt) else {
        return exit(&rt, Status::NoMemory);
    };
    if let [word] = words.as_slice() {
        match word.as_str() {
            "--help" => return tell(&rt, HELP),
            "--version" => return tell(&rt, VERSION),
            _ => {}
        }
    }
    let status = perform(&rt, &words);
    exit(&rt, status)
}
