//! The rows of a first script, and each fault of the outside once.

use crate::assigned::assigned;
use crate::options::{FormatNumbers, format_numbers};
use crate::{Status, run};
use au_files::AuError;
use script_lang::Cause;
use std::alloc::Global;
use std::sync::Wait;
use std::test::Fail;
use std::thread::Threads;
use voice_outside::{MemShelf, MemSink, NoDisk, OpenGate, Shelf};
use voice_units::Name;

fn strings(alloc: Global, words: &[&str]) -> Result<Vec<String>, Fail> {
    let mut all = Vec::new(alloc);
    for word in words {
        all.push(String::from_str(alloc, word)?)?;
    }
    Ok(all)
}

// Runs the words over these files, and gives the status and what was printed. The listed calls of the shelf and the sink fail.
fn shown<R: Threads + Wait + Sync>(
    rt: &R,
    alloc: Global,
    words: &[&str],
    files: &[(&str, &str)],
    shelf_fails: &[u64],
    sink_fails: &[u64],
) -> Result<(Status, Vec<u8>), Fail> {
    let all = strings(alloc, words)?;
    let mut held = Vec::new(alloc);
    for (name, bytes) in files {
        let name = Name::new(name.as_bytes())?;
        held.push((name, bytes.as_bytes().to_vec(alloc)?))?;
    }
    let mut shelf = MemShelf::new(alloc, held, shelf_fails.to_vec(alloc)?);
    let mut sink = MemSink::new(alloc, sink_fails.to_vec(alloc)?);
    let ended = run(
        rt,
        alloc,
        &all,
        &mut shelf,
        &mut sink,
        NoDisk::new(),
        &OpenGate,
    );
    Ok((ended.status, sink.bytes().to_vec(alloc)?))
}

#[test]
fn scripts_print_their_replies(rt: HostRuntime) -> Result<(), Fail> {
    let absent = Status::NoFile(Name::new(b"gone")?);
    // Words, the script `s`, how the run ends, and what it prints.
    let cases = [
        ([].as_slice(), "", Status::Usage, ""),
        (["run"].as_slice(), "", Status::Usage, ""),
        (["run", "a", "b"].as_slice(), "", Status::Usage, ""),
        (["run", "-x"].as_slice(), "", Status::Usage, ""),
        (["format", "--block"].as_slice(), "", Status::Usage, ""),
        (
            ["format", "--block", "08"].as_slice(),
            "",
            Status::Usage,
            "",
        ),
        (
            ["format", "--block", "4294967296"].as_slice(),
            "",
            Status::Usage,
            "",
        ),
        (
            ["format", "--block", "8", "--block", "8"].as_slice(),
            "",
            Status::Usage,
            "",
        ),
        (
            ["format", "--held", "8", "--grace", "8", "--held", "9"].as_slice(),
            "",
            Status::Usage,
            "",
        ),
        (["format"].as_slice(), "", Status::BadShape, ""),
        (
            ["format", "--lanes", "0", "--block", "12"].as_slice(),
            "",
            Status::BadShape,
            "",
        ),
        (["run", "gone"].as_slice(), "", absent, ""),
        (
            ["run", "s"].as_slice(),
            "1 sing a",
            Status::BadScript(1, Cause::Verb),
            "",
        ),
        (
            ["run", "s"].as_slice(),
            "1 record f20\n17 record f20",
            Status::BadScript(2, Cause::Caller),
            "",
        ),
        (
            ["run", "s"].as_slice(),
            "1 record f20\n\n01 record f20",
            Status::BadScript(3, Cause::Caller),
            "",
        ),
        (
            ["run", "s"].as_slice(),
            "1 record gone\n1 sing a",
            Status::BadScript(2, Cause::Verb),
            "",
        ),
        (
            ["run", "s"].as_slice(),
            "1 record f20\n2 record gone\n",
            absent,
            "",
        ),
    ];
    let f20 = ("f20", "ABCDEFGHIJKLMNOPQRST");
    for (words, script, status, text) in cases {
        let (ended, printed) = shown(&rt, rt.alloc(), words, &[("s", script), f20], &[], &[])?;
        assert_eq!(rt; ended, status, "{script}");
        assert_eq!(rt; printed.as_slice(), text.as_bytes(), "{script}");
    }
    Ok(())
}

#[test]
fn a_bad_line_is_told_with_its_reason(rt: HostRuntime) -> Result<(), Fail> {
    let told = format!(in rt.alloc(); "{}", Status::BadScript(3, Cause::Verb))?;
    assert_eq!(rt;
        told.as_str(),
        "voice: line 3 of the script is refused: no known verb where one belongs"
    );
    Ok(())
}

#[test]
fn faults_are_told(rt: HostRuntime) -> Result<(), Fail> {
    let files = [("s", "1 record f20"), ("f20", "ABC")];
    let (ended, _) = shown(&rt, rt.alloc(), &["run", "s"], &files, &[2], &[])?;
    assert_eq!(rt; ended, Status::ShelfFault);
    Ok(())
}

#[test]
fn notes_are_refused_in_order(rt: HostRuntime) -> Result<(), Fail> {
    let absent = Status::NoFile(Name::new(b"gone")?);
    let bad = Status::BadNote(Name::new(b"n")?, 2);
    // The index `i`, the note `n`, and how the census ends.
    let cases = [
        ("n", "x [[voice:]]", bad),
        ("n\ngone", "x [[voice:]]", absent),
        ("n\nn gone", "x [[voice:]]", Status::BadIndex(2)),
    ];
    for (index, note, status) in cases {
        let files = [("i", index), ("n", note)];
        let (ended, _) = shown(&rt, rt.alloc(), &["notes", "i"], &files, &[], &[])?;
        assert_eq!(rt; ended, status, "{index}");
    }
    Ok(())
}

// The words of a line with one space between two of them.
fn words_of(alloc: Global, line: &str) -> Result<Vec<String>, Fail> {
    let mut all = Vec::new(alloc);
    for word in line.split(' ') {
        all.push(String::from_str(alloc, word)?)?;
    }
    Ok(all)
}

#[test]
fn clap_assigns_the_numbers_of_the_words(rt: HostRuntime) -> Result<(), Fail> {
    let most = 4_294_967_295;
    // The words, the numbers of block, blocks, area and lanes, and the graces: the common one, and those of the classes held, until and listed.
    let cases = [
        (
            "format",
            [4096, 15000, 1_048_576, 8],
            [86_400, 86_400, 86_400, 86_400],
        ),
        (
            "format --block 512",
            [512, 15000, 1_048_576, 8],
            [86_400, 86_400, 86_400, 86_400],
        ),
        (
            "format --area 65536 --blocks 7",
            [4096, 7, 65_536, 8],
            [86_400, 86_400, 86_400, 86_400],
        ),
        (
            "format --grace 0",
            [4096, 15000, 1_048_576, 8],
            [0, 0, 0, 0],
        ),
        (
            "format --held 1 --until 2 --listed 3",
            [4096, 15000, 1_048_576, 8],
            [86_400, 1, 2, 3],
        ),
        (
            "format --held 60 --grace 5",
            [4096, 15000, 1_048_576, 8],
            [5, 60, 5, 5],
        ),
        (
            "format --grace 5 --lanes 4294967295 --listed 0",
            [4096, 15000, 1_048_576, most],
            [5, 5, 5, 0],
        ),
        (
            "format --until 4294967295 --block 4294967295",
            [most, 15000, 1_048_576, 8],
            [86_400, 86_400, most, 86_400],
        ),
        (
            "format --block 1 --blocks 2 --area 3 --grace 4 --held 5 --until 6 --listed 7 --lanes 8",
            [1, 2, 3, 8],
            [4, 5, 6, 7],
        ),
        (
            "format --lanes 8 --listed 7 --until 6 --held 5 --grace 4 --area 3 --blocks 2 --block 1",
            [1, 2, 3, 8],
            [4, 5, 6, 7],
        ),
        (
            "format --area 0 --lanes 0 --blocks 0 --block 0 --grace 0",
            [0, 0, 0, 0],
            [0, 0, 0, 0],
        ),
        (
            "format --grace 4294967295 --blocks 4294967295 --area 4294967295",
            [4096, most, most, 8],
            [most, most, most, most],
        ),
    ];
    for (line, [block, blocks, area, lanes], [grace, held, until, listed]) in cases {
        let words = words_of(rt.alloc(), line)?;
        let wanted = Some(FormatNumbers {
            block,
            blocks,
            area,
            grace,
            held,
            until,
            listed,
            lanes,
        });
        assert_eq!(rt; format_numbers(&words), wanted, "{line}");
        assert_eq!(rt; assigned(rt.alloc(), &words), wanted, "{line}");
    }
    Ok(())
}

// An AU file of ten samples.
const AU: &[u8; 34] = b".snd\0\0\0\x18\0\0\0\x0a\0\0\0\x01\0\0\x1f\x40\0\0\0\x01ABCDEFGHIJ";

// How a conversion of these bytes ends, and the bytes of its target then.
fn converted<R: Threads + Wait + Sync>(
    rt: &R,
    alloc: Global,
    verb: &str,
    bytes: &[u8],
) -> Result<(Status, Option<Vec<u8>>), Fail> {
    let words = strings(alloc, &[verb, "from", "to"])?;
    let mut held = Vec::new(alloc);
    held.push((Name::new(b"from")?, bytes.to_vec(alloc)?))?;
    let mut shelf = MemShelf::new(alloc, held, Vec::new(alloc));
    let mut sink = MemSink::new(alloc, Vec::new(alloc));
    let ended = run(
        rt,
        alloc,
        &words,
        &mut shelf,
        &mut sink,
        NoDisk::new(),
        &OpenGate,
    );
    let target = shelf.get(&Name::new(b"to")?)?;
    Ok((ended.status, target))
}

#[test]
fn au_files_are_imported(rt: HostRuntime) -> Result<(), Fail> {
    let (status, samples) = converted(&rt, rt.alloc(), "import", AU)?;
    assert_eq!(rt; status, Status::Done);
    assert!(rt; samples.is_some_and(|s| s.as_slice() == b"ABCDEFGHIJ".as_slice()));
    Ok(())
}

#[test]
fn samples_are_exported(rt: HostRuntime) -> Result<(), Fail> {
    let (status, file) = converted(&rt, rt.alloc(), "export", b"ABCDEFGHIJ")?;
    assert_eq!(rt; status, Status::Done);
    assert!(rt; file.is_some_and(|s| s.as_slice() == AU.as_slice()));
    Ok(())
}

#[test]
fn other_files_are_not_imported(rt: HostRuntime) -> Result<(), Fail> {
    let from = Name::new(b"from")?;
    let (status, target) = converted(&rt, rt.alloc(), "import", &AU[..23])?;
    assert_eq!(rt; status, Status::BadAu(from, AuError::Short));
    assert!(rt; target.is_none());
    Ok(())
}
