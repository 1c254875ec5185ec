//! Anchors of notes, and names of indexes.

use crate::{IndexError, NoteError, anchors, index};
use std::alloc::Global;
use std::test::Fail;
use voice_model::{Key, KeyList};
use voice_units::NoMemory;

// These keys, each with a blank behind it.
fn shown(alloc: Global, keys: &[Key]) -> Result<Vec<u8>, NoMemory> {
    let mut text = Vec::new(alloc);
    for key in keys {
        text.extend_from_slice(key.bytes())?;
        text.push(b' ')?;
    }
    Ok(text)
}

// The keys of two notes.
fn keys_of(alloc: Global, first: &[u8], second: &[u8]) -> Result<Vec<u8>, NoteError> {
    let mut keys = KeyList::of(Vec::new(alloc));
    anchors(alloc, first, &mut keys)?;
    anchors(alloc, second, &mut keys)?;
    Ok(shown(alloc, keys.items())?)
}

// Where a note is refused; `None` where it isn't.
fn bad_place(alloc: Global, note: &[u8]) -> Option<u64> {
    match keys_of(alloc, note, b"") {
        Err(NoteError::BadAnchor(place)) => Some(place),
        _ => None,
    }
}

// A note with an anchor at place 2, whose key has so many bytes.
fn anchor_of(alloc: Global, len: usize) -> Result<Vec<u8>, NoMemory> {
    let mut note = Vec::new(alloc);
    note.extend_from_slice(b"- [[voice:")?;
    for _ in 0..len {
        note.push(b'k')?;
    }
    note.extend_from_slice(b"]]")?;
    Ok(note)
}

// The names of an index, each with a blank behind it.
fn names_of(alloc: Global, bytes: &[u8]) -> Result<Vec<u8>, IndexError> {
    let names = index(alloc, bytes)?;
    let mut text = Vec::new(alloc);
    for name in names.items() {
        text.extend_from_slice(name.bytes())?;
        text.push(b' ')?;
    }
    Ok(text)
}

// The line at which an index is refused; `None` where it isn't.
fn bad_line(alloc: Global, bytes: &[u8]) -> Option<u32> {
    match names_of(alloc, bytes) {
        Err(IndexError::BadIndex(line)) => Some(line),
        _ => None,
    }
}

#[test]
fn keys_come_once(rt: HostRuntime) -> Result<(), Fail> {
    let text = keys_of(
        rt.alloc(),
        b"see [[voice:n]] and [[voice:n]]",
        b"[[voice:.a-B_9]][[voice:n]]",
    )?;
    assert!(rt; text.as_slice() == b"n .a-B_9 ".as_slice());
    Ok(())
}

#[test]
fn bad_anchors_are_refused(rt: HostRuntime) -> Result<(), Fail> {
    assert_eq!(rt; bad_place(rt.alloc(), b"x [[voice:]]"), Some(2));
    assert_eq!(rt; bad_place(rt.alloc(), b"[[voice:[[voice:a]]"), Some(0));
    assert_eq!(rt; bad_place(rt.alloc(), b"[[voice:a]] [[voice:b]"), Some(12));
    assert_eq!(rt; bad_place(rt.alloc(), b"[[voice:a b]]"), Some(0));
    assert_eq!(rt; bad_place(rt.alloc(), b"[[voice]] [[voice:a]]"), None);
    Ok(())
}

#[test]
fn keys_have_at_most_64_bytes(rt: HostRuntime) -> Result<(), Fail> {
    let note = anchor_of(rt.alloc(), 64)?;
    assert_eq!(rt; bad_place(rt.alloc(), &note), None);
    let note = anchor_of(rt.alloc(), 65)?;
    assert_eq!(rt; bad_place(rt.alloc(), &note), Some(2));
    Ok(())
}

#[test]
fn names_are_listed(rt: HostRuntime) -> Result<(), Fail> {
    let text = names_of(
        rt.alloc(),
        b"# notes: of May\n\n \ta.txt \r\n#\x01\n_9-b\na.txt",
    )?;
    assert!(rt; text.as_slice() == b"a.txt _9-b a.txt ".as_slice());
    Ok(())
}

#[test]
fn bad_lines_are_refused(rt: HostRuntime) -> Result<(), Fail> {
    assert_eq!(rt; bad_line(rt.alloc(), b""), None);
    assert_eq!(rt; bad_line(rt.alloc(), b"a\nb c\n"), Some(2));
    assert_eq!(rt; bad_line(rt.alloc(), b"a\n\n.b"), Some(3));
    assert_eq!(rt; bad_line(rt.alloc(), b"a\r\r\n"), Some(1));
    Ok(())
}

#[test]
fn line_65536_is_refused(rt: HostRuntime) -> Result<(), Fail> {
    let mut bytes = vec![in rt.alloc(); b'\n'; 65_535]?;
    assert_eq!(rt; bad_line(rt.alloc(), &bytes), None);
    bytes.push(b'\n')?;
    assert_eq!(rt; bad_line(rt.alloc(), &bytes), Some(65_536));
    Ok(())
}
