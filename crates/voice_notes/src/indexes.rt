//! The files of an index.

ghost use Rattle.std.specs.Prelude.{◌≡◌, ◌<◌, None, length, IfOk, IfErr};
ghost use Rattle.script_lang.specs.Words.{without_return};
ghost use Rattle.voice_notes.specs.Index.{without_end, line_said, names_in, bad_line, IsCause};

use crate::errors::IndexError;
use crate::line::{Says, line_says};
use crate::name_list::NameList;
use std::alloc::Global;
use voice_units::Name;

// The number of the last line that is read.
const MOST_LINES: u32 = 65_535;

// The bytes without the end of the last line.
fn without_end(bytes: &[u8]) -> &[u8]
    ensures { result.now ≡ without_end bytes.now }
{
    match bytes {
        [front @ .., b'\n'] => front,
        _ => bytes,
    }
}

// What the line of that number says; one behind the last that is read says something else.
fn said(number: u32, line: &[u8]) -> Says
    ensures { result ≡ line_said number (without_return line.now) }
{
    if number > MOST_LINES {
        return Says::Other;
    }
    line_says(line)
}

// The names on the lines of some bytes.
fn names_on(alloc: Global, bytes: &[u8]) -> Result<Vec<Name>, IndexError>
    requires { 0 < length bytes.now }
    ensures ok { IfOk result (λ names. (bad_line bytes.now ≡ None) × (names.items ≡ names_in bytes.now)) }
    ensures err { IfErr result (IsCause bytes.now) }
{
    let mut names = Vec::new(alloc);
    let mut number = 0;
    for line in without_end(bytes).split(|b| *b == b'\n') {
        number += 1;
        match said(number, line) {
            Says::Nothing => {}
            Says::File(name) => names.push(name)?,
            Says::Other => return Err(IndexError::BadIndex(number)),
        }
    }
    Ok(names)
}

/// The names that an index lists, in order: one FILE (1 to 64 letters, digits, `.`, `_` or `-`, the first no `.` or `-`) on each line that is not empty and no comment, by the rules for the lines of a script. `BadIndex` names the first other line, from 1, or line 65,536.
pub fn index(alloc: Global, bytes: &[u8]) -> Result<NameList, IndexError>
    ensures ok { IfOk result (λ names. (bad_line bytes.now ≡ None) × (names ≡ names_in bytes.now)) }
    ensures err { IfErr result (IsCause bytes.now) }
{
    if bytes.is_empty() {
        return Ok(NameList::of(Vec::new(alloc)));
    }
    let names = names_on(alloc, bytes)?;
    Ok(NameList::of(names))
}
