//! Scripts of callers who ask for the length of rope 1.

ghost use Rattle.std.specs.Prelude.{IfOk};
ghost use Rattle.script_lang.specs.Verbs.{is_built_verb};
ghost use Rattle.script_lang.specs.Whole.{IsWhole};

use script_lang::{Script, parse};
use std::alloc::{AllocError, Global};
use std::io::{self, ErrorKind};

/// How many calls all callers of a script make.
pub const CALLS: usize = 48_000;

// A line of each caller.
const LINES: [&[u8]; 16] = [
    b"1 length 1\n",
    b"2 length 1\n",
    b"3 length 1\n",
    b"4 length 1\n",
    b"5 length 1\n",
    b"6 length 1\n",
    b"7 length 1\n",
    b"8 length 1\n",
    b"9 length 1\n",
    b"10 length 1\n",
    b"11 length 1\n",
    b"12 length 1\n",
    b"13 length 1\n",
    b"14 length 1\n",
    b"15 length 1\n",
    b"16 length 1\n",
];

// A line of each of the first callers.
fn put_round(text: &mut Vec<u8>, callers: usize) -> Result<(), AllocError> {
    for line in LINES.iter().take(callers) {
        text.extend_from_slice(line)?;
    }
    Ok(())
}

// As many lines for each caller.
fn lines_of(alloc: Global, callers: usize) -> Result<Vec<u8>, AllocError> {
    let mut text = Vec::new(alloc);
    for _ in 0..CALLS / callers.max(1) {
        put_round(&mut text, callers)?;
    }
    Ok(text)
}

/// A script in which so many callers, at most 16, make as many calls each.
pub fn script_of(alloc: Global, callers: usize) -> io::Result<Script>
    ensures { IfOk result (λ script. IsWhole is_built_verb script) }
{
    let text = lines_of(alloc, callers)?;
    match parse(alloc, &text) {
        Ok(script) => Ok(script),
        Err(_) => Err(io::Error::from(ErrorKind::InvalidInput)),
    }
}
