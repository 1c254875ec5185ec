//! The words of the command line.

use std::alloc::AllocError;
use std::env::{Env, FillError};

// A longer word is refused in every form, whatever it is.
const LONGEST_WORD: usize = 4096;

// Word i. One that is not UTF-8 or too long is read as a word that every form refuses.
fn word<R: Env + AllocGlobal>(rt: &R, i: usize) -> Result<Option<String>, AllocError> {
    let mut buffer = [0u8; LONGEST_WORD];
    match rt.arg(i, &mut buffer) {
        Ok(len) => {
            let len = len.min(LONGEST_WORD);
            Ok(Some(String::from_utf8_lossy(rt.alloc(), &buffer[..len])?))
        }
        Err(FillError::TooLong) => Ok(Some(String::new(rt.alloc()))),
        Err(FillError::NotPresent) => Ok(None),
    }
}

/// The words behind the program's name.
pub fn words<R: Env + AllocGlobal>(rt: &R) -> Result<Vec<String>, AllocError> {
    let mut words = Vec::new(rt.alloc());
    for i in 1..usize::MAX {
        let Some(word) = word(rt, i)? else {
            break;
        };
        words.push(word)?;
    }
    Ok(words)
}
