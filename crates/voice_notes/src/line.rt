//! What a line of an index says.

ghost use Rattle.std.specs.Prelude.{◌≡◌};
ghost use Rattle.script_lang.specs.Words.{words_of, without_return};
ghost use Rattle.voice_notes.specs.Index.{line_says, word_says, is_comment, HasWords};

use script_lang::is_file;
use voice_units::Name;

/// What a line of an index says.
#[derive(Clone, Copy, Debug)]
pub enum Says {
    /// It is empty, or a comment.
    Nothing,
    /// One FILE.
    File(Name),
    /// Neither.
    Other,
}

// The words of a line, as far as it matters.
#[derive(Drop)]
enum Words<'a> {
    None,
    One(&'a [u8]),
    // The first, and there are more.
    More(&'a [u8]),
}

// The words of a line.
fn words_in(line: &[u8]) -> Words<'_>
    ensures { HasWords result (words_of line.now) }
{
    let mut words = line
        .split(|b| *b == b' ' || *b == b'\t')
        .filter(|part| !part.is_empty());
    let Some(first) = words.next() else {
        return Words::None;
    };
    match words.next() {
        Some(_) => Words::More(first),
        None => Words::One(first),
    }
}

// The line without a 0D at its end.
fn without_return(line: &[u8]) -> &[u8]
    ensures { result.now ≡ without_return line.now }
{
    match line {
        [front @ .., b'\r'] => front,
        _ => line,
    }
}

fn is_comment(word: &[u8]) -> bool
    ensures { result ≡ is_comment word.now }
{
    word.first() == Some(&b'#')
}

// What a line of one word says.
fn word_says(word: &[u8]) -> Says
    ensures { result ≡ word_says word.now }
{
    if is_comment(word) {
        return Says::Nothing;
    }
    if !is_file(word) {
        return Says::Other;
    }
    match Name::new(word) {
        Ok(name) => Says::File(name),
        Err(_) => Says::Other,
    }
}

/// What a line says, with or without a 0D at its end.
pub fn line_says(line: &[u8]) -> Says
    ensures { result ≡ line_says (without_return line.now) }
{
    match words_in(without_return(line)) {
        Words::None => Says::Nothing,
        Words::One(word) => word_says(word),
        Words::More(first) => {
            if is_comment(first) {
                return Says::Nothing;
            }
            Says::Other
        }
    }
}
