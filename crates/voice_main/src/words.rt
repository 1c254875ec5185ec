//! The words of the command line.

ghost use Rattle.std.specs.Prelude.{ℕ, List, ◌≡◌, [], ◌∷◌, length, MatchOption, map, string_bytes, true, false};
ghost use Rattle.script_lang.specs.Forms.{is_file};
ghost use Rattle.voice_main.specs.Conversions.{way_word};
ghost use Rattle.voice_main.specs.Words.{Says, run_command, IsNoRun, IsConversion, IsNoConversion, IsNamed, IsNotNamed, IsNotes, IsNoNotes, IsMirror, IsNoMirror, IsAudit, IsNoAudit, IsPromotion, IsNoPromotion, IsMake, IsNoMake, IsPackets, IsNoPackets};
ghost use Rattle.voice_main.specs.declared.convert.Way.{Way as WayValue};

use crate::convert::{Conversion, Way};
use crate::make::Making;
use crate::numbers::{number, wide_number};
use crate::packets::Sending;
use script_lang::is_file;
use voice_units::Name;

// The name of a file; `None` exactly for other bytes.
fn file_name(bytes: &[u8]) -> Option<Name>
    ensures { MatchOption result (is_file bytes.now ≡ false) (λ name. (is_file bytes.now ≡ true) × (name ≡ bytes.now)) }
{
    if !is_file(bytes) {
        return None;
    }
    match Name::new(bytes) {
        Ok(name) => Some(name),
        Err(_) => unreachable!(),
    }
}

/// The script that is run, and whether each caller's lines go on a thread of its own.
#[derive(Drop)]
pub struct RunWords {
    pub name: Name,
    pub threads: bool,
}

// The words `run NAME`, with what stands for `run` and NAME.
fn run_serial(verb: &[u8], name: &[u8]) -> Option<RunWords>
    ensures { MatchOption result (IsNoRun (verb.now ∷ name.now ∷ [])) (λ r. Says (verb.now ∷ name.now ∷ []) (run_command r.threads r.name)) }
{
    if verb != b"run".as_slice() {
        return None;
    }
    let Some(name) = file_name(name) else {
        return None;
    };
    Some(RunWords {
        name,
        threads: false,
    })
}

// The words `run NAME --threads` or `run --threads NAME`.
fn run_threaded(verb: &[u8], first: &[u8], second: &[u8]) -> Option<RunWords>
    ensures { MatchOption result (IsNoRun (verb.now ∷ first.now ∷ second.now ∷ [])) (λ r. Says (verb.now ∷ first.now ∷ second.now ∷ []) (run_command r.threads r.name)) }
{
    if verb != b"run".as_slice() {
        return None;
    }
    if first == b"--threads".as_slice() {
        let Some(name) = file_name(second) else {
            return None;
        };
        return Some(RunWords {
            name,
            threads: true,
        });
    }
    if second != b"--threads".as_slice() {
        return None;
    }
    let Some(name) = file_name(first) else {
        return None;
    };
    Some(RunWords {
        name,
        threads: true,
    })
}

// Three words.
fn run_three(words: &[String]) -> Option<RunWords>
    requires { length words.now ≡ 3 }
    ensures { MatchOption result (IsNoRun (map string_bytes words.now)) (λ r. Says (map string_bytes words.now) (run_command r.threads r.name)) }
{
    let [verb, first, second] = words else {
        unreachable!()
    };
    run_threaded(verb.as_bytes(), first.as_bytes(), second.as_bytes())
}

/// The script that the words run; `None` exactly for words that run none.
pub fn run_words(words: &[String]) -> Option<RunWords>
    ensures { MatchOption result (IsNoRun (map string_bytes words.now)) (λ r. Says (map string_bytes words.now) (run_command r.threads r.name)) }
{
    if words.len() == 3 {
        return run_three(words);
    }
    let [verb, name] = words else {
        return None;
    };
    run_serial(verb.as_bytes(), name.as_bytes())
}

// A word, and behind it the name of a file.
fn named_of(word: &[u8], verb: &[u8], name: &[u8]) -> Option<Name>
    ensures { MatchOption result (IsNotNamed word.now (verb.now ∷ name.now ∷ [])) (λ n. IsNamed word.now (verb.now ∷ name.now ∷ []) n) }
{
    if verb != word {
        return None;
    }
    file_name(name)
}

// The file that words name behind this one; `None` exactly for other words.
fn named(word: &[u8], words: &[String]) -> Option<Name>
    ensures { MatchOption result (IsNotNamed word.now (map string_bytes words.now)) (λ n. IsNamed word.now (map string_bytes words.now) n) }
{
    let [verb, name] = words else {
        return None;
    };
    named_of(word, verb.as_bytes(), name.as_bytes())
}

/// The index whose notes the words ask for; `None` exactly for words that ask for none.
pub fn notes_words(words: &[String]) -> Option<Name>
    ensures { MatchOption result (IsNoNotes (map string_bytes words.now)) (λ name. IsNotes (map string_bytes words.now) name) }
{
    named(b"notes".as_slice(), words)
}

/// The file whose packets a mirror is to take; `None` exactly for words that name none.
pub fn mirror_words(words: &[String]) -> Option<Name>
    ensures { MatchOption result (IsNoMirror (map string_bytes words.now)) (λ name. IsMirror (map string_bytes words.now) name) }
{
    named(b"mirror".as_slice(), words)
}

// Whether there is just this word.
fn is_one(word: &[u8], words: &[String]) -> bool
    ensures yes { result ≡ true → map string_bytes words.now ≡ word.now ∷ [] }
    ensures no { result ≡ false → map string_bytes words.now ≡ word.now ∷ [] → ⊥ }
{
    let [verb] = words else {
        return false;
    };
    verb.as_bytes() == word
}

/// Whether the words are `audit`.
pub fn is_audit(words: &[String]) -> bool
    ensures yes { result ≡ true → IsAudit (map string_bytes words.now) }
    ensures no { result ≡ false → IsNoAudit (map string_bytes words.now) }
{
    is_one(b"audit".as_slice(), words)
}

/// Whether the words are `promote`.
pub fn is_promotion(words: &[String]) -> bool
    ensures yes { result ≡ true → IsPromotion (map string_bytes words.now) }
    ensures no { result ≡ false → IsNoPromotion (map string_bytes words.now) }
{
    is_one(b"promote".as_slice(), words)
}

// The words `make SEED LINES`.
fn making_of(verb: &[u8], seed: &[u8], lines: &[u8]) -> Option<Making>
    ensures { MatchOption result (IsNoMake (verb.now ∷ seed.now ∷ lines.now ∷ [])) (λ m. IsMake (verb.now ∷ seed.now ∷ lines.now ∷ []) m.seed m.lines) }
{
    if verb != b"make".as_slice() {
        return None;
    }
    let Some(seed) = wide_number(seed) else {
        return None;
    };
    let Some(lines) = number(lines) else {
        return None;
    };
    if lines < 1 || lines > 65535 {
        return None;
    }
    Some(Making { seed, lines })
}

/// The generated script that the words ask for; `None` exactly for words that ask for none.
pub fn make_words(words: &[String]) -> Option<Making>
    ensures { MatchOption result (IsNoMake (map string_bytes words.now)) (λ m. IsMake (map string_bytes words.now) m.seed m.lines) }
{
    let [verb, seed, lines] = words else {
        return None;
    };
    making_of(verb.as_bytes(), seed.as_bytes(), lines.as_bytes())
}

// The words `packets SCRIPT FILE FIRST`.
fn sending_of(verb: &[u8], script: &[u8], file: &[u8], first: &[u8]) -> Option<Sending>
    ensures { MatchOption result (IsNoPackets (verb.now ∷ script.now ∷ file.now ∷ first.now ∷ [])) (λ s. IsPackets (verb.now ∷ script.now ∷ file.now ∷ first.now ∷ []) s.script s.file s.first) }
{
    if verb != b"packets".as_slice() {
        return None;
    }
    let Some(script) = file_name(script) else {
        return None;
    };
    let Some(file) = file_name(file) else {
        return None;
    };
    let Some(first) = wide_number(first) else {
        return None;
    };
    if first < 1 || first > 1 << 47 {
        return None;
    }
    Some(Sending {
        script,
        file,
        first,
    })
}

/// The run whose packets the words ask for; `None` exactly for words that ask for none.
pub fn packets_words(words: &[String]) -> Option<Sending>
    ensures { MatchOption result (IsNoPackets (map string_bytes words.now)) (λ s. IsPackets (map string_bytes words.now) s.script s.file s.first) }
{
    let [verb, script, file, first] = words else {
        return None;
    };
    sending_of(
        verb.as_bytes(),
        script.as_bytes(),
        file.as_bytes(),
        first.as_bytes(),
    )
}

// The way of that word.
fn way_of(verb: &[u8]) -> Option<Way>
    ensures { MatchOption result ((way : WayValue) → verb.now ≡ way_word way → ⊥) (λ way. verb.now ≡ way_word way) }
{
    if verb == b"import".as_slice() {
        return Some(Way::Import);
    }
    if verb == b"export".as_slice() {
        return Some(Way::Export);
    }
    None
}

// The words `import AU FILE` or `export FILE AU`.
fn conversion(verb: &[u8], source: &[u8], target: &[u8]) -> Option<Conversion>
    ensures { MatchOption result (IsNoConversion (verb.now ∷ source.now ∷ target.now ∷ [])) (λ c. IsConversion c.way (verb.now ∷ source.now ∷ target.now ∷ []) c.source c.target) }
{
    let Some(way) = way_of(verb) else {
        return None;
    };
    let Some(source) = file_name(source) else {
        return None;
    };
    let Some(target) = file_name(target) else {
        return None;
    };
    Some(Conversion {
        way,
        source,
        target,
    })
}

/// The conversion that the words ask for; `None` exactly for words that ask for none.
pub fn conversion_words(words: &[String]) -> Option<Conversion>
    ensures { MatchOption result (IsNoConversion (map string_bytes words.now)) (λ c. IsConversion c.way (map string_bytes words.now) c.source c.target) }
{
    let [verb, source, target] = words else {
        return None;
    };
    conversion(verb.as_bytes(), source.as_bytes(), target.as_bytes())
}

/// Whether the words ask for a conversion, which touches no disk.
pub fn is_conversion(words: &[String]) -> bool
    ensures yes { result ≡ true → (way : WayValue) × (source : List ℕ) × (target : List ℕ) × IsConversion way (map string_bytes words.now) source target }
    ensures no { result ≡ false → IsNoConversion (map string_bytes words.now) }
{
    match conversion_words(words) {
        Some(_) => true,
        None => false,
    }
}
