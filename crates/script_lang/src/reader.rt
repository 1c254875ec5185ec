//! Reading a script, line by line.

ghost use Rattle.std.specs.Prelude.{true, OnOk, IfErr, IfOk, ◌+◌, ◌≡◌, ℕ, ◌<◌, ◌≤◌, ◌^◌, length, max};
ghost use Rattle.script_lang.specs.Words.{lines_of, is_plain};
ghost use Rattle.script_lang.specs.Verbs.{is_built_verb, verbs_of};
ghost use Rattle.script_lang.specs.Parts.{empty_script};
ghost use Rattle.script_lang.specs.Reading.{Adds, line_read, step, read_lines, Parses};
ghost use Rattle.script_lang.specs.Grammar.{IsScript};
ghost use Rattle.script_lang.specs.Causes.{IsRead, ErrsAt, FirstBad, StopsAt};
ghost use Rattle.script_lang.specs.Whole.{IsWhole};
ghost use Rattle.script_lang.specs.declared.scripts.Cause.{Cause};
ghost use Rattle.script_lang.specs.Shown.{Reading};

use crate::owners::Owners;
use crate::phrases::Said;
use crate::samples::Samples;
use crate::scripts::{Cause, Line, Script, ScriptError};
use crate::sentence::{Refusal, Spoken, is_known, read_spoken, served};
use crate::verbs::Built;
use crate::words::{Words, cut_line, is_clean, is_plain_or_known, trimmed};
use std::alloc::Global;
use std::marker::Model;

/// A script as far as it was read.
#[derive(Drop)]
struct Reader {
    lines: Vec<Line>,
    samples: Samples,
    owners: Owners,
    callers: u16,
}

impl Model for Reader {
    ghost use Rattle.script_lang.specs.Shown.{Reading};

    ghost Value = { Reading };

    ghost use Rattle.script_lang.specs.Owners.{Owns};

    ghost view = { λ r. record { lines = r.lines.items; samples = r.samples; callers = r.callers } };

    ghost invariant = { λ r. Owns r.owners r.lines.items };
}

impl Reader {
    // No line was read.
    fn new(alloc: Global) -> Reader
        ensures { result ≡ empty_script }
    {
        Reader {
            lines: Vec::new(alloc),
            samples: Samples::new(alloc),
            owners: Owners::new(),
            callers: 1,
        }
    }

    // Adds what line `number` says.
    #[tactic(auto, unfolding(crate::specs::Reading::line_read))]
    fn speak(
        &mut self,
        alloc: Global,
        built: Built,
        number: u32,
        line: &[u8],
    ) -> Result<(), Refusal>
        requires { length self.old.samples < 2 ^ 32 }
        ensures read { Adds result (line_read (verbs_of built) number self.old line.now) self.new }
        ensures grows { length self.new.samples ≤ length self.old.samples + 1 }
    {
        let mut words = Words::new(line);
        let spoken = read_spoken(alloc, built, &mut words, &self.samples)?;
        let Spoken { caller, bind, said } = spoken;
        let Said { verb, file, sample } = said;
        if self.owners.is_taken(caller, served(&verb)) {
            return Err(Refusal::Bad(Cause::LaneTaken));
        }
        let lane = served(&verb);
        let known = is_known(&verb, self.samples.count());
        self.samples.mention(sample, known)?;
        self.lines.push(Line {
            number,
            caller,
            bind,
            verb,
            file,
        })?;
        self.owners.note(caller, lane);
        self.callers = self.callers.max(caller);
        Ok(())
    }

    // Adds line `number`. That it is plain may be known.
    #[tactic(auto, unfolding(crate::specs::Reading::step))]
    fn add(
        &mut self,
        alloc: Global,
        built: Built,
        number: u32,
        line: &[u8],
        clean: bool,
    ) -> Result<(), Refusal>
        requires few { length self.old.samples < 2 ^ 32 }
        requires clean { clean ≡ true → is_plain line.now ≡ true }
        ensures read { Adds result (step (verbs_of built) number self.old line.now) self.new }
        ensures grows { length self.new.samples ≤ length self.old.samples + 1 }
        ensures few { OnOk result (number ≤ 65535) }
    {
        if number > 65535 {
            return Err(Refusal::Bad(Cause::Lines));
        }
        if Words::new(line).are_quiet() {
            return Ok(());
        }
        if !is_plain_or_known(line, clean) {
            return Err(Refusal::Bad(Cause::Bytes));
        }
        self.speak(alloc, built, number, line)
    }

    // The whole script.
    fn done(self, alloc: Global) -> Result<Script, ScriptError>
        ensures ok { IfOk result (λ script. script ≡ self) }
        ensures err { IfErr result (λ e. e ≡ ScriptError.NoMemory) }
    {
        let Reader {
            lines,
            samples,
            callers,
            ..
        } = self;
        let samples = samples.names(alloc)?;
        Ok(Script {
            lines,
            samples,
            callers,
        })
    }
}

// The script that the bytes spell.
fn read_script(alloc: Global, bytes: &[u8], built: Built) -> Result<Script, ScriptError>
    ensures { Parses result (read_lines (verbs_of built) 1 empty_script (lines_of bytes.now)) }
{
    let mut reader = Reader::new(alloc);
    let clean = is_clean(bytes);
    let mut number = 0;
    let mut rest = bytes;
    'lines: while !rest.is_empty() {
        let (line, more) = cut_line(rest);
        number += 1;
        match reader.add(alloc, built, number, trimmed(line), clean) {
            Ok(()) => {}
            Err(Refusal::Bad(cause)) => return Err(ScriptError::BadLine(number, cause)),
            Err(Refusal::NoMemory) => return Err(ScriptError::NoMemory),
        }
        rest = more;
    }
    reader.done(alloc)
}

/// The script that the bytes spell in the language with those verbs, or their first line that is not in it.
pub fn parse_by(alloc: Global, bytes: &[u8], built: Built) -> Result<Script, ScriptError>
    ensures ok { IfOk result (IsScript (verbs_of built) bytes.now) }
    ensures only { (m : Reading) → IsScript (verbs_of built) bytes.now m → IsRead result m }
    ensures bad { IfErr result (ErrsAt (verbs_of built) bytes.now) }
    ensures exact { (line : ℕ) (cause : Cause) → FirstBad (verbs_of built) bytes.now line cause → StopsAt result line cause }
    ensures whole { IfOk result (IsWhole (verbs_of built)) }
{
    read_script(alloc, bytes, built)
}

/// The script that the bytes spell. `BadLine` names the first line that is not in the grammar, from 1, and its first cause; a verb that the store cannot do yet is cause `Verb`. The time is linear in the bytes.
#[tactic(auto, unfolding(crate::specs::Verbs::verbs_of))]
pub fn parse(alloc: Global, bytes: &[u8]) -> Result<Script, ScriptError>
    ensures ok { IfOk result (IsScript is_built_verb bytes.now) }
    ensures only { (m : Reading) → IsScript is_built_verb bytes.now m → IsRead result m }
    ensures bad { IfErr result (ErrsAt is_built_verb bytes.now) }
    ensures exact { (line : ℕ) (cause : Cause) → FirstBad is_built_verb bytes.now line cause → StopsAt result line cause }
    ensures whole { IfOk result (IsWhole is_built_verb) }
{
    parse_by(alloc, bytes, Built::Now)
}
