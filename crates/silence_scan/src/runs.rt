//! Talk and silence, window by window.

ghost use Rattle.std.specs.Prelude.{◌≡◌, ◌+◌, ◌≤◌, ◌<◌, ◌^◌, ℕ, List, [], ◌∷◌, ◌++◌, length, OnOk, IfOk};
ghost use Rattle.voice_model.specs.Talk.{is_quiet};
ghost use Rattle.silence_scan.specs.Scan.{interval, talk_of, reach, runs_of};

use std::alloc::Global;
use std::marker::Model;
use voice_model::Span;
use voice_units::NoMemory;

// So many quiet windows in a row are a silence.
const SILENCE: u32 = 25;

/// What is known of the talk before the next window.
#[derive(Drop)]
pub struct Runs {
    spans: Vec<Span>,
    // the talk that is not yet told
    start: u32,
    talk: u32,
    // the quiet windows behind it, and their samples
    quiet: u32,
    calm: u32,
}

impl Model for Runs {
    ghost use Rattle.std.specs.Prelude.{◌+◌, ◌≤◌, ◌^◌};
    ghost use Rattle.silence_scan.specs.Scan.{TalkSoFar, runs_of};

    ghost Value = { TalkSoFar };

    ghost view = { λ a. runs_of a.spans.items a.start a.talk a.quiet a.calm };

    ghost invariant = { λ a. (a.quiet ≤ a.calm) × (a.start + a.talk + a.calm ≤ 2 ^ 30) };
}

// An interval comes last, where it is not empty.
fn push_interval(spans: &mut Vec<Span>, start: u32, len: u32) -> Result<(), NoMemory>
    ensures { OnOk result (spans.new.items ≡ spans.old.items ++ interval start len) }
{
    if len == 0 {
        return Ok(());
    }
    spans.push(Span { start, len })?;
    Ok(())
}

impl Runs {
    /// No window yet. It takes no memory.
    pub fn new(alloc: Global) -> Runs
        ensures { result ≡ runs_of [] 0 0 0 0 }
    {
        Runs {
            spans: Vec::new(alloc),
            start: 0,
            talk: 0,
            quiet: 0,
            calm: 0,
        }
    }

    /// A window of `samples` samples comes next.
    pub fn add_window(&mut self, quiet: bool, samples: u32) -> Result<(), NoMemory>
        requires some { 0 < samples }
        requires room { reach self.old + samples ≤ 2 ^ 30 }
        ensures told { OnOk result ((w : List ℕ) (rest : List (List ℕ)) → is_quiet w ≡ quiet → length w ≡ samples → talk_of self.new rest ≡ talk_of self.old (w ∷ rest)) }
        ensures reached { OnOk result (reach self.new ≡ reach self.old + samples) }
        ensures within { reach self.new ≤ 2 ^ 30 }
    {
        if !quiet {
            if self.quiet >= SILENCE {
                self.start = self.start + self.talk + self.calm;
                self.talk = samples;
                self.quiet = 0;
                self.calm = 0;
                return Ok(());
            }
            self.talk = self.talk + self.calm + samples;
            self.quiet = 0;
            self.calm = 0;
            return Ok(());
        }
        if self.quiet == SILENCE - 1 {
            push_interval(&mut self.spans, self.start, self.talk)?;
            self.quiet = SILENCE;
            self.calm += samples;
            return Ok(());
        }
        self.quiet += 1;
        self.calm += samples;
        Ok(())
    }

    /// All the spans, where no window follows.
    pub fn finish(self) -> Result<Vec<Span>, NoMemory>
        ensures { IfOk result (λ spans. spans.items ≡ talk_of self []) }
    {
        let mut spans = self.spans;
        if self.quiet >= SILENCE {
            return Ok(spans);
        }
        push_interval(&mut spans, self.start, self.talk + self.calm)?;
        Ok(spans)
    }
}
