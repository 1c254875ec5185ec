//! The text that a run prints.

ghost use Rattle.std.specs.Prelude.{ℕ, List, Some, ◌≡◌, ◌≤◌, ◌++◌, ◌⊎◌, OnOk, IfOk, IfSome, IsErrOf, take};
ghost use Rattle.voice_model.specs.Text.{text_of};
ghost use Rattle.voice_outside.specs.Counters.{HasRisen};
ghost use Rattle.voice_main.specs.Statuses.{Prints};

use crate::status::Status;
use script_lang::entry_text;
use std::alloc::Global;
use voice_model::Entry;
use voice_outside::{OutsideError, Sink};
use voice_units::NoMemory;

/// The text of a history: one line for each entry, in order.
pub fn history_text(alloc: Global, history: &[Entry]) -> Result<Vec<u8>, NoMemory>
    ensures { IfOk result (λ text. text.items ≡ text_of history.now) }
{
    let mut text = Vec::new(alloc);
    for (i, entry) in history.iter().enumerate() {
        entry_text(i as u64 + 1, entry, &mut text)?;
    }
    Ok(text)
}

// Writes all the bytes. After an error the sink has taken a front of them.
fn write_all<O: Sink>(out: &mut O, bytes: &[u8]) -> Result<(), OutsideError>
    ensures ok { OnOk result (IfSome (O.contents out.old) (λ had. O.contents out.new ≡ Some (had ++ bytes.now))) }
    ensures prefix { IfSome (O.contents out.old) (λ had. (n : ℕ) × (O.contents out.new ≡ Some (had ++ take n bytes.now))) }
    ensures failed { IsErrOf result OutsideError.Failed → HasRisen (O.faults out.old) (O.faults out.new) ⊎ HasRisen (O.empty_takes out.old) (O.empty_takes out.new) }
    ensures later { O.faults out.old ≤ O.faults out.new }
    ensures empty_later { O.empty_takes out.old ≤ O.empty_takes out.new }
{
    let mut at = 0;
    'pieces: while at < bytes.len() {
        let n = match out.write(&bytes[at..]) {
            Ok(n) => n,
            Err(e) => return Err(e),
        };
        if n == 0 {
            return Err(OutsideError::Failed);
        }
        at += n;
    }
    Ok(())
}

/// Prints a text.
pub fn print_text<O: Sink>(text: &[u8], out: &mut O) -> Status
    ensures which { Prints (HasRisen (O.faults out.old) (O.faults out.new) ⊎ HasRisen (O.empty_takes out.old) (O.empty_takes out.new)) result }
    ensures done { result ≡ Status.Done → IfSome (O.contents out.old) (λ had. O.contents out.new ≡ Some (had ++ text.now)) }
    ensures prefix { IfSome (O.contents out.old) (λ had. (n : ℕ) × (O.contents out.new ≡ Some (had ++ take n text.now))) }
{
    match write_all(out, text) {
        Ok(()) => Status::Done,
        Err(OutsideError::Failed) => Status::SinkFault,
        Err(OutsideError::NoMemory) => Status::NoMemory,
    }
}

/// Prints a history.
pub fn print<O: Sink>(alloc: Global, history: &[Entry], out: &mut O) -> Status
    ensures which { Prints (HasRisen (O.faults out.old) (O.faults out.new) ⊎ HasRisen (O.empty_takes out.old) (O.empty_takes out.new)) result }
    ensures done { result ≡ Status.Done → IfSome (O.contents out.old) (λ had. O.contents out.new ≡ Some (had ++ text_of history.now)) }
    ensures prefix { IfSome (O.contents out.old) (λ had. (n : ℕ) × (O.contents out.new ≡ Some (had ++ take n (text_of history.now)))) }
{
    let Ok(text) = history_text(alloc, history) else {
        return Status::NoMemory;
    };
    print_text(&text, out)
}
