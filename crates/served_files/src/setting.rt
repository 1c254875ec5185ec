//! The files of a finished script, set in the order of its history.

ghost use Rattle.std.specs.Prelude.{◌≡◌, ◌≤◌, Some, IfSome, OnOk, OnErr, is_some, length};
ghost use Rattle.voice_outside.specs.Causes.{HasCause};
ghost use Rattle.served_files.specs.Given.{ends_serving};
ghost use Rattle.served_files.specs.Files.{AreEnough, SetInto, queues_of, files_set};

use crate::heard::{Heard, is_over};
use voice_model::{Call, Entry};
use voice_outside::{OutsideError, Shelf};

// Whether it is the last entry of a serving, which gives a file.
fn ends_serving(entry: &Entry) -> bool
    ensures { result ≡ ends_serving entry.now }
{
    matches!(entry.call, Call::Feed(_, _)) && is_over(&entry.reply)
}

/// Sets the files of a history, each as its entry comes: the next one of what the entry's caller heard. After an error those before stand, and what the next one holds is open.
pub fn set_files<K: Shelf>(
    shelf: &mut K,
    history: &[Entry],
    heard: &[Vec<Heard>],
) -> Result<(), OutsideError>
    requires few { length heard.now ≤ 16 }
    // There is a file for each entry that ends a serving, and such an entry is of a caller with a list.
    requires enough { AreEnough history.now heard.now }
    ensures ok { IfSome (K.files shelf.old) (λ files. OnOk result (K.files shelf.new ≡ Some (files_set history.now (queues_of heard.now) files))) }
    ensures err { IfSome (K.files shelf.old) (λ files. OnErr result (IfSome (K.files shelf.new) (SetInto history.now (queues_of heard.now) files))) }
    ensures tells { is_some (K.files shelf.new) ≡ is_some (K.files shelf.old) }
    ensures cause { HasCause (K.faults shelf.old) (K.faults shelf.new) result }
{
    let mut at = [0usize; 16];
    for entry in history {
        if ends_serving(entry) {
            let caller = entry.caller as usize - 1;
            let own = &heard[caller];
            let file = &own[at[caller]];
            at[caller] += 1;
            match shelf.put(&file.file, &file.bytes) {
                Ok(()) => {}
                Err(error) => return Err(error),
            }
        }
    }
    Ok(())
}
