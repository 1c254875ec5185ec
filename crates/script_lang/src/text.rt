//! The text of an entry.

ghost use Rattle.std.specs.Prelude.{◌≡◌, ◌++◌, OnOk, OnErr};
ghost use Rattle.voice_model.specs.Text.{entry_text};

use voice_model::Entry;
use voice_units::NoMemory;

/// Appends the line of entry `index` of a history, from 1. After want of memory `out` is as before.
pub fn entry_text(index: u64, entry: &Entry, out: &mut Vec<u8>) -> Result<(), NoMemory>
    ensures ok { OnOk result (out.new.items ≡ out.old.items ++ entry_text index entry.now) }
    ensures err { OnErr result (out.new.items ≡ out.old.items) }
{
    let caller = entry.caller;
    let call = &entry.call;
    let reply = &entry.reply;
    let alloc = *out.allocator();
    let line = format!(in alloc; "{index} {caller} {call}: {reply}\n")?;
    out.extend_from_slice(line.as_bytes())?;
    Ok(())
}
