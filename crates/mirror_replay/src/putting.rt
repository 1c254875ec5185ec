//! The bytes of a change with its number.

ghost use Rattle.std.specs.Prelude.{◌≡◌, ◌+◌, ◌≤◌, ◌++◌, length, true, vec_len, vec_capacity, IsOk, OnOk, OnErr};
ghost use Rattle.disk_areas.specs.Numbers.{number_bytes};
ghost use Rattle.voice_model.specs.Spelling.{spelling, keeps_grammar};

use change_codec::{put, size};
use disk_areas::append_8;
use voice_model::Change;
use voice_units::NoMemory;

/// Appends a number and the bytes of a change. `NoMemory` comes only where there was no room for them, and leaves the bytes as they were.
pub fn put_numbered(number: u64, change: &Change, out: &mut Vec<u8>) -> Result<(), NoMemory>
    requires { keeps_grammar change.now ≡ true }
    ensures ok { OnOk result (out.new.items ≡ out.old.items ++ (number_bytes 8 number ++ spelling change.now)) }
    ensures err { OnErr result (out.new.items ≡ out.old.items) }
    ensures room { vec_len out.old + (8 + length (spelling change.now)) ≤ vec_capacity out.old → IsOk result }
{
    let Some(len) = (size(change) as usize).checked_add(8) else {
        return Err(NoMemory);
    };
    out.reserve(len)?;
    append_8(out, number);
    let _ = put(change, out);
    Ok(())
}
