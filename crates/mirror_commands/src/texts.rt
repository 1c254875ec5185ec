//! The text that tells what became of packets.

ghost use Rattle.std.specs.Prelude.{◌≡◌, ◌++◌, IfOk, OnOk, length};
ghost use Rattle.mirror_packets.specs.Shown.{packets_of};
ghost use Rattle.mirror_commands.specs.Texts.{packet_line, mirror_text};

use mirror_packets::Packet;
use std::alloc::Global;
use voice_mirror::Taken;
use voice_units::NoMemory;

// Appends the line of a packet of that number.
fn put_line(number: u64, answer: Taken, text: &mut Vec<u8>) -> Result<(), NoMemory>
    ensures { OnOk result (text.new.items ≡ text.old.items ++ packet_line number answer) }
{
    let alloc = *text.allocator();
    let line = match answer {
        Taken::Done => format!(in alloc; "packet {number} taken\n")?,
        Taken::Again => format!(in alloc; "packet {number} again\n")?,
        Taken::Early(position) => format!(in alloc; "packet {number} early {position}\n")?,
        Taken::Strange => format!(in alloc; "packet {number} strange\n")?,
        Taken::NoRoom(need, free) => format!(in alloc; "packet {number} no-room {need} {free}\n")?,
        Taken::JournalFull(need, left) => format!(in alloc;
            "packet {number} journal-full {need} {left}\n"
        )?,
        Taken::DiskFault => format!(in alloc; "packet {number} disk-fault\n")?,
        Taken::InDoubt => format!(in alloc; "packet {number} in-doubt\n")?,
    };
    text.extend_from_slice(line.as_bytes())?;
    Ok(())
}

/// A line for each packet, and behind them the position.
pub(crate) fn text_of(
    alloc: Global,
    packets: &[Packet],
    answers: &[Taken],
    position: u64,
) -> Result<Vec<u8>, NoMemory>
    ensures { IfOk result (λ text. text.items ≡ mirror_text (packets_of packets.now) answers.now position) }
{
    let mut text = Vec::new(alloc);
    for (packet, answer) in packets.iter().zip(answers) {
        put_line(packet.number, *answer, &mut text)?;
    }
    let line = format!(in alloc; "position {position}\n")?;
    text.extend_from_slice(line.as_bytes())?;
    Ok(text)
}
