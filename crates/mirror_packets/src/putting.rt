//! The bytes of a packet.

ghost use Rattle.std.specs.Prelude.{◌≡◌, ◌+◌, ◌≤◌, ◌++◌, length, vec_capacity, IsOk, OnOk, OnErr};
ghost use Rattle.mirror_packets.specs.Packets.{body_spelling, packet_spelling, IsGoodBody, IsGoodPacket};
ghost use Rattle.mirror_packets.specs.Shown.{body_of, packet_of};

use crate::{Body, Packet};
use change_codec::size;
use disk_areas::{append, append_4, append_8};
use voice_units::NoMemory;

// How many bytes spell a body.
fn body_size(body: &Body) -> u32
    requires { IsGoodBody (body_of body.now) }
    ensures { result ≡ length (body_spelling (body_of body.now)) }
{
    match body {
        Body::Voice(_, samples) => 9 + samples.len() as u32,
        Body::Other(change) => size(change) as u32,
    }
}

// Appends a body for which there is room.
fn append_body(out: &mut Vec<u8>, body: &Body)
    requires good { IsGoodBody (body_of body.now) }
    requires room { length out.old.items + length (body_spelling (body_of body.now)) ≤ vec_capacity out.old }
    ensures { out.new.items ≡ out.old.items ++ body_spelling (body_of body.now) }
{
    match body {
        Body::Voice(id, samples) => {
            append(out, &[0x20]);
            append_8(out, id.number());
            append(out, samples);
        }
        Body::Other(change) => {
            let _ = change_codec::put(change, out);
        }
    }
}

/// Appends the bytes of a packet. After want of memory nothing is appended.
pub fn put(packet: &Packet, out: &mut Vec<u8>) -> Result<(), NoMemory>
    requires { IsGoodPacket (packet_of packet.now) }
    ensures ok { OnOk result (out.new.items ≡ out.old.items ++ packet_spelling (packet_of packet.now)) }
    ensures err { OnErr result (out.new.items ≡ out.old.items) }
    ensures spare { length out.old.items + length (packet_spelling (packet_of packet.now)) ≤ vec_capacity out.old → IsOk result }
{
    let len = body_size(&packet.body);
    out.reserve(12 + len as usize)?;
    append_8(out, packet.number);
    append_4(out, len);
    append_body(out, &packet.body);
    Ok(())
}
