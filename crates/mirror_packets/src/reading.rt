//! The packets that bytes spell.

ghost use Rattle.std.specs.Prelude.{◌≡◌, ◌+◌, true, false, option_map, IfOk, IfErr};
ghost use Rattle.voice_model.specs.Spelling.{change_in};
ghost use Rattle.mirror_packets.specs.Packets.{is_followed, voice_in, brought, body_in, reading_of, Reading, AreSpelled};
ghost use Rattle.mirror_packets.specs.Shown.{body_of, packets_of, IsHead, IsFound, IsNoPacket, IsBad};

use crate::{Body, Packet, PacketError};
use change_codec::{GetError, get};
use disk_areas::{read_4, read_8};
use std::alloc::Global;
use voice_model::Change;
use voice_units::{NoMemory, RopeId};

// The first byte of the body that brings a voice file.
const VOICE: u8 = 0x20;

/// A packet, and where it ends.
#[derive(Drop)]
pub struct Found<'a> {
    pub packet: Packet<'a>,
    pub end: usize,
}

// Whether packets bring changes of this kind.
fn is_followed(change: &Change) -> bool
    ensures { result ≡ is_followed change.now }
{
    match change {
        Change::Edited(..)
        | Change::Retained(..)
        | Change::Forgotten(..)
        | Change::Census(..)
        | Change::Swept(..)
        | Change::Advanced(..) => true,
        _ => false,
    }
}

// The voice file that a body brings, none where its bytes are none.
fn voice_in<'a>(body: &'a [u8]) -> Option<Body<'a>>
    ensures { option_map body_of result ≡ voice_in body.now }
{
    if body.len() < 9 {
        return None;
    }
    let id = read_8(body, 1);
    if id < 1 {
        return None;
    }
    if id > 1 << 48 {
        return None;
    }
    if body.len() > 9 + (1 << 30) {
        return None;
    }
    Some(Body::Voice(RopeId(id), &body[9..]))
}

// The change that a body brings, none where its bytes spell none of the kinds that packets bring.
fn change_in<'a>(alloc: Global, body: &'a [u8]) -> Result<Option<Body<'a>>, NoMemory>
    ensures { IfOk result (λ found. option_map body_of found ≡ brought (change_in body.now)) }
{
    let change = match get(alloc, body) {
        Ok(change) => change,
        Err(GetError::NotAChange(_)) => return Ok(None),
        Err(GetError::NoMemory) => return Err(NoMemory),
    };
    if !is_followed(&change) {
        return Ok(None);
    }
    Ok(Some(Body::Other(change)))
}

// The body that bytes spell, none where they spell none.
fn body_in<'a>(alloc: Global, body: &'a [u8]) -> Result<Option<Body<'a>>, NoMemory>
    ensures { IfOk result (λ found. option_map body_of found ≡ body_in body.now) }
{
    if body.is_empty() {
        return Ok(None);
    }
    if body[0] == VOICE {
        return Ok(voice_in(body));
    }
    change_in(alloc, body)
}

// Where the packet ends with which bytes begin, none where its number is out of range or its end behind theirs.
fn end_in(rest: &[u8]) -> Option<usize>
    ensures { IsHead rest.now result }
{
    if rest.len() < 12 {
        return None;
    }
    let number = read_8(rest, 0);
    if number < 1 {
        return None;
    }
    if number > 1 << 48 {
        return None;
    }
    let end = 12 + read_4(rest, 8) as usize;
    if end > rest.len() {
        return None;
    }
    Some(end)
}

// The packet with which bytes begin that stand from a place on.
fn packet_in<'a>(alloc: Global, rest: &'a [u8], at: usize) -> Result<Found<'a>, PacketError>
    ensures found { IfOk result (λ found. IsFound rest.now found) }
    ensures bad { IfErr result (λ e. IsNoPacket at rest.now e) }
{
    let bad = PacketError::BadPackets(at as u64);
    let Some(end) = end_in(rest) else {
        return Err(bad);
    };
    let Ok(found) = body_in(alloc, &rest[12..end]) else {
        return Err(PacketError::NoMemory);
    };
    let Some(body) = found else {
        return Err(bad);
    };
    let packet = Packet {
        number: read_8(rest, 0),
        body,
    };
    Ok(Found { packet, end })
}

/// The packets that bytes spell. `BadPackets` comes exactly where they spell none and names the place of the first packet that is not good, unless memory wants first.
pub fn parse<'a>(alloc: Global, bytes: &'a [u8]) -> Result<Vec<Packet<'a>>, PacketError>
    ensures ok { IfOk result (λ packets. reading_of bytes.now ≡ Reading.Packets (packets_of packets.items)) }
    ensures spelled { IfOk result (λ packets. AreSpelled bytes.now (packets_of packets.items)) }
    ensures bad { IfErr result (λ e. IsBad bytes.now e) }
{
    let mut packets = Vec::new(alloc);
    let mut rest = bytes;
    while !rest.is_empty() {
        let at = bytes.len() - rest.len();
        let found = packet_in(alloc, rest, at)?;
        let Found { packet, end } = found;
        rest = &rest[end..];
        let Ok(()) = packets.push(packet) else {
            return Err(PacketError::NoMemory);
        };
    }
    Ok(packets)
}
