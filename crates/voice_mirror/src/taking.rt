//! A packet is taken.

ghost use Rattle.std.specs.Prelude.{◌≡◌, ◌+◌, ◌^◌, ◌≤◌, ℕ, List, Option, None, true, nat_lt, length, IsTrue, IfOk, OnOk, OnErr};
ghost use Rattle.std.specs.List.{list_all};
ghost use Rattle.voice_units.specs.Blocks.{blocks_for};
ghost use Rattle.voice_outside.specs.Disk.{MakesAtMost};
ghost use Rattle.voice_outside.specs.Counters.{HasRisen};
ghost use Rattle.voice_journal.specs.Readings.{extent};
ghost use Rattle.voice_model.specs.Samples.{Tagged};
ghost use Rattle.voice_model.specs.State.{Durable, Effect};
ghost use Rattle.voice_model.specs.Spelling.{keeps_grammar, is_id};
ghost use Rattle.voice_model.specs.Places.{AllUsed};
ghost use Rattle.voice_model.specs.Replay.{Rebuilt, all_differ, is_free_address};
ghost use Rattle.voice_blocks.specs.Holders.{open_in};
ghost use Rattle.fillings.specs.Laws.{HasBytes};
ghost use Rattle.recovery.specs.Shown.{Rebuilds, IsParts};
ghost use Rattle.crash_laws.specs.Calls.{SparesWithin};
ghost use Rattle.mirror_packets.specs.Packets as spec;
ghost use Rattle.mirror_packets.specs.Packets.{IsGoodBody, IsGoodPacket};
ghost use Rattle.mirror_packets.specs.Shown.{body_of, packet_of};
ghost use Rattle.mirror_laws.specs.Standing.{Took};
ghost use Rattle.mirror_tables.specs.Beside.{IsBeside, AreFree};
ghost use Rattle.voice_mirror.specs.Shown.{Keeps, IsStanding, state_of};
ghost use Rattle.voice_mirror.specs.Taking.{settled, body_blocks, packet_calls, Becomes, Judges, Answers, AnswersBody, TakesOr, Takes};
ghost use Rattle.voice_mirror.specs.Ready.{MayCommit, IsPut, IsOfDevice};
ghost use Rattle.voice_mirror.specs.Promoting.{Goes};

use crate::answers::Taken;
use crate::committing::commit;
use crate::discarding::discard_ready;
use crate::inside::Inside;
use crate::landing::{put_beside, settle};
use crate::ready::{Readied, Ready, make_ready, next_tables};
use change_codec::{get, put, size};
use mirror_effects::laws::bodies_do;
use mirror_laws::laws::foundations;
use mirror_packets::{Body, Packet};
use mirror_tables::{Beside, free_addresses};
use recording_writer::write_samples;
use std::alloc::Global;
use voice_model::{AddressList, Change};
use voice_outside::Disk;
use voice_units::{Failed, NoMemory, RopeId, Shape, blocks_needed};

// A change that is equal to one that is lent.
fn copied(alloc: Global, change: &Change) -> Result<Change, NoMemory>
    requires { keeps_grammar change.now ≡ true }
    ensures { IfOk result (λ copy. copy ≡ change.now) }
{
    let mut bytes = Vec::with_capacity(alloc, size(change) as usize)?;
    put(change, &mut bytes)?;
    let Ok(copy) = get(alloc, &bytes) else {
        return Err(NoMemory);
    };
    Ok(copy)
}

// The n lowest free addresses.
fn pick(inside: &mut Inside, n: u32) -> Result<Vec<u32>, NoMemory>
    requires parts { IsParts inside.old.journal.shape inside.old.parts }
    requires beside { IsBeside inside.old.journal.shape inside.old.parts inside.old.beside }
    ensures free { (b : Rebuilt) → Rebuilds inside.old.parts b → IfOk result (λ list. AreFree b n list.items) }
    ensures rest { inside.new ≡ record inside.old { beside = inside.new.beside } }
    ensures beside { IsBeside inside.old.journal.shape inside.old.parts inside.new.beside }
    ensures standing { (size : ℕ) → IsStanding size inside.old → IsStanding size inside.new }
{
    let mut tables = next_tables(inside)?;
    let found = free_addresses(inside.alloc, &mut tables, n);
    put_beside(inside, Beside::Same(tables));
    match found {
        Ok(Some(list)) => Ok(Vec::from_slice(inside.alloc, list.items())?),
        Ok(None) => Err(NoMemory),
        Err(e) => Err(e),
    }
}

// A voice file: its number, its samples, their addresses, and room for a block.
#[derive(Drop)]
struct Voice<'a> {
    id: RopeId,
    samples: &'a [u8],
    addresses: Vec<u32>,
    room: Vec<u8>,
}

// The change that keeps a voice file at n addresses below `blocks`.
fn wide(
    alloc: Global,
    id: RopeId,
    samples: &[u8],
    addresses: &[u32],
    n: u32,
    blocks: u32,
) -> Result<Change, NoMemory>
    requires id { is_id id ≡ true }
    requires long { length samples.now ≤ 2 ^ 30 }
    requires count { length addresses.now ≡ n }
    requires below { list_all (λ a. nat_lt a blocks) addresses.now ≡ true }
    ensures change { IfOk result (λ change. change ≡ Change.Wide id (length samples.now) addresses.now) }
    ensures grammar { IfOk result (λ change. keeps_grammar change ≡ true) }
{
    let list = AddressList::of(Vec::from_slice(alloc, addresses)?);
    Ok(Change::Wide(id, samples.len() as u32, list))
}

// Writes samples into their blocks; the last one is filled up with zeros.
fn write<D: Disk>(
    disk: &mut D,
    shape: &Shape,
    addresses: &[u32],
    samples: &[u8],
    room: &mut [u8],
) -> Result<(), Failed>
    requires enough { length addresses.now ≡ blocks_for shape.now.block (length samples.now) }
    requires differ { all_differ addresses.now ≡ true }
    requires free { (b : Rebuilt) × (b.shape ≡ shape.now) × (list_all (is_free_address b) addresses.now ≡ true) }
    requires room { length room.old ≡ shape.now.block }
    requires fits { extent shape.now ≤ (D.told disk.old).size }
    ensures made { MakesAtMost (length addresses.now) (D.told disk.old) (D.told disk.new) result }
    ensures spares { IsTrue (D.told disk.old).honest → (b : Rebuilt) → b.shape ≡ shape.now → AllUsed b → list_all (is_free_address b) addresses.now ≡ true → SparesWithin shape.now b (D.told disk.old) (D.told disk.new) }
    ensures written { IsTrue (D.told disk.old).honest → OnOk result (HasBytes (D.told disk.new).bytes shape.now addresses.now samples.now) }
{
    write_samples(shape, disk, addresses, samples, room)
}

// Writes the samples of a voice file whose change is ready, and then puts that.
fn write_and_commit<D: Disk>(
    disk: &mut D,
    inside: &mut Inside,
    number: u64,
    ready: Ready,
    voice: Voice,
) -> Taken
    requires standing { IsStanding (D.told disk.old).size inside.old }
    requires may { MayCommit (state_of inside.old) number ready }
    requires good { IsGoodBody (spec.Body.Voice voice.id voice.samples.now) }
    requires change { ready.change ≡ Change.Wide voice.id (length voice.samples.now) voice.addresses.items }
    requires free { (b : Rebuilt) → Rebuilds inside.old.parts b → AreFree b (blocks_for inside.old.journal.shape.block (length voice.samples.now)) voice.addresses.items }
    requires room { length voice.room.items ≡ inside.old.journal.shape.block }
    ensures goes { Goes (blocks_for inside.old.journal.shape.block (length voice.entry.samples.now) + 6) (D.told disk.old) (D.told disk.new) }
    ensures standing { IsStanding (D.told disk.new).size inside.new }
    ensures put { IsPut result }
    ensures becomes { Becomes (state_of inside.old) result (state_of inside.new) }
    ensures fault { IsOfDevice result → HasRisen (D.told disk.old).faults (D.told disk.new).faults }
    ensures alloc { inside.new.alloc ≡ inside.old.alloc }
    ensures shape { inside.new.journal.shape ≡ inside.old.journal.shape }
    ensures takes { IsTrue (D.told disk.old).honest → (first : Durable Tagged) (from t0 : ℕ) (taken : List Took) → Keeps first from t0 taken None (D.told disk.old) (state_of inside.old)
        → Takes first from t0 taken (D.told disk.new) (state_of inside.new) number (spec.Body.Voice voice.entry.id voice.entry.samples.now) result }
{
    foundations();
    bodies_do();
    let shape = inside.journal.shape();
    let Voice {
        id: _,
        samples,
        addresses,
        mut room,
    } = voice;
    let Ok(()) = write(disk, &shape, &addresses, samples, &mut room) else {
        discard_ready(ready);
        return Taken::DiskFault;
    };
    commit(disk, inside, number, ready)
}

// Takes a voice file whose blocks have addresses.
fn place_voice<D: Disk>(
    disk: &mut D,
    inside: &mut Inside,
    number: u64,
    change: Change,
    voice: Voice,
) -> Result<Taken, NoMemory>
    requires standing { IsStanding (D.told disk.old).size inside.old }
    requires sure { inside.old.pending ≡ None }
    requires next { number ≡ inside.old.position + 1 }
    requires low { number ≤ 2 ^ 48 }
    requires good { IsGoodBody (spec.Body.Voice voice.id voice.samples.now) }
    requires grammar { keeps_grammar change ≡ true }
    requires change { change ≡ Change.Wide voice.id (length voice.samples.now) voice.addresses.items }
    requires free { (b : Rebuilt) → Rebuilds inside.old.parts b → AreFree b (blocks_for inside.old.journal.shape.block (length voice.samples.now)) voice.addresses.items }
    requires enough { blocks_for inside.old.journal.shape.block (length voice.samples.now) ≤ open_in inside.old.parts.blocks.holders }
    requires room { length voice.room.items ≡ inside.old.journal.shape.block }
    ensures goes { Goes (blocks_for inside.old.journal.shape.block (length voice.entry.samples.now) + 6) (D.told disk.old) (D.told disk.new) }
    ensures standing { IsStanding (D.told disk.new).size inside.new }
    ensures answers { IfOk result (λ answer. AnswersBody (state_of inside.old) (spec.Body.Voice voice.entry.id voice.entry.samples.now) answer (state_of inside.new)) }
    ensures fault { IfOk result (λ answer. IsOfDevice answer → HasRisen (D.told disk.old).faults (D.told disk.new).faults) }
    ensures refused { IfOk result (λ answer. ¬ IsPut answer → disk.new ≡ disk.old) }
    ensures memory { OnErr result ((state_of inside.new ≡ state_of inside.old) × (disk.new ≡ disk.old)) }
    ensures alloc { inside.new.alloc ≡ inside.old.alloc }
    ensures shape { inside.new.journal.shape ≡ inside.old.journal.shape }
    ensures takes { IsTrue (D.told disk.old).honest → (first : Durable Tagged) (from t0 : ℕ) (taken : List Took) → Keeps first from t0 taken None (D.told disk.old) (state_of inside.old)
        → IfOk result (λ answer. Takes first from t0 taken (D.told disk.new) (state_of inside.new) number (spec.Body.Voice voice.entry.id voice.entry.samples.now) answer) }
{
    bodies_do();
    match make_ready(inside, number, change)? {
        Readied::Goes(ready) => Ok(write_and_commit(disk, inside, number, ready, voice)),
        Readied::Strange => Ok(Taken::Strange),
        Readied::Full(need, left) => Ok(Taken::JournalFull(need, left)),
    }
}

// Takes a voice file under the next number.
fn take_voice<D: Disk>(
    disk: &mut D,
    inside: &mut Inside,
    number: u64,
    id: RopeId,
    samples: &[u8],
) -> Result<Taken, NoMemory>
    requires standing { IsStanding (D.told disk.old).size inside.old }
    requires sure { inside.old.pending ≡ None }
    requires next { number ≡ inside.old.position + 1 }
    requires low { number ≤ 2 ^ 48 }
    requires good { IsGoodBody (spec.Body.Voice id samples.now) }
    ensures goes { Goes (blocks_for inside.old.journal.shape.block (length samples.now) + 6) (D.told disk.old) (D.told disk.new) }
    ensures standing { IsStanding (D.told disk.new).size inside.new }
    ensures answers { IfOk result (λ answer. AnswersBody (state_of inside.old) (spec.Body.Voice id samples.now) answer (state_of inside.new)) }
    ensures fault { IfOk result (λ answer. IsOfDevice answer → HasRisen (D.told disk.old).faults (D.told disk.new).faults) }
    ensures refused { IfOk result (λ answer. ¬ IsPut answer → disk.new ≡ disk.old) }
    ensures memory { OnErr result ((state_of inside.new ≡ state_of inside.old) × (disk.new ≡ disk.old)) }
    ensures alloc { inside.new.alloc ≡ inside.old.alloc }
    ensures shape { inside.new.journal.shape ≡ inside.old.journal.shape }
    ensures takes { IsTrue (D.told disk.old).honest → (first : Durable Tagged) (from t0 : ℕ) (taken : List Took) → Keeps first from t0 taken None (D.told disk.old) (state_of inside.old)
        → IfOk result (λ answer. Takes first from t0 taken (D.told disk.new) (state_of inside.new) number (spec.Body.Voice id samples.now) answer) }
{
    if id.number() < inside.parts.next {
        return Ok(Taken::Strange);
    }
    let shape = inside.journal.shape();
    let need = blocks_needed(shape.block, samples.len() as u64);
    let free = inside.parts.blocks.free();
    if need > free {
        return Ok(Taken::NoRoom(need, free));
    }
    let addresses = pick(inside, need)?;
    let change = wide(inside.alloc, id, samples, &addresses, need, shape.blocks)?;
    let room = vec![in inside.alloc; 0u8; shape.block as usize]?;
    let voice = Voice {
        id,
        samples,
        addresses,
        room,
    };
    place_voice(disk, inside, number, change, voice)
}

// Takes a change under the next number.
fn take_other<D: Disk>(
    disk: &mut D,
    inside: &mut Inside,
    number: u64,
    change: &Change,
) -> Result<Taken, NoMemory>
    requires standing { IsStanding (D.told disk.old).size inside.old }
    requires sure { inside.old.pending ≡ None }
    requires next { number ≡ inside.old.position + 1 }
    requires low { number ≤ 2 ^ 48 }
    requires good { IsGoodBody (spec.Body.Other change.now) }
    ensures goes { Goes 6 (D.told disk.old) (D.told disk.new) }
    ensures standing { IsStanding (D.told disk.new).size inside.new }
    ensures answers { IfOk result (λ answer. AnswersBody (state_of inside.old) (spec.Body.Other change.now) answer (state_of inside.new)) }
    ensures fault { IfOk result (λ answer. IsOfDevice answer → HasRisen (D.told disk.old).faults (D.told disk.new).faults) }
    ensures refused { IfOk result (λ answer. ¬ IsPut answer → disk.new ≡ disk.old) }
    ensures memory { OnErr result ((state_of inside.new ≡ state_of inside.old) × (disk.new ≡ disk.old)) }
    ensures alloc { inside.new.alloc ≡ inside.old.alloc }
    ensures shape { inside.new.journal.shape ≡ inside.old.journal.shape }
    ensures takes { IsTrue (D.told disk.old).honest → (first : Durable Tagged) (from t0 : ℕ) (taken : List Took) → Keeps first from t0 taken None (D.told disk.old) (state_of inside.old)
        → IfOk result (λ answer. Takes first from t0 taken (D.told disk.new) (state_of inside.new) number (spec.Body.Other change.now) answer) }
{
    foundations();
    bodies_do();
    let copy = copied(inside.alloc, change)?;
    match make_ready(inside, number, copy)? {
        Readied::Goes(ready) => Ok(commit(disk, inside, number, ready)),
        Readied::Strange => Ok(Taken::Strange),
        Readied::Full(need, left) => Ok(Taken::JournalFull(need, left)),
    }
}

// Takes a body under the next number.
fn take_body<D: Disk>(
    disk: &mut D,
    inside: &mut Inside,
    number: u64,
    body: &Body,
) -> Result<Taken, NoMemory>
    requires standing { IsStanding (D.told disk.old).size inside.old }
    requires sure { inside.old.pending ≡ None }
    requires next { number ≡ inside.old.position + 1 }
    requires low { number ≤ 2 ^ 48 }
    requires good { IsGoodBody (body_of body.now) }
    ensures goes { Goes (body_blocks inside.old.journal.shape.block (body_of body.now) + 6) (D.told disk.old) (D.told disk.new) }
    ensures standing { IsStanding (D.told disk.new).size inside.new }
    ensures answers { IfOk result (λ answer. AnswersBody (state_of inside.old) (body_of body.now) answer (state_of inside.new)) }
    ensures fault { IfOk result (λ answer. IsOfDevice answer → HasRisen (D.told disk.old).faults (D.told disk.new).faults) }
    ensures refused { IfOk result (λ answer. ¬ IsPut answer → disk.new ≡ disk.old) }
    ensures memory { OnErr result ((state_of inside.new ≡ state_of inside.old) × (disk.new ≡ disk.old)) }
    ensures alloc { inside.new.alloc ≡ inside.old.alloc }
    ensures shape { inside.new.journal.shape ≡ inside.old.journal.shape }
    ensures takes { IsTrue (D.told disk.old).honest → (first : Durable Tagged) (from t0 : ℕ) (taken : List Took) → Keeps first from t0 taken None (D.told disk.old) (state_of inside.old)
        → IfOk result (λ answer. Takes first from t0 taken (D.told disk.new) (state_of inside.new) number (body_of body.now) answer) }
{
    match body {
        Body::Voice(id, samples) => take_voice(disk, inside, number, *id, samples),
        Body::Other(change) => take_other(disk, inside, number, change),
    }
}

// Takes a packet where nothing is in doubt.
fn take_sure<D: Disk>(disk: &mut D, inside: &mut Inside, packet: &Packet) -> Result<Taken, NoMemory>
    requires standing { IsStanding (D.told disk.old).size inside.old }
    requires sure { inside.old.pending ≡ None }
    requires good { IsGoodPacket (packet_of packet.now) }
    ensures goes { Goes (body_blocks inside.old.journal.shape.block (packet_of packet.now).body + 6) (D.told disk.old) (D.told disk.new) }
    ensures standing { IsStanding (D.told disk.new).size inside.new }
    ensures answers { IfOk result (λ answer. Answers (state_of inside.old) (packet_of packet.now) answer (state_of inside.new)) }
    ensures fault { IfOk result (λ answer. IsOfDevice answer → HasRisen (D.told disk.old).faults (D.told disk.new).faults) }
    ensures refused { IfOk result (λ answer. ¬ IsPut answer → disk.new ≡ disk.old) }
    ensures memory { OnErr result ((state_of inside.new ≡ state_of inside.old) × (disk.new ≡ disk.old)) }
    ensures alloc { inside.new.alloc ≡ inside.old.alloc }
    ensures shape { inside.new.journal.shape ≡ inside.old.journal.shape }
    ensures takes { IsTrue (D.told disk.old).honest → (first : Durable Tagged) (from t0 : ℕ) (taken : List Took) → Keeps first from t0 taken None (D.told disk.old) (state_of inside.old)
        → IfOk result (λ answer. Takes first from t0 taken (D.told disk.new) (state_of inside.new) packet.now.number (packet_of packet.now).body answer) }
{
    if packet.number <= inside.position {
        return Ok(Taken::Again);
    }
    if packet.number - inside.position > 1 {
        return Ok(Taken::Early(inside.position));
    }
    take_body(disk, inside, packet.number, &packet.body)
}

/// Takes a packet. What is in doubt lands first. It makes at most 2 device calls for that, one for each run of blocks of a voice file, and 6.
pub(crate) fn take<D: Disk>(
    disk: &mut D,
    inside: &mut Inside,
    packet: &Packet,
) -> Result<Taken, NoMemory>
    requires standing { IsStanding (D.told disk.old).size inside.old }
    requires good { IsGoodPacket (packet_of packet.now) }
    ensures goes { Goes (packet_calls inside.old.journal.shape.block (packet_of packet.now)) (D.told disk.old) (D.told disk.new) }
    ensures standing { IsStanding (D.told disk.new).size inside.new }
    ensures judges { IfOk result (λ answer. Judges (state_of inside.old) (packet_of packet.now) answer (state_of inside.new)) }
    ensures fault { IfOk result (λ answer. IsOfDevice answer → HasRisen (D.told disk.old).faults (D.told disk.new).faults) }
    ensures refused { IfOk result (λ answer. ¬ IsPut answer → inside.old.pending ≡ None → disk.new ≡ disk.old) }
    ensures memory { OnErr result (state_of inside.new ≡ settled (state_of inside.old)) }
    ensures unwritten { OnErr result (inside.old.pending ≡ None → disk.new ≡ disk.old) }
    ensures alloc { inside.new.alloc ≡ inside.old.alloc }
    ensures shape { inside.new.journal.shape ≡ inside.old.journal.shape }
    ensures takes { IsTrue (D.told disk.old).honest → (first : Durable Tagged) (from t0 : ℕ) (taken : List Took) (doubt : Option (Effect Tagged)) → Keeps first from t0 taken doubt (D.told disk.old) (state_of inside.old)
        → TakesOr first from t0 taken doubt (D.told disk.new) (state_of inside.new) (packet_of packet.now) result }
{
    let Ok(()) = settle(disk, inside) else {
        return Ok(Taken::DiskFault);
    };
    take_sure(disk, inside, packet)
}
